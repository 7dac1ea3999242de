//! An exchange of SCRAM-SHA-256 as a log-in calls it, and the messages that it sends.

ghost use Rattle.std.specs.Prelude.{◌≡◌, OnErr, Some};
ghost use Rattle.pgp_frontend_read.specs.Views.{view};
ghost use Rattle.pgp_frontend.specs.ClientMessage.{SaslInitialResponse, SaslResponse};
ghost use Rattle.pgp_login.specs.Exchange.{Answers, Begins, Seen, Verified, bound_of, mechanism_by};
ghost use Rattle.pgp_login.specs.Login.{Puts};

use crate::fault::LoginError;
use bytes::BytesMut;
use pgp_base::{Error, Memory};
use pgp_frontend_read::{ClientMessage, forward};

/// An exchange of SCRAM-SHA-256, however it is kept.
pub trait Exchange<A: Memory>: Drop {
    /// What it is.
    ghost shown: { Self → Seen };

    /// Whether it is bound to the channel; `None` where it may not begin.
    fn is_bound(&self) -> Option<bool>
        ensures { result ≡ bound_of (shown self.now) };

    /// Appends its first message.
    fn begin(&self, alloc: A, out: &mut BytesMut<A>) -> Result<(), LoginError<A>>
        ensures said { Begins A.Lacks (shown self.now) out.old.items out.new.items result }
        ensures kept { OnErr result (out.new.items ≡ out.old.items) };

    /// Takes the server's first text, and appends the answer.
    fn answer(&mut self, alloc: A, text: &[u8], out: &mut BytesMut<A>) -> Result<(), LoginError<A>>
        ensures said { Answers A.Lacks text.now (shown self.old) (shown self.new) out.old.items out.new.items result }
        ensures kept { OnErr result (out.new.items ≡ out.old.items) };

    /// Takes the server's final text, which has to show the signature that is awaited.
    fn verify(&mut self, alloc: A, text: &[u8]) -> Result<(), LoginError<A>>
        ensures { Verified A.Lacks text.now (shown self.old) result };
}

/// The mechanism of an exchange that is bound to the channel, or isn't.
pub(crate) fn mechanism(bound: bool) -> &'static str
    ensures { result.now ≡ mechanism_by bound }
{
    if bound {
        return "SCRAM-SHA-256-PLUS";
    }
    "SCRAM-SHA-256"
}

/// Appends the first message of an exchange.
pub(crate) fn put_initial<A: Memory>(
    bound: bool,
    text: &[u8],
    out: &mut BytesMut<A>,
) -> Result<(), Error>
    ensures put { Puts A.Lacks (SaslInitialResponse (mechanism_by bound) (Some text.now)) out.old.items out.new.items result }
    ensures kept { OnErr result (out.new.items ≡ out.old.items) }
{
    let message = ClientMessage::SaslInitialResponse {
        mechanism: mechanism(bound).as_bytes(),
        response: Some(text),
    };
    put(&message, out)
}

/// Appends the answer to the server's first text.
pub(crate) fn put_response<A: Memory>(text: &[u8], out: &mut BytesMut<A>) -> Result<(), Error>
    ensures put { Puts A.Lacks (SaslResponse text.now) out.old.items out.new.items result }
    ensures kept { OnErr result (out.new.items ≡ out.old.items) }
{
    put(&ClientMessage::SaslResponse(text), out)
}

/// Appends a message.
pub fn put<A: Memory>(message: &ClientMessage<'_>, out: &mut BytesMut<A>) -> Result<(), Error>
    ensures put { Puts A.Lacks (view message.now) out.old.items out.new.items result }
    ensures kept { OnErr result (out.new.items ≡ out.old.items) }
{
    forward(message, out)
}
