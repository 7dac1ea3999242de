//! An exchange that is held whole: a client of SCRAM-SHA-256.

ghost use Rattle.std.specs.Prelude.{◌≡◌, OnErr, option_map};
ghost use Rattle.std.specs.Option.{option_copied};
ghost use Rattle.pgp_auth.specs.ScramClient.{first_text};
ghost use Rattle.pgp_login.specs.Exchange.{Answers, Begins, Verified, begun_of, bound_of, seen_client};
ghost use Rattle.pgp_login.specs.Held.{begins_bound};

use crate::exchange::{Exchange, put_initial, put_response};
use crate::fault::LoginError;
use crate::login::Ways;
use bytes::BytesMut;
use pgp_auth::authentication::sasl::{ScramError, ScramSha256};
use pgp_base::Memory;
use std::alloc::Global;

/// The ways of a log-in that holds its exchange.
pub type HeldWays<'a, A: Memory = Global> = Ways<'a, ScramSha256<A>>;

impl<A: Memory> Exchange<A> for ScramSha256<A> {
    ghost shown = { seen_client };

    fn is_bound(&self) -> Option<bool> {
        is_bound(self)
    }

    fn begin(&self, _alloc: A, out: &mut BytesMut<A>) -> Result<(), LoginError<A>> {
        begin(self, out)
    }

    fn answer(
        &mut self,
        _alloc: A,
        text: &[u8],
        out: &mut BytesMut<A>,
    ) -> Result<(), LoginError<A>> {
        answer(self, text, out)
    }

    fn verify(&mut self, _alloc: A, text: &[u8]) -> Result<(), LoginError<A>> {
        verify(self, text)
    }
}

/// The text with which it begins, where it may.
fn first_text<A: Memory>(exchange: &ScramSha256<A>) -> Option<&[u8]>
    ensures { option_copied result ≡ option_map first_text (begun_of exchange.now.state) }
{
    match exchange.signature() {
        Some(_) => None,
        None => exchange.message(),
    }
}

/// Whether a first text is that of an exchange that is bound to the channel: it begins with `p` then (RFC 5802, section 6).
fn begins_bound(first: &[u8]) -> bool
    ensures { result ≡ begins_bound first.now }
{
    match first {
        [b'p', ..] => true,
        _ => false,
    }
}

fn is_bound<A: Memory>(exchange: &ScramSha256<A>) -> Option<bool>
    ensures { result ≡ bound_of (seen_client exchange.now) }
{
    match first_text(exchange) {
        Some(first) => Some(begins_bound(first)),
        None => None,
    }
}

pub(crate) fn begin<A: Memory>(
    exchange: &ScramSha256<A>,
    out: &mut BytesMut<A>,
) -> Result<(), LoginError<A>>
    ensures said { Begins A.Lacks (seen_client exchange.now) out.old.items out.new.items result }
    ensures kept { OnErr result (out.new.items ≡ out.old.items) }
{
    let Some(first) = first_text(exchange) else {
        return Err(LoginError::Scram(ScramError::WrongState));
    };
    match put_initial(begins_bound(first), first, out) {
        Ok(()) => Ok(()),
        Err(e) => Err(LoginError::Unwritten(e)),
    }
}

pub(crate) fn answer<A: Memory>(
    exchange: &mut ScramSha256<A>,
    text: &[u8],
    out: &mut BytesMut<A>,
) -> Result<(), LoginError<A>>
    ensures said { Answers A.Lacks text.now (seen_client exchange.old) (seen_client exchange.new) out.old.items out.new.items result }
    ensures kept { OnErr result (out.new.items ≡ out.old.items) }
{
    match exchange.update(text) {
        Ok(()) => {}
        Err(e) => return Err(LoginError::Scram(e)),
    }
    let Some(answer) = exchange.message() else {
        unreachable!()
    };
    match put_response(answer, out) {
        Ok(()) => Ok(()),
        Err(e) => Err(LoginError::Unwritten(e)),
    }
}

fn verify<A: Memory>(exchange: &mut ScramSha256<A>, text: &[u8]) -> Result<(), LoginError<A>>
    ensures { Verified A.Lacks text.now (seen_client exchange.old) result }
{
    match exchange.finish(text) {
        Ok(()) => Ok(()),
        Err(e) => Err(LoginError::Scram(e)),
    }
}
