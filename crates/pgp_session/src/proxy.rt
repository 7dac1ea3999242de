//! A proxy's core: it passes a client's messages on byte for byte, and holds back those whose statement is rejected.
//! It answers the client nothing itself.

ghost use Rattle.std.specs.Prelude.{◌≡◌, List, Ok, option_map};
ghost use Rattle.pgp_base.specs.Held.{Held};
ghost use Rattle.pgp_frontend.specs.ClientMessage.{PasswordKind as Kind};
ghost use Rattle.pgp_frontend_read.specs.Forwards.{Forwards};
ghost use Rattle.pgp_frontend_read.specs.Step.{Unread};
ghost use Rattle.pgp_frontend_read.specs.Views.{kind_view, view};
ghost use Rattle.pgp_session.specs.Proxy.{Call, IsListed, PassesOn, Proxies, ProxiesAll, all_forwarded, statement_of};
ghost use Rattle.std.specs.Bool.{Decides};
ghost use Rattle.std.specs.Borrow.{Bor};
ghost use Rattle.std.specs.Prelude.{ℕ};

use pgp_base::Buffer;
use pgp_frontend_read::{ClientError, ClientMessage, ClientMessages, PasswordKind};

/// What became of a message.
#[derive(Debug, Clone, Copy, PartialEq, Eq)]
pub enum Passed {
    /// The server gets its bytes.
    Forwarded,
    /// The server gets nothing of it: its statement is rejected.
    HeldBack,
}

/// Why nothing is passed on.
#[derive(Debug, Clone, Copy, PartialEq, Eq)]
pub enum ProxyError {
    /// No message stands there.
    NoMessage(ClientError),
    /// The buffer can't grow.
    OutOfMemory,
}

/// Passes the client's next message on to the server's buffer, unless it is a Query or a Parse with one of the forbidden
/// statements; `None` where bytes of it are missing.
///
/// # Errors
///
/// `NoMessage` as `ClientMessages::next` returns it: a frame that is no message isn't passed on. `OutOfMemory`; the message is
/// read again by the next call then.
pub fn pass_on<B: Buffer>(
    refused: &[&[u8]],
    kind: PasswordKind,
    from: &mut ClientMessages<'_>,
    to: &mut B,
) -> Result<Option<Passed>, ProxyError>
    ensures { Proxies refused.now (kind_view kind) B.Lacks from.old (B.held to.old) result from.new (B.held to.new) }
{
    let mut messages = ClientMessages::resume(from.rest(), from.is_open());
    match messages.next_with_bytes(kind) {
        Ok(Some((message, bytes))) => {
            if is_refused(refused, &message) {
                *from = messages;
                return Ok(Some(Passed::HeldBack));
            }
            if to.append(bytes).is_err() {
                return Err(ProxyError::OutOfMemory);
            }
            *from = messages;
            Ok(Some(Passed::Forwarded))
        }
        Ok(None) => Ok(None),
        Err(e) => {
            *from = messages;
            Err(ProxyError::NoMessage(e))
        }
    }
}

/// What calls one after the other come to. All: what went out are the bytes that came, without the messages whose statement is
/// rejected, each message as its call read it. Up to the first of these: what went out are the bytes that came.
pub fn what_went_out_is_what_came_in<B: Buffer>()
    ensures all { (refused : List (Bor (List ℕ))) (calls : List Call) (from next : Unread) (old new : Held B.Kept) →
        ProxiesAll refused B.Lacks calls from old next new → PassesOn refused calls from old next new }
    ensures up_to_the_first { (refused : List (Bor (List ℕ))) (kinds : List Kind) (from next : Unread) (old new : Held B.Kept) →
        ProxiesAll refused B.Lacks (all_forwarded kinds) from old next new → Forwards B.Lacks from.bytes next.bytes old new (Ok tt) }
{}

/// Whether the message brings one of these statements.
fn is_refused(refused: &[&[u8]], message: &ClientMessage<'_>) -> bool
    ensures { Decides result (IsListed refused.now (statement_of (view message.now))) }
{
    match statement_of(message) {
        Some(text) => refused.contains(&text),
        None => false,
    }
}

/// The statement that the message brings.
fn statement_of<'a>(message: &ClientMessage<'a>) -> Option<&'a [u8]>
    ensures { option_map (λ text. text.now) result ≡ statement_of (view message.now) }
{
    match message {
        ClientMessage::Query(query) | ClientMessage::Parse { query, .. } => Some(query),
        _ => None,
    }
}
