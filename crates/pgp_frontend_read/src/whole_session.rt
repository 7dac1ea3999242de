//! A whole session, read at once.

ghost use Rattle.std.specs.Prelude.{◌≡◌, [], map, is_some, IfOk, OnErr};
ghost use Rattle.pgp_frontend.specs.Payload.{kind_of};
ghost use Rattle.pgp_frontend_read.specs.Reads.{ReadsSession, ReadsOn, next_kind, kinds_behind};
ghost use Rattle.pgp_frontend_read.specs.Views.{kind_view, view};

use crate::error::ClientError;
use crate::message::{ClientMessage, PasswordKind};
use crate::messages::ClientMessages;
use pgp_base::Memory;
use std::alloc::AllocError;

/// The messages at the front of a client's bytes, up to where the bytes wait for more or a message is rejected, and the
/// error. The server is given the kinds of the messages of tag `p` in order; past the last of them it expects passwords.
///
/// # Errors
///
/// Returns `AllocError` if the list wasn't given memory.
pub fn read_session<'a, A: Memory>(
    alloc: A,
    kinds: &[PasswordKind],
    bytes: &'a [u8],
) -> Result<(Vec<ClientMessage<'a>, A>, Option<ClientError>), AllocError>
    ensures read { IfOk result (λ read. ReadsSession (map kind_view kinds.now) bytes.now (map view read.0.items) read.1) }
    ensures lacks { OnErr result A.Lacks }
{
    let mut reader = ClientMessages::new(bytes);
    let mut messages = Vec::new(alloc);
    let end = read_on(kinds, &mut reader, &mut messages)?;
    Ok((messages, end))
}

/// Reads on, and adds what was read to the list.
fn read_on<'a, A: Memory>(
    kinds: &[PasswordKind],
    reader: &mut ClientMessages<'a>,
    messages: &mut Vec<ClientMessage<'a>, A>,
) -> Result<Option<ClientError>, AllocError>
    requires { messages.old.items ≡ [] }
    ensures read { IfOk result (λ end. ReadsOn (map kind_view kinds.now) reader.old (map view messages.new.items) end reader.new) }
    ensures lacks { OnErr result A.Lacks }
{
    let mut rest = kinds;
    'messages: loop {
        match reader.next(next_kind(rest)) {
            Ok(Some(message)) => {
                rest = kinds_behind(&message, rest);
                if A::push(messages, message).is_err() {
                    return Err(AllocError);
                }
            }
            Ok(None) => return Ok(None),
            Err(e) => return Ok(Some(e)),
        }
    }
}

/// The kind that is expected next.
fn next_kind(kinds: &[PasswordKind]) -> PasswordKind
    ensures { kind_view result ≡ next_kind (map kind_view kinds.now) }
{
    match kinds {
        [] => PasswordKind::Password,
        [first, ..] => *first,
    }
}

/// The kinds that are expected after the message.
fn kinds_behind<'k>(message: &ClientMessage, kinds: &'k [PasswordKind]) -> &'k [PasswordKind]
    ensures { map kind_view result.now ≡ kinds_behind (view message.now) (map kind_view kinds.now) }
{
    if !is_reported(message) {
        return kinds;
    }
    match kinds {
        [] => kinds,
        [_, rest @ ..] => rest,
    }
}

/// Whether a server is given the message's kind.
fn is_reported(message: &ClientMessage) -> bool
    ensures { result ≡ is_some (kind_of (view message.now)) }
{
    match message {
        ClientMessage::PasswordMessage(_) => true,
        ClientMessage::SaslInitialResponse { .. } => true,
        ClientMessage::SaslResponse(_) => true,
        _ => false,
    }
}
