//! What the calls of a connection test, and what they append.

ghost use Rattle.std.specs.Prelude.{◌≡◌, ◌≢◌, ◌∷◌, ◌++◌, [], Bool, map, None, IfErr, IfSome, OnErr, OnOk};
ghost use Rattle.std.specs.Bool.{Decides};
ghost use Rattle.pgp_base.specs.Cause.{WantsMemory};
ghost use Rattle.pgp_client.specs.Limits.{is_longer, is_status, lacks_status};
ghost use Rattle.pgp_client.specs.Taking.{is_end};
ghost use Rattle.pgp_frontend.specs.ClientMessage.{Startup};
ghost use Rattle.pgp_frontend.specs.Given.{shown as shown_pair};
ghost use Rattle.pgp_frontend.specs.Payload.{minor_of};
ghost use Rattle.pgp_frontend.specs.Reading.{IsNamed};
ghost use Rattle.pgp_frontend_read.specs.Views.{view as sent_view};
ghost use Rattle.pgp_login.specs.Login.{Puts};
ghost use Rattle.pgp_login.specs.Timely.{IsTimely};
ghost use Rattle.pgp_message.specs.Views.{view};
ghost use Rattle.pgp_session.specs.Connection.{done_at, is_bulk, is_part, letter, may_send, next_name, offered_in};

use crate::protocol_options::Offered;
use crate::session_storage::SessionStorage;
use bytes::BytesMut;
use pgp_base::{Error, Memory};
use pgp_client::Event;
use pgp_frontend::ProtocolVersion;
use pgp_frontend_read::ClientMessage;
use pgp_login::LoginPhase;
use pgp_message::{Message, Storage};
use pgp_stream::ClientStream;
use std::alloc::Allocator;

/// Whether it ends the session.
pub(crate) fn is_end(event: Event) -> bool
    ensures { result ≡ is_end event }
{
    match event {
        Event::Ended => true,
        _ => false,
    }
}

/// Whether it is a part of an answer.
#[inline(always)]
fn is_part(event: Event) -> bool
    ensures { result ≡ is_part event }
{
    match event {
        Event::Part(_) => true,
        _ => false,
    }
}

/// Whether the message is a row or data of a copy, and a part of an answer: then it comes to nothing else.
#[inline(always)]
pub(crate) fn is_bulk<S: Storage>(message: &Message<S>, event: Event) -> bool
    ensures { result ≡ is_bulk (view message.now) event }
{
    match message {
        Message::DataRow(_) | Message::CopyData(_) => is_part(event),
        _ => false,
    }
}

/// Whether the log-in is done.
pub(crate) fn is_done(phase: LoginPhase) -> bool
    ensures { result ≡ done_at phase }
{
    match phase {
        LoginPhase::Done => true,
        _ => false,
    }
}

/// Whether the message may come now, where the server answered this about versions.
pub(crate) fn is_timely<A: Allocator, S: SessionStorage>(
    phase: LoginPhase,
    before: Option<ProtocolVersion>,
    sent: &Offered<A>,
    message: &Message<S>,
) -> bool
    ensures { Decides result (IsTimely (done_at phase) before (offered_in sent.now) (view message.now)) }
{
    pgp_login::is_timely(is_done(phase), before, sent, message)
}

/// Whether it is a ReadyForQuery whose status is none of the three that there are.
pub(crate) fn lacks_status<S: Storage>(message: &Message<S>) -> bool
    ensures { result ≡ lacks_status (view message.now) }
{
    match message {
        Message::ReadyForQuery(body) => !is_status(body.status()),
        _ => false,
    }
}

fn is_status(status: u8) -> bool
    ensures { result ≡ is_status status }
{
    status == b'I' || status == b'T' || status == b'E'
}

/// Whether a message may be sent after the log-in: a request where no data of a copy are awaited, or data of a copy where one is under way.
pub(crate) fn may_send(message: &ClientMessage<'_>, copying: bool, awaiting: bool) -> bool
    ensures { result ≡ may_send copying awaiting (sent_view message.now) }
{
    match message {
        ClientMessage::Query(_) | ClientMessage::Parse { .. } | ClientMessage::Bind { .. } =>
            !awaiting,
        ClientMessage::Describe { .. } | ClientMessage::Execute { .. } => !awaiting,
        ClientMessage::Close { .. } => !awaiting,
        ClientMessage::Sync | ClientMessage::Flush => true,
        ClientMessage::CopyData(_) | ClientMessage::CopyDone | ClientMessage::CopyFail(_) =>
            copying,
        _ => false,
    }
}

/// The name after this one.
pub(crate) fn next_name(name: u64) -> u64
    ensures { result ≡ next_name name }
{
    if name == u64::MAX {
        return 0;
    }
    name + 1
}

/// Whether the bytes begin with a header that announces more bytes than the limit.
pub(crate) fn is_too_long(bytes: &[u8], limit: u32) -> bool
    ensures { result ≡ is_longer limit bytes.now }
{
    if bytes.len() < 5 {
        return false;
    }
    limit < u32::from_be_bytes([bytes[1], bytes[2], bytes[3], bytes[4]])
}

/// Whether the server encrypts, where the bytes are its one byte alone.
pub(crate) fn encrypts(piece: &[u8]) -> Option<bool>
    ensures some { IfSome result (λ encrypts. piece.now ≡ letter encrypts ∷ []) }
    ensures none { result ≡ None → (encrypts : Bool) → piece.now ≢ letter encrypts ∷ [] }
{
    match piece {
        [b'S'] => Some(true),
        [b'N'] => Some(false),
        _ => None,
    }
}

/// Appends the startup packet of this version, with these names and values.
pub(crate) fn put_startup<A: Memory>(
    alloc: A,
    version: ProtocolVersion,
    parameters: &[(&str, &str)],
    out: &mut BytesMut<A>,
) -> Result<(), Error>
    requires { IsNamed (Startup (minor_of version) (map shown_pair parameters.now)) }
    ensures put { Puts A.Lacks (Startup (minor_of version) (map shown_pair parameters.now)) out.old.items out.new.items result }
    ensures kept { OnErr result (out.new.items ≡ out.old.items) }
{
    let mut packet = ClientStream::new(alloc);
    match packet.startup_message_version(version, parameters) {
        Ok(()) => append(packet.bytes(), out),
        Err(e) => Err(e),
    }
}

/// Appends bytes.
fn append<A: Memory>(bytes: &[u8], out: &mut BytesMut<A>) -> Result<(), Error>
    ensures ok { OnOk result (out.new.items ≡ out.old.items ++ bytes.now) }
    ensures err { OnErr result (out.new.items ≡ out.old.items) }
    ensures lacks { IfErr result (WantsMemory A.Lacks) }
{
    match A::append(out, bytes) {
        Ok(()) => Ok(()),
        Err(_) => Err(Error::OutOfMemory),
    }
}
