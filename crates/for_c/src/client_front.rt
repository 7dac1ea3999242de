//! The messages of a client, read where they stand.

ghost use Rattle.std.specs.Prelude.{◌≡◌, ◌≢◌, ◌≤◌, ℕ, List, ◌∷◌, length, true, false, Some, None};
ghost use Rattle.pgp_frontend.specs.ClientMessage.{PasswordKind as Kind};
ghost use Rattle.pgp_frontend_read.specs.Step.{place as length_place};
ghost use Rattle.pgp_frontend_read.specs.Views.{kind_view, view};
ghost use Rattle.for_c.specs.ClientFront.{ReportsClient, kind_seen, password_kind_at};
ghost use Rattle.for_c.specs.ClientParts.{kind_of};
ghost use Rattle.for_c.specs.ClientPlaces.{place};
ghost use Rattle.for_c.specs.ClientParts.{no_client_parts};

use crate::client_places::{PgpClientParts, none, parts};
use crate::missing::missing;
use pgp_frontend_read::{ClientError, ClientMessage, ClientMessages, PasswordKind};

/// The result where bytes are missing to a complete message.
const MORE: u32 = 100;

/// The result where a number is that of no kind.
const NO_KIND: u32 = 35;

/// The result where an opening packet has the code of none.
const UNKNOWN_PACKET: u32 = 38;

/// What stands at the front of a client's stream.
#[repr(C)]
#[derive(Clone, Copy)]
pub struct PgpClientMessage {
    /// How many bytes the message takes; 0 where it isn't whole, or can't be passed.
    pub frame: usize,
    /// How many bytes are missing, where its length stands among those that there are; 0 of a complete message, and where it doesn't.
    pub missing: usize,
    /// The parts of the message.
    pub parts: PgpClientParts,
    /// The number of the message's kind; 0 where there is none.
    pub kind: u8,
    /// The message's tag; 0 of an opening packet, and where `frame` is.
    pub tag: u8,
    /// Whether a startup packet was read, after the message.
    pub is_open: bool,
}

/// The message at the front of the bytes. `is_open` says whether a startup packet was read, and `expected` which message of tag `p`
/// is expected: 0 a password, 1 the first text of a SASL exchange, 2 a later one.
#[unsafe(no_mangle)]
pub extern "C" fn pgp_client_front(
    bytes: &[u8],
    is_open: bool,
    expected: u8,
    message: &mut PgpClientMessage,
) -> u32
    ensures read { (kind : Kind) → password_kind_at expected ≡ Some kind → ReportsClient kind bytes.now is_open message.new result }
    ensures no_kind { password_kind_at expected ≡ None → result ≡ 35 }
    ensures left { password_kind_at expected ≡ None → message.new ≡ message.old }
{
    match password_kind(expected) {
        Some(kind) => front(bytes, is_open, kind, message),
        None => NO_KIND,
    }
}

/// The kind of this number.
fn password_kind(number: u8) -> Option<PasswordKind>
    ensures { kind_seen result ≡ password_kind_at number }
{
    match number {
        0 => Some(PasswordKind::Password),
        1 => Some(PasswordKind::Initial),
        2 => Some(PasswordKind::Response),
        _ => None,
    }
}

/// The message at the front, where this kind is expected.
fn front(bytes: &[u8], is_open: bool, kind: PasswordKind, message: &mut PgpClientMessage) -> u32
    ensures { ReportsClient (kind_view kind) bytes.now is_open message.new result }
{
    let mut messages = ClientMessages::resume(bytes, is_open);
    let answer = messages.next(kind);
    let frame = bytes.len().saturating_sub(messages.rest().len());
    let read = PgpClientMessage {
        frame,
        missing: 0,
        parts: none(),
        kind: 0,
        tag: tag(is_open, bytes, frame),
        is_open: messages.is_open(),
    };
    match answer {
        Ok(Some(kept)) => {
            let kind = kind_number(&kept);
            let parts = parts(&kept, frame);
            report(
                PgpClientMessage {
                    parts,
                    kind,
                    ..read
                },
                0,
                message,
            )
        }
        Ok(None) => report(
            PgpClientMessage {
                missing: missing(bytes, place(is_open)),
                ..read
            },
            MORE,
            message,
        ),
        Err(ClientError::Reading(e)) => report(read, u32::from(e.number()), message),
        Err(ClientError::UnknownPacket(code)) => report(
            PgpClientMessage {
                parts: PgpClientParts {
                    number: code,
                    ..none()
                },
                ..read
            },
            UNKNOWN_PACKET,
            message,
        ),
    }
}

/// How many bytes stand before the length of a message.
fn place(is_open: bool) -> usize
    ensures { result ≡ length_place is_open }
{
    if is_open { 1 } else { 0 }
}

/// Reports what stands at the front.
fn report(read: PgpClientMessage, code: u32, message: &mut PgpClientMessage) -> u32
    ensures code { result ≡ code }
    ensures read { message.new ≡ read }
{
    *message = read;
    code
}

/// The tag of a message that takes so many bytes.
fn tag(is_open: bool, bytes: &[u8], frame: usize) -> u8
    ensures tag { is_open ≡ true → frame ≢ 0 → frame ≤ length bytes.now → (rest : List ℕ) × (bytes.now ≡ result ∷ rest) }
    ensures untagged { frame ≡ 0 → result ≡ 0 }
    ensures opening { is_open ≡ false → result ≡ 0 }
{
    if !is_open {
        return 0;
    }
    match bytes.first() {
        Some(tag) if frame > 0 => *tag,
        _ => 0,
    }
}

/// The number of a message's kind, from 1, in the order of the variants.
fn kind_number(message: &ClientMessage<'_>) -> u8
    ensures { result ≡ kind_of (view message.now) }
{
    match message {
        ClientMessage::Bind { .. } => 1,
        ClientMessage::Close { .. } => 2,
        ClientMessage::CopyData(_) => 3,
        ClientMessage::CopyDone => 4,
        ClientMessage::CopyFail(_) => 5,
        ClientMessage::Describe { .. } => 6,
        ClientMessage::Execute { .. } => 7,
        ClientMessage::Flush => 8,
        ClientMessage::FunctionCall { .. } => 9,
        ClientMessage::Parse { .. } => 10,
        ClientMessage::PasswordMessage(_) => 11,
        ClientMessage::Query(_) => 12,
        ClientMessage::SaslInitialResponse { .. } => 13,
        ClientMessage::SaslResponse(_) => 14,
        ClientMessage::Sync => 15,
        ClientMessage::Terminate => 16,
        ClientMessage::Startup { .. } => 17,
        ClientMessage::CancelRequest { .. } => 18,
        ClientMessage::SslRequest => 19,
        ClientMessage::GssEncRequest => 20,
    }
}
