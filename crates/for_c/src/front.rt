//! The messages of a server, read where they stand.

ghost use Rattle.std.specs.Prelude.{◌≡◌, ◌≢◌, ◌<◌, ◌≤◌, ◌^◌, ℕ, ◌-◌, List, ◌∷◌, ◌++◌, length, drop, take, IfSome, IfNone};
ghost use Rattle.pgp_base.specs.Error.{number_of};
ghost use Rattle.pgp_base.specs.Wire.{uint16};
ghost use Rattle.pgp_message.specs.Views.{view};
ghost use Rattle.for_c.specs.Front.{Reported, SaysUnread};
ghost use Rattle.for_c.specs.Parts.{kind_of, no_parts, part};
ghost use Rattle.for_c.specs.Places.{place, two_texts};
ghost use Rattle.for_c.specs.Rows.{code_without_row};
ghost use Rattle.for_c.specs.declared.front.PgpMessage.{PgpMessage as Report};

use crate::cursor::DONE;
use crate::missing::missing;
use pgp_base::reading::{byte_at, uint16_at};
use pgp_base::{Error, FallibleIterator};
use pgp_message::{Message, Messages};

/// The answer where bytes are missing to a complete frame.
const MORE: u32 = 100;

/// The number of a row's kind.
const ROW: u8 = 20;

/// The numbers of the two kinds that no `Message` is.
const COPY_BOTH: u8 = 33;

const CALL_RESULT: u8 = 34;

/// Some of the bytes that a call was handed: so many, from a place on.
#[repr(C)]
#[derive(Clone, Copy)]
pub struct PgpPart {
    pub at: usize,
    pub len: usize,
}

/// What stands at the front of a stream.
#[repr(C)]
#[derive(Clone, Copy)]
pub struct PgpMessage {
    /// How many bytes the frame takes; 0 where it isn't whole, or announces too short a length.
    pub frame: usize,
    /// How many bytes are missing, where its length stands among those that there are; 0 of a complete frame, and where it doesn't.
    pub missing: usize,
    /// The parts of the message.
    pub parts: PgpParts,
    /// The number of the message's kind; 0 where there is none.
    pub kind: u8,
    /// The frame's tag; 0 where `frame` is.
    pub tag: u8,
}

/// The parts of a message, as far as its kind has them; otherwise they are 0.
#[repr(C)]
#[derive(Clone, Copy)]
pub struct PgpParts {
    pub first: PgpPart,
    pub second: PgpPart,
    pub count: usize,
    pub number: i32,
    pub byte: u8,
}

/// What is reported of a message besides its frame.
#[derive(Clone, Copy)]
struct Seen {
    parts: PgpParts,
    kind: u8,
    code: u32,
}

/// The message at the front of the bytes.
#[unsafe(no_mangle)]
pub extern "C" fn pgp_front(bytes: &[u8], message: &mut PgpMessage) -> u32
    ensures { Reported bytes.now message.new result }
{
    let mut messages = Messages::new(bytes);
    // Rows come by the thousand. By a way of their own no row goes through memory before it is
    // reported, and no register is saved for what the others need.
    if let Some(row) = messages.next_row() {
        let frame = bytes.len() - messages.rest().len();
        let parts = counted(7, row.ranges().size_hint().0, frame);
        return reported(frame, ROW, parts, 0, 0, tag_of(bytes, frame), message);
    }
    any_front(bytes, message)
}

/// The same of any message.
#[inline(never)]
fn any_front(bytes: &[u8], message: &mut PgpMessage) -> u32
    ensures { Reported bytes.now message.new result }
{
    let mut messages = Messages::new(bytes);
    let answer = messages.next();
    let frame = bytes.len() - messages.rest().len();
    let tag = tag_of(bytes, frame);
    match answer {
        Ok(None) => reported(frame, 0, none(), MORE, missing(bytes, 1), tag, message),
        Ok(Some(kept)) => reported(frame, kind(&kept), parts(&kept, frame), 0, 0, tag, message),
        Err(e) => {
            let seen = unread(e, tag, frame, bytes);
            reported(frame, seen.kind, seen.parts, seen.code, 0, tag, message)
        }
    }
}

/// What is returned where a row is waited for and none is at the front.
#[cold]
pub fn no_row(bytes: &[u8]) -> u32
    ensures front { (message : Report) × (code : ℕ) × Reported bytes.now message code × (result ≡ code_without_row code) }
    ensures some { result ≢ 0 }
{
    let mut message = PgpMessage {
        frame: 0,
        missing: 0,
        parts: none(),
        kind: 0,
        tag: 0,
    };
    match any_front(bytes, &mut message) {
        0 => DONE,
        code => code,
    }
}

/// Says what stands at the front.
fn reported(
    frame: usize,
    kind: u8,
    parts: PgpParts,
    code: u32,
    missing: usize,
    tag: u8,
    message: &mut PgpMessage,
) -> u32
    ensures code { result ≡ code }
    ensures frame { message.new.frame ≡ frame }
    ensures missing { message.new.missing ≡ missing }
    ensures kind { message.new.kind ≡ kind }
    ensures parts { message.new.parts ≡ parts }
    ensures tag { message.new.tag ≡ tag }
{
    *message = PgpMessage {
        frame,
        missing,
        parts,
        kind,
        tag,
    };
    code
}

/// The tag of the frame of so many bytes; 0 where there is none.
fn tag_of(bytes: &[u8], frame: usize) -> u8
    ensures tag { frame ≢ 0 → frame ≤ length bytes.now → (rest : List ℕ) × (bytes.now ≡ result ∷ rest) }
    ensures untagged { frame ≡ 0 → result ≡ 0 }
{
    match bytes.first() {
        Some(tag) if frame > 0 => *tag,
        _ => 0,
    }
}

/// What is reported of a frame that `Messages` reads no message of: by the tag it may be of the two kinds that no `Message` is.
fn unread(e: Error, tag: u8, frame: usize, bytes: &[u8]) -> Seen
    requires { frame ≤ length bytes.now }
    ensures { SaysUnread bytes.now frame tag e result.parts result.kind result.code }
{
    if tag == b'V' {
        return Seen {
            parts: counted(5, 1, frame),
            kind: CALL_RESULT,
            code: 0,
        };
    }
    if tag != b'W' {
        return refused(e);
    }
    match copy_head(payload(bytes, frame)) {
        Some((format, count)) => Seen {
            parts: copied(format, count, frame),
            kind: COPY_BOTH,
            code: 0,
        },
        None => refused(Error::UnexpectedEof),
    }
}

/// What stands behind the header of a frame of so many bytes.
fn payload(bytes: &[u8], frame: usize) -> &[u8]
    requires { frame ≤ length bytes.now }
    ensures { result.now ≡ drop 5 (take frame bytes.now) }
{
    bytes[..frame].get(5..).unwrap_or(&[])
}

/// What is reported of an error.
fn refused(e: Error) -> Seen
    ensures { result ≡ record { parts = no_parts; kind = 0; code = number_of e } }
{
    Seen {
        parts: none(),
        kind: 0,
        code: u32::from(e.number()),
    }
}

/// The format of a copy and the count of its columns, which stand at the front.
fn copy_head(payload: &[u8]) -> Option<(u8, usize)>
    ensures some { IfSome result (λ x. (x.1 < 2 ^ 16) × (storage : List ℕ) × (payload.now ≡ x.0 ∷ uint16 x.1 ++ storage)) }
    ensures none { IfNone result (length payload.now < 3) }
{
    let Ok((format, behind)) = byte_at(payload) else {
        return None;
    };
    let Ok((count, _)) = uint16_at(behind) else {
        return None;
    };
    Some((format, count as usize))
}

/// No parts.
fn none() -> PgpParts
    ensures { result ≡ no_parts }
{
    PgpParts {
        first: PgpPart { at: 0, len: 0 },
        second: PgpPart { at: 0, len: 0 },
        count: 0,
        number: 0,
        byte: 0,
    }
}

/// The number of a message's kind, from 1, in the order of the variants.
fn kind(message: &Message<&[u8]>) -> u8
    ensures { result ≡ kind_of (view message.now) }
{
    match message {
        Message::AuthenticationCleartextPassword => 1,
        Message::AuthenticationGss => 2,
        Message::AuthenticationGssContinue(_) => 3,
        Message::AuthenticationKerberosV5 => 4,
        Message::AuthenticationMd5Password(_) => 5,
        Message::AuthenticationOk => 6,
        Message::AuthenticationSasl(_) => 7,
        Message::AuthenticationSaslContinue(_) => 8,
        Message::AuthenticationSaslFinal(_) => 9,
        Message::AuthenticationScmCredential => 10,
        Message::AuthenticationSspi => 11,
        Message::BackendKeyData(_) => 12,
        Message::BindComplete => 13,
        Message::CloseComplete => 14,
        Message::CommandComplete(_) => 15,
        Message::CopyData(_) => 16,
        Message::CopyDone => 17,
        Message::CopyInResponse(_) => 18,
        Message::CopyOutResponse(_) => 19,
        Message::DataRow(_) => ROW,
        Message::EmptyQueryResponse => 21,
        Message::ErrorResponse(_) => 22,
        Message::NoData => 23,
        Message::NoticeResponse(_) => 24,
        Message::NotificationResponse(_) => 25,
        Message::ParameterDescription(_) => 26,
        Message::ParameterStatus(_) => 27,
        Message::ParseComplete => 28,
        Message::PortalSuspended => 29,
        Message::ReadyForQuery(_) => 30,
        Message::RowDescription(_) => 31,
        Message::NegotiateProtocolVersion(_) => 32,
    }
}

/// Where the parts of a message stand in its frame, which takes so many of the bytes.
fn parts(message: &Message<&[u8]>, frame: usize) -> PgpParts
    ensures { result ≡ place (view message.now) frame }
{
    match message {
        Message::CommandComplete(_) => one(5, frame.saturating_sub(6)),
        Message::ErrorResponse(_) | Message::NoticeResponse(_) | Message::CopyData(_) => {
            one(5, frame.saturating_sub(5))
        }
        Message::AuthenticationGssContinue(_)
        | Message::AuthenticationSasl(_)
        | Message::AuthenticationSaslContinue(_)
        | Message::AuthenticationSaslFinal(_) => one(9, frame.saturating_sub(9)),
        Message::AuthenticationMd5Password(_) => one(9, 4),
        Message::DataRow(row) => counted(7, row.ranges().size_hint().0, frame),
        Message::RowDescription(row) => counted(7, row.fields().size_hint().0, frame),
        Message::ParameterDescription(row) => counted(7, row.parameters().size_hint().0, frame),
        Message::CopyInResponse(copy) => copied(
            copy.format(),
            copy.column_formats().size_hint().0,
            frame,
        ),
        Message::CopyOutResponse(copy) => copied(
            copy.format(),
            copy.column_formats().size_hint().0,
            frame,
        ),
        Message::BackendKeyData(key) => PgpParts {
            number: key.process_id(),
            ..one(9, frame.saturating_sub(9))
        },
        Message::NegotiateProtocolVersion(answer) => PgpParts {
            number: answer.version(),
            count: answer.options().size_hint().0,
            ..one(13, frame.saturating_sub(13))
        },
        Message::ReadyForQuery(ready) => PgpParts {
            byte: ready.status(),
            ..none()
        },
        Message::ParameterStatus(setting) => {
            two(5, setting.name_bytes(), setting.value_bytes(), frame)
        }
        Message::NotificationResponse(n) => PgpParts {
            number: n.process_id(),
            ..two(9, n.channel_bytes(), n.message_bytes(), frame)
        },
        _ => none(),
    }
}

/// One part.
fn one(at: usize, len: usize) -> PgpParts
    ensures { result ≡ record no_parts { first = part at len } }
{
    PgpParts {
        first: PgpPart { at, len },
        ..none()
    }
}

/// A count, and what stands from this place on.
fn counted(at: usize, count: usize, frame: usize) -> PgpParts
    ensures { result ≡ record no_parts { first = part at (frame - at); count = count } }
{
    PgpParts {
        first: PgpPart {
            at,
            len: frame.saturating_sub(at),
        },
        count,
        ..none()
    }
}

/// A format, a count, and what stands after it.
fn copied(byte: u8, count: usize, frame: usize) -> PgpParts
    ensures { result ≡ record no_parts { first = part 8 (frame - 8); count = count; byte = byte } }
{
    PgpParts {
        first: PgpPart {
            at: 8,
            len: frame.saturating_sub(8),
        },
        count,
        byte,
        ..none()
    }
}

/// Two texts, of which the first begins at this place, and the second ends before the frame's last byte.
fn two(at: usize, first: &[u8], second: &[u8], frame: usize) -> PgpParts
    ensures { result ≡ two_texts at first.now second.now frame }
{
    let second = PgpPart {
        at: frame.saturating_sub(1).saturating_sub(second.len()),
        len: second.len(),
    };
    PgpParts {
        second,
        ..one(at, first.len())
    }
}
