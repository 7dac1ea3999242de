//! What a client sends, read: whole, from each front on, and cut at each place.

use crate::client_parts::show_call;
use crate::client_steps::Kinds;
use crate::fault::Fault;
use crate::row::Row;
use crate::shown::Shown;
use crate::word::{Item, Word, Words, words_of};
use bytes::BytesMut;
use pgp_base::{Error, Window};
use pgp_frontend_read::{
    ClientError, ClientMessage, ClientMessages, PasswordKind, forward, read_session,
};
use std::alloc::Global;

/// More messages than a row has.
const MOST: usize = 100;

/// The bytes of a client, and how they are read.
#[derive(Drop)]
struct Sent<'s> {
    opened: bool,
    kinds: &'s [PasswordKind],
    bytes: &'s [u8],
}

fn show_refusal(refusal: ClientError, out: &mut Shown) {
    match refusal {
        ClientError::UnknownPacket(code) => {
            out.word("UnknownPacket");
            out.number(code);
        }
        ClientError::Reading(e) => out.refusal(e),
    }
    out.word(";");
}

/// In memory that is a byte short a message isn't forwarded. Otherwise that is shown.
fn needs_its_room(message: &ClientMessage<'_>, len: usize, out: &mut Shown) {
    let Ok(mut room) = vec![in out.alloc(); 0u8; len.saturating_sub(1)] else {
        return out.fail(Fault::Memory);
    };
    let mut window = Window::new(&mut room);
    if forward(message, &mut window) != Err(Error::OutOfMemory) {
        out.word("forwarded in too little memory");
    }
}

/// The message, written again, is the bytes that stood there; in memory that is a byte short it is refused. Otherwise that is shown.
fn forwards(message: &ClientMessage<'_>, stood: &[u8], out: &mut Shown) {
    let mut buf = BytesMut::new(out.alloc());
    if let Err(e) = forward(message, &mut buf) {
        out.refusal(e);
    }
    if buf.as_slice() != stood {
        out.word("forwarded as");
        out.bytes(buf.as_slice());
    }
    needs_its_room(message, stood.len(), out);
}

/// Each message that is read is forwarded.
fn forward_each(sent: &Sent<'_>, out: &mut Shown) {
    let mut kinds = Kinds::new(sent.kinds);
    let mut reader = ClientMessages::resume(sent.bytes, sent.opened);
    for _ in 0..MOST {
        let left = reader.rest().len();
        match reader.next_with_bytes(kinds.first()) {
            Ok(Some((message, stood))) => {
                forwards(&message, stood, out);
                kinds.pass(&message);
                drop(message);
            }
            Ok(None) => return,
            Err(_) => {
                if reader.rest().len() == left {
                    return;
                }
            }
        }
    }
    out.word("endless");
}

/// Shows what is read, and says whether an error stopped it.
fn read_on(reader: &mut ClientMessages<'_>, kinds: &mut Kinds<'_>, out: &mut Shown) -> bool {
    for _ in 0..MOST {
        let left = reader.rest().len();
        match reader.next(kinds.first()) {
            Ok(Some(message)) => {
                kinds.pass(&message);
                show_call(message, out);
                out.word(";");
            }
            Ok(None) => return false,
            Err(e) => {
                show_refusal(e, out);
                if reader.rest().len() == left {
                    return true;
                }
            }
        }
    }
    out.word("endless");
    true
}

/// Reads the front as far as it goes, and on from there over all bytes.
fn in_two(sent: &Sent<'_>, cut: usize, out: &mut Shown) {
    let mut kinds = Kinds::new(sent.kinds);
    let front = sent.bytes.get(..cut).unwrap_or(&[]);
    let mut reader = ClientMessages::resume(front, sent.opened);
    let is_stopped = read_on(&mut reader, &mut kinds, out);
    let at = front.len().saturating_sub(reader.rest().len());
    let rest = sent.bytes.get(at..).unwrap_or(&[]);
    let mut reader = ClientMessages::resume(rest, reader.is_open());
    if !is_stopped {
        read_on(&mut reader, &mut kinds, out);
    }
    out.word("rest");
    out.bytes(reader.rest());
}

/// All at once: what `read_session` lists begins what comes step by step.
fn at_once(sent: &Sent<'_>, wanted: &str, out: &mut Shown) -> Result<(), Fault> {
    let (messages, refusal) = read_session(out.alloc(), sent.kinds, sent.bytes)?;
    for message in messages {
        show_call(message, out);
        out.word(";");
    }
    if let Some(e) = refusal {
        show_refusal(e, out);
    }
    let front = wanted.get(..out.as_str().len()).unwrap_or("");
    out.received_to(front)
}

/// Comes to this, however the bytes are cut, and each message is forwarded.
fn comes_to(sent: &Sent<'_>, wanted: &str, out: &mut Shown) -> Result<(), Fault> {
    for cut in 0..=sent.bytes.len() {
        in_two(sent, cut, out);
        out.received_to(wanted)?;
    }
    if !sent.opened {
        at_once(sent, wanted, out)?;
    }
    forward_each(sent, out);
    out.received_to("")
}

/// The kind of a message of tag `p`.
impl<'w> Item<'w> for PasswordKind {
    fn read(words: &mut Words<'w>) -> PasswordKind {
        if words.takes("initial") {
            return PasswordKind::Initial;
        }
        if words.takes("response") {
            return PasswordKind::Response;
        }
        words.expect("password");
        PasswordKind::Password
    }
}

/// The words of a row after its call: `first` or `open`, the kinds of the messages of tag `p`, and the bytes.
fn check_sent(words: &mut Words<'_>, wanted: &str, out: &mut Shown) -> Result<(), Fault> {
    let opened = words.either("open", "first");
    let kinds = words.list::<PasswordKind>();
    let bytes = words.joined();
    out.keep(words.end());
    let sent = Sent {
        opened,
        kinds: &kinds,
        bytes: &bytes,
    };
    comes_to(&sent, wanted, out)
}

/// A row of a client's bytes: `read` or `read_any`, which is the same, and its words.
pub fn check_client_read(row: &Row<'_>, out: &mut Shown) -> Result<(), Fault> {
    if row.call != "read" && row.call != "read_any" {
        return Err(Fault::Row);
    }
    let all = words_of(out.alloc(), row.left)?;
    check_sent(&mut Words::new(out.alloc(), &all), row.right, out)
}

/// The kind of the message that a call writes.
fn kind_of(call: &str) -> PasswordKind {
    match call {
        "sasl_initial_response" => PasswordKind::Initial,
        "sasl_response" => PasswordKind::Response,
        _ => PasswordKind::Password,
    }
}

/// Shows a call and its words as a message and its parts are shown.
fn show_words(call: &str, words: &[Word], out: &mut Shown) {
    out.word(call);
    for word in words {
        word.show(out);
    }
}

/// Shows `cancel_request` as it is read back: its key as bytes.
fn show_cancel(words: &[Word], out: &mut Shown) {
    let mut words = Words::new(out.alloc(), words);
    out.word("cancel_request_key");
    out.number(words.number::<i32>());
    out.bytes(&words.number::<i32>().to_be_bytes());
}

/// Shows the message of a call, and says whether it comes in a session.
fn show_written(call: &str, words: &[Word], out: &mut Shown) -> bool {
    match call {
        "startup_message" => {
            show_words("startup_message_version 3.0", words, out);
            out.word("of any");
        }
        "startup_message_version" => {
            show_words(call, words, out);
            out.word("of any");
        }
        "cancel_request" => show_cancel(words, out),
        "cancel_request_key" | "ssl_request" => show_words(call, words, out),
        _ => {
            show_words(call, words, out);
            return true;
        }
    }
    false
}

/// Whether a startup packet has an empty name, which no server reads.
fn has_empty_name(call: &str, words: &[Word], alloc: Global) -> bool {
    let mut words = Words::new(alloc, words);
    if call != "startup_message" && call != "startup_message_version" {
        return false;
    }
    let _version = words.takes("3.0") || words.takes("3.2");
    for (name, _) in words.list::<(&str, &str)>() {
        if name.is_empty() {
            return true;
        }
    }
    false
}

/// Shows what comes back of a call that wrote these bytes, and says whether it comes in a session.
fn show_read_back(call: &str, words: &[Word], bytes: &[u8], out: &mut Shown) -> bool {
    if has_empty_name(call, words, out.alloc()) {
        out.word("NotDrained ; rest");
        out.bytes(bytes);
        return false;
    }
    let opened = show_written(call, words, out);
    out.word("; rest \"\"");
    opened
}

/// What a call wrote is read back, as this call and nothing else.
pub fn is_read_back(row: &Row<'_>, out: &mut Shown) -> Result<(), Fault> {
    let alloc = out.alloc();
    let words = words_of(alloc, row.left)?;
    let bytes = row.wanted_bytes(alloc)?;
    let mut wanted = Shown::new(alloc);
    let opened = show_read_back(row.call, &words, &bytes, &mut wanted);
    let kinds = [kind_of(row.call)];
    let sent = Sent {
        opened,
        kinds: &kinds,
        bytes: &bytes,
    };
    comes_to(&sent, wanted.as_str(), out)
}
