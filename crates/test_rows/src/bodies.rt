//! What the bodies of a server's messages hold, part by part.

use crate::fault::Fault;
use crate::shown::{Show, Shown};
use crate::walks::show_list;
use bytes::Bytes;
use pgp_base::Error;
use pgp_message::{ErrorField, Field, Message, RowIndex};
use std::alloc::Allocator;
use std::ops::Range;

/// A message whose parts can be shown, wherever it keeps them.
pub trait Parts {
    fn show_parts(&self, out: &mut Shown);
}

/// The place of a column's value, or `null`.
impl Show for Option<Range<usize>> {
    fn show(self, out: &mut Shown) {
        match self {
            Some(place) => match format!(in out.alloc(); "{}..{}", place.start, place.end) {
                Ok(text) => out.word(text.as_str()),
                Err(_) => out.fail(Fault::Memory),
            },
            None => out.word("null"),
        }
    }
}

/// The values that a row's table has, and `more` where it has one after its last, or why there is none.
fn show_values(index: Result<RowIndex<'_>, Error>, out: &mut Shown) {
    let index = match index {
        Ok(index) => index,
        Err(e) => return out.refusal(e),
    };
    out.word("[");
    for i in 0..index.len() {
        match index.value(i) {
            Some(value) => out.nullable(value),
            None => out.word("none"),
        }
    }
    if index.value(index.len()).is_some() || index.value(usize::MAX).is_some() {
        out.word("more");
    }
    out.word("]")
}

/// A column of a row.
impl Show for Field<'_> {
    fn show(self, out: &mut Shown) {
        out.text(self.name());
        out.number(self.table_oid());
        out.number(self.column_id());
        out.number(self.type_oid());
        out.number(self.type_size());
        out.number(self.type_modifier());
        out.number(self.format())
    }
}

/// A field of an error: its letter, its text, and the bytes of that.
impl Show for ErrorField<'_> {
    fn show(self, out: &mut Shown) {
        out.bytes(&[self.type_()]);
        out.text_or_refusal(self.value());
        out.bytes(self.value_bytes())
    }
}

/// A key: its number, and its bytes.
fn show_key(number: Option<i32>, bytes: &[u8], out: &mut Shown) {
    match number {
        Some(number) => out.number(number),
        None => out.word("none"),
    }
    out.bytes(bytes)
}

fn show_texts(first: Result<&str, Error>, second: Result<&str, Error>, out: &mut Shown) {
    out.text_or_refusal(first);
    out.text_or_refusal(second)
}

/// The parts of a message of a log-in, or of one of another kind.
macro_rules! login_parts {
    ($message:ident, $out:ident, $others:ident) => {
        match $message {
            Message::AuthenticationGssContinue(body) => $out.bytes(body.data()),
            Message::AuthenticationMd5Password(body) => $out.bytes(&body.salt()),
            Message::AuthenticationSasl(body) => {
                show_list(body.mechanisms(), body.mechanisms(), $out)
            }
            Message::AuthenticationSaslContinue(body) => $out.bytes(body.data()),
            Message::AuthenticationSaslFinal(body) => $out.bytes(body.data()),
            Message::BackendKeyData(body) => {
                $out.number(body.process_id());
                show_key(body.secret_key(), body.secret_key_bytes(), $out)
            }
            Message::NegotiateProtocolVersion(body) => {
                $out.number(body.version());
                show_list(body.options(), body.options(), $out)
            }
            other => $others(other, $out),
        }
    };
}

/// The parts of a message of a query, or of one of another kind.
macro_rules! query_parts {
    ($message:ident, $out:ident, $others:ident) => {
        match $message {
            Message::CommandComplete(body) => $out.text_or_refusal(body.tag()),
            Message::DataRow(body) => {
                show_list(body.ranges(), body.ranges(), $out);
                $out.bytes(body.buffer());
                show_values(body.index($out.alloc()), $out)
            }
            Message::ParameterDescription(body) => {
                show_list(body.parameters(), body.parameters(), $out)
            }
            Message::RowDescription(body) => show_list(body.fields(), body.fields(), $out),
            Message::ReadyForQuery(body) => $out.bytes(&[body.status()]),
            other => $others(other, $out),
        }
    };
}

/// The parts of any other message.
macro_rules! other_parts {
    ($message:ident, $out:ident) => {
        match $message {
            Message::CopyData(body) => $out.bytes(body.data()),
            Message::CopyInResponse(body) => {
                $out.number(body.format());
                show_list(body.column_formats(), body.column_formats(), $out)
            }
            Message::CopyOutResponse(body) => {
                $out.number(body.format());
                show_list(body.column_formats(), body.column_formats(), $out)
            }
            Message::ErrorResponse(body) => show_list(body.fields(), body.fields(), $out),
            Message::NoticeResponse(body) => show_list(body.fields(), body.fields(), $out),
            Message::NotificationResponse(body) => {
                $out.number(body.process_id());
                show_texts(body.channel(), body.message(), $out)
            }
            Message::ParameterStatus(body) => show_texts(body.name(), body.value(), $out),
            _ => {}
        }
    };
}

fn other_of_shared<A: Allocator>(message: &Message<Bytes<A>>, out: &mut Shown) {
    other_parts!(message, out)
}

fn query_of_shared<A: Allocator>(message: &Message<Bytes<A>>, out: &mut Shown) {
    query_parts!(message, out, other_of_shared)
}

impl<A: Allocator> Parts for Message<Bytes<A>> {
    fn show_parts(&self, out: &mut Shown) {
        login_parts!(self, out, query_of_shared)
    }
}

fn other_in_place(message: &Message<&[u8]>, out: &mut Shown) {
    other_parts!(message, out)
}

fn query_in_place(message: &Message<&[u8]>, out: &mut Shown) {
    query_parts!(message, out, other_in_place)
}

impl Parts for Message<&[u8]> {
    fn show_parts(&self, out: &mut Shown) {
        login_parts!(self, out, query_in_place)
    }
}
