//! The messages of a server: every way of reading the same bytes comes to the same messages.

use crate::bodies::Parts;
use crate::fault::Fault;
use crate::row::Row;
use crate::shown::Shown;
use crate::word::bytes_of;
use bytes::{Bytes, BytesMut};
use pgp_base::Error;
use pgp_message::{FrameParser, Message, Messages, Storage};
use postgres_protocol::session::parse_stream;
use std::alloc::{AllocError, Allocator, Global};
use test_alloc::Refusing;

/// More messages than a row has.
const MOST: usize = 100;

/// Shows a message: its name, its parts, and a `;`.
fn show_message<S: Storage>(message: &Message<S>, out: &mut Shown)
where
    Message<S>: Parts,
{
    out.word(message.name());
    message.show_parts(out);
    out.word(";");
}

fn show_refusal(refusal: Error, out: &mut Shown) {
    out.refusal(refusal);
    out.word(";");
}

/// Shows what was read, and says whether reading goes on.
fn show_step<S: Storage>(read: Result<Option<Message<S>>, Error>, out: &mut Shown) -> bool
where
    Message<S>: Parts,
{
    match read {
        Ok(Some(message)) => {
            show_message(&message, out);
            drop(message);
            true
        }
        Ok(None) => false,
        Err(e) => {
            show_refusal(e, out);
            e != Error::InvalidLength
        }
    }
}

/// Shows the bytes that are left.
fn show_rest(rest: &[u8], out: &mut Shown) {
    out.word("rest");
    out.bytes(rest);
}

/// Appends what comes to a buffer.
fn receive(bytes: &[u8], buf: &mut BytesMut, out: &mut Shown) {
    if buf.extend_from_slice(bytes).is_err() {
        out.fail(Fault::Memory);
    }
}

/// Shows what was read as `show_step` does. Where an allocation failed the message stays, and reading goes on.
fn show_read<A: Allocator>(
    read: Result<Option<Message<Bytes<A>>>, Error>,
    out: &mut Shown,
) -> bool {
    match read {
        Err(Error::OutOfMemory) => true,
        read => show_step(read, out),
    }
}

/// By repeated `Message::parse`.
fn by_parse<A: Allocator + Copy>(buf: &mut BytesMut<A>, out: &mut Shown) {
    for _ in 0..MOST {
        if !show_read(Message::parse(buf), out) {
            break;
        }
    }
    show_rest(buf.as_slice(), out);
}

/// A buffer that holds the bytes.
fn buffer<A: Allocator + Copy>(alloc: A, bytes: &[u8]) -> Result<BytesMut<A>, AllocError> {
    let mut buf = BytesMut::new(alloc);
    buf.extend_from_slice(bytes)?;
    Ok(buf)
}

/// More allocations than a row's messages take.
const ALLOCATIONS: u64 = 1000;

/// The bytes come to this, whichever allocation fails.
fn with_each_failing(bytes: &[u8], wanted: &str, out: &mut Shown) -> Result<(), Fault> {
    for number in 1..ALLOCATIONS {
        let heap = Refusing::new(out.alloc(), 0);
        let mut buf: BytesMut<&Refusing<Global>> = buffer(&heap, bytes)?;
        heap.until_refusal.set(number);
        by_parse(&mut buf, out);
        out.received_to(wanted)?;
        if heap.until_refusal.get() != 0 {
            return Ok(());
        }
    }
    Err(Fault::Row)
}

/// The next message, or a row by the call that takes rows alone.
fn next_in_place<'a>(
    messages: &mut Messages<'a>,
    rows_alone: bool,
) -> Result<Option<Message<&'a [u8]>>, Error> {
    if rows_alone {
        if let Some(row) = messages.next_row() {
            return Ok(Some(Message::DataRow(row)));
        }
    }
    messages.next()
}

/// In place, also with the rows taken alone.
fn in_place(bytes: &[u8], rows_alone: bool, out: &mut Shown) {
    let mut messages = Messages::new(bytes);
    for _ in 0..MOST {
        if !show_step(next_in_place(&mut messages, rows_alone), out) {
            break;
        }
    }
    show_rest(messages.rest(), out);
}

/// Takes what can be taken, and says whether a length stopped it.
fn drain(parser: &mut FrameParser, buf: &mut BytesMut, out: &mut Shown) -> bool {
    for _ in 0..MOST {
        if !parser.fits(buf) {
            out.word("does not fit");
            return true;
        }
        let read = parser.parse(buf);
        let is_stopped = matches!(&read, Err(Error::InvalidLength));
        if !show_step(read, out) {
            return is_stopped;
        }
    }
    false
}

/// By a parser that goes on, a byte at a time.
fn by_bytes(bytes: &[u8], out: &mut Shown) {
    let mut parser = FrameParser::new();
    let mut buf = BytesMut::new(out.alloc());
    let mut is_stopped = false;
    for byte in bytes {
        receive(&[*byte], &mut buf, out);
        if !is_stopped {
            is_stopped = drain(&mut parser, &mut buf, out);
        }
    }
    show_rest(buf.as_slice(), out);
}

fn show_results(results: &[Result<Message<Bytes>, Error>], out: &mut Shown) {
    for result in results {
        match result {
            Ok(message) => show_message(message, out),
            Err(e) => show_refusal(*e, out),
        }
    }
}

/// As a stream of two pieces.
fn in_two(front: &[u8], back: &[u8], out: &mut Shown) {
    let Ok(parsed) = parse_stream(out.alloc(), &[front, back]) else {
        return out.fail(Fault::Memory);
    };
    show_results(parsed.results(), out);
    if parsed.stopped() {
        show_refusal(Error::InvalidLength, out);
    }
    show_rest(parsed.rest(), out);
}

/// In two pieces, cut at each place, the bytes come to this.
fn at_each_cut(bytes: &[u8], wanted: &str, out: &mut Shown) -> Result<(), Fault> {
    for cut in 0..bytes.len() {
        let (front, back) = bytes.split_at(cut);
        in_two(front, back, out);
        out.received_to(wanted)?;
    }
    Ok(())
}

/// The bytes come to this, however they are read.
fn comes_to(bytes: &[u8], wanted: &str, out: &mut Shown) -> Result<(), Fault> {
    by_parse(&mut buffer(out.alloc(), bytes)?, out);
    out.received_to(wanted)?;
    with_each_failing(bytes, wanted, out)?;
    in_place(bytes, false, out);
    out.received_to(wanted)?;
    in_place(bytes, true, out);
    out.received_to(wanted)?;
    by_bytes(bytes, out);
    out.received_to(wanted)?;
    at_each_cut(bytes, wanted, out)
}

/// A row of a server's bytes.
pub fn check_server(row: &Row<'_>, out: &mut Shown) -> Result<(), Fault> {
    comes_to(&bytes_of(out.alloc(), row.left)?, row.right, out)
}
