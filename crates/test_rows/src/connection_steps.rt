//! What the steps of a connection's session do, and what is shown of them. A call for which memory is lacking is made again.

use crate::connection_calls::{make, outcome_of};
use crate::dialogue::show;
use crate::fault::Fault;
use crate::shown::Shown;
use bytes::BytesMut;
use pgp_base::Error;
use pgp_client::{Event, Refusal};
use pgp_message::Message;
use pgp_session::{Connection, ConnectionError, ProtocolVersion};
use std::alloc::Allocator;

/// What comes of lacks of memory in a session: how many calls were made again, and whether one has ended it.
#[derive(Drop)]
pub struct Turn {
    pub again: u64,
    pub is_over: bool,
}

/// Why a message isn't taken.
fn fault_of<A: Allocator>(error: &ConnectionError<A>) -> &'static str {
    match error {
        ConnectionError::TooLong => "TooLong",
        ConnectionError::Unkept(_) => "Unkept",
        ConnectionError::Malformed(_) => "Malformed",
        ConnectionError::Misplaced(Refusal::Unexpected) => "Unexpected",
        ConnectionError::Misplaced(Refusal::Uncertain) => "Uncertain",
        ConnectionError::Undue => "Undue",
        ConnectionError::NotAdmitted => "NotAdmitted",
        ConnectionError::NotOffered => "NotOffered",
        ConnectionError::TooFewRounds => "TooFewRounds",
        ConnectionError::BadStatus => "BadStatus",
        ConnectionError::Scram(_) => "Scram",
        _ => "Other",
    }
}

/// Shows why a message isn't taken, and returns whether memory was lacking.
fn show_fault<A: Allocator>(error: ConnectionError<A>, out: &mut Shown) -> bool {
    let fault = fault_of(&error);
    let number = match &error {
        ConnectionError::Scram(e) => Some(e.number()),
        _ => None,
    };
    match outcome_of::<(), A>(Err(error)) {
        Err(Error::OutOfMemory) => true,
        _ => {
            out.word(fault);
            if let Some(number) = number {
                out.number(number);
            }
            false
        }
    }
}

/// What the next message came to: its event, no message, a fault that is shown, or a lack of memory.
#[derive(Clone, Copy, PartialEq, Eq)]
enum Taken {
    Event(Event),
    Nothing,
    Fault,
    Lack,
}

fn taken_of<A: Allocator>(
    taken: Result<Option<Event>, ConnectionError<A>>,
    out: &mut Shown,
) -> Taken {
    match taken {
        Ok(Some(event)) => Taken::Event(event),
        Ok(None) => Taken::Nothing,
        Err(e) => match show_fault(e, out) {
            true => Taken::Lack,
            false => Taken::Fault,
        },
    }
}

/// The next message, which is read in place or handed out.
fn take<A: Allocator + Copy>(
    connection: &mut Connection<'_, A>,
    in_place: bool,
    out: &mut Shown,
) -> Taken {
    if in_place {
        return taken_of(connection.advance(), out);
    }
    match connection.next() {
        Ok(Some((event, message))) => {
            drop(message);
            Taken::Event(event)
        }
        Ok(None) => Taken::Nothing,
        Err(e) => taken_of(Err(e), out),
    }
}

/// Whether the connection is over, with as much to send as before.
fn is_over<A: Allocator + Copy>(connection: &mut Connection<'_, A>, to_send: usize) -> bool {
    connection.to_send().len() == to_send
        && !connection.is_logged_in()
        && connection.feed(b"").is_err()
}

/// Takes the next message, once more where memory is lacking; a lack for a reply or a setting ends the connection.
fn take_again<A: Allocator + Copy>(
    connection: &mut Connection<'_, A>,
    in_place: bool,
    turn: &mut Turn,
    out: &mut Shown,
) -> Taken {
    let to_send = connection.to_send().len();
    let taken = match take(connection, in_place, out) {
        Taken::Lack => {
            turn.again = turn.again.saturating_add(1);
            turn.is_over = is_over(connection, to_send);
            match turn.is_over {
                true => return Taken::Lack,
                false => take(connection, in_place, out),
            }
        }
        taken => taken,
    };
    if taken == Taken::Fault && !is_over(connection, to_send) {
        out.word("goes on");
    }
    taken
}

/// Whether the message that was taken last is there to be read.
fn is_there<A: Allocator + Copy>(connection: &Connection<'_, A>) -> bool {
    match connection.message() {
        Some(message) => {
            drop(message);
            true
        }
        None => false,
    }
}

/// Shows the next message, which is there in place alone; one that ends the connection is left to a step that looks.
pub fn show_next<A: Allocator + Copy>(
    connection: &mut Connection<'_, A>,
    in_place: bool,
    turn: &mut Turn,
    out: &mut Shown,
) {
    let is_wanted = match take_again(connection, in_place, turn, out) {
        Taken::Event(event) => {
            show(Ok(event), out);
            in_place
        }
        Taken::Nothing => {
            out.word("none");
            false
        }
        Taken::Fault | Taken::Lack => return,
    };
    if is_there(connection) != is_wanted {
        out.word("misplaced");
    }
}

/// Bytes come, once more where memory is lacking.
pub fn feed<A: Allocator + Copy>(
    connection: &mut Connection<'_, A>,
    bytes: &[u8],
    turn: &mut Turn,
    out: &mut Shown,
) {
    let mut fed = outcome_of(connection.feed(bytes));
    if fed == Err(Error::OutOfMemory) {
        turn.again = turn.again.saturating_add(1);
        fed = outcome_of(connection.feed(bytes));
    }
    if fed.is_err() {
        out.word("not fed");
    }
}

/// Each of these messages comes in two pieces, behind the first of which there is none.
pub fn hear<A: Allocator + Copy>(
    connection: &mut Connection<'_, A>,
    messages: &[&[u8]],
    in_place: bool,
    turn: &mut Turn,
    out: &mut Shown,
) {
    for message in messages {
        let (front, rest) = message.split_at(message.len().min(3));
        feed(connection, front, turn, out);
        if take_again(connection, in_place, turn, out) != Taken::Nothing {
            out.word("early");
        }
        feed(connection, rest, turn, out);
        show_next(connection, in_place, turn, out);
        if turn.is_over {
            return;
        }
    }
}

/// All of these messages come, and are read in place and handed out in turn, in place the first (0) or the second (1).
pub fn hear_in_turns<A: Allocator + Copy>(
    connection: &mut Connection<'_, A>,
    messages: &[&[u8]],
    first: usize,
    turn: &mut Turn,
    out: &mut Shown,
) {
    for message in messages {
        feed(connection, message, turn, out);
    }
    for place in 0..messages.len() {
        if !turn.is_over {
            show_next(connection, place % 2 == first, turn, out);
        }
    }
}

/// Shows whether the message that was taken last is there, and the first column of a row.
pub fn show_message<A: Allocator + Copy>(connection: &Connection<'_, A>, out: &mut Shown) {
    match connection.message() {
        Some(Message::DataRow(row)) => match row.column(0) {
            Ok(Some(column)) => out.nullable(column),
            _ => out.word("no column"),
        },
        Some(other) => {
            drop(other);
            out.word("there")
        }
        None => out.word("nothing"),
    }
}

/// Shows whether the log-in is over, whether nothing is awaited, and the status.
pub fn show_state<A: Allocator + Copy>(connection: &Connection<'_, A>, out: &mut Shown) {
    out.word(if connection.is_logged_in() {
        "in"
    } else {
        "out"
    });
    out.word(if connection.is_idle() { "idle" } else { "busy" });
    match connection.status() {
        Some(status) => out.bytes(&[status]),
        None => out.word("unknown"),
    }
}

/// Shows the version that is spoken.
pub fn show_version<A: Allocator + Copy>(connection: &Connection<'_, A>, out: &mut Shown) {
    out.word(match connection.version() {
        ProtocolVersion::V3_0 => "3.0",
        ProtocolVersion::V3_2 => "3.2",
    });
}

/// Shows the key, and the request to cancel, if there is one.
pub fn show_cancel<A: Allocator + Copy>(
    connection: &Connection<'_, A>,
    request: &mut BytesMut<A>,
    turn: &mut Turn,
    out: &mut Shown,
) {
    if let Some(key) = connection.backend_key() {
        out.number(key.process_id);
        out.bytes(key.secret_key);
    }
    let mut made = outcome_of(connection.cancel_request(request));
    if made == Err(Error::OutOfMemory) && request.is_empty() {
        turn.again = turn.again.saturating_add(1);
        made = outcome_of(connection.cancel_request(request));
    }
    match made {
        Ok(()) => out.bytes(request.as_slice()),
        Err(_) => out.word("no key"),
    }
}

/// Shows what the bytes that answer the request for encryption come to.
pub fn show_answer<A: Allocator + Copy>(
    connection: &mut Connection<'_, A>,
    bytes: &[u8],
    out: &mut Shown,
) {
    match outcome_of(connection.encryption_answered(bytes)) {
        Ok(Some(true)) => out.word("encrypts"),
        Ok(Some(false)) => out.word("plain"),
        Ok(None) => out.word("awaits"),
        Err(_) => out.word("rejected"),
    }
}

/// All that is to be sent is.
pub fn send_all<A: Allocator + Copy>(connection: &mut Connection<'_, A>, out: &mut Shown) {
    let count = connection.to_send().len();
    connection.sent(count);
    if !connection.to_send().is_empty() {
        out.word("more to send");
    }
}

/// What a call that lacks memory may not change.
fn state_of<A: Allocator + Copy>(
    connection: &Connection<'_, A>,
) -> (usize, bool, bool, Option<u8>) {
    (
        connection.to_send().len(),
        connection.is_logged_in(),
        connection.is_idle(),
        connection.status(),
    )
}

/// Makes a call, once more where memory is lacking, and shows the name of its request.
pub fn ask<A: Allocator + Copy>(
    connection: &mut Connection<'_, A>,
    name: &str,
    values: &[Option<&[u8]>],
    turn: &mut Turn,
    out: &mut Shown,
) {
    let before = state_of(connection);
    let mut made = make(name, values, connection);
    if made == Err(Error::OutOfMemory) {
        turn.again = turn.again.saturating_add(1);
        if state_of(connection) != before {
            out.word("changed");
        }
        made = make(name, values, connection);
    }
    match made {
        Ok(name) => out.number(name),
        Err(Error::NotDrained) => out.word("fails"),
        Err(Error::UnexpectedEof) => out.fail(Fault::Row),
        Err(_) => out.word("no"),
    }
}
