//! Sessions of a client's connection: the calls that are made of it, and what each comes to; also where an allocation fails, and the call is made again.

use crate::connection_calls::connecting;
use crate::connection_steps::{
    Turn, ask, feed, hear, hear_in_turns, send_all, show_answer, show_cancel, show_message,
    show_next, show_state, show_version,
};
use crate::fault::Fault;
use crate::row::Row;
use crate::shown::Shown;
use crate::word::{Word, Words, words_of};
use bytes::BytesMut;
use pgp_session::Connection;
use std::alloc::Allocator;
use test_alloc::Refusing;

/// More steps than a row has.
const MOST: usize = 1000;

/// A step that looks at the connection, or a call.
fn look<A: Allocator + Copy>(
    alloc: A,
    connection: &mut Connection<'_, A>,
    name: &str,
    words: &mut Words<'_>,
    turn: &mut Turn,
    out: &mut Shown,
) {
    match name {
        "to_send" => out.bytes(connection.to_send()),
        "sent" => send_all(connection, out),
        "message" => show_message(connection, out),
        "state" => show_state(connection, out),
        "version" => show_version(connection, out),
        "cancel" => show_cancel(connection, &mut BytesMut::new(alloc), turn, out),
        "answered" => show_answer(connection, words.bytes(), out),
        "setting" => out.nullable(connection.setting(words.bytes())),
        "setting_len" => match connection.setting(words.bytes()) {
            Some(value) => out.number(value.len()),
            None => out.word("null"),
        },
        name => {
            let times = if name == "times" {
                words.number()
            } else {
                1u32
            };
            let name = if name == "times" { words.name() } else { name };
            let values = match name {
                "bind" => words.list(),
                _ => Vec::new(out.alloc()),
            };
            for _ in 0..times {
                ask(connection, name, &values, turn, out);
            }
        }
    }
}

/// A step of a row.
fn step<A: Allocator + Copy>(
    alloc: A,
    connection: &mut Connection<'_, A>,
    words: &mut Words<'_>,
    turn: &mut Turn,
    out: &mut Shown,
) {
    let name = words.name();
    match name {
        "feed" => feed(connection, words.bytes(), turn, out),
        "fill" => {
            let times = words.number::<u32>();
            let bytes = words.bytes();
            for _ in 0..times {
                feed(connection, bytes, turn, out);
            }
        }
        "drip" => {
            for byte in words.bytes() {
                feed(connection, &[*byte], turn, out);
            }
        }
        "next" => show_next(connection, false, turn, out),
        "advance" => show_next(connection, true, turn, out),
        "hear" | "hear_in_place" => {
            let messages = words.list::<&[u8]>();
            hear(connection, &messages, name == "hear_in_place", turn, out)
        }
        "turns" => {
            let first = words.number();
            let messages = words.list::<&[u8]>();
            hear_in_turns(connection, &messages, first, turn, out)
        }
        name => look(alloc, connection, name, words, turn, out),
    }
}

/// Takes all steps, as long as memory doesn't end it. It doesn't own the connection, since a function that does so is dear to prove.
fn steps<A: Allocator + Copy>(
    alloc: A,
    connection: &mut Connection<'_, A>,
    words: &mut Words<'_>,
    out: &mut Shown,
) -> Turn {
    let mut turn = Turn {
        again: 0,
        is_over: false,
    };
    for _ in 0..MOST {
        if words.is_empty() || turn.is_over {
            break;
        }
        step(alloc, connection, words, &mut turn, out);
    }
    if !turn.is_over {
        out.keep(words.end());
    }
    turn
}

/// Where the request of memory of this number is refused, the session comes to the same, with the call made again that reports it, or to a front of that.
/// Whether the request came, and how often that was reported; room that is asked for ahead is passed over.
fn refused_at(
    list: &[Word],
    number: u64,
    wanted: &str,
    out: &mut Shown,
) -> Result<(bool, u64), Fault> {
    let alloc = out.alloc();
    let heap = Refusing::new(alloc, 0);
    let mut words = Words::new(alloc, list);
    let mut connection = connecting(&heap, &mut words);
    heap.until_refusal.set(number);
    let turn = steps(&heap, &mut connection, &mut words, out);
    let is_refused = heap.until_refusal.get() == 0;
    if turn.again > u64::from(is_refused) {
        out.word("reported otherwise");
    }
    if turn.is_over {
        out.received_front(wanted)?;
    } else {
        out.received_to(wanted)?;
    }
    Ok((is_refused, turn.again))
}

/// More requests of memory than a session makes.
const REQUESTS: u64 = 1000;

/// The session comes to this, whichever request of memory is refused, of which some are reported.
fn with_each_failing(list: &[Word], wanted: &str, out: &mut Shown) -> Result<(), Fault> {
    let mut reported = 0u64;
    for number in 1..REQUESTS {
        let (is_refused, again) = refused_at(list, number, wanted, out)?;
        reported = reported.saturating_add(again);
        if is_refused {
            continue;
        }
        if reported == 0 {
            out.word("asked for no memory");
        }
        return out.received_to("");
    }
    Err(Fault::Row)
}

/// A row of a session.
pub fn check_connection(row: &Row<'_>, out: &mut Shown) -> Result<(), Fault> {
    let alloc = out.alloc();
    let list = words_of(alloc, row.left)?;
    let mut words = Words::new(alloc, &list);
    let mut connection = connecting(alloc, &mut words);
    steps(alloc, &mut connection, &mut words, out);
    out.received_to(row.right)?;
    match row.call {
        "session" => with_each_failing(&list, row.right, out),
        "session_once" => Ok(()),
        _ => Err(Fault::Row),
    }
}
