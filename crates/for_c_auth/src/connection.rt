//! A client's connection, in memory of the caller's: the log-in, which message answers which request, and what the server says of its session.

ghost use Rattle.std.specs.Prelude.{◌≡◌, ◌≢◌, ◌<◌, ◌≤◌, ◌⊎◌, ◌&&◌, ◌+◌, ℕ, List, None, Some, drop, length, not, take, true, false};
ghost use Rattle.pgp_client.specs.Codes.{request_at};
ghost use Rattle.pgp_client.specs.Taking.{is_copying, is_idle};
ghost use Rattle.pgp_message.specs.BackendMessage.{DataRow, Fits};
ghost use Rattle.pgp_message.specs.Views.{view};
ghost use Rattle.for_c_auth.specs.Answering.{HasAnswered, asking};
ghost use Rattle.for_c_auth.specs.Connection.{IsBroken, IsMisplaced, KeepsRoom, Rejects, TookNext, TookNone, TookSo, FitsAt, NotRepliedTo, asked_of, link_of, may_ask, noted, with_key};
ghost use Rattle.for_c_auth.specs.Settings.{IsFull, value_of};
ghost use Rattle.pgp_login.specs.Face.{answered_at};
ghost use Rattle.pgp_login.specs.Versions.{answered, newer};
ghost use Rattle.pgp_login.specs.declared.face.PgpWays.{PgpWays as Ways};

use crate::connection_parts::{
    attributed, is_end, is_too_long, limit, note, reported_as, status_after, unfit,
};
use crate::deliver::deliver;
use crate::settings::{PgpSettings, PgpSpan, is_full, keep, value_at};
use crate::talk::{PgpTalk, is_broken, put_back, resumed};
use bytes::BytesMut;
use pgp_base::Memory;
use pgp_client::{Event, Kind, Request, Slots, Stage};
use pgp_login::{PgpLogin, PgpWays, answer, answered_at, answered_code, version_after};
use pgp_message::{BackendKeyDataBody, DataRowBody, Message, Messages};
use std::alloc::Global;

/// The result where there is no room, or the dialogue's places are none of its room.
pub(crate) const NO_ROOM: u32 = 1;

/// The result where memory was refused.
const NO_MEMORY: u32 = 95;

/// The result where the room for settings has none for the message's.
const NO_SETTING_ROOM: u32 = 96;

/// The result where the connection is over, or the request may not be asked now.
pub(crate) const WRONG_PHASE: u32 = 32;

/// The result where a number names no request.
const NO_KIND: u32 = 35;

/// The result where a message is announced that is too long.
const TOO_LONG: u32 = 94;

/// The result where bytes are missing.
const MORE: u32 = 100;

/// A connection. With all numbers 0 it is one of which nothing was asked.
#[repr(C)]
pub struct PgpConnection<'a> {
    pub dialogue: PgpTalk<'a>,
    pub settings: PgpSettings<'a>,
    pub key_len: usize,
    pub process_id: i32,
    /// Whether the session has ended, or an error ended it.
    pub is_over: bool,
    /// The status of the last ReadyForQuery: `I`, `T` or `E`; 0 before the first.
    pub status: u8,
    pub login: PgpLogin,
    /// The key of a cancel request, of which so many bytes are.
    pub secret_key: [u8; 256],
    /// The version that the server answered: 1 for 3.0, 2 for 3.2; 0 where it didn't answer, and so speaks that of the startup packet.
    pub version: u8,
}

/// What a message is to the requests: 1 a part of an answer, 2 its last message, 3 no part of any, 4 the end of the session.
#[repr(C)]
#[derive(Clone, Copy)]
pub struct PgpTaken {
    /// The name of the request that is answered; 0 where there is none.
    pub name: u64,
    /// How many bytes the message has.
    pub frame: usize,
    pub what: u8,
}

/// Takes the message at the front of the bytes: says to which request it belongs, and writes the reply that the log-in wants.
#[unsafe(no_mangle)]
pub extern "C" fn pgp_connection_take(
    alloc: Global,
    connection: &mut PgpConnection<'_>,
    ways: &PgpWays<'_>,
    bytes: &[u8],
    out: &mut [u8],
    written: &mut usize,
    taken: &mut PgpTaken,
) -> u32
    ensures took { result ≡ 0 → TookNext ways.now (length connection.old.settings.room.now) bytes.now (link_of connection.old) (link_of connection.new) taken.new out.old out.new written.new }
    ensures none { result ≢ 0 → TookNone (Unit {0}) (IsBroken connection.old.dialogue) (IsFull connection.old.settings) ways.now bytes.now out.old (link_of connection.old) (link_of connection.new) result }
    ensures left { result ≢ 0 → (written.new ≡ 0) × (out.new ≡ out.old) × (taken.new ≡ taken.old) }
    ensures room { KeepsRoom connection.old.dialogue connection.new.dialogue × (length connection.new.settings.room.now ≡ length connection.old.settings.room.now) }
{
    take(alloc, connection, ways, bytes, out, written, taken)
}

/// `pgp_connection_take` with any allocator.
pub fn take<A: Memory>(
    alloc: A,
    connection: &mut PgpConnection<'_>,
    ways: &PgpWays<'_>,
    bytes: &[u8],
    out: &mut [u8],
    written: &mut usize,
    taken: &mut PgpTaken,
) -> u32
    ensures took { result ≡ 0 → TookNext ways.now (length connection.old.settings.room.now) bytes.now (link_of connection.old) (link_of connection.new) taken.new out.old out.new written.new }
    ensures none { result ≢ 0 → TookNone A.Lacks (IsBroken connection.old.dialogue) (IsFull connection.old.settings) ways.now bytes.now out.old (link_of connection.old) (link_of connection.new) result }
    ensures left { result ≢ 0 → (written.new ≡ 0) × (out.new ≡ out.old) × (taken.new ≡ taken.old) }
    ensures room { KeepsRoom connection.old.dialogue connection.new.dialogue × (length connection.new.settings.room.now ≡ length connection.old.settings.room.now) }
{
    *written = 0;
    if connection.is_over {
        return WRONG_PHASE;
    }
    if is_broken(&connection.dialogue) {
        return NO_ROOM;
    }
    if is_too_long(bytes, limit(ways, &connection.login)) {
        connection.is_over = true;
        return TOO_LONG;
    }
    let mut rows = Messages::new(bytes);
    // Rows come by the thousand, and the log-in has no part in them.
    if let Some(row) = rows.next_row() {
        let frame = bytes.len() - rows.rest().len();
        return hear_row(connection, &row, frame, taken);
    }
    let mut messages = Messages::new(bytes);
    match messages.next() {
        Ok(None) => MORE,
        Ok(Some(message)) => {
            let frame = bytes.len() - messages.rest().len();
            let code = hear(
                alloc, connection, ways, &message, frame, out, written, taken,
            );
            drop(message);
            code
        }
        Err(e) => {
            connection.is_over = true;
            u32::from(e.number())
        }
    }
}

/// What a row comes to, of so many bytes: no way of logging in replies to it.
fn hear_row(
    connection: &mut PgpConnection<'_>,
    row: &DataRowBody<&[u8]>,
    frame: usize,
    taken: &mut PgpTaken,
) -> u32
    requires ordered { connection.old.dialogue.start ≤ connection.old.dialogue.end }
    requires places { connection.old.dialogue.end ≤ length connection.old.dialogue.room.now }
    ensures took { result ≡ 0 → (w : Ways) (given : ℕ) (out : List ℕ) → TookSo w given (DataRow row.now) (link_of connection.old) (link_of connection.new) taken.new frame out out 0 }
    ensures none { result ≢ 0 → IsMisplaced (DataRow row.now) (link_of connection.old) (link_of connection.new) result }
    ensures left { result ≢ 0 → taken.new ≡ taken.old }
    ensures room { KeepsRoom connection.old.dialogue connection.new.dialogue × (length connection.new.settings.room.now ≡ length connection.old.settings.room.now) }
{
    match attributed(&mut connection.dialogue, Kind::DataRow) {
        Ok(event) => {
            connection.is_over = is_end(event);
            *taken = reported_as(event, frame);
            0
        }
        Err(misplaced) => {
            connection.is_over = true;
            misplaced
        }
    }
}

/// What a message comes to, of so many bytes.
#[inline(never)]
fn hear<A: Memory>(
    alloc: A,
    connection: &mut PgpConnection<'_>,
    ways: &PgpWays<'_>,
    message: &Message<&[u8]>,
    frame: usize,
    out: &mut [u8],
    written: &mut usize,
    taken: &mut PgpTaken,
) -> u32
    requires ordered { connection.old.dialogue.start ≤ connection.old.dialogue.end }
    requires places { connection.old.dialogue.end ≤ length connection.old.dialogue.room.now }
    requires sized { Fits (view message.now) }
    ensures took { result ≡ 0 → TookSo ways.now (length connection.old.settings.room.now) (view message.now) (link_of connection.old) (link_of connection.new) taken.new frame out.old out.new written.new }
    ensures none { result ≢ 0 → Rejects A.Lacks (IsFull connection.old.settings) ways.now (view message.now) (length out.old) (link_of connection.old) (link_of connection.new) result }
    ensures left { result ≢ 0 → (written.new ≡ written.old) × (out.new ≡ out.old) × (taken.new ≡ taken.old) }
    ensures room { KeepsRoom connection.old.dialogue connection.new.dialogue × (length connection.new.settings.room.now ≡ length connection.old.settings.room.now) }
{
    let mut login = connection.login;
    let mut reply = BytesMut::new(alloc);
    let answered = connection.version;
    let code = replied(alloc, &mut login, ways, answered, message, &mut reply);
    let short = shortage(code, reply.len(), out.len(), &connection.settings, message);
    if short != 0 {
        return short;
    }
    let event = match attributed(&mut connection.dialogue, Kind::of(message)) {
        Ok(event) => event,
        Err(misplaced) => {
            connection.is_over = true;
            return misplaced;
        }
    };
    if code != 0 {
        connection.is_over = true;
        return code;
    }
    connection.login = login;
    note_said(message, event, connection);
    *taken = reported_as(event, frame);
    deliver(reply.as_slice(), out, written)
}

/// The log-in takes a message that may come now, and its reply is appended: 0 where it does.
fn replied<A: Memory>(
    alloc: A,
    login: &mut PgpLogin,
    ways: &PgpWays<'_>,
    answered: u8,
    message: &Message<&[u8]>,
    reply: &mut BytesMut<A>,
) -> u32
    ensures fit { result ≡ 0 → FitsAt ways.now login.old (answered_at answered) (view message.now) }
    ensures answered { result ≡ 0 → HasAnswered ways.now (asking (view message.now)) login.old login.new reply.old.items reply.new.items }
    ensures why { result ≢ 0 → NotRepliedTo A.Lacks ways.now login.old (answered_at answered) (view message.now) result }
{
    let code = unfit(ways, login, answered, message);
    if code != 0 {
        return code;
    }
    answer(alloc, login, ways, message, reply)
}

/// What a message of this answer lacks, for whose reply there is so much room: memory, room for the reply, or for the setting that it reports; 0 for none.
fn shortage(
    code: u32,
    needed: usize,
    room: usize,
    settings: &PgpSettings<'_>,
    message: &Message<&[u8]>,
) -> u32
    ensures none { result ≡ 0 → (code ≢ 1) × (code ≡ 0 → (needed ≤ room) × (¬ IsFull settings.now (view message.now))) }
    ensures why { result ≢ 0 → ((code ≡ 1) × (result ≡ 95)) ⊎ ((code ≡ 0) × (((result ≡ 1) × (room < needed)) ⊎ ((result ≡ 96) × IsFull settings.now (view message.now)))) }
{
    match code {
        NO_ROOM => NO_MEMORY,
        0 if room < needed => NO_ROOM,
        0 if is_full(settings, message) => NO_SETTING_ROOM,
        _ => 0,
    }
}

/// Takes note of what a message says of the session.
fn note_said(message: &Message<&[u8]>, event: Event, connection: &mut PgpConnection<'_>)
    requires sized { Fits (view message.now) }
    requires room { ¬ IsFull connection.old.settings (view message.now) }
    ensures link { link_of connection.new ≡ noted (length connection.old.settings.room.now) (view message.now) event (link_of connection.old) }
    ensures dialogue { connection.new.dialogue ≡ connection.old.dialogue }
    ensures room { length connection.new.settings.room.now ≡ length connection.old.settings.room.now }
{
    connection.is_over = is_end(event);
    connection.status = status_after(message, connection.status);
    connection.version = note_version(connection.version, message);
    match message {
        Message::BackendKeyData(body) => note_key(body, connection),
        Message::ParameterStatus(body) => {
            keep(
                &mut connection.settings,
                body.name_bytes(),
                body.value_bytes(),
            );
        }
        _ => {}
    }
}

/// The number of what the server has answered about versions, with this message.
fn note_version(before: u8, message: &Message<&[u8]>) -> u8
    ensures { answered_at result ≡ newer (answered_at before) (answered (view message.now)) }
{
    answered_code(version_after(answered_at(before), message))
}

/// Takes note of a key.
fn note_key(body: &BackendKeyDataBody<&[u8]>, connection: &mut PgpConnection<'_>)
    requires { length body.now.secret_key ≤ 256 }
    ensures link { link_of connection.new ≡ with_key body.now (link_of connection.old) }
    ensures dialogue { connection.new.dialogue ≡ connection.old.dialogue }
    ensures settings { connection.new.settings ≡ connection.old.settings }
{
    let key = body.secret_key_bytes();
    connection.process_id = body.process_id();
    connection.key_len = key.len();
    connection.secret_key[..key.len()].copy_from_slice(key);
}

/// Takes note of a request, in the order in which they are sent.
#[unsafe(no_mangle)]
pub extern "C" fn pgp_connection_ask(
    connection: &mut PgpConnection<'_>,
    request: u8,
    name: u64,
) -> u32
    ensures asked { result ≡ 0 → (may_ask (link_of connection.old) (request_at request) ≡ true) × (link_of connection.new ≡ asked_of (request_at request) name (link_of connection.old)) }
    ensures known { result ≡ 0 → request ≤ 11 }
    ensures unknown { 11 < request → result ≡ 35 }
    ensures why { result ≢ 0 → request ≤ 11 → ((result ≡ 1) × (IsBroken connection.old.dialogue ⊎ (length (link_of connection.old).talk.pending ≡ length connection.old.dialogue.room.now)))
        ⊎ ((result ≡ 32) × (may_ask (link_of connection.old) (request_at request) ≡ false)) }
    ensures kept { result ≢ 0 → link_of connection.new ≡ link_of connection.old }
    ensures room { KeepsRoom connection.old.dialogue connection.new.dialogue × (length connection.new.settings.room.now ≡ length connection.old.settings.room.now) }
{
    if request > 11 {
        return NO_KIND;
    }
    if is_broken(&connection.dialogue) {
        return NO_ROOM;
    }
    let request = Request::of_code(request);
    let mut kept = resumed(&mut connection.dialogue);
    let code = note(
        connection.is_over,
        &connection.login,
        &mut kept,
        request,
        name,
    );
    put_back(kept, &mut connection.dialogue);
    code
}

/// The value that the server reported last under a name, by its place in the memory for settings.
#[unsafe(no_mangle)]
pub extern "C" fn pgp_connection_setting(
    connection: &PgpConnection<'_>,
    name: &[u8],
    value: &mut PgpSpan,
) -> u32
    ensures value { result ≡ 0 → value_of name.now (link_of connection.now).settings ≡ Some (take value.new.len (drop value.new.at connection.now.settings.room.now)) }
    ensures inside { result ≡ 0 → value.new.at + value.new.len ≤ length connection.now.settings.room.now }
    ensures none { result ≢ 0 → (result ≡ 97) × (value_of name.now (link_of connection.now).settings ≡ None) × (value.new ≡ value.old) }
{
    value_at(&connection.settings, name, value)
}

/// Whether no request awaits an answer.
#[unsafe(no_mangle)]
pub extern "C" fn pgp_connection_is_idle(connection: &PgpConnection<'_>) -> bool
    ensures idle { result ≡ true → (¬ IsBroken connection.now.dialogue) × (is_idle (link_of connection.now).talk ≡ true) }
    ensures busy { result ≡ false → IsBroken connection.now.dialogue ⊎ (is_idle (link_of connection.now).talk ≡ false) }
{
    let dialogue = &connection.dialogue;
    !is_broken(dialogue)
        && Stage::of_code(dialogue.stage) == Stage::Idle
        && Slots::await_none(&*dialogue.room, dialogue.start, dialogue.end)
}

/// Whether a copy to the server is under way, so that its data may be sent.
#[unsafe(no_mangle)]
pub extern "C" fn pgp_connection_is_copying(connection: &PgpConnection<'_>) -> bool
    ensures { result ≡ (not (link_of connection.now).is_over && is_copying (link_of connection.now).talk) }
{
    match Stage::of_code(connection.dialogue.stage) {
        Stage::CopyingIn | Stage::TakingCopy => !connection.is_over,
        _ => false,
    }
}
