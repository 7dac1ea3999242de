//! Which of a server's messages answers which of a client's requests, in memory of the caller's.

ghost use Rattle.std.specs.Prelude.{◌≡◌, ◌≢◌, ◌<◌, ◌≤◌, ◌⊎◌, None, Some, length, true, false};
ghost use Rattle.pgp_client.specs.Codes.{refusal_at, request_at};
ghost use Rattle.pgp_client.specs.Ending.{first_name, first_open};
ghost use Rattle.pgp_client.specs.Slots.{capacity, slots_items};
ghost use Rattle.pgp_client.specs.Talk.{shown};
ghost use Rattle.pgp_client.specs.Taking.{asked, first_in, is_idle};
ghost use Rattle.for_c.specs.Dialogue.{IsBroken, KeepsRoom, RejectsMessage, TakesMessage, event_of, kind_at, talk_of};

use pgp_client::{Dialogue, Event, Kind, Refusal, Request, Slot, Slots, Stage};
use std::mem;

/// The result where there is no room for a request, or the dialogue's places are none of its room.
const NO_ROOM: u32 = 1;

/// The result where there is none.
const DONE: u32 = 101;

/// The result where a number names no request, or no kind of messages.
const NO_KIND: u32 = 35;

/// A dialogue: the requests whose answers are to come, in memory of the caller's, and how far the answer under way is. With all numbers
/// 0 it is one in which nothing was asked.
#[repr(C)]
pub struct PgpDialogue<'a> {
    pub room: &'a mut [Slot],
    /// The place of the first pending request, and the place after the last.
    pub start: usize,
    pub end: usize,
    /// The name of the request under way.
    pub name: u64,
    pub stage: u8,
}

/// What a message is to the requests: 1 a part of an answer, 2 its last message, 3 no part of any, 4 the end of the session.
#[repr(C)]
#[derive(Clone, Copy)]
pub struct PgpEvent {
    /// The name of the request that is answered; 0 where there is none.
    pub name: u64,
    pub what: u8,
}

/// Takes note of a request, in the order in which they are sent.
#[unsafe(no_mangle)]
pub extern "C" fn pgp_dialogue_ask(dialogue: &mut PgpDialogue<'_>, request: u8, name: u64) -> u32
    ensures asked { result ≡ 0 → talk_of dialogue.new ≡ asked (talk_of dialogue.old) (record { request = request_at request; name = name }) }
    ensures known { result ≡ 0 → request ≤ 11 }
    ensures unknown { 11 < request → result ≡ 35 }
    ensures why { result ≢ 0 → request ≤ 11 → (result ≡ 1) × (IsBroken dialogue.old ⊎ (length (talk_of dialogue.old).pending ≡ length dialogue.old.room.now)) }
    ensures kept { result ≢ 0 → talk_of dialogue.new ≡ talk_of dialogue.old }
    ensures room { KeepsRoom dialogue.old dialogue.new }
{
    if request > 11 {
        return NO_KIND;
    }
    if is_broken(dialogue) {
        return NO_ROOM;
    }
    let mut kept = resumed(dialogue);
    let code = match kept.ask(Request::of_code(request), name) {
        Ok(()) => 0,
        Err(_) => NO_ROOM,
    };
    put_back(kept, dialogue);
    code
}

/// Takes the server's next message, by the number of its kind, and says to which request it belongs.
#[unsafe(no_mangle)]
pub extern "C" fn pgp_dialogue_take(
    dialogue: &mut PgpDialogue<'_>,
    kind: u8,
    event: &mut PgpEvent,
) -> u32
    ensures taken { result ≡ 0 → TakesMessage dialogue.old dialogue.new kind event.new }
    ensures unknown { kind_at kind ≡ None → result ≡ 35 }
    ensures known { result ≡ 35 → kind_at kind ≡ None }
    ensures broken { result ≡ 1 → IsBroken dialogue.old }
    ensures rejected { result ≢ 0 → result ≢ 1 → result ≢ 35 → RejectsMessage dialogue.old dialogue.new kind result }
    ensures left { result ≢ 0 → event.new ≡ event.old }
    ensures kept { (result ≡ 1) ⊎ (result ≡ 35) → talk_of dialogue.new ≡ talk_of dialogue.old }
    ensures room { KeepsRoom dialogue.old dialogue.new }
{
    let Some(kind) = kind_at(kind) else {
        return NO_KIND;
    };
    if is_broken(dialogue) {
        return NO_ROOM;
    }
    let mut kept = resumed(dialogue);
    let code = match kept.take(kind) {
        Ok(taken) => {
            *event = reported(taken);
            0
        }
        Err(e) => rejected(e),
    };
    put_back(kept, dialogue);
    code
}

/// Whether no request awaits an answer.
#[unsafe(no_mangle)]
pub extern "C" fn pgp_dialogue_is_idle(dialogue: &PgpDialogue<'_>, idle: &mut bool) -> u32
    ensures idle { result ≡ 0 → idle.new ≡ is_idle (talk_of dialogue.now) }
    ensures broken { result ≢ 0 → (result ≡ 1) × IsBroken dialogue.now × (idle.new ≡ idle.old) }
{
    if is_broken(dialogue) {
        return NO_ROOM;
    }
    *idle = Stage::of_code(dialogue.stage) == Stage::Idle
        && Slots::await_none(&*dialogue.room, dialogue.start, dialogue.end);
    0
}

/// The name of the first request that is to end. All that were asked before it have ended.
#[unsafe(no_mangle)]
pub extern "C" fn pgp_dialogue_first_open(dialogue: &PgpDialogue<'_>, name: &mut u64) -> u32
    ensures first { result ≡ 0 → first_open (talk_of dialogue.now) ≡ Some name.new }
    ensures none { result ≡ 101 → first_open (talk_of dialogue.now) ≡ None }
    ensures broken { result ≢ 0 → result ≢ 101 → (result ≡ 1) × IsBroken dialogue.now }
    ensures left { result ≢ 0 → name.new ≡ name.old }
{
    if is_broken(dialogue) {
        return NO_ROOM;
    }
    match first_open(dialogue) {
        Some(first) => {
            *name = first;
            0
        }
        None => DONE,
    }
}

fn first_open(dialogue: &PgpDialogue<'_>) -> Option<u64>
    requires ordered { dialogue.now.start ≤ dialogue.now.end }
    requires fits { dialogue.now.end ≤ length dialogue.now.room.now }
    ensures { result ≡ first_open (talk_of dialogue.now) }
{
    match Stage::of_code(dialogue.stage) {
        Stage::Idle => first_answered(dialogue, false),
        Stage::Skipping => first_answered(dialogue, true),
        Stage::Over => None,
        _ => Some(dialogue.name),
    }
}

fn first_answered(dialogue: &PgpDialogue<'_>, skipping: bool) -> Option<u64>
    requires ordered { dialogue.now.start ≤ dialogue.now.end }
    requires fits { dialogue.now.end ≤ length dialogue.now.room.now }
    ensures { result ≡ first_name (first_in skipping (talk_of dialogue.now).pending) }
{
    Slots::first_answered_in(&*dialogue.room, dialogue.start, dialogue.end, skipping)
}

/// Whether the requests stand at no places of the room.
fn is_broken(dialogue: &PgpDialogue<'_>) -> bool
    ensures broken { result ≡ true → IsBroken dialogue.now }
    ensures whole { result ≡ false → (dialogue.now.start ≤ dialogue.now.end) × (dialogue.now.end ≤ length dialogue.now.room.now) }
{
    dialogue.start > dialogue.end || dialogue.end > dialogue.room.len()
}

/// The dialogue that the caller keeps, whose memory it has until it is put back.
fn resumed<'a>(dialogue: &mut PgpDialogue<'a>) -> Dialogue<Slots<'a>>
    requires ordered { dialogue.old.start ≤ dialogue.old.end }
    requires fits { dialogue.old.end ≤ length dialogue.old.room.now }
    ensures same { shown slots_items result ≡ talk_of dialogue.old }
    ensures size { capacity result.pending ≡ length dialogue.old.room.now }
{
    let room = mem::replace(&mut dialogue.room, &mut []);
    let pending = Slots::resume(room, dialogue.start, dialogue.end);
    Dialogue::resume(Stage::of_code(dialogue.stage), dialogue.name, pending)
}

/// Puts the dialogue back.
fn put_back<'a>(kept: Dialogue<Slots<'a>>, dialogue: &mut PgpDialogue<'a>)
    ensures same { talk_of dialogue.new ≡ shown slots_items kept.entry }
    ensures size { length dialogue.new.room.now ≡ capacity kept.entry.pending }
    ensures ordered { dialogue.new.start ≤ dialogue.new.end }
    ensures fits { dialogue.new.end ≤ length dialogue.new.room.now }
{
    let (stage, name, pending) = kept.into_parts();
    let (room, start, end) = pending.into_parts();
    dialogue.room = room;
    dialogue.start = start;
    dialogue.end = end;
    dialogue.name = name;
    dialogue.stage = stage.code();
}

/// What is reported of an event.
fn reported(event: Event) -> PgpEvent
    ensures { result ≡ event_of event }
{
    match event {
        Event::Part(name) => PgpEvent { name, what: 1 },
        Event::Last(name) => PgpEvent { name, what: 2 },
        Event::Aside => PgpEvent { name: 0, what: 3 },
        Event::Ended => PgpEvent { name: 0, what: 4 },
    }
}

/// The result where a message isn't taken.
fn rejected(refusal: Refusal) -> u32
    ensures refusal { refusal_at result ≡ Some refusal }
    ensures other { (result ≢ 0) × (result ≢ 1) × (result ≢ 35) }
{
    match refusal {
        Refusal::Unexpected => 36,
        Refusal::Uncertain => 37,
    }
}

/// The kind of a server's messages that has this number.
fn kind_at(kind: u8) -> Option<Kind>
    ensures { result ≡ kind_at kind }
{
    match kind {
        6 => Some(Kind::AuthenticationOk),
        1..=11 => Some(Kind::Authentication),
        12 => Some(Kind::BackendKeyData),
        13 => Some(Kind::BindComplete),
        14 => Some(Kind::CloseComplete),
        15 => Some(Kind::CommandComplete),
        16 => Some(Kind::CopyData),
        17 => Some(Kind::CopyDone),
        18 => Some(Kind::CopyInResponse),
        19 => Some(Kind::CopyOutResponse),
        20 => Some(Kind::DataRow),
        21 => Some(Kind::EmptyQueryResponse),
        22 => Some(Kind::ErrorResponse),
        23 => Some(Kind::NoData),
        24 => Some(Kind::NoticeResponse),
        25 => Some(Kind::NotificationResponse),
        26 => Some(Kind::ParameterDescription),
        27 => Some(Kind::ParameterStatus),
        28 => Some(Kind::ParseComplete),
        29 => Some(Kind::PortalSuspended),
        30 => Some(Kind::ReadyForQuery),
        31 => Some(Kind::RowDescription),
        32 => Some(Kind::NegotiateProtocolVersion),
        33 => Some(Kind::CopyBothResponse),
        34 => Some(Kind::FunctionCallResponse),
        _ => None,
    }
}
