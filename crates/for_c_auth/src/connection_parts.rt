//! What the calls of a connection test, and what they note.

ghost use Rattle.std.specs.Prelude.{◌≡◌, ◌≢◌, ◌⊎◌, ◌≤◌, length, true, false, Some, Ok, Err, IfOk, IfErr};
ghost use Rattle.pgp_client.specs.Codes.{refusal_at};
ghost use Rattle.pgp_client.specs.Limits.{is_longer, is_status, lacks_status};
ghost use Rattle.pgp_client.specs.Slots.{capacity, is_full, slots_items};
ghost use Rattle.pgp_client.specs.Taking.{asked, awaits_data, is_copying, is_end, is_idle, taken};
ghost use Rattle.pgp_client.specs.Talk.{shown};
ghost use Rattle.pgp_client.specs.declared.event.Refusal.{Refusal as Refused};
ghost use Rattle.pgp_client.specs.declared.stage.Stage.TheVariants.{Over};
ghost use Rattle.pgp_login.specs.Face.{answered_at};
ghost use Rattle.pgp_message.specs.Views.{view};
ghost use Rattle.for_c_auth.specs.Connection.{FitsAt, KeepsRoom, IsTimely, is_done, limit_of, may_ask_at, may_follow, reported_as, status_after, talk_of};

use crate::connection::{NO_ROOM, PgpTaken, WRONG_PHASE};
use crate::login::{AWAITS_REQUEST, DONE, UNDUE};
use crate::talk::{PgpTalk, put_back, resumed};
use pgp_client::{Dialogue, Event, Kind, Refusal, Request, Slots};
use pgp_login::{PgpLogin, PgpWays, answered_at, is_timely};
use pgp_message::Message;

/// The result where a ReadyForQuery has a status that is none.
const NO_STATUS: u32 = 93;

/// Whether the log-in is done.
fn is_done(login: &PgpLogin) -> bool
    ensures { result ≡ is_done login.now }
{
    login.phase == DONE
}

/// How long a message may be now.
pub(crate) fn limit(ways: &PgpWays<'_>, login: &PgpLogin) -> u32
    ensures { result ≡ limit_of ways.now login.now }
{
    pgp_login::limit(is_done(login), ways.limit)
}

/// Whether the bytes begin with a header that announces more bytes than the limit.
pub(crate) fn is_too_long(bytes: &[u8], limit: u32) -> bool
    ensures { result ≡ is_longer limit bytes.now }
{
    if bytes.len() < 5 {
        return false;
    }
    limit < u32::from_be_bytes([bytes[1], bytes[2], bytes[3], bytes[4]])
}

/// To which request a message of this kind belongs; or why it isn't taken.
// The hint carries the speed of rows: else what the dialogue keeps goes through memory.
#[inline(always)]
pub(crate) fn attributed(dialogue: &mut PgpTalk<'_>, kind: Kind) -> Result<Event, u32>
    requires ordered { dialogue.old.start ≤ dialogue.old.end }
    requires fits { dialogue.old.end ≤ length dialogue.old.room.now }
    ensures ok { IfOk result (λ e. taken (talk_of dialogue.old) kind ≡ Ok (e, talk_of dialogue.new)) }
    ensures err { IfErr result (λ code. (r : Refused) × (taken (talk_of dialogue.old) kind ≡ Err r) × (refusal_at code ≡ Some r) × (code ≢ 0) × ((talk_of dialogue.new).stage ≡ Over)) }
    ensures room { KeepsRoom dialogue.old dialogue.new }
{
    let mut kept = resumed(dialogue);
    let taken = kept.take(kind);
    put_back(kept, dialogue);
    match taken {
        Ok(event) => Ok(event),
        Err(e) => Err(rejected(e)),
    }
}

/// The result where a message isn't taken.
fn rejected(refusal: Refusal) -> u32
    ensures refusal { refusal_at result ≡ Some refusal }
    ensures some { result ≢ 0 }
{
    match refusal {
        Refusal::Unexpected => 36,
        Refusal::Uncertain => 37,
    }
}

/// Whether a message may come now, with a status that is one: 0, or why not. `answered` is the number of what the server answered about versions.
pub(crate) fn unfit(
    ways: &PgpWays<'_>,
    login: &PgpLogin,
    answered: u8,
    message: &Message<&[u8]>,
) -> u32
    ensures fit { result ≡ 0 → FitsAt ways.now login.now (answered_at answered) (view message.now) }
    ensures why { result ≢ 0 → ((result ≡ 89) × ¬ IsTimely ways.now login.now (answered_at answered) (view message.now))
        ⊎ ((result ≡ 93) × IsTimely ways.now login.now (answered_at answered) (view message.now) × (lacks_status (view message.now) ≡ true)) }
{
    if !is_timely(is_done(login), answered_at(answered), ways, message) {
        return UNDUE;
    }
    if lacks_status(message) {
        return NO_STATUS;
    }
    0
}

/// Whether it is a ReadyForQuery whose status is none of the three that there are.
fn lacks_status(message: &Message<&[u8]>) -> bool
    ensures { result ≡ lacks_status (view message.now) }
{
    match message {
        Message::ReadyForQuery(body) => !is_status(body.status()),
        _ => false,
    }
}

fn is_status(status: u8) -> bool
    ensures { result ≡ is_status status }
{
    status == b'I' || status == b'T' || status == b'E'
}

/// Whether it ends the session.
pub(crate) fn is_end(event: Event) -> bool
    ensures { result ≡ is_end event }
{
    match event {
        Event::Ended => true,
        _ => false,
    }
}

/// What is reported of a message.
pub(crate) fn reported_as(event: Event, frame: usize) -> PgpTaken
    ensures { result ≡ reported_as event frame }
{
    match event {
        Event::Part(name) => PgpTaken {
            name,
            frame,
            what: 1,
        },
        Event::Last(name) => PgpTaken {
            name,
            frame,
            what: 2,
        },
        Event::Aside => PgpTaken {
            name: 0,
            frame,
            what: 3,
        },
        Event::Ended => PgpTaken {
            name: 0,
            frame,
            what: 4,
        },
    }
}

/// The status after a message.
pub(crate) fn status_after(message: &Message<&[u8]>, before: u8) -> u8
    ensures { result ≡ status_after (view message.now) before }
{
    match message {
        Message::ReadyForQuery(body) => body.status(),
        _ => before,
    }
}

/// Takes note of a request, where it may be asked: 0 where it may.
pub(crate) fn note(
    is_over: bool,
    login: &PgpLogin,
    kept: &mut Dialogue<Slots<'_>>,
    request: Request,
    name: u64,
) -> u32
    ensures asked { result ≡ 0 → (may_ask_at is_over login.now (shown slots_items kept.old) request ≡ true)
        × (shown slots_items kept.new ≡ asked (shown slots_items kept.old) (record { request = request; name = name })) }
    ensures why { result ≢ 0 → ((result ≡ 1) × is_full kept.old.pending) ⊎ ((result ≡ 32) × (may_ask_at is_over login.now (shown slots_items kept.old) request ≡ false)) }
    ensures kept { result ≢ 0 → shown slots_items kept.new ≡ shown slots_items kept.old }
    ensures room { capacity kept.new.pending ≡ capacity kept.old.pending }
{
    if !may_ask(is_over, login, kept, request) {
        return WRONG_PHASE;
    }
    match kept.ask(request, name) {
        Ok(()) => 0,
        Err(_) => NO_ROOM,
    }
}

/// Whether a request may be asked now.
fn may_ask(is_over: bool, login: &PgpLogin, kept: &Dialogue<Slots<'_>>, request: Request) -> bool
    ensures { result ≡ may_ask_at is_over login.now (shown slots_items kept.now) request }
{
    match request {
        Request::Startup => !is_over && (login.phase == AWAITS_REQUEST && kept.is_idle()),
        _ => !is_over
            && (is_done(login) && may_follow(kept.is_copying(), kept.awaits_data(), request)),
    }
}

/// Whether a request may be asked after the log-in: one where no data of a copy are awaited, or their end where one is under way.
fn may_follow(copying: bool, awaiting: bool, request: Request) -> bool
    ensures { result ≡ may_follow copying awaiting request }
{
    match request {
        Request::Sync => true,
        Request::CopyDone | Request::CopyFail => copying,
        Request::FunctionCall => false,
        _ => !awaiting,
    }
}
