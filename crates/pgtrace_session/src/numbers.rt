//! The client's requests, and to which of them a message of the server belongs.

ghost use Rattle.std.specs.Prelude.{◌≡◌, ◌-◌, get_or, option_map, IfOk, OnErr, OnOk};
ghost use Rattle.pgp_client.specs.Telling.{start};
ghost use Rattle.pgtrace_session.specs.Requests.{asks, at_time, first_numbers, first_summary, no_numbers, place, tell, summary_in, told_of, unnumbered};
ghost use Rattle.pgtrace_session.specs.Steps.{numbers_in, numbers_of, talk_in};

use crate::placement::Told;
use crate::role::Role;
use pgp_base::Memory;
use pgp_client::{Asked, Dialogue, Event, Kind, Request};
use pgtrace_summary::{MapMemory, Summary};
use std::alloc::AllocError;
use std::collections::VecDeque;

/// What is known of the client's requests.
#[derive(Drop)]
pub struct Numbers<A: MapMemory> {
    /// Which of the server's messages belongs to which of them; nothing from the first message on that has no place there.
    pub dialogue: Option<Dialogue<VecDeque<Asked, A>>>,
    /// When each was sent, in microseconds: 8 bytes a request, as long as the recording is read.
    pub sent: Vec<u64, A>,
    /// When the present chunk came.
    pub now: u64,
    /// What they ran, where a summary is asked for.
    pub summary: Option<Summary<A>>,
}

/// Before the first request, where requests are numbered.
pub fn first_numbers<A: MapMemory>(
    alloc: A,
    numbered: bool,
    summed: bool,
    folds: bool,
) -> Option<Numbers<A>>
    ensures { numbers_in result ≡ first_numbers numbered summed folds }
{
    if numbered {
        Some(no_numbers(alloc, summed, folds))
    } else {
        None
    }
}

/// Before the first request.
fn no_numbers<A: MapMemory>(alloc: A, summed: bool, folds: bool) -> Numbers<A>
    ensures { numbers_of result ≡ no_numbers summed folds }
{
    Numbers {
        dialogue: Some(Dialogue::new(alloc)),
        sent: Vec::new(alloc),
        now: 0,
        summary: first_summary(alloc, summed, folds),
    }
}

/// Before the first request, where a summary is asked for.
fn first_summary<A: MapMemory>(alloc: A, summed: bool, folds: bool) -> Option<Summary<A>>
    ensures { result ≡ first_summary summed folds }
{
    if summed {
        Some(Summary::new(alloc, folds))
    } else {
        None
    }
}

/// A chunk came at this time.
pub fn set_time<A: MapMemory>(micros: u64, numbers: &mut Option<Numbers<A>>)
    ensures { numbers_in numbers.new ≡ at_time micros (numbers_in numbers.old) }
{
    match numbers {
        Some(numbers) => numbers.now = micros,
        None => {}
    }
}

/// What the mark of a line says of requests that is no message's: nothing, where requests are numbered.
pub fn unnumbered<A: MapMemory>(numbers: &Option<Numbers<A>>) -> Told
    ensures { result ≡ unnumbered (numbers_in numbers.now) }
{
    match numbers {
        Some(_) => Told::Nothing,
        None => Told::Uncounted,
    }
}

/// What the requests ran, where that is known.
pub fn summary_of<A: MapMemory>(numbers: &Option<Numbers<A>>) -> Option<&Summary<A>>
    ensures { option_map (λ summary. summary.now) result ≡ summary_in (numbers_in numbers.now) }
{
    match numbers {
        Some(numbers) => numbers.summary.as_ref(),
        None => None,
    }
}

/// Takes note of a frame that is this. Returns what its mark says of requests.
pub fn tell<A: MapMemory>(role: Role, numbers: &mut Numbers<A>) -> Result<Told, AllocError>
    ensures told { IfOk result (λ told. tell role (numbers_of numbers.old) ≡ (told, numbers_of numbers.new)) }
    ensures lacks { OnErr result A.Lacks }
{
    match role {
        Role::Request(request) => ask(request, numbers),
        Role::Message(kind) => Ok(hear(kind, numbers)),
        Role::Fault => {
            numbers.dialogue = None;
            Ok(Told::Lost)
        }
        Role::Other => Ok(Told::Nothing),
    }
}

/// Takes note of a request, under the next number.
fn ask<A: MapMemory>(request: Request, numbers: &mut Numbers<A>) -> Result<Told, AllocError>
    ensures told { IfOk result (λ told. tell (Role.Request request) (numbers_of numbers.old) ≡ (told, numbers_of numbers.new)) }
    ensures lacks { OnErr result A.Lacks }
{
    let number = numbers.sent.len() as u64 + 1;
    let now = numbers.now;
    A::push(&mut numbers.sent, now)?;
    put_asked(request, number, &mut numbers.dialogue)?;
    Ok(Told::Number(number))
}

/// Has the dialogue take note of a request, as long as there is one.
fn put_asked<A: MapMemory>(
    request: Request,
    number: u64,
    dialogue: &mut Option<Dialogue<VecDeque<Asked, A>>>,
) -> Result<(), AllocError>
    ensures asked { OnOk result (talk_in dialogue.new ≡ asks (record { request = request; name = number }) (talk_in dialogue.old)) }
    ensures lacks { OnErr result A.Lacks }
{
    match dialogue {
        Some(open) => match open.ask(request, number) {
            Ok(()) => Ok(()),
            Err(_) => Err(AllocError),
        },
        None => Ok(()),
    }
}

/// Takes a server's message of this kind. Returns what its mark says of requests.
fn hear<A: MapMemory>(kind: Kind, numbers: &mut Numbers<A>) -> Told
    ensures { tell (Role.Message kind) (numbers_of numbers.old) ≡ (result, numbers_of numbers.new) }
{
    let event = take(kind, &mut numbers.dialogue);
    told_of(event, numbers.sent.as_slice(), numbers.now)
}

/// To which request a message of this kind belongs, as long as each has its place.
fn take<A: MapMemory>(
    kind: Kind,
    dialogue: &mut Option<Dialogue<VecDeque<Asked, A>>>,
) -> Option<Event>
    ensures { place kind (talk_in dialogue.old) ≡ (result, talk_in dialogue.new) }
{
    match dialogue {
        Some(open) => match open.take(kind) {
            Ok(event) => Some(event),
            Err(_) => {
                *dialogue = None;
                None
            }
        },
        None => None,
    }
}

/// What the mark of a message says that is this to the requests, which were sent at these times, and that came at this one.
fn told_of(event: Option<Event>, sent: &[u64], now: u64) -> Told
    ensures { result ≡ told_of sent.now now event }
{
    match event {
        Some(Event::Part(number) | Event::Last(number)) => Told::Answer {
            number,
            sent: sent_at(number, sent),
            now,
        },
        Some(Event::Aside | Event::Ended) => Told::Nothing,
        None => Told::Lost,
    }
}

/// When the request of this number was sent.
fn sent_at(number: u64, sent: &[u64]) -> u64
    ensures { result ≡ get_or sent.now (number - 1) 0 }
{
    match sent.get(number.saturating_sub(1) as usize) {
        Some(at) => *at,
        None => 0,
    }
}
