//! What is known of both sides of a connection.

ghost use Rattle.std.specs.Prelude.{◌≡◌, drop, nat_lt, vec_len, if◌then◌else◌, IfOk, OnErr, OnOk, string_bytes};
ghost use Rattle.pgtrace_session.specs.Steps.{KnowsNext, known_of};
ghost use Rattle.pgtrace_session.specs.Conversation.{at_first, counts, is_replicating, note};

use crate::chunk::Sender;
use crate::expectation::{Encryption, Noted};
use crate::numbers::{Numbers, first_numbers};
use crate::typed::first_types;
use crate::types::Types;
use pgp_base::Memory;
use pgp_frontend_read::PasswordKind;
use pgtool_line::style::Style;
use pgtrace_lines::client::client_line;
use pgtrace_lines::frame::Next;
use pgtrace_lines::marking::Marking;
use pgtrace_lines::next::server_line;
use pgtrace_lines::side::Phase;
use pgtrace_summary::MapMemory;
use std::alloc::AllocError;

/// What is known of both sides.
#[derive(Drop)]
pub struct Known<A: MapMemory> {
    /// Whether a startup packet of the client came.
    pub opened: bool,
    /// Which its next messages of tag `p` are.
    pub kinds: Vec<PasswordKind, A>,
    /// How far the server's stream has come.
    pub phase: Phase,
    /// The requests for encryption that aren't answered.
    pub requests: Vec<Encryption, A>,
    /// What is known of all requests, where marks tell their numbers or values are shown by their types.
    pub numbers: Option<Numbers<A>>,
    /// Whether marks tell their numbers.
    pub marked: bool,
    /// What is known of the types of values.
    pub types: Option<Types<A>>,
}

/// Before a connection's first byte.
pub fn at_first<A: MapMemory>(alloc: A, marking: Marking) -> Known<A>
    ensures { known_of result ≡ at_first marking }
{
    Known {
        opened: false,
        kinds: Vec::new(alloc),
        phase: Phase::Beginning,
        requests: Vec::new(alloc),
        numbers: first_numbers(alloc, counts(marking), marking.summed, marking.folded),
        marked: marking.numbered,
        types: first_types(alloc, marking.raw, marking.named),
    }
}

/// Whether requests are counted.
fn counts(marking: Marking) -> bool
    ensures { result ≡ counts marking }
{
    marking.numbered || !marking.raw
}

/// Makes the line of the frame at the front of the bytes, which this side sent and which stands at this place. Returns what stands after it.
pub fn next_line<'b, A: MapMemory>(
    style: Style,
    sender: Sender,
    place: u64,
    bytes: &'b [u8],
    known: &mut Known<A>,
    line: &mut String<A>,
) -> Result<(Next, &'b [u8]), AllocError>
    ensures listed { IfOk result (λ x. KnowsNext style sender place (known_of known.old) bytes.now x.1.now (string_bytes line.new) (known_of known.new) x.0) }
    ensures lacks { OnErr result A.Lacks }
{
    match sender {
        Sender::Client => next_of_client(style, place, bytes, known, line),
        Sender::Server => next_of_server(style, place, bytes, known, line),
    }
}

fn next_of_client<'b, A: MapMemory>(
    style: Style,
    place: u64,
    bytes: &'b [u8],
    known: &mut Known<A>,
    line: &mut String<A>,
) -> Result<(Next, &'b [u8]), AllocError>
    ensures listed { IfOk result (λ x. KnowsNext style Sender.Client place (known_of known.old) bytes.now x.1.now (string_bytes line.new) (known_of known.new) x.0) }
    ensures lacks { OnErr result A.Lacks }
{
    let (next, opened, left, rest) = client_line(
        style,
        place,
        known.opened,
        known.kinds.as_slice(),
        is_replicating(known.phase),
        bytes,
        line,
    )?;
    let left = left.len();
    known.opened = opened;
    keep_last(left, &mut known.kinds);
    Ok((next, rest))
}

/// Lets the first kind go, where fewer are left.
fn keep_last<A: MapMemory>(left: usize, kinds: &mut Vec<PasswordKind, A>)
    ensures { kinds.new.items ≡ (if nat_lt left (vec_len kinds.old) then drop 1 kinds.old.items else kinds.old.items) }
{
    if left < kinds.len() {
        let _ = kinds.remove(0);
    }
}

fn next_of_server<'b, A: MapMemory>(
    style: Style,
    place: u64,
    bytes: &'b [u8],
    known: &mut Known<A>,
    line: &mut String<A>,
) -> Result<(Next, &'b [u8]), AllocError>
    ensures listed { IfOk result (λ x. KnowsNext style Sender.Server place (known_of known.old) bytes.now x.1.now (string_bytes line.new) (known_of known.new) x.0) }
    ensures lacks { OnErr result A.Lacks }
{
    let (next, phase, rest) = server_line(style, place, known.phase, bytes, line)?;
    known.phase = phase;
    Ok((next, rest))
}

/// Whether a client's CopyData have a standby's messages inside.
pub fn is_replicating(phase: Phase) -> bool
    ensures { result ≡ is_replicating phase }
{
    match phase {
        Phase::Replicating => true,
        Phase::Beginning | Phase::Messages | Phase::Encrypted => false,
    }
}

/// Takes note of what a message says of those that are still to come.
pub fn note<A: MapMemory>(noted: Noted, known: &mut Known<A>) -> Result<(), AllocError>
    ensures noted { OnOk result (known_of known.new ≡ note noted (known_of known.old)) }
    ensures lacks { OnErr result A.Lacks }
{
    match noted {
        Noted::Asks(kind) => A::push(&mut known.kinds, kind)?,
        Noted::Requests(encryption) => A::push(&mut known.requests, encryption)?,
        Noted::Answers => drop_first(&mut known.requests),
        Noted::Nothing => {}
    }
    Ok(())
}

/// Lets the first request go.
fn drop_first<A: MapMemory>(requests: &mut Vec<Encryption, A>)
    ensures { requests.new.items ≡ drop 1 requests.old.items }
{
    if !requests.is_empty() {
        let _ = requests.remove(0);
    }
}
