//! What a frame tells of requests and of the types of values, and its line, with texts for values whose types are known.

ghost use Rattle.std.specs.Prelude.{◌≡◌, Some, IfOk, OnErr, string_bytes};
ghost use Rattle.pgp_frontend_read.specs.Views.{kind_view};
ghost use Rattle.pgtrace_session.specs.Steps.{numbers_in};
ghost use Rattle.pgtrace_session.specs.Typed.{Said, first_types};
ghost use Rattle.pgtrace_session.specs.TypedLines.{Passes, Reads, ReadsSo, lost};
ghost use Rattle.pgtrace_session.specs.TypesKept.{types_in};

use crate::chunk::Sender;
use crate::client_types::read_sent;
use crate::expectation::Noted;
use crate::numbers::Numbers;
use crate::placement::Told;
use crate::role::Role;
use crate::server_types::read_heard;
use crate::summing::place;
use crate::types::{Types, no_types};
use bytes::BytesMut;
use pgp_base::Memory;
use pgp_frontend_read::PasswordKind;
use pgtool_line::style::Style;
use pgtrace_summary::MapMemory;
use std::alloc::AllocError;

/// Before the first frame, where values are shown as their bytes or not, and names are asked for or not.
pub fn first_types<A: MapMemory>(alloc: A, raw: bool, named: bool) -> Option<Types<A>>
    ensures { types_in result ≡ first_types raw named }
{
    if raw {
        None
    } else {
        Some(no_types(alloc, named))
    }
}

/// Takes note of a frame of this side, and writes its line anew where it has values whose types are known. Returns what its mark says of
/// requests, and what it says of messages to come.
pub fn read_frame<A: MapMemory>(
    style: Style,
    place: u64,
    sender: Sender,
    opened: bool,
    kind: PasswordKind,
    frame: &[u8],
    numbers: &mut Option<Numbers<A>>,
    types: &mut Option<Types<A>>,
    text: &mut BytesMut<A>,
    line: &mut String<A>,
) -> Result<(Told, Noted), AllocError>
    ensures read { IfOk result (λ x. (said : Said) → ReadsSo sender opened (kind_view kind) frame.now said → Reads style place frame.now said
        (numbers_in numbers.old) (numbers_in numbers.new) (types_in types.old) (types_in types.new) (string_bytes line.old) (string_bytes line.new) x.0 x.1) }
    ensures lacks { OnErr result A.Lacks }
{
    match sender {
        Sender::Client => read_sent(
            style, place, opened, kind, frame, numbers, types, text, line,
        ),
        Sender::Server => read_heard(style, place, frame, numbers, types, text, line),
    }
}

/// Takes note of a frame that isn't read, and that is this to the requests.
pub fn pass<A: MapMemory>(
    role: Role,
    numbers: &mut Option<Numbers<A>>,
    types: &mut Option<Types<A>>,
) -> Result<Told, AllocError>
    ensures passes { IfOk result (λ told. Passes role (numbers_in numbers.old) (numbers_in numbers.new) (types_in types.old) (types_in types.new) told) }
    ensures lacks { OnErr result A.Lacks }
{
    let told = place(role, None, numbers)?;
    lose(told, types);
    Ok(told)
}

/// Nothing is known of types any more where a frame has no place among the answers.
fn lose<A: MapMemory>(told: Told, types: &mut Option<Types<A>>)
    ensures { types_in types.new ≡ lost told (types_in types.old) }
{
    match told {
        Told::Lost => *types = None,
        Told::Number(_) | Told::Answer { .. } | Told::Nothing | Told::Uncounted => {}
    }
}
