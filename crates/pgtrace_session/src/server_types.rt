//! What a server's messages tell of types, and the lines of its rows.

ghost use Rattle.std.specs.Prelude.{◌≡◌, Bool, Ok, Some, IfOk, OnErr, OnOk, string_bytes};
ghost use Rattle.pgp_frontend.specs.ClientMessage.{PasswordKind};
ghost use Rattle.pgtrace_session.specs.Common.{ParameterDescription, RowDescription};
ghost use Rattle.pgp_message.specs.Views.{view};
ghost use Rattle.pgtrace_session.specs.Requests.{notes_nothing};
ghost use Rattle.pgtrace_session.specs.Steps.{numbers_in};
ghost use Rattle.pgtrace_session.specs.Typed.{Heard, Hears, HearsAt, Learns, Said, ShowsHeard, ShowsTyped};
ghost use Rattle.pgtrace_session.specs.TypedLines.{Reads, ReadsSo};
ghost use Rattle.pgtrace_session.specs.Types.{first};
ghost use Rattle.pgtrace_session.specs.TypesKept.{types_in, types_of};

use crate::chunk::Sender;
use crate::expectation::{Noted, asked_by};
use crate::fields::{columns_of, described_types};
use crate::numbers::Numbers;
use crate::placement::Told;
use crate::role::{Role, byte_at, heard_fault};
use crate::row::type_row;
use crate::summing::place as place_frame;
use crate::typed::pass;
use crate::types::{Types, bind, close, describe, end, finish, reach_answer, rows_of, tell};
use bytes::BytesMut;
use pgp_base::Memory;
use pgp_client::Kind;
use pgp_message::{Message, Messages, ParameterDescriptionBody, RowDescriptionBody};
use pgtool_line::style::Style;
use pgtrace_summary::MapMemory;
use std::alloc::AllocError;

/// Takes note of a server's frame, and writes the line of a row anew where its types are known. Returns what its mark says of requests, and what it says of
/// messages to come.
pub fn read_heard<A: MapMemory>(
    style: Style,
    place: u64,
    frame: &[u8],
    numbers: &mut Option<Numbers<A>>,
    types: &mut Option<Types<A>>,
    text: &mut BytesMut<A>,
    line: &mut String<A>,
) -> Result<(Told, Noted), AllocError>
    ensures read { IfOk result (λ x. (opened : Bool) (kind : PasswordKind) (said : Said) → ReadsSo Sender.Server opened kind frame.now said → Reads style place frame.now said
        (numbers_in numbers.old) (numbers_in numbers.new) (types_in types.old) (types_in types.new) (string_bytes line.old) (string_bytes line.new) x.0 x.1) }
    ensures lacks { OnErr result A.Lacks }
{
    if frame.len() == 1 {
        let told = pass(Role::Other, numbers, types)?;
        return Ok((told, Noted::Answers));
    }
    // perf: with `--raw` alone no frame is read twice but for the requests of a log-in
    if notes_nothing(numbers, frame) {
        return Ok((Told::Uncounted, Noted::Nothing));
    }
    let mut messages = Messages::new(frame);
    match messages.next() {
        Ok(Some(message)) => {
            let heard = read_message(style, place, frame, &message, numbers, types, text, line);
            drop(message);
            heard
        }
        Ok(None) => Ok((Told::Uncounted, Noted::Nothing)),
        Err(_) => {
            let told = pass(heard_fault(frame), numbers, types)?;
            Ok((told, Noted::Nothing))
        }
    }
}

/// Whether nothing is noted of a frame.
fn notes_nothing<A: MapMemory>(numbers: &Option<Numbers<A>>, frame: &[u8]) -> bool
    ensures { result ≡ notes_nothing (numbers_in numbers.now) frame.now }
{
    match numbers {
        Some(_) => false,
        None => byte_at(frame, 0) != b'R',
    }
}

/// The same of a message.
fn read_message<A: MapMemory>(
    style: Style,
    place: u64,
    frame: &[u8],
    message: &Message<&[u8]>,
    numbers: &mut Option<Numbers<A>>,
    types: &mut Option<Types<A>>,
    text: &mut BytesMut<A>,
    line: &mut String<A>,
) -> Result<(Told, Noted), AllocError>
    ensures read { IfOk result (λ x. Reads style place frame.now (Heard (Ok (view message.now)))
        (numbers_in numbers.old) (numbers_in numbers.new) (types_in types.old) (types_in types.new) (string_bytes line.old) (string_bytes line.new) x.0 x.1) }
    ensures lacks { OnErr result A.Lacks }
{
    let told = place_frame(Role::Message(Kind::of(message)), None, numbers)?;
    type_message(style, place, frame.len(), told, message, types, text, line)?;
    Ok((told, asked_by(message)))
}

/// Takes note of what a message of so many bytes tells of types.
fn type_message<A: MapMemory>(
    style: Style,
    place: u64,
    len: usize,
    told: Told,
    message: &Message<&[u8]>,
    types: &mut Option<Types<A>>,
    text: &mut BytesMut<A>,
    line: &mut String<A>,
) -> Result<(), AllocError>
    ensures learns { OnOk result (Learns told (Heard (Ok (view message.now))) (types_in types.old) (types_in types.new)) }
    ensures shows { OnOk result (ShowsTyped style place len told (Heard (Ok (view message.now))) (types_in types.new) (string_bytes line.old) (string_bytes line.new)) }
    ensures lacks { OnErr result A.Lacks }
{
    match told {
        Told::Answer { number, .. } => match types {
            Some(types) => hear(style, place, len, number, message, types, text, line),
            None => Ok(()),
        },
        Told::Lost => {
            *types = None;
            Ok(())
        }
        Told::Number(_) | Told::Nothing | Told::Uncounted => Ok(()),
    }
}

/// Takes note of a message of so many bytes.
fn hear<A: MapMemory>(
    style: Style,
    place: u64,
    len: usize,
    number: u64,
    message: &Message<&[u8]>,
    types: &mut Types<A>,
    text: &mut BytesMut<A>,
    line: &mut String<A>,
) -> Result<(), AllocError>
    ensures hears { OnOk result (HearsAt number (view message.now) (types_of types.old) (types_of types.new)) }
    ensures shows { OnOk result (ShowsHeard style place len (view message.now) (first number (types_of types.new).awaited) (types_of types.new) (string_bytes line.old) (string_bytes line.new)) }
    ensures lacks { OnErr result A.Lacks }
{
    reach_answer(number, types);
    learn(number, message, types)?;
    show(style, place, len, number, message, types, text, line)
}

/// Takes note of what a message tells of types.
fn learn<A: MapMemory>(
    number: u64,
    message: &Message<&[u8]>,
    types: &mut Types<A>,
) -> Result<(), AllocError>
    ensures hears { OnOk result (Hears (view message.now) (first number (types_of types.old).awaited) (types_of types.old) (types_of types.new)) }
    ensures lacks { OnErr result A.Lacks }
{
    match message {
        Message::RowDescription(row) => describe_row(number, row, types),
        Message::ParameterDescription(row) => tell_types(number, row, types),
        Message::ParseComplete => finish(number, types),
        Message::CloseComplete => close(number, types),
        Message::NoData => describe(number, None, types),
        Message::BindComplete => bind(number, types),
        Message::ReadyForQuery(ready) => {
            end(ready.status(), types);
            Ok(())
        }
        // a request that failed changes nothing
        Message::ErrorResponse(_) => Ok(()),
        _ => Ok(()),
    }
}

/// The object of a request has the columns that are described.
fn describe_row<A: MapMemory>(
    number: u64,
    row: &RowDescriptionBody<&[u8]>,
    types: &mut Types<A>,
) -> Result<(), AllocError>
    ensures hears { OnOk result (Hears (RowDescription row.now) (first number (types_of types.old).awaited) (types_of types.old) (types_of types.new)) }
    ensures lacks { OnErr result A.Lacks }
{
    let alloc = *types.awaited.allocator();
    let columns = columns_of(alloc, types.texts.is_some(), row.fields())?;
    describe(number, columns, types)
}

/// The statement of a request has the parameters that are described.
fn tell_types<A: MapMemory>(
    number: u64,
    row: &ParameterDescriptionBody<&[u8]>,
    types: &mut Types<A>,
) -> Result<(), AllocError>
    ensures hears { OnOk result (Hears (ParameterDescription row.now) (first number (types_of types.old).awaited) (types_of types.old) (types_of types.new)) }
    ensures lacks { OnErr result A.Lacks }
{
    let alloc = *types.awaited.allocator();
    let parameters = described_types(alloc, row.parameters())?;
    tell(number, parameters, types)
}

/// Writes the line of a row anew.
fn show<A: MapMemory>(
    style: Style,
    place: u64,
    len: usize,
    number: u64,
    message: &Message<&[u8]>,
    types: &Types<A>,
    text: &mut BytesMut<A>,
    line: &mut String<A>,
) -> Result<(), AllocError>
    ensures shows { OnOk result (ShowsHeard style place len (view message.now) (first number (types_of types.now).awaited) (types_of types.now) (string_bytes line.old) (string_bytes line.new)) }
    ensures lacks { OnErr result A.Lacks }
{
    match message {
        Message::DataRow(row) => type_row(
            style,
            place,
            len,
            types.texts.is_some(),
            rows_of(number, types),
            row,
            text,
            line,
        ),
        _ => Ok(()),
    }
}
