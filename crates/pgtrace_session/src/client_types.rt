//! What a client's messages ask, and what they are about.

ghost use Rattle.std.specs.Prelude.{◌≡◌, [], Ok, Some, map, IfOk, OnErr, OnOk, string_bytes};
ghost use Rattle.pgp_frontend_read.specs.Views.{kind_view, view};
ghost use Rattle.pgtrace_session.specs.Shelves.{formatted, is_binary};
ghost use Rattle.pgtrace_session.specs.Steps.{numbers_in};
ghost use Rattle.pgtrace_session.specs.Typed.{Learns, Said, Sent, about_by, sends};
ghost use Rattle.pgtrace_session.specs.TypedLines.{Reads, ReadsSo, Tells};
ghost use Rattle.pgtrace_session.specs.Types.{binds, parameters_of, waits};
ghost use Rattle.pgtrace_session.specs.TypesKept.{types_in, types_of};

use crate::awaited::{Object, wait, wait_bound};
use crate::bound::show_sent;
use crate::chunk::Sender;
use crate::columns::formatted;
use crate::expectation::{Noted, requested_by};
use crate::fields::{binaries_of, given_types};
use crate::numbers::Numbers;
use crate::placement::Told;
use crate::role::{asking, sent_fault};
use crate::summing::place;
use crate::typed::pass;
use crate::types::{Types, ask_text, parameters_of, parse, sync};
use bytes::BytesMut;
use pgp_base::Memory;
use pgp_client::Request;
use pgp_frontend_read::{ClientMessage, ClientMessages, Formats, PasswordKind};
use pgtool_line::style::Style;
use pgtrace_summary::{MapMemory, Work};
use std::alloc::AllocError;

/// Takes note of a client's frame, and writes its line anew where it has values whose types are known. Returns what its mark says of requests, and what it
/// says of messages to come.
pub fn read_sent<A: MapMemory>(
    style: Style,
    place: u64,
    opened: bool,
    kind: PasswordKind,
    frame: &[u8],
    numbers: &mut Option<Numbers<A>>,
    types: &mut Option<Types<A>>,
    text: &mut BytesMut<A>,
    line: &mut String<A>,
) -> Result<(Told, Noted), AllocError>
    ensures read { IfOk result (λ x. (said : Said) → ReadsSo Sender.Client opened (kind_view kind) frame.now said → Reads style place frame.now said
        (numbers_in numbers.old) (numbers_in numbers.new) (types_in types.old) (types_in types.new) (string_bytes line.old) (string_bytes line.new) x.0 x.1) }
    ensures lacks { OnErr result A.Lacks }
{
    let (told, noted) = ask_frame(opened, kind, frame, numbers, types)?;
    show_sent(style, place, opened, kind, told, frame, types, text, line)?;
    Ok((told, noted))
}

/// Takes note of a client's frame.
fn ask_frame<A: MapMemory>(
    opened: bool,
    kind: PasswordKind,
    frame: &[u8],
    numbers: &mut Option<Numbers<A>>,
    types: &mut Option<Types<A>>,
) -> Result<(Told, Noted), AllocError>
    ensures tells { IfOk result (λ x. (said : Said) → ReadsSo Sender.Client opened (kind_view kind) frame.now said → Tells frame.now said
        (numbers_in numbers.old) (numbers_in numbers.new) (types_in types.old) (types_in types.new) x.0 x.1) }
    ensures lacks { OnErr result A.Lacks }
{
    let mut messages = ClientMessages::resume(frame, opened);
    match messages.next(kind) {
        Ok(Some(message)) => ask_message(frame, message, numbers, types),
        Ok(None) => Ok((Told::Uncounted, Noted::Nothing)),
        Err(_) => {
            let told = pass(sent_fault(frame), numbers, types)?;
            Ok((told, Noted::Nothing))
        }
    }
}

/// Takes note of a message.
fn ask_message<A: MapMemory>(
    frame: &[u8],
    message: ClientMessage<'_>,
    numbers: &mut Option<Numbers<A>>,
    types: &mut Option<Types<A>>,
) -> Result<(Told, Noted), AllocError>
    ensures tells { IfOk result (λ x. Tells frame.now (Sent (Ok (view message.entry)))
        (numbers_in numbers.old) (numbers_in numbers.new) (types_in types.old) (types_in types.new) x.0 x.1) }
    ensures lacks { OnErr result A.Lacks }
{
    let noted = requested_by(&message);
    let told = place(asking(Request::of(&message)), Some(&message), numbers)?;
    learn(told, message, types)?;
    Ok((told, noted))
}

/// Takes note of what a message tells of types.
fn learn<A: MapMemory>(
    told: Told,
    message: ClientMessage<'_>,
    types: &mut Option<Types<A>>,
) -> Result<(), AllocError>
    ensures learns { OnOk result (Learns told (Sent (Ok (view message.entry))) (types_in types.old) (types_in types.new)) }
    ensures lacks { OnErr result A.Lacks }
{
    match told {
        Told::Number(number) => match types {
            Some(types) => ask(number, message, types),
            None => Ok(()),
        },
        Told::Lost => {
            *types = None;
            Ok(())
        }
        Told::Answer { .. } | Told::Nothing | Told::Uncounted => Ok(()),
    }
}

/// Takes note of a request.
fn ask<A: MapMemory>(
    number: u64,
    message: ClientMessage<'_>,
    types: &mut Types<A>,
) -> Result<(), AllocError>
    ensures asked { OnOk result (types_of types.new ≡ sends number (view message.entry) (types_of types.old)) }
    ensures lacks { OnErr result A.Lacks }
{
    match message {
        ClientMessage::Parse {
            name,
            query,
            param_types,
        } => {
            let alloc = *types.awaited.allocator();
            let parameters = given_types(alloc, param_types)?;
            parse(number, name, query, parameters, types)
        }
        ClientMessage::Bind {
            portal,
            statement,
            formats,
            result_formats,
            ..
        } => ask_bind(number, portal, statement, formats, result_formats, types),
        ClientMessage::Sync => {
            sync(types);
            Ok(())
        }
        ClientMessage::Describe { variant, name } => ask_by(number, variant, name, types),
        ClientMessage::Close { variant, name } => ask_by(number, variant, name, types),
        ClientMessage::Execute { portal, .. } => {
            wait(number, Object::Portal, portal, &mut types.awaited)
        }
        ClientMessage::Query(_) => wait(number, Object::Simple, &[], &mut types.awaited),
        _ => Ok(()),
    }
}

/// Takes note of a Bind.
fn ask_bind<A: MapMemory>(
    number: u64,
    portal: &[u8],
    statement: &[u8],
    formats: Formats<'_>,
    results: Formats<'_>,
    types: &mut Types<A>,
) -> Result<(), AllocError>
    ensures asked { OnOk result (types_of types.new ≡ waits (Some (record { number = number; object = Object.Portal; name = portal.now; statement = statement.now; formats = map is_binary results.entry; parameters = [] })) (binds number portal.now statement.now (formatted (map is_binary formats.entry) (parameters_of statement.now (types_of types.old))) (types_of types.old))) }
    ensures lacks { OnErr result A.Lacks }
{
    let alloc = *types.awaited.allocator();
    let results = binaries_of(alloc, results)?;
    let binaries = binaries_of(alloc, formats)?;
    types.binds = formatted(alloc, binaries.as_slice(), parameters_of(statement, types))?;
    ask_text(number, Work::Bind, portal, statement, &mut types.texts)?;
    wait_bound(
        number,
        Object::Portal,
        portal,
        statement,
        results,
        Vec::new(alloc),
        &mut types.awaited,
    )
}

/// Takes note of a Describe or a Close, by its letter.
fn ask_by<A: MapMemory>(
    number: u64,
    variant: u8,
    name: &[u8],
    types: &mut Types<A>,
) -> Result<(), AllocError>
    ensures asked { OnOk result (types_of types.new ≡ waits (about_by number variant name.now) (types_of types.old)) }
    ensures lacks { OnErr result A.Lacks }
{
    match variant {
        b'S' => wait(number, Object::Statement, name, &mut types.awaited),
        b'P' => wait(number, Object::Portal, name, &mut types.awaited),
        _ => Ok(()),
    }
}
