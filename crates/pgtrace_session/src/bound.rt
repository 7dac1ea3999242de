//! The lines of a Bind whose parameters are known, and of an Execute whose text is.

ghost use Rattle.std.specs.Prelude.{◌≡◌, ◌++◌, ◌∷◌, [], None, Some, length, OnErr, OnOk, string_bytes};
ghost use Rattle.pgp_frontend_read.specs.Views.{kind_view, view};
ghost use Rattle.pgtrace_session.specs.Typed.{IsBindLine, Said, ShowsSent, ShowsTyped, bind_front, executed};
ghost use Rattle.pgtrace_session.specs.TypedLines.{AddsValues, ReadsSo, ShowsRequest};
ghost use Rattle.pgtrace_session.specs.TypesKept.{types_in, types_of};

use crate::chunk::Sender;
use crate::column::Column;
use crate::placement::Told;
use crate::row::{behind_first, column_first, has_binary};
use crate::types::Types;
use crate::value::put_typed;
use bytes::BytesMut;
use pgp_base::{FallibleIterator, Memory};
use pgp_frontend_read::{ClientMessage, ClientMessages, Formats, PasswordKind, Values};
use pgtool_line::line::{put_called, put_end, put_text};
use pgtool_line::nesting::{end_list, put_count, put_key};
use pgtool_line::style::Style;
use pgtrace_lines::body::put_integer;
use pgtrace_lines::client_lists::put_formats;
use pgtrace_lines::frame::begin_line;
use pgtrace_lines::lists::put_fault;
use pgtrace_summary::{MapMemory, Summary};
use std::alloc::AllocError;

/// Writes the line of a client's frame anew, whose mark says this of requests, where it is a Bind some of whose parameters come in binary format, and their
/// types are known, or an Execute and names are asked for; by what is known once it was sent.
pub fn show_sent<A: MapMemory>(
    style: Style,
    place: u64,
    opened: bool,
    kind: PasswordKind,
    told: Told,
    frame: &[u8],
    types: &Option<Types<A>>,
    text: &mut BytesMut<A>,
    line: &mut String<A>,
) -> Result<(), AllocError>
    ensures shows { OnOk result ((said : Said) → ReadsSo Sender.Client opened (kind_view kind) frame.now said → ShowsTyped style place (length frame.now) told said (types_in types.now) (string_bytes line.old) (string_bytes line.new)) }
    ensures lacks { OnErr result A.Lacks }
{
    match told {
        Told::Number(_) => match types {
            Some(types) => show_frame(style, place, opened, kind, frame, types, text, line),
            None => Ok(()),
        },
        Told::Answer { .. } | Told::Lost | Told::Nothing | Told::Uncounted => Ok(()),
    }
}

/// The same of a request.
fn show_frame<A: MapMemory>(
    style: Style,
    place: u64,
    opened: bool,
    kind: PasswordKind,
    frame: &[u8],
    types: &Types<A>,
    text: &mut BytesMut<A>,
    line: &mut String<A>,
) -> Result<(), AllocError>
    ensures shows { OnOk result ((said : Said) → ReadsSo Sender.Client opened (kind_view kind) frame.now said → ShowsRequest style place (length frame.now) said (types_of types.now) (string_bytes line.old) (string_bytes line.new)) }
    ensures lacks { OnErr result A.Lacks }
{
    let mut messages = ClientMessages::resume(frame, opened);
    match messages.next(kind) {
        Ok(Some(message)) => show_message(style, place, frame.len(), message, types, text, line),
        Ok(None) => Ok(()),
        Err(_) => Ok(()),
    }
}

/// Writes the line of a message of so many bytes anew.
fn show_message<A: MapMemory>(
    style: Style,
    place: u64,
    len: usize,
    message: ClientMessage<'_>,
    types: &Types<A>,
    text: &mut BytesMut<A>,
    line: &mut String<A>,
) -> Result<(), AllocError>
    ensures shown { OnOk result (ShowsSent style place len (view message.entry) (types_of types.now) (string_bytes line.old) (string_bytes line.new)) }
    ensures lacks { OnErr result A.Lacks }
{
    match message {
        ClientMessage::Bind {
            portal,
            statement,
            formats,
            values,
            result_formats,
        } => {
            let parameters = types.binds.as_slice();
            if has_binary(parameters) {
                put_bind(
                    style,
                    place,
                    len,
                    parameters,
                    portal,
                    statement,
                    formats,
                    values,
                    result_formats,
                    text,
                    line,
                )
            } else {
                Ok(())
            }
        }
        ClientMessage::Execute { portal, max_rows } => {
            put_execute(style, place, len, portal, max_rows, &types.texts, line)
        }
        _ => Ok(()),
    }
}

/// Writes the line of an Execute anew, where texts are known.
fn put_execute<A: MapMemory>(
    style: Style,
    place: u64,
    len: usize,
    portal: &[u8],
    max_rows: i32,
    texts: &Option<Summary<A>>,
    line: &mut String<A>,
) -> Result<(), AllocError>
    ensures line { OnOk result (string_bytes line.new ≡ executed texts.now style place len portal.now max_rows (string_bytes line.old)) }
    ensures lacks { OnErr result A.Lacks }
{
    let Some(texts) = texts else {
        return Ok(());
    };
    begin_line(style, place, len, b'E', line)?;
    put_called(style, false, "Execute", line)?;
    put_key(style, "portal", "portal", line)?;
    put_text(style, portal, line)?;
    put_integer(style, "rows", "max_rows", max_rows, line)?;
    put_key(style, "query", "query", line)?;
    put_text(style, texts.text_due(portal), line)?;
    put_end(style, line)
}

/// Writes the line of a Bind.
fn put_bind<A: MapMemory>(
    style: Style,
    place: u64,
    len: usize,
    parameters: &[Column],
    portal: &[u8],
    statement: &[u8],
    formats: Formats<'_>,
    values: Values<'_>,
    results: Formats<'_>,
    text: &mut BytesMut<A>,
    line: &mut String<A>,
) -> Result<(), AllocError>
    ensures line { OnOk result (IsBindLine style place len parameters.now portal.now statement.now formats.entry values.entry results.entry (string_bytes line.new)) }
    ensures lacks { OnErr result A.Lacks }
{
    put_front(
        style,
        place,
        len,
        portal,
        statement,
        formats,
        values.size_hint().0,
        line,
    )?;
    put_each(style, parameters, values, text, line)?;
    put_formats(style, "results", "result_formats", results, line)?;
    put_end(style, line)
}

/// Begins the line of a Bind of so many values.
fn put_front<A: MapMemory>(
    style: Style,
    place: u64,
    len: usize,
    portal: &[u8],
    statement: &[u8],
    formats: Formats<'_>,
    count: usize,
    line: &mut String<A>,
) -> Result<(), AllocError>
    ensures front { OnOk result (string_bytes line.new ≡ bind_front style place len portal.now statement.now formats.entry count) }
    ensures lacks { OnErr result A.Lacks }
{
    begin_line(style, place, len, b'B', line)?;
    put_called(style, false, "Bind", line)?;
    put_key(style, "portal", "portal", line)?;
    put_text(style, portal, line)?;
    put_key(style, "statement", "statement", line)?;
    put_text(style, statement, line)?;
    put_formats(style, "formats", "formats", formats, line)?;
    put_key(style, "values", "values", line)?;
    put_count(style, count as u64, line)
}

/// Adds the values of a Bind, each under the parameter at its place.
#[tactic(auto, using(crate::proofs::RowLemmas::each_more, crate::proofs::RowLemmas::each_end, crate::proofs::RowLemmas::each_fault))]
fn put_each<A: MapMemory>(
    style: Style,
    parameters: &[Column],
    mut values: Values<'_>,
    text: &mut BytesMut<A>,
    line: &mut String<A>,
) -> Result<(), AllocError>
    ensures adds { OnOk result (AddsValues style parameters.now values.entry None (string_bytes line.old) (string_bytes line.new)) }
    ensures lacks { OnErr result A.Lacks }
{
    let mut rest = parameters;
    'items: loop {
        match values.next() {
            Ok(Some(value)) => {
                put_typed(style, column_first(rest), value, text, line)?;
                rest = behind_first(rest);
            }
            Ok(None) => return end_list(style, line),
            Err(e) => return put_fault(style, &e, line),
        }
    }
}
