//! The line of a row whose columns are known.

ghost use Rattle.std.specs.Prelude.{◌≡◌, ◌≤◌, None, length, drop, map, OnErr, OnOk, string_bytes};
ghost use Rattle.std.specs.Option.{option_copied};
ghost use Rattle.pgtrace_lines.specs.Shown.{list_of, text_part};
ghost use Rattle.pgtrace_session.specs.Common.{AllByRecursion, IsPlaceIn, followed, value_at};
ghost use Rattle.pgtrace_session.specs.Typed.{IsRowLine, ShowsRow, column_first, fits, has_binary, names_from, names_parts};
ghost use Rattle.pgtrace_session.specs.TypedLines.{AddsValue, AddsValues};

use crate::column::Column;
use crate::columns::Columns;
use crate::value::put_typed;
use bytes::BytesMut;
use pgp_base::{FallibleIterator, Memory};
use pgp_message::{DataRowBody, DataRowRanges};
use pgtool_line::line::{put_called, put_end, put_text};
use pgtool_line::nesting::{end_list, put_count, put_key};
use pgtool_line::style::Style;
use pgtrace_lines::frame::begin_line;
use pgtrace_lines::lists::put_fault;
use pgtrace_summary::MapMemory;
use std::alloc::AllocError;
use std::ops::Range;

/// Writes the line of a row anew, whose frame stands at this place and has so many bytes, where its columns are known and some of its values come in
/// binary format, or names are asked for.
pub fn type_row<A: MapMemory>(
    style: Style,
    place: u64,
    len: usize,
    named: bool,
    columns: Option<&Columns<A>>,
    row: &DataRowBody<&[u8]>,
    text: &mut BytesMut<A>,
    line: &mut String<A>,
) -> Result<(), AllocError>
    ensures shows { OnOk result (ShowsRow style place len named (option_copied columns.entry) row.now (string_bytes line.old) (string_bytes line.new)) }
    ensures lacks { OnErr result A.Lacks }
{
    match columns {
        Some(columns) => {
            if fits(named, columns.list(), row) {
                put_row(style, place, len, named, columns, row, text, line)
            } else {
                Ok(())
            }
        }
        None => Ok(()),
    }
}

/// Whether the columns are as many as the row announces, and some are in binary format, or names are asked for.
fn fits(named: bool, columns: &[Column], row: &DataRowBody<&[u8]>) -> bool
    ensures { result ≡ fits named columns.now row.now }
{
    columns.len() == row.ranges().size_hint().0 && (named || has_binary(columns))
}

/// Whether some of the columns are in binary format.
pub fn has_binary(columns: &[Column]) -> bool
    ensures { result ≡ has_binary columns.now }
{
    let mut rest = columns;
    'columns: while let Some((column, behind)) = rest.split_first() {
        if column.binary {
            return true;
        }
        rest = behind;
    }
    false
}

/// Writes the line of a row.
fn put_row<A: MapMemory>(
    style: Style,
    place: u64,
    len: usize,
    named: bool,
    columns: &Columns<A>,
    row: &DataRowBody<&[u8]>,
    text: &mut BytesMut<A>,
    line: &mut String<A>,
) -> Result<(), AllocError>
    ensures line { OnOk result (IsRowLine style place len named columns.now row.now (string_bytes line.new)) }
    ensures lacks { OnErr result A.Lacks }
{
    let places = row.ranges();
    begin_line(style, place, len, b'D', line)?;
    put_called(style, false, "DataRow", line)?;
    put_key(style, "values", "values", line)?;
    put_count(style, places.size_hint().0 as u64, line)?;
    put_values(style, columns.list(), row.buffer(), places, text, line)?;
    put_names(style, named, columns, line)?;
    put_end(style, line)
}

/// Adds the values of a row, each under the column at its place.
#[tactic(auto, using(crate::proofs::RowLemmas::values_more, crate::proofs::RowLemmas::values_end, crate::proofs::RowLemmas::values_fault))]
fn put_values<A: MapMemory>(
    style: Style,
    columns: &[Column],
    buffer: &[u8],
    mut places: DataRowRanges<'_>,
    text: &mut BytesMut<A>,
    line: &mut String<A>,
) -> Result<(), AllocError>
    requires within { AllByRecursion (IsPlaceIn (length buffer.now)) places.items }
    ensures adds { OnOk result (AddsValues style columns.now (map (value_at buffer.now) places.entry.items) places.entry.end (string_bytes line.old) (string_bytes line.new)) }
    ensures lacks { OnErr result A.Lacks }
{
    let mut rest = columns;
    'items: loop {
        match places.next() {
            Ok(Some(place)) => {
                put_place(style, column_first(rest), buffer, &place, text, line)?;
                rest = behind_first(rest);
            }
            Ok(None) => return end_list(style, line),
            Err(e) => return put_fault(style, &e, line),
        }
    }
}

/// The first column, or one of which nothing is known.
pub fn column_first(columns: &[Column]) -> Column
    ensures { result ≡ column_first columns.now }
{
    match columns {
        [] => Column {
            oid: 0,
            binary: false,
            len: 0,
        },
        [first, ..] => *first,
    }
}

/// The columns behind the first.
pub fn behind_first(columns: &[Column]) -> &[Column]
    ensures { result.now ≡ drop 1 columns.now }
{
    match columns {
        [] => columns,
        [_, rest @ ..] => rest,
    }
}

/// Adds the value at a place.
fn put_place<A: MapMemory>(
    style: Style,
    column: Column,
    buffer: &[u8],
    place: &Option<Range<usize>>,
    text: &mut BytesMut<A>,
    line: &mut String<A>,
) -> Result<(), AllocError>
    requires within { IsPlaceIn (length buffer.now) place.now }
    ensures adds { OnOk result (AddsValue style column (value_at buffer.now place.now) (string_bytes line.old) (string_bytes line.new)) }
    ensures lacks { OnErr result A.Lacks }
{
    match place {
        Some(place) => put_typed(
            style,
            column,
            Some(&buffer[place.start..place.end]),
            text,
            line,
        ),
        None => put_typed(style, column, None, text, line),
    }
}

/// Adds the names of columns, where they are asked for.
#[tactic(auto, using(crate::proofs::RowLemmas::names_length))]
fn put_names<A: MapMemory>(
    style: Style,
    named: bool,
    columns: &Columns<A>,
    line: &mut String<A>,
) -> Result<(), AllocError>
    ensures adds { OnOk result (string_bytes line.new ≡ followed style (string_bytes line.old) (names_parts named columns.now)) }
    ensures lacks { OnErr result A.Lacks }
{
    if !named {
        return Ok(());
    }
    put_key(style, "columns", "columns", line)?;
    put_count(style, columns.list().len() as u64, line)?;
    put_each_name(style, columns.list(), columns.names(), line)
}

/// Adds the names of these columns, which stand one after another.
#[tactic(auto, using(std::proofs::lemmas::List::take_min, std::proofs::lemmas::List::drop_min))]
fn put_each_name<A: MapMemory>(
    style: Style,
    columns: &[Column],
    names: &[u8],
    line: &mut String<A>,
) -> Result<(), AllocError>
    ensures adds { OnOk result (string_bytes line.new ≡ followed style (string_bytes line.old) (list_of text_part (names_from columns.now names.now) None)) }
    ensures lacks { OnErr result A.Lacks }
{
    let mut rest = columns;
    let mut left = names;
    'columns: while let Some((column, behind)) = rest.split_first() {
        let (name, more) = left.split_at(column.len.min(left.len()));
        put_text(style, name, line)?;
        rest = behind;
        left = more;
    }
    end_list(style, line)
}
