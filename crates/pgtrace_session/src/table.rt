//! The table of a summary.

ghost use Rattle.std.specs.Prelude.{◌≡◌, ◌++◌, ◌∷◌, [], OnErr, OnOk, decimal, string_bytes};
ghost use Rattle.std.specs.List.{flat_map};
ghost use Rattle.pgtrace_lines.specs.Steps.{view_of};
ghost use Rattle.pgtrace_session.specs.Marks.{millis, number};
ghost use Rattle.pgtrace_session.specs.Tables.{cell, columns, heading, members, percentage, row_by, row_in, rows, shares, table, times};

use crate::line_mark::put_number;
use crate::request_mark::put_millis;
use pgp_base::Memory;
use pgtool_line::line::put_blanks;
use pgtool_line::quote::{put_cut_text, put_json};
use pgtool_line::style::{Form, Style};
use pgtrace_lines::view::View;
use pgtrace_summary::{Entry, Line, MapMemory, Summary, sum_of};
use std::alloc::AllocError;

/// How many characters a count of runs or of errors takes, and how many a count of rows, or a time.
const COUNT: usize = 8;

const WIDTH: usize = 10;

const SHARE: usize = 6;

/// Adds the table of a summary: a line for each statement that ran.
pub fn put_table<A: MapMemory>(
    view: View<'_>,
    summary: &Summary<A>,
    part: &mut String<A>,
    text: &mut String<A>,
) -> Result<(), AllocError>
    ensures text { OnOk result (string_bytes text.new ≡ string_bytes text.old ++ table (view_of view.entry) summary.now.tallies) }
    ensures lacks { OnErr result A.Lacks }
{
    let entries = summary.ranked()?;
    A::push_str(text, heading(view.style.form))?;
    put_rows(view, entries.as_slice(), part, text)
}

/// The line above the others.
fn heading(form: Form) -> &'static str
    ensures { result.now ≡ heading form }
{
    match form {
        Form::Columns => {
            "   count   errors       rows      total  share      least     median   greatest ms\n"
        }
        Form::Json => "",
    }
}

/// Adds the lines of these statements.
fn put_rows<A: MapMemory>(
    view: View<'_>,
    entries: &[Entry<'_, A>],
    part: &mut String<A>,
    text: &mut String<A>,
) -> Result<(), AllocError>
    ensures text { OnOk result (string_bytes text.new ≡ string_bytes text.old ++ rows (view_of view.entry) entries.now) }
    ensures lacks { OnErr result A.Lacks }
{
    let whole = sum_of(entries);
    for entry in entries {
        put_entry(view, whole, entry, part, text)?;
    }
    Ok(())
}

/// Adds the line of a statement, if it has one.
fn put_entry<A: MapMemory>(
    view: View<'_>,
    whole: u64,
    entry: &Entry<'_, A>,
    part: &mut String<A>,
    text: &mut String<A>,
) -> Result<(), AllocError>
    ensures text { OnOk result (string_bytes text.new ≡ string_bytes text.old ++ row_in (view_of view.entry) whole entry.now) }
    ensures lacks { OnErr result A.Lacks }
{
    let line = entry.line(whole)?;
    if line.greatest < view.slower {
        return Ok(());
    }
    put_row(view.style, line, entry.text(), part, text)
}

/// Adds the line of a statement.
fn put_row<A: MapMemory>(
    style: Style,
    line: Line,
    statement: &[u8],
    part: &mut String<A>,
    text: &mut String<A>,
) -> Result<(), AllocError>
    ensures text { OnOk result (string_bytes text.new ≡ string_bytes text.old ++ row_by style.form style.limit line statement.now) }
    ensures lacks { OnErr result A.Lacks }
{
    match style.form {
        Form::Columns => {
            put_columns(line, part, text)?;
            put_cut_text(style.limit, statement, text)?;
            A::push_char(text, '\n')
        }
        Form::Json => {
            put_members(line, text)?;
            put_json(style.limit, statement, text)?;
            A::push_str(text, "}\n")
        }
    }
}

/// Adds counts and times in columns.
fn put_columns<A: MapMemory>(
    line: Line,
    part: &mut String<A>,
    text: &mut String<A>,
) -> Result<(), AllocError>
    ensures text { OnOk result (string_bytes text.new ≡ string_bytes text.old ++ columns line) }
    ensures lacks { OnErr result A.Lacks }
{
    put_count(COUNT, line.count, part, text)?;
    put_count(COUNT, line.errors, part, text)?;
    put_count(WIDTH, line.rows, part, text)?;
    put_time(line.total, part, text)?;
    put_share(line.share, part, text)?;
    put_time(line.least, part, text)?;
    put_time(line.median, part, text)?;
    put_time(line.greatest, part, text)
}

/// Adds a count at the right of so many characters.
fn put_count<A: MapMemory>(
    width: usize,
    n: u64,
    part: &mut String<A>,
    text: &mut String<A>,
) -> Result<(), AllocError>
    ensures text { OnOk result (string_bytes text.new ≡ string_bytes text.old ++ cell width (decimal n)) }
    ensures lacks { OnErr result A.Lacks }
{
    part.clear();
    A::push_shown(part, format_args!("{n}"))?;
    put_cell(width, part.as_str(), text)
}

/// Adds so many microseconds as milliseconds, at the right of their column.
fn put_time<A: MapMemory>(
    micros: u64,
    part: &mut String<A>,
    text: &mut String<A>,
) -> Result<(), AllocError>
    ensures text { OnOk result (string_bytes text.new ≡ string_bytes text.old ++ cell 10 (millis micros)) }
    ensures lacks { OnErr result A.Lacks }
{
    part.clear();
    put_millis(micros, part)?;
    put_cell(WIDTH, part.as_str(), text)
}

/// Adds so many thousandths as a percentage, at the right of their column.
fn put_share<A: MapMemory>(
    share: u64,
    part: &mut String<A>,
    text: &mut String<A>,
) -> Result<(), AllocError>
    ensures text { OnOk result (string_bytes text.new ≡ string_bytes text.old ++ cell 6 (percentage share)) }
    ensures lacks { OnErr result A.Lacks }
{
    part.clear();
    let whole = share / 10;
    let tenths = share % 10;
    A::push_shown(part, format_args!("{whole}.{tenths}%"))?;
    put_cell(SHARE, part.as_str(), text)
}

/// Adds a text at the right of so many characters, and a blank.
fn put_cell<A: MapMemory>(width: usize, part: &str, text: &mut String<A>) -> Result<(), AllocError>
    ensures text { OnOk result (string_bytes text.new ≡ string_bytes text.old ++ cell width part.now) }
    ensures lacks { OnErr result A.Lacks }
{
    put_blanks(width.saturating_sub(part.len()), text)?;
    A::push_str(text, part)?;
    A::push_char(text, ' ')
}

/// Adds counts and times as members of an object.
fn put_members<A: MapMemory>(line: Line, text: &mut String<A>) -> Result<(), AllocError>
    ensures text { OnOk result (string_bytes text.new ≡ string_bytes text.old ++ members line) }
    ensures lacks { OnErr result A.Lacks }
{
    let count = line.count;
    let errors = line.errors;
    let rows = line.rows;
    A::push_shown(
        text,
        format_args!("{{\"count\":{count},\"errors\":{errors},\"rows\":{rows}"),
    )?;
    put_shares(line, text)?;
    put_times(line, text)?;
    A::push_str(text, ",\"statement\":")
}

/// Adds the sum of the times, and its share.
fn put_shares<A: MapMemory>(line: Line, text: &mut String<A>) -> Result<(), AllocError>
    ensures text { OnOk result (string_bytes text.new ≡ string_bytes text.old ++ shares line) }
    ensures lacks { OnErr result A.Lacks }
{
    put_member(",\"total\":", line.total, text)?;
    A::push_str(text, ",\"share\":")?;
    put_millis(line.share, text)
}

/// Adds the other times.
fn put_times<A: MapMemory>(line: Line, text: &mut String<A>) -> Result<(), AllocError>
    ensures text { OnOk result (string_bytes text.new ≡ string_bytes text.old ++ times line) }
    ensures lacks { OnErr result A.Lacks }
{
    put_member(",\"least\":", line.least, text)?;
    put_member(",\"median\":", line.median, text)?;
    put_member(",\"greatest\":", line.greatest, text)
}

/// Adds a time after its name.
fn put_member<A: MapMemory>(name: &str, micros: u64, text: &mut String<A>) -> Result<(), AllocError>
    ensures text { OnOk result (string_bytes text.new ≡ string_bytes text.old ++ name.now ++ number micros) }
    ensures lacks { OnErr result A.Lacks }
{
    A::push_str(text, name)?;
    put_number(micros, text)
}
