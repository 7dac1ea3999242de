//! What is answered to a statement.

use crate::asked::{
    Refusal, bad_format, not_scripted, not_supported, put_error, put_notice, refuse,
};
use crate::binary::{Unwritten, value_in};
use crate::bound::{Bound, is_sent};
use crate::copy::put_copy_out;
use crate::input::are_formats;
use crate::outbox::{Outbox, push};
use crate::script::{Column, End, Statement};
use crate::types::PLAIN_TEXT;
use bytes::BytesMut;
use pgp_message_write as reply;
use std::alloc::Global;

/// How an answer goes on.
#[derive(Clone, Copy, PartialEq, Eq)]
pub(crate) enum Went {
    /// It ended by a tag.
    Well,
    /// So many rows were sent as were asked for.
    Suspended,
    /// It ended by an error.
    Wrong,
}

/// The format of the column at this place: that of all, or its own; text where none is reported.
pub(crate) fn format_of(formats: &[i16], place: usize) -> i16 {
    match formats {
        [] => 0,
        [all] => *all,
        each => each.get(place).copied().unwrap_or(0),
    }
}

/// A column in the description of rows.
fn described(column: &Column, format: i16) -> reply::Column<'_> {
    reply::Column {
        name: &column.name,
        table_oid: column.table,
        column_id: column.number,
        type_oid: column.kind.oid,
        type_size: column.kind.size,
        type_modifier: column.modifier,
        format,
    }
}

/// Appends the description of rows with one text.
pub(crate) fn describe_one(name: &[u8], formats: &[i16], out: &mut Outbox) {
    let column = reply::Column {
        name,
        table_oid: 0,
        column_id: 0,
        type_oid: PLAIN_TEXT.oid,
        type_size: PLAIN_TEXT.size,
        type_modifier: -1,
        format: format_of(formats, 0),
    };
    let put = reply::row_description(&[column], &mut out.bytes);
    out.put(put);
}

/// Appends that there are no rows.
pub(crate) fn describe_none(out: &mut Outbox) {
    let put = reply::no_data(&mut out.bytes);
    out.put(put);
}

/// Appends the description of rows with these columns, or that there are none.
pub(crate) fn describe(columns: &[Column], formats: &[i16], out: &mut Outbox) {
    if columns.is_empty() {
        return describe_none(out);
    }
    let columns = all_described(columns, formats, out);
    let put = reply::row_description(&columns, &mut out.bytes);
    out.put(put);
}

fn all_described<'c>(
    columns: &'c [Column],
    formats: &[i16],
    out: &mut Outbox,
) -> Vec<reply::Column<'c>> {
    let mut list = Vec::new(out.alloc);
    for column in columns {
        let format = format_of(formats, list.len());
        out.add(&mut list, described(column, format));
    }
    list
}

/// The value of a column in this format.
fn value_of(
    alloc: Global,
    column: &Column,
    format: i16,
    value: &[u8],
) -> Result<BytesMut, Unwritten> {
    match column.only {
        // They are sent as they stand, as texts are in text format.
        Some(only) if only == format => value_in(alloc, 0, column.kind.oid, value),
        Some(_) => Err(Unwritten::NoFormat),
        None => value_in(alloc, format, column.kind.oid, value),
    }
}

/// Adds the values of a row in the formats that are wanted.
///
/// # Errors
///
/// Returns `NoFormat` and `NotOfType` if this server doesn't write one of them so.
fn add_values(
    alloc: Global,
    columns: &[Column],
    formats: &[i16],
    row: &[Option<Vec<u8>>],
    values: &mut Vec<Option<BytesMut>>,
) -> Result<(), Unwritten> {
    for (column, value) in columns.iter().zip(row) {
        let format = format_of(formats, values.len());
        let shown = match value {
            Some(value) => Some(value_of(alloc, column, format, value)?),
            None => None,
        };
        push(values, shown)?;
    }
    Ok(())
}

/// Appends a row of these values.
fn put_values(values: &[Option<BytesMut>], out: &mut Outbox) {
    let mut lent = Vec::new(out.alloc);
    for value in values {
        let bytes: Option<&[u8]> = match value {
            Some(bytes) => Some(bytes),
            None => None,
        };
        out.add(&mut lent, bytes);
    }
    let put = reply::data_row(&lent, &mut out.bytes);
    out.put(put);
}

/// Appends a row, or returns why it can't be sent.
fn put_row<'r>(
    columns: &[Column],
    formats: &[i16],
    row: &[Option<Vec<u8>>],
    out: &mut Outbox,
) -> Result<(), Refusal<'r>> {
    if !are_formats(formats) {
        return Err(bad_format());
    }
    let mut values = Vec::new(out.alloc);
    match add_values(out.alloc, columns, formats, row, &mut values) {
        Ok(()) => put_values(&values, out),
        Err(Unwritten::Memory) => out.lack(),
        Err(_) => return Err(not_supported()),
    }
    Ok(())
}

/// Appends those of the rows from this place on, at most so many, and returns how many there were; or why a row can't be sent.
pub(crate) fn put_rows<'r>(
    statement: &Statement,
    bound: Bound<'_>,
    from: usize,
    most: usize,
    out: &mut Outbox,
) -> Result<usize, Refusal<'r>> {
    let (mut before, mut sent) = (0usize, 0usize);
    for row in &statement.rows {
        if sent == most || !is_sent(row, bound.values, out) {
            continue;
        }
        if before < from {
            before = before.saturating_add(1);
            continue;
        }
        put_row(&statement.columns, bound.formats, &row.values, out)?;
        sent = sent.saturating_add(1);
    }
    Ok(sent)
}

/// Appends the notices.
pub(crate) fn put_notices(statement: &Statement, out: &mut Outbox) {
    for report in &statement.notices {
        put_notice(report, out);
    }
}

/// Whether it is a number.
fn is_count(word: &str) -> bool {
    word.parse::<u64>().is_ok()
}

/// What stands before the number at the end of a tag, if there is one.
fn uncounted(tag: &[u8]) -> Option<&str> {
    match str::from_utf8(tag).unwrap_or("").rsplit_once(' ') {
        Some((front, count)) if is_count(count) => Some(front),
        _ => None,
    }
}

/// Appends that a command was carried out.
pub(crate) fn complete(tag: &[u8], out: &mut Outbox) {
    let put = reply::command_complete(tag, &mut out.bytes);
    out.put(put);
}

/// Appends the tag of a part of the rows: where it ends with a number, the number of rows stands there.
fn complete_part(tag: &[u8], rows: usize, out: &mut Outbox) {
    let Some(front) = uncounted(tag) else {
        return complete(tag, out);
    };
    match format!(in out.alloc; "{front} {rows}") {
        Ok(tag) => complete(tag.as_bytes(), out),
        Err(_) => out.lack(),
    }
}

/// Appends how the answer ends, which is the answer of one run, or of one that followed another and sent so many rows.
fn put_end(statement: &Statement, part: Option<usize>, out: &mut Outbox) -> Went {
    match &statement.end {
        End::Error(report) => put_error(report, out),
        End::Open | End::Result(..) => refuse(not_scripted(&statement.text), out),
        End::Tag(tag) => {
            match part {
                Some(rows) => complete_part(tag, rows, out),
                None => complete(tag, out),
            }
            return Went::Well;
        }
    }
    Went::Wrong
}

/// Appends how the answer ends that is no part.
pub(crate) fn put_tag(statement: &Statement, out: &mut Outbox) -> Went {
    put_end(statement, None, out)
}

/// How far the rows of a portal are sent.
#[derive(Clone, Copy)]
pub(crate) struct Progress {
    /// So many rows were sent.
    pub(crate) sent: usize,
    pub(crate) went: Went,
}

/// Appends the rows after those that were sent, at most so many (0: all), and the end of the answer; or, where so many were sent, that
/// there may be more. Notices stand before the first row.
pub(crate) fn execute(
    statement: &Statement,
    bound: Bound<'_>,
    before: Option<usize>,
    most: usize,
    out: &mut Outbox,
) -> Progress {
    if before.is_none() {
        put_notices(statement, out);
    }
    if let Some(copy) = &statement.copy {
        put_copy_out(copy, out);
    }
    let from = before.unwrap_or(0);
    let limit = if most == 0 { usize::MAX } else { most };
    match put_rows(statement, bound, from, limit, out) {
        Ok(rows) => Progress {
            sent: from.saturating_add(rows),
            went: ended(statement, before.is_some(), rows, most, out),
        },
        Err(refusal) => {
            refuse(refusal, out);
            Progress {
                sent: from,
                went: Went::Wrong,
            }
        }
    }
}

/// Appends the end of the answer after so many rows, of so many that were asked for (0: all); they may follow others.
fn ended(
    statement: &Statement,
    is_later: bool,
    rows: usize,
    most: usize,
    out: &mut Outbox,
) -> Went {
    if rows == most && most != 0 {
        let put = reply::portal_suspended(&mut out.bytes);
        out.put(put);
        return Went::Suspended;
    }
    let is_counted = is_later || statement.has_conditions();
    put_end(statement, if is_counted { Some(rows) } else { None }, out)
}
