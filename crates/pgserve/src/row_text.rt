//! Rows of a script, read from their lines.

use crate::binary::{Unwritten, value_in};
use crate::reader::Reader;
use crate::script::{Column, Condition, Row};
use pgp_base::Oid;

/// Takes note of a value that is none of the type.
fn test_value(oid: Oid, value: &[u8], wanted: &'static str, reader: &mut Reader) {
    match value_in(reader.out.alloc, 1, oid, value) {
        Ok(bytes) => drop(bytes),
        Err(Unwritten::NoFormat) => {}
        Err(Unwritten::NotOfType) => reader.wrong(wanted),
        Err(Unwritten::Memory) => reader.out.lack(),
    }
}

/// The value of this text, of which it is wrong that it is none of the type.
pub(crate) fn typed(oid: Oid, text: &str, wanted: &'static str, reader: &mut Reader) -> Vec<u8> {
    let value = reader.text(text);
    test_value(oid, &value, wanted, reader);
    value
}

/// The value of this text, which is one of the column's type; `\N` is a null.
fn value_of(column: &Column, text: &str, reader: &mut Reader) -> Option<Vec<u8>> {
    match text {
        "\\N" => None,
        _ if column.only.is_some() => Some(reader.raw(text)),
        _ => {
            let wanted = "the value is none of its column's type";
            Some(typed(column.kind.oid, text, wanted, reader))
        }
    }
}

/// What is said of a row with other values than there are columns.
const WIDTH: &str = "a row has a value for each column, with a tab between two";

/// Adds the values of this line, between which tabs stand, one for each column.
fn add_values(
    columns: &[Column],
    line: &str,
    reader: &mut Reader,
    values: &mut Vec<Option<Vec<u8>>>,
) {
    for text in line.split('\t') {
        let Some(column) = columns.get(values.len()) else {
            return reader.wrong(WIDTH);
        };
        let value = value_of(column, text, reader);
        reader.out.add(values, value);
        reader.base = reader.base.saturating_add(text.len()).saturating_add(1);
    }
}

/// The values of this line, which begins so many bytes after the first word and its blank.
fn values_of(
    columns: &[Column],
    line: &str,
    base: usize,
    reader: &mut Reader,
) -> Vec<Option<Vec<u8>>> {
    let mut values = Vec::new(reader.out.alloc);
    reader.base = base;
    add_values(columns, line, reader, &mut values);
    reader.base = base;
    if values.len() != columns.len() {
        reader.wrong(WIDTH);
    }
    reader.base = 0;
    values
}

/// What is said of another condition.
const CONDITION: &str =
    "after `when` stand $ and a parameter's number, =, a text in single quotes, and a space";

/// The place of the parameter of this number.
fn place_of(number: &str, reader: &mut Reader) -> usize {
    match number.parse::<u16>() {
        Ok(number) if number != 0 => usize::from(number).saturating_sub(1),
        _ => {
            reader.wrong_at(CONDITION, 6);
            0
        }
    }
}

/// `when $1 = 'TEXT' ` at the front of a line, after its first seven letters: the parameter's number, the text, and the values after it.
fn split_condition(line: &str) -> Option<(&str, &str, &str)> {
    let (number, rest) = line.split_once(" = '")?;
    let (text, values) = rest.split_once("' ")?;
    Some((number, text, values))
}

/// A row with a condition, of this line after its first seven letters, and the whole line's length.
fn row_with_condition(
    columns: &[Column],
    parameters: &[Oid],
    rest: &str,
    len: usize,
    reader: &mut Reader,
) -> Row {
    let parts = split_condition(rest);
    if parts.is_none() {
        reader.wrong_at(CONDITION, 5);
    }
    let (number, text, values) = parts.unwrap_or(("", "", ""));
    if values.starts_with("and $") {
        let at = len.saturating_sub(values.len());
        reader.wrong_at("a row has one condition", at);
    }
    let condition = Condition {
        place: place_of(number, reader),
        value: reader.text(text),
    };
    match parameters.get(condition.place) {
        Some(oid) => {
            reader.base = number.len().saturating_add(10);
            let wanted = "the value is none of its parameter's type";
            test_value(*oid, &condition.value, wanted, reader);
            reader.base = 0;
        }
        None => reader.wrong_at(
            "the parameter's type stands in a line `parameters` above",
            5,
        ),
    }
    Row {
        condition: Some(condition),
        values: values_of(columns, values, len.saturating_sub(values.len()), reader),
    }
}

/// The row of this line: its values, after the condition on a parameter if it has one.
pub(crate) fn row_of(
    columns: &[Column],
    parameters: &[Oid],
    line: &str,
    reader: &mut Reader,
) -> Row {
    match line.strip_prefix("when $") {
        Some(rest) => row_with_condition(columns, parameters, rest, line.len(), reader),
        None => Row {
            condition: None,
            values: values_of(columns, line, 0, reader),
        },
    }
}
