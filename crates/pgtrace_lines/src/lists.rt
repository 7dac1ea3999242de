//! The lists of a line: the items of each iterator, and why it breaks off where it does.
#![tactic(auto, using(crate::proofs::Items::item_more, crate::proofs::Items::items_end, crate::proofs::Items::items_fault))]

ghost use Rattle.std.specs.Prelude.{◌≡◌, ◌≤◌, ◌∷◌, [], length, OnErr, OnOk, string_bytes};
ghost use Rattle.pgtrace_lines.specs.Common.{AllByRecursion, option_map, IsPlaceIn, ListEnds, Member, ObjectBegins, ObjectEnds, Word, followed, key};
ghost use Rattle.pgtrace_lines.specs.Shown.{closed, column_parts, ending, field_parts, list_of, name_or, number_part, refused, text_part, type_part, value_part};

use crate::names::{field_of, refusal_of};
use pgp_base::{Error, FallibleIterator, Memory};
use pgp_message::{
    ColumnFormats, DataRowRanges, ErrorField, ErrorFields, Field, Fields, Parameters,
    ProtocolOptions, SaslMechanisms,
};
use pgtool_line::line::{
    put_name, put_null, put_number, put_refusal, put_signed, put_some, put_text, put_type, put_word,
};
use pgtool_line::nesting::{begin_object, end_list, end_object, put_byte_key, put_key, put_member};
use pgtool_line::style::Style;
use std::alloc::AllocError;
use std::ops::Range;

/// Adds the error of a frame.
pub fn put_refused<A: Memory>(
    style: Style,
    refusal: &Error,
    line: &mut String<A>,
) -> Result<(), AllocError>
    ensures parts { OnOk result (string_bytes line.new ≡ followed style (string_bytes line.old) (refused refusal.now)) }
    ensures lacks { OnErr result A.Lacks }
{
    put_refusal(style, refusal.number() as u64, line)?;
    put_word(style, refusal_of(refusal), line)?;
    end_object(style, line)
}

/// Ends a list that breaks off, with the error.
pub fn put_fault<A: Memory>(
    style: Style,
    refusal: &Error,
    line: &mut String<A>,
) -> Result<(), AllocError>
    ensures parts { OnOk result (string_bytes line.new ≡ followed style (string_bytes line.old) (ListEnds ∷ refused refusal.now)) }
    ensures lacks { OnErr result A.Lacks }
{
    end_list(style, line)?;
    put_refused(style, refusal, line)
}

/// Ends an object whose members break off, with the error.
fn put_object_fault<A: Memory>(
    style: Style,
    refusal: &Error,
    line: &mut String<A>,
) -> Result<(), AllocError>
    ensures parts { OnOk result (string_bytes line.new ≡ followed style (string_bytes line.old) (ObjectEnds ∷ refused refusal.now)) }
    ensures lacks { OnErr result A.Lacks }
{
    end_object(style, line)?;
    put_refused(style, refusal, line)
}

/// Adds the names of mechanisms.
pub fn put_mechanisms<A: Memory>(
    style: Style,
    mut names: SaslMechanisms<'_>,
    line: &mut String<A>,
) -> Result<(), AllocError>
    ensures list { OnOk result (string_bytes line.new ≡ followed style (string_bytes line.old) (list_of text_part names.entry.items names.entry.end)) }
    ensures lacks { OnErr result A.Lacks }
{
    'items: loop {
        match names.next() {
            Ok(Some(name)) => put_text(style, name.as_bytes(), line)?,
            Ok(None) => return end_list(style, line),
            Err(e) => return put_fault(style, &e, line),
        }
    }
}

/// Adds the names of options.
pub fn put_options<A: Memory>(
    style: Style,
    mut names: ProtocolOptions<'_>,
    line: &mut String<A>,
) -> Result<(), AllocError>
    ensures list { OnOk result (string_bytes line.new ≡ followed style (string_bytes line.old) (list_of text_part names.entry.items names.entry.end)) }
    ensures lacks { OnErr result A.Lacks }
{
    'items: loop {
        match names.next() {
            Ok(Some(name)) => put_text(style, name.as_bytes(), line)?,
            Ok(None) => return end_list(style, line),
            Err(e) => return put_fault(style, &e, line),
        }
    }
}

/// Adds the formats of columns.
pub fn put_formats<A: Memory>(
    style: Style,
    mut formats: ColumnFormats<'_>,
    line: &mut String<A>,
) -> Result<(), AllocError>
    ensures list { OnOk result (string_bytes line.new ≡ followed style (string_bytes line.old) (list_of number_part formats.entry.items formats.entry.end)) }
    ensures lacks { OnErr result A.Lacks }
{
    'items: loop {
        match formats.next() {
            Ok(Some(format)) => put_number(style, format as u64, line)?,
            Ok(None) => return end_list(style, line),
            Err(e) => return put_fault(style, &e, line),
        }
    }
}

/// Adds the types of parameters.
pub fn put_types<A: Memory>(
    style: Style,
    mut types: Parameters<'_>,
    line: &mut String<A>,
) -> Result<(), AllocError>
    ensures list { OnOk result (string_bytes line.new ≡ followed style (string_bytes line.old) (list_of type_part types.entry.items types.entry.end)) }
    ensures lacks { OnErr result A.Lacks }
{
    'items: loop {
        match types.next() {
            Ok(Some(type_oid)) => put_type(style, type_oid, line)?,
            Ok(None) => return end_list(style, line),
            Err(e) => return put_fault(style, &e, line),
        }
    }
}

/// Adds the fields of an error or a notice.
pub fn put_fields<A: Memory>(
    style: Style,
    mut fields: ErrorFields<'_>,
    line: &mut String<A>,
) -> Result<(), AllocError>
    ensures list { OnOk result (string_bytes line.new ≡ followed style (string_bytes line.old) (closed ObjectEnds field_parts fields.entry.items fields.entry.end)) }
    ensures lacks { OnErr result A.Lacks }
{
    'items: loop {
        match fields.next() {
            Ok(Some(field)) => put_field(style, &field, line)?,
            Ok(None) => return end_object(style, line),
            Err(e) => return put_object_fault(style, &e, line),
        }
    }
}

/// Adds the columns of a row description.
pub fn put_columns<A: Memory>(
    style: Style,
    mut columns: Fields<'_>,
    line: &mut String<A>,
) -> Result<(), AllocError>
    ensures list { OnOk result (string_bytes line.new ≡ followed style (string_bytes line.old) (list_of column_parts columns.entry.items columns.entry.end)) }
    ensures lacks { OnErr result A.Lacks }
{
    'items: loop {
        match columns.next() {
            Ok(Some(column)) => put_column(style, &column, line)?,
            Ok(None) => return end_list(style, line),
            Err(e) => return put_fault(style, &e, line),
        }
    }
}

/// Adds the values of a row.
pub fn put_values<A: Memory>(
    style: Style,
    buffer: &[u8],
    mut places: DataRowRanges<'_>,
    line: &mut String<A>,
) -> Result<(), AllocError>
    requires within { AllByRecursion (IsPlaceIn (length buffer.now)) places.items }
    ensures list { OnOk result (string_bytes line.new ≡ followed style (string_bytes line.old) (list_of (value_part buffer.now) places.entry.items places.entry.end)) }
    ensures lacks { OnErr result A.Lacks }
{
    'items: loop {
        match places.next() {
            Ok(Some(place)) => put_place(style, buffer, &place, line)?,
            Ok(None) => return end_list(style, line),
            Err(e) => return put_fault(style, &e, line),
        }
    }
}

/// Adds a name, or where there is none the byte that stands for it.
pub fn put_named<A: Memory>(
    style: Style,
    name: Option<&str>,
    byte: u8,
    line: &mut String<A>,
) -> Result<(), AllocError>
    ensures part { OnOk result (string_bytes line.new ≡ followed style (string_bytes line.old) (Word (name_or (option_map (λ name. name.now) name.entry) byte) ∷ [])) }
    ensures lacks { OnErr result A.Lacks }
{
    match name {
        Some(name) => put_word(style, name, line),
        None => put_name(style, &[byte], line),
    }
}

/// Adds what stands after it by such a name.
pub fn put_named_key<A: Memory>(
    style: Style,
    name: Option<&str>,
    byte: u8,
    line: &mut String<A>,
) -> Result<(), AllocError>
    ensures part { OnOk result (string_bytes line.new ≡ followed style (string_bytes line.old) (key (name_or (option_map (λ name. name.now) name.entry) byte) ∷ [])) }
    ensures lacks { OnErr result A.Lacks }
{
    match name {
        Some(name) => put_key(style, name, name, line),
        None => put_byte_key(style, &[byte], line),
    }
}

/// Adds a field of an error or a notice.
fn put_field<A: Memory>(
    style: Style,
    field: &ErrorField<'_>,
    line: &mut String<A>,
) -> Result<(), AllocError>
    ensures parts { OnOk result (string_bytes line.new ≡ followed style (string_bytes line.old) (field_parts field.now)) }
    ensures lacks { OnErr result A.Lacks }
{
    let letter = field.type_();
    put_named_key(style, field_of(letter), letter, line)?;
    put_text(style, field.value_bytes(), line)
}

/// Adds what describes a column.
#[tactic(auto, unfolding(crate::specs::Shown::column_parts))]
fn put_column<A: Memory>(
    style: Style,
    column: &Field<'_>,
    line: &mut String<A>,
) -> Result<(), AllocError>
    ensures parts { OnOk result (string_bytes line.new ≡ followed style (string_bytes line.old) (column_parts column.now)) }
    ensures lacks { OnErr result A.Lacks }
{
    begin_object(style, line)?;
    put_member(style, "name", line)?;
    put_text(style, column.name().as_bytes(), line)?;
    put_key(style, "table", "table", line)?;
    put_number(style, column.table_oid() as u64, line)?;
    put_key(style, "column", "column", line)?;
    put_signed(style, column.column_id() as i32, line)?;
    put_key(style, "type", "type", line)?;
    put_type(style, column.type_oid(), line)?;
    put_key(style, "size", "size", line)?;
    put_signed(style, column.type_size() as i32, line)?;
    put_key(style, "modifier", "modifier", line)?;
    put_signed(style, column.type_modifier(), line)?;
    put_key(style, "format", "format", line)?;
    put_signed(style, column.format() as i32, line)?;
    end_object(style, line)
}

/// Adds the value that stands at a place of a row.
fn put_place<A: Memory>(
    style: Style,
    buffer: &[u8],
    place: &Option<Range<usize>>,
    line: &mut String<A>,
) -> Result<(), AllocError>
    requires within { IsPlaceIn (length buffer.now) place.now }
    ensures part { OnOk result (string_bytes line.new ≡ followed style (string_bytes line.old) (value_part buffer.now place.now)) }
    ensures lacks { OnErr result A.Lacks }
{
    match place {
        Some(place) => put_some(style, &buffer[place.start..place.end], line),
        None => put_null(style, line),
    }
}
