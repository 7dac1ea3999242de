//! A server's messages with lists in them, each at the front of memory of the caller's.

ghost use Rattle.std.specs.Prelude.{◌≡◌, ◌≢◌, map};
ghost use Rattle.pgp_base.specs.Cause.{count_cause};
ghost use Rattle.pgp_base.specs.Lent.{shown};
ghost use Rattle.pgp_message.specs.BackendMessage.{ErrorResponse, NoticeResponse};
ghost use Rattle.pgp_message_write.specs.Given.{uncounted};
ghost use Rattle.pgp_message_write.specs.Lists.{column_parts, counted_list, field_parts, marked_list, value_parts};
ghost use Rattle.pgp_message_write.specs.Reply.{description_of, fields_of, row_of};
ghost use Rattle.pgp_message_write.specs.Views.{shown_column, shown_field};
ghost use Rattle.for_c.specs.Lists.{value_of};
ghost use Rattle.for_c.specs.Replies.{described, reported_field};
ghost use Rattle.for_c.specs.Replying.{NotRepliedList, RepliedList};

use crate::listing::PgpValue;
use crate::status::ended;
use pgp_base::Window;
use pgp_message_write::{
    Column, ErrorField, data_row_of, error_response_of, notice_response_of, row_description_of,
};

/// A column of a row description that is written.
#[repr(C)]
#[derive(Clone, Copy)]
pub struct PgpDescribed<'a> {
    pub name: &'a [u8],
    /// The table that the column stands in, or 0.
    pub table_oid: u32,
    pub type_oid: u32,
    /// The type's modifier, or -1.
    pub type_modifier: i32,
    /// The column's number in its table, or 0.
    pub column_id: i16,
    /// The size of a value in bytes; negative where it varies.
    pub type_size: i16,
    /// The format of the values: 0 text, 1 binary.
    pub format: i16,
}

/// A field of an error or a notice that is written: a letter's code, and the value.
#[repr(C)]
#[derive(Clone, Copy)]
pub struct PgpReported<'a> {
    pub value: &'a [u8],
    pub code: u8,
}

/// A row of these values, each in its column's format.
#[unsafe(no_mangle)]
pub extern "C" fn pgp_reply_data_row(
    values: &[PgpValue<'_>],
    out: &mut [u8],
    written: &mut usize,
) -> u32
    ensures sent { result ≡ 0 → RepliedList count_cause (counted_list value_parts) (row_of (map value_of values.now)) (map value_of values.now) out.old out.new written.new }
    ensures refused { result ≢ 0 → NotRepliedList count_cause (counted_list value_parts) (row_of (map value_of values.now)) (map value_of values.now) out.old written.new result }
{
    let mut window = Window::new(out);
    let answer = data_row_of(values.iter().map(bytes_in), &mut window);
    ended(answer, &window, written)
}

/// The columns of the rows that follow.
#[unsafe(no_mangle)]
pub extern "C" fn pgp_reply_row_description(
    columns: &[PgpDescribed<'_>],
    out: &mut [u8],
    written: &mut usize,
) -> u32
    ensures sent { result ≡ 0 → RepliedList count_cause (counted_list column_parts) (description_of (map described columns.now)) (map described columns.now) out.old out.new written.new }
    ensures refused { result ≢ 0 → NotRepliedList count_cause (counted_list column_parts) (description_of (map described columns.now)) (map described columns.now) out.old written.new result }
{
    let mut window = Window::new(out);
    let answer = row_description_of(columns.iter().map(column), &mut window);
    ended(answer, &window, written)
}

/// An error with these fields. Clients expect at least severity, SQLSTATE and message.
#[unsafe(no_mangle)]
pub extern "C" fn pgp_reply_error(
    fields: &[PgpReported<'_>],
    out: &mut [u8],
    written: &mut usize,
) -> u32
    ensures sent { result ≡ 0 → RepliedList uncounted (marked_list field_parts) (ErrorResponse (fields_of (map reported_field fields.now))) (map reported_field fields.now) out.old out.new written.new }
    ensures refused { result ≢ 0 → NotRepliedList uncounted (marked_list field_parts) (ErrorResponse (fields_of (map reported_field fields.now))) (map reported_field fields.now) out.old written.new result }
{
    let mut window = Window::new(out);
    let answer = error_response_of(fields.iter().map(field), &mut window);
    ended(answer, &window, written)
}

/// A notice with these fields.
#[unsafe(no_mangle)]
pub extern "C" fn pgp_reply_notice(
    fields: &[PgpReported<'_>],
    out: &mut [u8],
    written: &mut usize,
) -> u32
    ensures sent { result ≡ 0 → RepliedList uncounted (marked_list field_parts) (NoticeResponse (fields_of (map reported_field fields.now))) (map reported_field fields.now) out.old out.new written.new }
    ensures refused { result ≢ 0 → NotRepliedList uncounted (marked_list field_parts) (NoticeResponse (fields_of (map reported_field fields.now))) (map reported_field fields.now) out.old written.new result }
{
    let mut window = Window::new(out);
    let answer = notice_response_of(fields.iter().map(field), &mut window);
    ended(answer, &window, written)
}

/// The bytes of a value, or none for a null.
fn bytes_in<'a>(value: &PgpValue<'a>) -> Option<&'a [u8]>
    ensures { shown result ≡ value_of value.now }
{
    if value.is_null {
        return None;
    }
    Some(value.bytes)
}

/// A column, as the core has it.
fn column<'a>(from: &PgpDescribed<'a>) -> Column<'a>
    ensures { shown_column result ≡ described from.now }
{
    Column {
        name: from.name,
        table_oid: from.table_oid,
        column_id: from.column_id,
        type_oid: from.type_oid,
        type_size: from.type_size,
        type_modifier: from.type_modifier,
        format: from.format,
    }
}

/// A field, as the core has it.
fn field<'a>(from: &PgpReported<'a>) -> ErrorField<'a>
    ensures { shown_field result ≡ reported_field from.now }
{
    ErrorField {
        code: from.code,
        value: from.value,
    }
}
