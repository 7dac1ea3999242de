//! A value whose type and format are known.

ghost use Rattle.std.specs.Prelude.{true, OnErr, OnOk, string_bytes};
ghost use Rattle.pgp_frontend_read.specs.Whole.{shown};
ghost use Rattle.pgtrace_session.specs.TypedLines.{AddsBytes, AddsValue};

use crate::column::Column;
use bytes::BytesMut;
use pgp_base::Memory;
use pgp_value_text::put_value;
use pgtool_line::line::{put_null, put_some, put_unread};
use pgtool_line::style::Style;
use pgtrace_summary::MapMemory;
use std::alloc::AllocError;

/// Adds a value under its column, by way of a buffer for its text; or that it is a null.
pub fn put_typed<A: MapMemory>(
    style: Style,
    column: Column,
    value: Option<&[u8]>,
    text: &mut BytesMut<A>,
    line: &mut String<A>,
) -> Result<(), AllocError>
    ensures adds { OnOk result (AddsValue style column (shown value.entry) (string_bytes line.old) (string_bytes line.new)) }
    ensures lacks { OnErr result A.Lacks }
{
    match value {
        Some(bytes) => put_bytes(style, column, bytes, text, line),
        None => put_null(style, line),
    }
}

fn put_bytes<A: MapMemory>(
    style: Style,
    column: Column,
    bytes: &[u8],
    text: &mut BytesMut<A>,
    line: &mut String<A>,
) -> Result<(), AllocError>
    ensures adds { OnOk result (AddsBytes style column.binary column.oid bytes.now (string_bytes line.old) (string_bytes line.new)) }
    ensures lacks { OnErr result A.Lacks }
{
    if column.binary {
        put_binary(style, column.oid, bytes, text, line)
    } else {
        put_some(style, bytes, line)
    }
}

/// Adds the text of bytes in binary format, or their hex digits.
fn put_binary<A: MapMemory>(
    style: Style,
    oid: u32,
    bytes: &[u8],
    text: &mut BytesMut<A>,
    line: &mut String<A>,
) -> Result<(), AllocError>
    ensures adds { OnOk result (AddsBytes style true oid bytes.now (string_bytes line.old) (string_bytes line.new)) }
    ensures lacks { OnErr result A.Lacks }
{
    text.clear();
    if put_value(oid, bytes, text)? {
        put_some(style, text.as_slice(), line)
    } else {
        put_unread(style, bytes, line)
    }
}
