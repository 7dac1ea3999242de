//! The text of a value of a type that isn't made of others, by its format.

ghost use Rattle.pgp_value_text.specs.ValueText.{In, IsPlainText, IsShown, Tells};

use crate::bits::{put_tid, put_varbit};
use crate::figure::{put_box, put_circle, put_line, put_lseg, put_point};
use crate::float::{put_float4, put_float8};
use crate::moment::{put_date, put_interval, put_time, put_timestamp};
use crate::money::put_money;
use crate::network::{put_cidr, put_inet, put_macaddr, put_macaddr8};
use crate::number::{put_bool, put_int2, put_int4, put_int8, put_numeric, put_oid, put_xid8};
use crate::object::{put_lsn, put_uuid};
use crate::path::{put_path, put_polygon};
use crate::plain::{put_bytea, put_char, put_jsonb, put_jsonpath, put_text};
use crate::zone::put_timetz;
use bytes::BytesMut;
use pgp_base::{Memory, Oid};
use pgp_values::{BinaryFormat, binary_format_of};
use std::alloc::AllocError;

/// Adds the text of a value in this format.
pub(crate) fn put_formatted<A: Memory>(
    format: BinaryFormat,
    type_oid: Oid,
    bytes: &[u8],
    text: &mut BytesMut<A>,
) -> Result<bool, AllocError>
    ensures { Tells (IsShown format type_oid bytes.now) A.Lacks text.old.items text.new.items result }
{
    match format {
        BinaryFormat::Bool => put_bool(bytes, text),
        BinaryFormat::Box => put_box(bytes, text),
        BinaryFormat::Bytea => put_bytea(type_oid, bytes, text),
        BinaryFormat::Char => put_char(bytes, text),
        BinaryFormat::Cidr => put_cidr(bytes, text),
        BinaryFormat::Circle => put_circle(bytes, text),
        BinaryFormat::Date => put_date(bytes, text),
        BinaryFormat::Float4 => put_float4(bytes, text),
        BinaryFormat::Float8 => put_float8(bytes, text),
        BinaryFormat::Inet => put_inet(bytes, text),
        BinaryFormat::Int2 => put_int2(bytes, text),
        BinaryFormat::Int4 => put_int4(bytes, text),
        BinaryFormat::Int8 => put_int8(bytes, text),
        BinaryFormat::Interval => put_interval(bytes, text),
        BinaryFormat::Jsonb => put_jsonb(bytes, text),
        BinaryFormat::Jsonpath => put_jsonpath(bytes, text),
        BinaryFormat::Line => put_line(bytes, text),
        BinaryFormat::Lseg => put_lseg(bytes, text),
        BinaryFormat::Lsn => put_lsn(bytes, text),
        BinaryFormat::Macaddr => put_macaddr(bytes, text),
        BinaryFormat::Macaddr8 => put_macaddr8(bytes, text),
        BinaryFormat::Money => put_money(bytes, text),
        BinaryFormat::Numeric => put_numeric(bytes, text),
        BinaryFormat::Oid => put_oid(bytes, text),
        BinaryFormat::Path => put_path(bytes, text),
        BinaryFormat::Point => put_point(bytes, text),
        BinaryFormat::Polygon => put_polygon(bytes, text),
        BinaryFormat::Text => put_text(bytes, text),
        BinaryFormat::Tid => put_tid(bytes, text),
        BinaryFormat::Time => put_time(bytes, text),
        BinaryFormat::Timestamp => put_timestamp(type_oid, bytes, text),
        BinaryFormat::Timetz => put_timetz(bytes, text),
        BinaryFormat::Uuid => put_uuid(bytes, text),
        BinaryFormat::Varbit => put_varbit(bytes, text),
        BinaryFormat::Xid8 => put_xid8(bytes, text),
        _ => Ok(false),
    }
}

// Adds the text of a value, if its type has a format.
fn put_in<A: Memory>(
    format: Option<BinaryFormat>,
    type_oid: Oid,
    bytes: &[u8],
    text: &mut BytesMut<A>,
) -> Result<bool, AllocError>
    ensures { Tells (In IsShown format type_oid bytes.now) A.Lacks text.old.items text.new.items result }
{
    match format {
        Some(format) => put_formatted(format, type_oid, bytes, text),
        None => Ok(false),
    }
}

/// Adds the text of a value of this type.
pub(crate) fn put_plain<A: Memory>(
    type_oid: Oid,
    bytes: &[u8],
    text: &mut BytesMut<A>,
) -> Result<bool, AllocError>
    ensures { Tells (IsPlainText type_oid bytes.now) A.Lacks text.old.items text.new.items result }
{
    put_in(binary_format_of(type_oid), type_oid, bytes, text)
}
