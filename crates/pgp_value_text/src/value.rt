//! The text of a value, by its type.

ghost use Rattle.pgp_value_text.specs.TextOf.{IsTextBy, IsTextOf};
ghost use Rattle.pgp_value_text.specs.ValueText.{In, Tells};

use crate::array::put_array;
use crate::element::put_element_by;
use bytes::BytesMut;
use pgp_base::{Memory, Oid};
use pgp_values::{BinaryFormat, binary_format_of};
use std::alloc::AllocError;

// Adds the text of a value in this format.
fn put_by<A: Memory>(
    format: BinaryFormat,
    type_oid: Oid,
    bytes: &[u8],
    text: &mut BytesMut<A>,
) -> Result<bool, AllocError>
    ensures { Tells (IsTextBy format type_oid bytes.now) A.Lacks text.old.items text.new.items result }
{
    match format {
        BinaryFormat::Array => put_array(type_oid, bytes, text),
        _ => put_element_by(format, type_oid, bytes, text),
    }
}

// Adds the text of a value, if its type has a format.
fn put_known<A: Memory>(
    format: Option<BinaryFormat>,
    type_oid: Oid,
    bytes: &[u8],
    text: &mut BytesMut<A>,
) -> Result<bool, AllocError>
    ensures { Tells (In IsTextBy format type_oid bytes.now) A.Lacks text.old.items text.new.items result }
{
    match format {
        Some(format) => put_by(format, type_oid, bytes, text),
        None => Ok(false),
    }
}

/// Appends the text that a server shows of a value in binary format whose type has this number (OID), and returns true. It returns false and
/// appends nothing where the bytes are no value of the type, or the type has no text here.
///
/// The text is the one that a server shows under `DateStyle` `ISO`, `IntervalStyle` `iso_8601`, `TimeZone` `UTC` and in UTF-8:
///
/// - `bool` as `t` or `f`; `int2`, `int4`, `int8`, `oid`, `xid`, `cid`, `xid8` and `numeric` in decimal; `pg_lsn` as `16/B374D848`;
/// - the types that name an object (`regclass`, `regtype`) as its number, where a server shows the name; `money` as `$1,234.56`, as in the locale `C`;
/// - `text`, `varchar`, `bpchar`, `name`, `json`, `xml`, `refcursor`, `unknown` and the like as their bytes, where these are UTF-8;
/// - `bytea` in hex, as `\x00ff`; `uuid` in lower case and groups; `jsonb` and `jsonpath` as the text after the version;
/// - `"char"` as its character, if it is one of ASCII, and else as a backslash and three octal digits;
/// - `date`, `time`, `timetz` (`10:20:30.5+05:30`), `timestamp`, `timestamptz` (`2026-11-27 10:20:30.5+00`) and `interval` (`P1Y2M3DT4H5M6.5S`);
/// - `inet` with `/` and the bits of the network where these are fewer than the address has, `cidr` always; `macaddr` and `macaddr8` as `08:00:2b:01:02:03`;
/// - `bit` and `varbit` as their bits; `tid` as `(block,row)`;
/// - `float4` and `float8` rounded to 6 and 15 decimal digits, without zeros at the end (`1.5`, `100`, `-0`, `1e+15`, `1e-05`), with `~` before a text
///   that isn't read as the number itself (`~0.333333333333333`), or as `NaN`, `Infinity` or `-Infinity`;
/// - a range as `empty`, `[1,5)` or `(,"2026-11-27 10:20:30"]`, a multirange as `{[1,5),[7,8)}`;
/// - figures by their coordinates, each rounded and marked as a `float8`: `(1,2)`, `[(1,2),(3,4)]`, `(3,4),(1,2)`, `{1,2,3}`, `<(1,2),3>`, `((1,2),(3,4))`;
/// - an array of such values, of any dimensions, as `{1,NULL}`, `{{"a b",""},{c,d}}` or `[0:1]={t,f}`.
///
/// A day before the year -9999 has none, nor has a time in a zone of 16 hours or more, nor have records, the types of text search, and `int2vector`
/// and `oidvector`.
///
/// # Errors
///
/// Returns `AllocError` if the buffer can't grow; then it is unchanged.
pub fn put_value<A: Memory>(
    type_oid: Oid,
    bytes: &[u8],
    text: &mut BytesMut<A>,
) -> Result<bool, AllocError>
    ensures { Tells (IsTextOf type_oid bytes.now) A.Lacks text.old.items text.new.items result }
{
    put_known(binary_format_of(type_oid), type_oid, bytes, text)
}
