//! The text of a value that may be an element of an array, by its type.

ghost use Rattle.std.specs.Prelude.{◌≡◌};
ghost use Rattle.pgp_value_text.specs.RangeText.{bound_of, IsElementBy, IsElementText};
ghost use Rattle.pgp_value_text.specs.ValueText.{In, Tells};

use crate::format::put_formatted;
use crate::range::{put_multirange, put_range};
use bytes::BytesMut;
use pgp_base::{Memory, Oid};
use pgp_values::{BinaryFormat, binary_format_of};
use std::alloc::AllocError;

// The type of the bounds of ranges with this format.
fn bound_of(format: Option<BinaryFormat>) -> Oid
    ensures { result ≡ bound_of format }
{
    match format {
        Some(BinaryFormat::Range(bound)) => bound,
        _ => 0,
    }
}

/// Adds the text of a value in this format.
pub(crate) fn put_element_by<A: Memory>(
    format: BinaryFormat,
    type_oid: Oid,
    bytes: &[u8],
    text: &mut BytesMut<A>,
) -> Result<bool, AllocError>
    ensures { Tells (IsElementBy format type_oid bytes.now) A.Lacks text.old.items text.new.items result }
{
    match format {
        BinaryFormat::Range(bound) => put_range(bound, bytes, text),
        BinaryFormat::Multirange(range) => {
            put_multirange(bound_of(binary_format_of(range)), bytes, text)
        }
        _ => put_formatted(format, type_oid, bytes, text),
    }
}

// Adds the text of a value, if its type has a format.
fn put_element_in<A: Memory>(
    format: Option<BinaryFormat>,
    type_oid: Oid,
    bytes: &[u8],
    text: &mut BytesMut<A>,
) -> Result<bool, AllocError>
    ensures { Tells (In IsElementBy format type_oid bytes.now) A.Lacks text.old.items text.new.items result }
{
    match format {
        Some(format) => put_element_by(format, type_oid, bytes, text),
        None => Ok(false),
    }
}

/// Adds the text of a value of this type.
pub(crate) fn put_element<A: Memory>(
    type_oid: Oid,
    bytes: &[u8],
    text: &mut BytesMut<A>,
) -> Result<bool, AllocError>
    ensures { Tells (IsElementText type_oid bytes.now) A.Lacks text.old.items text.new.items result }
{
    put_element_in(binary_format_of(type_oid), type_oid, bytes, text)
}
