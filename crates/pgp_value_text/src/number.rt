//! Truth values and numbers.

ghost use Rattle.std.specs.Prelude.{◌≡◌};
ghost use Rattle.std.specs.Fmt.{decimal, signed_decimal};
ghost use Rattle.pgp_types.specs.Scalar.{bool, int2, int4, int8, oid};
ghost use Rattle.pgp_values.specs.DecimalSeen.{said};
ghost use Rattle.pgp_values.specs.DecimalText.{numeric_text};
ghost use Rattle.pgp_values.specs.System.{xid8};
ghost use Rattle.pgp_value_text.specs.ValueText.{bool_text, As, Shows, ShowsNumeric, Tells};

use crate::put::put;
use bytes::BytesMut;
use itoa::Buffer;
use pgp_base::Memory;
use pgp_types::{bool_from_sql, int2_from_sql, int4_from_sql, int8_from_sql, oid_from_sql};
use pgp_values::{Numeric, numeric_from_sql, numeric_to_text, xid8_from_sql};
use std::alloc::AllocError;

/// Adds the text of a `bool`.
pub(crate) fn put_bool<A: Memory>(bytes: &[u8], text: &mut BytesMut<A>) -> Result<bool, AllocError>
    ensures { Tells (Shows bool (As bool_text) bytes.now) A.Lacks text.old.items text.new.items result }
{
    match bool_from_sql(bytes) {
        Ok(v) => put(if v { "t" } else { "f" }, text),
        Err(_) => Ok(false),
    }
}

/// Adds the text of an `int2`.
pub(crate) fn put_int2<A: Memory>(bytes: &[u8], text: &mut BytesMut<A>) -> Result<bool, AllocError>
    ensures { Tells (Shows int2 (As signed_decimal) bytes.now) A.Lacks text.old.items text.new.items result }
{
    match int2_from_sql(bytes) {
        Ok(n) => put(Buffer::new().format(n), text),
        Err(_) => Ok(false),
    }
}

/// Adds the text of an `int4`.
pub(crate) fn put_int4<A: Memory>(bytes: &[u8], text: &mut BytesMut<A>) -> Result<bool, AllocError>
    ensures { Tells (Shows int4 (As signed_decimal) bytes.now) A.Lacks text.old.items text.new.items result }
{
    match int4_from_sql(bytes) {
        Ok(n) => put(Buffer::new().format(n), text),
        Err(_) => Ok(false),
    }
}

/// Adds the text of an `int8`.
pub(crate) fn put_int8<A: Memory>(bytes: &[u8], text: &mut BytesMut<A>) -> Result<bool, AllocError>
    ensures { Tells (Shows int8 (As signed_decimal) bytes.now) A.Lacks text.old.items text.new.items result }
{
    match int8_from_sql(bytes) {
        Ok(n) => put(Buffer::new().format(n), text),
        Err(_) => Ok(false),
    }
}

/// Adds the number of an `oid` and of the types that are sent as one.
pub(crate) fn put_oid<A: Memory>(bytes: &[u8], text: &mut BytesMut<A>) -> Result<bool, AllocError>
    ensures { Tells (Shows oid (As decimal) bytes.now) A.Lacks text.old.items text.new.items result }
{
    match oid_from_sql(bytes) {
        Ok(n) => put(Buffer::new().format(n), text),
        Err(_) => Ok(false),
    }
}

/// Adds the text of a `xid8`.
pub(crate) fn put_xid8<A: Memory>(bytes: &[u8], text: &mut BytesMut<A>) -> Result<bool, AllocError>
    ensures { Tells (Shows xid8 (As decimal) bytes.now) A.Lacks text.old.items text.new.items result }
{
    match xid8_from_sql(bytes) {
        Ok(n) => put(Buffer::new().format(n), text),
        Err(_) => Ok(false),
    }
}

// Adds the text of a number of any length.
fn put_decimal<A: Memory>(v: &Numeric<'_>, text: &mut BytesMut<A>) -> Result<bool, AllocError>
    ensures { Tells (λ t. t ≡ numeric_text (said v.now)) A.Lacks text.old.items text.new.items result }
{
    match numeric_to_text(v, text) {
        Ok(()) => Ok(true),
        Err(_) => Err(AllocError),
    }
}

/// Adds the text of a `numeric`.
pub(crate) fn put_numeric<A: Memory>(
    bytes: &[u8],
    text: &mut BytesMut<A>,
) -> Result<bool, AllocError>
    ensures { Tells (ShowsNumeric bytes.now) A.Lacks text.old.items text.new.items result }
{
    match numeric_from_sql(bytes) {
        Ok(v) => put_decimal(&v, text),
        Err(_) => Ok(false),
    }
}
