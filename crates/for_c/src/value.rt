//! Values in the binary format, one at a time.

ghost use Rattle.std.specs.Prelude.{◌≡◌, ◌≢◌, Ok};
ghost use Rattle.pgp_types.specs.Format.{Reads};
ghost use Rattle.pgp_types.specs.Scalar.{bool, char, int2, int4, int8, oid, lsn, float4, float8};
ghost use Rattle.pgp_types.specs.Time.{date, time, timestamp};
ghost use Rattle.for_c.specs.Values.{Wrote, Lacks, Refuses};

use crate::scalar::{Scalar, put};
use crate::status::read;

/// Writes a `bool`.
#[unsafe(no_mangle)]
pub extern "C" fn pgp_put_bool(value: bool, out: &mut [u8], written: &mut usize) -> u32
    ensures wrote { result ≡ 0 → Wrote (bool.written value) out.old out.new written.new }
    ensures lacks { result ≢ 0 → Lacks (bool.written value) out.old written.new result }
{
    put(Scalar::Bool(value), out, written)
}

/// Reads a `bool`, from all of the bytes.
#[unsafe(no_mangle)]
pub extern "C" fn pgp_get_bool(bytes: &[u8], value: &mut bool) -> u32
    ensures read { result ≡ 0 → Reads bool bytes.now (Ok value.new) }
    ensures refused { result ≢ 0 → Refuses bool bytes.now result }
    ensures left { result ≢ 0 → value.new ≡ value.old }
{
    read(pgp_types::bool_from_sql(bytes), value)
}

/// Writes a `"char"`.
#[unsafe(no_mangle)]
pub extern "C" fn pgp_put_char(value: i8, out: &mut [u8], written: &mut usize) -> u32
    ensures wrote { result ≡ 0 → Wrote (char.written value) out.old out.new written.new }
    ensures lacks { result ≢ 0 → Lacks (char.written value) out.old written.new result }
{
    put(Scalar::Char(value), out, written)
}

/// Reads a `"char"`, from all of the bytes.
#[unsafe(no_mangle)]
pub extern "C" fn pgp_get_char(bytes: &[u8], value: &mut i8) -> u32
    ensures read { result ≡ 0 → Reads char bytes.now (Ok value.new) }
    ensures refused { result ≢ 0 → Refuses char bytes.now result }
    ensures left { result ≢ 0 → value.new ≡ value.old }
{
    read(pgp_types::char_from_sql(bytes), value)
}

/// Writes an `int2`.
#[unsafe(no_mangle)]
pub extern "C" fn pgp_put_int2(value: i16, out: &mut [u8], written: &mut usize) -> u32
    ensures wrote { result ≡ 0 → Wrote (int2.written value) out.old out.new written.new }
    ensures lacks { result ≢ 0 → Lacks (int2.written value) out.old written.new result }
{
    put(Scalar::Int2(value), out, written)
}

/// Reads an `int2`, from all of the bytes.
#[unsafe(no_mangle)]
pub extern "C" fn pgp_get_int2(bytes: &[u8], value: &mut i16) -> u32
    ensures read { result ≡ 0 → Reads int2 bytes.now (Ok value.new) }
    ensures refused { result ≢ 0 → Refuses int2 bytes.now result }
    ensures left { result ≢ 0 → value.new ≡ value.old }
{
    read(pgp_types::int2_from_sql(bytes), value)
}

/// Writes an `int4`.
#[unsafe(no_mangle)]
pub extern "C" fn pgp_put_int4(value: i32, out: &mut [u8], written: &mut usize) -> u32
    ensures wrote { result ≡ 0 → Wrote (int4.written value) out.old out.new written.new }
    ensures lacks { result ≢ 0 → Lacks (int4.written value) out.old written.new result }
{
    put(Scalar::Int4(value), out, written)
}

/// Reads an `int4`, from all of the bytes.
#[unsafe(no_mangle)]
pub extern "C" fn pgp_get_int4(bytes: &[u8], value: &mut i32) -> u32
    ensures read { result ≡ 0 → Reads int4 bytes.now (Ok value.new) }
    ensures refused { result ≢ 0 → Refuses int4 bytes.now result }
    ensures left { result ≢ 0 → value.new ≡ value.old }
{
    read(pgp_types::int4_from_sql(bytes), value)
}

/// Writes an `int8`.
#[unsafe(no_mangle)]
pub extern "C" fn pgp_put_int8(value: i64, out: &mut [u8], written: &mut usize) -> u32
    ensures wrote { result ≡ 0 → Wrote (int8.written value) out.old out.new written.new }
    ensures lacks { result ≢ 0 → Lacks (int8.written value) out.old written.new result }
{
    put(Scalar::Int8(value), out, written)
}

/// Reads an `int8`, from all of the bytes.
#[unsafe(no_mangle)]
pub extern "C" fn pgp_get_int8(bytes: &[u8], value: &mut i64) -> u32
    ensures read { result ≡ 0 → Reads int8 bytes.now (Ok value.new) }
    ensures refused { result ≢ 0 → Refuses int8 bytes.now result }
    ensures left { result ≢ 0 → value.new ≡ value.old }
{
    read(pgp_types::int8_from_sql(bytes), value)
}

/// Writes an `oid`.
#[unsafe(no_mangle)]
pub extern "C" fn pgp_put_oid(value: u32, out: &mut [u8], written: &mut usize) -> u32
    ensures wrote { result ≡ 0 → Wrote (oid.written value) out.old out.new written.new }
    ensures lacks { result ≢ 0 → Lacks (oid.written value) out.old written.new result }
{
    put(Scalar::Oid(value), out, written)
}

/// Reads an `oid`, from all of the bytes.
#[unsafe(no_mangle)]
pub extern "C" fn pgp_get_oid(bytes: &[u8], value: &mut u32) -> u32
    ensures read { result ≡ 0 → Reads oid bytes.now (Ok value.new) }
    ensures refused { result ≢ 0 → Refuses oid bytes.now result }
    ensures left { result ≢ 0 → value.new ≡ value.old }
{
    read(pgp_types::oid_from_sql(bytes), value)
}

/// Writes a `pg_lsn`.
#[unsafe(no_mangle)]
pub extern "C" fn pgp_put_lsn(value: u64, out: &mut [u8], written: &mut usize) -> u32
    ensures wrote { result ≡ 0 → Wrote (lsn.written value) out.old out.new written.new }
    ensures lacks { result ≢ 0 → Lacks (lsn.written value) out.old written.new result }
{
    put(Scalar::Lsn(value), out, written)
}

/// Reads a `pg_lsn`, from all of the bytes.
#[unsafe(no_mangle)]
pub extern "C" fn pgp_get_lsn(bytes: &[u8], value: &mut u64) -> u32
    ensures read { result ≡ 0 → Reads lsn bytes.now (Ok value.new) }
    ensures refused { result ≢ 0 → Refuses lsn bytes.now result }
    ensures left { result ≢ 0 → value.new ≡ value.old }
{
    read(pgp_types::lsn_from_sql(bytes), value)
}

/// Writes a `float4`, as its bits.
#[unsafe(no_mangle)]
pub extern "C" fn pgp_put_float4(value: u32, out: &mut [u8], written: &mut usize) -> u32
    ensures wrote { result ≡ 0 → Wrote (float4.written value) out.old out.new written.new }
    ensures lacks { result ≢ 0 → Lacks (float4.written value) out.old written.new result }
{
    put(Scalar::Float4(value), out, written)
}

/// Reads a `float4`, as its bits, from all of the bytes.
#[unsafe(no_mangle)]
pub extern "C" fn pgp_get_float4(bytes: &[u8], value: &mut u32) -> u32
    ensures read { result ≡ 0 → Reads float4 bytes.now (Ok value.new) }
    ensures refused { result ≢ 0 → Refuses float4 bytes.now result }
    ensures left { result ≢ 0 → value.new ≡ value.old }
{
    read(pgp_types::float4_from_sql(bytes), value)
}

/// Writes a `float8`, as its bits.
#[unsafe(no_mangle)]
pub extern "C" fn pgp_put_float8(value: u64, out: &mut [u8], written: &mut usize) -> u32
    ensures wrote { result ≡ 0 → Wrote (float8.written value) out.old out.new written.new }
    ensures lacks { result ≢ 0 → Lacks (float8.written value) out.old written.new result }
{
    put(Scalar::Float8(value), out, written)
}

/// Reads a `float8`, as its bits, from all of the bytes.
#[unsafe(no_mangle)]
pub extern "C" fn pgp_get_float8(bytes: &[u8], value: &mut u64) -> u32
    ensures read { result ≡ 0 → Reads float8 bytes.now (Ok value.new) }
    ensures refused { result ≢ 0 → Refuses float8 bytes.now result }
    ensures left { result ≢ 0 → value.new ≡ value.old }
{
    read(pgp_types::float8_from_sql(bytes), value)
}

/// Writes a `timestamp`.
#[unsafe(no_mangle)]
pub extern "C" fn pgp_put_timestamp(value: i64, out: &mut [u8], written: &mut usize) -> u32
    ensures wrote { result ≡ 0 → Wrote (timestamp.written value) out.old out.new written.new }
    ensures lacks { result ≢ 0 → Lacks (timestamp.written value) out.old written.new result }
{
    put(Scalar::Timestamp(value), out, written)
}

/// Reads a `timestamp`, from all of the bytes.
#[unsafe(no_mangle)]
pub extern "C" fn pgp_get_timestamp(bytes: &[u8], value: &mut i64) -> u32
    ensures read { result ≡ 0 → Reads timestamp bytes.now (Ok value.new) }
    ensures refused { result ≢ 0 → Refuses timestamp bytes.now result }
    ensures left { result ≢ 0 → value.new ≡ value.old }
{
    read(pgp_types::timestamp_from_sql(bytes), value)
}

/// Writes a `time`.
#[unsafe(no_mangle)]
pub extern "C" fn pgp_put_time(value: i64, out: &mut [u8], written: &mut usize) -> u32
    ensures wrote { result ≡ 0 → Wrote (time.written value) out.old out.new written.new }
    ensures lacks { result ≢ 0 → Lacks (time.written value) out.old written.new result }
{
    put(Scalar::Time(value), out, written)
}

/// Reads a `time`, from all of the bytes.
#[unsafe(no_mangle)]
pub extern "C" fn pgp_get_time(bytes: &[u8], value: &mut i64) -> u32
    ensures read { result ≡ 0 → Reads time bytes.now (Ok value.new) }
    ensures refused { result ≢ 0 → Refuses time bytes.now result }
    ensures left { result ≢ 0 → value.new ≡ value.old }
{
    read(pgp_types::time_from_sql(bytes), value)
}

/// Writes a `date`.
#[unsafe(no_mangle)]
pub extern "C" fn pgp_put_date(value: i32, out: &mut [u8], written: &mut usize) -> u32
    ensures wrote { result ≡ 0 → Wrote (date.written value) out.old out.new written.new }
    ensures lacks { result ≢ 0 → Lacks (date.written value) out.old written.new result }
{
    put(Scalar::Date(value), out, written)
}

/// Reads a `date`, from all of the bytes.
#[unsafe(no_mangle)]
pub extern "C" fn pgp_get_date(bytes: &[u8], value: &mut i32) -> u32
    ensures read { result ≡ 0 → Reads date bytes.now (Ok value.new) }
    ensures refused { result ≢ 0 → Refuses date bytes.now result }
    ensures left { result ≢ 0 → value.new ≡ value.old }
{
    read(pgp_types::date_from_sql(bytes), value)
}
