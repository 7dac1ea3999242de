//! Truth values, bytes and numbers.
//!
//! PostgreSQL manual, "Boolean Type", "Binary Data Types", "Character Types", "Numeric Types",
//! "Object Identifier Types" and "pg_lsn Type".
#![tactic(auto, using(pgp_base::proofs::Parts::held_steps))]

ghost use Rattle.pgp_types.specs.Format.{Reads, Writes};
ghost use Rattle.pgp_types.specs.Scalar.{bool, bytea, char, int2, int4, int8, oid, lsn, float4, float8};

use crate::codec::{append, block};
use pgp_base::big_endian::{u16_bytes, u16_of, u32_bytes, u32_of, u64_bytes, u64_of};
use pgp_base::{Buffer, Error, Lsn, Oid};

/// Appends a `bool`.
pub fn bool_to_sql<B: Buffer>(v: bool, buf: &mut B) -> Result<(), Error>
    ensures { Writes bool v B.Lacks (B.held buf.old) result (B.held buf.new) }
{
    append(&[v as u8], buf)
}

/// Reads a `bool`.
pub fn bool_from_sql(buf: &[u8]) -> Result<bool, Error>
    ensures { Reads bool buf.now result }
{
    match buf {
        [b] => Ok(*b != 0),
        _ => Err(Error::InvalidSize),
    }
}

/// Appends a `bytea`.
pub fn bytea_to_sql<B: Buffer>(v: &[u8], buf: &mut B) -> Result<(), Error>
    ensures { Writes bytea v.now B.Lacks (B.held buf.old) result (B.held buf.new) }
{
    append(v, buf)
}

/// Reads a `bytea`: the very bytes.
pub fn bytea_from_sql(buf: &[u8]) -> &[u8]
    ensures { Reads bytea buf.now (Ok result.now) }
{
    buf
}

/// Appends a `"char"`.
pub fn char_to_sql<B: Buffer>(v: i8, buf: &mut B) -> Result<(), Error>
    ensures { Writes char v B.Lacks (B.held buf.old) result (B.held buf.new) }
{
    append(&i8::to_be_bytes(v), buf)
}

/// Reads a `"char"`.
pub fn char_from_sql(buf: &[u8]) -> Result<i8, Error>
    ensures { Reads char buf.now result }
{
    Ok(i8::from_be_bytes(block(buf)?))
}

/// Appends an `int2`.
#[tactic(auto, unfolding(pgp_base::specs::Wire::int16))]
pub fn int2_to_sql<B: Buffer>(v: i16, buf: &mut B) -> Result<(), Error>
    ensures { Writes int2 v B.Lacks (B.held buf.old) result (B.held buf.new) }
{
    append(&u16_bytes(v.cast_unsigned()), buf)
}

/// Reads an `int2`.
pub fn int2_from_sql(buf: &[u8]) -> Result<i16, Error>
    ensures { Reads int2 buf.now result }
{
    Ok(u16_of(block(buf)?).cast_signed())
}

/// Appends an `int4`.
#[tactic(auto, unfolding(pgp_base::specs::Wire::int32))]
pub fn int4_to_sql<B: Buffer>(v: i32, buf: &mut B) -> Result<(), Error>
    ensures { Writes int4 v B.Lacks (B.held buf.old) result (B.held buf.new) }
{
    append(&u32_bytes(v.cast_unsigned()), buf)
}

/// Reads an `int4`.
pub fn int4_from_sql(buf: &[u8]) -> Result<i32, Error>
    ensures { Reads int4 buf.now result }
{
    Ok(u32_of(block(buf)?).cast_signed())
}

/// Appends an `int8`.
#[tactic(auto, unfolding(pgp_base::specs::Wire::int64))]
pub fn int8_to_sql<B: Buffer>(v: i64, buf: &mut B) -> Result<(), Error>
    ensures { Writes int8 v B.Lacks (B.held buf.old) result (B.held buf.new) }
{
    append(&u64_bytes(v.cast_unsigned()), buf)
}

/// Reads an `int8`.
pub fn int8_from_sql(buf: &[u8]) -> Result<i64, Error>
    ensures { Reads int8 buf.now result }
{
    Ok(u64_of(block(buf)?).cast_signed())
}

/// Appends an `oid`.
#[tactic(auto, unfolding(pgp_base::specs::Wire::uint32))]
pub fn oid_to_sql<B: Buffer>(v: Oid, buf: &mut B) -> Result<(), Error>
    ensures { Writes oid v B.Lacks (B.held buf.old) result (B.held buf.new) }
{
    append(&u32_bytes(v), buf)
}

/// Reads an `oid`.
pub fn oid_from_sql(buf: &[u8]) -> Result<Oid, Error>
    ensures { Reads oid buf.now result }
{
    Ok(u32_of(block(buf)?))
}

/// Appends a `pg_lsn`.
#[tactic(auto, unfolding(pgp_base::specs::Wire::uint64))]
pub fn lsn_to_sql<B: Buffer>(v: Lsn, buf: &mut B) -> Result<(), Error>
    ensures { Writes lsn v B.Lacks (B.held buf.old) result (B.held buf.new) }
{
    append(&u64_bytes(v), buf)
}

/// Reads a `pg_lsn`.
pub fn lsn_from_sql(buf: &[u8]) -> Result<Lsn, Error>
    ensures { Reads lsn buf.now result }
{
    Ok(u64_of(block(buf)?))
}

/// Appends a `float4`, given as its bits.
#[tactic(auto, unfolding(pgp_base::specs::Wire::uint32))]
pub fn float4_to_sql<B: Buffer>(bits: u32, buf: &mut B) -> Result<(), Error>
    ensures { Writes float4 bits B.Lacks (B.held buf.old) result (B.held buf.new) }
{
    append(&u32_bytes(bits), buf)
}

/// Reads the bits of a `float4`.
pub fn float4_from_sql(buf: &[u8]) -> Result<u32, Error>
    ensures { Reads float4 buf.now result }
{
    Ok(u32_of(block(buf)?))
}

/// Appends a `float8`, given as its bits.
#[tactic(auto, unfolding(pgp_base::specs::Wire::uint64))]
pub fn float8_to_sql<B: Buffer>(bits: u64, buf: &mut B) -> Result<(), Error>
    ensures { Writes float8 bits B.Lacks (B.held buf.old) result (B.held buf.new) }
{
    append(&u64_bytes(bits), buf)
}

/// Reads the bits of a `float8`.
pub fn float8_from_sql(buf: &[u8]) -> Result<u64, Error>
    ensures { Reads float8 buf.now result }
{
    Ok(u64_of(block(buf)?))
}
