//! Amounts of money, places of rows, and transactions of 64 bits.
//!
//! PostgreSQL manual, "Monetary Types" and "Object Identifier Types".

ghost use Rattle.std.specs.Prelude.{◌≡◌};
ghost use Rattle.pgp_types.specs.Format.{Reads, Writes};
ghost use Rattle.pgp_values.specs.System.{money, tid, xid8};

use crate::codec::{uint16_of, uint32_of};
use pgp_base::{Buffer, Error};
use pgp_types::codec::{append_both, block};
use pgp_types::{int8_from_sql, int8_to_sql, lsn_from_sql, lsn_to_sql};

/// A `tid`: the number of a block, and of a row in it.
#[derive(Debug, Clone, Copy, PartialEq, Eq)]
pub struct Tid {
    pub block: u32,
    pub offset: u16,
}

/// Appends a `money`, in the smallest unit of the server's currency.
pub fn money_to_sql<B: Buffer>(amount: i64, buf: &mut B) -> Result<(), Error>
    ensures { Writes money amount B.Lacks (B.held buf.old) result (B.held buf.new) }
{
    int8_to_sql(amount, buf)
}

/// Reads a `money`, in the smallest unit of the server's currency.
pub fn money_from_sql(buf: &[u8]) -> Result<i64, Error>
    ensures { Reads money buf.now result }
{
    int8_from_sql(buf)
}

/// Appends a `tid`.
pub fn tid_to_sql<B: Buffer>(v: Tid, buf: &mut B) -> Result<(), Error>
    ensures { Writes tid v B.Lacks (B.held buf.old) result (B.held buf.new) }
{
    append_both(&v.block.to_be_bytes(), &v.offset.to_be_bytes(), buf)
}

/// Reads a `tid`.
pub fn tid_from_sql(buf: &[u8]) -> Result<Tid, Error>
    ensures { Reads tid buf.now result }
{
    let bytes: [u8; 6] = block(buf)?;
    let (block, offset) = bytes.split_at(4);
    Ok(Tid {
        block: uint32_of(block),
        offset: uint16_of(offset),
    })
}

/// Appends an `xid8`.
pub fn xid8_to_sql<B: Buffer>(id: u64, buf: &mut B) -> Result<(), Error>
    ensures { Writes xid8 id B.Lacks (B.held buf.old) result (B.held buf.new) }
{
    lsn_to_sql(id, buf)
}

/// Reads an `xid8`.
pub fn xid8_from_sql(buf: &[u8]) -> Result<u64, Error>
    ensures { Reads xid8 buf.now result }
{
    lsn_from_sql(buf)
}
