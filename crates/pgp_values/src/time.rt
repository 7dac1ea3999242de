//! Spans of time, and times of a day with a zone.
//!
//! PostgreSQL manual, "Date/Time Types".

ghost use Rattle.std.specs.Prelude.{◌≡◌};
ghost use Rattle.pgp_types.specs.Format.{Reads, Writes};
ghost use Rattle.pgp_values.specs.Time.{interval, interval_bytes, timetz, timetz_bytes};

use crate::codec::{int32_bytes, int32_of, int64_bytes, int64_of};
use pgp_base::{Buffer, Error};
use pgp_types::codec::{append, block};

/// An `interval`. A server does not make days of hours, nor months of days.
#[derive(Debug, Clone, Copy, PartialEq, Eq)]
pub struct Interval {
    pub microseconds: i64,
    pub days: i32,
    pub months: i32,
}

/// A `timetz`: the microseconds since midnight, and the seconds that its zone is west of Greenwich.
#[derive(Debug, Clone, Copy, PartialEq, Eq)]
pub struct TimeTz {
    pub microseconds: i64,
    pub zone: i32,
}

/// Appends an `interval`.
pub fn interval_to_sql<B: Buffer>(v: Interval, buf: &mut B) -> Result<(), Error>
    ensures { Writes interval v B.Lacks (B.held buf.old) result (B.held buf.new) }
{
    append(&interval_block(v), buf)
}

// Its bytes in one block, so that the buffer grows once.
fn interval_block(v: Interval) -> [u8; 16]
    ensures { result ≡ interval_bytes v }
{
    let mut bytes = [0; 16];
    let (microseconds, rest) = bytes.split_at_mut(8);
    let (days, months) = rest.split_at_mut(4);
    microseconds.copy_from_slice(&int64_bytes(v.microseconds));
    days.copy_from_slice(&int32_bytes(v.days));
    months.copy_from_slice(&int32_bytes(v.months));
    bytes
}

/// Reads an `interval`.
///
/// # Errors
///
/// Returns `UnexpectedEof` if there are fewer than 16 bytes, `NotDrained` if there are more.
pub fn interval_from_sql(buf: &[u8]) -> Result<Interval, Error>
    ensures { Reads interval buf.now result }
{
    // The parts are read where they stand: a block handed on in a `Result` is copied in pieces.
    block::<16>(buf)?;
    let (microseconds, rest) = buf.split_at(8);
    let (days, months) = rest.split_at(4);
    Ok(Interval {
        microseconds: int64_of(microseconds),
        days: int32_of(days),
        months: int32_of(months),
    })
}

/// Appends a `timetz`.
pub fn timetz_to_sql<B: Buffer>(v: TimeTz, buf: &mut B) -> Result<(), Error>
    ensures { Writes timetz v B.Lacks (B.held buf.old) result (B.held buf.new) }
{
    append(&timetz_block(v), buf)
}

// Its bytes in one block, so that the buffer grows once.
fn timetz_block(v: TimeTz) -> [u8; 12]
    ensures { result ≡ timetz_bytes v }
{
    let mut bytes = [0; 12];
    let (time, zone) = bytes.split_at_mut(8);
    time.copy_from_slice(&int64_bytes(v.microseconds));
    zone.copy_from_slice(&int32_bytes(v.zone));
    bytes
}

/// Reads a `timetz`.
///
/// # Errors
///
/// Returns `UnexpectedEof` if there are fewer than 12 bytes, `NotDrained` if there are more.
pub fn timetz_from_sql(buf: &[u8]) -> Result<TimeTz, Error>
    ensures { Reads timetz buf.now result }
{
    block::<12>(buf)?;
    let (microseconds, zone) = buf.split_at(8);
    Ok(TimeTz {
        microseconds: int64_of(microseconds),
        zone: int32_of(zone),
    })
}
