//! Times and dates.
//!
//! PostgreSQL manual, "Date/Time Types".
#![tactic(auto, using(pgp_base::proofs::Parts::held_steps))]

ghost use Rattle.pgp_types.specs.Format.{Reads, Writes};
ghost use Rattle.pgp_types.specs.Time.{timestamp, time, date};

use crate::scalar::{int4_from_sql, int4_to_sql, int8_from_sql, int8_to_sql};
use pgp_base::{Buffer, Error};

/// Appends a `timestamp` or a `timestamptz`, in microseconds since 2000-01-01 00:00.
pub fn timestamp_to_sql<B: Buffer>(since_2000: i64, buf: &mut B) -> Result<(), Error>
    ensures { Writes timestamp since_2000 B.Lacks (B.held buf.old) result (B.held buf.new) }
{
    int8_to_sql(since_2000, buf)
}

/// Reads a `timestamp` or a `timestamptz`, in microseconds since 2000-01-01 00:00.
pub fn timestamp_from_sql(buf: &[u8]) -> Result<i64, Error>
    ensures { Reads timestamp buf.now result }
{
    int8_from_sql(buf)
}

/// Appends a `time`, in microseconds since midnight.
pub fn time_to_sql<B: Buffer>(since_midnight: i64, buf: &mut B) -> Result<(), Error>
    ensures { Writes time since_midnight B.Lacks (B.held buf.old) result (B.held buf.new) }
{
    int8_to_sql(since_midnight, buf)
}

/// Reads a `time`, in microseconds since midnight.
pub fn time_from_sql(buf: &[u8]) -> Result<i64, Error>
    ensures { Reads time buf.now result }
{
    int8_from_sql(buf)
}

/// Appends a `date`, in days since 2000-01-01.
pub fn date_to_sql<B: Buffer>(days: i32, buf: &mut B) -> Result<(), Error>
    ensures { Writes date days B.Lacks (B.held buf.old) result (B.held buf.new) }
{
    int4_to_sql(days, buf)
}

/// Reads a `date`, in days since 2000-01-01.
pub fn date_from_sql(buf: &[u8]) -> Result<i32, Error>
    ensures { Reads date buf.now result }
{
    int4_from_sql(buf)
}
