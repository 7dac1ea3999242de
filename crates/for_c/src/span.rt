//! Spans of time, and times of a day with a zone.

ghost use Rattle.std.specs.Prelude.{◌≡◌, ◌≢◌, Ok};
ghost use Rattle.pgp_types.specs.Format.{Reads};
ghost use Rattle.pgp_values.specs.Time.{interval, timetz};
ghost use Rattle.for_c.specs.Further.{interval_of, timetz_of};
ghost use Rattle.for_c.specs.Values.{Lacks, Refuses, Wrote};

use crate::scalar::{Scalar, put};
use crate::status::{failed, found};
use pgp_values::{Interval, TimeTz};

/// An `interval`: months, days and microseconds are apart, as a server keeps them.
#[repr(C)]
#[derive(Clone, Copy)]
pub struct PgpInterval {
    pub microseconds: i64,
    pub days: i32,
    pub months: i32,
}

/// A `timetz`: the microseconds since midnight, and the seconds that its zone is west of Greenwich.
#[repr(C)]
#[derive(Clone, Copy)]
pub struct PgpTimetz {
    pub microseconds: i64,
    pub zone: i32,
}

/// Writes an `interval`.
#[unsafe(no_mangle)]
pub extern "C" fn pgp_put_interval(value: &PgpInterval, out: &mut [u8], written: &mut usize) -> u32
    ensures wrote { result ≡ 0 → Wrote (interval.written (interval_of value.now)) out.old out.new written.new }
    ensures lacks { result ≢ 0 → Lacks (interval.written (interval_of value.now)) out.old written.new result }
{
    let span = Interval {
        microseconds: value.microseconds,
        days: value.days,
        months: value.months,
    };
    put(Scalar::Interval(span), out, written)
}

/// Reads an `interval`, from all of the bytes.
#[unsafe(no_mangle)]
pub extern "C" fn pgp_get_interval(bytes: &[u8], value: &mut PgpInterval) -> u32
    ensures read { result ≡ 0 → Reads interval bytes.now (Ok (interval_of value.new)) }
    ensures refused { result ≢ 0 → Refuses interval bytes.now result }
    ensures left { result ≢ 0 → value.new ≡ value.old }
{
    match pgp_values::interval_from_sql(bytes) {
        Ok(span) => {
            *value = PgpInterval {
                microseconds: span.microseconds,
                days: span.days,
                months: span.months,
            };
            0
        }
        Err(e) => failed(e),
    }
}

/// Writes a `timetz`.
#[unsafe(no_mangle)]
pub extern "C" fn pgp_put_timetz(value: &PgpTimetz, out: &mut [u8], written: &mut usize) -> u32
    ensures wrote { result ≡ 0 → Wrote (timetz.written (timetz_of value.now)) out.old out.new written.new }
    ensures lacks { result ≢ 0 → Lacks (timetz.written (timetz_of value.now)) out.old written.new result }
{
    let PgpTimetz { microseconds, zone } = *value;
    put(Scalar::TimeTz(TimeTz { microseconds, zone }), out, written)
}

/// Reads a `timetz`, from all of the bytes.
#[unsafe(no_mangle)]
pub extern "C" fn pgp_get_timetz(bytes: &[u8], value: &mut PgpTimetz) -> u32
    ensures read { result ≡ 0 → Reads timetz bytes.now (Ok (timetz_of value.new)) }
    ensures refused { result ≢ 0 → Refuses timetz bytes.now result }
    ensures left { result ≢ 0 → value.new ≡ value.old }
{
    match pgp_values::timetz_from_sql(bytes) {
        Ok(TimeTz { microseconds, zone }) => found(PgpTimetz { microseconds, zone }, value),
        Err(e) => failed(e),
    }
}
