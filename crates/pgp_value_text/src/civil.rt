//! Between a server's numbers and values of `jiff`.

ghost use Rattle.std.specs.Prelude.{◌≡◌, ◌↔◌, ℤ, pos, ◌/◌, ◌+ℤ◌, ◌-ℤ◌, ◌*ℤ◌, IsOk, IfOk, IfErr};
ghost use Rattle.jiff.specs.Words.{epoch_day, time_nanos, IsEpochDay, IsCivilNanos, IsTimestampNanos, IsRange};
ghost use Rattle.jiff_core.specs.DateTime.{civil_nanos};
ghost use Rattle.pgp_value_text.specs.Numbers.{day_1970, nanos_1970, IsFloor, IsTimeOfDay};

use jiff::civil::{Date, DateTime, Time};
use jiff::{Error, Timestamp};
use jiff_core::civil;

// From 1970-01-01 to 2000-01-01.
const DAYS: i64 = 10_957;

const MICROSECONDS: i128 = 946_684_800_000_000;

/// The day of a `date`, which counts from 2000-01-01.
///
/// # Errors
///
/// Returns an error of range before the year -9999 and after the year 9999.
pub fn date_to_civil(days: i32) -> Result<Date, Error>
    ensures succeeds { IsOk result ↔ IsEpochDay (day_1970 days) }
    ensures value { IfOk result (λ d. epoch_day d ≡ day_1970 days) }
    ensures err { IfErr result IsRange }
{
    Ok(Date::from_plain(civil::Date::from_unix_epoch_day(i64::from(days) + DAYS)?))
}

/// The `date` of a day.
pub fn date_from_civil(date: Date) -> i32
    ensures { day_1970 result ≡ epoch_day date }
{
    date.to_plain().to_unix_epoch_day() - 10_957
}

/// The time of a `time`, in microseconds since midnight.
///
/// # Errors
///
/// Returns an error of range where it isn't between 0 and 86,399,999,999: 24:00 is no time of `jiff`.
pub fn time_to_civil(microseconds: i64) -> Result<Time, Error>
    ensures succeeds { IsOk result ↔ IsTimeOfDay microseconds }
    ensures value { IfOk result (λ t. pos (time_nanos t) ≡ microseconds *ℤ pos 1_000) }
    ensures err { IfErr result IsRange }
{
    if microseconds < 0 || microseconds >= 86_400_000_000 {
        return Err(Error::Range(jiff::error::Bound::Hour));
    }
    Ok(Time::from_plain(civil::Time::from_nanosecond(microseconds as u64 * 1_000)))
}

/// The `time` of a time, whose nanoseconds are rounded down to microseconds.
pub fn time_from_civil(time: Time) -> i64
    ensures { result ≡ pos (time_nanos time / 1_000) }
{
    (time.to_plain().to_nanosecond() / 1_000) as i64
}

// Nanoseconds since 1970 of microseconds since 2000.
fn nanos_1970(microseconds: i64) -> i128
    ensures { result ≡ nanos_1970 microseconds }
{
    (i128::from(microseconds) + MICROSECONDS) * 1_000
}

fn shown_as(plain: Result<civil::DateTime, Error>) -> Result<DateTime, Error>
    ensures { result ≡ plain }
{
    match plain {
        Ok(shown) => Ok(DateTime::from_plain(shown)),
        Err(e) => Err(e),
    }
}

/// The day and the time of a `timestamp`, in microseconds since 2000-01-01.
///
/// # Errors
///
/// Returns an error of range before the year -9999 and after the year 9999.
pub fn timestamp_to_civil(microseconds: i64) -> Result<DateTime, Error>
    ensures succeeds { IsOk result ↔ IsCivilNanos (nanos_1970 microseconds) }
    ensures value { IfOk result (λ dt. civil_nanos dt ≡ nanos_1970 microseconds) }
    ensures err { IfErr result IsRange }
{
    shown_as(civil::DateTime::from_nanosecond(nanos_1970(microseconds)))
}

/// The `timestamp` of a day and a time, whose nanoseconds are rounded down to microseconds.
pub fn timestamp_from_civil(shown: DateTime) -> i64
    ensures { IsFloor (civil_nanos shown) result }
{
    floor(shown.to_plain().to_nanosecond())
}

// The whole microseconds since 2000 of nanoseconds since 1970.
fn floor(nanoseconds: i128) -> i64
    requires { IsCivilNanos nanoseconds }
    ensures { IsFloor nanoseconds result }
{
    (nanoseconds.div_euclid(1_000) - MICROSECONDS) as i64
}

/// The instant of a `timestamptz`, in microseconds since 2000-01-01 at Greenwich.
///
/// # Errors
///
/// Returns an error of range where it is no instant of `jiff`, as before the year -9999 and after the year 9999.
pub fn timestamptz_to_instant(microseconds: i64) -> Result<Timestamp, Error>
    ensures succeeds { IsOk result ↔ IsTimestampNanos (nanos_1970 microseconds) }
    ensures value { IfOk result (λ t. t.nanosecond ≡ nanos_1970 microseconds) }
    ensures err { IfErr result IsRange }
{
    Timestamp::from_nanosecond(nanos_1970(microseconds))
}

/// The `timestamptz` of an instant, whose nanoseconds are rounded down to microseconds.
pub fn timestamptz_from_instant(instant: Timestamp) -> i64
    ensures { IsFloor instant.nanosecond result }
{
    floor(instant.as_nanosecond())
}
