//! The texts in which a server shows days and times, under `DateStyle` `ISO` and with the time zone `UTC`.

ghost use Rattle.std.specs.Prelude.{◌≡◌, ◌≤◌, [], ⊤, codes, length};
ghost use Rattle.pgp_value_text.specs.Span.{ShowsSpan};
ghost use Rattle.pgp_value_text.specs.Calendar.{ShowsDay, ShowsInstant, ShowsMoment, ShowsTime, IsShownDay, IsShownInstant, IsShownTime, HasText, WritesText};

use crate::civil::{date_to_civil, time_to_civil, timestamp_to_civil};
use crate::cycle::{day_in_cycle, instant_in_cycle, instant_years_later, years_later};
use crate::digits::{clock_text, date_text, instant_text};
use crate::error::TextError;
use crate::span::span_text;
use pgp_base::Buffer;
use pgp_types::codec::append;
use pgp_values::{Interval, Moment};

// Appends a text.
fn write<B: Buffer>(text: &str, out: &mut B) -> Result<(), TextError>
    ensures { WritesText (λ shown. shown ≡ text.now) ⊤ B.Lacks (B.held out.old) (B.held out.new) result }
{
    match append(text.as_bytes(), out) {
        Ok(()) => Ok(()),
        Err(_) => Err(TextError::OutOfMemory),
    }
}

// Appends the text of a day.
fn day_to_text<B: Buffer>(days: i32, out: &mut B) -> Result<(), TextError>
    ensures { WritesText (ShowsDay days) (IsShownDay days) B.Lacks (B.held out.old) (B.held out.new) result }
{
    match date_to_civil(day_in_cycle(days)) {
        Ok(date) => write(date_text(years_later(days), date.to_plain()).as_str(), out),
        Err(_) => Err(TextError::OutOfRange),
    }
}

// Appends the text of a day and a time, and a zone.
fn instant_to_text<B: Buffer>(microseconds: i64, zone: &str, out: &mut B) -> Result<(), TextError>
    requires { length zone.now ≤ 3 }
    ensures { WritesText (ShowsInstant zone.now microseconds) (IsShownInstant microseconds) B.Lacks (B.held out.old) (B.held out.new) result }
{
    match timestamp_to_civil(instant_in_cycle(microseconds)) {
        Ok(shown) => write(
            instant_text(instant_years_later(microseconds), shown.to_plain(), zone).as_str(),
            out,
        ),
        Err(_) => Err(TextError::OutOfRange),
    }
}

// Appends the text of a moment with a zone.
fn moment_to_text<B: Buffer>(v: Moment<i64>, zone: &str, out: &mut B) -> Result<(), TextError>
    requires { length zone.now ≤ 3 }
    ensures { WritesText (ShowsMoment (ShowsInstant zone.now) v) (HasText IsShownInstant v) B.Lacks (B.held out.old) (B.held out.new) result }
{
    match v {
        Moment::PosInfinity => write("infinity", out),
        Moment::NegInfinity => write("-infinity", out),
        Moment::Value(microseconds) => instant_to_text(microseconds, zone, out),
    }
}

/// Appends the text of a `date`, as `2026-11-27`, `12026-11-27`, `0044-03-15 BC` or `infinity`.
///
/// # Errors
///
/// Returns `OutOfRange` for a day before the year -9999, and `OutOfMemory` if the buffer can't grow; on error the
/// buffer is unchanged.
pub fn date_to_text<B: Buffer>(v: Moment<i32>, out: &mut B) -> Result<(), TextError>
    ensures { WritesText (ShowsMoment ShowsDay v) (HasText IsShownDay v) B.Lacks (B.held out.old) (B.held out.new) result }
{
    match v {
        Moment::PosInfinity => write("infinity", out),
        Moment::NegInfinity => write("-infinity", out),
        Moment::Value(days) => day_to_text(days, out),
    }
}

/// Appends the text of a `timestamp`, as `2026-11-27 10:20:30.5`.
///
/// # Errors
///
/// Those of `date_to_text`.
pub fn timestamp_to_text<B: Buffer>(v: Moment<i64>, out: &mut B) -> Result<(), TextError>
    ensures { WritesText (ShowsMoment (ShowsInstant []) v) (HasText IsShownInstant v) B.Lacks (B.held out.old) (B.held out.new) result }
{
    moment_to_text(v, "", out)
}

/// Appends the text of a `timestamptz` in the time zone `UTC`, as `2026-11-27 10:20:30.5+00`.
///
/// # Errors
///
/// Those of `date_to_text`.
pub fn timestamptz_to_text<B: Buffer>(v: Moment<i64>, out: &mut B) -> Result<(), TextError>
    ensures { WritesText (ShowsMoment (ShowsInstant (codes "+00")) v) (HasText IsShownInstant v) B.Lacks (B.held out.old) (B.held out.new) result }
{
    moment_to_text(v, "+00", out)
}

/// Appends the text of a `time`, as `10:20:30.5`; the end of a day is `24:00:00`.
///
/// # Errors
///
/// Returns `OutOfRange` for a number of microseconds below 0 or past 86,400,000,000, and `OutOfMemory` if the buffer can't grow; on error the
/// buffer is unchanged.
pub fn time_to_text<B: Buffer>(microseconds: i64, out: &mut B) -> Result<(), TextError>
    ensures { WritesText (ShowsTime microseconds) (IsShownTime microseconds) B.Lacks (B.held out.old) (B.held out.new) result }
{
    if microseconds == 86_400_000_000 {
        return write("24:00:00", out);
    }
    match time_to_civil(microseconds) {
        Ok(time) => write(clock_text(time.to_plain()).as_str(), out),
        Err(_) => Err(TextError::OutOfRange),
    }
}

/// Appends the text of an `interval` under `IntervalStyle` `iso_8601`, as `P1Y2M3DT4H5M6.5S`, or `PT0S`: each number has its own sign, as in
/// `P-1MT2H`; since PostgreSQL 17 also as `infinity`.
///
/// # Errors
///
/// Returns `OutOfMemory` if the buffer can't grow; then the buffer is unchanged.
pub fn interval_to_text<B: Buffer>(v: Moment<Interval>, out: &mut B) -> Result<(), TextError>
    ensures { WritesText (ShowsMoment ShowsSpan v) ⊤ B.Lacks (B.held out.old) (B.held out.new) result }
{
    match v {
        Moment::PosInfinity => write("infinity", out),
        Moment::NegInfinity => write("-infinity", out),
        Moment::Value(span) => write(span_text(span).as_str(), out),
    }
}
