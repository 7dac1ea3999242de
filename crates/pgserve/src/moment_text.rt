//! Dates, times and intervals, by the texts in which a server shows them: `DateStyle` `ISO`, `IntervalStyle` `postgres`.

use jiff::Timestamp;
use jiff::civil::{Date, DateTime};
use pgp_value_text::{date_from_civil, timestamp_from_civil, timestamptz_from_instant};
use pgp_values::{Interval, Moment};

/// Microseconds of a second.
const SECOND: i64 = 1_000_000;

/// The infinity of this name.
fn infinity_of<T>(text: &str) -> Option<Moment<T>> {
    match text {
        "infinity" => Some(Moment::PosInfinity),
        "-infinity" => Some(Moment::NegInfinity),
        _ => None,
    }
}

/// A `timestamp`, as `2026-11-26 10:20:30.5`.
pub(crate) fn timestamp_of(text: &str) -> Option<Moment<i64>> {
    match text.parse::<DateTime>() {
        Ok(shown) => Some(Moment::Value(timestamp_from_civil(shown))),
        Err(_) => infinity_of(text),
    }
}

/// A `timestamptz`, as `2026-11-26 10:20:30.5+00`.
pub(crate) fn timestamptz_of(text: &str) -> Option<Moment<i64>> {
    match text.parse::<Timestamp>() {
        Ok(instant) => Some(Moment::Value(timestamptz_from_instant(instant))),
        Err(_) => infinity_of(text),
    }
}

/// A `date`, as `2026-11-26`.
pub(crate) fn date_of(text: &str) -> Option<Moment<i32>> {
    match text.parse::<Date>() {
        Ok(date) => Some(Moment::Value(date_from_civil(date))),
        Err(_) => infinity_of(text),
    }
}

/// A number of one to nine digits.
fn number_of(digits: &str) -> Option<i64> {
    if digits.is_empty() || digits.len() > 9 {
        return None;
    }
    match digits.parse::<u32>() {
        Ok(number) if !digits.starts_with('+') => Some(i64::from(number)),
        _ => None,
    }
}

/// The microseconds of the digits after a point, six at most.
fn fraction_of(digits: &str) -> Option<i64> {
    let scale = match digits.len() {
        1 => 100_000,
        2 => 10_000,
        3 => 1_000,
        4 => 100,
        5 => 10,
        6 => 1,
        _ => return None,
    };
    match number_of(digits) {
        Some(number) => Some(number.saturating_mul(scale)),
        None => None,
    }
}

/// The microseconds of `SS` or `SS.ffffff`.
fn seconds_of(text: &str) -> Option<i64> {
    let (whole, fraction) = match text.split_once('.') {
        Some((whole, fraction)) => (whole, fraction_of(fraction)?),
        None => (text, 0),
    };
    match number_of(whole) {
        Some(seconds) if seconds < 60 => Some(
            seconds.saturating_mul(SECOND).saturating_add(fraction),
        ),
        _ => None,
    }
}

/// The microseconds of `HH:MM:SS.ffffff`, of any number of hours.
fn span_of(text: &str) -> Option<i64> {
    let (hours, rest) = text.split_once(':')?;
    let (minutes, seconds) = rest.split_once(':')?;
    match (number_of(hours), number_of(minutes), seconds_of(seconds)) {
        (Some(hours), Some(minutes), Some(since_minute)) if minutes <= 59 => {
            let minutes = hours.saturating_mul(60).saturating_add(minutes);
            Some(
                minutes
                    .saturating_mul(60 * SECOND)
                    .saturating_add(since_minute),
            )
        }
        _ => None,
    }
}

/// A `time`, as `10:20:30.5`, up to `24:00:00`.
pub(crate) fn clock_of(text: &str) -> Option<i64> {
    match span_of(text) {
        Some(since_midnight) if since_midnight <= 86_400 * SECOND => Some(since_midnight),
        _ => None,
    }
}

/// A number with a sign or without.
fn signed_of(text: &str) -> Option<i64> {
    match text.strip_prefix('-') {
        Some(digits) => Some(number_of(digits)?.saturating_neg()),
        None => number_of(text.strip_prefix('+').unwrap_or(text)),
    }
}

/// The span of an interval, with a sign or without.
fn signed_span_of(text: &str) -> Option<i64> {
    match text.strip_prefix('-') {
        Some(span) => Some(span_of(span)?.saturating_neg()),
        None => span_of(text.strip_prefix('+').unwrap_or(text)),
    }
}

/// Adds so many of this unit.
fn add_unit(interval: Interval, number: i64, unit: &str) -> Option<Interval> {
    let Ok(number) = i32::try_from(number) else {
        return None;
    };
    let (months, days) = match unit {
        "year" | "years" => (number.saturating_mul(12), 0),
        "mon" | "mons" => (number, 0),
        "day" | "days" => (0, number),
        _ => return None,
    };
    Some(Interval {
        microseconds: interval.microseconds,
        days: interval.days.saturating_add(days),
        months: interval.months.saturating_add(months),
    })
}

/// Adds a part of an interval: a number and its unit, or the time after all of them.
fn add_part(interval: Interval, part: &str, unit: Option<&str>) -> Option<Interval> {
    match unit {
        Some(unit) => add_unit(interval, signed_of(part)?, unit),
        None => Some(Interval {
            microseconds: signed_span_of(part)?,
            days: interval.days,
            months: interval.months,
        }),
    }
}

/// An `interval`, as `1 year 2 mons -3 days 04:05:06.7`, or `infinity`.
pub(crate) fn interval_of(text: &str) -> Option<Moment<Interval>> {
    match span_in(text) {
        Some(span) => Some(Moment::Value(span)),
        None => infinity_of(text),
    }
}

/// A span that has an end.
fn span_in(text: &str) -> Option<Interval> {
    let mut interval = Interval {
        microseconds: 0,
        days: 0,
        months: 0,
    };
    if text.is_empty() {
        return None;
    }
    let mut words = text.split(' ');
    for _ in 0..text.len() {
        match words.next() {
            Some(part) => interval = add_part(interval, part, words.next())?,
            None => return Some(interval),
        }
    }
    Some(interval)
}
