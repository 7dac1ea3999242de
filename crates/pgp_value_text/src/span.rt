//! The text of a span of time, put together on the stack.

ghost use Rattle.std.specs.Prelude.{◌≡◌, ◌+◌, ◌<◌, ◌≤◌, ◌++◌};
ghost use Rattle.std.specs.Fmt.{sign_text};
ghost use Rattle.arrayvec.specs.ArrayString.{array_string_len};
ghost use Rattle.pgp_value_text.specs.Span.{part, months_text, days_text, seconds_part, clock_parts, clock_text, span_text};

use crate::digits::put;
use arrayvec::ArrayString;
use jiff_fmt::temporal::SpanPrinter;
use pgp_values::Interval;
use std::time::Duration;

/// The bytes of the longest text, and more.
pub(crate) const SPAN_LEN: usize = 212;

fn put_sign<const N: usize>(is_negative: bool, out: &mut ArrayString<N>)
    requires room { array_string_len out.old + 1 ≤ N }
    ensures text { out.new.bytes ≡ out.old.bytes ++ sign_text is_negative }
    ensures len { array_string_len out.new ≤ array_string_len out.old + 1 }
{
    if is_negative {
        put(b'-', out);
    }
}

// A number with its designator.
fn put_part<const N: usize>(is_negative: bool, n: u64, designator: u8, out: &mut ArrayString<N>)
    requires ascii { designator < 128 }
    requires room { array_string_len out.old + 22 ≤ N }
    ensures text { out.new.bytes ≡ out.old.bytes ++ part is_negative n designator }
    ensures len { array_string_len out.new ≤ array_string_len out.old + 22 }
{
    if n != 0 {
        put_sign(is_negative, out);
        out.push_str(itoa::Buffer::new().format(n));
        put(designator, out);
    }
}

// Years and months.
#[tactic(auto, unfolding(crate::specs::Span::months_text))]
fn put_months<const N: usize>(months: i32, out: &mut ArrayString<N>)
    requires room { array_string_len out.old + 44 ≤ N }
    ensures text { out.new.bytes ≡ out.old.bytes ++ months_text months }
    ensures len { array_string_len out.new ≤ array_string_len out.old + 44 }
{
    let n = u64::from(months.unsigned_abs());
    put_part(months < 0, n / 12, b'Y', out);
    put_part(months < 0, n % 12, b'M', out);
}

// Seconds with their fraction.
fn put_seconds<const N: usize>(is_negative: bool, microseconds: u64, out: &mut ArrayString<N>)
    requires small { microseconds < 60_000_000 }
    requires room { array_string_len out.old + 97 ≤ N }
    ensures text { out.new.bytes ≡ out.old.bytes ++ seconds_part is_negative microseconds }
    ensures len { array_string_len out.new ≤ array_string_len out.old + 97 }
{
    if microseconds != 0 {
        put_sign(is_negative, out);
        let text = SpanPrinter::new().unsigned_duration_text(Duration::from_micros(microseconds));
        out.push_str(text.as_str().strip_prefix("PT").unwrap_or(""));
    }
}

// Hours, minutes and seconds, of which some aren't 0.
#[tactic(auto, unfolding(crate::specs::Span::clock_parts))]
fn put_clock_parts<const N: usize>(is_negative: bool, n: u64, out: &mut ArrayString<N>)
    requires room { array_string_len out.old + 141 ≤ N }
    ensures text { out.new.bytes ≡ out.old.bytes ++ clock_parts is_negative n }
    ensures len { array_string_len out.new ≤ array_string_len out.old + 141 }
{
    put_part(is_negative, n / 3_600_000_000, b'H', out);
    put_part(is_negative, n / 60_000_000 % 60, b'M', out);
    put_seconds(is_negative, n % 60_000_000, out);
}

// The same after their designator.
#[tactic(auto, unfolding(crate::specs::Span::clock_text))]
fn put_clock<const N: usize>(microseconds: i64, out: &mut ArrayString<N>)
    requires room { array_string_len out.old + 142 ≤ N }
    ensures text { out.new.bytes ≡ out.old.bytes ++ clock_text microseconds }
    ensures len { array_string_len out.new ≤ array_string_len out.old + 142 }
{
    let n = microseconds.unsigned_abs();
    if n != 0 {
        put(b'T', out);
        put_clock_parts(microseconds < 0, n, out);
    }
}

/// A span.
pub(crate) fn span_text(v: Interval) -> ArrayString<SPAN_LEN>
    ensures { result.bytes ≡ span_text v }
{
    let mut out = ArrayString::new();
    if v.months == 0 && v.days == 0 && v.microseconds == 0 {
        out.push_str("PT0S");
        return out;
    }
    put(b'P', &mut out);
    put_months(v.months, &mut out);
    put_part(v.days < 0, u64::from(v.days.unsigned_abs()), b'D', &mut out);
    put_clock(v.microseconds, &mut out);
    out
}
