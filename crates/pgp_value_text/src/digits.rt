//! The texts of a day and of an instant, put together on the stack.

ghost use Rattle.std.specs.Prelude.{◌≡◌, ◌+◌, ◌<◌, ◌≤◌, ◌%◌, ◌/◌, ◌++◌, ◌∷◌, [], length};
ghost use Rattle.arrayvec.specs.ArrayString.{array_string_len};
ghost use Rattle.jiff_fmt.specs.Text.{pad2, pad4};
ghost use Rattle.pgp_value_text.specs.Calendar.{counted, era, year_text, day_text, year_after, date_text, clock_text, instant_text};

use arrayvec::ArrayString;
use jiff::fmt::temporal::DateTimePrinter;
use jiff_core::civil::{Date, DateTime, Time};

/// The bytes of a day with ten digits for the year, and its era.
pub(crate) const DATE_LEN: usize = 19;

/// The bytes of such a day with a time of nine places and a zone of three bytes.
pub(crate) const INSTANT_LEN: usize = 41;

/// A byte of ASCII.
pub(crate) fn put<const N: usize>(byte: u8, out: &mut ArrayString<N>)
    requires ascii { byte < 128 }
    requires room { array_string_len out.old + 1 ≤ N }
    ensures text { out.new.bytes ≡ out.old.bytes ++ byte ∷ [] }
    ensures len { array_string_len out.new ≡ array_string_len out.old + 1 }
{
    out.push(char::from(byte));
}

// A number in two digits.
fn put_pair<const N: usize>(n: u8, out: &mut ArrayString<N>)
    requires small { n < 100 }
    requires room { array_string_len out.old + 2 ≤ N }
    ensures text { out.new.bytes ≡ out.old.bytes ++ pad2 n }
    ensures len { array_string_len out.new ≡ array_string_len out.old + 2 }
{
    put(48 + n / 10, out);
    put(48 + n % 10, out);
}

// A number in four digits.
fn put_four<const N: usize>(n: u16, out: &mut ArrayString<N>)
    requires small { n < 10_000 }
    requires room { array_string_len out.old + 4 ≤ N }
    ensures text { out.new.bytes ≡ out.old.bytes ++ pad4 n }
    ensures len { array_string_len out.new ≡ array_string_len out.old + 4 }
{
    put_pair((n / 100) as u8, out);
    put_pair((n % 100) as u8, out);
}

// A year in four digits, or as many as it takes.
#[tactic(auto, unfolding(crate::specs::Calendar::year_text))]
fn put_year<const N: usize>(n: u32, out: &mut ArrayString<N>)
    requires room { array_string_len out.old + 10 ≤ N }
    ensures text { out.new.bytes ≡ out.old.bytes ++ year_text n }
    ensures len { array_string_len out.new ≤ array_string_len out.old + 10 }
{
    if n < 10_000 {
        put_four(n as u16, out);
    } else {
        out.push_str(itoa::Buffer::new().format(n));
    }
}

// The year as its era counts it.
fn counted(year: i32) -> u32
    ensures { result ≡ counted year }
{
    if year < 1 {
        (1 - i64::from(year)) as u32
    } else {
        year as u32
    }
}

// The year so many years later.
fn year_after(years: u32, d: Date) -> i32
    requires { years < 10_000_000 }
    ensures { result ≡ year_after years d }
{
    i32::from(d.year) + years as i32
}

// A day of a year that is given, without its era.
fn put_day<const N: usize>(year: i32, d: Date, out: &mut ArrayString<N>)
    requires room { array_string_len out.old + 16 ≤ N }
    ensures text { out.new.bytes ≡ out.old.bytes ++ day_text year d }
    ensures len { array_string_len out.new ≤ array_string_len out.old + 16 }
{
    put_year(counted(year), out);
    put(b'-', out);
    put_pair(d.month, out);
    put(b'-', out);
    put_pair(d.day, out);
}

// The era of a year before 1.
fn put_era<const N: usize>(year: i32, out: &mut ArrayString<N>)
    requires room { array_string_len out.old + 3 ≤ N }
    ensures text { out.new.bytes ≡ out.old.bytes ++ era year }
    ensures len { array_string_len out.new ≤ array_string_len out.old + 3 }
{
    if year < 1 {
        out.push_str(" BC");
    }
}

/// A day of so many years later, and its era.
pub(crate) fn date_text(years: u32, d: Date) -> ArrayString<DATE_LEN>
    requires { years < 10_000_000 }
    ensures { result.bytes ≡ date_text years d }
{
    let year = year_after(years, d);
    let mut out = ArrayString::new();
    put_day(year, d, &mut out);
    put_era(year, &mut out);
    out
}

/// A time.
pub(crate) fn clock_text(t: Time) -> ArrayString<18>
    ensures { result.bytes ≡ clock_text t }
{
    DateTimePrinter::new().time_text(t)
}

/// A day of so many years later, a time, a zone and the day's era.
pub(crate) fn instant_text(years: u32, dt: DateTime, zone: &str) -> ArrayString<INSTANT_LEN>
    requires few { years < 10_000_000 }
    requires short { length zone.now ≤ 3 }
    ensures { result.bytes ≡ instant_text years zone.now dt }
{
    let year = year_after(years, dt.date);
    let mut out = ArrayString::new();
    put_day(year, dt.date, &mut out);
    out.push_str(" ");
    out.push_str(clock_text(dt.time).as_str());
    out.push_str(zone);
    put_era(year, &mut out);
    out
}
