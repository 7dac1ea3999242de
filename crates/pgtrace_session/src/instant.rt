//! The date and the time of day of a time, in UTC.

ghost use Rattle.std.specs.Prelude.{◌≡◌, ◌++◌, OnErr, OnOk, string_bytes};
ghost use Rattle.std.specs.Str.{IsUtf8};
ghost use Rattle.pgtrace_session.specs.Marks.{clock, day_of, fraction};
ghost use Rattle.pgtrace_session.specs.Steps.{AddsDay, AddsInstant};

use bytes::BytesMut;
use pgp_base::Memory;
use pgp_value_text::{TextError, date_to_text};
use pgp_values::Moment;
use pgtrace_summary::MapMemory;
use std::alloc::AllocError;
use std::str;

/// Adds both of a time in microseconds since 1970, by way of a buffer for the text of the date.
pub fn put_instant<A: MapMemory>(
    micros: u64,
    buffer: &mut BytesMut<A>,
    text: &mut String<A>,
) -> Result<(), AllocError>
    ensures adds { OnOk result (AddsInstant micros (string_bytes text.old) (string_bytes text.new)) }
    ensures lacks { OnErr result A.Lacks }
{
    put_day(micros, buffer, text)?;
    A::push_char(text, ' ')?;
    put_clock(micros, text)?;
    put_fraction(micros, text)
}

/// The day, counted from 2000-01-01.
fn day_of(micros: u64) -> i32
    ensures { result ≡ day_of micros }
{
    (micros / 86_400_000_000) as i32 - 10_957
}

/// Adds the date.
fn put_day<A: MapMemory>(
    micros: u64,
    buffer: &mut BytesMut<A>,
    text: &mut String<A>,
) -> Result<(), AllocError>
    ensures adds { OnOk result (AddsDay micros (string_bytes text.old) (string_bytes text.new)) }
    ensures lacks { OnErr result A.Lacks }
{
    buffer.clear();
    match date_to_text(Moment::Value(day_of(micros)), buffer) {
        Ok(()) => put_utf8(buffer.as_slice(), text),
        Err(TextError::OutOfMemory) => Err(AllocError),
        Err(TextError::OutOfRange) => unreachable!(),
    }
}

/// Adds the characters of bytes that are UTF-8.
fn put_utf8<A: MapMemory>(bytes: &[u8], text: &mut String<A>) -> Result<(), AllocError>
    requires { IsUtf8 bytes.now }
    ensures text { OnOk result (string_bytes text.new ≡ string_bytes text.old ++ bytes.now) }
    ensures lacks { OnErr result A.Lacks }
{
    match str::from_utf8(bytes) {
        Ok(shown) => A::push_str(text, shown),
        Err(_) => unreachable!(),
    }
}

/// Adds the hours, minutes and seconds of the day.
#[tactic(auto, unfolding(crate::specs::Marks::clock))]
fn put_clock<A: MapMemory>(n: u64, text: &mut String<A>) -> Result<(), AllocError>
    ensures text { OnOk result (string_bytes text.new ≡ string_bytes text.old ++ clock n) }
    ensures lacks { OnErr result A.Lacks }
{
    let a = n / 3_600_000_000 % 24 / 10;
    let b = n / 3_600_000_000 % 24 % 10;
    let c = n / 60_000_000 % 60 / 10;
    let d = n / 60_000_000 % 60 % 10;
    let e = n / 1_000_000 % 60 / 10;
    let f = n / 1_000_000 % 60 % 10;
    A::push_shown(text, format_args!("{a}{b}:{c}{d}:{e}{f}"))
}

/// Adds what is left of a second.
#[tactic(auto, unfolding(crate::specs::Marks::fraction))]
pub fn put_fraction<A: MapMemory>(n: u64, text: &mut String<A>) -> Result<(), AllocError>
    ensures text { OnOk result (string_bytes text.new ≡ string_bytes text.old ++ fraction n) }
    ensures lacks { OnErr result A.Lacks }
{
    let a = n / 100_000 % 10;
    let b = n / 10_000 % 10;
    let c = n / 1_000 % 10;
    let d = n / 100 % 10;
    let e = n / 10 % 10;
    let f = n % 10;
    A::push_shown(text, format_args!(".{a}{b}{c}{d}{e}{f}"))
}
