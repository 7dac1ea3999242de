//! The cycles of 400 years after which the calendar repeats itself, from 2000 on.

ghost use Rattle.std.specs.Prelude.{◌≡◌, ◌<◌};
ghost use Rattle.pgp_value_text.specs.Numbers.{days_cycle, in_cycle, later, microseconds_cycle};

const DAYS: u32 = 146_097;

const MICROSECONDS: u64 = 146_097 * 86_400_000_000;

/// How many years after those from 2000 to 2399 a day is, by whole cycles.
pub(crate) fn years_later(days: i32) -> u32
    ensures value { result ≡ later days_cycle days }
    ensures small { result < 10_000_000 }
{
    if days < 0 {
        0
    } else {
        400 * (days.unsigned_abs() / DAYS)
    }
}

/// The day of these years that it is in its cycle.
pub(crate) fn day_in_cycle(days: i32) -> i32
    ensures { result ≡ in_cycle days_cycle days }
{
    if days < 0 {
        days
    } else {
        (days.unsigned_abs() % DAYS) as i32
    }
}

/// The same of microseconds.
pub(crate) fn instant_years_later(microseconds: i64) -> u32
    ensures value { result ≡ later microseconds_cycle microseconds }
    ensures small { result < 10_000_000 }
{
    if microseconds < 0 {
        0
    } else {
        400 * (microseconds.unsigned_abs() / MICROSECONDS) as u32
    }
}

pub(crate) fn instant_in_cycle(microseconds: i64) -> i64
    ensures { result ≡ in_cycle microseconds_cycle microseconds }
{
    if microseconds < 0 {
        microseconds
    } else {
        (microseconds.unsigned_abs() % MICROSECONDS) as i64
    }
}
