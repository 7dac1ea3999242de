//! The text that a server shows of a value in binary format; and dates and times on the calendar: what the numbers of `date`, `time`,
//! `timestamp` and `timestamptz` are for the kit's `jiff`, and their texts under `DateStyle` `ISO`, as that of an `interval` under
//! `IntervalStyle` `iso_8601`.
//!
//! PostgreSQL manual, "Date/Time Types". `jiff` has the years from -9999 to 9999, where 0 is the year before 1; a server's further years have
//! no value of it.
#![tactic(auto)]

mod array;
mod bits;
mod calendar;
mod civil;
mod cycle;
mod digits;
mod element;
mod error;
mod figure;
mod float;
mod format;
pub mod laws;
mod moment;
mod money;
mod network;
mod number;
mod object;
mod path;
mod plain;
mod put;
mod quoting;
mod range;
mod rounded;
mod rows;
mod size;
mod span;
mod tens;
mod value;
mod zone;

pub use calendar::{
    date_to_text, interval_to_text, time_to_text, timestamp_to_text, timestamptz_to_text,
};
pub use civil::{
    date_from_civil, date_to_civil, time_from_civil, time_to_civil, timestamp_from_civil,
    timestamp_to_civil, timestamptz_from_instant, timestamptz_to_instant,
};
pub use error::TextError;
pub use value::put_value;
