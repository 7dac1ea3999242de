//! Dates, times and spans of time.

ghost use Rattle.std.specs.Prelude.{◌≡◌, nat_eq};
ghost use Rattle.pgp_value_text.specs.Span.{ShowsSpan};
ghost use Rattle.pgp_value_text.specs.Calendar.{ShowsDay, ShowsInstant, ShowsMoment, ShowsTime};
ghost use Rattle.pgp_types.specs.Time.{time};
ghost use Rattle.pgp_values.specs.Moment.{date_value, interval_value, timestamp_value};
ghost use Rattle.pgp_value_text.specs.ValueText.{zone_of, Shows, Tells};

use crate::calendar::{
    date_to_text, interval_to_text, time_to_text, timestamp_to_text, timestamptz_to_text,
};
use crate::put::told;
use bytes::BytesMut;
use pgp_base::{Memory, Oid};
use pgp_types::time_from_sql;
use pgp_values::{Moment, date_value_from_sql, interval_value_from_sql, timestamp_value_from_sql};
use std::alloc::AllocError;

/// Adds the text of a `date`.
pub(crate) fn put_date<A: Memory>(bytes: &[u8], text: &mut BytesMut<A>) -> Result<bool, AllocError>
    ensures { Tells (Shows date_value (ShowsMoment ShowsDay) bytes.now) A.Lacks text.old.items text.new.items result }
{
    match date_value_from_sql(bytes) {
        Ok(v) => told(date_to_text(v, text)),
        Err(_) => Ok(false),
    }
}

/// Adds the text of so many microseconds since midnight.
pub(crate) fn put_clock<A: Memory>(
    microseconds: i64,
    text: &mut BytesMut<A>,
) -> Result<bool, AllocError>
    ensures { Tells (ShowsTime microseconds) A.Lacks text.old.items text.new.items result }
{
    told(time_to_text(microseconds, text))
}

/// Adds the text of a `time`.
pub(crate) fn put_time<A: Memory>(bytes: &[u8], text: &mut BytesMut<A>) -> Result<bool, AllocError>
    ensures { Tells (Shows time ShowsTime bytes.now) A.Lacks text.old.items text.new.items result }
{
    match time_from_sql(bytes) {
        Ok(microseconds) => put_clock(microseconds, text),
        Err(_) => Ok(false),
    }
}

// Whether the type is `timestamptz`.
fn has_zone(type_oid: Oid) -> bool
    ensures { result ≡ nat_eq type_oid 1184 }
{
    type_oid == 1184
}

// Adds the text of a moment, with the zone where the type has one.
fn put_moment<A: Memory>(
    type_oid: Oid,
    v: Moment<i64>,
    text: &mut BytesMut<A>,
) -> Result<bool, AllocError>
    ensures { Tells (ShowsMoment (ShowsInstant (zone_of type_oid)) v) A.Lacks text.old.items text.new.items result }
{
    if has_zone(type_oid) {
        told(timestamptz_to_text(v, text))
    } else {
        told(timestamp_to_text(v, text))
    }
}

/// Adds the text of a `timestamp` or a `timestamptz`.
pub(crate) fn put_timestamp<A: Memory>(
    type_oid: Oid,
    bytes: &[u8],
    text: &mut BytesMut<A>,
) -> Result<bool, AllocError>
    ensures { Tells (Shows timestamp_value (ShowsMoment (ShowsInstant (zone_of type_oid))) bytes.now) A.Lacks text.old.items text.new.items result }
{
    match timestamp_value_from_sql(bytes) {
        Ok(v) => put_moment(type_oid, v, text),
        Err(_) => Ok(false),
    }
}

/// Adds the text of an `interval`.
pub(crate) fn put_interval<A: Memory>(
    bytes: &[u8],
    text: &mut BytesMut<A>,
) -> Result<bool, AllocError>
    ensures { Tells (Shows interval_value (ShowsMoment ShowsSpan) bytes.now) A.Lacks text.old.items text.new.items result }
{
    match interval_value_from_sql(bytes) {
        Ok(v) => told(interval_to_text(v, text)),
        Err(_) => Ok(false),
    }
}
