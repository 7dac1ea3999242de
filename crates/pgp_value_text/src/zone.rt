//! Times of a day with a zone.

ghost use Rattle.std.specs.Prelude.{◌≡◌, ◌<◌, ◌++◌, take, unsigned_abs, OnErr, OnOk};
ghost use Rattle.pgp_values.specs.Time.{timetz};
ghost use Rattle.pgp_value_text.specs.ValueText.{Shows, Tells};
ghost use Rattle.pgp_value_text.specs.Zone.{offset_text, zone_text, ShowsTimeTz};

use crate::moment::put_clock;
use bytes::BytesMut;
use pgp_base::Memory;
use pgp_values::{TimeTz, timetz_from_sql};
use std::alloc::AllocError;

// Adds a sign, and hours, minutes and seconds.
fn put_offset<A: Memory>(sign: u8, n: u32, text: &mut BytesMut<A>) -> Result<(), AllocError>
    requires { n < 57_600 }
    ensures ok { OnOk result (text.new.items ≡ text.old.items ++ offset_text sign n) }
    ensures err { OnErr result (text.new.items ≡ text.old.items) }
    ensures lacks { OnErr result A.Lacks }
{
    let hours = (n / 3600) as u8;
    let minutes = (n / 60 % 60) as u8;
    let seconds = (n % 60) as u8;
    let (h, i) = (48 + hours / 10, 48 + hours % 10);
    let (m, k) = (48 + minutes / 10, 48 + minutes % 10);
    if n % 60 == 0 {
        if n / 60 % 60 == 0 {
            A::append(text, &[sign, h, i])
        } else {
            A::append(text, &[sign, h, i, b':', m, k])
        }
    } else {
        A::append(
            text,
            &[
                sign,
                h,
                i,
                b':',
                m,
                k,
                b':',
                48 + seconds / 10,
                48 + seconds % 10,
            ],
        )
    }
}

// Adds a zone; where there is no memory for it, the buffer is cut at this length.
fn put_zone<A: Memory>(zone: i32, len: usize, text: &mut BytesMut<A>) -> Result<(), AllocError>
    requires { unsigned_abs zone < 57_600 }
    ensures ok { OnOk result (text.new.items ≡ text.old.items ++ zone_text zone) }
    ensures err { OnErr result (text.new.items ≡ take len text.old.items) }
    ensures lacks { OnErr result A.Lacks }
{
    match put_offset(
        if 0 < zone { b'-' } else { b'+' },
        zone.unsigned_abs(),
        text,
    ) {
        Ok(()) => Ok(()),
        Err(e) => {
            text.truncate(len);
            Err(e)
        }
    }
}

// Adds the text of a time with its zone.
fn put_zoned<A: Memory>(v: TimeTz, text: &mut BytesMut<A>) -> Result<bool, AllocError>
    ensures { Tells (ShowsTimeTz v) A.Lacks text.old.items text.new.items result }
{
    if v.zone.unsigned_abs() >= 57_600 {
        return Ok(false);
    }
    let len = text.len();
    match put_clock(v.microseconds, text) {
        Ok(shown) => {
            if !shown {
                return Ok(false);
            }
            match put_zone(v.zone, len, text) {
                Ok(()) => Ok(true),
                Err(e) => Err(e),
            }
        }
        Err(e) => Err(e),
    }
}

/// Adds the text of a `timetz`.
pub(crate) fn put_timetz<A: Memory>(
    bytes: &[u8],
    text: &mut BytesMut<A>,
) -> Result<bool, AllocError>
    ensures { Tells (Shows timetz ShowsTimeTz bytes.now) A.Lacks text.old.items text.new.items result }
{
    match timetz_from_sql(bytes) {
        Ok(v) => put_zoned(v, text),
        Err(_) => Ok(false),
    }
}
