//! The writers of a client's messages, into one buffer that is cleared now and then.

use crate::input::Input;
use crate::work::Work;
use bytes::BytesMut;
use pgp_base::{BindError, Error, IsNull};
use pgp_frontend::{
    bind, cancel_request, close, describe, execute, parse, query, startup_message, sync,
};
use pgp_types::int4_to_sql;

/// How many messages stand in the buffer before it is cleared.
const TOGETHER: u32 = 1000;

/// Writes the message of this work again and again, and returns how many bytes that were, with those that stood in the
/// buffer before.
///
/// # Errors
///
/// Those of the message's writer.
#[inline(never)]
pub(crate) fn write(work: Work, input: &mut Input, count: u32) -> Result<u64, Error> {
    let Input {
        buf,
        name,
        short,
        ..
    } = input;
    let (name, short) = (name.as_str(), short.as_str());
    let mut sum = 0u64;
    for n in 0..count {
        if n % TOGETHER == 0 {
            sum = sum.wrapping_add(buf.len() as u64);
            buf.clear();
        }
        append(work, name, short, n, buf)?;
    }
    Ok(sum.wrapping_add(buf.len() as u64))
}

static TYPES: [u32; 3] = [23, 25, 1114];

static PARAMETERS: [(&str, &str); 2] = [("user", "s1"), ("database", "0123456789abcdef")];

/// Appends the n-th message.
#[inline(always)]
fn append(work: Work, name: &str, short: &str, n: u32, buf: &mut BytesMut) -> Result<(), Error> {
    match work {
        Work::Bind => bind_five(name, n, buf),
        Work::Query => query("SELECT id, name FROM t WHERE id = 1234567", buf),
        Work::Parse => parse(name, short, TYPES.as_slice().iter().copied(), buf),
        Work::Startup => startup_message(PARAMETERS.as_slice().iter().copied(), buf),
        Work::Execute => execute(name, n.cast_signed(), buf),
        Work::Describe => describe(b'S', name, buf),
        Work::Close => close(b'S', name, buf),
        Work::Cancel => cancel_request(n.cast_signed(), 7, buf),
        _ => sync(buf),
    }
}

#[inline(always)]
fn bind_five(name: &str, n: u32, buf: &mut BytesMut) -> Result<(), Error> {
    let values = [n, 1, 2, 3, 4];
    let answer = bind(
        "",
        name,
        Some(1i16),
        values.as_slice(),
        |value: &u32, buf: &mut BytesMut| -> Result<IsNull, Error> {
            int4_to_sql(value.cast_signed(), buf)?;
            Ok(IsNull::No)
        },
        Some(1i16),
        buf,
    );
    match answer {
        Ok(()) => Ok(()),
        Err(BindError::Conversion(e) | BindError::Serialization(e)) => Err(e),
    }
}
