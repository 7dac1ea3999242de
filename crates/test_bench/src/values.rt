//! The binary formats of values: written, and read again.

use crate::input::Input;
use bytes::BytesMut;
use pgp_base::Error;
use pgp_types::{inet_from_sql, inet_to_sql, text_from_sql, text_to_sql};
use std::net::{IpAddr, Ipv4Addr};

/// The sum of the netmasks of IPv4 addresses that are written and read again.
///
/// # Errors
///
/// Returns `OutOfMemory` if the buffer can't grow.
#[inline(never)]
pub(crate) fn inet4s(buf: &mut BytesMut, count: u32) -> Result<u64, Error> {
    let mut sum = 0u64;
    for _round in 0..count {
        buf.clear();
        inet_to_sql(IpAddr::V4(Ipv4Addr::LOCALHOST), 32, buf)?;
        sum = sum.wrapping_add(inet_from_sql(buf.as_slice())?.netmask() as u64);
    }
    Ok(sum)
}

/// The bytes of the texts that are written and read again.
///
/// # Errors
///
/// Returns `OutOfMemory` if the buffer can't grow.
#[inline(never)]
pub(crate) fn texts(input: &mut Input, count: u32) -> Result<u64, Error> {
    let Input { buf, short, .. } = input;
    let mut sum = 0u64;
    for _round in 0..count {
        buf.clear();
        text_to_sql(short.as_str(), buf)?;
        sum = sum.wrapping_add(text_from_sql(buf.as_slice())?.len() as u64);
    }
    Ok(sum)
}
