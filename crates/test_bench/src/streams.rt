//! Streams of a server's messages, parsed and walked.

use bytes::BytesMut;
use pgp_base::{Error, FallibleIterator};
use pgp_message::{DataRowRanges, Message};
use std::alloc::Global;

/// Parses all messages, and sums up what each weighs.
///
/// # Errors
///
/// The error of the first frame that holds no message, of a length below 4, or `OutOfMemory`.
#[inline(never)]
pub(crate) fn read(buf: &mut BytesMut) -> Result<u64, Error> {
    let mut sum = 0u64;
    'messages: while let Some(message) = Message::parse(buf)? {
        sum = sum.wrapping_add(weight(&message));
    }
    Ok(sum)
}

/// A message that keeps nothing weighs 1, another one the bytes of its texts or values.
#[inline(always)]
pub(crate) fn weight(message: &Message) -> u64 {
    match message {
        Message::DataRow(body) => lengths(&mut body.ranges()),
        Message::CommandComplete(body) => body.tag().map_or(0, |tag| tag.len() as u64),
        _ => 1,
    }
}

// The bytes of the values that are left.
fn lengths(ranges: &mut DataRowRanges<'_>) -> u64 {
    let mut sum = 0u64;
    'values: while let Ok(Some(value)) = ranges.next() {
        let len = value.map_or(0, |range| range.end.wrapping_sub(range.start));
        sum = sum.wrapping_add(len as u64);
    }
    sum
}

/// The same of messages that stand in a slice, which is copied into a buffer first.
///
/// # Errors
///
/// Those of `read`, and `OutOfMemory` for the copy.
#[inline(never)]
pub(crate) fn read_copied(alloc: Global, bytes: &[u8]) -> Result<u64, Error> {
    let mut buf = BytesMut::copy_from_slice(alloc, bytes)?;
    read(&mut buf)
}
