//! The parts of messages and values, read from the left: each is a value and the bytes after it.

ghost use Rattle.std.specs.Prelude.{◌≡◌};
ghost use Rattle.pgp_base.specs.WalkReading.{is_marked};
ghost use Rattle.pgp_base.specs.PartReading.{Gives, Answers, byte_at, uint16_at, oid_at, int16_at, int32_at, string_at, text_at};

use crate::big_endian::{u16_of, u32_of};
use crate::error::Error;
use crate::scanning::first_zero;
use crate::texts::text;

/// Whether a byte 0, which ends a list, stands at the front.
pub fn is_marked(bytes: &[u8]) -> bool
    ensures { result ≡ is_marked bytes.now }
{
    match bytes {
        [0, ..] => true,
        _ => false,
    }
}

/// A single byte.
///
/// # Errors
///
/// Returns `UnexpectedEof` if no byte is left.
pub fn byte_at(bytes: &[u8]) -> Result<(u8, &[u8]), Error>
    ensures { Gives (λ x. (x.0, x.1.now)) result (byte_at bytes.now) }
{
    match bytes {
        [] => Err(Error::UnexpectedEof),
        [first, rest @ ..] => Ok((*first, rest)),
    }
}

/// An Int16 that is read as unsigned, as a count or the format of a column.
///
/// # Errors
///
/// Returns `UnexpectedEof` if fewer than two bytes are left.
pub fn uint16_at(bytes: &[u8]) -> Result<(u16, &[u8]), Error>
    ensures { Gives (λ x. (x.0, x.1.now)) result (uint16_at bytes.now) }
{
    match bytes {
        [a, b, rest @ ..] => Ok((u16_of([*a, *b]), rest)),
        _ => Err(Error::UnexpectedEof),
    }
}

/// An object's identifier: four bytes, unsigned.
///
/// # Errors
///
/// Returns `UnexpectedEof` if fewer than four bytes are left.
pub fn oid_at(bytes: &[u8]) -> Result<(u32, &[u8]), Error>
    ensures { Gives (λ x. (x.0, x.1.now)) result (oid_at bytes.now) }
{
    match bytes {
        [a, b, c, d, rest @ ..] => Ok((u32_of([*a, *b, *c, *d]), rest)),
        _ => Err(Error::UnexpectedEof),
    }
}

/// An Int16.
///
/// # Errors
///
/// Returns `UnexpectedEof` if fewer than two bytes are left.
pub fn int16_at(bytes: &[u8]) -> Result<(i16, &[u8]), Error>
    ensures { Gives (λ x. (x.0, x.1.now)) result (int16_at bytes.now) }
{
    match bytes {
        [a, b, rest @ ..] => Ok((u16_of([*a, *b]).cast_signed(), rest)),
        _ => Err(Error::UnexpectedEof),
    }
}

/// An Int32.
///
/// # Errors
///
/// Returns `UnexpectedEof` if fewer than four bytes are left.
pub fn int32_at(bytes: &[u8]) -> Result<(i32, &[u8]), Error>
    ensures { Gives (λ x. (x.0, x.1.now)) result (int32_at bytes.now) }
{
    match bytes {
        [a, b, c, d, rest @ ..] => Ok((u32_of([*a, *b, *c, *d]).cast_signed(), rest)),
        _ => Err(Error::UnexpectedEof),
    }
}

/// A String of the protocol, without the byte 0 that ends it; it need not be text.
///
/// # Errors
///
/// Returns `UnexpectedEof` if no byte 0 is left.
// The hint carries the speed of messages with short texts: else what is read goes through memory.
#[inline(always)]
pub fn string_at(bytes: &[u8]) -> Result<(&[u8], &[u8]), Error>
    ensures { Gives (λ x. (x.0.now, x.1.now)) result (string_at bytes.now) }
{
    match first_zero(bytes) {
        Some(end) => {
            let (_, rest) = bytes.split_at(end + 1);
            Ok((&bytes[..end], rest))
        }
        None => Err(Error::UnexpectedEof),
    }
}

/// A String that has to be UTF-8.
///
/// # Errors
///
/// Returns `UnexpectedEof` if no byte 0 is left, whatever the bytes are; otherwise `NotUtf8` if those
/// before the first 0 are not UTF-8.
#[tactic(auto, unfolding(crate::specs::PartReading::text_at))]
pub fn text_at(bytes: &[u8]) -> Result<(&str, &[u8]), Error>
    ensures { Answers (λ x. (x.0.now, x.1.now)) result (text_at bytes.now) }
{
    let (string, rest) = string_at(bytes)?;
    match text(string) {
        Ok(text) => Ok((text, rest)),
        Err(_) => Err(Error::NotUtf8),
    }
}
