//! Identifiers, and lengths as the narrower numbers of their fields.

ghost use Rattle.std.specs.Prelude.{◌≡◌, ◌≤◌, ◌<◌, ◌^◌, pos, Ok, Err};

use crate::error::Error;

/// An object's identifier.
pub type Oid = u32;

/// A place in the write-ahead log.
pub type Lsn = u64;

/// The fewest bytes of a key that a request to cancel shows.
pub const MIN_KEY_LEN: usize = 4;

/// The most bytes of such a key.
pub const MAX_KEY_LEN: usize = 256;

/// Whether a value that a serializer was asked for is null.
#[derive(Debug, Clone, Copy, PartialEq, Eq)]
pub enum IsNull {
    /// It is null, and its serializer appended nothing.
    Yes,
    /// It is what its serializer appended.
    No,
}

/// The number as an `i16`.
///
/// # Errors
///
/// `TooLarge` past the greatest.
pub fn i16_from_usize(n: usize) -> Result<i16, Error>
    ensures fits { n < 2 ^ 15 → result ≡ Ok (pos n) }
    ensures passes { 2 ^ 15 ≤ n → result ≡ Err Error.TooLarge }
{
    i16::try_from(n).map_err(|_| Error::TooLarge)
}

/// The number as a `u16`.
///
/// # Errors
///
/// `TooLarge` past the greatest.
pub fn u16_from_usize(n: usize) -> Result<u16, Error>
    ensures fits { n < 2 ^ 16 → result ≡ Ok n }
    ensures passes { 2 ^ 16 ≤ n → result ≡ Err Error.TooLarge }
{
    u16::try_from(n).map_err(|_| Error::TooLarge)
}

/// The number as an `i32`.
///
/// # Errors
///
/// `TooLarge` past the greatest.
pub fn i32_from_usize(n: usize) -> Result<i32, Error>
    ensures fits { n < 2 ^ 31 → result ≡ Ok (pos n) }
    ensures passes { 2 ^ 31 ≤ n → result ≡ Err Error.TooLarge }
{
    i32::try_from(n).map_err(|_| Error::TooLarge)
}
