//! Bytes as text.

ghost use Rattle.std.specs.Prelude.{◌≡◌, IsUtf8, MatchResult};

use crate::error::Error;
use crate::scanning::is_text;
use std::str;

/// The bytes as text: what `str::from_utf8` gives, faster where they are ASCII.
///
/// # Errors
///
/// Returns `NotUtf8` if they aren't UTF-8.
#[inline(always)]
pub fn text(bytes: &[u8]) -> Result<&str, Error>
    ensures { MatchResult result (λ text. (text.now ≡ bytes.now) × IsUtf8 bytes.now) (λ e. (e ≡ Error.NotUtf8) × ¬ IsUtf8 bytes.now) }
{
    if is_text(bytes) {
        Ok(unsafe { str::from_utf8_unchecked(bytes) })
    } else {
        Err(Error::NotUtf8)
    }
}
