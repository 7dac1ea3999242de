//! The key of a cancel request.

ghost use Rattle.std.specs.Prelude.{[]};
ghost use Rattle.pgp_base.specs.PartReading.{Answers};
ghost use Rattle.pgp_frontend_read.specs.Reading.{key_at};

use pgp_base::{Error, MAX_KEY_LEN, MIN_KEY_LEN};

/// The key that all of the bytes are.
///
/// # Errors
///
/// Returns `InvalidSize` unless they are 4 to 256.
#[tactic(auto, unfolding(crate::specs::Reading::key_at))]
pub fn key_at(bytes: &[u8]) -> Result<&[u8], Error>
    ensures { Answers (λ x. (x.now, [])) result (key_at bytes.now) }
{
    if bytes.len() < MIN_KEY_LEN {
        return Err(Error::InvalidSize);
    }
    if bytes.len() > MAX_KEY_LEN {
        return Err(Error::InvalidSize);
    }
    Ok(bytes)
}
