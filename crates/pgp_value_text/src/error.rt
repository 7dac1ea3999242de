//! Why a text of a date or a time couldn't be written.

ghost use Rattle.std.specs.Prelude.{◌≡◌};

use pgp_base::Error;
use thiserror::Error as DeriveError;

/// The errors of a text.
#[derive(Debug, Clone, Copy, PartialEq, Eq, DeriveError)]
pub enum TextError {
    /// The buffer can't grow.
    #[error("OutOfMemory")]
    OutOfMemory,
    /// The calendar has no such day, or a day no such time.
    #[error("OutOfRange")]
    OutOfRange,
}

/// A buffer has one error: it can't grow.
impl From<Error> for TextError {
    ghost use Rattle.pgp_value_text.specs.declared.error.TextError.TheVariants.{OutOfMemory};

    ghost from_gives = { λ _ e. e ≡ OutOfMemory };

    fn from(_: Error) -> TextError {
        TextError::OutOfMemory
    }
}
