//! Why a parser of a client's connection answers no message.

use crate::error::ClientError;
use std::alloc::AllocError;

/// Why no message was read of the bytes that came.
#[derive(Debug, Clone, Copy, PartialEq, Eq)]
pub enum ParserError {
    /// What stands there is no message.
    Refused(ClientError),
    /// The message announces this length, past the limit.
    TooLong(u32),
    /// There is no memory for the bytes of a message that a piece's end cuts.
    OutOfMemory,
}

impl From<AllocError> for ParserError {
    ghost use Rattle.std.specs.Prelude.{◌≡◌};
    ghost use Rattle.pgp_frontend_read.specs.declared.parser_error.ParserError.TheVariants.{OutOfMemory};

    ghost from_gives = { λ _ e. e ≡ OutOfMemory };

    fn from(_: AllocError) -> ParserError {
        ParserError::OutOfMemory
    }
}
