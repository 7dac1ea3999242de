//! The errors of an exchange.

ghost use Rattle.std.specs.Prelude.{◌≡◌};
ghost use Rattle.pgp_auth.specs.ScramErrorView.{refusal, number_of};

use std::alloc::{AllocError, Allocator, Global};
use thiserror::Error as DeriveError;

/// Why a step of an exchange was rejected. Places are byte places in the server's text.
#[derive(Debug, Drop, DeriveError)]
pub enum ScramError<A: Allocator = Global> {
    /// An allocation failed.
    #[error("OutOfMemory")]
    OutOfMemory,
    /// The step isn't due.
    #[error("WrongState")]
    WrongState,
    /// The text is not UTF-8.
    #[error("NotUtf8")]
    NotUtf8,
    /// The text ends where another character has to stand.
    #[error("UnexpectedEnd")]
    UnexpectedEnd,
    /// Another character has to stand at this place.
    #[error("UnexpectedCharacter")]
    UnexpectedCharacter(usize),
    /// The text goes on after its end.
    #[error("Trailing")]
    Trailing(usize),
    /// The count isn't a number of 32 bits.
    #[error("InvalidNumber")]
    InvalidNumber,
    /// The server's nonce doesn't begin with the client's.
    #[error("InvalidNonce")]
    InvalidNonce,
    /// More than 100,000 rounds are asked for.
    #[error("TooManyIterations")]
    TooManyIterations,
    /// A text isn't base64.
    #[error("InvalidBase64")]
    InvalidBase64,
    /// The server's own error.
    #[error("Server")]
    Server(String<A>),
    /// The server doesn't show the signature.
    #[error("Verification")]
    Verification,
}

impl<A: Allocator> ScramError<A> {
    /// The number of the error, from 1 to 12, in the order of the variants.
    pub fn number(&self) -> u8
        ensures { result ≡ number_of (refusal self.now) }
    {
        match self {
            ScramError::OutOfMemory => 1,
            ScramError::WrongState => 2,
            ScramError::NotUtf8 => 3,
            ScramError::UnexpectedEnd => 4,
            ScramError::UnexpectedCharacter(_) => 5,
            ScramError::Trailing(_) => 6,
            ScramError::InvalidNumber => 7,
            ScramError::InvalidNonce => 8,
            ScramError::TooManyIterations => 9,
            ScramError::InvalidBase64 => 10,
            ScramError::Server(_) => 11,
            ScramError::Verification => 12,
        }
    }
}

impl<A: Allocator> From<AllocError> for ScramError<A> {
    ghost use Rattle.pgp_auth.specs.declared.scram.error.ScramError.TheVariants.{OutOfMemory};

    ghost from_gives = { λ _ e. e ≡ OutOfMemory };

    fn from(_: AllocError) -> ScramError<A> {
        ScramError::OutOfMemory
    }
}
