//! The errors of a server.

use crate::scram::error::ScramError;
use std::alloc::{AllocError, Allocator, Global};
use thiserror::Error as DeriveError;

/// Why a server rejected a step of an exchange. A client learns no more than that it was rejected.
#[derive(Debug, Clone, Copy, PartialEq, Eq, DeriveError)]
pub enum ServerError {
    /// An allocation failed.
    #[error("OutOfMemory")]
    OutOfMemory,
    /// The step isn't due.
    #[error("WrongState")]
    WrongState,
    /// The first text begins with no header that claims a binding that is taken.
    #[error("UnsupportedBinding")]
    UnsupportedBinding,
    /// No user name and nonce stand after the header, or something follows them.
    #[error("InvalidFirst")]
    InvalidFirst,
    /// The final text doesn't repeat the header, the channel's data and the nonce.
    #[error("OtherExchange")]
    OtherExchange,
    /// No base64 of 32 bytes stands where the proof has to.
    #[error("InvalidEncoding")]
    InvalidEncoding,
    /// The proof is of another key, or there is no such user.
    #[error("InvalidProof")]
    InvalidProof,
}

impl From<AllocError> for ServerError {
    ghost use Rattle.std.specs.Prelude.{◌≡◌};
    ghost use Rattle.pgp_auth.specs.declared.scram.server_error.ServerError.TheVariants.{OutOfMemory};

    ghost from_gives = { λ _ e. e ≡ OutOfMemory };

    fn from(_: AllocError) -> ServerError {
        ServerError::OutOfMemory
    }
}

/// Why a stored text gives no verifier.
#[derive(Debug, Clone, Copy, PartialEq, Eq, DeriveError)]
pub enum VerifierError {
    /// An allocation failed.
    #[error("OutOfMemory")]
    OutOfMemory,
    /// The text is no verifier of SCRAM-SHA-256.
    #[error("NotAVerifier")]
    NotAVerifier,
}

/// Why an exchange of both sides in one place came to no end.
#[derive(Debug, Drop)]
pub enum ExchangeError<A: Allocator = Global> {
    /// The client rejected.
    Client(ScramError<A>),
    /// The server rejected.
    Server(ServerError),
}

impl<A: Allocator> From<ScramError<A>> for ExchangeError<A> {
    ghost use Rattle.std.specs.Prelude.{◌≡◌};
    ghost use Rattle.pgp_auth.specs.declared.scram.server_error.ExchangeError.TheVariants.{Client};

    ghost from_gives = { λ e x. x ≡ Client e };

    fn from(e: ScramError<A>) -> ExchangeError<A> {
        ExchangeError::Client(e)
    }
}

impl<A: Allocator> From<ServerError> for ExchangeError<A> {
    ghost use Rattle.std.specs.Prelude.{◌≡◌};
    ghost use Rattle.pgp_auth.specs.declared.scram.server_error.ExchangeError.TheVariants.{Server};

    ghost from_gives = { λ e x. x ≡ Server e };

    fn from(e: ServerError) -> ExchangeError<A> {
        ExchangeError::Server(e)
    }
}
