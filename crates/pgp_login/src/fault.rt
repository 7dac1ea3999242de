//! Why a log-in fails.

ghost use Rattle.std.specs.Prelude.{◌≡◌, ◌≢◌};
ghost use Rattle.pgp_auth.specs.ScramErrorView.{refusal};
ghost use Rattle.pgp_login.specs.Fault.{code_of, fault, number_of};

use pgp_auth::authentication::sasl::ScramError;
use pgp_base::Error;
use std::alloc::{Allocator, Global};

/// Why a log-in fails.
#[derive(Drop)]
pub enum LoginError<A: Allocator = Global> {
    /// The message isn't due.
    Undue,
    /// The server asks for a way of logging in that isn't admitted, or offers to bind an exchange to a channel that isn't encrypted.
    NotAdmitted,
    /// The server's SASL mechanisms lack that of the exchange, or their list is malformed.
    NotOffered,
    /// The exchange is of fewer rounds than the client asks for.
    TooFewRounds,
    /// The caller's nonce is none.
    BadNonce,
    /// The exchange rejected the server's text, or lacked memory.
    Scram(ScramError<A>),
    /// The reply couldn't be written.
    Unwritten(Error),
}

/// The number by which C is told.
pub fn number<A: Allocator>(e: &LoginError<A>) -> u32
    ensures code { result ≡ number_of (fault e.now) }
    ensures some { result ≢ 0 }
{
    match e {
        LoginError::Undue => 89,
        LoginError::NotAdmitted => 90,
        LoginError::NotOffered => 91,
        LoginError::TooFewRounds => 92,
        LoginError::BadNonce => 80,
        LoginError::Scram(e) => scram_number(e),
        LoginError::Unwritten(e) => u32::from(e.number()),
    }
}

/// The number of an exchange's error: lack of memory as everywhere, the others after 64.
fn scram_number<A: Allocator>(e: &ScramError<A>) -> u32
    ensures code { result ≡ code_of (refusal e.now) }
    ensures some { result ≢ 0 }
{
    match e {
        ScramError::OutOfMemory => 1,
        ScramError::WrongState => 66,
        ScramError::NotUtf8 => 67,
        ScramError::UnexpectedEnd => 68,
        ScramError::UnexpectedCharacter(_) => 69,
        ScramError::Trailing(_) => 70,
        ScramError::InvalidNumber => 71,
        ScramError::InvalidNonce => 72,
        ScramError::TooManyIterations => 73,
        ScramError::InvalidBase64 => 74,
        ScramError::Server(_) => 75,
        ScramError::Verification => 76,
    }
}
