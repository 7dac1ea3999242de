//! The log-in of a connection: that of `pgp_login`, which holds its exchange whole.

ghost use Rattle.std.specs.Prelude.{◌≡◌};
ghost use Rattle.pgp_session.specs.Login.{error_of};

use crate::connection_error::ConnectionError;
use pgp_auth::authentication::sasl::ScramError;
use pgp_base::Memory;
pub use pgp_login::HeldWays as Ways;
use pgp_login::LoginError;

/// Why a log-in fails, as a connection says it.
pub(crate) fn error_of<A: Memory>(e: LoginError<A>) -> ConnectionError<A>
    ensures { result ≡ error_of e }
{
    match e {
        LoginError::Undue => ConnectionError::Undue,
        LoginError::NotAdmitted => ConnectionError::NotAdmitted,
        LoginError::NotOffered => ConnectionError::NotOffered,
        LoginError::TooFewRounds => ConnectionError::TooFewRounds,
        LoginError::BadNonce => ConnectionError::Scram(ScramError::InvalidNonce),
        LoginError::Scram(e) => ConnectionError::Scram(e),
        LoginError::Unwritten(e) => ConnectionError::Unwritten(e),
    }
}
