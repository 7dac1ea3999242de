//! Users, and what they have to show.

ghost use Rattle.std.specs.Prelude.{◌≡◌, false, IfOk};
ghost use Rattle.pgp_auth.specs.ScramServerView.{verifier_of as held_verifier};
ghost use Rattle.pgp_auth.specs.ScramStored.{Stores};

use crate::fault::Fault;
use pgp_auth::authentication::sasl::{StoredVerifier, VerifierError};
use std::alloc::Global;

/// What a client has to show.
#[derive(Clone, Copy, PartialEq, Eq)]
pub(crate) enum Auth {
    /// Nothing.
    Trust,
    /// The password in clear text.
    Password,
    /// The answer to a salt, by MD5.
    Md5,
    /// The proof of SCRAM-SHA-256.
    Scram,
    /// The same, which may be bound to the server's certificate: SCRAM-SHA-256-PLUS.
    ScramPlus,
}

impl Auth {
    /// The method of this name.
    pub(crate) fn of(name: &str) -> Option<Auth> {
        match name {
            "trust" => Some(Auth::Trust),
            "password" => Some(Auth::Password),
            "md5" => Some(Auth::Md5),
            "scram" => Some(Auth::Scram),
            "scram-plus" => Some(Auth::ScramPlus),
            _ => None,
        }
    }

    /// Tests the verifier, where the method has one.
    ///
    /// # Errors
    ///
    /// Returns `Verifier` if it has another form, and `Memory`.
    pub(crate) fn test(self, alloc: Global, verifier: &str) -> Result<(), Fault> {
        match self {
            Auth::Trust if verifier.is_empty() => Ok(()),
            Auth::Trust => Err(Fault::NoVerifier),
            Auth::Md5 if is_md5(verifier) => Ok(()),
            Auth::Md5 => Err(Fault::Verifier),
            _ => {
                drop(verifier_of(alloc, verifier)?);
                Ok(())
            }
        }
    }
}

/// A user of the script.
#[derive(Drop)]
pub(crate) struct User {
    pub(crate) name: Vec<u8>,
    pub(crate) auth: Auth,
    pub(crate) verifier: String,
}

/// Whether it is what a server stores for MD5: `md5` and 32 digits.
fn is_md5(text: &str) -> bool {
    text.starts_with("md5") && text.len() == 35
}

/// The verifier of this text.
pub(crate) fn verifier_of(alloc: Global, text: &str) -> Result<StoredVerifier, Fault>
    ensures stored { IfOk result (λ held. Stores text.now (held_verifier held)) }
    ensures real { IfOk result (λ held. held.is_mock ≡ false) }
{
    match StoredVerifier::parse(alloc, text.as_bytes()) {
        Ok(verifier) => Ok(verifier),
        Err(VerifierError::OutOfMemory) => Err(Fault::Memory),
        Err(VerifierError::NotAVerifier) => Err(Fault::Verifier),
    }
}
