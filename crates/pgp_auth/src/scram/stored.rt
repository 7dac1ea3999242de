//! A server's verifier: of a password, of the stored text, or made up.

ghost use Rattle.std.specs.Prelude.{◌≡◌, ◌≢◌, ◌⊎◌, ◌≤◌, true, false, ℕ, List, length, MatchOption, MatchResult, Ok, Err, IfOk, IfErr};
ghost use Rattle.pgp_base.specs.Cause.{WantsMemory};
ghost use Rattle.pgp_base.specs.Wire.{IsBytes};
ghost use Rattle.pgp_auth.specs.Base64.{base64};
ghost use Rattle.pgp_auth.specs.Prepared.{MappingLacks, prepared};
ghost use Rattle.pgp_auth.specs.declared.scram.server_error.VerifierError.TheVariants.{OutOfMemory, NotAVerifier};
ghost use Rattle.pgp_auth.specs.Verifier.{verifier, mock_verifier};
ghost use Rattle.pgp_auth.specs.ScramStored.{IsKey, Stores, NotStored};
ghost use Rattle.pgp_auth.specs.StoredReading.{read_parts, read_stored, pieces_of};
ghost use Rattle.pgp_auth.specs.ScramServerView.{verifier_of};

use crate::authentication::sasl::{SaslPrep, hi, mapped};
use crate::hmac::hmac_sha256;
use crate::scram::held::StoredVerifier;
use crate::scram::reading::{Alphabet, Fault, count, expect};
use crate::scram::server_error::VerifierError;
use crate::scram::serving::proof_in;
use base64::DecodeAllocError;
use pgp_base::{Error, Memory};
use sha2::{Digest, Sha256};
use std::alloc::Allocator;

const MOCK_COUNT: u32 = 4096;

const MOCK_SALT_LEN: usize = 16;

// The verifier of a prepared password.
#[tactic(auto, unfolding(crate::specs::Verifier::verifier))]
fn made<A: Allocator>(password: &[u8], salt: Vec<u8, A>, count: u32) -> StoredVerifier<A>
    ensures keys { verifier_of result ≡ verifier password.now salt.items count }
    ensures real { result.is_mock ≡ false }
{
    let salted = hi(password, &salt, count);
    let client_key = hmac_sha256(&salted, b"Client Key", b"");
    let stored_key = Sha256::digest(client_key);
    let server_key = hmac_sha256(&salted, b"Server Key", b"");
    StoredVerifier {
        salt,
        count,
        stored_key,
        server_key,
        is_mock: false,
    }
}

// The count and the three texts of a stored verifier.
#[derive(Clone, Copy)]
struct Pieces<'a> {
    count: u32,
    salt: &'a [u8],
    stored: &'a [u8],
    server: &'a [u8],
}

// What stands after the mechanism's name, the end of a text of `total` bytes.
#[tactic(auto, using(crate::proofs::Runs::front_passes), unfolding(crate::specs::StoredReading::read_parts))]
fn parts_behind<'a>(total: usize, text: &'a [u8]) -> Result<Pieces<'a>, Fault>
    requires { length text.now ≤ total }
    ensures { MatchResult result (λ p. read_parts total text.now ≡ Ok (pieces_of p)) (λ e. read_parts total text.now ≡ Err e) }
{
    let (digits, rest) = Alphabet::Digits.split_front(text);
    let count = count(digits)?;
    let after = expect(total, b":", rest)?;
    let (salt, rest) = Alphabet::Base64.split_front(after);
    let after = expect(total, b"$", rest)?;
    let (stored, rest) = Alphabet::Base64.split_front(after);
    let server = expect(total, b":", rest)?;
    Ok(Pieces {
        count,
        salt,
        stored,
        server,
    })
}

#[tactic(auto, unfolding(crate::specs::StoredReading::read_stored))]
fn split_text(text: &[u8]) -> Result<Pieces<'_>, Fault>
    ensures { MatchResult result (λ p. read_stored text.now ≡ Ok (pieces_of p)) (λ e. read_stored text.now ≡ Err e) }
{
    let after = expect(text.len(), b"SCRAM-SHA-256$", text)?;
    parts_behind(text.len(), after)
}

// What the type of a list, or of an array, doesn't say in a proof.
fn are_bytes(bytes: &[u8])
    ensures { IsBytes bytes.now }
{
    let _len = bytes.len();
}

// A key of 32 bytes that a text shows.
fn key_of(shown: &[u8]) -> Option<[u8; 32]>
    ensures { MatchOption result ((key : List ℕ) → IsKey key → shown.now ≢ base64 key) (λ key. IsKey key × (shown.now ≡ base64 key)) }
{
    let mut room = [0; 48];
    let Some(bytes) = proof_in(shown, &mut room) else {
        return None;
    };
    are_bytes(bytes);
    let mut key = [0; 32];
    key.copy_from_slice(bytes);
    Some(key)
}

// The salt that a text shows.
fn salt_of<A: Memory>(alloc: A, shown: &[u8]) -> Result<Vec<u8, A>, VerifierError>
    ensures ok { IfOk result (λ salt. IsBytes salt.items × (shown.now ≡ base64 salt.items)) }
    ensures err { IfErr result (λ e. ((e ≡ OutOfMemory) × A.Lacks) ⊎ ((e ≡ NotAVerifier) × ((salt : List ℕ) → IsBytes salt → shown.now ≢ base64 salt))) }
{
    match A::base64_shown(alloc, shown) {
        Ok(salt) => {
            are_bytes(&salt);
            Ok(salt)
        }
        Err(DecodeAllocError::OutOfMemory) => Err(VerifierError::OutOfMemory),
        Err(DecodeAllocError::DecodeError(_)) => Err(VerifierError::NotAVerifier),
    }
}

impl<A: Memory> StoredVerifier<A> {
    /// The verifier of a password, with a given salt and count.
    ///
    /// # Errors
    ///
    /// Returns `OutOfMemory` if the mapping can't allocate.
    pub fn of_password<P: SaslPrep>(
        alloc: A,
        password: &[u8],
        salt: Vec<u8, A>,
        count: u32,
        prep: &P,
    ) -> Result<StoredVerifier<A>, Error>
        ensures ok { IfOk result (λ v. verifier_of v ≡ verifier (prepared (P.mapping prep.now) password.now) salt.items count) }
        ensures real { IfOk result (λ v. v.is_mock ≡ false) }
        ensures memory { IfErr result (WantsMemory (A.Lacks ⊎ MappingLacks P.Lacks password.now)) }
    {
        match mapped(alloc, password, prep)? {
            Some(text) => Ok(made(text.as_bytes(), salt, count)),
            None => Ok(made(password, salt, count)),
        }
    }

    /// The verifier that PostgreSQL stores as this text: `SCRAM-SHA-256$`, the count, `:`, the salt, `$`, StoredKey, `:` and
    /// ServerKey, the last three in base64.
    ///
    /// # Errors
    ///
    /// Returns `NotAVerifier` if the text is none, and `OutOfMemory` if memory for the salt can't be allocated.
    pub fn parse(alloc: A, text: &[u8]) -> Result<StoredVerifier<A>, VerifierError>
        ensures ok { IfOk result (λ v. Stores text.now (verifier_of v)) }
        ensures real { IfOk result (λ v. v.is_mock ≡ false) }
        ensures err { IfErr result (NotStored A.Lacks text.now) }
    {
        let Ok(pieces) = split_text(text) else {
            return Err(VerifierError::NotAVerifier);
        };
        let Some(stored_key) = key_of(pieces.stored) else {
            return Err(VerifierError::NotAVerifier);
        };
        let Some(server_key) = key_of(pieces.server) else {
            return Err(VerifierError::NotAVerifier);
        };
        let salt = salt_of(alloc, pieces.salt)?;
        Ok(StoredVerifier {
            salt,
            count: pieces.count,
            stored_key,
            server_key,
            is_mock: false,
        })
    }

    /// What stands in for the verifier of a user who has none: a salt that depends on the user's name and a secret alone, and
    /// 4096 rounds. A server with it answers the client's first text like any other, and rejects its final text, so that a
    /// client can't tell that there is no such user. The secret is the server's, at random and the same each time.
    ///
    /// # Errors
    ///
    /// Returns `OutOfMemory` if memory for the salt can't be allocated.
    pub fn mock(alloc: A, secret: &[u8], user: &[u8]) -> Result<StoredVerifier<A>, Error>
        ensures ok { IfOk result (λ v. verifier_of v ≡ mock_verifier secret.now user.now) }
        ensures mock { IfOk result (λ v. v.is_mock ≡ true) }
        ensures memory { IfErr result (WantsMemory A.Lacks) }
    {
        let mut hasher = Sha256::new();
        hasher.update(user);
        hasher.update(secret);
        let digest = hasher.finalize();
        let salt = A::list_of(alloc, &digest[..MOCK_SALT_LEN])?;
        Ok(StoredVerifier {
            salt,
            count: MOCK_COUNT,
            stored_key: [0; 32],
            server_key: [0; 32],
            is_mock: true,
        })
    }
}
