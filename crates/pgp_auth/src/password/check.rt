//! Checks of what a client answered against what a server stores. Each looks at all bytes, wherever the first difference
//! stands, and says no more than whether the client is let in.

ghost use Rattle.std.specs.Prelude.{◌≡◌, ◌↔◌, ◌++◌, ◌⊎◌, false, IsTrue, codes, IfOk, IfErr};
ghost use Rattle.pgp_base.specs.Cause.{WantsMemory};
ghost use Rattle.pgp_auth.specs.Md5Text.{md5_verifier, AnswersStored};
ghost use Rattle.pgp_auth.specs.Prepared.{MappingLacks, prepared};
ghost use Rattle.pgp_auth.specs.ScramServerView.{verifier_of};
ghost use Rattle.pgp_auth.specs.Verifier.{verifier};

use crate::authentication::sasl::{SaslPrep, StoredVerifier, hi, mapped};
use crate::hmac::hmac_sha256;
use crate::md5_text::digest_hex;
use crate::scram::{behind, difference};
use pgp_base::{Error, Memory};
use sha2::{Digest, Sha256};
use std::alloc::Allocator;

const DIGITS_LEN: usize = 32;

// The text is `md5` and these digits.
fn is_md5_text(digits: &[u8; DIGITS_LEN], text: &[u8]) -> bool
    ensures { IsTrue result ↔ (text.now ≡ codes "md5" ++ digits.now) }
{
    let Some(rest) = behind(b"md5", text) else {
        return false;
    };
    if rest.len() != DIGITS_LEN {
        return false;
    }
    difference(digits, rest) == 0
}

/// A clear-text password against a stored MD5 text.
#[tactic(auto, unfolding(crate::specs::Md5Text::md5_text))]
pub fn md5(password: &[u8], username: &str, stored: &[u8]) -> bool
    ensures { IsTrue result ↔ (stored.now ≡ md5_verifier password.now username.now) }
{
    is_md5_text(&digest_hex(password, username.as_bytes()), stored)
}

/// The answer to a request for MD5 authentication with this salt, against a stored MD5 text. It is right exactly where
/// `authentication::md5_hash` makes it of a password with this stored text.
pub fn md5_answer(answer: &[u8], salt: [u8; 4], stored: &[u8]) -> bool
    ensures { IsTrue result ↔ AnswersStored stored.now salt answer.now }
{
    let Some(digits) = behind(b"md5", stored) else {
        return false;
    };
    if digits.len() != DIGITS_LEN {
        return false;
    }
    is_md5_text(&digest_hex(digits, &salt), answer)
}

// The prepared password is that of a verifier which isn't made up.
fn is_password<A: Allocator>(password: &[u8], stored: &StoredVerifier<A>) -> bool
    ensures { IsTrue result ↔ ((stored.now.is_mock ≡ false) × (verifier_of stored.now ≡ verifier password.now stored.now.salt.items stored.now.count)) }
{
    let salted = hi(password, &stored.salt, stored.count);
    let stored_key = Sha256::digest(hmac_sha256(&salted, b"Client Key", b""));
    let server_key = hmac_sha256(&salted, b"Server Key", b"");
    let from_stored = difference(&stored_key, &stored.stored_key);
    let from_server = difference(&server_key, &stored.server_key);
    if stored.is_mock {
        return false;
    }
    if from_stored != 0 {
        return false;
    }
    from_server == 0
}

/// A clear-text password against a stored verifier. No password is that of `StoredVerifier::mock`.
///
/// # Errors
///
/// Returns `OutOfMemory` if the mapping can't allocate.
pub fn scram_sha_256<A: Memory, P: SaslPrep>(
    alloc: A,
    password: &[u8],
    stored: &StoredVerifier<A>,
    prep: &P,
) -> Result<bool, Error>
    ensures ok { let text = prepared (P.mapping prep.now) password.now in
        IfOk result (λ yes. IsTrue yes ↔ ((stored.now.is_mock ≡ false) × (verifier_of stored.now ≡ verifier text stored.now.salt.items stored.now.count))) }
    ensures memory { IfErr result (WantsMemory (A.Lacks ⊎ MappingLacks P.Lacks password.now)) }
{
    match mapped(alloc, password, prep)? {
        Some(text) => Ok(is_password(text.as_bytes(), stored)),
        None => Ok(is_password(password, stored)),
    }
}
