//! Verifiers: what a server stores of a password.
//!
//! With them a client sends `ALTER USER joe PASSWORD '..'` without the password itself, which then
//! appears in no log.

ghost use Rattle.std.specs.Prelude.{◌≡◌, ◌++◌, ◌⊎◌, string_bytes, IfOk, IfErr};
ghost use Rattle.rand_core.specs.Stream.{fill_bytes};
ghost use Rattle.pgp_base.specs.Cause.{WantsMemory};
ghost use Rattle.pgp_auth.specs.Md5Text.{md5_verifier};
ghost use Rattle.pgp_auth.specs.Prepared.{MappingLacks, prepared};
ghost use Rattle.pgp_auth.specs.Verifier.{verifier, verifier_text};

use crate::authentication::sasl::{SaslPrep, hi, mapped};
use crate::hmac::hmac_sha256;
use crate::md5_text::digest_text;
use pgp_base::{Error, Memory};
use rand_core::Rng;
use sha2::{Digest, Sha256};

pub mod check;

const ITERATIONS: u32 = 4096;

const SALT_LEN: usize = 16;

const VERIFIER_LEN: usize = 133;

/// The SCRAM-SHA-256 verifier of a password, of 4096 rounds, with a salt of 16 bytes that the generator
/// gives.
///
/// The text has no character that a string constant would have to escape.
///
/// # Errors
///
/// Returns `OutOfMemory` if memory for the text, or the mapping's own, can't be allocated. The generator
/// has given its 16 bytes then too.
pub fn scram_sha_256<A: Memory, P: SaslPrep, R: Rng>(
    alloc: A,
    password: &[u8],
    prep: &P,
    rng: &mut R,
) -> Result<String<A>, Error>
    ensures ok { let salt = (fill_bytes 16 (R.stream rng.old)).0 in
        IfOk result (λ t. string_bytes t ≡ verifier_text (verifier (prepared (P.mapping prep.now) password.now) salt 4096)) }
    ensures drawn { R.stream rng.new ≡ (fill_bytes 16 (R.stream rng.old)).1 }
    ensures memory { IfErr result (WantsMemory (A.Lacks ⊎ MappingLacks P.Lacks password.now)) }
{
    let mut salt = [0; SALT_LEN];
    rng.fill_bytes(&mut salt);
    scram_sha_256_salt(alloc, password, salt, prep)
}

/// The SCRAM-SHA-256 verifier of a password, of 4096 rounds, with a given salt: `SCRAM-SHA-256$4096:`, the
/// salt, `$`, StoredKey, `:`, ServerKey, the three in base64 (manual, catalog `pg_authid`).
///
/// # Errors
///
/// Returns `OutOfMemory` if memory for the text, or the mapping's own, can't be allocated.
pub fn scram_sha_256_salt<A: Memory, P: SaslPrep>(
    alloc: A,
    password: &[u8],
    salt: [u8; 16],
    prep: &P,
) -> Result<String<A>, Error>
    ensures ok { IfOk result (λ t. string_bytes t ≡ verifier_text (verifier (prepared (P.mapping prep.now) password.now) salt 4096)) }
    ensures memory { IfErr result (WantsMemory (A.Lacks ⊎ MappingLacks P.Lacks password.now)) }
{
    match mapped(alloc, password, prep)? {
        Some(text) => prepared_verifier(alloc, text.as_bytes(), &salt),
        None => prepared_verifier(alloc, password, &salt),
    }
}

// The verifier of a prepared password.
#[tactic(auto, unfolding(crate::specs::Verifier::verifier))]
fn prepared_verifier<A: Memory>(alloc: A, password: &[u8], salt: &[u8]) -> Result<String<A>, Error>
    ensures ok { IfOk result (λ t. string_bytes t ≡ verifier_text (verifier password.now salt.now 4096)) }
    ensures memory { IfErr result (WantsMemory A.Lacks) }
{
    let salted = hi(password, salt, ITERATIONS);
    let client_key = hmac_sha256(&salted, b"Client Key", b"");
    let stored_key = Sha256::digest(client_key);
    let server_key = hmac_sha256(&salted, b"Server Key", b"");
    text_of(alloc, salt, &stored_key, &server_key)
}

// The text of a verifier; the room is asked for once.
#[tactic(auto, using(crate::proofs::VerifierText::text_of_default))]
fn text_of<A: Memory>(
    alloc: A,
    salt: &[u8],
    stored_key: &[u8],
    server_key: &[u8],
) -> Result<String<A>, Error>
    ensures ok { IfOk result (λ t. string_bytes t ≡ verifier_text (record { salt = salt.now; count = 4096; stored_key = stored_key.now; server_key = server_key.now })) }
    ensures memory { IfErr result (WantsMemory A.Lacks) }
{
    let mut text = A::text_with_capacity(alloc, VERIFIER_LEN)?;
    A::push_str(&mut text, "SCRAM-SHA-256$4096:")?;
    A::push_base64(&mut text, salt)?;
    A::push_str(&mut text, "$")?;
    A::push_base64(&mut text, stored_key)?;
    A::push_str(&mut text, ":")?;
    A::push_base64(&mut text, server_key)?;
    Ok(text)
}

/// The MD5 verifier of a password, salted with the user's name: `md5` and 32 hexadecimal digits. MD5 isn't
/// secure.
///
/// The text has no character that a string constant would have to escape.
///
/// # Errors
///
/// Returns `OutOfMemory` if memory for the text can't be allocated.
pub fn md5<A: Memory>(alloc: A, password: &[u8], username: &str) -> Result<String<A>, Error>
    ensures ok { IfOk result (λ t. string_bytes t ≡ md5_verifier password.now username.now) }
    ensures memory { IfErr result (WantsMemory A.Lacks) }
{
    digest_text(alloc, password, username.as_bytes())
}
