//! Verifiers, and the answer to an MD5 request.

ghost use Rattle.std.specs.Prelude.{◌≡◌, ◌≢◌, ◌⊎◌, length, None};
ghost use Rattle.pgp_auth.specs.Md5Text.{md5_answer};
ghost use Rattle.pgp_auth.specs.Prepared.{prepared};
ghost use Rattle.pgp_auth.specs.Verifier.{verifier, verifier_text};
ghost use Rattle.for_c_auth.specs.Delivering.{Delivers, LacksRoom, NotDelivered};

use crate::deliver::{deliver, refused};
use pgp_auth::authentication::md5_hash;
use pgp_auth::authentication::sasl::NoPrep;
use pgp_auth::password::scram_sha_256_salt;
use pgp_base::{Error, Memory};
use std::alloc::Global;

/// The SCRAM-SHA-256 verifier of a password, of 4096 rounds, with this salt of 16 bytes.
#[unsafe(no_mangle)]
pub extern "C" fn pgp_scram_verifier(
    alloc: Global,
    password: &[u8],
    salt: &[u8],
    out: &mut [u8],
    written: &mut usize,
) -> u32
    ensures sent { result ≡ 0 → Delivers (λ text. text ≡ verifier_text (verifier (prepared (λ _. None) password.now) salt.now 4096)) out.old out.new written.new }
    ensures refused { result ≢ 0 → NotDelivered out.old out.new written.new }
    ensures why { result ≢ 0 → (result ≡ 1) ⊎ ((result ≡ 10) × (length salt.now ≢ 16)) }
{
    made_verifier(alloc, password, salt, out, written)
}

/// `pgp_scram_verifier` with any allocator.
pub fn made_verifier<A: Memory>(
    alloc: A,
    password: &[u8],
    salt: &[u8],
    out: &mut [u8],
    written: &mut usize,
) -> u32
    ensures sent { result ≡ 0 → Delivers (λ text. text ≡ verifier_text (verifier (prepared (λ _. None) password.now) salt.now 4096)) out.old out.new written.new }
    ensures refused { result ≢ 0 → NotDelivered out.old out.new written.new }
    ensures why { result ≢ 0 → ((result ≡ 1) × LacksRoom A.Lacks (λ text. text ≡ verifier_text (verifier (prepared (λ _. None) password.now) salt.now 4096)) out.old) ⊎ ((result ≡ 10) × (length salt.now ≢ 16)) }
{
    let Ok(salt) = <[u8; 16]>::try_from(salt) else {
        return refused(Error::InvalidSize, written);
    };
    match scram_sha_256_salt(alloc, password, salt, &NoPrep) {
        Ok(made) => deliver(made.as_bytes(), out, written),
        Err(e) => refused(e, written),
    }
}

/// The answer to a server's MD5 request, with its salt of 4 bytes.
#[unsafe(no_mangle)]
pub extern "C" fn pgp_md5_answer(
    alloc: Global,
    user: &[u8],
    password: &[u8],
    salt: &[u8],
    out: &mut [u8],
    written: &mut usize,
) -> u32
    ensures sent { result ≡ 0 → Delivers (λ text. text ≡ md5_answer user.now password.now salt.now) out.old out.new written.new }
    ensures refused { result ≢ 0 → NotDelivered out.old out.new written.new }
    ensures why { result ≢ 0 → (result ≡ 1) ⊎ ((result ≡ 10) × (length salt.now ≢ 4)) }
{
    md5(alloc, user, password, salt, out, written)
}

/// `pgp_md5_answer` with any allocator.
pub fn md5<A: Memory>(
    alloc: A,
    user: &[u8],
    password: &[u8],
    salt: &[u8],
    out: &mut [u8],
    written: &mut usize,
) -> u32
    ensures sent { result ≡ 0 → Delivers (λ text. text ≡ md5_answer user.now password.now salt.now) out.old out.new written.new }
    ensures refused { result ≢ 0 → NotDelivered out.old out.new written.new }
    ensures why { result ≢ 0 → ((result ≡ 1) × LacksRoom A.Lacks (λ text. text ≡ md5_answer user.now password.now salt.now) out.old) ⊎ ((result ≡ 10) × (length salt.now ≢ 4)) }
{
    let Ok(salt) = <[u8; 4]>::try_from(salt) else {
        return refused(Error::InvalidSize, written);
    };
    match md5_hash(alloc, user, password, salt) {
        Ok(made) => deliver(made.as_bytes(), out, written),
        Err(e) => refused(e, written),
    }
}
