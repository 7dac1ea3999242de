//! What a server stores of a password besides a verifier of SCRAM, and checks against what is stored.

ghost use Rattle.std.specs.Prelude.{◌≡◌, ◌≢◌, ◌⊎◌, length, None};
ghost use Rattle.std.specs.Str.{IsUtf8};
ghost use Rattle.pgp_auth.specs.Md5Text.{AnswersStored, md5_verifier};
ghost use Rattle.pgp_auth.specs.Prepared.{prepared};
ghost use Rattle.for_c_auth.specs.Checking.{IsOther, IsStored, NotChecked};
ghost use Rattle.for_c_auth.specs.Delivering.{Delivers, LacksRoom, NotDelivered};

use crate::deliver::{deliver, refused};
use crate::server::stored_code;
use pgp_auth::authentication::sasl::{NoPrep, StoredVerifier};
use pgp_auth::password::check;
use pgp_base::{Error, Memory};
use std::alloc::Global;

/// The result where what was shown isn't what is stored.
const WRONG_PASSWORD: u32 = 83;

/// The MD5 verifier of a password: `md5` and 32 digits.
#[unsafe(no_mangle)]
pub extern "C" fn pgp_md5_verifier(
    alloc: Global,
    user: &[u8],
    password: &[u8],
    out: &mut [u8],
    written: &mut usize,
) -> u32
    ensures sent { result ≡ 0 → Delivers (λ text. text ≡ md5_verifier password.now user.now) out.old out.new written.new }
    ensures refused { result ≢ 0 → NotDelivered out.old out.new written.new }
    ensures why { result ≢ 0 → (result ≡ 1) ⊎ ((result ≡ 9) × ¬ IsUtf8 user.now) }
{
    md5(alloc, user, password, out, written)
}

/// `pgp_md5_verifier` with any allocator.
pub fn md5<A: Memory>(
    alloc: A,
    user: &[u8],
    password: &[u8],
    out: &mut [u8],
    written: &mut usize,
) -> u32
    ensures sent { result ≡ 0 → Delivers (λ text. text ≡ md5_verifier password.now user.now) out.old out.new written.new }
    ensures refused { result ≢ 0 → NotDelivered out.old out.new written.new }
    ensures why { result ≢ 0 → ((result ≡ 1) × LacksRoom A.Lacks (λ text. text ≡ md5_verifier password.now user.now) out.old) ⊎ ((result ≡ 9) × ¬ IsUtf8 user.now) }
{
    let Ok(user) = pgp_base::text(user) else {
        return refused(Error::NotUtf8, written);
    };
    match pgp_auth::password::md5(alloc, password, user) {
        Ok(made) => deliver(made.as_bytes(), out, written),
        Err(e) => refused(e, written),
    }
}

/// Whether a client's answer to a request for MD5 authentication with this salt of 4 bytes is right for the stored MD5 text: 0 where it is.
#[unsafe(no_mangle)]
pub extern "C" fn pgp_md5_check(stored: &[u8], salt: &[u8], answer: &[u8]) -> u32
    ensures right { result ≡ 0 → AnswersStored stored.now salt.now answer.now }
    ensures wrong { result ≡ 83 → ¬ AnswersStored stored.now salt.now answer.now }
    ensures why { result ≢ 0 → (result ≡ 83) ⊎ ((result ≡ 10) × (length salt.now ≢ 4)) }
{
    let Ok(salt) = <[u8; 4]>::try_from(salt) else {
        return u32::from(Error::InvalidSize.number());
    };
    if check::md5_answer(answer, salt, stored) {
        return 0;
    }
    WRONG_PASSWORD
}

/// Whether a clear-text password is that of the stored verifier of SCRAM-SHA-256: 0 where it is.
#[unsafe(no_mangle)]
pub extern "C" fn pgp_scram_check(alloc: Global, stored: &[u8], password: &[u8]) -> u32
    ensures right { result ≡ 0 → IsStored stored.now (prepared (λ _. None) password.now) }
    ensures wrong { result ≡ 83 → IsOther stored.now (prepared (λ _. None) password.now) }
    ensures why { result ≢ 0 → result ≢ 83 → NotChecked (Unit {0}) stored.now result }
{
    scram(alloc, stored, password)
}

/// `pgp_scram_check` with any allocator.
pub fn scram<A: Memory>(alloc: A, stored: &[u8], password: &[u8]) -> u32
    ensures right { result ≡ 0 → IsStored stored.now (prepared (λ _. None) password.now) }
    ensures wrong { result ≡ 83 → IsOther stored.now (prepared (λ _. None) password.now) }
    ensures why { result ≢ 0 → result ≢ 83 → NotChecked A.Lacks stored.now result }
{
    match StoredVerifier::parse(alloc, stored) {
        Ok(verifier) => match check::scram_sha_256(alloc, password, &verifier, &NoPrep) {
            Ok(true) => 0,
            Ok(false) => WRONG_PASSWORD,
            Err(e) => u32::from(e.number()),
        },
        Err(e) => stored_code(e),
    }
}
