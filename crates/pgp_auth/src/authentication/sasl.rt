//! SASL's SCRAM-SHA-256 (RFC 5802, RFC 7677): the client, and the parts that it is made of.

ghost use Rattle.std.specs.Prelude.{◌≡◌, ◌⊎◌, ℕ, ◌+◌, ◌<◌, ◌^◌, ◌++◌, List, Option, None, max, true, option_map, unwrap_or, string_bytes, IfOk, IfErr};
ghost use Rattle.std.specs.Str.{IsNotAscii};
ghost use Rattle.pgp_base.specs.Cause.{WantsMemory};
ghost use Rattle.pgp_auth.specs.IteratedKey.{salted};
ghost use Rattle.pgp_auth.specs.MacBlocks.{code_of};
ghost use Rattle.pgp_auth.specs.Prepared.{is_asked, prepared};

use crate::hmac::MacKey;
use crate::lanes::xor_into;
pub use crate::scram::{
    ChannelBinding, ChannelOffer, ExchangeError, ScramError, ScramServer, ScramSha256, ServerError,
    StoredVerifier, VerifierError, asks_fewer, is_nonce, iteration_count, verify_signature,
};
use pgp_base::{Error, Memory};
use std::str;

/// The name of the mechanism without channel binding.
pub const SCRAM_SHA_256: &str = "SCRAM-SHA-256";

/// The name of the mechanism with channel binding.
pub const SCRAM_SHA_256_PLUS: &str = "SCRAM-SHA-256-PLUS";

/// A mapping of passwords, as SASLprep (RFC 4013). It is asked only for passwords that are UTF-8 and
/// have a byte above 127.
pub trait SaslPrep {
    // What a text is mapped to, if anything.
    ghost mapping: { Self → List ℕ → Option (List ℕ) };

    // That the mapping lacked memory of its own: what comes from nowhere but such an error.
    ghost Lacks: { Type 0 };

    /// The text that is used in the place of `text`, or `None` where `text` is used as it is. `text` isn't
    /// ASCII.
    ///
    /// # Errors
    ///
    /// Returns `OutOfMemory` if memory for the text, or the mapping's own, can't be allocated, and nothing
    /// else: a text that can't be mapped is `None`.
    fn prepare<A: Memory>(&self, alloc: A, text: &str) -> Result<Option<String<A>>, Error>
        requires not_ascii { IsNotAscii text.now }
        ensures ok { IfOk result (λ o. option_map string_bytes o ≡ mapping self.now text.now) }
        ensures memory { IfErr result (WantsMemory (A.Lacks ⊎ Lacks)) };
}

/// No mapping: each password is used as it is.
#[derive(Debug, Clone, Copy)]
pub struct NoPrep;

impl SaslPrep for NoPrep {
    ghost mapping = { λ _ _. None };

    ghost Lacks = { ⊥ };

    fn prepare<A: Memory>(&self, _alloc: A, _text: &str) -> Result<Option<String<A>>, Error> {
        Ok(None)
    }
}

// What the mapping puts in the place of the password, if it is asked and has anything.
#[tactic(auto, using(crate::proofs::Asking::ascii, crate::proofs::Asking::not_text, crate::proofs::Asking::asked, crate::proofs::Asking::is_reported))]
pub(crate) fn mapped<A: Memory, P: SaslPrep>(
    alloc: A,
    password: &[u8],
    prep: &P,
) -> Result<Option<String<A>>, Error>
    ensures ok { IfOk result (λ o. unwrap_or (option_map string_bytes o) password.now ≡ prepared (P.mapping prep.now) password.now) }
    ensures memory { IfErr result (WantsMemory ((is_asked password.now ≡ true) × (A.Lacks ⊎ P.Lacks))) }
{
    if password.is_ascii() {
        return Ok(None);
    }
    match str::from_utf8(password) {
        Ok(text) => prep.prepare(alloc, text),
        Err(_) => Ok(None),
    }
}

// The code of a message in two parts, counted in `made`.
pub(crate) fn counted_code(key: &MacKey, first: &[u8], second: &[u8], made: &mut u64) -> [u8; 32]
    requires { made.old < 2 ^ 63 }
    ensures value { result ≡ code_of key.now (first.now ++ second.now) }
    ensures count { made.new ≡ made.old + 1 }
{
    *made += 1;
    key.code(first, second)
}

// `hi`, its codes counted in `made`.
pub(crate) fn counted_hi(password: &[u8], salt: &[u8], i: u32, made: &mut u64) -> [u8; 32]
    requires { made.old < 2 ^ 62 }
    ensures value { result ≡ salted password.now salt.now i }
    ensures count { made.new ≡ made.old + max i 1 }
{
    let maker = MacKey::new(password);
    let mut code = counted_code(&maker, salt, &1u32.to_be_bytes(), made);
    let mut key = code;
    'rounds: for _round in 1..i {
        code = counted_code(&maker, &code, &[], made);
        xor_into(&mut key, &code);
    }
    key
}

/// The key that `i` rounds of HMAC over SHA-256 make of a password and a salt: PBKDF2 of RFC 8018,
/// section 5.2, for one block, which RFC 5802 calls `Hi`. A count of 0 is read as 1.
pub fn hi(password: &[u8], salt: &[u8], i: u32) -> [u8; 32]
    ensures { result ≡ salted password.now salt.now i }
{
    let mut made = 0;
    counted_hi(password, salt, i, &mut made)
}
