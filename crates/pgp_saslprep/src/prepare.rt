//! The whole of RFC 4013, over the normal forms of the toolchain's `unicode_normalization`.

ghost use Rattle.std.specs.Prelude.{◌≡◌, ◌⊎◌, List, Option, ℕ, chars, string_bytes, encode_utf8_all, option_map, IfOk, IfErr, OnErr};
ghost use Rattle.pgp_base.specs.Cause.{WantsMemory};
ghost use Rattle.pgp_saslprep.specs.SaslPrep.{prepared_bytes};
ghost use Rattle.unicode_normalization.specs.Forms.{nfkc};

use crate::check::{has_unassigned, refuses};
use crate::mapping::map_text;
use pgp_auth::authentication::sasl::SaslPrep;
use pgp_base::{Error, Memory};
use std::alloc::{AllocError, Global};
use unicode_normalization::to_nfkc;

/// What brings a text into the normal form KC. Its memory isn't the caller's: so it reports its own errors.
pub trait Nfkc {
    /// A normal form couldn't be allocated.
    ghost Lacks: { Type 0 };

    /// The text in the normal form KC.
    ///
    /// # Errors
    ///
    /// Returns `AllocError` if memory for it can't be allocated.
    fn nfkc(&self, text: &str) -> Result<String, AllocError>
        ensures ok { IfOk result (λ t. string_bytes t ≡ encode_utf8_all (nfkc (chars text.now))) }
        ensures lacks { OnErr result Lacks };
}

/// The normal form KC of Unicode 18, in memory of the global allocator. Of its errors nothing is said.
#[derive(Clone, Copy)]
pub struct UnicodeNfkc {
    alloc: Global,
}

impl UnicodeNfkc {
    /// The normal form, which takes its memory from here.
    pub fn new(alloc: Global) -> UnicodeNfkc
        ensures { result.alloc ≡ alloc }
    {
        UnicodeNfkc { alloc }
    }
}

impl Nfkc for UnicodeNfkc {
    ghost Lacks = { Unit {0} };

    fn nfkc(&self, text: &str) -> Result<String, AllocError> {
        to_nfkc(self.alloc, text)
    }
}

/// A text as RFC 4013 prepares it, or `None` where it rejects the text: spaces past ASCII become spaces, what is commonly
/// mapped to nothing goes, the normal form KC follows; and the outcome is rejected where it has a prohibited character,
/// goes both ways, or has a code point that Unicode 3.2 doesn't assign, as stored strings may not. Such a code point is
/// rejected before the normal form too, as a server does: a later Unicode may have a form for it.
///
/// # Errors
///
/// Returns `OutOfMemory` if memory for the text, or for its normal form, can't be allocated.
pub fn saslprep<A: Memory, N: Nfkc>(
    alloc: A,
    text: &str,
    form: &N,
) -> Result<Option<String<A>>, Error>
    ensures ok { IfOk result (λ o. option_map string_bytes o ≡ prepared_bytes text.now) }
    ensures memory { IfErr result (WantsMemory (A.Lacks ⊎ N.Lacks)) }
{
    let mapped = map_text(alloc, text)?;
    if has_unassigned(&mapped) {
        return Ok(None);
    }
    let normal = form.nfkc(&mapped)?;
    if refuses(&normal) {
        return Ok(None);
    }
    Ok(Some(A::text_of(alloc, &normal)?))
}

/// SASLprep: the mapping of RFC 4013. A password that it rejects is used as it is, as the server does.
///
/// The order of the steps is the RFC's, and that of the Rust crate `stringprep`, which normalizes by a later Unicode before it looks for what 3.2 doesn't assign, and
/// takes directions from a later one too. A server of PostgreSQL looks for all that it rejects before it normalizes, and rejects a text of which the mapping leaves
/// nothing.
#[derive(Clone, Copy)]
pub struct SaslPrepRfc4013<N: Nfkc = UnicodeNfkc> {
    form: N,
}

impl SaslPrepRfc4013 {
    /// The mapping, over the normal form of `UnicodeNfkc`.
    pub fn new(alloc: Global) -> SaslPrepRfc4013
        ensures { result.form.alloc ≡ alloc }
    {
        SaslPrepRfc4013 {
            form: UnicodeNfkc::new(alloc),
        }
    }
}

impl<N: Nfkc> SaslPrepRfc4013<N> {
    /// The mapping, over another normal form of the caller's.
    pub fn over(form: N) -> SaslPrepRfc4013<N>
        ensures { result.form ≡ form }
    {
        SaslPrepRfc4013 { form }
    }
}

impl<N: Nfkc> SaslPrep for SaslPrepRfc4013<N> {
    ghost mapping = { λ _ text. prepared_bytes text };

    ghost Lacks = { N.Lacks };

    fn prepare<A: Memory>(&self, alloc: A, text: &str) -> Result<Option<String<A>>, Error> {
        saslprep(alloc, text, &self.form)
    }
}
