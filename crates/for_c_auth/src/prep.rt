//! Passwords as SASLprep prepares them.

ghost use Rattle.std.specs.Prelude.{◌≡◌, ◌≢◌, ◌⊎◌};
ghost use Rattle.for_c_auth.specs.Delivering.{Delivers, LacksRoom, NotDelivered};
ghost use Rattle.for_c_auth.specs.Prep.{IsUsed};

use crate::deliver::{deliver, refused};
use pgp_base::Memory;
use pgp_saslprep::{Nfkc, UnicodeNfkc, saslprep};
use std::alloc::Global;
use std::str;

/// The password as a server uses it: prepared by SASLprep (RFC 4013); as it is where it isn't UTF-8, or SASLprep rejects it.
#[unsafe(no_mangle)]
pub extern "C" fn pgp_saslprep(
    alloc: Global,
    password: &[u8],
    out: &mut [u8],
    written: &mut usize,
) -> u32
    ensures sent { result ≡ 0 → Delivers (IsUsed password.now) out.old out.new written.new }
    ensures refused { result ≢ 0 → NotDelivered out.old out.new written.new × (result ≡ 1) }
{
    prepared(alloc, &UnicodeNfkc::new(alloc), password, out, written)
}

/// `pgp_saslprep` with any allocator, and any normal form.
pub fn prepared<A: Memory, N: Nfkc>(
    alloc: A,
    form: &N,
    password: &[u8],
    out: &mut [u8],
    written: &mut usize,
) -> u32
    ensures sent { result ≡ 0 → Delivers (IsUsed password.now) out.old out.new written.new }
    ensures refused { result ≢ 0 → NotDelivered out.old out.new written.new }
    ensures why { result ≢ 0 → (result ≡ 1) × LacksRoom (A.Lacks ⊎ N.Lacks) (IsUsed password.now) out.old }
{
    let Ok(text) = str::from_utf8(password) else {
        return deliver(password, out, written);
    };
    match saslprep(alloc, text, form) {
        Ok(Some(made)) => deliver(made.as_bytes(), out, written),
        Ok(None) => deliver(password, out, written),
        Err(e) => refused(e, written),
    }
}
