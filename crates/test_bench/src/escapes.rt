//! Escaping; the sums are the bytes of the escaped texts.

use pgp_auth::escape::escape_literal;
use pgp_base::Error;
use std::alloc::Global;

/// How many bytes the string constants of so many copies of the text take.
///
/// # Errors
///
/// Returns `OutOfMemory` if memory for one of them can't be allocated.
#[inline(never)]
pub(crate) fn literals(alloc: Global, text: &str, count: u32) -> Result<u64, Error> {
    let mut sum = 0u64;
    for _round in 0..count {
        sum = sum.wrapping_add(escape_literal(alloc, text)?.as_str().len() as u64);
    }
    Ok(sum)
}
