//! The iterated key.

use pgp_auth::authentication::sasl::hi;

/// The sum of the first bytes of the keys of the password `password` and the salts 0, 1, .. of one byte.
#[inline(never)]
pub(crate) fn keys(count: u32) -> u64 {
    let mut sum = 0u64;
    for n in 0..count {
        let salt = (n % 256) as u8;
        let key = hi(b"password", &[salt], 4096);
        sum = sum.wrapping_add(key[0] as u64);
    }
    sum
}
