//! The xor of two slices, 32 bytes at a time.

ghost use Rattle.std.specs.Prelude.{◌≡◌, ◌≤◌, ◌+◌, length};
ghost use Rattle.std.specs.Simd.Lanes.{put_chunk, chunk};
ghost use Rattle.pgp_auth.specs.IteratedKey.{xor_bytes};

use std::simd::prelude::*;

const LANES: usize = 32;

// The 32 bytes at `at`.
#[inline(always)]
fn xor_lanes(into: &mut [u8], other: &[u8], at: usize)
    requires lengths { length into.old ≡ length other.now }
    requires room { at + 32 ≤ length into.old }
    ensures { into.new ≡ put_chunk at into.old (xor_bytes (chunk at 32 into.old) (chunk at 32 other.now)) }
{
    let both = u8x32::from_slice(&into[at..]) ^ u8x32::from_slice(&other[at..]);
    both.copy_to_slice(&mut into[at..]);
}

/// `into` xor `other`, byte by byte.
pub fn xor_into(into: &mut [u8], other: &[u8])
    requires { length into.old ≡ length other.now }
    ensures { into.new ≡ xor_bytes into.old other.now }
{
    let len = into.len();
    let mut at = 0;
    'lanes: while LANES <= len - at {
        xor_lanes(into, other, at);
        at += LANES;
    }
    'rest: while at < len {
        into[at] ^= other[at];
        at += 1;
    }
}
