//! Bytes below 128, looked at many at a time.

ghost use Rattle.std.specs.Prelude.{◌+◌, ◌≤◌, ◌<◌, length, slice_index, IsTrue};
ghost use Rattle.pgp_base.specs.Ascii.{AreAscii};

use std::simd::prelude::*;

/// A text of fewer bytes is short.
pub(crate) const SHORT_LEN: usize = 16;

/// The bytes of the widest look.
pub(crate) const BLOCK_LEN: usize = 64;

/// The bytes of two such looks.
pub(crate) const PAIR_LEN: usize = 128;

// No byte of the 64 at `at` is above 127.
#[inline(always)]
pub(crate) fn are_ascii_64(bytes: &[u8], at: usize) -> bool
    requires { at + 64 ≤ length bytes.now }
    ensures { IsTrue result → AreAscii bytes.now at (at + 64) }
{
    let lanes = u8x64::from_slice(&bytes[at..]);
    lanes.simd_ge(u8x64::splat(128)).to_bitmask() == 0
}

// No byte of the 32 at `at` is above 127.
#[inline(always)]
fn are_ascii_32(bytes: &[u8], at: usize) -> bool
    requires { at + 32 ≤ length bytes.now }
    ensures { IsTrue result → AreAscii bytes.now at (at + 32) }
{
    let lanes = u8x32::from_slice(&bytes[at..]);
    lanes.simd_ge(u8x32::splat(128)).to_bitmask() == 0
}

// No byte of the 16 at `at` is above 127.
#[inline(always)]
fn are_ascii_16(bytes: &[u8], at: usize) -> bool
    requires { at + 16 ≤ length bytes.now }
    ensures { IsTrue result → AreAscii bytes.now at (at + 16) }
{
    let lanes = u8x16::from_slice(&bytes[at..]);
    lanes.simd_ge(u8x16::splat(128)).to_bitmask() == 0
}

// No byte of the 8 at `at` is above 127.
#[inline(always)]
fn are_ascii_8(bytes: &[u8], at: usize) -> bool
    requires { at + 8 ≤ length bytes.now }
    ensures { IsTrue result → AreAscii bytes.now at (at + 8) }
{
    let lanes = u8x8::from_slice(&bytes[at..]);
    lanes.simd_ge(u8x8::splat(128)).to_bitmask() == 0
}

// No byte of the 4 at `at` is above 127.
#[inline(always)]
fn are_ascii_4(bytes: &[u8], at: usize) -> bool
    requires { at + 4 ≤ length bytes.now }
    ensures { IsTrue result → AreAscii bytes.now at (at + 4) }
{
    let lanes = u8x4::from_slice(&bytes[at..]);
    lanes.simd_ge(u8x4::splat(128)).to_bitmask() == 0
}

// No byte from `at` on is above 127, where 64 to 128 are left. Two looks that may overlap cover them.
#[inline(always)]
pub(crate) fn are_ascii_from(bytes: &[u8], at: usize) -> bool
    requires short { length bytes.now ≤ at + PAIR_LEN }
    requires long { at + BLOCK_LEN ≤ length bytes.now }
    ensures { IsTrue result → AreAscii bytes.now at (length bytes.now) }
{
    are_ascii_64(bytes, at) & are_ascii_64(bytes, bytes.len() - BLOCK_LEN)
}

// No byte is above 127, where there are fewer than 16. Two looks that may overlap cover four or more.
#[inline(always)]
pub(crate) fn are_ascii_short(bytes: &[u8]) -> bool
    requires { length bytes.now < SHORT_LEN }
    ensures { IsTrue result → AreAscii bytes.now 0 (length bytes.now) }
{
    let len = bytes.len();
    if 8 <= len {
        are_ascii_8(bytes, 0) & are_ascii_8(bytes, len - 8)
    } else if 4 <= len {
        are_ascii_4(bytes, 0) & are_ascii_4(bytes, len - 4)
    } else {
        match bytes {
            [] => true,
            [a] => *a < 128,
            [a, b] => (*a < 128) & (*b < 128),
            [a, b, c, ..] => (*a < 128) & (*b < 128) & (*c < 128),
        }
    }
}

// The same of 16 to 64 bytes.
#[inline(always)]
pub(crate) fn are_ascii(bytes: &[u8]) -> bool
    requires some { SHORT_LEN ≤ length bytes.now }
    requires few { length bytes.now ≤ BLOCK_LEN }
    ensures { IsTrue result → AreAscii bytes.now 0 (length bytes.now) }
{
    let len = bytes.len();
    if 32 <= len {
        are_ascii_32(bytes, 0) & are_ascii_32(bytes, len - 32)
    } else {
        are_ascii_16(bytes, 0) & are_ascii_16(bytes, len - 16)
    }
}

// How many bytes from `at` on come before the first of the 64 that is above 127.
#[inline(always)]
fn ascii_in_64(bytes: &[u8], at: usize) -> usize
    requires { at + 64 ≤ length bytes.now }
    ensures within { result ≤ 64 }
    ensures ascii { AreAscii bytes.now at (at + result) }
{
    let lanes = u8x64::from_slice(&bytes[at..]);
    let high = lanes.simd_ge(u8x64::splat(128)).to_bitmask();
    if high == 0 {
        return 64;
    }
    high.trailing_zeros() as usize
}

// Where the ASCII from `at` on ends, where 64 to 128 bytes are left. The same two looks show it.
#[inline(always)]
pub(crate) fn ascii_end(bytes: &[u8], at: usize) -> usize
    requires short { length bytes.now ≤ at + PAIR_LEN }
    requires long { at + BLOCK_LEN ≤ length bytes.now }
    ensures within { result ≤ length bytes.now }
    ensures ascii { AreAscii bytes.now at result }
{
    let front = ascii_in_64(bytes, at);
    if front < BLOCK_LEN {
        return at + front;
    }
    let last = bytes.len() - BLOCK_LEN;
    last + ascii_in_64(bytes, last)
}

// How many bytes from `at` on come before the first of the 32 that is above 127.
#[inline(always)]
fn ascii_in_32(bytes: &[u8], at: usize) -> usize
    requires { at + 32 ≤ length bytes.now }
    ensures within { result ≤ 32 }
    ensures ascii { AreAscii bytes.now at (at + result) }
{
    let lanes = u8x32::from_slice(&bytes[at..]);
    let high = lanes.simd_ge(u8x32::splat(128)).to_bitmask();
    if high == 0 {
        return 32;
    }
    high.trailing_zeros() as usize
}

// How many bytes at the front are ASCII, as far as two looks of 32 show, which may overlap.
#[inline(always)]
fn ascii_front_32(bytes: &[u8]) -> usize
    requires { 32 ≤ length bytes.now }
    ensures within { result ≤ length bytes.now }
    ensures ascii { AreAscii bytes.now 0 result }
{
    let first = ascii_in_32(bytes, 0);
    if first < 32 {
        return first;
    }
    let second = (bytes.len() - 32).min(32);
    second + ascii_in_32(bytes, second)
}

// How many bytes from `at` on come before the first of the 16 that is above 127.
#[inline(always)]
fn ascii_in_16(bytes: &[u8], at: usize) -> usize
    requires { at + 16 ≤ length bytes.now }
    ensures within { result ≤ 16 }
    ensures ascii { AreAscii bytes.now at (at + result) }
{
    let lanes = u8x16::from_slice(&bytes[at..]);
    let high = lanes.simd_ge(u8x16::splat(128)).to_bitmask();
    if high == 0 {
        return 16;
    }
    high.trailing_zeros() as usize
}

// How many bytes at the front are ASCII, as far as two looks of 16 show, which may overlap.
#[inline(always)]
fn ascii_front_16(bytes: &[u8]) -> usize
    requires { 16 ≤ length bytes.now }
    ensures within { result ≤ length bytes.now }
    ensures ascii { AreAscii bytes.now 0 result }
{
    let first = ascii_in_16(bytes, 0);
    if first < 16 {
        return first;
    }
    let second = (bytes.len() - 16).min(16);
    second + ascii_in_16(bytes, second)
}

// How many bytes from `at` on come before the first of the 8 that is above 127.
#[inline(always)]
fn ascii_in_8(bytes: &[u8], at: usize) -> usize
    requires { at + 8 ≤ length bytes.now }
    ensures within { result ≤ 8 }
    ensures ascii { AreAscii bytes.now at (at + result) }
{
    let lanes = u8x8::from_slice(&bytes[at..]);
    let high = lanes.simd_ge(u8x8::splat(128)).to_bitmask();
    if high == 0 {
        return 8;
    }
    high.trailing_zeros() as usize
}

// How many bytes at the front are ASCII, as far as two looks of 8 show, which may overlap.
#[inline(always)]
fn ascii_front_8(bytes: &[u8]) -> usize
    requires { 8 ≤ length bytes.now }
    ensures within { result ≤ length bytes.now }
    ensures ascii { AreAscii bytes.now 0 result }
{
    let first = ascii_in_8(bytes, 0);
    if first < 8 {
        return first;
    }
    let second = (bytes.len() - 8).min(8);
    second + ascii_in_8(bytes, second)
}

// How many bytes from `at` on come before the first of the 4 that is above 127.
#[inline(always)]
fn ascii_in_4(bytes: &[u8], at: usize) -> usize
    requires { at + 4 ≤ length bytes.now }
    ensures within { result ≤ 4 }
    ensures ascii { AreAscii bytes.now at (at + result) }
{
    let lanes = u8x4::from_slice(&bytes[at..]);
    let high = lanes.simd_ge(u8x4::splat(128)).to_bitmask();
    if high == 0 {
        return 4;
    }
    high.trailing_zeros() as usize
}

// How many bytes at the front are ASCII, as far as two looks of 4 show, which may overlap.
#[inline(always)]
fn ascii_front_4(bytes: &[u8]) -> usize
    requires { 4 ≤ length bytes.now }
    ensures within { result ≤ length bytes.now }
    ensures ascii { AreAscii bytes.now 0 result }
{
    let first = ascii_in_4(bytes, 0);
    if first < 4 {
        return first;
    }
    let second = (bytes.len() - 4).min(4);
    second + ascii_in_4(bytes, second)
}

// How many bytes at the front are ASCII, as far as two looks show.
#[inline(always)]
pub(crate) fn ascii_front(bytes: &[u8]) -> usize
    ensures within { result ≤ length bytes.now }
    ensures ascii { AreAscii bytes.now 0 result }
{
    let len = bytes.len();
    if 32 <= len {
        ascii_front_32(bytes)
    } else if 16 <= len {
        ascii_front_16(bytes)
    } else if 8 <= len {
        ascii_front_8(bytes)
    } else if 4 <= len {
        ascii_front_4(bytes)
    } else {
        0
    }
}

// Half of the next 32 bytes or more are no ASCII.
#[inline(always)]
pub(crate) fn is_dense(bytes: &[u8]) -> bool {
    if bytes.len() < 32 {
        return false;
    }
    let lanes = u8x32::from_slice(bytes);
    16 <= lanes.simd_ge(u8x32::splat(128)).to_bitmask().count_ones()
}
