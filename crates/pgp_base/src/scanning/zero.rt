//! The byte 0 that ends a string, which mostly is near.

ghost use Rattle.std.specs.Prelude.{◌+◌, ◌≤◌, ◌<◌, length};
ghost use Rattle.memchr.specs.Find.{IsFirst, IsFirstByte, Passes, is_byte};

use memchr::memchr;
use std::simd::prelude::*;

// The first 0 among the 32 bytes at `at`.
#[inline(always)]
fn zero_in_32(bytes: &[u8], at: usize) -> Option<usize>
    requires { at + 32 ≤ length bytes.now }
    ensures { IsFirst (Passes (is_byte 0) bytes.now) at (at + 32) result }
{
    let lanes = u8x32::from_slice(&bytes[at..]);
    let zeros = lanes.simd_eq(u8x32::splat(0)).to_bitmask();
    if zeros == 0 {
        return None;
    }
    Some(at + zeros.trailing_zeros() as usize)
}

// The first 0 among the 16 bytes at `at`.
#[inline(always)]
fn zero_in_16(bytes: &[u8], at: usize) -> Option<usize>
    requires { at + 16 ≤ length bytes.now }
    ensures { IsFirst (Passes (is_byte 0) bytes.now) at (at + 16) result }
{
    let lanes = u8x16::from_slice(&bytes[at..]);
    let zeros = lanes.simd_eq(u8x16::splat(0)).to_bitmask();
    if zeros == 0 {
        return None;
    }
    Some(at + zeros.trailing_zeros() as usize)
}

// The first 0 among the 8 bytes at `at`.
#[inline(always)]
fn zero_in_8(bytes: &[u8], at: usize) -> Option<usize>
    requires { at + 8 ≤ length bytes.now }
    ensures { IsFirst (Passes (is_byte 0) bytes.now) at (at + 8) result }
{
    let lanes = u8x8::from_slice(&bytes[at..]);
    let zeros = lanes.simd_eq(u8x8::splat(0)).to_bitmask();
    if zeros == 0 {
        return None;
    }
    Some(at + zeros.trailing_zeros() as usize)
}

// The first 0 among the 4 bytes at `at`.
#[inline(always)]
fn zero_in_4(bytes: &[u8], at: usize) -> Option<usize>
    requires { at + 4 ≤ length bytes.now }
    ensures { IsFirst (Passes (is_byte 0) bytes.now) at (at + 4) result }
{
    let lanes = u8x4::from_slice(&bytes[at..]);
    let zeros = lanes.simd_eq(u8x4::splat(0)).to_bitmask();
    if zeros == 0 {
        return None;
    }
    Some(at + zeros.trailing_zeros() as usize)
}

// The first 0 of fewer than 4 bytes.
#[inline(always)]
fn zero_in_few(bytes: &[u8]) -> Option<usize>
    requires { length bytes.now < 4 }
    ensures { IsFirstByte (is_byte 0) bytes.now result }
{
    match bytes {
        [0, ..] => Some(0),
        [_, 0, ..] => Some(1),
        [_, _, 0, ..] => Some(2),
        _ => None,
    }
}

// The place of the first 0 of fewer than 16 bytes. Two looks that may overlap cover four or more. Names are checked first:
// many are empty or of one letter.
#[inline(always)]
fn zero_in_short(bytes: &[u8]) -> Option<usize>
    requires { length bytes.now < 16 }
    ensures { IsFirstByte (is_byte 0) bytes.now result }
{
    let len = bytes.len();
    if len < 4 {
        zero_in_few(bytes)
    } else if len < 8 {
        match zero_in_4(bytes, 0) {
            Some(at) => Some(at),
            None => zero_in_4(bytes, len - 4),
        }
    } else {
        match zero_in_8(bytes, 0) {
            Some(at) => Some(at),
            None => zero_in_8(bytes, len - 8),
        }
    }
}

// The same of 16 to 32 bytes.
#[inline(always)]
fn zero_in_middle(bytes: &[u8]) -> Option<usize>
    requires some { 16 ≤ length bytes.now }
    requires few { length bytes.now ≤ 32 }
    ensures { IsFirstByte (is_byte 0) bytes.now result }
{
    match zero_in_16(bytes, 0) {
        Some(at) => Some(at),
        None => zero_in_16(bytes, bytes.len() - 16),
    }
}

/// The place of the first 0 byte.
// perf: up to 64 bytes are covered by two overlapping loads.
#[inline]
pub fn first_zero(bytes: &[u8]) -> Option<usize>
    ensures { IsFirstByte (is_byte 0) bytes.now result }
{
    let len = bytes.len();
    if len < 16 {
        zero_in_short(bytes)
    } else if len < 32 {
        zero_in_middle(bytes)
    } else {
        match zero_in_32(bytes, 0) {
            Some(at) => Some(at),
            None if len <= 64 => zero_in_32(bytes, len - 32),
            None => memchr(0, bytes),
        }
    }
}

/// The place of the first 0 byte, where none is expected, as in a text that is to be written.
// perf: the length is checked before the first load, which mostly finds nothing.
#[inline]
pub fn stray_zero(bytes: &[u8]) -> Option<usize>
    ensures { IsFirstByte (is_byte 0) bytes.now result }
{
    let len = bytes.len();
    if len < 16 {
        zero_in_short(bytes)
    } else if len < 32 {
        zero_in_middle(bytes)
    } else if len <= 64 {
        match zero_in_32(bytes, 0) {
            Some(at) => Some(at),
            None => zero_in_32(bytes, len - 32),
        }
    } else {
        memchr(0, bytes)
    }
}
