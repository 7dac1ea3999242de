//! Bytes as characters of UTF-8, one after the other.

ghost use Rattle.std.specs.Prelude.{◌↔◌, ◌<◌, ◌≤◌, length, slice_index, IsTrue, IsUtf8, MatchOption};
ghost use Rattle.std.specs.Str.{StartsWithNoChar};
ghost use Rattle.pgp_base.specs.Characters.{Follows, AreTwo, AreThree, AreFour, BeginsText};

use crate::scanning::ascii::ascii_front;

// Fewer bytes aren't worth a look.
const SHORT_LEN: usize = 4;

// The byte goes on with a character.
#[inline(always)]
fn follows(byte: u8) -> bool
    ensures { IsTrue result ↔ Follows byte }
{
    (0x80 <= byte) & (byte < 0xC0)
}

// The bytes are a character of two.
#[inline(always)]
fn are_two(a: u8, b: u8) -> bool
    ensures { IsTrue result ↔ AreTwo a b }
{
    (0xC2 <= a) & (a < 0xE0) & follows(b)
}

// The bytes are a character of three: no overlong form, and no surrogate.
#[inline(always)]
fn are_three(a: u8, b: u8, c: u8) -> bool
    ensures { IsTrue result ↔ AreThree a b c }
{
    (0xE0 <= a)
        & (a < 0xF0)
        & follows(b)
        & follows(c)
        & (a != 0xE0 || 0xA0 <= b)
        & (a != 0xED || b < 0xA0)
}

// The bytes are a character of four: no overlong form, and none past the last.
#[inline(always)]
fn are_four(a: u8, b: u8, c: u8, d: u8) -> bool
    ensures { IsTrue result ↔ AreFour a b c d }
{
    (0xF0 <= a)
        & (a < 0xF5)
        & follows(b)
        & follows(c)
        & follows(d)
        & (a != 0xF0 || 0x90 <= b)
        & (a != 0xF4 || b < 0x90)
}

// How many bytes at the front are ASCII, as far as two looks show, where the first is.
#[inline(always)]
fn ascii_len(bytes: &[u8]) -> usize
    requires some { 0 < length bytes.now }
    requires ascii { slice_index bytes.now 0 < 128 }
    ensures { BeginsText bytes.now result }
{
    if bytes.len() < SHORT_LEN {
        return 1;
    }
    let len = ascii_front(bytes);
    if len == 0 { 1 } else { len }
}

// The length of the character at the front, by its first byte: two.
#[inline(always)]
fn two_len(bytes: &[u8]) -> Option<usize>
    requires low { 128 ≤ slice_index bytes.now 0 }
    requires high { slice_index bytes.now 0 < 224 }
    ensures { MatchOption result (StartsWithNoChar bytes.now) (λ n. BeginsText bytes.now n) }
{
    match bytes {
        [a, b, ..] if are_two(*a, *b) => Some(2),
        _ => None,
    }
}

// The same: three.
#[inline(always)]
fn three_len(bytes: &[u8]) -> Option<usize>
    requires low { 224 ≤ slice_index bytes.now 0 }
    requires high { slice_index bytes.now 0 < 240 }
    ensures { MatchOption result (StartsWithNoChar bytes.now) (λ n. BeginsText bytes.now n) }
{
    match bytes {
        [a, b, c, ..] if are_three(*a, *b, *c) => Some(3),
        _ => None,
    }
}

// The same: four.
#[inline(always)]
fn four_len(bytes: &[u8]) -> Option<usize>
    requires { 240 ≤ slice_index bytes.now 0 }
    ensures { MatchOption result (StartsWithNoChar bytes.now) (λ n. BeginsText bytes.now n) }
{
    match bytes {
        [a, b, c, d, ..] if are_four(*a, *b, *c, *d) => Some(4),
        _ => None,
    }
}

// The length of some text at the front: of ASCII, as far as two looks show, or of one character.
#[inline(always)]
fn front_len(bytes: &[u8]) -> Option<usize>
    requires { 0 < length bytes.now }
    ensures { MatchOption result (StartsWithNoChar bytes.now) (λ n. BeginsText bytes.now n) }
{
    let first = bytes[0];
    if first < 0x80 {
        Some(ascii_len(bytes))
    } else if first < 0xE0 {
        two_len(bytes)
    } else if first < 0xF0 {
        three_len(bytes)
    } else {
        four_len(bytes)
    }
}

/// Whether the bytes are characters to their end.
#[inline(always)]
pub(crate) fn are_characters(bytes: &[u8]) -> bool
    ensures { IsTrue result ↔ IsUtf8 bytes.now }
{
    let mut at = 0;
    'fronts: while at < bytes.len() {
        match front_len(&bytes[at..]) {
            Some(len) => at += len,
            None => return false,
        }
    }
    true
}
