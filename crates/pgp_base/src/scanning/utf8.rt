//! Bytes as text: ASCII is looked at many bytes at a time, and only the rest is read by characters.

ghost use Rattle.std.specs.Prelude.{◌≡◌, ◌↔◌, ◌+◌, ◌≤◌, ◌<◌, length, IsTrue, IsUtf8};
ghost use Rattle.pgp_base.specs.Ascii.{AreAscii};

use crate::scanning::ascii::{
    BLOCK_LEN, PAIR_LEN, SHORT_LEN, are_ascii, are_ascii_64, are_ascii_from, are_ascii_short,
    ascii_end, ascii_front, is_dense,
};
use crate::scanning::characters::are_characters;
use simdutf8::is_utf8;

// From this length on a text of which much isn't ASCII is read by lanes: that costs as much for fewer bytes.
const DENSE_LEN: usize = 64;

// Whether the bytes are text, by lanes.
#[inline(never)]
fn is_dense_text(bytes: &[u8]) -> bool
    ensures { IsTrue result ↔ IsUtf8 bytes.now }
{
    is_utf8(bytes)
}

// Whether the bytes are text, of which one is near that isn't ASCII.
#[inline(never)]
fn is_mixed_text(bytes: &[u8]) -> bool
    ensures { IsTrue result ↔ IsUtf8 bytes.now }
{
    if DENSE_LEN <= bytes.len() && is_dense(&bytes[ascii_front(bytes)..]) {
        return is_dense_text(bytes);
    }
    are_characters(bytes)
}

// Whether the bytes are text, where those before `at` are ASCII.
#[inline(always)]
fn is_text_past(bytes: &[u8], at: usize) -> bool
    requires within { at ≤ length bytes.now }
    requires front { AreAscii bytes.now 0 at }
    ensures { IsTrue result ↔ IsUtf8 bytes.now }
{
    is_mixed_text(&bytes[at..])
}

// Whether the bytes are text, where those before `at` are ASCII, and 64 to 128 are left.
#[inline(never)]
fn is_text_near(bytes: &[u8], at: usize) -> bool
    requires short { length bytes.now ≤ at + PAIR_LEN }
    requires long { at + BLOCK_LEN ≤ length bytes.now }
    requires front { AreAscii bytes.now 0 at }
    ensures { IsTrue result ↔ IsUtf8 bytes.now }
{
    is_text_past(bytes, ascii_end(bytes, at))
}

// Whether the bytes are text, of which there are more than one look shows.
fn is_long_text(bytes: &[u8]) -> bool
    requires { BLOCK_LEN < length bytes.now }
    ensures { IsTrue result ↔ IsUtf8 bytes.now }
{
    let len = bytes.len();
    let mut at = 0;
    'lanes: while PAIR_LEN < len - at {
        if !are_ascii_64(bytes, at) {
            return is_text_past(bytes, at);
        }
        at += BLOCK_LEN;
    }
    are_ascii_from(bytes, at) || is_text_near(bytes, at)
}

/// Whether the bytes are UTF-8. ASCII is read many bytes at a time.
// perf: short texts are the most, so they are checked first.
pub fn is_text(bytes: &[u8]) -> bool
    ensures { IsTrue result ↔ IsUtf8 bytes.now }
{
    if bytes.len() < SHORT_LEN {
        return are_ascii_short(bytes) || is_mixed_text(bytes);
    }
    if 128 <= bytes[0] {
        return is_mixed_text(bytes);
    }
    if BLOCK_LEN < bytes.len() {
        return is_long_text(bytes);
    }
    are_ascii(bytes) || is_mixed_text(bytes)
}
