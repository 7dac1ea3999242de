//! Floating-point numbers.

ghost use Rattle.std.specs.Prelude.{◌≡◌, ◌≢◌, ◌+◌, ◌*◌, ◌^◌, ◌<◌, ◌≤◌, true, false, from_bits, is_nan, length};
ghost use Rattle.std.specs.Float.{binary32, binary64, float_is_finite};
ghost use Rattle.std.specs.Float.Parse.{parse_float};
ghost use Rattle.pgp_types.specs.Scalar.{float4, float8};
ghost use Rattle.pgp_value_text.specs.Float.{field_value, is_equal, marked, ShowsFloat};
ghost use Rattle.pgp_value_text.specs.ValueText.{Shows, Tells};
ghost use lib.Ieee.Exact.{HasValue};

use crate::digits::put as put_byte;
use crate::put::put;
use crate::size::{signed_text, sized};
use arrayvec::ArrayString;
use bytes::BytesMut;
use pgp_base::Memory;
use pgp_types::{float4_from_sql, float8_from_sql};
use std::alloc::AllocError;

// The bytes of a text with its mark, and more.
const MARKED_LEN: usize = 65;

// What the fields of the exponent and of the digits say.
fn fields(exponent: u32, digits: u64, lead: u64) -> (u64, u32)
    requires { digits + lead < 2 ^ 64 }
    ensures value { result ≡ field_value exponent digits lead }
    ensures moved { result.1 ≤ exponent }
{
    if exponent == 0 {
        (digits, 0)
    } else {
        (lead + digits, exponent - 1)
    }
}

// A text, with a mark where it isn't read as the number itself.
fn marked_text(exact: bool, shown: &str) -> ArrayString<MARKED_LEN>
    requires { length shown.now ≤ 64 }
    ensures { result.bytes ≡ marked exact shown.now }
{
    let mut out = ArrayString::new();
    if !exact {
        put_byte(b'~', &mut out);
    }
    out.push_str(shown);
    out
}

// Whether a text is read as this number.
fn is_double(text: &str, x: f64) -> bool
    ensures { result ≡ is_equal (parse_float binary64 text.now) x }
{
    match text.parse::<f64>() {
        Ok(y) => y == x,
        Err(_) => false,
    }
}

// Adds the text of a number of 64 bits, given as num * 2^up / 2^1074.
fn put_sized_double<A: Memory>(
    x: f64,
    negative: bool,
    num: u64,
    up: u32,
    text: &mut BytesMut<A>,
) -> Result<bool, AllocError>
    requires value { HasValue x negative (num * 2 ^ up) (2 ^ 1074) }
    requires small { num < 2 ^ 53 }
    requires moved { up ≤ 2_048 }
    requires whole { num ≢ 0 → 1074 ≤ up → 10 ^ 15 ≤ num }
    ensures { Tells (ShowsFloat binary64 x) A.Lacks text.old.items text.new.items result }
{
    let shown = signed_text(negative, sized(num, up, 1074, 15));
    let marked = marked_text(is_double(shown.as_str(), x), shown.as_str());
    put(marked.as_str(), text)
}

// Adds the text of a finite number of 64 bits.
fn put_finite_double<A: Memory>(
    x: f64,
    bits: u64,
    text: &mut BytesMut<A>,
) -> Result<bool, AllocError>
    requires is { x ≡ from_bits binary64 bits }
    requires finite { float_is_finite x ≡ true }
    ensures { Tells (ShowsFloat binary64 x) A.Lacks text.old.items text.new.items result }
{
    let exponent = bits % 0x8000_0000_0000_0000 / 0x10_0000_0000_0000;
    let (num, up) = fields(
        exponent as u32,
        bits % 0x10_0000_0000_0000,
        0x10_0000_0000_0000,
    );
    put_sized_double(x, bits >= 0x8000_0000_0000_0000, num, up, text)
}

// Adds the text of 64 bits that are a number's.
fn put_double<A: Memory>(x: f64, bits: u64, text: &mut BytesMut<A>) -> Result<bool, AllocError>
    requires is { x ≡ from_bits binary64 bits }
    requires number { is_nan x ≡ false }
    ensures { Tells (ShowsFloat binary64 x) A.Lacks text.old.items text.new.items result }
{
    if x.is_finite() {
        put_finite_double(x, bits, text)
    } else if x.is_sign_negative() {
        put("-Infinity", text)
    } else {
        put("Infinity", text)
    }
}

/// Adds the text of 64 bits, which may be no number's.
pub(crate) fn put_double_bits<A: Memory>(
    bits: u64,
    text: &mut BytesMut<A>,
) -> Result<bool, AllocError>
    ensures { Tells (ShowsFloat binary64 (from_bits binary64 bits)) A.Lacks text.old.items text.new.items result }
{
    if bits % 0x8000_0000_0000_0000 > 0x7ff0_0000_0000_0000 {
        put("NaN", text)
    } else {
        put_double(f64::from_bits(bits), bits, text)
    }
}

/// Adds the text of a `float8`.
pub(crate) fn put_float8<A: Memory>(
    bytes: &[u8],
    text: &mut BytesMut<A>,
) -> Result<bool, AllocError>
    ensures { Tells (Shows float8 (λ bits. ShowsFloat binary64 (from_bits binary64 bits)) bytes.now) A.Lacks text.old.items text.new.items result }
{
    match float8_from_sql(bytes) {
        Ok(bits) => put_double_bits(bits, text),
        Err(_) => Ok(false),
    }
}

// Whether a text is read as this number.
fn is_single(text: &str, x: f32) -> bool
    ensures { result ≡ is_equal (parse_float binary32 text.now) x }
{
    match text.parse::<f32>() {
        Ok(y) => y == x,
        Err(_) => false,
    }
}

// Adds the text of a number of 32 bits, given as num * 2^up / 2^149.
fn put_sized_single<A: Memory>(
    x: f32,
    negative: bool,
    num: u64,
    up: u32,
    text: &mut BytesMut<A>,
) -> Result<bool, AllocError>
    requires value { HasValue x negative (num * 2 ^ up) (2 ^ 149) }
    requires small { num < 2 ^ 53 }
    requires moved { up ≤ 256 }
    requires whole { num ≢ 0 → 149 ≤ up → 10 ^ 6 ≤ num }
    ensures { Tells (ShowsFloat binary32 x) A.Lacks text.old.items text.new.items result }
{
    let shown = signed_text(negative, sized(num, up, 149, 6));
    let marked = marked_text(is_single(shown.as_str(), x), shown.as_str());
    put(marked.as_str(), text)
}

// Adds the text of a finite number of 32 bits.
fn put_finite_single<A: Memory>(
    x: f32,
    bits: u32,
    text: &mut BytesMut<A>,
) -> Result<bool, AllocError>
    requires is { x ≡ from_bits binary32 bits }
    requires finite { float_is_finite x ≡ true }
    ensures { Tells (ShowsFloat binary32 x) A.Lacks text.old.items text.new.items result }
{
    let (num, up) = fields(
        bits % 0x8000_0000 / 0x80_0000,
        u64::from(bits % 0x80_0000),
        0x80_0000,
    );
    put_sized_single(x, bits >= 0x8000_0000, num, up, text)
}

// Adds the text of 32 bits that are a number's.
fn put_single<A: Memory>(x: f32, bits: u32, text: &mut BytesMut<A>) -> Result<bool, AllocError>
    requires is { x ≡ from_bits binary32 bits }
    requires number { is_nan x ≡ false }
    ensures { Tells (ShowsFloat binary32 x) A.Lacks text.old.items text.new.items result }
{
    if x.is_finite() {
        put_finite_single(x, bits, text)
    } else if x.is_sign_negative() {
        put("-Infinity", text)
    } else {
        put("Infinity", text)
    }
}

// Adds the text of 32 bits, which may be no number's.
fn put_single_bits<A: Memory>(bits: u32, text: &mut BytesMut<A>) -> Result<bool, AllocError>
    ensures { Tells (ShowsFloat binary32 (from_bits binary32 bits)) A.Lacks text.old.items text.new.items result }
{
    if bits % 0x8000_0000 > 0x7f80_0000 {
        put("NaN", text)
    } else {
        put_single(f32::from_bits(bits), bits, text)
    }
}

/// Adds the text of a `float4`.
pub(crate) fn put_float4<A: Memory>(
    bytes: &[u8],
    text: &mut BytesMut<A>,
) -> Result<bool, AllocError>
    ensures { Tells (Shows float4 (λ bits. ShowsFloat binary32 (from_bits binary32 bits)) bytes.now) A.Lacks text.old.items text.new.items result }
{
    match float4_from_sql(bytes) {
        Ok(bits) => put_single_bits(bits, text),
        Err(_) => Ok(false),
    }
}
