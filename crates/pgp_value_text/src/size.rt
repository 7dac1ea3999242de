//! The size of a number as it is shown, with an exponent where it takes one.

ghost use Rattle.std.specs.Prelude.{◌≡◌, ◌≢◌, ℕ, ◌+◌, ◌-◌, ◌*◌, ◌^◌, ◌<◌, ◌≤◌, List, ◌++◌};
ghost use Rattle.std.specs.Fmt.{sign_text};
ghost use Rattle.arrayvec.specs.ArrayString.{array_string_len};
ghost use Rattle.pgp_value_text.specs.declared.size.Exponent.TheVariants.{Up, Down};
ghost use Rattle.pgp_value_text.specs.Float.{exponent_text, HasDigits, ShowsSize};
ghost use Rattle.pgp_value_text.specs.Tens.{exponent_part, shown_text};

use crate::digits::put;
use crate::rounded::{Pointed, plain, put_trimmed};
use crate::tens::rounded_off;
use arrayvec::ArrayString;
use itoa::Buffer;

/// The bytes of a sign, sixteen digits, a point and eighteen places, an exponent, and more.
pub(crate) const SIZE_LEN: usize = 64;

/// The exponent that is shown of a number.
#[derive(Clone, Copy)]
pub(crate) enum Exponent {
    Plain,
    Up(u32),
    Down(u32),
}

/// A number, and the power of ten by which it is to be multiplied.
#[derive(Clone, Copy)]
pub(crate) struct Shown {
    pub digits: Pointed,
    pub exponent: Exponent,
}

// An exponent of two digits, or as many as it takes.
#[tactic(auto, unfolding(crate::specs::Float::exponent_text))]
fn put_two<const N: usize>(n: u32, out: &mut ArrayString<N>)
    requires room { array_string_len out.old + 11 ≤ N }
    ensures { out.new.bytes ≡ out.old.bytes ++ exponent_text n }
{
    if n < 10 {
        put(b'0', out);
    }
    out.push_str(Buffer::new().format(n));
}

// What stands behind the digits.
fn put_exponent<const N: usize>(exponent: Exponent, out: &mut ArrayString<N>)
    requires room { array_string_len out.old + 13 ≤ N }
    ensures { out.new.bytes ≡ out.old.bytes ++ exponent_part exponent }
{
    match exponent {
        Exponent::Plain => {}
        Exponent::Up(n) => {
            out.push_str("e+");
            put_two(n, out);
        }
        Exponent::Down(n) => {
            out.push_str("e-");
            put_two(n, out);
        }
    }
}

/// A sign, and a number without zeros at the end of its places.
pub(crate) fn signed_text(negative: bool, v: Shown) -> ArrayString<SIZE_LEN>
    requires few { v.digits.places ≤ 18 }
    ensures { result.bytes ≡ sign_text negative ++ shown_text v }
{
    let mut out = ArrayString::new();
    if negative {
        put(b'-', &mut out);
    }
    put_trimmed(v.digits, &mut out);
    put_exponent(v.exponent, &mut out);
    out
}

// The exponent of one power of ten that is divided by another.
fn exponent_of(tens: u32, at: u32) -> Exponent
    ensures up { at < tens → result ≡ Up (tens - at) }
    ensures down { tens ≤ at → result ≡ Down (at - tens) }
{
    if at < tens {
        Exponent::Up(tens - at)
    } else {
        Exponent::Down(at - tens)
    }
}

// num * 10^18 * base^count / 10^at, which isn't shown without an exponent.
fn scientific(num: u64, base: u32, count: u32, at: u32, digits: u32) -> Shown
    requires some { (0 < num) × (0 < base) }
    requires small { (num < 2 ^ 53) × (base ≤ 5) × (count ≤ 1_080) }
    requires digits { (0 < digits) × (digits ≤ 15) }
    ensures shows { (a b : ℕ) → a ≢ 0 → 0 < b → a * 10 ^ at ≡ num * 10 ^ 18 * base ^ count * b → ((size : List ℕ) → HasDigits digits a b size → ⊥) → ShowsSize digits a b (shown_text result) }
    ensures few { result.digits.places ≤ 18 }
{
    let cut = rounded_off(num, base, count, digits);
    Shown {
        digits: Pointed {
            number: cut.number,
            places: digits - 1,
        },
        exponent: exponent_of(cut.tens + (digits - 1), at),
    }
}

// num * 2^up / 2^low, which isn't shown without an exponent.
fn moved(num: u64, up: u32, low: u32, digits: u32) -> Shown
    requires some { num ≢ 0 }
    requires small { (num < 2 ^ 53) × (low ≤ 1_074) × (up ≤ low + 1_080) }
    requires digits { (0 < digits) × (digits ≤ 15) }
    requires none { (size : List ℕ) → HasDigits digits (num * 2 ^ up) (2 ^ low) size → ⊥ }
    ensures shows { ShowsSize digits (num * 2 ^ up) (2 ^ low) (shown_text result) }
    ensures few { result.digits.places ≤ 18 }
{
    if low <= up {
        scientific(num, 2, up - low, 18, digits)
    } else {
        scientific(num, 5, low - up, 18 + (low - up), digits)
    }
}

/// The number that num * 2^up / 2^low is nearest to, with so many digits, as it is shown.
pub(crate) fn sized(num: u64, up: u32, low: u32, digits: u32) -> Shown
    requires small { (num < 2 ^ 53) × (low ≤ 1_074) × (up ≤ low + 1_080) }
    requires digits { (0 < digits) × (digits ≤ 15) }
    requires whole { num ≢ 0 → low ≤ up → 10 ^ digits ≤ num }
    ensures shows { ShowsSize digits (num * 2 ^ up) (2 ^ low) (shown_text result) }
    ensures few { result.digits.places ≤ 18 }
{
    match plain(num, up, low, digits) {
        Some(v) => Shown {
            digits: v,
            exponent: Exponent::Plain,
        },
        None => moved(num, up, low, digits),
    }
}
