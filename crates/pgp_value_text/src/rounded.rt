//! Fractions, rounded to so many digits, and their texts.

ghost use Rattle.std.specs.Prelude.{◌≡◌, ◌≢◌, ℕ, ◌+◌, ◌*◌, ◌^◌, ◌<◌, ◌≤◌, List, ◌++◌, IfNone, IfSome};
ghost use Rattle.arrayvec.specs.ArrayString.{array_string_len};
ghost use Rattle.pgp_value_text.specs.Float.{last_digits, pointed, scaled, trimmed, HasDigits, IsPlaces, ShowsSize};
ghost use lib.Ieee.Nearest.{closest};

use crate::digits::put;
use arrayvec::ArrayString;
use itoa::Buffer;

/// A number with so many of its digits after the point.
#[derive(Clone, Copy)]
pub(crate) struct Pointed {
    pub number: u64,
    pub places: u32,
}

/// A fraction to the nearest whole number, of two to the even one.
pub(crate) fn closest(num: u128, den: u128) -> u128
    requires some { 0 < den }
    requires small { (num < 2 ^ 126) × (den < 2 ^ 126) }
    ensures { result ≡ closest num den }
{
    let (whole, rest) = (num / den, num % den * 2);
    if rest < den {
        whole
    } else if rest == den {
        whole + whole % 2
    } else {
        whole + 1
    }
}

// num / 2^shift with so many places, to the nearest.
fn scaled(num: u64, shift: u32, places: u32) -> u128
    requires small { (num < 2 ^ 53) × (shift ≤ 120) × (places ≤ 19) }
    ensures { result ≡ scaled num (2 ^ shift) places }
{
    closest(u128::from(num) * 10u128.pow(places), 2u128.pow(shift))
}

// The number that num / 2^shift is nearest to, with the most places with which it has no more than so many digits; none if it is below 0.0001, or more digits
// stand before the point.
fn rounded(num: u64, shift: u32, digits: u32) -> Option<Pointed>
    requires small { (num < 2 ^ 53) × (shift ≤ 120) × (digits ≤ 15) }
    ensures some { IfSome result (λ x. (x.places ≤ 18) × HasDigits digits num (2 ^ shift) (trimmed x.places x.number)) }
    ensures none { IfNone result ((size : List ℕ) → HasDigits digits num (2 ^ shift) size → ⊥) }
{
    let limit = 10u128.pow(digits);
    if scaled(num, shift, digits + 4) < limit {
        return None;
    }
    'places: for back in 0..digits + 4 {
        let places = digits + 3 - back;
        let number = scaled(num, shift, places);
        if number < limit {
            return Some(Pointed {
                number: number as u64,
                places,
            });
        }
    }
    None
}

// Without zeros at the end of the places.
fn shortened(v: Pointed) -> Pointed
    ensures same { pointed result.places result.number ≡ trimmed v.places v.number }
    ensures fewer { result.places ≤ v.places }
{
    let mut number = v.number;
    let mut places = v.places;
    'zeros: for _ in 0..v.places {
        if number % 10 != 0 {
            return Pointed { number, places };
        }
        number /= 10;
        places -= 1;
    }
    Pointed { number, places }
}

// The last digits of a number.
#[tactic(auto, using(crate::proofs::Rounding::tens_pos))]
fn put_last<const N: usize>(places: u32, number: u64, out: &mut ArrayString<N>)
    requires few { places ≤ 18 }
    requires room { array_string_len out.old + places ≤ N }
    ensures text { out.new.bytes ≡ out.old.bytes ++ last_digits places number }
    ensures len { array_string_len out.new ≡ array_string_len out.old + places }
{
    'digits: for back in 0..places {
        put(48 + (number / 10u64.pow(places - 1 - back) % 10) as u8, out);
    }
}

// A number with its point.
#[tactic(auto, using(crate::proofs::Rounding::tens_pos))]
fn put_pointed<const N: usize>(v: Pointed, out: &mut ArrayString<N>)
    requires few { v.places ≤ 18 }
    requires room { array_string_len out.old + 40 ≤ N }
    ensures text { out.new.bytes ≡ out.old.bytes ++ pointed v.places v.number }
    ensures len { array_string_len out.new ≤ array_string_len out.old + 40 }
{
    if v.places == 0 {
        out.push_str(Buffer::new().format(v.number));
    } else {
        out.push_str(Buffer::new().format(v.number / 10u64.pow(v.places)));
        put(b'.', out);
        put_last(v.places, v.number, out);
    }
}

/// Adds a number without zeros at the end of its places.
pub(crate) fn put_trimmed<const N: usize>(v: Pointed, out: &mut ArrayString<N>)
    requires few { v.places ≤ 18 }
    requires room { array_string_len out.old + 40 ≤ N }
    ensures text { out.new.bytes ≡ out.old.bytes ++ trimmed v.places v.number }
    ensures len { array_string_len out.new ≤ array_string_len out.old + 40 }
{
    put_pointed(shortened(v), out);
}

/// The number that num * 2^up / 2^low is nearest to, with so many digits, if it is shown without an exponent.
pub(crate) fn plain(num: u64, up: u32, low: u32, digits: u32) -> Option<Pointed>
    requires small { (num < 2 ^ 53) × (digits ≤ 15) }
    requires whole { num ≢ 0 → low ≤ up → 10 ^ digits ≤ num }
    ensures some { IfSome result (λ x. (x.places ≤ 18) × ShowsSize digits (num * 2 ^ up) (2 ^ low) (trimmed x.places x.number)) }
    ensures none { IfNone result ((num ≢ 0) × ((size : List ℕ) → HasDigits digits (num * 2 ^ up) (2 ^ low) size → ⊥)) }
{
    if num == 0 {
        return Some(Pointed {
            number: 0,
            places: 0,
        });
    }
    if up >= low {
        return None;
    }
    if low - up > 120 {
        return None;
    }
    rounded(num, low - up, digits)
}
