//! A number as a text reports it: its decimal digits.

ghost use Rattle.std.specs.Prelude.{◌≡◌, ◌≢◌, ◌+◌, ◌++◌, ◌<◌, ◌≤◌, get_or, length, map, IfOk, IfErr};
ghost use Rattle.pgp_values.specs.DecimalWriting.{digit_value};
ghost use Rattle.pgp_values.specs.NumberGroups.{NoneFrom, IsFirst};
ghost use Rattle.pgp_values.specs.NumberScan.{WrittenRefused};
ghost use Rattle.pgp_values.specs.NumberText.{NumberText};

use crate::error::NumericError;
use crate::scan::{digit_of, digits_at, exponent_at, fraction_at, sign_at};

// A number as a text reports it: its decimal digits before and after the point, and the power of ten that it
// is multiplied or divided by.
#[derive(Clone, Copy)]
pub struct Written<'a> {
    pub negative: bool,
    pub whole: &'a [u8],
    pub fraction: &'a [u8],
    pub divided: bool,
    pub exponent: usize,
}

// The number that all of the bytes tell.
pub fn written_of(bytes: &[u8]) -> Result<Written<'_>, NumericError>
    requires { length bytes.now < 1073741823 }
    ensures text { IfOk result (λ w. NumberText bytes.now w.negative w.whole.now w.fraction.now w.divided w.exponent) }
    ensures few { IfOk result (λ w. length w.whole.now + length w.fraction.now < 1073741823) }
    ensures small { IfOk result (λ w. w.exponent < 1073741823) }
    ensures refused { IfErr result (WrittenRefused bytes.now) }
{
    let (negative, rest) = sign_at(bytes);
    let (whole, rest) = digits_at(rest);
    let (fraction, rest) = fraction_at(rest);
    if whole.is_empty() && fraction.is_empty() {
        return Err(NumericError::InvalidText);
    }
    let (divided, exponent) = exponent_at(rest)?;
    Ok(Written {
        negative,
        whole,
        fraction,
        divided,
        exponent,
    })
}

// The decimal digit at this index; 0 after the last.
pub fn digit_at(w: &Written<'_>, index: usize) -> u16
    ensures value { result ≡ get_or (map digit_value (w.now.whole.now ++ w.now.fraction.now)) index 0 }
    ensures small { result < 10 }
{
    if index < w.whole.len() {
        return digit_of(w.whole[index]);
    }
    let index = index - w.whole.len();
    if index < w.fraction.len() {
        return digit_of(w.fraction[index]);
    }
    0
}

// How many decimal digits there are.
fn count_of(w: &Written<'_>) -> usize
    requires { length w.now.whole.now + length w.now.fraction.now < 1073741823 }
    ensures { result ≡ length w.now.whole.now + length w.now.fraction.now }
{
    w.whole.len() + w.fraction.len()
}

// The place of the first digit that isn't 0.
pub fn first_of(w: &Written<'_>) -> Option<usize>
    requires { length w.now.whole.now + length w.now.fraction.now < 1073741823 }
    ensures { IsFirst (map digit_value (w.now.whole.now ++ w.now.fraction.now)) result }
{
    for i in 0..count_of(w) {
        if digit_at(w, i) != 0 {
            return Some(i);
        }
    }
    None
}

// The place of the last digit that isn't 0; at `first` stands one.
pub fn last_of(w: &Written<'_>, first: usize) -> usize
    requires few { length w.now.whole.now + length w.now.fraction.now < 1073741823 }
    requires inside { first < length w.now.whole.now + length w.now.fraction.now }
    requires some { get_or (map digit_value (w.now.whole.now ++ w.now.fraction.now)) first 0 ≢ 0 }
    ensures some { get_or (map digit_value (w.now.whole.now ++ w.now.fraction.now)) result 0 ≢ 0 }
    ensures inside { (first ≤ result) × (result < length w.now.whole.now + length w.now.fraction.now) }
    ensures last { NoneFrom result (map digit_value (w.now.whole.now ++ w.now.fraction.now)) }
{
    for i in 0..count_of(w) - first {
        let at = count_of(w) - 1 - i;
        if digit_at(w, at) != 0 {
            return at;
        }
    }
    first
}
