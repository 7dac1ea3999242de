//! Decimal numbers that are integers.

ghost use Rattle.std.specs.Prelude.{◌≡◌, ◌+◌, ◌*◌, ◌<◌, ◌≤◌, ◌^◌, FitsSigned, SomeIff, drop, length, map};
ghost use Rattle.std.specs.Int.{w64, w128};
ghost use Rattle.pgp_values.specs.Amount.{spelled, before_point};
ghost use Rattle.pgp_values.specs.Decimal.{finite};
ghost use Rattle.pgp_values.specs.DecimalSeen.{said};
ghost use Rattle.pgp_values.specs.DecimalWriting.{digit_value};
ghost use Rattle.pgp_values.specs.Integer.{with_sign, ReadsInteger, IntegerMeans};
ghost use Rattle.pgp_values.specs.IntegerReading.{whole_value, HasDigitFrom};
ghost use Rattle.pgp_values.specs.NumberMeaning.{WritesMeant};

use crate::decimal::Decimal;
use crate::error::NumericError;
use crate::groups::{groups_of, groups_to_sql};
use crate::numeric::Numeric;
use crate::written::Written;
use pgp_base::Buffer;
use std::{error, fmt};

/// Why a `numeric` is no integer of a type.
#[derive(Debug, Clone, Copy, PartialEq, Eq)]
pub enum IntegerError {
    /// It is `NaN` or an infinity.
    NotFinite,
    /// A digit after the point isn't 0.
    Fraction,
    /// It is an integer that the type doesn't hold.
    OutOfRange,
}

/// Its name, as `Debug` writes it.
impl fmt::Display for IntegerError {
    fn fmt<W: fmt::Write>(&self, f: &mut fmt::Formatter<W>) -> fmt::Result {
        fmt::Debug::fmt(self, f)
    }
}

impl error::Error for IntegerError {}

// How many digits to the base 10,000 stand before the point.
fn whole_len(d: &Decimal<'_>) -> usize
    ensures value { 4 * result ≡ before_point d.now.weight }
    ensures small { result ≤ 2 ^ 15 }
{
    if d.weight() < 0 {
        return 0;
    }
    d.weight() as usize + 1
}

// Whether a digit after so many isn't 0.
fn has_digit_from(d: &Decimal<'_>, from: usize) -> bool
    ensures { HasDigitFrom from d.now.digits result }
{
    for i in from..d.len() as usize {
        if d.digit(i) != 0 {
            return true;
        }
    }
    false
}

// A number with one digit more.
fn with_digit(value: u128, digit: u16) -> Option<u128>
    ensures { SomeIff result (value * 10000 + digit < 2 ^ 128) (value * 10000 + digit) }
{
    match value.checked_mul(10_000) {
        Some(front) => front.checked_add(digit as u128),
        None => None,
    }
}

// What so many digits spell.
fn whole_value(d: &Decimal<'_>, len: usize) -> Option<u128>
    ensures { SomeIff result (whole_value d.now.digits len < 2 ^ 128) (whole_value d.now.digits len) }
{
    let mut value = 0u128;
    for i in 0..len {
        match with_digit(value, d.digit(i)) {
            Some(more) => value = more,
            None => return None,
        }
    }
    Some(value)
}

// A number with its sign.
fn with_sign(negative: bool, magnitude: u128) -> Option<i128>
    ensures { SomeIff result (FitsSigned w128 (with_sign negative magnitude)) (with_sign negative magnitude) }
{
    if negative {
        0i128.checked_sub_unsigned(magnitude)
    } else {
        0i128.checked_add_unsigned(magnitude)
    }
}

// The integer that a number with an end is.
fn decimal_to_i128(d: &Decimal<'_>) -> Result<i128, IntegerError>
    ensures { ReadsInteger (FitsSigned w128) (finite d.now) result }
{
    let len = whole_len(d);
    d.has_digits();
    if has_digit_from(d, len) {
        return Err(IntegerError::Fraction);
    }
    let Some(magnitude) = whole_value(d, len) else {
        return Err(IntegerError::OutOfRange);
    };
    match with_sign(d.is_negative(), magnitude) {
        Some(n) => Ok(n),
        None => Err(IntegerError::OutOfRange),
    }
}

/// The integer that a `numeric` is, whatever its scale.
///
/// # Errors
///
/// Returns `NotFinite` for `NaN` and the infinities; `Fraction` if a digit after the point isn't 0; `OutOfRange` if an
/// `i128` doesn't hold the integer.
pub fn numeric_to_i128(v: &Numeric<'_>) -> Result<i128, IntegerError>
    ensures { ReadsInteger (FitsSigned w128) (said v.now) result }
{
    match v {
        Numeric::Finite(d) => decimal_to_i128(d),
        _ => Err(IntegerError::NotFinite),
    }
}

/// The integer that a `numeric` is, whatever its scale.
///
/// # Errors
///
/// As those of `numeric_to_i128`, for an `i64`.
pub fn numeric_to_i64(v: &Numeric<'_>) -> Result<i64, IntegerError>
    ensures { ReadsInteger (FitsSigned w64) (said v.now) result }
{
    match numeric_to_i128(v) {
        Ok(n) => match i64::try_from(n) {
            Ok(small) => Ok(small),
            Err(_) => Err(IntegerError::OutOfRange),
        },
        Err(e) => Err(e),
    }
}

// The most decimal digits of an `i128`.
const MOST_DIGITS: usize = 39;

// Puts a number's decimal digits at the end of the array: the place of the first.
fn put_digits(n: u128, digits: &mut [u8]) -> usize
    requires { length digits.old ≡ 39 }
    ensures value { spelled 10 (map digit_value (drop result digits.new)) ≡ n }
    ensures inside { result ≤ 39 }
    ensures len { length digits.new ≡ 39 }
{
    let mut rest = n;
    let mut at = MOST_DIGITS;
    while rest != 0 {
        at -= 1;
        digits[at] = b'0' + (rest % 10) as u8;
        rest /= 10;
    }
    at
}

// Appends the number that so few decimal digits spell.
fn whole_to_sql<B: Buffer>(negative: bool, digits: &[u8], buf: &mut B) -> Result<(), NumericError>
    requires { length digits.now ≤ 39 }
    ensures { WritesMeant (IntegerMeans (with_sign negative (spelled 10 (map digit_value digits.now)))) (λ e. ⊥) B.Lacks (B.held buf.old) result (B.held buf.new) }
{
    let w = Written {
        negative,
        whole: digits,
        fraction: &[],
        divided: false,
        exponent: 0,
    };
    let Ok(g) = groups_of(&w) else { unreachable!() };
    match groups_to_sql(&w, &g, buf) {
        Ok(()) => Ok(()),
        Err(_) => Err(NumericError::OutOfMemory),
    }
}

/// Appends the `numeric` that is this integer, with no places after the point.
///
/// # Errors
///
/// Returns `OutOfMemory` if the buffer can't grow; on error the buffer is unchanged.
pub fn numeric_i128_to_sql<B: Buffer>(n: i128, buf: &mut B) -> Result<(), NumericError>
    ensures { WritesMeant (IntegerMeans n) (λ e. ⊥) B.Lacks (B.held buf.old) result (B.held buf.new) }
{
    let mut digits = [b'0'; MOST_DIGITS];
    let at = put_digits(n.unsigned_abs(), &mut digits);
    whole_to_sql(n < 0, &digits[at..], buf)
}

/// Appends the `numeric` that is this integer, with no places after the point.
///
/// # Errors
///
/// As those of `numeric_i128_to_sql`.
pub fn numeric_i64_to_sql<B: Buffer>(n: i64, buf: &mut B) -> Result<(), NumericError>
    ensures { WritesMeant (IntegerMeans n) (λ e. ⊥) B.Lacks (B.held buf.old) result (B.held buf.new) }
{
    numeric_i128_to_sql(i128::from(n), buf)
}
