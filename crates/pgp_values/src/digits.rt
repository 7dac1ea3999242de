//! Decimal numbers that are written from their digits.
#![tactic(auto, using(pgp_base::proofs::Parts::held_steps))]

ghost use Rattle.std.specs.Prelude.{◌≡◌, ◌<◌, ◌^◌, length, None, OnOk, OnErr, IfErr};
ghost use Rattle.pgp_base.specs.Cause.{Wants, WantsMemory, Writes};
ghost use Rattle.pgp_base.specs.Held.{◌⊕◌, IsFrontOf};
ghost use Rattle.pgp_values.specs.Decimal.{finite, numeric_bytes};
ghost use Rattle.pgp_values.specs.DecimalDigits.{decimal_of, WritesDecimal};
ghost use Rattle.pgp_values.specs.DecimalReading.{all_small};

use crate::codec::put_numbers;
use crate::error::NumericError;
use crate::numeric::{BASE, MAX_SCALE, parts_to_sql, sign_of};
use pgp_base::{Buffer, Error};

// Whether each is a digit to the base 10,000.
fn are_small(digits: &[u16]) -> bool
    ensures { result ≡ all_small digits.now }
{
    let mut rest = digits;
    'digits: while let [digit, behind @ ..] = rest {
        if *digit >= BASE {
            return false;
        }
        rest = behind;
    }
    true
}

// Appends the number. An error leaves what stood there as a front.
fn put_decimal<B: Buffer>(
    negative: bool,
    weight: i16,
    scale: u16,
    digits: &[u16],
    buf: &mut B,
) -> Result<(), Error>
    requires { length digits.now < 2 ^ 16 }
    ensures ok { OnOk result (B.held buf.new ≡ B.held buf.old ⊕ numeric_bytes (finite (decimal_of negative weight scale digits.now))) }
    ensures err { OnErr result (IsFrontOf (B.held buf.old) (B.held buf.new)) }
    ensures cause { IfErr result (WantsMemory (Wants B.Lacks (B.held buf.old) (length (numeric_bytes (finite (decimal_of negative weight scale digits.now)))))) }
{
    let count = digits.len() as u16;
    match parts_to_sql(count, weight, sign_of(negative), scale, &[], buf) {
        Ok(()) => put_numbers(digits, buf),
        Err(e) => Err(e),
    }
}

// Appends the number, or leaves the buffer's bytes.
fn decimal_to_sql<B: Buffer>(
    negative: bool,
    weight: i16,
    scale: u16,
    digits: &[u16],
    buf: &mut B,
) -> Result<(), Error>
    requires { length digits.now < 2 ^ 16 }
    ensures { Writes (numeric_bytes (finite (decimal_of negative weight scale digits.now))) None B.Lacks (B.held buf.old) (B.held buf.new) result }
{
    let start = buf.len();
    match put_decimal(negative, weight, scale, digits, buf) {
        Ok(()) => Ok(()),
        Err(e) => {
            buf.truncate(start);
            Err(e)
        }
    }
}

/// Appends the `numeric` with an end that has these digits to the base 10,000, of which the first counts 10,000 to the power `weight`, and
/// shows as many decimal places after the point as `scale`. They are written as they are: a server drops zeros at either end of the
/// digits, and what the scale doesn't show.
///
/// # Errors
///
/// Returns `InvalidScale` if the scale exceeds 16,383; `OutOfRange` if there are more than 65,535 digits; `InvalidDigit` if one exceeds
/// 9,999; `OutOfMemory` if the buffer can't grow. On error the buffer is unchanged.
pub fn numeric_digits_to_sql<B: Buffer>(
    negative: bool,
    weight: i16,
    scale: u16,
    digits: &[u16],
    buf: &mut B,
) -> Result<(), NumericError>
    ensures { WritesDecimal (decimal_of negative weight scale digits.now) B.Lacks (B.held buf.old) result (B.held buf.new) }
{
    if scale > MAX_SCALE {
        return Err(NumericError::InvalidScale);
    }
    if digits.len() > u16::MAX as usize {
        return Err(NumericError::OutOfRange);
    }
    if !are_small(digits) {
        return Err(NumericError::InvalidDigit);
    }
    match decimal_to_sql(negative, weight, scale, digits, buf) {
        Ok(()) => Ok(()),
        Err(_) => Err(NumericError::OutOfMemory),
    }
}
