//! Decimal numbers of any length.
//!
//! PostgreSQL manual, "Numeric Types", "Arbitrary Precision Numbers".
#![tactic(auto, using(pgp_base::proofs::Parts::held_steps))]

ghost use Rattle.std.specs.Prelude.{◌≡◌, ◌++◌, ◌<◌, ◌≤◌, ◌^◌, ℕ, ℤ, List, length, None, true};
ghost use Rattle.std.specs.List.{flat_map};
ghost use Rattle.pgp_base.specs.Cause.{Writes};
ghost use Rattle.pgp_base.specs.PartReading.{Answers};
ghost use Rattle.pgp_base.specs.Wire.{int16, uint16};
ghost use Rattle.pgp_values.specs.Decimal.{finite, laid_out, numeric_bytes, sign_of, ReadsNumeric};
ghost use Rattle.pgp_values.specs.DecimalReading.{pairs, all_small, is_sign, signed, numeric_head_at, numeric_at};
ghost use Rattle.pgp_values.specs.DecimalSeen.{said, Gives};

use crate::codec::{append_three, int16_bytes, uint16_bytes};
use crate::decimal::Decimal;
use crate::error::NumericError;
use pgp_base::reading::{int16_at, uint16_at};
use pgp_base::{Buffer, Error};
use pgp_types::codec::append_both;

// The signs.
const POSITIVE: u16 = 0x0000;

const NEGATIVE: u16 = 0x4000;

const NOT_A_NUMBER: u16 = 0xc000;

const PLUS_INFINITY: u16 = 0xd000;

const MINUS_INFINITY: u16 = 0xf000;

// The scale that a server sends with an infinity.
const INFINITE_SCALE: u16 = 32;

// The greatest scale, and one past the greatest digit.
pub(crate) const MAX_SCALE: u16 = 0x3fff;

pub(crate) const BASE: u16 = 10_000;

/// A `numeric`.
#[derive(Drop)]
pub enum Numeric<'a> {
    /// A number with an end.
    Finite(Decimal<'a>),
    /// `NaN`
    NaN,
    /// `Infinity`
    PosInfinity,
    /// `-Infinity`
    NegInfinity,
}

// Appends the numbers in front of the scale, or nothing.
fn front_to_sql<B: Buffer>(count: u16, weight: i16, sign: u16, buf: &mut B) -> Result<(), Error>
    ensures { Writes (uint16 count ++ (int16 weight ++ uint16 sign)) None B.Lacks (B.held buf.old) (B.held buf.new) result }
{
    append_three(
        &uint16_bytes(count),
        &int16_bytes(weight),
        &uint16_bytes(sign),
        buf,
    )
}

// Appends the scale and the digits, or nothing.
fn scaled_to_sql<B: Buffer>(scale: u16, digits: &[u8], buf: &mut B) -> Result<(), Error>
    ensures { Writes (uint16 scale ++ digits.now) None B.Lacks (B.held buf.old) (B.held buf.new) result }
{
    append_both(&uint16_bytes(scale), digits, buf)
}

// Appends a number's parts, or nothing.
pub(crate) fn parts_to_sql<B: Buffer>(
    count: u16,
    weight: i16,
    sign: u16,
    scale: u16,
    digits: &[u8],
    buf: &mut B,
) -> Result<(), Error>
    ensures { Writes (laid_out count weight sign scale digits.now) None B.Lacks (B.held buf.old) (B.held buf.new) result }
{
    let start = buf.len();
    front_to_sql(count, weight, sign, buf)?;
    if let Err(refused) = scaled_to_sql(scale, digits, buf) {
        buf.truncate(start);
        return Err(refused);
    }
    Ok(())
}

// The sign of a number with an end.
pub(crate) fn sign_of(negative: bool) -> u16
    ensures { result ≡ sign_of negative }
{
    if negative { NEGATIVE } else { POSITIVE }
}

// Appends a number with an end, or nothing.
fn decimal_to_sql<B: Buffer>(d: &Decimal<'_>, buf: &mut B) -> Result<(), Error>
    ensures { Writes (numeric_bytes (finite d.now)) None B.Lacks (B.held buf.old) (B.held buf.new) result }
{
    parts_to_sql(
        d.len(),
        d.weight(),
        sign_of(d.is_negative()),
        d.scale(),
        d.bytes(),
        buf,
    )
}

/// Appends a `numeric`.
///
/// # Errors
///
/// Returns `OutOfMemory` if the buffer can't grow; on error the buffer is unchanged.
pub fn numeric_to_sql<B: Buffer>(v: &Numeric<'_>, buf: &mut B) -> Result<(), Error>
    ensures { Writes (numeric_bytes (said v.now)) None B.Lacks (B.held buf.old) (B.held buf.new) result }
{
    match v {
        Numeric::Finite(d) => decimal_to_sql(d, buf),
        Numeric::NaN => parts_to_sql(0, 0, NOT_A_NUMBER, 0, &[], buf),
        Numeric::PosInfinity => parts_to_sql(0, 0, PLUS_INFINITY, INFINITE_SCALE, &[], buf),
        Numeric::NegInfinity => parts_to_sql(0, 0, MINUS_INFINITY, INFINITE_SCALE, &[], buf),
    }
}

// How many digits there are, the weight, the sign and the scale, and what stands after them.
#[tactic(auto, unfolding(crate::specs::DecimalReading::numeric_head_at))]
fn head_at(bytes: &[u8]) -> Result<((u16, (i16, (u16, u16))), &[u8]), Error>
    ensures { Answers (λ x. (x.0, x.1.now)) result (numeric_head_at bytes.now) }
{
    let (count, rest) = uint16_at(bytes)?;
    let (weight, rest) = int16_at(rest)?;
    let (sign, rest) = uint16_at(rest)?;
    let (scale, rest) = uint16_at(rest)?;
    Ok(((count, (weight, (sign, scale))), rest))
}

// Whether each digit is one, in two bytes each.
fn are_digits(bytes: &[u8]) -> bool
    ensures { result ≡ all_small (pairs bytes.now) }
{
    let mut rest = bytes;
    'digits: while let [a, b, behind @ ..] = rest {
        if u16::from_be_bytes([*a, *b]) >= BASE {
            return false;
        }
        rest = behind;
    }
    true
}

// Whether it is one of the five signs.
fn is_sign(sign: u16) -> bool
    ensures { result ≡ is_sign sign }
{
    sign == POSITIVE
        || sign == NEGATIVE
        || sign == NOT_A_NUMBER
        || sign == PLUS_INFINITY
        || sign == MINUS_INFINITY
}

/// Reads a `numeric`. Its digits stay where they are.
///
/// # Errors
///
/// Returns `UnexpectedEof` if the eight bytes before the digits are cut short; `InvalidSign` if the sign is none of the
/// five, `InvalidScale` if the scale exceeds 16,383; `UnexpectedEof` if there are fewer digits than announced,
/// `NotDrained` if bytes follow them, and `InvalidDigit` if one exceeds 9,999.
pub fn numeric_from_sql(buf: &[u8]) -> Result<Numeric<'_>, NumericError>
    ensures { ReadsNumeric said buf.now result }
{
    read_numeric(buf)
}

// The same, by what reading from the left gives.
#[tactic(auto, unfolding(crate::specs::DecimalReading::numeric_at))]
fn read_numeric(buf: &[u8]) -> Result<Numeric<'_>, NumericError>
    ensures { Gives result (numeric_at buf.now) }
{
    let Ok(((count, (weight, (sign, scale))), digits)) = head_at(buf) else {
        return Err(NumericError::UnexpectedEof);
    };
    if !is_sign(sign) {
        return Err(NumericError::InvalidSign);
    }
    if scale > MAX_SCALE {
        return Err(NumericError::InvalidScale);
    }
    let size = count as usize + count as usize;
    if digits.len() < size {
        return Err(NumericError::UnexpectedEof);
    }
    if size < digits.len() {
        return Err(NumericError::NotDrained);
    }
    if !are_digits(digits) {
        return Err(NumericError::InvalidDigit);
    }
    Ok(signed(sign, weight, scale, digits))
}

// What a sign makes of the rest.
fn signed(sign: u16, weight: i16, scale: u16, digits: &[u8]) -> Numeric<'_>
    requires whole { flat_map uint16 (pairs digits.now) ≡ digits.now }
    requires small { all_small (pairs digits.now) ≡ true }
    requires scale { scale ≤ 16383 }
    requires few { length (pairs digits.now) < 2 ^ 16 }
    ensures { said result ≡ signed sign weight scale (pairs digits.now) }
{
    match sign {
        NOT_A_NUMBER => Numeric::NaN,
        PLUS_INFINITY => Numeric::PosInfinity,
        MINUS_INFINITY => Numeric::NegInfinity,
        sign => Numeric::Finite(Decimal::new(sign == NEGATIVE, weight, scale, digits)),
    }
}
