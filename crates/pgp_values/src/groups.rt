//! The digits to the base 10,000 of a number that a text says.
#![tactic(auto, using(pgp_base::proofs::Parts::held_steps))]

ghost use Rattle.std.specs.Prelude.{◌≡◌, pos, false, [], ◌+◌, ◌-◌, ◌*◌, ◌/◌, ◌++◌, ◌<◌, ◌≤◌, ◌^◌, length, map, OnOk, OnErr, Some, None, IfOk, IfErr};
ghost use Rattle.std.specs.List.{flat_map};
ghost use Rattle.pgp_base.specs.Cause.{Wants, WantsMemory, Writes};
ghost use Rattle.pgp_base.specs.Held.{◌⊕◌, IsFrontOf};
ghost use Rattle.pgp_base.specs.Wire.{uint16};
ghost use Rattle.pgp_values.specs.declared.error.NumericError.TheVariants.{OutOfRange};
ghost use Rattle.pgp_values.specs.Decimal.{Decimal, finite, laid_out, sign_of, numeric_bytes, IsDecimal};
ghost use Rattle.pgp_values.specs.DecimalWriting.{digit_value, reported_by, places_of, raised, lowered, IsNumberOf};
ghost use Rattle.pgp_values.specs.NumberGroups.{IsFirst, power_digit, group_value, IsWeight, IsPastWeights, grouped};
ghost use Rattle.pgp_values.specs.NumberMeaning.{IsValueOf};

use crate::error::NumericError;
use crate::numeric::{MAX_SCALE, parts_to_sql, sign_of};
use crate::written::{Written, digit_at, first_of, last_of};
use pgp_base::{Buffer, Error, put_u16};

// Powers of ten are reported by numbers without a sign: 10 to the power 0 is this, which is a multiple
// of 4.
const ZEROTH: usize = 0x8000_0000;

// Powers of 10,000 likewise.
const ZEROTH_GROUP: usize = 0x2000_0000;

// One past the greatest weight; the least is as far below 0.
const WEIGHTS: usize = 0x8000;

// What stands before the digits to the base 10,000, and where they come from: the first counts the power `top`, and
// the decimal digits begin below the power `point`.
#[derive(Clone, Copy)]
pub struct Groups {
    pub negative: bool,
    pub weight: i16,
    pub scale: u16,
    pub point: usize,
    pub top: usize,
    pub count: u16,
}

// How many places after the point the text shows.
fn places_at(w: &Written<'_>) -> usize
    requires few { length w.now.whole.now + length w.now.fraction.now < 1073741823 }
    requires small { w.now.exponent < 1073741823 }
    ensures { result ≡ places_of (reported_by w.now.negative w.now.whole.now w.now.fraction.now w.now.divided w.now.exponent) }
{
    if w.divided {
        return w.fraction.len() + w.exponent;
    }
    w.fraction.len().saturating_sub(w.exponent)
}

// The same, if a number can have as many.
fn scale_of(w: &Written<'_>) -> Result<u16, NumericError>
    requires few { length w.now.whole.now + length w.now.fraction.now < 1073741823 }
    requires small { w.now.exponent < 1073741823 }
    ensures value { IfOk result (λ s. s ≡ places_of (reported_by w.now.negative w.now.whole.now w.now.fraction.now w.now.divided w.now.exponent)) }
    ensures small { IfOk result (λ s. s ≤ 16383) }
    ensures past { IfErr result (λ e. (e ≡ OutOfRange) × ((d : Decimal) → IsDecimal d → IsNumberOf (reported_by w.now.negative w.now.whole.now w.now.fraction.now w.now.divided w.now.exponent) d → ⊥)) }
{
    let places = places_at(w);
    if places > MAX_SCALE as usize {
        return Err(NumericError::OutOfRange);
    }
    Ok(places as u16)
}

// One past the power of ten of the first digit.
fn point_of(w: &Written<'_>) -> usize
    requires few { length w.now.whole.now + length w.now.fraction.now < 1073741823 }
    requires small { w.now.exponent < 1073741823 }
    ensures bounds { (1073741824 < result) × (result < 2 ^ 32) }
    ensures value { result + lowered w.now.divided w.now.exponent ≡ 2 ^ 31 + length w.now.whole.now + raised w.now.divided w.now.exponent }
{
    if w.divided {
        return ZEROTH + w.whole.len() - w.exponent;
    }
    ZEROTH + w.whole.len() + w.exponent
}

// The decimal digit of this power of ten.
fn digit_of_power(w: &Written<'_>, point: usize, power: usize) -> u16
    ensures value { result ≡ power_digit (map digit_value (w.now.whole.now ++ w.now.fraction.now)) point power }
    ensures small { result < 10 }
{
    if power < point {
        return digit_at(w, point - 1 - power);
    }
    0
}

// The digit to the base 10,000 that counts this power of it.
fn group_of(w: &Written<'_>, point: usize, group: usize) -> u16
    requires { group < 2 ^ 32 }
    ensures value { result ≡ group_value (map digit_value (w.now.whole.now ++ w.now.fraction.now)) point group }
    ensures small { result < 10000 }
{
    1000 * digit_of_power(w, point, 4 * group + 3)
        + 100 * digit_of_power(w, point, 4 * group + 2)
        + 10 * digit_of_power(w, point, 4 * group + 1)
        + digit_of_power(w, point, 4 * group)
}

// The weight of this power of 10,000, if one can be.
fn weight_of(group: usize) -> Result<i16, NumericError>
    requires { group < 2 ^ 32 }
    ensures weight { IfOk result (λ z. IsWeight z group) }
    ensures past { IfErr result (λ e. (e ≡ OutOfRange) × IsPastWeights group) }
{
    if group >= ZEROTH_GROUP + WEIGHTS {
        return Err(NumericError::OutOfRange);
    }
    if group + WEIGHTS < ZEROTH_GROUP {
        return Err(NumericError::OutOfRange);
    }
    if group < ZEROTH_GROUP {
        return Ok(-1 - (ZEROTH_GROUP - 1 - group) as i16);
    }
    Ok((group - ZEROTH_GROUP) as i16)
}

// Those of 0 with so many places after the point.
fn no_groups(scale: u16) -> Groups
    ensures { result ≡ record { negative = false; weight = pos 0; scale = scale; point = 0; top = 0; count = 0 } }
{
    Groups {
        negative: false,
        weight: 0,
        scale,
        point: 0,
        top: 0,
        count: 0,
    }
}

// How many groups stand from the power `top` down to that of the last digit.
fn count_from(w: &Written<'_>, point: usize, top: usize, last: usize, scale: u16) -> u16
    requires small { w.now.exponent < 1073741823 }
    requires inside { last < length w.now.whole.now + length w.now.fraction.now }
    requires shown { (scale ≤ 16383) × (scale ≡ places_of (reported_by w.now.negative w.now.whole.now w.now.fraction.now w.now.divided w.now.exponent)) }
    requires point { (point < 2 ^ 32) × (point + lowered w.now.divided w.now.exponent ≡ 2 ^ 31 + length w.now.whole.now + raised w.now.divided w.now.exponent) }
    requires top { ((point - 1 - last) / 4 ≤ top) × (top < 536903680) }
    ensures { result ≡ top - (point - 1 - last) / 4 + 1 }
{
    (top - (point - 1 - last) / 4 + 1) as u16
}

// Those of a number whose first digit that isn't 0 stands here.
fn groups_from(w: &Written<'_>, scale: u16, first: usize) -> Result<Groups, NumericError>
    requires few { length w.now.whole.now + length w.now.fraction.now < 1073741823 }
    requires small { w.now.exponent < 1073741823 }
    requires scale { scale ≤ 16383 }
    requires shown { scale ≡ places_of (reported_by w.now.negative w.now.whole.now w.now.fraction.now w.now.divided w.now.exponent) }
    requires first { IsFirst (map digit_value (w.now.whole.now ++ w.now.fraction.now)) (Some first) }
    ensures value { IfOk result (λ g. IsValueOf (reported_by w.now.negative w.now.whole.now w.now.fraction.now w.now.divided w.now.exponent) (grouped (map digit_value (w.now.whole.now ++ w.now.fraction.now)) g)) }
    ensures reach { IfOk result (λ g. (g.top < 2 ^ 32) × (g.count ≤ g.top + 1)) }
    ensures past { IfErr result (λ e. (e ≡ OutOfRange) × ((d : Decimal) → IsDecimal d → IsNumberOf (reported_by w.now.negative w.now.whole.now w.now.fraction.now w.now.divided w.now.exponent) d → ⊥)) }
{
    let point = point_of(w);
    let top = (point - 1 - first) / 4;
    let last = last_of(w, first);
    let weight = weight_of(top)?;
    Ok(Groups {
        negative: w.negative,
        weight,
        scale,
        point,
        top,
        count: count_from(w, point, top, last, scale),
    })
}

// The groups of the number.
pub fn groups_of(w: &Written<'_>) -> Result<Groups, NumericError>
    requires few { length w.now.whole.now + length w.now.fraction.now < 1073741823 }
    requires small { w.now.exponent < 1073741823 }
    ensures value { IfOk result (λ g. IsValueOf (reported_by w.now.negative w.now.whole.now w.now.fraction.now w.now.divided w.now.exponent) (grouped (map digit_value (w.now.whole.now ++ w.now.fraction.now)) g)) }
    ensures reach { IfOk result (λ g. (g.top < 2 ^ 32) × (g.count ≤ g.top + 1)) }
    ensures past { IfErr result (λ e. (e ≡ OutOfRange) × ((d : Decimal) → IsDecimal d → IsNumberOf (reported_by w.now.negative w.now.whole.now w.now.fraction.now w.now.divided w.now.exponent) d → ⊥)) }
{
    let scale = scale_of(w)?;
    match first_of(w) {
        None => Ok(no_groups(scale)),
        Some(first) => groups_from(w, scale, first),
    }
}

// Appends the digits of the groups. An error leaves what stood there as a front.
fn put_groups<B: Buffer>(w: &Written<'_>, g: &Groups, buf: &mut B) -> Result<(), Error>
    requires high { g.now.top < 2 ^ 32 }
    requires enough { g.now.count ≤ g.now.top + 1 }
    ensures ok { OnOk result (B.held buf.new ≡ B.held buf.old ⊕ flat_map uint16 (grouped (map digit_value (w.now.whole.now ++ w.now.fraction.now)) g.now).digits) }
    ensures err { OnErr result (IsFrontOf (B.held buf.old) (B.held buf.new)) }
    ensures cause { IfErr result (WantsMemory (Wants B.Lacks (B.held buf.old) (2 * g.now.count))) }
{
    for i in 0..g.count as usize {
        match put_u16(buf, group_of(w, g.point, g.top - i)) {
            Ok(()) => {}
            Err(e) => return Err(e),
        }
    }
    Ok(())
}

// Appends what stands before the digits: how many there are, the weight, the sign and the scale.
fn put_head<B: Buffer>(g: &Groups, buf: &mut B) -> Result<(), Error>
    ensures { Writes (laid_out g.now.count g.now.weight (sign_of g.now.negative) g.now.scale []) None B.Lacks (B.held buf.old) (B.held buf.new) result }
{
    parts_to_sql(g.count, g.weight, sign_of(g.negative), g.scale, &[], buf)
}

// Appends the number. An error leaves what stood there as a front.
fn put_number<B: Buffer>(w: &Written<'_>, g: &Groups, buf: &mut B) -> Result<(), Error>
    requires high { g.now.top < 2 ^ 32 }
    requires enough { g.now.count ≤ g.now.top + 1 }
    ensures ok { OnOk result (B.held buf.new ≡ B.held buf.old ⊕ numeric_bytes (finite (grouped (map digit_value (w.now.whole.now ++ w.now.fraction.now)) g.now))) }
    ensures err { OnErr result (IsFrontOf (B.held buf.old) (B.held buf.new)) }
    ensures cause { IfErr result (WantsMemory (Wants B.Lacks (B.held buf.old) (length (numeric_bytes (finite (grouped (map digit_value (w.now.whole.now ++ w.now.fraction.now)) g.now)))))) }
{
    match put_head(g, buf) {
        Ok(()) => put_groups(w, g, buf),
        Err(e) => Err(e),
    }
}

// Appends the number, or leaves the buffer's bytes.
pub fn groups_to_sql<B: Buffer>(w: &Written<'_>, g: &Groups, buf: &mut B) -> Result<(), Error>
    requires high { g.now.top < 2 ^ 32 }
    requires enough { g.now.count ≤ g.now.top + 1 }
    ensures { Writes (numeric_bytes (finite (grouped (map digit_value (w.now.whole.now ++ w.now.fraction.now)) g.now))) None B.Lacks (B.held buf.old) (B.held buf.new) result }
{
    let start = buf.len();
    match put_number(w, g, buf) {
        Ok(()) => Ok(()),
        Err(e) => {
            buf.truncate(start);
            Err(e)
        }
    }
}
