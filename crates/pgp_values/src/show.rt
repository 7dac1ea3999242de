//! The text of a decimal number, as a server writes it.
#![tactic(auto, using(pgp_base::proofs::Parts::held_steps))]

ghost use Rattle.std.specs.Prelude.{◌≡◌, ◌≢◌, ◌⊎◌, ℕ, ℤ, pos, negsuc, ◌+◌, ◌-◌, ◌*◌, ◌<◌, ◌≤◌, ◌^◌, [], ◌∷◌, length, map, None, OnOk, OnErr, IfOk, IfErr};
ghost use Rattle.pgp_base.specs.Cause.{Wants, WantsMemory, Writes};
ghost use Rattle.pgp_base.specs.Held.{◌⊕◌, IsFrontOf};
ghost use Rattle.pgp_values.specs.DecimalSeen.{said};
ghost use Rattle.pgp_values.specs.DecimalText.{decimal_at, decimal_in, run, letter, sign_text, whole_digits, behind_point, fraction_digits, text_digits, has_digit, shown_sign, fraction_text, decimal_text, numeric_text};

use crate::decimal::{Decimal, decimal_in};
use crate::numeric::Numeric;
use pgp_base::{Buffer, Error, put_u8};
use pgp_types::codec::append;

// The decimal digit at a place, from the first digit's first on.
#[tactic(auto, unfolding(crate::specs::DecimalText::decimal_at))]
fn decimal_at(d: &Decimal<'_>, place: usize) -> u16
    ensures value { result ≡ decimal_at d.now.digits place }
    ensures small { result < 10 }
{
    decimal_in(d.digit(place / 4), place % 4)
}

// Appends the letter of a decimal digit.
fn put_digit<B: Buffer>(digit: u16, out: &mut B) -> Result<(), Error>
    requires { digit < 10 }
    ensures ok { OnOk result (B.held out.new ≡ B.held out.old ⊕ letter digit ∷ []) }
    ensures err { OnErr result (B.held out.new ≡ B.held out.old) }
    ensures cause { IfErr result (WantsMemory (Wants B.Lacks (B.held out.old) 1)) }
{
    put_u8(out, 48 + digit as u8)
}

// Appends so many decimal digits from a place on. An error leaves what stood there as a front.
fn put_run<B: Buffer>(d: &Decimal<'_>, from: usize, count: usize, out: &mut B) -> Result<(), Error>
    requires { from + count < 2 ^ 32 }
    ensures ok { OnOk result (B.held out.new ≡ B.held out.old ⊕ map letter (run (decimal_at d.now.digits) from count)) }
    ensures err { OnErr result (IsFrontOf (B.held out.old) (B.held out.new)) }
    ensures cause { IfErr result (WantsMemory (Wants B.Lacks (B.held out.old) count)) }
{
    for i in 0..count {
        match put_digit(decimal_at(d, from + i), out) {
            Ok(()) => {}
            Err(e) => return Err(e),
        }
    }
    Ok(())
}

// The letter of one of the four decimal digits of a digit to the base 10,000.
fn letter_in(digit: u16, place: usize) -> u8
    requires { digit < 10000 }
    ensures { result ≡ letter (decimal_in digit place) }
{
    48 + decimal_in(digit, place) as u8
}

// Appends the letters of all four.
#[tactic(auto, using(pgp_base::proofs::Parts::wants_now))]
fn put_group<B: Buffer>(digit: u16, out: &mut B) -> Result<(), Error>
    requires { digit < 10000 }
    ensures ok { OnOk result (B.held out.new ≡ B.held out.old ⊕ map letter (run (decimal_in digit) 0 4)) }
    ensures err { OnErr result (B.held out.new ≡ B.held out.old) }
    ensures cause { IfErr result (WantsMemory (Wants B.Lacks (B.held out.old) 4)) }
{
    let letters = [
        letter_in(digit, 0),
        letter_in(digit, 1),
        letter_in(digit, 2),
        letter_in(digit, 3),
    ];
    out.append(&letters)?;
    Ok(())
}

// Appends those of so many digits from one on. An error leaves what stood there as a front.
fn put_groups<B: Buffer>(
    d: &Decimal<'_>,
    first: usize,
    count: usize,
    out: &mut B,
) -> Result<(), Error>
    requires { first + count < 2 ^ 32 }
    ensures ok { OnOk result (B.held out.new ≡ B.held out.old ⊕ map letter (run (decimal_at d.now.digits) (4 * first) (4 * count))) }
    ensures err { OnErr result (IsFrontOf (B.held out.old) (B.held out.new)) }
    ensures cause { IfErr result (WantsMemory (Wants B.Lacks (B.held out.old) (4 * count))) }
{
    for i in 0..count {
        match put_group(d.digit(first + i), out) {
            Ok(()) => {}
            Err(e) => return Err(e),
        }
    }
    Ok(())
}

// The weight of a first digit that stands before the point; otherwise how far after it another
// stands.
fn weight_of(weight: i16) -> Result<usize, usize>
    ensures before { IfOk result (λ k. (weight ≡ pos k) × (k < 2 ^ 15)) }
    ensures behind { IfErr result (λ j. (weight ≡ negsuc j) × (j < 2 ^ 15)) }
{
    if weight < 0 {
        return Err((-1 - weight) as usize);
    }
    Ok(weight as usize)
}

// Appends what stands before the point. An error leaves what stood there as a front.
fn put_whole<B: Buffer>(d: &Decimal<'_>, out: &mut B) -> Result<(), Error>
    ensures ok { OnOk result (B.held out.new ≡ B.held out.old ⊕ map letter (whole_digits d.now.weight d.now.digits)) }
    ensures err { OnErr result (IsFrontOf (B.held out.old) (B.held out.new)) }
    ensures cause { IfErr result (WantsMemory (Wants B.Lacks (B.held out.old) (length (map letter (whole_digits d.now.weight d.now.digits))))) }
{
    match weight_of(d.weight()) {
        Ok(k) => put_before(d, k, out),
        Err(_) => put_digit(0, out),
    }
}

// The first place that is shown before the point: the first that isn't 0, or the last.
fn first_place(d: &Decimal<'_>, last: usize) -> usize
    ensures before { (i : ℕ) → i < result → decimal_at d.now.digits i ≡ 0 }
    ensures inside { result ≤ last }
    ensures some { (result ≡ last) ⊎ (decimal_at d.now.digits result ≢ 0) }
{
    for i in 0..last {
        if decimal_at(d, i) != 0 {
            return i;
        }
    }
    last
}

// Appends what stands before the point, the first digit too. An error leaves what stood there as a front.
fn put_before<B: Buffer>(d: &Decimal<'_>, k: usize, out: &mut B) -> Result<(), Error>
    requires { k < 2 ^ 15 }
    ensures ok { OnOk result (B.held out.new ≡ B.held out.old ⊕ map letter (whole_digits (pos k) d.now.digits)) }
    ensures err { OnErr result (IsFrontOf (B.held out.old) (B.held out.new)) }
    ensures cause { IfErr result (WantsMemory (Wants B.Lacks (B.held out.old) (length (map letter (whole_digits (pos k) d.now.digits))))) }
{
    let from = first_place(d, 4 * k + 3);
    match put_run(d, from, 4 - from % 4, out) {
        Ok(()) => put_groups(d, from / 4 + 1, k - from / 4, out),
        Err(e) => Err(e),
    }
}

// The decimal digit of this index after the point.
fn behind_point(d: &Decimal<'_>, index: usize) -> u16
    requires { index < 2 ^ 32 }
    ensures value { result ≡ behind_point d.now.weight d.now.digits index }
    ensures small { result < 10 }
{
    match weight_of(d.weight()) {
        Ok(k) => decimal_at(d, 4 * (k + 1) + index),
        Err(j) => behind_zeros(d, 4 * j, index),
    }
}

// The decimal digit of this index, where so many zeros stand in front of the first.
fn behind_zeros(d: &Decimal<'_>, zeros: usize, index: usize) -> u16
    ensures zero { index < zeros → result ≡ 0 }
    ensures value { zeros ≤ index → result ≡ decimal_at d.now.digits (index - zeros) }
    ensures small { result < 10 }
{
    if index < zeros {
        return 0;
    }
    decimal_at(d, index - zeros)
}

// Appends what stands after the point. An error leaves what stood there as a front.
fn put_places<B: Buffer>(d: &Decimal<'_>, count: usize, out: &mut B) -> Result<(), Error>
    requires { count < 2 ^ 32 }
    ensures ok { OnOk result (B.held out.new ≡ B.held out.old ⊕ map letter (run (behind_point d.now.weight d.now.digits) 0 count)) }
    ensures err { OnErr result (IsFrontOf (B.held out.old) (B.held out.new)) }
    ensures cause { IfErr result (WantsMemory (Wants B.Lacks (B.held out.old) count)) }
{
    for i in 0..count {
        match put_digit(behind_point(d, i), out) {
            Ok(()) => {}
            Err(e) => return Err(e),
        }
    }
    Ok(())
}

// Appends the point and what stands after it, if that is shown. An error leaves what stood there as a front.
fn put_fraction<B: Buffer>(d: &Decimal<'_>, out: &mut B) -> Result<(), Error>
    ensures ok { OnOk result (B.held out.new ≡ B.held out.old ⊕ fraction_text d.now.scale (fraction_digits d.now)) }
    ensures err { OnErr result (IsFrontOf (B.held out.old) (B.held out.new)) }
    ensures cause { IfErr result (WantsMemory (Wants B.Lacks (B.held out.old) (length (fraction_text d.now.scale (fraction_digits d.now))))) }
{
    if d.scale() == 0 {
        return Ok(());
    }
    match put_u8(out, b'.') {
        Ok(()) => put_places(d, d.scale() as usize, out),
        Err(e) => Err(e),
    }
}

// Whether one of the first places isn't 0.
fn has_digit_to(d: &Decimal<'_>, count: usize) -> bool
    ensures { result ≡ has_digit (run (decimal_at d.now.digits) 0 count) }
{
    for i in 0..count {
        if decimal_at(d, i) != 0 {
            return true;
        }
    }
    false
}

// Whether a digit before the point isn't 0, where the first digit stands there.
fn has_before(d: &Decimal<'_>, k: usize) -> bool
    requires { k < 2 ^ 15 }
    ensures { result ≡ has_digit (whole_digits (pos k) d.now.digits) }
{
    has_digit_to(d, 4 * (k + 1))
}

// Whether a digit before the point isn't 0.
fn has_whole(d: &Decimal<'_>) -> bool
    ensures { result ≡ has_digit (whole_digits d.now.weight d.now.digits) }
{
    match weight_of(d.weight()) {
        Ok(k) => has_before(d, k),
        Err(_) => false,
    }
}

// Whether a digit after the point isn't 0, of those that are shown.
fn has_fraction(d: &Decimal<'_>) -> bool
    ensures { result ≡ has_digit (fraction_digits d.now) }
{
    for i in 0..d.scale() as usize {
        if behind_point(d, i) != 0 {
            return true;
        }
    }
    false
}

// Whether a digit that is shown isn't 0.
fn shows_digit(d: &Decimal<'_>) -> bool
    ensures { result ≡ has_digit (text_digits d.now) }
{
    if has_whole(d) {
        return true;
    }
    has_fraction(d)
}

// Whether a minus is shown.
fn shows_minus(d: &Decimal<'_>) -> bool
    ensures { result ≡ shown_sign d.now }
{
    if d.is_negative() {
        shows_digit(d)
    } else {
        false
    }
}

// Appends the sign, if there is one.
fn put_sign<B: Buffer>(negative: bool, out: &mut B) -> Result<(), Error>
    ensures ok { OnOk result (B.held out.new ≡ B.held out.old ⊕ sign_text negative) }
    ensures err { OnErr result (B.held out.new ≡ B.held out.old) }
    ensures cause { IfErr result (WantsMemory (Wants B.Lacks (B.held out.old) (length (sign_text negative)))) }
{
    if negative { put_u8(out, b'-') } else { Ok(()) }
}

// Appends the text of a number. An error leaves what stood there as a front.
fn put_decimal<B: Buffer>(d: &Decimal<'_>, out: &mut B) -> Result<(), Error>
    ensures ok { OnOk result (B.held out.new ≡ B.held out.old ⊕ decimal_text d.now) }
    ensures err { OnErr result (IsFrontOf (B.held out.old) (B.held out.new)) }
    ensures cause { IfErr result (WantsMemory (Wants B.Lacks (B.held out.old) (length (decimal_text d.now)))) }
{
    match put_sign(shows_minus(d), out) {
        Ok(()) => match put_whole(d, out) {
            Ok(()) => put_fraction(d, out),
            Err(e) => Err(e),
        },
        Err(e) => Err(e),
    }
}

// Appends the text of a number, or nothing.
fn decimal_to_text<B: Buffer>(d: &Decimal<'_>, out: &mut B) -> Result<(), Error>
    ensures { Writes (decimal_text d.now) None B.Lacks (B.held out.old) (B.held out.new) result }
{
    let start = out.len();
    match put_decimal(d, out) {
        Ok(()) => Ok(()),
        Err(e) => {
            out.truncate(start);
            Err(e)
        }
    }
}

/// Appends the text of a `numeric`, as a server shows it that has read it: places past the scale are cut off, and so are
/// zeros in front.
///
/// # Errors
///
/// Returns `OutOfMemory` if the buffer can't grow; on error the buffer is unchanged.
pub fn numeric_to_text<B: Buffer>(v: &Numeric<'_>, out: &mut B) -> Result<(), Error>
    ensures { Writes (numeric_text (said v.now)) None B.Lacks (B.held out.old) (B.held out.new) result }
{
    match v {
        Numeric::Finite(d) => decimal_to_text(d, out),
        Numeric::NaN => append(b"NaN", out),
        Numeric::PosInfinity => append(b"Infinity", out),
        Numeric::NegInfinity => append(b"-Infinity", out),
    }
}
