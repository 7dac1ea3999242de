//! Decimal numbers: as their texts, and by their parts.

ghost use Rattle.std.specs.Prelude.{◌≡◌, ◌≢◌, ◌⊎◌, ◌+◌, ◌*◌, ◌≤◌, length, Ok};
ghost use Rattle.pgp_values.specs.Decimal.{Numeric, NumericReads, IsDecimal, finite, numeric_bytes};
ghost use Rattle.pgp_values.specs.DecimalDigits.{decimal_of};
ghost use Rattle.pgp_values.specs.DecimalSeen.{said};
ghost use Rattle.pgp_values.specs.DecimalText.{numeric_text};
ghost use Rattle.pgp_values.specs.NumberMeaning.{TextMeans};
ghost use Rattle.for_c.specs.Further.{IsNoNumeric, IsNoNumericText, numeric_number};
ghost use Rattle.for_c.specs.Numerics.{HasParts, IsNoDecimal, endless, parts_of};
ghost use Rattle.for_c.specs.Values.{Lacks, Wrote};

use crate::status::{failed, refused, sent};
use pgp_base::{Error, Window};
use pgp_values::{Numeric as Value, NumericError};
use std::str;

/// A `numeric`: its kind, a number with an end (0), `NaN` (1), `Infinity` (2) or `-Infinity` (3); and of a number with an end its sign, the power of 10,000
/// that its first digit counts, how many decimal places are shown, how many digits to the base 10,000 there are, and the place of the first.
#[repr(C)]
#[derive(Clone, Copy)]
pub struct PgpNumeric {
    pub digits: usize,
    pub weight: i16,
    pub scale: u16,
    pub count: u16,
    pub kind: u8,
    pub negative: bool,
}

/// The number of an error.
pub(crate) fn number_of(e: NumericError) -> u32
    ensures number { result ≡ numeric_number e }
    ensures some { result ≢ 0 }
{
    match e {
        NumericError::OutOfMemory => 1,
        NumericError::UnexpectedEof => 7,
        NumericError::NotDrained => 8,
        NumericError::InvalidSign => 21,
        NumericError::InvalidScale => 22,
        NumericError::InvalidDigit => 23,
        NumericError::InvalidText => 24,
        NumericError::OutOfRange => 25,
    }
}

/// Writes the `numeric` that a decimal text says, as a server reads it.
#[unsafe(no_mangle)]
pub extern "C" fn pgp_put_numeric_text(text: &[u8], out: &mut [u8], written: &mut usize) -> u32
    ensures wrote { result ≡ 0 → (x : Numeric) × TextMeans text.now x × Wrote (numeric_bytes x) out.old out.new written.new }
    ensures refused { result ≢ 0 → (written.new ≡ 0) × (IsNoNumericText text.now result ⊎ ((x : Numeric) × TextMeans text.now x × Lacks (numeric_bytes x) out.old written.new result)) }
{
    *written = 0;
    let Ok(text) = str::from_utf8(text) else {
        return failed(Error::NotUtf8);
    };
    let mut window = Window::new(out);
    match pgp_values::numeric_text_to_sql(text, &mut window) {
        Ok(()) => sent(&window, written),
        Err(e) => number_of(e),
    }
}

/// Writes the decimal text of a `numeric`, as a server shows it.
#[unsafe(no_mangle)]
pub extern "C" fn pgp_get_numeric_text(bytes: &[u8], out: &mut [u8], written: &mut usize) -> u32
    ensures wrote { result ≡ 0 → (x : Numeric) × NumericReads bytes.now (Ok x) × Wrote (numeric_text x) out.old out.new written.new }
    ensures refused { result ≢ 0 → (written.new ≡ 0) × (IsNoNumeric bytes.now result ⊎ ((x : Numeric) × NumericReads bytes.now (Ok x) × Lacks (numeric_text x) out.old written.new result)) }
{
    *written = 0;
    let number = match pgp_values::numeric_from_sql(bytes) {
        Ok(number) => number,
        Err(e) => return number_of(e),
    };
    let mut window = Window::new(out);
    match pgp_values::numeric_to_text(&number, &mut window) {
        Ok(()) => sent(&window, written),
        Err(e) => refused(e, written),
    }
}

/// Reads a `numeric` by its parts, from all of the bytes. Its digits stay where they are, two bytes each.
#[unsafe(no_mangle)]
pub extern "C" fn pgp_get_numeric(bytes: &[u8], value: &mut PgpNumeric) -> u32
    ensures read { result ≡ 0 → (x : Numeric) × HasParts bytes.now x value.new }
    ensures inside { result ≡ 0 → value.new.digits + 2 * value.new.count ≤ length bytes.now }
    ensures refused { result ≢ 0 → IsNoNumeric bytes.now result }
    ensures left { result ≢ 0 → value.new ≡ value.old }
{
    match pgp_values::numeric_from_sql(bytes) {
        Ok(number) => {
            *value = parts_of(&number);
            0
        }
        Err(e) => number_of(e),
    }
}

/// The parts of a number that stands at the front of its bytes.
fn parts_of(number: &Value<'_>) -> PgpNumeric
    ensures { result ≡ parts_of (said number.now) }
{
    match number {
        Value::Finite(d) => PgpNumeric {
            digits: 8,
            weight: d.weight(),
            scale: d.scale(),
            count: d.len(),
            kind: 0,
            negative: d.is_negative(),
        },
        Value::NaN => endless(1),
        Value::PosInfinity => endless(2),
        Value::NegInfinity => endless(3),
    }
}

/// The parts of what has no end.
fn endless(kind: u8) -> PgpNumeric
    ensures { result ≡ endless kind }
{
    PgpNumeric {
        digits: 8,
        weight: 0,
        scale: 0,
        count: 0,
        kind,
        negative: false,
    }
}

/// Writes the `numeric` of these digits to the base 10,000, of which the first counts 10,000 to the power `weight`, with so many decimal places shown.
#[unsafe(no_mangle)]
pub extern "C" fn pgp_put_numeric(
    negative: bool,
    weight: i16,
    scale: u16,
    digits: &[u16],
    out: &mut [u8],
    written: &mut usize,
) -> u32
    ensures wrote { result ≡ 0 → IsDecimal (decimal_of negative weight scale digits.now) × Wrote (numeric_bytes (finite (decimal_of negative weight scale digits.now))) out.old out.new written.new }
    ensures refused { result ≢ 0 → (written.new ≡ 0) × (IsNoDecimal (decimal_of negative weight scale digits.now) result ⊎ Lacks (numeric_bytes (finite (decimal_of negative weight scale digits.now))) out.old written.new result) }
{
    *written = 0;
    let mut window = Window::new(out);
    match pgp_values::numeric_digits_to_sql(negative, weight, scale, digits, &mut window) {
        Ok(()) => sent(&window, written),
        Err(e) => number_of(e),
    }
}
