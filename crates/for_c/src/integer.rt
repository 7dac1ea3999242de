//! Decimal numbers that are integers, of 64 and of 128 bits.

ghost use Rattle.std.specs.Prelude.{◌≡◌, ◌≢◌, FitsSigned};
ghost use Rattle.std.specs.Int.{w64, w128};
ghost use Rattle.for_c.specs.Integers.{IsIntegerIn, IsNoInteger, LacksInteger, WroteInteger, integer_number, whole};

use crate::numeric::number_of;
use crate::status::{refused, sent};
use pgp_base::{Error, Window};
use pgp_values::IntegerError;

/// What one more of the upper half counts.
const UPPER: i128 = 18_446_744_073_709_551_616;

/// The number of an error.
fn integer_number(e: IntegerError) -> u32
    ensures number { result ≡ integer_number e }
    ensures some { result ≢ 0 }
{
    match e {
        IntegerError::OutOfRange => 25,
        IntegerError::NotFinite => 40,
        IntegerError::Fraction => 41,
    }
}

/// Writes the `numeric` that is an integer.
#[unsafe(no_mangle)]
pub extern "C" fn pgp_put_numeric_int64(value: i64, out: &mut [u8], written: &mut usize) -> u32
    ensures wrote { result ≡ 0 → WroteInteger value out.old out.new written.new }
    ensures lacks { result ≢ 0 → LacksInteger value out.old written.new result }
{
    write_integer(i128::from(value), out, written)
}

/// Writes the `numeric` that is an integer of 128 bits, by its halves.
#[unsafe(no_mangle)]
pub extern "C" fn pgp_put_numeric_int128(
    high: i64,
    low: u64,
    out: &mut [u8],
    written: &mut usize,
) -> u32
    ensures wrote { result ≡ 0 → WroteInteger (whole high low) out.old out.new written.new }
    ensures lacks { result ≢ 0 → LacksInteger (whole high low) out.old written.new result }
{
    write_integer(whole(high, low), out, written)
}

/// Reads the integer that a `numeric` is.
#[unsafe(no_mangle)]
pub extern "C" fn pgp_get_numeric_int64(bytes: &[u8], value: &mut i64) -> u32
    ensures read { result ≡ 0 → IsIntegerIn (FitsSigned w64) bytes.now value.new }
    ensures refused { result ≢ 0 → IsNoInteger (FitsSigned w64) bytes.now result }
    ensures left { result ≢ 0 → value.new ≡ value.old }
{
    match pgp_values::numeric_from_sql(bytes) {
        Ok(number) => match pgp_values::numeric_to_i64(&number) {
            Ok(read) => {
                *value = read;
                0
            }
            Err(e) => integer_number(e),
        },
        Err(e) => number_of(e),
    }
}

/// Reads the halves of the integer of 128 bits that a `numeric` is.
#[unsafe(no_mangle)]
pub extern "C" fn pgp_get_numeric_int128(bytes: &[u8], high: &mut i64, low: &mut u64) -> u32
    ensures read { result ≡ 0 → IsIntegerIn (FitsSigned w128) bytes.now (whole high.new low.new) }
    ensures refused { result ≢ 0 → IsNoInteger (FitsSigned w128) bytes.now result }
    ensures left { result ≢ 0 → (high.new ≡ high.old) × (low.new ≡ low.old) }
{
    match pgp_values::numeric_from_sql(bytes) {
        Ok(number) => match pgp_values::numeric_to_i128(&number) {
            Ok(read) => {
                let (upper, lower) = halves(read);
                *high = upper;
                *low = lower;
                0
            }
            Err(e) => integer_number(e),
        },
        Err(e) => number_of(e),
    }
}

/// The integer of these halves.
fn whole(high: i64, low: u64) -> i128
    ensures { result ≡ whole high low }
{
    i128::from(high) * UPPER + i128::from(low)
}

/// The halves of an integer.
fn halves(value: i128) -> (i64, u64)
    ensures { whole result.0 result.1 ≡ value }
{
    (
        value.div_euclid(UPPER) as i64,
        value.rem_euclid(UPPER) as u64,
    )
}

/// Writes the `numeric` that is this integer.
fn write_integer(value: i128, out: &mut [u8], written: &mut usize) -> u32
    ensures wrote { result ≡ 0 → WroteInteger value out.old out.new written.new }
    ensures lacks { result ≢ 0 → LacksInteger value out.old written.new result }
{
    let mut window = Window::new(out);
    match pgp_values::numeric_i128_to_sql(value, &mut window) {
        Ok(()) => sent(&window, written),
        Err(_) => refused(Error::OutOfMemory, written),
    }
}
