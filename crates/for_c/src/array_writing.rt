//! Arrays of any dimensions, written.
#![tactic(auto, using(pgp_base::proofs::Parts::held_steps))]

ghost use Rattle.std.specs.Prelude.{◌≡◌, ◌≢◌, ◌⊎◌, ◌++◌, ◌≤◌, ◌*◌, ℕ, pos, length, map, None, Some, OnOk, IfOk, IfErr};
ghost use Rattle.pgp_base.specs.Cause.{length_cause, Wants, WantsMemory};
ghost use Rattle.pgp_base.specs.Error.{number_of};
ghost use Rattle.pgp_base.specs.Held.{◌⊕◌};
ghost use Rattle.pgp_base.specs.Wire.{uint32};
ghost use Rattle.pgp_base.specs.declared.error.Error.{Error as Refusal};
ghost use Rattle.pgp_types.specs.Array.{Product, array, elements_of};
ghost use Rattle.for_c.specs.ArrayWriting.{Blames, HasShape, Misshapen, Stops, array_of, body_of, dimension_of, head_of};
ghost use Rattle.for_c.specs.ListWriting.{IsNotWritten, WroteValue};
ghost use Rattle.for_c.specs.Putting.{elements_cause, flag_in};

use crate::array::{PgpDimension, flag};
use crate::list_writing::{Written, put_items};
use crate::listing::PgpValue;
use crate::status::{ended, refused};
use pgp_base::{Buffer, Error, Window, length_field, put_u32};

/// The greatest number of elements.
const MOST: usize = 2_147_483_647;

/// Writes an array of these dimensions; its elements come row by row, the last dimension the fastest.
#[unsafe(no_mangle)]
pub extern "C" fn pgp_put_array_of(
    element_type: u32,
    dimensions: &[PgpDimension],
    elements: &[PgpValue<'_>],
    out: &mut [u8],
    written: &mut usize,
) -> u32
    ensures shape { result ≡ 0 → HasShape dimensions.now (length elements.now) }
    ensures wrote { result ≡ 0 → WroteValue array (array_of element_type dimensions.now elements.now) out.old out.new written.new }
    ensures refused { result ≢ 0 → ((written.new ≡ 0) × (e : Refusal) × Misshapen dimensions.now (length elements.now) e × (result ≡ number_of e))
        ⊎ IsNotWritten array (array_of element_type dimensions.now elements.now) out.old written.new result }
{
    match check_shape(dimensions, elements.len()) {
        Ok(()) => write_array(element_type, dimensions, elements, out, written),
        Err(e) => refused(e, written),
    }
}

/// The same array, whatever its dimensions are.
pub(crate) fn write_array(
    element_type: u32,
    dimensions: &[PgpDimension],
    elements: &[PgpValue<'_>],
    out: &mut [u8],
    written: &mut usize,
) -> u32
    ensures wrote { result ≡ 0 → WroteValue array (array_of element_type dimensions.now elements.now) out.old out.new written.new }
    ensures refused { result ≢ 0 → IsNotWritten array (array_of element_type dimensions.now elements.now) out.old written.new result }
{
    let mut window = Window::new(out);
    let answer = put_array(element_type, dimensions, elements, &mut window);
    ended(answer, &window, written)
}

/// The head, the dimensions and the elements.
fn put_array<B: Buffer>(
    element_type: u32,
    dimensions: &[PgpDimension],
    elements: &[PgpValue<'_>],
    buf: &mut B,
) -> Result<(), Error>
    ensures ok { OnOk result ((array.cause (array_of element_type dimensions.now elements.now) ≡ None)
        × (B.held buf.new ≡ B.held buf.old ⊕ array.written (array_of element_type dimensions.now elements.now))) }
    ensures cause { IfErr result (λ e. WantsMemory (Wants B.Lacks (B.held buf.old) (length (array.written (array_of element_type dimensions.now elements.now)))) e
        ⊎ (array.cause (array_of element_type dimensions.now elements.now) ≡ Some e)) }
{
    match put_head(dimensions.len(), flag(elements), element_type, buf) {
        Ok(()) => put_body(dimensions, elements, buf),
        Err(e) => Err(e),
    }
}

/// How many dimensions there are, whether an element is null, and the type.
fn put_head<B: Buffer>(count: usize, flag: u32, element_type: u32, buf: &mut B) -> Result<(), Error>
    ensures ok { OnOk result ((length_cause count ≡ None) × (B.held buf.new ≡ B.held buf.old ⊕ head_of count flag element_type)) }
    ensures cause { IfErr result (λ e. WantsMemory (Wants B.Lacks (B.held buf.old) 12) e ⊎ (length_cause count ≡ Some e)) }
{
    match length_field(count) {
        Ok(count) => match put_u32(buf, count) {
            Ok(()) => put_two(flag, element_type, buf),
            Err(e) => Err(e),
        },
        Err(e) => Err(e),
    }
}

/// Two numbers.
// The hint carries the speed.
#[inline(always)]
pub(crate) fn put_two<B: Buffer>(one: u32, two: u32, buf: &mut B) -> Result<(), Error>
    ensures ok { OnOk result (B.held buf.new ≡ B.held buf.old ⊕ (uint32 one ++ uint32 two)) }
    ensures cause { IfErr result (WantsMemory (Wants B.Lacks (B.held buf.old) 8)) }
{
    match put_u32(buf, one) {
        Ok(()) => put_u32(buf, two),
        Err(e) => Err(e),
    }
}

/// The dimensions, and the elements.
fn put_body<B: Buffer>(
    dimensions: &[PgpDimension],
    elements: &[PgpValue<'_>],
    buf: &mut B,
) -> Result<(), Error>
    ensures ok { OnOk result ((elements_cause elements.now ≡ None) × (B.held buf.new ≡ B.held buf.old ⊕ body_of dimensions.now elements.now)) }
    ensures cause { IfErr result (λ e. WantsMemory (Wants B.Lacks (B.held buf.old) (length (body_of dimensions.now elements.now))) e ⊎ (elements_cause elements.now ≡ Some e)) }
{
    match put_items(dimensions, buf) {
        Ok(()) => put_items(elements, buf),
        Err(e) => Err(e),
    }
}

impl Written for PgpDimension {
    ghost use Rattle.pgp_types.specs.declared.array.ArrayDimension.{ArrayDimension};
    ghost use Rattle.for_c.specs.ArrayWriting.{dimension_item, dimension_of};

    ghost Meaning = { ArrayDimension };

    ghost meaning = { λ d. dimension_of d };

    ghost item = { dimension_item };

    fn put<B: Buffer>(&self, buf: &mut B) -> Result<(), Error> {
        put_two(
            self.len.cast_unsigned(),
            self.lower_bound.cast_unsigned(),
            buf,
        )
    }
}

/// The dimensions have a product, and it is this number of elements.
fn check_shape(dimensions: &[PgpDimension], count: usize) -> Result<(), Error>
    ensures ok { OnOk result (HasShape dimensions.now count) }
    ensures err { IfErr result (λ e. Misshapen dimensions.now count e) }
{
    match product(dimensions) {
        Ok(product) => {
            if count == size(dimensions.len(), product) {
                return Ok(());
            }
            Err(Error::InvalidSize)
        }
        Err(e) => Err(e),
    }
}

/// How many elements so many dimensions have that make this product.
pub(crate) fn size(count: usize, product: usize) -> usize
    ensures none { count ≡ 0 → result ≡ 0 }
    ensures some { count ≢ 0 → result ≡ product }
{
    if count == 0 { 0 } else { product }
}

/// The product of the lengths.
pub(crate) fn product(dimensions: &[PgpDimension]) -> Result<usize, Error>
    ensures ok { IfOk result (λ p. Product 1 (map dimension_of dimensions.now) p) }
    ensures err { IfErr result (λ e. Stops dimensions.now e) }
{
    let mut product: usize = 1;
    for dimension in dimensions {
        match more(product, dimension) {
            Ok(next) => product = next,
            Err(e) => return Err(e),
        }
    }
    Ok(product)
}

/// The product with one length more.
fn more(product: usize, dimension: &PgpDimension) -> Result<usize, Error>
    requires { product ≤ 2147483647 }
    ensures ok { IfOk result (λ next. (n : ℕ) × (dimension.now.len ≡ pos n) × (next ≡ product * n) × (next ≤ 2147483647)) }
    ensures err { IfErr result (λ e. Blames product dimension.now e) }
{
    let len = dimension.len;
    if len < 0 {
        return Err(Error::InvalidDimension);
    }
    match product.checked_mul(len as usize) {
        Some(next) if next <= MOST => Ok(next),
        _ => Err(Error::TooManyElements),
    }
}
