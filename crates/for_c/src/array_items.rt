//! An array whose elements are put where they stand.

ghost use Rattle.std.specs.Prelude.{◌≡◌, ◌≢◌, ◌⊎◌, ◌<◌, ℕ, List, [], length, map, drop, Option};
ghost use Rattle.pgp_base.specs.Error.{number_of};
ghost use Rattle.pgp_base.specs.declared.error.Error.{Error as Refusal};
ghost use Rattle.pgp_types.specs.Array.{Product, array, elements_of, flag_of};
ghost use Rattle.for_c.specs.ArrayItems.{ArraySoFar, array_with};
ghost use Rattle.for_c.specs.ArrayWriting.{HasShape, Stops, dimension_of};
ghost use Rattle.for_c.specs.InPlace.{IsUnfinished};
ghost use Rattle.for_c.specs.ListWriting.{IsNotWritten, WroteValue};
ghost use Rattle.for_c.specs.declared.array.PgpDimension.{PgpDimension as Dimension};

use crate::array::PgpDimension;
use crate::array_writing::{product, size, write_array};
use crate::in_place::{PgpItems, is_unfinished, set_word};
use crate::status::{failed, refused};
use pgp_base::Error;

/// How many dimensions there are, the flag, and the type.
const HEAD: usize = 12;

/// Begins an array of these dimensions, whose elements follow one by one, the last dimension the fastest.
#[unsafe(no_mangle)]
pub extern "C" fn pgp_array_begin(
    element_type: u32,
    dimensions: &[PgpDimension],
    out: &mut [u8],
    items: &mut PgpItems,
) -> u32
    ensures begun { result ≡ 0 → ArraySoFar element_type dimensions.now [] out.new items.new }
    ensures behind { result ≡ 0 → drop items.new.at out.new ≡ drop items.new.at out.old }
    ensures refused { result ≢ 0 → ((e : Refusal) × Stops dimensions.now e × (result ≡ number_of e)) ⊎ IsNotWritten array (array_with element_type dimensions.now []) out.old 0 result }
    ensures left { result ≢ 0 → items.new ≡ items.old }
{
    match product(dimensions) {
        Ok(product) => begin(
            element_type,
            dimensions,
            size(dimensions.len(), product),
            out,
            items,
        ),
        Err(e) => failed(e),
    }
}

/// Begins an array of these dimensions, which have so many elements.
fn begin(
    element_type: u32,
    dimensions: &[PgpDimension],
    count: usize,
    out: &mut [u8],
    items: &mut PgpItems,
) -> u32
    ensures begun { result ≡ 0 → (p : ℕ) → Product 1 (map dimension_of dimensions.now) p → count ≡ elements_of (map dimension_of dimensions.now) p → ArraySoFar element_type dimensions.now [] out.new items.new }
    ensures behind { result ≡ 0 → drop items.new.at out.new ≡ drop items.new.at out.old }
    ensures refused { result ≢ 0 → IsNotWritten array (array_with element_type dimensions.now []) out.old 0 result }
    ensures left { result ≢ 0 → items.new ≡ items.old }
{
    let mut written = 0;
    let code = write_array(element_type, dimensions, &[], out, &mut written);
    if code != 0 {
        return code;
    }
    *items = PgpItems {
        at: written,
        left: count,
        has_null: false,
    };
    0
}

/// Ends an array whose elements all stand: writes whether one of them is a null.
#[unsafe(no_mangle)]
pub extern "C" fn pgp_array_end(items: &PgpItems, out: &mut [u8], written: &mut usize) -> u32
    ensures wrote { result ≡ 0 → (element_type : ℕ) (dimensions : List Dimension) (elements : List (Option (List ℕ))) → ArraySoFar element_type dimensions elements out.old items.now
        → HasShape dimensions (length elements) × WroteValue array (array_with element_type dimensions elements) out.old out.new written.new }
    ensures all { result ≡ 0 → items.now.left ≡ 0 }
    ensures fewer { IsUnfinished 12 items.now → result ≡ 10 }
    ensures refused { result ≢ 0 → ((result ≡ 10) × IsUnfinished 12 items.now) ⊎ ((result ≡ 1) × (length out.old < items.now.at)) }
    ensures left { result ≢ 0 → (written.new ≡ 0) × (out.new ≡ out.old) }
{
    if is_unfinished(items, HEAD) {
        return refused(Error::InvalidSize, written);
    }
    if items.at > out.len() {
        return refused(Error::OutOfMemory, written);
    }
    set_word(out, 4, null_flag(items.has_null));
    *written = items.at;
    0
}

/// Whether an element is a null, as a number.
fn null_flag(has_null: bool) -> u32
    ensures { result ≡ flag_of has_null }
{
    if has_null { 1 } else { 0 }
}
