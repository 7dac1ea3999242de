//! Arrays: their heads, and their dimensions and elements, read where they stand, one after another; and written.
#![tactic(auto, using(pgp_base::proofs::Parts::held_steps))]

ghost use Rattle.std.specs.Prelude.{◌≡◌, ◌≢◌, ◌⊎◌, ◌++◌, ◌≤◌, ◌<◌, drop, length, map, take, All, Some, None, OnOk, IfErr};
ghost use Rattle.pgp_base.specs.Cause.{Wants, WantsMemory};
ghost use Rattle.pgp_base.specs.Held.{◌⊕◌};
ghost use Rattle.pgp_base.specs.PartReading.{Answers};
ghost use Rattle.pgp_base.specs.declared.error.Error.TheVariants.{InvalidValueLength};
ghost use Rattle.pgp_types.specs.Array.{IsArray, array};
ghost use Rattle.pgp_types.specs.Part.{nullable};
ghost use Rattle.for_c.specs.Compound.{IsArrayIn, dimension, value_in};
ghost use Rattle.for_c.specs.Listings.{IsColumnInside};
ghost use Rattle.for_c.specs.PartPlaces.{dimension_at};
ghost use Rattle.for_c.specs.Putting.{IsNoList, elements_cause, elements_of, flag_in, head_of, list_of};
ghost use Rattle.for_c.specs.Values.{Lacks, Refuses, Wrote};
ghost use Rattle.for_c.specs.Walks.{IsEnded, RefusesItem, Takes, TakesAll};

use crate::array_writing::put_two;
use crate::cursor::{Listed, PgpCursor, all_counted, next_counted};
use crate::list_writing::{Written, put_items};
use crate::listing::PgpValue;
use crate::part::{column_before, nullable_at, put_value};
use crate::row::PgpColumn;
use crate::status::{failed, refused, sent};
use pgp_base::reading::int32_at;
use pgp_base::{Buffer, Error, FallibleIterator, Window, length_field, put_u32};

/// The head of an array, and where its dimensions and its elements stand.
#[repr(C)]
#[derive(Clone, Copy)]
pub struct PgpArray {
    pub dimensions: PgpCursor,
    pub elements: PgpCursor,
    pub element_type: u32,
    /// What the flag says; a server sets it where an element is null.
    pub has_nulls: bool,
}

/// A dimension of an array: how many elements it has, and the index of the first.
#[repr(C)]
#[derive(Clone, Copy)]
pub struct PgpDimension {
    pub len: i32,
    pub lower_bound: i32,
}

/// Reads the head and the dimensions of an array. Its elements aren't looked at.
#[unsafe(no_mangle)]
pub extern "C" fn pgp_get_array(bytes: &[u8], value: &mut PgpArray) -> u32
    ensures read { result ≡ 0 → IsArrayIn bytes.now value.new }
    ensures refused { result ≢ 0 → Refuses array bytes.now result }
    ensures left { result ≢ 0 → value.new ≡ value.old }
{
    match pgp_types::array_from_sql(bytes) {
        Ok(array) => {
            let count = array.dimensions().size_hint().0;
            let behind = count.saturating_mul(8).saturating_add(12);
            *value = PgpArray {
                dimensions: PgpCursor {
                    at: 12,
                    end: behind,
                    left: count,
                },
                elements: PgpCursor {
                    at: behind,
                    end: bytes.len(),
                    left: array.values().size_hint().0,
                },
                element_type: array.element_type(),
                has_nulls: array.has_nulls(),
            };
            0
        }
        Err(e) => failed(e),
    }
}

/// The next dimension of an array.
#[unsafe(no_mangle)]
pub extern "C" fn pgp_dimension_next(
    bytes: &[u8],
    cursor: &mut PgpCursor,
    item: &mut PgpDimension,
) -> u32
    ensures item { result ≡ 0 → Takes (λ place. dimension.Spelled) bytes.now cursor.old cursor.new (item.new.len, item.new.lower_bound) }
    ensures done { result ≡ 101 → IsEnded bytes.now cursor.old }
    ensures refused { result ≢ 0 → result ≢ 101 → RefusesItem dimension.Refused bytes.now cursor.old result }
    ensures left { result ≢ 0 → (cursor.new ≡ cursor.old) × (item.new ≡ item.old) }
{
    next_counted::<Dimensions>(bytes, cursor, item)
}

/// The next element of an array.
#[unsafe(no_mangle)]
pub extern "C" fn pgp_element_next(
    bytes: &[u8],
    cursor: &mut PgpCursor,
    item: &mut PgpColumn,
) -> u32
    ensures item { result ≡ 0 → Takes (λ place. (nullable InvalidValueLength).Spelled) bytes.now cursor.old cursor.new (value_in bytes.now item.new) }
    ensures inside { result ≡ 0 → IsColumnInside (length bytes.now) item.new }
    ensures done { result ≡ 101 → IsEnded bytes.now cursor.old }
    ensures refused { result ≢ 0 → result ≢ 101 → RefusesItem (nullable InvalidValueLength).Refused bytes.now cursor.old result }
    ensures left { result ≢ 0 → (cursor.new ≡ cursor.old) × (item.new ≡ item.old) }
{
    next_counted::<Elements>(bytes, cursor, item)
}

/// All elements of an array, up to its end, or as many as there is room for.
#[unsafe(no_mangle)]
pub extern "C" fn pgp_element_all(
    bytes: &[u8],
    cursor: &mut PgpCursor,
    items: &mut [PgpColumn],
    count: &mut usize,
) -> u32
    ensures items { TakesAll (λ place. (nullable InvalidValueLength).Spelled) bytes.now cursor.old cursor.new (map (value_in bytes.now) (take count.new items.new)) }
    ensures inside { All (IsColumnInside (length bytes.now)) (take count.new items.new) }
    ensures ended { result ≡ 0 → IsEnded bytes.now cursor.new }
    ensures full { result ≡ 102 → (count.new ≡ length items.old) × (cursor.new.left ≢ 0) }
    ensures refused { result ≢ 0 → result ≢ 102 → RefusesItem (nullable InvalidValueLength).Refused bytes.now cursor.new result }
    ensures fits { count.new ≤ length items.old }
    ensures behind { drop count.new items.new ≡ drop count.new items.old }
    ensures same { length items.new ≡ length items.old }
{
    all_counted::<Elements>(bytes, cursor, items, count)
}

/// The dimensions of an array.
struct Dimensions;

impl Listed for Dimensions {
    ghost use Rattle.std.specs.Prelude.{ℤ, ⊤};
    ghost use Rattle.for_c.specs.Compound.{dimension};

    type Item = PgpDimension;

    ghost Meaning = { ℤ × ℤ };

    ghost meaning = { λ bytes d. (d.len, d.lower_bound) };

    ghost Spelled = { λ place. dimension.Spelled };

    ghost Refused = { dimension.Refused };

    ghost Inside = { λ size d. ⊤ };

    fn read(_at: usize, rest: &[u8]) -> Result<(&[u8], PgpDimension), Error> {
        match dimension_at(rest) {
            Ok((dimension, more)) => Ok((more, dimension)),
            Err(e) => Err(e),
        }
    }
}

/// The elements of an array.
struct Elements;

impl Listed for Elements {
    ghost use Rattle.std.specs.Prelude.{ℕ, List, Option};
    ghost use Rattle.pgp_base.specs.declared.error.Error.TheVariants.{InvalidValueLength};
    ghost use Rattle.pgp_types.specs.Part.{nullable};
    ghost use Rattle.for_c.specs.Compound.{value_in};
    ghost use Rattle.for_c.specs.Listings.{IsColumnInside};

    type Item = PgpColumn;

    ghost Meaning = { Option (List ℕ) };

    ghost meaning = { λ bytes c. value_in bytes c };

    ghost Spelled = { λ place. (nullable InvalidValueLength).Spelled };

    ghost Refused = { (nullable InvalidValueLength).Refused };

    ghost Inside = { λ size c. IsColumnInside size c };

    fn read(at: usize, rest: &[u8]) -> Result<(&[u8], PgpColumn), Error> {
        let (value, more) = nullable_at(rest, Error::InvalidValueLength)?;
        let column = column_before(value, at + (rest.len() - more.len()));
        Ok((more, column))
    }
}

/// The dimension at the front.
fn dimension_at(bytes: &[u8]) -> Result<(PgpDimension, &[u8]), Error>
    ensures { Answers (λ x. ((x.0.len, x.0.lower_bound), x.1.now)) result (dimension_at bytes.now) }
{
    let Ok((len, rest)) = int32_at(bytes) else {
        return Err(Error::UnexpectedEof);
    };
    let Ok((lower_bound, rest)) = int32_at(rest) else {
        return Err(Error::UnexpectedEof);
    };
    Ok((PgpDimension { len, lower_bound }, rest))
}

/// Writes an array of one dimension, whose index begins at 1.
#[unsafe(no_mangle)]
pub extern "C" fn pgp_put_array(
    element_type: u32,
    elements: &[PgpValue<'_>],
    out: &mut [u8],
    written: &mut usize,
) -> u32
    ensures wrote { result ≡ 0 → IsArray (list_of element_type elements.now) × Wrote (array.written (list_of element_type elements.now)) out.old out.new written.new }
    ensures refused { result ≢ 0 → (written.new ≡ 0) × (IsNoList element_type elements.now result ⊎ Lacks (array.written (list_of element_type elements.now)) out.old written.new result) }
{
    let mut window = Window::new(out);
    match put_list(element_type, elements, &mut window) {
        Ok(()) => sent(&window, written),
        Err(e) => refused(e, written),
    }
}

/// The head, and the elements.
fn put_list<B: Buffer>(
    element_type: u32,
    elements: &[PgpValue<'_>],
    buf: &mut B,
) -> Result<(), Error>
    ensures ok { OnOk result ((length elements.now ≤ 2147483647) × (elements_cause elements.now ≡ None)
        × (B.held buf.new ≡ B.held buf.old ⊕ (head_of element_type elements.now ++ elements_of elements.now))) }
    ensures cause { IfErr result (λ e. WantsMemory (Wants B.Lacks (B.held buf.old) (length (head_of element_type elements.now ++ elements_of elements.now))) e
        ⊎ ((e ≡ Error.TooLarge) × ((2147483647 < length elements.now) ⊎ (elements_cause elements.now ≡ Some e)))) }
{
    match put_list_head(element_type, elements, buf) {
        Ok(()) => put_items(elements, buf),
        Err(e) => Err(e),
    }
}

/// How many dimensions there are, whether an element is null, the type, and the dimension.
fn put_list_head<B: Buffer>(
    element_type: u32,
    elements: &[PgpValue<'_>],
    buf: &mut B,
) -> Result<(), Error>
    ensures ok { OnOk result ((length elements.now ≤ 2147483647) × (B.held buf.new ≡ B.held buf.old ⊕ head_of element_type elements.now)) }
    ensures cause { IfErr result (λ e. WantsMemory (Wants B.Lacks (B.held buf.old) 20) e ⊎ ((e ≡ Error.TooLarge) × (2147483647 < length elements.now))) }
{
    let count = length_field(elements.len())?;
    put_two(1, flag(elements), buf)?;
    put_two(element_type, count, buf)?;
    put_u32(buf, 1)?;
    Ok(())
}

impl Written for PgpValue<'_> {
    ghost use Rattle.std.specs.Prelude.{ℕ, List, Option};
    ghost use Rattle.for_c.specs.Lists.{value_of};
    ghost use Rattle.for_c.specs.Putting.{element_item};

    ghost Meaning = { Option (List ℕ) };

    ghost meaning = { λ v. value_of v };

    ghost item = { element_item };

    fn put<B: Buffer>(&self, buf: &mut B) -> Result<(), Error> {
        put_value(self, buf)
    }
}

/// Whether an element is null, as a number.
pub(crate) fn flag(elements: &[PgpValue<'_>]) -> u32
    ensures { result ≡ flag_in elements.now }
{
    for value in elements {
        if value.is_null {
            return 1;
        }
    }
    0
}
