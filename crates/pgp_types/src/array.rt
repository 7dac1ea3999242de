//! Arrays of any type of elements.
//!
//! PostgreSQL manual, "Arrays".
#![tactic(auto, using(pgp_base::proofs::Parts::held_steps))]

ghost use Rattle.std.specs.Prelude.{◌≡◌, ◌≢◌, ℕ, ◌<◌, ◌^◌, List, length, Option, None, IfOk, IfErr};
ghost use Rattle.pgp_base.specs.PartReading.{Answers};
ghost use Rattle.pgp_types.specs.Format.{Reads};
ghost use Rattle.pgp_types.specs.Part.{shown};
ghost use Rattle.pgp_types.specs.ArrayReading.{head_at, product_at, each_at};
ghost use Rattle.pgp_types.specs.Array.{array, dimension, Extent};

use crate::part::{natural_at, nullable_at};
use pgp_base::reading::{int32_at, oid_at};
use pgp_base::{Counted, Error, FallibleIterator, Oid};
use std::marker::Model;

/// A dimension of an array: how many elements it has, and the index of the first.
#[derive(Debug, Clone, Copy, PartialEq, Eq)]
pub struct ArrayDimension {
    pub len: i32,
    pub lower_bound: i32,
}

/// An array that was read: its dimensions and its elements are read as they are asked for.
#[derive(Drop)]
pub struct Array<'a> {
    has_nulls: bool,
    element_type: Oid,
    count: usize,
    dimensions: &'a [u8],
    elements: usize,
    values: &'a [u8],
}

impl<'a> Model for Array<'a> {
    ghost use Rattle.std.specs.Prelude.{◌≡◌, None};
    ghost use Rattle.pgp_base.specs.WalkReading.{counted};
    ghost use Rattle.pgp_types.specs.Array.{ArrayRead};
    ghost use Rattle.pgp_types.specs.ArrayReading.{each_at, element_at};

    ghost Value = { ArrayRead };

    ghost view = { λ a. record { has_nulls = a.has_nulls; element_type = a.element_type; dimensions = counted each_at a.count a.dimensions.now None; values = counted element_at a.elements a.values.now None } };

    ghost invariant = { λ a. (counted each_at a.count a.dimensions.now None).end ≡ None };
}

impl<'a> Array<'a> {
    /// Whether the flag is set that says so of the elements. It isn't compared with them.
    pub fn has_nulls(&self) -> bool
        ensures { result ≡ self.now.has_nulls }
    {
        self.has_nulls
    }

    /// The identifier of the type of the elements.
    pub fn element_type(&self) -> Oid
        ensures { result ≡ self.now.element_type }
    {
        self.element_type
    }

    /// The dimensions. They were read before, and the iterator isn't rejected.
    pub fn dimensions(&self) -> ArrayDimensions<'a>
        ensures same { result ≡ self.now.dimensions }
        ensures finished { result.end ≡ None }
    {
        ArrayDimensions(Counted::new(self.dimensions, self.count))
    }

    /// The elements, the last dimension the fastest.
    pub fn values(&self) -> ArrayValues<'a>
        ensures { result ≡ self.now.values }
    {
        ArrayValues(Counted::new(self.values, self.elements))
    }
}

/// The dimensions of an array.
#[derive(Drop)]
pub struct ArrayDimensions<'a>(Counted<'a>);

impl<'a> Model for ArrayDimensions<'a> {
    ghost use Rattle.pgp_base.specs.Walk.{Walk};
    ghost use Rattle.pgp_base.specs.CountedRest.{walk_of};
    ghost use Rattle.pgp_types.specs.declared.array.ArrayDimension.{ArrayDimension};
    ghost use Rattle.pgp_types.specs.ArrayReading.{each_at};

    ghost Value = { Walk ArrayDimension };

    ghost view = { λ walk. walk_of each_at walk.0 };
}

impl FallibleIterator for ArrayDimensions<'_> {
    type Item = ArrayDimension;

    ghost use Rattle.pgp_types.specs.declared.array.ArrayDimension.{ArrayDimension};

    ghost Meaning = { ArrayDimension };

    ghost meaning = { λ x. x };

    ghost walk = { λ s. s };

    fn next(&mut self) -> Result<Option<ArrayDimension>, Error> {
        match self.0.due()? {
            Some(buf) => self.0.take(each_at(buf)),
            None => Ok(None),
        }
    }

    fn size_hint(&self) -> (usize, Option<usize>) {
        self.0.size_hint()
    }
}

/// The elements of an array, the last dimension the fastest; `None` for a null.
///
/// # Errors
///
/// Returns `UnexpectedEof` if a length is cut short, `InvalidValueLength` if one passes the end of
/// the bytes, and `NotDrained` if bytes stand after the last element.
#[derive(Drop)]
pub struct ArrayValues<'a>(Counted<'a>);

impl<'a> Model for ArrayValues<'a> {
    ghost use Rattle.std.specs.Prelude.{ℕ, List, Option};
    ghost use Rattle.pgp_base.specs.Walk.{Walk};
    ghost use Rattle.pgp_base.specs.CountedRest.{walk_of};
    ghost use Rattle.pgp_types.specs.ArrayReading.{element_at};

    ghost Value = { Walk (Option (List ℕ)) };

    ghost view = { λ walk. walk_of element_at walk.0 };
}

impl<'a> FallibleIterator for ArrayValues<'a> {
    type Item = Option<&'a [u8]>;

    ghost use Rattle.std.specs.Prelude.{ℕ, List, Option};
    ghost use Rattle.pgp_types.specs.Part.{shown};

    ghost Meaning = { Option (List ℕ) };

    ghost meaning = { shown };

    ghost walk = { λ s. s };

    fn next(&mut self) -> Result<Option<Option<&'a [u8]>>, Error> {
        match self.0.due()? {
            Some(buf) => self.0.take(nullable_at(buf, Error::InvalidValueLength)),
            None => Ok(None),
        }
    }

    fn size_hint(&self) -> (usize, Option<usize>) {
        self.0.size_hint()
    }
}

// A dimension that was read before.
#[tactic(auto, unfolding(crate::specs::ArrayReading::each_at))]
fn each_at(bytes: &[u8]) -> Result<(ArrayDimension, &[u8]), Error>
    ensures { Answers (λ x. (x.0, x.1.now)) result (each_at bytes.now) }
{
    let (len, rest) = int32_at(bytes)?;
    let (lower_bound, rest) = int32_at(rest)?;
    Ok((ArrayDimension { len, lower_bound }, rest))
}

// Reads a dimension after others that make so many elements: how many they make with it, and the
// bytes after it.
#[tactic(auto, unfolding(crate::specs::ArrayReading::product_at))]
fn product_at(product: usize, bytes: &[u8]) -> Result<(usize, &[u8]), Error>
    requires { product < 2 ^ 31 }
    ensures { Answers (λ x. (x.0, x.1.now)) result (product_at product bytes.now) }
{
    let (len, rest) = natural_at(bytes, Error::InvalidDimension)?;
    let (_, rest) = int32_at(rest)?;
    match product.checked_mul(len) {
        Some(product) if product <= 0x7fff_ffff => Ok((product, rest)),
        _ => Err(Error::TooManyElements),
    }
}

// Reads so many dimensions: how many elements they make, and the bytes after them.
fn dimensions_at(count: usize, bytes: &[u8]) -> Result<(usize, &[u8]), Error>
    ensures ok { IfOk result (λ x. (ds : List ArrayDimension) × Extent bytes.now ds x.0 x.1.now × (length ds ≡ count)) }
    ensures cause { IfErr result (λ e. (ds : List ArrayDimension) × (p : ℕ) × (rest : List ℕ) × Extent bytes.now ds p rest
        × (length ds < count) × (dimension p).Refused rest e) }
{
    let mut product = 1;
    let mut rest = bytes;
    let mut left = count;
    'dimensions: while left > 0 {
        (product, rest) = product_at(product, rest)?;
        left -= 1;
    }
    Ok((product, rest))
}

// Reads how many dimensions there are, the flag, and the type of the elements.
fn head_at(bytes: &[u8]) -> Result<((usize, (i32, Oid)), &[u8]), Error>
    ensures { Answers (λ x. (x.0, x.1.now)) result (head_at bytes.now) }
{
    let (count, rest) = natural_at(bytes, Error::InvalidCount)?;
    let (flag, rest) = int32_at(rest)?;
    let (element_type, rest) = oid_at(rest)?;
    Ok(((count, (flag, element_type)), rest))
}

// How many elements so many dimensions have that make this product.
fn elements_of(count: usize, product: usize) -> usize
    ensures none { count ≡ 0 → result ≡ 0 }
    ensures some { count ≢ 0 → result ≡ product }
{
    if count == 0 { 0 } else { product }
}

/// Reads an array. Its elements aren't looked at before they are asked for.
///
/// # Errors
///
/// From the left: `UnexpectedEof` if the count of dimensions, the flag, the type of the elements or a
/// dimension is cut short; `InvalidCount` at a negative count, `InvalidDimension` at a negative length of
/// a dimension, and `TooManyElements` if the product of the lengths up to a dimension passes
/// 2,147,483,647.
pub fn array_from_sql(buf: &[u8]) -> Result<Array<'_>, Error>
    ensures { Reads array buf.now result }
{
    let ((count, (flag, element_type)), behind) = head_at(buf)?;
    let (product, values) = dimensions_at(count, behind)?;
    let (dimensions, _) = behind.split_at(behind.len() - values.len());
    Ok(Array {
        has_nulls: flag != 0,
        element_type,
        count,
        dimensions,
        elements: elements_of(count, product),
        values,
    })
}
