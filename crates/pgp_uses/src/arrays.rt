//! Arrays of one dimension as lists of values: out of a row's column, and into a statement's parameter.

ghost use Rattle.std.specs.Prelude.{◌≡◌, ℤ, List, length, Option, None};
ghost use Rattle.std.specs.List.{AllByRecursion};
ghost use Rattle.pgp_base.specs.Cause.{length_cause};
ghost use Rattle.pgp_frontend.specs.Payload.{cause};
ghost use Rattle.pgp_message.specs.Table.{column};
ghost use Rattle.pgp_types.specs.Part.{shown};
ghost use Rattle.pgp_uses.specs.Arrays.{AreReadBack, BindsInt4s, IsInt4, PutsInt4s, ReadsElement, ReadsList, ReadsListColumn, ReadsWalk, binding};

use crate::server::refusal;
use crate::values::{Value, put_int4};
use pgp_base::{BindError, Buffer, FallibleIterator, IsNull, Memory, Oid};
use postgres_protocol::Error;
use postgres_protocol::laws::bind_one;
use postgres_protocol::message::backend::RowIndex;
use postgres_protocol::types::{
    ArrayDimension, ArrayValues, array_from_sql, array_to_sql, int4_to_sql,
};
use std::alloc::Allocator;

/// Why a column gave no list.
#[derive(Debug, Clone, Copy, PartialEq, Eq)]
pub enum ArrayError {
    /// The row has no such column.
    NoColumn,
    /// The array has more than one dimension.
    Dimensions,
    /// The bytes are no array, or an element is no value of the type.
    Value(Error),
    /// The list can't be allocated.
    OutOfMemory,
}

/// Column `i` as a list of the type's values: an array of one dimension, or of none, which is empty. A null element is
/// `None`, and `Ok(None)` is a null column. The array's element type isn't compared with the type.
///
/// # Errors
///
/// Returns `NoColumn` if the row has no column `i`; `Value` if its bytes are no array, or one of its elements
/// is no value of the type; `Dimensions` if it has more than one; and `OutOfMemory`.
pub fn list_of<'a, V: Value<'a> + Drop, A: Memory, R: Allocator>(
    alloc: A,
    row: &RowIndex<'a, R>,
    i: usize,
) -> Result<Option<Vec<Option<V>, A>>, ArrayError>
    ensures { ReadsListColumn V.meaning V.format (λ values. values.items) A.Lacks (column row.now i) result }
{
    match row.value(i) {
        None => Err(ArrayError::NoColumn),
        Some(None) => Ok(None),
        Some(Some(bytes)) => match list_in(alloc, bytes) {
            Ok(values) => Ok(Some(values)),
            Err(e) => Err(e),
        },
    }
}

/// The array's elements as values.
fn list_in<'a, V: Value<'a> + Drop, A: Memory>(
    alloc: A,
    bytes: &'a [u8],
) -> Result<Vec<Option<V>, A>, ArrayError>
    ensures { ReadsList V.meaning V.format (λ values. values.items) A.Lacks bytes.now result }
{
    let array = match array_from_sql(bytes) {
        Ok(array) => array,
        Err(e) => return Err(ArrayError::Value(e)),
    };
    if array.dimensions().size_hint().0 > 1 {
        return Err(ArrayError::Dimensions);
    }
    elements_in(alloc, array.values())
}

/// All elements as values.
fn elements_in<'a, V: Value<'a> + Drop, A: Memory>(
    alloc: A,
    mut elements: ArrayValues<'a>,
) -> Result<Vec<Option<V>, A>, ArrayError>
    ensures { ReadsWalk V.meaning V.format (λ values. values.items) A.Lacks elements.entry result }
{
    let mut values = Vec::new(alloc);
    'elements: loop {
        let value = match elements.next() {
            Ok(None) => return Ok(values),
            Err(e) => return Err(ArrayError::Value(e)),
            Ok(Some(element)) => match value_in(element) {
                Ok(value) => value,
                Err(e) => return Err(ArrayError::Value(e)),
            },
        };
        if A::push(&mut values, value).is_err() {
            return Err(ArrayError::OutOfMemory);
        }
    }
}

/// An element as a value.
fn value_in<'a, V: Value<'a>>(element: Option<&'a [u8]>) -> Result<Option<V>, Error>
    ensures { ReadsElement V.meaning V.format (shown element.entry) result }
{
    match element {
        None => Ok(None),
        Some(bytes) => match V::from_sql(bytes) {
            Ok(value) => Ok(Some(value)),
            Err(e) => Err(e),
        },
    }
}

/// The identifier of int4 in the catalog `pg_type`.
const INT4: Oid = 23;

/// Binds an array of `int4`s and nulls, in binary, to the one parameter of the unnamed statement. It has one
/// dimension, whose first element has the index 1.
///
/// # Errors
///
/// `Conversion` is the array's error: `TooLarge` if there are more than 2,147,483,647 values, and `OutOfMemory`.
/// `Serialization` is the message's: `TooLarge` if it exceeds `i32::MAX`, and `OutOfMemory`. On error the buffer is
/// unchanged.
pub fn bind_int4s<B: Buffer>(values: &[Option<i32>], buf: &mut B) -> Result<(), BindError<Error>>
    ensures { BindsInt4s values.now B.Lacks (B.held buf.old) (B.held buf.new) result }
{
    bind_one(|_: u8, buf: &mut B| put_array(values, buf), buf)
}

/// Appends the array, which is no null.
fn put_array<B: Buffer>(values: &[Option<i32>], buf: &mut B) -> Result<IsNull, Error>
    ensures { PutsInt4s values.now B.Lacks (B.held buf.old) (B.held buf.new) result }
{
    if values.len() > 0x7fff_ffff {
        return Err(Error::TooLarge);
    }
    let dimension = ArrayDimension {
        len: values.len() as i32,
        lower_bound: 1,
    };
    match array_to_sql(
        Some(dimension),
        INT4,
        values,
        |value: &Option<i32>, buf: &mut B| put_int4(*value, buf),
        buf,
    ) {
        Ok(()) => Ok(IsNull::No),
        Err(e) => Err(refusal(e)),
    }
}

/// A server that knows only the grammar reads the message of bound `int4`s as that message, whatever follows it, and its
/// value as their array and as nothing else. As a list of `int4`s, the array is these very values.
pub fn int4s_read_back()
    ensures { (values : List (Option ℤ)) → AllByRecursion IsInt4 values → length_cause (length values) ≡ None → cause (binding values) ≡ None
        → AreReadBack values }
{
    postgres_protocol::laws::bound_arrays_read_back();
    postgres_protocol::types::laws::scalars();
}
