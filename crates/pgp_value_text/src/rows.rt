//! The rows of an array: where they begin and end, and the indexes of their elements.

ghost use Rattle.std.specs.Prelude.{◌≡◌, ◌++◌, None, OnErr, OnOk};
ghost use Rattle.std.specs.List.{flat_map, list_all};
ghost use Rattle.pgp_value_text.specs.ArrayText.{all_bounds, begins_at_one, begins_row, bounds_text, braces, indexes_text, last_index, part_size};

use bytes::BytesMut;
use pgp_base::{FallibleIterator, Memory};
use pgp_types::{Array, ArrayDimension, ArrayDimensions};
use std::alloc::AllocError;

// Whether a row of so many elements begins at a place.
fn begins_row(size: usize, place: usize) -> bool
    ensures { result ≡ begins_row size place }
{
    size > 0 && place % size == 0
}

// How many elements the parts of a row have.
fn part_size(size: usize, d: ArrayDimension) -> usize
    ensures { result ≡ part_size size d }
{
    let len = d.len.unsigned_abs() as usize;
    if len == 0 { 0 } else { size / len }
}

/// Adds a brace for each row that begins at a place.
pub(crate) fn push_braces<A: Memory>(
    brace: u8,
    size: usize,
    mut dimensions: ArrayDimensions<'_>,
    place: usize,
    out: &mut BytesMut<A>,
) -> Result<(), AllocError>
    requires { dimensions.end ≡ None }
    ensures ok { OnOk result (out.new.items ≡ out.old.items ++ braces brace size dimensions.entry.items place) }
    ensures lacks { OnErr result A.Lacks }
{
    let mut row = size;
    'rows: while let Ok(Some(d)) = dimensions.next() {
        if begins_row(row, place) {
            A::append(out, &[brace])?;
        }
        row = part_size(row, d);
    }
    Ok(())
}

// Whether all indexes begin at 1.
fn begin_at_one(mut dimensions: ArrayDimensions<'_>) -> bool
    requires { dimensions.end ≡ None }
    ensures { result ≡ list_all begins_at_one dimensions.entry.items }
{
    'dimensions: while let Ok(Some(d)) = dimensions.next() {
        if d.lower_bound != 1 {
            return false;
        }
    }
    true
}

// Adds the first and the last index of a dimension.
fn push_indexes<A: Memory>(first: i32, last: i64, out: &mut BytesMut<A>) -> Result<(), AllocError>
    ensures ok { OnOk result (out.new.items ≡ out.old.items ++ indexes_text first last) }
    ensures lacks { OnErr result A.Lacks }
{
    let mut shown = String::new(*out.allocator());
    A::push_shown(&mut shown, format_args!("[{first}:{last}]"))?;
    A::append(out, shown.as_bytes())
}

fn last_index(d: ArrayDimension) -> i64
    ensures { result ≡ last_index d }
{
    i64::from(d.lower_bound) + i64::from(d.len) - 1
}

// Adds those of each dimension.
fn push_each<A: Memory>(
    mut dimensions: ArrayDimensions<'_>,
    out: &mut BytesMut<A>,
) -> Result<(), AllocError>
    requires { dimensions.end ≡ None }
    ensures ok { OnOk result (out.new.items ≡ out.old.items ++ flat_map bounds_text dimensions.entry.items) }
    ensures lacks { OnErr result A.Lacks }
{
    'dimensions: while let Ok(Some(d)) = dimensions.next() {
        push_indexes(d.lower_bound, last_index(d), out)?;
    }
    Ok(())
}

/// Adds the first and the last index of each dimension, where one doesn't begin at 1.
pub(crate) fn push_all_bounds<A: Memory>(
    array: &Array<'_>,
    out: &mut BytesMut<A>,
) -> Result<(), AllocError>
    ensures ok { OnOk result (out.new.items ≡ out.old.items ++ all_bounds array.now.dimensions.items) }
    ensures lacks { OnErr result A.Lacks }
{
    if begin_at_one(array.dimensions()) {
        return Ok(());
    }
    push_each(array.dimensions(), out)?;
    A::append(out, b"=")
}
