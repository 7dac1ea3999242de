//! Any column of a row by its number: by a table of its own, by one that is made again for each row, or by the iterator
//! alone.

ghost use Rattle.std.specs.Prelude.{◌≡◌, ◌≤◌, ◌<◌, ℕ, [], length, vec_len, vec_capacity, Option, Result, IfOk, IfErr, OnOk};
ghost use Rattle.std.specs.List.{slice_get, slice_range, AllByRecursion};
ghost use Rattle.std.specs.Option.{option_map};
ghost use Rattle.std.specs.Result.{result_map_both};
ghost use Rattle.pgp_base.specs.Walk.{CollectsFrom, RefusesFrom};
ghost use Rattle.pgp_message.specs.Parts.{CountedBytes};
ghost use Rattle.pgp_message.specs.Table.{Tabulates, HasColumn, IsPlaceIn, column, place_at};

use crate::walk::DataRowRanges;
use pgp_base::{Error, FallibleIterator, Memory};
use std::alloc::{Allocator, Global};
use std::marker::Model;
use std::ops::Range;

/// For how many columns more the first one asks for room, where so many were announced.
const SHORT_ROW: usize = 16;

/// Where each value of a row stands: a table that one pass over the row made, so that any column is at
/// hand by its number. what it returns borrows the row and not the table.
#[derive(Drop)]
pub struct RowIndex<'a, A: Allocator = Global> {
    buffer: &'a [u8],
    places: Vec<Option<Range<usize>>, A>,
}

impl<'a, A: Allocator> Model for RowIndex<'a, A> {
    ghost use Rattle.std.specs.Prelude.{length};
    ghost use Rattle.std.specs.List.{AllByRecursion};
    ghost use Rattle.pgp_message.specs.Table.{Table, IsPlaceIn};

    ghost Value = { Table };

    ghost view = { λ index. record { buffer = index.buffer.now; places = index.places.items } };

    ghost invariant = { λ index. AllByRecursion (IsPlaceIn (length index.buffer.now)) index.places.items };
}

impl<'a, A: Memory> RowIndex<'a, A> {
    /// The table of a row of so many columns.
    pub(crate) fn over(alloc: A, buffer: &'a [u8], count: u16) -> Result<RowIndex<'a, A>, Error>
        ensures { Tabulates (record { count = count; storage = buffer.now }) A.Lacks result }
    {
        let places = places(alloc, DataRowRanges::over(buffer, count))?;
        Ok(RowIndex { buffer, places })
    }
}

impl<'a, A: Allocator> RowIndex<'a, A> {
    /// How many columns the row has.
    pub fn len(&self) -> usize
        ensures { result ≡ length self.now.places }
    {
        self.places.len()
    }

    /// The place of column `i`, counted from 0, in the row's buffer: `Some(None)` for a null, and `None` where
    /// the row has no such column.
    pub fn range(&self, i: usize) -> Option<Option<Range<usize>>>
        ensures { result ≡ slice_get self.now.places i }
    {
        place_of(&self.places, i)
    }

    /// The bytes of column `i`, counted from 0: `Some(None)` for a null, and `None` where the row has no such
    /// column.
    pub fn value(&self, i: usize) -> Option<Option<&'a [u8]>>
        ensures { option_map (option_map (λ value. value.now)) result ≡ column self.now i }
    {
        value_of(self.buffer, &self.places, i)
    }
}

/// Memory for the places of one row after another. A table is made in it for each row, and asks for more memory only where a
/// row has more columns than each before it.
#[derive(Drop)]
pub struct RowPlaces<A: Allocator = Global> {
    places: Vec<Option<Range<usize>>, A>,
}

impl<A: Memory> RowPlaces<A> {
    /// Takes no memory yet.
    pub fn new(alloc: A) -> RowPlaces<A>
        ensures { result.places.items ≡ [] }
    {
        RowPlaces {
            places: Vec::new(alloc),
        }
    }

    /// The table of a row of so many columns, in the place of the one before.
    pub(crate) fn over<'r, 't>(
        &'t mut self,
        buffer: &'r [u8],
        count: u16,
    ) -> Result<RowColumns<'r, 't>, Error>
        ensures { Tabulates (record { count = count; storage = buffer.now }) A.Lacks result }
    {
        fill(&mut self.places, DataRowRanges::over(buffer, count))?;
        Ok(RowColumns {
            buffer,
            places: &self.places,
        })
    }
}

/// Where each value of a row stands, in a table that the row lent (`RowPlaces`). It is the table of its own row, whatever
/// rows the memory was lent to before.
#[derive(Drop)]
pub struct RowColumns<'r, 't> {
    buffer: &'r [u8],
    places: &'t [Option<Range<usize>>],
}

impl<'r, 't> Model for RowColumns<'r, 't> {
    ghost use Rattle.std.specs.Prelude.{length};
    ghost use Rattle.std.specs.List.{AllByRecursion};
    ghost use Rattle.pgp_message.specs.Table.{Table, IsPlaceIn};

    ghost Value = { Table };

    ghost view = { λ columns. record { buffer = columns.buffer.now; places = columns.places.now } };

    ghost invariant = { λ columns. AllByRecursion (IsPlaceIn (length columns.buffer.now)) columns.places.now };
}

impl<'r, 't> RowColumns<'r, 't> {
    /// How many columns the row has.
    pub fn len(&self) -> usize
        ensures { result ≡ length self.now.places }
    {
        self.places.len()
    }

    /// As `RowIndex::range`.
    pub fn range(&self, i: usize) -> Option<Option<Range<usize>>>
        ensures { result ≡ slice_get self.now.places i }
    {
        place_of(self.places, i)
    }

    /// As `RowIndex::value`.
    pub fn value(&self, i: usize) -> Option<Option<&'r [u8]>>
        ensures { option_map (option_map (λ value. value.now)) result ≡ column self.now i }
    {
        value_of(self.buffer, self.places, i)
    }
}

/// The place of column `i`.
fn place_of(places: &[Option<Range<usize>>], i: usize) -> Option<Option<Range<usize>>>
    ensures { result ≡ slice_get places.now i }
{
    match places.get(i)? {
        Some(place) => Some(Some(place.start..place.end)),
        None => Some(None),
    }
}

/// The bytes at the place of column `i`.
fn value_of<'a>(
    buffer: &'a [u8],
    places: &[Option<Range<usize>>],
    i: usize,
) -> Option<Option<&'a [u8]>>
    requires { AllByRecursion (IsPlaceIn (length buffer.now)) places.now }
    ensures { option_map (option_map (λ value. value.now)) result ≡ column (record { buffer = buffer.now; places = places.now }) i }
{
    let Some(place) = places.get(i)? else {
        return Some(None);
    };
    Some(Some(bytes_at(buffer, place.start, place.end)))
}

/// The bytes from a place up to another.
fn bytes_at(buffer: &[u8], start: usize, end: usize) -> &[u8]
    requires { (start ≤ end) × (end ≤ length buffer.now) }
    ensures { result.now ≡ slice_range buffer.now start end }
{
    &buffer[start..end]
}

/// The place of column `i`, by walking over those before it.
fn nth(mut ranges: DataRowRanges<'_>, i: usize) -> Result<Option<Option<Range<usize>>>, Error>
    ensures { result ≡ place_at ranges.entry.items ranges.entry.end i }
{
    let mut left = i;
    'columns: while left > 0 {
        match ranges.next()? {
            Some(_) => left -= 1,
            None => return Ok(None),
        }
    }
    ranges.next()
}

/// The bytes of column `i` of a row of so many columns, with no table.
pub(crate) fn nth_value(buffer: &[u8], count: u16, i: usize) -> Result<Option<Option<&[u8]>>, Error>
    ensures { HasColumn (record { count = count; storage = buffer.now }) i (result_map_both (option_map (option_map (λ value. value.now))) (λ e. e) result) }
{
    let Some(place) = nth(DataRowRanges::over(buffer, count), i)? else {
        return Ok(None);
    };
    let Some(place) = place else {
        return Ok(Some(None));
    };
    Ok(Some(Some(bytes_at(buffer, place.start, place.end))))
}

/// The places of a whole row, in a table of its own.
fn places<A: Memory>(
    alloc: A,
    ranges: DataRowRanges<'_>,
) -> Result<Vec<Option<Range<usize>>, A>, Error>
    ensures ok { IfOk result (λ places. CollectsFrom (λ place. place) ranges.entry places.items) }
    ensures err { IfErr result (λ e. RefusesFrom A.Lacks ranges.entry e) }
{
    let mut places = Vec::new(alloc);
    fill(&mut places, ranges)?;
    Ok(places)
}

/// Room for a place more, and for so many after it as were announced, as far as a short row goes.
#[cold]
#[inline(never)]
fn grow<A: Memory>(places: &mut Vec<Option<Range<usize>>, A>, announced: usize) -> Result<(), Error>
    ensures items { places.new.items ≡ places.old.items }
    ensures ok { OnOk result (vec_len places.new < vec_capacity places.new) }
    ensures err { IfErr result (λ e. (e ≡ Error.OutOfMemory) × A.Lacks) }
{
    if A::reserve(places, 1 + announced.min(SHORT_ROW)).is_err() {
        return Err(Error::OutOfMemory);
    }
    Ok(())
}

/// The places of a whole row, in the place of what stood there. The table takes memory once a column has come, and grows as
/// they come.
fn fill<A: Memory>(
    places: &mut Vec<Option<Range<usize>>, A>,
    mut ranges: DataRowRanges<'_>,
) -> Result<(), Error>
    ensures ok { OnOk result (CollectsFrom (λ place. place) ranges.entry places.new.items) }
    ensures err { IfErr result (λ e. RefusesFrom A.Lacks ranges.entry e) }
{
    places.clear();
    'places: while let Some(place) = ranges.next()? {
        if places.len() == places.capacity() {
            grow(places, ranges.size_hint().0)?;
        }
        places.push_reserved(place);
    }
    Ok(())
}
