//! The values of a row, read where they stand, one after another.

ghost use Rattle.std.specs.Prelude.{◌≡◌, ◌≢◌, ℕ, ◌+◌, ◌^◌, ◌<◌, ◌≤◌, List, drop, length, map, take, true, All, None, Ok, IfSome, IfOk};
ghost use Rattle.pgp_base.specs.PartReading.{Answers};
ghost use Rattle.pgp_message.specs.BackendMessage.{DataRow};
ghost use Rattle.pgp_message.specs.ItemReading.{range_at};
ghost use Rattle.pgp_message.specs.Items.{RangeSpelled, RangeRefused};
ghost use Rattle.pgp_message.specs.Parts.{CountedBytes};
ghost use Rattle.pgp_message.specs.Stream.{TakesFrame};
ghost use Rattle.for_c.specs.Listings.{IsColumnInside, range_of};
ghost use Rattle.for_c.specs.Rows.{BeginsWithRow, HasValues, LacksValue, ReadsNoRow};
ghost use Rattle.for_c.specs.Walks.{IsEnded, RefusesItem, Takes, TakesAll};

use crate::cursor::{FULL, Listed, PgpCursor, all_counted, next_counted};
use crate::front::no_row;
use crate::status::failed;
use pgp_base::{Error, FallibleIterator};
use pgp_message::{Messages, range_at};
use std::ops::Range;

/// A value of a row: the places where it begins and where it ends.
#[repr(C)]
#[derive(Clone, Copy)]
pub struct PgpColumn {
    pub start: usize,
    pub end: usize,
    pub is_null: bool,
}

/// The next value of a row.
#[unsafe(no_mangle)]
pub extern "C" fn pgp_row_next(bytes: &[u8], cursor: &mut PgpCursor, column: &mut PgpColumn) -> u32
    ensures item { result ≡ 0 → Takes RangeSpelled bytes.now cursor.old cursor.new (range_of column.new) }
    ensures inside { result ≡ 0 → IsColumnInside (length bytes.now) column.new }
    ensures done { result ≡ 101 → IsEnded bytes.now cursor.old }
    ensures refused { result ≢ 0 → result ≢ 101 → RefusesItem RangeRefused bytes.now cursor.old result }
    ensures left { result ≢ 0 → (cursor.new ≡ cursor.old) × (column.new ≡ column.old) }
{
    next_counted::<Values>(bytes, cursor, column)
}

/// All values of a row, up to its end, or as many as there is room for.
#[unsafe(no_mangle)]
pub extern "C" fn pgp_row_all(
    bytes: &[u8],
    cursor: &mut PgpCursor,
    columns: &mut [PgpColumn],
    count: &mut usize,
) -> u32
    ensures items { TakesAll RangeSpelled bytes.now cursor.old cursor.new (map range_of (take count.new columns.new)) }
    ensures inside { All (IsColumnInside (length bytes.now)) (take count.new columns.new) }
    ensures ended { result ≡ 0 → IsEnded bytes.now cursor.new }
    ensures full { result ≡ 102 → (count.new ≡ length columns.old) × (cursor.new.left ≢ 0) }
    ensures refused { result ≢ 0 → result ≢ 102 → RefusesItem RangeRefused bytes.now cursor.new result }
    ensures fits { count.new ≤ length columns.old }
    ensures behind { drop count.new columns.new ≡ drop count.new columns.old }
    ensures same { length columns.new ≡ length columns.old }
{
    all_counted::<Values>(bytes, cursor, columns, count)
}

/// The row at the front of the bytes and the places of its values, in one call.
#[unsafe(no_mangle)]
pub extern "C" fn pgp_row(
    bytes: &[u8],
    columns: &mut [PgpColumn],
    count: &mut usize,
    frame: &mut usize,
) -> u32
    ensures row { result ≡ 0 → BeginsWithRow bytes.now frame.new count.new × HasValues bytes.now frame.new count.new (take count.new columns.new) }
    ensures fits { result ≡ 0 → count.new ≤ length columns.old }
    ensures behind { result ≡ 0 → drop count.new columns.new ≡ drop count.new columns.old }
    ensures refused { result ≢ 0 → ReadsNoRow bytes.now columns.old count.old columns.new count.new result }
    ensures left { result ≢ 0 → frame.new ≡ frame.old }
    ensures same { length columns.new ≡ length columns.old }
{
    let Some((end, announced)) = row_head(bytes) else {
        return no_row(bytes);
    };
    if announced > columns.len() {
        *count = announced;
        return FULL;
    }
    let code = places(bytes, end, announced, columns);
    if code == 0 {
        *count = announced;
        *frame = end;
    }
    code
}

/// How many bytes the row at the front takes, and how many values it has.
#[inline(always)]
fn row_head(bytes: &[u8]) -> Option<(usize, usize)>
    ensures some { IfSome result (λ x. BeginsWithRow bytes.now x.0 x.1) }
    ensures none { result ≡ None → (row : CountedBytes) (rest : List ℕ) → TakesFrame bytes.now (Ok (DataRow row)) rest → ⊥ }
{
    let mut messages = Messages::new(bytes);
    match messages.next_row() {
        Some(row) => Some((
            bytes.len() - messages.rest().len(),
            row.ranges().size_hint().0,
        )),
        None => None,
    }
}

/// The places of so many values, which are all that stands from place 7 of the bytes up to this one.
#[inline(always)]
fn places(bytes: &[u8], end: usize, count: usize, columns: &mut [PgpColumn]) -> u32
    requires few { count ≤ length columns.old }
    requires head { 7 ≤ end }
    requires within { end ≤ length bytes.now }
    ensures values { result ≡ 0 → HasValues bytes.now end count (take count columns.new) }
    ensures malformed { result ≢ 0 → LacksValue bytes.now end count result }
    ensures behind { drop count columns.new ≡ drop count columns.old }
    ensures same { length columns.new ≡ length columns.old }
{
    let mut rest = &bytes[7..end];
    'values: for i in 0..count {
        match Values::read(end - rest.len(), rest) {
            // (written apart, so that neither goes by way of the other's registers)
            Ok((more, column)) => {
                rest = more;
                if column.is_null {
                    columns[i] = null();
                } else {
                    columns[i] = column;
                }
            }
            Err(e) => return failed(e),
        }
    }
    if rest.is_empty() {
        return 0;
    }
    failed(Error::NotDrained)
}

/// The values of a row.
struct Values;

impl Listed for Values {
    ghost use Rattle.std.specs.Prelude.{ℕ, Option};
    ghost use Rattle.std.specs.declared.ops.Range.{Range};
    ghost use Rattle.pgp_message.specs.Items.{RangeSpelled, RangeRefused};
    ghost use Rattle.for_c.specs.Listings.{IsColumnInside, range_of};

    type Item = PgpColumn;

    ghost Meaning = { Option (Range ℕ) };

    ghost meaning = { λ bytes column. range_of column };

    ghost Spelled = { RangeSpelled };

    ghost Refused = { RangeRefused };

    ghost Inside = { λ size column. IsColumnInside size column };

    fn read(at: usize, rest: &[u8]) -> Result<(&[u8], PgpColumn), Error> {
        let (more, column) = column_at(at, rest)?;
        Ok((more, column))
    }
}

/// What stands after the value at the front, which begins at this place; and the value's place.
fn column_at(place: usize, bytes: &[u8]) -> Result<(&[u8], PgpColumn), Error>
    requires { place + length bytes.now < 2 ^ 64 }
    ensures read { Answers (λ x. (range_of x.1, x.0.now)) result (range_at place bytes.now) }
    ensures null { IfOk result (λ x. x.1.is_null ≡ true → (x.1.start ≡ 0) × (x.1.end ≡ 0)) }
{
    match range_at(place, bytes) {
        Ok((range, rest)) => Ok((rest, column(range))),
        Err(e) => Err(e),
    }
}

/// A value by its place, or null.
fn column(range: Option<Range<usize>>) -> PgpColumn
    ensures place { range_of result ≡ range }
    ensures null { result.is_null ≡ true → (result.start ≡ 0) × (result.end ≡ 0) }
{
    match range {
        Some(Range { start, end }) => PgpColumn {
            start,
            end,
            is_null: false,
        },
        None => null(),
    }
}

/// The place of a null.
fn null() -> PgpColumn
    ensures { result ≡ record { start = 0; end = 0; is_null = true } }
{
    PgpColumn {
        start: 0,
        end: 0,
        is_null: true,
    }
}
