//! Ranges and multiranges.

ghost use Rattle.std.specs.Prelude.{◌≡◌, Some};
ghost use Rattle.pgp_types.specs.Part.{shown};
ghost use Rattle.pgp_types.specs.Range.{between, range};
ghost use Rattle.pgp_types.specs.RangeReading.{shown_range, shown_side};
ghost use Rattle.pgp_values.specs.Multirange.{multirange};
ghost use Rattle.pgp_value_text.specs.Parts.{listed, Pushes, PushesAll};
ghost use Rattle.pgp_value_text.specs.RangeText.{closing, opening, ShowsBound, ShowsMultirange, ShowsRange, ShowsSide};
ghost use Rattle.pgp_value_text.specs.ValueText.{Shows, Tells};

use crate::format::put_plain;
use crate::put::put_raw;
use crate::quoting::push_quoted;
use bytes::BytesMut;
use pgp_base::{FallibleIterator, Memory, Oid};
use pgp_types::{Range, RangeBound, range_from_sql};
use pgp_values::{MultirangeRanges, multirange_from_sql};
use std::alloc::AllocError;

// Adds the text of a bound by way of a buffer.
fn push_bytes<A: Memory>(
    type_oid: Oid,
    bytes: &[u8],
    bound: &mut BytesMut<A>,
    out: &mut BytesMut<A>,
) -> Result<bool, AllocError>
    ensures { Pushes (ShowsBound type_oid (Some bytes.now)) (λ t. t) A.Lacks out.old.items out.new.items result }
{
    bound.clear();
    if !put_plain(type_oid, bytes, bound)? {
        return Ok(false);
    }
    push_quoted(true, bound.as_slice(), out)?;
    Ok(true)
}

// Adds a bound that isn't a null.
fn push_bound<A: Memory>(
    type_oid: Oid,
    value: Option<&[u8]>,
    bound: &mut BytesMut<A>,
    out: &mut BytesMut<A>,
) -> Result<bool, AllocError>
    ensures { Pushes (ShowsBound type_oid (shown value.entry)) (λ t. t) A.Lacks out.old.items out.new.items result }
{
    match value {
        Some(bytes) => push_bytes(type_oid, bytes, bound, out),
        None => Ok(false),
    }
}

// Adds the bound of a side, if it has one.
fn push_side<A: Memory>(
    type_oid: Oid,
    side: RangeBound<Option<&[u8]>>,
    bound: &mut BytesMut<A>,
    out: &mut BytesMut<A>,
) -> Result<bool, AllocError>
    ensures { Pushes (ShowsSide type_oid (shown_side side.entry)) (λ t. t) A.Lacks out.old.items out.new.items result }
{
    match side {
        RangeBound::Unbounded => Ok(true),
        RangeBound::Inclusive(value) => push_bound(type_oid, value, bound, out),
        RangeBound::Exclusive(value) => push_bound(type_oid, value, bound, out),
    }
}

fn opening(lower: RangeBound<Option<&[u8]>>) -> u8
    ensures { result ≡ opening (shown_side lower.entry) }
{
    match lower {
        RangeBound::Inclusive(_) => b'[',
        _ => b'(',
    }
}

fn closing(upper: RangeBound<Option<&[u8]>>) -> u8
    ensures { result ≡ closing (shown_side upper.entry) }
{
    match upper {
        RangeBound::Inclusive(_) => b']',
        _ => b')',
    }
}

// Adds a range that isn't empty.
fn push_sides<A: Memory>(
    type_oid: Oid,
    lower: RangeBound<Option<&[u8]>>,
    upper: RangeBound<Option<&[u8]>>,
    bound: &mut BytesMut<A>,
    out: &mut BytesMut<A>,
) -> Result<bool, AllocError>
    ensures { Pushes (ShowsRange type_oid (between (shown_side lower.entry) (shown_side upper.entry))) (λ t. t) A.Lacks out.old.items out.new.items result }
{
    A::append(out, &[opening(lower)])?;
    if !push_side(type_oid, lower, bound, out)? {
        return Ok(false);
    }
    A::append(out, b",")?;
    if !push_side(type_oid, upper, bound, out)? {
        return Ok(false);
    }
    A::append(out, &[closing(upper)])?;
    Ok(true)
}

// Adds a range.
fn push_range<A: Memory>(
    type_oid: Oid,
    range: Range<'_>,
    bound: &mut BytesMut<A>,
    out: &mut BytesMut<A>,
) -> Result<bool, AllocError>
    ensures { Pushes (ShowsRange type_oid (shown_range range.entry)) (λ t. t) A.Lacks out.old.items out.new.items result }
{
    match range {
        Range::Empty => put_raw(b"empty", out),
        Range::Nonempty(lower, upper) => push_sides(type_oid, lower, upper, bound, out),
    }
}

// Adds a range that is given as its bytes.
fn push_member<A: Memory>(
    type_oid: Oid,
    bytes: &[u8],
    bound: &mut BytesMut<A>,
    out: &mut BytesMut<A>,
) -> Result<bool, AllocError>
    ensures { Pushes (Shows range (ShowsRange type_oid) bytes.now) (λ t. t) A.Lacks out.old.items out.new.items result }
{
    match range_from_sql(bytes) {
        Ok(range) => push_range(type_oid, range, bound, out),
        Err(_) => Ok(false),
    }
}

/// Adds the text of a range with bounds of this type.
pub(crate) fn put_range<A: Memory>(
    type_oid: Oid,
    bytes: &[u8],
    text: &mut BytesMut<A>,
) -> Result<bool, AllocError>
    ensures { Tells (Shows range (ShowsRange type_oid) bytes.now) A.Lacks text.old.items text.new.items result }
{
    let mut bound = BytesMut::new(*text.allocator());
    let mut shown = BytesMut::new(*text.allocator());
    if push_member(type_oid, bytes, &mut bound, &mut shown)? {
        put_raw(shown.as_slice(), text)
    } else {
        Ok(false)
    }
}

// Adds a range, with a comma before it where another stands there.
fn push_listed<A: Memory>(
    type_oid: Oid,
    place: usize,
    bytes: &[u8],
    bound: &mut BytesMut<A>,
    out: &mut BytesMut<A>,
) -> Result<bool, AllocError>
    ensures { Pushes (Shows range (ShowsRange type_oid) bytes.now) (listed place) A.Lacks out.old.items out.new.items result }
{
    if place != 0 {
        A::append(out, b",")?;
    }
    push_member(type_oid, bytes, bound, out)
}

// Adds so many ranges, if there are no more and no fewer.
fn push_ranges<A: Memory>(
    type_oid: Oid,
    size: usize,
    mut ranges: MultirangeRanges<'_>,
    bound: &mut BytesMut<A>,
    out: &mut BytesMut<A>,
) -> Result<bool, AllocError>
    ensures { PushesAll (Shows range (ShowsRange type_oid)) listed size ranges.entry A.Lacks out.old.items out.new.items result }
{
    'members: for place in 0..size {
        match ranges.next() {
            Ok(Some(bytes)) => {
                if !push_listed(type_oid, place, bytes, bound, out)? {
                    return Ok(false);
                }
            }
            _ => return Ok(false),
        }
    }
    match ranges.next() {
        Ok(None) => Ok(true),
        _ => Ok(false),
    }
}

// Adds the text of a multirange.
fn put_ranges<A: Memory>(
    type_oid: Oid,
    ranges: MultirangeRanges<'_>,
    text: &mut BytesMut<A>,
) -> Result<bool, AllocError>
    ensures { Tells (ShowsMultirange type_oid ranges.entry) A.Lacks text.old.items text.new.items result }
{
    let size = ranges.size_hint().0;
    let mut bound = BytesMut::new(*text.allocator());
    let mut shown = BytesMut::new(*text.allocator());
    A::append(&mut shown, b"{")?;
    if push_ranges(type_oid, size, ranges, &mut bound, &mut shown)? {
        A::append(&mut shown, b"}")?;
        put_raw(shown.as_slice(), text)
    } else {
        Ok(false)
    }
}

/// Adds the text of a multirange whose ranges have bounds of this type.
pub(crate) fn put_multirange<A: Memory>(
    type_oid: Oid,
    bytes: &[u8],
    text: &mut BytesMut<A>,
) -> Result<bool, AllocError>
    ensures { Tells (Shows multirange (ShowsMultirange type_oid) bytes.now) A.Lacks text.old.items text.new.items result }
{
    match multirange_from_sql(bytes) {
        Ok(ranges) => put_ranges(type_oid, ranges, text),
        Err(_) => Ok(false),
    }
}
