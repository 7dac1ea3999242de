//! Geometric figures.

ghost use Rattle.std.specs.Prelude.{◌≡◌, ◌++◌, from_bits, map};
ghost use Rattle.std.specs.Float.{binary64};
ghost use Rattle.pgp_types.specs.Geometry.{box, point};
ghost use Rattle.pgp_values.specs.Geometry.{circle, line, lseg};
ghost use Rattle.pgp_value_text.specs.Figure.{shown_number, ShowsBox, ShowsCircle, ShowsLine, ShowsNumbers, ShowsPoint, ShowsSegment};
ghost use Rattle.pgp_value_text.specs.Float.{ShowsFloat};
ghost use Rattle.pgp_value_text.specs.Parts.{Pushes};
ghost use Rattle.pgp_value_text.specs.ValueText.{Shows, Tells};

use crate::float::put_double_bits;
use crate::put::{put, put_raw};
use bytes::BytesMut;
use pgp_base::Memory;
use pgp_types::{Point, box_from_sql, point_from_sql};
use pgp_values::{circle_from_sql, line_from_sql, lseg_from_sql};
use std::alloc::AllocError;

// Adds a number after what stands before it.
fn push_number<A: Memory>(
    before: &str,
    bits: u64,
    out: &mut BytesMut<A>,
) -> Result<bool, AllocError>
    ensures { Pushes (ShowsFloat binary64 (from_bits binary64 bits)) (λ t. before.now ++ t) A.Lacks out.old.items out.new.items result }
{
    A::append(out, before.as_bytes())?;
    put_double_bits(bits, out)
}

// Adds numbers, each after what stands before it, and what ends them.
fn push_numbers<A: Memory>(
    numbers: &[(&str, u64)],
    end: &str,
    out: &mut BytesMut<A>,
) -> Result<bool, AllocError>
    ensures { Pushes (ShowsNumbers (map shown_number numbers.now) end.now) (λ t. t) A.Lacks out.old.items out.new.items result }
{
    'each: for number in numbers {
        if !push_number(number.0, number.1, out)? {
            return Ok(false);
        }
    }
    put(end, out)
}

// Adds the text of a figure of such numbers.
fn put_numbers<A: Memory>(
    numbers: &[(&str, u64)],
    end: &str,
    text: &mut BytesMut<A>,
) -> Result<bool, AllocError>
    ensures { Tells (ShowsNumbers (map shown_number numbers.now) end.now) A.Lacks text.old.items text.new.items result }
{
    let mut shown = BytesMut::new(*text.allocator());
    if push_numbers(numbers, end, &mut shown)? {
        put_raw(shown.as_slice(), text)
    } else {
        Ok(false)
    }
}

/// Adds the text of a point.
pub(crate) fn put_pair<A: Memory>(p: Point, text: &mut BytesMut<A>) -> Result<bool, AllocError>
    ensures { Tells (ShowsPoint p) A.Lacks text.old.items text.new.items result }
{
    put_numbers(&[("(", p.x()), (",", p.y())], ")", text)
}

/// Adds the text of a `point`.
pub(crate) fn put_point<A: Memory>(bytes: &[u8], text: &mut BytesMut<A>) -> Result<bool, AllocError>
    ensures { Tells (Shows point ShowsPoint bytes.now) A.Lacks text.old.items text.new.items result }
{
    match point_from_sql(bytes) {
        Ok(p) => put_pair(p, text),
        Err(_) => Ok(false),
    }
}

/// Adds the text of an `lseg`.
pub(crate) fn put_lseg<A: Memory>(bytes: &[u8], text: &mut BytesMut<A>) -> Result<bool, AllocError>
    ensures { Tells (Shows lseg ShowsSegment bytes.now) A.Lacks text.old.items text.new.items result }
{
    match lseg_from_sql(bytes) {
        Ok(v) => put_numbers(
            &[("[(", v.x1), (",", v.y1), ("),(", v.x2), (",", v.y2)],
            ")]",
            text,
        ),
        Err(_) => Ok(false),
    }
}

// Adds the text of two corners.
fn put_corners<A: Memory>(
    first: Point,
    second: Point,
    text: &mut BytesMut<A>,
) -> Result<bool, AllocError>
    ensures { Tells (ShowsBox (record { upper_right = first; lower_left = second })) A.Lacks text.old.items text.new.items result }
{
    put_numbers(
        &[
            ("(", first.x()),
            (",", first.y()),
            ("),(", second.x()),
            (",", second.y()),
        ],
        ")",
        text,
    )
}

/// Adds the text of a `box`.
pub(crate) fn put_box<A: Memory>(bytes: &[u8], text: &mut BytesMut<A>) -> Result<bool, AllocError>
    ensures { Tells (Shows box ShowsBox bytes.now) A.Lacks text.old.items text.new.items result }
{
    match box_from_sql(bytes) {
        Ok(b) => put_corners(b.upper_right(), b.lower_left(), text),
        Err(_) => Ok(false),
    }
}

/// Adds the text of a `line`.
pub(crate) fn put_line<A: Memory>(bytes: &[u8], text: &mut BytesMut<A>) -> Result<bool, AllocError>
    ensures { Tells (Shows line ShowsLine bytes.now) A.Lacks text.old.items text.new.items result }
{
    match line_from_sql(bytes) {
        Ok(v) => put_numbers(&[("{", v.a), (",", v.b), (",", v.c)], "}", text),
        Err(_) => Ok(false),
    }
}

/// Adds the text of a `circle`.
pub(crate) fn put_circle<A: Memory>(
    bytes: &[u8],
    text: &mut BytesMut<A>,
) -> Result<bool, AllocError>
    ensures { Tells (Shows circle ShowsCircle bytes.now) A.Lacks text.old.items text.new.items result }
{
    match circle_from_sql(bytes) {
        Ok(v) => put_numbers(&[("<(", v.x), (",", v.y), ("),", v.radius)], ">", text),
        Err(_) => Ok(false),
    }
}
