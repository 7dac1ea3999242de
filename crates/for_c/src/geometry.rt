//! Points, boxes, lines, segments and circles. A coordinate is the bits of a floating-point number.

ghost use Rattle.std.specs.Prelude.{◌≡◌, ◌≢◌, Ok};
ghost use Rattle.pgp_types.specs.Format.{Reads};
ghost use Rattle.pgp_types.specs.Geometry.{box, point};
ghost use Rattle.pgp_values.specs.Geometry.{circle, line, lseg};
ghost use Rattle.for_c.specs.Geometry.{box_of, circle_of, line_of, point_of, segment_of};
ghost use Rattle.for_c.specs.Values.{Lacks, Refuses, Wrote};

use crate::scalar::{Scalar, put};
use crate::status::{failed, found};
use pgp_types::Point;
use pgp_values::{Circle, Line, Segment};

/// A `point`.
#[repr(C)]
#[derive(Clone, Copy)]
pub struct PgpPoint {
    pub x: u64,
    pub y: u64,
}

/// A `box`, by two of its corners.
#[repr(C)]
#[derive(Clone, Copy)]
pub struct PgpBox {
    pub upper_right: PgpPoint,
    pub lower_left: PgpPoint,
}

/// A `line`: the points with `a * x + b * y + c = 0`.
#[repr(C)]
#[derive(Clone, Copy)]
pub struct PgpLine {
    pub a: u64,
    pub b: u64,
    pub c: u64,
}

/// An `lseg`, by its two ends.
#[repr(C)]
#[derive(Clone, Copy)]
pub struct PgpLseg {
    pub start: PgpPoint,
    pub end: PgpPoint,
}

/// A `circle`.
#[repr(C)]
#[derive(Clone, Copy)]
pub struct PgpCircle {
    pub center: PgpPoint,
    pub radius: u64,
}

/// The point.
pub(crate) fn shown(point: Point) -> PgpPoint
    ensures { point_of result ≡ point }
{
    PgpPoint {
        x: point.x(),
        y: point.y(),
    }
}

/// Writes a `point`.
#[unsafe(no_mangle)]
pub extern "C" fn pgp_put_point(value: &PgpPoint, out: &mut [u8], written: &mut usize) -> u32
    ensures wrote { result ≡ 0 → Wrote (point.written (point_of value.now)) out.old out.new written.new }
    ensures lacks { result ≢ 0 → Lacks (point.written (point_of value.now)) out.old written.new result }
{
    put(Scalar::Point(value.x, value.y), out, written)
}

/// Reads a `point`, from all of the bytes.
#[unsafe(no_mangle)]
pub extern "C" fn pgp_get_point(bytes: &[u8], value: &mut PgpPoint) -> u32
    ensures read { result ≡ 0 → Reads point bytes.now (Ok (point_of value.new)) }
    ensures refused { result ≢ 0 → Refuses point bytes.now result }
    ensures left { result ≢ 0 → value.new ≡ value.old }
{
    match pgp_types::point_from_sql(bytes) {
        Ok(read) => found(shown(read), value),
        Err(e) => failed(e),
    }
}

/// Writes a `box`.
#[unsafe(no_mangle)]
pub extern "C" fn pgp_put_box(value: &PgpBox, out: &mut [u8], written: &mut usize) -> u32
    ensures wrote { result ≡ 0 → Wrote (box.written (box_of value.now)) out.old out.new written.new }
    ensures lacks { result ≢ 0 → Lacks (box.written (box_of value.now)) out.old written.new result }
{
    let (one, two) = (value.upper_right, value.lower_left);
    put(Scalar::Box(one.x, one.y, two.x, two.y), out, written)
}

/// Reads a `box`, from all of the bytes.
#[unsafe(no_mangle)]
pub extern "C" fn pgp_get_box(bytes: &[u8], value: &mut PgpBox) -> u32
    ensures read { result ≡ 0 → Reads box bytes.now (Ok (box_of value.new)) }
    ensures refused { result ≢ 0 → Refuses box bytes.now result }
    ensures left { result ≢ 0 → value.new ≡ value.old }
{
    match pgp_types::box_from_sql(bytes) {
        Ok(read) => {
            *value = PgpBox {
                upper_right: shown(read.upper_right()),
                lower_left: shown(read.lower_left()),
            };
            0
        }
        Err(e) => failed(e),
    }
}

/// Writes a `line`.
#[unsafe(no_mangle)]
pub extern "C" fn pgp_put_line(value: &PgpLine, out: &mut [u8], written: &mut usize) -> u32
    ensures wrote { result ≡ 0 → Wrote (line.written (line_of value.now)) out.old out.new written.new }
    ensures lacks { result ≢ 0 → Lacks (line.written (line_of value.now)) out.old written.new result }
{
    let PgpLine { a, b, c } = *value;
    put(Scalar::Line(Line { a, b, c }), out, written)
}

/// Reads a `line`, from all of the bytes.
#[unsafe(no_mangle)]
pub extern "C" fn pgp_get_line(bytes: &[u8], value: &mut PgpLine) -> u32
    ensures read { result ≡ 0 → Reads line bytes.now (Ok (line_of value.new)) }
    ensures refused { result ≢ 0 → Refuses line bytes.now result }
    ensures left { result ≢ 0 → value.new ≡ value.old }
{
    match pgp_values::line_from_sql(bytes) {
        Ok(Line { a, b, c }) => found(PgpLine { a, b, c }, value),
        Err(e) => failed(e),
    }
}

/// Writes an `lseg`.
#[unsafe(no_mangle)]
pub extern "C" fn pgp_put_lseg(value: &PgpLseg, out: &mut [u8], written: &mut usize) -> u32
    ensures wrote { result ≡ 0 → Wrote (lseg.written (segment_of value.now)) out.old out.new written.new }
    ensures lacks { result ≢ 0 → Lacks (lseg.written (segment_of value.now)) out.old written.new result }
{
    let PgpPoint { x: x1, y: y1 } = value.start;
    let PgpPoint { x: x2, y: y2 } = value.end;
    put(Scalar::Lseg(Segment { x1, y1, x2, y2 }), out, written)
}

/// Reads an `lseg`, from all of the bytes.
#[unsafe(no_mangle)]
pub extern "C" fn pgp_get_lseg(bytes: &[u8], value: &mut PgpLseg) -> u32
    ensures read { result ≡ 0 → Reads lseg bytes.now (Ok (segment_of value.new)) }
    ensures refused { result ≢ 0 → Refuses lseg bytes.now result }
    ensures left { result ≢ 0 → value.new ≡ value.old }
{
    match pgp_values::lseg_from_sql(bytes) {
        Ok(Segment { x1, y1, x2, y2 }) => {
            let start = PgpPoint { x: x1, y: y1 };
            let end = PgpPoint { x: x2, y: y2 };
            found(PgpLseg { start, end }, value)
        }
        Err(e) => failed(e),
    }
}

/// Writes a `circle`.
#[unsafe(no_mangle)]
pub extern "C" fn pgp_put_circle(value: &PgpCircle, out: &mut [u8], written: &mut usize) -> u32
    ensures wrote { result ≡ 0 → Wrote (circle.written (circle_of value.now)) out.old out.new written.new }
    ensures lacks { result ≢ 0 → Lacks (circle.written (circle_of value.now)) out.old written.new result }
{
    let PgpPoint { x, y } = value.center;
    let radius = value.radius;
    put(Scalar::Circle(Circle { x, y, radius }), out, written)
}

/// Reads a `circle`, from all of the bytes.
#[unsafe(no_mangle)]
pub extern "C" fn pgp_get_circle(bytes: &[u8], value: &mut PgpCircle) -> u32
    ensures read { result ≡ 0 → Reads circle bytes.now (Ok (circle_of value.new)) }
    ensures refused { result ≢ 0 → Refuses circle bytes.now result }
    ensures left { result ≢ 0 → value.new ≡ value.old }
{
    match pgp_values::circle_from_sql(bytes) {
        Ok(Circle { x, y, radius }) => {
            let center = PgpPoint { x, y };
            found(PgpCircle { center, radius }, value)
        }
        Err(e) => failed(e),
    }
}
