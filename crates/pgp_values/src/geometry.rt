//! Lines, segments and circles. A coordinate is the bits of a floating-point number.
//!
//! PostgreSQL manual, "Geometric Types".

ghost use Rattle.std.specs.Prelude.{◌≡◌};
ghost use Rattle.pgp_types.specs.Format.{Reads, Writes};
ghost use Rattle.pgp_values.specs.Geometry.{line, lseg, circle};

use crate::codec::{append_three, uint64_of};
use pgp_base::{Buffer, Error};
use pgp_types::box_to_sql;
use pgp_types::codec::block;

/// A `line`: the points with `a * x + b * y + c = 0`.
#[derive(Debug, Clone, Copy, PartialEq, Eq)]
pub struct Line {
    pub a: u64,
    pub b: u64,
    pub c: u64,
}

/// An `lseg`: the coordinates of its two ends.
#[derive(Debug, Clone, Copy, PartialEq, Eq)]
pub struct Segment {
    pub x1: u64,
    pub y1: u64,
    pub x2: u64,
    pub y2: u64,
}

/// A `circle`: its center and its radius.
#[derive(Debug, Clone, Copy, PartialEq, Eq)]
pub struct Circle {
    pub x: u64,
    pub y: u64,
    pub radius: u64,
}

/// Appends a `line`.
pub fn line_to_sql<B: Buffer>(v: Line, buf: &mut B) -> Result<(), Error>
    ensures { Writes line v B.Lacks (B.held buf.old) result (B.held buf.new) }
{
    append_three(
        &v.a.to_be_bytes(),
        &v.b.to_be_bytes(),
        &v.c.to_be_bytes(),
        buf,
    )
}

/// Reads a `line`.
pub fn line_from_sql(buf: &[u8]) -> Result<Line, Error>
    ensures { Reads line buf.now result }
{
    let bytes: [u8; 24] = block(buf)?;
    let (a, rest) = bytes.split_at(8);
    let (b, c) = rest.split_at(8);
    Ok(Line {
        a: uint64_of(a),
        b: uint64_of(b),
        c: uint64_of(c),
    })
}

/// Appends an `lseg`, which has the layout of a `box`.
pub fn lseg_to_sql<B: Buffer>(v: Segment, buf: &mut B) -> Result<(), Error>
    ensures { Writes lseg v B.Lacks (B.held buf.old) result (B.held buf.new) }
{
    box_to_sql(v.x1, v.y1, v.x2, v.y2, buf)
}

/// Reads an `lseg`.
pub fn lseg_from_sql(buf: &[u8]) -> Result<Segment, Error>
    ensures { Reads lseg buf.now result }
{
    let bytes: [u8; 32] = block(buf)?;
    let (start, end) = bytes.split_at(16);
    let (x1, y1) = start.split_at(8);
    let (x2, y2) = end.split_at(8);
    Ok(Segment {
        x1: uint64_of(x1),
        y1: uint64_of(y1),
        x2: uint64_of(x2),
        y2: uint64_of(y2),
    })
}

/// Appends a `circle`, which has the layout of a `line`.
pub fn circle_to_sql<B: Buffer>(v: Circle, buf: &mut B) -> Result<(), Error>
    ensures { Writes circle v B.Lacks (B.held buf.old) result (B.held buf.new) }
{
    let Circle { x, y, radius } = v;
    line_to_sql(
        Line {
            a: x,
            b: y,
            c: radius,
        },
        buf,
    )
}

/// Reads a `circle`.
pub fn circle_from_sql(buf: &[u8]) -> Result<Circle, Error>
    ensures { Reads circle buf.now result }
{
    match line_from_sql(buf) {
        Ok(Line { a, b, c }) => Ok(Circle {
            x: a,
            y: b,
            radius: c,
        }),
        Err(e) => Err(e),
    }
}
