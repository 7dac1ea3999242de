//! Points and boxes. A coordinate is the bits of a floating-point number.
//!
//! PostgreSQL manual, "Geometric Types".
#![tactic(auto, using(pgp_base::proofs::Parts::held_steps))]

ghost use Rattle.std.specs.Prelude.{◌≡◌, ◌<◌, ◌^◌, length};
ghost use Rattle.pgp_base.specs.Wire.{uint64};
ghost use Rattle.pgp_types.specs.Format.{Reads, Writes};
ghost use Rattle.pgp_types.specs.Geometry.{IsPoint, point_bytes, point, box};

use crate::codec::{append_both, block};
use pgp_base::big_endian::{u64_bytes, u64_of};
use pgp_base::{Buffer, Error};
use std::marker::Model;

/// A point.
#[derive(Clone, Copy)]
pub struct Point {
    x: u64,
    y: u64,
}

impl Model for Point {
    ghost use Rattle.pgp_types.specs.Geometry.{Point};

    ghost Value = { Point };

    ghost view = { λ p. record { x = p.x; y = p.y } };

    ghost inverse = { λ p. record { x = p.x; y = p.y } };
}

impl Point {
    // The point with these coordinates.
    pub(crate) fn new(x: u64, y: u64) -> Point
        ensures { result ≡ record { x = x; y = y } }
    {
        Point { x, y }
    }

    /// The bits of the x coordinate.
    pub fn x(&self) -> u64
        ensures { result ≡ self.now.x }
    {
        self.x
    }

    /// The bits of the y coordinate.
    pub fn y(&self) -> u64
        ensures { result ≡ self.now.y }
    {
        self.y
    }
}

/// A box, by two of its corners.
#[derive(Clone, Copy)]
pub struct Box {
    upper_right: Point,
    lower_left: Point,
}

impl Model for Box {
    ghost use Rattle.pgp_types.specs.Geometry.{Box};

    ghost Value = { Box };

    ghost view = { λ b. record { upper_right = b.upper_right; lower_left = b.lower_left } };

    ghost inverse = { λ b. record { upper_right = b.upper_right; lower_left = b.lower_left } };
}

impl Box {
    /// The upper right corner.
    pub fn upper_right(&self) -> Point
        ensures { result ≡ self.now.upper_right }
    {
        self.upper_right
    }

    /// The lower left corner.
    pub fn lower_left(&self) -> Point
        ensures { result ≡ self.now.lower_left }
    {
        self.lower_left
    }
}

/// Appends a `point`.
pub fn point_to_sql<B: Buffer>(x: u64, y: u64, buf: &mut B) -> Result<(), Error>
    ensures { Writes point (record { x = x; y = y }) B.Lacks (B.held buf.old) result (B.held buf.new) }
{
    append_both(&u64_bytes(x), &u64_bytes(y), buf)
}

// The coordinate that eight bytes spell.
fn coordinate_of(bytes: &[u8]) -> u64
    requires { length bytes.now ≡ 8 }
    ensures { (result < 2 ^ 64) × (bytes.now ≡ uint64 result) }
{
    u64_of(bytes.try_into().unwrap())
}

// The point that sixteen bytes spell.
pub(crate) fn point_of(bytes: &[u8]) -> Point
    requires { length bytes.now ≡ 16 }
    ensures { IsPoint result × (bytes.now ≡ point_bytes result) }
{
    let (x, y) = bytes.split_at(8);
    Point {
        x: coordinate_of(x),
        y: coordinate_of(y),
    }
}

/// Reads a `point`.
pub fn point_from_sql(buf: &[u8]) -> Result<Point, Error>
    ensures { Reads point buf.now result }
{
    let bytes: [u8; 16] = block(buf)?;
    Ok(point_of(&bytes))
}

/// Appends a `box`, the upper right corner first.
pub fn box_to_sql<B: Buffer>(x1: u64, y1: u64, x2: u64, y2: u64, buf: &mut B) -> Result<(), Error>
    ensures { Writes box (record { upper_right = record { x = x1; y = y1 }; lower_left = record { x = x2; y = y2 } }) B.Lacks (B.held buf.old) result (B.held buf.new) }
{
    let start = buf.len();
    point_to_sql(x1, y1, buf)?;
    if let Err(refused) = point_to_sql(x2, y2, buf) {
        buf.truncate(start);
        return Err(refused);
    }
    Ok(())
}

/// Reads a `box`.
pub fn box_from_sql(buf: &[u8]) -> Result<Box, Error>
    ensures { Reads box buf.now result }
{
    let bytes: [u8; 32] = block(buf)?;
    let (upper_right, lower_left) = bytes.split_at(16);
    Ok(Box {
        upper_right: point_of(upper_right),
        lower_left: point_of(lower_left),
    })
}
