//! Polygons.
//!
//! PostgreSQL manual, "Geometric Types".

ghost use Rattle.std.specs.Prelude.{◌≡◌, ◌≤◌, ◌⊎◌, ℕ, List, map, length, Some, None, OnOk, OnErr, IfOk, IfErr};
ghost use Rattle.std.specs.Iterator.{IsFiniteIterable};
ghost use Rattle.pgp_base.specs.Calls.{Yielded};
ghost use Rattle.pgp_base.specs.PartReading.{Answers};
ghost use Rattle.pgp_types.specs.Format.{Reads};
ghost use Rattle.pgp_types.specs.Given.{WritesAll};
ghost use Rattle.pgp_types.specs.Path.{point_at_xy};
ghost use Rattle.pgp_types.specs.PartReading.{point_at};
ghost use Rattle.pgp_values.specs.Polygon.{polygon};

use crate::codec::uint64_of;
use crate::list::{PutItem, write_list};
use pgp_base::{Buffer, Counted, Error, FallibleIterator};
use pgp_types::part::natural_at;
use pgp_types::point_to_sql;
use std::marker::Model;

// The coordinates of a point.
impl PutItem for (u64, u64) {
    ghost use Rattle.pgp_types.specs.Geometry.{Point};
    ghost use Rattle.pgp_types.specs.Path.{point_at_xy};
    ghost use Rattle.pgp_values.specs.Polygon.{corner};

    ghost Meaning = { Point };

    ghost meaning = { λ x. point_at_xy x };

    ghost item = { corner };

    fn put<B: Buffer>(self, buf: &mut B) -> Result<(), Error> {
        let (x, y) = self;
        point_to_sql(x, y, buf)
    }
}

/// Appends a `polygon` of points with these coordinates, each the bits of a floating-point number.
///
/// # Errors
///
/// Returns `TooLarge` at a point past `i32::MAX` of them; `OutOfMemory` if the buffer can't grow. On error the buffer is
/// unchanged.
pub fn polygon_to_sql<B: Buffer, I: IntoIterator<Item = (u64, u64)> + Drop>(
    points: I,
    buf: &mut B,
) -> Result<(), Error>
where
    I::IntoIter: Drop,
    requires { IsFiniteIterable I.into_iter_gives I.IntoIter.can_next I.IntoIter.remaining points }
    ensures { WritesAll (Yielded I.into_iter_gives I.IntoIter.next_gives points) polygon (λ xs. map point_at_xy xs) B.Lacks (B.held buf.old) result (B.held buf.new) }
{
    write_list(points, buf)
}

/// The points of a polygon, as their coordinates. `next` returns `UnexpectedEof` if one is cut short, `NotDrained` if bytes
/// follow the last.
#[derive(Drop)]
pub struct PolygonPoints<'a>(Counted<'a>);

impl<'a> Model for PolygonPoints<'a> {
    ghost use Rattle.pgp_base.specs.CountedRest.{walk_of};
    ghost use Rattle.pgp_base.specs.Walk.{Walk};
    ghost use Rattle.pgp_types.specs.Geometry.{Point};
    ghost use Rattle.pgp_types.specs.PartReading.{point_at};

    ghost Value = { Walk Point };

    ghost view = { λ walk. walk_of point_at walk.0 };
}

impl FallibleIterator for PolygonPoints<'_> {
    type Item = (u64, u64);

    ghost use Rattle.pgp_types.specs.Geometry.{Point as PointValue};
    ghost use Rattle.pgp_types.specs.Path.{point_at_xy};

    ghost Meaning = { PointValue };

    ghost meaning = { λ x. point_at_xy x };

    ghost walk = { λ s. s };

    fn next(&mut self) -> Result<Option<(u64, u64)>, Error> {
        match self.0.due() {
            Ok(Some(buf)) => self.0.take(point_at(buf)),
            Ok(None) => Ok(None),
            Err(e) => Err(e),
        }
    }

    fn size_hint(&self) -> (usize, Option<usize>) {
        self.0.size_hint()
    }
}

// The coordinates of the point at the front.
fn point_at(bytes: &[u8]) -> Result<((u64, u64), &[u8]), Error>
    ensures { Answers (λ x. (point_at_xy x.0, x.1.now)) result (point_at bytes.now) }
{
    if bytes.len() < 16 {
        return Err(Error::UnexpectedEof);
    }
    let (front, rest) = bytes.split_at(16);
    let (x, y) = front.split_at(8);
    Ok(((uint64_of(x), uint64_of(y)), rest))
}

/// Reads a `polygon`. Its points are read as they are asked for.
///
/// # Errors
///
/// Returns `UnexpectedEof` if the number of points is cut short, `InvalidCount` if it is negative.
pub fn polygon_from_sql(buf: &[u8]) -> Result<PolygonPoints<'_>, Error>
    ensures value { Reads polygon buf.now result }
    ensures few { IfOk result (λ w. length w.items ≤ length buf.now) }
{
    let (count, points) = natural_at(buf, Error::InvalidCount)?;
    Ok(PolygonPoints(Counted::new(points, count)))
}
