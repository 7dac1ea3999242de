//! Paths.
//!
//! PostgreSQL manual, "Geometric Types".
#![tactic(auto, using(pgp_base::proofs::Parts::held_steps))]

ghost use Rattle.std.specs.Prelude.{◌≡◌, ◌≤◌, ◌⊎◌, ℕ, length, OnOk, OnErr, IfOk, IfErr};
ghost use Rattle.std.specs.Iterator.{IsFiniteIterable};
ghost use Rattle.pgp_base.specs.Held.{IsFrontOf};
ghost use Rattle.pgp_base.specs.Calls.{Yielded};
ghost use Rattle.pgp_base.specs.PartReading.{Answers};
ghost use Rattle.pgp_types.specs.Format.{Reads};
ghost use Rattle.pgp_types.specs.Given.{Whole, Stops, WritesAll, WantsValue};
ghost use Rattle.pgp_types.specs.PartReading.{point_at};
ghost use Rattle.pgp_types.specs.Path.{path, path_of, point_at_xy};

use crate::codec::MOST_ITEMS;
use crate::geometry::{Point, point_of, point_to_sql};
use crate::part::natural_at;
use crate::scalar::bool_to_sql;
use pgp_base::reading::byte_at;
use pgp_base::{Buffer, Counted, Error, FallibleIterator, patch_u32, put_u32};
use std::marker::Model;

/// A `path`: points, of which the last may be joined to the first.
#[derive(Drop)]
pub struct Path<'a> {
    closed: bool,
    count: usize,
    points: &'a [u8],
}

impl<'a> Model for Path<'a> {
    ghost use Rattle.std.specs.Prelude.{None};
    ghost use Rattle.pgp_base.specs.WalkReading.{counted};
    ghost use Rattle.pgp_types.specs.PartReading.{point_at};
    ghost use Rattle.pgp_types.specs.Path.{WalkedPath};

    ghost Value = { WalkedPath };

    ghost view = { λ p. record { closed = p.closed; points = counted point_at p.count p.points.now None } };
}

impl<'a> Path<'a> {
    /// Whether the last point is joined to the first.
    pub fn closed(&self) -> bool
        ensures { result ≡ self.now.closed }
    {
        self.closed
    }

    /// The points, from the first on.
    pub fn points(&self) -> PathPoints<'a>
        ensures { result ≡ self.now.points }
    {
        PathPoints(Counted::new(self.points, self.count))
    }
}

/// The points of a path. One that is cut short is `UnexpectedEof`; bytes after the last are `NotDrained`.
#[derive(Drop)]
pub struct PathPoints<'a>(Counted<'a>);

impl<'a> Model for PathPoints<'a> {
    ghost use Rattle.pgp_base.specs.CountedRest.{walk_of};
    ghost use Rattle.pgp_base.specs.Walk.{Walk};
    ghost use Rattle.pgp_types.specs.Geometry.{Point};
    ghost use Rattle.pgp_types.specs.PartReading.{point_at};

    ghost Value = { Walk Point };

    ghost view = { λ walk. walk_of point_at walk.0 };
}

impl FallibleIterator for PathPoints<'_> {
    type Item = Point;

    ghost use Rattle.pgp_types.specs.Geometry.{Point as PointValue};

    ghost Meaning = { PointValue };

    ghost meaning = { λ x. x };

    ghost walk = { λ s. s };

    fn next(&mut self) -> Result<Option<Point>, Error> {
        match self.0.due()? {
            Some(buf) => match self.0.take(point_at(buf))? {
                Some((x, y)) => Ok(Some(Point::new(x, y))),
                None => Ok(None),
            },
            None => Ok(None),
        }
    }

    fn size_hint(&self) -> (usize, Option<usize>) {
        self.0.size_hint()
    }
}

// The coordinates of the point at the front.
fn point_at(bytes: &[u8]) -> Result<((u64, u64), &[u8]), Error>
    ensures { Answers (λ x. (point_at_xy x.0, x.1.now)) result (point_at bytes.now) }
{
    if bytes.len() < 16 {
        return Err(Error::UnexpectedEof);
    }
    let (front, rest) = bytes.split_at(16);
    let point = point_of(front);
    Ok(((point.x(), point.y()), rest))
}

// The value. An error leaves what stood there as a front.
fn fill_path<B: Buffer, I: IntoIterator<Item = (u64, u64)> + Drop>(
    closed: bool,
    points: I,
    buf: &mut B,
) -> Result<(), Error>
where
    I::IntoIter: Drop,
    requires { IsFiniteIterable I.into_iter_gives I.IntoIter.can_next I.IntoIter.remaining points }
    ensures ok { OnOk result (Whole (Yielded I.into_iter_gives I.IntoIter.next_gives points) path (path_of closed) (B.held buf.old) (B.held buf.new)) }
    ensures err { OnErr result (IsFrontOf (B.held buf.old) (B.held buf.new)) }
    ensures cause { IfErr result (λ e. WantsValue (Yielded I.into_iter_gives I.IntoIter.next_gives points) path (path_of closed) B.Lacks (B.held buf.old) e ⊎ Stops (Yielded I.into_iter_gives I.IntoIter.next_gives points) path (path_of closed) e) }
{
    bool_to_sql(closed, buf)?;
    let base = buf.len();
    put_u32(buf, 0)?;
    let mut count = 0u32;
    for (x, y) in points {
        if count == MOST_ITEMS {
            return Err(Error::TooLarge);
        }
        point_to_sql(x, y, buf)?;
        count += 1;
    }
    patch_u32(buf, base, count);
    Ok(())
}

/// Appends a `path` of points with these coordinates, each the bits of a floating-point number.
///
/// # Errors
///
/// Returns `TooLarge` at a point past the greatest `i32`, before it is written; `OutOfMemory` if the buffer can't
/// grow. On error the buffer is unchanged.
pub fn path_to_sql<B: Buffer, I: IntoIterator<Item = (u64, u64)> + Drop>(
    closed: bool,
    points: I,
    buf: &mut B,
) -> Result<(), Error>
where
    I::IntoIter: Drop,
    requires { IsFiniteIterable I.into_iter_gives I.IntoIter.can_next I.IntoIter.remaining points }
    ensures { WritesAll (Yielded I.into_iter_gives I.IntoIter.next_gives points) path (path_of closed) B.Lacks (B.held buf.old) result (B.held buf.new) }
{
    let start = buf.len();
    match fill_path(closed, points, buf) {
        Ok(()) => Ok(()),
        Err(e) => {
            buf.truncate(start);
            Err(e)
        }
    }
}

/// Reads a `path`. Its points are read as they are asked for.
///
/// # Errors
///
/// Returns `UnexpectedEof` if the byte that says whether it is closed is missing, or the number of points is cut
/// short; `InvalidCount` if that is negative.
pub fn path_from_sql(buf: &[u8]) -> Result<Path<'_>, Error>
    ensures value { Reads path buf.now result }
    ensures few { IfOk result (λ p. length p.points.items ≤ length buf.now) }
{
    let (closed, rest) = byte_at(buf)?;
    let (count, points) = natural_at(rest, Error::InvalidCount)?;
    Ok(Path {
        closed: closed != 0,
        count,
        points,
    })
}
