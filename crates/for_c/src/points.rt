//! Polygons and paths: their points, read where they stand, one after another; and written.
#![tactic(auto, using(pgp_base::proofs::Parts::held_steps))]

ghost use Rattle.std.specs.Prelude.{◌≡◌, ◌≢◌, ◌⊎◌, length, map, Some, None, OnOk, IfOk, IfErr};
ghost use Rattle.pgp_base.specs.Cause.{Wants, WantsMemory};
ghost use Rattle.pgp_base.specs.Held.{◌⊕◌};
ghost use Rattle.pgp_types.specs.Part.{Begins};
ghost use Rattle.pgp_types.specs.Path.{path, point_part};
ghost use Rattle.pgp_values.specs.Polygon.{polygon};
ghost use Rattle.for_c.specs.Geometry.{point_of};
ghost use Rattle.for_c.specs.ListWriting.{IsNotWritten, WroteValue};
ghost use Rattle.for_c.specs.Points.{BeginsPath, path_of};
ghost use Rattle.for_c.specs.Records.{BeginsList};
ghost use Rattle.for_c.specs.Values.{Refuses};
ghost use Rattle.for_c.specs.Walks.{IsEnded, RefusesItem, Takes};

use crate::cursor::{Listed, PgpCursor, begin, next_counted};
use crate::geometry::{PgpPoint, shown};
use crate::list_writing::{Written, put_list, write_list};
use crate::status::{ended, failed};
use pgp_base::{Buffer, Error, FallibleIterator, Window};

/// Writes a `polygon` of these points.
#[unsafe(no_mangle)]
pub extern "C" fn pgp_put_polygon(points: &[PgpPoint], out: &mut [u8], written: &mut usize) -> u32
    ensures wrote { result ≡ 0 → WroteValue polygon (map point_of points.now) out.old out.new written.new }
    ensures refused { result ≢ 0 → IsNotWritten polygon (map point_of points.now) out.old written.new result }
{
    write_list(points, out, written)
}

/// Writes a `path` of these points; in a closed one the last is joined to the first.
#[unsafe(no_mangle)]
pub extern "C" fn pgp_put_path(
    is_closed: bool,
    points: &[PgpPoint],
    out: &mut [u8],
    written: &mut usize,
) -> u32
    ensures wrote { result ≡ 0 → WroteValue path (path_of is_closed points.now) out.old out.new written.new }
    ensures refused { result ≢ 0 → IsNotWritten path (path_of is_closed points.now) out.old written.new result }
{
    let mut window = Window::new(out);
    let answer = put_path(is_closed, points, &mut window);
    ended(answer, &window, written)
}

/// Whether it is closed, how many points there are, and all of them.
fn put_path<B: Buffer>(is_closed: bool, points: &[PgpPoint], buf: &mut B) -> Result<(), Error>
    ensures ok { OnOk result ((path.cause (path_of is_closed points.now) ≡ None) × (B.held buf.new ≡ B.held buf.old ⊕ path.written (path_of is_closed points.now))) }
    ensures cause { IfErr result (λ e. WantsMemory (Wants B.Lacks (B.held buf.old) (length (path.written (path_of is_closed points.now)))) e ⊎ (path.cause (path_of is_closed points.now) ≡ Some e)) }
{
    match pgp_types::bool_to_sql(is_closed, buf) {
        Ok(()) => put_list(points, buf),
        Err(e) => Err(e),
    }
}

impl Written for PgpPoint {
    ghost use Rattle.pgp_types.specs.Geometry.{Point};
    ghost use Rattle.pgp_values.specs.Polygon.{corner};
    ghost use Rattle.for_c.specs.Geometry.{point_of};

    ghost Meaning = { Point };

    ghost meaning = { λ p. point_of p };

    ghost item = { corner };

    fn put<B: Buffer>(&self, buf: &mut B) -> Result<(), Error> {
        pgp_types::point_to_sql(self.x, self.y, buf)
    }
}

/// Reads how many points a `polygon` has, and where the first begins.
#[unsafe(no_mangle)]
pub extern "C" fn pgp_get_polygon(bytes: &[u8], points: &mut PgpCursor) -> u32
    ensures read { result ≡ 0 → BeginsList bytes.now points.new }
    ensures refused { result ≢ 0 → Refuses polygon bytes.now result }
    ensures left { result ≢ 0 → points.new ≡ points.old }
{
    match pgp_values::polygon_from_sql(bytes) {
        Ok(walk) => begin(bytes, walk.size_hint().0, points),
        Err(e) => failed(e),
    }
}

/// Reads whether a `path` is closed, how many points it has, and where the first begins.
#[unsafe(no_mangle)]
pub extern "C" fn pgp_get_path(bytes: &[u8], is_closed: &mut bool, points: &mut PgpCursor) -> u32
    ensures read { result ≡ 0 → BeginsPath bytes.now is_closed.new points.new }
    ensures refused { result ≢ 0 → Refuses path bytes.now result }
    ensures left { result ≢ 0 → (is_closed.new ≡ is_closed.old) × (points.new ≡ points.old) }
{
    match pgp_types::path_from_sql(bytes) {
        Ok(path) => {
            *is_closed = path.closed();
            *points = PgpCursor {
                at: 5,
                end: bytes.len(),
                left: path.points().size_hint().0,
            };
            0
        }
        Err(e) => failed(e),
    }
}

/// The next point of a `polygon` or a `path`.
#[unsafe(no_mangle)]
pub extern "C" fn pgp_point_next(bytes: &[u8], cursor: &mut PgpCursor, point: &mut PgpPoint) -> u32
    ensures item { result ≡ 0 → Takes (λ place. point_part.Spelled) bytes.now cursor.old cursor.new (point_of point.new) }
    ensures done { result ≡ 101 → IsEnded bytes.now cursor.old }
    ensures refused { result ≢ 0 → result ≢ 101 → RefusesItem point_part.Refused bytes.now cursor.old result }
    ensures left { result ≢ 0 → (cursor.new ≡ cursor.old) × (point.new ≡ point.old) }
{
    next_counted::<Points>(bytes, cursor, point)
}

/// The points of a polygon or a path.
struct Points;

impl Listed for Points {
    ghost use Rattle.std.specs.Prelude.{⊤};
    ghost use Rattle.pgp_types.specs.Geometry.{Point};
    ghost use Rattle.pgp_types.specs.Path.{point_part};
    ghost use Rattle.for_c.specs.Geometry.{point_of};

    type Item = PgpPoint;

    ghost Meaning = { Point };

    ghost meaning = { λ bytes p. point_of p };

    ghost Spelled = { λ place. point_part.Spelled };

    ghost Refused = { point_part.Refused };

    ghost Inside = { λ size p. ⊤ };

    fn read(_at: usize, rest: &[u8]) -> Result<(&[u8], PgpPoint), Error> {
        match point_at(rest) {
            Ok((point, more)) => Ok((more, point)),
            Err(e) => Err(e),
        }
    }
}

/// The point at the front.
fn point_at(bytes: &[u8]) -> Result<(PgpPoint, &[u8]), Error>
    ensures point { IfOk result (λ x. Begins point_part bytes.now (point_of x.0) x.1.now) }
    ensures refused { IfErr result (λ e. point_part.Refused bytes.now e) }
{
    if bytes.len() < 16 {
        return Err(Error::UnexpectedEof);
    }
    let (front, rest) = bytes.split_at(16);
    match pgp_types::point_from_sql(front) {
        Ok(point) => Ok((shown(point), rest)),
        Err(e) => Err(e),
    }
}
