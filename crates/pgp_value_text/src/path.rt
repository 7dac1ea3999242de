//! Paths and polygons.

ghost use Rattle.std.specs.Prelude.{◌≡◌, ◌∷◌};
ghost use Rattle.pgp_types.specs.Path.{path};
ghost use Rattle.pgp_value_text.specs.Figure.{ShowsPath, ShowsPoint};
ghost use Rattle.pgp_value_text.specs.Parts.{listed, Pushes, PushesAll, ShowsList};
ghost use Rattle.pgp_value_text.specs.ValueText.{Shows, Tells};

use crate::figure::put_pair;
use crate::put::put_raw;
use bytes::BytesMut;
use pgp_base::{FallibleIterator, Memory};
use pgp_types::{Path, PathPoints, Point, path_from_sql};
use std::alloc::AllocError;

// Adds a point, with a comma before it where another stands there.
fn push_listed<A: Memory>(place: usize, p: Point, out: &mut BytesMut<A>) -> Result<bool, AllocError>
    ensures { Pushes (ShowsPoint p) (listed place) A.Lacks out.old.items out.new.items result }
{
    if place != 0 {
        A::append(out, b",")?;
    }
    put_pair(p, out)
}

// Adds so many points, if there are no more and no fewer.
fn push_points<A: Memory>(
    size: usize,
    mut points: PathPoints<'_>,
    out: &mut BytesMut<A>,
) -> Result<bool, AllocError>
    ensures { PushesAll ShowsPoint listed size points.entry A.Lacks out.old.items out.new.items result }
{
    'each: for place in 0..size {
        match points.next() {
            Ok(Some(p)) => {
                if !push_listed(place, p, out)? {
                    return Ok(false);
                }
            }
            _ => return Ok(false),
        }
    }
    match points.next() {
        Ok(None) => Ok(true),
        _ => Ok(false),
    }
}

// Adds points between what begins and what ends them.
fn put_points<A: Memory>(
    begin: &str,
    end: &str,
    points: PathPoints<'_>,
    text: &mut BytesMut<A>,
) -> Result<bool, AllocError>
    ensures { Tells (ShowsList ShowsPoint begin.now end.now points.entry) A.Lacks text.old.items text.new.items result }
{
    let size = points.size_hint().0;
    let mut shown = BytesMut::new(*text.allocator());
    A::append(&mut shown, begin.as_bytes())?;
    if push_points(size, points, &mut shown)? {
        A::append(&mut shown, end.as_bytes())?;
        put_raw(shown.as_slice(), text)
    } else {
        Ok(false)
    }
}

// Adds a path.
fn put_open_or_closed<A: Memory>(p: &Path<'_>, text: &mut BytesMut<A>) -> Result<bool, AllocError>
    ensures { Tells (ShowsPath p.now) A.Lacks text.old.items text.new.items result }
{
    if p.closed() {
        put_points("(", ")", p.points(), text)
    } else {
        put_points("[", "]", p.points(), text)
    }
}

/// Adds the text of a `path`.
pub(crate) fn put_path<A: Memory>(bytes: &[u8], text: &mut BytesMut<A>) -> Result<bool, AllocError>
    ensures { Tells (Shows path ShowsPath bytes.now) A.Lacks text.old.items text.new.items result }
{
    match path_from_sql(bytes) {
        Ok(p) => put_open_or_closed(&p, text),
        Err(_) => Ok(false),
    }
}

/// Adds the text of a `polygon`: a closed path's, whose bytes are those of the polygon after a flag.
pub(crate) fn put_polygon<A: Memory>(
    bytes: &[u8],
    text: &mut BytesMut<A>,
) -> Result<bool, AllocError>
    ensures { Tells (Shows path ShowsPath (1 ∷ bytes.now)) A.Lacks text.old.items text.new.items result }
{
    let mut closed = Vec::new(*text.allocator());
    A::extend(&mut closed, &[1])?;
    A::extend(&mut closed, bytes)?;
    put_path(&closed, text)
}
