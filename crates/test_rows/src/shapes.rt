//! Points, boxes and paths. A coordinate is reported as its eight bytes.

use crate::shown::{Show, Shown};
use crate::walks::show_list;
use crate::word::{Item, Words};
use pgp_base::{Buffer, Error};
use pgp_types::{Point, box_from_sql, box_to_sql, path_from_sql, path_to_sql, point_to_sql};

/// The two coordinates of a point.
impl<'w> Item<'w> for (u64, u64) {
    fn read(words: &mut Words<'w>) -> (u64, u64) {
        let x = words.coordinate();
        (x, words.coordinate())
    }
}

pub fn write_point<B: Buffer>(words: &mut Words<'_>, buf: &mut B) -> Result<(), Error> {
    let (x, y) = Item::read(words);
    point_to_sql(x, y, buf)
}

pub fn write_box<B: Buffer>(words: &mut Words<'_>, buf: &mut B) -> Result<(), Error> {
    let (x1, y1) = Item::read(words);
    let (x2, y2) = Item::read(words);
    box_to_sql(x1, y1, x2, y2, buf)
}

pub fn write_path<B: Buffer>(words: &mut Words<'_>, buf: &mut B) -> Result<(), Error> {
    let is_closed = words.either("closed", "open");
    let points = words.list::<(u64, u64)>();
    path_to_sql(is_closed, points.iter().copied(), buf)
}

impl Show for Point {
    fn show(self, out: &mut Shown) {
        (self.x(), self.y()).show(out);
    }
}

/// The two coordinates of a point.
impl Show for (u64, u64) {
    fn show(self, out: &mut Shown) {
        let (x, y) = self;
        out.bytes(&x.to_be_bytes());
        out.bytes(&y.to_be_bytes());
    }
}

pub fn show_box(bytes: &[u8], out: &mut Shown) -> Result<(), Error> {
    let shape = box_from_sql(bytes)?;
    shape.upper_right().show(out);
    shape.lower_left().show(out);
    Ok(())
}

pub fn show_path(bytes: &[u8], out: &mut Shown) -> Result<(), Error> {
    let path = path_from_sql(bytes)?;
    out.word(if path.closed() { "closed" } else { "open" });
    show_list(path.points(), path.points(), out);
    Ok(())
}
