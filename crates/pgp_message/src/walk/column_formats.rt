//! The formats of the columns of a copy.

ghost use Rattle.std.specs.Prelude.{◌≡◌, ◌≤◌, ℕ, length, Some};
ghost use Rattle.pgp_base.specs.Items.{CountedItems};
ghost use Rattle.pgp_base.specs.PartReading.{Answers};
ghost use Rattle.pgp_message.specs.Items.{FormatSpelled, FormatRefused};
ghost use Rattle.pgp_message.specs.ItemReading.{format_at};

use pgp_base::reading::uint16_at;
use pgp_base::{Counted, Error, FallibleIterator};
use std::marker::Model;

/// The formats of the columns of a copy: 0 text, 1 binary.
#[derive(Drop)]
pub struct ColumnFormats<'a>(Counted<'a>);

impl<'a> Model for ColumnFormats<'a> {
    ghost use Rattle.std.specs.Prelude.{ℕ};
    ghost use Rattle.pgp_base.specs.Walk.{Walk};
    ghost use Rattle.pgp_base.specs.CountedRest.{walk_of};
    ghost use Rattle.pgp_message.specs.ItemReading.{format_at};

    ghost Value = { Walk ℕ };

    ghost view = { λ walk. walk_of format_at walk.0 };
}

impl<'a> ColumnFormats<'a> {
    pub(crate) fn over(buf: &'a [u8], count: u16) -> ColumnFormats<'a>
        ensures items { CountedItems FormatSpelled FormatRefused count buf.now result.items result.end }
        ensures announced { result.announced ≡ Some count }
        ensures few { length result.items ≤ length buf.now }
    {
        ColumnFormats(Counted::new(buf, count as usize))
    }
}

impl FallibleIterator for ColumnFormats<'_> {
    type Item = u16;

    ghost Meaning = { ℕ };

    ghost meaning = { λ x. x };

    ghost walk = { λ s. s };

    fn next(&mut self) -> Result<Option<u16>, Error> {
        match self.0.due()? {
            Some(buf) => self.0.take(format_at(buf)),
            None => Ok(None),
        }
    }

    fn size_hint(&self) -> (usize, Option<usize>) {
        self.0.size_hint()
    }
}

/// The format at the front.
fn format_at(bytes: &[u8]) -> Result<(u16, &[u8]), Error>
    ensures { Answers (λ x. (x.0, x.1.now)) result (format_at bytes.now) }
{
    let (number, rest) = uint16_at(bytes)?;
    Ok((number, rest))
}
