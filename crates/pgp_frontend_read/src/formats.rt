//! The formats of parameters and results.

ghost use Rattle.std.specs.Prelude.{◌≡◌, ◌++◌, ℤ};
ghost use Rattle.pgp_base.specs.PartReading.{Answers};
ghost use Rattle.pgp_frontend.specs.Payload.{Int16s, spelling};
ghost use Rattle.pgp_frontend.specs.Reading.{HasSpelling};
ghost use Rattle.pgp_frontend_read.specs.Reading.{format_at, counted_at};
ghost use Rattle.pgp_frontend_read.specs.Whole.{whole};

use crate::listed::{Item, Listed};
use pgp_base::reading::{int16_at, uint16_at};
use pgp_base::{Error, FallibleIterator};
use std::marker::Model;

impl<'a> Item<'a> for i16 {
    ghost Meaning = { ℤ };

    ghost meaning = { λ x. x };

    ghost read = { format_at };

    fn at(bytes: &'a [u8]) -> Result<(i16, &'a [u8]), Error> {
        let (number, rest) = int16_at(bytes)?;
        Ok((number, rest))
    }
}

/// The formats of parameters or of results: 0 text, 1 binary. They all stand there, so that the iterator isn't
/// rejected.
#[derive(Drop)]
pub struct Formats<'a>(Listed<'a>);

impl<'a> Model for Formats<'a> {
    ghost use Rattle.std.specs.Prelude.{ℤ, List};
    ghost use Rattle.pgp_frontend_read.specs.Reading.{format_at, AreLeft, items_of};

    ghost Value = { List ℤ };

    ghost view = { λ formats. items_of format_at formats.0 };

    ghost invariant = { λ formats. AreLeft format_at formats.0 };
}

impl FallibleIterator for Formats<'_> {
    type Item = i16;

    ghost Meaning = { ℤ };

    ghost meaning = { λ x. x };

    ghost walk = { λ s. whole s };

    fn next(&mut self) -> Result<Option<i16>, Error> {
        self.0.next::<i16>()
    }

    fn size_hint(&self) -> (usize, Option<usize>) {
        self.0.size_hint::<i16>()
    }
}

impl<'a> Formats<'a> {
    /// A count and so many formats, and the bytes after them.
    ///
    /// # Errors
    ///
    /// Returns `UnexpectedEof` if they are cut short.
    #[tactic(auto, unfolding(crate::specs::Reading::counted_at))]
    pub(crate) fn read(bytes: &'a [u8]) -> Result<(Formats<'a>, &'a [u8]), Error>
        ensures { Answers (λ x. (x.0, x.1.now)) result (counted_at format_at bytes.now) }
    {
        let (count, rest) = uint16_at(bytes)?;
        let len = 2 * count as usize;
        if rest.len() < len {
            return Err(Error::UnexpectedEof);
        }
        let (front, rest) = rest.split_at(len);
        Ok((Formats(Listed::new(front, count)), rest))
    }

    /// The count and the formats, as they are spelled.
    pub(crate) fn spelled(&self) -> ([u8; 2], &'a [u8])
        ensures has { HasSpelling (Int16s self.now) }
        ensures whole { result.0 ++ result.1.now ≡ spelling (Int16s self.now) }
    {
        self.0.spelled::<i16>()
    }
}
