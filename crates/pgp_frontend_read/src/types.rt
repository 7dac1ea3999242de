//! The types of a statement's parameters.

ghost use Rattle.std.specs.Prelude.{◌≡◌, ◌++◌, ℕ};
ghost use Rattle.pgp_base.specs.PartReading.{Answers};
ghost use Rattle.pgp_frontend.specs.Payload.{Oids, spelling};
ghost use Rattle.pgp_frontend.specs.Reading.{HasSpelling};
ghost use Rattle.pgp_frontend_read.specs.Reading.{type_at, counted_at};
ghost use Rattle.pgp_frontend_read.specs.Whole.{whole};

use crate::listed::{Item, Listed};
use pgp_base::reading::{oid_at, uint16_at};
use pgp_base::{Error, FallibleIterator, Oid};
use std::marker::Model;

impl<'a> Item<'a> for Oid {
    ghost Meaning = { ℕ };

    ghost meaning = { λ x. x };

    ghost read = { type_at };

    fn at(bytes: &'a [u8]) -> Result<(Oid, &'a [u8]), Error> {
        let (number, rest) = oid_at(bytes)?;
        Ok((number, rest))
    }
}

/// The types of a statement's parameters, by their identifiers; 0 asks the server for one. They all stand there, so that the iterator isn't
/// rejected.
#[derive(Drop)]
pub struct ParamTypes<'a>(Listed<'a>);

impl<'a> Model for ParamTypes<'a> {
    ghost use Rattle.std.specs.Prelude.{ℕ, List};
    ghost use Rattle.pgp_frontend_read.specs.Reading.{type_at, AreLeft, items_of};

    ghost Value = { List ℕ };

    ghost view = { λ types. items_of type_at types.0 };

    ghost invariant = { λ types. AreLeft type_at types.0 };
}

impl FallibleIterator for ParamTypes<'_> {
    type Item = Oid;

    ghost Meaning = { ℕ };

    ghost meaning = { λ x. x };

    ghost walk = { λ s. whole s };

    fn next(&mut self) -> Result<Option<Oid>, Error> {
        self.0.next::<Oid>()
    }

    fn size_hint(&self) -> (usize, Option<usize>) {
        self.0.size_hint::<Oid>()
    }
}

impl<'a> ParamTypes<'a> {
    /// A count and so many types, and the bytes after them.
    ///
    /// # Errors
    ///
    /// Returns `UnexpectedEof` if they are cut short.
    #[tactic(auto, unfolding(crate::specs::Reading::counted_at))]
    pub(crate) fn read(bytes: &'a [u8]) -> Result<(ParamTypes<'a>, &'a [u8]), Error>
        ensures { Answers (λ x. (x.0, x.1.now)) result (counted_at type_at bytes.now) }
    {
        let (count, rest) = uint16_at(bytes)?;
        let len = 4 * count as usize;
        if rest.len() < len {
            return Err(Error::UnexpectedEof);
        }
        let (front, rest) = rest.split_at(len);
        Ok((ParamTypes(Listed::new(front, count)), rest))
    }

    /// The count and the types, as they are spelled.
    pub(crate) fn spelled(&self) -> ([u8; 2], &'a [u8])
        ensures has { HasSpelling (Oids self.now) }
        ensures whole { result.0 ++ result.1.now ≡ spelling (Oids self.now) }
    {
        self.0.spelled::<Oid>()
    }
}
