//! The types of the parameters of a statement.

ghost use Rattle.std.specs.Prelude.{◌≡◌, ◌≤◌, ℕ, length, Some};
ghost use Rattle.pgp_base.specs.Items.{CountedItems};
ghost use Rattle.pgp_base.specs.PartReading.{Answers};
ghost use Rattle.pgp_message.specs.Items.{TypeSpelled, TypeRefused};
ghost use Rattle.pgp_message.specs.ItemReading.{type_at};

use pgp_base::reading::oid_at;
use pgp_base::{Counted, Error, FallibleIterator, Oid};
use std::marker::Model;

/// The types of the parameters of a statement.
#[derive(Drop)]
pub struct Parameters<'a>(Counted<'a>);

impl<'a> Model for Parameters<'a> {
    ghost use Rattle.std.specs.Prelude.{ℕ};
    ghost use Rattle.pgp_base.specs.Walk.{Walk};
    ghost use Rattle.pgp_base.specs.CountedRest.{walk_of};
    ghost use Rattle.pgp_message.specs.ItemReading.{type_at};

    ghost Value = { Walk ℕ };

    ghost view = { λ walk. walk_of type_at walk.0 };
}

impl<'a> Parameters<'a> {
    pub(crate) fn over(buf: &'a [u8], count: u16) -> Parameters<'a>
        ensures items { CountedItems TypeSpelled TypeRefused count buf.now result.items result.end }
        ensures announced { result.announced ≡ Some count }
        ensures few { length result.items ≤ length buf.now }
    {
        Parameters(Counted::new(buf, count as usize))
    }
}

impl FallibleIterator for Parameters<'_> {
    type Item = Oid;

    ghost Meaning = { ℕ };

    ghost meaning = { λ x. x };

    ghost walk = { λ s. s };

    fn next(&mut self) -> Result<Option<Oid>, Error> {
        match self.0.due()? {
            Some(buf) => self.0.take(type_at(buf)),
            None => Ok(None),
        }
    }

    fn size_hint(&self) -> (usize, Option<usize>) {
        self.0.size_hint()
    }
}

/// The type at the front.
fn type_at(bytes: &[u8]) -> Result<(Oid, &[u8]), Error>
    ensures { Answers (λ x. (x.0, x.1.now)) result (type_at bytes.now) }
{
    let (number, rest) = oid_at(bytes)?;
    Ok((number, rest))
}
