//! The parameters of a startup packet.

ghost use Rattle.std.specs.Prelude.{◌≡◌, ℕ, List, []};
ghost use Rattle.pgp_base.specs.PartReading.{Answers};
ghost use Rattle.pgp_frontend.specs.Payload.{Pairs, spelling};
ghost use Rattle.pgp_frontend.specs.Reading.{HasSpelling};
ghost use Rattle.pgp_frontend_read.specs.Reading.{pair_at, pairs_at};
ghost use Rattle.pgp_frontend_read.specs.Whole.{plain};

use crate::ends::ends;
use pgp_base::reading::{is_marked, string_at};
use pgp_base::{Error, FallibleIterator};
use std::marker::Model;

/// Names and values as they stand, of which some may be none.
#[derive(Drop)]
struct PairWalk<'a>(&'a [u8]);

impl<'a> Model for PairWalk<'a> {
    ghost use Rattle.std.specs.Prelude.{ℕ, List};
    ghost use Rattle.pgp_base.specs.Walk.{Walk};
    ghost use Rattle.pgp_base.specs.WalkReading.{marked};
    ghost use Rattle.pgp_frontend_read.specs.Reading.{pair_at};

    ghost Value = { Walk (List ℕ × List ℕ) };

    ghost view = { λ walk. marked pair_at walk.0.now };
}

impl<'a> FallibleIterator for PairWalk<'a> {
    type Item = (&'a [u8], &'a [u8]);

    ghost Meaning = { List ℕ × List ℕ };

    ghost meaning = { λ x. (x.0.now, x.1.now) };

    ghost walk = { λ s. s };

    fn next(&mut self) -> Result<Option<(&'a [u8], &'a [u8])>, Error> {
        if is_marked(self.0) {
            if self.0.len() > 1 {
                return Err(Error::NotDrained);
            }
            return Ok(None);
        }
        let ((name, value), rest) = pair_at(self.0)?;
        self.0 = rest;
        Ok(Some((name, value)))
    }

    fn size_hint(&self) -> (usize, Option<usize>) {
        let _ = &self.0;
        (0, None)
    }
}

/// The name and the value at the front.
#[tactic(auto, unfolding(crate::specs::Reading::pair_at))]
fn pair_at(bytes: &[u8]) -> Result<((&[u8], &[u8]), &[u8]), Error>
    ensures { Answers (λ x. ((x.0.0.now, x.0.1.now), x.1.now)) result (pair_at bytes.now) }
{
    let (name, rest) = string_at(bytes)?;
    let (value, rest) = string_at(rest)?;
    Ok(((name, value), rest))
}

/// The names and values of a startup packet. They all stand there, so that the iterator isn't
/// rejected.
#[derive(Drop)]
pub struct StartupParameters<'a>(PairWalk<'a>);

impl<'a> Model for StartupParameters<'a> {
    ghost use Rattle.std.specs.Prelude.{◌≡◌, ℕ, List};
    ghost use Rattle.pgp_frontend_read.specs.Whole.{plain};

    ghost Value = { List (List ℕ × List ℕ) };

    ghost view = { λ parameters. parameters.0.items };

    ghost invariant = { λ parameters. parameters.0 ≡ plain parameters.0.items };
}

impl<'a> FallibleIterator for StartupParameters<'a> {
    type Item = (&'a [u8], &'a [u8]);

    ghost Meaning = { List ℕ × List ℕ };

    ghost meaning = { λ x. (x.0.now, x.1.now) };

    ghost walk = { λ s. plain s };

    fn next(&mut self) -> Result<Option<(&'a [u8], &'a [u8])>, Error> {
        self.0.next()
    }

    fn size_hint(&self) -> (usize, Option<usize>) {
        self.0.size_hint()
    }
}

impl<'a> StartupParameters<'a> {
    /// The names and values that all of the bytes are, and a 0 byte after them.
    ///
    /// # Errors
    ///
    /// Returns `UnexpectedEof` if they are cut short, and `NotDrained` if bytes stand after the 0
    /// byte.
    #[tactic(auto, unfolding(crate::specs::Reading::pairs_at))]
    pub(crate) fn read(bytes: &'a [u8]) -> Result<StartupParameters<'a>, Error>
        ensures { Answers (λ x. (x, [])) result (pairs_at bytes.now) }
    {
        ends(PairWalk(bytes))?;
        Ok(StartupParameters(PairWalk(bytes)))
    }
    /// The names and values and the 0 byte, as they are spelled.
    pub(crate) fn spelled(&self) -> &'a [u8]
        ensures has { HasSpelling (Pairs self.now) }
        ensures whole { result.now ≡ spelling (Pairs self.now) }
    {
        self.0.0
    }
}
