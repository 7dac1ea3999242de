//! Multiranges.
//!
//! PostgreSQL manual, "Range Types".
#![tactic(auto, using(pgp_base::proofs::Parts::held_steps))]

ghost use Rattle.std.specs.Prelude.{◌≡◌, ◌≤◌, ◌⊎◌, ℕ, List, map, length, Some, None, OnOk, OnErr, IfOk, IfErr};
ghost use Rattle.std.specs.Iterator.{IsFiniteIterable};
ghost use Rattle.pgp_base.specs.Calls.{Yielded};
ghost use Rattle.pgp_base.specs.Cause.{Wants, WantsMemory};
ghost use Rattle.pgp_base.specs.Held.{◌⊕◌, IsFrontOf};
ghost use Rattle.pgp_types.specs.Format.{Reads};
ghost use Rattle.pgp_types.specs.Given.{WritesAll};
ghost use Rattle.pgp_values.specs.Multirange.{member, multirange, shown_member};

use crate::list::{PutItem, write_list};
use pgp_base::{Buffer, Counted, Error, FallibleIterator, length_field, put_u32};
use pgp_types::codec::append;
use pgp_types::part::{natural_at, sized_at};
use std::marker::Model;

// The bytes of a range.
impl<'a> PutItem for &'a [u8] {
    ghost use Rattle.std.specs.Prelude.{ℕ, List};
    ghost use Rattle.pgp_values.specs.Multirange.{member, shown_member};

    ghost Meaning = { List ℕ };

    ghost meaning = { λ x. shown_member x };

    ghost item = { member };

    fn put<B: Buffer>(self, buf: &mut B) -> Result<(), Error> {
        put_member(self, buf)
    }
}

// Appends the bytes of a range or of a field after their length. An error leaves what stood there as a front.
pub(crate) fn put_member<B: Buffer>(bytes: &[u8], buf: &mut B) -> Result<(), Error>
    ensures ok { OnOk result ((member.cause bytes.now ≡ None) × (B.held buf.new ≡ B.held buf.old ⊕ member.written bytes.now)) }
    ensures err { OnErr result (IsFrontOf (B.held buf.old) (B.held buf.new)) }
    ensures why { IfErr result (λ e. WantsMemory (Wants B.Lacks (B.held buf.old) (length (member.written bytes.now))) e ⊎ (member.cause bytes.now ≡ Some e)) }
{
    match length_field(bytes.len()) {
        Ok(len) => match put_u32(buf, len) {
            Ok(()) => append(bytes, buf),
            Err(e) => Err(e),
        },
        Err(e) => Err(e),
    }
}

/// Appends a multirange of these ranges, each given as the bytes that `range_to_sql` makes. A server puts them in order
/// and joins those that touch.
///
/// # Errors
///
/// Returns `TooLarge` if the length of a range exceeds `i32::MAX`, or at a range past that many; `OutOfMemory` if the
/// buffer can't grow. On error the buffer is unchanged.
pub fn multirange_to_sql<'a, B: Buffer, I: IntoIterator<Item = &'a [u8]> + Drop>(
    ranges: I,
    buf: &mut B,
) -> Result<(), Error>
where
    I::IntoIter: Drop,
    requires { IsFiniteIterable I.into_iter_gives I.IntoIter.can_next I.IntoIter.remaining ranges }
    ensures { WritesAll (Yielded I.into_iter_gives I.IntoIter.next_gives ranges) multirange (λ xs. map shown_member xs) B.Lacks (B.held buf.old) result (B.held buf.new) }
{
    write_list(ranges, buf)
}

/// The ranges of a multirange, as the bytes that `range_from_sql` reads. `next` returns `UnexpectedEof` if a length is cut
/// short, `InvalidValueLength` if it is negative or exceeds the bytes left, and `NotDrained` if bytes follow the last.
#[derive(Drop)]
pub struct MultirangeRanges<'a>(Counted<'a>);

impl<'a> Model for MultirangeRanges<'a> {
    ghost use Rattle.std.specs.Prelude.{ℕ, List};
    ghost use Rattle.pgp_base.specs.CountedRest.{walk_of};
    ghost use Rattle.pgp_base.specs.Walk.{Walk};
    ghost use Rattle.pgp_values.specs.ListReading.{member_at};

    ghost Value = { Walk (List ℕ) };

    ghost view = { λ walk. walk_of member_at walk.0 };
}

impl<'a> FallibleIterator for MultirangeRanges<'a> {
    type Item = &'a [u8];

    ghost use Rattle.std.specs.Prelude.{ℕ, List};
    ghost use Rattle.pgp_values.specs.Multirange.{shown_member};

    ghost Meaning = { List ℕ };

    ghost meaning = { λ x. shown_member x };

    ghost walk = { λ s. s };

    fn next(&mut self) -> Result<Option<&'a [u8]>, Error> {
        match self.0.due() {
            Ok(Some(buf)) => self.0.take(sized_at(buf, Error::InvalidValueLength)),
            Ok(None) => Ok(None),
            Err(e) => Err(e),
        }
    }

    fn size_hint(&self) -> (usize, Option<usize>) {
        self.0.size_hint()
    }
}

/// Reads a multirange. Its ranges are cut out as they are asked for.
///
/// # Errors
///
/// Returns `UnexpectedEof` if the number of ranges is cut short, `InvalidCount` if it is negative.
pub fn multirange_from_sql(buf: &[u8]) -> Result<MultirangeRanges<'_>, Error>
    ensures value { Reads multirange buf.now result }
    ensures few { IfOk result (λ w. length w.items ≤ length buf.now) }
{
    let (count, ranges) = natural_at(buf, Error::InvalidCount)?;
    Ok(MultirangeRanges(Counted::new(ranges, count)))
}
