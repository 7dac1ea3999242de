//! The places of a row's values.

ghost use Rattle.std.specs.Prelude.{◌≡◌, ◌+◌, ◌<◌, ◌≤◌, ◌^◌, ℕ, length, Option, Some, None, IfOk};
ghost use Rattle.std.specs.declared.ops.Range.{Range};
ghost use Rattle.pgp_base.specs.Items.{CountedItems};
ghost use Rattle.pgp_base.specs.PartReading.{Answers};
ghost use Rattle.pgp_message.specs.Items.{RangeSpelled, RangeRefused};
ghost use Rattle.pgp_message.specs.ItemReading.{range_at};

use pgp_base::reading::int32_at;
use pgp_base::{Counted, Error, FallibleIterator};
use std::marker::Model;
use std::ops::Range;

/// The places of a row's values in the row's buffer; `None` for a null.
#[derive(Drop)]
pub struct DataRowRanges<'a> {
    rest: Counted<'a>,
    len: usize,
}

impl<'a> Model for DataRowRanges<'a> {
    ghost use Rattle.std.specs.Prelude.{ℕ, Option, length, ◌≤◌};
    ghost use Rattle.std.specs.declared.ops.Range.{Range};
    ghost use Rattle.pgp_base.specs.Walk.{Walk};
    ghost use Rattle.pgp_base.specs.WalkReading.{left_of};
    ghost use Rattle.pgp_base.specs.CountedRest.{walk_of};
    ghost use Rattle.pgp_message.specs.ItemReading.{range_at};

    ghost Value = { Walk (Option (Range ℕ)) };

    ghost view = { λ walk. walk_of (left_of range_at walk.len) walk.rest };

    ghost invariant = { λ walk. length walk.rest.bytes ≤ walk.len };
}

impl<'a> DataRowRanges<'a> {
    pub(crate) fn over(buf: &'a [u8], count: u16) -> DataRowRanges<'a>
        ensures items { CountedItems RangeSpelled RangeRefused count buf.now result.items result.end }
        ensures announced { result.announced ≡ Some count }
        ensures few { length result.items ≤ length buf.now }
    {
        DataRowRanges {
            rest: Counted::new(buf, count as usize),
            len: buf.len(),
        }
    }
}

impl FallibleIterator for DataRowRanges<'_> {
    type Item = Option<Range<usize>>;

    ghost Meaning = { Option (Range ℕ) };

    ghost meaning = { λ x. x };

    ghost walk = { λ s. s };

    fn next(&mut self) -> Result<Option<Option<Range<usize>>>, Error> {
        match self.rest.due()? {
            Some(buf) => self.rest.take(range_at(self.len - buf.len(), buf)),
            None => Ok(None),
        }
    }

    fn size_hint(&self) -> (usize, Option<usize>) {
        self.rest.size_hint()
    }
}

/// The place of the value at the front of these bytes, which begin at this place of a buffer, `None` where it is null; and what stands behind it.
///
/// # Errors
///
/// `UnexpectedEof` where the length or the value is cut short.
#[tactic(auto, unfolding(crate::specs::ItemReading::range_at))]
pub fn range_at(place: usize, bytes: &[u8]) -> Result<(Option<Range<usize>>, &[u8]), Error>
    requires { place + length bytes.now < 2 ^ 64 }
    ensures value { Answers (λ x. (x.0, x.1.now)) result (range_at place bytes.now) }
    ensures shorter { IfOk result (λ x. length x.1.now ≤ length bytes.now) }
{
    let (len, rest) = int32_at(bytes)?;
    if len < 0 {
        return Ok((None, rest));
    }
    let len = len as usize;
    if rest.len() < len {
        return Err(Error::UnexpectedEof);
    }
    let start = place + 4;
    let (_, rest) = rest.split_at(len);
    Ok((Some(start..start + len), rest))
}
