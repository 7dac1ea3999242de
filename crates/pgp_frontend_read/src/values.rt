//! The values of a portal.

ghost use Rattle.std.specs.Prelude.{◌≡◌, ◌++◌, ℕ, List, Option};
ghost use Rattle.pgp_base.specs.PartReading.{Answers};
ghost use Rattle.pgp_frontend.specs.Payload as part;
ghost use Rattle.pgp_frontend.specs.Payload.{spelling};
ghost use Rattle.pgp_frontend.specs.Reading.{HasSpelling};
ghost use Rattle.pgp_frontend_read.specs.Reading.{value_at, counted_at, items_at};
ghost use Rattle.pgp_frontend_read.specs.Whole.{RestOf, shown, whole};

use crate::listed::{Item, Listed};
use pgp_base::reading::{oid_at, uint16_at};
use pgp_base::{Error, FallibleIterator};
use std::marker::Model;

impl<'a> Item<'a> for Option<&'a [u8]> {
    ghost Meaning = { Option (List ℕ) };

    ghost meaning = { shown };

    ghost read = { value_at };

    fn at(bytes: &'a [u8]) -> Result<(Option<&'a [u8]>, &'a [u8]), Error> {
        value_at(bytes)
    }
}

/// The value at the front; `None` for a null.
///
/// # Errors
///
/// Returns `UnexpectedEof` if it is cut short, and `InvalidValueLength` for a length that is negative and
/// isn't -1.
#[tactic(auto, unfolding(crate::specs::Reading::value_at))]
pub(crate) fn value_at(bytes: &[u8]) -> Result<(Option<&[u8]>, &[u8]), Error>
    ensures { Answers (λ x. (shown x.0, x.1.now)) result (value_at bytes.now) }
{
    let (len, rest) = oid_at(bytes)?;
    if len == NULL {
        return Ok((None, rest));
    }
    if len > 0x7fff_ffff {
        return Err(Error::InvalidValueLength);
    }
    let len = len as usize;
    if rest.len() < len {
        return Err(Error::UnexpectedEof);
    }
    let (value, rest) = rest.split_at(len);
    Ok((Some(value), rest))
}

/// The values of a portal's parameters; `None` for a null. They all stand there, so that the iterator isn't
/// rejected.
#[derive(Drop)]
pub struct Values<'a>(Listed<'a>);

impl<'a> Model for Values<'a> {
    ghost use Rattle.std.specs.Prelude.{ℕ, List, Option};
    ghost use Rattle.pgp_frontend_read.specs.Reading.{value_at, AreLeft, items_of};

    ghost Value = { List (Option (List ℕ)) };

    ghost view = { λ values. items_of value_at values.0 };

    ghost invariant = { λ values. AreLeft value_at values.0 };
}

impl<'a> FallibleIterator for Values<'a> {
    type Item = Option<&'a [u8]>;

    ghost Meaning = { Option (List ℕ) };

    ghost meaning = { shown };

    ghost walk = { λ s. whole s };

    fn next(&mut self) -> Result<Option<Option<&'a [u8]>>, Error> {
        self.0.next::<Option<&'a [u8]>>()
    }

    fn size_hint(&self) -> (usize, Option<usize>) {
        self.0.size_hint::<Option<&'a [u8]>>()
    }
}

impl<'a> Values<'a> {
    /// A count and so many values, and the bytes after them.
    ///
    /// # Errors
    ///
    /// Returns `UnexpectedEof` if they are cut short, and `InvalidValueLength` for a length that is negative and
    /// isn't -1.
    #[tactic(auto, unfolding(crate::specs::Reading::counted_at))]
    pub(crate) fn read(bytes: &'a [u8]) -> Result<(Values<'a>, &'a [u8]), Error>
        ensures { Answers (λ x. (x.0, x.1.now)) result (counted_at value_at bytes.now) }
    {
        let (count, rest) = uint16_at(bytes)?;
        let behind = behind_values(count, rest)?;
        let (front, _) = rest.split_at(rest.len() - behind.len());
        Ok((Values(Listed::new(front, count)), behind))
    }

    /// The count and the values, as they are spelled.
    pub(crate) fn spelled(&self) -> ([u8; 2], &'a [u8])
        ensures has { HasSpelling (part.Values self.now) }
        ensures whole { result.0 ++ result.1.now ≡ spelling (part.Values self.now) }
    {
        self.0.spelled::<Option<&'a [u8]>>()
    }
}

/// The bytes after so many values.
fn behind_values(count: u16, bytes: &[u8]) -> Result<&[u8], Error>
    ensures { RestOf (λ rest. rest.now) (items_at value_at count bytes.now) result }
{
    let mut rest = bytes;
    'values: for _ in 0..count {
        let (_, after) = value_at(rest)?;
        rest = after;
    }
    Ok(rest)
}

/// The length that stands for a null.
const NULL: u32 = 0xffff_ffff;
