//! The iterator over what is left of a counted list, and its bytes.

ghost use Rattle.std.specs.Prelude.{◌≡◌, ◌++◌, ℕ, List, [], Result, Ok};
ghost use Rattle.pgp_base.specs.declared.error.Error.{Error as Refusal};
ghost use Rattle.pgp_base.specs.PartReading.{Answers};
ghost use Rattle.pgp_base.specs.Walk.{TakesFront, hint_of};
ghost use Rattle.pgp_base.specs.Wire.{IsBytes};
ghost use Rattle.pgp_frontend_read.specs.Reading.{counted_at, AreLeft, items_of};
ghost use Rattle.pgp_frontend_read.specs.Whole.{whole};

use pgp_base::Error;
use std::marker::Model;

/// An item of a counted list.
pub trait Item<'a>: Sized {
    /// What an item says, whatever it borrows.
    ghost Meaning: { Type 0 };

    ghost meaning: { Self → Meaning };

    ghost read: { List ℕ → Result (Meaning × List ℕ) Refusal };

    /// The item at the front, and the bytes after it.
    ///
    /// # Errors
    ///
    /// Why no item stands there.
    fn at(bytes: &'a [u8]) -> Result<(Self, &'a [u8]), Error>
        ensures { Answers (λ x. (meaning x.0, x.1.now)) result (read bytes.now) };
}

/// So many items, in these bytes.
#[derive(Drop)]
pub struct Listed<'a> {
    bytes: &'a [u8],
    count: u16,
}

impl<'a> Model for Listed<'a> {
    ghost use Rattle.std.specs.Prelude.{◌<◌, ◌^◌};
    ghost use Rattle.pgp_frontend_read.specs.Reading.{Left};

    ghost Value = { Left };

    ghost view = { λ list. record { bytes = list.bytes.now; count = list.count } };

    ghost invariant = { λ list. list.count < 2 ^ 16 };
}

impl<'a> Listed<'a> {
    /// The items that are read from these bytes.
    pub fn new(bytes: &'a [u8], count: u16) -> Listed<'a>
        ensures { result ≡ record { bytes = bytes.now; count = count } }
    {
        Listed { bytes, count }
    }

    /// The next item; nothing at the end.
    ///
    /// # Errors
    ///
    /// None, since the items stand there.
    pub fn next<T: Item<'a>>(&mut self) -> Result<Option<T>, Error>
        requires { AreLeft T.read self.old }
        ensures takes { TakesFront T.meaning (whole (items_of T.read self.old)) result (whole (items_of T.read self.new)) }
        ensures left { AreLeft T.read self.new }
    {
        if self.count == 0 {
            return Ok(None);
        }
        let (item, rest) = T::at(self.bytes)?;
        self.bytes = rest;
        self.count -= 1;
        Ok(Some(item))
    }

    /// How many items are to come.
    pub fn size_hint<T: Item<'a>>(&self) -> (usize, Option<usize>)
        requires { AreLeft T.read self.now }
        ensures { (result.0, result.1) ≡ hint_of (whole (items_of T.read self.now)).announced }
    {
        let count = self.count as usize;
        (count, Some(count))
    }

    /// The count and the items, as they are spelled.
    #[tactic(auto, unfolding(pgp_base::specs::Wire::uint16))]
    pub fn spelled<T: Item<'a>>(&self) -> ([u8; 2], &'a [u8])
        requires { AreLeft T.read self.now }
        ensures read { counted_at T.read (result.0 ++ result.1.now) ≡ Ok (items_of T.read self.now, []) }
        ensures bytes { IsBytes (result.0 ++ result.1.now) }
    {
        (self.count.to_be_bytes(), items(self.bytes))
    }
}

/// The same bytes. Its clause says what the type of a field doesn't.
fn items(bytes: &[u8]) -> &[u8]
    ensures same { result.now ≡ bytes.now }
    ensures bytes { IsBytes result.now }
{
    bytes
}
