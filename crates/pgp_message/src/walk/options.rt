//! The options of a startup packet that a server doesn't know.

ghost use Rattle.std.specs.Prelude.{◌≡◌, ◌≤◌, ℕ, List, length, Some};
ghost use Rattle.pgp_base.specs.Items.{CountedItems};
ghost use Rattle.pgp_message.specs.Items.{NameRefused, NameSpelled};

use crate::walk::{Name, ReadName};
use pgp_base::{Counted, Error, FallibleIterator};
use std::marker::{Model, PhantomData};

/// The options of a startup packet that a server doesn't know, by name, in this project's profile of protocol 3.2. One may be empty.
#[derive(Drop)]
pub struct ProtocolOptions<'a, T: Name = &'a str>(Counted<'a>, PhantomData<T>);

/// The same options by the bytes of their names, whether these are text or not.
pub type RawOptions<'a> = ProtocolOptions<'a, &'a [u8]>;

impl<'a, T: Name> Model for ProtocolOptions<'a, T> {
    ghost use Rattle.std.specs.Prelude.{ℕ, List};
    ghost use Rattle.pgp_base.specs.Walk.{Walk};
    ghost use Rattle.pgp_base.specs.CountedRest.{walk_of};

    ghost Value = { Walk (List ℕ) };

    ghost view = { λ walk. walk_of T.name_at walk.0 };
}

impl<'a, T: Name> ProtocolOptions<'a, T> {
    pub(crate) fn over(buf: &'a [u8], count: usize) -> ProtocolOptions<'a, T>
        ensures items { CountedItems (NameSpelled T.IsName) (NameRefused T.IsName) count buf.now result.items result.end }
        ensures announced { result.announced ≡ Some count }
        ensures few { length result.items ≤ length buf.now }
    {
        T::is_read();
        ProtocolOptions(Counted::new(buf, count), PhantomData)
    }
}

impl<'a, T: ReadName<'a> + Drop> FallibleIterator for ProtocolOptions<'a, T> {
    type Item = T;

    ghost Meaning = { List ℕ };

    ghost meaning = { T.bytes_of };

    ghost walk = { λ s. s };

    fn next(&mut self) -> Result<Option<T>, Error> {
        match self.0.due()? {
            Some(buf) => self.0.take(T::read(buf)),
            None => Ok(None),
        }
    }

    fn size_hint(&self) -> (usize, Option<usize>) {
        self.0.size_hint()
    }
}
