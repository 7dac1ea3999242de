//! The SASL mechanisms that a server offers.

ghost use Rattle.std.specs.Prelude.{◌≡◌, ◌≤◌, ℕ, List, length, None, Contains, true, false};
ghost use Rattle.pgp_base.specs.Items.{MarkedItems};
ghost use Rattle.pgp_message.specs.Items.{NameRefused, NameSpelled};

use crate::walk::{Name, ReadName};
use pgp_base::reading::is_marked;
use pgp_base::{Error, FallibleIterator};
use std::marker::{Model, PhantomData};

/// The SASL mechanisms that a server offers, by name.
#[derive(Drop)]
pub struct SaslMechanisms<'a, T: Name = &'a str>(&'a [u8], PhantomData<T>);

/// The same mechanisms by the bytes of their names, whether these are text or not.
pub type RawMechanisms<'a> = SaslMechanisms<'a, &'a [u8]>;

impl<'a, T: Name> Model for SaslMechanisms<'a, T> {
    ghost use Rattle.std.specs.Prelude.{ℕ, List};
    ghost use Rattle.pgp_base.specs.Walk.{Walk};
    ghost use Rattle.pgp_base.specs.WalkReading.{marked};

    ghost Value = { Walk (List ℕ) };

    ghost view = { λ walk. marked T.name_at walk.0.now };
}

impl<'a, T: Name> SaslMechanisms<'a, T> {
    pub(crate) fn over(buf: &'a [u8]) -> SaslMechanisms<'a, T>
        ensures items { MarkedItems (NameSpelled T.IsName) (NameRefused T.IsName) buf.now result.items result.end }
        ensures announced { result.announced ≡ None }
        ensures few { length result.items ≤ length buf.now }
    {
        T::is_read();
        SaslMechanisms(buf, PhantomData)
    }
}

impl<'a> SaslMechanisms<'a, &'a str> {
    /// Whether this name is one of those to come, and their list ends well.
    pub fn offer(mut self, sought: &str) -> bool
        ensures yes { result ≡ true → (self.entry.end ≡ None) × Contains self.entry.items sought.now }
        ensures no { result ≡ false → self.entry.end ≡ None → ¬ Contains self.entry.items sought.now }
    {
        let mut found = false;
        'names: loop {
            match self.next() {
                Ok(Some(name)) => found |= name == sought,
                Ok(None) => return found,
                Err(_) => return false,
            }
        }
    }
}

impl<'a, T: ReadName<'a> + Drop> FallibleIterator for SaslMechanisms<'a, T> {
    type Item = T;

    ghost Meaning = { List ℕ };

    ghost meaning = { T.bytes_of };

    ghost walk = { λ s. s };

    fn next(&mut self) -> Result<Option<T>, Error> {
        T::is_read();
        if is_marked(self.0) {
            if self.0.len() > 1 {
                return Err(Error::NotDrained);
            }
            return Ok(None);
        }
        let (mechanism, rest) = T::read(self.0)?;
        self.0 = rest;
        Ok(Some(mechanism))
    }

    fn size_hint(&self) -> (usize, Option<usize>) {
        let _ = &self.0;
        (0, None)
    }
}
