//! The names that a server sends.

ghost use Rattle.std.specs.Prelude.{◌≡◌, ℕ, List, Result};
ghost use Rattle.std.specs.Str.{IsUtf8};
ghost use Rattle.pgp_base.specs.Grammar.{IsReader};
ghost use Rattle.pgp_base.specs.PartReading.{Answers, text_at};
ghost use Rattle.pgp_base.specs.declared.error.Error.{Error};
ghost use Rattle.pgp_message.specs.ItemReading.{TakesBytes, raw_string_at};
ghost use Rattle.pgp_message.specs.Items.{AnyBytes, NameRefused, NameSpelled};

use pgp_base::Error;
use pgp_base::reading::{string_at, text_at};

/// A name that a server sends: text, or any bytes without a 0.
pub trait Name {
    /// Its bytes.
    ghost bytes_of: { Self → List ℕ };

    /// Which bytes without a 0 are such a name.
    ghost IsName: { List ℕ → Type 0 };

    /// The name at the front.
    ghost name_at: { List ℕ → Result (List ℕ × List ℕ) Error };

    /// Names are read as they are spelled, and each takes a byte.
    fn is_read()
        ensures grammar { IsReader (NameSpelled IsName) (NameRefused IsName) (λ place. name_at) }
        ensures falls { TakesBytes name_at };
}

/// A name that borrows the bytes that it is read from.
pub trait ReadName<'a>: Name + Sized {
    /// The name at the front, and the bytes behind the 0 that ends it.
    ///
    /// # Errors
    ///
    /// Returns `UnexpectedEof` if no byte 0 is left; otherwise `NotUtf8` if the name has to be text and isn't.
    fn read(bytes: &'a [u8]) -> Result<(Self, &'a [u8]), Error>
        ensures { Answers (λ x. (Self.bytes_of x.0, x.1.now)) result (Self.name_at bytes.now) };
}

impl<'a> Name for &'a str {
    ghost bytes_of = { λ name. name.now };

    ghost IsName = { IsUtf8 };

    ghost name_at = { text_at };

    fn is_read()
        ensures grammar { IsReader (NameSpelled IsUtf8) (NameRefused IsUtf8) (λ place. text_at) }
        ensures falls { TakesBytes text_at }
    {}
}

impl<'a> ReadName<'a> for &'a str {
    fn read(bytes: &'a [u8]) -> Result<(&'a str, &'a [u8]), Error> {
        text_at(bytes)
    }
}

impl<'a> Name for &'a [u8] {
    ghost bytes_of = { λ name. name.now };

    ghost IsName = { AnyBytes };

    ghost name_at = { raw_string_at };

    fn is_read()
        ensures grammar { IsReader (NameSpelled AnyBytes) (NameRefused AnyBytes) (λ place. raw_string_at) }
        ensures falls { TakesBytes raw_string_at }
    {}
}

impl<'a> ReadName<'a> for &'a [u8] {
    fn read(bytes: &'a [u8]) -> Result<(&'a [u8], &'a [u8]), Error> {
        string_at(bytes)
    }
}
