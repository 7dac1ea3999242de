//! The fields of an error or a notice.

ghost use Rattle.std.specs.Prelude.{◌≡◌, ◌≤◌, length, None, MatchResult};
ghost use Rattle.std.specs.Str.{IsUtf8};
ghost use Rattle.pgp_base.specs.Items.{MarkedItems};
ghost use Rattle.pgp_base.specs.PartReading.{Answers};
ghost use Rattle.pgp_message.specs.Items.{ErrorPart, ErrorFieldSpelled, ErrorFieldRefused};
ghost use Rattle.pgp_message.specs.ItemReading.{error_field_at};

use pgp_base::reading::{is_marked, string_at};
use pgp_base::{Error, FallibleIterator, text};
use std::marker::Model;

/// A field of an error or a notice.
#[derive(Drop)]
pub struct ErrorField<'a> {
    type_: u8,
    value: &'a [u8],
}

impl<'a> Model for ErrorField<'a> {
    ghost use Rattle.pgp_message.specs.Items.{ErrorPart};

    ghost Value = { ErrorPart };

    ghost view = { λ field. record { code = field.type_; value = field.value.now } };
}

impl<'a> ErrorField<'a> {
    /// What the field is about, as a letter: `S` severity, `C` code, `M` message and so on.
    pub fn type_(&self) -> u8
        ensures { result ≡ self.now.code }
    {
        self.type_
    }

    /// The value, whether it is text or not.
    pub fn value_bytes(&self) -> &'a [u8]
        ensures { result.now ≡ self.now.value }
    {
        self.value
    }

    /// The value as text.
    ///
    /// # Errors
    ///
    /// Returns `NotUtf8` if it isn't text.
    pub fn value(&self) -> Result<&'a str, Error>
        ensures { MatchResult result (λ text. text.now ≡ self.now.value) (λ e. (e ≡ Error.NotUtf8) × ¬ IsUtf8 self.now.value) }
    {
        text(self.value)
    }
}

/// The fields of an error or a notice.
#[derive(Drop)]
pub struct ErrorFields<'a> {
    buf: &'a [u8],
}

impl<'a> Model for ErrorFields<'a> {
    ghost use Rattle.pgp_base.specs.Walk.{Walk};
    ghost use Rattle.pgp_base.specs.WalkReading.{marked};
    ghost use Rattle.pgp_message.specs.Items.{ErrorPart};
    ghost use Rattle.pgp_message.specs.ItemReading.{error_field_at};

    ghost Value = { Walk ErrorPart };

    ghost view = { λ walk. marked error_field_at walk.buf.now };
}

impl<'a> ErrorFields<'a> {
    pub(crate) fn over(buf: &'a [u8]) -> ErrorFields<'a>
        ensures items { MarkedItems ErrorFieldSpelled ErrorFieldRefused buf.now result.items result.end }
        ensures announced { result.announced ≡ None }
        ensures few { length result.items ≤ length buf.now }
    {
        ErrorFields { buf }
    }
}

impl<'a> FallibleIterator for ErrorFields<'a> {
    type Item = ErrorField<'a>;

    ghost Meaning = { ErrorPart };

    ghost meaning = { λ x. x };

    ghost walk = { λ s. s };

    fn next(&mut self) -> Result<Option<ErrorField<'a>>, Error> {
        if is_marked(self.buf) {
            if self.buf.len() > 1 {
                return Err(Error::NotDrained);
            }
            return Ok(None);
        }
        let (field, rest) = error_field_at(self.buf)?;
        self.buf = rest;
        Ok(Some(field))
    }

    fn size_hint(&self) -> (usize, Option<usize>) {
        let _ = &self.buf;
        (0, None)
    }
}

/// The field at the front.
#[tactic(auto, unfolding(crate::specs::ItemReading::error_field_at))]
fn error_field_at(bytes: &[u8]) -> Result<(ErrorField<'_>, &[u8]), Error>
    ensures { Answers (λ x. (x.0, x.1.now)) result (error_field_at bytes.now) }
{
    match bytes {
        [] => Err(Error::UnexpectedEof),
        [type_, rest @ ..] => {
            let (value, rest) = string_at(rest)?;
            Ok((
                ErrorField {
                    type_: *type_,
                    value,
                },
                rest,
            ))
        }
    }
}
