//! Errors and notices.
#![tactic(auto, using(pgp_base::proofs::Parts::held_steps))]

ghost use Rattle.std.specs.Prelude.{map, [], ◌∷◌, None};
ghost use Rattle.std.specs.Iterator.{IsFiniteIterable};
ghost use Rattle.std.specs.List.{flat_map};
ghost use Rattle.pgp_base.specs.Calls.{Yielded};
ghost use Rattle.pgp_frontend.specs.Payload.{Byte};
ghost use Rattle.pgp_message.specs.BackendMessage.{ErrorResponse, NoticeResponse};
ghost use Rattle.pgp_message_write.specs.Given.{uncounted, WritesGiven};
ghost use Rattle.pgp_message_write.specs.Lists.{field_parts, marked_list, with_list};
ghost use Rattle.pgp_message_write.specs.Reply.{fields_of, WritesList};
ghost use Rattle.pgp_message_write.specs.Views.{shown_field};

use crate::item::Item;
use crate::list_message::list_message;
use crate::list_message_of::{Ending, list_message_of};
use pgp_base::{Buffer, Error};
use pgp_frontend::field::{Field, put_fields};

/// A field of an error or a notice.
///
/// PostgreSQL manual, "Error and Notice Message Fields".
#[derive(Debug, Clone, Copy, PartialEq, Eq)]
pub struct ErrorField<'a> {
    /// The letter that says what the field is: `S` severity, `C` SQLSTATE, `M` message, ...
    pub code: u8,
    pub value: &'a [u8],
}

impl<'a> Item for ErrorField<'a> {
    ghost parts = { λ field. field_parts (shown_field field) };

    fn put<B: Buffer>(&self, buf: &mut B) -> Result<(), Error> {
        if self.code == 0 {
            return Err(Error::EmbeddedNull);
        }
        put_fields(&[Field::Byte(self.code), Field::Text(self.value)], buf)
    }
}

/// ErrorResponse: an error with these fields. Clients expect at least severity, SQLSTATE and message.
///
/// # Errors
///
/// Returns `EmbeddedNull` if a code or a value has a 0 byte, `TooLarge` if the message exceeds `i32::MAX`, and
/// `OutOfMemory` if the buffer can't grow. On error the buffer is unchanged.
pub fn error_response<B: Buffer>(fields: &[ErrorField<'_>], buf: &mut B) -> Result<(), Error>
    ensures { let all = map shown_field fields.now in WritesList (ErrorResponse (fields_of all)) None (with_list [] (flat_map field_parts all) (Byte 0 ∷ []))
        B.Lacks (B.held buf.old) (B.held buf.new) result }
{
    list_message(b'E', &[], fields, &[Field::Byte(0)], buf)
}

/// The same, over an iterator of fields.
///
/// # Errors
///
/// Returns `EmbeddedNull` at the first field with a 0 byte, and `TooLarge` if the message exceeds `i32::MAX`. Otherwise
/// `OutOfMemory`, which may come before any of them, if the buffer can't grow. On error the buffer is unchanged.
pub fn error_response_of<'a, B: Buffer, I: IntoIterator<Item = ErrorField<'a>> + Drop>(
    fields: I,
    buf: &mut B,
) -> Result<(), Error>
where
    I::IntoIter: Drop,
    requires { IsFiniteIterable I.into_iter_gives I.IntoIter.can_next I.IntoIter.remaining fields }
    ensures { WritesGiven (Yielded I.into_iter_gives I.IntoIter.next_gives fields) uncounted
        (λ all. marked_list field_parts (map shown_field all)) (λ all. ErrorResponse (fields_of (map shown_field all)))
        B.Lacks (B.held buf.old) (B.held buf.new) result }
{
    list_message_of(b'E', &[], Ending::Zero, fields, buf)
}

/// NoticeResponse: a notice with these fields.
///
/// # Errors
///
/// As `error_response`.
pub fn notice_response<B: Buffer>(fields: &[ErrorField<'_>], buf: &mut B) -> Result<(), Error>
    ensures { let all = map shown_field fields.now in WritesList (NoticeResponse (fields_of all)) None (with_list [] (flat_map field_parts all) (Byte 0 ∷ []))
        B.Lacks (B.held buf.old) (B.held buf.new) result }
{
    list_message(b'N', &[], fields, &[Field::Byte(0)], buf)
}

/// The same, over an iterator of fields.
///
/// # Errors
///
/// As `error_response_of`.
pub fn notice_response_of<'a, B: Buffer, I: IntoIterator<Item = ErrorField<'a>> + Drop>(
    fields: I,
    buf: &mut B,
) -> Result<(), Error>
where
    I::IntoIter: Drop,
    requires { IsFiniteIterable I.into_iter_gives I.IntoIter.can_next I.IntoIter.remaining fields }
    ensures { WritesGiven (Yielded I.into_iter_gives I.IntoIter.next_gives fields) uncounted
        (λ all. marked_list field_parts (map shown_field all)) (λ all. NoticeResponse (fields_of (map shown_field all)))
        B.Lacks (B.held buf.old) (B.held buf.new) result }
{
    list_message_of(b'N', &[], Ending::Zero, fields, buf)
}
