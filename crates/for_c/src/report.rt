//! The fields of an error or a notice, read where they stand, one after another.

ghost use Rattle.std.specs.Prelude.{◌≡◌, ◌≢◌, length};
ghost use Rattle.pgp_base.specs.PartReading.{Answers};
ghost use Rattle.pgp_message.specs.ItemReading.{error_field_at};
ghost use Rattle.pgp_message.specs.Items.{ErrorFieldSpelled, ErrorFieldRefused};
ghost use Rattle.for_c.specs.Listings.{error_field_of};
ghost use Rattle.for_c.specs.Parts.{IsInside};
ghost use Rattle.for_c.specs.Walks.{IsMarkedEnd, RefusesMarked, TakesMarked};

use crate::cursor::{Listed, PgpCursor, next_marked};
use crate::front::PgpPart;
use pgp_base::Error;
use pgp_base::reading::string_at;

/// A field of an error or a notice: what it is about, as a letter's code, and the place of its value.
#[repr(C)]
#[derive(Clone, Copy)]
pub struct PgpErrorField {
    pub value: PgpPart,
    pub code: u8,
}

/// The next field of an error or a notice.
#[unsafe(no_mangle)]
pub extern "C" fn pgp_error_field_next(
    bytes: &[u8],
    cursor: &mut PgpCursor,
    field: &mut PgpErrorField,
) -> u32
    ensures item { result ≡ 0 → TakesMarked ErrorFieldSpelled bytes.now cursor.old cursor.new (error_field_of bytes.now field.new) }
    ensures inside { result ≡ 0 → IsInside (length bytes.now) field.new.value }
    ensures done { result ≡ 101 → IsMarkedEnd bytes.now cursor.old }
    ensures refused { result ≢ 0 → result ≢ 101 → RefusesMarked ErrorFieldRefused bytes.now cursor.old result }
    ensures left { result ≢ 0 → (cursor.new ≡ cursor.old) × (field.new ≡ field.old) }
{
    next_marked::<ErrorFields>(bytes, cursor, field)
}

/// The fields of an error or a notice.
struct ErrorFields;

impl Listed for ErrorFields {
    ghost use Rattle.pgp_message.specs.Items.{ErrorPart, ErrorFieldSpelled, ErrorFieldRefused};
    ghost use Rattle.for_c.specs.Listings.{error_field_of};
    ghost use Rattle.for_c.specs.Parts.{IsInside};

    type Item = PgpErrorField;

    ghost Meaning = { ErrorPart };

    ghost meaning = { λ bytes field. error_field_of bytes field };

    ghost Spelled = { ErrorFieldSpelled };

    ghost Refused = { ErrorFieldRefused };

    ghost Inside = { λ size field. IsInside size field.value };

    fn read(at: usize, rest: &[u8]) -> Result<(&[u8], PgpErrorField), Error> {
        let ((code, value), more) = error_field_at(rest)?;
        let value = PgpPart {
            at: at + 1,
            len: value.len(),
        };
        Ok((more, PgpErrorField { value, code }))
    }
}

/// The field at the front: its letter, and its value.
#[tactic(auto, unfolding(pgp_message::specs::ItemReading::error_field_at))]
fn error_field_at(bytes: &[u8]) -> Result<((u8, &[u8]), &[u8]), Error>
    ensures { Answers (λ x. (record { code = x.0.0; value = x.0.1.now }, x.1.now)) result (error_field_at bytes.now) }
{
    match bytes {
        [] => Err(Error::UnexpectedEof),
        [code, rest @ ..] => {
            let (value, rest) = string_at(rest)?;
            Ok(((*code, value), rest))
        }
    }
}
