//! The columns of a row description, read where they stand, one after another.

ghost use Rattle.std.specs.Prelude.{◌≡◌, ◌≢◌, ◌≤◌, ℕ, List, drop, length, map, take, All, IfOk};
ghost use Rattle.pgp_base.specs.PartReading.{Answers};
ghost use Rattle.pgp_message.specs.ItemReading.{numbers_at};
ghost use Rattle.pgp_message.specs.Items.{FieldSpelled, FieldRefused};
ghost use Rattle.for_c.specs.Listings.{field_of, named};
ghost use Rattle.for_c.specs.Parts.{IsInside};
ghost use Rattle.for_c.specs.Walks.{IsEnded, RefusesItem, Takes, TakesAll};

use crate::cursor::{Listed, PgpCursor, all_counted, next_counted};
use crate::front::PgpPart;
use pgp_base::Error;
use pgp_base::reading::{int16_at, int32_at, oid_at, text_at};

/// A column of a row description.
#[repr(C)]
#[derive(Clone, Copy)]
pub struct PgpField {
    /// The place of the column's name.
    pub name: PgpPart,
    /// The table that the column stands in, or 0.
    pub table_oid: u32,
    pub type_oid: u32,
    /// The type's modifier, or -1.
    pub type_modifier: i32,
    /// The column's number in its table, or 0.
    pub column_id: i16,
    /// The size of a value in bytes; negative where it varies.
    pub type_size: i16,
    /// The format of the values: 0 text, 1 binary.
    pub format: i16,
}

/// The next column of a row description.
#[unsafe(no_mangle)]
pub extern "C" fn pgp_field_next(bytes: &[u8], cursor: &mut PgpCursor, field: &mut PgpField) -> u32
    ensures item { result ≡ 0 → Takes FieldSpelled bytes.now cursor.old cursor.new (field_of bytes.now field.new) }
    ensures inside { result ≡ 0 → IsInside (length bytes.now) field.new.name }
    ensures done { result ≡ 101 → IsEnded bytes.now cursor.old }
    ensures refused { result ≢ 0 → result ≢ 101 → RefusesItem FieldRefused bytes.now cursor.old result }
    ensures left { result ≢ 0 → (cursor.new ≡ cursor.old) × (field.new ≡ field.old) }
{
    next_counted::<Fields>(bytes, cursor, field)
}

/// All columns of a row description, up to its end, or as many as there is room for.
#[unsafe(no_mangle)]
pub extern "C" fn pgp_field_all(
    bytes: &[u8],
    cursor: &mut PgpCursor,
    fields: &mut [PgpField],
    count: &mut usize,
) -> u32
    ensures items { TakesAll FieldSpelled bytes.now cursor.old cursor.new (map (field_of bytes.now) (take count.new fields.new)) }
    ensures inside { All (λ f. IsInside (length bytes.now) f.name) (take count.new fields.new) }
    ensures ended { result ≡ 0 → IsEnded bytes.now cursor.new }
    ensures full { result ≡ 102 → (count.new ≡ length fields.old) × (cursor.new.left ≢ 0) }
    ensures refused { result ≢ 0 → result ≢ 102 → RefusesItem FieldRefused bytes.now cursor.new result }
    ensures fits { count.new ≤ length fields.old }
    ensures behind { drop count.new fields.new ≡ drop count.new fields.old }
    ensures same { length fields.new ≡ length fields.old }
{
    all_counted::<Fields>(bytes, cursor, fields, count)
}

/// The columns of a row description.
struct Fields;

impl Listed for Fields {
    ghost use Rattle.pgp_message.specs.Items.{FieldPart, FieldSpelled, FieldRefused};
    ghost use Rattle.for_c.specs.Listings.{field_of};
    ghost use Rattle.for_c.specs.Parts.{IsInside};

    type Item = PgpField;

    ghost Meaning = { FieldPart };

    ghost meaning = { λ bytes field. field_of bytes field };

    ghost Spelled = { FieldSpelled };

    ghost Refused = { FieldRefused };

    ghost Inside = { λ size field. IsInside size field.name };

    fn read(at: usize, rest: &[u8]) -> Result<(&[u8], PgpField), Error> {
        let (name, more) = text_at(rest)?;
        let name = PgpPart {
            at,
            len: name.len(),
        };
        let (field, more) = numbers_at(name, more)?;
        Ok((more, field))
    }
}

/// The numbers after a column's name.
#[tactic(auto, unfolding(pgp_message::specs::ItemReading::numbers_at))]
fn numbers_at(name: PgpPart, bytes: &[u8]) -> Result<(PgpField, &[u8]), Error>
    ensures numbers { (text : List ℕ) → Answers (λ x. (named text x.0, x.1.now)) result (numbers_at text bytes.now) }
    ensures name { IfOk result (λ x. x.0.name ≡ name) }
{
    let Ok((table_oid, rest)) = oid_at(bytes) else {
        return Err(Error::UnexpectedEof);
    };
    let Ok((column_id, rest)) = int16_at(rest) else {
        return Err(Error::UnexpectedEof);
    };
    let Ok((type_oid, rest)) = oid_at(rest) else {
        return Err(Error::UnexpectedEof);
    };
    let Ok((type_size, rest)) = int16_at(rest) else {
        return Err(Error::UnexpectedEof);
    };
    let Ok((type_modifier, rest)) = int32_at(rest) else {
        return Err(Error::UnexpectedEof);
    };
    let Ok((format, rest)) = int16_at(rest) else {
        return Err(Error::UnexpectedEof);
    };
    let field = PgpField {
        name,
        table_oid,
        type_oid,
        type_modifier,
        column_id,
        type_size,
        format,
    };
    Ok((field, rest))
}
