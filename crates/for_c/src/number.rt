//! The numbers of a list, read where they stand, one after another: types of parameters, and formats of columns.

ghost use Rattle.std.specs.Prelude.{◌≡◌, ◌≢◌};
ghost use Rattle.pgp_message.specs.Items.{FormatSpelled, FormatRefused, TypeSpelled, TypeRefused};
ghost use Rattle.for_c.specs.Walks.{IsEnded, RefusesItem, Takes};

use crate::cursor::{Listed, PgpCursor, next_counted};
use pgp_base::Error;
use pgp_base::reading::{oid_at, uint16_at};

/// The next type of a parameter description.
#[unsafe(no_mangle)]
pub extern "C" fn pgp_type_next(bytes: &[u8], cursor: &mut PgpCursor, value: &mut u32) -> u32
    ensures item { result ≡ 0 → Takes TypeSpelled bytes.now cursor.old cursor.new value.new }
    ensures done { result ≡ 101 → IsEnded bytes.now cursor.old }
    ensures refused { result ≢ 0 → result ≢ 101 → RefusesItem TypeRefused bytes.now cursor.old result }
    ensures left { result ≢ 0 → (cursor.new ≡ cursor.old) × (value.new ≡ value.old) }
{
    next_counted::<Types>(bytes, cursor, value)
}

/// The next format of a copy's columns.
#[unsafe(no_mangle)]
pub extern "C" fn pgp_format_next(bytes: &[u8], cursor: &mut PgpCursor, value: &mut u16) -> u32
    ensures item { result ≡ 0 → Takes FormatSpelled bytes.now cursor.old cursor.new value.new }
    ensures done { result ≡ 101 → IsEnded bytes.now cursor.old }
    ensures refused { result ≢ 0 → result ≢ 101 → RefusesItem FormatRefused bytes.now cursor.old result }
    ensures left { result ≢ 0 → (cursor.new ≡ cursor.old) × (value.new ≡ value.old) }
{
    next_counted::<Formats>(bytes, cursor, value)
}

/// The types of a statement's parameters.
struct Types;

impl Listed for Types {
    ghost use Rattle.std.specs.Prelude.{ℕ, ⊤};
    ghost use Rattle.pgp_message.specs.Items.{TypeSpelled, TypeRefused};

    type Item = u32;

    ghost Meaning = { ℕ };

    ghost meaning = { λ bytes value. value };

    ghost Spelled = { TypeSpelled };

    ghost Refused = { TypeRefused };

    ghost Inside = { λ size value. ⊤ };

    fn read(_at: usize, rest: &[u8]) -> Result<(&[u8], u32), Error> {
        match oid_at(rest) {
            Ok((number, more)) => Ok((more, number)),
            Err(e) => Err(e),
        }
    }
}

/// The formats of a copy's columns.
struct Formats;

impl Listed for Formats {
    ghost use Rattle.std.specs.Prelude.{ℕ, ⊤};
    ghost use Rattle.pgp_message.specs.Items.{FormatSpelled, FormatRefused};

    type Item = u16;

    ghost Meaning = { ℕ };

    ghost meaning = { λ bytes value. value };

    ghost Spelled = { FormatSpelled };

    ghost Refused = { FormatRefused };

    ghost Inside = { λ size value. ⊤ };

    fn read(_at: usize, rest: &[u8]) -> Result<(&[u8], u16), Error> {
        match uint16_at(rest) {
            Ok((number, more)) => Ok((more, number)),
            Err(e) => Err(e),
        }
    }
}
