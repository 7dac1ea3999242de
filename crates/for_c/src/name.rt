//! The names of a list, read where they stand, one after another: SASL mechanisms, and options of a startup packet.

ghost use Rattle.std.specs.Prelude.{◌≡◌, ◌≢◌, length};
ghost use Rattle.pgp_message.specs.Items.{TextSpelled, TextRefused};
ghost use Rattle.for_c.specs.Parts.{IsInside, stands};
ghost use Rattle.for_c.specs.Walks.{IsEnded, IsMarkedEnd, RefusesItem, RefusesMarked, Takes, TakesMarked};

use crate::cursor::{Listed, PgpCursor, next_counted, next_marked};
use crate::front::PgpPart;
use pgp_base::Error;
use pgp_base::reading::text_at;

/// The next SASL mechanism that a server offers, by its name.
#[unsafe(no_mangle)]
pub extern "C" fn pgp_mechanism_next(
    bytes: &[u8],
    cursor: &mut PgpCursor,
    name: &mut PgpPart,
) -> u32
    ensures item { result ≡ 0 → TakesMarked TextSpelled bytes.now cursor.old cursor.new (stands bytes.now name.new) }
    ensures inside { result ≡ 0 → IsInside (length bytes.now) name.new }
    ensures done { result ≡ 101 → IsMarkedEnd bytes.now cursor.old }
    ensures refused { result ≢ 0 → result ≢ 101 → RefusesMarked TextRefused bytes.now cursor.old result }
    ensures left { result ≢ 0 → (cursor.new ≡ cursor.old) × (name.new ≡ name.old) }
{
    next_marked::<Names>(bytes, cursor, name)
}

/// The next option of a startup packet that a server doesn't know, by its name.
#[unsafe(no_mangle)]
pub extern "C" fn pgp_option_next(bytes: &[u8], cursor: &mut PgpCursor, name: &mut PgpPart) -> u32
    ensures item { result ≡ 0 → Takes TextSpelled bytes.now cursor.old cursor.new (stands bytes.now name.new) }
    ensures inside { result ≡ 0 → IsInside (length bytes.now) name.new }
    ensures done { result ≡ 101 → IsEnded bytes.now cursor.old }
    ensures refused { result ≢ 0 → result ≢ 101 → RefusesItem TextRefused bytes.now cursor.old result }
    ensures left { result ≢ 0 → (cursor.new ≡ cursor.old) × (name.new ≡ name.old) }
{
    next_counted::<Names>(bytes, cursor, name)
}

/// Texts, each with a 0 after it.
struct Names;

impl Listed for Names {
    ghost use Rattle.std.specs.Prelude.{ℕ, List};
    ghost use Rattle.pgp_message.specs.Items.{TextSpelled, TextRefused};
    ghost use Rattle.for_c.specs.Parts.{IsInside, stands};

    type Item = PgpPart;

    ghost Meaning = { List ℕ };

    ghost meaning = { λ bytes name. stands bytes name };

    ghost Spelled = { TextSpelled };

    ghost Refused = { TextRefused };

    ghost Inside = { λ size name. IsInside size name };

    fn read(at: usize, rest: &[u8]) -> Result<(&[u8], PgpPart), Error> {
        match text_at(rest) {
            Ok((name, more)) => {
                let len = name.len();
                Ok((more, PgpPart { at, len }))
            }
            Err(e) => Err(e),
        }
    }
}
