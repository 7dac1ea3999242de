//! The names and values of a startup packet, read where they stand, one after another.

ghost use Rattle.std.specs.Prelude.{◌≡◌, ◌≢◌, length};
ghost use Rattle.for_c.specs.Settings.{IsSettingInside, PairSpelled, PairRefused, setting_of};
ghost use Rattle.for_c.specs.Walks.{IsMarkedEnd, RefusesMarked, TakesMarked};

use crate::cursor::{Listed, PgpCursor, next_marked};
use crate::front::PgpPart;
use pgp_base::Error;
use pgp_base::reading::string_at;

/// A name and a value of a startup packet: their places.
#[repr(C)]
#[derive(Clone, Copy)]
pub struct PgpSetting {
    pub name: PgpPart,
    pub value: PgpPart,
}

/// The next name and value of a startup packet.
#[unsafe(no_mangle)]
pub extern "C" fn pgp_setting_next(
    bytes: &[u8],
    cursor: &mut PgpCursor,
    setting: &mut PgpSetting,
) -> u32
    ensures item { result ≡ 0 → TakesMarked PairSpelled bytes.now cursor.old cursor.new (setting_of bytes.now setting.new) }
    ensures inside { result ≡ 0 → IsSettingInside (length bytes.now) setting.new }
    ensures done { result ≡ 101 → IsMarkedEnd bytes.now cursor.old }
    ensures refused { result ≢ 0 → result ≢ 101 → RefusesMarked PairRefused bytes.now cursor.old result }
    ensures left { result ≢ 0 → (cursor.new ≡ cursor.old) × (setting.new ≡ setting.old) }
{
    next_marked::<Settings>(bytes, cursor, setting)
}

/// The names and values of a startup packet.
struct Settings;

impl Listed for Settings {
    ghost use Rattle.std.specs.Prelude.{ℕ, List};
    ghost use Rattle.for_c.specs.Settings.{IsSettingInside, PairSpelled, PairRefused, setting_of};

    type Item = PgpSetting;

    ghost Meaning = { List ℕ × List ℕ };

    ghost meaning = { λ bytes setting. setting_of bytes setting };

    ghost Spelled = { PairSpelled };

    ghost Refused = { PairRefused };

    ghost Inside = { λ size setting. IsSettingInside size setting };

    fn read(at: usize, rest: &[u8]) -> Result<(&[u8], PgpSetting), Error> {
        let Ok((name, more)) = string_at(rest) else {
            return Err(Error::UnexpectedEof);
        };
        let Ok((value, after)) = string_at(more) else {
            return Err(Error::UnexpectedEof);
        };
        let name = PgpPart {
            at,
            len: name.len(),
        };
        let value = PgpPart {
            at: at + name.len + 1,
            len: value.len(),
        };
        Ok((after, PgpSetting { name, value }))
    }
}
