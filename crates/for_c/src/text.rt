//! Whether bytes are a text, as a server in UTF-8 takes one.

ghost use Rattle.std.specs.Prelude.{◌≡◌, ◌≢◌, ◌⊎◌};
ghost use Rattle.std.specs.Str.{IsUtf8};
ghost use Rattle.pgp_base.specs.Wire.{HasNoZero};

use crate::status::failed;
use pgp_base::Error;
use pgp_base::reading::string_at;

/// Whether the bytes are UTF-8 without a 0 byte: 0 where they are.
#[unsafe(no_mangle)]
pub extern "C" fn pgp_is_text(bytes: &[u8]) -> u32
    ensures text { result ≡ 0 → IsUtf8 bytes.now × HasNoZero bytes.now }
    ensures no_text { result ≡ 9 → ¬ IsUtf8 bytes.now }
    ensures zero { result ≡ 2 → ¬ HasNoZero bytes.now }
    ensures why { result ≢ 0 → (result ≡ 9) ⊎ (result ≡ 2) }
{
    let Ok(_) = pgp_base::text(bytes) else {
        return failed(Error::NotUtf8);
    };
    match string_at(bytes) {
        Ok(_) => failed(Error::EmbeddedNull),
        Err(_) => 0,
    }
}
