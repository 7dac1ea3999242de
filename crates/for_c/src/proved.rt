//! Which build of the library this is.

ghost use Rattle.std.specs.Prelude.{◌≡◌};

/// The version of this library.
const VERSION: u32 = 100;

/// 1: each function is proved. A build of these sources without their proofs has another body here: 0.
#[unsafe(no_mangle)]
pub extern "C" fn pgp_is_proved() -> u32
    ensures { result ≡ 1 }
{
    1
}

/// The version of this library: its major number times 10,000, its minor number times 100, and its patch number.
#[unsafe(no_mangle)]
pub extern "C" fn pgp_version() -> u32
    ensures { result ≡ 100 }
{
    VERSION
}
