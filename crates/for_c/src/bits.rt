//! Bit strings.

ghost use Rattle.std.specs.Prelude.{◌≡◌, ◌≢◌, ◌⊎◌, drop, Ok};
ghost use Rattle.pgp_types.specs.Format.{Reads};
ghost use Rattle.pgp_types.specs.Varbit.{varbit, IsVarbit};
ghost use Rattle.for_c.specs.Compound.{IsNoVarbit};
ghost use Rattle.for_c.specs.Values.{Lacks, Refuses, Wrote};

use crate::part::put_counted;
use crate::status::{failed, refused, sent};
use pgp_base::{Error, Window};

/// Reads how many bits a `bit varying` or a `bit` has, from all of the bytes; those that hold the bits stand from the fifth on.
#[unsafe(no_mangle)]
pub extern "C" fn pgp_get_varbit(bytes: &[u8], bits: &mut usize) -> u32
    ensures read { result ≡ 0 → Reads varbit bytes.now (Ok (record { len = bits.new; bytes = drop 4 bytes.now })) }
    ensures refused { result ≢ 0 → Refuses varbit bytes.now result }
    ensures left { result ≢ 0 → bits.new ≡ bits.old }
{
    match pgp_types::varbit_from_sql(bytes) {
        Ok(value) => {
            *bits = value.len();
            0
        }
        Err(e) => failed(e),
    }
}

/// Writes a `bit varying` or a `bit` of so many bits, the first one highest in the first byte. The bits that pad the last byte may be any.
#[unsafe(no_mangle)]
pub extern "C" fn pgp_put_varbit(
    bits: usize,
    bytes: &[u8],
    out: &mut [u8],
    written: &mut usize,
) -> u32
    ensures wrote { result ≡ 0 → IsVarbit (record { len = bits; bytes = bytes.now }) × Wrote (varbit.written (record { len = bits; bytes = bytes.now })) out.old out.new written.new }
    ensures refused { result ≢ 0 → (written.new ≡ 0) × (IsNoVarbit bits bytes.now result ⊎ Lacks (varbit.written (record { len = bits; bytes = bytes.now })) out.old written.new result) }
{
    if bytes.len() != bits.div_ceil(8) {
        return refused(Error::InvalidSize, written);
    }
    let mut window = Window::new(out);
    match put_counted(bits, bytes, &mut window) {
        Ok(()) => sent(&window, written),
        Err(e) => refused(e, written),
    }
}
