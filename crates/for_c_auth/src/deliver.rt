//! Handing bytes to a caller's memory.

ghost use Rattle.std.specs.Prelude.{◌≡◌, ◌≢◌, ◌<◌, length};
ghost use Rattle.pgp_base.specs.Error.{number_of};
ghost use Rattle.for_c_auth.specs.Delivering.{Delivered, NotDelivered};

use pgp_base::Error;

/// Copies the bytes to the front of the memory, and says their number; or there is no room.
pub fn deliver(bytes: &[u8], out: &mut [u8], written: &mut usize) -> u32
    ensures sent { result ≡ 0 → Delivered bytes.now out.old out.new written.new }
    ensures refused { result ≢ 0 → NotDelivered out.old out.new written.new }
    ensures why { result ≢ 0 → (result ≡ 1) × (length out.old < length bytes.now) }
{
    if out.len() < bytes.len() {
        return refused(Error::OutOfMemory, written);
    }
    *written = bytes.len();
    out[..bytes.len()].copy_from_slice(bytes);
    0
}

/// Nothing was made.
pub fn refused(e: Error, written: &mut usize) -> u32
    ensures code { result ≡ number_of e }
    ensures some { result ≢ 0 }
    ensures reported { written.new ≡ 0 }
{
    *written = 0;
    u32::from(e.number())
}
