//! Identifiers and hardware addresses in the binary format, which are bytes as they stand.

ghost use Rattle.std.specs.Prelude.{◌≡◌, ◌≢◌, ◌⊎◌, Ok};
ghost use Rattle.pgp_types.specs.Format.{Reads};
ghost use Rattle.pgp_types.specs.Network.{macaddr, uuid};
ghost use Rattle.pgp_values.specs.Network.{macaddr8};
ghost use Rattle.for_c.specs.Values.{Wrote, Lacks, Refuses};

use crate::scalar::{Scalar, put};
use crate::status::{read, refused};

/// Writes a `uuid`, which has 16 bytes.
#[unsafe(no_mangle)]
pub extern "C" fn pgp_put_uuid(id: &[u8], out: &mut [u8], written: &mut usize) -> u32
    ensures wrote { result ≡ 0 → Reads uuid id.now (Ok id.now) × Wrote id.now out.old out.new written.new }
    ensures refused { result ≢ 0 → (written.new ≡ 0) × (Refuses uuid id.now result ⊎ Lacks id.now out.old written.new result) }
{
    match pgp_types::uuid_from_sql(id) {
        Ok(octets) => put(Scalar::Uuid(octets), out, written),
        Err(e) => refused(e, written),
    }
}

/// Whether the bytes are a `uuid`, as they stand.
#[unsafe(no_mangle)]
pub extern "C" fn pgp_get_uuid(bytes: &[u8]) -> u32
    ensures read { result ≡ 0 → Reads uuid bytes.now (Ok bytes.now) }
    ensures refused { result ≢ 0 → Refuses uuid bytes.now result }
{
    read(pgp_types::uuid_from_sql(bytes), &mut [0; 16])
}

/// Writes a `macaddr`, which has 6 bytes.
#[unsafe(no_mangle)]
pub extern "C" fn pgp_put_macaddr(address: &[u8], out: &mut [u8], written: &mut usize) -> u32
    ensures wrote { result ≡ 0 → Reads macaddr address.now (Ok address.now) × Wrote address.now out.old out.new written.new }
    ensures refused { result ≢ 0 → (written.new ≡ 0) × (Refuses macaddr address.now result ⊎ Lacks address.now out.old written.new result) }
{
    match pgp_types::macaddr_from_sql(address) {
        Ok(octets) => put(Scalar::Macaddr(octets), out, written),
        Err(e) => refused(e, written),
    }
}

/// Whether the bytes are a `macaddr`, as they stand.
#[unsafe(no_mangle)]
pub extern "C" fn pgp_get_macaddr(bytes: &[u8]) -> u32
    ensures read { result ≡ 0 → Reads macaddr bytes.now (Ok bytes.now) }
    ensures refused { result ≢ 0 → Refuses macaddr bytes.now result }
{
    read(pgp_types::macaddr_from_sql(bytes), &mut [0; 6])
}

/// Writes a `macaddr8`, which has 8 bytes.
#[unsafe(no_mangle)]
pub extern "C" fn pgp_put_macaddr8(address: &[u8], out: &mut [u8], written: &mut usize) -> u32
    ensures wrote { result ≡ 0 → Reads macaddr8 address.now (Ok address.now) × Wrote address.now out.old out.new written.new }
    ensures refused { result ≢ 0 → (written.new ≡ 0) × (Refuses macaddr8 address.now result ⊎ Lacks address.now out.old written.new result) }
{
    match pgp_values::macaddr8_from_sql(address) {
        Ok(octets) => put(Scalar::Macaddr8(octets), out, written),
        Err(e) => refused(e, written),
    }
}

/// Whether the bytes are a `macaddr8`, as they stand.
#[unsafe(no_mangle)]
pub extern "C" fn pgp_get_macaddr8(bytes: &[u8]) -> u32
    ensures read { result ≡ 0 → Reads macaddr8 bytes.now (Ok bytes.now) }
    ensures refused { result ≢ 0 → Refuses macaddr8 bytes.now result }
{
    read(pgp_values::macaddr8_from_sql(bytes), &mut [0; 8])
}
