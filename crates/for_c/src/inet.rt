//! Addresses of networks.

ghost use Rattle.std.specs.Prelude.{◌≡◌, ◌≢◌, ◌⊎◌, ◌*◌, ◌<◌, ◌≤◌, length, IfOk, IfErr};
ghost use Rattle.pgp_types.specs.Network.{Inet, family_number, family_of, inet};
ghost use Rattle.pgp_values.specs.Network.{cidr};
ghost use Rattle.for_c.specs.Compound.{IsAddress, IsAddressed, IsInetIn, IsInetOf, IsNoAddress, IsNoInet};
ghost use Rattle.for_c.specs.Parts.{IsInside};
ghost use Rattle.for_c.specs.Values.{Lacks, Refuses, Wrote};

use crate::front::PgpPart;
use crate::scalar::{Scalar, put};
use crate::status::{failed, refused};
use pgp_base::Error;
use std::net::IpAddr;

/// An `inet` or a `cidr`: the place of the address, its family by PostgreSQL's number, and how many of its first bits name the network.
#[repr(C)]
#[derive(Clone, Copy)]
pub struct PgpInet {
    pub address: PgpPart,
    pub family: u8,
    pub netmask: u8,
}

/// Reads an `inet` or a `cidr`, from all of the bytes.
#[unsafe(no_mangle)]
pub extern "C" fn pgp_get_inet(bytes: &[u8], value: &mut PgpInet) -> u32
    ensures read { result ≡ 0 → IsInetIn bytes.now value.new }
    ensures inside { result ≡ 0 → IsInside (length bytes.now) value.new.address }
    ensures refused { result ≢ 0 → Refuses inet bytes.now result }
    ensures left { result ≢ 0 → value.new ≡ value.old }
{
    match pgp_types::inet_from_sql(bytes) {
        Ok(inet) => {
            let address = PgpPart {
                at: 4,
                len: bytes.len().saturating_sub(4),
            };
            *value = PgpInet {
                address,
                family: family(inet.addr()),
                netmask: inet.netmask(),
            };
            0
        }
        Err(e) => failed(e),
    }
}

/// The number of an address's family.
fn family(addr: IpAddr) -> u8
    ensures { result ≡ family_number (family_of addr) }
{
    match addr {
        IpAddr::V4(_) => 2,
        IpAddr::V6(_) => 3,
    }
}

/// Writes an `inet` of an address of 4 or 16 bytes, of which so many bits name the network.
#[unsafe(no_mangle)]
pub extern "C" fn pgp_put_inet(
    address: &[u8],
    netmask: u8,
    out: &mut [u8],
    written: &mut usize,
) -> u32
    ensures wrote { result ≡ 0 → (v : Inet) × IsInetOf address.now netmask v × Wrote (inet.written v) out.old out.new written.new }
    ensures refused { result ≢ 0 → (written.new ≡ 0) × (IsNoInet address.now netmask result ⊎ ((v : Inet) × IsInetOf address.now netmask v × Lacks (inet.written v) out.old written.new result)) }
{
    let addr = match address_of(address) {
        Ok(addr) => addr,
        Err(e) => return refused(e, written),
    };
    if netmask as usize > 8 * address.len() {
        return refused(Error::InvalidNetmask, written);
    }
    put(Scalar::Inet(addr, netmask), out, written)
}

/// Writes an `inet` whatever its netmask is: a server takes none of more bits than the address has.
#[unsafe(no_mangle)]
pub extern "C" fn pgp_put_inet_any(
    address: &[u8],
    netmask: u8,
    out: &mut [u8],
    written: &mut usize,
) -> u32
    ensures wrote { result ≡ 0 → (v : Inet) × IsAddressed address.now netmask v × Wrote (inet.written v) out.old out.new written.new }
    ensures refused { result ≢ 0 → (written.new ≡ 0) × (((result ≡ 18) × IsNoAddress address.now) ⊎ ((v : Inet) × IsAddressed address.now netmask v × Lacks (inet.written v) out.old written.new result)) }
{
    let addr = match address_of(address) {
        Ok(addr) => addr,
        Err(e) => return refused(e, written),
    };
    put(Scalar::Inet(addr, netmask), out, written)
}

/// Writes a `cidr` of an address of 4 or 16 bytes, of which so many bits name the network. A server takes it only where the others are 0.
#[unsafe(no_mangle)]
pub extern "C" fn pgp_put_cidr(
    address: &[u8],
    netmask: u8,
    out: &mut [u8],
    written: &mut usize,
) -> u32
    ensures wrote { result ≡ 0 → (v : Inet) × IsInetOf address.now netmask v × Wrote (cidr.written v) out.old out.new written.new }
    ensures refused { result ≢ 0 → (written.new ≡ 0) × (IsNoInet address.now netmask result ⊎ ((v : Inet) × IsInetOf address.now netmask v × Lacks (cidr.written v) out.old written.new result)) }
{
    let addr = match address_of(address) {
        Ok(addr) => addr,
        Err(e) => return refused(e, written),
    };
    if 8 * address.len() < netmask as usize {
        return refused(Error::InvalidNetmask, written);
    }
    put(Scalar::Cidr(addr, netmask), out, written)
}

/// The address of these bytes.
fn address_of(address: &[u8]) -> Result<IpAddr, Error>
    ensures ok { IfOk result (λ addr. IsAddress address.now addr) }
    ensures err { IfErr result (λ e. (e ≡ Error.InvalidAddressLength) × IsNoAddress address.now) }
{
    if let Ok(octets) = <[u8; 4]>::try_from(address) {
        return Ok(IpAddr::from(octets));
    }
    if let Ok(octets) = <[u8; 16]>::try_from(address) {
        return Ok(IpAddr::from(octets));
    }
    Err(Error::InvalidAddressLength)
}
