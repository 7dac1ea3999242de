//! Networks, and hardware addresses of eight bytes.
//!
//! PostgreSQL manual, "Network Address Types".

ghost use Rattle.std.specs.Prelude.{◌≡◌};
ghost use Rattle.pgp_types.specs.Format.{Reads, Writes};
ghost use Rattle.pgp_values.specs.Network.{cidr, macaddr8};

use pgp_base::{Buffer, Error};
use pgp_types::codec::{append, append_both, block};
use pgp_types::{Inet, inet_from_sql};
use std::net::IpAddr;

// The numbers of the address families.
const IPV4: u8 = 2;

const IPV6: u8 = 3;

/// Appends a `cidr`. The netmask is not checked, and neither are the bits that it leaves out: a server accepts it only
/// if they are 0.
///
/// # Errors
///
/// Returns `OutOfMemory` if the buffer can't grow; on error the buffer is unchanged.
pub fn cidr_to_sql<B: Buffer>(addr: IpAddr, netmask: u8, buf: &mut B) -> Result<(), Error>
    ensures { Writes cidr (record { addr = addr; netmask = netmask }) B.Lacks (B.held buf.old) result (B.held buf.new) }
{
    match addr {
        IpAddr::V4(v4) => append_both(&[IPV4, netmask, 1, 4], &v4.octets(), buf),
        IpAddr::V6(v6) => append_both(&[IPV6, netmask, 1, 16], &v6.octets(), buf),
    }
}

/// Reads a `cidr`, or an `inet`.
pub fn cidr_from_sql(buf: &[u8]) -> Result<Inet, Error>
    ensures { Reads cidr buf.now result }
{
    inet_from_sql(buf)
}

/// Appends a `macaddr8`.
pub fn macaddr8_to_sql<B: Buffer>(address: [u8; 8], buf: &mut B) -> Result<(), Error>
    ensures { Writes macaddr8 address B.Lacks (B.held buf.old) result (B.held buf.new) }
{
    append(&address, buf)
}

/// Reads a `macaddr8`.
///
/// # Errors
///
/// Returns `UnexpectedEof` if there are fewer than 8 bytes, `NotDrained` if there are more.
pub fn macaddr8_from_sql(buf: &[u8]) -> Result<[u8; 8], Error>
    ensures { Reads macaddr8 buf.now result }
{
    block::<8>(buf)
}
