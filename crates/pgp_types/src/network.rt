//! Addresses of networks, and universal identifiers.
//!
//! PostgreSQL manual, "Network Address Types" and "UUID Type".
#![tactic(auto, using(pgp_base::proofs::Parts::held_steps))]

ghost use Rattle.std.specs.Prelude.{◌≡◌, ◌*◌, ◌≤◌, IfOk, IfErr};
ghost use Rattle.pgp_types.specs.Format.{Reads, Writes, IsBlock};
ghost use Rattle.pgp_types.specs.Network.{AddressRefused, inet, macaddr, uuid};

use crate::codec::{append, append_both, block, whole};
use pgp_base::{Buffer, Error};
use std::marker::Model;
use std::net::IpAddr;

// The numbers of the address families.
const IPV4: u8 = 2;

const IPV6: u8 = 3;

/// Appends a `macaddr`.
pub fn macaddr_to_sql<B: Buffer>(address: [u8; 6], buf: &mut B) -> Result<(), Error>
    ensures { Writes macaddr address B.Lacks (B.held buf.old) result (B.held buf.new) }
{
    append(&address, buf)
}

/// Reads a `macaddr`.
pub fn macaddr_from_sql(buf: &[u8]) -> Result<[u8; 6], Error>
    ensures { Reads macaddr buf.now result }
{
    whole::<6>(buf)
}

/// Appends a `uuid`.
pub fn uuid_to_sql<B: Buffer>(id: [u8; 16], buf: &mut B) -> Result<(), Error>
    ensures { Writes uuid id B.Lacks (B.held buf.old) result (B.held buf.new) }
{
    append(&id, buf)
}

/// Reads a `uuid`.
pub fn uuid_from_sql(buf: &[u8]) -> Result<[u8; 16], Error>
    ensures { Reads uuid buf.now result }
{
    whole::<16>(buf)
}

/// An `inet` or a `cidr`: a host's address, and how many of its first bits name the network.
#[derive(Drop)]
pub struct Inet {
    addr: IpAddr,
    netmask: u8,
}

impl Model for Inet {
    ghost use Rattle.pgp_types.specs.Network.{Inet};

    ghost Value = { Inet };

    ghost view = { λ i. record { addr = i.addr; netmask = i.netmask } };
}

impl Inet {
    /// The address.
    pub fn addr(&self) -> IpAddr
        ensures { result ≡ self.now.addr }
    {
        self.addr
    }

    /// How many bits of the address name the network.
    pub fn netmask(&self) -> u8
        ensures { result ≡ self.now.netmask }
    {
        self.netmask
    }
}

/// Appends an `inet`. The netmask is not checked.
// The hint carries the speed.
#[inline(always)]
pub fn inet_to_sql<B: Buffer>(addr: IpAddr, netmask: u8, buf: &mut B) -> Result<(), Error>
    ensures { Writes inet (record { addr = addr; netmask = netmask }) B.Lacks (B.held buf.old) result (B.held buf.new) }
{
    match addr {
        IpAddr::V4(v4) => append_both(&[IPV4, netmask, 0, 4], &v4.octets(), buf),
        IpAddr::V6(v6) => append_both(&[IPV6, netmask, 0, 16], &v6.octets(), buf),
    }
}

// The address after its netmask and its size.
fn octets<const N: usize>(netmask: u8, size: u8, address: &[u8]) -> Result<[u8; N], Error>
    requires { N ≤ 16 }
    ensures ok { IfOk result (λ a. (netmask ≤ 8 * N) × (size ≡ N) × IsBlock N a × (address.now ≡ a)) }
    ensures refused { IfErr result (AddressRefused N netmask size address.now) }
{
    if netmask as usize > 8 * N {
        return Err(Error::InvalidNetmask);
    }
    if size as usize != N {
        return Err(Error::InvalidAddressLength);
    }
    block(address)
}

/// Reads an `inet` or a `cidr`.
pub fn inet_from_sql(buf: &[u8]) -> Result<Inet, Error>
    ensures { Reads inet buf.now result }
{
    let [family, netmask, _cidr, size, address @ ..] = buf else {
        return Err(Error::UnexpectedEof);
    };
    let addr = match *family {
        IPV4 => IpAddr::from(octets::<4>(*netmask, *size, address)?),
        IPV6 => IpAddr::from(octets::<16>(*netmask, *size, address)?),
        _ => return Err(Error::InvalidFamily),
    };
    Ok(Inet {
        addr,
        netmask: *netmask,
    })
}
