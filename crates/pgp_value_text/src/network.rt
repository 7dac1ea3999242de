//! Addresses of networks and devices.

ghost use Rattle.std.specs.Prelude.{◌≡◌, ◌++◌, true, OnErr, OnOk, string_bytes};
ghost use Rattle.std.specs.List.{flat_map};
ghost use Rattle.std.specs.Net.Addr.{ipv6_segments};
ghost use Rattle.pgp_types.specs.Network.{inet, macaddr};
ghost use Rattle.pgp_values.specs.Network.{cidr, macaddr8};
ghost use Rattle.pgp_value_text.specs.Network.{address_text, ends_dotted, has_netmask, network_text, octet_text, octets_text};
ghost use Rattle.pgp_value_text.specs.ValueText.{As, Shows, Tells};

use crate::put::{put, put_raw};
use bytes::BytesMut;
use pgp_base::Memory;
use pgp_types::{Inet, inet_from_sql, macaddr_from_sql};
use pgp_values::{cidr_from_sql, macaddr8_from_sql};
use std::alloc::AllocError;
use std::net::{IpAddr, Ipv6Addr};

// Whether just the first six segments are 0.
fn ends_dotted(address: Ipv6Addr) -> bool
    ensures { result ≡ ends_dotted (ipv6_segments address) }
{
    matches!(address.segments(), [0, 0, 0, 0, 0, 0, seventh, _] if seventh != 0)
}

// Adds an address.
fn push_address<A: Memory>(address: IpAddr, shown: &mut String<A>) -> Result<(), AllocError>
    ensures ok { OnOk result (string_bytes shown.new ≡ string_bytes shown.old ++ address_text address) }
    ensures lacks { OnErr result A.Lacks }
{
    match address {
        IpAddr::V4(v4) => A::push_shown(shown, v4),
        IpAddr::V6(v6) => match v6.to_ipv4() {
            Some(end) if ends_dotted(v6) => {
                A::push_str(shown, "::")?;
                A::push_shown(shown, end)
            }
            _ => A::push_shown(shown, v6),
        },
    }
}

// Adds an address, and how many bits name the network, if that is to be shown.
fn put_network<A: Memory>(
    v: &Inet,
    has_netmask: bool,
    text: &mut BytesMut<A>,
) -> Result<bool, AllocError>
    ensures { Tells (λ t. t ≡ network_text has_netmask v.now) A.Lacks text.old.items text.new.items result }
{
    let netmask = v.netmask();
    let mut shown = String::new(*text.allocator());
    push_address(v.addr(), &mut shown)?;
    if has_netmask {
        A::push_shown(&mut shown, format_args!("/{netmask}"))?;
        put(&shown, text)
    } else {
        put(&shown, text)
    }
}

// Whether the network has fewer bits than the address.
fn has_netmask(v: &Inet) -> bool
    ensures { result ≡ has_netmask v.now }
{
    match v.addr() {
        IpAddr::V4(_) => v.netmask() != 32,
        IpAddr::V6(_) => v.netmask() != 128,
    }
}

/// Adds the text of an `inet`.
pub(crate) fn put_inet<A: Memory>(bytes: &[u8], text: &mut BytesMut<A>) -> Result<bool, AllocError>
    ensures { Tells (Shows inet (As (λ v. network_text (has_netmask v) v)) bytes.now) A.Lacks text.old.items text.new.items result }
{
    match inet_from_sql(bytes) {
        Ok(v) => put_network(&v, has_netmask(&v), text),
        Err(_) => Ok(false),
    }
}

/// Adds the text of a `cidr`.
pub(crate) fn put_cidr<A: Memory>(bytes: &[u8], text: &mut BytesMut<A>) -> Result<bool, AllocError>
    ensures { Tells (Shows cidr (As (network_text true)) bytes.now) A.Lacks text.old.items text.new.items result }
{
    match cidr_from_sql(bytes) {
        Ok(v) => put_network(&v, true, text),
        Err(_) => Ok(false),
    }
}

// Adds a colon and an octet in hex.
fn push_octet<A: Memory>(octet: u8, shown: &mut String<A>) -> Result<(), AllocError>
    ensures ok { OnOk result (string_bytes shown.new ≡ string_bytes shown.old ++ octet_text octet) }
    ensures lacks { OnErr result A.Lacks }
{
    let (high, low) = (octet / 16, octet % 16);
    A::push_shown(shown, format_args!(":{high:x}{low:x}"))
}

// Adds a colon and each octet in hex.
fn push_octets<A: Memory>(octets: &[u8], shown: &mut String<A>) -> Result<(), AllocError>
    ensures ok { OnOk result (string_bytes shown.new ≡ string_bytes shown.old ++ flat_map octet_text octets.now) }
    ensures lacks { OnErr result A.Lacks }
{
    for octet in octets {
        push_octet(*octet, shown)?;
    }
    Ok(())
}

// Adds octets in hex, with colons between them.
fn put_octets<A: Memory>(octets: &[u8], text: &mut BytesMut<A>) -> Result<bool, AllocError>
    ensures { Tells (λ t. t ≡ octets_text octets.now) A.Lacks text.old.items text.new.items result }
{
    let mut shown = String::new(*text.allocator());
    push_octets(octets, &mut shown)?;
    match shown.as_bytes() {
        [_, shown @ ..] => put_raw(shown, text),
        [] => put_raw(&[], text),
    }
}

/// Adds the text of a `macaddr`.
pub(crate) fn put_macaddr<A: Memory>(
    bytes: &[u8],
    text: &mut BytesMut<A>,
) -> Result<bool, AllocError>
    ensures { Tells (Shows macaddr (As octets_text) bytes.now) A.Lacks text.old.items text.new.items result }
{
    match macaddr_from_sql(bytes) {
        Ok(address) => put_octets(&address, text),
        Err(_) => Ok(false),
    }
}

/// Adds the text of a `macaddr8`.
pub(crate) fn put_macaddr8<A: Memory>(
    bytes: &[u8],
    text: &mut BytesMut<A>,
) -> Result<bool, AllocError>
    ensures { Tells (Shows macaddr8 (As octets_text) bytes.now) A.Lacks text.old.items text.new.items result }
{
    match macaddr8_from_sql(bytes) {
        Ok(address) => put_octets(&address, text),
        Err(_) => Ok(false),
    }
}
