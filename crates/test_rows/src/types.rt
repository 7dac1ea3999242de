//! Values of the types that `pgp_types` has: numbers, texts, addresses, shapes, lists, arrays and ranges. The bits of a float are reported as bytes.

use crate::arrays::{show_array, write_array};
use crate::ranges::{show_range, write_range};
use crate::shapes::{show_box, show_path, write_box, write_path, write_point};
use crate::shown::{Show, Shown};
use crate::texts::text_behind_ascii;
use crate::walks::show_list;
use crate::word::{Item, Words};
use pgp_base::{Buffer, Error};
use pgp_types::{
    Inet, bool_from_sql, bool_to_sql, bytea_from_sql, bytea_to_sql, char_from_sql, char_to_sql,
    date_from_sql, date_to_sql, empty_range_to_sql, float4_from_sql, float4_to_sql,
    float8_from_sql, float8_to_sql, hstore_from_sql, hstore_to_sql, inet_from_sql, inet_to_sql,
    int2_from_sql, int2_to_sql, int4_from_sql, int4_to_sql, int8_from_sql, int8_to_sql,
    lquery_from_sql, lquery_to_sql, lsn_from_sql, lsn_to_sql, ltree_from_sql, ltree_to_sql,
    ltxtquery_from_sql, ltxtquery_to_sql, macaddr_from_sql, macaddr_to_sql, oid_from_sql,
    oid_to_sql, point_from_sql, text_from_sql, text_to_sql, time_from_sql, time_to_sql,
    timestamp_from_sql, timestamp_to_sql, uuid_from_sql, uuid_to_sql, varbit_from_sql,
    varbit_to_sql,
};
use std::net::IpAddr;

/// The address of 4 or 16 bytes.
pub fn address(words: &mut Words<'_>) -> IpAddr {
    let bytes = words.bytes();
    if let Some((v4, [])) = bytes.split_first_chunk::<4>() {
        return IpAddr::from(*v4);
    }
    if let Some((v6, [])) = bytes.split_first_chunk::<16>() {
        return IpAddr::from(*v6);
    }
    words.fail_row();
    IpAddr::from([0u8; 4])
}

fn write_inet<B: Buffer>(words: &mut Words<'_>, buf: &mut B) -> Result<(), Error> {
    let address = address(words);
    inet_to_sql(address, words.number(), buf)
}

/// Shows an address and the bits of its net.
pub fn show_inet(inet: Inet, out: &mut Shown) {
    match inet.addr() {
        IpAddr::V4(v4) => out.bytes(&v4.octets()),
        IpAddr::V6(v6) => out.bytes(&v6.octets()),
    }
    out.number(inet.netmask());
}

fn write_varbit<B: Buffer>(words: &mut Words<'_>, buf: &mut B) -> Result<(), Error> {
    let len = words.number();
    varbit_to_sql(len, words.bytes().iter().copied(), buf)
}

fn show_varbit(bytes: &[u8], out: &mut Shown) -> Result<(), Error> {
    let bits = varbit_from_sql(bytes)?;
    out.number(bits.len());
    out.bytes(bits.bytes());
    if bits.is_empty() != (bits.len() == 0) {
        out.word("is_empty");
    }
    Ok(())
}

/// A key and its value, which may be `null`.
impl<'w> Item<'w> for (&'w str, Option<&'w str>) {
    fn read(words: &mut Words<'w>) -> (&'w str, Option<&'w str>) {
        let key = words.text();
        if words.takes("null") {
            return (key, None);
        }
        (key, Some(words.text()))
    }
}

/// A key and its value.
impl Show for (&str, Option<&str>) {
    fn show(self, out: &mut Shown) {
        let (key, value) = self;
        out.text(key);
        match value {
            Some(value) => out.text(value),
            None => out.word("null"),
        }
    }
}

fn write_hstore<B: Buffer>(words: &mut Words<'_>, buf: &mut B) -> Result<(), Error> {
    let pairs = words.list::<(&str, Option<&str>)>();
    hstore_to_sql(pairs.iter().copied(), buf)
}

/// Appends a value of the type of this name.
pub fn write<B: Buffer>(name: &str, words: &mut Words<'_>, buf: &mut B) -> Result<(), Error> {
    match name {
        "bool" => bool_to_sql(words.either("true", "false"), buf),
        "char" => char_to_sql(words.number(), buf),
        "int2" => int2_to_sql(words.number(), buf),
        "int4" => int4_to_sql(words.number(), buf),
        "int8" => int8_to_sql(words.number(), buf),
        "oid" => oid_to_sql(words.number(), buf),
        "lsn" => lsn_to_sql(words.number(), buf),
        "timestamp" => timestamp_to_sql(words.number(), buf),
        "time" => time_to_sql(words.number(), buf),
        "date" => date_to_sql(words.number(), buf),
        "float4" => float4_to_sql(u32::from_be_bytes(words.block()), buf),
        "float8" => float8_to_sql(u64::from_be_bytes(words.block()), buf),
        "text" => text_to_sql(words.text(), buf),
        "ltree" => ltree_to_sql(words.text(), buf),
        "lquery" => lquery_to_sql(words.text(), buf),
        "ltxtquery" => ltxtquery_to_sql(words.text(), buf),
        "bytea" => bytea_to_sql(words.bytes(), buf),
        "inet" => write_inet(words, buf),
        "macaddr" => macaddr_to_sql(words.block(), buf),
        "uuid" => uuid_to_sql(words.block(), buf),
        "point" => write_point(words, buf),
        "box" => write_box(words, buf),
        "path" => write_path(words, buf),
        "varbit" => write_varbit(words, buf),
        "hstore" => write_hstore(words, buf),
        "array" => write_array(words, buf),
        "range" => write_range(words, buf),
        "empty_range" => empty_range_to_sql(buf),
        _ => words.no_call(),
    }
}

/// Shows what the type of this name reads from all of the bytes.
///
/// # Errors
///
/// The type's refusal of them.
pub fn read(name: &str, bytes: &[u8], out: &mut Shown) -> Result<(), Error> {
    match name {
        "bool" => out.number(bool_from_sql(bytes)?),
        "char" => out.number(char_from_sql(bytes)?),
        "int2" => out.number(int2_from_sql(bytes)?),
        "int4" => out.number(int4_from_sql(bytes)?),
        "int8" => out.number(int8_from_sql(bytes)?),
        "oid" => out.number(oid_from_sql(bytes)?),
        "lsn" => out.number(lsn_from_sql(bytes)?),
        "timestamp" => out.number(timestamp_from_sql(bytes)?),
        "time" => out.number(time_from_sql(bytes)?),
        "date" => out.number(date_from_sql(bytes)?),
        "float4" => out.bytes(&float4_from_sql(bytes)?.to_be_bytes()),
        "float8" => out.bytes(&float8_from_sql(bytes)?.to_be_bytes()),
        "text" => out.text(text_from_sql(bytes)?),
        "text_behind_ascii" => text_behind_ascii(bytes, out),
        "ltree" => out.text(ltree_from_sql(bytes)?),
        "lquery" => out.text(lquery_from_sql(bytes)?),
        "ltxtquery" => out.text(ltxtquery_from_sql(bytes)?),
        "bytea" => out.bytes(bytea_from_sql(bytes)),
        "inet" => show_inet(inet_from_sql(bytes)?, out),
        "macaddr" => out.bytes(&macaddr_from_sql(bytes)?),
        "uuid" => out.bytes(&uuid_from_sql(bytes)?),
        "point" => point_from_sql(bytes)?.show(out),
        "box" => show_box(bytes, out)?,
        "path" => show_path(bytes, out)?,
        "varbit" => show_varbit(bytes, out)?,
        "hstore" => show_list(hstore_from_sql(bytes)?, hstore_from_sql(bytes)?, out),
        "array" => show_array(bytes, out)?,
        "range" | "empty_range" => show_range(bytes, out)?,
        _ => out.word("no such type"),
    }
    Ok(())
}
