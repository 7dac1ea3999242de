//! Texts, bytes and documents.

ghost use Rattle.std.specs.Prelude.{◌≡◌};
ghost use Rattle.std.specs.Int.{w8, cast_unsigned};
ghost use Rattle.pgp_types.specs.Scalar.{bytea, char};
ghost use Rattle.pgp_types.specs.Text.{text};
ghost use Rattle.pgp_values.specs.Text.{jsonb, jsonpath};
ghost use Rattle.pgp_value_text.specs.ValueText.{char_text, hex_text, As, Shows, Tells};

use crate::put::{put, put_raw};
use bytes::BytesMut;
use pgp_base::{Memory, Oid};
use pgp_types::{bytea_from_sql, char_from_sql, text_from_sql};
use pgp_values::{jsonb_from_sql, jsonpath_from_sql};
use std::alloc::AllocError;

/// Adds a value whose bytes are its text.
pub(crate) fn put_text<A: Memory>(bytes: &[u8], out: &mut BytesMut<A>) -> Result<bool, AllocError>
    ensures { Tells (Shows text (As (λ shown. shown)) bytes.now) A.Lacks out.old.items out.new.items result }
{
    match text_from_sql(bytes) {
        Ok(shown) => put(shown, out),
        Err(_) => Ok(false),
    }
}

// Adds a character of ASCII, nothing for the byte 0, and any other byte as a backslash and three octal digits.
fn put_byte<A: Memory>(byte: u8, out: &mut BytesMut<A>) -> Result<bool, AllocError>
    ensures { Tells (λ t. t ≡ char_text byte) A.Lacks out.old.items out.new.items result }
{
    if byte == 0 {
        put_raw(&[], out)
    } else if byte < 128 {
        put_raw(&[byte], out)
    } else {
        put_raw(
            &[b'\\', 48 + byte / 64, 48 + byte / 8 % 8, 48 + byte % 8],
            out,
        )
    }
}

/// Adds the text of a `"char"`.
pub(crate) fn put_char<A: Memory>(bytes: &[u8], out: &mut BytesMut<A>) -> Result<bool, AllocError>
    ensures { Tells (Shows char (As (λ z. char_text (cast_unsigned w8 z))) bytes.now) A.Lacks out.old.items out.new.items result }
{
    match char_from_sql(bytes) {
        Ok(c) => put_byte(c.cast_unsigned(), out),
        Err(_) => Ok(false),
    }
}

// Adds bytes in hex.
fn put_hex<A: Memory>(bytes: &[u8], out: &mut BytesMut<A>) -> Result<bool, AllocError>
    ensures { Tells (λ t. t ≡ hex_text bytes.now) A.Lacks out.old.items out.new.items result }
{
    let memory = *out.allocator();
    let digits = memory.hex_of(bytes)?;
    let mut shown = String::new(memory);
    A::push_shown(&mut shown, format_args!("\\x{digits}"))?;
    put(&shown, out)
}

// Adds the text of a `bytea`.
fn put_bytes<A: Memory>(bytes: &[u8], out: &mut BytesMut<A>) -> Result<bool, AllocError>
    ensures { Tells (Shows bytea (As hex_text) bytes.now) A.Lacks out.old.items out.new.items result }
{
    put_hex(bytea_from_sql(bytes), out)
}

/// Adds the text of a `bytea`, and of no other type that is sent as bytes.
pub(crate) fn put_bytea<A: Memory>(
    type_oid: Oid,
    bytes: &[u8],
    out: &mut BytesMut<A>,
) -> Result<bool, AllocError>
    ensures { Tells (λ t. (type_oid ≡ 17) × Shows bytea (As hex_text) bytes.now t) A.Lacks out.old.items out.new.items result }
{
    if type_oid == 17 {
        put_bytes(bytes, out)
    } else {
        Ok(false)
    }
}

/// Adds the text of a `jsonb`.
pub(crate) fn put_jsonb<A: Memory>(bytes: &[u8], out: &mut BytesMut<A>) -> Result<bool, AllocError>
    ensures { Tells (Shows jsonb (As (λ document. document)) bytes.now) A.Lacks out.old.items out.new.items result }
{
    match jsonb_from_sql(bytes) {
        Ok(document) => put(document, out),
        Err(_) => Ok(false),
    }
}

/// Adds the text of a `jsonpath`.
pub(crate) fn put_jsonpath<A: Memory>(
    bytes: &[u8],
    out: &mut BytesMut<A>,
) -> Result<bool, AllocError>
    ensures { Tells (Shows jsonpath (As (λ path. path)) bytes.now) A.Lacks out.old.items out.new.items result }
{
    match jsonpath_from_sql(bytes) {
        Ok(path) => put(path, out),
        Err(_) => Ok(false),
    }
}
