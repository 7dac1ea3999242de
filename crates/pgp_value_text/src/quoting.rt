//! An element in the text of an array, and a bound in that of a range.

ghost use Rattle.std.specs.Prelude.{◌≡◌, ◌++◌, OnErr, OnOk};
ghost use Rattle.std.specs.List.{flat_map, list_any};
ghost use Rattle.pgp_value_text.specs.Quoting.{escaped_byte, is_bracket, is_special, quoted, wants_quotes};

use bytes::BytesMut;
use pgp_base::Memory;
use std::alloc::AllocError;

fn is_bracket(in_range: bool, byte: u8) -> bool
    ensures { result ≡ is_bracket in_range byte }
{
    if in_range {
        matches!(byte, b'(' | b')' | b'[' | b']')
    } else {
        matches!(byte, b'{' | b'}')
    }
}

// Whether a byte stands in quotes alone.
fn is_special(in_range: bool, byte: u8) -> bool
    ensures { result ≡ is_special in_range byte }
{
    matches!(byte, b',' | b'"' | b'\\' | b' ' | 9..=13) || is_bracket(in_range, byte)
}

fn has_special(in_range: bool, text: &[u8]) -> bool
    ensures { result ≡ list_any (is_special in_range) text.now }
{
    for byte in text {
        if is_special(in_range, *byte) {
            return true;
        }
    }
    false
}

// Whether an element or a bound stands in quotes.
fn wants_quotes(in_range: bool, text: &[u8]) -> bool
    ensures { result ≡ wants_quotes in_range text.now }
{
    text.is_empty()
        || has_special(in_range, text)
        || (!in_range && text.eq_ignore_ascii_case(b"NULL"))
}

// Adds a byte within quotes.
fn push_escaped<A: Memory>(
    in_range: bool,
    byte: u8,
    out: &mut BytesMut<A>,
) -> Result<(), AllocError>
    ensures ok { OnOk result (out.new.items ≡ out.old.items ++ escaped_byte in_range byte) }
    ensures lacks { OnErr result A.Lacks }
{
    if byte == b'"' || byte == b'\\' {
        A::append(out, &[if in_range { byte } else { b'\\' }, byte])
    } else {
        A::append(out, &[byte])
    }
}

// Adds bytes within quotes.
fn push_all<A: Memory>(
    in_range: bool,
    bytes: &[u8],
    out: &mut BytesMut<A>,
) -> Result<(), AllocError>
    ensures ok { OnOk result (out.new.items ≡ out.old.items ++ flat_map (escaped_byte in_range) bytes.now) }
    ensures lacks { OnErr result A.Lacks }
{
    for byte in bytes {
        push_escaped(in_range, *byte, out)?;
    }
    Ok(())
}

/// Adds a text as it stands in an array or in a range.
pub(crate) fn push_quoted<A: Memory>(
    in_range: bool,
    text: &[u8],
    out: &mut BytesMut<A>,
) -> Result<(), AllocError>
    ensures ok { OnOk result (out.new.items ≡ out.old.items ++ quoted in_range text.now) }
    ensures lacks { OnErr result A.Lacks }
{
    if wants_quotes(in_range, text) {
        A::append(out, b"\"")?;
        push_all(in_range, text, out)?;
        A::append(out, b"\"")
    } else {
        A::append(out, text)
    }
}
