//! Values of parameters, tested and compared by their types.
//!
//! PostgreSQL manual, "Numeric Types", "Boolean Type", "UUID Type"; its errors are those of PostgreSQL 15's functions of input.

use crate::answer::format_of;
use crate::asked::{Refusal, bad_format, not_utf8, violation};
use crate::binary::{Unwritten, value_in};
use crate::extended::Binding;
use crate::outbox::Outbox;
use crate::types::{
    BOOL, BPCHAR, FLOAT4, FLOAT8, INT2, INT4, INT8, JSON, JSONB, NAME, NUMERIC, TEXT, UUID,
    VARCHAR, size_of,
};
use bytes::BytesMut;
use pgp_base::Oid;

/// Texts of a `bool`, of which a part is read too that begins no other.
static BOOLS: [(&str, &str); 8] = [
    ("true", "t"),
    ("false", "f"),
    ("yes", "t"),
    ("no", "f"),
    ("on", "t"),
    ("off", "f"),
    ("1", "t"),
    ("0", "f"),
];

/// How a server shows the `bool` of this text; nothing where it is none.
fn bool_of(text: &str) -> &'static str {
    let text = text.as_bytes();
    if text.is_empty() || text.eq_ignore_ascii_case(b"o") {
        return "";
    }
    for (name, shown) in &BOOLS {
        let front = name.as_bytes().get(..text.len()).unwrap_or(&[]);
        if front.eq_ignore_ascii_case(text) {
            return shown;
        }
    }
    ""
}

/// A text as a server shows it, where it reads others too.
fn plain(oid: Oid, text: &str) -> &str {
    match oid {
        BOOL => bool_of(text.trim_ascii()),
        INT2 | INT4 | INT8 | FLOAT4 | FLOAT8 => text.trim_ascii(),
        _ => text,
    }
}

/// The binary format of a text of this type.
fn written(oid: Oid, text: &[u8], out: &Outbox) -> Result<BytesMut, Unwritten> {
    match str::from_utf8(text) {
        Ok(text) => value_in(out.alloc, 1, oid, plain(oid, text).as_bytes()),
        Err(_) => Err(Unwritten::NotOfType),
    }
}

/// The same, if there is one.
fn found(oid: Oid, text: &[u8], out: &mut Outbox) -> Option<BytesMut> {
    match written(oid, text, out) {
        Ok(value) => Some(value),
        Err(Unwritten::Memory) => {
            out.lack();
            None
        }
        Err(_) => None,
    }
}

/// Whether both are the same value. Of a `numeric` it doesn't count how many digits are shown.
fn are_alike(oid: Oid, one: &[u8], other: &[u8]) -> bool {
    match (one, other) {
        ([a, b, c, d, e, f, _, _, one @ ..], [g, h, i, j, k, l, _, _, other @ ..])
            if oid == NUMERIC => {
            [*a, *b, *c, *d, *e, *f] == [*g, *h, *i, *j, *k, *l] && one == other
        }
        _ => one == other,
    }
}

/// Whether a value in this format is that of the text.
pub(crate) fn is_value(oid: Oid, format: i16, value: &[u8], text: &[u8], out: &mut Outbox) -> bool {
    if format == 0 && value == text {
        return true;
    }
    let Some(wanted) = found(oid, text, out) else {
        return false;
    };
    if format == 1 {
        return are_alike(oid, value, &wanted);
    }
    match found(oid, value, out) {
        Some(given) => are_alike(oid, &given, &wanted),
        None => false,
    }
}

/// Whether it is a text of a message.
pub(crate) fn is_text(text: &[u8]) -> bool {
    str::from_utf8(text).is_ok() && !text.contains(&0)
}

/// Whether it is a number without a fraction.
fn is_integer(text: &[u8]) -> bool {
    let text = text.trim_ascii();
    let digits = match text {
        [b'+' | b'-', rest @ ..] => rest,
        _ => text,
    };
    for digit in digits {
        if !digit.is_ascii_digit() {
            return false;
        }
    }
    !digits.is_empty()
}

/// Why a text is none of this type, if it isn't. Of other types than these nothing is said.
fn rejects_text<'v>(oid: Oid, text: &'v [u8], out: &mut Outbox) -> Option<Refusal<'v>> {
    if !is_text(text) {
        return Some(not_utf8());
    }
    let is_short = matches!(oid, INT2 | INT4 | INT8);
    if !is_short && !matches!(oid, BOOL | FLOAT4 | FLOAT8 | JSON | JSONB | NUMERIC | UUID) {
        return None;
    }
    match written(oid, text, out) {
        Err(Unwritten::NotOfType) if is_short && is_integer(text) => {
            let front = "value out of range for the parameter's type: ";
            Some(Refusal::of("22003", front, text, ""))
        }
        Err(Unwritten::NotOfType) => {
            let front = "invalid input syntax for the parameter's type: ";
            Some(Refusal::of("22P02", front, text, ""))
        }
        Err(Unwritten::Memory) => {
            out.lack();
            None
        }
        _ => None,
    }
}

/// Why bytes aren't the binary format of this type, if they aren't.
fn rejects_bytes<'v>(oid: Oid, bytes: &'v [u8], out: &mut Outbox) -> Option<Refusal<'v>> {
    match (oid, bytes) {
        (TEXT | VARCHAR | BPCHAR | NAME | JSON, text) | (JSONB, [1, text @ ..]) => {
            return rejects_text(oid, text, out);
        }
        _ => {}
    }
    let size = size_of(oid)?;
    if bytes.len() < size {
        Some(Refusal::new("08P01", "insufficient data left in message"))
    } else if bytes.len() > size {
        let message = "incorrect binary data format in bind parameter";
        Some(Refusal::new("22P03", message))
    } else {
        None
    }
}

/// Why a value in this format is none of this type, if it isn't.
fn rejects_value<'v>(
    oid: Oid,
    format: i16,
    value: &'v [u8],
    out: &mut Outbox,
) -> Option<Refusal<'v>> {
    match format {
        0 => rejects_text(oid, value, out),
        _ => rejects_bytes(oid, value, out),
    }
}

/// Why a binding, or a call of a function, has another number of values or formats than there are parameters, if it has.
pub(crate) fn rejects_counts<'m>(types: &[Oid], binding: &Binding<'m>) -> Option<Refusal<'m>> {
    let (formats, count) = (binding.formats.len(), binding.values.len());
    if formats > 1 && formats != count {
        return Some(violation("message has another number of formats than of values"));
    }
    if types.len() != count {
        return Some(violation("message has another number of values than there are parameters"));
    }
    None
}

/// Why the values of a binding aren't of these types, if they aren't.
pub(crate) fn rejects_values<'m>(
    types: &[Oid],
    binding: &Binding<'m>,
    out: &mut Outbox,
) -> Option<Refusal<'m>> {
    if !types.is_empty() && !are_formats(binding.formats) {
        return Some(bad_format());
    }
    for (place, value) in binding.values.iter().enumerate() {
        if let (Some(value), Some(oid)) = (value, types.get(place)) {
            let refusal = rejects_value(*oid, format_of(binding.formats, place), value, out);
            if refusal.is_some() {
                return refusal;
            }
        }
    }
    None
}

/// Whether each is text or binary.
pub(crate) fn are_formats(formats: &[i16]) -> bool {
    for format in formats {
        if *format != 0 && *format != 1 {
            return false;
        }
    }
    true
}
