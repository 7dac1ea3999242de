//! Values of a script in binary format, by the codecs of `pgp_types` and `pgp_values`.

use crate::array_text::elements_of;
use crate::moment_text::{clock_of, date_of, interval_of, timestamp_of, timestamptz_of};
use crate::outbox::push;
use crate::types::{
    BOOL, BPCHAR, BYTEA, DATE, FLOAT4, FLOAT8, INT2, INT4, INT8, INTERVAL, JSON, JSONB, NAME,
    NUMERIC, OID, TEXT, TIME, TIMESTAMP, TIMESTAMPTZ, UUID, VARCHAR, element_of,
};
use bytes::BytesMut;
use json::Scratch;
use pgp_base::{Error, IsNull, Oid};
use pgp_types::{self as types, ArrayDimension};
use pgp_values::{self as values, NumericError};
use std::alloc::{AllocError, Global};
use uuid::Uuid;

/// Why a value has no bytes in binary format.
#[derive(Clone, Copy)]
pub(crate) enum Unwritten {
    Memory,
    /// Its text is none of its type.
    NotOfType,
    /// This server doesn't write the type's binary format.
    NoFormat,
}

impl From<Error> for Unwritten {
    fn from(why: Error) -> Unwritten {
        match why {
            Error::OutOfMemory => Unwritten::Memory,
            _ => Unwritten::NotOfType,
        }
    }
}

impl From<AllocError> for Unwritten {
    fn from(_: AllocError) -> Unwritten {
        Unwritten::Memory
    }
}

/// What became of bytes that were to be appended.
fn written(put: Result<(), Error>) -> Result<(), Unwritten> {
    match put {
        Ok(()) => Ok(()),
        Err(why) => Err(Unwritten::from(why)),
    }
}

/// What was read of a text; it is none of its type where there is nothing.
fn read<T: Drop>(found: Option<T>) -> Result<T, Unwritten> {
    match found {
        Some(value) => Ok(value),
        None => Err(Unwritten::NotOfType),
    }
}

/// Appends a number without a fraction.
fn put_integer(oid: Oid, word: &str, out: &mut BytesMut) -> Result<(), Unwritten> {
    match oid {
        INT8 => written(types::int8_to_sql(read(word.parse().ok())?, out)),
        INT2 => written(types::int2_to_sql(read(word.parse().ok())?, out)),
        INT4 => written(types::int4_to_sql(read(word.parse().ok())?, out)),
        _ => written(types::oid_to_sql(read(word.parse().ok())?, out)),
    }
}

/// The bits of a number, and of `NaN` those that a server sends.
fn bits4(number: f32) -> u32 {
    if number.is_nan() {
        0x7fc0_0000
    } else {
        number.to_bits()
    }
}

fn bits8(number: f64) -> u64 {
    if number.is_nan() {
        0x7ff8_0000_0000_0000
    } else {
        number.to_bits()
    }
}

/// Appends a number with a fraction.
fn put_number(oid: Oid, word: &str, out: &mut BytesMut) -> Result<(), Unwritten> {
    match oid {
        FLOAT4 => written(types::float4_to_sql(bits4(read(word.parse().ok())?), out)),
        FLOAT8 => written(types::float8_to_sql(bits8(read(word.parse().ok())?), out)),
        _ => match values::numeric_text_to_sql(word, out) {
            Ok(()) => Ok(()),
            Err(NumericError::OutOfMemory) => Err(Unwritten::Memory),
            Err(_) => Err(Unwritten::NotOfType),
        },
    }
}

/// Appends a `bool`.
fn put_bool(word: &str, out: &mut BytesMut) -> Result<(), Unwritten> {
    match word {
        "t" => written(types::bool_to_sql(true, out)),
        "f" => written(types::bool_to_sql(false, out)),
        _ => Err(Unwritten::NotOfType),
    }
}

/// Appends a date, a time or an interval.
fn put_moment(oid: Oid, word: &str, out: &mut BytesMut) -> Result<(), Unwritten> {
    match oid {
        DATE => written(values::date_value_to_sql(read(date_of(word))?, out)),
        TIME => written(types::time_to_sql(read(clock_of(word))?, out)),
        INTERVAL => written(values::interval_value_to_sql(read(interval_of(word))?, out)),
        TIMESTAMP => written(values::timestamp_value_to_sql(read(timestamp_of(word))?, out)),
        _ => written(values::timestamp_value_to_sql(read(timestamptz_of(word))?, out)),
    }
}

/// Appends the bytes of a `bytea` in hexadecimal digits, as a server shows it.
fn put_bytea(alloc: Global, word: &str, out: &mut BytesMut) -> Result<(), Unwritten> {
    let Some(digits) = word.strip_prefix("\\x") else {
        return Err(Unwritten::NotOfType);
    };
    match hex::decode(alloc, digits) {
        Ok(bytes) => written(types::bytea_to_sql(&bytes, out)),
        Err(hex::FromHexError::OutOfMemory) => Err(Unwritten::Memory),
        Err(_) => Err(Unwritten::NotOfType),
    }
}

/// Appends a `uuid`.
fn put_uuid(word: &str, out: &mut BytesMut) -> Result<(), Unwritten> {
    match Uuid::parse_str(word) {
        Ok(id) => written(types::uuid_to_sql(id.into_bytes(), out)),
        Err(_) => Err(Unwritten::NotOfType),
    }
}

/// Appends a `json` or a `jsonb`.
fn put_json(alloc: Global, oid: Oid, text: &str, out: &mut BytesMut) -> Result<(), Unwritten> {
    if !json::is_valid(text, &mut Scratch::new(alloc))? {
        return Err(Unwritten::NotOfType);
    }
    match oid {
        JSONB => written(values::jsonb_to_sql(text, out)),
        _ => written(types::text_to_sql(text, out)),
    }
}

/// Appends a value of this type, which is no array.
fn put_scalar(alloc: Global, oid: Oid, text: &str, out: &mut BytesMut) -> Result<(), Unwritten> {
    match oid {
        INT8 | INT2 | INT4 | OID => put_integer(oid, text, out),
        BOOL => put_bool(text, out),
        FLOAT4 | FLOAT8 | NUMERIC => put_number(oid, text, out),
        DATE | TIME | TIMESTAMP | TIMESTAMPTZ | INTERVAL => put_moment(oid, text, out),
        BYTEA => put_bytea(alloc, text, out),
        UUID => put_uuid(text, out),
        JSON | JSONB => put_json(alloc, oid, text, out),
        NAME | TEXT | BPCHAR | VARCHAR => written(types::text_to_sql(text, out)),
        _ => Err(Unwritten::NoFormat),
    }
}

/// The bytes of a value that is no array.
fn scalar_of(alloc: Global, oid: Oid, text: &[u8]) -> Result<BytesMut, Unwritten> {
    let Ok(text) = str::from_utf8(text) else {
        return Err(Unwritten::NotOfType);
    };
    let mut out = BytesMut::new(alloc);
    put_scalar(alloc, oid, text, &mut out)?;
    Ok(out)
}

/// Appends an array of one dimension, as `{1,NULL}`, with elements of this type.
fn put_array(alloc: Global, element: Oid, word: &str, out: &mut BytesMut) -> Result<(), Unwritten> {
    match elements_of(alloc, word) {
        Ok(texts) => put_texts(alloc, element, &texts, out),
        Err(why) => Err(why),
    }
}

/// Appends an array of elements with these texts.
fn put_texts(
    alloc: Global,
    element: Oid,
    texts: &[Option<Vec<u8>>],
    out: &mut BytesMut,
) -> Result<(), Unwritten> {
    let mut elements = Vec::new(alloc);
    add_elements(alloc, element, texts, &mut elements)?;
    put_elements(element, &elements, out)
}

fn add_elements(
    alloc: Global,
    element: Oid,
    texts: &[Option<Vec<u8>>],
    elements: &mut Vec<Option<BytesMut>>,
) -> Result<(), Unwritten> {
    for text in texts {
        let value = match text {
            Some(text) => Some(scalar_of(alloc, element, text)?),
            None => None,
        };
        push(elements, value)?;
    }
    Ok(())
}

/// The dimension of so many elements; none of an array that is empty.
fn dimension_of(count: usize) -> Option<ArrayDimension> {
    if count == 0 {
        return None;
    }
    Some(ArrayDimension {
        len: i32::try_from(count).unwrap_or(i32::MAX),
        lower_bound: 1,
    })
}

/// Appends an array of these elements.
fn put_elements(
    element: Oid,
    elements: &[Option<BytesMut>],
    out: &mut BytesMut,
) -> Result<(), Unwritten> {
    let put = types::array_to_sql(
        dimension_of(elements.len()),
        element,
        elements,
        |value: &Option<BytesMut>, out: &mut BytesMut| -> Result<IsNull, Error> {
            match value {
                None => Ok(IsNull::Yes),
                Some(bytes) => {
                    types::bytea_to_sql(bytes, out)?;
                    Ok(IsNull::No)
                }
            }
        },
        out,
    );
    match put {
        Ok(()) => Ok(()),
        Err(why) => {
            drop(why);
            Err(Unwritten::Memory)
        }
    }
}

/// Appends a value in this format.
fn put_value(
    alloc: Global,
    format: i16,
    oid: Oid,
    text: &[u8],
    out: &mut BytesMut,
) -> Result<(), Unwritten> {
    if format == 0 {
        return written(types::bytea_to_sql(text, out));
    }
    let Ok(text) = str::from_utf8(text) else {
        return Err(Unwritten::NotOfType);
    };
    match element_of(oid) {
        Some(element) => put_array(alloc, element, text, out),
        None => put_scalar(alloc, oid, text, out),
    }
}

/// A value of a script in this format.
///
/// # Errors
///
/// Returns `NotOfType` if its text is none of its type, `NoFormat` for another type than those of docs/PGSERVE.md, and `Memory`; of text
/// format `Memory` alone.
pub(crate) fn value_in(
    alloc: Global,
    format: i16,
    oid: Oid,
    text: &[u8],
) -> Result<BytesMut, Unwritten> {
    let mut out = BytesMut::new(alloc);
    put_value(alloc, format, oid, text, &mut out)?;
    Ok(out)
}
