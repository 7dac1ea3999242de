//! Decimal numbers, reported as their texts.

use crate::codec::check_value;
use crate::fault::Fault;
use crate::row::Row;
use crate::shown::Shown;
use crate::values::Values;
use crate::word::{Words, words_of};
use bytes::BytesMut;
use pgp_base::{Buffer, Error};
use pgp_values::{
    Numeric, NumericError, numeric_digits_to_sql, numeric_from_sql, numeric_text_to_sql,
    numeric_to_i64, numeric_to_i128, numeric_to_sql, numeric_to_text,
};

// Why a numeric was refused, where no buffer of this program was short of memory.
pub fn plain_numeric(answer: Result<(), NumericError>, words: &mut Words<'_>) -> Result<(), Error> {
    match answer {
        Ok(()) => Ok(()),
        Err(NumericError::OutOfMemory) => Err(Error::OutOfMemory),
        Err(_) => words.no_call(),
    }
}

pub fn write_numeric<B: Buffer>(words: &mut Words<'_>, buf: &mut B) -> Result<(), Error> {
    let text = words.text();
    plain_numeric(numeric_text_to_sql(text, buf), words)
}

// The number of these parts: its sign, its weight, its scale, and its digits to the base 10,000.
fn parts_to_sql<B: Buffer>(words: &mut Words<'_>, buf: &mut B) -> Result<(), NumericError> {
    let negative = words.takes("minus");
    let weight = words.number();
    let scale = words.number();
    let digits = words.list::<u16>();
    numeric_digits_to_sql(negative, weight, scale, &digits, buf)
}

pub fn write_numeric_digits<B: Buffer>(words: &mut Words<'_>, buf: &mut B) -> Result<(), Error> {
    let answer = parts_to_sql(words, buf);
    plain_numeric(answer, words)
}

// The text of the number that these bytes are.
pub fn write_numeric_text<B: Buffer>(words: &mut Words<'_>, buf: &mut B) -> Result<(), Error> {
    match numeric_from_sql(words.bytes()) {
        Ok(v) => numeric_to_text(&v, buf),
        Err(_) => words.no_call(),
    }
}

// The text, and whether what is written of the number that was read is the same bytes.
pub fn show_numeric(bytes: &[u8], out: &mut Shown) {
    match numeric_from_sql(bytes) {
        Ok(v) => {
            let mut text = BytesMut::new(out.alloc());
            let mut again = BytesMut::new(out.alloc());
            if numeric_to_text(&v, &mut text).is_err() || numeric_to_sql(&v, &mut again).is_err() {
                return out.fail(Fault::Memory);
            }
            out.text_of(text.as_slice());
            if again.as_slice() != bytes {
                out.word("written otherwise");
            }
        }
        Err(e) => out.number(e),
    }
}

// The parts that `numeric_digits` is written of.
pub fn show_digits(bytes: &[u8], out: &mut Shown) {
    match numeric_from_sql(bytes) {
        Ok(Numeric::Finite(number)) => {
            if number.is_negative() {
                out.word("minus");
            }
            out.number(number.weight());
            out.number(number.scale());
            out.word("[");
            for index in 0..number.len() {
                out.number(number.digit(index as usize));
            }
            out.word("]");
        }
        Ok(_) => out.word("no digits"),
        Err(e) => out.number(e),
    }
}

// The integer that a number is, or why it is none of the type.
pub fn show_integer(bytes: &[u8], out: &mut Shown) {
    match numeric_from_sql(bytes) {
        Ok(v) => match numeric_to_i128(&v) {
            Ok(n) => out.number(n),
            Err(e) => out.number(e),
        },
        Err(e) => out.number(e),
    }
}

pub fn show_integer64(bytes: &[u8], out: &mut Shown) {
    match numeric_from_sql(bytes) {
        Ok(v) => match numeric_to_i64(&v) {
            Ok(n) => out.number(n),
            Err(e) => out.number(e),
        },
        Err(e) => out.number(e),
    }
}

// The text, or the number's parts, are rejected so.
fn refuses_numeric(row: &Row<'_>, out: &mut Shown) -> Result<(), Fault> {
    let (name, rest) = row.front();
    let list = words_of(out.alloc(), rest)?;
    let mut words = Words::new(out.alloc(), &list);
    let mut buf = BytesMut::new(out.alloc());
    let answer = match name {
        "numeric_digits" => parts_to_sql(&mut words, &mut buf),
        _ => numeric_text_to_sql(words.text(), &mut buf),
    };
    match answer {
        Ok(()) => out.word("taken"),
        Err(e) => out.number(e),
    }
    out.keep(words.end());
    if !buf.as_slice().is_empty() {
        out.word("and more");
    }
    out.received_to(row.right)
}

/// A row of a numeric.
pub fn check_numeric(row: &Row<'_>, out: &mut Shown) -> Result<(), Fault> {
    if row.call == "write" && row.is_refusal() {
        return refuses_numeric(row, out);
    }
    check_value::<Values>(row, out)
}
