//! Values of Rust's types: out of a row's column, and into a statement's parameter.

ghost use Rattle.std.specs.Prelude.{◌≡◌, ◌<◌, ◌^◌, ℕ, List, option_map};
ghost use Rattle.std.specs.Borrow.{Bor};
ghost use Rattle.pgp_types.specs.Format.{Plain, ReadsBy, Writes};
ghost use Rattle.pgp_types.specs.Scalar.{int4};
ghost use Rattle.pgp_message.specs.Table.{column};
ghost use Rattle.pgp_uses.specs.Rows.{ReadsColumnBy};
ghost use Rattle.pgp_uses.specs.Values.{BindsValue, Serializes};

use crate::rows::ColumnError;
use pgp_base::{Buffer, IsNull};
use postgres_protocol::laws::bind_one;
use postgres_protocol::message::backend::RowIndex;
use postgres_protocol::types::{int4_from_sql, int4_to_sql, text_from_sql, text_to_sql};
use postgres_protocol::{BindError, Error};
use std::alloc::Allocator;

/// A type whose values have a binary format. It may borrow from the bytes that it is read from.
pub trait Value<'a>: Sized {
    /// What a value says, whatever it borrows.
    ghost Meaning: { Type 0 };

    ghost meaning: { Self → Meaning };

    /// The format of PostgreSQL's type.
    ghost format: { Plain Meaning };

    /// Reads a value from all of the bytes.
    ///
    /// # Errors
    ///
    /// The error of the type's format.
    fn from_sql(bytes: &'a [u8]) -> Result<Self, Error>
        ensures { ReadsBy meaning format bytes.now result };

    /// Appends the value.
    ///
    /// # Errors
    ///
    /// Returns `OutOfMemory`, or the cause for which the value has no spelling. On error the buffer
    /// is unchanged.
    fn to_sql<B: Buffer>(&self, buf: &mut B) -> Result<(), Error>
        ensures { Writes format (meaning self.now) B.Lacks (B.held buf.old) result (B.held buf.new) };
}

/// An `int4`.
impl<'a> Value<'a> for i32 {
    ghost use Rattle.std.specs.Prelude.{ℤ};
    ghost use Rattle.pgp_types.specs.Scalar.{int4};

    ghost Meaning = { ℤ };

    ghost meaning = { λ z. z };

    ghost format = { int4 };

    fn from_sql(bytes: &'a [u8]) -> Result<i32, Error> {
        int4_from_sql(bytes)
    }

    fn to_sql<B: Buffer>(&self, buf: &mut B) -> Result<(), Error> {
        int4_to_sql(*self, buf)
    }
}

/// A `text`.
impl<'a> Value<'a> for &'a str {
    ghost use Rattle.std.specs.Prelude.{ℕ, List};
    ghost use Rattle.pgp_types.specs.Text.{text};

    ghost Meaning = { List ℕ };

    ghost meaning = { λ t. t.now };

    ghost format = { text };

    fn from_sql(bytes: &'a [u8]) -> Result<&'a str, Error> {
        text_from_sql(bytes)
    }

    fn to_sql<B: Buffer>(&self, buf: &mut B) -> Result<(), Error> {
        text_to_sql(*self, buf)
    }
}

/// Column `i` as a value of the type; `None` for a null.
///
/// # Errors
///
/// Returns `NoColumn` if the row has no column `i`; `Value` if its bytes are rejected as the type.
pub fn value_of<'a, V: Value<'a>, A: Allocator>(
    row: &RowIndex<'a, A>,
    i: usize,
) -> Result<Option<V>, ColumnError>
    ensures { ReadsColumnBy V.meaning V.format (column row.now i) result }
{
    match row.value(i) {
        None => Err(ColumnError::NoColumn),
        Some(None) => Ok(None),
        Some(Some(bytes)) => match V::from_sql(bytes) {
            Ok(value) => Ok(Some(value)),
            Err(e) => Err(ColumnError::Value(e)),
        },
    }
}

/// Appends a parameter's value, as a serializer of `bind`: `|v, buf| parameter(v, buf)`.
///
/// # Errors
///
/// Those of `to_sql`.
pub fn parameter<'a, V: Value<'a>, B: Buffer>(
    value: &Option<V>,
    buf: &mut B,
) -> Result<IsNull, Error>
    ensures { Serializes V.format (option_map V.meaning value.now) B.Lacks (B.held buf.old) (B.held buf.new) result }
{
    match value {
        None => Ok(IsNull::Yes),
        Some(value) => {
            value.to_sql(buf)?;
            Ok(IsNull::No)
        }
    }
}

/// Binds an `int4` or a null, in binary, to the one parameter of the unnamed statement.
///
/// # Errors
///
/// `OutOfMemory`: `Conversion` if the buffer can't grow for the value's bytes, `Serialization` if it can't for others. On
/// error the buffer is unchanged.
pub fn bind_int4<B: Buffer>(value: Option<i32>, buf: &mut B) -> Result<(), BindError<Error>>
    ensures { BindsValue int4 value B.Lacks (B.held buf.old) (B.held buf.new) result }
{
    bind_one(|_: u8, buf: &mut B| put_int4(value, buf), buf)
}

/// Appends the value, if it isn't a null.
pub(crate) fn put_int4<B: Buffer>(value: Option<i32>, buf: &mut B) -> Result<IsNull, Error>
    ensures { Serializes int4 value B.Lacks (B.held buf.old) (B.held buf.new) result }
{
    let Some(value) = value else {
        return Ok(IsNull::Yes);
    };
    int4_to_sql(value, buf)?;
    Ok(IsNull::No)
}
