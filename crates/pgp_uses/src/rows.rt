//! The columns of a row, and their values as types.

ghost use Rattle.std.specs.Prelude.{◌≡◌, ◌⊎◌, IfOk, IfErr};
ghost use Rattle.pgp_message.specs.Table.{column, HasPlaces};
ghost use Rattle.pgp_types.specs.Scalar.{int4};
ghost use Rattle.pgp_types.specs.Text.{text};
ghost use Rattle.pgp_uses.specs.Rows.{ReadsColumn, ReadsColumnBy};

use postgres_protocol::Error;
use postgres_protocol::message::backend::RowIndex;
use postgres_protocol::types::{int4_from_sql, text_from_sql};
use std::alloc::Allocator;

/// Why a column gave no value.
#[derive(Debug, Clone, Copy, PartialEq, Eq)]
pub enum ColumnError {
    /// The row has no such column.
    NoColumn,
    /// The bytes are no value of the type.
    Value(Error),
}

/// Column `i` as an `int4`; `None` for a null.
///
/// # Errors
///
/// Returns `NoColumn` if the row has no column `i`; `Value` if it isn't 4 bytes: `UnexpectedEof` if it is fewer,
/// `NotDrained` if it is more.
pub fn int4_column<A: Allocator>(
    row: &RowIndex<'_, A>,
    i: usize,
) -> Result<Option<i32>, ColumnError>
    ensures { ReadsColumn int4 (column row.now i) result }
{
    match row.value(i) {
        None => Err(ColumnError::NoColumn),
        Some(None) => Ok(None),
        Some(Some(bytes)) => int4_from_sql(bytes).map(Some).map_err(ColumnError::Value),
    }
}

/// Column `i` as a `text`, which points into the row; `None` for a null.
///
/// # Errors
///
/// Returns `NoColumn` if the row has no column `i`, and `Value` of `NotUtf8` if it isn't UTF-8.
pub fn text_column<'a, A: Allocator>(
    row: &RowIndex<'a, A>,
    i: usize,
) -> Result<Option<&'a str>, ColumnError>
    ensures { ReadsColumnBy (λ t. t.now) text (column row.now i) result }
{
    match row.value(i) {
        None => Err(ColumnError::NoColumn),
        Some(None) => Ok(None),
        Some(Some(bytes)) => text_from_sql(bytes).map(Some).map_err(ColumnError::Value),
    }
}
