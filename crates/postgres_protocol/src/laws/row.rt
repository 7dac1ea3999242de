//! The values of a row, by the calls of two crates.

ghost use Rattle.std.specs.Prelude.{◌≡◌, IfOk, IfErr};
ghost use Rattle.pgp_base.specs.Cause.{WantsMemory};
ghost use Rattle.postgres_protocol.specs.RowValues.{AreInt4, RowRead};

use bytes::Bytes;
use pgp_base::{Error, Memory};
use pgp_message::{DataRowBody, RowIndex};
use pgp_types::int4_from_sql;
use std::alloc::Allocator;

/// Reads each value of the row as an int4: `None` for a null. A value that isn't an int4 is no error of the
/// row: its own error stands in the list.
///
/// # Errors
///
/// The error of the iterator over the row's values: `UnexpectedEof` if one is cut short, `NotDrained` if
/// bytes stand after the last. `OutOfMemory` if the table or the list can't be allocated.
pub fn row_int4<A: Memory, R: Allocator + Copy>(
    alloc: A,
    row: &DataRowBody<Bytes<R>>,
) -> Result<Vec<Option<Result<i32, Error>>, A>, Error>
    ensures { RowRead (λ values. values.items) row.now A.Lacks result }
{
    let index = row.index(alloc)?;
    columns(alloc, &index)
}

/// Each column of the table as an int4.
fn columns<A: Memory>(
    alloc: A,
    index: &RowIndex<'_, A>,
) -> Result<Vec<Option<Result<i32, Error>>, A>, Error>
    ensures ok { IfOk result (λ values. AreInt4 index.now.buffer index.now.places values.items) }
    ensures err { IfErr result (WantsMemory A.Lacks) }
{
    let mut values = Vec::new(alloc);
    'columns: while let Some(column) = index.value(values.len()) {
        let value = column.map(|bytes| int4_from_sql(bytes));
        if A::push(&mut values, value).is_err() {
            return Err(Error::OutOfMemory);
        }
    }
    Ok(values)
}
