//! Rows, and the columns that they have.
#![tactic(auto, using(pgp_base::proofs::Parts::held_steps))]

ghost use Rattle.std.specs.Prelude.{map, length, [], ◌∷◌};
ghost use Rattle.std.specs.Iterator.{IsFiniteIterable};
ghost use Rattle.std.specs.List.{flat_map};
ghost use Rattle.pgp_base.specs.Calls.{Yielded};
ghost use Rattle.pgp_base.specs.Cause.{count_cause};
ghost use Rattle.pgp_base.specs.Wire.{uint16};
ghost use Rattle.pgp_frontend.specs.Payload.{Rest};
ghost use Rattle.pgp_message_write.specs.Given.{WritesGiven};
ghost use Rattle.pgp_message_write.specs.Lists.{column_parts, counted_list, shown, value_parts, with_list};
ghost use Rattle.pgp_message_write.specs.Reply.{description_of, row_of, WritesList};
ghost use Rattle.pgp_message_write.specs.Views.{shown_column};

use crate::item::Item;
use crate::list_message::{count_field, list_message};
use crate::list_message_of::{Ending, list_message_of};
use pgp_base::big_endian::{u16_bytes, u32_bytes};
use pgp_base::{Buffer, Error, Oid};
use pgp_frontend::field::{Field, put_fields};

/// A column of rows.
///
/// PostgreSQL manual, "Message Formats", RowDescription.
#[derive(Debug, Clone, Copy, PartialEq, Eq)]
pub struct Column<'a> {
    pub name: &'a [u8],
    /// The table that it is a column of, or 0.
    pub table_oid: Oid,
    /// Its number there, or 0.
    pub column_id: i16,
    pub type_oid: Oid,
    /// Bytes of a value, negative where they aren't always as many.
    pub type_size: i16,
    /// What the type makes of it; -1 is none.
    pub type_modifier: i32,
    /// 0 for text and 1 for binary; 0 where it isn't known yet.
    pub format: i16,
}

impl<'a> Item for Column<'a> {
    ghost parts = { λ column. column_parts (shown_column column) };

    #[tactic(auto, unfolding(pgp_base::specs::Wire::int16, pgp_base::specs::Wire::uint32))]
    fn put<B: Buffer>(&self, buf: &mut B) -> Result<(), Error> {
        let fields = [
            Field::Text(self.name),
            Field::Rest(&u32_bytes(self.table_oid)),
            Field::Rest(&u16_bytes(self.column_id.cast_unsigned())),
            Field::Rest(&u32_bytes(self.type_oid)),
            Field::Rest(&u16_bytes(self.type_size.cast_unsigned())),
            Field::Int32(self.type_modifier),
            Field::Rest(&u16_bytes(self.format.cast_unsigned())),
        ];
        put_fields(&fields, buf)
    }
}

/// RowDescription: the columns of the rows that follow.
///
/// # Errors
///
/// The first of: `TooLarge` if there are more than 65,535 columns, `EmbeddedNull` if a name has a 0 byte, and `TooLarge` if the message
/// exceeds `i32::MAX`. Otherwise `OutOfMemory` if the buffer can't grow. On error the buffer is unchanged.
pub fn row_description<B: Buffer>(columns: &[Column<'_>], buf: &mut B) -> Result<(), Error>
    ensures { let all = map shown_column columns.now in WritesList (description_of all) (count_cause (length all))
        (with_list (Rest (uint16 (length all)) ∷ []) (flat_map column_parts all) [])
        B.Lacks (B.held buf.old) (B.held buf.new) result }
{
    let count = count_field(columns.len())?;
    list_message(b'T', &[Field::Rest(&count)], columns, &[], buf)
}

/// The same, over an iterator of columns.
///
/// # Errors
///
/// The first from the left of: `EmbeddedNull` if a name has a 0 byte, `TooLarge` at the column past 65,535, which is not written, and `TooLarge` if the
/// message exceeds `i32::MAX`. Otherwise `OutOfMemory`, which may come before any of them, if the buffer can't grow. On error the buffer is unchanged.
pub fn row_description_of<'a, B: Buffer, I: IntoIterator<Item = Column<'a>> + Drop>(
    columns: I,
    buf: &mut B,
) -> Result<(), Error>
where
    I::IntoIter: Drop,
    requires { IsFiniteIterable I.into_iter_gives I.IntoIter.can_next I.IntoIter.remaining columns }
    ensures { WritesGiven (Yielded I.into_iter_gives I.IntoIter.next_gives columns) count_cause
        (λ all. counted_list column_parts (map shown_column all)) (λ all. description_of (map shown_column all))
        B.Lacks (B.held buf.old) (B.held buf.new) result }
{
    list_message_of(b'T', &[], Ending::Count, columns, buf)
}

/// DataRow: a row of these values, `None` for a null, each in its column's format.
///
/// # Errors
///
/// Returns `TooLarge` if there are more than 65,535 values, or a value or the message exceeds `i32::MAX`, and
/// `OutOfMemory` if the buffer can't grow. On error the buffer is unchanged.
pub fn data_row<B: Buffer>(values: &[Option<&[u8]>], buf: &mut B) -> Result<(), Error>
    ensures { let vs = map shown values.now in WritesList (row_of vs) (count_cause (length vs))
        (with_list (Rest (uint16 (length vs)) ∷ []) (flat_map value_parts vs) [])
        B.Lacks (B.held buf.old) (B.held buf.new) result }
{
    let count = count_field(values.len())?;
    list_message(b'D', &[Field::Rest(&count)], values, &[], buf)
}

/// The same, over an iterator of values.
///
/// # Errors
///
/// The first from the left of: `TooLarge` if a value exceeds `i32::MAX`, `TooLarge` at the value past 65,535, which is not
/// written, and `TooLarge` if the message exceeds `i32::MAX`. Otherwise `OutOfMemory`, which may come before any of them, if the
/// buffer can't grow. On error the buffer is unchanged.
pub fn data_row_of<'a, B: Buffer, I: IntoIterator<Item = Option<&'a [u8]>> + Drop>(
    values: I,
    buf: &mut B,
) -> Result<(), Error>
where
    I::IntoIter: Drop,
    requires { IsFiniteIterable I.into_iter_gives I.IntoIter.can_next I.IntoIter.remaining values }
    ensures { WritesGiven (Yielded I.into_iter_gives I.IntoIter.next_gives values) count_cause
        (λ vs. counted_list value_parts (map shown vs)) (λ vs. row_of (map shown vs))
        B.Lacks (B.held buf.old) (B.held buf.new) result }
{
    list_message_of(b'D', &[], Ending::Count, values, buf)
}
