//! A copy, on the server's side.

ghost use Rattle.std.specs.Prelude.{length, [], ◌∷◌};
ghost use Rattle.std.specs.Iterator.{IsFiniteIterable};
ghost use Rattle.std.specs.List.{flat_map};
ghost use Rattle.pgp_base.specs.Calls.{Yielded};
ghost use Rattle.pgp_base.specs.Cause.{count_cause};
ghost use Rattle.pgp_base.specs.Wire.{uint16};
ghost use Rattle.pgp_frontend.specs.Payload.{Byte, Rest};
ghost use Rattle.pgp_message.specs.BackendMessage.{CopyData, CopyDone, CopyInResponse, CopyOutResponse};
ghost use Rattle.pgp_message_write.specs.Given.{WritesGiven};
ghost use Rattle.pgp_message_write.specs.Lists.{counted_list, format_parts, with_list};
ghost use Rattle.pgp_message_write.specs.Reply.{formats_of, WritesList, WritesReply};

use crate::list_message::{count_field, list_message};
use crate::list_message_of::{Ending, list_message_of};
use pgp_base::{Buffer, Error};
use pgp_frontend::field::{Field, message};

/// CopyInResponse: the server is ready for the data of a copy. The format is 0 for text and 1 for binary, as a whole and of each column.
///
/// # Errors
///
/// Returns `TooLarge` if there are more than 65,535 formats or the message exceeds `i32::MAX`, and `OutOfMemory` if the buffer can't
/// grow. On error the buffer is unchanged.
pub fn copy_in_response<B: Buffer>(
    format: u8,
    column_formats: &[u16],
    buf: &mut B,
) -> Result<(), Error>
    ensures { WritesList (CopyInResponse (formats_of format column_formats.now)) (count_cause (length column_formats.now))
        (with_list (Byte format ∷ Rest (uint16 (length column_formats.now)) ∷ []) (flat_map format_parts column_formats.now) [])
        B.Lacks (B.held buf.old) (B.held buf.new) result }
{
    let count = count_field(column_formats.len())?;
    let head = [Field::Byte(format), Field::Rest(&count)];
    list_message(b'G', &head, column_formats, &[], buf)
}

/// The same, over an iterator of formats.
///
/// # Errors
///
/// The first from the left of: `TooLarge` at the format past 65,535, which is not written, and `TooLarge` if the message
/// exceeds `i32::MAX`. Otherwise `OutOfMemory`, which may come before any of them, if the buffer can't grow. On error the
/// buffer is unchanged.
pub fn copy_in_response_of<B: Buffer, I: IntoIterator<Item = u16> + Drop>(
    format: u8,
    column_formats: I,
    buf: &mut B,
) -> Result<(), Error>
where
    I::IntoIter: Drop,
    requires { IsFiniteIterable I.into_iter_gives I.IntoIter.can_next I.IntoIter.remaining column_formats }
    ensures { WritesGiven (Yielded I.into_iter_gives I.IntoIter.next_gives column_formats) count_cause
        (λ all. Byte format ∷ counted_list format_parts all) (λ all. CopyInResponse (formats_of format all))
        B.Lacks (B.held buf.old) (B.held buf.new) result }
{
    list_message_of(
        b'G',
        &[Field::Byte(format)],
        Ending::Count,
        column_formats,
        buf,
    )
}

/// CopyOutResponse: the server is about to send the data of a copy, in these formats.
///
/// # Errors
///
/// As `copy_in_response`.
pub fn copy_out_response<B: Buffer>(
    format: u8,
    column_formats: &[u16],
    buf: &mut B,
) -> Result<(), Error>
    ensures { WritesList (CopyOutResponse (formats_of format column_formats.now)) (count_cause (length column_formats.now))
        (with_list (Byte format ∷ Rest (uint16 (length column_formats.now)) ∷ []) (flat_map format_parts column_formats.now) [])
        B.Lacks (B.held buf.old) (B.held buf.new) result }
{
    let count = count_field(column_formats.len())?;
    let head = [Field::Byte(format), Field::Rest(&count)];
    list_message(b'H', &head, column_formats, &[], buf)
}

/// The same, over an iterator of formats.
///
/// # Errors
///
/// As `copy_in_response_of`.
pub fn copy_out_response_of<B: Buffer, I: IntoIterator<Item = u16> + Drop>(
    format: u8,
    column_formats: I,
    buf: &mut B,
) -> Result<(), Error>
where
    I::IntoIter: Drop,
    requires { IsFiniteIterable I.into_iter_gives I.IntoIter.can_next I.IntoIter.remaining column_formats }
    ensures { WritesGiven (Yielded I.into_iter_gives I.IntoIter.next_gives column_formats) count_cause
        (λ all. Byte format ∷ counted_list format_parts all) (λ all. CopyOutResponse (formats_of format all))
        B.Lacks (B.held buf.old) (B.held buf.new) result }
{
    list_message_of(
        b'H',
        &[Field::Byte(format)],
        Ending::Count,
        column_formats,
        buf,
    )
}

/// CopyData: a chunk of the data of a copy.
///
/// # Errors
///
/// Returns `TooLarge` if the message exceeds `i32::MAX`, and `OutOfMemory` if the buffer can't grow. On error the buffer
/// is unchanged.
pub fn copy_data<B: Buffer>(data: &[u8], buf: &mut B) -> Result<(), Error>
    ensures { WritesReply (CopyData «data».now) B.Lacks (B.held buf.old) (B.held buf.new) result }
{
    message(b'd', &[Field::Rest(data)], buf)
}

/// CopyDone: the end of the data of a copy.
///
/// # Errors
///
/// Returns `OutOfMemory` if the buffer can't grow. On error the buffer is unchanged.
pub fn copy_done<B: Buffer>(buf: &mut B) -> Result<(), Error>
    ensures { WritesReply CopyDone B.Lacks (B.held buf.old) (B.held buf.new) result }
{
    message(b'c', &[], buf)
}
