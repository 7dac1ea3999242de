//! The extended query protocol, on the server's side.

ghost use Rattle.std.specs.Prelude.{length, [], ◌∷◌};
ghost use Rattle.std.specs.Iterator.{IsFiniteIterable};
ghost use Rattle.std.specs.List.{flat_map};
ghost use Rattle.pgp_base.specs.Calls.{Yielded};
ghost use Rattle.pgp_base.specs.Cause.{count_cause};
ghost use Rattle.pgp_base.specs.Wire.{uint16};
ghost use Rattle.pgp_frontend.specs.Payload.{Rest};
ghost use Rattle.pgp_message.specs.BackendMessage.{BindComplete, CloseComplete, NoData, ParseComplete, PortalSuspended};
ghost use Rattle.pgp_message_write.specs.Given.{WritesGiven};
ghost use Rattle.pgp_message_write.specs.Lists.{counted_list, type_parts, with_list};
ghost use Rattle.pgp_message_write.specs.Reply.{types_of, WritesList, WritesReply};

use crate::list_message::{count_field, list_message};
use crate::list_message_of::{Ending, list_message_of};
use pgp_base::{Buffer, Error, Oid};
use pgp_frontend::field::{Field, message};

/// ParseComplete: a statement has been prepared.
///
/// # Errors
///
/// Returns `OutOfMemory` if the buffer can't grow. On error the buffer is unchanged.
pub fn parse_complete<B: Buffer>(buf: &mut B) -> Result<(), Error>
    ensures { WritesReply ParseComplete B.Lacks (B.held buf.old) (B.held buf.new) result }
{
    message(b'1', &[], buf)
}

/// BindComplete: a portal has been created.
///
/// # Errors
///
/// Returns `OutOfMemory` if the buffer can't grow. On error the buffer is unchanged.
pub fn bind_complete<B: Buffer>(buf: &mut B) -> Result<(), Error>
    ensures { WritesReply BindComplete B.Lacks (B.held buf.old) (B.held buf.new) result }
{
    message(b'2', &[], buf)
}

/// CloseComplete: a statement or a portal has been closed.
///
/// # Errors
///
/// Returns `OutOfMemory` if the buffer can't grow. On error the buffer is unchanged.
pub fn close_complete<B: Buffer>(buf: &mut B) -> Result<(), Error>
    ensures { WritesReply CloseComplete B.Lacks (B.held buf.old) (B.held buf.new) result }
{
    message(b'3', &[], buf)
}

/// NoData: a statement or a portal returns no rows.
///
/// # Errors
///
/// Returns `OutOfMemory` if the buffer can't grow. On error the buffer is unchanged.
pub fn no_data<B: Buffer>(buf: &mut B) -> Result<(), Error>
    ensures { WritesReply NoData B.Lacks (B.held buf.old) (B.held buf.new) result }
{
    message(b'n', &[], buf)
}

/// PortalSuspended: an Execute's limit of rows was reached.
///
/// # Errors
///
/// Returns `OutOfMemory` if the buffer can't grow. On error the buffer is unchanged.
pub fn portal_suspended<B: Buffer>(buf: &mut B) -> Result<(), Error>
    ensures { WritesReply PortalSuspended B.Lacks (B.held buf.old) (B.held buf.new) result }
{
    message(b's', &[], buf)
}

/// ParameterDescription: the types of a statement's parameters.
///
/// # Errors
///
/// Returns `TooLarge` if there are more than 65,535, and `OutOfMemory` if the buffer can't grow. On error the buffer is
/// unchanged.
pub fn parameter_description<B: Buffer>(types: &[Oid], buf: &mut B) -> Result<(), Error>
    ensures { WritesList (types_of types.now) (count_cause (length types.now))
        (with_list (Rest (uint16 (length types.now)) ∷ []) (flat_map type_parts types.now) [])
        B.Lacks (B.held buf.old) (B.held buf.new) result }
{
    let count = count_field(types.len())?;
    list_message(b't', &[Field::Rest(&count)], types, &[], buf)
}

/// The same, over an iterator of types.
///
/// # Errors
///
/// The first from the left of: `TooLarge` at the type past 65,535, which is not written, and `TooLarge` if the message
/// exceeds `i32::MAX`. Otherwise `OutOfMemory`, which may come before any of them, if the buffer can't grow. On error the
/// buffer is unchanged.
pub fn parameter_description_of<B: Buffer, I: IntoIterator<Item = Oid> + Drop>(
    types: I,
    buf: &mut B,
) -> Result<(), Error>
where
    I::IntoIter: Drop,
    requires { IsFiniteIterable I.into_iter_gives I.IntoIter.can_next I.IntoIter.remaining types }
    ensures { WritesGiven (Yielded I.into_iter_gives I.IntoIter.next_gives types) count_cause
        (λ all. counted_list type_parts all) (λ all. types_of all)
        B.Lacks (B.held buf.old) (B.held buf.new) result }
{
    list_message_of(b't', &[], Ending::Count, types, buf)
}
