//! Messages in a window on the caller's memory: what fits is always written.

ghost use Rattle.std.specs.Prelude.{◌≡◌, ℕ, List, Option, None, Result, true};
ghost use Rattle.pgp_base.specs.Window.{window_held, window_lacks};
ghost use Rattle.pgp_base.specs.declared.error.BindError.{BindError};
ghost use Rattle.pgp_base.specs.declared.window.Window.{Window};
ghost use Rattle.pgp_frontend.specs.ClientMessage.{ClientMessage, CopyData as DataMessage, Parse};
ghost use Rattle.pgp_frontend.specs.Payload.{cause};
ghost use Rattle.pgp_types.specs.declared.array.ArrayDimension.{ArrayDimension};
ghost use Rattle.pgp_types.specs.Array.{array_cause};
ghost use Rattle.postgres_protocol.specs.declared.laws.array.Step.{Step};
ghost use Rattle.postgres_protocol.specs.ArraySteps.{BindsArray, Give, array_of, binding};
ghost use Rattle.pgp_stream.specs.ClientStream.{AddsMessage, Sent};
ghost use Rattle.postgres_protocol.specs.Rooms.{BindsByRoom, GoesByRoom};

use crate::session::ClientStream;
use bytes::Buf;
use pgp_base::{Error, Oid, Window};
use pgp_frontend::CopyData;

/// A method of a stream over a window that adds a message goes by the room that is left: what fits is added, and memory is
/// wanted where the message is longer, and nowhere else.
pub fn what_fits_is_added()
    ensures { (m : ClientMessage) (old new : Sent Window) (result : Result (Unit {0}) Error) → AddsMessage window_held m window_lacks old new result
        → GoesByRoom m Error.OutOfMemory old new result }
{}

/// So does `copy_data`, which hands back the piece that doesn't fit.
///
/// # Errors
///
/// The piece itself, where it is longer than the room that is left.
pub fn piece_in_a_window<'a, T: Buf + Drop>(
    stream: &mut ClientStream<Window<'a>>,
    piece: CopyData<T>,
) -> Result<(), CopyData<T>>
    requires { stream.old.opened ≡ true }
    ensures { GoesByRoom (DataMessage (T.unread piece)) piece stream.old stream.new result }
{
    stream.copy_data(piece)
}

/// So does `parse` of identifiers that stand in a list.
///
/// # Errors
///
/// As `ClientStream::parse`.
pub fn statement_in_a_window<'a>(
    stream: &mut ClientStream<Window<'a>>,
    name: &str,
    query: &str,
    types: &[Oid],
) -> Result<(), Error>
    requires { stream.old.opened ≡ true }
    ensures adds { AddsMessage window_held (Parse name.now query.now types.now) window_lacks stream.old stream.new result }
    ensures room { GoesByRoom (Parse name.now query.now types.now) Error.OutOfMemory stream.old stream.new result }
{
    stream.parse(name, query, types.iter().copied())
}

/// Steps that all give an element are bound by the room for the message of their array.
pub fn arrays_that_fit_are_bound()
    ensures { (dimensions : List ArrayDimension) (element_type : ℕ) (steps : List Step) (vs : List (Option (List ℕ))) (old new : Window) (result : Result (Unit {0}) (BindError (BindError Error)))
        → BindsArray dimensions element_type steps window_lacks (window_held old) (window_held new) result
        → Give steps vs → array_cause (array_of dimensions element_type vs) ≡ None → cause (binding dimensions element_type vs) ≡ None
        → BindsByRoom (binding dimensions element_type vs) (window_held old) (window_held new) result }
{}
