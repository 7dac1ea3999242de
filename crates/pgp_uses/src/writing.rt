//! Messages at the end of a buffer, and in memory of one's own.

ghost use Rattle.std.specs.Prelude.{◌≡◌, ◌⊎◌, ◌<◌, ◌≤◌, ◌++◌, length, drop, Some, None, IsOk, IfOk, IfErr, OnOk, OnErr};
ghost use Rattle.pgp_base.specs.Cause.{WantsMemory};
ghost use Rattle.pgp_frontend.specs.ClientMessage.{Query};
ghost use Rattle.pgp_frontend.specs.Payload.{bytes_of, cause};

use bytes::BytesMut;
use pgp_base::{Buffer, Memory, Window};
use postgres_protocol::Error;
use postgres_protocol::message::frontend;
use std::alloc::Global;

/// Appends a query to what is to be sent.
///
/// # Errors
///
/// Returns `EmbeddedNull` if the text has a 0 byte, `TooLarge` if it is too long for a message, and `OutOfMemory`.
/// On error the buffer is unchanged.
#[tactic(auto, unfolding(pgp_base::specs::Held::lengthened))]
pub fn ask<A: Memory>(text: &str, buf: &mut BytesMut<A>) -> Result<(), Error>
    ensures sent { OnOk result (buf.new.items ≡ buf.old.items ++ bytes_of (Query text.now)) }
    ensures kept { OnErr result (buf.new.items ≡ buf.old.items) }
    ensures cause { IfErr result (λ e. WantsMemory A.Lacks e ⊎ (cause (Query text.now) ≡ Some e)) }
{
    frontend::query(text, buf)
}

/// Writes a query at the front of the caller's memory, and returns how many bytes it takes. No allocator is asked.
///
/// # Errors
///
/// Returns `EmbeddedNull` if the text has a 0 byte, `TooLarge` if it is too long for a message, and `OutOfMemory` if
/// the message is longer than the memory, and only there.
pub fn ask_in_place(text: &str, room: &mut [u8]) -> Result<usize, Error>
    ensures size { IfOk result (λ n. n ≡ length (bytes_of (Query text.now))) }
    ensures sent { IfOk result (λ n. room.new ≡ bytes_of (Query text.now) ++ drop n room.old) }
    ensures cause { IfErr result (λ e. ((e ≡ Error.OutOfMemory) × (length room.old < length (bytes_of (Query text.now)))) ⊎ (cause (Query text.now) ≡ Some e)) }
    ensures fits { cause (Query text.now) ≡ None → length (bytes_of (Query text.now)) ≤ length room.old → IsOk result }
{
    let mut window = Window::new(room);
    frontend::query(text, &mut window)?;
    Ok(window.len())
}
