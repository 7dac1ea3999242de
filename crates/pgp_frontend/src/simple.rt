//! Simple queries, and the end of a session.
#![tactic(auto, using(pgp_base::proofs::Parts::held_steps))]

ghost use Rattle.pgp_frontend.specs.ClientMessage.{Query, Terminate};
ghost use Rattle.pgp_frontend.specs.Payload.{WritesMessage};

use crate::field::message;
use crate::over_bytes;
use pgp_base::{Buffer, Error};

/// Query: runs one or more statements, separated by semicolons.
///
/// # Errors
///
/// Returns `EmbeddedNull` if the query has a 0 byte, `TooLarge` if the message exceeds `i32::MAX`, and
/// `OutOfMemory` if the buffer can't grow. On error the buffer is unchanged.
pub fn query<B: Buffer>(query: &str, buf: &mut B) -> Result<(), Error>
    ensures { WritesMessage (Query query.now) B.Lacks (B.held buf.old) (B.held buf.new) result }
{
    over_bytes::query(query.as_bytes(), buf)
}

/// Terminate: ends the session.
///
/// # Errors
///
/// Returns `OutOfMemory` if the buffer can't grow. On error the buffer is unchanged.
pub fn terminate<B: Buffer>(buf: &mut B) -> Result<(), Error>
    ensures { WritesMessage Terminate B.Lacks (B.held buf.old) (B.held buf.new) result }
{
    message(b'X', &[], buf)
}
