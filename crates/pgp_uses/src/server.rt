//! A server for tests: it answers with frames that it makes.
#![tactic(auto, using(pgp_base::proofs::Parts::held_steps, pgp_base::proofs::Parts::wants_now))]

ghost use Rattle.std.specs.Prelude.{◌≡◌, ◌⊎◌, ◌+◌, length, Some, IfErr, OnOk, OnErr};
ghost use Rattle.pgp_base.specs.Cause.{Wants, WantsMemory, length_cause};
ghost use Rattle.pgp_base.specs.Held.{◌⊕◌, Leaves};
ghost use Rattle.pgp_base.specs.Wire.{frame};
ghost use Rattle.pgp_base.specs.Error.{error_of};

use pgp_base::{Buffer, put_u8, write_body};
use postgres_protocol::{BindError, Error};

/// Appends a message: its tag, the length, and the payload.
///
/// # Errors
///
/// Returns `TooLarge` if the payload is too long for a message, and `OutOfMemory`. On error the buffer is
/// unchanged.
pub fn answer<B: Buffer>(tag: u8, payload: &[u8], buf: &mut B) -> Result<(), Error>
    ensures ok { OnOk result (B.held buf.new ≡ B.held buf.old ⊕ frame tag payload.now) }
    ensures err { OnErr result (Leaves (B.held buf.old) (B.held buf.new)) }
    ensures cause { IfErr result (λ e. WantsMemory (Wants B.Lacks (B.held buf.old) (length (frame tag payload.now))) e ⊎ (length_cause (length payload.now + 4) ≡ Some e)) }
{
    let start = buf.len();
    put_u8(buf, tag)?;
    let body = write_body(
        buf,
        |buf: &mut B| -> Result<(), Error>
            ensures ok { OnOk result (B.held buf.exit.now ≡ B.held buf.entry.now ⊕ payload.entry.now) }
            ensures err { OnErr result (B.held buf.exit.now ≡ B.held buf.entry.now) }
            ensures cause { IfErr result (WantsMemory (Wants B.Lacks (B.held buf.entry.now) (length payload.entry.now))) }
        {
            buf.append(payload)?;
            Ok(())
        },
    );
    if let Err(e) = body {
        buf.truncate(start);
        return Err(refusal(e));
    }
    Ok(())
}

/// The error, whoever rejected.
pub(crate) fn refusal(e: BindError<Error>) -> Error
    ensures { result ≡ error_of e }
{
    match e {
        BindError::Conversion(e) | BindError::Serialization(e) => e,
    }
}
