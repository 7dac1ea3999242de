//! The answers to an authentication request. All have the tag `p`.
#![tactic(auto, using(pgp_base::proofs::Parts::held_steps))]

ghost use Rattle.std.specs.Prelude.{Some};
ghost use Rattle.pgp_frontend.specs.ClientMessage.{PasswordMessage, SaslInitialResponse, SaslResponse};
ghost use Rattle.pgp_frontend.specs.Payload.{WritesMessage};

use crate::field::{Field, message};
use crate::over_bytes;
use pgp_base::{Buffer, Error};

/// PasswordMessage: a clear-text password, or the answer to an MD5 request.
///
/// # Errors
///
/// Returns `EmbeddedNull` if the password has a 0 byte, `TooLarge` if the message exceeds `i32::MAX`, and
/// `OutOfMemory` if the buffer can't grow. On error the buffer is unchanged.
pub fn password_message<B: Buffer>(password: &[u8], buf: &mut B) -> Result<(), Error>
    ensures { WritesMessage (PasswordMessage password.now) B.Lacks (B.held buf.old) (B.held buf.new) result }
{
    message(b'p', &[Field::Text(password)], buf)
}

/// SASLInitialResponse: chooses a mechanism, and carries the client's first data.
///
/// # Errors
///
/// Returns `EmbeddedNull` if the mechanism has a 0 byte, `TooLarge` if the message exceeds `i32::MAX`, and
/// `OutOfMemory` if the buffer can't grow. On error the buffer is unchanged.
pub fn sasl_initial_response<B: Buffer>(
    mechanism: &str,
    data: &[u8],
    buf: &mut B,
) -> Result<(), Error>
    ensures { WritesMessage (SaslInitialResponse mechanism.now (Some «data».now)) B.Lacks (B.held buf.old) (B.held buf.new) result }
{
    over_bytes::sasl_initial_response(mechanism.as_bytes(), data, buf)
}

/// SASLResponse: the next data of a SASL exchange.
///
/// # Errors
///
/// Returns `TooLarge` if the message exceeds `i32::MAX`, and `OutOfMemory` if the buffer can't grow. On
/// error the buffer is unchanged.
pub fn sasl_response<B: Buffer>(data: &[u8], buf: &mut B) -> Result<(), Error>
    ensures { WritesMessage (SaslResponse «data».now) B.Lacks (B.held buf.old) (B.held buf.new) result }
{
    message(b'p', &[Field::Rest(data)], buf)
}
