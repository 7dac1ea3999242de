//! Answers to a server's requests for authentication.

ghost use Rattle.std.specs.Prelude.{◌≡◌, string_bytes, IfOk, IfErr};
ghost use Rattle.pgp_base.specs.Cause.{WantsMemory};
ghost use Rattle.pgp_auth.specs.Md5Text.{md5_answer};

use crate::md5_text::{digest_hex, digest_text};
use pgp_base::{Error, Memory};

pub mod sasl;

/// The answer to an `AuthenticationMd5Password` request, to be sent in a password message: `md5` and 32
/// hexadecimal digits (manual, "Message Flow", start-up).
///
/// # Errors
///
/// Returns `OutOfMemory` if memory for the text can't be allocated.
pub fn md5_hash<A: Memory>(
    alloc: A,
    username: &[u8],
    password: &[u8],
    salt: [u8; 4],
) -> Result<String<A>, Error>
    ensures ok { IfOk result (λ t. string_bytes t ≡ md5_answer username.now password.now salt) }
    ensures memory { IfErr result (WantsMemory A.Lacks) }
{
    digest_text(alloc, &digest_hex(password, username), &salt)
}
