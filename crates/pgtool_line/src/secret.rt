//! Secrets in a line: shown where the style has them, and else how long they are.

ghost use Rattle.std.specs.Prelude.{◌≡◌, ◌∷◌, [], OnErr, OnOk, string_bytes};
ghost use Rattle.pgtool_line.specs.Line.{Key, followed};
ghost use Rattle.pgtool_line.specs.Secret.{response_parts, secret};

use crate::line::{put_hidden, put_text};
use crate::nesting::{put_key, put_member};
use crate::style::Style;
use pgp_base::Memory;
use std::alloc::AllocError;

/// Adds a secret with its name, or how long it is.
pub fn put_secret<A: Memory>(
    style: Style,
    word: &str,
    name: &str,
    bytes: &[u8],
    line: &mut String<A>,
) -> Result<(), AllocError>
    ensures parts { OnOk result (string_bytes line.new ≡ followed style (string_bytes line.old) (Key word.now name.now ∷ secret style bytes.now ∷ [])) }
    ensures lacks { OnErr result A.Lacks }
{
    put_key(style, word, name, line)?;
    if style.secrets {
        put_text(style, bytes, line)
    } else {
        put_hidden(style, bytes.len(), line)
    }
}

/// Adds the bytes of an exchange, or how long they are; alone where it isn't known that they are of one.
pub fn put_response<A: Memory>(
    style: Style,
    reported: bool,
    response: &[u8],
    line: &mut String<A>,
) -> Result<(), AllocError>
    ensures parts { OnOk result (string_bytes line.new ≡ followed style (string_bytes line.old) (response_parts style reported response.now)) }
    ensures lacks { OnErr result A.Lacks }
{
    if reported {
        put_secret(style, "data", "data", response, line)
    } else {
        put_member(style, "data", line)?;
        put_hidden(style, response.len(), line)
    }
}
