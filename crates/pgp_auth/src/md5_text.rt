//! MD5 digests as text.

ghost use Rattle.std.specs.Prelude.{◌≡◌, ◌++◌, string_bytes, IfOk, IfErr};
ghost use Rattle.hex.specs.Hex.{encode_lower};
ghost use Rattle.md5.specs.Md5.{md5};
ghost use Rattle.pgp_base.specs.Cause.{WantsMemory};
ghost use Rattle.pgp_auth.specs.Md5Text.{md5_text};

use md5::{Digest, Md5};
use pgp_base::{Error, Memory};
use std::str;

const DIGITS_LEN: usize = 32;

const TEXT_LEN: usize = 35;

// The digest of a message that comes in two parts, in lower-case hex.
pub(crate) fn digest_hex(first: &[u8], second: &[u8]) -> [u8; DIGITS_LEN]
    ensures { result ≡ encode_lower (md5 (first.now ++ second.now)) }
{
    let mut hasher = Md5::new();
    hasher.update(first);
    hasher.update(second);
    let mut digits = [0; DIGITS_LEN];
    hex::encode_to_slice(hasher.finalize(), &mut digits).unwrap();
    digits
}

// `md5` and these digits; the room is asked for once.
#[tactic(auto, unfolding(crate::specs::Md5Text::md5_text))]
pub(crate) fn digest_text<A: Memory>(
    alloc: A,
    first: &[u8],
    second: &[u8],
) -> Result<String<A>, Error>
    ensures ok { IfOk result (λ t. string_bytes t ≡ md5_text (first.now ++ second.now)) }
    ensures memory { IfErr result (WantsMemory A.Lacks) }
{
    let digits = digest_hex(first, second);
    let mut text = A::text_with_capacity(alloc, TEXT_LEN)?;
    A::push_str(&mut text, "md5")?;
    A::push_str(&mut text, str::from_utf8(&digits).unwrap())?;
    Ok(text)
}
