//! Nonces.

ghost use Rattle.std.specs.Prelude.{◌≡◌, ◌↔◌, true, IsTrue};
ghost use Rattle.pgp_auth.specs.ScramText.{IsNonce, is_nonce_char};
ghost use Rattle.pgp_auth.specs.Nonce.{drawn_char, drawn_chars};

use rand::RngExt;
use rand_core::Rng;

const NONCE_LEN: usize = 24;

pub(crate) fn is_nonce_byte(byte: u8) -> bool
    ensures { result ≡ is_nonce_char byte }
{
    matches!(byte, 0x21..=0x2b | 0x2d..=0x7e)
}

/// The text can be a client's nonce: it has a character, and each is printable ASCII, but no space and no
/// comma (`printable` of RFC 5802, section 7).
pub fn is_nonce(text: &str) -> bool
    ensures { IsTrue result ↔ IsNonce text.now }
{
    !text.is_empty() && text.as_bytes().iter().all(|byte| is_nonce_byte(*byte))
}

// A character of a nonce.
fn draw_char<R: Rng>(rng: &mut R) -> u8
    ensures drawn { (result, R.stream rng.new) ≡ drawn_char (R.stream rng.old) }
    ensures admitted { is_nonce_char result ≡ true }
{
    let c = rng.random_range(0x21u8..0x7e);
    if c == 0x2c { 0x7e } else { c }
}

// A nonce of 24 characters.
pub(crate) fn draw_nonce<R: Rng>(rng: &mut R) -> [u8; NONCE_LEN]
    ensures drawn { (result, R.stream rng.new) ≡ drawn_chars 24 (R.stream rng.old) }
    ensures nonce { IsNonce result }
{
    let mut nonce = [0; NONCE_LEN];
    for i in 0..NONCE_LEN {
        nonce[i] = draw_char(rng);
    }
    nonce
}
