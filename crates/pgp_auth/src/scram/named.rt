//! The user's name and the nonce in a client's first text.

ghost use Rattle.std.specs.Prelude.{◌≡◌, ◌≢◌, ◌↔◌, ◌≤◌, ℕ, List, ◌∷◌, length, IsTrue, MatchOption};
ghost use Rattle.pgp_auth.specs.ScramText.{SaslName, IsUserName, IsNonce, named_bare};

use crate::scram::nonce::is_nonce_byte;
use crate::scram::reading::{Alphabet, is_text, is_value_byte};
use crate::scram::serving::behind;

// What a client's first text says after its header.
#[derive(Clone, Copy)]
pub(crate) struct Named<'a> {
    pub user: &'a [u8],
    pub nonce: &'a [u8],
}

// The bytes can be a nonce.
fn is_nonce_of(bytes: &[u8]) -> bool
    ensures { IsTrue result ↔ IsNonce bytes.now }
{
    !bytes.is_empty() && bytes.iter().all(|byte| is_nonce_byte(*byte))
}

// What follows an escape's equals sign.
fn behind_escape(text: &[u8]) -> Option<&[u8]>
    ensures name { MatchOption result (¬ SaslName (61 ∷ text.now)) (λ x. SaslName (61 ∷ text.now) ↔ SaslName x.now) }
    ensures shorter { MatchOption result (Unit {0}) (λ x. length x.now ≤ length text.now) }
{
    match behind(b"2C", text) {
        Some(rest) => Some(rest),
        None => behind(b"3D", text),
    }
}

// What follows the first character of a name, where one may begin so.
fn behind_character(first: u8, text: &[u8]) -> Option<&[u8]>
    ensures name { MatchOption result (¬ SaslName (first ∷ text.now)) (λ x. SaslName (first ∷ text.now) ↔ SaslName x.now) }
    ensures shorter { MatchOption result (Unit {0}) (λ x. length x.now ≤ length text.now) }
{
    if first == b'=' {
        return behind_escape(text);
    }
    if is_value_byte(first) {
        Some(text)
    } else {
        None
    }
}

// The characters of the name stand for themselves, or are escapes.
fn is_spelled(name: &[u8]) -> bool
    ensures { IsTrue result ↔ SaslName name.now }
{
    let mut rest = name;
    'characters: while let Some((first, text)) = rest.split_first() {
        let Some(after) = behind_character(*first, text) else {
            return false;
        };
        rest = after;
    }
    true
}

// The bytes can be a user's name.
fn is_user_name(bytes: &[u8]) -> bool
    ensures { IsTrue result ↔ IsUserName bytes.now }
{
    if !is_text(bytes) {
        return false;
    }
    is_spelled(bytes)
}

// The user's name and the nonce. The name ends at the first comma.
pub(crate) fn named_in(bare: &[u8]) -> Option<Named<'_>>
    ensures { MatchOption result
        ((user nonce : List ℕ) → IsUserName user → IsNonce nonce → bare.now ≢ named_bare user nonce)
        (λ x. IsUserName x.user.now × IsNonce x.nonce.now × (bare.now ≡ named_bare x.user.now x.nonce.now)) }
{
    let Some(text) = behind(b"n=", bare) else {
        return None;
    };
    let (user, rest) = Alphabet::Attribute.split_front(text);
    let Some(nonce) = behind(b",r=", rest) else {
        return None;
    };
    if !is_user_name(user) {
        return None;
    }
    if !is_nonce_of(nonce) {
        return None;
    }
    Some(Named { user, nonce })
}
