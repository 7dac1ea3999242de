//! The rounds that a server's first text asks for.

ghost use Rattle.std.specs.Prelude.{◌≡◌, List, ℕ, None, IfSome};
ghost use Rattle.std.specs.Bool.{Decides};
ghost use Rattle.pgp_auth.specs.ScramRefusal.{AsksFewer};
ghost use Rattle.pgp_auth.specs.ScramText.{ServerFirst};

use crate::scram::reading::server_first;

/// The iteration count of a server's first text (RFC 5802, section 5.1), or `None` where the bytes are no such text.
pub fn iteration_count(message: &[u8]) -> Option<u32>
    ensures some { IfSome result (λ count. (nonce : List ℕ) × (salt : List ℕ) × ServerFirst message.now nonce salt count) }
    ensures none { result ≡ None → (nonce salt : List ℕ) (count : ℕ) → ¬ ServerFirst message.now nonce salt count }
{
    match server_first(message) {
        Ok(parts) => Some(parts.count),
        Err(_) => None,
    }
}

/// Whether the bytes are a server's first text that asks for fewer iterations than these, or for none. `ScramSha256::update` accepts each count up
/// to 100,000, and takes 0 for 1: a client that has a least one looks here before.
pub fn asks_fewer(message: &[u8], least: u32) -> bool
    ensures { Decides result (AsksFewer least message.now) }
{
    match iteration_count(message) {
        Some(count) => count < least.max(1),
        None => false,
    }
}
