//! What follows from the definitions alone.

ghost use Rattle.std.specs.Prelude.{◌≡◌, ◌≤◌, ℕ, List, Some, unwrap_or, All};
ghost use Rattle.std.specs.Str.{IsAscii};
ghost use Rattle.pgp_saslprep.specs.SaslPrep.{prepared_bytes};

/// A text of ASCII without controls is its own preparation.
pub fn plain_ascii_stays()
    ensures { (text : List ℕ) → All (λ byte. (32 ≤ byte) × (byte ≤ 126)) text → prepared_bytes text ≡ Some text }
{}

/// For a text of ASCII, whether it is asked or not, the password that is used is the same.
pub fn ascii_is_used_as_it_is()
    ensures { (text : List ℕ) → IsAscii text → unwrap_or (prepared_bytes text) text ≡ text }
{}
