//! Laws on the texts of values.

ghost use Rattle.std.specs.Prelude.{◌≡◌, ℕ, ℤ, List};
ghost use Rattle.pgp_value_text.specs.Calendar.{ShowsDay, ShowsInstant, ShowsTime};
ghost use Rattle.pgp_value_text.specs.TextOf.{IsTextOf};

use pgp_types::laws::arrays;

/// A value has one text.
pub fn one_text()
    ensures { (type_oid : ℕ) (bytes a b : List ℕ) → IsTextOf type_oid bytes a → IsTextOf type_oid bytes b → a ≡ b }
{
    arrays();
}

/// A day, an instant and a time have one text.
pub fn texts_are_unique()
    ensures of_date { (days : ℤ) (a b : List ℕ) → ShowsDay days a → ShowsDay days b → a ≡ b }
    ensures of_timestamp { (zone : List ℕ) (microseconds : ℤ) (a b : List ℕ) → ShowsInstant zone microseconds a
        → ShowsInstant zone microseconds b → a ≡ b }
    ensures of_time { (microseconds : ℤ) (a b : List ℕ) → ShowsTime microseconds a → ShowsTime microseconds b → a ≡ b }
{}
