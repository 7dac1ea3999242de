//! What is found under a name once something was put there or let go.

ghost use Rattle.std.specs.Prelude.{◌≡◌, ℕ, List, None, Some, if◌then◌else◌};
ghost use Rattle.std.specs.Str.{bytes_eq};
ghost use Rattle.pgtrace_summary.specs.Names.{AreApart, found, put, without};

/// A name has what it was given last; all others have what they had.
pub fn a_name_has_what_it_was_given<V>()
    ensures { (name other : List ℕ) (value : V) (list : List (List ℕ × V)) → found other (put name value list) ≡ (if bytes_eq name other then Some value else found other list) }
{}

/// A name that is forgotten has nothing; all others have what they had.
pub fn a_forgotten_name_has_nothing<V>()
    ensures { (name other : List ℕ) (list : List (List ℕ × V)) → AreApart list → found other (without name list) ≡ (if bytes_eq name other then None else found other list) }
{}

/// No name stands there twice.
pub fn names_stay_apart<V>()
    ensures put { (name : List ℕ) (value : V) (list : List (List ℕ × V)) → AreApart list → AreApart (put name value list) }
    ensures without { (name : List ℕ) (list : List (List ℕ × V)) → AreApart list → AreApart (without name list) }
{}
