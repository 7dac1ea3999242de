//! Laws of quoting.

ghost use Rattle.std.specs.Prelude.{◌≡◌, ◌≢◌, ◌<◌, ◌≤◌, ◌∷◌, ◌++◌, ℕ, List, Some, None, length};
ghost use Rattle.std.specs.List.{AllByRecursion};
ghost use Rattle.std.specs.Str.{IsUtf8};
ghost use Rattle.json.specs.Text.{content, plain};
ghost use Rattle.pgtool_line.specs.declared.style.Form.TheVariants.{Columns, Json};
ghost use Rattle.pgtool_line.specs.declared.style.Style.{Style};
ghost use Rattle.pgtool_line.specs.Line.{Value, added};
ghost use Rattle.pgtool_line.specs.Quoting.{quoted};

/// No two texts are quoted alike, whatever follows them.
pub fn quotes_differ()
    ensures columns { (xs ys r s : List ℕ) → AllByRecursion (λ b. b < 256) xs → AllByRecursion (λ b. b < 256) ys →
        quoted Columns xs ++ r ≡ quoted Columns ys ++ s → (xs ≡ ys) × (r ≡ s) }
    ensures json { (xs ys r s : List ℕ) → IsUtf8 xs → IsUtf8 ys → quoted Json xs ++ r ≡ quoted Json ys ++ s → (xs ≡ ys) × (r ≡ s) }
{}

/// The string of a text in JSON is read as that text, as RFC 8259 says in section 7.
pub fn strings_are_read()
    ensures { (xs rest : List ℕ) → IsUtf8 xs → (rs : List ℕ) × (quoted Json xs ++ rest ≡ 34 ∷ rs) × (content plain rs ≡ Some xs) }
{}

/// No two values that aren't cut are shown alike after the same line, and none as a null is.
pub fn values_differ()
    ensures some { (style : Style) (line xs ys : List ℕ) → AllByRecursion (λ b. b < 256) xs → AllByRecursion (λ b. b < 256) ys →
        length xs ≤ style.limit → length ys ≤ style.limit → added style line (Value (Some xs)) ≡ added style line (Value (Some ys)) → xs ≡ ys }
    ensures null { (style : Style) (line xs : List ℕ) → added style line (Value (Some xs)) ≢ added style line (Value None) }
{}
