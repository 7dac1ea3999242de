//! Laws of what the program writes.

ghost use Rattle.std.specs.Prelude.{◌≡◌, ℕ, List};
ghost use Rattle.pgwire_engines.specs.ClientOutput.{ClientOutput};
ghost use Rattle.pgwire_engines.specs.Output.{BackendOutput};

/// A script has one output and one status.
pub fn one_answer()
    ensures { (script output other : List ℕ) (status answer : ℕ) →
        ClientOutput script output status → ClientOutput script other answer → (output ≡ other) × (status ≡ answer) }
{}

/// A stream has one listing and one status.
pub fn one_listing()
    ensures { (input output other : List ℕ) (status answer : ℕ) →
        BackendOutput input output status → BackendOutput input other answer → (output ≡ other) × (status ≡ answer) }
{}
