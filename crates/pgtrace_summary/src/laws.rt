//! Laws of summaries, and of what is known under names.

ghost use Rattle.std.specs.Prelude.{◌≡◌, ◌≤◌, ◌+◌, ◌-◌, ◌++◌, max, ℕ, Bool, List};
ghost use Rattle.pgtrace_summary.specs.Calls.{AreApart, Call, Falls, GoesOn, after, found, of_total, runs_in, said_of, time_of};
ghost use Rattle.pgtrace_summary.specs.Runs.{Tally, ranked, tally, tally_after};
ghost use Rattle.pgtrace_summary.specs.Summary.{State, nothing};

pub mod names;

/// Whatever calls were made: the statements are those of the runs that they ended and of their errors, and no others.
pub fn runs_are_tallied()
    ensures { (folds : Bool) (calls : List Call) → (after (nothing folds) calls).tallies ≡ tally (runs_in (nothing folds) calls) }
{}

/// The times of runs don't overlap: where the clock isn't set back, all of them together are no more than the time from the first request to the end of the last
/// run; nor do they overlap with those that ended before.
#[tactic(auto, using(crate::proofs::Times::all_fit))]
pub fn times_do_not_overlap()
    ensures whole { (folds : Bool) (calls : List Call) (first : ℕ) → GoesOn first 0 calls → time_of (runs_in (nothing folds) calls) ≤ (after (nothing folds) calls).last_end - first }
    ensures further { (s : State) (calls : List Call) (first : ℕ) → GoesOn first s.last_end calls → time_of (runs_in s calls) + max first s.last_end ≤ max first (after s calls).last_end }
{}

/// Of these runs each statement has one line, with the times, the rows and the errors of all its runs, and of no others.
pub fn each_statement_has_its_runs()
    ensures found { (runs : List Tally) (text : List ℕ) → found text (tally runs) ≡ said_of text runs }
    ensures apart { (runs : List Tally) → AreApart (tally runs) }
{}

/// The tables of two connections, one added to the other, are the table of the runs of both.
pub fn tables_add_up()
    ensures { (runs more : List Tally) → tally_after (tally runs) (tally more) ≡ tally (runs ++ more) }
{}

/// A table has the greatest total first. It has the statements that were to be ranked, no other and none twice, and those of one total in their order.
pub fn tables_are_ranked()
    ensures falls { (tallies : List Tally) → Falls (ranked tallies) }
    ensures kept { (tallies : List Tally) (total : ℕ) → of_total total (ranked tallies) ≡ of_total total tallies }
{}
