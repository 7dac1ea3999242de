//! How a run ends.

ghost use Rattle.std.specs.Prelude.{◌≡◌, []};
ghost use Rattle.pgtool_line.specs.Interruptions.{GivesUp};
ghost use Rattle.pgtool_line.specs.Run.{IsSaid};

use crate::ports::Output;
use crate::print::put;

/// How a run ended: the status, and what is to be said on standard error.
#[derive(Debug, Clone, Copy, PartialEq, Eq)]
pub struct Outcome {
    pub status: u8,
    pub complaint: &'static str,
}

impl Outcome {
    /// All was done: nothing is to be said.
    pub fn done(status: u8) -> Outcome
        ensures status { result.status ≡ status }
        ensures silent { result.complaint.now ≡ [] }
    {
        Outcome {
            status,
            complaint: "",
        }
    }

    /// The words ask for nothing that there is: the usage line is said.
    pub fn refused(usage: &'static str) -> Outcome
        ensures status { result.status ≡ 2 }
        ensures complaint { result.complaint.now ≡ usage.now }
    {
        Outcome {
            status: 2,
            complaint: usage,
        }
    }

    /// What was asked for met a fault, of which this is said.
    pub fn stopped(complaint: &'static str) -> Outcome
        ensures status { result.status ≡ 1 }
        ensures complaint { result.complaint.now ≡ complaint.now }
    {
        Outcome {
            status: 1,
            complaint,
        }
    }
}

/// Says on `errors` what is to be said there, or as much of it as it takes where it fails, and returns the status.
pub fn tell<E: Output>(outcome: Outcome, errors: &mut E) -> u8
    ensures status { result ≡ outcome.status }
    ensures reported { IsSaid (GivesUp E.Fails E.Interrupted) (E.Passed errors.new) (E.contents errors.old) (E.contents errors.new) outcome.complaint.now }
{
    let _ = put(outcome.complaint.as_bytes(), errors);
    outcome.status
}
