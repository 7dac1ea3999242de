//! How a run ends.

ghost use Rattle.std.specs.Prelude.{◌≡◌, ◌++◌, OnErr, OnOk};
ghost use Rattle.pgtrace_session.specs.Common.{Appends, GivesUp, IsSaid, AppendsFront};
ghost use Rattle.pgtrace_session.specs.Command.{complaint_of};

use pgtool_line::fault::Fault;
use pgtool_line::ports::Output;
use pgtool_line::print::put;

/// How a run ended: the status, and what is to be said on standard error, in this order.
#[derive(Debug, Clone, Copy)]
pub struct Ended<'a> {
    pub status: u8,
    pub first: &'a str,
    pub second: &'a str,
    pub third: &'a str,
}

/// With this status and one thing to say.
#[tactic(auto, using(crate::proofs::Endings::alone))]
pub fn with_status(status: u8, said: &'static str) -> Ended<'static>
    ensures status { result.status ≡ status }
    ensures complaint { result.first.now ++ result.second.now ++ result.third.now ≡ said.now }
{
    Ended {
        status,
        first: said,
        second: "",
        third: "",
    }
}

/// What was asked for is done, and this is to be said of it.
pub fn finished(said: &'static str) -> Ended<'static>
    ensures status { result.status ≡ 0 }
    ensures complaint { result.first.now ++ result.second.now ++ result.third.now ≡ said.now }
{
    with_status(0, said)
}

/// The words ask for nothing that there is: the usage line is said.
pub fn refused(usage: &'static str) -> Ended<'static>
    ensures status { result.status ≡ 2 }
    ensures complaint { result.first.now ++ result.second.now ++ result.third.now ≡ usage.now }
{
    with_status(2, usage)
}

/// What was asked for met a fault.
pub fn stopped(fault: Fault) -> Ended<'static>
    ensures status { result.status ≡ 1 }
    ensures complaint { result.first.now ++ result.second.now ++ result.third.now ≡ complaint_of fault }
{
    with_status(1, complaint(fault))
}

/// The line that reports a fault.
fn complaint(fault: Fault) -> &'static str
    ensures { result.now ≡ complaint_of fault }
{
    match fault {
        Fault::Memory => "pgtrace: out of memory\n",
        Fault::Read => "pgtrace: read failed\n",
        Fault::Write => "pgtrace: write failed\n",
    }
}

/// Says on `errors` what is to be said there, or as much of it as it takes where it fails, and returns the status.
pub fn tell<E: Output>(ended: Ended<'_>, errors: &mut E) -> u8
    ensures status { result ≡ ended.entry.status }
    ensures reported { IsSaid (GivesUp E.Fails E.Interrupted) (E.Passed errors.new) (E.contents errors.old) (E.contents errors.new) (ended.entry.first.now ++ ended.entry.second.now ++ ended.entry.third.now) }
{
    let _ = put_all(ended.first, ended.second, ended.third, errors);
    ended.status
}

/// Writes three texts.
#[tactic(auto, using(crate::proofs::Endings::first_front, crate::proofs::Endings::second_front, crate::proofs::Endings::third_front, crate::proofs::Endings::third_written))]
fn put_all<E: Output>(first: &str, second: &str, third: &str, errors: &mut E) -> Result<(), Fault>
    ensures written { OnOk result (Appends (E.contents errors.old) (E.contents errors.new) (first.now ++ second.now ++ third.now)) }
    ensures front { OnErr result (AppendsFront (E.contents errors.old) (E.contents errors.new) (first.now ++ second.now ++ third.now)) }
    ensures failed { OnErr result (GivesUp E.Fails E.Interrupted) }
    ensures passed { OnOk result (E.Passed errors.new) }
{
    put(first.as_bytes(), errors)?;
    put(second.as_bytes(), errors)?;
    put(third.as_bytes(), errors)
}
