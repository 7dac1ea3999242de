//! What is said of a fault on standard error.

ghost use Rattle.std.specs.Prelude.{◌≡◌};
ghost use Rattle.pgwire_engines.specs.Command.{complaint_of};

use pgtool_line::fault::Fault;

/// The line that reports it.
pub fn complaint(fault: Fault) -> &'static str
    ensures { result.now ≡ complaint_of fault }
{
    match fault {
        Fault::Memory => "pgwire: out of memory\n",
        Fault::Read => "pgwire: read failed\n",
        Fault::Write => "pgwire: write failed\n",
    }
}
