//! Writing a line.

ghost use Rattle.std.specs.Prelude.{◌≡◌, ◌≢◌, IfErr, IfOk, OnErr, OnOk, string_bytes};
ghost use Rattle.std.specs.Io.KnownBytes.{Appends, Keeps};
ghost use Rattle.pgtool_line.specs.Interruptions.{GivesUp, NoRead};
ghost use Rattle.pgtool_line.specs.Taken.{AppendsFront};
ghost use Rattle.pgtool_line.specs.Run.{Caused};
ghost use Rattle.pgwire_engines.specs.Output.{line};

use pgp_base::Memory;
use pgtool_line::fault::Fault;
use pgtool_line::ports::Output;
use pgtool_line::print::put;

/// Writes the text and a newline.
pub fn print<A: Memory, W: Output>(mut text: String<A>, output: &mut W) -> Result<u8, Fault>
    ensures written { OnOk result (Appends (W.contents output.old) (W.contents output.new) (line (string_bytes text))) }
    ensures status { IfOk result (λ status. status ≡ 0) }
    ensures quiet { IfErr result (λ fault. fault ≢ Fault.Write → Keeps (W.contents output.old) (W.contents output.new)) }
    ensures front { OnErr result (AppendsFront (W.contents output.old) (W.contents output.new) (line (string_bytes text))) }
    ensures passed { OnOk result (W.Passed output.new) }
    ensures cause { IfErr result (Caused A.Lacks NoRead (GivesUp W.Fails W.Interrupted)) }
{
    A::push_char(&mut text, '\n')?;
    put(text.as_bytes(), output)?;
    Ok(0)
}
