//! Writing: all of some bytes, or what a failing writer took of them.

ghost use Rattle.std.specs.Prelude.{◌≡◌, ◌<◌, ◌≤◌, length, take, IfErr, IfOk, OnErr, OnOk};
ghost use Rattle.std.specs.Io.KnownBytes.{Appends, Keeps};
ghost use Rattle.pgtool_line.specs.Interruptions.{GivesUp};
ghost use Rattle.pgtool_line.specs.Taken.{AppendsFront};

use crate::fault::Fault;
use crate::ports::Output;
use std::io::ErrorKind;

/// Writes the bytes and flushes the writer. Where either fails, a front of the bytes was taken.
pub fn put<W: Output>(bytes: &[u8], output: &mut W) -> Result<(), Fault>
    ensures written { OnOk result (Appends (W.contents output.old) (W.contents output.new) bytes.now) }
    ensures front { OnErr result (AppendsFront (W.contents output.old) (W.contents output.new) bytes.now) }
    ensures fault { IfErr result (λ fault. fault ≡ Fault.Write) }
    ensures failed { OnErr result (GivesUp W.Fails W.Interrupted) }
    ensures passed { OnOk result (W.Passed output.new) }
{
    write(bytes, output)?;
    flush(output)
}

/// Flushes the writer. A flush that was interrupted is tried again.
pub fn flush<W: Output>(output: &mut W) -> Result<(), Fault>
    ensures kept { Keeps (W.contents output.old) (W.contents output.new) }
    ensures passed { OnOk result (W.Passed output.new) }
    ensures fault { IfErr result (λ fault. fault ≡ Fault.Write) }
    ensures failed { OnErr result (GivesUp W.Fails W.Interrupted) }
{
    // Bounded, since each function has to end, and a writer may be interrupted forever.
    'tries: for _ in 0..u64::MAX {
        match output.pass_on() {
            Ok(()) => return Ok(()),
            Err(e) => match e.kind() {
                ErrorKind::Interrupted => {}
                _ => return Err(Fault::Write),
            },
        }
    }
    Err(Fault::Write)
}

/// Writes the bytes.
pub fn write<W: Output>(bytes: &[u8], output: &mut W) -> Result<(), Fault>
    ensures written { OnOk result (Appends (W.contents output.old) (W.contents output.new) bytes.now) }
    ensures front { OnErr result (AppendsFront (W.contents output.old) (W.contents output.new) bytes.now) }
    ensures fault { IfErr result (λ fault. fault ≡ Fault.Write) }
    ensures failed { OnErr result (GivesUp W.Fails W.Interrupted) }
{
    let mut rest = bytes;
    'rest: while !rest.is_empty() {
        let n = write_some(rest, output)?;
        rest = &rest[n..];
    }
    Ok(())
}

/// Writes some of the bytes, and returns how many. A write that was interrupted is tried again; one that takes
/// nothing is a failure.
fn write_some<W: Output>(bytes: &[u8], output: &mut W) -> Result<usize, Fault>
    requires { 0 < length bytes.now }
    ensures some { IfOk result (λ n. (0 < n) × (n ≤ length bytes.now)) }
    ensures written { IfOk result (λ n. Appends (W.contents output.old) (W.contents output.new) (take n bytes.now)) }
    ensures none { OnErr result (Keeps (W.contents output.old) (W.contents output.new)) }
    ensures fault { IfErr result (λ fault. fault ≡ Fault.Write) }
    ensures failed { OnErr result (GivesUp W.Fails W.Interrupted) }
{
    // Bounded, since each function has to end, and a writer may be interrupted forever.
    'tries: for _ in 0..u64::MAX {
        match output.write_some(bytes) {
            Ok(0) => return Err(Fault::Write),
            Ok(n) => return Ok(n),
            Err(e) => match e.kind() {
                ErrorKind::Interrupted => {}
                _ => return Err(Fault::Write),
            },
        }
    }
    Err(Fault::Write)
}
