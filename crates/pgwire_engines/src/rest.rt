//! Reading all that is left.

ghost use Rattle.std.specs.Prelude.{◌≡◌, IfErr, IfOk, IfSome, OnOk};
ghost use Rattle.std.specs.Io.KnownBytes.{Consumes, IsAtEnd};
ghost use Rattle.pgtool_line.specs.Interruptions.{ReadFails};
ghost use Rattle.pgtool_line.specs.Run.{Caused};

use crate::ports::Input;
use pgp_base::Memory;
use pgtool_line::fault::Fault;
use std::io::ErrorKind;

/// Reads all that is left.
///
/// # Errors
///
/// Returns `Memory` if an allocation fails, and `Read` if reading fails.
pub fn read_rest<A: Memory, R: Input>(alloc: A, input: &mut R) -> Result<Vec<u8, A>, Fault>
    ensures rest { IfOk result (λ bytes. IfSome (R.remaining input.old) (λ rest. bytes.items ≡ rest)) }
    ensures consumes { IfOk result (λ bytes. Consumes (R.remaining input.old) (R.remaining input.new) bytes.items) }
    ensures end { OnOk result (IsAtEnd (R.remaining input.new)) }
    ensures cause { IfErr result (Caused A.Lacks (ReadFails R.Fails) ⊥) }
{
    let mut bytes = Vec::new(alloc);
    match input.read_rest(&mut bytes) {
        Ok(_) => Ok(bytes),
        Err(e) => match e.kind() {
            ErrorKind::OutOfMemory => Err(Fault::Memory),
            _ => Err(Fault::Read),
        },
    }
}
