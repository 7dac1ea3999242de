//! The commands that print a text: verifiers and escaped texts.

ghost use Rattle.std.specs.Prelude.{◌≡◌, ◌≢◌, ℕ, List, IfOk, IfErr, OnOk};
ghost use Rattle.std.specs.Io.KnownBytes.{Appends, Keeps};
ghost use Rattle.pgp_auth.specs.Lexer.{Identifier};
ghost use Rattle.pgp_auth.specs.Verifier.{verifier, verifier_text};
ghost use Rattle.pgtool_line.specs.Interruptions.{GivesUp, NoRead};
ghost use Rattle.pgwire_engines.specs.Output.{line};
ghost use Rattle.pgtool_line.specs.Run.{Caused};
ghost use Rattle.pgwire_engines.specs.Command.{IsEscapedLiteral};
ghost use Rattle.pgtool_line.specs.Taken.{AppendsFront};

use crate::print::print;
use pgp_base::Memory;
use pgtool_line::fault::Fault;
use pgtool_line::ports::Output;
use postgres_protocol::authentication::sasl::NoPrep;
use postgres_protocol::{escape, password};

/// Prints the SCRAM-SHA-256 verifier of the password's own bytes.
#[tactic(auto, using(crate::proofs::Passwords::unmapped))]
pub fn verifier<A: Memory, W: Output>(
    alloc: A,
    password: &str,
    salt: [u8; 16],
    output: &mut W,
) -> Result<u8, Fault>
    ensures written { OnOk result (Appends (W.contents output.old) (W.contents output.new)
        (line (verifier_text (verifier password.now salt 4096)))) }
    ensures status { IfOk result (λ status. status ≡ 0) }
    ensures quiet { IfErr result (λ fault. fault ≢ Fault.Write → Keeps (W.contents output.old) (W.contents output.new)) }
    ensures cut { IfErr result (λ fault. fault ≡ Fault.Write → AppendsFront (W.contents output.old) (W.contents output.new)
        (line (verifier_text (verifier password.now salt 4096)))) }
    ensures passed { OnOk result (W.Passed output.new) }
    ensures cause { IfErr result (Caused A.Lacks NoRead (GivesUp W.Fails W.Interrupted)) }
{
    match password::scram_sha_256_salt(alloc, password.as_bytes(), salt, &NoPrep) {
        Ok(text) => print(text, output),
        Err(_) => Err(Fault::Memory),
    }
}

/// Prints the text as a string constant.
pub fn escape_literal<A: Memory, W: Output>(
    alloc: A,
    text: &str,
    output: &mut W,
) -> Result<u8, Fault>
    ensures written { OnOk result ((literal : List ℕ) × IsEscapedLiteral text.now literal
        × Appends (W.contents output.old) (W.contents output.new) (line literal)) }
    ensures status { IfOk result (λ status. status ≡ 0) }
    ensures quiet { IfErr result (λ fault. fault ≢ Fault.Write → Keeps (W.contents output.old) (W.contents output.new)) }
    ensures cut { IfErr result (λ fault. fault ≡ Fault.Write → ((literal : List ℕ) × IsEscapedLiteral text.now literal
        × AppendsFront (W.contents output.old) (W.contents output.new) (line literal))) }
    ensures passed { OnOk result (W.Passed output.new) }
    ensures cause { IfErr result (Caused A.Lacks NoRead (GivesUp W.Fails W.Interrupted)) }
{
    match escape::escape_literal(alloc, text) {
        Ok(literal) => print(literal, output),
        Err(_) => Err(Fault::Memory),
    }
}

/// Prints the text as a quoted identifier.
pub fn escape_identifier<A: Memory, W: Output>(
    alloc: A,
    text: &str,
    output: &mut W,
) -> Result<u8, Fault>
    ensures written { OnOk result ((identifier : List ℕ) × Identifier identifier text.now
        × Appends (W.contents output.old) (W.contents output.new) (line identifier)) }
    ensures status { IfOk result (λ status. status ≡ 0) }
    ensures quiet { IfErr result (λ fault. fault ≢ Fault.Write → Keeps (W.contents output.old) (W.contents output.new)) }
    ensures cut { IfErr result (λ fault. fault ≡ Fault.Write → ((identifier : List ℕ) × Identifier identifier text.now
        × AppendsFront (W.contents output.old) (W.contents output.new) (line identifier))) }
    ensures passed { OnOk result (W.Passed output.new) }
    ensures cause { IfErr result (Caused A.Lacks NoRead (GivesUp W.Fails W.Interrupted)) }
{
    match escape::escape_identifier(alloc, text) {
        Ok(identifier) => print(identifier, output),
        Err(_) => Err(Fault::Memory),
    }
}
