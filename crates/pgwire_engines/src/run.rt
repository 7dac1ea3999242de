//! The program's words.

ghost use Rattle.std.specs.Prelude.{◌≡◌, [], map, IfSome, IfNone, IfOk, IfErr};
ghost use Rattle.std.specs.Io.KnownBytes.{Keeps};
ghost use Rattle.pgtool_line.specs.Interruptions.{GivesUp};
ghost use Rattle.pgwire_engines.specs.Command.{Asks, IsOther, usage, complaint_of, Obeys, Succeeds, Stops, Runs, ObeysOwn, RunsOwn};
ghost use Rattle.pgwire_engines.specs.Asked.{asked};
ghost use Rattle.pgtool_line.specs.Words.{LacksWords};

use crate::backend::backend;
use crate::client::client;
use crate::fault::complaint;
use crate::ports::Input;
use crate::text;
use hex::FromHex;
use pgp_base::Memory;
use pgtool_line::fault::Fault;
use pgtool_line::outcome::{Outcome, tell};
use pgtool_line::ports::{Output, Words};
use pgtool_line::words::{lent, texts};

const USAGE: &str =
    "usage: pgwire client | backend | verifier PASSWORD SALTHEX | escape literal|identifier TEXT\n";

/// The words ask for nothing that there is.
fn refused() -> Outcome
    ensures status { result.status ≡ 2 }
    ensures complaint { result.complaint.now ≡ usage }
{
    Outcome::refused(USAGE)
}

/// What the words ask for.
#[derive(Debug, Clone, Copy)]
enum Command<'a> {
    Client,
    Backend,
    Verifier { password: &'a str, salt: [u8; 16] },
    EscapeLiteral(&'a str),
    EscapeIdentifier(&'a str),
}

fn command_of<'a>(words: &[&'a str]) -> Option<Command<'a>>
    ensures known { IfSome result (λ command. Asks (map (λ word. word.now) words.now) (asked command)) }
    ensures other { IfNone result (IsOther (map (λ word. word.now) words.now)) }
{
    match words {
        ["client"] => Some(Command::Client),
        ["backend"] => Some(Command::Backend),
        ["verifier", password, digits] => match <[u8; 16] as FromHex>::from_hex(*digits) {
            Ok(salt) => Some(Command::Verifier { password, salt }),
            Err(_) => None,
        },
        ["escape", "literal", text] => Some(Command::EscapeLiteral(text)),
        ["escape", "identifier", text] => Some(Command::EscapeIdentifier(text)),
        _ => None,
    }
}

/// Does what the command asks for.
fn perform<A: Memory, R: Input, W: Output>(
    alloc: A,
    command: Command<'_>,
    input: &mut R,
    output: &mut W,
) -> Result<u8, Fault>
    ensures done { IfOk result (λ status. Succeeds (W.Passed output.new) (asked command.entry)
        (record { input = R.remaining input.old; output = W.contents output.old })
        (record { input = R.remaining input.new; output = W.contents output.new })
        status []) }
    ensures fault { IfErr result (λ fault. Stops A.Lacks R.Fails (GivesUp W.Fails W.Interrupted) (asked command.entry)
        (record { input = R.remaining input.old; output = W.contents output.old })
        (record { input = R.remaining input.new; output = W.contents output.new })
        fault) }
{
    match command {
        Command::Client => client(alloc, input, output),
        Command::Backend => backend(alloc, input, output),
        Command::Verifier { password, salt } => text::verifier(alloc, password, salt, output),
        Command::EscapeLiteral(z) => text::escape_literal(alloc, z, output),
        Command::EscapeIdentifier(z) => text::escape_identifier(alloc, z, output),
    }
}

/// Does what the words ask for.
pub fn obey<A: Memory, R: Input, W: Output>(
    alloc: A,
    words: &[&str],
    input: &mut R,
    output: &mut W,
) -> Outcome
    ensures { Obeys A.Lacks R.Fails (GivesUp W.Fails W.Interrupted) (W.Passed output.new) (map (λ word. word.now) words.now)
        (record { input = R.remaining input.old; output = W.contents output.old })
        (record { input = R.remaining input.new; output = W.contents output.new })
        result.status result.complaint.now }
{
    let Some(command) = command_of(words) else {
        return refused();
    };
    match perform(alloc, command, input, output) {
        Ok(status) => Outcome::done(status),
        Err(fault) => Outcome::stopped(complaint(fault)),
    }
}

/// Does what the words ask for, says on `errors` what is to be said there, and returns the status.
///
/// Where `errors` fails, a front of that is said.
pub fn run<A: Memory, R: Input, W: Output, E: Output>(
    alloc: A,
    words: &[&str],
    input: &mut R,
    output: &mut W,
    errors: &mut E,
) -> u8
    ensures { Runs A.Lacks R.Fails (GivesUp W.Fails W.Interrupted) (W.Passed output.new) (GivesUp E.Fails E.Interrupted) (E.Passed errors.new) (map (λ word. word.now) words.now)
        (record { input = R.remaining input.old; output = W.contents output.old })
        (record { input = R.remaining input.new; output = W.contents output.new })
        (E.contents errors.old) (E.contents errors.new) result }
{
    tell(obey(alloc, words, input, output), errors)
}

/// Does what the program's own words ask for, where there is memory for them. A word that isn't UTF-8
/// asks for nothing that there is.
fn try_own<A: Memory, V: Words, R: Input, W: Output>(
    alloc: A,
    env: &V,
    input: &mut R,
    output: &mut W,
) -> Result<Outcome, Fault>
    ensures obeyed { IfOk result (λ outcome. ObeysOwn A.Lacks R.Fails (GivesUp W.Fails W.Interrupted) (W.Passed output.new) (V.Stands env.now) (V.Ends env.now) (V.Longer env.now)
        (record { input = R.remaining input.old; output = W.contents output.old })
        (record { input = R.remaining input.new; output = W.contents output.new })
        outcome.status outcome.complaint.now) }
    ensures fault { IfErr result (λ fault. (fault ≡ Fault.Memory) × LacksWords A.Lacks (V.Stands env.now) (V.Longer env.now)) }
    ensures input { IfErr result (λ _. Keeps (R.remaining input.old) (R.remaining input.new)) }
    ensures output { IfErr result (λ _. Keeps (W.contents output.old) (W.contents output.new)) }
{
    let Some(texts) = texts(alloc, env)? else {
        return Ok(refused());
    };
    let words = lent(alloc, texts.as_slice())?;
    Ok(obey(alloc, words.as_slice(), input, output))
}

/// Does what the program's own words ask for.
fn obey_own<A: Memory, V: Words, R: Input, W: Output>(
    alloc: A,
    env: &V,
    input: &mut R,
    output: &mut W,
) -> Outcome
    ensures { ObeysOwn A.Lacks R.Fails (GivesUp W.Fails W.Interrupted) (W.Passed output.new) (V.Stands env.now) (V.Ends env.now) (V.Longer env.now)
        (record { input = R.remaining input.old; output = W.contents output.old })
        (record { input = R.remaining input.new; output = W.contents output.new })
        result.status result.complaint.now }
{
    match try_own(alloc, env, input, output) {
        Ok(outcome) => outcome,
        Err(fault) => Outcome::stopped(complaint(fault)),
    }
}

/// Runs on the words of the process, after its name.
pub fn run_own<A: Memory, V: Words, R: Input, W: Output, E: Output>(
    alloc: A,
    env: &V,
    input: &mut R,
    output: &mut W,
    errors: &mut E,
) -> u8
    ensures { RunsOwn A.Lacks R.Fails (GivesUp W.Fails W.Interrupted) (W.Passed output.new) (V.Stands env.now) (V.Ends env.now) (V.Longer env.now) (GivesUp E.Fails E.Interrupted) (E.Passed errors.new)
        (record { input = R.remaining input.old; output = W.contents output.old })
        (record { input = R.remaining input.new; output = W.contents output.new })
        (E.contents errors.old) (E.contents errors.new) result }
{
    tell(obey_own(alloc, env, input, output), errors)
}
