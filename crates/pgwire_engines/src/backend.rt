//! The listing of a server's messages.

ghost use Rattle.std.specs.Prelude.{◌≡◌, ◌≢◌, ◌<◌, ◌++◌, length, false, IfOk, IfErr, OnOk, IfSome, map, string_bytes, codes, decimal};
ghost use Rattle.std.specs.Io.KnownBytes.{IsAtEnd, Keeps};
ghost use Rattle.std.specs.List.{flat_map};
ghost use Rattle.pgp_message.specs.Views.{seen};
ghost use Rattle.pgtool_line.specs.Interruptions.{GivesUp, ReadFails};
ghost use Rattle.pgwire_engines.specs.Output.{line, line_of, last_line, BackendOutput};
ghost use Rattle.pgwire_engines.specs.Listing.{ListsPiece};
ghost use Rattle.pgtool_line.specs.Run.{Caused};
ghost use Rattle.pgwire_engines.specs.Command.{Backend, IsCut, IsWritten};

use crate::ports::Input;
use crate::rest::read_rest;
use pgp_base::Memory;
use pgtool_line::fault::Fault;
use pgtool_line::ports::Output;
use pgtool_line::print::put;
use postgres_protocol::Error;
use postgres_protocol::message::backend::{Message, Storage};
use postgres_protocol::session::StreamParser;
use std::io::ErrorKind;

/// How many bytes are read at a time.
const PIECE: usize = 65536;

/// Reads all bytes that a server sent, and then writes a line for each message and each error, and one for
/// what is left. Of the bytes it keeps no more than a piece and a partial frame.
///
/// # Errors
///
/// Returns `Memory` if an allocation fails and `Read` if reading fails, both before anything is written;
/// `Write` if writing or the flush fails, after a front of the listing.
pub fn backend<A: Memory, R: Input, W: Output>(
    alloc: A,
    input: &mut R,
    output: &mut W,
) -> Result<u8, Fault>
    ensures read { OnOk result (IsAtEnd (R.remaining input.new)) }
    ensures written { IfOk result (IsWritten Backend
        (record { input = R.remaining input.old; output = W.contents output.old })
        (record { input = R.remaining input.new; output = W.contents output.new })) }
    ensures status { IfOk result (λ status. status ≡ 0) }
    ensures quiet { IfErr result (λ fault. fault ≢ Fault.Write → Keeps (W.contents output.old) (W.contents output.new)) }
    ensures cut { IfErr result (λ fault. fault ≡ Fault.Write → IsCut Backend
        (record { input = R.remaining input.old; output = W.contents output.old })
        (record { input = R.remaining input.new; output = W.contents output.new })) }
    ensures passed { OnOk result (W.Passed output.new) }
    ensures cause { IfErr result (Caused A.Lacks (ReadFails R.Fails) (GivesUp W.Fails W.Interrupted)) }
{
    let text = listing(alloc, input)?;
    put(text.as_bytes(), output)?;
    Ok(0)
}

/// Reads all bytes, and returns the lines for them.
fn listing<A: Memory, R: Input>(alloc: A, input: &mut R) -> Result<String<A>, Fault>
    ensures read { OnOk result (IsAtEnd (R.remaining input.new)) }
    ensures lines { IfOk result (λ text. IfSome (R.remaining input.old) (λ bytes. BackendOutput bytes (string_bytes text) 0)) }
    ensures cause { IfErr result (Caused A.Lacks (ReadFails R.Fails) ⊥) }
{
    let mut piece = A::list_filled(alloc, 0, PIECE)?;
    lines_of(alloc, input, piece.as_mut_slice())
}

/// Reads all bytes, a piece at a time, and returns the lines for them. What is left after so many pieces that
/// they can't be counted is read at once.
fn lines_of<A: Memory, R: Input>(
    alloc: A,
    input: &mut R,
    piece: &mut [u8],
) -> Result<String<A>, Fault>
    requires { 0 < length piece.old }
    ensures read { OnOk result (IsAtEnd (R.remaining input.new)) }
    ensures lines { IfOk result (λ text. IfSome (R.remaining input.old) (λ bytes. BackendOutput bytes (string_bytes text) 0)) }
    ensures cause { IfErr result (Caused A.Lacks (ReadFails R.Fails) ⊥) }
{
    let mut parser = StreamParser::new(alloc);
    let mut text = String::new(alloc);
    // Bounded, since each function has to end, and a reader may give pieces or be interrupted forever.
    for _ in 0..u64::MAX {
        match input.read_some(piece) {
            Ok(0) => {
                list_rest(parser.stopped(), parser.rest().len(), &mut text)?;
                return Ok(text);
            }
            Ok(n) => list_piece(&piece[..n], &mut parser, &mut text)?,
            Err(e) => match e.kind() {
                ErrorKind::Interrupted => {}
                ErrorKind::OutOfMemory => return Err(Fault::Memory),
                _ => return Err(Fault::Read),
            },
        }
    }
    let last = read_rest(alloc, input)?;
    list_piece(last.as_slice(), &mut parser, &mut text)?;
    list_rest(parser.stopped(), parser.rest().len(), &mut text)?;
    Ok(text)
}

/// Feeds a piece to the parser, and takes its results and adds their lines.
fn list_piece<A: Memory>(
    piece: &[u8],
    parser: &mut StreamParser<A>,
    text: &mut String<A>,
) -> Result<(), Fault>
    requires { parser.old.failed ≡ false }
    ensures lines { OnOk result (ListsPiece piece.now parser.old parser.new (string_bytes text.old) (string_bytes text.new)) }
    ensures fault { IfErr result (λ e. (e ≡ Fault.Memory) × A.Lacks) }
{
    if let Err(_) = parser.feed(piece) {
        return Err(Fault::Memory);
    }
    list(parser.results(), text)?;
    drop(parser.take());
    Ok(())
}

/// Adds a line for each result.
fn list<S: Storage, A: Memory>(
    results: &[Result<Message<S>, Error>],
    text: &mut String<A>,
) -> Result<(), Fault>
    ensures lines { OnOk result (string_bytes text.new ≡ string_bytes text.old ++ flat_map line_of (map seen results.now)) }
    ensures fault { IfErr result (λ e. (e ≡ Fault.Memory) × A.Lacks) }
{
    for read in results {
        match read {
            Ok(message) => put_line(message.name(), text)?,
            Err(e) => put_fault(e.number(), text)?,
        }
    }
    Ok(())
}

/// Adds a line with this word.
fn put_line<A: Memory>(word: &str, text: &mut String<A>) -> Result<(), Fault>
    ensures line { OnOk result (string_bytes text.new ≡ string_bytes text.old ++ line word.now) }
    ensures fault { IfErr result (λ e. (e ≡ Fault.Memory) × A.Lacks) }
{
    A::push_str(text, word)?;
    A::push_char(text, '\n')?;
    Ok(())
}

/// Adds the line of an error with this number.
fn put_fault<A: Memory>(n: u8, text: &mut String<A>) -> Result<(), Fault>
    ensures line { OnOk result (string_bytes text.new ≡ string_bytes text.old ++ line (codes "fault " ++ decimal n)) }
    ensures fault { IfErr result (λ e. (e ≡ Fault.Memory) × A.Lacks) }
{
    A::push_shown(text, format_args!("fault {n}\n"))?;
    Ok(())
}

/// Adds the last line, of so many bytes that are left.
fn list_rest<A: Memory>(stopped: bool, n: usize, text: &mut String<A>) -> Result<(), Fault>
    ensures line { OnOk result (string_bytes text.new ≡ string_bytes text.old ++ last_line stopped n) }
    ensures fault { IfErr result (λ e. (e ≡ Fault.Memory) × A.Lacks) }
{
    if stopped {
        A::push_shown(text, format_args!("stopped rest {n}\n"))?;
    } else {
        A::push_shown(text, format_args!("rest {n}\n"))?;
    }
    Ok(())
}
