//! The bytes of a script's messages.

ghost use Rattle.std.specs.Prelude.{◌≡◌, ◌≢◌, not, [], ◌∷◌, ◌++◌, ◌+◌, length, IfOk, IfErr, OnOk, string_bytes, codes, decimal};
ghost use Rattle.std.specs.Io.KnownBytes.{IsAtEnd, Keeps};
ghost use Rattle.std.specs.List.{slice_split};
ghost use Rattle.hex.specs.Hex.{encode_lower};
ghost use Rattle.pgp_frontend.specs.Reading.{IsNamed};
ghost use Rattle.pgp_stream.specs.ClientStream.{AddsMessage};
ghost use Rattle.pgtool_line.specs.Interruptions.{GivesUp, ReadFails};
ghost use Rattle.pgwire_engines.specs.ClientOutput.{ClientOutput, reported};
ghost use Rattle.pgtool_line.specs.Run.{Caused};
ghost use Rattle.pgwire_engines.specs.Command.{Client, IsCut, IsWritten, LacksFor};
ghost use Rattle.pgwire_engines.specs.Output.{line};
ghost use Rattle.pgwire_engines.specs.Request.{asked};
ghost use Rattle.pgwire_engines.specs.Script.{is_newline};
ghost use Rattle.pgwire_engines.specs.Sending.{HasSent, SendsLine, SendsLines, is_opening, lines_left, size_left};

use crate::ports::Input;
use crate::rest::read_rest;
use crate::script::{Request, request_of};
use bytes::BytesMut;
use memchr::memchr;
use pgp_base::{Buffer, Memory};
use pgtool_line::fault::Fault;
use pgtool_line::ports::Output;
use pgtool_line::print::put;
use postgres_protocol::Error;
use postgres_protocol::session::ClientStream;
use std::alloc::Allocator;

/// Why a line was rejected.
#[derive(Debug, Clone, Copy, PartialEq, Eq)]
pub enum LineFault {
    NotUtf8,
    WrongWords,
    WrongPhase,
    Refused(Error),
}

/// What a script comes to: a line of text, and the status.
#[derive(Drop)]
struct Answer<A: Allocator> {
    text: String<A>,
    status: u8,
}

/// Reads a whole script, and then writes the bytes of its messages as a line of hex digits, or reports the
/// first line that is rejected. A newline ends a line, and an empty one asks for nothing.
///
/// # Errors
///
/// Returns `Memory` if an allocation fails and `Read` if reading fails, both before anything is written;
/// `Write` if writing or the flush fails, after a front of what was to be written.
pub fn client<A: Memory, R: Input, W: Output>(
    alloc: A,
    input: &mut R,
    output: &mut W,
) -> Result<u8, Fault>
    ensures read { OnOk result (IsAtEnd (R.remaining input.new)) }
    ensures written { IfOk result (IsWritten Client
        (record { input = R.remaining input.old; output = W.contents output.old })
        (record { input = R.remaining input.new; output = W.contents output.new })) }
    ensures quiet { IfErr result (λ fault. fault ≢ Fault.Write → Keeps (W.contents output.old) (W.contents output.new)) }
    ensures cut { IfErr result (λ fault. fault ≡ Fault.Write → IsCut Client
        (record { input = R.remaining input.old; output = W.contents output.old })
        (record { input = R.remaining input.new; output = W.contents output.new })) }
    ensures passed { OnOk result (W.Passed output.new) }
    ensures cause { IfErr result (Caused A.Lacks (ReadFails R.Fails) (GivesUp W.Fails W.Interrupted)) }
{
    let script = read_rest(alloc, input)?;
    let answer = answer_to(alloc, script.as_slice())?;
    put(answer.text.as_bytes(), output)?;
    Ok(answer.status)
}

/// What is written for a script, and the status.
fn answer_to<A: Memory>(alloc: A, script: &[u8]) -> Result<Answer<A>, Fault>
    ensures lines { IfOk result (λ answer. ClientOutput script.now (string_bytes answer.text) answer.status) }
    ensures fault { IfErr result (λ e. (e ≡ Fault.Memory) × A.Lacks) }
{
    let mut stream = ClientStream::<BytesMut<A>>::new(alloc);
    match send_lines(alloc, script, &mut stream)? {
        None => {
            let text = digits(alloc, stream.bytes())?;
            Ok(Answer { text, status: 0 })
        }
        Some((number, fault)) => {
            let text = refusal(alloc, number, fault)?;
            Ok(Answer { text, status: 1 })
        }
    }
}

/// The bytes as a line of hex digits.
fn digits<A: Memory>(alloc: A, bytes: &[u8]) -> Result<String<A>, Fault>
    ensures line { IfOk result (λ text. string_bytes text ≡ line (encode_lower bytes.now)) }
    ensures fault { IfErr result (λ e. (e ≡ Fault.Memory) × A.Lacks) }
{
    let mut text = A::hex_of(alloc, bytes)?;
    A::push_char(&mut text, '\n')?;
    Ok(text)
}

/// The line that reports a rejected line.
fn refusal<A: Memory>(alloc: A, number: usize, fault: LineFault) -> Result<String<A>, Fault>
    ensures line { IfOk result (λ text. string_bytes text ≡ line (codes "line " ++ decimal number ++ codes ": " ++ reported fault)) }
    ensures fault { IfErr result (λ e. (e ≡ Fault.Memory) × A.Lacks) }
{
    let mut text = String::new(alloc);
    A::push_shown(&mut text, format_args!("line {number}: "))?;
    match fault {
        LineFault::NotUtf8 => A::push_str(&mut text, "not UTF-8\n")?,
        LineFault::WrongWords => A::push_str(&mut text, "wrong words\n")?,
        LineFault::WrongPhase => A::push_str(&mut text, "wrong phase\n")?,
        LineFault::Refused(e) => {
            let n = e.number();
            A::push_shown(&mut text, format_args!("fault {n}\n"))?;
        }
    }
    Ok(text)
}

/// Sends what each line asks for, up to the first line that is rejected, which it answers with its
/// number.
fn send_lines<A: Memory, B: Buffer>(
    alloc: A,
    script: &[u8],
    stream: &mut ClientStream<B>,
) -> Result<Option<(usize, LineFault)>, Fault>
    requires { HasSent [] (B.held stream.old.buf).bytes stream.old.opened }
    ensures lines { IfOk result (SendsLines (slice_split is_newline script.now) (B.held stream.new.buf).bytes stream.new.opened) }
    ensures fault { IfErr result (LacksFor A.Lacks B.Lacks) }
{
    let mut rest = Some(script);
    let mut number = 0usize;
    'lines: while let Some(bytes) = rest {
        let (line, more) = cut_line(bytes);
        number += 1;
        match send_line(alloc, line, stream)? {
            None => rest = more,
            Some(fault) => return Ok(Some((number, fault))),
        }
    }
    Ok(None)
}

/// The first line, and what stands after its newline, if it has one.
fn cut_line(bytes: &[u8]) -> (&[u8], Option<&[u8]>)
    ensures cut { slice_split is_newline bytes.now ≡ result.0.now ∷ lines_left result.1 }
    ensures shorter { length result.0.now + size_left result.1 ≡ length bytes.now }
{
    match memchr(b'\n', bytes) {
        Some(end) => (&bytes[..end], Some(&bytes[end + 1..])),
        None => (bytes, None),
    }
}

/// Sends what a line asks for, or returns why it is rejected.
fn send_line<A: Memory, B: Buffer>(
    alloc: A,
    line: &[u8],
    stream: &mut ClientStream<B>,
) -> Result<Option<LineFault>, Fault>
    ensures line { IfOk result (SendsLine B.held line.now stream.old stream.new) }
    ensures fault { IfErr result (LacksFor A.Lacks B.Lacks) }
{
    if line.is_empty() {
        return Ok(None);
    }
    let Ok(text) = str::from_utf8(line) else {
        return Ok(Some(LineFault::NotUtf8));
    };
    let Some(request) = request_of(alloc, text)? else {
        return Ok(Some(LineFault::WrongWords));
    };
    if opens(&request) == stream.is_open() {
        return Ok(Some(LineFault::WrongPhase));
    }
    match send(&request, stream) {
        Ok(()) => Ok(None),
        Err(Error::OutOfMemory) => Err(Fault::Memory),
        Err(e) => Ok(Some(LineFault::Refused(e))),
    }
}

/// Whether the request has to come before the session is open.
fn opens<A: Allocator>(request: &Request<'_, A>) -> bool
    ensures { result ≡ is_opening (asked request.now) }
{
    matches!(request, Request::Ssl | Request::Startup(..))
}

/// Sends the message that is asked for.
fn send<A: Allocator, B: Buffer>(
    request: &Request<'_, A>,
    stream: &mut ClientStream<B>,
) -> Result<(), Error>
    requires phase { stream.old.opened ≡ not (is_opening (asked request.now)) }
    requires named { IsNamed (asked request.now) }
    ensures { AddsMessage B.held (asked request.now) B.Lacks stream.old stream.new result }
{
    match request {
        Request::Ssl => stream.ssl_request(),
        Request::Startup(version, list) => {
            stream.startup_message_version(*version, list.as_slice())
        }
        Request::Query(text) => stream.query(text),
        Request::Password(text) => stream.password_message(text.as_bytes()),
        Request::Sync => stream.sync(),
        Request::Terminate => stream.terminate(),
    }
}
