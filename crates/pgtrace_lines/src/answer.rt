//! The front of a server's stream: one-byte answers to requests for encryption, and the first message.

ghost use Rattle.std.specs.Prelude.{◌≡◌, ◌∷◌, ◌++◌, [], IfOk, OnErr, OnOk, true, string_bytes};
ghost use Rattle.pgtrace_lines.specs.Common.{option_map, Length, Name, Tag, closing, followed, opening};
ghost use Rattle.pgtrace_lines.specs.Listing.{answer_line, answer_name};
ghost use Rattle.pgtrace_lines.specs.Sides.{Server, phase_behind};
ghost use Rattle.pgtrace_lines.specs.Steps.{ListsNext, phase_of};

use crate::frame::{Next, begin_line, server_line};
use crate::side::{Phase, phase_in};
use pgp_base::Memory;
use pgtool_line::line::{put_called, put_end};
use pgtool_line::style::Style;
use std::alloc::AllocError;

/// Makes the line of the answer or of the first message at the front of the bytes, which stands at this place. Returns how far the stream then
/// has come, and what stands after it.
///
/// # Errors
///
/// Returns `AllocError` if there is no memory for the line.
pub fn first_line<'b, A: Memory>(
    style: Style,
    place: u64,
    bytes: &'b [u8],
    line: &mut String<A>,
) -> Result<(Next, Phase, &'b [u8]), AllocError>
    ensures listed { IfOk result (λ x. ListsNext style place (Server Phase.Beginning) bytes.now x.2.now (string_bytes line.new) (Server x.1) x.0) }
    ensures lacks { OnErr result A.Lacks }
{
    let Some((byte, behind)) = bytes.split_first() else {
        return Ok((Next::Waits, Phase::Beginning, bytes));
    };
    if let Some(phase) = phase_behind(*byte) {
        answer_line(style, place, *byte, line)?;
        return Ok((Next::Line(answer_name(*byte)), phase, behind));
    }
    let (next, now, rest) = server_line(style, place, false, bytes, line)?;
    Ok((next, phase_of(next, now), rest))
}

/// How far the stream has come after an answer of this byte, or nothing where it is no answer.
fn phase_behind(byte: u8) -> Option<Phase>
    ensures { result ≡ phase_behind byte }
{
    match byte {
        b'N' => Some(Phase::Beginning),
        b'S' | b'G' => Some(Phase::Encrypted),
        _ => None,
    }
}

/// How far the stream has come after its first message, if it came.
fn phase_of(next: Next, replicating: bool) -> Phase
    ensures { result ≡ phase_of next replicating }
{
    match next {
        Next::Line(_) => phase_in(replicating),
        Next::Waits | Next::Stops => Phase::Beginning,
    }
}

/// Makes the line of an answer.
fn answer_line<A: Memory>(
    style: Style,
    place: u64,
    byte: u8,
    line: &mut String<A>,
) -> Result<(), AllocError>
    ensures line { OnOk result (string_bytes line.new ≡ answer_line style place byte) }
    ensures lacks { OnErr result A.Lacks }
{
    begin_line(style, place, 1, byte, line)?;
    put_called(style, true, answer_name(byte), line)?;
    put_end(style, line)
}

/// The name of an answer: which request it answers, as far as its byte says.
fn answer_name(byte: u8) -> &'static str
    ensures { result.now ≡ answer_name byte }
{
    match byte {
        b'S' => "SSLResponse",
        b'G' => "GSSENCResponse",
        _ => "SSLResponse or GSSENCResponse",
    }
}
