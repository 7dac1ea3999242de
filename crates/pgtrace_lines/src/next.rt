//! The line of the next frame, whoever sent it.

ghost use Rattle.std.specs.Prelude.{◌≡◌, IfOk, OnErr, string_bytes};
ghost use Rattle.pgtrace_lines.specs.Sides.{Server};
ghost use Rattle.pgtrace_lines.specs.Steps.{ListsNext, sealed, side_of};

use crate::answer::first_line;
use crate::client::client_line;
use crate::frame::{Next, server_line as message_line};
use crate::side::{Phase, Side, phase_in};
use pgp_base::Memory;
use pgtool_line::style::Style;
use std::alloc::AllocError;

/// Makes the line of the frame at the front of the bytes, which stands at this place. Returns what is then known of the side, and what stands
/// after the frame, both unchanged where there is none.
///
/// # Errors
///
/// Returns `AllocError` if there is no memory for the line.
pub fn next_line<'a, 'b, A: Memory>(
    style: Style,
    place: u64,
    side: Side<'a>,
    bytes: &'b [u8],
    line: &mut String<A>,
) -> Result<(Next, Side<'a>, &'b [u8]), AllocError>
    ensures listed { IfOk result (λ x. ListsNext style place (side_of side.entry) bytes.now x.2.now (string_bytes line.new) (side_of x.1) x.0) }
    ensures lacks { OnErr result A.Lacks }
{
    match side {
        Side::Server(phase) => {
            let (next, phase, rest) = server_line(style, place, phase, bytes, line)?;
            Ok((next, Side::Server(phase), rest))
        }
        Side::Client {
            opened,
            kinds,
            replicating,
        } => {
            let (next, now, left, rest) = client_line(
                style,
                place,
                opened,
                kinds,
                replicating,
                bytes,
                line,
            )?;
            Ok((
                next,
                Side::Client {
                    opened: now,
                    kinds: left,
                    replicating,
                },
                rest,
            ))
        }
    }
}

/// The same of a server's stream that has come so far. Returns how far it then has come.
///
/// # Errors
///
/// Returns `AllocError` if there is no memory for the line.
pub fn server_line<'b, A: Memory>(
    style: Style,
    place: u64,
    phase: Phase,
    bytes: &'b [u8],
    line: &mut String<A>,
) -> Result<(Next, Phase, &'b [u8]), AllocError>
    ensures listed { IfOk result (λ x. ListsNext style place (Server phase) bytes.now x.2.now (string_bytes line.new) (Server x.1) x.0) }
    ensures lacks { OnErr result A.Lacks }
{
    match phase {
        Phase::Beginning => first_line(style, place, bytes, line),
        Phase::Messages => {
            let (next, now, rest) = message_line(style, place, false, bytes, line)?;
            Ok((next, phase_in(now), rest))
        }
        Phase::Replicating => {
            let (next, now, rest) = message_line(style, place, true, bytes, line)?;
            Ok((next, phase_in(now), rest))
        }
        Phase::Encrypted => Ok((sealed(bytes), phase, bytes)),
    }
}

/// What stands at the front of bytes that are encrypted: nothing, or what is no message.
fn sealed(bytes: &[u8]) -> Next
    ensures { result ≡ sealed bytes.now }
{
    if bytes.is_empty() {
        Next::Waits
    } else {
        Next::Stops
    }
}
