//! A whole stream in one call.

ghost use Rattle.std.specs.Prelude.{IfOk, IfErr};
ghost use Rattle.std.specs.List.{flat_map};
ghost use Rattle.pgp_base.specs.Cause.{WantsMemory};
ghost use Rattle.pgp_message.specs.Stream.{BackendRun};

use crate::parsed::Parsed;
use crate::stream_parser::StreamParser;
use pgp_base::{Error, Memory};

/// The messages and errors of a stream, however it is cut into pieces.
///
/// # Errors
///
/// Returns `OutOfMemory` if an allocation fails. A malformed frame is no error of the call: its error stands among
/// the results.
pub fn parse_stream<A: Memory>(alloc: A, pieces: &[&[u8]]) -> Result<Parsed<A>, Error>
    ensures run { IfOk result (λ s. BackendRun (flat_map (λ piece. piece.now) pieces.now) s.results s.stopped s.rest) }
    ensures err { IfErr result (WantsMemory A.Lacks) }
{
    let mut parser = StreamParser::new(alloc);
    for piece in pieces {
        parser.feed(piece)?;
    }
    Ok(parser.into_parsed())
}
