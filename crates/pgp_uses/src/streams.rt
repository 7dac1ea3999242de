//! What a server sends: a stream that comes in pieces, and bytes that are read where they stand.

ghost use Rattle.std.specs.Prelude.{◌≡◌, false, true, map, option_map, IfOk, IfErr, OnOk, OnErr};
ghost use Rattle.std.specs.List.{flat_map};
ghost use Rattle.pgp_base.specs.Cause.{WantsMemory};
ghost use Rattle.pgp_message.specs.Views.{seen};
ghost use Rattle.pgp_uses.specs.Streams.{Completes, FrontRow, HasFrames};

use bytes::Bytes;
use pgp_base::Memory;
use postgres_protocol::Error;
use postgres_protocol::message::backend::{DataRowBody, Message, Messages};
use postgres_protocol::session::{StreamParser, parse_stream};

/// The messages and errors of the frames that a piece completes. Whatever came and was taken before, all that was
/// taken is what the stream's grammar gives for all bytes.
///
/// # Errors
///
/// Returns `OutOfMemory`. The parser has failed then; what it had read can still be taken.
pub fn completed<A: Memory>(
    piece: &[u8],
    parser: &mut StreamParser<A>,
) -> Result<Vec<Result<Message<Bytes<A>>, Error>, A>, Error>
    requires { parser.old.failed ≡ false }
    ensures read { IfOk result (λ got. Completes piece.now (map seen got.items) parser.old parser.new) }
    ensures sound { OnOk result (parser.new.failed ≡ false) }
    ensures failed { OnErr result (parser.new.failed ≡ true) }
    ensures err { IfErr result (WantsMemory A.Lacks) }
{
    parser.feed(piece)?;
    Ok(parser.take())
}

/// How many frames a stream has, in whatever pieces it came.
///
/// # Errors
///
/// Returns `OutOfMemory`.
pub fn frame_count<A: Memory>(alloc: A, pieces: &[&[u8]]) -> Result<usize, Error>
    ensures count { IfOk result (λ n. HasFrames (flat_map (λ piece. piece.now) pieces.now) n) }
    ensures err { IfErr result (WantsMemory A.Lacks) }
{
    let parsed = parse_stream(alloc, pieces)?;
    Ok(parsed.results().len())
}

/// The row at the front of the bytes, read where it stands, and the bytes after it; `None` where no whole row stands
/// there.
pub fn front_row(bytes: &[u8]) -> Option<(DataRowBody<&[u8]>, &[u8])>
    ensures { FrontRow bytes.now (option_map (λ front. (front.0, front.1.now)) result) }
{
    let mut messages = Messages::new(bytes);
    match messages.next() {
        Ok(Some(Message::DataRow(row))) => Some((row, messages.rest())),
        _ => None,
    }
}
