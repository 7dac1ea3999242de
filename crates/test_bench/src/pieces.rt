//! Streams that come in pieces.

use crate::streams::weight;
use pgp_base::Error;
use pgp_message::Message;
use postgres_protocol::session::StreamParser;
use std::alloc::Global;

/// How many bytes come together.
const PIECE: usize = 8192;

/// Feeds the bytes to a parser in pieces, takes what each completes, and sums up what the messages weigh.
///
/// # Errors
///
/// Returns `OutOfMemory`, or the first error that was taken.
#[inline(never)]
pub(crate) fn feed(alloc: Global, bytes: &[u8]) -> Result<u64, Error> {
    let mut parser = StreamParser::new(alloc);
    let mut sum = 0u64;
    'pieces: for piece in bytes.chunks(PIECE) {
        parser.feed(piece)?;
        sum = sum.wrapping_add(weigh(parser.take())?);
    }
    Ok(sum)
}

// Each message is let go as soon as it is weighed.
#[inline(always)]
fn weigh(results: Vec<Result<Message, Error>>) -> Result<u64, Error> {
    let mut sum = 0u64;
    for item in results {
        let message = item?;
        sum = sum.wrapping_add(weight(&message));
    }
    Ok(sum)
}
