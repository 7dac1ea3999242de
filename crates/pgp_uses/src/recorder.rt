//! A server's stream, cut into frames that stay where they stand.

ghost use Rattle.std.specs.Prelude.{◌≡◌, IfOk, OnErr};
ghost use Rattle.pgp_uses.specs.Recorder.{IsRecording};

use pgp_base::Memory;
use postgres_protocol::Error;
use postgres_protocol::message::backend::Messages;
use std::alloc::{AllocError, Allocator, Global};
use std::ops::Range;

/// Where the frames of a stream stand.
#[derive(Drop)]
pub struct Recording<A: Allocator = Global> {
    /// The place of each frame, its tag and length included.
    pub places: Vec<Range<usize>, A>,
    /// Where the bytes begin that are no complete frame.
    pub rest: usize,
    /// Whether a length below 4 stands there.
    pub stopped: bool,
}

/// Cuts a server's bytes into frames, and says where each stands. No byte is copied.
///
/// # Errors
///
/// Returns `AllocError` if memory for the places can't be allocated.
pub fn record<A: Memory>(alloc: A, bytes: &[u8]) -> Result<Recording<A>, AllocError>
    ensures all { IfOk result (λ all. IsRecording bytes.now all.places.items all.stopped all.rest) }
    ensures lacks { OnErr result A.Lacks }
{
    let mut messages = Messages::new(bytes);
    let mut places = Vec::new(alloc);
    let mut rest = 0;
    'frames: loop {
        match messages.next() {
            Ok(Some(message)) => drop(message),
            Ok(None) => {
                return Ok(Recording {
                    places,
                    rest,
                    stopped: false,
                });
            }
            Err(Error::InvalidLength) => {
                return Ok(Recording {
                    places,
                    rest,
                    stopped: true,
                });
            }
            Err(_) => {}
        }
        let end = bytes.len() - messages.rest().len();
        A::push(&mut places, rest..end)?;
        rest = end;
    }
}
