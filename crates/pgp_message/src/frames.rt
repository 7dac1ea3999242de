//! How complete frames are read where they stand in shared bytes.

ghost use Rattle.std.specs.Prelude.{◌≡◌, ◌<◌, ◌≤◌, drop, length, map, IfOk, OnOk, OnErr, vec_len, vec_capacity};
ghost use Rattle.pgp_message.specs.Found.{AreFrames, TakesEach, TakesSome};
ghost use Rattle.pgp_message.specs.FrameSteps.{TakesOnto};
ghost use Rattle.pgp_message.specs.FrontReading.{IsFront};
ghost use Rattle.pgp_message.specs.Stream.{BeginsWithFrame};
ghost use Rattle.pgp_message.specs.Views.{seen};

use crate::dispatch::{body_onto, plain_onto};
use crate::frame::{Front, head};
use crate::message::Message;
use bytes::Bytes;
use pgp_base::{Error, Memory};
use std::alloc::AllocError;

/// Adds the messages of frames to the list, each with its tag and its payload where they stand in the shared bytes, or the
/// errors of their bodies. The bytes are so many complete frames, as `FrameParser::find_all` finds them.
///
/// # Errors
///
/// Returns `AllocError` if the list can't grow. It then has what the first frames gave.
pub fn read_frames<A: Memory>(
    frames: &Bytes<A>,
    count: usize,
    results: &mut Vec<Result<Message<Bytes<A>>, Error>, A>,
) -> Result<(), AllocError>
    requires { AreFrames frames.now count }
    ensures ok { OnOk result (TakesEach frames.now count (map seen results.old.items) (map seen results.new.items)) }
    ensures some { OnErr result (TakesSome frames.now (map seen results.old.items) (map seen results.new.items)) }
    ensures lacks { OnErr result A.Lacks }
{
    A::reserve(results, count)?;
    let mut at = 0usize;
    'frames: while at < frames.len() {
        at = read_onto(frames, at, results)?;
    }
    Ok(())
}

/// Adds the message of the frame that stands at `at`, or the error of its body, to a list that has room for it, and returns
/// where the frame ends.
fn read_onto<A: Memory>(
    bytes: &Bytes<A>,
    at: usize,
    results: &mut Vec<Result<Message<Bytes<A>>, Error>, A>,
) -> Result<usize, AllocError>
    requires within { at ≤ length bytes.now }
    requires frame { BeginsWithFrame (drop at bytes.now) }
    requires room { vec_len results.old < vec_capacity results.old }
    ensures ok { IfOk result (λ end. TakesOnto (drop at bytes.now) (drop end bytes.now)
        (map seen results.old.items) (map seen results.new.items)) }
    ensures end { IfOk result (λ end. (at < end) × (end ≤ length bytes.now)) }
    ensures list { OnErr result (map seen results.new.items ≡ map seen results.old.items) }
    ensures lacks { OnErr result A.Lacks }
    ensures room { vec_capacity results.new ≡ vec_capacity results.old }
{
    let (_, here) = bytes.as_slice().split_at(at);
    let front = whole_front(here);
    let end = at + front.total;
    let payload = &here[5..front.total];
    if plain_onto(results, front.tag, payload) {
        return Ok(end);
    }
    let payload = A::slice_shared(bytes, at + 5, end)?;
    body_onto(results, front.tag, payload);
    Ok(end)
}

/// The frame that the bytes begin with, by its header alone.
fn whole_front(bytes: &[u8]) -> Front
    requires { BeginsWithFrame bytes.now }
    ensures { IsFront result bytes.now }
{
    let (tag, len) = head(bytes);
    Front {
        tag,
        total: len as usize + 1,
    }
}
