//! What is kept of a connection, and the lines of a chunk.

ghost use Rattle.std.specs.Prelude.{◌≡◌, ◌++◌, OnErr, OnOk, string_bytes};
ghost use Rattle.pgtrace_lines.specs.Steps.{view_of};
ghost use Rattle.pgtrace_session.specs.Conversation as spec;
ghost use Rattle.pgtrace_session.specs.Conversation.{side_in};
ghost use Rattle.pgtrace_session.specs.Steps.{ListsBytes, ListsChunkTo, Holds, Keeps, chunk_of, half_of, kept_of, known_of};

use crate::chunk::{Chunk, Sender};
use crate::frames::{Texts, list_frames};
use crate::line_mark::put_mark;
use crate::numbers::set_time;
use crate::start::{Start, started};
use crate::state::Known;
use bytes::{Buf, BytesMut};
use pgp_base::Memory;
use pgtrace_lines::view::View;
use pgtrace_summary::MapMemory;
use std::alloc::AllocError;

/// What is kept of what one side sent.
#[derive(Drop)]
pub struct Half<A: MapMemory> {
    /// The bytes that aren't listed yet.
    pub bytes: BytesMut<A>,
    /// Where they stand.
    pub place: u64,
    /// Whether nothing says where a frame begins in them. What comes after them is counted alone.
    pub stopped: bool,
    /// How many bytes aren't listed.
    pub left: u64,
}

/// What is kept of a connection.
#[derive(Drop)]
pub struct Talk<A: MapMemory> {
    pub known: Known<A>,
    pub client: Half<A>,
    pub server: Half<A>,
    /// What times are counted from.
    pub start: Start,
}

/// Adds the lines of all frames that are whole with this chunk.
pub fn list_chunk<A: MapMemory>(
    view: View<'_>,
    chunk: Chunk<'_>,
    talk: &mut Talk<A>,
    texts: &mut Texts<A>,
) -> Result<(), AllocError>
    ensures lines { OnOk result ((before : spec.Talk) → Keeps (kept_of talk.old) before → ListsChunkTo (view_of view.entry) before (chunk_of chunk.entry) (kept_of talk.new) (string_bytes texts.old.lines) (string_bytes texts.new.lines)) }
    ensures lacks { OnErr result A.Lacks }
{
    let start = started(talk.start, chunk.micros);
    put_mark(
        view.style.form,
        chunk.sender,
        start,
        chunk.micros,
        &mut texts.value,
        &mut texts.time,
        &mut texts.mark,
    )?;
    talk.start = start;
    set_time(chunk.micros, &mut talk.known.numbers);
    match chunk.sender {
        Sender::Client => list_bytes(
            view,
            Sender::Client,
            chunk.bytes,
            &mut talk.client,
            &mut talk.known,
            texts,
        ),
        Sender::Server => list_bytes(
            view,
            Sender::Server,
            chunk.bytes,
            &mut talk.server,
            &mut talk.known,
            texts,
        ),
    }
}

/// Adds the lines of all frames that are whole with these bytes of a side.
fn list_bytes<A: MapMemory>(
    view: View<'_>,
    sender: Sender,
    bytes: &[u8],
    half: &mut Half<A>,
    known: &mut Known<A>,
    texts: &mut Texts<A>,
) -> Result<(), AllocError>
    ensures lines { OnOk result ((before : spec.Half) → Holds (side_in sender (known_of known.old)) (half_of half.old) before →
        ListsBytes (view_of view.entry) (string_bytes texts.old.mark) sender (known_of known.old) (before.rest ++ bytes.now) before.passed (known_of known.new) (half_of half.new) (string_bytes texts.old.lines) (string_bytes texts.new.lines)) }
    ensures lacks { OnErr result A.Lacks }
{
    if half.stopped {
        half.left = half.left.saturating_add(bytes.len() as u64);
        return Ok(());
    }
    A::append(&mut half.bytes, bytes)?;
    let (listed, stopped) = list_frames(
        view,
        sender,
        half.place,
        half.bytes.as_slice(),
        known,
        texts,
    )?;
    half.bytes.advance(listed);
    half.place = half.place.saturating_add(listed as u64);
    half.left = half.bytes.len() as u64;
    half.stopped = stopped;
    Ok(())
}
