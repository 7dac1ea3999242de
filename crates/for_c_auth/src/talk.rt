//! Which message answers which request, as a connection keeps it in memory of the caller's.

ghost use Rattle.std.specs.Prelude.{◌≡◌, ◌≤◌, length, true, false};
ghost use Rattle.pgp_client.specs.Slots.{capacity, slots_items};
ghost use Rattle.pgp_client.specs.Talk.{shown};
ghost use Rattle.for_c_auth.specs.Connection.{IsBroken, talk_of};

use pgp_client::{Dialogue, Slot, Slots, Stage};
use std::mem;

/// The requests whose answers are to come, in memory of the caller's, and how far the answer under way is. It is the struct of
/// `pgp_dialogue_ask`.
#[repr(C)]
pub struct PgpTalk<'a> {
    pub room: &'a mut [Slot],
    /// The place of the first pending request, and the place after the last.
    pub start: usize,
    pub end: usize,
    /// The name of the request under way.
    pub name: u64,
    pub stage: u8,
}

/// Whether the requests stand at no places of the room.
pub(crate) fn is_broken(dialogue: &PgpTalk<'_>) -> bool
    ensures broken { result ≡ true → IsBroken dialogue.now }
    ensures whole { result ≡ false → (dialogue.now.start ≤ dialogue.now.end) × (dialogue.now.end ≤ length dialogue.now.room.now) }
{
    dialogue.start > dialogue.end || dialogue.end > dialogue.room.len()
}

/// The dialogue that the caller keeps, whose memory it has until it is put back.
pub(crate) fn resumed<'a>(dialogue: &mut PgpTalk<'a>) -> Dialogue<Slots<'a>>
    requires ordered { dialogue.old.start ≤ dialogue.old.end }
    requires fits { dialogue.old.end ≤ length dialogue.old.room.now }
    ensures same { shown slots_items result ≡ talk_of dialogue.old }
    ensures size { capacity result.pending ≡ length dialogue.old.room.now }
{
    let room = mem::replace(&mut dialogue.room, &mut []);
    let pending = Slots::resume(room, dialogue.start, dialogue.end);
    Dialogue::resume(Stage::of_code(dialogue.stage), dialogue.name, pending)
}

/// Puts the dialogue back.
pub(crate) fn put_back<'a>(kept: Dialogue<Slots<'a>>, dialogue: &mut PgpTalk<'a>)
    ensures same { talk_of dialogue.new ≡ shown slots_items kept.entry }
    ensures size { length dialogue.new.room.now ≡ capacity kept.entry.pending }
    ensures ordered { dialogue.new.start ≤ dialogue.new.end }
    ensures fits { dialogue.new.end ≤ length dialogue.new.room.now }
{
    let (stage, name, pending) = kept.into_parts();
    let (room, start, end) = pending.into_parts();
    dialogue.room = room;
    dialogue.start = start;
    dialogue.end = end;
    dialogue.name = name;
    dialogue.stage = stage.code();
}
