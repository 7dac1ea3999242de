//! Writers into memory of the caller's.

ghost use Rattle.std.specs.Prelude.{◌≡◌, ◌≤◌, [], length, take};

use crate::buffer::{Buffer, move_last};
use bytes::Buf;
use std::alloc::AllocError;

/// A buffer over memory of the caller's, which asks no allocator for any. It doesn't grow: what doesn't
/// fit is an error, as lack of memory is, and what fits is not. The bytes stand at the front of the
/// caller's memory; after them it is as it was, but where a writer that failed had begun.
#[derive(Drop)]
pub struct Window<'a> {
    room: &'a mut [u8],
    len: usize,
    ghost fits: { len ≤ length room.now },
}

impl<'a> Window<'a> {
    ghost use Rattle.pgp_base.specs.Window.{window_held, place};

    /// A window on this memory, into which nothing is written yet.
    pub fn new(room: &'a mut [u8]) -> Window<'a>
        ensures { window_held result ≡ record { bytes = []; behind = room.old; kept = place room.entry } }
    {
        Window { room, len: 0 }
    }
}

impl Buffer for Window<'_> {
    ghost use Rattle.std.specs.Prelude.{ℕ};
    ghost use Rattle.std.specs.Borrow.{GName};
    ghost use Rattle.pgp_base.specs.Window.{window_held, window_lacks};

    ghost Kept = { GName × ℕ };

    ghost held = { window_held };

    ghost Lacks = { window_lacks };

    fn len(&self) -> usize {
        self.len
    }

    fn as_slice(&self) -> &[u8] {
        &self.room[..self.len]
    }

    fn reserve(&mut self, additional: usize) -> Result<(), AllocError> {
        if self.room.len() - self.len < additional {
            return Err(AllocError);
        }
        Ok(())
    }

    #[tactic(auto, unfolding(crate::specs::Held::lengthened))]
    fn append(&mut self, more: &[u8]) -> Result<(), AllocError> {
        if self.room.len() - self.len < more.len() {
            return Err(AllocError);
        }
        let end = self.len + more.len();
        self.room[self.len..end].copy_from_slice(more);
        self.len = end;
        Ok(())
    }

    #[tactic(auto, unfolding(crate::specs::Held::lengthened))]
    fn append_from<T: Buf>(&mut self, more: &mut T) -> Result<(), AllocError> {
        let count = more.remaining();
        if self.room.len() - self.len < count {
            return Err(AllocError);
        }
        let end = self.len + count;
        more.copy_to_slice(&mut self.room[self.len..end]);
        self.len = end;
        Ok(())
    }

    #[tactic(auto, unfolding(crate::specs::Held::lengthened, crate::specs::Held::inserted))]
    fn insert(&mut self, place: usize, more: &[u8]) -> Result<(), AllocError> {
        self.append(more)?;
        move_last(&mut self.room[..self.len], place, more.len());
        Ok(())
    }

    fn truncate(&mut self, len: usize) {
        if len < self.len {
            self.len = len;
        }
    }

    #[tactic(auto, unfolding(crate::specs::Held::overwritten))]
    fn patch(&mut self, place: usize, over: &[u8]) {
        let taken = &mut self.room[..self.len];
        taken[place..place + over.len()].copy_from_slice(over);
    }
}
