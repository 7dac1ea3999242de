//! What writers append to.

ghost use Rattle.std.specs.Prelude.{◌≡◌, ℕ, ◌+◌, ◌<◌, ◌≤◌, ◌^◌, List, [], ◌++◌, length, take, drop, OnOk, OnErr};
ghost use Rattle.pgp_base.specs.Held.{Held, ◌⊕◌, inserted, overwritten, items_held, StaysBehind};

use crate::memory::Memory;
use bytes::{Buf, BytesMut};
use std::alloc::AllocError;

/// A buffer that writers append to, as a `BytesMut` over any allocator.
pub trait Buffer {
    /// What no call changes, as whose memory the bytes stand in.
    ghost Kept: { Type 0 };

    /// The bytes that it holds, what stands after them, and what no call changes.
    ghost held: { Self → Held Kept };

    /// The buffer couldn't grow by so many bytes while it held that.
    ghost Lacks: { Held Kept → ℕ → Type 0 };

    /// How many bytes it holds.
    fn len(&self) -> usize
        ensures value { result ≡ length (held self.now).bytes }
        ensures bound { result < 2 ^ 63 };

    /// The bytes that it holds.
    fn as_slice(&self) -> &[u8]
        ensures { result.now ≡ (held self.now).bytes };

    /// Makes room for so many bytes more.
    ///
    /// # Errors
    ///
    /// Returns `AllocError` if the allocation fails.
    fn reserve(&mut self, additional: usize) -> Result<(), AllocError>
        ensures same { held self.new ≡ held self.old }
        ensures lacks { OnErr result (Lacks (held self.old) additional) };

    /// Appends all of `more`, or nothing.
    ///
    /// # Errors
    ///
    /// Returns `AllocError` if the allocation fails.
    fn append(&mut self, more: &[u8]) -> Result<(), AllocError>
        ensures ok { OnOk result (held self.new ≡ held self.old ⊕ more.now) }
        ensures err { OnErr result (held self.new ≡ held self.old) }
        ensures lacks { OnErr result (Lacks (held self.old) (length more.now)) };

    /// Appends all that is left of `more` and leaves none of it there; or appends nothing, and leaves
    /// `more` as it is.
    ///
    /// # Errors
    ///
    /// Returns `AllocError` if the allocation fails.
    fn append_from<T: Buf>(&mut self, more: &mut T) -> Result<(), AllocError>
        ensures ok { OnOk result (held self.new ≡ held self.old ⊕ T.unread more.old) }
        ensures drained { OnOk result (T.unread more.new ≡ []) }
        ensures err { OnErr result (held self.new ≡ held self.old) }
        ensures kept { OnErr result (more.new ≡ more.old) }
        ensures lacks { OnErr result (Lacks (held self.old) (length (T.unread more.old))) };

    /// Puts all of `more` at `place`, and what stood there after it; or changes nothing.
    ///
    /// # Errors
    ///
    /// Returns `AllocError` if the allocation fails.
    fn insert(&mut self, place: usize, more: &[u8]) -> Result<(), AllocError>
        requires { place ≤ length (held self.old).bytes }
        ensures ok { OnOk result (held self.new ≡ inserted (held self.old) place more.now) }
        ensures err { OnErr result (held self.new ≡ held self.old) }
        ensures lacks { OnErr result (Lacks (held self.old) (length more.now)) };

    /// Cuts what stands past `len`. In memory of the caller's it stands there still, after the bytes.
    fn truncate(&mut self, len: usize)
        ensures bytes { (held self.new).bytes ≡ take len (held self.old).bytes }
        ensures behind { StaysBehind len (held self.old) (held self.new) }
        ensures kept { (held self.new).kept ≡ (held self.old).kept };

    /// Writes over the bytes at `place`.
    fn patch(&mut self, place: usize, over: &[u8])
        requires { place + length over.now ≤ length (held self.old).bytes }
        ensures { held self.new ≡ overwritten (held self.old) place over.now };
}

// Moves the last `count` bytes to `place`, and those that stood there after them.
pub(crate) fn move_last(all: &mut [u8], place: usize, count: usize)
    requires { place + count ≤ length all.old }
    ensures { (front last : List ℕ) → all.old ≡ front ++ last → length last ≡ count → all.new ≡ take place front ++ last ++ drop place front }
{
    all[place..].rotate_right(count);
}

/// It lacks what its memory lacks: any growth by a byte or more may fail.
impl<A: Memory> Buffer for BytesMut<A> {
    ghost Kept = { Unit {0} };

    ghost held = { λ b. items_held b.items };

    ghost Lacks = { λ _ n. A.Lacks × (0 < n) };

    fn len(&self) -> usize {
        BytesMut::<A>::len(self)
    }

    fn as_slice(&self) -> &[u8] {
        BytesMut::<A>::as_slice(self)
    }

    fn reserve(&mut self, additional: usize) -> Result<(), AllocError> {
        A::reserve_bytes(self, additional)
    }

    #[tactic(auto, unfolding(crate::specs::Held::lengthened))]
    fn append(&mut self, more: &[u8]) -> Result<(), AllocError> {
        A::append(self, more)
    }

    #[tactic(auto, unfolding(crate::specs::Held::lengthened))]
    fn append_from<T: Buf>(&mut self, more: &mut T) -> Result<(), AllocError> {
        A::append_from(self, more)
    }

    #[tactic(auto, unfolding(crate::specs::Held::lengthened, crate::specs::Held::inserted))]
    fn insert(&mut self, place: usize, more: &[u8]) -> Result<(), AllocError> {
        Buffer::append(self, more)?;
        move_last(self.as_mut_slice(), place, more.len());
        Ok(())
    }

    fn truncate(&mut self, len: usize) {
        BytesMut::<A>::truncate(self, len)
    }

    #[tactic(auto, unfolding(crate::specs::Held::overwritten))]
    fn patch(&mut self, place: usize, over: &[u8]) {
        let all = self.as_mut_slice();
        all[place..place + over.len()].copy_from_slice(over);
    }
}
