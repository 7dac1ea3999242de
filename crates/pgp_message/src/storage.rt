//! What a message's bytes are kept in.

ghost use Rattle.std.specs.Prelude.{◌≡◌, ◌≤◌, ℕ, List, length, take, drop};

use bytes::{Buf, Bytes};
use std::alloc::Allocator;

/// Bytes that a message keeps: shared ones (`Bytes`), or a slice of the buffer that was read.
pub trait Storage: Drop {
    /// The bytes.
    ghost bytes: { Self → List ℕ };

    fn as_slice(&self) -> &[u8]
        ensures { result.now ≡ bytes self.now };

    /// Leaves out the first bytes.
    fn skip(&mut self, count: usize)
        requires { count ≤ length (bytes self.old) }
        ensures { bytes self.new ≡ drop count (bytes self.old) };

    /// Cuts what stands past `len`.
    fn cut(&mut self, len: usize)
        ensures { bytes self.new ≡ take len (bytes self.old) };
}

impl<A: Allocator> Storage for Bytes<A> {
    ghost bytes = { λ b. b };

    fn as_slice(&self) -> &[u8] {
        Bytes::<A>::as_slice(self)
    }

    fn skip(&mut self, count: usize) {
        self.advance(count);
    }

    fn cut(&mut self, len: usize) {
        self.truncate(len);
    }
}

impl<'a> Storage for &'a [u8] {
    ghost bytes = { λ b. b.now };

    fn as_slice(&self) -> &[u8] {
        *self
    }

    fn skip(&mut self, count: usize) {
        *self = &self[count..];
    }

    fn cut(&mut self, len: usize) {
        if len < self.len() {
            *self = &self[..len];
        }
    }
}
