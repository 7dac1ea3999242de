//! What came of a server, and wasn't taken as messages.

ghost use Rattle.std.specs.Prelude.{◌≡◌, ◌-◌, ◌≤◌, ◌++◌, [], length, take, drop, OnErr, OnOk};
ghost use Rattle.pgp_client.specs.Limits.{is_longer};
ghost use Rattle.pgp_message.specs.Stream.{Step};
ghost use Rattle.pgp_message.specs.Views.{parsed};
ghost use Rattle.pgp_session.specs.Incoming.{HasFrame};

use crate::connection_parts::is_too_long;
use bytes::{Buf, Bytes, BytesMut};
use pgp_base::{Error, Memory};
use pgp_message::Message;
use std::alloc::AllocError;
use std::marker::Model;

/// How much room is kept for the bytes that come next.
const KEPT: usize = 1 << 20;

/// Gives the room of a large message back, once nothing of it is left.
fn give_back<A: Memory>(bytes: &mut BytesMut<A>)
    ensures { bytes.new.items ≡ bytes.old.items }
{
    if !bytes.is_empty() {
        return;
    }
    bytes.clear();
    if bytes.capacity() > KEPT {
        *bytes = BytesMut::new(*bytes.allocator());
    }
}

/// Bytes that came of a server. At their front stands the frame of the message that was taken in place last, until it is passed.
#[derive(Drop)]
pub(crate) struct Incoming<A: Memory> {
    bytes: BytesMut<A>,
    /// How many bytes that frame has.
    taken: usize,
}

impl<A: Memory> Model for Incoming<A> {
    ghost use Rattle.std.specs.Prelude.{◌≤◌, length, take, drop};
    ghost use Rattle.pgp_session.specs.Incoming.{HasFrame, Waiting};

    ghost Value = { Waiting };

    ghost view = { λ i. record { current = take i.taken i.bytes.items; rest = drop i.taken i.bytes.items } };

    ghost invariant = { λ i. (i.taken ≤ length i.bytes.items) × HasFrame (take i.taken i.bytes.items) };
}

impl<A: Memory> Incoming<A> {
    /// None so far.
    pub(crate) fn new(alloc: A) -> Incoming<A>
        ensures { result ≡ record { current = []; rest = [] } }
    {
        Incoming {
            bytes: BytesMut::new(alloc),
            taken: 0,
        }
    }

    /// Passes the frame that was taken.
    #[inline(always)]
    pub(crate) fn pass(&mut self)
        ensures current { self.new.current ≡ [] }
        ensures rest { self.new.rest ≡ self.old.rest }
    {
        self.bytes.advance(self.taken);
        self.taken = 0;
    }

    /// Adds bytes, and passes the frame that was taken.
    pub(crate) fn append(&mut self, piece: &[u8]) -> Result<(), AllocError>
        ensures ok { OnOk result (self.new.rest ≡ self.old.rest ++ piece.now) }
        ensures err { OnErr result (self.new.rest ≡ self.old.rest) }
        ensures current { self.new.current ≡ [] }
        ensures lacks { OnErr result A.Lacks }
    {
        self.pass();
        give_back(&mut self.bytes);
        A::append(&mut self.bytes, piece)
    }

    /// The frame that was taken.
    pub(crate) fn current(&self) -> &[u8]
        ensures current { result.now ≡ self.now.current }
        ensures frame { HasFrame result.now }
    {
        &self.bytes.as_slice()[..self.taken]
    }

    /// The bytes behind it.
    #[inline(always)]
    pub(crate) fn rest(&self) -> &[u8]
        ensures { result.now ≡ self.now.rest }
    {
        &self.bytes.as_slice()[self.taken..]
    }

    /// Whether they begin with a header that announces more bytes than the limit.
    #[inline(always)]
    pub(crate) fn is_too_long(&self, limit: u32) -> bool
        ensures { result ≡ is_longer limit self.now.rest }
    {
        is_too_long(self.rest(), limit)
    }

    /// Takes the frame at the front, behind which so many bytes are left, in the place of the one that was taken.
    #[inline(always)]
    pub(crate) fn take(&mut self, left: usize)
        requires within { left ≤ length self.old.rest }
        requires frame { HasFrame (take (length self.old.rest - left) self.old.rest) }
        ensures current { self.new.current ≡ take (length self.old.rest - left) self.old.rest }
        ensures rest { self.new.rest ≡ drop (length self.old.rest - left) self.old.rest }
    {
        self.pass();
        self.taken = self.bytes.len() - left;
    }

    /// Passes that frame and all bytes but the last, so many.
    pub(crate) fn leave(&mut self, left: usize)
        requires { left ≤ length self.old.rest }
        ensures current { self.new.current ≡ [] }
        ensures rest { self.new.rest ≡ drop (length self.old.rest - left) self.old.rest }
    {
        self.pass();
        self.bytes.advance(self.bytes.len() - left);
    }

    /// Passes the frame that was taken, and takes the message behind it, as `Message::parse` does.
    ///
    /// # Errors
    ///
    /// Those of `Message::parse`, with the same effect on the bytes.
    pub(crate) fn parse(&mut self) -> Result<Option<Message<Bytes<A>>>, Error>
        ensures step { Step A.Lacks self.old.rest (parsed result) self.new.rest }
        ensures current { self.new.current ≡ [] }
    {
        self.bytes.advance(self.taken);
        self.taken = 0;
        Message::parse(&mut self.bytes)
    }
}
