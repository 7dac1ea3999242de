//! Cutting messages off the front of a buffer.

ghost use Rattle.std.specs.Prelude.{◌≡◌, ◌↔◌, IsTrue, Ok, Err, None, max, min};
ghost use Rattle.pgp_base.specs.Wire.{IsBytes};
ghost use Rattle.pgp_message.specs.Found.{FindsAll};
ghost use Rattle.pgp_message.specs.Remembered.{Fits, header_of, headers_after, memory_after, missing_of};
ghost use Rattle.pgp_message.specs.Stream.{Step, IsPartial, IsLengthFault};
ghost use Rattle.pgp_message.specs.Views.{parsed};

use crate::dispatch::{bare, body, keeps_bytes};
use crate::found::{Found, header_behind, whole_frames};
use crate::frame::{Front, count_of, head, header_of, room};
use crate::message::Message;
use bytes::{Buf, Bytes, BytesMut};
use pgp_base::{Error, Memory};
use std::alloc::Allocator;
use std::marker::Model;

/// Takes messages off the front of a buffer, and remembers the header of a frame that it had to leave,
/// so that it counts the header of each frame once, in however many pieces the frame comes.
#[derive(Drop)]
pub struct FrameParser {
    header: Option<(u8, u32)>,
    headers: u64,
}

impl Model for FrameParser {
    ghost use Rattle.pgp_message.specs.Remembered.{Memory};

    ghost Value = { Memory };

    ghost view = { λ parser. record { header = parser.header; headers = parser.headers } };
}

impl FrameParser {
    /// A parser that has read nothing.
    pub fn new() -> FrameParser
        ensures { result ≡ record { header = None; headers = 0 } }
    {
        FrameParser {
            header: None,
            headers: 0,
        }
    }

    /// Whether no header is remembered, or the bytes begin with the one that is.
    pub fn fits<A: Allocator>(&self, buf: &BytesMut<A>) -> bool
        ensures { IsTrue result ↔ Fits self.now buf.now.items }
    {
        match self.header {
            None => true,
            Some(header) => buf.len() >= 5 && head(buf.as_slice()) == header,
        }
    }

    /// How many frames' headers have come, each counted once, or the greatest `u64` where there were more.
    pub fn headers(&self) -> u64
        ensures { result ≡ self.now.headers }
    {
        self.headers
    }

    /// Takes the message at the front of the bytes, as `Message::parse` does. Where the bytes were left, their
    /// header is remembered for the next call; between two calls bytes may be added after those that were left.
    ///
    /// # Errors
    ///
    /// Those of `Message::parse`, with the same effect on the bytes.
    pub fn parse<A: Memory>(
        &mut self,
        buf: &mut BytesMut<A>,
    ) -> Result<Option<Message<Bytes<A>>>, Error>
        requires { Fits self.old buf.old.items }
        ensures step { Step A.Lacks buf.old.items (parsed result) buf.new.items }
        ensures waits { IsPartial buf.old.items → result ≡ Ok None }
        ensures fault { IsLengthFault buf.old.items → result ≡ Err Error.InvalidLength }
        ensures memory { self.new ≡ memory_after self.old buf.old.items (parsed result) }
        ensures fits { Fits self.new buf.new.items }
    {
        let header = self.read(buf.as_slice());
        let Some(front) = Front::find(header, buf.as_slice())? else {
            let _ = buf.reserve(room(header, buf.len()));
            return Ok(None);
        };
        let payload = &buf.as_slice()[5..front.total];
        if !keeps_bytes(front.tag, payload) {
            let answer = bare(front.tag, payload);
            buf.advance(front.total);
            self.header = None;
            return answer.map(Some);
        }
        let Ok(mut payload) = A::freeze_to(buf, front.total) else {
            return Err(Error::OutOfMemory);
        };
        self.header = None;
        payload.advance(5);
        body(front.tag, payload).map(Some)
    }

    /// How many bytes are missing to the header or to the frame at the front, of which so many are there: at least one,
    /// and at most 65,536.
    pub fn missing(&self, held: usize) -> usize
        ensures { result ≡ max 1 (min (missing_of self.now.header held) 65536) }
    {
        room(self.header, held).max(1)
    }

    /// Looks for the complete frames at the front of the bytes, and takes none. The header after them is remembered for
    /// the next call. The header of each frame is counted once; whoever reads the frames then reads it again.
    pub fn find_all(&mut self, bytes: &[u8]) -> Found
        requires { Fits self.old bytes.now }
        ensures { FindsAll bytes.now self.old self.new result }
    {
        let known = self.header;
        let first = match known {
            Some(header) => Some(header),
            None => header_of(bytes),
        };
        let found = whole_frames(first, bytes);
        let behind = header_behind(first, bytes, found.len);
        let read = found.count + count_of(behind) - count_of(known);
        self.header = behind;
        self.headers = self.headers.saturating_add(read as u64);
        found
    }

    /// The header at the front of the bytes, which is remembered from now on. It is read, and counted,
    /// only where it isn't remembered already.
    fn read(&mut self, bytes: &[u8]) -> Option<(u8, u32)>
        requires { Fits self.old bytes.now }
        ensures header { result ≡ header_of bytes.now }
        ensures memory { self.new ≡ record {
          header = header_of bytes.now;
          headers = headers_after self.old.header (header_of bytes.now) self.old.headers;
        } }
        ensures each { IsBytes bytes.now }
    {
        if self.header.is_none() && bytes.len() >= 5 {
            self.header = Some(head(bytes));
            self.headers = self.headers.saturating_add(1);
        }
        self.header
    }
}
