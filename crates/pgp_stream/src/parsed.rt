//! What was read of a whole stream.

ghost use Rattle.std.specs.Prelude.{◌≡◌, map};
ghost use Rattle.pgp_message.specs.Views.{seen};

use bytes::Bytes;
use pgp_base::Error;
use pgp_message::Message;
use std::alloc::{Allocator, Global};
use std::marker::Model;

/// What a server's stream says.
#[derive(Drop)]
pub struct Parsed<A: Allocator = Global> {
    results: Vec<Result<Message<Bytes<A>>, Error>, A>,
    stopped: bool,
    rest: Vec<u8, A>,
}

impl<A: Allocator> Model for Parsed<A> {
    ghost use Rattle.std.specs.Prelude.{map};
    ghost use Rattle.pgp_message.specs.Views.{seen};
    ghost use Rattle.pgp_stream.specs.ServerStream.{Reported};

    ghost Value = { Reported };

    ghost view = { λ p. record { results = map seen p.results.items; stopped = p.stopped; rest = p.rest.items } };
}

impl<A: Allocator + Copy> Parsed<A> {
    pub(crate) fn new(
        results: Vec<Result<Message<Bytes<A>>, Error>, A>,
        stopped: bool,
        rest: Vec<u8, A>,
    ) -> Parsed<A>
        ensures { result ≡ record { results = map seen results.items; stopped = stopped; rest = rest.items } }
    {
        Parsed {
            results,
            stopped,
            rest,
        }
    }

    /// The messages and errors, one for each frame.
    pub fn results(&self) -> &[Result<Message<Bytes<A>>, Error>]
        ensures { map seen result.now ≡ self.now.results }
    {
        self.results.as_slice()
    }

    /// Whether a length fault ended the stream. It is no result.
    pub fn stopped(&self) -> bool
        ensures { result ≡ self.now.stopped }
    {
        self.stopped
    }

    /// The bytes that are left to read.
    pub fn rest(&self) -> &[u8]
        ensures { result.now ≡ self.now.rest }
    {
        self.rest.as_slice()
    }
}
