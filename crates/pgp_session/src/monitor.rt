//! A monitor between a server and its client.

ghost use Rattle.std.specs.Prelude.{◌≡◌, ◌++◌, ◌∷◌, [], ℕ, List, false, true, take, IfSome, OnErr};
ghost use Rattle.pgp_client.specs.declared.event.Event.{Event as Reported};
ghost use Rattle.pgp_client.specs.declared.kind.Kind.{Kind as Sent};
ghost use Rattle.pgp_client.specs.declared.request.Request.{Request as Wanted};
ghost use Rattle.pgp_client.specs.Taking.{Takes, is_end, taken};
ghost use Rattle.pgp_client.specs.Talk.{shown as talk_of};
ghost use Rattle.pgp_session.specs.Answered.{IsFront, HasNone, kind_of_fault};
ghost use Rattle.pgp_session.specs.Monitor.{Admits, Declines, Notes, Passes, Went, after_note, after_pass, begun, shown};

use bytes::BytesMut;
use pgp_base::{Error, Memory};
use pgp_client::{Asked, Dialogue, Event, Kind, Request};
use pgp_message::Messages;
use std::alloc::{AllocError, Global};
use std::collections::VecDeque;

/// Why nothing is let through.
#[derive(Debug, Clone, Copy, PartialEq, Eq)]
pub enum Stop {
    /// The message has no place among the answers to the requests that were noted, or the session is over.
    Misplaced,
    /// No whole message of a server stands at the front of the bytes.
    NoMessage,
    OutOfMemory,
}

/// A message that was let through.
#[derive(Debug, Clone, Copy, PartialEq, Eq)]
pub struct Passed {
    /// To which request it belongs, by the name that `note` gave it.
    pub event: Event,
    /// How many bytes it has.
    pub len: usize,
}

/// Stands between a server and its client: it takes note of the client's requests, and lets the server's messages through to what is to be
/// sent, where they belong to those requests by the grammar of the client's `Dialogue`.
#[derive(Drop)]
pub struct Monitor<A: Memory = Global> {
    pub(crate) dialogue: Dialogue<VecDeque<Asked, A>>,
    pub(crate) names: u64,
    /// Whether nothing was noted or sent.
    pub(crate) is_fresh: bool,
    pub(crate) is_over: bool,
    pub(crate) out: BytesMut<A>,
}

impl<A: Memory> Monitor<A> {
    /// A monitor of a session in which nothing came.
    pub fn new(alloc: A) -> Monitor<A>
        ensures is { shown result ≡ begun }
        ensures known { Went [] [] [] [] (shown result) }
    {
        Monitor {
            dialogue: Dialogue::new(alloc),
            names: 0,
            is_fresh: true,
            is_over: false,
            out: BytesMut::new(alloc),
        }
    }

    /// Whether nothing more is let through.
    pub fn is_over(&self) -> bool
        ensures { result ≡ (shown self.now).is_over }
    {
        self.is_over
    }

    /// The bytes to send.
    pub fn to_send(&self) -> &[u8]
        ensures { result.now ≡ (shown self.now).out }
    {
        self.out.as_slice()
    }

    /// Takes note that all bytes to send were sent.
    pub fn sent(&mut self)
        ensures is { shown self.new ≡ record { talk = (shown self.old).talk; names = (shown self.old).names; is_fresh = (shown self.old).is_fresh; is_over = (shown self.old).is_over; out = [] } }
        ensures known { (requests : List Wanted) (kinds : List Sent) (events : List Reported) (gone : List ℕ) → Went requests kinds events gone (shown self.old)
            → Went requests kinds events (gone ++ (shown self.old).out) (shown self.new) }
    {
        self.out.clear();
    }

    /// Answers a question for encryption with `N`, before the startup packet.
    ///
    /// # Errors
    ///
    /// Returns `Misplaced` after a request or a message, and after the end; `OutOfMemory` if what is to be sent can't grow. On error nothing changes.
    pub fn decline_encryption(&mut self) -> Result<(), Stop>
        ensures is { Declines A.Lacks (shown self.old) (shown self.new) result }
        ensures known { (requests : List Wanted) (kinds : List Sent) (events : List Reported) (gone : List ℕ) → Went requests kinds events gone (shown self.old)
            → Went requests kinds events gone (shown self.new) }
    {
        self.decline()
    }

    fn decline(&mut self) -> Result<(), Stop>
        ensures { Declines A.Lacks (shown self.old) (shown self.new) result }
    {
        if !self.is_fresh {
            return Err(Stop::Misplaced);
        }
        if self.is_over {
            return Err(Stop::Misplaced);
        }
        match A::append(&mut self.out, b"N") {
            Ok(()) => Ok(()),
            Err(_) => Err(Stop::OutOfMemory),
        }
    }

    /// Takes note of a request, and returns its name, which is its place among those that were noted, from 0 on; `None` of a Sync in a copy to
    /// the server, over which a server passes, and of what comes after the end: neither is noted.
    ///
    /// # Errors
    ///
    /// Returns `AllocError` if there is no memory for it, and after 2^64 - 1 requests. On error nothing changes.
    pub fn note(&mut self, request: Request) -> Result<Option<u64>, AllocError>
        ensures is { Notes A.Lacks request (shown self.old) (shown self.new) result }
        ensures known { (requests : List Wanted) (kinds : List Sent) (events : List Reported) (gone : List ℕ) → Went requests kinds events gone (shown self.old)
            → Went (after_note result request requests) kinds events gone (shown self.new) }
    {
        self.put_down(request)
    }

    fn put_down(&mut self, request: Request) -> Result<Option<u64>, AllocError>
        ensures { Notes A.Lacks request (shown self.old) (shown self.new) result }
    {
        if self.is_over {
            return Ok(None);
        }
        if is_sync(request) && self.dialogue.is_copying() {
            return Ok(None);
        }
        let name = self.names;
        if name == u64::MAX {
            return Err(AllocError);
        }
        match self.dialogue.ask(request, name) {
            Ok(()) => {
                self.names = name + 1;
                self.is_fresh = false;
                Ok(Some(name))
            }
            Err(_) => Err(AllocError),
        }
    }

    /// Lets the message through that stands at the front of the bytes, and returns to which request it belongs, and how long it is.
    ///
    /// # Errors
    ///
    /// What is to be sent is as it was, and nothing is let through from then on.
    ///
    /// - `Misplaced` if the grammar has no place for the message there, or it can't be attributed, and after the end.
    /// - `NoMessage` if the bytes begin with no whole message of a server.
    /// - `OutOfMemory` if what is to be sent can't grow.
    pub fn pass(&mut self, bytes: &[u8]) -> Result<Passed, Stop>
        ensures is { Passes A.Lacks bytes.now (shown self.old) (shown self.new) result }
        ensures known { (requests : List Wanted) (kinds : List Sent) (events : List Reported) (gone : List ℕ) → Went requests kinds events gone (shown self.old)
            → after_pass result requests kinds events gone (shown self.new) }
    {
        self.let_through(bytes)
    }

    fn let_through(&mut self, bytes: &[u8]) -> Result<Passed, Stop>
        ensures { Passes A.Lacks bytes.now (shown self.old) (shown self.new) result }
    {
        if self.is_over {
            return Err(Stop::Misplaced);
        }
        self.is_over = true;
        let Some((kind, len)) = front_of(bytes) else {
            return Err(Stop::NoMessage);
        };
        let event = match self.admit(kind) {
            Ok(event) => event,
            Err(e) => return Err(e),
        };
        match A::append(&mut self.out, &bytes[..len]) {
            Ok(()) => {
                self.is_fresh = false;
                self.is_over = is_end(event);
                Ok(Passed { event, len })
            }
            Err(_) => Err(Stop::OutOfMemory),
        }
    }

    /// Whether the message has its place, and which.
    fn admit(&mut self, kind: Kind) -> Result<Event, Stop>
        ensures { Admits kind (shown self.old) (shown self.new) result }
    {
        match self.dialogue.take(kind) {
            Ok(event) => Ok(event),
            Err(_) => Err(Stop::Misplaced),
        }
    }

    /// Ends the session: of what is to be sent the first bytes are left, so many at most, and nothing more is let through.
    pub fn end(&mut self, kept: usize)
        ensures is { shown self.new ≡ record { talk = (shown self.old).talk; names = (shown self.old).names; is_fresh = (shown self.old).is_fresh; is_over = true; out = take kept (shown self.old).out } }
        ensures known { (requests : List Wanted) (kinds : List Sent) (events : List Reported) (gone : List ℕ) → Went requests kinds events gone (shown self.old)
            → Went requests kinds events gone (shown self.new) }
    {
        self.out.truncate(kept);
        self.is_over = true;
    }
}

/// The kind and the length of the message at the front of the bytes; `None` where none stands there.
fn front_of(bytes: &[u8]) -> Option<(Kind, usize)>
    ensures some { IfSome result (λ front. IsFront bytes.now front.0 front.1) }
    ensures none { HasNone bytes.now result }
{
    let mut messages = Messages::new(bytes);
    match messages.next() {
        Ok(Some(message)) => {
            let kind = Kind::of(&message);
            drop(message);
            Some((kind, bytes.len() - messages.rest().len()))
        }
        Ok(None) => None,
        Err(why) => match kind_of_fault(&why) {
            Some(kind) => Some((kind, bytes.len() - messages.rest().len())),
            None => None,
        },
    }
}

/// The kind of a frame that was rejected so: one whose tag no `Message` has, and that has its place all the same.
fn kind_of_fault(why: &Error) -> Option<Kind>
    ensures { result ≡ kind_of_fault why.now }
{
    match why {
        Error::UnknownTag(tag) => Kind::of_tag(*tag),
        _ => None,
    }
}

fn is_sync(request: Request) -> bool
    ensures { result ≡ Rattle.pgp_client.specs.Taking.is_sync request }
{
    match request {
        Request::Sync => true,
        _ => false,
    }
}

/// Whether it ends the session.
fn is_end(event: Event) -> bool
    ensures { result ≡ is_end event }
{
    match event {
        Event::Ended => true,
        _ => false,
    }
}
