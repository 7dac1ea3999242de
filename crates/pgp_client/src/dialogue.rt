//! A client's requests and a server's messages.

ghost use Rattle.std.specs.Prelude.{◌≡◌, ◌++◌, ◌∷◌, [], OnOk, OnErr};
ghost use Rattle.pgp_client.specs.Ending.{first_open};
ghost use Rattle.pgp_client.specs.Talk.{shown};
ghost use Rattle.pgp_client.specs.Telling.{start};
ghost use Rattle.pgp_client.specs.Taking.{Moves, Takes, asked, begun, behind_copy, awaits_data, completes, copied, fails, first_in, follows, goes, observed, observed_at, is_between, is_copying, is_idle, ready, starts_with_sync, taken};

use crate::bulk::goes_on;
use crate::event::{Event, Refusal};
use crate::kind::Kind;
use crate::pending::{ends_copy, next_in};
use crate::queue::{Full, Queue};
use crate::request::{Asked, Request};
use crate::stage::{Stage, begins, event_of, follows};
use pgp_base::Memory;
use std::collections::VecDeque;
use std::marker::Model;

/// Says which of a server's messages belongs to which of a client's requests.
///
/// A client asks each request in the order in which it sends them, before it takes a message that answers one of them, and takes all
/// messages of the server in the order in which they come; when it asks besides changes nothing. Every request ends
/// once, in the order in which they are asked: with its `Last`, or because the server passes over it, after an error or in a copy; then nothing is reported of it.
/// `first_open` says which have ended.
///
/// Where an Execute or a Query may ask for the data of a copy, a Sync is best sent after the CopyDone or CopyFail, and a Flush before
/// it: a server passes over a Sync while it awaits the data, and where such a copy fails nobody can know whether it did. `take` then
/// rejects the error as `Uncertain`, and the connection is to be closed.
#[derive(Drop)]
pub struct Dialogue<Q: Queue = VecDeque<Asked>> {
    stage: Stage,
    /// The name of the request under way.
    name: u64,
    pending: Q,
}

impl<Q: Queue> Model for Dialogue<Q> {
    ghost use Rattle.pgp_client.specs.Talk.{Kept};

    ghost Value = { Kept Q };

    ghost view = { λ d. record { stage = d.stage; name = d.name; pending = d.pending } };
}

impl<A: Memory> Dialogue<VecDeque<Asked, A>> {
    /// A dialogue in which nothing was asked, with a queue in memory of this allocator.
    pub fn new(alloc: A) -> Dialogue<VecDeque<Asked, A>>
        ensures { shown (λ q. q.items) result ≡ start }
    {
        Dialogue {
            stage: Stage::Idle,
            name: 0,
            pending: VecDeque::new(alloc),
        }
    }
}

impl<Q: Queue> Dialogue<Q> {
    /// A dialogue in which nothing was asked, with this queue, which is empty.
    pub fn over(pending: Q) -> Dialogue<Q>
        requires { Q.items pending ≡ [] }
        ensures { shown Q.items result ≡ start }
    {
        Dialogue {
            stage: Stage::Idle,
            name: 0,
            pending,
        }
    }

    /// A dialogue that goes on from this stage: the request under way has this name, and these are pending.
    pub fn resume(stage: Stage, name: u64, pending: Q) -> Dialogue<Q>
        ensures { result ≡ record { stage = stage; name = name; pending = pending } }
    {
        Dialogue {
            stage,
            name,
            pending,
        }
    }

    /// The stage, the name of the request under way, and the requests that are pending: what `resume` goes on from.
    pub fn into_parts(self) -> (Stage, u64, Q)
        ensures { self ≡ record { stage = result.0; name = result.1; pending = result.2 } }
    {
        (self.stage, self.name, self.pending)
    }

    /// Whether no request awaits an answer, and no Sync is awaited after an error.
    pub fn is_idle(&self) -> bool
        ensures { result ≡ is_idle (shown Q.items self.now) }
    {
        self.stage == Stage::Idle && self.pending.awaits_none()
    }

    /// Whether no answer is under way, so that the next message begins one, and no Sync is awaited after an error.
    pub fn is_between(&self) -> bool
        ensures { result ≡ is_between (shown Q.items self.now) }
    {
        Stage::Idle == self.stage
    }

    /// Whether a copy to the server is under way, so that its data may be sent.
    pub fn is_copying(&self) -> bool
        ensures { result ≡ is_copying (shown Q.items self.now) }
    {
        match self.stage {
            Stage::CopyingIn | Stage::TakingCopy => true,
            _ => false,
        }
    }

    /// Whether a copy to the server is under way whose data the client hasn't ended: until it does, the server takes nothing but these data, their
    /// end, Sync and Flush.
    pub fn awaits_data(&self) -> bool
        ensures { result ≡ awaits_data (shown Q.items self.now) }
    {
        if !self.is_copying() {
            return false;
        }
        !self.pending.has_end()
    }

    /// The name of the first request that is to end; `None` where all that were asked have ended. All that were asked before it have ended: of each the
    /// last message was reported (`Event::Last`), or the server passes over it, and nothing will be. So of requests whose names rise those below this
    /// one have ended. It changes where `Last` or `Ended` is reported, or a message is rejected; and a request that is asked behind an error, of which
    /// none is answered before a Sync, has ended at once.
    pub fn first_open(&self) -> Option<u64>
        ensures { result ≡ first_open (shown Q.items self.now) }
    {
        match self.stage {
            Stage::Idle => self.pending.first_answered(false),
            Stage::Skipping => self.pending.first_answered(true),
            Stage::Over => None,
            _ => Some(self.name),
        }
    }

    /// Takes note of a request, in the order in which they are sent. The events of its answer tell this name.
    ///
    /// # Errors
    ///
    /// Returns `Full` if the queue takes no more. On error nothing changes.
    pub fn ask(&mut self, request: Request, name: u64) -> Result<(), Full>
        ensures ok { OnOk result (shown Q.items self.new ≡ asked (shown Q.items self.old) (record { request = request; name = name })) }
        ensures err { OnErr result (shown Q.items self.new ≡ shown Q.items self.old) }
        ensures full { OnErr result (Q.Refuses self.old.pending) }
        ensures room { Q.room self.new.pending ≡ Q.room self.old.pending }
    {
        self.pending.push(Asked { request, name })
    }

    /// Takes the server's next message, and says to which request it belongs.
    ///
    /// # Errors
    ///
    /// From then on no message is given to a request.
    ///
    /// - `Unexpected` if a message of this kind has no place there.
    /// - `Uncertain` if a copy to the server fails, and a Sync was asked before the end of its data.
    // The hint carries the speed of rows and of a copy's data, which come by the thousand: its caller, who knows the kind, then has
    // two comparisons in the place of a call.
    #[inline(always)]
    pub fn take(&mut self, kind: Kind) -> Result<Event, Refusal>
        ensures taken { Takes (taken (shown Q.items self.old) kind) result (shown Q.items self.new) }
        ensures room { Q.room self.new.pending ≡ Q.room self.old.pending }
    {
        if goes_on(self.stage, kind) {
            return Ok(Event::Part(self.name));
        }
        self.take_other(kind)
    }

    /// The server's next message, of whatever kind.
    fn take_other(&mut self, kind: Kind) -> Result<Event, Refusal>
        ensures taken { Takes (taken (shown Q.items self.old) kind) result (shown Q.items self.new) }
        ensures room { Q.room self.new.pending ≡ Q.room self.old.pending }
    {
        if kind.is_aside() {
            return Ok(Event::Aside);
        }
        self.advance();
        self.hear(kind)
    }

    /// Goes on to the next request that is answered, where none is under way.
    fn advance(&mut self)
        ensures ready { shown Q.items self.new ≡ ready (shown Q.items self.old) }
        ensures room { Q.room self.new.pending ≡ Q.room self.old.pending }
    {
        match self.stage {
            Stage::Idle => self.begin(false),
            Stage::Skipping => self.begin(true),
            _ => {}
        }
    }

    /// The next request that is answered is under way, if there is one.
    fn begin(&mut self, skipping: bool)
        ensures begun { shown Q.items self.new ≡ begun self.old.stage self.old.name (first_in skipping (Q.items self.old.pending)) }
        ensures room { Q.room self.new.pending ≡ Q.room self.old.pending }
    {
        if let Some(next) = next_in(&mut self.pending, skipping) {
            self.stage = begins(next.request);
            self.name = next.name;
        }
    }

    /// The message, where a request is under way.
    fn hear(&mut self, kind: Kind) -> Result<Event, Refusal>
        ensures taken { Takes (observed (shown Q.items self.old) kind) result (shown Q.items self.new) }
        ensures room { Q.room self.new.pending ≡ Q.room self.old.pending }
    {
        match observed_at(self.stage, &mut self.pending, kind) {
            Ok(stage) => {
                self.stage = stage;
                Ok(event_of(stage, self.name))
            }
            Err(e) => {
                self.stage = Stage::Over;
                Err(e)
            }
        }
    }
}

/// The stage after the message. At the end of a copy to the server the requests that belong to it are dropped.
fn observed_at<Q: Queue>(stage: Stage, pending: &mut Q, kind: Kind) -> Result<Stage, Refusal>
    ensures moves { Moves (observed_at stage (Q.items pending.old) kind) result (Q.items pending.new) }
    ensures room { Q.room pending.new ≡ Q.room pending.old }
{
    match stage {
        Stage::CopyingIn => copied(Stage::Answering, Stage::Failed, pending, kind),
        Stage::TakingCopy => copied(Stage::Idle, Stage::Skipping, pending, kind),
        _ => goes(stage, pending, kind),
    }
}

/// The stage after the message, in no copy to the server.
fn goes<Q: Queue>(stage: Stage, pending: &Q, kind: Kind) -> Result<Stage, Refusal>
    ensures { Moves (goes (follows stage kind) (Q.items pending.now)) result (Q.items pending.now) }
{
    match follows(stage, kind) {
        Some(stage) => Ok(stage),
        None => Err(Refusal::Unexpected),
    }
}

/// The stage after the message, in a copy to the server.
fn copied<Q: Queue>(
    done: Stage,
    failed: Stage,
    pending: &mut Q,
    kind: Kind,
) -> Result<Stage, Refusal>
    ensures moves { Moves (copied done failed (Q.items pending.old) kind) result (Q.items pending.new) }
    ensures room { Q.room pending.new ≡ Q.room pending.old }
{
    match kind {
        Kind::CommandComplete => completes(done, pending),
        Kind::ErrorResponse => fails(failed, pending),
        _ => Err(Refusal::Unexpected),
    }
}

fn completes<Q: Queue>(done: Stage, pending: &mut Q) -> Result<Stage, Refusal>
    ensures moves { Moves (completes done (behind_copy (Q.items pending.old))) result (Q.items pending.new) }
    ensures room { Q.room pending.new ≡ Q.room pending.old }
{
    if ends_copy(pending) {
        return Ok(done);
    }
    Err(Refusal::Unexpected)
}

fn fails<Q: Queue>(failed: Stage, pending: &Q) -> Result<Stage, Refusal>
    ensures { Moves (fails failed (starts_with_sync (Q.items pending.now)) (Q.items pending.now)) result (Q.items pending.now) }
{
    if pending.starts_with_sync() {
        return Err(Refusal::Uncertain);
    }
    Ok(failed)
}
