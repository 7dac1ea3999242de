//! Channels: what a session listens to, and the notifications that it sends itself.
//!
//! PostgreSQL manual, "LISTEN", "NOTIFY", "UNLISTEN".

ghost use Rattle.std.specs.Prelude.{◌≡◌};
ghost use Rattle.pgserve.specs.Sent.{Informs, Puts, notification};

use crate::fault::Fault;
use crate::outbox::Outbox;
use crate::script::Pair;
use pgp_message_write as reply;
use pgp_session::transaction::Status;
use std::alloc::Global;

/// What a transaction asks of a channel.
#[derive(Clone, Copy, PartialEq, Eq)]
pub(crate) enum Act {
    Listen,
    /// Of all channels where no name is given.
    Unlisten,
    Notify,
}

/// What is done when its transaction is committed.
#[derive(Drop)]
struct Asked {
    act: Act,
    /// The channel, and the text of a notification.
    pair: Pair,
    /// How many savepoints there were.
    depth: usize,
}

/// The channels of a session.
#[derive(Drop)]
pub(crate) struct Channels {
    listened: Vec<Vec<u8>>,
    asked: Vec<Asked>,
    /// Notifications that were committed, and not delivered yet.
    sent: Vec<Pair>,
}

/// Appends a notification of this process; the server's own is 1.
#[tactic(auto, unfolding(pgp_base::specs::Held::lengthened))]
pub(crate) fn put_notification(process: i32, pair: &Pair, out: &mut Outbox)
    ensures { Puts (notification process pair.now.name.items pair.now.value.items) out.old.bytes.items out.new.bytes.items out.new.fault }
{
    let (name, text) = (&pair.name, &pair.value);
    if let Err(why) = reply::notification_response(process, name, text, &mut out.bytes) {
        out.fail(Fault::from(why));
    }
}

impl Channels {
    pub(crate) fn new(alloc: Global) -> Channels {
        Channels {
            listened: Vec::new(alloc),
            asked: Vec::new(alloc),
            sent: Vec::new(alloc),
        }
    }

    /// Takes note of what is asked of a channel where so many savepoints are. A notification that was asked for already is none.
    pub(crate) fn ask(&mut self, act: Act, name: &str, text: &str, depth: usize, out: &mut Outbox) {
        let pair = Pair {
            name: out.copy(name.as_bytes()),
            value: out.copy(text.as_bytes()),
        };
        if act != Act::Notify || !self.notifies(&pair) {
            out.add(&mut self.asked, Asked { act, pair, depth });
        }
    }

    fn notifies(&self, pair: &Pair) -> bool {
        for asked in &self.asked {
            if asked.act == Act::Notify
                && asked.pair.name == pair.name
                && asked.pair.value == pair.value
            {
                return true;
            }
        }
        false
    }

    fn listens(&self, name: &[u8]) -> bool {
        for channel in &self.listened {
            if channel.as_slice() == name {
                return true;
            }
        }
        false
    }

    /// Listens no more to this channel, or to any.
    fn unlisten(&mut self, name: &[u8]) {
        self.listened
            .retain(|channel| !name.is_empty() && channel.as_slice() != name);
    }

    /// The transaction is committed.
    pub(crate) fn commit(&mut self, out: &mut Outbox)
        ensures { out.new.bytes ≡ out.old.bytes }
    {
        for place in 0..self.asked.len() {
            self.effect(place, out);
        }
        self.asked.clear();
    }

    /// Does what was asked for at this place.
    fn effect(&mut self, place: usize, out: &mut Outbox)
        ensures { out.new.bytes ≡ out.old.bytes }
    {
        let Some(asked) = self.asked.get(place) else {
            return;
        };
        let (act, name) = (asked.act, out.copy(&asked.pair.name));
        let value = out.copy(&asked.pair.value);
        match act {
            Act::Unlisten => self.unlisten(&name),
            Act::Listen if self.listens(&name) => {}
            Act::Listen => out.add(&mut self.listened, name),
            Act::Notify => out.add(&mut self.sent, Pair { name, value }),
        }
    }

    /// The transaction is rolled back, or the part of it where so many savepoints are.
    pub(crate) fn roll_back(&mut self, depth: usize) {
        self.asked.retain(|asked| asked.depth < depth);
    }

    /// What was asked for after a savepoint that is released belongs to what stands around it.
    pub(crate) fn release(&mut self, depth: usize) {
        for asked in self.asked.iter_mut() {
            asked.depth = asked.depth.min(depth);
        }
    }

    /// Outside of a transaction does what was asked for, and appends the notifications of channels to which the session listens.
    #[tactic(auto, using(crate::proofs::Informs::same, crate::proofs::Informs::behind_same))]
    pub(crate) fn settle(&mut self, status: Status, out: &mut Outbox)
        ensures { Informs out.old.bytes.items out.new.bytes.items }
    {
        if status == Status::Idle {
            self.commit(out);
            self.deliver(out);
            self.sent.clear();
        }
    }

    /// Appends the notifications of channels to which the session listens.
    fn deliver(&self, out: &mut Outbox)
        ensures { Informs out.old.bytes.items out.new.bytes.items }
    {
        for pair in &self.sent {
            if self.listens(&pair.name) {
                put_notification(1, pair, out);
            }
        }
    }
}
