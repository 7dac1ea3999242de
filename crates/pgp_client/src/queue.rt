//! Where a dialogue keeps the requests whose answers are to come.

ghost use Rattle.std.specs.Prelude.{◌≡◌, ◌++◌, ◌∷◌, [], ℕ, List, None, OnErr, OnOk, option_to_list, length};
ghost use Rattle.pgp_client.specs.Ending.{first_name};
ghost use Rattle.pgp_client.specs.Taking.{awaits_none, first_in, has_end, starts_with_sync};
ghost use Rattle.pgp_client.specs.declared.request.Asked.{Asked as Item};

use crate::request::{Asked, awaits_none, first_answered, has_end, is_sync};
use pgp_base::Memory;
use std::collections::VecDeque;

/// A queue of requests, in memory of its own or of the caller's.
pub trait Queue {
    /// The requests, the first first.
    ghost items: { Self → List Item };

    /// How many requests there is room for in a caller's memory: that stays as it is.
    ghost room: { Self → ℕ };

    /// Why a request isn't taken.
    ghost Refuses: { Self → Type 0 };

    /// Adds a request after the others, and returns whether it did. Otherwise nothing changes.
    fn push(&mut self, asked: Asked) -> Result<(), Full>
        ensures ok { OnOk result (items self.new ≡ items self.old ++ asked ∷ []) }
        ensures err { OnErr result (items self.new ≡ items self.old) }
        ensures full { OnErr result (Refuses self.old) }
        ensures room { room self.new ≡ room self.old };

    /// Takes the first request.
    fn pop(&mut self) -> Option<Asked>
        ensures first { items self.old ≡ option_to_list result ++ items self.new }
        ensures none { result ≡ None → items self.new ≡ [] }
        ensures room { room self.new ≡ room self.old };

    /// Whether none of them awaits an answer: all are ends of copies.
    fn awaits_none(&self) -> bool
        ensures { result ≡ awaits_none (items self.now) };

    /// Whether an end of a copy's data is among them.
    fn has_end(&self) -> bool
        ensures { result ≡ has_end (items self.now) };

    /// Whether the first is a Sync.
    fn starts_with_sync(&self) -> bool
        ensures { result ≡ starts_with_sync (items self.now) };

    /// The name of the first that is answered, where the server is after an error or after none; `None` where it passes over all of them.
    fn first_answered(&self, skipping: bool) -> Option<u64>
        ensures { result ≡ first_name (first_in skipping (items self.now)) };
}

/// There is no room, or no memory, for another request.
#[derive(Debug, Clone, Copy, PartialEq, Eq)]
pub struct Full;

impl<A: Memory> Queue for VecDeque<Asked, A> {
    ghost items = { λ q. q.items };

    ghost room = { λ q. 0 };

    ghost Refuses = { λ q. A.Lacks };

    fn push(&mut self, asked: Asked) -> Result<(), Full> {
        match A::push_back(self, asked) {
            Ok(()) => Ok(()),
            Err(_) => Err(Full),
        }
    }

    fn pop(&mut self) -> Option<Asked> {
        self.pop_front()
    }

    fn awaits_none(&self) -> bool {
        let (first, second) = self.as_slices();
        if !awaits_none(first) {
            return false;
        }
        awaits_none(second)
    }

    fn has_end(&self) -> bool {
        let (first, second) = self.as_slices();
        if has_end(first) {
            return true;
        }
        has_end(second)
    }

    fn starts_with_sync(&self) -> bool {
        match self.front() {
            Some(asked) => is_sync(asked.request),
            None => false,
        }
    }

    fn first_answered(&self, skipping: bool) -> Option<u64> {
        let (first, second) = self.as_slices();
        match first_answered(first, skipping) {
            Some(name) => Some(name),
            None => first_answered(second, skipping),
        }
    }
}
