//! The requests whose answers aren't complete.

ghost use Rattle.std.specs.Prelude.{◌≡◌, ◌++◌, ◌∷◌, [], nat_lt, slice_get, OnErr, OnOk};
ghost use Rattle.std.specs.Option.{option_map};
ghost use Rattle.pgtrace_summary.specs.Summary.{first_of, given, gives, is_ended, is_first_before, is_first_ended, last_given, skipped, taken};

use crate::memory::MapMemory;
use crate::work::{Reply, Work, ends};
use pgp_base::Memory;
use std::alloc::{AllocError, Allocator};
use std::collections::VecDeque;
use std::marker::Model;

/// A request, by its number: a Query's text, a Parse's statement and text, a Bind's portal and statement, or an Execute's portal.
#[derive(Drop)]
pub(crate) struct Asked<A: Allocator> {
    pub(crate) number: u64,
    pub(crate) work: Work,
    pub(crate) first: Vec<u8, A>,
    pub(crate) second: Vec<u8, A>,
}

impl<A: Allocator> Model for Asked<A> {
    ghost use Rattle.pgtrace_summary.specs.Summary.{Request};

    ghost Value = { Request };

    ghost view = { λ x. record { number = x.number; work = x.work; first = x.first.items; second = x.second.items } };
}

impl<A: MapMemory> Asked<A> {
    /// Whether it was sent before that of this number.
    fn is_before(&self, number: u64) -> bool
        ensures { result ≡ nat_lt self.now.number number }
    {
        self.number < number
    }

    /// Whether it has this number, and this ends its answer.
    fn is_ended(&self, number: u64, reply: Reply) -> bool
        ensures { result ≡ is_ended number reply self.now }
    {
        self.number == number && ends(self.work, reply)
    }

    /// Whether it gives this name something, once it is ended so.
    fn gives(&self, reply: Reply, name: &[u8]) -> bool
        ensures { result ≡ gives reply name.now self.now }
    {
        ends(self.work, reply) && self.first.as_slice() == name
    }
}

/// Adds a request.
pub(crate) fn push<A: MapMemory>(
    asked: Asked<A>,
    waiting: &mut VecDeque<Asked<A>, A>,
) -> Result<(), AllocError>
    ensures pushed { OnOk result (waiting.new.items ≡ waiting.old.items ++ asked ∷ []) }
    ensures same { OnErr result (waiting.new.items ≡ waiting.old.items) }
    ensures lacks { OnErr result A.Lacks }
{
    A::push_back(waiting, asked)?;
    Ok(())
}

/// Lets those go that were sent before that of this number: the server has passed them over.
pub(crate) fn skip<A: MapMemory>(number: u64, waiting: &mut VecDeque<Asked<A>, A>)
    ensures { waiting.new.items ≡ skipped number waiting.old.items }
{
    'each: while is_first_before(number, waiting) {
        drop(waiting.pop_front());
    }
}

/// Whether the first was sent before that of this number.
fn is_first_before<A: MapMemory>(number: u64, waiting: &VecDeque<Asked<A>, A>) -> bool
    ensures { result ≡ is_first_before number waiting.now.items }
{
    match waiting.front() {
        Some(asked) => asked.is_before(number),
        None => false,
    }
}

/// The first, if it has this number.
pub(crate) fn first_of<A: MapMemory>(
    number: u64,
    waiting: &VecDeque<Asked<A>, A>,
) -> Option<&Asked<A>>
    ensures { option_map (λ asked. asked.now) result ≡ first_of number waiting.now.items }
{
    match waiting.front() {
        Some(asked) if asked.number == number => Some(asked),
        _ => None,
    }
}

/// Takes the first, if it has this number and this ends its answer.
pub(crate) fn take<A: MapMemory>(
    number: u64,
    reply: Reply,
    waiting: &mut VecDeque<Asked<A>, A>,
) -> Option<Asked<A>>
    ensures { (result, waiting.new.items) ≡ taken number reply waiting.old.items }
{
    if is_first_ended(number, reply, waiting) {
        waiting.pop_front()
    } else {
        None
    }
}

/// Whether the first has this number, and this ends its answer.
fn is_first_ended<A: MapMemory>(number: u64, reply: Reply, waiting: &VecDeque<Asked<A>, A>) -> bool
    ensures { result ≡ is_first_ended number reply waiting.now.items }
{
    match waiting.front() {
        Some(asked) => asked.is_ended(number, reply),
        None => false,
    }
}

/// The place of the last of the first requests, so many, that gives this name something once it is ended so, and what it gives.
pub(crate) fn last_given<'a, A: MapMemory>(
    reply: Reply,
    name: &[u8],
    count: usize,
    waiting: &'a VecDeque<Asked<A>, A>,
) -> Option<(usize, &'a [u8])>
    ensures { option_map (λ x. (x.0, x.1.now)) result ≡ last_given reply name.now count waiting.now.items }
{
    let mut behind = count;
    'back: while behind > 0 {
        behind -= 1;
        if let Some(text) = given(reply, name, behind, waiting) {
            return Some((behind, text));
        }
    }
    None
}

/// What the request at this place gives the name.
fn given<'a, A: MapMemory>(
    reply: Reply,
    name: &[u8],
    place: usize,
    waiting: &'a VecDeque<Asked<A>, A>,
) -> Option<&'a [u8]>
    ensures { option_map (λ text. text.now) result ≡ given reply name.now (slice_get waiting.now.items place) }
{
    match waiting.get(place) {
        Some(asked) if asked.gives(reply, name) => Some(asked.second.as_slice()),
        _ => None,
    }
}
