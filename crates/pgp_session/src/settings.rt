//! The settings that a server reported of a session, each by its last report.

ghost use Rattle.std.specs.Prelude.{◌≡◌, ◌+◌, ◌-◌, ◌<◌, ◌≤◌, [], length, option_map, MatchOption, Some, IfErr, IfOk, OnErr, OnOk};
ghost use Rattle.std.specs.Cmp.Lexicographic.{slice_cmp};
ghost use Rattle.std.specs.Ordering.{nat_cmp};
ghost use Rattle.pgp_base.specs.Cause.{WantsMemory};
ghost use Rattle.pgp_message.specs.Parts.{Setting};
ghost use Rattle.pgp_message.specs.Views.{view};
ghost use Rattle.pgp_session.specs.Settings.{AreInOrder, IsPlace, Keeps, StandsAt, cost, cost_at, put_in, setting_in, value_of};

use crate::session_storage::SessionStorage;
use pgp_base::{Error, Memory};
use pgp_message::Message;
use std::alloc::{AllocError, Allocator};
use std::cmp::Ordering;
use std::marker::Model;

/// How many bytes a connection keeps at most of settings, each counted with `SETTING_COST`: a server reports some fifteen, of some hundred bytes.
pub(crate) const SETTINGS_MOST: usize = 65_536;

/// What a setting counts beside the bytes of its name and its value: what a list and two allocations take for it.
const SETTING_COST: usize = 128;

/// A setting, as it was reported. Its bytes are copies: shared ones would hold all bytes that came with the report.
#[derive(Drop)]
pub(crate) struct Entry<A: Allocator> {
    name: Vec<u8, A>,
    value: Vec<u8, A>,
}

impl<A: Allocator> Model for Entry<A> {
    ghost use Rattle.pgp_message.specs.Parts.{Setting};

    ghost Value = { Setting };

    ghost view = { λ entry. record { name = entry.name.items; value = entry.value.items } };
}

impl<A: Memory> Entry<A> {
    /// A copy of this name and this value.
    fn new(alloc: A, name: &[u8], value: &[u8]) -> Result<Entry<A>, Error>
        ensures ok { IfOk result (λ entry. entry ≡ record { name = name.now; value = value.now }) }
        ensures err { IfErr result (WantsMemory A.Lacks) }
    {
        let Ok(name) = alloc.list_of(name) else {
            return Err(Error::OutOfMemory);
        };
        let Ok(value) = alloc.list_of(value) else {
            return Err(Error::OutOfMemory);
        };
        Ok(Entry { name, value })
    }

    /// How its name stands to this one, byte by byte.
    fn compare(&self, name: &[u8]) -> Ordering
        ensures { result ≡ slice_cmp nat_cmp self.now.name name.now }
    {
        self.name.as_slice().cmp(name)
    }

    /// The value.
    fn value(&self) -> &[u8]
        ensures { result.now ≡ self.now.value }
    {
        self.value.as_slice()
    }

    /// What it leaves of this room.
    fn left(&self, room: usize) -> usize
        ensures { result ≡ room - cost self.now }
    {
        room.saturating_sub(SETTING_COST)
            .saturating_sub(self.name.len())
            .saturating_sub(self.value.len())
    }
}

/// The settings that a server reported, each by its last report.
#[derive(Drop)]
pub(crate) struct Settings<A: Memory> {
    /// In the order of their names.
    entries: Vec<Entry<A>, A>,
    /// What they take together.
    taken: usize,
}

impl<A: Memory> Model for Settings<A> {
    ghost use Rattle.std.specs.Prelude.{◌≡◌, List};
    ghost use Rattle.pgp_message.specs.Parts.{Setting};
    ghost use Rattle.std.specs.List.{sum_by};
    ghost use Rattle.pgp_session.specs.Settings.{AreInOrder, cost};

    ghost Value = { List Setting };

    ghost view = { λ s. s.entries.items };

    ghost invariant = { λ s. AreInOrder s.entries.items × (s.taken ≡ sum_by cost s.entries.items) };
}

impl<A: Memory> Settings<A> {
    /// None so far.
    pub(crate) fn new(alloc: A) -> Settings<A>
        ensures { result ≡ [] }
    {
        Settings {
            entries: Vec::new(alloc),
            taken: 0,
        }
    }

    /// The value that was last reported under this name.
    pub(crate) fn get(&self, name: &[u8]) -> Option<&[u8]>
        ensures { option_map (λ value. value.now) result ≡ value_of name.now self.now }
    {
        match place(&self.entries, name) {
            Ok(place) => Some(self.entries[place].value()),
            Err(_) => None,
        }
    }

    /// Keeps what the message reports, in the place of an earlier report of that name. All take at most `limit` bytes together, each with
    /// `SETTING_COST` more than its name and its value, so that no server makes a client hold more.
    ///
    /// # Errors
    ///
    /// On error nothing changes. `TooLarge` past the limit; `OutOfMemory`.
    pub(crate) fn keep<S: SessionStorage>(
        &mut self,
        alloc: A,
        limit: usize,
        message: &Message<S>,
    ) -> Result<(), Error>
        ensures { Keeps A.Lacks limit (setting_in (view message.now)) self.old self.new result }
    {
        match message {
            Message::ParameterStatus(body) => {
                self.put(alloc, limit, S::name(body), S::value(body))
            }
            _ => Ok(()),
        }
    }

    /// Keeps a setting.
    fn put(&mut self, alloc: A, limit: usize, name: &[u8], value: &[u8]) -> Result<(), Error>
        ensures { Keeps A.Lacks limit (Some (record { name = name.now; value = value.now })) self.old self.new result }
    {
        let place = place(&self.entries, name);
        let others = others(&self.entries, place, self.taken);
        let Some(left) = left(limit.saturating_sub(others), name, value) else {
            return Err(Error::TooLarge);
        };
        let entry = match Entry::new(alloc, name, value) {
            Ok(entry) => entry,
            Err(e) => return Err(e),
        };
        let Ok(()) = put_at(&mut self.entries, place, entry) else {
            return Err(Error::OutOfMemory);
        };
        self.taken = limit - left;
        Ok(())
    }
}

/// Where the setting of this name stands, or else where it has its place.
fn place<A: Memory>(entries: &[Entry<A>], name: &[u8]) -> Result<usize, usize>
    requires { AreInOrder entries.now }
    ensures { StandsAt name.now entries.now result }
{
    entries.binary_search_by(
        |entry: &Entry<A>| -> Ordering
            ensures { result ≡ slice_cmp nat_cmp entry.now.name name.entry.now }
        { entry.compare(name) },
    )
}

/// What the settings take but for the one that stands there, of what all take.
fn others<A: Memory>(entries: &[Entry<A>], place: Result<usize, usize>, taken: usize) -> usize
    requires { IsPlace place entries.now }
    ensures { (d : Setting) → result ≡ taken - cost_at place entries.now d }
{
    match place {
        Ok(place) => entries[place].left(taken),
        Err(_) => taken,
    }
}

/// Puts a setting in the place of the one that stands there, or between its neighbours.
fn put_at<A: Memory>(
    entries: &mut Vec<Entry<A>, A>,
    place: Result<usize, usize>,
    entry: Entry<A>,
) -> Result<(), AllocError>
    requires { IsPlace place entries.old.items }
    ensures ok { OnOk result (entries.new.items ≡ put_in place entry entries.old.items) }
    ensures err { OnErr result (entries.new.items ≡ entries.old.items) }
    ensures lacks { OnErr result A.Lacks }
{
    match place {
        Ok(place) => {
            entries[place] = entry;
            Ok(())
        }
        Err(place) => {
            A::push(entries, entry)?;
            entries[place..].rotate_right(1);
            Ok(())
        }
    }
}

/// What a setting leaves of this room, where it has room.
fn left(room: usize, name: &[u8], value: &[u8]) -> Option<usize>
    ensures { MatchOption result (room < cost (record { name = name.now; value = value.now })) (λ left. left + cost (record { name = name.now; value = value.now }) ≡ room) }
{
    room.checked_sub(SETTING_COST)?
        .checked_sub(name.len())?
        .checked_sub(value.len())
}
