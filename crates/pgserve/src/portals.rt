//! Prepared statements and portals, by their names.

use crate::bound::Given;
use crate::outbox::Outbox;
use crate::wording::Wording;
use pgp_base::Oid;
use std::alloc::Global;

/// A prepared statement.
#[derive(Drop)]
pub(crate) struct Plan {
    pub(crate) statement: Wording,
    /// The types of its parameters.
    pub(crate) types: Vec<Oid>,
}

/// A statement that is bound.
#[derive(Drop)]
pub(crate) struct Portal {
    pub(crate) statement: Wording,
    pub(crate) formats: Vec<i16>,
    /// The values of its parameters.
    pub(crate) values: Vec<Given>,
    /// How many rows were sent, once it was run.
    pub(crate) sent: Option<usize>,
    /// How many savepoints there were.
    pub(crate) depth: usize,
    pub(crate) life: Life,
}

/// When a portal ends.
#[derive(Clone, Copy, PartialEq, Eq)]
pub(crate) enum Life {
    /// With its transaction.
    Transaction,
    /// With its transaction if that is rolled back, and else with the session.
    Held,
    Session,
}

/// What a name stands for.
#[derive(Drop)]
pub(crate) struct Entry<T> {
    name: Vec<u8>,
    pub(crate) value: T,
}

/// What stands under names.
#[derive(Drop)]
pub(crate) struct Names<T> {
    entries: Vec<Entry<T>>,
}

impl<T: Drop> Names<T> {
    pub(crate) fn new(alloc: Global) -> Names<T> {
        Names {
            entries: Vec::new(alloc),
        }
    }

    fn place(&self, name: &[u8]) -> Option<usize> {
        for (place, entry) in self.entries.iter().enumerate() {
            if entry.name.as_slice() == name {
                return Some(place);
            }
        }
        None
    }

    pub(crate) fn find(&self, name: &[u8]) -> Option<&T> {
        let entry = self.entries.get(self.place(name)?)?;
        Some(&entry.value)
    }

    pub(crate) fn find_mut(&mut self, name: &[u8]) -> Option<&mut T> {
        let place = self.place(name)?;
        let entry = self.entries.get_mut(place)?;
        Some(&mut entry.value)
    }

    /// Forgets what stands under the name.
    pub(crate) fn remove(&mut self, name: &[u8]) {
        if let Some(place) = self.place(name) {
            if place < self.entries.len() {
                drop(self.entries.swap_remove(place));
            }
        }
    }

    /// Puts the value under the name, in the place of what stood there.
    pub(crate) fn put(&mut self, name: &[u8], value: T, out: &mut Outbox) {
        self.remove(name);
        let name = out.copy(name);
        out.add(&mut self.entries, Entry { name, value });
    }

    /// Forgets all.
    pub(crate) fn clear(&mut self) {
        self.entries.clear();
    }

    /// Forgets all but what stands under the empty name.
    pub(crate) fn keep_unnamed(&mut self) {
        self.entries.retain(|entry| entry.name.is_empty());
    }
}

impl Names<Portal> {
    /// A transaction is committed: the cursors that are held stay.
    pub(crate) fn commit(&mut self) {
        self.entries
            .retain(|entry| entry.value.life != Life::Transaction);
        for entry in self.entries.iter_mut() {
            entry.value.life = Life::Session;
            entry.value.depth = 0;
        }
    }

    /// A transaction is rolled back.
    pub(crate) fn roll_back(&mut self) {
        self.entries
            .retain(|entry| entry.value.life == Life::Session);
    }

    /// Portals that were bound after a savepoint belong to what stands around it.
    pub(crate) fn keep_at(&mut self, depth: usize) {
        for entry in self.entries.iter_mut() {
            entry.value.depth = entry.value.depth.min(depth);
        }
    }

    /// Portals that were bound where there were so many savepoints end.
    pub(crate) fn end_from(&mut self, depth: usize) {
        self.entries.retain(|entry| entry.value.life == Life::Session || entry.value.depth < depth);
    }
}
