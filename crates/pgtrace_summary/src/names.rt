//! What is known under names.

ghost use Rattle.std.specs.Prelude.{◌≡◌, [], length, slice_get, None, Some, IfErr, IfOk, OnErr, OnOk};
ghost use Rattle.std.specs.Option.{option_copied, option_map};
ghost use Rattle.pgtrace_summary.specs.Names.{found, put, without};

use crate::memory::MapMemory;
use indexmap::IndexMap;
use pgp_base::Memory;
use std::alloc::AllocError;
use std::hash::{BuildHasherDefault, FoldHasher};
use std::marker::Model;
use std::mem;

/// What is known under names, in the order in which the names came. To find one takes the same time however many there are.
#[derive(Drop)]
pub struct Names<V, A: MapMemory> {
    map: IndexMap<Vec<u8, A>, V, BuildHasherDefault<FoldHasher>, A>,
}

impl<V, A: MapMemory> Model for Names<V, A> {
    ghost use Rattle.std.specs.Prelude.{ℕ, List};
    ghost use Rattle.pgtrace_summary.specs.Names.{read};

    ghost Value = { List (List ℕ × V) };

    ghost view = { λ x. read (λ k. k.items) x.map.entries };
}

impl<V, A: MapMemory> Names<V, A> {
    /// Nothing under no names.
    pub fn new(alloc: A) -> Names<V, A>
        ensures { result ≡ [] }
    {
        Names {
            map: IndexMap::new(alloc),
        }
    }

    /// What has this name.
    pub fn get(&self, name: &[u8]) -> Option<&V>
        ensures { option_copied result ≡ found name.now self.now }
    {
        self.map.get(name)
    }

    /// Gives something a name, in the place of what had it.
    ///
    /// # Errors
    ///
    /// Returns `AllocError` if there is no memory for it.
    pub fn put(&mut self, name: &[u8], value: V) -> Result<(), AllocError>
    where
        V: Drop,
        ensures put { OnOk result (self.new ≡ put name.now value self.old) }
        ensures lacks { OnErr result A.Lacks }
    {
        let alloc = *self.map.allocator();
        let key = alloc.list_of(name)?;
        A::insert(&mut self.map, key, value)?;
        Ok(())
    }

    /// Lets what has a name go.
    pub fn forget(&mut self, name: &[u8])
    where
        V: Drop,
        ensures { self.new ≡ without name.now self.old }
    {
        let _ = self.map.swap_remove(name);
    }

    /// Lets all go.
    pub fn clear(&mut self)
    where
        V: Drop,
        ensures { self.new ≡ [] }
    {
        self.map.clear();
    }

    /// Puts something in the place of what has this name, and returns that.
    ///
    /// # Errors
    ///
    /// Returns it, where nothing has the name.
    pub fn swap(&mut self, name: &[u8], value: V) -> Result<V, V>
        ensures put { OnOk result (self.new ≡ put name.now value self.old) }
        ensures had { IfOk result (λ had. found name.now self.old ≡ Some had) }
        ensures back { IfErr result (λ back. back ≡ value) }
        ensures same { OnErr result (self.new ≡ self.old) }
        ensures unknown { OnErr result (found name.now self.old ≡ None) }
    {
        match self.map.get_mut(name) {
            Some(place) => Ok(mem::replace(place, value)),
            None => Err(value),
        }
    }

    /// How many names there are.
    pub fn len(&self) -> usize
        ensures { result ≡ length self.now }
    {
        self.map.len()
    }

    /// The name at this place, and what has it.
    pub fn at(&self, place: usize) -> Option<(&[u8], &V)>
        ensures { option_map (λ x. (x.0.now, x.1.now)) result ≡ slice_get self.now place }
    {
        match self.map.get_index(place) {
            Some((name, value)) => Some((name.as_slice(), value)),
            None => None,
        }
    }
}
