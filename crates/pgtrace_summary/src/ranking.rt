//! The order of a table.

ghost use Rattle.std.specs.Prelude.{◌≡◌, ◌++◌, slice_get, IfOk, OnErr, OnOk};
ghost use Rattle.std.specs.List.{flat_map};
ghost use Rattle.pgtrace_summary.specs.Places.{Fits, FitsAt, key, key_at, picked, tallies_of};
ghost use Rattle.pgtrace_summary.specs.Runs.{ranked, sum_of};

use crate::entry::{Entry, Ran, entry_at, plus};
use crate::memory::MapMemory;
use crate::names::Names;
use std::alloc::AllocError;

/// The keys of all statements in ascending order.
pub(crate) fn sorted_keys<A: MapMemory>(
    alloc: A,
    entries: &Names<Ran<A>, A>,
) -> Result<Vec<u128, A>, AllocError>
    ensures ranked { IfOk result (λ keys. flat_map (picked (tallies_of entries.now)) keys.items ≡ ranked (tallies_of entries.now)) }
    ensures lacks { OnErr result A.Lacks }
{
    let mut keys = Vec::new(alloc);
    'each: for place in 0..entries.len() {
        put_key(place, entries, &mut keys)?;
    }
    keys.sort_unstable();
    Ok(keys)
}

/// Adds the key of the statement at this place.
fn put_key<A: MapMemory>(
    place: usize,
    entries: &Names<Ran<A>, A>,
    keys: &mut Vec<u128, A>,
) -> Result<(), AllocError>
    ensures added { OnOk result (keys.new.items ≡ keys.old.items ++ key_at place (slice_get (tallies_of entries.now) place)) }
    ensures fits { FitsAt place (slice_get (tallies_of entries.now) place) }
    ensures lacks { OnErr result A.Lacks }
{
    if let Some(entry) = entry_at(entries, place) {
        A::push(keys, key(entry.total(), place))?;
    }
    Ok(())
}

/// The key of a statement with this total at this place: the greater the total, and the earlier the place, the less it is.
fn key(total: u64, place: usize) -> u128
    ensures key { result ≡ key total place }
    ensures fits { Fits total place }
{
    u128::from(u64::MAX - total) * STEP + place as u128
}

const STEP: u128 = 1 << 64;

/// The statements of these keys.
pub(crate) fn entries_by<'a, A: MapMemory>(
    alloc: A,
    keys: &[u128],
    entries: &'a Names<Ran<A>, A>,
) -> Result<Vec<Entry<'a, A>, A>, AllocError>
    ensures picked { IfOk result (λ list. list.items ≡ flat_map (picked (tallies_of entries.now)) keys.now) }
    ensures lacks { OnErr result A.Lacks }
{
    let mut list = Vec::new(alloc);
    let mut rest = keys;
    'keys: while let Some((key, behind)) = rest.split_first() {
        if let Some(entry) = entry_at(entries, (*key % STEP) as usize) {
            A::push(&mut list, entry)?;
        }
        rest = behind;
    }
    Ok(list)
}

/// The sum of their totals, at most `u64::MAX`.
#[tactic(auto, using(crate::proofs::Ranks::sum_next))]
pub fn sum_of<A: MapMemory>(entries: &[Entry<'_, A>]) -> u64
    ensures { result ≡ sum_of entries.now }
{
    let mut sum = 0;
    for entry in entries {
        sum = plus(sum, entry.total());
    }
    sum
}
