//! What a statement came to.

ghost use Rattle.std.specs.Prelude.{◌≡◌, ◌+◌, ◌/◌, get_or, slice_get, IfOk, OnErr, OnOk};
ghost use Rattle.std.specs.Option.{option_to_list};
ghost use Rattle.pgtrace_summary.specs.Runs.{ascending, capped, line_of, median_of, share_of, tallied, tally_after};
ghost use Rattle.pgtrace_summary.specs.Places.{more_of, no_run, tallies_of, tally_of};

use crate::memory::MapMemory;
use crate::names::Names;
use pgp_base::Memory;
use std::alloc::{AllocError, Allocator};
use std::marker::Model;

/// The rows of all runs of a statement, the time that each run took, in microseconds, the sum of these, and how many errors there were.
#[derive(Drop)]
pub(crate) struct Ran<A: Allocator> {
    rows: u64,
    times: Vec<u64, A>,
    total: u64,
    errors: u64,
}

impl<A: Allocator> Model for Ran<A> {
    ghost use Rattle.pgtrace_summary.specs.Places as spec;

    ghost Value = { spec.Ran };

    ghost view = { λ x. record { rows = x.rows; times = x.times.items; total = x.total; errors = x.errors } };
}

/// A statement that ran.
#[derive(Drop)]
pub struct Entry<'a, A: Allocator> {
    text: &'a [u8],
    ran: &'a Ran<A>,
}

impl<'a, A: Allocator> Model for Entry<'a, A> {
    ghost use Rattle.pgtrace_summary.specs.Runs.{Tally};

    ghost Value = { Tally };

    ghost view = { λ x. record { text = x.text.now; rows = x.ran.now.rows; times = x.ran.now.times; total = x.ran.now.total; errors = x.ran.now.errors } };
}

/// What requests add: the rows of their runs, the microseconds that each took which is over, the sum of these, and errors.
#[derive(Debug, Drop)]
pub(crate) struct More<'a> {
    pub(crate) rows: u64,
    pub(crate) times: &'a [u64],
    pub(crate) total: u64,
    pub(crate) errors: u64,
}

impl<'a> Model for More<'a> {
    ghost use Rattle.pgtrace_summary.specs.Places as spec;

    ghost Value = { spec.Ran };

    ghost view = { λ x. record { rows = x.rows; times = x.times.now; total = x.total; errors = x.errors } };
}

/// What is said of a statement: how often it ran, how many errors there were, the rows of all its runs, and of the times that they took, in microseconds, the sum, its share of all in
/// thousandths, the least, the median and the greatest.
#[derive(Debug, Clone, Copy, PartialEq, Eq)]
pub struct Line {
    pub count: u64,
    pub errors: u64,
    pub rows: u64,
    pub total: u64,
    pub share: u64,
    pub least: u64,
    pub median: u64,
    pub greatest: u64,
}

impl<'a, A: MapMemory> Entry<'a, A> {
    /// The statement.
    pub fn text(&self) -> &'a [u8]
        ensures { result.now ≡ self.now.text }
    {
        self.text
    }

    /// The sum of its times.
    pub(crate) fn total(&self) -> u64
        ensures { result ≡ self.now.total }
    {
        let ran = self.ran;
        ran.total
    }

    /// What is said of it, where all runs took so long.
    ///
    /// # Errors
    ///
    /// Returns `AllocError` if there is no memory to sort its times.
    pub fn line(&self, whole: u64) -> Result<Line, AllocError>
        ensures line { IfOk result (λ line. line ≡ line_of whole self.now) }
        ensures lacks { OnErr result A.Lacks }
    {
        let ran = self.ran;
        let times = sorted(*ran.times.allocator(), ran.times.as_slice())?;
        Ok(Line {
            count: times.len() as u64,
            errors: ran.errors,
            rows: ran.rows,
            total: ran.total,
            share: share(ran.total, whole),
            least: at(times.as_slice(), 0),
            median: median(times.as_slice()),
            greatest: at(times.as_slice(), times.len().saturating_sub(1)),
        })
    }
}

impl<A: MapMemory> Ran<A> {
    /// The same with more.
    fn with(mut self, more: More<'_>) -> Result<Ran<A>, AllocError>
        ensures added { IfOk result (λ ran. ran ≡ more_of more.entry self) }
        ensures lacks { OnErr result A.Lacks }
    {
        self.rows = plus(self.rows, more.rows);
        self.total = plus(self.total, more.total);
        self.errors = plus(self.errors, more.errors);
        A::extend(&mut self.times, more.times)?;
        Ok(self)
    }

    /// All of it, to be added to another's.
    fn as_more(&self) -> More<'_>
        ensures { result ≡ self.now }
    {
        More {
            rows: self.rows,
            times: self.times.as_slice(),
            total: self.total,
            errors: self.errors,
        }
    }
}

/// The statement at this place.
pub(crate) fn entry_at<A: MapMemory>(
    entries: &Names<Ran<A>, A>,
    place: usize,
) -> Option<Entry<'_, A>>
    ensures { result ≡ slice_get (tallies_of entries.now) place }
{
    match entries.at(place) {
        Some((text, ran)) => Some(Entry { text, ran }),
        None => None,
    }
}

/// Adds what requests of a statement came to.
pub(crate) fn tally<A: MapMemory>(
    alloc: A,
    text: &[u8],
    more: More<'_>,
    entries: &mut Names<Ran<A>, A>,
) -> Result<(), AllocError>
    ensures tallied { OnOk result (tallies_of entries.new ≡ tallied (tally_of (text.now, more.entry)) (tallies_of entries.old)) }
    ensures lacks { OnErr result A.Lacks }
{
    match entries.swap(text, none(alloc)) {
        Ok(ran) => {
            let ran = ran.with(more)?;
            entries.put(text, ran)
        }
        Err(none) => {
            let first = none.with(more)?;
            entries.put(text, first)
        }
    }
}

/// Adds what the statements of another table came to.
pub(crate) fn tally_all<A: MapMemory>(
    alloc: A,
    others: &Names<Ran<A>, A>,
    entries: &mut Names<Ran<A>, A>,
) -> Result<(), AllocError>
    ensures tallied { OnOk result (tallies_of entries.new ≡ tally_after (tallies_of entries.old) (tallies_of others.now)) }
    ensures lacks { OnErr result A.Lacks }
{
    'each: for place in 0..others.len() {
        tally_at(alloc, others, place, entries)?;
    }
    Ok(())
}

/// Adds what the statement at this place came to.
fn tally_at<A: MapMemory>(
    alloc: A,
    others: &Names<Ran<A>, A>,
    place: usize,
    entries: &mut Names<Ran<A>, A>,
) -> Result<(), AllocError>
    ensures tallied { OnOk result (tallies_of entries.new ≡ tally_after (tallies_of entries.old) (option_to_list (slice_get (tallies_of others.now) place))) }
    ensures lacks { OnErr result A.Lacks }
{
    match entry_at(others, place) {
        Some(entry) => tally(alloc, entry.text, entry.ran.as_more(), entries),
        None => Ok(()),
    }
}

/// No run.
fn none<A: MapMemory>(alloc: A) -> Ran<A>
    ensures { result ≡ no_run }
{
    Ran {
        rows: 0,
        times: Vec::new(alloc),
        total: 0,
        errors: 0,
    }
}

/// The sum of two counts, at most `u64::MAX`.
pub(crate) fn plus(a: u64, b: u64) -> u64
    ensures { result ≡ capped (a + b) }
{
    a.saturating_add(b)
}

/// The part of the whole, in thousandths rounded down.
fn share(total: u64, whole: u64) -> u64
    ensures { result ≡ share_of total whole }
{
    if whole == 0 {
        return 0;
    }
    let share = u128::from(total) * 1000 / u128::from(whole);
    share.min(u128::from(u64::MAX)) as u64
}

/// These times in ascending order.
fn sorted<A: MapMemory>(alloc: A, times: &[u64]) -> Result<Vec<u64, A>, AllocError>
    ensures sorted { IfOk result (λ all. all.items ≡ ascending times.now) }
    ensures lacks { OnErr result A.Lacks }
{
    let mut all = alloc.list_of(times)?;
    all.sort_unstable();
    Ok(all)
}

/// The time at this place, or 0.
fn at(times: &[u64], place: usize) -> u64
    ensures { result ≡ get_or times.now place 0 }
{
    match times.get(place) {
        Some(time) => *time,
        None => 0,
    }
}

/// The time in the middle of ascending times, and of an even number of them the mean of the two, rounded down.
fn median(times: &[u64]) -> u64
    ensures { result ≡ median_of times.now }
{
    let half = times.len() / 2;
    if times.len() % 2 == 1 {
        at(times, half)
    } else {
        mean(at(times, half.saturating_sub(1)), at(times, half))
    }
}

/// The mean of two times, rounded down.
fn mean(a: u64, b: u64) -> u64
    ensures { result ≡ (a + b) / 2 }
{
    a / 2 + b / 2 + (a % 2 + b % 2) / 2
}
