//! What a transaction sees.
//!
//! PostgreSQL manual, "Transaction ID and Snapshot Information Functions".
#![tactic(auto, using(pgp_base::proofs::Parts::held_steps))]

ghost use Rattle.std.specs.Prelude.{◌≡◌, ◌≤◌, ◌⊎◌, ℕ, List, length, Some, None, OnOk, OnErr, IfOk, IfErr};
ghost use Rattle.std.specs.Iterator.{IsFiniteIterable};
ghost use Rattle.pgp_base.specs.Calls.{Yielded};
ghost use Rattle.pgp_base.specs.Cause.{Writes as WritesSpelling};
ghost use Rattle.pgp_base.specs.Held.{IsFrontOf};
ghost use Rattle.pgp_base.specs.PartReading.{Answers};
ghost use Rattle.pgp_types.specs.Format.{Reads};
ghost use Rattle.pgp_types.specs.Given.{Whole, Stops, WritesAll, WantsValue};
ghost use Rattle.pgp_values.specs.Snapshot.{snapshot, snapshot_of, bounds_bytes};
ghost use Rattle.pgp_values.specs.SnapshotReading.{xid_at, snapshot_head_at};

use crate::codec::uint64_of;
use crate::system::xid8_to_sql;
use pgp_base::{Buffer, Counted, Error, FallibleIterator, patch_u32, put_u32};
use pgp_types::codec::{MOST_ITEMS, append_both};
use pgp_types::part::natural_at;
use std::marker::Model;

/// A `pg_snapshot` or a `txid_snapshot`.
#[derive(Drop)]
pub struct Snapshot<'a> {
    xmin: u64,
    xmax: u64,
    count: usize,
    running: &'a [u8],
}

impl<'a> Model for Snapshot<'a> {
    ghost use Rattle.std.specs.Prelude.{None};
    ghost use Rattle.pgp_base.specs.WalkReading.{counted};
    ghost use Rattle.pgp_values.specs.Snapshot.{WalkedSnapshot};
    ghost use Rattle.pgp_values.specs.SnapshotReading.{xid_at};

    ghost Value = { WalkedSnapshot };

    ghost view = { λ s. record { xmin = s.xmin; xmax = s.xmax; running = counted xid_at s.count s.running.now None } };
}

impl<'a> Snapshot<'a> {
    /// Every transaction below it is over.
    pub fn xmin(&self) -> u64
        ensures { result ≡ self.now.xmin }
    {
        self.xmin
    }

    /// No transaction from it on had begun.
    pub fn xmax(&self) -> u64
        ensures { result ≡ self.now.xmax }
    {
        self.xmax
    }

    /// The transactions between that were running.
    pub fn running(&self) -> SnapshotIds<'a>
        ensures { result ≡ self.now.running }
    {
        SnapshotIds(Counted::new(self.running, self.count))
    }
}

/// The transactions of a snapshot. `next` returns `UnexpectedEof` if one is cut short, `NotDrained` if bytes follow the last.
#[derive(Drop)]
pub struct SnapshotIds<'a>(Counted<'a>);

impl<'a> Model for SnapshotIds<'a> {
    ghost use Rattle.std.specs.Prelude.{ℕ};
    ghost use Rattle.pgp_base.specs.CountedRest.{walk_of};
    ghost use Rattle.pgp_base.specs.Walk.{Walk};
    ghost use Rattle.pgp_values.specs.SnapshotReading.{xid_at};

    ghost Value = { Walk ℕ };

    ghost view = { λ walk. walk_of xid_at walk.0 };
}

impl FallibleIterator for SnapshotIds<'_> {
    type Item = u64;

    ghost use Rattle.std.specs.Prelude.{ℕ};

    ghost Meaning = { ℕ };

    ghost meaning = { λ x. x };

    ghost walk = { λ s. s };

    fn next(&mut self) -> Result<Option<u64>, Error> {
        match self.0.due() {
            Ok(Some(buf)) => self.0.take(xid_at(buf)),
            Ok(None) => Ok(None),
            Err(e) => Err(e),
        }
    }

    fn size_hint(&self) -> (usize, Option<usize>) {
        self.0.size_hint()
    }
}

// The transaction at the front.
#[tactic(auto, unfolding(crate::specs::SnapshotReading::xid_at))]
fn xid_at(bytes: &[u8]) -> Result<(u64, &[u8]), Error>
    ensures { Answers (λ x. (x.0, x.1.now)) result (xid_at bytes.now) }
{
    if bytes.len() < 8 {
        return Err(Error::UnexpectedEof);
    }
    let (front, rest) = bytes.split_at(8);
    Ok((uint64_of(front), rest))
}

// How many are listed, and the two bounds.
#[tactic(auto, unfolding(crate::specs::SnapshotReading::snapshot_head_at))]
fn head_at(bytes: &[u8]) -> Result<((usize, (u64, u64)), &[u8]), Error>
    ensures { Answers (λ x. (x.0, x.1.now)) result (snapshot_head_at bytes.now) }
{
    match natural_at(bytes, Error::InvalidCount) {
        Ok((count, rest)) => match xid_at(rest) {
            Ok((xmin, rest)) => match xid_at(rest) {
                Ok((xmax, rest)) => Ok(((count, (xmin, xmax)), rest)),
                Err(e) => Err(e),
            },
            Err(e) => Err(e),
        },
        Err(e) => Err(e),
    }
}

// Appends both bounds, or nothing.
fn put_bounds<B: Buffer>(xmin: u64, xmax: u64, buf: &mut B) -> Result<(), Error>
    ensures { WritesSpelling (bounds_bytes xmin xmax) None B.Lacks (B.held buf.old) (B.held buf.new) result }
{
    append_both(&xmin.to_be_bytes(), &xmax.to_be_bytes(), buf)
}

// The value. An error leaves what stood there as a front.
fn fill_snapshot<B: Buffer, I: IntoIterator<Item = u64> + Drop>(
    xmin: u64,
    xmax: u64,
    running: I,
    buf: &mut B,
) -> Result<(), Error>
where
    I::IntoIter: Drop,
    requires { IsFiniteIterable I.into_iter_gives I.IntoIter.can_next I.IntoIter.remaining running }
    ensures ok { OnOk result (Whole (Yielded I.into_iter_gives I.IntoIter.next_gives running) snapshot (snapshot_of xmin xmax) (B.held buf.old) (B.held buf.new)) }
    ensures err { OnErr result (IsFrontOf (B.held buf.old) (B.held buf.new)) }
    ensures cause { IfErr result (λ e. WantsValue (Yielded I.into_iter_gives I.IntoIter.next_gives running) snapshot (snapshot_of xmin xmax) B.Lacks (B.held buf.old) e
        ⊎ Stops (Yielded I.into_iter_gives I.IntoIter.next_gives running) snapshot (snapshot_of xmin xmax) e) }
{
    let base = buf.len();
    put_u32(buf, 0)?;
    put_bounds(xmin, xmax, buf)?;
    let mut count = 0u32;
    for id in running {
        if count == MOST_ITEMS {
            return Err(Error::TooLarge);
        }
        match xid8_to_sql(id, buf) {
            Ok(()) => count += 1,
            Err(e) => return Err(e),
        }
    }
    patch_u32(buf, base, count);
    Ok(())
}

/// Appends a `pg_snapshot`. A server wants the transactions in order, and between the two bounds.
///
/// # Errors
///
/// Returns `TooLarge` at a transaction past `i32::MAX` of them; `OutOfMemory` if the buffer can't grow. On error the buffer
/// is unchanged.
pub fn snapshot_to_sql<B: Buffer, I: IntoIterator<Item = u64> + Drop>(
    xmin: u64,
    xmax: u64,
    running: I,
    buf: &mut B,
) -> Result<(), Error>
where
    I::IntoIter: Drop,
    requires { IsFiniteIterable I.into_iter_gives I.IntoIter.can_next I.IntoIter.remaining running }
    ensures { WritesAll (Yielded I.into_iter_gives I.IntoIter.next_gives running) snapshot (snapshot_of xmin xmax) B.Lacks (B.held buf.old) result (B.held buf.new) }
{
    let start = buf.len();
    match fill_snapshot(xmin, xmax, running, buf) {
        Ok(()) => Ok(()),
        Err(e) => {
            buf.truncate(start);
            Err(e)
        }
    }
}

/// Reads a `pg_snapshot` or a `txid_snapshot`. Its transactions are read as they are asked for.
///
/// # Errors
///
/// Returns `UnexpectedEof` if their number or one of the bounds is cut short, `InvalidCount` if the number is negative.
pub fn snapshot_from_sql(buf: &[u8]) -> Result<Snapshot<'_>, Error>
    ensures value { Reads snapshot buf.now result }
    ensures few { IfOk result (λ s. length s.running.items ≤ length buf.now) }
{
    let ((count, (xmin, xmax)), running) = head_at(buf)?;
    Ok(Snapshot {
        xmin,
        xmax,
        count,
        running,
    })
}
