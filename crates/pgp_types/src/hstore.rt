//! Lists of keys and values, of the module hstore.
//!
//! PostgreSQL manual, "hstore" among the additional supplied modules.
#![tactic(auto, using(pgp_base::proofs::Parts::held_steps))]

ghost use Rattle.std.specs.Prelude.{◌≡◌, ◌≤◌, ◌⊎◌, ℕ, length, OnOk, OnErr, IfOk, IfErr};
ghost use Rattle.std.specs.Iterator.{IsFiniteIterable};
ghost use Rattle.pgp_base.specs.Calls.{Yielded};
ghost use Rattle.pgp_base.specs.Cause.{Wants, WantsMemory, nullable_cause};
ghost use Rattle.pgp_base.specs.Held.{◌⊕◌, IsFrontOf};
ghost use Rattle.pgp_base.specs.PartReading.{Answers};
ghost use Rattle.pgp_base.specs.Wire.{nullable};
ghost use Rattle.pgp_types.specs.Format.{Reads};
ghost use Rattle.pgp_types.specs.Given.{Whole, Stops, WritesAll, WantsValue};
ghost use Rattle.pgp_types.specs.Hstore.{hstore, shown_entry, shown_entries};
ghost use Rattle.pgp_types.specs.PartReading.{key_at, entry_value_at, entry_at};
ghost use Rattle.pgp_types.specs.Part.{shown};

use crate::codec::MOST_ITEMS;
use crate::part::{natural_at, nullable_at, sized_at};
use pgp_base::{Buffer, Counted, Error, FallibleIterator, length_field, patch_u32, put_u32, text};
use std::marker::Model;

// The length of a null.
const NULL: u32 = 0xffff_ffff;

// A text after its length, or a null. An error leaves what stood there as a front.
#[tactic(auto, using(pgp_base::proofs::Parts::null_spelled, pgp_base::proofs::Parts::held_steps))]
fn put_nullable<B: Buffer>(v: Option<&str>, buf: &mut B) -> Result<(), Error>
    ensures ok { OnOk result ((nullable_cause (shown v.entry) ≡ None) × (B.held buf.new ≡ B.held buf.old ⊕ nullable (shown v.entry))) }
    ensures err { OnErr result (IsFrontOf (B.held buf.old) (B.held buf.new)) }
    ensures cause { IfErr result (λ e. WantsMemory (Wants B.Lacks (B.held buf.old) (length (nullable (shown v.entry)))) e ⊎ (nullable_cause (shown v.entry) ≡ Some e)) }
{
    let Some(text) = v else {
        return put_u32(buf, NULL);
    };
    put_u32(buf, length_field(text.len())?)?;
    buf.append(text.as_bytes())?;
    Ok(())
}

// The value. An error leaves what stood there as a front.
fn fill_hstore<'a, B: Buffer, I: IntoIterator<Item = (&'a str, Option<&'a str>)> + Drop>(
    pairs: I,
    buf: &mut B,
) -> Result<(), Error>
where
    I::IntoIter: Drop,
    requires { IsFiniteIterable I.into_iter_gives I.IntoIter.can_next I.IntoIter.remaining pairs }
    ensures ok { OnOk result (Whole (Yielded I.into_iter_gives I.IntoIter.next_gives pairs) hstore shown_entries (B.held buf.old) (B.held buf.new)) }
    ensures err { OnErr result (IsFrontOf (B.held buf.old) (B.held buf.new)) }
    ensures cause { IfErr result (λ e. WantsValue (Yielded I.into_iter_gives I.IntoIter.next_gives pairs) hstore shown_entries B.Lacks (B.held buf.old) e ⊎ Stops (Yielded I.into_iter_gives I.IntoIter.next_gives pairs) hstore shown_entries e) }
{
    let base = buf.len();
    put_u32(buf, 0)?;
    let mut count = 0u32;
    for (key, value) in pairs {
        if count == MOST_ITEMS {
            return Err(Error::TooLarge);
        }
        put_nullable(Some(key), buf)?;
        put_nullable(value, buf)?;
        count += 1;
    }
    patch_u32(buf, base, count);
    Ok(())
}

/// Appends an `hstore` of these keys and values, as they come: a server keeps one of equal keys.
///
/// # Errors
///
/// Returns `TooLarge` if a key's or a value's length exceeds `i32::MAX`, and at a pair past that many, before it is
/// written; `OutOfMemory` if the buffer can't grow. On error the buffer is unchanged.
pub fn hstore_to_sql<'a, B: Buffer, I: IntoIterator<Item = (&'a str, Option<&'a str>)> + Drop>(
    pairs: I,
    buf: &mut B,
) -> Result<(), Error>
where
    I::IntoIter: Drop,
    requires { IsFiniteIterable I.into_iter_gives I.IntoIter.can_next I.IntoIter.remaining pairs }
    ensures { WritesAll (Yielded I.into_iter_gives I.IntoIter.next_gives pairs) hstore shown_entries B.Lacks (B.held buf.old) result (B.held buf.new) }
{
    let start = buf.len();
    match fill_hstore(pairs, buf) {
        Ok(()) => Ok(()),
        Err(e) => {
            buf.truncate(start);
            Err(e)
        }
    }
}

/// The keys and values of an `hstore`. An entry is rejected with `UnexpectedEof` where a length is cut short,
/// `InvalidKeyLength` where the key's is negative or passes the end, `InvalidValueLength` where the value's passes the
/// end, and `NotUtf8` where one of them isn't text; bytes after the last entry are `NotDrained`.
#[derive(Drop)]
pub struct HstoreEntries<'a>(Counted<'a>);

impl<'a> Model for HstoreEntries<'a> {
    ghost use Rattle.pgp_base.specs.CountedRest.{walk_of};
    ghost use Rattle.pgp_base.specs.Walk.{Walk};
    ghost use Rattle.pgp_types.specs.Hstore.{Entry};
    ghost use Rattle.pgp_types.specs.PartReading.{entry_at};

    ghost Value = { Walk Entry };

    ghost view = { λ walk. walk_of entry_at walk.0 };
}

impl<'a> FallibleIterator for HstoreEntries<'a> {
    type Item = (&'a str, Option<&'a str>);

    ghost use Rattle.pgp_types.specs.Hstore.{Entry, shown_entry};

    ghost Meaning = { Entry };

    ghost meaning = { λ x. shown_entry x };

    ghost walk = { λ s. s };

    fn next(&mut self) -> Result<Option<(&'a str, Option<&'a str>)>, Error> {
        match self.0.due()? {
            Some(buf) => self.0.take(entry_at(buf)),
            None => Ok(None),
        }
    }

    fn size_hint(&self) -> (usize, Option<usize>) {
        self.0.size_hint()
    }
}

// The key at the front.
#[tactic(auto, unfolding(crate::specs::PartReading::key_at))]
fn key_at(bytes: &[u8]) -> Result<(&str, &[u8]), Error>
    ensures { Answers (λ x. (x.0.now, x.1.now)) result (key_at bytes.now) }
{
    let (key, rest) = sized_at(bytes, Error::InvalidKeyLength)?;
    match text(key) {
        Ok(key) => Ok((key, rest)),
        Err(_) => Err(Error::NotUtf8),
    }
}

// The value at the front.
#[tactic(auto, unfolding(crate::specs::PartReading::entry_value_at))]
fn entry_value_at(bytes: &[u8]) -> Result<(Option<&str>, &[u8]), Error>
    ensures { Answers (λ x. (shown x.0, x.1.now)) result (entry_value_at bytes.now) }
{
    let (value, rest) = nullable_at(bytes, Error::InvalidValueLength)?;
    let Some(value) = value else {
        return Ok((None, rest));
    };
    match text(value) {
        Ok(value) => Ok((Some(value), rest)),
        Err(_) => Err(Error::NotUtf8),
    }
}

// The entry at the front.
#[tactic(auto, unfolding(crate::specs::PartReading::entry_at))]
fn entry_at(bytes: &[u8]) -> Result<((&str, Option<&str>), &[u8]), Error>
    ensures { Answers (λ x. (shown_entry x.0, x.1.now)) result (entry_at bytes.now) }
{
    let (key, rest) = key_at(bytes)?;
    let (value, rest) = entry_value_at(rest)?;
    Ok(((key, value), rest))
}

/// Reads an `hstore`. Its entries are read as they are asked for.
///
/// # Errors
///
/// Returns `UnexpectedEof` if the number of entries is cut short, and `InvalidCount` if it is
/// negative.
pub fn hstore_from_sql(buf: &[u8]) -> Result<HstoreEntries<'_>, Error>
    ensures value { Reads hstore buf.now result }
    ensures few { IfOk result (λ w. length w.items ≤ length buf.now) }
{
    let (count, entries) = natural_at(buf, Error::InvalidCount)?;
    Ok(HstoreEntries(Counted::new(entries, count)))
}
