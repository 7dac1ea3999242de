//! Lists of keys and values: read where they stand, one after another; and written.
#![tactic(auto, using(pgp_base::proofs::Parts::held_steps))]

ghost use Rattle.std.specs.Prelude.{◌≡◌, ◌≢◌, ◌⊎◌, length, map};
ghost use Rattle.std.specs.List.{list_all, AllByRecursion};
ghost use Rattle.std.specs.Str.{is_utf8};
ghost use Rattle.pgp_base.specs.PartReading.{Answers};
ghost use Rattle.pgp_types.specs.Hstore.{entry, hstore, IsEntry};
ghost use Rattle.pgp_types.specs.Part.{shown};
ghost use Rattle.pgp_types.specs.PartReading.{entry_at, entry_value_at, key_at};
ghost use Rattle.for_c.specs.Compound.{BeginsHstore, IsEntryInside, entry_in};
ghost use Rattle.for_c.specs.Putting.{are_texts, entry_of, IsNoHstore};
ghost use Rattle.for_c.specs.Values.{Lacks, Refuses, Wrote};
ghost use Rattle.for_c.specs.Walks.{IsEnded, RefusesItem, Takes};

use crate::cursor::{Listed, PgpCursor, begin, next_counted};
use crate::front::PgpPart;
use crate::list_writing::{Written, put_list};
use crate::listing::PgpValue;
use crate::part::{column_before, nullable_at, put_counted, put_value, sized_at};
use crate::row::PgpColumn;
use crate::status::{failed, refused, sent};
use pgp_base::{Buffer, Error, FallibleIterator, Window, text};

/// A key of an `hstore`, and its value or a null.
#[repr(C)]
#[derive(Clone, Copy)]
pub struct PgpEntry {
    pub key: PgpPart,
    pub value: PgpColumn,
}

/// A key and its value that are written. Both have to be UTF-8.
#[repr(C)]
#[derive(Clone, Copy)]
pub struct PgpKeyValue<'a> {
    pub key: &'a [u8],
    pub value: PgpValue<'a>,
}

/// Reads how many entries an `hstore` has, and where the first begins.
#[unsafe(no_mangle)]
pub extern "C" fn pgp_get_hstore(bytes: &[u8], entries: &mut PgpCursor) -> u32
    ensures read { result ≡ 0 → BeginsHstore bytes.now entries.new }
    ensures refused { result ≢ 0 → Refuses hstore bytes.now result }
    ensures left { result ≢ 0 → entries.new ≡ entries.old }
{
    match pgp_types::hstore_from_sql(bytes) {
        Ok(walk) => begin(bytes, walk.size_hint().0, entries),
        Err(e) => failed(e),
    }
}

/// The next entry of an `hstore`.
#[unsafe(no_mangle)]
pub extern "C" fn pgp_entry_next(bytes: &[u8], cursor: &mut PgpCursor, item: &mut PgpEntry) -> u32
    ensures item { result ≡ 0 → Takes (λ place. entry.Spelled) bytes.now cursor.old cursor.new (entry_in bytes.now item.new) }
    ensures inside { result ≡ 0 → IsEntryInside (length bytes.now) item.new }
    ensures done { result ≡ 101 → IsEnded bytes.now cursor.old }
    ensures refused { result ≢ 0 → result ≢ 101 → RefusesItem entry.Refused bytes.now cursor.old result }
    ensures left { result ≢ 0 → (cursor.new ≡ cursor.old) × (item.new ≡ item.old) }
{
    next_counted::<Entries>(bytes, cursor, item)
}

/// The entries of an `hstore`.
struct Entries;

impl Listed for Entries {
    ghost use Rattle.pgp_types.specs.Hstore.{Entry, entry};
    ghost use Rattle.for_c.specs.Compound.{IsEntryInside, entry_in};

    type Item = PgpEntry;

    ghost Meaning = { Entry };

    ghost meaning = { λ bytes e. entry_in bytes e };

    ghost Spelled = { λ place. entry.Spelled };

    ghost Refused = { entry.Refused };

    ghost Inside = { λ size e. IsEntryInside size e };

    fn read(at: usize, rest: &[u8]) -> Result<(&[u8], PgpEntry), Error> {
        let ((key, value), more) = entry_at(rest)?;
        let key = PgpPart {
            at: at + 4,
            len: key.len(),
        };
        let value = column_before(value, at + (rest.len() - more.len()));
        Ok((more, PgpEntry { key, value }))
    }
}

/// The key and the value at the front.
#[tactic(auto, unfolding(pgp_types::specs::PartReading::entry_at))]
fn entry_at(bytes: &[u8]) -> Result<((&[u8], Option<&[u8]>), &[u8]), Error>
    ensures { Answers (λ x. ((x.0.0.now, shown x.0.1), x.1.now)) result (entry_at bytes.now) }
{
    match key_at(bytes) {
        Ok((key, rest)) => match entry_value_at(rest) {
            Ok((value, rest)) => Ok(((key, value), rest)),
            Err(e) => Err(e),
        },
        Err(e) => Err(e),
    }
}

/// The key at the front, which has to be text.
#[tactic(auto, unfolding(pgp_types::specs::PartReading::key_at))]
fn key_at(bytes: &[u8]) -> Result<(&[u8], &[u8]), Error>
    ensures { Answers (λ x. (x.0.now, x.1.now)) result (key_at bytes.now) }
{
    let (key, rest) = sized_at(bytes, Error::InvalidKeyLength)?;
    match text(key) {
        Ok(_) => Ok((key, rest)),
        Err(_) => Err(Error::NotUtf8),
    }
}

/// The value at the front, which has to be text or a null.
#[tactic(auto, unfolding(pgp_types::specs::PartReading::entry_value_at))]
fn entry_value_at(bytes: &[u8]) -> Result<(Option<&[u8]>, &[u8]), Error>
    ensures { Answers (λ x. (shown x.0, x.1.now)) result (entry_value_at bytes.now) }
{
    let (value, rest) = nullable_at(bytes, Error::InvalidValueLength)?;
    let Some(value) = value else {
        return Ok((None, rest));
    };
    match text(value) {
        Ok(_) => Ok((Some(value), rest)),
        Err(_) => Err(Error::NotUtf8),
    }
}

/// Writes an `hstore` of these keys and values, as they come: a server keeps one of equal keys.
#[unsafe(no_mangle)]
pub extern "C" fn pgp_put_hstore(
    pairs: &[PgpKeyValue<'_>],
    out: &mut [u8],
    written: &mut usize,
) -> u32
    ensures wrote { result ≡ 0 → AllByRecursion IsEntry (map entry_of pairs.now) × Wrote (hstore.written (map entry_of pairs.now)) out.old out.new written.new }
    ensures refused { result ≢ 0 → (written.new ≡ 0) × (IsNoHstore pairs.now result ⊎ Lacks (hstore.written (map entry_of pairs.now)) out.old written.new result) }
{
    if !all_texts(pairs) {
        return refused(Error::NotUtf8, written);
    }
    let mut window = Window::new(out);
    match put_list(pairs, &mut window) {
        Ok(()) => sent(&window, written),
        Err(e) => refused(e, written),
    }
}

/// All keys and values are text.
fn all_texts(pairs: &[PgpKeyValue<'_>]) -> bool
    ensures { result ≡ list_all are_texts pairs.now }
{
    for pair in pairs {
        if !are_texts(pair) {
            return false;
        }
    }
    true
}

/// The key and the value are text, or the value is a null.
fn are_texts(pair: &PgpKeyValue<'_>) -> bool
    ensures { result ≡ are_texts pair.now }
{
    is_text(pair.key) && (pair.value.is_null || is_text(pair.value.bytes))
}

/// The bytes are text.
pub(crate) fn is_text(bytes: &[u8]) -> bool
    ensures { result ≡ is_utf8 bytes.now }
{
    match text(bytes) {
        Ok(_) => true,
        Err(_) => false,
    }
}

impl Written for PgpKeyValue<'_> {
    ghost use Rattle.pgp_types.specs.Hstore.{Entry};
    ghost use Rattle.for_c.specs.Putting.{entry_item, entry_of};

    ghost Meaning = { Entry };

    ghost meaning = { λ p. entry_of p };

    ghost item = { entry_item };

    fn put<B: Buffer>(&self, buf: &mut B) -> Result<(), Error> {
        match put_counted(self.key.len(), self.key, buf) {
            Ok(()) => put_value(&self.value, buf),
            Err(e) => Err(e),
        }
    }
}
