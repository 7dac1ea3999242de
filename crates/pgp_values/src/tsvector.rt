//! Texts to be searched.
//!
//! PostgreSQL manual, "Text Search Types".
#![tactic(auto, using(pgp_base::proofs::Parts::held_steps))]

ghost use Rattle.std.specs.Prelude.{◌≡◌, ◌↔◌, ◌≤◌, ◌⊎◌, ◌++◌, ℕ, List, true, map, length, Some, None, OnOk, OnErr, IfOk, IfErr};
ghost use Rattle.std.specs.Iterator.{IsFiniteIterable};
ghost use Rattle.std.specs.List.{flat_map};
ghost use Rattle.pgp_base.specs.Calls.{Yielded};
ghost use Rattle.pgp_base.specs.Cause.{Wants, WantsMemory, count_cause};
ghost use Rattle.pgp_base.specs.Held.{◌⊕◌, IsFrontOf};
ghost use Rattle.pgp_base.specs.Wire.{uint16};
ghost use Rattle.pgp_base.specs.PartReading.{Answers};
ghost use Rattle.pgp_types.specs.Format.{Reads};
ghost use Rattle.pgp_types.specs.Given.{WritesAll};
ghost use Rattle.pgp_values.specs.ListReading.{places_at, lexeme_at};
ghost use Rattle.pgp_values.specs.Tsvector.{lexeme, tsvector, shown_lexeme, PlaceAt};

use crate::codec::put_numbers;
use crate::decimal::digit_at;
use crate::list::{PutItem, write_list};
use pgp_base::reading::{text_at, uint16_at};
use pgp_base::{Buffer, Counted, Error, FallibleIterator, put_u16, u16_from_usize, write_cstr};
use pgp_types::part::natural_at;
use std::marker::Model;

// A lexeme and its places.
impl<'a> PutItem for (&'a str, &'a [u16]) {
    ghost use Rattle.std.specs.Prelude.{ℕ, List};
    ghost use Rattle.pgp_values.specs.Tsvector.{lexeme, shown_lexeme};

    ghost Meaning = { List ℕ × List ℕ };

    ghost meaning = { λ x. shown_lexeme x };

    ghost item = { lexeme };

    fn put<B: Buffer>(self, buf: &mut B) -> Result<(), Error> {
        let (text, places) = self;
        put_lexeme(text, places, buf)
    }
}

// Appends places after their number. An error leaves what stood there as a front.
fn put_places<B: Buffer>(places: &[u16], buf: &mut B) -> Result<(), Error>
    ensures ok { OnOk result ((count_cause (length places.now) ≡ None) × (B.held buf.new ≡ B.held buf.old ⊕ (uint16 (length places.now) ++ flat_map uint16 places.now))) }
    ensures err { OnErr result (IsFrontOf (B.held buf.old) (B.held buf.new)) }
    ensures why { IfErr result (λ e. WantsMemory (Wants B.Lacks (B.held buf.old) (length (uint16 (length places.now) ++ flat_map uint16 places.now))) e ⊎ (count_cause (length places.now) ≡ Some e)) }
{
    let count = u16_from_usize(places.len())?;
    match put_u16(buf, count) {
        Ok(()) => put_numbers(places, buf),
        Err(e) => Err(e),
    }
}

// Appends a lexeme and its places. An error leaves what stood there as a front.
fn put_lexeme<B: Buffer>(text: &str, places: &[u16], buf: &mut B) -> Result<(), Error>
    ensures ok { OnOk result ((lexeme.cause (text.now, places.now) ≡ None) × (B.held buf.new ≡ B.held buf.old ⊕ lexeme.written (text.now, places.now))) }
    ensures err { OnErr result (IsFrontOf (B.held buf.old) (B.held buf.new)) }
    ensures why { IfErr result (λ e. WantsMemory (Wants B.Lacks (B.held buf.old) (length (lexeme.written (text.now, places.now)))) e ⊎ (lexeme.cause (text.now, places.now) ≡ Some e)) }
{
    match write_cstr(text.as_bytes(), buf) {
        Ok(()) => put_places(places, buf),
        Err(e) => Err(e),
    }
}

/// Appends a `tsvector` of these lexemes and their places. A server wants the lexemes in order, each once, of at most 2,046 bytes, and the
/// places of each in order, from 1 to 16,383 in the lowest 14 bits, at most 255 of them.
///
/// # Errors
///
/// Returns `EmbeddedNull` if a lexeme has a byte 0; `TooLarge` if more than 65,535 places stand with one, or at a lexeme
/// past `i32::MAX` of them; `OutOfMemory` if the buffer can't grow. On error the buffer is unchanged.
pub fn tsvector_to_sql<'a, B: Buffer, I: IntoIterator<Item = (&'a str, &'a [u16])> + Drop>(
    lexemes: I,
    buf: &mut B,
) -> Result<(), Error>
where
    I::IntoIter: Drop,
    requires { IsFiniteIterable I.into_iter_gives I.IntoIter.can_next I.IntoIter.remaining lexemes }
    ensures { WritesAll (Yielded I.into_iter_gives I.IntoIter.next_gives lexemes) tsvector (λ xs. map shown_lexeme xs) B.Lacks (B.held buf.old) result (B.held buf.new) }
{
    write_list(lexemes, buf)
}

/// The places of a lexeme.
#[derive(Drop)]
pub struct TsPositions<'a>(&'a [u8]);

impl<'a> Model for TsPositions<'a> {
    ghost use Rattle.std.specs.Prelude.{ℕ, List};
    ghost use Rattle.pgp_values.specs.DecimalReading.{pairs};

    ghost Value = { List ℕ };

    ghost view = { λ p. pairs p.0.now };
}

impl<'a> TsPositions<'a> {
    /// How many there are.
    pub fn len(&self) -> usize
        ensures { result ≡ length self.now }
    {
        self.0.len() / 2
    }

    /// Whether there are none.
    pub fn is_empty(&self) -> bool
        ensures { result ≡ true ↔ length self.now ≡ 0 }
    {
        self.len() == 0
    }

    /// The place of this index, its weight in the highest two bits: 0 for D to 3 for A.
    pub fn get(&self, index: usize) -> Option<u16>
        ensures { PlaceAt self.now index result }
    {
        if index >= self.len() {
            return None;
        }
        Some(digit_at(self.0, index))
    }
}

/// The lexemes of a `tsvector`, and the places of each. `next` returns `UnexpectedEof` if a lexeme's end, the number of its
/// places or a place is missing, `NotUtf8` if it isn't text, and `NotDrained` if bytes follow the last.
#[derive(Drop)]
pub struct Lexemes<'a>(Counted<'a>);

impl<'a> Model for Lexemes<'a> {
    ghost use Rattle.std.specs.Prelude.{ℕ, List};
    ghost use Rattle.pgp_base.specs.CountedRest.{walk_of};
    ghost use Rattle.pgp_base.specs.Walk.{Walk};
    ghost use Rattle.pgp_values.specs.ListReading.{lexeme_at};

    ghost Value = { Walk (List ℕ × List ℕ) };

    ghost view = { λ walk. walk_of lexeme_at walk.0 };
}

impl<'a> FallibleIterator for Lexemes<'a> {
    type Item = (&'a str, TsPositions<'a>);

    ghost use Rattle.std.specs.Prelude.{ℕ, List};

    ghost Meaning = { List ℕ × List ℕ };

    ghost meaning = { λ x. (x.0.now, x.1) };

    ghost walk = { λ s. s };

    fn next(&mut self) -> Result<Option<(&'a str, TsPositions<'a>)>, Error> {
        match self.0.due() {
            Ok(Some(buf)) => self.0.take(lexeme_at(buf)),
            Ok(None) => Ok(None),
            Err(e) => Err(e),
        }
    }

    fn size_hint(&self) -> (usize, Option<usize>) {
        self.0.size_hint()
    }
}

// The places at the front.
#[tactic(auto, unfolding(crate::specs::ListReading::places_at))]
fn places_at(bytes: &[u8]) -> Result<(TsPositions<'_>, &[u8]), Error>
    ensures { Answers (λ x. (x.0, x.1.now)) result (places_at bytes.now) }
{
    let (count, rest) = uint16_at(bytes)?;
    let size = count as usize + count as usize;
    if rest.len() < size {
        return Err(Error::UnexpectedEof);
    }
    let (places, rest) = rest.split_at(size);
    Ok((TsPositions(places), rest))
}

// The lexeme at the front.
#[tactic(auto, unfolding(crate::specs::ListReading::lexeme_at))]
fn lexeme_at(bytes: &[u8]) -> Result<((&str, TsPositions<'_>), &[u8]), Error>
    ensures { Answers (λ x. ((x.0.0.now, x.0.1), x.1.now)) result (lexeme_at bytes.now) }
{
    match text_at(bytes) {
        Ok((text, rest)) => match places_at(rest) {
            Ok((places, rest)) => Ok(((text, places), rest)),
            Err(e) => Err(e),
        },
        Err(e) => Err(e),
    }
}

/// Reads a `tsvector`. Its lexemes are read as they are asked for.
///
/// # Errors
///
/// Returns `UnexpectedEof` if the number of lexemes is cut short, `InvalidCount` if it is negative.
pub fn tsvector_from_sql(buf: &[u8]) -> Result<Lexemes<'_>, Error>
    ensures value { Reads tsvector buf.now result }
    ensures few { IfOk result (λ w. length w.items ≤ length buf.now) }
{
    let (count, lexemes) = natural_at(buf, Error::InvalidCount)?;
    Ok(Lexemes(Counted::new(lexemes, count)))
}
