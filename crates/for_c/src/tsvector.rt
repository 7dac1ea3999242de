//! Texts to be searched: their lexemes and the positions of each, read where they stand, one after another; and written.
#![tactic(auto, using(pgp_base::proofs::Parts::held_steps))]

ghost use Rattle.std.specs.Prelude.{◌≡◌, ◌≢◌, ◌⊎◌, ◌++◌, length, map, None, Some, OnOk, IfErr};
ghost use Rattle.std.specs.List.{flat_map};
ghost use Rattle.pgp_base.specs.Cause.{count_cause, Wants, WantsMemory};
ghost use Rattle.pgp_base.specs.Held.{◌⊕◌};
ghost use Rattle.pgp_base.specs.PartReading.{Answers};
ghost use Rattle.pgp_base.specs.Wire.{uint16};
ghost use Rattle.pgp_values.specs.Decimal.{uint16_part};
ghost use Rattle.pgp_values.specs.DecimalReading.{pairs};
ghost use Rattle.pgp_values.specs.ListReading.{places_at, lexeme_at};
ghost use Rattle.pgp_values.specs.Tsvector.{lexeme, tsvector};
ghost use Rattle.for_c.specs.ListWriting.{IsNotWritten, WroteValue};
ghost use Rattle.for_c.specs.Records.{BeginsList};
ghost use Rattle.for_c.specs.TextSearch.{IsLexemeInside, lexeme_in, word_of, words};
ghost use Rattle.for_c.specs.Values.{Refuses};
ghost use Rattle.for_c.specs.Walks.{IsEnded, RefusesItem, Takes};

use crate::cursor::{Listed, PgpCursor, begin, next_counted};
use crate::front::PgpPart;
use crate::hstore::is_text;
use crate::list_writing::{Written, put_items, write_list};
use crate::status::failed;
use pgp_base::reading::{text_at, uint16_at};
use pgp_base::{Buffer, Error, FallibleIterator, put_u16, u16_from_usize, write_cstr};

/// A lexeme of a `tsvector`: the place of its text, and a cursor over its positions.
#[repr(C)]
#[derive(Clone, Copy)]
pub struct PgpLexeme {
    pub text: PgpPart,
    pub positions: PgpCursor,
}

/// A lexeme that is written. Its text has to be UTF-8; of a position the weight stands in the highest 2 bits.
#[repr(C)]
#[derive(Clone, Copy)]
pub struct PgpWord<'a> {
    pub text: &'a [u8],
    pub positions: &'a [u16],
}

/// Reads how many lexemes a `tsvector` has, and where the first begins.
#[unsafe(no_mangle)]
pub extern "C" fn pgp_get_tsvector(bytes: &[u8], lexemes: &mut PgpCursor) -> u32
    ensures read { result ≡ 0 → BeginsList bytes.now lexemes.new }
    ensures refused { result ≢ 0 → Refuses tsvector bytes.now result }
    ensures left { result ≢ 0 → lexemes.new ≡ lexemes.old }
{
    match pgp_values::tsvector_from_sql(bytes) {
        Ok(walk) => begin(bytes, walk.size_hint().0, lexemes),
        Err(e) => failed(e),
    }
}

/// The next lexeme of a `tsvector`.
#[unsafe(no_mangle)]
pub extern "C" fn pgp_lexeme_next(bytes: &[u8], cursor: &mut PgpCursor, item: &mut PgpLexeme) -> u32
    ensures item { result ≡ 0 → Takes (λ place. lexeme.part.Spelled) bytes.now cursor.old cursor.new (lexeme_in bytes.now item.new) }
    ensures inside { result ≡ 0 → IsLexemeInside (length bytes.now) item.new }
    ensures done { result ≡ 101 → IsEnded bytes.now cursor.old }
    ensures refused { result ≢ 0 → result ≢ 101 → RefusesItem lexeme.part.Refused bytes.now cursor.old result }
    ensures left { result ≢ 0 → (cursor.new ≡ cursor.old) × (item.new ≡ item.old) }
{
    next_counted::<Lexemes>(bytes, cursor, item)
}

/// The next position of a lexeme, with its weight in the highest 2 bits.
#[unsafe(no_mangle)]
pub extern "C" fn pgp_position_next(bytes: &[u8], cursor: &mut PgpCursor, position: &mut u16) -> u32
    ensures item { result ≡ 0 → Takes (λ place. uint16_part.Spelled) bytes.now cursor.old cursor.new position.new }
    ensures done { result ≡ 101 → IsEnded bytes.now cursor.old }
    ensures refused { result ≢ 0 → result ≢ 101 → RefusesItem uint16_part.Refused bytes.now cursor.old result }
    ensures left { result ≢ 0 → (cursor.new ≡ cursor.old) × (position.new ≡ position.old) }
{
    next_counted::<Positions>(bytes, cursor, position)
}

/// Writes a `tsvector` of these lexemes, as they come.
#[unsafe(no_mangle)]
pub extern "C" fn pgp_put_tsvector(
    lexemes: &[PgpWord<'_>],
    out: &mut [u8],
    written: &mut usize,
) -> u32
    ensures wrote { result ≡ 0 → WroteValue words (map word_of lexemes.now) out.old out.new written.new }
    ensures refused { result ≢ 0 → IsNotWritten words (map word_of lexemes.now) out.old written.new result }
{
    write_list(lexemes, out, written)
}

/// The lexemes of a `tsvector`.
struct Lexemes;

impl Listed for Lexemes {
    ghost use Rattle.std.specs.Prelude.{ℕ, List};
    ghost use Rattle.pgp_values.specs.Tsvector.{lexeme};
    ghost use Rattle.for_c.specs.TextSearch.{IsLexemeInside, lexeme_in};

    type Item = PgpLexeme;

    ghost Meaning = { List ℕ × List ℕ };

    ghost meaning = { λ bytes l. lexeme_in bytes l };

    ghost Spelled = { λ place. lexeme.part.Spelled };

    ghost Refused = { lexeme.part.Refused };

    ghost Inside = { λ size l. IsLexemeInside size l };

    fn read(at: usize, rest: &[u8]) -> Result<(&[u8], PgpLexeme), Error> {
        match lexeme_at(rest) {
            Ok(((text, positions), more)) => {
                let text = PgpPart {
                    at,
                    len: text.len(),
                };
                let positions = PgpCursor {
                    at: at + text.len + 3,
                    end: at + (rest.len() - more.len()),
                    left: positions.len() / 2,
                };
                Ok((more, PgpLexeme { text, positions }))
            }
            Err(e) => Err(e),
        }
    }
}

/// The text and the positions at the front.
#[tactic(auto, unfolding(pgp_values::specs::ListReading::lexeme_at))]
fn lexeme_at(bytes: &[u8]) -> Result<((&str, &[u8]), &[u8]), Error>
    ensures { Answers (λ x. ((x.0.0.now, pairs x.0.1.now), x.1.now)) result (lexeme_at bytes.now) }
{
    match text_at(bytes) {
        Ok((text, rest)) => match positions_at(rest) {
            Ok((positions, rest)) => Ok(((text, positions), rest)),
            Err(e) => Err(e),
        },
        Err(e) => Err(e),
    }
}

/// The positions at the front.
#[tactic(auto, unfolding(pgp_values::specs::ListReading::places_at))]
fn positions_at(bytes: &[u8]) -> Result<(&[u8], &[u8]), Error>
    ensures { Answers (λ x. (pairs x.0.now, x.1.now)) result (places_at bytes.now) }
{
    let Ok((count, rest)) = uint16_at(bytes) else {
        return Err(Error::UnexpectedEof);
    };
    let size = count as usize + count as usize;
    if rest.len() < size {
        return Err(Error::UnexpectedEof);
    }
    Ok(rest.split_at(size))
}

/// The positions of a lexeme.
struct Positions;

impl Listed for Positions {
    ghost use Rattle.std.specs.Prelude.{ℕ, ⊤};
    ghost use Rattle.pgp_values.specs.Decimal.{uint16_part};

    type Item = u16;

    ghost Meaning = { ℕ };

    ghost meaning = { λ bytes position. position };

    ghost Spelled = { λ place. uint16_part.Spelled };

    ghost Refused = { uint16_part.Refused };

    ghost Inside = { λ size position. ⊤ };

    fn read(_at: usize, rest: &[u8]) -> Result<(&[u8], u16), Error> {
        match uint16_at(rest) {
            Ok((position, more)) => Ok((more, position)),
            Err(e) => Err(e),
        }
    }
}

impl Written for PgpWord<'_> {
    ghost use Rattle.std.specs.Prelude.{ℕ, List};
    ghost use Rattle.for_c.specs.TextSearch.{word, word_of};

    ghost Meaning = { List ℕ × List ℕ };

    ghost meaning = { λ w. word_of w };

    ghost item = { word };

    fn put<B: Buffer>(&self, buf: &mut B) -> Result<(), Error> {
        if !is_text(self.text) {
            return Err(Error::NotUtf8);
        }
        put_word(self.text, self.positions, buf)
    }
}

/// Appends a text and its positions.
fn put_word<B: Buffer>(text: &[u8], positions: &[u16], buf: &mut B) -> Result<(), Error>
    ensures ok { OnOk result ((lexeme.cause (text.now, positions.now) ≡ None) × (B.held buf.new ≡ B.held buf.old ⊕ lexeme.written (text.now, positions.now))) }
    ensures cause { IfErr result (λ e. WantsMemory (Wants B.Lacks (B.held buf.old) (length (lexeme.written (text.now, positions.now)))) e ⊎ (lexeme.cause (text.now, positions.now) ≡ Some e)) }
{
    match write_cstr(text, buf) {
        Ok(()) => put_positions(positions, buf),
        Err(e) => Err(e),
    }
}

/// Appends positions after their number.
fn put_positions<B: Buffer>(positions: &[u16], buf: &mut B) -> Result<(), Error>
    ensures ok { OnOk result ((count_cause (length positions.now) ≡ None) × (B.held buf.new ≡ B.held buf.old ⊕ (uint16 (length positions.now) ++ flat_map uint16 positions.now))) }
    ensures cause { IfErr result (λ e. WantsMemory (Wants B.Lacks (B.held buf.old) (length (uint16 (length positions.now) ++ flat_map uint16 positions.now))) e ⊎ (count_cause (length positions.now) ≡ Some e)) }
{
    match u16_from_usize(positions.len()) {
        Ok(count) => match put_u16(buf, count) {
            Ok(()) => put_items(positions, buf),
            Err(e) => Err(e),
        },
        Err(e) => Err(e),
    }
}

impl Written for u16 {
    ghost use Rattle.std.specs.Prelude.{ℕ};
    ghost use Rattle.for_c.specs.TextSearch.{position};

    ghost Meaning = { ℕ };

    ghost meaning = { λ n. n };

    ghost item = { position };

    fn put<B: Buffer>(&self, buf: &mut B) -> Result<(), Error> {
        put_u16(buf, *self)
    }
}
