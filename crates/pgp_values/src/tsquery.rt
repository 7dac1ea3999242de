//! What texts are searched for.
//!
//! PostgreSQL manual, "Text Search Types".
#![tactic(auto, using(pgp_base::proofs::Parts::held_steps))]

ghost use Rattle.std.specs.Prelude.{◌≡◌, ◌≤◌, ◌⊎◌, ◌+◌, ◌∷◌, map, length, Some, None, OnOk, OnErr, IfOk, IfErr};
ghost use Rattle.std.specs.Iterator.{IsFiniteIterable};
ghost use Rattle.pgp_base.specs.Calls.{Yielded};
ghost use Rattle.pgp_base.specs.Cause.{Wants, WantsMemory};
ghost use Rattle.pgp_base.specs.Held.{◌⊕◌, IsFrontOf};
ghost use Rattle.pgp_base.specs.PartReading.{Answers};
ghost use Rattle.pgp_types.specs.Format.{Reads};
ghost use Rattle.pgp_types.specs.Given.{WritesAll};
ghost use Rattle.pgp_values.specs.QueryReading.{operand_at, operator_at, phrase_at, query_at};
ghost use Rattle.pgp_values.specs.Tsquery.{operand_of, query_item, tsquery, shown_query};

use crate::codec::uint16_bytes;
use crate::list::{PutItem, write_list};
use pgp_base::reading::{byte_at, text_at, uint16_at};
use pgp_base::{Buffer, Counted, Error, FallibleIterator, write_cstr};
use pgp_types::codec::{append, append_both};
use pgp_types::part::natural_at;
use std::marker::Model;

// What an item is, and which operator.
const OPERAND: u8 = 1;

const OPERATOR: u8 = 2;

const NOT: u8 = 1;

const AND: u8 = 2;

const OR: u8 = 3;

const PHRASE: u8 = 4;

/// An operand of a `tsquery`.
#[derive(Debug, Clone, Copy)]
pub struct TsOperand<'a> {
    pub text: &'a str,
    /// The weights that a lexeme may have, by a bit each: 1 for D to 8 for A; 0 for any.
    pub weights: u8,
    /// Whether a lexeme need only begin with the text.
    pub is_prefix: bool,
}

/// An item of a `tsquery`. An operator stands before its operands, of `And`, `Or` and `Phrase` the right one first.
#[derive(Debug, Clone, Copy)]
pub enum TsItem<'a> {
    Operand(TsOperand<'a>),
    Not,
    And,
    Or,
    /// How many places the right operand follows the left.
    Phrase(u16),
}

impl<'a> PutItem for TsItem<'a> {
    ghost use Rattle.pgp_values.specs.Tsquery.{QueryItem, query_item, shown_query};

    ghost Meaning = { QueryItem };

    ghost meaning = { λ x. shown_query x };

    ghost item = { query_item };

    fn put<B: Buffer>(self, buf: &mut B) -> Result<(), Error> {
        put_item(self, buf)
    }
}

// Appends an operand. An error leaves what stood there as a front.
fn put_operand<B: Buffer>(o: &TsOperand<'_>, buf: &mut B) -> Result<(), Error>
    ensures ok { OnOk result ((query_item.cause (operand_of o.now) ≡ None) × (B.held buf.new ≡ B.held buf.old ⊕ query_item.written (operand_of o.now))) }
    ensures err { OnErr result (IsFrontOf (B.held buf.old) (B.held buf.new)) }
    ensures why { IfErr result (λ e. WantsMemory (Wants B.Lacks (B.held buf.old) (length (query_item.written (operand_of o.now)))) e ⊎ (query_item.cause (operand_of o.now) ≡ Some e)) }
{
    match append(&[OPERAND, o.weights, u8::from(o.is_prefix)], buf) {
        Ok(()) => write_cstr(o.text.as_bytes(), buf),
        Err(e) => Err(e),
    }
}

// Appends an operator of two bytes and what stands after them, or nothing.
fn put_operator<B: Buffer>(operator: u8, rest: &[u8], buf: &mut B) -> Result<(), Error>
    ensures ok { OnOk result (B.held buf.new ≡ B.held buf.old ⊕ 2 ∷ operator ∷ rest.now) }
    ensures err { OnErr result (IsFrontOf (B.held buf.old) (B.held buf.new)) }
    ensures why { IfErr result (WantsMemory (Wants B.Lacks (B.held buf.old) (2 + length rest.now))) }
{
    append_both(&[OPERATOR, operator], rest, buf)
}

// Appends an item. An error leaves what stood there as a front.
fn put_item<B: Buffer>(item: TsItem<'_>, buf: &mut B) -> Result<(), Error>
    ensures ok { OnOk result ((query_item.cause (shown_query item.entry) ≡ None) × (B.held buf.new ≡ B.held buf.old ⊕ query_item.written (shown_query item.entry))) }
    ensures err { OnErr result (IsFrontOf (B.held buf.old) (B.held buf.new)) }
    ensures why { IfErr result (λ e. WantsMemory (Wants B.Lacks (B.held buf.old) (length (query_item.written (shown_query item.entry)))) e ⊎ (query_item.cause (shown_query item.entry) ≡ Some e)) }
{
    match item {
        TsItem::Operand(o) => put_operand(&o, buf),
        TsItem::Not => put_operator(NOT, &[], buf),
        TsItem::And => put_operator(AND, &[], buf),
        TsItem::Or => put_operator(OR, &[], buf),
        TsItem::Phrase(distance) => put_operator(PHRASE, &uint16_bytes(distance), buf),
    }
}

/// Appends a `tsquery` of these items. A server wants each operator's operands after it, weights up to 15 and texts of at
/// most 2,046 bytes.
///
/// # Errors
///
/// Returns `EmbeddedNull` if a text has a byte 0; `TooLarge` at an item past `i32::MAX` of them; `OutOfMemory` if the
/// buffer can't grow. On error the buffer is unchanged.
pub fn tsquery_to_sql<'a, B: Buffer, I: IntoIterator<Item = TsItem<'a>> + Drop>(
    items: I,
    buf: &mut B,
) -> Result<(), Error>
where
    I::IntoIter: Drop,
    requires { IsFiniteIterable I.into_iter_gives I.IntoIter.can_next I.IntoIter.remaining items }
    ensures { WritesAll (Yielded I.into_iter_gives I.IntoIter.next_gives items) tsquery (λ xs. map shown_query xs) B.Lacks (B.held buf.old) result (B.held buf.new) }
{
    write_list(items, buf)
}

/// The items of a `tsquery`. `next` returns `UnexpectedEof` if an item is cut short, `UnknownTag` if it is neither an
/// operand nor an operator that there is, `NotUtf8` if an operand isn't text, and `NotDrained` if bytes follow the last.
#[derive(Drop)]
pub struct TsItems<'a>(Counted<'a>);

impl<'a> Model for TsItems<'a> {
    ghost use Rattle.pgp_base.specs.CountedRest.{walk_of};
    ghost use Rattle.pgp_base.specs.Walk.{Walk};
    ghost use Rattle.pgp_values.specs.QueryReading.{query_at};
    ghost use Rattle.pgp_values.specs.Tsquery.{QueryItem};

    ghost Value = { Walk QueryItem };

    ghost view = { λ walk. walk_of query_at walk.0 };
}

impl<'a> FallibleIterator for TsItems<'a> {
    type Item = TsItem<'a>;

    ghost use Rattle.pgp_values.specs.Tsquery.{QueryItem, shown_query};

    ghost Meaning = { QueryItem };

    ghost meaning = { λ x. shown_query x };

    ghost walk = { λ s. s };

    fn next(&mut self) -> Result<Option<TsItem<'a>>, Error> {
        match self.0.due() {
            Ok(Some(buf)) => self.0.take(query_at(buf)),
            Ok(None) => Ok(None),
            Err(e) => Err(e),
        }
    }

    fn size_hint(&self) -> (usize, Option<usize>) {
        self.0.size_hint()
    }
}

// What stands after the byte of an operand.
#[tactic(auto, unfolding(crate::specs::QueryReading::operand_at))]
fn operand_at(bytes: &[u8]) -> Result<(TsItem<'_>, &[u8]), Error>
    ensures { Answers (λ x. (shown_query x.0, x.1.now)) result (operand_at bytes.now) }
{
    let (weights, rest) = byte_at(bytes)?;
    let (flag, rest) = byte_at(rest)?;
    let (text, rest) = text_at(rest)?;
    let operand = TsOperand {
        text,
        weights,
        is_prefix: flag != 0,
    };
    Ok((TsItem::Operand(operand), rest))
}

// What stands after the byte of an operator.
#[tactic(auto, unfolding(crate::specs::QueryReading::operator_at))]
fn operator_at(bytes: &[u8]) -> Result<(TsItem<'_>, &[u8]), Error>
    ensures { Answers (λ x. (shown_query x.0, x.1.now)) result (operator_at bytes.now) }
{
    let (operator, rest) = byte_at(bytes)?;
    if operator == NOT {
        return Ok((TsItem::Not, rest));
    }
    if operator == AND {
        return Ok((TsItem::And, rest));
    }
    if operator == OR {
        return Ok((TsItem::Or, rest));
    }
    if operator == PHRASE {
        return phrase_at(rest);
    }
    Err(Error::UnknownTag(operator))
}

// The distance of a phrase.
fn phrase_at(bytes: &[u8]) -> Result<(TsItem<'_>, &[u8]), Error>
    ensures { Answers (λ x. (shown_query x.0, x.1.now)) result (phrase_at bytes.now) }
{
    match uint16_at(bytes) {
        Ok((distance, rest)) => Ok((TsItem::Phrase(distance), rest)),
        Err(e) => Err(e),
    }
}

// The item at the front.
#[tactic(auto, unfolding(crate::specs::QueryReading::query_at))]
fn query_at(bytes: &[u8]) -> Result<(TsItem<'_>, &[u8]), Error>
    ensures { Answers (λ x. (shown_query x.0, x.1.now)) result (query_at bytes.now) }
{
    let (kind, rest) = byte_at(bytes)?;
    if kind == OPERAND {
        return operand_at(rest);
    }
    if kind == OPERATOR {
        return operator_at(rest);
    }
    Err(Error::UnknownTag(kind))
}

/// Reads a `tsquery`. Its items are read as they are asked for; whether each operator has its operands isn't looked at.
///
/// # Errors
///
/// Returns `UnexpectedEof` if the number of items is cut short, `InvalidCount` if it is negative.
pub fn tsquery_from_sql(buf: &[u8]) -> Result<TsItems<'_>, Error>
    ensures value { Reads tsquery buf.now result }
    ensures few { IfOk result (λ w. length w.items ≤ length buf.now) }
{
    let (count, items) = natural_at(buf, Error::InvalidCount)?;
    Ok(TsItems(Counted::new(items, count)))
}
