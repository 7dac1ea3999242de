//! What texts are searched for: the items of a query, read where they stand, one after another; and written.
#![tactic(auto, using(pgp_base::proofs::Parts::held_steps))]

ghost use Rattle.std.specs.Prelude.{◌≡◌, ◌≢◌, ◌⊎◌, true, false, length, map, None, Some, OnOk, IfErr};
ghost use Rattle.std.specs.List.{list_all};
ghost use Rattle.pgp_base.specs.Cause.{Wants, WantsMemory};
ghost use Rattle.pgp_base.specs.Held.{◌⊕◌};
ghost use Rattle.pgp_base.specs.PartReading.{Answers};
ghost use Rattle.pgp_values.specs.QueryReading.{operand_at, operator_at, phrase_at, query_at};
ghost use Rattle.pgp_values.specs.Tsquery.{operand, phrase, query_bytes, query_item, shown_query, tsquery};
ghost use Rattle.for_c.specs.ListWriting.{IsNotWritten, WroteValue};
ghost use Rattle.for_c.specs.Records.{BeginsList};
ghost use Rattle.for_c.specs.TextSearch.{IsQueryItemInside, is_node, item_before, node_cause, node_of, nodes, operator, operator_of, query_item_in};
ghost use Rattle.for_c.specs.Values.{Refuses};
ghost use Rattle.for_c.specs.Walks.{IsEnded, RefusesItem, Takes};

use crate::cursor::{Listed, PgpCursor, begin, next_counted};
use crate::front::PgpPart;
use crate::hstore::is_text;
use crate::list_writing::{Written, write_list};
use crate::status::{failed, no_kind};
use pgp_base::reading::{byte_at, text_at, uint16_at};
use pgp_base::{Buffer, Error, FallibleIterator, put_u16, write_cstr};
use pgp_types::codec::append;
use pgp_values::{TsItem, TsOperand};

/// An item of a `tsquery`: an operand by the place of its text, or an operator, which stands before its operands.
#[repr(C)]
#[derive(Clone, Copy)]
pub struct PgpQueryItem {
    pub text: PgpPart,
    pub distance: u16,
    pub kind: u8,
    pub weights: u8,
    pub is_prefix: bool,
}

/// An item that is written. The text of an operand has to be UTF-8; that of an operator isn't read.
#[repr(C)]
#[derive(Clone, Copy)]
pub struct PgpQueryNode<'a> {
    pub text: &'a [u8],
    pub distance: u16,
    pub kind: u8,
    pub weights: u8,
    pub is_prefix: bool,
}

/// Reads how many items a `tsquery` has, and where the first begins.
#[unsafe(no_mangle)]
pub extern "C" fn pgp_get_tsquery(bytes: &[u8], items: &mut PgpCursor) -> u32
    ensures read { result ≡ 0 → BeginsList bytes.now items.new }
    ensures refused { result ≢ 0 → Refuses tsquery bytes.now result }
    ensures left { result ≢ 0 → items.new ≡ items.old }
{
    match pgp_values::tsquery_from_sql(bytes) {
        Ok(walk) => begin(bytes, walk.size_hint().0, items),
        Err(e) => failed(e),
    }
}

/// The next item of a `tsquery`.
#[unsafe(no_mangle)]
pub extern "C" fn pgp_query_item_next(
    bytes: &[u8],
    cursor: &mut PgpCursor,
    item: &mut PgpQueryItem,
) -> u32
    ensures item { result ≡ 0 → Takes (λ place. query_item.part.Spelled) bytes.now cursor.old cursor.new (query_item_in bytes.now item.new) }
    ensures inside { result ≡ 0 → IsQueryItemInside (length bytes.now) item.new }
    ensures done { result ≡ 101 → IsEnded bytes.now cursor.old }
    ensures refused { result ≢ 0 → result ≢ 101 → RefusesItem query_item.part.Refused bytes.now cursor.old result }
    ensures left { result ≢ 0 → (cursor.new ≡ cursor.old) × (item.new ≡ item.old) }
{
    next_counted::<QueryItems>(bytes, cursor, item)
}

/// Writes a `tsquery` of these items, as they come.
#[unsafe(no_mangle)]
pub extern "C" fn pgp_put_tsquery(
    items: &[PgpQueryNode<'_>],
    out: &mut [u8],
    written: &mut usize,
) -> u32
    ensures wrote { result ≡ 0 → WroteValue nodes (map node_of items.now) out.old out.new written.new }
    ensures kinds { list_all is_node items.now ≡ false → (result ≡ 35) × (written.new ≡ 0) }
    ensures refused { result ≢ 0 → list_all is_node items.now ≡ true → IsNotWritten nodes (map node_of items.now) out.old written.new result }
{
    if !all_nodes(items) {
        return no_kind(written);
    }
    write_list(items, out, written)
}

/// Each has a kind.
fn all_nodes(items: &[PgpQueryNode<'_>]) -> bool
    ensures { result ≡ list_all is_node items.now }
{
    for item in items {
        if item.kind > 4 {
            return false;
        }
    }
    true
}

/// The items of a `tsquery`.
struct QueryItems;

impl Listed for QueryItems {
    ghost use Rattle.pgp_values.specs.Tsquery.{QueryItem, query_item};
    ghost use Rattle.for_c.specs.TextSearch.{IsQueryItemInside, query_item_in};

    type Item = PgpQueryItem;

    ghost Meaning = { QueryItem };

    ghost meaning = { λ bytes i. query_item_in bytes i };

    ghost Spelled = { λ place. query_item.part.Spelled };

    ghost Refused = { query_item.part.Refused };

    ghost Inside = { λ size i. IsQueryItemInside size i };

    fn read(at: usize, rest: &[u8]) -> Result<(&[u8], PgpQueryItem), Error> {
        match query_at(rest) {
            Ok((item, more)) => {
                let end = at + (rest.len() - more.len());
                Ok((more, item_before(item, end)))
            }
            Err(e) => Err(e),
        }
    }
}

/// The item that ends at this place.
fn item_before(item: TsItem<'_>, end: usize) -> PgpQueryItem
    ensures { result ≡ item_before (shown_query item.entry) end }
{
    match item {
        TsItem::Operand(o) => PgpQueryItem {
            text: PgpPart {
                at: end.saturating_sub(o.text.len() + 1),
                len: o.text.len(),
            },
            distance: 0,
            kind: 0,
            weights: o.weights,
            is_prefix: o.is_prefix,
        },
        TsItem::Not => operator(1, 0),
        TsItem::And => operator(2, 0),
        TsItem::Or => operator(3, 0),
        TsItem::Phrase(distance) => operator(4, distance),
    }
}

/// An operator, which has no text.
fn operator(kind: u8, distance: u16) -> PgpQueryItem
    ensures { result ≡ operator kind distance }
{
    PgpQueryItem {
        text: PgpPart { at: 0, len: 0 },
        distance,
        kind,
        weights: 0,
        is_prefix: false,
    }
}

/// The item at the front.
#[tactic(auto, unfolding(pgp_values::specs::QueryReading::query_at))]
fn query_at(bytes: &[u8]) -> Result<(TsItem<'_>, &[u8]), Error>
    ensures { Answers (λ x. (shown_query x.0, x.1.now)) result (query_at bytes.now) }
{
    let Ok((kind, rest)) = byte_at(bytes) else {
        return Err(Error::UnexpectedEof);
    };
    if kind == 1 {
        return operand_at(rest);
    }
    if kind == 2 {
        return operator_at(rest);
    }
    Err(Error::UnknownTag(kind))
}

/// What stands after the byte of an operand.
#[tactic(auto, unfolding(pgp_values::specs::QueryReading::operand_at))]
fn operand_at(bytes: &[u8]) -> Result<(TsItem<'_>, &[u8]), Error>
    ensures { Answers (λ x. (shown_query x.0, x.1.now)) result (operand_at bytes.now) }
{
    let (weights, rest) = byte_at(bytes)?;
    let (flag, rest) = byte_at(rest)?;
    let (text, rest) = text_at(rest)?;
    let operand = TsOperand {
        text,
        weights,
        is_prefix: flag != 0,
    };
    Ok((TsItem::Operand(operand), rest))
}

/// What stands after the byte of an operator.
#[tactic(auto, unfolding(pgp_values::specs::QueryReading::operator_at))]
fn operator_at(bytes: &[u8]) -> Result<(TsItem<'_>, &[u8]), Error>
    ensures { Answers (λ x. (shown_query x.0, x.1.now)) result (operator_at bytes.now) }
{
    let (operator, rest) = byte_at(bytes)?;
    if operator == 1 {
        return Ok((TsItem::Not, rest));
    }
    if operator == 2 {
        return Ok((TsItem::And, rest));
    }
    if operator == 3 {
        return Ok((TsItem::Or, rest));
    }
    if operator == 4 {
        return phrase_at(rest);
    }
    Err(Error::UnknownTag(operator))
}

/// The distance of a phrase.
fn phrase_at(bytes: &[u8]) -> Result<(TsItem<'_>, &[u8]), Error>
    ensures { Answers (λ x. (shown_query x.0, x.1.now)) result (phrase_at bytes.now) }
{
    let (distance, rest) = uint16_at(bytes)?;
    Ok((TsItem::Phrase(distance), rest))
}

impl Written for PgpQueryNode<'_> {
    ghost use Rattle.pgp_values.specs.Tsquery.{QueryItem};
    ghost use Rattle.for_c.specs.TextSearch.{node, node_of};

    ghost Meaning = { QueryItem };

    ghost meaning = { λ n. node_of n };

    ghost item = { node };

    fn put<B: Buffer>(&self, buf: &mut B) -> Result<(), Error> {
        if self.kind == 0 {
            return put_operand(self, buf);
        }
        put_operator(self.kind, self.distance, buf)
    }
}

/// Appends an operand.
fn put_operand<B: Buffer>(node: &PgpQueryNode<'_>, buf: &mut B) -> Result<(), Error>
    ensures ok { OnOk result ((node_cause (operand node.now.text.now node.now.weights node.now.is_prefix) ≡ None)
        × (B.held buf.new ≡ B.held buf.old ⊕ query_bytes (operand node.now.text.now node.now.weights node.now.is_prefix))) }
    ensures cause { IfErr result (λ e. WantsMemory (Wants B.Lacks (B.held buf.old) (length (query_bytes (operand node.now.text.now node.now.weights node.now.is_prefix)))) e
        ⊎ (node_cause (operand node.now.text.now node.now.weights node.now.is_prefix) ≡ Some e)) }
{
    if !is_text(node.text) {
        return Err(Error::NotUtf8);
    }
    match append(&[1, node.weights, u8::from(node.is_prefix)], buf) {
        Ok(()) => write_cstr(node.text, buf),
        Err(e) => Err(e),
    }
}

/// Appends an operator.
fn put_operator<B: Buffer>(kind: u8, distance: u16, buf: &mut B) -> Result<(), Error>
    ensures ok { OnOk result (B.held buf.new ≡ B.held buf.old ⊕ query_bytes (operator_of kind distance)) }
    ensures cause { IfErr result (WantsMemory (Wants B.Lacks (B.held buf.old) (length (query_bytes (operator_of kind distance))))) }
{
    match kind {
        1 => append(&[2, 1], buf),
        2 => append(&[2, 2], buf),
        3 => append(&[2, 3], buf),
        _ => put_phrase(distance, buf),
    }
}

/// Appends the operator that asks for a distance.
fn put_phrase<B: Buffer>(distance: u16, buf: &mut B) -> Result<(), Error>
    ensures ok { OnOk result (B.held buf.new ≡ B.held buf.old ⊕ query_bytes (phrase distance)) }
    ensures cause { IfErr result (WantsMemory (Wants B.Lacks (B.held buf.old) (length (query_bytes (phrase distance))))) }
{
    match append(&[2, 4], buf) {
        Ok(()) => put_u16(buf, distance),
        Err(e) => Err(e),
    }
}
