//! Iterators over lists that stand in the caller's bytes, by a cursor that the caller holds.

ghost use Rattle.std.specs.Prelude.{◌≡◌, ◌≢◌, ◌+◌, ◌<◌, ◌≤◌, ◌^◌, ℕ, List, [], drop, length, map, take, All, None, IfSome, IfOk, IfErr};
ghost use Rattle.pgp_base.specs.Grammar.{StandsAt};
ghost use Rattle.pgp_base.specs.declared.error.Error.{Error as Refusal};
ghost use Rattle.for_c.specs.Walks.{IsEnded, IsMarkedEnd, RefusesItem, RefusesMarked, StandsFrom, Takes, TakesAll, TakesMarked, rest as left_of, rest_of};

use crate::status::failed;
use pgp_base::Error;
use pgp_base::reading::is_marked;

/// The result at the end of an iterator.
pub const DONE: u32 = 101;

/// The result where there is no room for another item.
pub const FULL: u32 = 102;

/// How far an iterator is: the place of the next item, the place after the last, and how many items are to
/// come.
#[repr(C)]
#[derive(Clone, Copy)]
pub struct PgpCursor {
    pub at: usize,
    pub end: usize,
    pub left: usize,
}

/// Sets the cursor of a list that ends with the bytes, and whose items stand after their number.
#[inline(always)]
pub fn begin(bytes: &[u8], count: usize, cursor: &mut PgpCursor) -> u32
    ensures zero { result ≡ 0 }
    ensures set { cursor.new ≡ record { at = 4; end = length bytes.now; left = count } }
{
    *cursor = PgpCursor {
        at: 4,
        end: bytes.len(),
        left: count,
    };
    0
}

/// A kind of lists.
pub trait Listed {
    /// An item, by its places among the caller's bytes.
    type Item: Copy;

    ghost Meaning: { Type 0 };

    /// What an item of these bytes says.
    ghost meaning: { List ℕ → Self.Item → Meaning };

    ghost Spelled: { ℕ → Meaning → List ℕ → Type 0 };

    ghost Refused: { List ℕ → Refusal → Type 0 };

    /// All places that the item says lie before this one.
    ghost Inside: { ℕ → Self.Item → Type 0 };

    /// What stands after the item at the front of what is left, which begins at this place; and the item.
    // In this order no number of the item lies where an error would, so that it is stored whole.
    ///
    /// # Errors
    ///
    /// Why no item stands there.
    fn read(at: usize, rest: &[u8]) -> Result<(&[u8], Self::Item), Error>
        requires { at + length rest.now < 2 ^ 64 }
        ensures item { IfOk result (λ x. (bytes : List ℕ) → StandsFrom bytes at rest.now → StandsAt Spelled at rest.now (meaning bytes x.1) x.0.now) }
        ensures shorter { IfOk result (λ x. length x.0.now < length rest.now) }
        ensures inside { IfOk result (λ x. (size : ℕ) → at + length rest.now ≤ size → Inside size x.1) }
        ensures refused { IfErr result (λ e. Refused rest.now e) };
}

/// The next item of a list whose items are counted.
pub fn next_counted<L: Listed>(bytes: &[u8], cursor: &mut PgpCursor, item: &mut L::Item) -> u32
    ensures item { result ≡ 0 → Takes L.Spelled bytes.now cursor.old cursor.new (L.meaning bytes.now item.new) }
    ensures inside { result ≡ 0 → L.Inside (length bytes.now) item.new }
    ensures done { result ≡ 101 → IsEnded bytes.now cursor.old }
    ensures refused { result ≢ 0 → result ≢ 101 → RefusesItem L.Refused bytes.now cursor.old result }
    ensures left { result ≢ 0 → (cursor.new ≡ cursor.old) × (item.new ≡ item.old) }
{
    match between(bytes, cursor.at, cursor.end) {
        Some(rest) => next_in::<L>(rest, cursor, item),
        None => next_in::<L>(&[], cursor, item),
    }
}

/// The next item of such a list, of which this is left.
// The hint carries the speed of iterators: where nothing is left because the cursor's places are none, no item is read, and where
// something is left, the places are compared by branches, which the reading needn't wait for.
#[inline(always)]
fn next_in<L: Listed>(rest: &[u8], cursor: &mut PgpCursor, item: &mut L::Item) -> u32
    requires { cursor.old.at + length rest.now < 2 ^ 64 }
    ensures item { result ≡ 0 → (bytes : List ℕ) → rest.now ≡ left_of bytes cursor.old → Takes L.Spelled bytes cursor.old cursor.new (L.meaning bytes item.new) }
    ensures inside { result ≡ 0 → (size : ℕ) → cursor.old.at + length rest.now ≤ size → L.Inside size item.new }
    ensures some { result ≡ 0 → 0 < length rest.now }
    ensures done { result ≡ 101 → (cursor.old.left ≡ 0) × (rest.now ≡ []) }
    ensures refused { result ≢ 0 → result ≢ 101 → (bytes : List ℕ) → rest.now ≡ left_of bytes cursor.old → RefusesItem L.Refused bytes cursor.old result }
    ensures left { result ≢ 0 → (cursor.new ≡ cursor.old) × (item.new ≡ item.old) }
{
    let at = cursor.at;
    if cursor.left == 0 {
        if rest.is_empty() {
            return DONE;
        }
        return failed(Error::NotDrained);
    }
    match L::read(at, rest) {
        Ok((more, read)) => {
            cursor.at = at + (rest.len() - more.len());
            cursor.left -= 1;
            *item = read;
            0
        }
        Err(e) => failed(e),
    }
}

/// The items of such a list, up to its end, or as many as there is room for.
// The cursor is a copy meanwhile, which stays in registers.
pub fn all_counted<L: Listed>(
    bytes: &[u8],
    cursor: &mut PgpCursor,
    items: &mut [L::Item],
    count: &mut usize,
) -> u32
    ensures items { TakesAll L.Spelled bytes.now cursor.old cursor.new (map (L.meaning bytes.now) (take count.new items.new)) }
    ensures inside { All (L.Inside (length bytes.now)) (take count.new items.new) }
    ensures ended { result ≡ 0 → IsEnded bytes.now cursor.new }
    ensures full { result ≡ 102 → (count.new ≡ length items.old) × (cursor.new.left ≢ 0) }
    ensures refused { result ≢ 0 → result ≢ 102 → RefusesItem L.Refused bytes.now cursor.new result }
    ensures fits { count.new ≤ length items.old }
    ensures behind { drop count.new items.new ≡ drop count.new items.old }
    ensures same { length items.new ≡ length items.old }
{
    let mut here = *cursor;
    for at in 0..items.len() {
        let code = next_counted::<L>(bytes, &mut here, &mut items[at]);
        if code != 0 {
            *count = at;
            *cursor = here;
            return if code == DONE { 0 } else { code };
        }
    }
    *count = items.len();
    *cursor = here;
    end_counted(bytes, &here)
}

/// Whether such a list is at its end.
fn end_counted(bytes: &[u8], cursor: &PgpCursor) -> u32
    ensures ended { result ≡ 0 → IsEnded bytes.now cursor.now }
    ensures full { result ≡ 102 → cursor.now.left ≢ 0 }
    ensures refused { result ≢ 0 → result ≢ 102 → (cursor.now.left ≡ 0) × (left_of bytes.now cursor.now ≢ []) × (result ≡ 8) }
{
    if cursor.left > 0 {
        return FULL;
    }
    if rest_of(bytes, cursor.at, cursor.end).is_empty() {
        return 0;
    }
    failed(Error::NotDrained)
}

/// The next item of a list that a byte 0 ends.
pub fn next_marked<L: Listed>(bytes: &[u8], cursor: &mut PgpCursor, item: &mut L::Item) -> u32
    ensures item { result ≡ 0 → TakesMarked L.Spelled bytes.now cursor.old cursor.new (L.meaning bytes.now item.new) }
    ensures inside { result ≡ 0 → L.Inside (length bytes.now) item.new }
    ensures done { result ≡ 101 → IsMarkedEnd bytes.now cursor.old }
    ensures refused { result ≢ 0 → result ≢ 101 → RefusesMarked L.Refused bytes.now cursor.old result }
    ensures left { result ≢ 0 → (cursor.new ≡ cursor.old) × (item.new ≡ item.old) }
{
    let at = cursor.at;
    let rest = rest_of(bytes, at, cursor.end);
    if is_marked(rest) {
        if rest.len() == 1 {
            return DONE;
        }
        return failed(Error::NotDrained);
    }
    match L::read(at, rest) {
        Ok((more, read)) => {
            cursor.at = at + (rest.len() - more.len());
            *item = read;
            0
        }
        Err(e) => failed(e),
    }
}

/// The bytes from a place up to another; none where they aren't places of the bytes, in this order.
fn rest_of(bytes: &[u8], at: usize, end: usize) -> &[u8]
    ensures value { result.now ≡ rest_of bytes.now at end }
    ensures fits { at + length result.now < 2 ^ 64 }
    ensures inside { 0 < length result.now → at + length result.now ≤ length bytes.now }
{
    match between(bytes, at, end) {
        Some(rest) => rest,
        None => &[],
    }
}

/// The bytes from a place up to another, where these are places of the bytes, in this order.
#[inline(always)]
fn between(bytes: &[u8], at: usize, end: usize) -> Option<&[u8]>
    ensures some { IfSome result (λ rest. (rest.now ≡ rest_of bytes.now at end) × (at + length rest.now < 2 ^ 64)
        × (at + length rest.now ≤ length bytes.now)) }
    ensures none { result ≡ None → rest_of bytes.now at end ≡ [] }
{
    if end <= bytes.len() {
        if at <= end {
            return Some(&bytes[at..end]);
        }
    }
    None
}
