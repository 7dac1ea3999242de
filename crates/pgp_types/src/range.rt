//! Ranges.
//!
//! PostgreSQL manual, "Range Types".
#![tactic(auto, using(pgp_base::proofs::Parts::held_steps))]

ghost use Rattle.std.specs.Prelude.{◌≡◌, ◌⊎◌, ℕ, ◌≤◌, List, [], length, Some, None, OnOk, OnErr, IfOk, IfErr};
ghost use Rattle.pgp_base.specs.Calls.{Adds, Appends, value_of, length_of};
ghost use Rattle.pgp_base.specs.Cause.{length_cause, nullable_cause, Wants, WantsMemory};
ghost use Rattle.pgp_base.specs.Held.{Held, ◌⊕◌, inserted, IsFrontOf};
ghost use Rattle.pgp_base.specs.PartReading.{Answers};
ghost use Rattle.pgp_base.specs.Wire.{uint32, nullable};
ghost use Rattle.pgp_types.specs.Format.{ReadsBy, Writes};
ghost use Rattle.pgp_types.specs.Range.{Side, range, empty, side_bit, side_bytes, side_cause};
ghost use Rattle.pgp_types.specs.RangeReading.{shown_side, shown_range, side_at, range_at};
ghost use Rattle.pgp_types.specs.RangeWriting.{OwesBound, IsNullBound, side_of, cut_of, Extends, Makes, SideStops, WritesRange, RangeStops, RangeWritten};
ghost use Rattle.pgp_types.specs.RangeSteps.{IsValueBehind, IsSideBehind};

use crate::codec::append;
use crate::part::nullable_at;
use pgp_base::big_endian::u32_bytes;
use pgp_base::reading::byte_at;
use pgp_base::{BindError, Buffer, Error, IsNull, length_field, put_u8};

// The tag of the empty range, and the bits of any other.
const EMPTY: u8 = 1;

const LOWER_INCLUSIVE: u8 = 2;

const UPPER_INCLUSIVE: u8 = 4;

const LOWER_UNBOUNDED: u8 = 8;

const UPPER_UNBOUNDED: u8 = 16;

/// One side of a range.
#[derive(Debug, Clone, Copy, PartialEq, Eq, Drop)]
pub enum RangeBound<T> {
    /// The bound belongs to the range.
    Inclusive(T),
    /// The bound doesn't belong to the range.
    Exclusive(T),
    /// There is no bound.
    Unbounded,
}

/// A range, its bounds as the bytes of their values.
#[derive(Drop)]
pub enum Range<'a> {
    /// Nothing lies in it.
    Empty,
    /// Something may lie in it: its lower and its upper side. `None` is a null, which no server sends.
    Nonempty(RangeBound<Option<&'a [u8]>>, RangeBound<Option<&'a [u8]>>),
}

/// Appends an empty range, of whatever type.
///
/// # Errors
///
/// Returns `OutOfMemory` if the buffer can't grow. On error the buffer is unchanged.
pub fn empty_range_to_sql<B: Buffer>(buf: &mut B) -> Result<(), Error>
    ensures { Writes range empty B.Lacks (B.held buf.old) result (B.held buf.new) }
{
    append(&[EMPTY], buf)
}

// Calls the closure of a side, and says what the call put after the bytes that stood there.
fn bound_by<B: Buffer, E, F: FnOnce(&mut B) -> Result<RangeBound<IsNull>, E>>(
    f: F,
    buf: &mut B,
) -> Result<RangeBound<IsNull>, E>
    requires callable { F.IsAlwaysCallable f }
    requires owes { OwesBound B.held F.pre F.post f }
    ensures { (p : List ℕ) × Appends B.held F.post (B.held buf.old) f result p × Adds result p (B.held buf.old) (B.held buf.new)
        × IfOk result (λ answer. IsNullBound answer → p ≡ []) }
{
    f(buf)
}

// What stands in the length's field of a value of so many bytes, or of a null.
fn length_of_value(null: IsNull, len: usize) -> Result<u32, Error>
    ensures value { IfOk result (λ n. (p : List ℕ) → length p ≡ len → (uint32 n ≡ length_of null p) × (nullable_cause (value_of null p) ≡ None)) }
    ensures cause { IfErr result (λ e. (null ≡ IsNull.No) × (length_cause len ≡ Some e)) }
{
    match null {
        IsNull::Yes => Ok(0xffff_ffff),
        IsNull::No => length_field(len),
    }
}

// Puts a number in four bytes at `place`.
#[tactic(auto, unfolding(pgp_base::specs::Wire::uint32), using(pgp_base::proofs::Parts::wants_now))]
fn insert_u32<B: Buffer>(buf: &mut B, place: usize, n: u32) -> Result<(), Error>
    requires { place ≤ length (B.held buf.old).bytes }
    ensures ok { OnOk result (B.held buf.new ≡ inserted (B.held buf.old) place (uint32 n)) }
    ensures err { OnErr result (B.held buf.new ≡ B.held buf.old) }
    ensures cause { IfErr result (WantsMemory (Wants B.Lacks (B.held buf.old) 4)) }
{
    let bytes = u32_bytes(n);
    buf.insert(place, &bytes)?;
    Ok(())
}

// Puts its length before the value that ends the buffer from `base` on, or makes a null of no bytes.
fn put_length<B: Buffer>(buf: &mut B, base: usize, null: IsNull) -> Result<(), Error>
    requires { base ≤ length (B.held buf.old).bytes }
    ensures ok { OnOk result ((a : Held B.Kept) (p : List ℕ) → IsValueBehind a p base null (B.held buf.old)
        → (B.held buf.new ≡ a ⊕ nullable (value_of null p)) × (nullable_cause (value_of null p) ≡ None)) }
    ensures err { OnErr result (B.held buf.new ≡ B.held buf.old) }
    ensures cause { IfErr result (λ e. (a : Held B.Kept) (p : List ℕ) → IsValueBehind a p base null (B.held buf.old)
        → WantsMemory (Wants B.Lacks a (length (nullable (value_of null p)))) e ⊎ (nullable_cause (value_of null p) ≡ Some e)) }
{
    let size = length_of_value(null, buf.len() - base)?;
    insert_u32(buf, base, size)
}

// Puts the length before the side that ends the buffer, or cuts it off where there is no bound.
fn finish_side<B: Buffer>(buf: &mut B, base: usize, answer: RangeBound<IsNull>) -> Result<(), Error>
    requires { base ≤ length (B.held buf.old).bytes }
    ensures ok { OnOk result ((a : Held B.Kept) (p : List ℕ) → IsSideBehind a p base answer (B.held buf.old)
        → Extends (cut_of answer p) a (side_bytes (side_of answer p)) (B.held buf.new) × (side_cause (side_of answer p) ≡ None)) }
    ensures err { OnErr result (B.held buf.new ≡ B.held buf.old) }
    ensures cause { IfErr result (λ e. (a : Held B.Kept) (p : List ℕ) → IsSideBehind a p base answer (B.held buf.old)
        → WantsMemory (Wants B.Lacks a (length (side_bytes (side_of answer p)))) e ⊎ (side_cause (side_of answer p) ≡ Some e)) }
{
    match answer {
        RangeBound::Unbounded => {
            buf.truncate(base);
            Ok(())
        }
        RangeBound::Inclusive(null) => put_length(buf, base, null),
        RangeBound::Exclusive(null) => put_length(buf, base, null),
    }
}

// The bit of the tag that speaks of a side.
fn bit_of(answer: RangeBound<IsNull>, unbounded: u8, inclusive: u8) -> u8
    ensures { (p : List ℕ) → result ≡ side_bit (record { unbounded = unbounded; inclusive = inclusive }) (side_of answer p) }
{
    match answer {
        RangeBound::Unbounded => unbounded,
        RangeBound::Inclusive(_) => inclusive,
        RangeBound::Exclusive(_) => 0,
    }
}

// Appends the side that the closure makes, and returns its bit of the tag. An error leaves what stood there as a front.
fn put_side<B: Buffer, E: Drop, F: FnOnce(&mut B) -> Result<RangeBound<IsNull>, E>>(
    f: F,
    unbounded: u8,
    inclusive: u8,
    buf: &mut B,
) -> Result<u8, BindError<E>>
    requires callable { F.IsAlwaysCallable f }
    requires owes { OwesBound B.held F.pre F.post f }
    ensures ok { IfOk result (λ bit. (s : Side) × (n : ℕ) × Makes B.held F.post (B.held buf.old) f s n × (bit ≡ side_bit (record { unbounded = unbounded; inclusive = inclusive }) s)
        × Extends n (B.held buf.old) (side_bytes s) (B.held buf.new)) }
    ensures err { OnErr result (IsFrontOf (B.held buf.old) (B.held buf.new)) }
    ensures cause { IfErr result (SideStops B.held F.post B.Lacks (B.held buf.old) f) }
{
    let base = buf.len();
    match bound_by(f, buf) {
        Err(e) => Err(BindError::Conversion(e)),
        Ok(answer) => {
            if let Err(e) = finish_side(buf, base, answer) {
                return Err(BindError::Serialization(e));
            }
            Ok(bit_of(answer, unbounded, inclusive))
        }
    }
}

// The value. An error leaves what stood there as a front.
fn fill_range<
    B: Buffer,
    E: Drop,
    F: FnOnce(&mut B) -> Result<RangeBound<IsNull>, E>,
    G: FnOnce(&mut B) -> Result<RangeBound<IsNull>, E> + Drop,
>(lower: F, upper: G, buf: &mut B) -> Result<(), BindError<E>>
    requires lower_callable { F.IsAlwaysCallable lower }
    requires upper_callable { G.IsAlwaysCallable upper }
    requires lower_owes { OwesBound B.held F.pre F.post lower }
    requires upper_owes { OwesBound B.held G.pre G.post upper }
    ensures ok { OnOk result (WritesRange B.held F.post G.post lower upper (B.held buf.old) (B.held buf.new)) }
    ensures err { OnErr result (IsFrontOf (B.held buf.old) (B.held buf.new)) }
    ensures cause { IfErr result (RangeStops B.held F.post G.post lower upper (B.held buf.old) B.Lacks) }
{
    let base = buf.len();
    put_u8(buf, 0)?;
    let low = put_side(lower, LOWER_UNBOUNDED, LOWER_INCLUSIVE, buf)?;
    let high = put_side(upper, UPPER_UNBOUNDED, UPPER_INCLUSIVE, buf)?;
    buf.patch(base, &[low | high]);
    Ok(())
}

/// Appends a range between two sides, of which each closure appends the bytes of its value, or returns that it is a null or that
/// there is no bound. The lower is called first, and the upper not at all where the lower failed. The length is put before
/// what a closure appended, so that no memory is asked for but the range's own. What a closure appended for `Unbounded` is
/// dropped: in memory of the caller's, what stood there isn't put back.
///
/// # Errors
///
/// `Conversion` is a closure's own error. `Serialization` is `TooLarge` if the length of a side's value exceeds `i32::MAX`, and
/// `OutOfMemory` if the buffer can't grow. On error the buffer is unchanged.
pub fn range_to_sql<
    B: Buffer,
    E: Drop,
    F: FnOnce(&mut B) -> Result<RangeBound<IsNull>, E>,
    G: FnOnce(&mut B) -> Result<RangeBound<IsNull>, E> + Drop,
>(lower: F, upper: G, buf: &mut B) -> Result<(), BindError<E>>
    requires lower_callable { F.IsAlwaysCallable lower }
    requires upper_callable { G.IsAlwaysCallable upper }
    requires lower_owes { OwesBound B.held F.pre F.post lower }
    requires upper_owes { OwesBound B.held G.pre G.post upper }
    ensures { RangeWritten B.held F.post G.post lower upper (B.held buf.old) B.Lacks (B.held buf.new) result }
{
    let start = buf.len();
    match fill_range(lower, upper, buf) {
        Ok(()) => Ok(()),
        Err(e) => {
            buf.truncate(start);
            Err(e)
        }
    }
}

// The side at the front.
#[tactic(auto, unfolding(crate::specs::RangeReading::side_at))]
fn side_at(
    bytes: &[u8],
    tag: u8,
    unbounded: u8,
    inclusive: u8,
) -> Result<(RangeBound<Option<&[u8]>>, &[u8]), Error>
    ensures { Answers (λ x. (shown_side x.0, x.1.now)) result (side_at (record { unbounded = unbounded; inclusive = inclusive }) tag bytes.now) }
{
    if tag & unbounded != 0 {
        return Ok((RangeBound::Unbounded, bytes));
    }
    let (value, rest) = nullable_at(bytes, Error::InvalidValueLength)?;
    if tag & inclusive == 0 {
        return Ok((RangeBound::Exclusive(value), rest));
    }
    Ok((RangeBound::Inclusive(value), rest))
}

// The range that all of the bytes spell.
#[tactic(auto, unfolding(crate::specs::RangeReading::range_at))]
fn range_at(buf: &[u8]) -> Result<Range<'_>, Error>
    ensures { Answers shown_range result (range_at buf.now) }
{
    let (tag, rest) = byte_at(buf)?;
    if tag == EMPTY {
        if !rest.is_empty() {
            return Err(Error::NotDrained);
        }
        return Ok(Range::Empty);
    }
    let (lower, rest) = side_at(rest, tag, LOWER_UNBOUNDED, LOWER_INCLUSIVE)?;
    let (upper, rest) = side_at(rest, tag, UPPER_UNBOUNDED, UPPER_INCLUSIVE)?;
    if !rest.is_empty() {
        return Err(Error::NotDrained);
    }
    Ok(Range::Nonempty(lower, upper))
}

/// Reads a range of any type, its bounds as the bytes of their values.
///
/// # Errors
///
/// Returns `UnexpectedEof` if there is no tag, or a bound's length is cut short; `InvalidValueLength` if that passes
/// the end; `NotDrained` if bytes stand after the range.
pub fn range_from_sql(buf: &[u8]) -> Result<Range<'_>, Error>
    ensures { ReadsBy shown_range range buf.now result }
{
    range_at(buf)
}
