//! Ranges.
#![tactic(auto, using(pgp_base::proofs::Parts::held_steps))]

ghost use Rattle.std.specs.Prelude.{◌≡◌, ◌≢◌, ◌⊎◌, ◌≤◌, length, Ok, Some, None, OnOk, IfErr};
ghost use Rattle.pgp_base.specs.Cause.{Wants, WantsMemory};
ghost use Rattle.pgp_base.specs.Held.{◌⊕◌};
ghost use Rattle.pgp_types.specs.Format.{Reads};
ghost use Rattle.pgp_types.specs.Part.{shown};
ghost use Rattle.pgp_types.specs.Range.{empty, range, range_bytes, range_cause, side_bit, side_bytes, side_cause};
ghost use Rattle.pgp_types.specs.RangeReading.{shown_side};
ghost use Rattle.for_c.specs.Compound.{IsRangeInside, range_in};
ghost use Rattle.for_c.specs.PartPlaces.{bound_before, side_length, value_length};
ghost use Rattle.for_c.specs.Putting.{IsNoRange, range_of_sides, side_of};
ghost use Rattle.for_c.specs.Values.{Lacks, Refuses, Wrote};

use crate::listing::PgpValue;
use crate::part::{column_before, put_value};
use crate::row::PgpColumn;
use crate::scalar::{Scalar, put};
use crate::status::{failed, no_kind, refused, sent};
use pgp_base::{Buffer, Error, Window, put_u8};
use pgp_types::{Range, RangeBound};

/// A side of a range: 0 no bound, 1 a bound that belongs to the range, 2 one that doesn't; and the place of the bound's value.
#[repr(C)]
#[derive(Clone, Copy)]
pub struct PgpBound {
    pub value: PgpColumn,
    pub kind: u8,
}

/// A side of a range that is written, with its bound's value, which isn't read where there is no bound.
#[repr(C)]
#[derive(Clone, Copy)]
pub struct PgpSide<'a> {
    pub value: PgpValue<'a>,
    pub kind: u8,
}

/// A range. Where it is empty, its sides say that there is no bound.
#[repr(C)]
#[derive(Clone, Copy)]
pub struct PgpRange {
    pub lower: PgpBound,
    pub upper: PgpBound,
    pub is_empty: bool,
}

/// Reads a range of any type, from all of the bytes.
#[unsafe(no_mangle)]
pub extern "C" fn pgp_get_range(bytes: &[u8], value: &mut PgpRange) -> u32
    ensures read { result ≡ 0 → Reads range bytes.now (Ok (range_in bytes.now value.new)) }
    ensures inside { result ≡ 0 → IsRangeInside (length bytes.now) value.new }
    ensures refused { result ≢ 0 → Refuses range bytes.now result }
    ensures left { result ≢ 0 → value.new ≡ value.old }
{
    match pgp_types::range_from_sql(bytes) {
        Ok(Range::Empty) => {
            *value = PgpRange {
                lower: bound_before(RangeBound::Unbounded, 0),
                upper: bound_before(RangeBound::Unbounded, 0),
                is_empty: true,
            };
            0
        }
        Ok(Range::Nonempty(lower, upper)) => {
            let first = len_of(lower).saturating_add(5);
            *value = PgpRange {
                lower: bound_before(lower, first),
                upper: bound_before(upper, bytes.len()),
                is_empty: false,
            };
            0
        }
        Err(e) => failed(e),
    }
}

/// A side whose value ends at this place.
fn bound_before(side: RangeBound<Option<&[u8]>>, end: usize) -> PgpBound
    ensures { result ≡ bound_before (shown_side side.entry) end }
{
    match side {
        RangeBound::Unbounded => PgpBound {
            value: column_before(None, end),
            kind: 0,
        },
        RangeBound::Inclusive(value) => PgpBound {
            value: column_before(value, end),
            kind: 1,
        },
        RangeBound::Exclusive(value) => PgpBound {
            value: column_before(value, end),
            kind: 2,
        },
    }
}

/// How many bytes the value of a side has.
fn len_of(side: RangeBound<Option<&[u8]>>) -> usize
    ensures { result ≡ side_length (shown_side side.entry) }
{
    match side {
        RangeBound::Unbounded => 0,
        RangeBound::Inclusive(value) => value_len(value),
        RangeBound::Exclusive(value) => value_len(value),
    }
}

/// How many bytes a value has.
fn value_len(value: Option<&[u8]>) -> usize
    ensures { result ≡ value_length (shown value.entry) }
{
    match value {
        Some(value) => value.len(),
        None => 0,
    }
}

/// Writes the empty range, of any type.
#[unsafe(no_mangle)]
pub extern "C" fn pgp_put_empty_range(out: &mut [u8], written: &mut usize) -> u32
    ensures wrote { result ≡ 0 → Wrote (range.written empty) out.old out.new written.new }
    ensures lacks { result ≢ 0 → Lacks (range.written empty) out.old written.new result }
{
    put(Scalar::EmptyRange, out, written)
}

/// Writes a range between two sides, of any type.
#[unsafe(no_mangle)]
pub extern "C" fn pgp_put_range(
    lower: &PgpSide<'_>,
    upper: &PgpSide<'_>,
    out: &mut [u8],
    written: &mut usize,
) -> u32
    ensures wrote { result ≡ 0 → Wrote (range.written (range_of_sides lower.now upper.now)) out.old out.new written.new }
    ensures known { result ≡ 0 → (lower.now.kind ≤ 2) × (upper.now.kind ≤ 2) }
    ensures refused { result ≢ 0 → (written.new ≡ 0) × (IsNoRange lower.now upper.now result ⊎ Lacks (range.written (range_of_sides lower.now upper.now)) out.old written.new result) }
{
    if lower.kind > 2 {
        return no_kind(written);
    }
    if upper.kind > 2 {
        return no_kind(written);
    }
    let mut window = Window::new(out);
    match put_sides(lower, upper, &mut window) {
        Ok(()) => sent(&window, written),
        Err(e) => refused(e, written),
    }
}

/// The tag, and both sides.
fn put_sides<B: Buffer>(lower: &PgpSide<'_>, upper: &PgpSide<'_>, buf: &mut B) -> Result<(), Error>
    ensures ok { OnOk result ((range_cause (range_of_sides lower.now upper.now) ≡ None) × (B.held buf.new ≡ B.held buf.old ⊕ range_bytes (range_of_sides lower.now upper.now))) }
    ensures cause { IfErr result (λ e. WantsMemory (Wants B.Lacks (B.held buf.old) (length (range_bytes (range_of_sides lower.now upper.now)))) e ⊎ (range_cause (range_of_sides lower.now upper.now) ≡ Some e)) }
{
    match put_u8(buf, bit(lower, 8, 2) | bit(upper, 16, 4)) {
        Ok(()) => match put_side(lower, buf) {
            Ok(()) => put_side(upper, buf),
            Err(e) => Err(e),
        },
        Err(e) => Err(e),
    }
}

/// The bit of the tag that speaks of a side.
fn bit(side: &PgpSide<'_>, unbounded: u8, inclusive: u8) -> u8
    ensures { result ≡ side_bit (record { unbounded = unbounded; inclusive = inclusive }) (side_of side.now) }
{
    match side.kind {
        0 => unbounded,
        1 => inclusive,
        _ => 0,
    }
}

/// The value of a side that has a bound.
fn put_side<B: Buffer>(side: &PgpSide<'_>, buf: &mut B) -> Result<(), Error>
    ensures ok { OnOk result ((side_cause (side_of side.now) ≡ None) × (B.held buf.new ≡ B.held buf.old ⊕ side_bytes (side_of side.now))) }
    ensures cause { IfErr result (λ e. WantsMemory (Wants B.Lacks (B.held buf.old) (length (side_bytes (side_of side.now)))) e ⊎ (side_cause (side_of side.now) ≡ Some e)) }
{
    if side.kind == 0 {
        return Ok(());
    }
    put_value(&side.value, buf)
}
