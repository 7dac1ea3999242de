//! A length and so many bytes: read from the left, by their places, and written.
#![tactic(auto, using(pgp_base::proofs::Parts::held_steps))]

ghost use Rattle.std.specs.Prelude.{◌≡◌, ◌⊎◌, ◌++◌, length, Some, None, OnOk, IfErr};
ghost use Rattle.pgp_base.specs.Cause.{length_cause, nullable_cause, Wants, WantsMemory};
ghost use Rattle.pgp_base.specs.Held.{◌⊕◌};
ghost use Rattle.pgp_base.specs.Wire.{nullable, uint32};
ghost use Rattle.for_c.specs.Lists.{value_of};
ghost use Rattle.pgp_base.specs.PartReading.{Answers};
ghost use Rattle.pgp_types.specs.PartReading.{nullable_at, sized_at};
ghost use Rattle.pgp_types.specs.Part.{shown};
ghost use Rattle.for_c.specs.PartPlaces.{column_before};

use crate::listing::PgpValue;
use crate::row::PgpColumn;
use pgp_base::reading::int32_at;
use pgp_base::{Buffer, Error, length_field, put_u32};

/// The length of a null.
const NULL: u32 = 0xffff_ffff;

/// A value after its length, or a null; rejected where the length passes the end.
#[tactic(auto, unfolding(pgp_types::specs::PartReading::nullable_at))]
pub fn nullable_at(bytes: &[u8], past_end: Error) -> Result<(Option<&[u8]>, &[u8]), Error>
    ensures { Answers (λ x. (shown x.0, x.1.now)) result (nullable_at past_end bytes.now) }
{
    let Ok((len, rest)) = int32_at(bytes) else {
        return Err(Error::UnexpectedEof);
    };
    if len < 0 {
        return Ok((None, rest));
    }
    let len = len as usize;
    if rest.len() < len {
        return Err(past_end);
    }
    let (value, rest) = rest.split_at(len);
    Ok((Some(value), rest))
}

/// A length, and so many bytes; rejected where the length is negative or passes the end.
#[tactic(auto, unfolding(pgp_types::specs::PartReading::sized_at, pgp_types::specs::PartReading::natural_at))]
pub fn sized_at(bytes: &[u8], wrong: Error) -> Result<(&[u8], &[u8]), Error>
    ensures { Answers (λ x. (x.0.now, x.1.now)) result (sized_at wrong bytes.now) }
{
    let Ok((len, rest)) = int32_at(bytes) else {
        return Err(Error::UnexpectedEof);
    };
    if len < 0 {
        return Err(wrong);
    }
    let len = len as usize;
    if rest.len() < len {
        return Err(wrong);
    }
    Ok(rest.split_at(len))
}

/// The place of a value that ends at this place.
pub fn column_before(value: Option<&[u8]>, end: usize) -> PgpColumn
    ensures { result ≡ column_before (shown value.entry) end }
{
    match value {
        Some(value) => PgpColumn {
            start: end.saturating_sub(value.len()),
            end,
            is_null: false,
        },
        None => PgpColumn {
            start: 0,
            end: 0,
            is_null: true,
        },
    }
}

/// Appends a value after its length, or a null.
#[tactic(auto, using(pgp_base::proofs::Parts::null_spelled, pgp_base::proofs::Parts::held_steps))]
pub fn put_value<B: Buffer>(value: &PgpValue<'_>, buf: &mut B) -> Result<(), Error>
    ensures ok { OnOk result ((nullable_cause (value_of value.now) ≡ None) × (B.held buf.new ≡ B.held buf.old ⊕ nullable (value_of value.now))) }
    ensures cause { IfErr result (λ e. WantsMemory (Wants B.Lacks (B.held buf.old) (length (nullable (value_of value.now)))) e ⊎ (nullable_cause (value_of value.now) ≡ Some e)) }
{
    if value.is_null {
        return put_u32(buf, NULL);
    }
    put_counted(value.bytes.len(), value.bytes, buf)
}

/// Appends a count, and bytes.
// Here and in what else is written in steps a `match` stands in the place of `?`, whose two calls cost the proof more than a step.
pub fn put_counted<B: Buffer>(count: usize, bytes: &[u8], buf: &mut B) -> Result<(), Error>
    ensures ok { OnOk result ((length_cause count ≡ None) × (B.held buf.new ≡ B.held buf.old ⊕ (uint32 count ++ bytes.now))) }
    ensures cause { IfErr result (λ e. WantsMemory (Wants B.Lacks (B.held buf.old) (length (uint32 count ++ bytes.now))) e ⊎ (length_cause count ≡ Some e)) }
{
    match length_field(count) {
        Ok(count) => put_behind(count, bytes, buf),
        Err(e) => Err(e),
    }
}

/// Appends a number, and bytes.
fn put_behind<B: Buffer>(number: u32, bytes: &[u8], buf: &mut B) -> Result<(), Error>
    ensures ok { OnOk result (B.held buf.new ≡ B.held buf.old ⊕ (uint32 number ++ bytes.now)) }
    ensures cause { IfErr result (WantsMemory (Wants B.Lacks (B.held buf.old) (length (uint32 number ++ bytes.now)))) }
{
    match put_u32(buf, number) {
        Ok(()) => match buf.append(bytes) {
            Ok(()) => Ok(()),
            Err(e) => Err(Error::from(e)),
        },
        Err(e) => Err(e),
    }
}
