//! Rows and composite values.
//!
//! PostgreSQL manual, "Composite Types".
#![tactic(auto, using(pgp_base::proofs::Parts::held_steps))]

ghost use Rattle.std.specs.Prelude.{◌≡◌, ◌≤◌, ◌⊎◌, ℕ, List, map, length, Some, None, OnOk, OnErr, IfOk, IfErr};
ghost use Rattle.std.specs.Iterator.{IsFiniteIterable};
ghost use Rattle.pgp_base.specs.Calls.{Yielded};
ghost use Rattle.pgp_base.specs.Cause.{Wants, WantsMemory, nullable_cause};
ghost use Rattle.pgp_base.specs.Held.{◌⊕◌, IsFrontOf};
ghost use Rattle.pgp_base.specs.PartReading.{Answers};
ghost use Rattle.pgp_base.specs.Wire.{nullable};
ghost use Rattle.pgp_types.specs.Format.{Reads};
ghost use Rattle.pgp_types.specs.Given.{WritesAll};
ghost use Rattle.pgp_types.specs.Part.{shown};
ghost use Rattle.pgp_values.specs.ListReading.{field_at};
ghost use Rattle.pgp_values.specs.Record.{field, composite, shown_field};

use crate::list::{PutItem, write_list};
use crate::multirange::put_member;
use pgp_base::reading::oid_at;
use pgp_base::{Buffer, Counted, Error, FallibleIterator, Oid, put_u32};
use pgp_types::part::{natural_at, nullable_at};
use std::marker::Model;

// The length of a null.
const NULL: u32 = 0xffff_ffff;

// The type of a field, and its value or a null.
impl<'a> PutItem for (Oid, Option<&'a [u8]>) {
    ghost use Rattle.pgp_values.specs.Record.{Field, field, shown_field};

    ghost Meaning = { Field };

    ghost meaning = { λ x. shown_field x };

    ghost item = { field };

    fn put<B: Buffer>(self, buf: &mut B) -> Result<(), Error> {
        let (of_type, value) = self;
        put_field(of_type, value, buf)
    }
}

// Appends a value after its length, or a null. An error leaves what stood there as a front.
#[tactic(auto, using(pgp_base::proofs::Parts::null_spelled, pgp_base::proofs::Parts::held_steps))]
fn put_nullable<B: Buffer>(v: Option<&[u8]>, buf: &mut B) -> Result<(), Error>
    ensures ok { OnOk result ((nullable_cause (shown v.entry) ≡ None) × (B.held buf.new ≡ B.held buf.old ⊕ nullable (shown v.entry))) }
    ensures err { OnErr result (IsFrontOf (B.held buf.old) (B.held buf.new)) }
    ensures cause { IfErr result (λ e. WantsMemory (Wants B.Lacks (B.held buf.old) (length (nullable (shown v.entry)))) e ⊎ (nullable_cause (shown v.entry) ≡ Some e)) }
{
    match v {
        Some(bytes) => put_member(bytes, buf),
        None => put_u32(buf, NULL),
    }
}

// Appends a field. An error leaves what stood there as a front.
fn put_field<B: Buffer>(of_type: Oid, value: Option<&[u8]>, buf: &mut B) -> Result<(), Error>
    ensures ok { OnOk result ((field.cause (of_type, shown value.entry) ≡ None) × (B.held buf.new ≡ B.held buf.old ⊕ field.written (of_type, shown value.entry))) }
    ensures err { OnErr result (IsFrontOf (B.held buf.old) (B.held buf.new)) }
    ensures why { IfErr result (λ e. WantsMemory (Wants B.Lacks (B.held buf.old) (length (field.written (of_type, shown value.entry)))) e ⊎ (field.cause (of_type, shown value.entry) ≡ Some e)) }
{
    match put_u32(buf, of_type) {
        Ok(()) => put_nullable(value, buf),
        Err(e) => Err(e),
    }
}

/// Appends a row or a composite value: the type of each field, and its value or a null. A server wants the types of
/// the composite type's columns, in order.
///
/// # Errors
///
/// Returns `TooLarge` if the length of a value exceeds `i32::MAX`, or at a field past that many; `OutOfMemory` if the
/// buffer can't grow. On error the buffer is unchanged.
pub fn record_to_sql<'a, B: Buffer, I: IntoIterator<Item = (Oid, Option<&'a [u8]>)> + Drop>(
    fields: I,
    buf: &mut B,
) -> Result<(), Error>
where
    I::IntoIter: Drop,
    requires { IsFiniteIterable I.into_iter_gives I.IntoIter.can_next I.IntoIter.remaining fields }
    ensures { WritesAll (Yielded I.into_iter_gives I.IntoIter.next_gives fields) composite (λ xs. map shown_field xs) B.Lacks (B.held buf.old) result (B.held buf.new) }
{
    write_list(fields, buf)
}

/// The fields of a record: the type of each, and its value or `None` for a null. `next` returns `UnexpectedEof` if a type
/// or a length is cut short, `InvalidValueLength` if a length exceeds the bytes left, and `NotDrained` if bytes follow the
/// last.
#[derive(Drop)]
pub struct RecordFields<'a>(Counted<'a>);

impl<'a> Model for RecordFields<'a> {
    ghost use Rattle.pgp_base.specs.CountedRest.{walk_of};
    ghost use Rattle.pgp_base.specs.Walk.{Walk};
    ghost use Rattle.pgp_values.specs.ListReading.{field_at};
    ghost use Rattle.pgp_values.specs.Record.{Field};

    ghost Value = { Walk Field };

    ghost view = { λ walk. walk_of field_at walk.0 };
}

impl<'a> FallibleIterator for RecordFields<'a> {
    type Item = (Oid, Option<&'a [u8]>);

    ghost use Rattle.pgp_values.specs.Record.{Field, shown_field};

    ghost Meaning = { Field };

    ghost meaning = { λ x. shown_field x };

    ghost walk = { λ s. s };

    fn next(&mut self) -> Result<Option<(Oid, Option<&'a [u8]>)>, Error> {
        match self.0.due() {
            Ok(Some(buf)) => self.0.take(field_at(buf)),
            Ok(None) => Ok(None),
            Err(e) => Err(e),
        }
    }

    fn size_hint(&self) -> (usize, Option<usize>) {
        self.0.size_hint()
    }
}

// The field at the front.
#[tactic(auto, unfolding(crate::specs::ListReading::field_at))]
fn field_at(bytes: &[u8]) -> Result<((Oid, Option<&[u8]>), &[u8]), Error>
    ensures { Answers (λ x. (shown_field x.0, x.1.now)) result (field_at bytes.now) }
{
    match oid_at(bytes) {
        Ok((of_type, rest)) => match nullable_at(rest, Error::InvalidValueLength) {
            Ok((value, rest)) => Ok(((of_type, value), rest)),
            Err(e) => Err(e),
        },
        Err(e) => Err(e),
    }
}

/// Reads a row or a composite value. Its fields are read as they are asked for.
///
/// # Errors
///
/// Returns `UnexpectedEof` if the number of fields is cut short, `InvalidCount` if it is negative.
pub fn record_from_sql(buf: &[u8]) -> Result<RecordFields<'_>, Error>
    ensures value { Reads composite buf.now result }
    ensures few { IfOk result (λ w. length w.items ≤ length buf.now) }
{
    let (count, fields) = natural_at(buf, Error::InvalidCount)?;
    Ok(RecordFields(Counted::new(fields, count)))
}
