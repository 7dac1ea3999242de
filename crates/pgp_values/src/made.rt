//! Rows and composite values whose values a serializer writes.
#![tactic(auto, using(pgp_base::proofs::Parts::held_steps))]

ghost use Rattle.std.specs.Prelude.{◌≡◌, ℕ, List, Option, OnErr, OnOk, IfOk, IfErr};
ghost use Rattle.std.specs.Iterator.{IsFiniteIterable};
ghost use Rattle.pgp_base.specs.Calls.{Yielded, Gives, OwesValues};
ghost use Rattle.pgp_base.specs.Held.{◌⊕◌, IsFrontOf};
ghost use Rattle.pgp_base.specs.Wire.{oid};
ghost use Rattle.pgp_values.specs.Record.{field};
ghost use Rattle.pgp_values.specs.RecordWriting.{FieldRefused, RecordWritten, RecordRefused, WritesRecord};

use pgp_base::{BindError, Buffer, Error, IsNull, Oid, patch_u32, put_u32, put_value};
use pgp_types::codec::MOST_ITEMS;

// Appends a field, its value made by the serializer. An error leaves what stood there as a front.
fn put_made<B: Buffer, T: Drop, E: Drop, F: FnMut(T, &mut B) -> Result<IsNull, E>>(
    of_type: Oid,
    x: T,
    serializer: &mut F,
    buf: &mut B,
) -> Result<(), BindError<E>>
    requires callable { F.IsAlwaysCallable serializer.old }
    requires owes { OwesValues B.held F.pre F.step }
    ensures ok { OnOk result ((v : Option (List ℕ)) × Gives B.held F.step (B.held buf.old ⊕ oid of_type) serializer.old x v serializer.new
        × (B.held buf.new ≡ B.held buf.old ⊕ field.written (of_type, v))) }
    ensures err { OnErr result (IsFrontOf (B.held buf.old) (B.held buf.new)) }
    ensures cause { IfErr result (λ e. FieldRefused B.held F.step B.Lacks (B.held buf.old) serializer.old (of_type, x) e serializer.new) }
    ensures callable { F.IsAlwaysCallable serializer.new }
{
    match put_u32(buf, of_type) {
        Ok(()) => match put_value(serializer, x, buf) {
            Ok(_) => Ok(()),
            Err(e) => Err(e),
        },
        Err(e) => Err(BindError::Serialization(e)),
    }
}

// The record. An error leaves what stood there as a front.
fn fill_record<
    B: Buffer,
    T: Drop,
    E: Drop,
    I: IntoIterator<Item = (Oid, T)> + Drop,
    F: FnMut(T, &mut B) -> Result<IsNull, E>,
>(fields: I, serializer: &mut F, buf: &mut B) -> Result<(), BindError<E>>
where
    I::IntoIter: Drop,
    requires ends { IsFiniteIterable I.into_iter_gives I.IntoIter.can_next I.IntoIter.remaining fields }
    requires callable { F.IsAlwaysCallable serializer.old }
    requires owes { OwesValues B.held F.pre F.step }
    ensures ok { OnOk result (RecordWritten B.held F.step (Yielded I.into_iter_gives I.IntoIter.next_gives fields) serializer.old serializer.new (B.held buf.old) (B.held buf.new)) }
    ensures err { OnErr result (IsFrontOf (B.held buf.old) (B.held buf.new)) }
    ensures cause { IfErr result (RecordRefused B.held F.step (Yielded I.into_iter_gives I.IntoIter.next_gives fields) serializer.old serializer.new (B.held buf.old) B.Lacks) }
{
    let base = buf.len();
    put_u32(buf, 0)?;
    let mut count = 0u32;
    for field in fields {
        if count == MOST_ITEMS {
            return Err(BindError::Serialization(Error::TooLarge));
        }
        let (of_type, x) = field;
        match put_made(of_type, x, serializer, buf) {
            Ok(()) => count += 1,
            Err(e) => return Err(e),
        }
    }
    patch_u32(buf, base, count);
    Ok(())
}

/// Appends a row or a composite value. For each field the serializer appends the bytes of its value, or returns that it is
/// null and appends nothing; so records and arrays nest without a buffer of their own. A server wants the types of the
/// composite type's columns, in order.
///
/// # Errors
///
/// Returns `Conversion` with the serializer's error. `Serialization` is `TooLarge` if the length of a value exceeds
/// `i32::MAX`, or at a field past that many, and `OutOfMemory` if the buffer can't grow. On error the buffer is unchanged.
pub fn record_values_to_sql<
    B: Buffer,
    T: Drop,
    E: Drop,
    I: IntoIterator<Item = (Oid, T)> + Drop,
    F: FnMut(T, &mut B) -> Result<IsNull, E> + Drop,
>(fields: I, mut serializer: F, buf: &mut B) -> Result<(), BindError<E>>
where
    I::IntoIter: Drop,
    requires ends { IsFiniteIterable I.into_iter_gives I.IntoIter.can_next I.IntoIter.remaining fields }
    requires callable { F.IsAlwaysCallable serializer }
    requires owes { OwesValues B.held F.pre F.step }
    ensures { (last : F) × WritesRecord B.held F.step (Yielded I.into_iter_gives I.IntoIter.next_gives fields) serializer last (B.held buf.old) B.Lacks (B.held buf.new) result }
{
    let start = buf.len();
    match fill_record(fields, &mut serializer, buf) {
        Ok(()) => Ok(()),
        Err(e) => {
            buf.truncate(start);
            Err(e)
        }
    }
}
