//! Arrays, written.
//!
//! PostgreSQL manual, "Arrays".
#![tactic(auto, using(pgp_base::proofs::Parts::held_steps))]

ghost use Rattle.std.specs.Prelude.{◌≡◌, ℕ, ◌*◌, ◌<◌, ◌⊎◌, List, length, Option, None, OnErr, OnOk, IfOk, IfErr, All};
ghost use Rattle.std.specs.List.{flat_map};
ghost use Rattle.std.specs.Iterator.{IsFiniteIterable};
ghost use Rattle.pgp_base.specs.Wire.{nullable};
ghost use Rattle.pgp_base.specs.Cause.{length_cause, Wants, WantsMemory};
ghost use Rattle.pgp_base.specs.Held.{◌⊕◌, IsFrontOf};
ghost use Rattle.pgp_base.specs.Calls.{Yielded, SoFar, OwesValues};
ghost use Rattle.pgp_types.specs.Array.{array, dimension, IsDimension, has_null, dimension_bytes};
ghost use Rattle.pgp_types.specs.ArrayWriting.{before_elements, WantsHead, DimensionsPast, Made, MadeUpTo, ArrayWritten, ArrayRefused, WritesArray};

use crate::array::ArrayDimension;
use pgp_base::{BindError, Buffer, Error, IsNull, Oid, patch_u32, put_u32, put_value};

// Appends a dimension.
fn put_dimension<B: Buffer>(dimension: ArrayDimension, buf: &mut B) -> Result<(), Error>
    ensures ok { OnOk result (B.held buf.new ≡ B.held buf.old ⊕ dimension_bytes dimension) }
    ensures err { OnErr result (IsFrontOf (B.held buf.old) (B.held buf.new)) }
    ensures cause { IfErr result (WantsMemory (Wants B.Lacks (B.held buf.old) 8)) }
{
    put_u32(buf, dimension.len.cast_unsigned())?;
    put_u32(buf, dimension.lower_bound.cast_unsigned())?;
    Ok(())
}

// Appends the dimensions, and says how many there are. An error leaves what stood there as a front.
fn put_dimensions<B: Buffer, I: IntoIterator<Item = ArrayDimension> + Drop>(
    dimensions: I,
    buf: &mut B,
) -> Result<u32, Error>
where
    I::IntoIter: Drop,
    requires { IsFiniteIterable I.into_iter_gives I.IntoIter.can_next I.IntoIter.remaining dimensions }
    ensures ok { IfOk result (λ n. (ds : List ArrayDimension) × Yielded I.into_iter_gives I.IntoIter.next_gives dimensions ds None
        × All IsDimension ds × (n ≡ length ds) × (length_cause (length ds) ≡ None)
        × (B.held buf.new ≡ B.held buf.old ⊕ flat_map dimension_bytes ds)) }
    ensures err { OnErr result (IsFrontOf (B.held buf.old) (B.held buf.new)) }
    ensures cause { IfErr result (λ e. ((e ≡ Error.OutOfMemory) × ((ds : List ArrayDimension) × SoFar (Yielded I.into_iter_gives I.IntoIter.next_gives dimensions) ds × Wants B.Lacks (B.held buf.old) (8 * length ds)))
        ⊎ (DimensionsPast (Yielded I.into_iter_gives I.IntoIter.next_gives dimensions) × (e ≡ Error.TooLarge))) }
{
    let mut count = 0u32;
    for dimension in dimensions {
        if count == 0x7fff_ffff {
            return Err(Error::TooLarge);
        }
        put_dimension(dimension, buf)?;
        count += 1;
    }
    Ok(count)
}

// Appends the elements that the serializer makes, and says whether one is null. An error leaves what
// stood there as a front.
fn put_elements<
    B: Buffer,
    T: Drop,
    E: Drop,
    J: IntoIterator<Item = T> + Drop,
    F: FnMut(T, &mut B) -> Result<IsNull, E>,
>(elements: J, serializer: &mut F, buf: &mut B) -> Result<bool, BindError<E>>
where
    J::IntoIter: Drop,
    requires ends { IsFiniteIterable J.into_iter_gives J.IntoIter.can_next J.IntoIter.remaining elements }
    requires callable { F.IsAlwaysCallable serializer.old }
    requires owes { OwesValues B.held F.pre F.step }
    ensures ok { IfOk result (λ nulls. (vs : List (Option (List ℕ)))
        × Made B.held F.step (Yielded J.into_iter_gives J.IntoIter.next_gives elements) serializer.old serializer.new (B.held buf.old) vs
        × (nulls ≡ has_null vs) × (B.held buf.new ≡ B.held buf.old ⊕ flat_map nullable vs)) }
    ensures err { OnErr result (IsFrontOf (B.held buf.old) (B.held buf.new)) }
    ensures cause { IfErr result (MadeUpTo B.held F.step (Yielded J.into_iter_gives J.IntoIter.next_gives elements) serializer.old serializer.new (B.held buf.old) B.Lacks) }
{
    let mut nulls = false;
    for element in elements {
        match put_value(serializer, element, buf) {
            Ok(IsNull::Yes) => nulls = true,
            Ok(IsNull::No) => {}
            Err(e) => return Err(e),
        }
    }
    Ok(nulls)
}

// Appends what stands before the elements: 0 for the flag. An error leaves what stood there as a front.
#[tactic(auto, using(pgp_base::proofs::Parts::held_steps))]
fn put_head<B: Buffer, I: IntoIterator<Item = ArrayDimension> + Drop>(
    dimensions: I,
    element_type: Oid,
    buf: &mut B,
) -> Result<(), Error>
where
    I::IntoIter: Drop,
    requires { IsFiniteIterable I.into_iter_gives I.IntoIter.can_next I.IntoIter.remaining dimensions }
    ensures ok { OnOk result ((ds : List ArrayDimension) × Yielded I.into_iter_gives I.IntoIter.next_gives dimensions ds None
        × All IsDimension ds × (length_cause (length ds) ≡ None) × (B.held buf.new ≡ before_elements (B.held buf.old) ds element_type)) }
    ensures err { OnErr result (IsFrontOf (B.held buf.old) (B.held buf.new)) }
    ensures cause { IfErr result (λ e. WantsHead (Yielded I.into_iter_gives I.IntoIter.next_gives dimensions) B.Lacks (B.held buf.old) e
        ⊎ (DimensionsPast (Yielded I.into_iter_gives I.IntoIter.next_gives dimensions) × (e ≡ Error.TooLarge))) }
{
    let base = buf.len();
    put_u32(buf, 0)?;
    put_u32(buf, 0)?;
    put_u32(buf, element_type)?;
    let count = put_dimensions(dimensions, buf)?;
    patch_u32(buf, base, count);
    Ok(())
}

// The array. An error leaves what the buffer held as a front.
fn fill_array<
    B: Buffer,
    T: Drop,
    E: Drop,
    I: IntoIterator<Item = ArrayDimension> + Drop,
    J: IntoIterator<Item = T> + Drop,
    F: FnMut(T, &mut B) -> Result<IsNull, E>,
>(
    dimensions: I,
    element_type: Oid,
    elements: J,
    serializer: &mut F,
    buf: &mut B,
) -> Result<(), BindError<E>>
where
    I::IntoIter: Drop,
    J::IntoIter: Drop,
    requires dimensions_end { IsFiniteIterable I.into_iter_gives I.IntoIter.can_next I.IntoIter.remaining dimensions }
    requires elements_end { IsFiniteIterable J.into_iter_gives J.IntoIter.can_next J.IntoIter.remaining elements }
    requires callable { F.IsAlwaysCallable serializer.old }
    requires owes { OwesValues B.held F.pre F.step }
    ensures ok { OnOk result (ArrayWritten B.held F.step (Yielded I.into_iter_gives I.IntoIter.next_gives dimensions) element_type
        (Yielded J.into_iter_gives J.IntoIter.next_gives elements) serializer.old serializer.new (B.held buf.old) (B.held buf.new)) }
    ensures err { OnErr result (IsFrontOf (B.held buf.old) (B.held buf.new)) }
    ensures cause { IfErr result (ArrayRefused B.held F.step (Yielded I.into_iter_gives I.IntoIter.next_gives dimensions) element_type
        (Yielded J.into_iter_gives J.IntoIter.next_gives elements) serializer.old serializer.new (B.held buf.old) B.Lacks) }
{
    let base = buf.len();
    put_head(dimensions, element_type, buf)?;
    let nulls = put_elements(elements, serializer, buf)?;
    patch_u32(buf, base + 4, u32::from(nulls));
    Ok(())
}

/// Appends an array of elements of this type. The serializer appends the bytes of each element, in the
/// order of the array, the last dimension the fastest; or it returns that the element is null and
/// appends nothing. How many elements the dimensions announce isn't compared with how many come.
///
/// # Errors
///
/// `Conversion` is the serializer's error. `Serialization` is `TooLarge` at the dimension past
/// 2,147,483,647 or at an element of more bytes than that, and `OutOfMemory` if the buffer can't grow.
/// The first of these from the left is answered, and then the buffer has the bytes that it had.
pub fn array_to_sql<
    B: Buffer,
    T: Drop,
    E: Drop,
    I: IntoIterator<Item = ArrayDimension> + Drop,
    J: IntoIterator<Item = T> + Drop,
    F: FnMut(T, &mut B) -> Result<IsNull, E> + Drop,
>(
    dimensions: I,
    element_type: Oid,
    elements: J,
    mut serializer: F,
    buf: &mut B,
) -> Result<(), BindError<E>>
where
    I::IntoIter: Drop,
    J::IntoIter: Drop,
    requires dimensions_end { IsFiniteIterable I.into_iter_gives I.IntoIter.can_next I.IntoIter.remaining dimensions }
    requires elements_end { IsFiniteIterable J.into_iter_gives J.IntoIter.can_next J.IntoIter.remaining elements }
    requires callable { F.IsAlwaysCallable serializer }
    requires owes { OwesValues B.held F.pre F.step }
    ensures { (last : F) × WritesArray B.held F.step (Yielded I.into_iter_gives I.IntoIter.next_gives dimensions) element_type
        (Yielded J.into_iter_gives J.IntoIter.next_gives elements) serializer last (B.held buf.old) B.Lacks (B.held buf.new) result }
{
    let start = buf.len();
    match fill_array(dimensions, element_type, elements, &mut serializer, buf) {
        Ok(()) => Ok(()),
        Err(e) => {
            buf.truncate(start);
            Err(e)
        }
    }
}
