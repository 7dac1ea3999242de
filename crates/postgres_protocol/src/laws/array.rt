//! An array as a value of a message, by the calls of two crates.

ghost use Rattle.std.specs.Prelude.{◌≡◌, ℕ, List, Option, None};
ghost use Rattle.pgp_base.specs.Calls.{OwesValues};
ghost use Rattle.pgp_frontend.specs.Payload.{cause};
ghost use Rattle.pgp_types.specs.declared.array.ArrayDimension.{ArrayDimension};
ghost use Rattle.pgp_types.specs.Array.{IsArray, array_cause};
ghost use Rattle.postgres_protocol.specs.ArraySteps.{Does, WritesSteps, BindsArray, IsReadBack, array_of, binding};
ghost use Rattle.postgres_protocol.specs.OneValue.{BindsOne};

use pgp_base::{BindError, Buffer, Error, IsNull, Oid};
use pgp_frontend::bind;
use pgp_types::{ArrayDimension, array_to_sql};

/// What a serializer does at an element.
#[derive(Drop)]
pub enum Step {
    /// It appends these bytes.
    Append(Vec<u8>),
    /// It returns a null, and appends nothing.
    Null,
    /// It rejects.
    Refuse(Error),
}

/// Does the step.
#[tactic(auto, using(pgp_base::proofs::Parts::wants_now))]
fn put_step<B: Buffer>(step: &Step, buf: &mut B) -> Result<IsNull, Error>
    ensures { Does step.now B.Lacks (B.held buf.old) (B.held buf.new) result }
{
    match step {
        Step::Append(bytes) => {
            buf.append(bytes)?;
            Ok(IsNull::No)
        }
        Step::Null => Ok(IsNull::Yes),
        Step::Refuse(e) => Err(*e),
    }
}

/// Appends the array of what the steps give, as a value that isn't null.
fn put_array<B: Buffer>(
    dimensions: &[ArrayDimension],
    element_type: Oid,
    steps: &[Step],
    buf: &mut B,
) -> Result<IsNull, BindError<Error>>
    ensures { WritesSteps dimensions.now element_type steps.now B.Lacks (B.held buf.old) (B.held buf.new) result }
{
    match array_to_sql(
        dimensions.iter().copied(),
        element_type,
        steps,
        |step: &Step, buf: &mut B| put_step(step, buf),
        buf,
    ) {
        Ok(()) => Ok(IsNull::No),
        Err(e) => Err(e),
    }
}

/// Binds the value that the serializer makes, in binary, to the one parameter of the unnamed statement. The serializer
/// is called once, after the place of the value's length.
///
/// # Errors
///
/// `Conversion` is the serializer's error. `Serialization` is `TooLarge` if the value or the message exceeds
/// `i32::MAX`, and `OutOfMemory`. On error the buffer is unchanged.
pub fn bind_one<B: Buffer, E: Drop, F: FnMut(u8, &mut B) -> Result<IsNull, E> + Drop>(
    serializer: F,
    buf: &mut B,
) -> Result<(), BindError<E>>
    requires callable { F.IsAlwaysCallable serializer }
    requires owes { OwesValues B.held F.pre F.step }
    ensures { BindsOne B.held F.step serializer (B.held buf.old) B.Lacks (B.held buf.new) result }
{
    bind("", "", Some(1i16), Some(0u8), serializer, None::<i16>, buf)
}

/// Binds the array of what the steps give, in binary, to the one parameter of the unnamed statement.
///
/// # Errors
///
/// `Conversion` is the error of the array: in it `Conversion` is that of the first step that fails, or `OutOfMemory`
/// if the buffer can't grow for the bytes of a step, and `Serialization` is `TooLarge` at the dimension past 2,147,483,647 or
/// at an element of more bytes than that, or `OutOfMemory`. `Serialization` is the error of `bind`: `TooLarge` if the
/// array or the message exceeds `i32::MAX`, or `OutOfMemory`. On error the buffer is unchanged.
pub fn bind_array<B: Buffer>(
    dimensions: &[ArrayDimension],
    element_type: Oid,
    steps: &[Step],
    buf: &mut B,
) -> Result<(), BindError<BindError<Error>>>
    ensures { BindsArray dimensions.now element_type steps.now B.Lacks (B.held buf.old) (B.held buf.new) result }
{
    bind_one(
        |_: u8, buf: &mut B| put_array(dimensions, element_type, steps, buf),
        buf,
    )
}

/// A server that knows only the grammar reads the frame of a bound array as that message, whatever follows it.
/// The value is read as the array, and as nothing else, where the array's dimensions have a product and that is
/// the number of its elements.
pub fn bound_arrays_read_back()
    ensures { (dimensions : List ArrayDimension) (element_type : ℕ) (vs : List (Option (List ℕ))) → IsArray (array_of dimensions element_type vs)
        → array_cause (array_of dimensions element_type vs) ≡ None → cause (binding dimensions element_type vs) ≡ None → IsReadBack dimensions element_type vs }
{
    pgp_frontend::laws::frames_begin_no_other();
    pgp_types::laws::arrays();
}
