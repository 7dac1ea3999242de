//! The values that a serializer makes of what comes from an iterator.
#![tactic(auto, using(pgp_base::proofs::Parts::held_steps))]

ghost use Rattle.std.specs.Prelude.{◌≡◌, ℕ, List, ◌++◌, Option, None, OnOk, OnErr, IfErr};
ghost use Rattle.std.specs.Iterator.{IsFiniteIterable};
ghost use Rattle.pgp_base.specs.Wire.{uint16, counted, nullable};
ghost use Rattle.pgp_base.specs.Held.{◌⊕◌, IsFrontOf};
ghost use Rattle.pgp_base.specs.Calls.{Yielded, OwesValues};
ghost use Rattle.pgp_frontend.specs.Given.{Serves, Served};
ghost use Rattle.pgp_frontend.specs.Payload.{Values, part_cause};
ghost use Rattle.pgp_frontend.specs.Putting.{ValuesRefused};

use pgp_base::{BindError, Buffer, Error, IsNull, patch_u16, put_u16, put_value};

/// Appends how many values there are, and each as the serializer makes it of an item. An error leaves
/// what stood there as a front.
pub fn put_values<
    B: Buffer,
    T: Drop,
    E: Drop,
    J: IntoIterator<Item = T> + Drop,
    F: FnMut(T, &mut B) -> Result<IsNull, E>,
>(values: J, serializer: &mut F, buf: &mut B) -> Result<(), BindError<E>>
where
    J::IntoIter: Drop,
    requires ends { IsFiniteIterable J.into_iter_gives J.IntoIter.can_next J.IntoIter.remaining values }
    requires callable { F.IsAlwaysCallable serializer.old }
    requires owes { OwesValues B.held F.pre F.step }
    ensures ok { OnOk result ((vs : List (Option (List ℕ)))
        × Served (Yielded J.into_iter_gives J.IntoIter.next_gives values) (Serves B.held F.step serializer.old serializer.new) (B.held buf.old ⊕ uint16 0) vs
        × (part_cause (Values vs) ≡ None) × (B.held buf.new ≡ B.held buf.old ⊕ counted nullable vs)) }
    ensures err { OnErr result (IsFrontOf (B.held buf.old) (B.held buf.new)) }
    ensures cause { IfErr result (ValuesRefused (Yielded J.into_iter_gives J.IntoIter.next_gives values) (Serves B.held F.step serializer.old serializer.new) (B.held buf.old ⊕ uint16 0) B.Lacks (B.held buf.old)) }
{
    let base = buf.len();
    put_u16(buf, 0)?;
    let mut count = 0u16;
    for item in values {
        if count == u16::MAX {
            return Err(BindError::Serialization(Error::TooLarge));
        }
        if let Err(e) = put_value(serializer, item, buf) {
            return Err(e);
        }
        count += 1;
    }
    patch_u16(buf, base, count);
    Ok(())
}
