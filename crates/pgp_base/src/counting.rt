//! Items after their count.

ghost use Rattle.std.specs.Prelude.{◌+◌, ◌-◌, ◌<◌, Ok, OnOk, OnErr, IfErr};
ghost use Rattle.std.specs.Iterator.{IsFiniteIterable};
ghost use Rattle.pgp_base.specs.Held.{Leaves, IsFrontOf};
ghost use Rattle.pgp_base.specs.Calls.{KeepsFronts, Appends};
ghost use Rattle.pgp_base.specs.ClosureWriters.{WritesCounted, CountedRefused};

use crate::buffer::Buffer;
use crate::error::{BindError, Error};
use crate::writing::{patch_u16, put_by, put_u16};

#[tactic(auto, using(crate::proofs::Parts::held_steps))]
fn fill_counted<
    B: Buffer,
    T: Drop,
    E: Drop,
    I: IntoIterator<Item = T> + Drop,
    F: FnMut(T, &mut B) -> Result<(), E>,
>(items: I, serializer: &mut F, buf: &mut B) -> Result<(), BindError<E>>
where
    I::IntoIter: Drop,
    requires ends { IsFiniteIterable I.into_iter_gives I.IntoIter.can_next I.IntoIter.remaining items }
    requires callable { F.IsAlwaysCallable serializer.old }
    requires keeps { KeepsFronts B.held F.pre F.step }
    ensures ok { OnOk result (WritesCounted B.held F.step I.into_iter_gives I.IntoIter.next_gives items serializer.old serializer.new (B.held buf.old) (B.held buf.new)) }
    ensures err { OnErr result (IsFrontOf (B.held buf.old) (B.held buf.new)) }
    ensures cause { IfErr result (CountedRefused B.held F.step I.into_iter_gives I.IntoIter.next_gives B.Lacks items serializer.old serializer.new (B.held buf.old)) }
{
    let base = buf.len();
    put_u16(buf, 0)?;
    let mut count = 0u16;
    for item in items {
        if count == u16::MAX {
            return Err(BindError::Serialization(Error::TooLarge));
        }
        if let Err(e) = put_by(serializer, item, buf) {
            return Err(BindError::Conversion(e));
        }
        count += 1;
    }
    patch_u16(buf, base, count);
    Ok(())
}

/// Appends how many items there are, and each as the serializer writes it.
///
/// # Errors
///
/// Returns `Conversion` if the serializer failed an item. `Serialization` of `TooLarge` at the item past 65,535,
/// for which the serializer is not called, and of `OutOfMemory` if the buffer can't grow, before it was called
/// at all. On error the buffer is unchanged.
#[tactic(auto, using(crate::proofs::Parts::held_steps))]
pub fn write_counted<
    B: Buffer,
    T: Drop,
    E: Drop,
    I: IntoIterator<Item = T> + Drop,
    F: FnMut(T, &mut B) -> Result<(), E> + Drop,
>(items: I, mut serializer: F, buf: &mut B) -> Result<(), BindError<E>>
where
    I::IntoIter: Drop,
    requires ends { IsFiniteIterable I.into_iter_gives I.IntoIter.can_next I.IntoIter.remaining items }
    requires callable { F.IsAlwaysCallable serializer }
    requires keeps { KeepsFronts B.held F.pre F.step }
    ensures ok { OnOk result ((last : F) × WritesCounted B.held F.step I.into_iter_gives I.IntoIter.next_gives items serializer last (B.held buf.old) (B.held buf.new)) }
    ensures err { OnErr result (Leaves (B.held buf.old) (B.held buf.new)) }
    ensures cause { IfErr result (λ e. (last : F) × CountedRefused B.held F.step I.into_iter_gives I.IntoIter.next_gives B.Lacks items serializer last (B.held buf.old) e) }
{
    let base = buf.len();
    match fill_counted(items, &mut serializer, buf) {
        Ok(()) => Ok(()),
        Err(e) => {
            buf.truncate(base);
            Err(e)
        }
    }
}
