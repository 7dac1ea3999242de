//! Lists whose items stand after their count, as they are written.
#![tactic(auto, using(pgp_base::proofs::Parts::held_steps))]

ghost use Rattle.std.specs.Prelude.{◌≡◌, ◌⊎◌, ℕ, List, map, length, Some, None, OnOk, OnErr, IfErr};
ghost use Rattle.std.specs.Iterator.{IsFiniteIterable};
ghost use Rattle.pgp_base.specs.Calls.{Yielded};
ghost use Rattle.pgp_base.specs.Cause.{Wants, WantsMemory};
ghost use Rattle.pgp_base.specs.Held.{◌⊕◌, IsFrontOf};
ghost use Rattle.pgp_types.specs.Given.{Whole, Stops, WritesAll, WantsValue};
ghost use Rattle.pgp_values.specs.List.{Item, list};

use pgp_base::{Buffer, Error, patch_u32, put_u32};
use pgp_types::codec::MOST_ITEMS;

/// What can be an item of a list that is written.
pub trait PutItem: Sized {
    /// What it says, whatever it borrows.
    ghost Meaning: { Type 0 };

    ghost meaning: { Self → Meaning };

    /// How such items are spelled.
    ghost item: { Item Meaning };

    /// Appends it. An error leaves what stood there as a front.
    ///
    /// # Errors
    ///
    /// Returns `OutOfMemory`, or the cause for which it has no spelling.
    fn put<B: Buffer>(self, buf: &mut B) -> Result<(), Error>
        ensures ok { OnOk result ((item.cause (meaning self) ≡ None) × (B.held buf.new ≡ B.held buf.old ⊕ item.written (meaning self))) }
        ensures err { OnErr result (IsFrontOf (B.held buf.old) (B.held buf.new)) }
        ensures why { IfErr result (λ e. WantsMemory (Wants B.Lacks (B.held buf.old) (length (item.written (meaning self)))) e ⊎ (item.cause (meaning self) ≡ Some e)) };
}

// The list. An error leaves what stood there as a front.
fn fill_list<T: PutItem + Drop, B: Buffer, I: IntoIterator<Item = T> + Drop>(
    items: I,
    buf: &mut B,
) -> Result<(), Error>
where
    I::IntoIter: Drop,
    requires { IsFiniteIterable I.into_iter_gives I.IntoIter.can_next I.IntoIter.remaining items }
    ensures ok { OnOk result (Whole (Yielded I.into_iter_gives I.IntoIter.next_gives items) (list T.item) (λ xs. map T.meaning xs) (B.held buf.old) (B.held buf.new)) }
    ensures err { OnErr result (IsFrontOf (B.held buf.old) (B.held buf.new)) }
    ensures cause { IfErr result (λ e. WantsValue (Yielded I.into_iter_gives I.IntoIter.next_gives items) (list T.item) (λ xs. map T.meaning xs) B.Lacks (B.held buf.old) e
        ⊎ Stops (Yielded I.into_iter_gives I.IntoIter.next_gives items) (list T.item) (λ xs. map T.meaning xs) e) }
{
    let base = buf.len();
    put_u32(buf, 0)?;
    let mut count = 0u32;
    for item in items {
        if count == MOST_ITEMS {
            return Err(Error::TooLarge);
        }
        match item.put(buf) {
            Ok(()) => count += 1,
            Err(e) => return Err(e),
        }
    }
    patch_u32(buf, base, count);
    Ok(())
}

// Appends the list, or leaves the buffer's bytes.
pub(crate) fn write_list<T: PutItem + Drop, B: Buffer, I: IntoIterator<Item = T> + Drop>(
    items: I,
    buf: &mut B,
) -> Result<(), Error>
where
    I::IntoIter: Drop,
    requires { IsFiniteIterable I.into_iter_gives I.IntoIter.can_next I.IntoIter.remaining items }
    ensures { WritesAll (Yielded I.into_iter_gives I.IntoIter.next_gives items) (list T.item) (λ xs. map T.meaning xs) B.Lacks (B.held buf.old) result (B.held buf.new) }
{
    let start = buf.len();
    match fill_list(items, buf) {
        Ok(()) => Ok(()),
        Err(e) => {
            buf.truncate(start);
            Err(e)
        }
    }
}
