//! Fallible iterators.

ghost use Rattle.std.specs.Prelude.{◌≡◌, ℕ, List, Option, Result, map, IfOk, IfErr, ◌⊎◌};
ghost use Rattle.pgp_base.specs.declared.error.Error.{Error};
ghost use Rattle.pgp_base.specs.Walk.{Walk, TakesFront, CollectsFrom, RefusesFrom, hint_of};

use crate::error::Error;
use crate::memory::Memory;

/// An iterator over a list of items, which ends or fails.
pub trait FallibleIterator {
    type Item;

    /// What an item says, whatever it borrows.
    ghost Meaning: { Type 0 };

    ghost meaning: { Self.Item → Meaning };

    /// The items that are left, and the end after them.
    ghost walk: { Self → Walk Meaning };

    /// The next item, or nothing at the end. At the end the same answer comes forever.
    ///
    /// # Errors
    ///
    /// Why the iterator was rejected, where its list ends so: an item is cut short or has another fault, or
    /// bytes are left after the last.
    fn next(&mut self) -> Result<Option<Self::Item>, Error>
        ensures { TakesFront meaning (walk self.old) result (walk self.new) };

    /// How many items were announced and not handed out yet, which is no promise that they come.
    fn size_hint(&self) -> (usize, Option<usize>)
        ensures { (result.0, result.1) ≡ hint_of (walk self.now).announced };

    /// All items. The `Vec` grows as they come, never by the announced count.
    ///
    /// # Errors
    ///
    /// The iterator's own error where its list ends with one, or `OutOfMemory` if the `Vec` can't grow.
    final fn collect<A: Memory>(mut self, alloc: A) -> Result<Vec<Self::Item, A>, Error>
    where
        Self: Sized + Drop,
        Self::Item: Drop,
        ensures ok { IfOk result (λ items. CollectsFrom meaning (walk self) items.items) }
        ensures err { IfErr result (λ e. RefusesFrom A.Lacks (walk self) e) }
    {
        let mut items = Vec::new(alloc);
        'items: while let Some(item) = self.next()? {
            if A::push(&mut items, item).is_err() {
                return Err(Error::OutOfMemory);
            }
        }
        Ok(items)
    }
}
