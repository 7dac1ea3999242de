//! Lists whose items stand after their count, written: what differs is the item.
#![tactic(auto, using(pgp_base::proofs::Parts::held_steps))]

ghost use Rattle.std.specs.Prelude.{◌≡◌, ◌≢◌, ◌⊎◌, length, map, Some, None, OnOk, IfErr};
ghost use Rattle.pgp_base.specs.Cause.{Wants, WantsMemory};
ghost use Rattle.pgp_base.specs.Held.{◌⊕◌};
ghost use Rattle.pgp_values.specs.List.{Item, list};
ghost use Rattle.for_c.specs.ListWriting.{IsNotWritten, WroteValue, items_bytes, items_cause};

use crate::status::ended;
use pgp_base::{Buffer, Error, Window, length_field, put_u32};

/// An item of the caller's.
pub trait Written: Sized {
    /// What it says, whatever it borrows.
    ghost Meaning: { Type 0 };

    ghost meaning: { Self → Meaning };

    /// How such items are spelled.
    ghost item: { Item Meaning };

    /// Appends it.
    ///
    /// # Errors
    ///
    /// Returns `OutOfMemory`, or the cause for which it has no spelling.
    fn put<B: Buffer>(&self, buf: &mut B) -> Result<(), Error>
        ensures ok { OnOk result ((item.cause (meaning self.now) ≡ None) × (B.held buf.new ≡ B.held buf.old ⊕ item.written (meaning self.now))) }
        ensures cause { IfErr result (λ e. WantsMemory (Wants B.Lacks (B.held buf.old) (length (item.written (meaning self.now)))) e ⊎ (item.cause (meaning self.now) ≡ Some e)) };
}

/// Writes a list of these items to the front of the memory.
pub fn write_list<T: Written>(items: &[T], out: &mut [u8], written: &mut usize) -> u32
    ensures wrote { result ≡ 0 → WroteValue (list T.item) (map T.meaning items.now) out.old out.new written.new }
    ensures refused { result ≢ 0 → IsNotWritten (list T.item) (map T.meaning items.now) out.old written.new result }
{
    let mut window = Window::new(out);
    let answer = put_list(items, &mut window);
    ended(answer, &window, written)
}

/// How many there are, and all of them.
pub fn put_list<T: Written, B: Buffer>(items: &[T], buf: &mut B) -> Result<(), Error>
    ensures ok { OnOk result (((list T.item).cause (map T.meaning items.now) ≡ None) × (B.held buf.new ≡ B.held buf.old ⊕ (list T.item).written (map T.meaning items.now))) }
    ensures cause { IfErr result (λ e. WantsMemory (Wants B.Lacks (B.held buf.old) (length ((list T.item).written (map T.meaning items.now)))) e ⊎ ((list T.item).cause (map T.meaning items.now) ≡ Some e)) }
{
    match length_field(items.len()) {
        Ok(count) => match put_u32(buf, count) {
            Ok(()) => put_items(items, buf),
            Err(e) => Err(e),
        },
        Err(e) => Err(e),
    }
}

/// The items, one after another.
pub fn put_items<T: Written, B: Buffer>(items: &[T], buf: &mut B) -> Result<(), Error>
    ensures ok { OnOk result ((items_cause T.item (map T.meaning items.now) ≡ None) × (B.held buf.new ≡ B.held buf.old ⊕ items_bytes T.item (map T.meaning items.now))) }
    ensures cause { IfErr result (λ e. WantsMemory (Wants B.Lacks (B.held buf.old) (length (items_bytes T.item (map T.meaning items.now)))) e ⊎ (items_cause T.item (map T.meaning items.now) ≡ Some e)) }
{
    for item in items {
        T::put(item, buf)?;
    }
    Ok(())
}
