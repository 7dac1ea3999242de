//! Messages with a list whose items come from an iterator.
#![tactic(auto, using(pgp_base::proofs::Parts::held_steps))]

ghost use Rattle.std.specs.Prelude.{◌≡◌, ◌++◌, ◌⊎◌, List, Some, None, OnOk, OnErr, IfErr, length};
ghost use Rattle.std.specs.Iterator.{IsFiniteIterable};
ghost use Rattle.std.specs.List.{flat_map};
ghost use Rattle.pgp_base.specs.Calls.{Yielded};
ghost use Rattle.pgp_base.specs.Cause.{count_cause, either, length_cause};
ghost use Rattle.pgp_base.specs.Held.{◌⊕◌, IsFrontOf};
ghost use Rattle.pgp_frontend.specs.Payload.{frame_cause, framed, joined};
ghost use Rattle.pgp_frontend.specs.Putting.{PutsParts};
ghost use Rattle.pgp_frontend.specs.View.{parts_of};
ghost use Rattle.pgp_message_write.specs.Ending.{list_parts, number_cause, ListRefused};
ghost use Rattle.pgp_message_write.specs.Given.{GivenRefused, uncounted, WritesBytes};
ghost use Rattle.pgp_message_write.specs.Lists.{counted_list, marked_list, wide_list};

use crate::item::Item;
use pgp_base::{Buffer, Error, finish_body, patch_u16, patch_u32, put_u8, put_u16, put_u32};
use pgp_frontend::field::{Field, put_fields};

/// How a list says where it ends.
#[derive(Clone, Copy)]
pub(crate) enum Ending {
    /// By a count of two bytes before it.
    Count,
    /// By one of four bytes with a sign.
    WideCount,
    /// By a 0 byte after it.
    Zero,
}

/// Appends how many items came, and each. An error leaves what stood there as a front.
fn put_counted<T: Item + Copy, I: IntoIterator<Item = T> + Drop, B: Buffer>(
    items: I,
    buf: &mut B,
) -> Result<(), Error>
where
    I::IntoIter: Drop,
    requires { IsFiniteIterable I.into_iter_gives I.IntoIter.can_next I.IntoIter.remaining items }
    ensures ok { OnOk result ((xs : List T) × Yielded I.into_iter_gives I.IntoIter.next_gives items xs None
        × (count_cause (length xs) ≡ None) × PutsParts (counted_list T.parts xs) (B.held buf.old) (B.held buf.new)) }
    ensures err { OnErr result (IsFrontOf (B.held buf.old) (B.held buf.new)) }
    ensures cause { IfErr result (ListRefused (Yielded I.into_iter_gives I.IntoIter.next_gives items) count_cause (counted_list T.parts) B.Lacks (B.held buf.old)) }
{
    let base = buf.len();
    put_u16(buf, 0)?;
    let mut count = 0u16;
    for item in items {
        if count == u16::MAX {
            return Err(Error::TooLarge);
        }
        item.put(buf)?;
        count += 1;
    }
    patch_u16(buf, base, count);
    Ok(())
}

/// The same, with a count of four bytes that has a sign.
fn put_wide<T: Item + Copy, I: IntoIterator<Item = T> + Drop, B: Buffer>(
    items: I,
    buf: &mut B,
) -> Result<(), Error>
where
    I::IntoIter: Drop,
    requires { IsFiniteIterable I.into_iter_gives I.IntoIter.can_next I.IntoIter.remaining items }
    ensures ok { OnOk result ((xs : List T) × Yielded I.into_iter_gives I.IntoIter.next_gives items xs None
        × (length_cause (length xs) ≡ None) × PutsParts (wide_list T.parts xs) (B.held buf.old) (B.held buf.new)) }
    ensures err { OnErr result (IsFrontOf (B.held buf.old) (B.held buf.new)) }
    ensures cause { IfErr result (ListRefused (Yielded I.into_iter_gives I.IntoIter.next_gives items) length_cause (wide_list T.parts) B.Lacks (B.held buf.old)) }
{
    let base = buf.len();
    put_u32(buf, 0)?;
    let mut count = 0u32;
    for item in items {
        if count == 0x7fff_ffff {
            return Err(Error::TooLarge);
        }
        item.put(buf)?;
        count += 1;
    }
    patch_u32(buf, base, count);
    Ok(())
}

/// Appends each item, and a 0 byte. An error leaves what stood there as a front.
fn put_marked<T: Item + Copy, I: IntoIterator<Item = T> + Drop, B: Buffer>(
    items: I,
    buf: &mut B,
) -> Result<(), Error>
where
    I::IntoIter: Drop,
    requires { IsFiniteIterable I.into_iter_gives I.IntoIter.can_next I.IntoIter.remaining items }
    ensures ok { OnOk result ((xs : List T) × Yielded I.into_iter_gives I.IntoIter.next_gives items xs None
        × PutsParts (marked_list T.parts xs) (B.held buf.old) (B.held buf.new)) }
    ensures err { OnErr result (IsFrontOf (B.held buf.old) (B.held buf.new)) }
    ensures cause { IfErr result (ListRefused (Yielded I.into_iter_gives I.IntoIter.next_gives items) uncounted (marked_list T.parts) B.Lacks (B.held buf.old)) }
{
    for item in items {
        item.put(buf)?;
    }
    put_u8(buf, 0)
}

/// The list. An error leaves what stood there as a front.
fn put_list<T: Item + Copy, I: IntoIterator<Item = T> + Drop, B: Buffer>(
    ending: Ending,
    items: I,
    buf: &mut B,
) -> Result<(), Error>
where
    I::IntoIter: Drop,
    requires { IsFiniteIterable I.into_iter_gives I.IntoIter.can_next I.IntoIter.remaining items }
    ensures ok { OnOk result ((xs : List T) × Yielded I.into_iter_gives I.IntoIter.next_gives items xs None
        × (number_cause ending (length xs) ≡ None) × PutsParts (list_parts ending T.parts xs) (B.held buf.old) (B.held buf.new)) }
    ensures err { OnErr result (IsFrontOf (B.held buf.old) (B.held buf.new)) }
    ensures cause { IfErr result (ListRefused (Yielded I.into_iter_gives I.IntoIter.next_gives items) (number_cause ending) (list_parts ending T.parts) B.Lacks (B.held buf.old)) }
{
    match ending {
        Ending::Count => put_counted(items, buf),
        Ending::WideCount => put_wide(items, buf),
        Ending::Zero => put_marked(items, buf),
    }
}

fn fill<T: Item + Copy, I: IntoIterator<Item = T> + Drop, B: Buffer>(
    head: &[Field],
    ending: Ending,
    items: I,
    buf: &mut B,
) -> Result<(), Error>
where
    I::IntoIter: Drop,
    requires { IsFiniteIterable I.into_iter_gives I.IntoIter.can_next I.IntoIter.remaining items }
    ensures ok { OnOk result ((xs : List T) × Yielded I.into_iter_gives I.IntoIter.next_gives items xs None
        × (either (number_cause ending (length xs)) (frame_cause (parts_of head.now ++ list_parts ending T.parts xs)) ≡ None)
        × (B.held buf.new ≡ B.held buf.old ⊕ framed None (joined (parts_of head.now ++ list_parts ending T.parts xs)))) }
    ensures err { OnErr result (IsFrontOf (B.held buf.old) (B.held buf.new)) }
    ensures cause { IfErr result (GivenRefused (Yielded I.into_iter_gives I.IntoIter.next_gives items) (number_cause ending)
        (λ xs. parts_of head.now ++ list_parts ending T.parts xs) (λ xs. framed None (joined (parts_of head.now ++ list_parts ending T.parts xs)))
        B.Lacks (B.held buf.old)) }
{
    let base = buf.len();
    put_u32(buf, 0)?;
    put_fields(head, buf)?;
    put_list(ending, items, buf)?;
    finish_body(buf, base)?;
    Ok(())
}

/// Appends a tagged message with the list.
pub(crate) fn list_message_of<T: Item + Copy, I: IntoIterator<Item = T> + Drop, B: Buffer>(
    tag: u8,
    head: &[Field],
    ending: Ending,
    items: I,
    buf: &mut B,
) -> Result<(), Error>
where
    I::IntoIter: Drop,
    requires { IsFiniteIterable I.into_iter_gives I.IntoIter.can_next I.IntoIter.remaining items }
    ensures { WritesBytes (Yielded I.into_iter_gives I.IntoIter.next_gives items) (number_cause ending)
        (λ xs. parts_of head.now ++ list_parts ending T.parts xs) (λ xs. framed (Some tag) (joined (parts_of head.now ++ list_parts ending T.parts xs)))
        B.Lacks (B.held buf.old) (B.held buf.new) result }
{
    let start = buf.len();
    put_u8(buf, tag)?;
    match fill(head, ending, items, buf) {
        Ok(()) => Ok(()),
        Err(e) => {
            buf.truncate(start);
            Err(e)
        }
    }
}
