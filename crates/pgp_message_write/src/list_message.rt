//! Messages with a list: parts, the items of a list, and parts after them.
#![tactic(auto, using(pgp_base::proofs::Parts::held_steps))]

ghost use Rattle.std.specs.Prelude.{◌≡◌, ◌++◌, ◌⊎◌, Some, None, OnOk, OnErr, IfOk, IfErr, length, pos};
ghost use Rattle.std.specs.List.{flat_map};
ghost use Rattle.pgp_base.specs.Cause.{count_cause, length_cause, Wants, WantsMemory};
ghost use Rattle.pgp_base.specs.Wire.{int32, uint16};
ghost use Rattle.pgp_base.specs.Held.{◌⊕◌, IsFrontOf};
ghost use Rattle.pgp_frontend.specs.Payload.{frame_cause, framed, joined, WritesFrame};
ghost use Rattle.pgp_frontend.specs.Putting.{PutsParts, PartsRefused};
ghost use Rattle.pgp_frontend.specs.View.{parts_of};
ghost use Rattle.pgp_message_write.specs.Lists.{with_list};

use crate::item::Item;
use pgp_base::big_endian::{u16_bytes, u32_bytes};
use pgp_base::{Buffer, Error, finish_body, put_u8, put_u32};
use pgp_frontend::field::{Field, put_fields};

/// How many items there are, as two bytes tell it.
///
/// # Errors
///
/// Returns `TooLarge` if they can't.
#[tactic(auto, unfolding(pgp_base::specs::Wire::uint16))]
pub(crate) fn count_field(items: usize) -> Result<[u8; 2], Error>
    ensures ok { IfOk result (λ bytes. (count_cause items ≡ None) × (bytes ≡ uint16 items)) }
    ensures err { IfErr result (λ e. count_cause items ≡ Some e) }
{
    match u16::try_from(items) {
        Ok(count) => Ok(u16_bytes(count)),
        Err(_) => Err(Error::TooLarge),
    }
}

/// The same, as four bytes with a sign tell it.
///
/// # Errors
///
/// Returns `TooLarge` if they can't.
#[tactic(auto, unfolding(pgp_base::specs::Wire::int32))]
pub(crate) fn wide_count(items: usize) -> Result<[u8; 4], Error>
    ensures ok { IfOk result (λ bytes. (length_cause items ≡ None) × (bytes ≡ int32 (pos items))) }
    ensures err { IfErr result (λ e. length_cause items ≡ Some e) }
{
    match i32::try_from(items) {
        Ok(count) => Ok(u32_bytes(count.cast_unsigned())),
        Err(_) => Err(Error::TooLarge),
    }
}

/// Appends each item. An error leaves what stood there as a front.
fn put_items<I: Item, B: Buffer>(items: &[I], buf: &mut B) -> Result<(), Error>
    ensures ok { OnOk result (PutsParts (flat_map I.parts items.now) (B.held buf.old) (B.held buf.new)) }
    ensures err { OnErr result (IsFrontOf (B.held buf.old) (B.held buf.new)) }
    ensures cause { IfErr result (PartsRefused (flat_map I.parts items.now) B.Lacks (B.held buf.old)) }
{
    for item in items {
        item.put(buf)?;
    }
    Ok(())
}

/// The parts, the items and the parts after them. An error leaves what stood there as a front.
fn put_all<I: Item, B: Buffer>(
    head: &[Field],
    items: &[I],
    tail: &[Field],
    buf: &mut B,
) -> Result<(), Error>
    ensures ok { OnOk result (PutsParts (with_list (parts_of head.now) (flat_map I.parts items.now) (parts_of tail.now)) (B.held buf.old) (B.held buf.new)) }
    ensures err { OnErr result (IsFrontOf (B.held buf.old) (B.held buf.new)) }
    ensures cause { IfErr result (PartsRefused (with_list (parts_of head.now) (flat_map I.parts items.now) (parts_of tail.now)) B.Lacks (B.held buf.old)) }
{
    put_fields(head, buf)?;
    put_items(items, buf)?;
    put_fields(tail, buf)?;
    Ok(())
}

fn fill<I: Item, B: Buffer>(
    head: &[Field],
    items: &[I],
    tail: &[Field],
    buf: &mut B,
) -> Result<(), Error>
    ensures ok { OnOk result ((frame_cause (with_list (parts_of head.now) (flat_map I.parts items.now) (parts_of tail.now)) ≡ None)
        × (B.held buf.new ≡ B.held buf.old ⊕ framed None (joined (with_list (parts_of head.now) (flat_map I.parts items.now) (parts_of tail.now))))) }
    ensures err { OnErr result (IsFrontOf (B.held buf.old) (B.held buf.new)) }
    ensures cause { IfErr result (λ e. WantsMemory (Wants B.Lacks (B.held buf.old) (length (framed None (joined (with_list (parts_of head.now) (flat_map I.parts items.now) (parts_of tail.now)))))) e
        ⊎ (frame_cause (with_list (parts_of head.now) (flat_map I.parts items.now) (parts_of tail.now)) ≡ Some e)) }
{
    let base = buf.len();
    put_u32(buf, 0)?;
    put_all(head, items, tail, buf)?;
    finish_body(buf, base)?;
    Ok(())
}

/// Appends a tagged message with a list.
pub(crate) fn list_message<I: Item, B: Buffer>(
    tag: u8,
    head: &[Field],
    items: &[I],
    tail: &[Field],
    buf: &mut B,
) -> Result<(), Error>
    ensures { WritesFrame (Some tag) (with_list (parts_of head.now) (flat_map I.parts items.now) (parts_of tail.now)) B.Lacks (B.held buf.old) (B.held buf.new) result }
{
    let start = buf.len();
    put_u8(buf, tag)?;
    match fill(head, items, tail, buf) {
        Ok(()) => Ok(()),
        Err(e) => {
            buf.truncate(start);
            Err(e)
        }
    }
}
