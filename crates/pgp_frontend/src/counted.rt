//! Counts, and the numbers that come from an iterator. An error leaves what stood there as a front.
#![tactic(auto, using(pgp_base::proofs::Parts::held_steps))]

ghost use Rattle.std.specs.Prelude.{◌≡◌, ℕ, ℤ, ◌^◌, ◌<◌, List, None, OnOk, OnErr, IfErr, All, FitsSigned};
ghost use Rattle.std.specs.Int.{w16};
ghost use Rattle.std.specs.Iterator.{IsFiniteIterable};
ghost use Rattle.pgp_base.specs.Wire.{int16, oid, counted};
ghost use Rattle.pgp_base.specs.Held.{◌⊕◌, IsFrontOf};
ghost use Rattle.pgp_base.specs.Calls.{Yielded};
ghost use Rattle.pgp_frontend.specs.Payload.{Int16s, Oids, part_cause};
ghost use Rattle.pgp_frontend.specs.Putting.{ItemsRefused};

use pgp_base::{Buffer, Error, Oid, patch_u16, put_u16, put_u32};

/// Appends how many identifiers there are, and each.
pub fn put_oids<B: Buffer, I: IntoIterator<Item = Oid> + Drop>(
    items: I,
    buf: &mut B,
) -> Result<(), Error>
where
    I::IntoIter: Drop,
    requires { IsFiniteIterable I.into_iter_gives I.IntoIter.can_next I.IntoIter.remaining items }
    ensures ok { OnOk result ((xs : List ℕ) × Yielded I.into_iter_gives I.IntoIter.next_gives items xs None
        × All (λ n. n < 2 ^ 32) xs × (part_cause (Oids xs) ≡ None) × (B.held buf.new ≡ B.held buf.old ⊕ counted oid xs)) }
    ensures err { OnErr result (IsFrontOf (B.held buf.old) (B.held buf.new)) }
    ensures cause { IfErr result (ItemsRefused (Yielded I.into_iter_gives I.IntoIter.next_gives items) Oids B.Lacks (B.held buf.old)) }
{
    let base = buf.len();
    put_u16(buf, 0)?;
    let mut count = 0u16;
    for item in items {
        if count == u16::MAX {
            return Err(Error::TooLarge);
        }
        put_u32(buf, item)?;
        count += 1;
    }
    patch_u16(buf, base, count);
    Ok(())
}

/// Appends how many numbers there are, and each.
pub fn put_int16s<B: Buffer, I: IntoIterator<Item = i16> + Drop>(
    items: I,
    buf: &mut B,
) -> Result<(), Error>
where
    I::IntoIter: Drop,
    requires { IsFiniteIterable I.into_iter_gives I.IntoIter.can_next I.IntoIter.remaining items }
    ensures ok { OnOk result ((xs : List ℤ) × Yielded I.into_iter_gives I.IntoIter.next_gives items xs None
        × All (FitsSigned w16) xs × (part_cause (Int16s xs) ≡ None) × (B.held buf.new ≡ B.held buf.old ⊕ counted int16 xs)) }
    ensures err { OnErr result (IsFrontOf (B.held buf.old) (B.held buf.new)) }
    ensures cause { IfErr result (ItemsRefused (Yielded I.into_iter_gives I.IntoIter.next_gives items) Int16s B.Lacks (B.held buf.old)) }
{
    let base = buf.len();
    put_u16(buf, 0)?;
    let mut count = 0u16;
    for item in items {
        if count == u16::MAX {
            return Err(Error::TooLarge);
        }
        put_u16(buf, item.cast_unsigned())?;
        count += 1;
    }
    patch_u16(buf, base, count);
    Ok(())
}
