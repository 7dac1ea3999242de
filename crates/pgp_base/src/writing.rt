//! What every writer is made of: numbers, texts, and parts that stand after a length or a count.
//!
//! On error a `write_` function leaves the buffer unchanged. A `put_` function, a step of a
//! writer, then leaves the buffer's bytes as a front of what stands there, and the writer cuts back.

ghost use Rattle.std.specs.Prelude.{◌≡◌, ℕ, ◌+◌, ◌-◌, ◌<◌, ◌≤◌, List, [], ◌∷◌, length, drop, Option, Some, None, Ok, OnOk, OnErr, IfOk, IfErr};
ghost use Rattle.pgp_base.specs.Wire.{uint16, uint32, text, nullable};
ghost use Rattle.pgp_base.specs.Cause.{text_cause, length_cause, nullable_cause, Wants, WantsMemory, Writes};
ghost use Rattle.pgp_base.specs.Held.{◌⊕◌, overwritten, Leaves, IsFrontOf};
ghost use Rattle.pgp_base.specs.Calls.{Adds, KeepsFront, KeepsFronts, OwesValue, OwesValues, Appends, Puts, Gives, ValueRefused, value_of, length_of, null_of};
ghost use Rattle.pgp_base.specs.ClosureWriters.{WritesBody, BodyRefused, WritesValue, NullableRefused};

use crate::big_endian::{u16_bytes, u32_bytes};
use crate::buffer::Buffer;
use crate::error::{BindError, Error};
use crate::number::IsNull;
use crate::scanning::stray_zero;
use std::alloc::AllocError;

/// Appends a byte.
///
/// # Errors
///
/// Returns `OutOfMemory` if the buffer can't grow.
#[tactic(auto, using(crate::proofs::Parts::wants_now))]
pub fn put_u8<B: Buffer>(buf: &mut B, n: u8) -> Result<(), Error>
    ensures ok { OnOk result (B.held buf.new ≡ B.held buf.old ⊕ n ∷ []) }
    ensures err { OnErr result (B.held buf.new ≡ B.held buf.old) }
    ensures cause { IfErr result (WantsMemory (Wants B.Lacks (B.held buf.old) 1)) }
{
    buf.append(&[n])?;
    Ok(())
}

/// Appends a number in two bytes.
///
/// # Errors
///
/// Returns `OutOfMemory` if the buffer can't grow.
#[tactic(auto, unfolding(crate::specs::Wire::uint16), using(crate::proofs::Parts::wants_now))]
pub fn put_u16<B: Buffer>(buf: &mut B, n: u16) -> Result<(), Error>
    ensures ok { OnOk result (B.held buf.new ≡ B.held buf.old ⊕ uint16 n) }
    ensures err { OnErr result (B.held buf.new ≡ B.held buf.old) }
    ensures cause { IfErr result (WantsMemory (Wants B.Lacks (B.held buf.old) 2)) }
{
    buf.append(&u16_bytes(n))?;
    Ok(())
}

/// Appends a number in four bytes.
///
/// # Errors
///
/// Returns `OutOfMemory` if the buffer can't grow.
#[tactic(auto, unfolding(crate::specs::Wire::uint32), using(crate::proofs::Parts::wants_now))]
pub fn put_u32<B: Buffer>(buf: &mut B, n: u32) -> Result<(), Error>
    ensures ok { OnOk result (B.held buf.new ≡ B.held buf.old ⊕ uint32 n) }
    ensures err { OnErr result (B.held buf.new ≡ B.held buf.old) }
    ensures cause { IfErr result (WantsMemory (Wants B.Lacks (B.held buf.old) 4)) }
{
    let bytes = u32_bytes(n);
    buf.append(&bytes)?;
    Ok(())
}

/// Writes a number over the two bytes at `place`.
#[tactic(auto, unfolding(crate::specs::Wire::uint16))]
pub fn patch_u16<B: Buffer>(buf: &mut B, place: usize, n: u16)
    requires { place + 2 ≤ length (B.held buf.old).bytes }
    ensures { B.held buf.new ≡ overwritten (B.held buf.old) place (uint16 n) }
{
    buf.patch(place, &u16_bytes(n));
}

/// Writes a number over the four bytes at `place`.
#[tactic(auto, unfolding(crate::specs::Wire::uint32))]
pub fn patch_u32<B: Buffer>(buf: &mut B, place: usize, n: u32)
    requires { place + 4 ≤ length (B.held buf.old).bytes }
    ensures { B.held buf.new ≡ overwritten (B.held buf.old) place (uint32 n) }
{
    let bytes = u32_bytes(n);
    buf.patch(place, &bytes);
}

// Appends the byte that ends a text. As a call of its own it keeps no general copy: short texts are written faster by a fifth.
fn put_end<B: Buffer>(buf: &mut B) -> Result<(), AllocError>
    ensures ok { OnOk result (B.held buf.new ≡ B.held buf.old ⊕ 0 ∷ []) }
    ensures err { OnErr result (B.held buf.new ≡ B.held buf.old) }
    ensures lacks { OnErr result (B.Lacks (B.held buf.old) 1) }
{
    buf.append(&[0])
}

/// Appends a text and a 0 byte.
///
/// # Errors
///
/// Returns `EmbeddedNull` if the text has a 0 byte itself, and `OutOfMemory` if the buffer can't grow.
/// On error the buffer is unchanged.
// The hint carries the speed of messages with short texts.
#[inline(always)]
#[tactic(auto, using(crate::proofs::Causes::text_holds_zero))]
pub fn write_cstr<B: Buffer>(bytes: &[u8], buf: &mut B) -> Result<(), Error>
    ensures { Writes (text bytes.now) (text_cause bytes.now) B.Lacks (B.held buf.old) (B.held buf.new) result }
{
    if stray_zero(bytes).is_some() {
        return Err(Error::EmbeddedNull);
    }
    let base = buf.len();
    buf.append(bytes)?;
    match put_end(buf) {
        Ok(()) => Ok(()),
        Err(e) => {
            buf.truncate(base);
            Err(e.into())
        }
    }
}

// Calls `f`, and says what the call put after the bytes that stood there.
fn append_by<B: Buffer, X, E, F: FnOnce(&mut B) -> Result<X, E>>(f: F, buf: &mut B) -> Result<X, E>
    requires callable { F.IsAlwaysCallable f }
    requires keeps { KeepsFront B.held F.pre F.post f }
    ensures { (p : List ℕ) × Appends B.held F.post (B.held buf.old) f result p × Adds result p (B.held buf.old) (B.held buf.new) }
{
    f(buf)
}

// The same of a call that may answer a null.
fn value_by<B: Buffer, E, F: FnOnce(&mut B) -> Result<IsNull, E>>(
    f: F,
    buf: &mut B,
) -> Result<IsNull, E>
    requires callable { F.IsAlwaysCallable f }
    requires owes { OwesValue B.held F.pre F.post f }
    ensures { (p : List ℕ) × Appends B.held F.post (B.held buf.old) f result p × Adds result p (B.held buf.old) (B.held buf.new)
        × (result ≡ Ok IsNull.Yes → p ≡ []) }
{
    f(buf)
}

// `append_by` of an `FnMut` at an item, which may be called again.
pub(crate) fn put_by<B: Buffer, T, X, E, F: FnMut(T, &mut B) -> Result<X, E>>(
    f: &mut F,
    x: T,
    buf: &mut B,
) -> Result<X, E>
    requires callable { F.IsAlwaysCallable f.old }
    requires keeps { KeepsFronts B.held F.pre F.step }
    ensures put { (p : List ℕ) × Puts B.held F.step (B.held buf.old) f.old x result p f.new × Adds result p (B.held buf.old) (B.held buf.new) }
    ensures callable { F.IsAlwaysCallable f.new }
{
    f(x, buf)
}

// `value_by` of an `FnMut` at an item, which may be called again.
fn give_by<B: Buffer, T, E, F: FnMut(T, &mut B) -> Result<IsNull, E>>(
    f: &mut F,
    x: T,
    buf: &mut B,
) -> Result<IsNull, E>
    requires callable { F.IsAlwaysCallable f.old }
    requires owes { OwesValues B.held F.pre F.step }
    ensures put { (p : List ℕ) × Puts B.held F.step (B.held buf.old) f.old x result p f.new × Adds result p (B.held buf.old) (B.held buf.new)
        × (result ≡ Ok IsNull.Yes → p ≡ []) }
    ensures callable { F.IsAlwaysCallable f.new }
{
    f(x, buf)
}

/// The number as a length's field holds it.
///
/// # Errors
///
/// `TooLarge` past the greatest `i32`.
#[tactic(auto, using(crate::proofs::Causes::length_fits, crate::proofs::Causes::length_past))]
pub fn length_field(size: usize) -> Result<u32, Error>
    ensures value { IfOk result (λ n. (n ≡ size) × (length_cause size ≡ None)) }
    ensures cause { IfErr result (λ e. length_cause size ≡ Some e) }
{
    if size > 0x7fff_ffff {
        return Err(Error::TooLarge);
    }
    Ok(size as u32)
}

/// Fills the length's place, at `base`, of a part that counts itself.
///
/// # Errors
///
/// Returns `TooLarge` if the length exceeds `i32::MAX`. On error the buffer is unchanged.
pub fn finish_body<B: Buffer>(buf: &mut B, base: usize) -> Result<(), Error>
    requires { base + 4 ≤ length (B.held buf.old).bytes }
    ensures ok { OnOk result (B.held buf.new
        ≡ overwritten (B.held buf.old) base (uint32 (length (B.held buf.old).bytes - base))) }
    ensures fits { OnOk result (length_cause (length (B.held buf.old).bytes - base) ≡ None) }
    ensures err { OnErr result (B.held buf.new ≡ B.held buf.old) }
    ensures cause { IfErr result (λ e. length_cause (length (B.held buf.old).bytes - base) ≡ Some e) }
{
    let size = length_field(buf.len() - base)?;
    patch_u32(buf, base, size);
    Ok(())
}

// Fills the length's place, at `base`, of a value that ends the buffer, or writes a null there.
fn finish_value<B: Buffer>(buf: &mut B, base: usize, null: IsNull) -> Result<(), Error>
    requires room { base + 4 ≤ length (B.held buf.old).bytes }
    requires none { null ≡ IsNull.Yes → length (B.held buf.old).bytes ≡ base + 4 }
    ensures ok { OnOk result (B.held buf.new
        ≡ overwritten (B.held buf.old) base (length_of null (drop (base + 4) (B.held buf.old).bytes))) }
    ensures fits { OnOk result (nullable_cause (value_of null (drop (base + 4) (B.held buf.old).bytes)) ≡ None) }
    ensures err { OnErr result (B.held buf.new ≡ B.held buf.old) }
    ensures cause { IfErr result (λ e. (null ≡ IsNull.No)
        × (length_cause (length (drop (base + 4) (B.held buf.old).bytes)) ≡ Some e)) }
{
    match null {
        IsNull::Yes => {
            patch_u32(buf, base, 0xffff_ffff);
            Ok(())
        }
        IsNull::No => {
            let size = length_field(buf.len() - base - 4)?;
            patch_u32(buf, base, size);
            Ok(())
        }
    }
}

/// Appends the value that the serializer makes of `x`: its length and its bytes, or a null. It reports which.
///
/// # Errors
///
/// Returns `Conversion` if the serializer failed. `Serialization` of `TooLarge` if its bytes pass the
/// length's field, and of `OutOfMemory` if the buffer can't grow, and then it was not called. What the buffer
/// held stays as a front.
#[tactic(auto, using(crate::proofs::Parts::held_steps))]
pub fn put_value<B: Buffer, T: Drop, E: Drop, F: FnMut(T, &mut B) -> Result<IsNull, E>>(
    f: &mut F,
    x: T,
    buf: &mut B,
) -> Result<IsNull, BindError<E>>
    requires callable { F.IsAlwaysCallable f.old }
    requires owes { OwesValues B.held F.pre F.step }
    ensures ok { IfOk result (λ null. (v : Option (List ℕ)) × Gives B.held F.step (B.held buf.old) f.old x v f.new
        × (B.held buf.new ≡ B.held buf.old ⊕ nullable v) × (null ≡ null_of v)) }
    ensures err { OnErr result (IsFrontOf (B.held buf.old) (B.held buf.new)) }
    ensures cause { IfErr result (λ e. ValueRefused B.held F.step B.Lacks (B.held buf.old) f.old x e f.new) }
    ensures callable { F.IsAlwaysCallable f.new }
{
    let base = buf.len();
    put_u32(buf, 0)?;
    match give_by(f, x, buf) {
        Err(e) => Err(BindError::Conversion(e)),
        Ok(null) => {
            if let Err(e) = finish_value(buf, base, null) {
                return Err(BindError::Serialization(e));
            }
            Ok(null)
        }
    }
}

#[tactic(auto, using(crate::proofs::Parts::held_steps))]
fn fill_body<B: Buffer, E: Drop, F: FnOnce(&mut B) -> Result<(), E>>(
    buf: &mut B,
    f: F,
) -> Result<(), BindError<E>>
    requires callable { F.IsAlwaysCallable f }
    requires keeps { KeepsFront B.held F.pre F.post f }
    ensures ok { OnOk result (WritesBody B.held F.post f (B.held buf.old) (B.held buf.new)) }
    ensures err { OnErr result (IsFrontOf (B.held buf.old) (B.held buf.new)) }
    ensures cause { IfErr result (BodyRefused B.held F.post B.Lacks f (B.held buf.old)) }
{
    let base = buf.len();
    put_u32(buf, 0)?;
    if let Err(e) = append_by(f, buf) {
        return Err(BindError::Conversion(e));
    }
    if let Err(e) = finish_body(buf, base) {
        return Err(BindError::Serialization(e));
    }
    Ok(())
}

/// Appends the length of itself and of what `f` appends, and that.
///
/// # Errors
///
/// Returns `Conversion` if `f` failed. `Serialization` of `TooLarge` if the length exceeds `i32::MAX`, and of
/// `OutOfMemory` if the buffer can't grow. On error the buffer is unchanged.
#[tactic(auto, using(crate::proofs::Parts::held_steps))]
pub fn write_body<B: Buffer, E: Drop, F: FnOnce(&mut B) -> Result<(), E>>(
    buf: &mut B,
    f: F,
) -> Result<(), BindError<E>>
    requires callable { F.IsAlwaysCallable f }
    requires keeps { KeepsFront B.held F.pre F.post f }
    ensures ok { OnOk result (WritesBody B.held F.post f (B.held buf.old) (B.held buf.new)) }
    ensures err { OnErr result (Leaves (B.held buf.old) (B.held buf.new)) }
    ensures cause { IfErr result (BodyRefused B.held F.post B.Lacks f (B.held buf.old)) }
{
    let base = buf.len();
    match fill_body(buf, f) {
        Ok(()) => Ok(()),
        Err(e) => {
            buf.truncate(base);
            Err(e)
        }
    }
}

#[tactic(auto, using(crate::proofs::Parts::held_steps))]
fn fill_nullable<B: Buffer, E: Drop, F: FnOnce(&mut B) -> Result<IsNull, E>>(
    serializer: F,
    buf: &mut B,
) -> Result<(), BindError<E>>
    requires callable { F.IsAlwaysCallable serializer }
    requires owes { OwesValue B.held F.pre F.post serializer }
    ensures ok { OnOk result (WritesValue B.held F.post serializer (B.held buf.old) (B.held buf.new)) }
    ensures err { OnErr result (IsFrontOf (B.held buf.old) (B.held buf.new)) }
    ensures cause { IfErr result (NullableRefused B.held F.post B.Lacks serializer (B.held buf.old)) }
{
    let base = buf.len();
    put_u32(buf, 0)?;
    match value_by(serializer, buf) {
        Err(e) => Err(BindError::Conversion(e)),
        Ok(null) => {
            if let Err(e) = finish_value(buf, base, null) {
                return Err(BindError::Serialization(e));
            }
            Ok(())
        }
    }
}

/// Appends a value that may be null: its length and the bytes that the serializer appends, or -1 where it
/// returns that the value is null.
///
/// # Errors
///
/// Returns `Conversion` if the serializer failed. `Serialization` of `TooLarge` if its bytes exceed
/// `i32::MAX`, and of `OutOfMemory` if the buffer can't grow. On error the buffer is unchanged.
#[tactic(auto, using(crate::proofs::Parts::held_steps))]
pub fn write_nullable<B: Buffer, E: Drop, F: FnOnce(&mut B) -> Result<IsNull, E>>(
    serializer: F,
    buf: &mut B,
) -> Result<(), BindError<E>>
    requires callable { F.IsAlwaysCallable serializer }
    requires owes { OwesValue B.held F.pre F.post serializer }
    ensures ok { OnOk result (WritesValue B.held F.post serializer (B.held buf.old) (B.held buf.new)) }
    ensures err { OnErr result (Leaves (B.held buf.old) (B.held buf.new)) }
    ensures cause { IfErr result (NullableRefused B.held F.post B.Lacks serializer (B.held buf.old)) }
{
    let base = buf.len();
    match fill_nullable(serializer, buf) {
        Ok(()) => Ok(()),
        Err(e) => {
            buf.truncate(base);
            Err(e)
        }
    }
}
