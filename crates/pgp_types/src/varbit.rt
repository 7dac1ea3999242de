//! Bit strings.
//!
//! PostgreSQL manual, "Bit String Types".
#![tactic(auto, using(pgp_base::proofs::Parts::held_steps))]

ghost use Rattle.std.specs.Prelude.{◌≡◌, ◌⊎◌, ◌↔◌, ◌++◌, ℕ, List, Some, None, true, OnOk, OnErr, IfErr};
ghost use Rattle.std.specs.Iterator.{IsFinite, YieldsThen};
ghost use Rattle.pgp_base.specs.Cause.{length_cause};
ghost use Rattle.pgp_base.specs.Held.{◌⊕◌, IsFrontOf};
ghost use Rattle.pgp_types.specs.Format.{Reads};
ghost use Rattle.pgp_types.specs.Given.{Whole};
ghost use Rattle.pgp_types.specs.Varbit.{varbit, WritesVarbit, WantsVarbit};

use crate::part::natural_at;
use pgp_base::{Buffer, Error, length_field, put_u8, put_u32};
use std::marker::Model;

/// A `bit varying` or a `bit`.
#[derive(Drop)]
pub struct Varbit<'a> {
    len: usize,
    bytes: &'a [u8],
}

impl<'a> Model for Varbit<'a> {
    ghost use Rattle.pgp_types.specs.Varbit.{Varbit};

    ghost Value = { Varbit };

    ghost view = { λ v. record { len = v.len; bytes = v.bytes.now } };
}

impl<'a> Varbit<'a> {
    /// The number of bits.
    pub fn len(&self) -> usize
        ensures { result ≡ self.now.len }
    {
        self.len
    }

    /// Whether there are no bits.
    pub fn is_empty(&self) -> bool
        ensures { result ≡ true ↔ self.now.len ≡ 0 }
    {
        self.len == 0
    }

    /// The bits, the first one highest in the first byte. What pads the last byte is any.
    pub fn bytes(&self) -> &'a [u8]
        ensures { result.now ≡ self.now.bytes }
    {
        self.bytes
    }
}

// The number and the bytes. An error leaves what stood there as a front.
fn fill_varbit<B: Buffer, I: Iterator<Item = u8> + Drop>(
    len: usize,
    bytes: I,
    buf: &mut B,
) -> Result<(), Error>
    requires can { I.can_next bytes }
    requires ends { IsFinite (I.remaining bytes) }
    ensures ok { OnOk result (Whole (λ xs next. (left : I) × YieldsThen I.next_gives bytes xs next left) varbit (λ bytes. record { len = len; bytes = bytes }) (B.held buf.old) (B.held buf.new)) }
    ensures err { OnErr result (IsFrontOf (B.held buf.old) (B.held buf.new)) }
    ensures cause { IfErr result (λ e. WantsVarbit (λ xs next. (left : I) × YieldsThen I.next_gives bytes xs next left) len B.Lacks (B.held buf.old) e ⊎ (length_cause len ≡ Some e)) }
{
    put_u32(buf, length_field(len)?)?;
    for byte in bytes {
        put_u8(buf, byte)?;
    }
    Ok(())
}

/// Appends a `bit varying` or a `bit` of so many bits, whose bytes the iterator gives, the first bit highest in the
/// first of them. How many bytes come is not compared with the number of bits: a server reads `len.div_ceil(8)`.
///
/// # Errors
///
/// Returns `TooLarge` if the number of bits exceeds `i32::MAX`, and the iterator isn't asked; `OutOfMemory` if the
/// buffer can't grow. On error the buffer is unchanged.
pub fn varbit_to_sql<B: Buffer, I: Iterator<Item = u8> + Drop>(
    len: usize,
    bytes: I,
    buf: &mut B,
) -> Result<(), Error>
    requires can { I.can_next bytes }
    requires ends { IsFinite (I.remaining bytes) }
    ensures { WritesVarbit (λ xs next. (left : I) × YieldsThen I.next_gives bytes xs next left) len B.Lacks (B.held buf.old) result (B.held buf.new) }
{
    let start = buf.len();
    match fill_varbit(len, bytes, buf) {
        Ok(()) => Ok(()),
        Err(e) => {
            buf.truncate(start);
            Err(e)
        }
    }
}

/// Reads a `bit varying` or a `bit`. The bits that pad the last byte are not looked at.
///
/// # Errors
///
/// Returns `UnexpectedEof` if the number of bits is cut short, `InvalidBitLength` if it is negative, and
/// `InvalidSize` if there are not as many bytes after it as it takes.
pub fn varbit_from_sql(buf: &[u8]) -> Result<Varbit<'_>, Error>
    ensures { Reads varbit buf.now result }
{
    let (len, bytes) = natural_at(buf, Error::InvalidBitLength)?;
    if bytes.len() != len.div_ceil(8) {
        return Err(Error::InvalidSize);
    }
    Ok(Varbit { len, bytes })
}
