//! What the codecs share besides `pgp_types::codec`: three parts at once, and numbers in blocks that were read.
#![tactic(auto, using(pgp_base::proofs::Parts::held_steps))]

ghost use Rattle.std.specs.Prelude.{◌≡◌, ◌*◌, ◌<◌, ◌^◌, ◌++◌, length, None, FitsSigned, OnOk, OnErr, IfErr};
ghost use Rattle.std.specs.Int.{w32, w64};
ghost use Rattle.std.specs.List.{flat_map};
ghost use Rattle.pgp_base.specs.Cause.{Wants, WantsMemory, Writes};
ghost use Rattle.pgp_base.specs.Held.{◌⊕◌, IsFrontOf};
ghost use Rattle.pgp_base.specs.Wire.{int16, int32, int64, uint16, uint32, uint64};

use pgp_base::{Buffer, Error, put_u16};
use pgp_types::codec::{append, append_both};

// All of the three, or nothing.
pub fn append_three<B: Buffer>(
    front: &[u8],
    middle: &[u8],
    rest: &[u8],
    buf: &mut B,
) -> Result<(), Error>
    ensures { Writes (front.now ++ (middle.now ++ rest.now)) None B.Lacks (B.held buf.old) (B.held buf.new) result }
{
    let start = buf.len();
    append(front, buf)?;
    if let Err(refused) = append_both(middle, rest, buf) {
        buf.truncate(start);
        return Err(refused);
    }
    Ok(())
}

// Appends numbers, each in two bytes. An error leaves what stood there as a front.
pub fn put_numbers<B: Buffer>(numbers: &[u16], buf: &mut B) -> Result<(), Error>
    ensures ok { OnOk result (B.held buf.new ≡ B.held buf.old ⊕ flat_map uint16 numbers.now) }
    ensures err { OnErr result (IsFrontOf (B.held buf.old) (B.held buf.new)) }
    ensures cause { IfErr result (WantsMemory (Wants B.Lacks (B.held buf.old) (2 * length numbers.now))) }
{
    for i in 0..numbers.len() {
        match put_u16(buf, numbers[i]) {
            Ok(()) => {}
            Err(e) => return Err(e),
        }
    }
    Ok(())
}

// The number that eight bytes spell.
pub fn int64_of(bytes: &[u8]) -> i64
    requires { length bytes.now ≡ 8 }
    ensures { FitsSigned w64 result × (bytes.now ≡ int64 result) }
{
    i64::from_be_bytes(*bytes.as_array().unwrap())
}

// The number that four bytes spell.
pub fn int32_of(bytes: &[u8]) -> i32
    requires { length bytes.now ≡ 4 }
    ensures { FitsSigned w32 result × (bytes.now ≡ int32 result) }
{
    i32::from_be_bytes(*bytes.as_array().unwrap())
}

// The number without a sign that eight bytes spell.
pub fn uint64_of(bytes: &[u8]) -> u64
    requires { length bytes.now ≡ 8 }
    ensures { (result < 2 ^ 64) × (bytes.now ≡ uint64 result) }
{
    u64::from_be_bytes(*bytes.as_array().unwrap())
}

// The number without a sign that four bytes spell.
pub fn uint32_of(bytes: &[u8]) -> u32
    requires { length bytes.now ≡ 4 }
    ensures { (result < 2 ^ 32) × (bytes.now ≡ uint32 result) }
{
    u32::from_be_bytes(*bytes.as_array().unwrap())
}

// The number without a sign that two bytes spell.
pub fn uint16_of(bytes: &[u8]) -> u16
    requires { length bytes.now ≡ 2 }
    ensures { (result < 2 ^ 16) × (bytes.now ≡ uint16 result) }
{
    u16::from_be_bytes(*bytes.as_array().unwrap())
}

// The eight bytes of a number.
#[tactic(auto, unfolding(pgp_base::specs::Wire::int64))]
pub fn int64_bytes(n: i64) -> [u8; 8]
    ensures { result ≡ int64 n }
{
    n.to_be_bytes()
}

// The four bytes of a number.
#[tactic(auto, unfolding(pgp_base::specs::Wire::int32))]
pub fn int32_bytes(n: i32) -> [u8; 4]
    ensures { result ≡ int32 n }
{
    n.to_be_bytes()
}

// The two bytes of a number.
#[tactic(auto, unfolding(pgp_base::specs::Wire::int16))]
pub fn int16_bytes(n: i16) -> [u8; 2]
    ensures { result ≡ int16 n }
{
    n.to_be_bytes()
}

// The two bytes of a number without a sign.
#[tactic(auto, unfolding(pgp_base::specs::Wire::uint16))]
pub fn uint16_bytes(n: u16) -> [u8; 2]
    ensures { result ≡ uint16 n }
{
    n.to_be_bytes()
}
