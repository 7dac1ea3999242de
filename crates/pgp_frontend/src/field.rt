//! Messages whose parts are known before the call.
#![tactic(auto, using(pgp_base::proofs::Parts::held_steps))]

ghost use Rattle.std.specs.Prelude.{◌≡◌, ◌<◌, ◌≤◌, ◌^◌, ◌++◌, ◌⊎◌, Option, Some, None, OnOk, OnErr, IfErr};
ghost use Rattle.std.specs.Prelude.{length};
ghost use Rattle.pgp_base.specs.Wire.{int32, nullable};
ghost use Rattle.pgp_base.specs.Cause.{length_cause, Wants, WantsMemory};
ghost use Rattle.pgp_base.specs.Held.{◌⊕◌, IsFrontOf};
ghost use Rattle.pgp_frontend.specs.Payload.{spelling, key_cause, part_cause, joined, frame_cause, framed, WritesFrame};
ghost use Rattle.pgp_frontend.specs.Putting.{PutsParts, PartsRefused};
ghost use Rattle.pgp_frontend.specs.View.{part_of, parts_of};

use pgp_base::{
    Buffer, Error, MAX_KEY_LEN, MIN_KEY_LEN, finish_body, length_field, put_u8, put_u32, write_cstr,
};

/// A part of a message.
#[derive(Clone, Copy)]
pub enum Field<'a> {
    Byte(u8),
    Int32(i32),
    Text(&'a [u8]),
    /// A length, and so many bytes.
    Sized(&'a [u8]),
    /// All bytes that are left.
    Rest(&'a [u8]),
    /// The same, of a cancel request's key.
    Key(&'a [u8]),
}

// How much room the field takes, or less where that passes every number.
// The hint carries the speed of short messages.
#[inline(always)]
fn taken(field: &Field) -> usize
    ensures { result ≤ length (spelling (part_of field.now)) }
{
    match field {
        Field::Byte(_) => 1,
        Field::Int32(_) => 4,
        Field::Text(bytes) => bytes.len().saturating_add(1),
        Field::Sized(bytes) => bytes.len().saturating_add(4),
        Field::Rest(bytes) | Field::Key(bytes) => bytes.len(),
    }
}

/// How much room these fields take after their length, and it, at most what a frame can hold.
// The hint carries the speed of short messages.
#[inline(always)]
pub fn room(fields: &[Field]) -> usize
    ensures bound { result < 2 ^ 31 }
    ensures needed { result ≤ length (framed None (joined (parts_of fields.now))) }
{
    let mut room = 4usize;
    for field in fields {
        room = room.saturating_add(taken(field));
    }
    room.min(0x7fff_ffff)
}

/// Appends a number with a sign.
// The hint carries the speed of short messages.
#[inline(always)]
#[tactic(auto, unfolding(pgp_base::specs::Wire::int32, pgp_base::specs::Wire::uint32))]
pub fn put_int32<B: Buffer>(n: i32, buf: &mut B) -> Result<(), Error>
    ensures ok { OnOk result (B.held buf.new ≡ B.held buf.old ⊕ int32 n) }
    ensures err { OnErr result (B.held buf.new ≡ B.held buf.old) }
    ensures cause { IfErr result (WantsMemory (Wants B.Lacks (B.held buf.old) (length (int32 n)))) }
{
    put_u32(buf, n.cast_unsigned())
}

// The hint carries the speed of short messages.
#[inline(always)]
fn put_sized<B: Buffer>(bytes: &[u8], buf: &mut B) -> Result<(), Error>
    ensures ok { OnOk result ((length_cause (length bytes.now) ≡ None) × (B.held buf.new ≡ B.held buf.old ⊕ nullable (Some bytes.now))) }
    ensures err { OnErr result (IsFrontOf (B.held buf.old) (B.held buf.new)) }
    ensures cause { IfErr result (λ e. WantsMemory (Wants B.Lacks (B.held buf.old) (length (nullable (Some bytes.now)))) e ⊎ (length_cause (length bytes.now) ≡ Some e)) }
{
    let size = length_field(bytes.len())?;
    put_u32(buf, size)?;
    buf.append(bytes)?;
    Ok(())
}

// The hint carries the speed of short messages.
#[inline(always)]
#[tactic(auto, using(pgp_base::proofs::Parts::wants_now))]
fn put_key<B: Buffer>(bytes: &[u8], buf: &mut B) -> Result<(), Error>
    ensures ok { OnOk result ((key_cause (length bytes.now) ≡ None) × (B.held buf.new ≡ B.held buf.old ⊕ bytes.now)) }
    ensures err { OnErr result (IsFrontOf (B.held buf.old) (B.held buf.new)) }
    ensures cause { IfErr result (λ e. WantsMemory (Wants B.Lacks (B.held buf.old) (length bytes.now)) e ⊎ (key_cause (length bytes.now) ≡ Some e)) }
{
    if bytes.len() < MIN_KEY_LEN || bytes.len() > MAX_KEY_LEN {
        return Err(Error::InvalidSize);
    }
    Ok(buf.append(bytes)?)
}

// The hint carries the speed of short messages.
#[inline(always)]
#[tactic(auto, using(pgp_base::proofs::Parts::wants_now))]
fn put_field<B: Buffer>(field: &Field, buf: &mut B) -> Result<(), Error>
    ensures ok { OnOk result ((part_cause (part_of field.now) ≡ None) × (B.held buf.new ≡ B.held buf.old ⊕ spelling (part_of field.now))) }
    ensures err { OnErr result (IsFrontOf (B.held buf.old) (B.held buf.new)) }
    ensures cause { IfErr result (λ e. WantsMemory (Wants B.Lacks (B.held buf.old) (length (spelling (part_of field.now)))) e ⊎ (part_cause (part_of field.now) ≡ Some e)) }
{
    match field {
        Field::Byte(n) => put_u8(buf, *n),
        Field::Int32(n) => put_int32(*n, buf),
        Field::Text(bytes) => write_cstr(bytes, buf),
        Field::Sized(bytes) => put_sized(bytes, buf),
        Field::Rest(bytes) => Ok(buf.append(bytes)?),
        Field::Key(bytes) => put_key(bytes, buf),
    }
}

// The fields, in a loop.
// The hint carries the speed of short messages.
#[inline(always)]
fn put_each<B: Buffer>(fields: &[Field], buf: &mut B) -> Result<(), Error>
    ensures ok { OnOk result (PutsParts (parts_of fields.now) (B.held buf.old) (B.held buf.new)) }
    ensures err { OnErr result (IsFrontOf (B.held buf.old) (B.held buf.new)) }
    ensures cause { IfErr result (PartsRefused (parts_of fields.now) B.Lacks (B.held buf.old)) }
{
    for field in fields {
        put_field(field, buf)?;
    }
    Ok(())
}

/// Appends the fields. An error leaves what stood there as a front. The first two stand ahead of the loop, so that a
/// message of at most three fields that are known when it is compiled keeps no loop, and none of them in memory.
// The hint carries the speed of short messages.
#[inline(always)]
pub fn put_fields<B: Buffer>(fields: &[Field], buf: &mut B) -> Result<(), Error>
    ensures ok { OnOk result (PutsParts (parts_of fields.now) (B.held buf.old) (B.held buf.new)) }
    ensures err { OnErr result (IsFrontOf (B.held buf.old) (B.held buf.new)) }
    ensures cause { IfErr result (PartsRefused (parts_of fields.now) B.Lacks (B.held buf.old)) }
{
    let [first, later @ ..] = fields else {
        return Ok(());
    };
    put_field(first, buf)?;
    let [second, rest @ ..] = later else {
        return Ok(());
    };
    put_field(second, buf)?;
    put_each(rest, buf)
}

// The hint carries the speed of short messages.
#[inline(always)]
fn fill<B: Buffer>(fields: &[Field], buf: &mut B) -> Result<(), Error>
    ensures ok { OnOk result ((frame_cause (parts_of fields.now) ≡ None) × (B.held buf.new ≡ B.held buf.old ⊕ framed None (joined (parts_of fields.now)))) }
    ensures err { OnErr result (IsFrontOf (B.held buf.old) (B.held buf.new)) }
    ensures cause { IfErr result (λ e. WantsMemory (Wants B.Lacks (B.held buf.old) (length (framed None (joined (parts_of fields.now))))) e ⊎ (frame_cause (parts_of fields.now) ≡ Some e)) }
{
    let base = buf.len();
    put_u32(buf, 0)?;
    put_fields(fields, buf)?;
    finish_body(buf, base)?;
    Ok(())
}

/// Appends an opening packet.
// The hint carries the speed of short messages.
#[inline(always)]
pub fn packet<B: Buffer>(fields: &[Field], buf: &mut B) -> Result<(), Error>
    ensures { WritesFrame None (parts_of fields.now) B.Lacks (B.held buf.old) (B.held buf.new) result }
{
    buf.reserve(room(fields))?;
    let start = buf.len();
    match fill(fields, buf) {
        Ok(()) => Ok(()),
        Err(e) => {
            buf.truncate(start);
            Err(e)
        }
    }
}

/// Appends a tagged message.
// The hint carries the speed of short messages.
#[inline(always)]
pub fn message<B: Buffer>(tag: u8, fields: &[Field], buf: &mut B) -> Result<(), Error>
    ensures { WritesFrame (Some tag) (parts_of fields.now) B.Lacks (B.held buf.old) (B.held buf.new) result }
{
    buf.reserve(room(fields) + 1)?;
    let start = buf.len();
    put_u8(buf, tag)?;
    match fill(fields, buf) {
        Ok(()) => Ok(()),
        Err(e) => {
            buf.truncate(start);
            Err(e)
        }
    }
}
