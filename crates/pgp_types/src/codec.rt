//! What codecs share: writers of bytes that append all or nothing, and readers of blocks. The codecs of other crates use them too.
#![tactic(auto, using(pgp_base::proofs::Parts::held_steps))]

ghost use Rattle.std.specs.Prelude.{◌++◌, None};
ghost use Rattle.pgp_base.specs.Cause.{Writes};
ghost use Rattle.pgp_types.specs.Format.{Reads, block, whole};

use pgp_base::{Buffer, Error};

/// The most items of a list after a count: `i32::MAX`.
pub const MOST_ITEMS: u32 = 0x7fff_ffff;

/// Appends the bytes.
///
/// # Errors
///
/// Returns `OutOfMemory` if the buffer can't grow; on error the buffer is unchanged.
#[tactic(auto, using(pgp_base::proofs::Parts::held_steps, pgp_base::proofs::Parts::wants_now))]
pub fn append<B: Buffer>(bytes: &[u8], buf: &mut B) -> Result<(), Error>
    ensures { Writes bytes.now None B.Lacks (B.held buf.old) (B.held buf.new) result }
{
    buf.append(bytes)?;
    Ok(())
}

/// Appends both, one after the other.
///
/// # Errors
///
/// Returns `OutOfMemory` if the buffer can't grow; on error the buffer is unchanged.
// The hint carries the speed of `inet_to_sql`.
#[inline(always)]
pub fn append_both<B: Buffer>(front: &[u8], rest: &[u8], buf: &mut B) -> Result<(), Error>
    ensures { Writes (front.now ++ rest.now) None B.Lacks (B.held buf.old) (B.held buf.new) result }
{
    let start = buf.len();
    buf.append(front)?;
    if buf.append(rest).is_err() {
        buf.truncate(start);
        return Err(Error::OutOfMemory);
    }
    Ok(())
}

/// Returns the bytes if there are `N`.
///
/// # Errors
///
/// Returns `UnexpectedEof` if there are fewer, `NotDrained` if there are more.
pub fn block<const N: usize>(buf: &[u8]) -> Result<[u8; N], Error>
    ensures { Reads (block N) buf.now result }
{
    let (front, rest) = buf.split_first_chunk().ok_or(Error::UnexpectedEof)?;
    if !rest.is_empty() {
        return Err(Error::NotDrained);
    }
    Ok(*front)
}

/// Returns the bytes if there are `N`.
///
/// # Errors
///
/// Returns `InvalidSize` if there are not.
pub fn whole<const N: usize>(buf: &[u8]) -> Result<[u8; N], Error>
    ensures { Reads (whole N) buf.now result }
{
    <[u8; N]>::try_from(buf).map_err(|_| Error::InvalidSize)
}
