//! The messages inside the CopyData of a replication stream.

ghost use Rattle.std.specs.Prelude.{◌≢◌, ◌<◌, ◌∷◌, false, true, length, IfNone, IfSome};
ghost use Rattle.pgtrace_lines.specs.Replication as replication;
ghost use Rattle.pgtrace_lines.specs.Replication.{IsClockAndReply, IsInner, IsInt32, IsInt64, IsThree, IsTwo, inner_view};

use pgp_base::big_endian::{u32_of, u64_of};

/// A message inside a CopyData. Its clock is in microseconds since 2000, as the bits of a signed number.
#[derive(Debug, Clone, Copy)]
pub enum Inner<'a> {
    /// A part of the write-ahead log.
    XLogData {
        /// Where the data begin.
        start: u64,
        /// Where the log ends.
        end: u64,
        clock: u64,
        bytes: &'a [u8],
    },
    /// Of a server that has nothing to send.
    Keepalive {
        /// Where the log ends.
        end: u64,
        clock: u64,
        /// 1 where a reply is asked for.
        reply: u8,
    },
    /// How far a standby has come, as places behind the last byte.
    StatusUpdate {
        written: u64,
        flushed: u64,
        applied: u64,
        clock: u64,
        /// 1 where a reply is asked for.
        reply: u8,
    },
    /// The oldest transactions that a standby needs.
    Feedback {
        clock: u64,
        xmin: u32,
        epoch: u32,
        catalog_xmin: u32,
        catalog_epoch: u32,
    },
}

/// The message that the bytes are, of a standby or of a server; or nothing where they are none.
pub fn inner_of(standby: bool, bytes: &[u8]) -> Option<Inner<'_>>
    ensures some { IfSome result (λ m. IsInner standby bytes.now (inner_view m)) }
    ensures none { IfNone result ((m : replication.Inner) → ¬ IsInner standby bytes.now m) }
{
    match bytes {
        [] => None,
        [tag, rest @ ..] => {
            if standby {
                standbys(*tag, rest)
            } else {
                servers(*tag, rest)
            }
        }
    }
}

/// The message of a server with this letter.
fn servers(tag: u8, rest: &[u8]) -> Option<Inner<'_>>
    ensures some { IfSome result (λ m. IsInner false (tag ∷ rest.now) (inner_view m)) }
    ensures none { IfNone result ((m : replication.Inner) → ¬ IsInner false (tag ∷ rest.now) m) }
{
    match tag {
        b'w' => x_log_data(rest),
        b'k' => keepalive(rest),
        _ => None,
    }
}

/// The message of a standby with this letter.
fn standbys(tag: u8, rest: &[u8]) -> Option<Inner<'_>>
    ensures some { IfSome result (λ m. IsInner true (tag ∷ rest.now) (inner_view m)) }
    ensures none { IfNone result ((m : replication.Inner) → ¬ IsInner true (tag ∷ rest.now) m) }
{
    match tag {
        b'r' => status_update(rest),
        b'h' => feedback(rest),
        _ => None,
    }
}

fn x_log_data(rest: &[u8]) -> Option<Inner<'_>>
    ensures some { IfSome result (λ m. IsInner false (119 ∷ rest.now) (inner_view m)) }
    ensures none { IfNone result (length rest.now < 24) }
{
    let (start, end, clock, bytes) = three(rest)?;
    Some(Inner::XLogData {
        start,
        end,
        clock,
        bytes,
    })
}

fn keepalive(rest: &[u8]) -> Option<Inner<'_>>
    ensures some { IfSome result (λ m. IsInner false (107 ∷ rest.now) (inner_view m)) }
    ensures none { IfNone result (length rest.now ≢ 17) }
{
    let (end, rest) = uint64_at(rest)?;
    let (clock, reply) = clock_and_reply(rest)?;
    Some(Inner::Keepalive { end, clock, reply })
}

fn status_update(rest: &[u8]) -> Option<Inner<'_>>
    ensures some { IfSome result (λ m. IsInner true (114 ∷ rest.now) (inner_view m)) }
    ensures none { IfNone result (length rest.now ≢ 33) }
{
    let (written, flushed, applied, rest) = three(rest)?;
    let (clock, reply) = clock_and_reply(rest)?;
    Some(Inner::StatusUpdate {
        written,
        flushed,
        applied,
        clock,
        reply,
    })
}

fn feedback(rest: &[u8]) -> Option<Inner<'_>>
    ensures some { IfSome result (λ m. IsInner true (104 ∷ rest.now) (inner_view m)) }
    ensures none { IfNone result (length rest.now ≢ 24) }
{
    let (clock, rest) = uint64_at(rest)?;
    let (xmin, epoch, rest) = two(rest)?;
    let (catalog_xmin, catalog_epoch, rest) = two(rest)?;
    if rest.is_empty() {
        return Some(Inner::Feedback {
            clock,
            xmin,
            epoch,
            catalog_xmin,
            catalog_epoch,
        });
    }
    None
}

/// Three Int64, and the bytes after them.
fn three(bytes: &[u8]) -> Option<(u64, u64, u64, &[u8])>
    ensures some { IfSome result (λ x. IsThree bytes.now x.0 x.1 x.2 x.3.now) }
    ensures none { IfNone result (length bytes.now < 24) }
{
    let (first, rest) = uint64_at(bytes)?;
    let (second, rest) = uint64_at(rest)?;
    let (third, rest) = uint64_at(rest)?;
    Some((first, second, third, rest))
}

/// Two Int32, and the bytes after them.
fn two(bytes: &[u8]) -> Option<(u32, u32, &[u8])>
    ensures some { IfSome result (λ x. IsTwo bytes.now x.0 x.1 x.2.now) }
    ensures none { IfNone result (length bytes.now < 8) }
{
    let (first, rest) = uint32_at(bytes)?;
    let (second, rest) = uint32_at(rest)?;
    Some((first, second, rest))
}

/// A clock, and a byte that stands last.
fn clock_and_reply(bytes: &[u8]) -> Option<(u64, u8)>
    ensures some { IfSome result (λ x. IsClockAndReply bytes.now x.0 x.1) }
    ensures none { IfNone result (length bytes.now ≢ 9) }
{
    let (clock, rest) = uint64_at(bytes)?;
    let (reply, left) = rest.split_first()?;
    if left.is_empty() {
        return Some((clock, *reply));
    }
    None
}

/// An Int64, and the bytes after it.
fn uint64_at(bytes: &[u8]) -> Option<(u64, &[u8])>
    ensures some { IfSome result (λ x. IsInt64 bytes.now x.0 x.1.now) }
    ensures none { IfNone result (length bytes.now < 8) }
{
    let (front, rest) = bytes.split_first_chunk::<8>()?;
    Some((u64_of(*front), rest))
}

/// An Int32, and the bytes after it.
fn uint32_at(bytes: &[u8]) -> Option<(u32, &[u8])>
    ensures some { IfSome result (λ x. IsInt32 bytes.now x.0 x.1.now) }
    ensures none { IfNone result (length bytes.now < 4) }
{
    let (front, rest) = bytes.split_first_chunk::<4>()?;
    Some((u32_of(*front), rest))
}
