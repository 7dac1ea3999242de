//! The chunks of a recording.

ghost use Rattle.std.specs.Prelude.{◌≡◌, true, false};
ghost use Rattle.pgtrace_session.specs.Steps.{TakesPart, TakesRest, sender_of};

use pgp_base::big_endian::{u32_of, u64_of};

/// Who sent the bytes of a chunk.
#[derive(Debug, Clone, Copy, PartialEq, Eq)]
pub enum Sender {
    Client,
    Server,
}

/// Bytes that came at once.
#[derive(Debug, Clone, Copy)]
pub struct Chunk<'a> {
    pub sender: Sender,
    /// When they came: microseconds since 1970-01-01 UTC.
    pub micros: u64,
    pub bytes: &'a [u8],
}

/// What stands at the front of what is left of a recording.
#[derive(Debug, Clone, Copy)]
pub enum Part<'a> {
    /// What a recording begins with.
    Magic,
    Chunk(Chunk<'a>),
    /// A front of either.
    Waits,
    /// Neither.
    Stops,
}

/// What a recording begins with.
const MAGIC: &str = "pgtrace recording 1\n";

/// What stands first, where a recording's beginning was read or not, and what stands after it.
pub fn first_part(begun: bool, bytes: &[u8]) -> (Part<'_>, &[u8])
    ensures { TakesPart begun bytes.now result.0 result.1.now }
{
    if begun {
        first_chunk(bytes)
    } else {
        first_magic(bytes)
    }
}

/// The beginning of a recording.
fn first_magic(bytes: &[u8]) -> (Part<'_>, &[u8])
    ensures { TakesPart false bytes.now result.0 result.1.now }
{
    if bytes.len() < MAGIC.len() {
        return (Part::Waits, bytes);
    }
    let (front, rest) = bytes.split_at(MAGIC.len());
    if front == MAGIC.as_bytes() {
        (Part::Magic, rest)
    } else {
        (Part::Stops, bytes)
    }
}

/// The chunk that stands first.
fn first_chunk(bytes: &[u8]) -> (Part<'_>, &[u8])
    ensures { TakesPart true bytes.now result.0 result.1.now }
{
    let Some((first, behind)) = bytes.split_first() else {
        return (Part::Waits, bytes);
    };
    let Some(sender) = sender_of(*first) else {
        return (Part::Stops, bytes);
    };
    match chunk_behind(sender, behind) {
        Some((chunk, rest)) => (Part::Chunk(chunk), rest),
        None => (Part::Waits, bytes),
    }
}

/// Who sent a chunk that begins with this byte.
fn sender_of(byte: u8) -> Option<Sender>
    ensures { result ≡ sender_of byte }
{
    match byte {
        b'>' => Some(Sender::Client),
        b'<' => Some(Sender::Server),
        _ => None,
    }
}

/// What stands after the first byte of a chunk, if it is whole.
fn chunk_behind(sender: Sender, bytes: &[u8]) -> Option<(Chunk<'_>, &[u8])>
    ensures { TakesRest sender bytes.now result }
{
    let Some((micros, behind)) = bytes.split_first_chunk::<8>() else {
        return None;
    };
    let Some((len, behind)) = behind.split_first_chunk::<4>() else {
        return None;
    };
    let len = u32_of(*len) as usize;
    if behind.len() < len {
        return None;
    }
    let (bytes, rest) = behind.split_at(len);
    let micros = u64_of(*micros);
    Some((
        Chunk {
            sender,
            micros,
            bytes,
        },
        rest,
    ))
}
