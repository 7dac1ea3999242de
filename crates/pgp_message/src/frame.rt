//! The frame at the front of a buffer.

ghost use Rattle.std.specs.Prelude.{◌≡◌, ◌≤◌, Ok, Err, None, length, min, slice_index};
ghost use Rattle.pgp_base.specs.Wire.{IsBytes};
ghost use Rattle.pgp_message.specs.Remembered.{count_of, header_of, missing_of};
ghost use Rattle.pgp_message.specs.FrontReading.{Finds, announced};
ghost use Rattle.pgp_message.specs.Stream.{IsPartial, IsLengthFault};

use pgp_base::Error;
use pgp_base::big_endian::u32_of;
use std::marker::Model;

/// The most room that is asked for at a time.
const MAX_ROOM: usize = 65536;

/// A complete frame at the front of bytes.
#[derive(Clone, Copy)]
pub struct Front {
    pub tag: u8,
    /// How many bytes it takes, its tag and its length counted.
    pub total: usize,
}

impl Model for Front {
    ghost use Rattle.pgp_message.specs.FrontReading.{Front};

    ghost Value = { Front };

    ghost view = { λ front. record { tag = front.tag; total = front.total } };

    ghost inverse = { λ front. record { tag = front.tag; total = front.total } };
}

impl Front {
    /// The frame of this header at the front of the bytes; `None` where it isn't whole.
    pub fn find(header: Option<(u8, u32)>, bytes: &[u8]) -> Result<Option<Front>, Error>
        requires { header ≡ header_of bytes.now }
        ensures finds { Finds bytes.now result }
        ensures waits { IsPartial bytes.now → result ≡ Ok None }
        ensures fault { IsLengthFault bytes.now → result ≡ Err Error.InvalidLength }
    {
        let Some((tag, len)) = header else {
            return Ok(None);
        };
        if len < 4 {
            return Err(Error::InvalidLength);
        }
        let total = len as usize + 1;
        if bytes.len() < total {
            return Ok(None);
        }
        Ok(Some(Front { tag, total }))
    }
}

/// How much room to ask for where so many bytes of a frame stand there: for what is missing to its
/// header, or to all of it.
pub fn room(header: Option<(u8, u32)>, held: usize) -> usize
    ensures { result ≡ min (missing_of header held) 65536 }
{
    match header {
        None => 5usize.saturating_sub(held),
        Some((_, len)) => (len as usize + 1).saturating_sub(held).min(MAX_ROOM),
    }
}

/// The tag and the length at the front of the bytes.
pub fn head(bytes: &[u8]) -> (u8, u32)
    requires { 5 ≤ length bytes.now }
    ensures tag { result.0 ≡ slice_index bytes.now 0 }
    ensures len { result.1 ≡ announced bytes.now }
    ensures each { IsBytes bytes.now }
{
    let tag = bytes[0];
    let len = u32_of([bytes[1], bytes[2], bytes[3], bytes[4]]);
    (tag, len)
}

/// The header at the front of the bytes, where five stand there.
pub fn header_of(bytes: &[u8]) -> Option<(u8, u32)>
    ensures { result ≡ header_of bytes.now }
{
    if bytes.len() < 5 {
        return None;
    }
    Some(head(bytes))
}

/// How many headers these are.
pub fn count_of(header: Option<(u8, u32)>) -> usize
    ensures { result ≡ count_of header }
{
    match header {
        None => 0,
        Some(_) => 1,
    }
}
