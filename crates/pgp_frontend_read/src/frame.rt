//! What stands at the front, by its length alone.

ghost use Rattle.std.specs.Prelude.{◌≡◌, ◌≤◌, true, false, length, slice_index};
ghost use Rattle.pgp_frontend_read.specs.Step.{FindsFrame, FindsPacket, announced};

use pgp_base::Error;

/// The greatest length that a message may have.
pub const MAX_LEN: u32 = 0x7fff_ffff;

/// The tag and the payload of the complete frame at the front, and what follows it; `None` where none is
/// whole.
///
/// # Errors
///
/// Returns `InvalidLength` if the length is below 4 or exceeds `i32::MAX`.
pub fn frame(bytes: &[u8]) -> Result<Option<(u8, &[u8], &[u8])>, Error>
    ensures { FindsFrame bytes.now result }
{
    if bytes.len() < 5 {
        return Ok(None);
    }
    let (tag, len) = tagged_head(bytes);
    if len < 4 {
        return Err(Error::InvalidLength);
    }
    if len > MAX_LEN {
        return Err(Error::InvalidLength);
    }
    let total = len as usize + 1;
    if bytes.len() < total {
        return Ok(None);
    }
    let (front, rest) = bytes.split_at(total);
    let (_, payload) = front.split_at(5);
    Ok(Some((tag, payload, rest)))
}

/// The payload of the whole opening packet at the front, its code included, and what follows it; `None` where none is
/// whole.
///
/// # Errors
///
/// Returns `InvalidLength` if the length is below 8 or exceeds `i32::MAX`.
pub fn packet_front(bytes: &[u8]) -> Result<Option<(&[u8], &[u8])>, Error>
    ensures { FindsPacket bytes.now result }
{
    if bytes.len() < 4 {
        return Ok(None);
    }
    let len = opening_head(bytes);
    if len < 8 {
        return Err(Error::InvalidLength);
    }
    if len > MAX_LEN {
        return Err(Error::InvalidLength);
    }
    let total = len as usize;
    if bytes.len() < total {
        return Ok(None);
    }
    let (front, rest) = bytes.split_at(total);
    let (_, payload) = front.split_at(4);
    Ok(Some((payload, rest)))
}

/// The tag and the length at the front of the bytes.
fn tagged_head(bytes: &[u8]) -> (u8, u32)
    requires { 5 ≤ length bytes.now }
    ensures tag { result.0 ≡ slice_index bytes.now 0 }
    ensures len { result.1 ≡ announced true bytes.now }
{
    let tag = bytes[0];
    let len = u32::from_be_bytes([bytes[1], bytes[2], bytes[3], bytes[4]]);
    (tag, len)
}

/// The length at the front of the bytes.
fn opening_head(bytes: &[u8]) -> u32
    requires { 4 ≤ length bytes.now }
    ensures { result ≡ announced false bytes.now }
{
    u32::from_be_bytes([bytes[0], bytes[1], bytes[2], bytes[3]])
}
