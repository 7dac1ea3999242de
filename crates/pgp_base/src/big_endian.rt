//! Numbers as bytes, the highest first, by `byteorder`.

ghost use Rattle.std.specs.Prelude.{◌≡◌};
ghost use Rattle.std.specs.Int.{from_be_bytes, to_be_bytes, w16, w32, w64};

use byteorder::{BigEndian, ByteOrder};

/// The bytes of a number of 16 bits.
#[inline(always)]
pub fn u16_bytes(n: u16) -> [u8; 2]
    ensures { result ≡ to_be_bytes w16 n }
{
    let mut bytes = [0; 2];
    BigEndian::write_u16(&mut bytes, n);
    bytes
}

/// The bytes of a number of 32 bits.
#[inline(always)]
pub fn u32_bytes(n: u32) -> [u8; 4]
    ensures { result ≡ to_be_bytes w32 n }
{
    let mut bytes = [0; 4];
    BigEndian::write_u32(&mut bytes, n);
    bytes
}

/// The bytes of a number of 64 bits.
#[inline(always)]
pub fn u64_bytes(n: u64) -> [u8; 8]
    ensures { result ≡ to_be_bytes w64 n }
{
    let mut bytes = [0; 8];
    BigEndian::write_u64(&mut bytes, n);
    bytes
}

/// The number of these bytes.
#[inline(always)]
pub fn u16_of(bytes: [u8; 2]) -> u16
    ensures { result ≡ from_be_bytes w16 bytes }
{
    BigEndian::read_u16(&bytes)
}

/// The number of these bytes.
#[inline(always)]
pub fn u32_of(bytes: [u8; 4]) -> u32
    ensures { result ≡ from_be_bytes w32 bytes }
{
    BigEndian::read_u32(&bytes)
}

/// The number of these bytes.
#[inline(always)]
pub fn u64_of(bytes: [u8; 8]) -> u64
    ensures { result ≡ from_be_bytes w64 bytes }
{
    BigEndian::read_u64(&bytes)
}
