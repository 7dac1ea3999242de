//! A proxy that passes frames on, byte for byte, up to a limit.

ghost use Rattle.pgp_uses.specs.Filter.{Passes};

use pgp_base::Buffer;
use postgres_protocol::Error;
use postgres_protocol::message::backend::Header;

/// Why a frame isn't passed on.
#[derive(Debug, Clone, Copy, PartialEq, Eq)]
pub enum FilterError {
    /// Its header announces more than the limit.
    PastLimit,
    /// Its header announces a length below 4, or past the greatest Int32.
    InvalidLength,
    /// The buffer can't grow.
    OutOfMemory,
}

/// Passes the frame at the front of `received` on, and returns how many bytes it takes; `None` where more has to come.
/// The limit is on the length that a header announces, which counts its own four bytes. A frame past it is
/// rejected once its header has come.
///
/// # Errors
///
/// Returns `PastLimit` and `InvalidLength` by the header; `OutOfMemory`. Nothing was passed on then.
pub fn pass<B: Buffer>(
    limit: i32,
    received: &[u8],
    out: &mut B,
) -> Result<Option<usize>, FilterError>
    ensures { Passes limit received.now B.Lacks (B.held out.old) (B.held out.new) result }
{
    let header = match Header::parse(received) {
        Ok(Some(header)) => header,
        Ok(None) => return Ok(None),
        Err(_) => return Err(FilterError::InvalidLength),
    };
    if header.len() > limit {
        return Err(FilterError::PastLimit);
    }
    let total = header.len() as usize + 1;
    if received.len() < total {
        return Ok(None);
    }
    match out.append(&received[..total]) {
        Ok(()) => Ok(Some(total)),
        Err(_) => Err(FilterError::OutOfMemory),
    }
}
