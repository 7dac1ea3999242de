//! Whole frames that are found at the front of bytes.

ghost use Rattle.std.specs.Prelude.{◌≡◌, ◌≤◌, drop, length};
ghost use Rattle.pgp_message.specs.Found.{FindsFrames};
ghost use Rattle.pgp_message.specs.Remembered.{header_of};

use crate::frame::{Front, header_of};
use std::marker::Model;

/// Whole frames at the front of bytes.
#[derive(Clone, Copy)]
pub struct Found {
    /// How many bytes they take.
    pub len: usize,
    /// How many they are.
    pub count: usize,
    /// Whether a length fault stands after them.
    pub stopped: bool,
}

impl Model for Found {
    ghost use Rattle.pgp_message.specs.Found.{Found};

    ghost Value = { Found };

    ghost view = { λ found. record { len = found.len; count = found.count; stopped = found.stopped } };

    ghost inverse = { λ found. record { len = found.len; count = found.count; stopped = found.stopped } };
}

/// Looks for the complete frames at the front of bytes that have this header.
pub(crate) fn whole_frames(header: Option<(u8, u32)>, bytes: &[u8]) -> Found
    requires { header ≡ header_of bytes.now }
    ensures { FindsFrames bytes.now result }
{
    let mut here = header;
    let mut rest = bytes;
    let mut count = 0usize;
    'frames: loop {
        match Front::find(here, rest) {
            Ok(Some(front)) => {
                let (_, after) = rest.split_at(front.total);
                here = header_of(after);
                rest = after;
                count += 1;
            }
            // The header is not reported: so the loop has no need of the tags.
            ended => {
                return Found {
                    len: bytes.len() - rest.len(),
                    count,
                    stopped: ended.is_err(),
                };
            }
        }
    }
}

/// The header after so many bytes; after none it is the first one, which isn't read again.
pub(crate) fn header_behind(first: Option<(u8, u32)>, bytes: &[u8], len: usize) -> Option<(u8, u32)>
    requires first { first ≡ header_of bytes.now }
    requires within { len ≤ length bytes.now }
    ensures { result ≡ header_of (drop len bytes.now) }
{
    if len == 0 {
        return first;
    }
    let (_, rest) = bytes.split_at(len);
    header_of(rest)
}
