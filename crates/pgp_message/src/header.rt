//! The tag and the length of a frame, read by themselves.

ghost use Rattle.std.specs.Prelude.{◌≡◌};
ghost use Rattle.pgp_message.specs.Header.{ReadsHeader};

use crate::frame::head;
use pgp_base::Error;
use std::marker::Model;

/// The front of a frame: its tag, and the length of what follows the tag.
#[derive(Debug, Clone, Copy)]
pub struct Header {
    tag: u8,
    len: i32,
}

impl Model for Header {
    ghost use Rattle.pgp_message.specs.Header.{HeaderPart};

    ghost Value = { HeaderPart };

    ghost view = { λ header. record { tag = header.tag; len = header.len } };

    ghost inverse = { λ part. record { tag = part.tag; len = part.len } };
}

impl Header {
    /// Reads the header at the front of the bytes; `None` where fewer than five stand there. The length is an
    /// Int32 here, and counts its own four bytes.
    ///
    /// # Errors
    ///
    /// Returns `InvalidLength` if the length is below 4.
    pub fn parse(buf: &[u8]) -> Result<Option<Header>, Error>
        ensures { ReadsHeader buf.now result }
    {
        if buf.len() < 5 {
            return Ok(None);
        }
        let (tag, len) = head(buf);
        let len = len.cast_signed();
        if len < 4 {
            return Err(Error::InvalidLength);
        }
        Ok(Some(Header { tag, len }))
    }

    /// The tag of the message.
    pub fn tag(self) -> u8
        ensures { result ≡ self.tag }
    {
        self.tag
    }

    /// The length of what follows the tag, its own four bytes counted.
    pub fn len(self) -> i32
        ensures { result ≡ self.len }
    {
        self.len
    }
}
