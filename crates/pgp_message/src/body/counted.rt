//! What the bodies that a count begins share.

ghost use Rattle.std.specs.Prelude.{◌≡◌};
ghost use Rattle.pgp_message.specs.Reading.{counted_of, copy_of};

use crate::storage::Storage;
use bytes::Bytes;
use pgp_base::Error;
use pgp_base::reading::{byte_at, uint16_at};
use std::marker::Model;

/// A count, and the bytes after it.
#[derive(Drop)]
pub(crate) struct CountedBytes<S: Storage> {
    pub(crate) len: u16,
    pub(crate) storage: S,
}

impl<S: Storage> Model for CountedBytes<S> {
    ghost use Rattle.pgp_message.specs.Parts.{CountedBytes};

    ghost Value = { CountedBytes };

    ghost view = { λ body. record { count = body.len; storage = S.bytes body.storage } };
}

impl<S: Storage> CountedBytes<S> {
    #[tactic(auto, unfolding(crate::specs::Reading::counted_of))]
    pub(crate) fn read(mut payload: S) -> Result<CountedBytes<S>, Error>
        ensures { result ≡ counted_of (S.bytes payload) }
    {
        let (len, _) = uint16_at(payload.as_slice())?;
        payload.skip(2);
        Ok(CountedBytes {
            len,
            storage: payload,
        })
    }
}

/// The format of a copy as a whole, a count, and the bytes after it.
#[derive(Drop)]
pub(crate) struct CopyFormats<S: Storage> {
    pub(crate) format: u8,
    pub(crate) len: u16,
    pub(crate) storage: S,
}

impl<S: Storage> Model for CopyFormats<S> {
    ghost use Rattle.pgp_message.specs.Parts.{CopyFormats};

    ghost Value = { CopyFormats };

    ghost view = { λ body. record { format = body.format; count = body.len; storage = S.bytes body.storage } };
}

impl<S: Storage> CopyFormats<S> {
    #[tactic(auto, unfolding(crate::specs::Reading::copy_of))]
    pub(crate) fn read(mut payload: S) -> Result<CopyFormats<S>, Error>
        ensures { result ≡ copy_of (S.bytes payload) }
    {
        let (format, rest) = byte_at(payload.as_slice())?;
        let (len, _) = uint16_at(rest)?;
        payload.skip(3);
        Ok(CopyFormats {
            format,
            len,
            storage: payload,
        })
    }
}
