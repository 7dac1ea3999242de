//! What a copy is about to bring, and what it brings.

ghost use Rattle.std.specs.Prelude.{◌≡◌, ◌≤◌, length, Some};
ghost use Rattle.pgp_base.specs.Items.{CountedItems};
ghost use Rattle.pgp_message.specs.Items.{FormatSpelled, FormatRefused};
ghost use Rattle.pgp_message.specs.Reading.{copy_of};

use crate::body::counted::CopyFormats;
use crate::storage::Storage;
use crate::walk::ColumnFormats;
use bytes::Bytes;
use pgp_base::Error;
use std::alloc::Allocator;
use std::marker::Model;

/// Bytes of a copy.
#[derive(Drop)]
pub struct CopyDataBody<S: Storage = Bytes> {
    storage: S,
}

impl<S: Storage> Model for CopyDataBody<S> {
    ghost use Rattle.std.specs.Prelude.{ℕ, List};

    ghost Value = { List ℕ };

    ghost view = { λ body. S.bytes body.storage };
}

impl<S: Storage> CopyDataBody<S> {
    pub(crate) fn new(storage: S) -> CopyDataBody<S>
        ensures { result ≡ S.bytes storage }
    {
        CopyDataBody { storage }
    }
}

impl<A: Allocator> CopyDataBody<Bytes<A>> {
    /// The bytes.
    pub fn data(&self) -> &[u8]
        ensures { result.now ≡ self.now }
    {
        self.storage.as_slice()
    }

    /// The bytes, owned.
    pub fn into_bytes(self) -> Bytes<A>
        ensures { result ≡ self }
    {
        let CopyDataBody { storage } = self;
        storage
    }
}

impl<'a> CopyDataBody<&'a [u8]> {
    /// The bytes, where they stand.
    pub fn data(&self) -> &'a [u8]
        ensures { result.now ≡ self.now }
    {
        self.storage
    }
}

/// A server is ready for the data of a copy.
#[derive(Drop)]
pub struct CopyInResponseBody<S: Storage = Bytes> {
    incoming: CopyFormats<S>,
}

impl<S: Storage> Model for CopyInResponseBody<S> {
    ghost use Rattle.pgp_message.specs.Parts.{CopyFormats};

    ghost Value = { CopyFormats };

    ghost view = { λ body. body.incoming };
}

impl<S: Storage> CopyInResponseBody<S> {
    pub(crate) fn read(payload: S) -> Result<CopyInResponseBody<S>, Error>
        ensures { result ≡ copy_of (S.bytes payload) }
    {
        let incoming = CopyFormats::read(payload)?;
        Ok(CopyInResponseBody { incoming })
    }

    /// The format of the copy as a whole: 0 text, 1 binary.
    pub fn format(&self) -> u8
        ensures { result ≡ self.now.format }
    {
        self.incoming.format
    }
}

impl<A: Allocator> CopyInResponseBody<Bytes<A>> {
    /// The format of each column.
    pub fn column_formats(&self) -> ColumnFormats<'_>
        ensures items { CountedItems FormatSpelled FormatRefused self.now.count self.now.storage result.items result.end }
        ensures announced { result.announced ≡ Some self.now.count }
        ensures few { length result.items ≤ length self.now.storage }
    {
        ColumnFormats::over(self.incoming.storage.as_slice(), self.incoming.len)
    }
}

impl<'a> CopyInResponseBody<&'a [u8]> {
    /// The format of each column.
    pub fn column_formats(&self) -> ColumnFormats<'a>
        ensures items { CountedItems FormatSpelled FormatRefused self.now.count self.now.storage result.items result.end }
        ensures announced { result.announced ≡ Some self.now.count }
        ensures few { length result.items ≤ length self.now.storage }
    {
        ColumnFormats::over(self.incoming.storage, self.incoming.len)
    }
}

/// A server is about to send the data of a copy.
#[derive(Drop)]
pub struct CopyOutResponseBody<S: Storage = Bytes> {
    outgoing: CopyFormats<S>,
}

impl<S: Storage> Model for CopyOutResponseBody<S> {
    ghost use Rattle.pgp_message.specs.Parts.{CopyFormats};

    ghost Value = { CopyFormats };

    ghost view = { λ body. body.outgoing };
}

impl<S: Storage> CopyOutResponseBody<S> {
    pub(crate) fn read(payload: S) -> Result<CopyOutResponseBody<S>, Error>
        ensures { result ≡ copy_of (S.bytes payload) }
    {
        let outgoing = CopyFormats::read(payload)?;
        Ok(CopyOutResponseBody { outgoing })
    }

    /// The format of the copy as a whole: 0 text, 1 binary.
    pub fn format(&self) -> u8
        ensures { result ≡ self.now.format }
    {
        self.outgoing.format
    }
}

impl<A: Allocator> CopyOutResponseBody<Bytes<A>> {
    /// The format of each column.
    pub fn column_formats(&self) -> ColumnFormats<'_>
        ensures items { CountedItems FormatSpelled FormatRefused self.now.count self.now.storage result.items result.end }
        ensures announced { result.announced ≡ Some self.now.count }
        ensures few { length result.items ≤ length self.now.storage }
    {
        ColumnFormats::over(self.outgoing.storage.as_slice(), self.outgoing.len)
    }
}

impl<'a> CopyOutResponseBody<&'a [u8]> {
    /// The format of each column.
    pub fn column_formats(&self) -> ColumnFormats<'a>
        ensures items { CountedItems FormatSpelled FormatRefused self.now.count self.now.storage result.items result.end }
        ensures announced { result.announced ≡ Some self.now.count }
        ensures few { length result.items ≤ length self.now.storage }
    {
        ColumnFormats::over(self.outgoing.storage, self.outgoing.len)
    }
}
