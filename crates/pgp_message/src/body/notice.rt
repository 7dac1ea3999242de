//! Errors and notices.

ghost use Rattle.std.specs.Prelude.{◌≡◌, ◌≤◌, length, None};
ghost use Rattle.pgp_base.specs.Items.{MarkedItems};
ghost use Rattle.pgp_message.specs.Items.{ErrorFieldSpelled, ErrorFieldRefused};

use crate::storage::Storage;
use crate::walk::ErrorFields;
use bytes::Bytes;
use std::alloc::Allocator;
use std::marker::Model;

/// An error.
#[derive(Drop)]
pub struct ErrorResponseBody<S: Storage = Bytes> {
    error: S,
}

impl<S: Storage> Model for ErrorResponseBody<S> {
    ghost use Rattle.std.specs.Prelude.{ℕ, List};

    ghost Value = { List ℕ };

    ghost view = { λ body. S.bytes body.error };
}

impl<S: Storage> ErrorResponseBody<S> {
    pub(crate) fn new(error: S) -> ErrorResponseBody<S>
        ensures { result ≡ S.bytes error }
    {
        ErrorResponseBody { error }
    }
}

impl<A: Allocator> ErrorResponseBody<Bytes<A>> {
    /// The fields, in the order in which they came.
    pub fn fields(&self) -> ErrorFields<'_>
        ensures items { MarkedItems ErrorFieldSpelled ErrorFieldRefused self.now result.items result.end }
        ensures announced { result.announced ≡ None }
        ensures few { length result.items ≤ length self.now }
    {
        ErrorFields::over(self.error.as_slice())
    }
}

impl<'a> ErrorResponseBody<&'a [u8]> {
    /// The fields, in the order in which they came.
    pub fn fields(&self) -> ErrorFields<'a>
        ensures items { MarkedItems ErrorFieldSpelled ErrorFieldRefused self.now result.items result.end }
        ensures announced { result.announced ≡ None }
        ensures few { length result.items ≤ length self.now }
    {
        ErrorFields::over(self.error)
    }
}

/// A notice.
#[derive(Drop)]
pub struct NoticeResponseBody<S: Storage = Bytes> {
    notice: S,
}

impl<S: Storage> Model for NoticeResponseBody<S> {
    ghost use Rattle.std.specs.Prelude.{ℕ, List};

    ghost Value = { List ℕ };

    ghost view = { λ body. S.bytes body.notice };
}

impl<S: Storage> NoticeResponseBody<S> {
    pub(crate) fn new(notice: S) -> NoticeResponseBody<S>
        ensures { result ≡ S.bytes notice }
    {
        NoticeResponseBody { notice }
    }
}

impl<A: Allocator> NoticeResponseBody<Bytes<A>> {
    /// The fields, in the order in which they came.
    pub fn fields(&self) -> ErrorFields<'_>
        ensures items { MarkedItems ErrorFieldSpelled ErrorFieldRefused self.now result.items result.end }
        ensures announced { result.announced ≡ None }
        ensures few { length result.items ≤ length self.now }
    {
        ErrorFields::over(self.notice.as_slice())
    }
}

impl<'a> NoticeResponseBody<&'a [u8]> {
    /// The fields, in the order in which they came.
    pub fn fields(&self) -> ErrorFields<'a>
        ensures items { MarkedItems ErrorFieldSpelled ErrorFieldRefused self.now result.items result.end }
        ensures announced { result.announced ≡ None }
        ensures few { length result.items ≤ length self.now }
    {
        ErrorFields::over(self.notice)
    }
}
