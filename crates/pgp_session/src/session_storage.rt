//! What a connection reads of a message, whose bytes are shared or in place.

ghost use Rattle.std.specs.Prelude.{◌≡◌};

use bytes::Bytes;
use pgp_login::LoginStorage;
use pgp_message::ParameterStatusBody;
use std::alloc::Allocator;

/// Bytes that a message keeps, where a setting can be read, and what a log-in reads.
pub(crate) trait SessionStorage: LoginStorage {
    /// The setting's name.
    fn name<'m>(body: &'m ParameterStatusBody<Self>) -> &'m [u8]
        ensures { result.now ≡ body.now.name };

    /// The setting's value.
    fn value<'m>(body: &'m ParameterStatusBody<Self>) -> &'m [u8]
        ensures { result.now ≡ body.now.value };
}

impl<A: Allocator> SessionStorage for Bytes<A> {
    fn name<'m>(body: &'m ParameterStatusBody<Bytes<A>>) -> &'m [u8] {
        body.name_bytes()
    }

    fn value<'m>(body: &'m ParameterStatusBody<Bytes<A>>) -> &'m [u8] {
        body.value_bytes()
    }
}

impl<'a> SessionStorage for &'a [u8] {
    fn name<'m>(body: &'m ParameterStatusBody<&'a [u8]>) -> &'m [u8] {
        body.name_bytes()
    }

    fn value<'m>(body: &'m ParameterStatusBody<&'a [u8]>) -> &'m [u8] {
        body.value_bytes()
    }
}
