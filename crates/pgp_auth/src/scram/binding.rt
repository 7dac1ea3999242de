//! Channel bindings.

ghost use Rattle.std.specs.Prelude.{◌≡◌};
ghost use Rattle.pgp_auth.specs.ScramText.{Unsupported, Unrequested, TlsServerEndPoint, gs2_header, binding_data};

use std::alloc::{Allocator, Global};
use std::marker::Model;

#[derive(Drop)]
enum Inner<A: Allocator> {
    Unrequested,
    Unsupported,
    TlsServerEndPoint(Vec<u8, A>),
}

/// What a client says of channel binding.
#[derive(Drop)]
pub struct ChannelBinding<A: Allocator = Global>(Inner<A>);

impl<A: Allocator> Model for ChannelBinding<A> {
    ghost use Rattle.pgp_auth.specs.ScramText.{Binding};
    ghost use Rattle.pgp_auth.specs.ScramView.{binding_of};

    ghost Value = { Binding };

    ghost view = { λ binding. binding_of binding.0 };
}

impl<A: Allocator> ChannelBinding<A> {
    /// The server didn't offer channel binding.
    pub fn unrequested() -> ChannelBinding<A>
        ensures { result ≡ Unrequested }
    {
        ChannelBinding(Inner::Unrequested)
    }

    /// The client can't bind the channel.
    pub fn unsupported() -> ChannelBinding<A>
        ensures { result ≡ Unsupported }
    {
        ChannelBinding(Inner::Unsupported)
    }

    /// `tls-server-end-point`, with the hash of the server's certificate.
    pub fn tls_server_end_point(signature: Vec<u8, A>) -> ChannelBinding<A>
        ensures { result ≡ TlsServerEndPoint signature.items }
    {
        ChannelBinding(Inner::TlsServerEndPoint(signature))
    }

    pub(crate) fn gs2_header(&self) -> &'static str
        ensures { result.now ≡ gs2_header self.now }
    {
        match self.0 {
            Inner::Unrequested => "y,,",
            Inner::Unsupported => "n,,",
            Inner::TlsServerEndPoint(_) => "p=tls-server-end-point,,",
        }
    }

    pub(crate) fn data(&self) -> &[u8]
        ensures { result.now ≡ binding_data self.now }
    {
        match &self.0 {
            Inner::Unrequested | Inner::Unsupported => &[],
            Inner::TlsServerEndPoint(signature) => signature.as_slice(),
        }
    }
}
