//! What an exchange keeps.

ghost use Rattle.std.specs.Prelude.{◌≡◌};
ghost use Rattle.pgp_auth.specs.ScramText.{client_first};

use crate::scram::binding::ChannelBinding;
use std::alloc::Allocator;

// Until the server's first text.
#[derive(Drop)]
pub(crate) struct Start<A: Allocator> {
    pub password: Vec<u8, A>,
    pub binding: ChannelBinding<A>,
    pub nonce: Vec<u8, A>,
    pub first_text: Vec<u8, A>,
    ghost is_first: { first_text.items ≡ client_first binding nonce.items },
}

// From the server's first text on.
#[derive(Drop)]
pub(crate) struct Signed<A: Allocator> {
    pub key: [u8; 32],
    pub auth: Vec<u8, A>,
    pub final_text: Vec<u8, A>,
}

#[derive(Drop)]
pub(crate) enum State<A: Allocator> {
    AwaitsFirst(Start<A>),
    AwaitsFinal(Signed<A>),
    Over,
}
