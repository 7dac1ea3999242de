//! Both sides of SCRAM-SHA-256: RFC 5802, RFC 7677.

mod admit;
mod answer;
mod binding;
mod client;
mod error;
mod held;
mod named;
mod nonce;
mod reading;
mod rounds;
mod server;
mod server_error;
mod serving;
mod state;
mod stored;
mod verify;

pub use binding::ChannelBinding;
pub use client::ScramSha256;
pub use error::ScramError;
pub use held::{ChannelOffer, StoredVerifier};
pub use nonce::is_nonce;
pub use rounds::{asks_fewer, iteration_count};
pub use server::ScramServer;
pub use server_error::{ExchangeError, ServerError, VerifierError};
pub(crate) use serving::behind;
pub(crate) use verify::difference;
pub use verify::verify_signature;
