//! State machines over messages, without input or output: what a client sends, what a server sends, the log-in of a client, and
//! the cores of a server, of a proxy and of a pooler.
#![tactic(auto)]

mod connection;
mod connection_error;
mod connection_known;
mod connection_parts;
mod connection_state;
mod extended;
mod incoming;
pub mod laws;
mod login;
pub mod monitor;
mod out_buffer;
pub mod pooler;
mod protocol_options;
pub mod proxy;
mod requests;
mod server_state;
pub mod serving;
mod serving_due;
mod serving_outcome;
mod serving_reply;
mod serving_versions;
mod session_storage;
mod settings;
mod startup_names;
pub mod transaction;

pub use connection::{Connection, ConnectionPhase};
pub use connection_error::{BindSendError, ConnectionError};
pub use login::Ways;
pub use out_buffer::OutBuffer;
pub use pgp_frontend::ProtocolVersion;
pub use pgp_login::Versions;
pub use server_state::{BackendKey, KeptKey, ServerState};
