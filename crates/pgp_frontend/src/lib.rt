//! The messages of a client, to the byte.
#![tactic(auto)]

mod authentication;
pub mod codes;
mod copy;
mod counted;
mod extended;
pub mod field;
pub mod laws;
pub mod over_bytes;
mod simple;
mod startup;
mod text;
mod values;

pub use authentication::{password_message, sasl_initial_response, sasl_response};
pub use copy::{CopyData, copy_done, copy_fail};
pub use extended::{bind, close, describe, execute, flush, parse, sync};
pub use simple::{query, terminate};
pub use startup::{
    ProtocolVersion, cancel_request, cancel_request_key, ssl_request, startup_message,
    startup_message_version,
};
