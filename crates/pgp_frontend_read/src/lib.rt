//! The server's side: what a client sends, read where it stands.
#![tactic(auto)]

mod body;
mod client_frame;
mod client_parser;
mod ends;
mod error;
mod formats;
mod forwarding;
mod frame;
mod key;
pub mod laws;
mod limits;
mod listed;
mod message;
mod messages;
mod pairs;
mod parser_error;
mod types;
mod values;
mod whole_session;

pub use client_frame::ClientFrame;
pub use client_parser::ClientParser;
pub use error::ClientError;
pub use formats::Formats;
pub use forwarding::forward;
pub use limits::Limits;
pub use message::{ClientMessage, PasswordKind};
pub use messages::ClientMessages;
pub use pairs::StartupParameters;
pub use parser_error::ParserError;
pub use types::ParamTypes;
pub use values::Values;
pub use whole_session::read_session;
