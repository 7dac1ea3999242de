//! The two streams: what a client sends, and what a server sends, in whatever pieces it comes.
#![tactic(auto)]

mod client_stream;
mod client_stream_lists;
mod parsed;
mod stream_parser;
mod whole_stream;

pub use client_stream::ClientStream;
pub use parsed::Parsed;
pub use stream_parser::StreamParser;
pub use whole_stream::parse_stream;
