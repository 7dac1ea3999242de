//! Short callers of the protocol's crates, each with its contract: what `docs/CALLING.md` shows.
#![tactic(auto)]

pub mod arrays;
pub mod both_ends;
pub mod client;
pub mod columns;
pub mod filter;
pub mod login;
pub mod reading;
pub mod recorder;
pub mod rows;
pub mod server;
pub mod session;
pub mod statements;
pub mod streams;
pub mod values;
pub mod writing;
