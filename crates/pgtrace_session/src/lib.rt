//! Shows a person both sides of a recorded connection in one listing, a line a message, in the order in which they came: what the program
//! `pgtrace` runs for `session`, with all else of `pgtrace_lines`.
#![tactic(auto)]

mod awaited;
mod bound;
mod chunk;
mod client_types;
mod column;
mod columns;
mod connection;
mod ending;
mod expectation;
mod fields;
pub mod files;
mod frames;
mod instant;
mod last;
pub mod laws;
mod line_mark;
mod numbers;
mod outcome;
mod placement;
mod request_mark;
mod role;
mod row;
pub mod run;
mod server_types;
mod session;
mod start;
mod state;
mod summing;
mod table;
mod typed;
mod types;
mod value;
