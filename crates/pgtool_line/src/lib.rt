//! What the programs stand on: how a message stands in a line (its parts, quoted by characters that a terminal prints or as JSON, with secrets
//! hidden), readers and writers, the words that a process was started with, and how a run ends.
#![tactic(auto)]

pub mod characters;
pub mod fault;
pub mod hex;
pub mod laws;
pub mod line;
pub mod nesting;
pub mod outcome;
pub mod ports;
pub mod print;
pub mod quote;
pub mod secret;
pub mod style;
pub mod types;
pub mod wide;
pub mod words;
