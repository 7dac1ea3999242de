//! Writes what a script of a client sends, lists what a PostgreSQL server sent, makes verifiers, and
//! escapes texts: what the program `pgwire` runs.
#![tactic(auto)]

pub mod backend;
pub mod client;
pub mod fault;
pub mod laws;
pub mod ports;
pub mod print;
pub mod rest;
pub mod run;
pub mod script;
pub mod text;
