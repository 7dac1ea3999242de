//! SASLprep, the mapping of passwords of RFC 4013, for the SCRAM client and the verifiers of `pgp_auth`.
#![tactic(auto)]

mod check;
pub mod laws;
mod mapping;
mod prepare;
mod tables;
#[cfg(test)]
mod tests;

pub use prepare::{Nfkc, SaslPrepRfc4013, UnicodeNfkc, saslprep};
