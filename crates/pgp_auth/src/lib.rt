//! What a client computes from a password and from a text: the answers to a server's requests for
//! authentication, the verifiers that a server stores, and quoted literals and identifiers.
#![tactic(auto)]

pub mod authentication;
pub mod escape;
mod hmac;
pub mod lanes;
pub mod laws;
mod md5_text;
pub mod password;
mod scram;
