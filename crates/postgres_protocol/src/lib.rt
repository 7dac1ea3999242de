//! The PostgreSQL frontend/backend protocol: what a client sends and what a server answers, as whole
//! streams.
#![tactic(auto)]

pub mod laws;
pub mod message;
pub mod session;

pub use pgp_auth::{authentication, escape, password};
pub use pgp_base::{BindError, Error, FallibleIterator, IsNull, Lsn, Oid};
pub use pgp_client as dialogue;
pub use pgp_types as types;
pub use pgp_values as values;
