//! The messages of both sides.

pub mod frontend;

pub use pgp_frontend_read as client;
pub use pgp_message as backend;
pub use pgp_message_write as reply;
