//! Writers of a client's messages.

pub use pgp_base::BindError;
pub use pgp_frontend::{
    CopyData, ProtocolVersion, bind, cancel_request, cancel_request_key, close, copy_done,
    copy_fail, describe, execute, flush, over_bytes, parse, password_message, query,
    sasl_initial_response, sasl_response, ssl_request, startup_message, startup_message_version,
    sync, terminate,
};
