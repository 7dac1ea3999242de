//! Streams of messages, in whatever chunks they come and go.

pub use pgp_frontend_read::{ClientFrame, ClientParser, Limits, ParserError, read_session};
pub use pgp_session::{
    BindSendError, Connection, ConnectionError, ConnectionPhase, OutBuffer, Versions, Ways,
};
pub use pgp_stream::{ClientStream, Parsed, StreamParser, parse_stream};
