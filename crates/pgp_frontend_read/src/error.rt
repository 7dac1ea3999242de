//! Why a server reads no message.

use pgp_base::Error;

/// Why no message of a client stands where one is read.
#[derive(Debug, Clone, Copy, PartialEq, Eq)]
pub enum ClientError {
    /// No opening packet has this code. A server answers a version that it doesn't speak, as 3.1 (196609), with a
    /// NegotiateProtocolVersion, or ends the connection.
    UnknownPacket(i32),
    /// Any other error: `InvalidLength` or `UnknownTag`; or, of what follows a tag or a code, `UnexpectedEof`,
    /// `InvalidValueLength`, `InvalidSize` or `NotDrained`.
    Reading(Error),
}
