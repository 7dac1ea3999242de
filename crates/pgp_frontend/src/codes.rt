//! The numbers after the length of a packet that opens a connection. PostgreSQL manual, "Message Formats".

/// A StartupMessage of version 3.0, the first of protocol 3. A later minor version is added to it.
pub const VERSION_3_0: u32 = 196_608;

/// The number after that of the last minor version of protocol 3.
pub const VERSION_4_0: u32 = 262_144;

/// A CancelRequest.
pub const CANCEL_REQUEST: u32 = 80_877_102;

/// An SSLRequest.
pub const SSL_REQUEST: u32 = 80_877_103;

/// A GSSENCRequest.
pub const GSSENC_REQUEST: u32 = 80_877_104;
