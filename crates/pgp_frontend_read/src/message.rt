//! The messages of a client, as a server sees them.

use crate::formats::Formats;
use crate::pairs::StartupParameters;
use crate::types::ParamTypes;
use crate::values::Values;
use pgp_base::Oid;

/// Which message of tag `p` a server expects. Their bytes don't tell it.
#[derive(Debug, Clone, Copy, PartialEq, Eq)]
pub enum PasswordKind {
    /// A password, or the answer to an MD5 salt.
    Password,
    /// The first text of a SASL exchange, with its mechanism.
    Initial,
    /// A later text of a SASL exchange.
    Response,
}

/// A message of a client, whose parts stand in the bytes that were read. Texts are bytes without the 0 byte after them.
///
/// PostgreSQL manual, "Message Formats".
#[derive(Drop)]
pub enum ClientMessage<'a> {
    Bind {
        portal: &'a [u8],
        statement: &'a [u8],
        formats: Formats<'a>,
        values: Values<'a>,
        result_formats: Formats<'a>,
    },
    Close {
        /// `S` of a statement or `P` of a portal; any other byte is read too.
        variant: u8,
        name: &'a [u8],
    },
    CopyData(&'a [u8]),
    CopyDone,
    CopyFail(&'a [u8]),
    Describe {
        /// `S` of a statement or `P` of a portal; any other byte is read too.
        variant: u8,
        name: &'a [u8],
    },
    Execute {
        portal: &'a [u8],
        /// The greatest number of rows; 0 is no limit.
        max_rows: i32,
    },
    Flush,
    FunctionCall {
        /// The function's object identifier.
        function: Oid,
        /// The arguments' formats: one for each, one for all, or none where all are texts. Their number isn't tested.
        formats: Formats<'a>,
        arguments: Values<'a>,
        /// 0 text, 1 binary; any other number is read too.
        result_format: i16,
    },
    Parse {
        name: &'a [u8],
        query: &'a [u8],
        param_types: ParamTypes<'a>,
    },
    PasswordMessage(&'a [u8]),
    Query(&'a [u8]),
    SaslInitialResponse {
        mechanism: &'a [u8],
        /// None where -1 stands in the place of its length.
        response: Option<&'a [u8]>,
    },
    /// All bytes, as of a GSSResponse.
    SaslResponse(&'a [u8]),
    Sync,
    Terminate,
    /// The startup packet of protocol 3.
    Startup {
        /// The minor version that the client asks for.
        minor: u16,
        parameters: StartupParameters<'a>,
    },
    CancelRequest {
        process_id: i32,
        /// 4 to 256 bytes.
        secret_key: &'a [u8],
    },
    SslRequest,
    /// The question whether the connection may be encrypted by GSSAPI.
    GssEncRequest,
}
