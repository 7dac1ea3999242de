//! The messages that a server sends.

ghost use Rattle.std.specs.Prelude.{◌≡◌, Ok, Err, None};
ghost use Rattle.pgp_message.specs.Stream.{Step, IsPartial, IsLengthFault};
ghost use Rattle.pgp_message.specs.Views.{parsed};

use crate::body::{
    AuthenticationGssContinueBody, AuthenticationMd5PasswordBody, AuthenticationSaslBody,
    AuthenticationSaslContinueBody, AuthenticationSaslFinalBody, BackendKeyDataBody,
    CommandCompleteBody, CopyDataBody, CopyInResponseBody, CopyOutResponseBody, DataRowBody,
    ErrorResponseBody, NegotiateProtocolVersionBody, NoticeResponseBody, NotificationResponseBody,
    ParameterDescriptionBody, ParameterStatusBody, ReadyForQueryBody, RowDescriptionBody,
};
use crate::parser::FrameParser;
use crate::storage::Storage;
use bytes::{Bytes, BytesMut};
use pgp_base::{Error, Memory};

/// A message that a server sends. It keeps the bytes of its frame, shared, as a `Bytes`; one that was read in place
/// (`Messages`) points to them in the slice.
#[derive(Drop)]
pub enum Message<S: Storage = Bytes> {
    /// The server asks for the password in clear text.
    AuthenticationCleartextPassword,
    /// The server asks for a GSSAPI exchange.
    AuthenticationGss,
    /// More of a GSSAPI or SSPI exchange.
    AuthenticationGssContinue(AuthenticationGssContinueBody<S>),
    /// The server asks for Kerberos V5.
    AuthenticationKerberosV5,
    /// The server asks for an MD5 answer.
    AuthenticationMd5Password(AuthenticationMd5PasswordBody),
    /// Authentication is done.
    AuthenticationOk,
    /// The server offers SASL mechanisms.
    AuthenticationSasl(AuthenticationSaslBody<S>),
    /// The server's challenge in a SASL exchange.
    AuthenticationSaslContinue(AuthenticationSaslContinueBody<S>),
    /// The server's last word in a SASL exchange.
    AuthenticationSaslFinal(AuthenticationSaslFinalBody<S>),
    /// The server asks for SCM credentials.
    AuthenticationScmCredential,
    /// The server asks for an SSPI exchange.
    AuthenticationSspi,
    /// What a later request to cancel has to show.
    BackendKeyData(BackendKeyDataBody<S>),
    /// A portal was bound.
    BindComplete,
    /// A statement or a portal was closed.
    CloseComplete,
    /// A command is complete.
    CommandComplete(CommandCompleteBody<S>),
    /// Bytes of a copy.
    CopyData(CopyDataBody<S>),
    /// The data of a copy are complete.
    CopyDone,
    /// The server is ready for the data of a copy.
    CopyInResponse(CopyInResponseBody<S>),
    /// The server is about to send the data of a copy.
    CopyOutResponse(CopyOutResponseBody<S>),
    /// A row.
    DataRow(DataRowBody<S>),
    /// The query was empty.
    EmptyQueryResponse,
    /// An error.
    ErrorResponse(ErrorResponseBody<S>),
    /// The version that the server speaks, and the options that it doesn't know, in this project's profile of protocol 3.2.
    NegotiateProtocolVersion(NegotiateProtocolVersionBody<S>),
    /// A statement that gives no rows was described.
    NoData,
    /// A notice.
    NoticeResponse(NoticeResponseBody<S>),
    /// A notification from another session.
    NotificationResponse(NotificationResponseBody<S>),
    /// The types of the parameters of a statement.
    ParameterDescription(ParameterDescriptionBody<S>),
    /// A parameter of the session.
    ParameterStatus(ParameterStatusBody<S>),
    /// A statement was parsed.
    ParseComplete,
    /// A portal has more rows than were asked for.
    PortalSuspended,
    /// The server is ready for the next query.
    ReadyForQuery(ReadyForQueryBody),
    /// The columns of the rows to come.
    RowDescription(RowDescriptionBody<S>),
}

impl<A: Memory> Message<Bytes<A>> {
    /// Takes the message at the front of the bytes, and removes its frame; `None` where it isn't whole. Memory is asked for only
    /// where the message keeps bytes of its frame, and for room for a partial frame: for what is missing, at most 65,536 bytes
    /// at a time, and an error of it isn't reported.
    ///
    /// # Errors
    ///
    /// The frame is removed for `UnknownTag`, `UnknownAuthentication`, `UnexpectedEof` if a part of the body is cut short,
    /// `InvalidCount` if the options of a `NegotiateProtocolVersion` are fewer than none, and `NotDrained` if bytes are left
    /// after the last part. The bytes stay as they are for `InvalidLength`, if a length below 4 is announced, and for
    /// `OutOfMemory`.
    pub fn parse(buf: &mut BytesMut<A>) -> Result<Option<Message<Bytes<A>>>, Error>
        ensures step { Step A.Lacks buf.old.items (parsed result) buf.new.items }
        ensures waits { IsPartial buf.old.items → result ≡ Ok None }
        ensures fault { IsLengthFault buf.old.items → result ≡ Err Error.InvalidLength }
    {
        FrameParser::new().parse(buf)
    }
}
