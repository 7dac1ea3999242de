//! The names of a server's messages.

ghost use Rattle.std.specs.Prelude.{◌≡◌};
ghost use Rattle.pgp_message.specs.Names.{name_of};
ghost use Rattle.pgp_message.specs.Views.{view};

use crate::message::Message;
use crate::storage::Storage;

impl<S: Storage> Message<S> {
    /// The name of the message's variant, as `RowDescription`.
    pub fn name(&self) -> &'static str
        ensures { result.now ≡ name_of (view self.now) }
    {
        match self {
            Message::AuthenticationCleartextPassword => "AuthenticationCleartextPassword",
            Message::AuthenticationGss => "AuthenticationGss",
            Message::AuthenticationGssContinue(_) => "AuthenticationGssContinue",
            Message::AuthenticationKerberosV5 => "AuthenticationKerberosV5",
            Message::AuthenticationMd5Password(_) => "AuthenticationMd5Password",
            Message::AuthenticationOk => "AuthenticationOk",
            Message::AuthenticationSasl(_) => "AuthenticationSasl",
            Message::AuthenticationSaslContinue(_) => "AuthenticationSaslContinue",
            Message::AuthenticationSaslFinal(_) => "AuthenticationSaslFinal",
            Message::AuthenticationScmCredential => "AuthenticationScmCredential",
            Message::AuthenticationSspi => "AuthenticationSspi",
            Message::BackendKeyData(_) => "BackendKeyData",
            Message::BindComplete => "BindComplete",
            Message::CloseComplete => "CloseComplete",
            Message::CommandComplete(_) => "CommandComplete",
            Message::CopyData(_) => "CopyData",
            Message::CopyDone => "CopyDone",
            Message::CopyInResponse(_) => "CopyInResponse",
            Message::CopyOutResponse(_) => "CopyOutResponse",
            Message::DataRow(_) => "DataRow",
            Message::EmptyQueryResponse => "EmptyQueryResponse",
            Message::ErrorResponse(_) => "ErrorResponse",
            Message::NegotiateProtocolVersion(_) => "NegotiateProtocolVersion",
            Message::NoData => "NoData",
            Message::NoticeResponse(_) => "NoticeResponse",
            Message::NotificationResponse(_) => "NotificationResponse",
            Message::ParameterDescription(_) => "ParameterDescription",
            Message::ParameterStatus(_) => "ParameterStatus",
            Message::ParseComplete => "ParseComplete",
            Message::PortalSuspended => "PortalSuspended",
            Message::ReadyForQuery(_) => "ReadyForQuery",
            Message::RowDescription(_) => "RowDescription",
        }
    }
}
