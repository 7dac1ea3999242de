//! What a message says of those that are still to come.

ghost use Rattle.std.specs.Prelude.{◌≡◌};
ghost use Rattle.pgp_frontend_read.specs.Views as sent;
ghost use Rattle.pgp_message.specs.Views.{view};
ghost use Rattle.pgtrace_session.specs.Conversation.{asks, requests};

use pgp_frontend_read::{ClientMessage, PasswordKind};
use pgp_message::Message;

/// A client's request for encryption.
#[derive(Debug, Clone, Copy, PartialEq, Eq)]
pub enum Encryption {
    /// An SSLRequest.
    Tls,
    /// A GSSENCRequest.
    Gss,
}

/// What a message says of those that are still to come.
#[derive(Debug, Clone, Copy, PartialEq, Eq)]
pub enum Noted {
    /// A server asks for a message of tag `p`, of this kind.
    Asks(PasswordKind),
    /// A client asks for encryption.
    Requests(Encryption),
    /// A server answers such a request by one byte.
    Answers,
    Nothing,
}

/// What a server's message says of them.
pub fn asked_by(message: &Message<&[u8]>) -> Noted
    ensures { result ≡ asks (view message.now) }
{
    match message {
        Message::AuthenticationCleartextPassword | Message::AuthenticationMd5Password(_) => {
            Noted::Asks(PasswordKind::Password)
        }
        Message::AuthenticationSasl(_) => Noted::Asks(PasswordKind::Initial),
        Message::AuthenticationSaslContinue(_)
        | Message::AuthenticationGss
        | Message::AuthenticationSspi
        | Message::AuthenticationGssContinue(_) => Noted::Asks(PasswordKind::Response),
        _ => Noted::Nothing,
    }
}

/// What a client's message says of them.
pub fn requested_by(message: &ClientMessage<'_>) -> Noted
    ensures { result ≡ requests (sent.view message.now) }
{
    match message {
        ClientMessage::SslRequest => Noted::Requests(Encryption::Tls),
        ClientMessage::GssEncRequest => Noted::Requests(Encryption::Gss),
        _ => Noted::Nothing,
    }
}
