//! The names that a line has for a client's messages.

ghost use Rattle.std.specs.Prelude.{◌≡◌, ℕ, List};
ghost use Rattle.pgtrace_lines.specs.Common.{SaslResponse, option_map};
ghost use Rattle.pgp_frontend_read.specs.Views.{view};
ghost use Rattle.pgtrace_lines.specs.Client.{client_name, client_says_nothing, object_of};

use pgp_frontend_read::ClientMessage;

/// The name of a message, where it is known which message of tag `p` it is or not.
pub fn client_name(reported: bool, message: &ClientMessage<'_>) -> &'static str
    ensures { result.now ≡ client_name reported (view message.now) }
{
    match message {
        ClientMessage::Bind { .. } => "Bind",
        ClientMessage::CancelRequest { .. } => "CancelRequest",
        ClientMessage::Close { .. } => "Close",
        ClientMessage::CopyData(_) => "CopyData",
        ClientMessage::CopyDone => "CopyDone",
        ClientMessage::CopyFail(_) => "CopyFail",
        ClientMessage::Describe { .. } => "Describe",
        ClientMessage::Execute { .. } => "Execute",
        ClientMessage::Flush => "Flush",
        ClientMessage::FunctionCall { .. } => "FunctionCall",
        ClientMessage::GssEncRequest => "GSSENCRequest",
        ClientMessage::Parse { .. } => "Parse",
        ClientMessage::PasswordMessage(_) => "PasswordMessage",
        ClientMessage::Query(_) => "Query",
        ClientMessage::SaslInitialResponse { .. } => "SASLInitialResponse",
        ClientMessage::SaslResponse(_) => response_name(reported),
        ClientMessage::SslRequest => "SSLRequest",
        ClientMessage::Startup { .. } => "StartupMessage",
        ClientMessage::Sync => "Sync",
        ClientMessage::Terminate => "Terminate",
    }
}

/// The name of a message of tag `p` that is all bytes.
fn response_name(reported: bool) -> &'static str
    ensures { (response : List ℕ) → result.now ≡ client_name reported (SaslResponse response) }
{
    if reported {
        "SASLResponse"
    } else {
        "Password, SASLInitialResponse or SASLResponse"
    }
}

/// Whether no more is said of a message than its name.
pub fn says_nothing(message: &ClientMessage<'_>) -> bool
    ensures { result ≡ client_says_nothing (view message.now) }
{
    match message {
        ClientMessage::Bind { .. } => false,
        ClientMessage::CancelRequest { .. } => false,
        ClientMessage::Close { .. } => false,
        ClientMessage::CopyData(_) => false,
        ClientMessage::CopyDone => true,
        ClientMessage::CopyFail(_) => false,
        ClientMessage::Describe { .. } => false,
        ClientMessage::Execute { .. } => false,
        ClientMessage::Flush => true,
        ClientMessage::FunctionCall { .. } => false,
        ClientMessage::GssEncRequest => true,
        ClientMessage::Parse { .. } => false,
        ClientMessage::PasswordMessage(_) => false,
        ClientMessage::Query(_) => false,
        ClientMessage::SaslInitialResponse { .. } => false,
        ClientMessage::SaslResponse(_) => false,
        ClientMessage::SslRequest => true,
        ClientMessage::Startup { .. } => false,
        ClientMessage::Sync => true,
        ClientMessage::Terminate => true,
    }
}

/// What a message is of, by its letter.
pub fn object_of(variant: u8) -> Option<&'static str>
    ensures { option_map (λ name. name.now) result ≡ object_of variant }
{
    match variant {
        b'S' => Some("statement"),
        b'P' => Some("portal"),
        _ => None,
    }
}
