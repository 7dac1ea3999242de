//! The names that a line has for messages, errors, the fields of errors and the states of transactions.

ghost use Rattle.std.specs.Prelude.{◌≡◌};
ghost use Rattle.pgtrace_lines.specs.Common.{option_map, view};
ghost use Rattle.pgtrace_lines.specs.Names.{field_of, name_of, place_of, refusal_of, state_of};
ghost use Rattle.pgtrace_lines.specs.Shown.{says_nothing};

use pgp_base::Error;
use pgp_message::Message;

/// The name of a message, as the manual spells it.
pub fn name_of(message: &Message<&[u8]>) -> &'static str
    ensures { result.now ≡ name_of (view message.now) }
{
    match message {
        Message::AuthenticationGss => "AuthenticationGSS",
        Message::AuthenticationGssContinue(_) => "AuthenticationGSSContinue",
        Message::AuthenticationMd5Password(_) => "AuthenticationMD5Password",
        Message::AuthenticationSasl(_) => "AuthenticationSASL",
        Message::AuthenticationSaslContinue(_) => "AuthenticationSASLContinue",
        Message::AuthenticationSaslFinal(_) => "AuthenticationSASLFinal",
        Message::AuthenticationScmCredential => "AuthenticationSCMCredential",
        Message::AuthenticationSspi => "AuthenticationSSPI",
        _ => message.name(),
    }
}

/// Whether no more is said of a message than its name.
pub fn says_nothing(message: &Message<&[u8]>) -> bool
    ensures { result ≡ says_nothing (view message.now) }
{
    match message {
        Message::AuthenticationCleartextPassword => true,
        Message::AuthenticationGss => true,
        Message::AuthenticationGssContinue(_) => false,
        Message::AuthenticationKerberosV5 => true,
        Message::AuthenticationMd5Password(_) => false,
        Message::AuthenticationOk => true,
        Message::AuthenticationSasl(_) => false,
        Message::AuthenticationSaslContinue(_) => false,
        Message::AuthenticationSaslFinal(_) => false,
        Message::AuthenticationScmCredential => true,
        Message::AuthenticationSspi => true,
        Message::BackendKeyData(_) => false,
        Message::BindComplete => true,
        Message::CloseComplete => true,
        Message::CommandComplete(_) => false,
        Message::CopyData(_) => false,
        Message::CopyDone => true,
        Message::CopyInResponse(_) => false,
        Message::CopyOutResponse(_) => false,
        Message::DataRow(_) => false,
        Message::EmptyQueryResponse => true,
        Message::ErrorResponse(_) => false,
        Message::NegotiateProtocolVersion(_) => false,
        Message::NoData => true,
        Message::NoticeResponse(_) => false,
        Message::NotificationResponse(_) => false,
        Message::ParameterDescription(_) => false,
        Message::ParameterStatus(_) => false,
        Message::ParseComplete => true,
        Message::PortalSuspended => true,
        Message::ReadyForQuery(_) => false,
        Message::RowDescription(_) => false,
    }
}

/// The name of an error.
pub fn refusal_of(refusal: &Error) -> &'static str
    ensures { result.now ≡ refusal_of refusal.now }
{
    match refusal {
        Error::OutOfMemory => "OutOfMemory",
        Error::EmbeddedNull => "EmbeddedNull",
        Error::TooLarge => "TooLarge",
        Error::InvalidLength => "InvalidLength",
        Error::UnknownTag(_) => "UnknownTag",
        Error::UnknownAuthentication(_) => "UnknownAuthentication",
        Error::UnexpectedEof => "UnexpectedEof",
        Error::NotDrained => "NotDrained",
        Error::NotUtf8 => "NotUtf8",
        Error::InvalidSize => "InvalidSize",
        Error::InvalidCount => "InvalidCount",
        Error::InvalidKeyLength => "InvalidKeyLength",
        Error::InvalidValueLength => "InvalidValueLength",
        Error::InvalidDimension => "InvalidDimension",
        Error::TooManyElements => "TooManyElements",
        Error::InvalidBitLength => "InvalidBitLength",
        Error::InvalidNetmask => "InvalidNetmask",
        Error::InvalidAddressLength => "InvalidAddressLength",
        Error::InvalidFamily => "InvalidFamily",
        Error::InvalidVersion => "InvalidVersion",
    }
}

/// The name of a field of an error or a notice, by its letter.
pub fn field_of(letter: u8) -> Option<&'static str>
    ensures { option_map (λ name. name.now) result ≡ field_of letter }
{
    match letter {
        b'S' => Some("severity"),
        b'V' => Some("plain_severity"),
        b'C' => Some("code"),
        b'M' => Some("message"),
        b'D' => Some("detail"),
        b'H' => Some("hint"),
        b'P' => Some("position"),
        b'p' => Some("internal_position"),
        b'q' => Some("internal_query"),
        _ => place_of(letter),
    }
}

/// The name of a field that says a place.
fn place_of(letter: u8) -> Option<&'static str>
    ensures { option_map (λ name. name.now) result ≡ place_of letter }
{
    match letter {
        b'W' => Some("where"),
        b's' => Some("schema"),
        b't' => Some("table"),
        b'c' => Some("column"),
        b'd' => Some("data_type"),
        b'n' => Some("constraint"),
        b'F' => Some("file"),
        b'L' => Some("line"),
        b'R' => Some("routine"),
        _ => None,
    }
}

/// The name of a transaction's state.
pub fn state_of(status: u8) -> Option<&'static str>
    ensures { option_map (λ name. name.now) result ≡ state_of status }
{
    match status {
        b'I' => Some("idle"),
        b'T' => Some("in transaction"),
        b'E' => Some("failed"),
        _ => None,
    }
}
