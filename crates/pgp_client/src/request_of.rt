//! What a message of a client asks.

ghost use Rattle.std.specs.Prelude.{◌≡◌};
ghost use Rattle.pgp_frontend_read.specs.Views.{view};
ghost use Rattle.pgp_client.specs.Kinds.{described, request_of, request_of_tag};

use crate::request::Request;
use pgp_frontend_read::ClientMessage;

impl Request {
    /// What the message asks; `None` where the server doesn't answer it by itself.
    pub fn of(message: &ClientMessage<'_>) -> Option<Request>
        ensures { result ≡ request_of (view message.now) }
    {
        match message {
            ClientMessage::Startup { .. } => Some(Request::Startup),
            ClientMessage::Query(_) => Some(Request::Query),
            ClientMessage::Parse { .. } => Some(Request::Parse),
            ClientMessage::Bind { .. } => Some(Request::Bind),
            ClientMessage::Close { .. } => Some(Request::Close),
            ClientMessage::Describe { variant, .. } => Some(described(*variant)),
            ClientMessage::Execute { .. } => Some(Request::Execute),
            ClientMessage::FunctionCall { .. } => Some(Request::FunctionCall),
            ClientMessage::Sync => Some(Request::Sync),
            ClientMessage::CopyDone => Some(Request::CopyDone),
            ClientMessage::CopyFail(_) => Some(Request::CopyFail),
            _ => None,
        }
    }

    /// What a message with this tag asks, whose payload begins with this byte: a server answers a malformed message too, with an
    /// error.
    pub fn of_tag(tag: u8, first: u8) -> Option<Request>
        ensures { result ≡ request_of_tag tag first }
    {
        match tag {
            b'Q' => Some(Request::Query),
            b'P' => Some(Request::Parse),
            b'B' => Some(Request::Bind),
            b'C' => Some(Request::Close),
            b'D' => Some(described(first)),
            b'E' => Some(Request::Execute),
            b'F' => Some(Request::FunctionCall),
            b'S' => Some(Request::Sync),
            b'c' => Some(Request::CopyDone),
            b'f' => Some(Request::CopyFail),
            _ => None,
        }
    }
}

/// What a Describe asks: of a portal, or of a statement.
fn described(variant: u8) -> Request
    ensures { result ≡ described variant }
{
    if variant == b'P' {
        Request::DescribePortal
    } else {
        Request::DescribeStatement
    }
}
