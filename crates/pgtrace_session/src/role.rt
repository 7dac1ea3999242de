//! What a frame is to the requests.

ghost use Rattle.std.specs.Prelude.{◌≡◌, get_or};
ghost use Rattle.pgp_client.specs.Kinds.{kind_of_tag, request_of_tag};
ghost use Rattle.pgtrace_session.specs.Requests.{asking, heard_as};

use pgp_client::{Kind, Request};

/// What a frame is to the requests.
#[derive(Debug, Clone, Copy, PartialEq, Eq)]
pub enum Role {
    /// A client's request.
    Request(Request),
    /// A server's message of this kind.
    Message(Kind),
    /// A server's frame that is no message.
    Fault,
    /// What no server answers, or an answer of one byte.
    Other,
}

/// What asks this.
pub fn asking(request: Option<Request>) -> Role
    ensures { result ≡ asking request }
{
    match request {
        Some(request) => Role::Request(request),
        None => Role::Other,
    }
}

/// What a client's frame is that is rejected, by its tag.
pub fn sent_fault(frame: &[u8]) -> Role
    ensures { result ≡ asking (request_of_tag (get_or frame.now 0 0) (get_or frame.now 5 0)) }
{
    asking(Request::of_tag(byte_at(frame, 0), byte_at(frame, 5)))
}

/// What a server's frame is that is no message, by its tag.
pub fn heard_fault(frame: &[u8]) -> Role
    ensures { result ≡ heard_as (kind_of_tag (get_or frame.now 0 0)) }
{
    match Kind::of_tag(byte_at(frame, 0)) {
        Some(kind) => Role::Message(kind),
        None => Role::Fault,
    }
}

/// The byte at this place, or 0.
pub fn byte_at(bytes: &[u8], place: usize) -> u8
    ensures { result ≡ get_or bytes.now place 0 }
{
    match bytes.get(place) {
        Some(byte) => *byte,
        None => 0,
    }
}
