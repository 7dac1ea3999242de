//! What the tag of a frame says: how its message is read, and whether it keeps bytes of its frame.

ghost use Rattle.std.specs.Prelude.{◌≡◌, ◌≢◌, ◌<◌, ◌++◌, ◌∷◌, [], map, true, false, vec_len, vec_capacity};
ghost use Rattle.pgp_message.specs.BackendMessage.{ReadyForQuery};
ghost use Rattle.pgp_message.specs.Reading.{ended, made, bare_of, body_of, byte_of};
ghost use Rattle.pgp_message.specs.Stream.{KeepsBytes};
ghost use Rattle.pgp_message.specs.Views.{view, seen};

use crate::body::{
    BackendKeyDataBody, CommandCompleteBody, CopyDataBody, CopyInResponseBody, CopyOutResponseBody,
    DataRowBody, ErrorResponseBody, NegotiateProtocolVersionBody, NoticeResponseBody,
    NotificationResponseBody, ParameterDescriptionBody, ParameterStatusBody, ReadyForQueryBody,
    RowDescriptionBody,
};
use crate::message::Message;
use crate::request::{authentication, bare_authentication, request_keeps_bytes};
use crate::storage::Storage;
use crate::tag::{
    AUTHENTICATION_TAG, BACKEND_KEY_DATA_TAG, BIND_COMPLETE_TAG, CLOSE_COMPLETE_TAG,
    COMMAND_COMPLETE_TAG, COPY_DATA_TAG, COPY_DONE_TAG, COPY_IN_RESPONSE_TAG,
    COPY_OUT_RESPONSE_TAG, DATA_ROW_TAG, EMPTY_QUERY_RESPONSE_TAG, ERROR_RESPONSE_TAG,
    NEGOTIATE_PROTOCOL_VERSION_TAG, NO_DATA_TAG, NOTICE_RESPONSE_TAG, NOTIFICATION_RESPONSE_TAG,
    PARAMETER_DESCRIPTION_TAG, PARAMETER_STATUS_TAG, PARSE_COMPLETE_TAG, PORTAL_SUSPENDED_TAG,
    READY_FOR_QUERY_TAG, ROW_DESCRIPTION_TAG,
};
use pgp_base::Error;
use std::alloc::Allocator;
use std::convert::identity;

/// The messages that keep bytes of their frames, each by its tag, once for all that is asked of them: `$kept` is handed a
/// message and how its body is read. Beside them stands what is done with an authentication request, and with any other tag.
macro_rules! by_tag {
    ($tag:ident, $payload:ident, $kept:ident, $request:expr, $other:expr) => {
        match $tag {
            AUTHENTICATION_TAG => $request,
            BACKEND_KEY_DATA_TAG => $kept!(BackendKeyData(BackendKeyDataBody::read($payload)?)),
            COMMAND_COMPLETE_TAG => $kept!(CommandComplete(CommandCompleteBody::read($payload)?)),
            COPY_DATA_TAG => $kept!(CopyData(CopyDataBody::new($payload))),
            COPY_IN_RESPONSE_TAG => $kept!(CopyInResponse(CopyInResponseBody::read($payload)?)),
            COPY_OUT_RESPONSE_TAG => $kept!(CopyOutResponse(CopyOutResponseBody::read($payload)?)),
            DATA_ROW_TAG => $kept!(DataRow(DataRowBody::read($payload)?)),
            ERROR_RESPONSE_TAG => $kept!(ErrorResponse(ErrorResponseBody::new($payload))),
            NEGOTIATE_PROTOCOL_VERSION_TAG => {
                $kept!(NegotiateProtocolVersion(NegotiateProtocolVersionBody::read($payload)?))
            }
            NOTICE_RESPONSE_TAG => $kept!(NoticeResponse(NoticeResponseBody::new($payload))),
            NOTIFICATION_RESPONSE_TAG => {
                $kept!(NotificationResponse(NotificationResponseBody::read($payload)?))
            }
            PARAMETER_DESCRIPTION_TAG => {
                $kept!(ParameterDescription(ParameterDescriptionBody::read($payload)?))
            }
            PARAMETER_STATUS_TAG => $kept!(ParameterStatus(ParameterStatusBody::read($payload)?)),
            ROW_DESCRIPTION_TAG => $kept!(RowDescription(RowDescriptionBody::read($payload)?)),
            _ => $other,
        }
    };
}

/// It keeps bytes of its frame.
macro_rules! keeps {
    ($message:ident($body:expr)) => {
        true
    };
}

/// What is read of it.
macro_rules! reads {
    ($message:ident($body:expr)) => {
        Ok(Message::$message($body))
    };
}

/// Whether a message of this tag keeps bytes of its frame.
#[tactic(auto, unfolding(crate::specs::Reading::body_of, crate::specs::Reading::bare_of))]
pub fn keeps_bytes(tag: u8, payload: &[u8]) -> bool
    ensures bare { result ≡ false → body_of tag payload.now ≡ bare_of tag payload.now }
    ensures keeps { result ≡ true → KeepsBytes tag payload.now }
{
    by_tag!(tag, payload, keeps, request_keeps_bytes(payload), false)
}

/// The message of a frame of which nothing is kept.
// The hint carries the speed of messages without parts: else the answer goes through memory.
#[inline(always)]
#[tactic(auto, unfolding(crate::specs::Reading::bare_of))]
pub fn bare<S: Storage>(tag: u8, payload: &[u8]) -> Result<Message<S>, Error>
    ensures { seen result ≡ bare_of tag payload.now }
{
    if tag == AUTHENTICATION_TAG {
        return bare_authentication(payload);
    }
    plain(tag, payload)
}

/// What is reported of a frame of which nothing is kept, where it is no authentication request: one call for each
/// tag. A call of its own stores what it says at once, where returns that meet after a `match` go through memory.
macro_rules! plain {
    ($tag:ident, $payload:ident, $ended:ident, $reported:ident, $other:expr $(, $list:ident)?) => {
        match $tag {
            PARSE_COMPLETE_TAG => $ended($($list,)? $payload, Message::ParseComplete),
            BIND_COMPLETE_TAG => $ended($($list,)? $payload, Message::BindComplete),
            CLOSE_COMPLETE_TAG => $ended($($list,)? $payload, Message::CloseComplete),
            EMPTY_QUERY_RESPONSE_TAG => $ended($($list,)? $payload, Message::EmptyQueryResponse),
            READY_FOR_QUERY_TAG => $reported($($list,)? ready_for_query($payload)),
            COPY_DONE_TAG => $ended($($list,)? $payload, Message::CopyDone),
            NO_DATA_TAG => $ended($($list,)? $payload, Message::NoData),
            PORTAL_SUSPENDED_TAG => $ended($($list,)? $payload, Message::PortalSuspended),
            _ => $other,
        }
    };
}

/// The message of a frame of which nothing is kept, where it is no authentication request.
// The hint carries the speed of messages without parts: else the answer goes through memory.
#[inline(always)]
#[tactic(auto, unfolding(crate::specs::Reading::bare_of))]
fn plain<S: Storage>(tag: u8, payload: &[u8]) -> Result<Message<S>, Error>
    requires { tag ≢ 82 }
    ensures { seen result ≡ bare_of tag payload.now }
{
    plain!(tag, payload, ended, identity, Err(Error::UnknownTag(tag)))
}

/// Adds the message of a frame, or its error, to a list that has room for it, where the tag alone says that it keeps no
/// bytes of its frame; otherwise it returns false and leaves the list.
#[tactic(auto, unfolding(crate::specs::Reading::body_of, crate::specs::Reading::bare_of))]
pub fn plain_onto<S: Storage, A: Allocator>(
    list: &mut Vec<Result<Message<S>, Error>, A>,
    tag: u8,
    payload: &[u8],
) -> bool
    requires { vec_len list.old < vec_capacity list.old }
    ensures joined { result ≡ true → map seen list.new.items ≡ map seen list.old.items ++ body_of tag payload.now ∷ [] }
    ensures same { result ≡ false → (list.new.items ≡ list.old.items) × (vec_len list.new ≡ vec_len list.old) }
    ensures room { vec_capacity list.new ≡ vec_capacity list.old }
{
    plain!(tag, payload, ended_onto, reported, false, list)
}

fn ready_for_query<S: Storage>(payload: &[u8]) -> Result<Message<S>, Error>
    ensures { seen result ≡ made ReadyForQuery (byte_of payload.now) }
{
    Ok(Message::ReadyForQuery(ReadyForQueryBody::read(payload)?))
}

/// The message of a frame.
// The hint carries the speed of messages without parts, as above: it has more than one caller.
#[inline(always)]
#[tactic(auto, unfolding(crate::specs::Reading::body_of))]
pub fn body<S: Storage>(tag: u8, payload: S) -> Result<Message<S>, Error>
    ensures { seen result ≡ body_of tag (S.bytes payload) }
{
    by_tag!(
        tag,
        payload,
        reads,
        authentication(payload),
        bare(tag, payload.as_slice())
    )
}

/// Adds that message, or its error, to a list that has room for it.
// The kinds that come by the thousand have calls of their own, as in `plain!`.
#[tactic(auto, unfolding(crate::specs::Reading::body_of))]
pub fn body_onto<S: Storage, A: Allocator>(
    list: &mut Vec<Result<Message<S>, Error>, A>,
    tag: u8,
    payload: S,
)
    requires { vec_len list.old < vec_capacity list.old }
    ensures joined { map seen list.new.items ≡ map seen list.old.items ++ body_of tag (S.bytes payload) ∷ [] }
    ensures room { vec_capacity list.new ≡ vec_capacity list.old }
{
    match tag {
        COMMAND_COMPLETE_TAG => match CommandCompleteBody::read(payload) {
            Ok(body) => put(list, Ok(Message::CommandComplete(body))),
            Err(e) => put(list, Err(e)),
        },
        DATA_ROW_TAG => match DataRowBody::read(payload) {
            Ok(body) => put(list, Ok(Message::DataRow(body))),
            Err(e) => put(list, Err(e)),
        },
        COPY_DATA_TAG => put(list, Ok(Message::CopyData(CopyDataBody::new(payload)))),
        tag => put(list, body(tag, payload)),
    }
}

/// A message without parts, unless bytes are left.
// The hint carries the speed of messages without parts: else the answer goes through memory.
#[inline(always)]
pub fn ended<S: Storage>(payload: &[u8], message: Message<S>) -> Result<Message<S>, Error>
    ensures { seen result ≡ ended (view message) payload.now }
{
    if !payload.is_empty() {
        return Err(Error::NotDrained);
    }
    Ok(message)
}

/// Adds a message without parts to a list that has room for it, or its error where bytes are left, and returns true.
#[inline(always)]
fn ended_onto<S: Storage, A: Allocator>(
    list: &mut Vec<Result<Message<S>, Error>, A>,
    payload: &[u8],
    message: Message<S>,
) -> bool
    requires { vec_len list.old < vec_capacity list.old }
    ensures reported { result ≡ true }
    ensures joined { map seen list.new.items ≡ map seen list.old.items ++ ended (view message) payload.now ∷ [] }
    ensures room { vec_capacity list.new ≡ vec_capacity list.old }
{
    if !payload.is_empty() {
        return reported(list, Err(Error::NotDrained));
    }
    reported(list, Ok(message))
}

/// Adds what was read to a list that has room for it, and returns true: it is reported.
#[inline(always)]
fn reported<S: Storage, A: Allocator>(
    list: &mut Vec<Result<Message<S>, Error>, A>,
    read: Result<Message<S>, Error>,
) -> bool
    requires { vec_len list.old < vec_capacity list.old }
    ensures reported { result ≡ true }
    ensures joined { map seen list.new.items ≡ map seen list.old.items ++ seen read ∷ [] }
    ensures room { vec_capacity list.new ≡ vec_capacity list.old }
{
    put(list, read);
    true
}

/// Adds what was read to a list that has room for it.
#[inline(always)]
fn put<S: Storage, A: Allocator>(
    list: &mut Vec<Result<Message<S>, Error>, A>,
    read: Result<Message<S>, Error>,
)
    requires { vec_len list.old < vec_capacity list.old }
    ensures joined { map seen list.new.items ≡ map seen list.old.items ++ seen read ∷ [] }
    ensures room { vec_capacity list.new ≡ vec_capacity list.old }
{
    list.push_reserved(read);
}
