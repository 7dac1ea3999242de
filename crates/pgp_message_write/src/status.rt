//! What a server says to any query: settings, notifications, the ends of commands.

ghost use Rattle.pgp_message.specs.BackendMessage.{CommandComplete, EmptyQueryResponse, NotificationResponse, ParameterStatus, ReadyForQuery};
ghost use Rattle.pgp_message_write.specs.Reply.{WritesReply};

use pgp_base::{Buffer, Error};
use pgp_frontend::field::{Field, message};

/// ParameterStatus: the value of a run-time parameter.
///
/// # Errors
///
/// Returns `EmbeddedNull` if a text has a 0 byte, `TooLarge` if the message exceeds `i32::MAX`, and
/// `OutOfMemory` if the buffer can't grow. On error the buffer is unchanged.
pub fn parameter_status<B: Buffer>(name: &[u8], value: &[u8], buf: &mut B) -> Result<(), Error>
    ensures { WritesReply (ParameterStatus (record { name = name.now; value = value.now })) B.Lacks (B.held buf.old) (B.held buf.new) result }
{
    message(b'S', &[Field::Text(name), Field::Text(value)], buf)
}

/// NotificationResponse: a notification by this process, with its channel and payload.
///
/// # Errors
///
/// Returns `EmbeddedNull` if a text has a 0 byte, `TooLarge` if the message exceeds `i32::MAX`, and
/// `OutOfMemory` if the buffer can't grow. On error the buffer is unchanged.
pub fn notification_response<'a, B: Buffer>(
    process_id: i32,
    channel: &'a [u8],
    payload: &'a [u8],
    buf: &mut B,
) -> Result<(), Error>
    ensures { WritesReply (NotificationResponse (record { process_id = process_id; channel = channel.now; message = payload.now })) B.Lacks (B.held buf.old) (B.held buf.new) result }
{
    message(
        b'A',
        &[
            Field::Int32(process_id),
            Field::Text(channel),
            Field::Text(payload),
        ],
        buf,
    )
}

/// CommandComplete: a command has completed. The tag names it, and how many rows it affected, as `SELECT 1`.
///
/// # Errors
///
/// Returns `EmbeddedNull` if the tag has a 0 byte, `TooLarge` if the message exceeds `i32::MAX`, and
/// `OutOfMemory` if the buffer can't grow. On error the buffer is unchanged.
pub fn command_complete<B: Buffer>(tag: &[u8], buf: &mut B) -> Result<(), Error>
    ensures { WritesReply (CommandComplete tag.now) B.Lacks (B.held buf.old) (B.held buf.new) result }
{
    message(b'C', &[Field::Text(tag)], buf)
}

/// EmptyQueryResponse: the query was empty. It replaces CommandComplete.
///
/// # Errors
///
/// Returns `OutOfMemory` if the buffer can't grow. On error the buffer is unchanged.
pub fn empty_query_response<B: Buffer>(buf: &mut B) -> Result<(), Error>
    ensures { WritesReply EmptyQueryResponse B.Lacks (B.held buf.old) (B.held buf.new) result }
{
    message(b'I', &[], buf)
}

/// ReadyForQuery: the server is ready for the next query. The status is `I` outside a transaction, `T` in one and `E` in a failed one.
///
/// # Errors
///
/// Returns `OutOfMemory` if the buffer can't grow. On error the buffer is unchanged.
pub fn ready_for_query<B: Buffer>(status: u8, buf: &mut B) -> Result<(), Error>
    ensures { WritesReply (ReadyForQuery status) B.Lacks (B.held buf.old) (B.held buf.new) result }
{
    message(b'Z', &[Field::Byte(status)], buf)
}
