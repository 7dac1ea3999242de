//! A server's messages without lists, each at the front of memory of the caller's.

ghost use Rattle.std.specs.Prelude.{◌≡◌, ◌≢◌, ◌⊎◌, length};
ghost use Rattle.pgp_message.specs.BackendMessage.{Authentication, AuthenticationMd5Password, BackendKeyData, NotificationResponse, ParameterStatus, ReadyForQuery};
ghost use Rattle.for_c.specs.Replies.{NotRepliedAs, RepliedAs, bare_at, worded_at};
ghost use Rattle.for_c.specs.Replying.{NotReplied, Replied};

use crate::reply::{Reply, bare, send, worded};
use crate::status::{no_kind, refused};
use pgp_base::Error;

/// A message without a body, by its kind's number.
#[unsafe(no_mangle)]
pub extern "C" fn pgp_reply(kind: u8, out: &mut [u8], written: &mut usize) -> u32
    ensures sent { result ≡ 0 → RepliedAs (bare_at kind) out.old out.new written.new }
    ensures refused { result ≢ 0 → NotRepliedAs (bare_at kind) out.old written.new result }
{
    match bare(kind) {
        Some(reply) => send(reply, out, written),
        None => no_kind(written),
    }
}

/// A message of one text or some bytes, by its kind's number.
#[unsafe(no_mangle)]
pub extern "C" fn pgp_reply_text(kind: u8, text: &[u8], out: &mut [u8], written: &mut usize) -> u32
    ensures sent { result ≡ 0 → RepliedAs (worded_at kind text.now) out.old out.new written.new }
    ensures refused { result ≢ 0 → NotRepliedAs (worded_at kind text.now) out.old written.new result }
{
    match worded(kind, text) {
        Some(reply) => send(reply, out, written),
        None => no_kind(written),
    }
}

/// A request for an MD5 password, with its salt of 4 bytes.
#[unsafe(no_mangle)]
pub extern "C" fn pgp_reply_md5_password(salt: &[u8], out: &mut [u8], written: &mut usize) -> u32
    ensures sent { result ≡ 0 → Replied (Authentication (AuthenticationMd5Password salt.now)) out.old out.new written.new }
    ensures refused { result ≢ 0 → NotReplied (Authentication (AuthenticationMd5Password salt.now)) out.old written.new result
        ⊎ ((result ≡ 10) × (length salt.now ≢ 4) × (written.new ≡ 0)) }
{
    match <[u8; 4]>::try_from(salt) {
        Ok(salt) => send(Reply::AuthenticationMd5Password(salt), out, written),
        Err(_) => refused(Error::InvalidSize, written),
    }
}

/// What a request to cancel has to show: the process, and a key of 4 to 256 bytes.
#[unsafe(no_mangle)]
pub extern "C" fn pgp_reply_backend_key_data(
    process_id: i32,
    secret_key: &[u8],
    out: &mut [u8],
    written: &mut usize,
) -> u32
    ensures sent { result ≡ 0 → Replied (BackendKeyData (record { process_id = process_id; secret_key = secret_key.now })) out.old out.new written.new }
    ensures refused { result ≢ 0 → NotReplied (BackendKeyData (record { process_id = process_id; secret_key = secret_key.now })) out.old written.new result }
{
    send(Reply::BackendKeyData(process_id, secret_key), out, written)
}

/// The value of a run-time parameter.
#[unsafe(no_mangle)]
pub extern "C" fn pgp_reply_parameter_status(
    name: &[u8],
    value: &[u8],
    out: &mut [u8],
    written: &mut usize,
) -> u32
    ensures sent { result ≡ 0 → Replied (ParameterStatus (record { name = name.now; value = value.now })) out.old out.new written.new }
    ensures refused { result ≢ 0 → NotReplied (ParameterStatus (record { name = name.now; value = value.now })) out.old written.new result }
{
    send(Reply::ParameterStatus(name, value), out, written)
}

/// A notification by this process.
#[unsafe(no_mangle)]
pub extern "C" fn pgp_reply_notification(
    process_id: i32,
    channel: &[u8],
    payload: &[u8],
    out: &mut [u8],
    written: &mut usize,
) -> u32
    ensures sent { result ≡ 0 → Replied (NotificationResponse (record { process_id = process_id; channel = channel.now; message = payload.now })) out.old out.new written.new }
    ensures refused { result ≢ 0 → NotReplied (NotificationResponse (record { process_id = process_id; channel = channel.now; message = payload.now })) out.old written.new result }
{
    send(
        Reply::NotificationResponse(process_id, channel, payload),
        out,
        written,
    )
}

/// The server awaits the next query: `I` outside a transaction, `T` in one, `E` in a failed one.
#[unsafe(no_mangle)]
pub extern "C" fn pgp_reply_ready_for_query(status: u8, out: &mut [u8], written: &mut usize) -> u32
    ensures sent { result ≡ 0 → Replied (ReadyForQuery status) out.old out.new written.new }
    ensures refused { result ≢ 0 → NotReplied (ReadyForQuery status) out.old written.new result }
{
    send(Reply::ReadyForQuery(status), out, written)
}
