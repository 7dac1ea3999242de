//! The messages whose parts are texts, bytes and numbers, each at the front of memory of the caller's.

ghost use Rattle.std.specs.Prelude.{◌≡◌, ◌≢◌, true, false, Some};
ghost use Rattle.pgp_frontend.specs.ClientMessage.{CancelRequest, Close, CopyDone, CopyFail, Describe, Execute, Flush, PasswordMessage, Query, SaslInitialResponse, SaslResponse, SslRequest, Sync, Terminate};
ghost use Rattle.for_c.specs.Requests.{is_target};
ghost use Rattle.for_c.specs.Sending.{Sent, NotSent};

use crate::message::{PlainMessage, send};
use crate::request::is_target;
use crate::status::no_kind;

/// A query of any number of statements.
#[unsafe(no_mangle)]
pub extern "C" fn pgp_query(text: &[u8], out: &mut [u8], written: &mut usize) -> u32
    ensures sent { result ≡ 0 → Sent (Query text.now) out.old out.new written.new }
    ensures refused { result ≢ 0 → NotSent (Query text.now) out.old written.new result }
{
    send(PlainMessage::Query(text), out, written)
}

/// The end of the session.
#[unsafe(no_mangle)]
pub extern "C" fn pgp_terminate(out: &mut [u8], written: &mut usize) -> u32
    ensures sent { result ≡ 0 → Sent Terminate out.old out.new written.new }
    ensures refused { result ≢ 0 → NotSent Terminate out.old written.new result }
{
    send(PlainMessage::Terminate, out, written)
}

/// Closes a statement (`S`) or a portal (`P`).
#[unsafe(no_mangle)]
pub extern "C" fn pgp_close(variant: u8, name: &[u8], out: &mut [u8], written: &mut usize) -> u32
    ensures sent { result ≡ 0 → Sent (Close variant name.now) out.old out.new written.new }
    ensures letter { is_target variant ≡ false → (result ≡ 35) × (written.new ≡ 0) }
    ensures refused { result ≢ 0 → is_target variant ≡ true → NotSent (Close variant name.now) out.old written.new result }
{
    if !is_target(variant) {
        return no_kind(written);
    }
    send(PlainMessage::Close(variant, name), out, written)
}

/// Asks what a statement (`S`) or a portal (`P`) gives.
#[unsafe(no_mangle)]
pub extern "C" fn pgp_describe(variant: u8, name: &[u8], out: &mut [u8], written: &mut usize) -> u32
    ensures sent { result ≡ 0 → Sent (Describe variant name.now) out.old out.new written.new }
    ensures letter { is_target variant ≡ false → (result ≡ 35) × (written.new ≡ 0) }
    ensures refused { result ≢ 0 → is_target variant ≡ true → NotSent (Describe variant name.now) out.old written.new result }
{
    if !is_target(variant) {
        return no_kind(written);
    }
    send(PlainMessage::Describe(variant, name), out, written)
}

/// Runs a portal, for at most so many rows; 0 is no limit.
#[unsafe(no_mangle)]
pub extern "C" fn pgp_execute(
    portal: &[u8],
    max_rows: i32,
    out: &mut [u8],
    written: &mut usize,
) -> u32
    ensures sent { result ≡ 0 → Sent (Execute portal.now max_rows) out.old out.new written.new }
    ensures refused { result ≢ 0 → NotSent (Execute portal.now max_rows) out.old written.new result }
{
    send(PlainMessage::Execute(portal, max_rows), out, written)
}

/// Ends a series of extended queries.
#[unsafe(no_mangle)]
pub extern "C" fn pgp_sync(out: &mut [u8], written: &mut usize) -> u32
    ensures sent { result ≡ 0 → Sent Sync out.old out.new written.new }
    ensures refused { result ≢ 0 → NotSent Sync out.old written.new result }
{
    send(PlainMessage::Sync, out, written)
}

/// Asks for what the server holds back.
#[unsafe(no_mangle)]
pub extern "C" fn pgp_flush(out: &mut [u8], written: &mut usize) -> u32
    ensures sent { result ≡ 0 → Sent Flush out.old out.new written.new }
    ensures refused { result ≢ 0 → NotSent Flush out.old written.new result }
{
    send(PlainMessage::Flush, out, written)
}

/// The end of the data of a copy.
#[unsafe(no_mangle)]
pub extern "C" fn pgp_copy_done(out: &mut [u8], written: &mut usize) -> u32
    ensures sent { result ≡ 0 → Sent CopyDone out.old out.new written.new }
    ensures refused { result ≢ 0 → NotSent CopyDone out.old written.new result }
{
    send(PlainMessage::CopyDone, out, written)
}

/// Gives a copy up, with a text for the server's report.
#[unsafe(no_mangle)]
pub extern "C" fn pgp_copy_fail(reason: &[u8], out: &mut [u8], written: &mut usize) -> u32
    ensures sent { result ≡ 0 → Sent (CopyFail reason.now) out.old out.new written.new }
    ensures refused { result ≢ 0 → NotSent (CopyFail reason.now) out.old written.new result }
{
    send(PlainMessage::CopyFail(reason), out, written)
}

/// Asks for an encrypted session.
#[unsafe(no_mangle)]
pub extern "C" fn pgp_ssl_request(out: &mut [u8], written: &mut usize) -> u32
    ensures sent { result ≡ 0 → Sent SslRequest out.old out.new written.new }
    ensures refused { result ≢ 0 → NotSent SslRequest out.old written.new result }
{
    send(PlainMessage::SslRequest, out, written)
}

/// Asks for the end of what another session runs, by the number and the key of its BackendKeyData.
#[unsafe(no_mangle)]
pub extern "C" fn pgp_cancel_request(
    process_id: i32,
    secret_key: &[u8],
    out: &mut [u8],
    written: &mut usize,
) -> u32
    ensures sent { result ≡ 0 → Sent (CancelRequest process_id secret_key.now) out.old out.new written.new }
    ensures refused { result ≢ 0 → NotSent (CancelRequest process_id secret_key.now) out.old written.new result }
{
    let message = PlainMessage::CancelRequest(process_id, secret_key);
    send(message, out, written)
}

/// A password, or the answer to an MD5 request.
#[unsafe(no_mangle)]
pub extern "C" fn pgp_password_message(password: &[u8], out: &mut [u8], written: &mut usize) -> u32
    ensures sent { result ≡ 0 → Sent (PasswordMessage password.now) out.old out.new written.new }
    ensures refused { result ≢ 0 → NotSent (PasswordMessage password.now) out.old written.new result }
{
    send(PlainMessage::PasswordMessage(password), out, written)
}

/// The choice of a SASL mechanism, and the first text of its exchange.
#[unsafe(no_mangle)]
pub extern "C" fn pgp_sasl_initial_response(
    mechanism: &[u8],
    response: &[u8],
    out: &mut [u8],
    written: &mut usize,
) -> u32
    ensures sent { result ≡ 0 → Sent (SaslInitialResponse mechanism.now (Some response.now)) out.old out.new written.new }
    ensures refused { result ≢ 0 → NotSent (SaslInitialResponse mechanism.now (Some response.now)) out.old written.new result }
{
    let message = PlainMessage::SaslInitialResponse(mechanism, response);
    send(message, out, written)
}

/// A later text of a SASL exchange.
#[unsafe(no_mangle)]
pub extern "C" fn pgp_sasl_response(response: &[u8], out: &mut [u8], written: &mut usize) -> u32
    ensures sent { result ≡ 0 → Sent (SaslResponse response.now) out.old out.new written.new }
    ensures refused { result ≢ 0 → NotSent (SaslResponse response.now) out.old written.new result }
{
    send(PlainMessage::SaslResponse(response), out, written)
}
