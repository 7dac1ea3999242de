//! The messages whose parts are texts, bytes and numbers, as one type: so what adds a message to a stream stands once.

ghost use Rattle.std.specs.Prelude.{◌≡◌, ◌≢◌};
ghost use Rattle.pgp_frontend.specs.Payload.{WritesMessage};
ghost use Rattle.for_c.specs.Plain.{comes_open, message_of};
ghost use Rattle.for_c.specs.Sending.{Sent, NotSent};

use crate::status::ended;
use pgp_base::{Buffer, Error, Window};
use pgp_frontend::{self as writers, CopyData, over_bytes};

/// A message without lists, of the caller's texts and bytes.
#[derive(Clone, Copy)]
pub enum PlainMessage<'a> {
    CancelRequest(i32, &'a [u8]),
    Close(u8, &'a [u8]),
    CopyData(&'a [u8]),
    CopyDone,
    CopyFail(&'a [u8]),
    Describe(u8, &'a [u8]),
    Execute(&'a [u8], i32),
    Flush,
    PasswordMessage(&'a [u8]),
    Query(&'a [u8]),
    SaslInitialResponse(&'a [u8], &'a [u8]),
    SaslResponse(&'a [u8]),
    SslRequest,
    Sync,
    Terminate,
}

/// Writes the message to the front of the memory.
// The hint carries the speed, here and below: an export names its message, so that of the choice nothing is left in it.
#[inline(always)]
pub fn send(message: PlainMessage<'_>, out: &mut [u8], written: &mut usize) -> u32
    ensures sent { result ≡ 0 → Sent (message_of message.entry) out.old out.new written.new }
    ensures refused { result ≢ 0 → NotSent (message_of message.entry) out.old written.new result }
{
    let mut window = Window::new(out);
    let answer = append(message, &mut window);
    ended(answer, &window, written)
}

/// Appends the message.
#[inline(always)]
fn append<B: Buffer>(message: PlainMessage<'_>, buf: &mut B) -> Result<(), Error>
    ensures { WritesMessage (message_of message.entry) B.Lacks (B.held buf.old) (B.held buf.new) result }
{
    match message {
        PlainMessage::CancelRequest(id, key) => writers::cancel_request_key(id, key, buf),
        PlainMessage::Close(variant, name) => over_bytes::close(variant, name, buf),
        PlainMessage::CopyData(data) => match CopyData::new(data)?.write(buf) {
            Ok(()) => Ok(()),
            Err(_) => Err(Error::OutOfMemory),
        },
        PlainMessage::CopyDone => writers::copy_done(buf),
        PlainMessage::CopyFail(reason) => over_bytes::copy_fail(reason, buf),
        PlainMessage::Describe(variant, name) => over_bytes::describe(variant, name, buf),
        PlainMessage::Execute(portal, rows) => over_bytes::execute(portal, rows, buf),
        PlainMessage::Flush => writers::flush(buf),
        PlainMessage::PasswordMessage(text) => writers::password_message(text, buf),
        PlainMessage::Query(text) => over_bytes::query(text, buf),
        PlainMessage::SaslInitialResponse(mechanism, text) => {
            over_bytes::sasl_initial_response(mechanism, text, buf)
        }
        PlainMessage::SaslResponse(text) => writers::sasl_response(text, buf),
        PlainMessage::SslRequest => writers::ssl_request(buf),
        PlainMessage::Sync => writers::sync(buf),
        PlainMessage::Terminate => writers::terminate(buf),
    }
}

/// Whether the message comes after a startup packet.
#[inline(always)]
pub fn comes_open(message: PlainMessage<'_>) -> bool
    ensures { result ≡ comes_open message.entry }
{
    match message {
        PlainMessage::CancelRequest(_, _) | PlainMessage::SslRequest => false,
        _ => true,
    }
}
