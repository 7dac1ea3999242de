//! The messages of a server whose parts are texts, bytes and numbers, as one type: so what writes one stands once.

ghost use Rattle.std.specs.Prelude.{◌≡◌, ◌≢◌};
ghost use Rattle.pgp_message_write.specs.Reply.{WritesReply};
ghost use Rattle.for_c.specs.Replies.{bare_at, reply_of, reply_seen, worded_at};
ghost use Rattle.for_c.specs.Replying.{NotReplied, Replied};

use crate::status::ended;
use pgp_base::{Buffer, Error, Window};
use pgp_message_write as writers;

/// A message without lists, of the caller's texts and bytes.
#[derive(Clone, Copy)]
pub enum Reply<'a> {
    AuthenticationCleartextPassword,
    AuthenticationGss,
    AuthenticationGssContinue(&'a [u8]),
    AuthenticationKerberosV5,
    AuthenticationMd5Password([u8; 4]),
    AuthenticationOk,
    AuthenticationSaslContinue(&'a [u8]),
    AuthenticationSaslFinal(&'a [u8]),
    AuthenticationScmCredential,
    AuthenticationSspi,
    BackendKeyData(i32, &'a [u8]),
    BindComplete,
    CloseComplete,
    CommandComplete(&'a [u8]),
    CopyData(&'a [u8]),
    CopyDone,
    EmptyQueryResponse,
    NoData,
    NotificationResponse(i32, &'a [u8], &'a [u8]),
    ParameterStatus(&'a [u8], &'a [u8]),
    ParseComplete,
    PortalSuspended,
    ReadyForQuery(u8),
}

/// The message without a body that has a kind of this number.
pub fn bare(kind: u8) -> Option<Reply<'static>>
    ensures { reply_seen result ≡ bare_at kind }
{
    match kind {
        1 => Some(Reply::AuthenticationCleartextPassword),
        2 => Some(Reply::AuthenticationGss),
        4 => Some(Reply::AuthenticationKerberosV5),
        6 => Some(Reply::AuthenticationOk),
        10 => Some(Reply::AuthenticationScmCredential),
        11 => Some(Reply::AuthenticationSspi),
        13 => Some(Reply::BindComplete),
        14 => Some(Reply::CloseComplete),
        17 => Some(Reply::CopyDone),
        21 => Some(Reply::EmptyQueryResponse),
        23 => Some(Reply::NoData),
        28 => Some(Reply::ParseComplete),
        29 => Some(Reply::PortalSuspended),
        _ => None,
    }
}

/// The message of this text or these bytes that has a kind of this number.
pub fn worded(kind: u8, text: &[u8]) -> Option<Reply<'_>>
    ensures { reply_seen result ≡ worded_at kind text.now }
{
    match kind {
        3 => Some(Reply::AuthenticationGssContinue(text)),
        8 => Some(Reply::AuthenticationSaslContinue(text)),
        9 => Some(Reply::AuthenticationSaslFinal(text)),
        15 => Some(Reply::CommandComplete(text)),
        16 => Some(Reply::CopyData(text)),
        _ => None,
    }
}

/// Writes the message to the front of the memory.
pub fn send(reply: Reply<'_>, out: &mut [u8], written: &mut usize) -> u32
    ensures sent { result ≡ 0 → Replied (reply_of reply.entry) out.old out.new written.new }
    ensures refused { result ≢ 0 → NotReplied (reply_of reply.entry) out.old written.new result }
{
    let mut window = Window::new(out);
    let answer = put(reply, &mut window);
    ended(answer, &window, written)
}

/// Appends the message.
fn put<B: Buffer>(reply: Reply<'_>, buf: &mut B) -> Result<(), Error>
    ensures { WritesReply (reply_of reply.entry) B.Lacks (B.held buf.old) (B.held buf.new) result }
{
    match reply {
        Reply::AuthenticationCleartextPassword => writers::authentication_cleartext_password(buf),
        Reply::AuthenticationGss => writers::authentication_gss(buf),
        Reply::AuthenticationGssContinue(text) => writers::authentication_gss_continue(text, buf),
        Reply::AuthenticationKerberosV5 => writers::authentication_kerberos_v5(buf),
        Reply::AuthenticationMd5Password(salt) => writers::authentication_md5_password(salt, buf),
        Reply::AuthenticationOk => writers::authentication_ok(buf),
        Reply::AuthenticationSaslContinue(text) => writers::authentication_sasl_continue(text, buf),
        Reply::AuthenticationSaslFinal(text) => writers::authentication_sasl_final(text, buf),
        Reply::AuthenticationScmCredential => writers::authentication_scm_credential(buf),
        Reply::AuthenticationSspi => writers::authentication_sspi(buf),
        Reply::BackendKeyData(process_id, key) => writers::backend_key_data(process_id, key, buf),
        Reply::BindComplete => writers::bind_complete(buf),
        Reply::CloseComplete => writers::close_complete(buf),
        Reply::CommandComplete(tag) => writers::command_complete(tag, buf),
        Reply::CopyData(bytes) => writers::copy_data(bytes, buf),
        Reply::CopyDone => writers::copy_done(buf),
        Reply::EmptyQueryResponse => writers::empty_query_response(buf),
        Reply::NoData => writers::no_data(buf),
        Reply::NotificationResponse(process_id, channel, payload) => {
            writers::notification_response(process_id, channel, payload, buf)
        }
        Reply::ParameterStatus(name, value) => writers::parameter_status(name, value, buf),
        Reply::ParseComplete => writers::parse_complete(buf),
        Reply::PortalSuspended => writers::portal_suspended(buf),
        Reply::ReadyForQuery(status) => writers::ready_for_query(status, buf),
    }
}
