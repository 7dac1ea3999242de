//! What a client sends, as one stream in memory of the caller's: a call whose phase it isn't returns an error.
#![tactic(auto, using(crate::proofs::Extensions::no_room))]

ghost use Rattle.std.specs.Prelude.{◌≡◌, ◌≢◌, ◌<◌, ◌≤◌, true, false, length, map, Some};
ghost use Rattle.pgp_frontend.specs.ClientMessage.{Bind, CancelRequest, Close, CopyData, CopyDone, CopyFail, Describe, Execute, Flush, Parse, PasswordMessage, Query, SaslInitialResponse, SaslResponse, SslRequest, Startup, Sync, Terminate};
ghost use Rattle.pgp_frontend.specs.Payload.{minor_of, version_code};
ghost use Rattle.pgp_frontend.specs.declared.startup.ProtocolVersion.{ProtocolVersion as Version};
ghost use Rattle.for_c.specs.Lists.{value_of};
ghost use Rattle.for_c.specs.Copying.{WhyNoHead};
ghost use Rattle.for_c.specs.Opening.{pair_of, WhyStartup};
ghost use Rattle.for_c.specs.Plain.{comes_open, message_of};
ghost use Rattle.for_c.specs.Requests.{are_bound, is_target};
ghost use Rattle.for_c.specs.Sending.{Why};
ghost use Rattle.for_c.specs.Streams.{Extends, ExtendsByHead, Keeps, free};

use crate::copying::pgp_copy_data_head;
use crate::listing::{PgpValue, bind, pgp_parse};
use crate::message::{PlainMessage, comes_open, send};
use crate::opening::{PgpPair, pgp_startup};
use crate::request::{are_bound, is_target};

/// The answer where a message may not come: no startup packet was written, or one was.
pub(crate) const WRONG_PHASE: u32 = 32;

/// The answer where there is no room.
pub(crate) const NO_ROOM: u32 = 1;

/// The answer where a letter is that of nothing that is described or closed.
const NO_KIND: u32 = 35;

/// The answer where the formats of a bind are none, or don't suit its values.
const NO_FORMATS: u32 = 39;

/// Memory of the caller's, how much of it is to be sent, and whether a startup packet was written.
#[repr(C)]
pub struct PgpStream<'a> {
    pub room: &'a mut [u8],
    pub len: usize,
    pub is_open: bool,
}

/// Asks for an encrypted session.
#[unsafe(no_mangle)]
pub extern "C" fn pgp_stream_ssl_request(stream: &mut PgpStream<'_>) -> u32
    ensures added { result ≡ 0 → Extends SslRequest stream.old stream.new }
    ensures phase { stream.old.is_open ≢ false → result ≡ 32 }
    ensures why { result ≢ 0 → stream.old.is_open ≡ false → Why SslRequest (free stream.old) result }
    ensures kept { result ≢ 0 → Keeps stream.old stream.new }
{
    add(stream, PlainMessage::SslRequest)
}

/// Asks for the end of what another session runs, by the number and the key of its BackendKeyData.
#[unsafe(no_mangle)]
pub extern "C" fn pgp_stream_cancel_request(
    stream: &mut PgpStream<'_>,
    process_id: i32,
    secret_key: &[u8],
) -> u32
    ensures added { result ≡ 0 → Extends (CancelRequest process_id secret_key.now) stream.old stream.new }
    ensures phase { stream.old.is_open ≢ false → result ≡ 32 }
    ensures why { result ≢ 0 → stream.old.is_open ≡ false → Why (CancelRequest process_id secret_key.now) (free stream.old) result }
    ensures kept { result ≢ 0 → Keeps stream.old stream.new }
{
    add(stream, PlainMessage::CancelRequest(process_id, secret_key))
}

/// Opens a session of this version with these names and values.
#[unsafe(no_mangle)]
pub extern "C" fn pgp_stream_startup(
    stream: &mut PgpStream<'_>,
    version: i32,
    parameters: &[PgpPair<'_>],
) -> u32
    ensures added { result ≡ 0 → (v : Version) × (version_code v ≡ version) × Extends (Startup (minor_of v) (map pair_of parameters.now)) stream.old stream.new }
    ensures phase { stream.old.is_open ≢ false → result ≡ 32 }
    ensures why { result ≢ 0 → stream.old.is_open ≡ false → stream.old.len ≤ length stream.old.room.now → WhyStartup version parameters.now (free stream.old) result }
    ensures broken { stream.old.is_open ≡ false → length stream.old.room.now < stream.old.len → result ≡ 1 }
    ensures kept { result ≢ 0 → Keeps stream.old stream.new }
{
    let len = stream.len;
    if stream.is_open != false {
        return WRONG_PHASE;
    }
    if len > stream.room.len() {
        return NO_ROOM;
    }
    let mut added = 0;
    let code = pgp_startup(version, parameters, &mut stream.room[len..], &mut added);
    stream.len = len.saturating_add(added);
    if code == 0 {
        stream.is_open = true;
    }
    code
}

/// A password, or the answer to an MD5 request.
#[unsafe(no_mangle)]
pub extern "C" fn pgp_stream_password_message(stream: &mut PgpStream<'_>, password: &[u8]) -> u32
    ensures added { result ≡ 0 → Extends (PasswordMessage password.now) stream.old stream.new }
    ensures phase { stream.old.is_open ≢ true → result ≡ 32 }
    ensures why { result ≢ 0 → stream.old.is_open ≡ true → Why (PasswordMessage password.now) (free stream.old) result }
    ensures kept { result ≢ 0 → Keeps stream.old stream.new }
{
    add(stream, PlainMessage::PasswordMessage(password))
}

/// The choice of a SASL mechanism, and the first text of its exchange.
#[unsafe(no_mangle)]
pub extern "C" fn pgp_stream_sasl_initial_response(
    stream: &mut PgpStream<'_>,
    mechanism: &[u8],
    response: &[u8],
) -> u32
    ensures added { result ≡ 0 → Extends (SaslInitialResponse mechanism.now (Some response.now)) stream.old stream.new }
    ensures phase { stream.old.is_open ≢ true → result ≡ 32 }
    ensures why { result ≢ 0 → stream.old.is_open ≡ true → Why (SaslInitialResponse mechanism.now (Some response.now)) (free stream.old) result }
    ensures kept { result ≢ 0 → Keeps stream.old stream.new }
{
    add(
        stream,
        PlainMessage::SaslInitialResponse(mechanism, response),
    )
}

/// A later text of a SASL exchange.
#[unsafe(no_mangle)]
pub extern "C" fn pgp_stream_sasl_response(stream: &mut PgpStream<'_>, response: &[u8]) -> u32
    ensures added { result ≡ 0 → Extends (SaslResponse response.now) stream.old stream.new }
    ensures phase { stream.old.is_open ≢ true → result ≡ 32 }
    ensures why { result ≢ 0 → stream.old.is_open ≡ true → Why (SaslResponse response.now) (free stream.old) result }
    ensures kept { result ≢ 0 → Keeps stream.old stream.new }
{
    add(stream, PlainMessage::SaslResponse(response))
}

/// A query of any number of statements.
#[unsafe(no_mangle)]
pub extern "C" fn pgp_stream_query(stream: &mut PgpStream<'_>, text: &[u8]) -> u32
    ensures added { result ≡ 0 → Extends (Query text.now) stream.old stream.new }
    ensures phase { stream.old.is_open ≢ true → result ≡ 32 }
    ensures why { result ≢ 0 → stream.old.is_open ≡ true → Why (Query text.now) (free stream.old) result }
    ensures kept { result ≢ 0 → Keeps stream.old stream.new }
{
    add(stream, PlainMessage::Query(text))
}

/// Prepares a statement of this name, with the types of its first parameters.
#[unsafe(no_mangle)]
pub extern "C" fn pgp_stream_parse(
    stream: &mut PgpStream<'_>,
    name: &[u8],
    query: &[u8],
    types: &[u32],
) -> u32
    ensures added { result ≡ 0 → Extends (Parse name.now query.now types.now) stream.old stream.new }
    ensures phase { stream.old.is_open ≢ true → result ≡ 32 }
    ensures why { result ≢ 0 → stream.old.is_open ≡ true → Why (Parse name.now query.now types.now) (free stream.old) result }
    ensures kept { result ≢ 0 → Keeps stream.old stream.new }
{
    let len = stream.len;
    if stream.is_open != true {
        return WRONG_PHASE;
    }
    if len > stream.room.len() {
        return NO_ROOM;
    }
    let mut added = 0;
    let code = pgp_parse(name, query, types, &mut stream.room[len..], &mut added);
    stream.len = len.saturating_add(added);
    code
}

/// Binds values to a statement's parameters, and makes a portal of it.
#[unsafe(no_mangle)]
pub extern "C" fn pgp_stream_bind(
    stream: &mut PgpStream<'_>,
    portal: &[u8],
    statement: &[u8],
    formats: &[i16],
    values: &[PgpValue<'_>],
    result_formats: &[i16],
) -> u32
    ensures added { result ≡ 0 → Extends (Bind portal.now statement.now formats.now (map value_of values.now) result_formats.now) stream.old stream.new }
    ensures phase { stream.old.is_open ≢ true → result ≡ 32 }
    ensures formats { stream.old.is_open ≡ true → are_bound formats.now (length values.now) result_formats.now ≡ false → result ≡ 39 }
    ensures why { result ≢ 0 → stream.old.is_open ≡ true → are_bound formats.now (length values.now) result_formats.now ≡ true → Why (Bind portal.now statement.now formats.now (map value_of values.now) result_formats.now) (free stream.old) result }
    ensures kept { result ≢ 0 → Keeps stream.old stream.new }
{
    let len = stream.len;
    if stream.is_open != true {
        return WRONG_PHASE;
    }
    if !are_bound(formats, values.len(), result_formats) {
        return NO_FORMATS;
    }
    if len > stream.room.len() {
        return NO_ROOM;
    }
    let mut added = 0;
    let code = bind(
        portal,
        statement,
        formats,
        values,
        result_formats,
        &mut stream.room[len..],
        &mut added,
    );
    stream.len = len.saturating_add(added);
    code
}

/// Asks what a statement (`S`) or a portal (`P`) gives.
#[unsafe(no_mangle)]
pub extern "C" fn pgp_stream_describe(stream: &mut PgpStream<'_>, variant: u8, name: &[u8]) -> u32
    ensures added { result ≡ 0 → Extends (Describe variant name.now) stream.old stream.new }
    ensures phase { stream.old.is_open ≢ true → result ≡ 32 }
    ensures letter { stream.old.is_open ≡ true → is_target variant ≡ false → result ≡ 35 }
    ensures why { result ≢ 0 → stream.old.is_open ≡ true → is_target variant ≡ true → Why (Describe variant name.now) (free stream.old) result }
    ensures kept { result ≢ 0 → Keeps stream.old stream.new }
{
    if stream.is_open && !is_target(variant) {
        return NO_KIND;
    }
    add(stream, PlainMessage::Describe(variant, name))
}

/// Runs a portal, for at most so many rows; 0 is no limit.
#[unsafe(no_mangle)]
pub extern "C" fn pgp_stream_execute(
    stream: &mut PgpStream<'_>,
    portal: &[u8],
    max_rows: i32,
) -> u32
    ensures added { result ≡ 0 → Extends (Execute portal.now max_rows) stream.old stream.new }
    ensures phase { stream.old.is_open ≢ true → result ≡ 32 }
    ensures why { result ≢ 0 → stream.old.is_open ≡ true → Why (Execute portal.now max_rows) (free stream.old) result }
    ensures kept { result ≢ 0 → Keeps stream.old stream.new }
{
    add(stream, PlainMessage::Execute(portal, max_rows))
}

/// Closes a statement (`S`) or a portal (`P`).
#[unsafe(no_mangle)]
pub extern "C" fn pgp_stream_close(stream: &mut PgpStream<'_>, variant: u8, name: &[u8]) -> u32
    ensures added { result ≡ 0 → Extends (Close variant name.now) stream.old stream.new }
    ensures phase { stream.old.is_open ≢ true → result ≡ 32 }
    ensures letter { stream.old.is_open ≡ true → is_target variant ≡ false → result ≡ 35 }
    ensures why { result ≢ 0 → stream.old.is_open ≡ true → is_target variant ≡ true → Why (Close variant name.now) (free stream.old) result }
    ensures kept { result ≢ 0 → Keeps stream.old stream.new }
{
    if stream.is_open && !is_target(variant) {
        return NO_KIND;
    }
    add(stream, PlainMessage::Close(variant, name))
}

/// Asks for what the server holds back.
#[unsafe(no_mangle)]
pub extern "C" fn pgp_stream_flush(stream: &mut PgpStream<'_>) -> u32
    ensures added { result ≡ 0 → Extends Flush stream.old stream.new }
    ensures phase { stream.old.is_open ≢ true → result ≡ 32 }
    ensures why { result ≢ 0 → stream.old.is_open ≡ true → Why Flush (free stream.old) result }
    ensures kept { result ≢ 0 → Keeps stream.old stream.new }
{
    add(stream, PlainMessage::Flush)
}

/// Ends a series of extended queries.
#[unsafe(no_mangle)]
pub extern "C" fn pgp_stream_sync(stream: &mut PgpStream<'_>) -> u32
    ensures added { result ≡ 0 → Extends Sync stream.old stream.new }
    ensures phase { stream.old.is_open ≢ true → result ≡ 32 }
    ensures why { result ≢ 0 → stream.old.is_open ≡ true → Why Sync (free stream.old) result }
    ensures kept { result ≢ 0 → Keeps stream.old stream.new }
{
    add(stream, PlainMessage::Sync)
}

/// Data of a copy, which are copied; `pgp_stream_copy_data_head` has no need of that.
#[unsafe(no_mangle)]
pub extern "C" fn pgp_stream_copy_data(stream: &mut PgpStream<'_>, bytes: &[u8]) -> u32
    ensures added { result ≡ 0 → Extends (CopyData bytes.now) stream.old stream.new }
    ensures phase { stream.old.is_open ≢ true → result ≡ 32 }
    ensures why { result ≢ 0 → stream.old.is_open ≡ true → Why (CopyData bytes.now) (free stream.old) result }
    ensures kept { result ≢ 0 → Keeps stream.old stream.new }
{
    add(stream, PlainMessage::CopyData(bytes))
}

/// The head of a message with so many bytes of data, which the caller sends after what is pending.
#[unsafe(no_mangle)]
pub extern "C" fn pgp_stream_copy_data_head(stream: &mut PgpStream<'_>, data_len: usize) -> u32
    ensures added { result ≡ 0 → ExtendsByHead data_len stream.old stream.new }
    ensures phase { stream.old.is_open ≢ true → result ≡ 32 }
    ensures why { result ≢ 0 → stream.old.is_open ≡ true → WhyNoHead data_len (free stream.old) result }
    ensures kept { result ≢ 0 → Keeps stream.old stream.new }
{
    let len = stream.len;
    if stream.is_open != true {
        return WRONG_PHASE;
    }
    if len > stream.room.len() {
        return NO_ROOM;
    }
    let mut added = 0;
    let code = pgp_copy_data_head(data_len, &mut stream.room[len..], &mut added);
    stream.len = len.saturating_add(added);
    code
}

/// The end of the data of a copy.
#[unsafe(no_mangle)]
pub extern "C" fn pgp_stream_copy_done(stream: &mut PgpStream<'_>) -> u32
    ensures added { result ≡ 0 → Extends CopyDone stream.old stream.new }
    ensures phase { stream.old.is_open ≢ true → result ≡ 32 }
    ensures why { result ≢ 0 → stream.old.is_open ≡ true → Why CopyDone (free stream.old) result }
    ensures kept { result ≢ 0 → Keeps stream.old stream.new }
{
    add(stream, PlainMessage::CopyDone)
}

/// Gives a copy up, with a text for the server's report.
#[unsafe(no_mangle)]
pub extern "C" fn pgp_stream_copy_fail(stream: &mut PgpStream<'_>, reason: &[u8]) -> u32
    ensures added { result ≡ 0 → Extends (CopyFail reason.now) stream.old stream.new }
    ensures phase { stream.old.is_open ≢ true → result ≡ 32 }
    ensures why { result ≢ 0 → stream.old.is_open ≡ true → Why (CopyFail reason.now) (free stream.old) result }
    ensures kept { result ≢ 0 → Keeps stream.old stream.new }
{
    add(stream, PlainMessage::CopyFail(reason))
}

/// The end of the session.
#[unsafe(no_mangle)]
pub extern "C" fn pgp_stream_terminate(stream: &mut PgpStream<'_>) -> u32
    ensures added { result ≡ 0 → Extends Terminate stream.old stream.new }
    ensures phase { stream.old.is_open ≢ true → result ≡ 32 }
    ensures why { result ≢ 0 → stream.old.is_open ≡ true → Why Terminate (free stream.old) result }
    ensures kept { result ≢ 0 → Keeps stream.old stream.new }
{
    add(stream, PlainMessage::Terminate)
}

/// Adds a message without lists, where it may come.
#[inline(always)]
fn add(stream: &mut PgpStream<'_>, message: PlainMessage<'_>) -> u32
    ensures added { result ≡ 0 → Extends (message_of message.entry) stream.old stream.new }
    ensures phase { stream.old.is_open ≢ comes_open message.entry → result ≡ 32 }
    ensures why { result ≢ 0 → stream.old.is_open ≡ comes_open message.entry → Why (message_of message.entry) (free stream.old) result }
    ensures kept { result ≢ 0 → Keeps stream.old stream.new }
{
    let len = stream.len;
    if stream.is_open != comes_open(message) {
        return WRONG_PHASE;
    }
    if len > stream.room.len() {
        return NO_ROOM;
    }
    let mut added = 0;
    let code = send(message, &mut stream.room[len..], &mut added);
    stream.len = len.saturating_add(added);
    code
}
