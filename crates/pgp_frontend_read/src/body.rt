//! What follows each tag, and what follows each code.

ghost use Rattle.std.specs.Prelude.{◌≡◌};
ghost use Rattle.pgp_frontend_read.specs.Reading.{bind_of, close_of, describe_of, execute_of, function_call_of, parse_of, query_of, copy_fail_of, password_of, sasl_initial_of, reported_of, body_of, startup_of, cancel_of, named, by_code, packet_of, ended};
ghost use Rattle.pgp_frontend_read.specs.Views.{view, seen, reported, kind_view};

use crate::error::ClientError;
use crate::formats::Formats;
use crate::key::key_at;
use crate::message::{ClientMessage, PasswordKind};
use crate::pairs::StartupParameters;
use crate::types::ParamTypes;
use crate::values::{Values, value_at};
use pgp_base::Error;
use pgp_base::reading::{byte_at, int16_at, int32_at, oid_at, string_at};
use pgp_frontend::codes::{CANCEL_REQUEST, GSSENC_REQUEST, SSL_REQUEST, VERSION_3_0, VERSION_4_0};

/// The message of a frame, given which kind of tag `p` is expected.
///
/// # Errors
///
/// Returns `UnknownTag`, `UnexpectedEof`, `NotDrained`, `InvalidValueLength`.
#[tactic(auto, unfolding(crate::specs::Reading::body_of))]
pub fn body(kind: PasswordKind, tag: u8, payload: &[u8]) -> Result<ClientMessage<'_>, Error>
    ensures { seen result ≡ body_of (kind_view kind) tag payload.now }
{
    match tag {
        b'B' => bind(payload),
        b'C' => close(payload),
        b'D' => describe(payload),
        b'E' => execute(payload),
        b'F' => function_call(payload),
        b'H' => ended(payload, ClientMessage::Flush),
        b'P' => parse(payload),
        b'Q' => query(payload),
        b'S' => ended(payload, ClientMessage::Sync),
        b'X' => ended(payload, ClientMessage::Terminate),
        b'c' => ended(payload, ClientMessage::CopyDone),
        b'd' => Ok(ClientMessage::CopyData(payload)),
        b'f' => copy_fail(payload),
        b'p' => reported(kind, payload),
        tag => Err(Error::UnknownTag(tag)),
    }
}

/// What follows the tag `p`.
fn reported(kind: PasswordKind, payload: &[u8]) -> Result<ClientMessage<'_>, Error>
    ensures { seen result ≡ reported_of (kind_view kind) payload.now }
{
    match kind {
        PasswordKind::Password => password(payload),
        PasswordKind::Initial => sasl_initial(payload),
        PasswordKind::Response => Ok(ClientMessage::SaslResponse(payload)),
    }
}

/// A message, unless bytes are left.
fn ended<'a>(rest: &[u8], message: ClientMessage<'a>) -> Result<ClientMessage<'a>, Error>
    ensures { seen result ≡ ended (view message.entry) rest.now }
{
    if !rest.is_empty() {
        return Err(Error::NotDrained);
    }
    Ok(message)
}

#[tactic(auto, unfolding(crate::specs::Reading::bind_of))]
fn bind(payload: &[u8]) -> Result<ClientMessage<'_>, Error>
    ensures { seen result ≡ bind_of payload.now }
{
    let (portal, rest) = string_at(payload)?;
    let (statement, rest) = string_at(rest)?;
    let (formats, rest) = Formats::read(rest)?;
    let (values, rest) = Values::read(rest)?;
    let (result_formats, rest) = Formats::read(rest)?;
    ended(
        rest,
        ClientMessage::Bind {
            portal,
            statement,
            formats,
            values,
            result_formats,
        },
    )
}

#[tactic(auto, unfolding(crate::specs::Reading::close_of))]
fn close(payload: &[u8]) -> Result<ClientMessage<'_>, Error>
    ensures { seen result ≡ close_of payload.now }
{
    let (variant, rest) = byte_at(payload)?;
    let (name, rest) = string_at(rest)?;
    ended(rest, ClientMessage::Close { variant, name })
}

#[tactic(auto, unfolding(crate::specs::Reading::describe_of))]
fn describe(payload: &[u8]) -> Result<ClientMessage<'_>, Error>
    ensures { seen result ≡ describe_of payload.now }
{
    let (variant, rest) = byte_at(payload)?;
    let (name, rest) = string_at(rest)?;
    ended(rest, ClientMessage::Describe { variant, name })
}

#[tactic(auto, unfolding(crate::specs::Reading::execute_of))]
fn execute(payload: &[u8]) -> Result<ClientMessage<'_>, Error>
    ensures { seen result ≡ execute_of payload.now }
{
    let (portal, rest) = string_at(payload)?;
    let (max_rows, rest) = int32_at(rest)?;
    ended(rest, ClientMessage::Execute { portal, max_rows })
}

#[tactic(auto, unfolding(crate::specs::Reading::function_call_of))]
fn function_call(payload: &[u8]) -> Result<ClientMessage<'_>, Error>
    ensures { seen result ≡ function_call_of payload.now }
{
    let (function, rest) = oid_at(payload)?;
    let (formats, rest) = Formats::read(rest)?;
    let (arguments, rest) = Values::read(rest)?;
    let (result_format, rest) = int16_at(rest)?;
    ended(
        rest,
        ClientMessage::FunctionCall {
            function,
            formats,
            arguments,
            result_format,
        },
    )
}

#[tactic(auto, unfolding(crate::specs::Reading::parse_of))]
fn parse(payload: &[u8]) -> Result<ClientMessage<'_>, Error>
    ensures { seen result ≡ parse_of payload.now }
{
    let (name, rest) = string_at(payload)?;
    let (query, rest) = string_at(rest)?;
    let (param_types, rest) = ParamTypes::read(rest)?;
    ended(
        rest,
        ClientMessage::Parse {
            name,
            query,
            param_types,
        },
    )
}

#[tactic(auto, unfolding(crate::specs::Reading::query_of))]
fn query(payload: &[u8]) -> Result<ClientMessage<'_>, Error>
    ensures { seen result ≡ query_of payload.now }
{
    let (query, rest) = string_at(payload)?;
    ended(rest, ClientMessage::Query(query))
}

#[tactic(auto, unfolding(crate::specs::Reading::copy_fail_of))]
fn copy_fail(payload: &[u8]) -> Result<ClientMessage<'_>, Error>
    ensures { seen result ≡ copy_fail_of payload.now }
{
    let (message, rest) = string_at(payload)?;
    ended(rest, ClientMessage::CopyFail(message))
}

#[tactic(auto, unfolding(crate::specs::Reading::password_of))]
fn password(payload: &[u8]) -> Result<ClientMessage<'_>, Error>
    ensures { seen result ≡ password_of payload.now }
{
    let (password, rest) = string_at(payload)?;
    ended(rest, ClientMessage::PasswordMessage(password))
}

#[tactic(auto, unfolding(crate::specs::Reading::sasl_initial_of))]
fn sasl_initial(payload: &[u8]) -> Result<ClientMessage<'_>, Error>
    ensures { seen result ≡ sasl_initial_of payload.now }
{
    let (mechanism, rest) = string_at(payload)?;
    let (response, rest) = value_at(rest)?;
    ended(
        rest,
        ClientMessage::SaslInitialResponse {
            mechanism,
            response,
        },
    )
}

/// The opening packet after its length.
///
/// # Errors
///
/// Returns `UnknownPacket` if no packet has the code; `UnexpectedEof`, `InvalidSize`, `NotDrained`.
#[tactic(auto, unfolding(crate::specs::Reading::packet_of))]
pub fn packet(payload: &[u8]) -> Result<ClientMessage<'_>, ClientError>
    ensures { reported result ≡ packet_of payload.now }
{
    match oid_at(payload) {
        Ok((code, rest)) => by_code(code, rest),
        Err(e) => Err(ClientError::Reading(e)),
    }
}

/// What follows each code.
#[tactic(auto, unfolding(crate::specs::Reading::by_code))]
fn by_code(code: u32, rest: &[u8]) -> Result<ClientMessage<'_>, ClientError>
    ensures { reported result ≡ by_code code rest.now }
{
    match code {
        CANCEL_REQUEST => named(cancel(rest)),
        SSL_REQUEST => named(ended(rest, ClientMessage::SslRequest)),
        GSSENC_REQUEST => named(ended(rest, ClientMessage::GssEncRequest)),
        _ if code < VERSION_3_0 => Err(ClientError::UnknownPacket(code.cast_signed())),
        _ if code >= VERSION_4_0 => Err(ClientError::UnknownPacket(code.cast_signed())),
        _ => named(startup((code - VERSION_3_0) as u16, rest)),
    }
}

/// A body's fault, by its name.
fn named<'a>(body: Result<ClientMessage<'a>, Error>) -> Result<ClientMessage<'a>, ClientError>
    ensures { reported result ≡ named (seen body.entry) }
{
    match body {
        Ok(message) => Ok(message),
        Err(e) => Err(ClientError::Reading(e)),
    }
}

#[tactic(auto, unfolding(crate::specs::Reading::startup_of))]
fn startup(minor: u16, rest: &[u8]) -> Result<ClientMessage<'_>, Error>
    ensures { seen result ≡ startup_of minor rest.now }
{
    let parameters = StartupParameters::read(rest)?;
    Ok(ClientMessage::Startup { minor, parameters })
}

#[tactic(auto, unfolding(crate::specs::Reading::cancel_of))]
fn cancel(rest: &[u8]) -> Result<ClientMessage<'_>, Error>
    ensures { seen result ≡ cancel_of rest.now }
{
    let (process_id, rest) = int32_at(rest)?;
    let secret_key = key_at(rest)?;
    Ok(ClientMessage::CancelRequest {
        process_id,
        secret_key,
    })
}
