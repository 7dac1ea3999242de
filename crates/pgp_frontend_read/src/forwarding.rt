//! A message that was read, written again.

ghost use Rattle.std.specs.Prelude.{◌≡◌, [], ◌∷◌, Some};
ghost use Rattle.pgp_frontend.specs.ClientMessage.{Bind, FunctionCall, Parse, SaslInitialResponse, Startup};
ghost use Rattle.pgp_frontend.specs.Payload.{Byte, Text, WritesFrame, WritesMessage};
ghost use Rattle.pgp_frontend_read.specs.Views.{view};
ghost use Rattle.pgp_frontend_read.specs.Whole.{shown};

use crate::formats::Formats;
use crate::message::ClientMessage;
use crate::pairs::StartupParameters;
use crate::types::ParamTypes;
use crate::values::Values;
use pgp_base::{Buffer, Error, Oid};
use pgp_frontend::codes::{GSSENC_REQUEST, VERSION_3_0};
use pgp_frontend::field::{Field, message as tagged, packet};
use pgp_frontend::{
    cancel_request_key, copy_done, flush, password_message, sasl_response, ssl_request, sync,
    terminate,
};

/// Appends the message: the bytes that stood where it was read. Of a list that was walked it is
/// what is left.
///
/// # Errors
///
/// Of a message that was read `OutOfMemory` alone, if the buffer can't grow. Of one that was made of other parts also
/// `EmbeddedNull` if a text has a 0 byte, `InvalidSize` unless a key has 4 to 256 bytes, and `TooLarge` if a response or
/// the message exceeds `i32::MAX`. On error the buffer is unchanged.
pub fn forward<B: Buffer>(message: &ClientMessage<'_>, buf: &mut B) -> Result<(), Error>
    ensures { WritesMessage (view message.now) B.Lacks (B.held buf.old) (B.held buf.new) result }
{
    match message {
        ClientMessage::Bind {
            portal,
            statement,
            formats,
            values,
            result_formats,
        } => bind(portal, statement, formats, values, result_formats, buf),
        ClientMessage::Close { variant, name } => named(b'C', *variant, name, buf),
        ClientMessage::CopyData(bytes) => tagged(b'd', &[Field::Rest(bytes)], buf),
        ClientMessage::CopyDone => copy_done(buf),
        ClientMessage::CopyFail(reason) => tagged(b'f', &[Field::Text(reason)], buf),
        ClientMessage::Describe { variant, name } => named(b'D', *variant, name, buf),
        ClientMessage::Execute { portal, max_rows } => {
            tagged(b'E', &[Field::Text(portal), Field::Int32(*max_rows)], buf)
        }
        ClientMessage::Flush => flush(buf),
        ClientMessage::FunctionCall {
            function,
            formats,
            arguments,
            result_format,
        } => function_call(*function, formats, arguments, *result_format, buf),
        ClientMessage::Parse {
            name,
            query,
            param_types,
        } => parse(name, query, param_types, buf),
        ClientMessage::PasswordMessage(password) => password_message(password, buf),
        ClientMessage::Query(query) => tagged(b'Q', &[Field::Text(query)], buf),
        ClientMessage::SaslInitialResponse {
            mechanism,
            response,
        } => sasl_initial(mechanism, *response, buf),
        ClientMessage::SaslResponse(response) => sasl_response(response, buf),
        ClientMessage::Sync => sync(buf),
        ClientMessage::Terminate => terminate(buf),
        ClientMessage::Startup { minor, parameters } => startup(*minor, parameters, buf),
        ClientMessage::CancelRequest {
            process_id,
            secret_key,
        } => cancel_request_key(*process_id, secret_key, buf),
        ClientMessage::SslRequest => ssl_request(buf),
        ClientMessage::GssEncRequest => packet(&[Field::Int32(GSSENC_REQUEST.cast_signed())], buf),
    }
}

fn bind<'a, B: Buffer>(
    portal: &'a [u8],
    statement: &'a [u8],
    formats: &Formats<'a>,
    values: &Values<'a>,
    result_formats: &Formats<'a>,
    buf: &mut B,
) -> Result<(), Error>
    ensures { WritesMessage (Bind portal.now statement.now formats.now values.now result_formats.now) B.Lacks (B.held buf.old) (B.held buf.new) result }
{
    let (formats_count, formats_items) = formats.spelled();
    let (values_count, values_items) = values.spelled();
    let (results_count, results_items) = result_formats.spelled();
    tagged(
        b'B',
        &[
            Field::Text(portal),
            Field::Text(statement),
            Field::Rest(&formats_count),
            Field::Rest(formats_items),
            Field::Rest(&values_count),
            Field::Rest(values_items),
            Field::Rest(&results_count),
            Field::Rest(results_items),
        ],
        buf,
    )
}

/// A variant and a name.
fn named<B: Buffer>(tag: u8, variant: u8, name: &[u8], buf: &mut B) -> Result<(), Error>
    ensures { WritesFrame (Some tag) (Byte variant ∷ Text name.now ∷ []) B.Lacks (B.held buf.old) (B.held buf.new) result }
{
    tagged(tag, &[Field::Byte(variant), Field::Text(name)], buf)
}

fn parse<'a, B: Buffer>(
    name: &'a [u8],
    query: &'a [u8],
    param_types: &ParamTypes<'a>,
    buf: &mut B,
) -> Result<(), Error>
    ensures { WritesMessage (Parse name.now query.now param_types.now) B.Lacks (B.held buf.old) (B.held buf.new) result }
{
    let (count, items) = param_types.spelled();
    tagged(
        b'P',
        &[
            Field::Text(name),
            Field::Text(query),
            Field::Rest(&count),
            Field::Rest(items),
        ],
        buf,
    )
}

fn function_call<'a, B: Buffer>(
    function: Oid,
    formats: &Formats<'a>,
    arguments: &Values<'a>,
    result_format: i16,
    buf: &mut B,
) -> Result<(), Error>
    ensures { WritesMessage (FunctionCall function formats.now arguments.now result_format) B.Lacks (B.held buf.old) (B.held buf.new) result }
{
    let (formats_count, formats_items) = formats.spelled();
    let (arguments_count, arguments_items) = arguments.spelled();
    tagged(
        b'F',
        &[
            Field::Int32(function.cast_signed()),
            Field::Rest(&formats_count),
            Field::Rest(formats_items),
            Field::Rest(&arguments_count),
            Field::Rest(arguments_items),
            Field::Rest(&result_format.to_be_bytes()),
        ],
        buf,
    )
}

/// Without a response -1 stands in the place of its length.
fn sasl_initial<B: Buffer>(
    mechanism: &[u8],
    response: Option<&[u8]>,
    buf: &mut B,
) -> Result<(), Error>
    ensures { WritesMessage (SaslInitialResponse mechanism.now (shown response.entry)) B.Lacks (B.held buf.old) (B.held buf.new) result }
{
    match response {
        Some(response) => tagged(b'p', &[Field::Text(mechanism), Field::Sized(response)], buf),
        None => tagged(b'p', &[Field::Text(mechanism), Field::Int32(-1)], buf),
    }
}

fn startup<B: Buffer>(
    minor: u16,
    parameters: &StartupParameters<'_>,
    buf: &mut B,
) -> Result<(), Error>
    ensures { WritesMessage (Startup minor parameters.now) B.Lacks (B.held buf.old) (B.held buf.new) result }
{
    let code = VERSION_3_0 + u32::from(minor);
    packet(
        &[
            Field::Int32(code.cast_signed()),
            Field::Rest(parameters.spelled()),
        ],
        buf,
    )
}
