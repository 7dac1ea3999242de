//! What the line of a client's message says after its name.

ghost use Rattle.std.specs.Prelude.{◌≡◌, ◌∷◌, [], pos, OnErr, OnOk, codes, string_bytes};
ghost use Rattle.pgp_frontend_read.specs.Views.{view};
ghost use Rattle.pgtrace_lines.specs.Common.{shown, Key, Number, Text, followed, key};
ghost use Rattle.pgtrace_lines.specs.Client.{client_groups, client_value, counted, grouped, first_text, named_object, signed_part, startup_parts};

use crate::body::{put_copied, put_integer, put_process_key};
use crate::client_lists::{put_formats, put_pairs, put_types, put_values};
use crate::client_names::object_of;
use crate::lists::put_named_key;
use pgp_base::Memory;
use pgp_frontend_read::{ClientMessage, Formats, StartupParameters, Values};
use pgtool_line::line::{put_null, put_number, put_signed, put_text};
use pgtool_line::nesting::{begin_list, put_key};
use pgtool_line::secret::{put_response, put_secret};
use pgtool_line::style::Style;
use std::alloc::AllocError;

/// Adds what the message says. Where it isn't known which message of tag `p` it is, its length is reported
/// alone.
pub fn put_client_message<A: Memory>(
    style: Style,
    reported: bool,
    message: ClientMessage<'_>,
    line: &mut String<A>,
) -> Result<(), AllocError>
    ensures says { OnOk result (string_bytes line.new ≡ grouped style (string_bytes line.old) (client_groups style reported (view message.entry))) }
    ensures lacks { OnErr result A.Lacks }
{
    match message {
        ClientMessage::Bind {
            portal,
            statement,
            formats,
            values,
            result_formats,
        } => {
            put_texts(style, "portal", portal, "statement", statement, line)?;
            put_formats(style, "formats", "formats", formats, line)?;
            put_values(style, "values", "values", values, line)?;
            put_formats(style, "results", "result_formats", result_formats, line)
        }
        ClientMessage::CancelRequest {
            process_id,
            secret_key,
        } => put_process_key(style, process_id, secret_key, line),
        ClientMessage::Close { variant, name } => put_object(style, variant, name, line),
        ClientMessage::CopyData(bytes) => put_copied(style, bytes, line),
        ClientMessage::CopyFail(message) => put_one(style, "message", message, line),
        ClientMessage::Describe { variant, name } => put_object(style, variant, name, line),
        ClientMessage::Execute { portal, max_rows } => {
            put_one(style, "portal", portal, line)?;
            put_integer(style, "rows", "max_rows", max_rows, line)
        }
        ClientMessage::FunctionCall {
            function,
            formats,
            arguments,
            result_format,
        } => {
            put_unsigned(style, "function", function, line)?;
            put_arguments(style, formats, arguments, line)?;
            put_integer(style, "result", "result_format", result_format as i32, line)
        }
        ClientMessage::Parse {
            name,
            query,
            param_types,
        } => {
            put_texts(style, "statement", name, "query", query, line)?;
            put_types(style, "types", "types", param_types, line)
        }
        ClientMessage::PasswordMessage(password) => put_secret(
            style, "password", "password", password, line,
        ),
        ClientMessage::Query(query) => put_one(style, "query", query, line),
        ClientMessage::SaslInitialResponse {
            mechanism,
            response,
        } => {
            put_one(style, "mechanism", mechanism, line)?;
            put_first(style, response, line)
        }
        ClientMessage::SaslResponse(response) => put_response(style, reported, response, line),
        ClientMessage::Startup { minor, parameters } => {
            put_startup(style, 0x30000 + minor as u32, parameters, line)
        }
        ClientMessage::CopyDone
        | ClientMessage::Flush
        | ClientMessage::GssEncRequest
        | ClientMessage::SslRequest
        | ClientMessage::Sync
        | ClientMessage::Terminate => Ok(()),
    }
}

/// Adds the first text of an exchange, or that there is none.
fn put_first<A: Memory>(
    style: Style,
    response: Option<&[u8]>,
    line: &mut String<A>,
) -> Result<(), AllocError>
    ensures parts { OnOk result (string_bytes line.new ≡ followed style (string_bytes line.old) (key (codes "data") ∷ first_text style (shown response.entry) ∷ [])) }
    ensures lacks { OnErr result A.Lacks }
{
    match response {
        Some(response) => put_secret(style, "data", "data", response, line),
        None => {
            put_key(style, "data", "data", line)?;
            put_null(style, line)
        }
    }
}

/// Adds a call's arguments and their formats.
fn put_arguments<A: Memory>(
    style: Style,
    formats: Formats<'_>,
    arguments: Values<'_>,
    line: &mut String<A>,
) -> Result<(), AllocError>
    ensures parts { OnOk result (string_bytes line.new ≡ followed style (followed style (string_bytes line.old) (counted (codes "formats") (codes "formats") signed_part formats.entry)) (counted (codes "values") (codes "arguments") client_value arguments.entry)) }
    ensures lacks { OnErr result A.Lacks }
{
    put_formats(style, "formats", "formats", formats, line)?;
    put_values(style, "values", "arguments", arguments, line)
}

/// Adds a text with its name.
fn put_one<A: Memory>(
    style: Style,
    name: &str,
    text: &[u8],
    line: &mut String<A>,
) -> Result<(), AllocError>
    ensures parts { OnOk result (string_bytes line.new ≡ followed style (string_bytes line.old) (key name.now ∷ Text text.now ∷ [])) }
    ensures lacks { OnErr result A.Lacks }
{
    put_key(style, name, name, line)?;
    put_text(style, text, line)
}

/// Adds a number with its name.
pub fn put_unsigned<A: Memory>(
    style: Style,
    name: &str,
    n: u32,
    line: &mut String<A>,
) -> Result<(), AllocError>
    ensures parts { OnOk result (string_bytes line.new ≡ followed style (string_bytes line.old) (key name.now ∷ Number (pos n) ∷ [])) }
    ensures lacks { OnErr result A.Lacks }
{
    put_key(style, name, name, line)?;
    put_number(style, n as u64, line)
}

/// Adds two texts with their names.
fn put_texts<A: Memory>(
    style: Style,
    name: &str,
    text: &[u8],
    second: &str,
    other: &[u8],
    line: &mut String<A>,
) -> Result<(), AllocError>
    ensures parts { OnOk result (string_bytes line.new ≡ followed style (string_bytes line.old) (key name.now ∷ Text text.now ∷ key second.now ∷ Text other.now ∷ [])) }
    ensures lacks { OnErr result A.Lacks }
{
    put_one(style, name, text, line)?;
    put_one(style, second, other, line)
}

/// Adds the name of a statement or of a portal, and which of them it is of.
fn put_object<A: Memory>(
    style: Style,
    variant: u8,
    name: &[u8],
    line: &mut String<A>,
) -> Result<(), AllocError>
    ensures parts { OnOk result (string_bytes line.new ≡ followed style (string_bytes line.old) (named_object variant name.now)) }
    ensures lacks { OnErr result A.Lacks }
{
    put_named_key(style, object_of(variant), variant, line)?;
    put_text(style, name, line)
}

/// Adds the version that a client asks for, and its parameters.
fn put_startup<A: Memory>(
    style: Style,
    version: u32,
    parameters: StartupParameters<'_>,
    line: &mut String<A>,
) -> Result<(), AllocError>
    ensures parts { OnOk result (string_bytes line.new ≡ followed style (string_bytes line.old) (startup_parts version parameters.entry)) }
    ensures lacks { OnErr result A.Lacks }
{
    put_unsigned(style, "version", version, line)?;
    put_key(style, "parameters", "parameters", line)?;
    begin_list(style, line)?;
    put_pairs(style, parameters, line)
}
