//! Where the parts of a client's message stand in its frame: their lengths tell it, and how many items its lists have.

ghost use Rattle.std.specs.Prelude.{◌≡◌, ℤ};
ghost use Rattle.pgp_frontend_read.specs.Views.{view};
ghost use Rattle.pgp_frontend_read.specs.Whole.{shown};
ghost use Rattle.for_c.specs.ClientParts.{no_client_parts, no_list};
ghost use Rattle.for_c.specs.ClientPlaces.{after_text, bind_place, call_place, lettered, numbers_at, one_text, parse_place, past, place, sasl_place, startup_place};

use crate::cursor::PgpCursor;
use crate::front::PgpPart;
use pgp_base::FallibleIterator;
use pgp_frontend_read::ClientMessage;

/// The parts of a client's message, as far as its kind has them; otherwise they are 0.
#[repr(C)]
#[derive(Clone, Copy)]
pub struct PgpClientParts {
    pub first: PgpPart,
    pub second: PgpPart,
    /// The formats of values.
    pub formats: PgpCursor,
    /// Values, types, or names and values.
    pub items: PgpCursor,
    /// The formats of results.
    pub result_formats: PgpCursor,
    pub number: i32,
    pub code: u32,
    pub byte: u8,
    /// Whether there is no second part.
    pub is_null: bool,
}

/// No parts.
pub fn none() -> PgpClientParts
    ensures { result ≡ no_client_parts }
{
    PgpClientParts {
        first: PgpPart { at: 0, len: 0 },
        second: PgpPart { at: 0, len: 0 },
        formats: no_list(),
        items: no_list(),
        result_formats: no_list(),
        number: 0,
        code: 0,
        byte: 0,
        is_null: false,
    }
}

/// No list.
fn no_list() -> PgpCursor
    ensures { result ≡ no_list }
{
    PgpCursor {
        at: 0,
        end: 0,
        left: 0,
    }
}

/// Where the parts of a message stand in its frame, which takes so many bytes.
pub fn parts(message: &ClientMessage<'_>, frame: usize) -> PgpClientParts
    ensures { result ≡ place (view message.now) frame }
{
    match message {
        ClientMessage::Bind {
            portal,
            statement,
            formats,
            values,
            result_formats,
        } => bind(
            frame,
            portal.len(),
            statement.len(),
            formats.size_hint().0,
            values.size_hint().0,
            result_formats.size_hint().0,
        ),
        ClientMessage::Close { variant, name } => lettered(*variant, name.len()),
        ClientMessage::CopyData(_) => one(5, frame.saturating_sub(5)),
        ClientMessage::CopyFail(reason) => one(5, reason.len()),
        ClientMessage::Describe { variant, name } => lettered(*variant, name.len()),
        ClientMessage::Execute { portal, max_rows } => PgpClientParts {
            number: *max_rows,
            ..one(5, portal.len())
        },
        ClientMessage::FunctionCall {
            function,
            formats,
            arguments,
            result_format,
        } => PgpClientParts {
            code: *function,
            number: i32::from(*result_format),
            ..call(frame, formats.size_hint().0, arguments.size_hint().0)
        },
        ClientMessage::Parse {
            name,
            query,
            param_types,
        } => parse(frame, name.len(), query.len(), param_types.size_hint().0),
        ClientMessage::PasswordMessage(password) => one(5, password.len()),
        ClientMessage::Query(query) => one(5, query.len()),
        ClientMessage::SaslInitialResponse {
            mechanism,
            response,
        } => sasl_initial(frame, mechanism.len(), *response),
        ClientMessage::SaslResponse(_) => one(5, frame.saturating_sub(5)),
        ClientMessage::Startup { minor, .. } => startup(frame, u32::from(*minor)),
        ClientMessage::CancelRequest { process_id, .. } => PgpClientParts {
            number: *process_id,
            ..one(12, frame.saturating_sub(12))
        },
        _ => none(),
    }
}

/// One part.
fn one(at: usize, len: usize) -> PgpClientParts
    ensures { result ≡ one_text at len }
{
    PgpClientParts {
        first: PgpPart { at, len },
        ..none()
    }
}

/// A letter, and a name of so many bytes.
fn lettered(byte: u8, len: usize) -> PgpClientParts
    ensures { result ≡ lettered byte len }
{
    PgpClientParts {
        byte,
        ..one(6, len)
    }
}

/// The place so many bytes after another, in the frame.
fn past(frame: usize, at: usize, len: usize) -> usize
    ensures { result ≡ past frame at len }
{
    frame.saturating_sub(frame.saturating_sub(at).saturating_sub(len))
}

/// The place after a text of so many bytes, in the frame.
fn after_text(frame: usize, at: usize, len: usize) -> usize
    ensures { result ≡ after_text frame at len }
{
    past(frame, past(frame, at, len), 1)
}

/// So many numbers of two bytes, after their count.
fn numbers_at(frame: usize, at: usize, count: usize) -> PgpCursor
    ensures { result ≡ numbers_at frame at count }
{
    let at = past(frame, at, 2);
    PgpCursor {
        at,
        end: past(frame, past(frame, at, count), count),
        left: count,
    }
}

/// The parts of a Bind, of which two are texts of so many bytes, and three lists of so many items.
fn bind(
    frame: usize,
    portal: usize,
    statement: usize,
    formats: usize,
    values: usize,
    results: usize,
) -> PgpClientParts
    ensures { result ≡ bind_place frame portal statement formats values results }
{
    let second = after_text(frame, 5, portal);
    let formats = numbers_at(frame, after_text(frame, second, statement), formats);
    let last = frame.saturating_sub(results).saturating_sub(results);
    PgpClientParts {
        second: PgpPart {
            at: second,
            len: statement,
        },
        formats,
        items: PgpCursor {
            at: past(frame, formats.end, 2),
            end: last.saturating_sub(2),
            left: values,
        },
        result_formats: PgpCursor {
            at: last,
            end: frame,
            left: results,
        },
        ..one(5, portal)
    }
}

/// The lists of a FunctionCall, which have so many items.
fn call(frame: usize, formats: usize, arguments: usize) -> PgpClientParts
    ensures { result ≡ call_place frame formats arguments }
{
    let formats = numbers_at(frame, 9, formats);
    PgpClientParts {
        formats,
        items: PgpCursor {
            at: past(frame, formats.end, 2),
            end: frame.saturating_sub(2),
            left: arguments,
        },
        ..none()
    }
}

/// The parts of a Parse, of which two are texts of so many bytes, and one a list of so many types.
fn parse(frame: usize, name: usize, query: usize, types: usize) -> PgpClientParts
    ensures { result ≡ parse_place frame name query types }
{
    let second = after_text(frame, 5, name);
    PgpClientParts {
        second: PgpPart {
            at: second,
            len: query,
        },
        items: PgpCursor {
            at: past(frame, after_text(frame, second, query), 2),
            end: frame,
            left: types,
        },
        ..one(5, name)
    }
}

/// The name of a mechanism, which has so many bytes, and the first text of its exchange.
fn sasl_initial(frame: usize, mechanism: usize, response: Option<&[u8]>) -> PgpClientParts
    ensures { result ≡ sasl_place frame mechanism (shown response.entry) }
{
    match response {
        Some(response) => PgpClientParts {
            second: PgpPart {
                at: frame.saturating_sub(response.len()),
                len: response.len(),
            },
            ..one(5, mechanism)
        },
        None => PgpClientParts {
            is_null: true,
            ..one(5, mechanism)
        },
    }
}

/// The names and values of a startup packet.
fn startup(frame: usize, minor: u32) -> PgpClientParts
    ensures { result ≡ startup_place frame minor }
{
    PgpClientParts {
        items: PgpCursor {
            at: 8,
            end: frame,
            left: 0,
        },
        code: minor,
        ..none()
    }
}
