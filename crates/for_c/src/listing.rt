//! The messages with lists in them: of types, and of values.

ghost use Rattle.std.specs.Prelude.{◌≡◌, ◌≢◌, true, false, length, map};
ghost use Rattle.pgp_base.specs.Held.{◌⊕◌};
ghost use Rattle.pgp_frontend.specs.ClientMessage.{Bind, Parse};
ghost use Rattle.for_c.specs.Sending.{Sent, NotSent};
ghost use Rattle.for_c.specs.Lists.{error_of, value_of, Puts};
ghost use Rattle.for_c.specs.Requests.{are_bound};

use crate::request::are_bound;
use crate::status::{no_formats, refused, sent};
use pgp_base::{BindError, Buffer, Error, IsNull, Window};
use pgp_frontend::over_bytes;

/// A value of a `bind`, in the format that its place asks for. The bytes of a null aren't read.
#[repr(C)]
#[derive(Clone, Copy)]
pub struct PgpValue<'a> {
    pub bytes: &'a [u8],
    pub is_null: bool,
}

/// Prepares a statement of this name. The identifiers are the types of the first parameters; 0 leaves one to the server.
#[unsafe(no_mangle)]
pub extern "C" fn pgp_parse(
    name: &[u8],
    query: &[u8],
    types: &[u32],
    out: &mut [u8],
    written: &mut usize,
) -> u32
    ensures sent { result ≡ 0 → Sent (Parse name.now query.now types.now) out.old out.new written.new }
    ensures refused { result ≢ 0 → NotSent (Parse name.now query.now types.now) out.old written.new result }
{
    let mut window = Window::new(out);
    match over_bytes::parse(name, query, types.iter().copied(), &mut window) {
        Ok(()) => sent(&window, written),
        Err(e) => refused(e, written),
    }
}

/// Binds values to a statement's parameters, and makes a portal of it.
#[unsafe(no_mangle)]
pub extern "C" fn pgp_bind(
    portal: &[u8],
    statement: &[u8],
    formats: &[i16],
    values: &[PgpValue<'_>],
    result_formats: &[i16],
    out: &mut [u8],
    written: &mut usize,
) -> u32
    ensures sent { result ≡ 0 → Sent (Bind portal.now statement.now formats.now (map value_of values.now) result_formats.now) out.old out.new written.new }
    ensures formats { are_bound formats.now (length values.now) result_formats.now ≡ false → (result ≡ 39) × (written.new ≡ 0) }
    ensures refused { result ≢ 0 → are_bound formats.now (length values.now) result_formats.now ≡ true → NotSent (Bind portal.now statement.now formats.now (map value_of values.now) result_formats.now) out.old written.new result }
{
    if !are_bound(formats, values.len(), result_formats) {
        return no_formats(written);
    }
    bind(
        portal,
        statement,
        formats,
        values,
        result_formats,
        out,
        written,
    )
}

/// The same message, whatever the formats are.
pub(crate) fn bind(
    portal: &[u8],
    statement: &[u8],
    formats: &[i16],
    values: &[PgpValue<'_>],
    result_formats: &[i16],
    out: &mut [u8],
    written: &mut usize,
) -> u32
    ensures sent { result ≡ 0 → Sent (Bind portal.now statement.now formats.now (map value_of values.now) result_formats.now) out.old out.new written.new }
    ensures refused { result ≢ 0 → NotSent (Bind portal.now statement.now formats.now (map value_of values.now) result_formats.now) out.old written.new result }
{
    let mut window = Window::new(out);
    let answer = over_bytes::bind(
        portal,
        statement,
        formats.iter().copied(),
        values.iter(),
        put,
        result_formats.iter().copied(),
        &mut window,
    );
    match answer {
        Ok(()) => sent(&window, written),
        Err(e) => refused(error_of(e), written),
    }
}

/// The error, whether the serializer's or the writer's.
fn error_of(e: BindError<Error>) -> Error
    ensures { result ≡ error_of e }
{
    match e {
        BindError::Conversion(e) => e,
        BindError::Serialization(e) => e,
    }
}

/// Appends the bytes of a value that is no null.
fn put<B: Buffer>(value: &PgpValue<'_>, buf: &mut B) -> Result<IsNull, Error>
    ensures { Puts value.now B.Lacks (B.held buf.old) (B.held buf.new) result }
{
    if value.is_null {
        return Ok(IsNull::Yes);
    }
    match buf.append(value.bytes) {
        Ok(()) => Ok(IsNull::No),
        Err(e) => Err(Error::from(e)),
    }
}
