//! The writers of messages with texts, over bytes: where the session's encoding isn't UTF-8, a text is no `&str`.
//! A text is its bytes, whatever they are, but a 0 byte.
#![tactic(auto, using(pgp_base::proofs::Parts::held_steps))]

ghost use Rattle.std.specs.Iterator.{IsFiniteIterable};
ghost use Rattle.pgp_base.specs.Calls.{Yielded, OwesValues};
ghost use Rattle.pgp_frontend.specs.ClientMessage.{Close, CopyFail, Describe, Execute, Query, SaslInitialResponse};
ghost use Rattle.pgp_frontend.specs.Given.{Serves, WritesBind, WritesParse, WritesStartup};
ghost use Rattle.pgp_frontend.specs.Payload.{WritesMessage};

use crate::extended::{fill_bind, fill_parse};
use crate::field::{Field, message};
use crate::startup::{ProtocolVersion, open};
use pgp_base::{BindError, Buffer, Error, IsNull, Oid};

/// Query: runs one or more statements, separated by semicolons.
///
/// # Errors
///
/// Returns `EmbeddedNull` if the query has a 0 byte, `TooLarge` if the message exceeds `i32::MAX`, and
/// `OutOfMemory` if the buffer can't grow. On error the buffer is unchanged.
// The hint carries the speed of short messages.
#[inline(always)]
pub fn query<B: Buffer>(query: &[u8], buf: &mut B) -> Result<(), Error>
    ensures { WritesMessage (Query query.now) B.Lacks (B.held buf.old) (B.held buf.new) result }
{
    message(b'Q', &[Field::Text(query)], buf)
}

/// Prepares a statement of this name. The identifiers are the types of the first parameters; 0 leaves
/// one to the server.
///
/// # Errors
///
/// The first from the left of: `EmbeddedNull` if a text has a 0 byte, `TooLarge` at the identifier past 65,535,
/// which is not written, `TooLarge` if the message exceeds `i32::MAX`. Otherwise `OutOfMemory`, which may come
/// before any of them, if the buffer can't grow. On error the buffer is unchanged.
// The hint carries the speed of short messages.
#[inline(always)]
pub fn parse<B: Buffer, I: IntoIterator<Item = Oid> + Drop>(
    name: &[u8],
    query: &[u8],
    param_types: I,
    buf: &mut B,
) -> Result<(), Error>
where
    I::IntoIter: Drop,
    requires { IsFiniteIterable I.into_iter_gives I.IntoIter.can_next I.IntoIter.remaining param_types }
    ensures { WritesParse name.now query.now
        (Yielded I.into_iter_gives I.IntoIter.next_gives param_types)
        B.Lacks (B.held buf.old) (B.held buf.new) result }
{
    let start = buf.len();
    match fill_parse(name, query, param_types, buf) {
        Ok(()) => Ok(()),
        Err(e) => {
            buf.truncate(start);
            Err(e)
        }
    }
}

/// Binds values to a statement's parameters, and makes a portal of it. The formats are 0 for text and 1 for binary:
/// none for all text, one for all, or one for each. The serializer appends the bytes of each value, or returns that
/// it is null and appends nothing. It is called once an item, in order, and not at all where the names or the
/// formats are rejected.
///
/// # Errors
///
/// The first from the left of: `Serialization` of `EmbeddedNull` if a name has a 0 byte, and of `TooLarge` at the
/// item past 65,535 of a list, which is not written, where the bytes of a value exceed `i32::MAX`, or where the
/// message does; `Conversion` if the serializer failed a value. Otherwise `Serialization` of `OutOfMemory`, which
/// may come before any of them, if the buffer can't grow. On error the buffer is unchanged.
// The hint carries the speed of short messages.
#[inline(always)]
pub fn bind<
    B: Buffer,
    T: Drop,
    E: Drop,
    I: IntoIterator<Item = i16> + Drop,
    J: IntoIterator<Item = T> + Drop,
    F: FnMut(T, &mut B) -> Result<IsNull, E> + Drop,
    K: IntoIterator<Item = i16> + Drop,
>(
    portal: &[u8],
    statement: &[u8],
    formats: I,
    values: J,
    mut serializer: F,
    result_formats: K,
    buf: &mut B,
) -> Result<(), BindError<E>>
where
    I::IntoIter: Drop,
    J::IntoIter: Drop,
    K::IntoIter: Drop,
    requires formats_end { IsFiniteIterable I.into_iter_gives I.IntoIter.can_next I.IntoIter.remaining formats }
    requires values_end { IsFiniteIterable J.into_iter_gives J.IntoIter.can_next J.IntoIter.remaining values }
    requires result_formats_end { IsFiniteIterable K.into_iter_gives K.IntoIter.can_next K.IntoIter.remaining result_formats }
    requires callable { F.IsAlwaysCallable serializer }
    requires owes { OwesValues B.held F.pre F.step }
    ensures { (last : F) × WritesBind portal.now statement.now
        (Yielded I.into_iter_gives I.IntoIter.next_gives formats)
        (Yielded J.into_iter_gives J.IntoIter.next_gives values)
        (Serves B.held F.step serializer last)
        (Yielded K.into_iter_gives K.IntoIter.next_gives result_formats)
        (B.held buf.old) B.Lacks (B.held buf.new) result }
{
    let start = buf.len();
    match fill_bind(
        portal,
        statement,
        formats,
        values,
        &mut serializer,
        result_formats,
        buf,
    ) {
        Ok(()) => Ok(()),
        Err(e) => {
            buf.truncate(start);
            Err(e)
        }
    }
}

/// Describe: asks for the parameters and columns of a statement (`S`), or the columns of a portal (`P`). The variant may be any byte.
///
/// # Errors
///
/// Returns `EmbeddedNull` if the name has a 0 byte, `TooLarge` if the message exceeds `i32::MAX`, and `OutOfMemory` if the buffer
/// can't grow. On error the buffer is unchanged.
// The hint carries the speed of short messages.
#[inline(always)]
pub fn describe<B: Buffer>(variant: u8, name: &[u8], buf: &mut B) -> Result<(), Error>
    ensures { WritesMessage (Describe variant name.now) B.Lacks (B.held buf.old) (B.held buf.new) result }
{
    message(b'D', &[Field::Byte(variant), Field::Text(name)], buf)
}

/// Close: closes a prepared statement (`S`) or a portal (`P`). The variant may be any byte.
///
/// # Errors
///
/// Returns `EmbeddedNull` if the name has a 0 byte, `TooLarge` if the message exceeds `i32::MAX`, and
/// `OutOfMemory` if the buffer can't grow. On error the buffer is unchanged.
// The hint carries the speed of short messages.
#[inline(always)]
pub fn close<B: Buffer>(variant: u8, name: &[u8], buf: &mut B) -> Result<(), Error>
    ensures { WritesMessage (Close variant name.now) B.Lacks (B.held buf.old) (B.held buf.new) result }
{
    message(b'C', &[Field::Byte(variant), Field::Text(name)], buf)
}

/// Execute: executes a portal, returning at most `max_rows` rows; 0 is no limit.
///
/// # Errors
///
/// Returns `EmbeddedNull` if the portal's name has a 0 byte, `TooLarge` if the message exceeds `i32::MAX`, and
/// `OutOfMemory` if the buffer can't grow. On error the buffer is unchanged.
// The hint carries the speed of short messages.
#[inline(always)]
pub fn execute<B: Buffer>(portal: &[u8], max_rows: i32, buf: &mut B) -> Result<(), Error>
    ensures { WritesMessage (Execute portal.now max_rows) B.Lacks (B.held buf.old) (B.held buf.new) result }
{
    message(b'E', &[Field::Text(portal), Field::Int32(max_rows)], buf)
}

/// SASLInitialResponse: chooses a mechanism, and carries the client's first data.
///
/// # Errors
///
/// Returns `EmbeddedNull` if the mechanism has a 0 byte, `TooLarge` if the message exceeds `i32::MAX`, and
/// `OutOfMemory` if the buffer can't grow. On error the buffer is unchanged.
// The hint carries the speed of short messages.
#[inline(always)]
pub fn sasl_initial_response<B: Buffer>(
    mechanism: &[u8],
    data: &[u8],
    buf: &mut B,
) -> Result<(), Error>
    ensures { WritesMessage (SaslInitialResponse mechanism.now (Some «data».now)) B.Lacks (B.held buf.old) (B.held buf.new) result }
{
    message(b'p', &[Field::Text(mechanism), Field::Sized(data)], buf)
}

/// CopyFail: aborts a copy, with a message for the server's error.
///
/// # Errors
///
/// Returns `EmbeddedNull` if the text has a 0 byte, `TooLarge` if the message exceeds `i32::MAX`, and
/// `OutOfMemory` if the buffer can't grow. On error the buffer is unchanged.
// The hint carries the speed of short messages.
#[inline(always)]
pub fn copy_fail<B: Buffer>(reason: &[u8], buf: &mut B) -> Result<(), Error>
    ensures { WritesMessage (CopyFail reason.now) B.Lacks (B.held buf.old) (B.held buf.new) result }
{
    message(b'f', &[Field::Text(reason)], buf)
}

/// Opens a session of version 3.0 with these names and values, among them `user`. A server reads no
/// name that is empty, but one is written as any other.
///
/// # Errors
///
/// Returns `EmbeddedNull` if a name or a value has a 0 byte, `TooLarge` if the message exceeds `i32::MAX`, and
/// `OutOfMemory` if the buffer can't grow. On error the buffer is unchanged.
pub fn startup_message<'a, B: Buffer, I: IntoIterator<Item = (&'a [u8], &'a [u8])> + Drop>(
    parameters: I,
    buf: &mut B,
) -> Result<(), Error>
where
    I::IntoIter: Drop,
    requires { IsFiniteIterable I.into_iter_gives I.IntoIter.can_next I.IntoIter.remaining parameters }
    ensures { WritesStartup ProtocolVersion.V3_0
        (Yielded I.into_iter_gives I.IntoIter.next_gives parameters)
        B.Lacks (B.held buf.old) (B.held buf.new) result }
{
    startup_message_version(ProtocolVersion::V3_0, parameters, buf)
}

/// Opens a session of this version with these names and values, among them `user`. A server reads no
/// name that is empty, but one is written as any other.
///
/// # Errors
///
/// Returns `EmbeddedNull` if a name or a value has a 0 byte, `TooLarge` if the message exceeds `i32::MAX`, and
/// `OutOfMemory` if the buffer can't grow. On error the buffer is unchanged.
pub fn startup_message_version<'a, B: Buffer, I: IntoIterator<Item = (&'a [u8], &'a [u8])> + Drop>(
    version: ProtocolVersion,
    parameters: I,
    buf: &mut B,
) -> Result<(), Error>
where
    I::IntoIter: Drop,
    requires { IsFiniteIterable I.into_iter_gives I.IntoIter.can_next I.IntoIter.remaining parameters }
    ensures { WritesStartup version
        (Yielded I.into_iter_gives I.IntoIter.next_gives parameters)
        B.Lacks (B.held buf.old) (B.held buf.new) result }
{
    open(version, parameters, buf)
}
