//! The extended query protocol.
#![tactic(auto, using(pgp_base::proofs::Parts::held_steps))]

ghost use Rattle.std.specs.Prelude.{◌≡◌, ℤ, List, [], ◌∷◌, None, OnOk, OnErr, IfErr, All, FitsSigned};
ghost use Rattle.std.specs.Int.{w16};
ghost use Rattle.std.specs.Iterator.{IsFiniteIterable};
ghost use Rattle.pgp_base.specs.Wire.{uint32};
ghost use Rattle.pgp_base.specs.Held.{◌⊕◌, IsFrontOf};
ghost use Rattle.pgp_base.specs.Calls.{Yielded, OwesValues};
ghost use Rattle.pgp_frontend.specs.Given.{Appended, Refused, ParseWhole, ParseSoFar, WritesParse, Serves, BindWhole, BindRefused, WritesBind};
ghost use Rattle.pgp_frontend.specs.ClientMessage.{Bind, Close, Describe, Execute, Flush, Sync};
ghost use Rattle.pgp_frontend.specs.Payload.{Text, Int16s, joined, parts_cause, WritesMessage};
ghost use Rattle.pgp_frontend.specs.Putting.{HeadRefused};

use crate::counted::{put_int16s, put_oids};
use crate::field::{Field, message, put_fields, room};
use crate::over_bytes;
use crate::values::put_values;
use pgp_base::{BindError, Buffer, Error, IsNull, Oid, finish_body, put_u8, put_u32};

/// Close: closes a prepared statement (`S`) or a portal (`P`). The variant may be any byte.
///
/// # Errors
///
/// Returns `EmbeddedNull` if the name has a 0 byte, `TooLarge` if the message exceeds `i32::MAX`, and
/// `OutOfMemory` if the buffer can't grow. On error the buffer is unchanged.
pub fn close<B: Buffer>(variant: u8, name: &str, buf: &mut B) -> Result<(), Error>
    ensures { WritesMessage (Close variant name.now) B.Lacks (B.held buf.old) (B.held buf.new) result }
{
    over_bytes::close(variant, name.as_bytes(), buf)
}

/// Describe: asks for the parameters and columns of a statement (`S`), or the columns of a portal (`P`). The variant may be any byte.
///
/// # Errors
///
/// Returns `EmbeddedNull` if the name has a 0 byte, `TooLarge` if the message exceeds `i32::MAX`, and `OutOfMemory` if the buffer
/// can't grow. On error the buffer is unchanged.
pub fn describe<B: Buffer>(variant: u8, name: &str, buf: &mut B) -> Result<(), Error>
    ensures { WritesMessage (Describe variant name.now) B.Lacks (B.held buf.old) (B.held buf.new) result }
{
    over_bytes::describe(variant, name.as_bytes(), buf)
}

/// Execute: executes a portal, returning at most `max_rows` rows; 0 is no limit.
///
/// # Errors
///
/// Returns `EmbeddedNull` if the portal's name has a 0 byte, `TooLarge` if the message exceeds `i32::MAX`, and
/// `OutOfMemory` if the buffer can't grow. On error the buffer is unchanged.
pub fn execute<B: Buffer>(portal: &str, max_rows: i32, buf: &mut B) -> Result<(), Error>
    ensures { WritesMessage (Execute portal.now max_rows) B.Lacks (B.held buf.old) (B.held buf.new) result }
{
    over_bytes::execute(portal.as_bytes(), max_rows, buf)
}

/// Flush: asks the server to send what it has buffered.
///
/// # Errors
///
/// Returns `OutOfMemory` if the buffer can't grow. On error the buffer is unchanged.
pub fn flush<B: Buffer>(buf: &mut B) -> Result<(), Error>
    ensures { WritesMessage Flush B.Lacks (B.held buf.old) (B.held buf.new) result }
{
    message(b'H', &[], buf)
}

/// Sync: ends a series of extended queries. The server answers with ReadyForQuery.
///
/// # Errors
///
/// Returns `OutOfMemory` if the buffer can't grow. On error the buffer is unchanged.
pub fn sync<B: Buffer>(buf: &mut B) -> Result<(), Error>
    ensures { WritesMessage Sync B.Lacks (B.held buf.old) (B.held buf.new) result }
{
    message(b'S', &[], buf)
}

// The message of a `parse`. An error leaves what the buffer held as a front.
pub(crate) fn fill_parse<B: Buffer, I: IntoIterator<Item = Oid> + Drop>(
    name: &[u8],
    query: &[u8],
    param_types: I,
    buf: &mut B,
) -> Result<(), Error>
where
    I::IntoIter: Drop,
    requires { IsFiniteIterable I.into_iter_gives I.IntoIter.can_next I.IntoIter.remaining param_types }
    ensures ok { OnOk result (Appended
        (ParseWhole name.now query.now (Yielded I.into_iter_gives I.IntoIter.next_gives param_types))
        (B.held buf.old) (B.held buf.new)) }
    ensures err { OnErr result (IsFrontOf (B.held buf.old) (B.held buf.new)) }
    ensures cause { IfErr result (Refused
        (ParseWhole name.now query.now (Yielded I.into_iter_gives I.IntoIter.next_gives param_types))
        (ParseSoFar name.now query.now (Yielded I.into_iter_gives I.IntoIter.next_gives param_types))
        B.Lacks (B.held buf.old)) }
{
    let texts = [Field::Text(name), Field::Text(query)];
    buf.reserve(room(&texts) + 1)?;
    put_u8(buf, b'P')?;
    let base = buf.len();
    put_u32(buf, 0)?;
    put_fields(&texts, buf)?;
    put_oids(param_types, buf)?;
    finish_body(buf, base)?;
    Ok(())
}

/// Prepares a statement of this name. The identifiers are the types of the first parameters; 0 leaves
/// one to the server.
///
/// # Errors
///
/// The first from the left of: `EmbeddedNull` if a text has a 0 byte, `TooLarge` at the identifier past 65,535,
/// which is not written, `TooLarge` if the message exceeds `i32::MAX`. Otherwise `OutOfMemory`, which may come
/// before any of them, if the buffer can't grow. On error the buffer is unchanged.
pub fn parse<B: Buffer, I: IntoIterator<Item = Oid> + Drop>(
    name: &str,
    query: &str,
    param_types: I,
    buf: &mut B,
) -> Result<(), Error>
where
    I::IntoIter: Drop,
    requires { IsFiniteIterable I.into_iter_gives I.IntoIter.can_next I.IntoIter.remaining param_types }
    ensures { WritesParse name.now query.now
        (Yielded I.into_iter_gives I.IntoIter.next_gives param_types)
        B.Lacks (B.held buf.old) (B.held buf.new) result }
{
    over_bytes::parse(name.as_bytes(), query.as_bytes(), param_types, buf)
}

// The message up to the values. An error leaves what the buffer held as a front.
fn fill_formats<B: Buffer, I: IntoIterator<Item = i16> + Drop>(
    portal: &[u8],
    statement: &[u8],
    formats: I,
    buf: &mut B,
) -> Result<(), Error>
where
    I::IntoIter: Drop,
    requires { IsFiniteIterable I.into_iter_gives I.IntoIter.can_next I.IntoIter.remaining formats }
    ensures ok { OnOk result ((fs : List ℤ) × Yielded I.into_iter_gives I.IntoIter.next_gives formats fs None × All (FitsSigned w16) fs
        × (parts_cause (Text portal.now ∷ Text statement.now ∷ Int16s fs ∷ []) ≡ None)
        × (B.held buf.new ≡ B.held buf.old ⊕ 66 ∷ [] ⊕ uint32 0 ⊕ joined (Text portal.now ∷ Text statement.now ∷ Int16s fs ∷ []))) }
    ensures err { OnErr result (IsFrontOf (B.held buf.old) (B.held buf.new)) }
    ensures cause { IfErr result (HeadRefused portal.now statement.now (Yielded I.into_iter_gives I.IntoIter.next_gives formats) B.Lacks (B.held buf.old)) }
{
    let texts = [Field::Text(portal), Field::Text(statement)];
    buf.reserve(room(&texts) + 1)?;
    put_u8(buf, b'B')?;
    put_u32(buf, 0)?;
    put_fields(&texts, buf)?;
    put_int16s(formats, buf)?;
    Ok(())
}

// The message of a `bind`. An error leaves what the buffer held as a front.
pub(crate) fn fill_bind<
    B: Buffer,
    T: Drop,
    E: Drop,
    I: IntoIterator<Item = i16> + Drop,
    J: IntoIterator<Item = T> + Drop,
    F: FnMut(T, &mut B) -> Result<IsNull, E>,
    K: IntoIterator<Item = i16> + Drop,
>(
    portal: &[u8],
    statement: &[u8],
    formats: I,
    values: J,
    serializer: &mut F,
    result_formats: K,
    buf: &mut B,
) -> Result<(), BindError<E>>
where
    I::IntoIter: Drop,
    J::IntoIter: Drop,
    K::IntoIter: Drop,
    requires formats_end { IsFiniteIterable I.into_iter_gives I.IntoIter.can_next I.IntoIter.remaining formats }
    requires values_end { IsFiniteIterable J.into_iter_gives J.IntoIter.can_next J.IntoIter.remaining values }
    requires result_formats_end { IsFiniteIterable K.into_iter_gives K.IntoIter.can_next K.IntoIter.remaining result_formats }
    requires callable { F.IsAlwaysCallable serializer.old }
    requires owes { OwesValues B.held F.pre F.step }
    ensures ok { OnOk result (Appended (BindWhole portal.now statement.now
        (Yielded I.into_iter_gives I.IntoIter.next_gives formats)
        (Yielded J.into_iter_gives J.IntoIter.next_gives values)
        (Serves B.held F.step serializer.old serializer.new)
        (Yielded K.into_iter_gives K.IntoIter.next_gives result_formats)
        (B.held buf.old)) (B.held buf.old) (B.held buf.new)) }
    ensures err { OnErr result (IsFrontOf (B.held buf.old) (B.held buf.new)) }
    ensures cause { IfErr result (BindRefused portal.now statement.now
        (Yielded I.into_iter_gives I.IntoIter.next_gives formats)
        (Yielded J.into_iter_gives J.IntoIter.next_gives values)
        (Serves B.held F.step serializer.old serializer.new)
        (Yielded K.into_iter_gives K.IntoIter.next_gives result_formats)
        (B.held buf.old) B.Lacks) }
{
    let base = buf.len() + 1;
    fill_formats(portal, statement, formats, buf)?;
    put_values(values, serializer, buf)?;
    put_int16s(result_formats, buf)?;
    finish_body(buf, base)?;
    Ok(())
}

/// Binds values to a statement's parameters, and makes a portal of it. The formats are 0 for text and 1 for binary:
/// none for all text, one for all, or one for each. The serializer appends the bytes of each value, or returns that
/// it is null and appends nothing. It is called once an item, in order, and not at all where the names or the
/// formats are rejected.
///
/// # Errors
///
/// The first from the left of: `Serialization` of `EmbeddedNull` if a name has a 0 byte, and of `TooLarge` at the
/// item past 65,535 of a list, which is not written, where the bytes of a value exceed `i32::MAX`, or where the
/// message does; `Conversion` if the serializer failed a value. Otherwise `Serialization` of `OutOfMemory`, which
/// may come before any of them, if the buffer can't grow. On error the buffer is unchanged.
pub fn bind<
    B: Buffer,
    T: Drop,
    E: Drop,
    I: IntoIterator<Item = i16> + Drop,
    J: IntoIterator<Item = T> + Drop,
    F: FnMut(T, &mut B) -> Result<IsNull, E> + Drop,
    K: IntoIterator<Item = i16> + Drop,
>(
    portal: &str,
    statement: &str,
    formats: I,
    values: J,
    serializer: F,
    result_formats: K,
    buf: &mut B,
) -> Result<(), BindError<E>>
where
    I::IntoIter: Drop,
    J::IntoIter: Drop,
    K::IntoIter: Drop,
    requires formats_end { IsFiniteIterable I.into_iter_gives I.IntoIter.can_next I.IntoIter.remaining formats }
    requires values_end { IsFiniteIterable J.into_iter_gives J.IntoIter.can_next J.IntoIter.remaining values }
    requires result_formats_end { IsFiniteIterable K.into_iter_gives K.IntoIter.can_next K.IntoIter.remaining result_formats }
    requires callable { F.IsAlwaysCallable serializer }
    requires owes { OwesValues B.held F.pre F.step }
    ensures { (last : F) × WritesBind portal.now statement.now
        (Yielded I.into_iter_gives I.IntoIter.next_gives formats)
        (Yielded J.into_iter_gives J.IntoIter.next_gives values)
        (Serves B.held F.step serializer last)
        (Yielded K.into_iter_gives K.IntoIter.next_gives result_formats)
        (B.held buf.old) B.Lacks (B.held buf.new) result }
{
    over_bytes::bind(
        portal.as_bytes(),
        statement.as_bytes(),
        formats,
        values,
        serializer,
        result_formats,
        buf,
    )
}
