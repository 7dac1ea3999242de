//! The packets that open a connection. They have no tag: a code stands after their length.
#![tactic(auto, using(pgp_base::proofs::Parts::held_steps))]

ghost use Rattle.std.specs.Prelude.{◌≡◌, ℕ, List, length, None, OnOk, OnErr, IfErr};
ghost use Rattle.std.specs.Iterator.{IsFiniteIterable};
ghost use Rattle.pgp_base.specs.Held.{◌⊕◌, IsFrontOf};
ghost use Rattle.pgp_base.specs.Cause.{Wants, WantsMemory};
ghost use Rattle.pgp_base.specs.Wire.{int32};
ghost use Rattle.pgp_base.specs.Calls.{Yielded};
ghost use Rattle.pgp_frontend.specs.ClientMessage.{CancelRequest, SslRequest};
ghost use Rattle.pgp_frontend.specs.Given.{Appended, Refused, WritesGiven, WritesStartup, StartupWhole, StartupSoFar, pairs_by};
ghost use Rattle.pgp_frontend.specs.Payload.{spelling, part_cause, version_code, WritesMessage};
ghost use Rattle.pgp_frontend.specs.Putting.{ItemsRefused};

use crate::codes::{CANCEL_REQUEST, SSL_REQUEST, VERSION_3_0};
use crate::field::{Field, packet, put_int32};
use crate::text::Text;
use pgp_base::big_endian::u32_bytes;
use pgp_base::{Buffer, Error, finish_body, put_u8, put_u32, write_cstr};

/// A version of the protocol that a startup packet asks for. 3.2 is this project's profile of protocol 3.2; nothing is claimed
/// of a server's 3.2.
#[derive(Debug, Clone, Copy, PartialEq, Eq)]
pub enum ProtocolVersion {
    /// Number 196608.
    V3_0,
    /// Number 196610.
    V3_2,
}

impl ProtocolVersion {
    /// Its number in a startup packet.
    pub fn code(self) -> i32
        ensures { result ≡ version_code self }
    {
        match self {
            ProtocolVersion::V3_0 => VERSION_3_0.cast_signed(),
            ProtocolVersion::V3_2 => VERSION_3_0.cast_signed() + 2,
        }
    }
}

/// CancelRequest: cancels another session's query, by the numbers of its BackendKeyData.
///
/// # Errors
///
/// Returns `OutOfMemory` if the buffer can't grow. On error the buffer is unchanged.
pub fn cancel_request<B: Buffer>(process_id: i32, secret_key: i32, buf: &mut B) -> Result<(), Error>
    ensures { WritesMessage (CancelRequest process_id (int32 secret_key)) B.Lacks (B.held buf.old) (B.held buf.new) result }
{
    cancel_request_key(process_id, &u32_bytes(secret_key.cast_unsigned()), buf)
}

/// CancelRequest: cancels another session's query, by the number and the key of its BackendKeyData. Keys that haven't four
/// bytes belong to this project's profile of protocol 3.2; nothing is claimed of a server's 3.2.
///
/// # Errors
///
/// Returns `InvalidSize` unless the key has 4 to 256 bytes, and `OutOfMemory` if the buffer can't grow. On error the buffer
/// is unchanged.
pub fn cancel_request_key<B: Buffer>(
    process_id: i32,
    secret_key: &[u8],
    buf: &mut B,
) -> Result<(), Error>
    ensures { WritesMessage (CancelRequest process_id secret_key.now) B.Lacks (B.held buf.old) (B.held buf.new) result }
{
    packet(
        &[
            Field::Int32(CANCEL_REQUEST.cast_signed()),
            Field::Int32(process_id),
            Field::Key(secret_key),
        ],
        buf,
    )
}

/// SSLRequest: asks for an encrypted session. The server answers with one byte, `S` or `N`, which is not a message.
///
/// # Errors
///
/// Returns `OutOfMemory` if the buffer can't grow. On error the buffer is unchanged.
pub fn ssl_request<B: Buffer>(buf: &mut B) -> Result<(), Error>
    ensures { WritesMessage SslRequest B.Lacks (B.held buf.old) (B.held buf.new) result }
{
    packet(&[Field::Int32(SSL_REQUEST.cast_signed())], buf)
}

// The names and values, and a 0 byte. An error leaves what stood there as a front.
fn put_pairs<B: Buffer, T: Text + Copy, I: IntoIterator<Item = (T, T)> + Drop>(
    parameters: I,
    buf: &mut B,
) -> Result<(), Error>
where
    I::IntoIter: Drop,
    requires { IsFiniteIterable I.into_iter_gives I.IntoIter.can_next I.IntoIter.remaining parameters }
    ensures ok { OnOk result ((xs : List (T × T)) × Yielded I.into_iter_gives I.IntoIter.next_gives parameters xs None
        × (part_cause (pairs_by T.shown xs) ≡ None) × (B.held buf.new ≡ B.held buf.old ⊕ spelling (pairs_by T.shown xs))) }
    ensures err { OnErr result (IsFrontOf (B.held buf.old) (B.held buf.new)) }
    ensures cause { IfErr result (ItemsRefused (Yielded I.into_iter_gives I.IntoIter.next_gives parameters) (pairs_by T.shown) B.Lacks (B.held buf.old)) }
{
    for (name, value) in parameters {
        write_cstr(name.bytes(), buf)?;
        write_cstr(value.bytes(), buf)?;
    }
    put_u8(buf, 0)
}

// The version's number.
fn put_version<B: Buffer>(version: ProtocolVersion, buf: &mut B) -> Result<(), Error>
    ensures ok { OnOk result (B.held buf.new ≡ B.held buf.old ⊕ int32 (version_code version)) }
    ensures err { OnErr result (B.held buf.new ≡ B.held buf.old) }
    ensures cause { IfErr result (WantsMemory (Wants B.Lacks (B.held buf.old) (length (int32 (version_code version))))) }
{
    put_int32(version.code(), buf)
}

// The packet. An error leaves what stood there as a front.
fn fill_startup<B: Buffer, T: Text + Copy, I: IntoIterator<Item = (T, T)> + Drop>(
    version: ProtocolVersion,
    parameters: I,
    buf: &mut B,
) -> Result<(), Error>
where
    I::IntoIter: Drop,
    requires { IsFiniteIterable I.into_iter_gives I.IntoIter.can_next I.IntoIter.remaining parameters }
    ensures ok { OnOk result (Appended
        (StartupWhole T.shown version (Yielded I.into_iter_gives I.IntoIter.next_gives parameters))
        (B.held buf.old) (B.held buf.new)) }
    ensures err { OnErr result (IsFrontOf (B.held buf.old) (B.held buf.new)) }
    ensures cause { IfErr result (Refused
        (StartupWhole T.shown version (Yielded I.into_iter_gives I.IntoIter.next_gives parameters))
        (StartupSoFar T.shown version (Yielded I.into_iter_gives I.IntoIter.next_gives parameters))
        B.Lacks (B.held buf.old)) }
{
    let base = buf.len();
    put_u32(buf, 0)?;
    put_version(version, buf)?;
    put_pairs(parameters, buf)?;
    finish_body(buf, base)?;
    Ok(())
}

// The packet that opens a session, of texts of either kind.
// The hint carries the speed of short messages.
#[inline(always)]
pub(crate) fn open<B: Buffer, T: Text + Copy, I: IntoIterator<Item = (T, T)> + Drop>(
    version: ProtocolVersion,
    parameters: I,
    buf: &mut B,
) -> Result<(), Error>
where
    I::IntoIter: Drop,
    requires { IsFiniteIterable I.into_iter_gives I.IntoIter.can_next I.IntoIter.remaining parameters }
    ensures { WritesGiven
        (StartupWhole T.shown version (Yielded I.into_iter_gives I.IntoIter.next_gives parameters))
        (StartupSoFar T.shown version (Yielded I.into_iter_gives I.IntoIter.next_gives parameters))
        B.Lacks (B.held buf.old) (B.held buf.new) result }
{
    let start = buf.len();
    match fill_startup(version, parameters, buf) {
        Ok(()) => Ok(()),
        Err(e) => {
            buf.truncate(start);
            Err(e)
        }
    }
}

/// Opens a session of version 3.0 with these names and values, among them `user`. A server reads no
/// name that is empty, but one is written as any other.
///
/// # Errors
///
/// Returns `EmbeddedNull` if a name or a value has a 0 byte, `TooLarge` if the message exceeds `i32::MAX`, and
/// `OutOfMemory` if the buffer can't grow. On error the buffer is unchanged.
pub fn startup_message<'a, B: Buffer, I: IntoIterator<Item = (&'a str, &'a str)> + Drop>(
    parameters: I,
    buf: &mut B,
) -> Result<(), Error>
where
    I::IntoIter: Drop,
    requires { IsFiniteIterable I.into_iter_gives I.IntoIter.can_next I.IntoIter.remaining parameters }
    ensures { WritesStartup ProtocolVersion.V3_0
        (Yielded I.into_iter_gives I.IntoIter.next_gives parameters)
        B.Lacks (B.held buf.old) (B.held buf.new) result }
{
    startup_message_version(ProtocolVersion::V3_0, parameters, buf)
}

/// Opens a session of this version with these names and values, among them `user`. A server reads no
/// name that is empty, but one is written as any other.
///
/// # Errors
///
/// Returns `EmbeddedNull` if a name or a value has a 0 byte, `TooLarge` if the message exceeds `i32::MAX`, and
/// `OutOfMemory` if the buffer can't grow. On error the buffer is unchanged.
pub fn startup_message_version<'a, B: Buffer, I: IntoIterator<Item = (&'a str, &'a str)> + Drop>(
    version: ProtocolVersion,
    parameters: I,
    buf: &mut B,
) -> Result<(), Error>
where
    I::IntoIter: Drop,
    requires { IsFiniteIterable I.into_iter_gives I.IntoIter.can_next I.IntoIter.remaining parameters }
    ensures { WritesStartup version
        (Yielded I.into_iter_gives I.IntoIter.next_gives parameters)
        B.Lacks (B.held buf.old) (B.held buf.new) result }
{
    open(version, parameters, buf)
}
