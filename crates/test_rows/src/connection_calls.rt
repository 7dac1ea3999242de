//! The calls of a client's connection that a row names, and how it logs in.
#![tactic(auto, using(pgp_base::proofs::Parts::held_steps))]

ghost use Rattle.pgp_base.specs.Calls.{KeepsValue};
ghost use Rattle.pgp_base.specs.Held.{items_held};

use crate::word::Words;
use pgp_auth::authentication::sasl::{ChannelBinding, NoPrep, ScramError, ScramSha256, is_nonce};
use pgp_base::{BindError, Buffer, Error, IsNull};
use pgp_frontend_read::ClientMessage;
use pgp_session::{BindSendError, Connection, ConnectionError, Versions, Ways};
use std::alloc::Allocator;

/// What the serializer of a Bind answers where it lacks memory, and where it fails by itself.
const LACKS: u8 = 1;

const FAILS: u8 = 2;

/// What a call came to: a lack of memory, or `InvalidLength` for any other error.
pub fn outcome_of<T: Drop, A: Allocator>(made: Result<T, ConnectionError<A>>) -> Result<T, Error> {
    match made {
        Ok(value) => Ok(value),
        Err(
            ConnectionError::OutOfMemory
            | ConnectionError::Unwritten(Error::OutOfMemory)
            | ConnectionError::Unkept(Error::OutOfMemory)
            | ConnectionError::Scram(ScramError::OutOfMemory),
        ) => Err(Error::OutOfMemory),
        Err(e) => {
            drop(e);
            Err(Error::InvalidLength)
        }
    }
}

/// Appends a value, if it isn't null; an empty one fails.
fn put_value<B: Buffer>(value: Option<&[u8]>, buf: &mut B) -> Result<IsNull, u8>
    ensures { KeepsValue result (B.held buf.old) (B.held buf.new) }
{
    match value {
        None => Ok(IsNull::Yes),
        Some([]) => Err(FAILS),
        Some(bytes) => match buf.append(bytes) {
            Ok(()) => Ok(IsNull::No),
            Err(_) => Err(LACKS),
        },
    }
}

/// The name of a Bind of these values; `NotDrained` where the serializer fails.
fn bind<A: Allocator + Copy>(
    connection: &mut Connection<'_, A>,
    values: &[Option<&[u8]>],
) -> Result<u64, Error> {
    let put = put_value::<bytes::BytesMut<A>>;
    match connection.bind("", "s", Some(1i16), values.iter().copied(), put, Some(1i16)) {
        Ok(name) => Ok(name),
        Err(
            BindSendError::OutOfMemory
            | BindSendError::Unwritten(BindError::Conversion(LACKS))
            | BindSendError::Unwritten(BindError::Serialization(Error::OutOfMemory)),
        ) => Err(Error::OutOfMemory),
        Err(BindSendError::Unwritten(BindError::Conversion(FAILS))) => Err(Error::NotDrained),
        Err(_) => Err(Error::InvalidLength),
    }
}

/// A call without a request's name.
fn without_name<T: Drop, A: Allocator>(made: Result<T, ConnectionError<A>>) -> Result<u64, Error> {
    match outcome_of(made) {
        Ok(_) => Ok(0),
        Err(e) => Err(e),
    }
}

/// Makes the call of this name, and returns the name of its request; `UnexpectedEof` where there is none.
pub fn make<A: Allocator + Copy>(
    name: &str,
    values: &[Option<&[u8]>],
    connection: &mut Connection<'_, A>,
) -> Result<u64, Error> {
    outcome_of(match name {
        "request_encryption" => return without_name(connection.request_encryption()),
        "terminate" => return without_name(connection.terminate()),
        "bind" => return bind(connection, values),
        "start" => connection.start(&[("user", "u")]),
        "start_with_option" => connection.start(&[("user", "u"), ("_pq_.x", "1")]),
        "start_to_3_2" => connection.start_version(Versions::UpTo3_2, &[("user", "u")]),
        "start_3_2" => connection.start_version(Versions::Only3_2, &[("user", "u")]),
        "start_3_2_with_option" => {
            connection.start_version(Versions::Only3_2, &[("user", "u"), ("_pq_.x", "1")])
        }
        "query" => connection.query("SELECT 1"),
        "parse" => connection.parse("", "SELECT 1", Some(23u32)),
        "describe" => connection.describe(b'S', "s"),
        "execute" => connection.execute("", 0),
        "close" => connection.close(b'S', "s"),
        "sync" => connection.sync(),
        "flush" => connection.flush(),
        "copy_data" => connection.copy_data(b"ab"),
        "copy_done" => connection.copy_done(),
        "copy_fail" => connection.copy_fail("x"),
        "send" => connection.send(&ClientMessage::Close {
            variant: b'P',
            name: b"",
        }),
        _ => return Err(Error::UnexpectedEof),
    })
}

/// The nonce and the password of the exchange that the Rust crate's tests have.
const NONCE: &str = "9IZ2O01zb9IgiIZ1WJ/zgpJB";

const PASSWORD: &[u8] = b"foobar";

/// That exchange.
fn exchange<A: Allocator + Copy>(alloc: A, binding: ChannelBinding<A>) -> Option<ScramSha256<A>> {
    match String::from_str(alloc, NONCE) {
        Ok(nonce) if is_nonce(&nonce) => {
            ScramSha256::with_nonce(alloc, PASSWORD, binding, nonce, &NoPrep).ok()
        }
        _ => None,
    }
}

/// The same, bound to the channel.
fn bound<A: Allocator + Copy>(alloc: A) -> Option<ScramSha256<A>> {
    match Vec::from_slice(alloc, b"a hash") {
        Ok(hash) => exchange(alloc, ChannelBinding::tls_server_end_point(hash)),
        Err(_) => None,
    }
}

/// The exchange of a connection that isn't encrypted: `bare`, `bound`, or `none`.
fn scram_of<A: Allocator + Copy>(alloc: A, words: &mut Words<'_>) -> Option<ScramSha256<A>> {
    if words.takes("none") {
        return None;
    }
    if words.takes("bound") {
        return bound(alloc);
    }
    words.expect("bare");
    exchange(alloc, ChannelBinding::unsupported())
}

/// A connection that logs in by an exchange of at least so many rounds, which is encrypted for `scram` alone, or without a password, and takes messages of so many bytes.
pub fn connecting<A: Allocator + Copy>(alloc: A, words: &mut Words<'_>) -> Connection<'static, A> {
    let encrypted = words.takes("scram");
    let scram = if encrypted {
        exchange(alloc, ChannelBinding::unsupported())
    } else {
        scram_of(alloc, words)
    };
    let ways = Ways {
        encrypted,
        none: scram.is_none(),
        least_rounds: words.number(),
        scram,
        md5: None,
        cleartext: None,
    };
    Connection::new(alloc, ways, words.number())
}
