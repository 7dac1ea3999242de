//! Why a call of a connection was rejected.

use pgp_auth::authentication::sasl::ScramError;
use pgp_base::{BindError, Error};
use pgp_client::Refusal;
use std::alloc::{Allocator, Global};

/// Why a call was rejected.
#[derive(Debug, Drop)]
pub enum ConnectionError<A: Allocator = Global> {
    /// The call has no place there: the connection isn't started, isn't logged in, or is over.
    OutOfPhase,
    /// The message couldn't be written.
    Unwritten(Error),
    /// An allocation failed. The call may be made again.
    OutOfMemory,
    /// The server announces a message that is longer than the limit.
    TooLong,
    /// What the server reports of a setting couldn't be kept: `TooLarge` where all, each counted with 128 bytes beside its name and its value,
    /// would exceed 65,536 bytes, or `OutOfMemory`.
    Unkept(Error),
    /// The server sent something other than a message that is known.
    Malformed(Error),
    /// The message has no place among the answers that are due, or can't be attributed.
    Misplaced(Refusal),
    /// The message isn't due in the log-in. Before its end a server asks for a password, reports an error, or answers once which of the versions that
    /// were asked for it speaks: all else would be kept of one that has proved nothing. Or a key hasn't the length that the version's have.
    Undue,
    /// A ReadyForQuery has a status other than `I`, `T` and `E`.
    BadStatus,
    /// The server asks for a way of logging in that isn't admitted, or offers to bind an exchange to a channel that isn't encrypted.
    NotAdmitted,
    /// The server's SASL mechanisms lack that of the exchange, or their list is malformed.
    NotOffered,
    /// The exchange is of fewer rounds than the client asks for.
    TooFewRounds,
    /// The exchange rejected the server's text, or lacked memory for its own; or it was over before it began.
    Scram(ScramError<A>),
    /// The answer to the request for encryption isn't the byte `S` or `N` alone.
    BadAnswer,
}

/// Why a Bind wasn't sent, whose values a serializer writes that fails by `E`.
#[derive(Debug, Drop)]
pub enum BindSendError<E> {
    /// The log-in isn't done, or the connection is over.
    OutOfPhase,
    /// The message couldn't be written, or the serializer failed.
    Unwritten(BindError<E>),
    /// An allocation failed. The call may be made again.
    OutOfMemory,
}
