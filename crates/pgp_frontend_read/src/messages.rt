//! A client's bytes, read message by message.

ghost use Rattle.std.specs.Prelude.{◌≡◌, true, false};
ghost use Rattle.pgp_frontend.specs.ClientMessage.{PasswordKind as Kind};
ghost use Rattle.pgp_frontend_read.specs.Step.{Step, TakesWithBytes};
ghost use Rattle.pgp_frontend_read.specs.Views.{kind_view, read, read_with_bytes, view};
ghost use Rattle.pgp_frontend.specs.ClientRun.{is_startup};

use crate::body::{body, packet};
use crate::error::ClientError;
use crate::frame::{frame, packet_front};
use crate::message::{ClientMessage, PasswordKind};
use std::marker::Model;

/// Reads the messages of a client in place: nothing is copied, and no memory is asked for. Before a startup packet
/// opening packets are read, after it tagged messages.
#[derive(Drop)]
pub struct ClientMessages<'a> {
    rest: &'a [u8],
    opened: bool,
}

impl<'a> Model for ClientMessages<'a> {
    ghost use Rattle.pgp_frontend_read.specs.Step.{Unread};

    ghost Value = { Unread };

    ghost view = { λ messages. record { bytes = messages.rest.now; opened = messages.opened } };
}

impl<'a> ClientMessages<'a> {
    /// What a client sends first.
    pub fn new(bytes: &'a [u8]) -> ClientMessages<'a>
        ensures { result ≡ record { bytes = bytes.now; opened = false } }
    {
        ClientMessages {
            rest: bytes,
            opened: false,
        }
    }

    /// What a client sends in this phase, as where earlier bytes were read by another reader.
    pub fn resume(bytes: &'a [u8], opened: bool) -> ClientMessages<'a>
        ensures { result ≡ record { bytes = bytes.now; opened = opened } }
    {
        ClientMessages {
            rest: bytes,
            opened,
        }
    }

    /// The bytes that weren't read yet.
    pub fn rest(&self) -> &'a [u8]
        ensures { result.now ≡ self.now.bytes }
    {
        self.rest
    }

    /// Whether a startup packet was read.
    pub fn is_open(&self) -> bool
        ensures { result ≡ self.now.opened }
    {
        self.opened
    }

    /// Takes the message at the front; `None` where bytes of it are missing. `kind` reports which message of tag `p` is
    /// expected; for all others it says nothing.
    ///
    /// # Errors
    ///
    /// - `InvalidLength`: no message has the length that stands there, below 4 or 8 (of an opening packet) or past the greatest
    ///   `i32`. Nothing is passed.
    /// - `UnknownTag`: a complete frame stands there, and no message has its tag. The frame is passed.
    /// - `UnknownPacket`: a whole opening packet stands there, and none has its code. Nothing is passed.
    /// - Of a message that has the tag or the code, the first fault from the left: `UnexpectedEof` if a part is cut short,
    ///   `InvalidValueLength` if a value's length is negative and not that of a null, `InvalidSize` if a key hasn't 4 to 256
    ///   bytes, and `NotDrained` if bytes stand after the last part. A frame is passed, an opening packet isn't.
    pub fn next(&mut self, kind: PasswordKind) -> Result<Option<ClientMessage<'a>>, ClientError>
        ensures { Step (kind_view kind) self.old (read result) self.new }
    {
        if self.opened {
            let (read, rest) = tagged(kind, self.rest);
            self.rest = rest;
            return read;
        }
        let (read, rest, opened) = opening(self.rest);
        self.rest = rest;
        self.opened = opened;
        read
    }

    /// As `next`, with the bytes of the message beside it: who passes a message on unchanged writes these.
    ///
    /// # Errors
    ///
    /// As `next`.
    pub fn next_with_bytes(
        &mut self,
        kind: PasswordKind,
    ) -> Result<Option<(ClientMessage<'a>, &'a [u8])>, ClientError>
        ensures { TakesWithBytes (kind_view kind) self.old (read_with_bytes result) self.new }
    {
        let before = self.rest;
        match self.next(kind) {
            Ok(Some(message)) => {
                let (bytes, _) = before.split_at(before.len() - self.rest.len());
                Ok(Some((message, bytes)))
            }
            Ok(None) => Ok(None),
            Err(e) => Err(e),
        }
    }
}

/// A step after the startup packet.
fn tagged(
    kind: PasswordKind,
    bytes: &[u8],
) -> (Result<Option<ClientMessage<'_>>, ClientError>, &[u8])
    ensures { Step (kind_view kind) (record { bytes = bytes.now; opened = true }) (read result.0) (record { bytes = result.1.now; opened = true }) }
{
    match frame(bytes) {
        Err(e) => (Err(ClientError::Reading(e)), bytes),
        Ok(None) => (Ok(None), bytes),
        Ok(Some((tag, payload, rest))) => match body(kind, tag, payload) {
            Ok(message) => (Ok(Some(message)), rest),
            Err(e) => (Err(ClientError::Reading(e)), rest),
        },
    }
}

/// A step before it.
fn opening(bytes: &[u8]) -> (Result<Option<ClientMessage<'_>>, ClientError>, &[u8], bool)
    ensures { (kind : Kind) → Step kind (record { bytes = bytes.now; opened = false }) (read result.0) (record { bytes = result.1.now; opened = result.2 }) }
{
    match packet_front(bytes) {
        Err(e) => (Err(ClientError::Reading(e)), bytes, false),
        Ok(None) => (Ok(None), bytes, false),
        Ok(Some((payload, rest))) => match packet(payload) {
            Ok(message) => {
                let opened = is_startup(&message);
                (Ok(Some(message)), rest, opened)
            }
            Err(e) => (Err(e), bytes, false),
        },
    }
}

/// Whether it is a startup packet.
pub fn is_startup(message: &ClientMessage) -> bool
    ensures { result ≡ is_startup (view message.now) }
{
    match message {
        ClientMessage::Startup { .. } => true,
        _ => false,
    }
}
