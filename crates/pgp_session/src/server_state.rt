//! What a server says of its session: the status of the transaction, the key of a cancel request, and the version that it speaks.

ghost use Rattle.std.specs.Prelude.{◌≡◌, ◌≤◌, length};
ghost use Rattle.pgp_message.specs.Views.{view};
ghost use Rattle.pgp_session.specs.ServerState.{KeyFits, noted, shown_key, unsaid};

use crate::session_storage::SessionStorage;
use pgp_frontend::ProtocolVersion;
use pgp_login::version_after;
use pgp_message::{BackendKeyDataBody, Message};
use std::marker::Model;

/// The key by which another connection cancels this session's query.
#[derive(Debug, Clone, Copy)]
pub struct BackendKey<'a> {
    /// The process that serves the session.
    pub process_id: i32,
    /// The secret that the request to cancel shows: four bytes where 3.0 is spoken, and 4 to 256 where 3.2 is.
    pub secret_key: &'a [u8],
}

/// A key that is kept.
#[derive(Drop)]
pub struct KeptKey {
    process_id: i32,
    count: usize,
    bytes: [u8; 256],
}

impl Model for KeptKey {
    ghost use Rattle.std.specs.Prelude.{◌≤◌, take};
    ghost use Rattle.pgp_message.specs.Parts.{KeyData};

    ghost Value = { KeyData };

    ghost view = { λ k. record { process_id = k.process_id; secret_key = take k.count k.bytes } };

    ghost invariant = { λ k. k.count ≤ 256 };
}

impl KeptKey {
    /// The key that a message has.
    fn of<S: SessionStorage>(body: &BackendKeyDataBody<S>) -> KeptKey
        requires { length body.now.secret_key ≤ 256 }
        ensures { result ≡ body.now }
    {
        let key = S::secret_key(body);
        let mut bytes = [0; 256];
        bytes[..key.len()].copy_from_slice(key);
        KeptKey {
            process_id: body.process_id(),
            count: key.len(),
            bytes,
        }
    }

    /// The key, in place.
    pub(crate) fn shown(&self) -> BackendKey<'_>
        ensures { shown_key result ≡ self.now }
    {
        BackendKey {
            process_id: self.process_id,
            secret_key: &self.bytes[..self.count],
        }
    }
}

/// What the server said last.
#[derive(Drop)]
pub struct ServerState {
    /// The status of the last ReadyForQuery: `I` (no transaction), `T` (in a transaction) or `E` (in a failed one); `None` before the first.
    pub status: Option<u8>,
    /// The key of the last BackendKeyData.
    pub key: Option<KeptKey>,
    /// The version that the server answered; `None` where it didn't, and so speaks that of the startup packet.
    pub version: Option<ProtocolVersion>,
}

impl ServerState {
    /// The state before any message.
    pub(crate) fn new() -> ServerState
        ensures { result ≡ unsaid }
    {
        ServerState {
            status: None,
            key: None,
            version: None,
        }
    }

    /// Takes note of a message.
    pub(crate) fn note<S: SessionStorage>(&mut self, message: &Message<S>)
        requires { KeyFits (view message.now) }
        ensures { self.new ≡ noted (view message.now) self.old }
    {
        self.version = version_after(self.version, message);
        match message {
            Message::ReadyForQuery(body) => self.status = Some(body.status()),
            Message::BackendKeyData(body) => self.key = Some(KeptKey::of(body)),
            _ => (),
        }
    }
}
