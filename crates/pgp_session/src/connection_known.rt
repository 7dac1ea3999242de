//! What a connection says of itself: what has ended, and what the server said last.

ghost use Rattle.std.specs.Prelude.{◌≡◌, option_map};
ghost use Rattle.pgp_client.specs.Taking.{is_idle};
ghost use Rattle.pgp_session.specs.Connection.{open_from, shown, version_of};
ghost use Rattle.pgp_session.specs.ServerState.{shown_key};
ghost use Rattle.pgp_session.specs.Settings.{value_of};

use crate::connection::{Connection, ConnectionPhase};
use crate::server_state::BackendKey;
use pgp_base::Memory;
use pgp_frontend::ProtocolVersion;

impl<'a, A: Memory> Connection<'a, A> {
    /// Whether no request awaits an answer.
    pub fn is_idle(&self) -> bool
        ensures { result ≡ is_idle (shown self.now).talk }
    {
        self.state.dialogue.is_idle()
    }

    /// All requests whose names are below this one have ended: of each the last message was reported, or the server passes over it, as over an Execute
    /// behind a Bind that failed, and nothing will be. The request of this name, if one was sent under it, is to end. A Flush and data of a copy end
    /// with what was sent before them. After the end all have ended.
    pub fn open_from(&self) -> u64
        ensures { result ≡ open_from (shown self.now) }
    {
        if self.state.phase != ConnectionPhase::Started {
            return self.names;
        }
        match self.state.dialogue.first_open() {
            Some(name) => name,
            None => self.names,
        }
    }

    /// The status of the last ReadyForQuery: `I` (no transaction), `T` (in a transaction) or `E` (in a failed one); `None` before the first.
    pub fn status(&self) -> Option<u8>
        ensures { result ≡ (shown self.now).server.state.status }
    {
        self.state.server.status
    }

    /// The key by which another connection cancels this session's query; `None` where the server sent none.
    pub fn backend_key(&self) -> Option<BackendKey<'_>>
        ensures { option_map shown_key result ≡ (shown self.now).server.state.key }
    {
        match &self.state.server.key {
            Some(key) => Some(key.shown()),
            None => None,
        }
    }

    /// The version of the protocol that is spoken: that of the startup packet, or the one that the server answered.
    pub fn version(&self) -> ProtocolVersion
        ensures { result ≡ version_of (shown self.now) }
    {
        self.state
            .offered
            .versions
            .spoken(self.state.server.version)
    }

    /// The value that the server last reported under this name, as `TimeZone` or `server_version`; `None` where it reported none. Names are
    /// the same where their bytes are, and neither a name nor a value need be UTF-8. All take at most 65,536 bytes, each with 128 more than its
    /// name and its value.
    pub fn setting(&self, name: &[u8]) -> Option<&[u8]>
        ensures { option_map (λ value. value.now) result ≡ value_of name.now (shown self.now).server.settings }
    {
        self.state.settings.get(name)
    }
}
