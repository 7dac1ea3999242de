//! What the messages of a server change of a connection.

ghost use Rattle.std.specs.Prelude.{◌≡◌, ℕ};
ghost use Rattle.pgp_message.specs.Views.{view};
ghost use Rattle.pgp_session.specs.Login.{given};
ghost use Rattle.pgp_session.specs.Connection.{Hears, Shown, Takes, answered, begun, in_state};

use crate::connection::ConnectionPhase;
use crate::connection_error::ConnectionError;
use crate::connection_parts::{is_bulk, is_end, is_timely, lacks_status};
use crate::login::{Ways, error_of};
use crate::protocol_options::Offered;
use crate::server_state::ServerState;
use crate::session_storage::SessionStorage;
use crate::settings::{SETTINGS_MOST, Settings};
use bytes::BytesMut;
use pgp_auth::authentication::sasl::ScramSha256;
use pgp_base::Memory;
use pgp_client::{Asked, Dialogue, Event};
use pgp_login::{Login, LoginPhase, Versions};
use pgp_message::Message;
use std::collections::VecDeque;

/// The state of a connection, beside the bytes that came.
#[derive(Drop)]
pub(crate) struct ConnectionState<'a, A: Memory> {
    pub(crate) phase: ConnectionPhase,
    pub(crate) login: Login<'a, ScramSha256<A>>,
    pub(crate) alloc: A,
    pub(crate) out: BytesMut<A>,
    pub(crate) dialogue: Dialogue<VecDeque<Asked, A>>,
    pub(crate) server: ServerState,
    pub(crate) settings: Settings<A>,
    /// What the startup packet asks for.
    pub(crate) offered: Offered<A>,
}

impl<'a, A: Memory> ConnectionState<'a, A> {
    /// The state of a connection of which nothing was sent.
    pub(crate) fn new(alloc: A, ways: Ways<'a, A>) -> ConnectionState<'a, A>
        ensures { (limit : ℕ) → in_state result (begun (given ways.entry) limit) ≡ begun (given ways.entry) limit }
    {
        ConnectionState {
            phase: ConnectionPhase::Opening,
            login: Login {
                phase: LoginPhase::AwaitsOffer,
                ways,
            },
            alloc,
            out: BytesMut::new(alloc),
            dialogue: Dialogue::new(alloc),
            server: ServerState::new(),
            settings: Settings::new(alloc),
            offered: Offered {
                versions: Versions::Only3_0,
                names: Vec::new(alloc),
            },
        }
    }

    /// What a message comes to.
    #[inline(always)]
    pub(crate) fn hear<S: SessionStorage>(
        &mut self,
        message: &Message<S>,
    ) -> Result<Event, ConnectionError<A>>
        ensures { (c : Shown) → Hears A.Lacks (view message.now) (in_state self.old c) (in_state self.new c) (answered (view message.now) result) }
    {
        match self.take(message) {
            Ok(event) => Ok(event),
            Err(e) => {
                self.phase = ConnectionPhase::Over;
                Err(e)
            }
        }
    }

    /// To which request a message belongs, and what it comes to in the log-in.
    #[inline(always)]
    fn take<S: SessionStorage>(&mut self, message: &Message<S>) -> Result<Event, ConnectionError<A>>
        ensures { (c : Shown) → Takes A.Lacks (view message.now) (in_state self.old c) (in_state self.new c) result }
    {
        let event = match self.dialogue.take_message(message) {
            Ok(event) => event,
            Err(e) => return Err(ConnectionError::Misplaced(e)),
        };
        if is_bulk(message, event) {
            return Ok(event);
        }
        if !is_timely(
            self.login.phase,
            self.server.version,
            &self.offered,
            message,
        ) {
            return Err(ConnectionError::Undue);
        }
        if lacks_status(message) {
            return Err(ConnectionError::BadStatus);
        }
        match self.settings.keep(self.alloc, SETTINGS_MOST, message) {
            Ok(()) => {}
            Err(e) => return Err(ConnectionError::Unkept(e)),
        }
        self.server.note(message);
        if is_end(event) {
            self.phase = ConnectionPhase::Over;
            return Ok(event);
        }
        match pgp_login::hear(self.alloc, &mut self.login, message, &mut self.out) {
            Ok(()) => Ok(event),
            Err(e) => Err(error_of(e)),
        }
    }
}
