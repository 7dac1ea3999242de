//! A client's connection, without input or output: what is sent, what came, the log-in, and to which request each message of the server belongs.

ghost use Rattle.std.specs.Prelude.{◌≡◌, ◌≢◌, ◌≤◌, [], length, map, option_map, None, OnOk};
ghost use Rattle.pgp_frontend.specs.ClientMessage.{SslRequest, Startup, Terminate};
ghost use Rattle.pgp_frontend.specs.Given.{shown as shown_pair};
ghost use Rattle.pgp_frontend.specs.Reading.{IsNamed};
ghost use Rattle.pgp_frontend_read.specs.Views.{view as sent_view};
ghost use Rattle.pgp_message.specs.Views.{view};
ghost use Rattle.pgp_session.specs.Login.{given};
ghost use Rattle.pgp_session.specs.Incoming.{Reads};
ghost use Rattle.pgp_session.specs.Connection.{Advances, Answers, Feeds, Nexts, Sends, Starts, Writes, begun, can_send, current, dropped, is_logged_in, limit_of, may_ask, nexted, packet_of, shown};

use crate::connection_error::ConnectionError;
use crate::connection_parts::{encrypts, is_done, may_send, next_name, put_startup};
use crate::connection_state::ConnectionState;
use crate::incoming::Incoming;
use crate::login::Ways;
use crate::protocol_options::{Offered, option_names};
use bytes::{Buf, Bytes, BytesMut};
use pgp_base::{Error, Memory};
use pgp_client::{Event, Request};
use pgp_frontend_read::ClientMessage;
use pgp_login::{Versions, put};
use pgp_message::{Message, Messages};
use std::alloc::Global;

/// How far a connection is.
#[derive(Debug, Clone, Copy, PartialEq, Eq)]
pub enum ConnectionPhase {
    /// The startup packet wasn't written.
    Opening,
    /// Encryption was asked for, and the one byte that answers it is awaited.
    Encrypting,
    /// The startup packet was written. Whether the log-in is done, `is_logged_in` says.
    Started,
    /// The session has ended, or an error ended it. What is left to send may still be sent.
    Over,
}

/// A client's connection, which moves no bytes itself: `feed` takes what came, `to_send` has what is to go out, and `sent` says how much of it went.
///
/// - **Log in**: `request_encryption` and `encryption_answered` come first, where the connection is to be encrypted; `start` or `start_version` writes
///   the startup packet. Then each message that is taken adds what answers it, by the `Ways` that were given and by no other, until `is_logged_in`.
/// - **Ask**: `query`, `parse`, `bind`, `describe`, `execute`, `close`, `sync` and `send` write a request, and return its name: a number, from 0 on. Any
///   number of requests may be on their way at once. A series of extended queries ends by a Sync.
/// - **Take**: `next` hands out the next message, and `advance` leaves it to be read in place by `message`, which asks for no memory; the `Event` says to
///   which request it belongs. Both return `None` until more bytes came.
/// - **What has ended**: all requests below `open_from` have, also those that the server passes over behind one that failed, up to the Sync: of these no
///   message comes. Who keeps something for each request, in a pipeline say, gives it up at `Event::Last`, or once `open_from` has passed its name.
/// - **Copies**: after a CopyInResponse `copy_data` is sent, and `copy_done` or `copy_fail`, and no Sync before these: where such a copy fails, nobody can
///   know whether the server has read that Sync as a part of it, and the connection ends with `Uncertain`.
/// - **The end**: `terminate`, `Event::Ended`, or an error other than `OutOfPhase` and `OutOfMemory`. A server that goes down reports an error of severity
///   `FATAL` in the place of an answer: it is the answer's, and no other comes. `message` has what ended the connection, after `advance`.
#[derive(Drop)]
pub struct Connection<'a, A: Memory = Global> {
    pub(crate) state: ConnectionState<'a, A>,
    incoming: Incoming<A>,
    pub(crate) names: u64,
    limit: u32,
}

impl<'a, A: Memory> Connection<'a, A> {
    /// A connection of which nothing was sent, which logs in by these ways, and takes messages of at most so many bytes after the tag, and of at
    /// most 30,000 before the log-in is done.
    pub fn new(alloc: A, ways: Ways<'a, A>, limit: u32) -> Connection<'a, A>
        ensures { shown result ≡ begun (given ways.entry) limit }
    {
        Connection {
            state: ConnectionState::new(alloc, ways),
            incoming: Incoming::new(alloc),
            names: 0,
            limit,
        }
    }

    /// Asks for an encrypted connection, before the startup packet. The server answers with one byte, which `encryption_answered` takes.
    ///
    /// # Errors
    ///
    /// On error nothing changes. `OutOfPhase` after the startup packet, while such an answer is awaited, and after the end; `Unwritten` of
    /// `OutOfMemory`.
    pub fn request_encryption(&mut self) -> Result<(), ConnectionError<A>>
        ensures writes { Writes A.Lacks ConnectionPhase.Opening ConnectionPhase.Encrypting SslRequest (shown self.old) (shown self.new) result }
        ensures current { current self.new ≡ current self.old }
    {
        if self.state.phase != ConnectionPhase::Opening {
            return Err(ConnectionError::OutOfPhase);
        }
        if let Err(e) = put(&ClientMessage::SslRequest, &mut self.state.out) {
            return Err(ConnectionError::Unwritten(e));
        }
        self.state.phase = ConnectionPhase::Encrypting;
        Ok(())
    }

    /// Takes the bytes that answer the request for encryption, and returns whether the server encrypts; `None` where none came. Where it does,
    /// the handshake of TLS is next, and then the startup packet: the connection counts as encrypted.
    ///
    /// # Errors
    ///
    /// `OutOfPhase` where no such answer is awaited: nothing changes. `BadAnswer` unless the bytes are `S` or `N` alone, which ends the
    /// connection: bytes that came with the `S` were sent before the handshake, by whom nobody can know.
    pub fn encryption_answered(&mut self, piece: &[u8]) -> Result<Option<bool>, ConnectionError<A>>
        ensures answers { Answers piece.now (shown self.old) (shown self.new) result }
        ensures current { current self.new ≡ current self.old }
    {
        if self.state.phase != ConnectionPhase::Encrypting {
            return Err(ConnectionError::OutOfPhase);
        }
        if piece.is_empty() {
            return Ok(None);
        }
        let Some(encrypts) = encrypts(piece) else {
            self.state.phase = ConnectionPhase::Over;
            return Err(ConnectionError::BadAnswer);
        };
        self.state.phase = ConnectionPhase::Opening;
        self.state.login.ways.encrypted |= encrypts;
        Ok(Some(encrypts))
    }

    /// Sends the startup packet of version 3.0, as `start_version` does.
    ///
    /// # Errors
    ///
    /// Those of `start_version`.
    pub fn start(&mut self, parameters: &[(&str, &str)]) -> Result<u64, ConnectionError<A>>
        requires { IsNamed (Startup 0 (map shown_pair parameters.now)) }
        ensures starts { Starts A.Lacks Versions.Only3_0 (Startup 0 (map shown_pair parameters.now)) (shown self.old) (shown self.new) result }
        ensures current { current self.new ≡ current self.old }
    {
        self.start_version(Versions::Only3_0, parameters)
    }

    /// Sends the startup packet of the newest of these versions, with these names and values, among them `user`, and returns the name by which the
    /// events of the log-in tell it. No name is empty. `version` says which version is spoken once the log-in is done: one of these.
    ///
    /// # Errors
    ///
    /// On error nothing changes. `OutOfPhase` after the startup packet, while an answer about encryption is awaited, and after the end;
    /// `Unwritten` of `EmbeddedNull` if a name or a value has a 0 byte, of `TooLarge` if the message exceeds `i32::MAX`, and of `OutOfMemory`;
    /// `OutOfMemory` if there is no memory to take note of the request, or of the names of protocol options.
    pub fn start_version(
        &mut self,
        versions: Versions,
        parameters: &[(&str, &str)],
    ) -> Result<u64, ConnectionError<A>>
        requires { IsNamed (packet_of versions (map shown_pair parameters.now)) }
        ensures starts { Starts A.Lacks versions (packet_of versions (map shown_pair parameters.now)) (shown self.old) (shown self.new) result }
        ensures current { current self.new ≡ current self.old }
    {
        if self.state.phase != ConnectionPhase::Opening {
            return Err(ConnectionError::OutOfPhase);
        }
        let Ok(names) = option_names(self.state.alloc, parameters) else {
            return Err(ConnectionError::OutOfMemory);
        };
        let start = self.state.out.len();
        if let Err(e) = put_startup(
            self.state.alloc,
            versions.newest(),
            parameters,
            &mut self.state.out,
        ) {
            return Err(ConnectionError::Unwritten(e));
        }
        let name = self.names;
        if self.state.dialogue.ask(Request::Startup, name).is_err() {
            self.state.out.truncate(start);
            return Err(ConnectionError::OutOfMemory);
        }
        self.names = next_name(name);
        self.state.offered = Offered { versions, names };
        self.state.phase = ConnectionPhase::Started;
        Ok(name)
    }

    /// Terminate: ends the session. Nothing is sent after it.
    ///
    /// # Errors
    ///
    /// On error nothing changes. `OutOfPhase` before the startup packet and after the end; `Unwritten` of `OutOfMemory`.
    pub fn terminate(&mut self) -> Result<(), ConnectionError<A>>
        ensures writes { Writes A.Lacks ConnectionPhase.Started ConnectionPhase.Over Terminate (shown self.old) (shown self.new) result }
        ensures current { current self.new ≡ current self.old }
    {
        if self.state.phase != ConnectionPhase::Started {
            return Err(ConnectionError::OutOfPhase);
        }
        if let Err(e) = put(&ClientMessage::Terminate, &mut self.state.out) {
            return Err(ConnectionError::Unwritten(e));
        }
        self.state.phase = ConnectionPhase::Over;
        Ok(())
    }

    /// Whether the log-in is done, so that requests may be sent.
    pub fn is_logged_in(&self) -> bool
        ensures { result ≡ is_logged_in (shown self.now) }
    {
        match self.state.phase {
            ConnectionPhase::Started => is_done(self.state.login.phase),
            _ => false,
        }
    }

    /// Whether a request may be sent: the log-in is done, and the server awaits no data of a copy that the client is still to end.
    pub fn may_ask(&self) -> bool
        ensures { result ≡ may_ask (shown self.now) }
    {
        self.is_logged_in() && !self.state.dialogue.awaits_data()
    }

    /// How long a message of the server may be now.
    #[inline(always)]
    fn limit(&self) -> u32
        ensures { result ≡ limit_of (shown self.now) }
    {
        pgp_login::limit(self.is_logged_in(), self.limit)
    }

    /// The bytes to send.
    pub fn to_send(&self) -> &[u8]
        ensures { result.now ≡ (shown self.now).out }
    {
        self.state.out.as_slice()
    }

    /// Takes note that the first bytes to send, so many, were sent.
    pub fn sent(&mut self, count: usize)
        requires { count ≤ length (shown self.old).out }
        ensures shown { shown self.new ≡ dropped count (shown self.old) }
        ensures current { current self.new ≡ current self.old }
    {
        self.state.out.advance(count);
    }

    /// Sends a message, and returns the name by which the events of its answer tell it.
    ///
    /// # Errors
    ///
    /// On error nothing changes.
    ///
    /// - `OutOfPhase` before the log-in is done and after the end, for data of a copy or their end where no copy to the server is under
    ///   way, as after one that the server has failed (`is_logged_in` tells this from the end), for requests but Sync while the server awaits such data, and for messages of a log-in, Terminate and FunctionCall, which
    ///   aren't sent so.
    /// - `Unwritten` of `EmbeddedNull`, `TooLarge` or `OutOfMemory`.
    /// - `OutOfMemory` if there is no memory to take note of the request.
    pub fn send(&mut self, message: &ClientMessage<'_>) -> Result<u64, ConnectionError<A>>
        ensures sends { Sends A.Lacks (sent_view message.now) (shown self.old) (shown self.new) result }
        ensures current { current self.new ≡ current self.old }
    {
        if !self.can_send(message) {
            return Err(ConnectionError::OutOfPhase);
        }
        let start = self.state.out.len();
        if let Err(e) = put(message, &mut self.state.out) {
            return Err(ConnectionError::Unwritten(e));
        }
        let name = self.names;
        if let Some(request) = Request::of(message) {
            if self.state.dialogue.ask(request, name).is_err() {
                self.state.out.truncate(start);
                return Err(ConnectionError::OutOfMemory);
            }
        }
        self.names = next_name(name);
        Ok(name)
    }

    /// Whether a message may be sent now.
    fn can_send(&self, message: &ClientMessage<'_>) -> bool
        ensures { result ≡ can_send (shown self.now) (sent_view message.now) }
    {
        self.is_logged_in()
            && may_send(
                message,
                self.state.dialogue.is_copying(),
                self.state.dialogue.awaits_data(),
            )
    }

    /// Takes bytes that the server sent. `advance` and `next` give the messages among them.
    ///
    /// # Errors
    ///
    /// On error nothing changes, but `OutOfMemory` passes what `message` had. `OutOfPhase` where no message is awaited; `OutOfMemory` if there is no memory
    /// for the bytes.
    pub fn feed(&mut self, piece: &[u8]) -> Result<(), ConnectionError<A>>
        ensures feeds { Feeds A.Lacks piece.now (shown self.old) (shown self.new) result }
        ensures passes { OnOk result (current self.new ≡ []) }
        ensures current { (shown self.old).phase ≢ ConnectionPhase.Started → current self.new ≡ current self.old }
    {
        if self.state.phase != ConnectionPhase::Started {
            return Err(ConnectionError::OutOfPhase);
        }
        match self.incoming.append(piece) {
            Ok(()) => Ok(()),
            Err(_) => Err(ConnectionError::OutOfMemory),
        }
    }

    /// Takes the server's next message, and says to which request it belongs; `None` where no message is complete. `message` has the message
    /// then, in place, also one that ends the connection: no memory is asked for it. In the log-in the reply is added to what is to be sent.
    ///
    /// # Errors
    ///
    /// Those of `next`, but never `OutOfMemory`.
    // The hints here and below carry the speed of rows: else each goes through memory at each return.
    #[inline(always)]
    pub fn advance(&mut self) -> Result<Option<Event>, ConnectionError<A>>
        ensures { Advances A.Lacks (shown self.old) (shown self.new) (current self.new) result }
    {
        self.incoming.pass();
        if self.state.phase != ConnectionPhase::Started {
            return Err(ConnectionError::OutOfPhase);
        }
        let limit = self.limit();
        if self.incoming.is_too_long(limit) {
            self.state.phase = ConnectionPhase::Over;
            return Err(ConnectionError::TooLong);
        }
        let mut messages = Messages::new(self.incoming.rest());
        match messages.next() {
            Ok(None) => Ok(None),
            Ok(Some(message)) => {
                let heard = self.state.hear(&message);
                drop(message);
                let left = messages.rest().len();
                self.incoming.take(left);
                match heard {
                    Ok(event) => Ok(Some(event)),
                    Err(e) => Err(e),
                }
            }
            Err(e) => {
                let left = messages.rest().len();
                self.incoming.leave(left);
                self.state.phase = ConnectionPhase::Over;
                Err(ConnectionError::Malformed(e))
            }
        }
    }

    /// The message that the last call of `advance` took, in place, also where it ended the connection; `None` where it took none, and after `next`.
    /// Bytes that `feed` takes pass it. What is sent leaves it where it is.
    #[inline(always)]
    pub fn message(&self) -> Option<Message<&[u8]>>
        ensures { Reads (current self.now) (option_map view result) }
    {
        match Messages::new(self.incoming.current()).next() {
            Ok(message) => message,
            Err(_) => None,
        }
    }

    /// Takes the server's next message, as `advance` does, and hands it out: it shares the bytes that it keeps.
    ///
    /// # Errors
    ///
    /// `OutOfPhase` where no message is awaited and `OutOfMemory`: nothing changes. All others end the connection, with nothing added to
    /// what is to be sent.
    ///
    /// - `TooLong` if a message is announced that is longer than the limit, or before the log-in is done than 30,000 bytes.
    /// - `Malformed` of the error of `Message::parse`.
    /// - `Misplaced` if the message has no place among the answers, or a copy failed and can't be attributed.
    /// - `BadStatus` if a ReadyForQuery has another status than `I`, `T` and `E`.
    /// - `Unkept` if the message reports a setting that can't be kept.
    /// - `Undue`, `NotAdmitted`, `NotOffered`, `TooFewRounds`, `Scram` and `Unwritten` in the log-in.
    pub fn next(&mut self) -> Result<Option<(Event, Message<Bytes<A>>)>, ConnectionError<A>>
        ensures next { Nexts A.Lacks (shown self.old) (shown self.new) (nexted result) }
        ensures none { Reads (current self.new) None }
    {
        self.incoming.pass();
        if self.state.phase != ConnectionPhase::Started {
            return Err(ConnectionError::OutOfPhase);
        }
        let limit = self.limit();
        if self.incoming.is_too_long(limit) {
            self.state.phase = ConnectionPhase::Over;
            return Err(ConnectionError::TooLong);
        }
        match self.incoming.parse() {
            Ok(None) => Ok(None),
            Ok(Some(message)) => match self.state.hear(&message) {
                Ok(event) => Ok(Some((event, message))),
                Err(e) => {
                    drop(message);
                    Err(e)
                }
            },
            Err(Error::OutOfMemory) => Err(ConnectionError::OutOfMemory),
            Err(e) => {
                self.state.phase = ConnectionPhase::Over;
                Err(ConnectionError::Malformed(e))
            }
        }
    }
}
