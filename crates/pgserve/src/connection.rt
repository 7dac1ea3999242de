//! A connection: the log-in, and the session after it.

ghost use Rattle.pgp_frontend_read.specs.Pieces.{IsWhole};

use crate::asked::{Refusal, malformed, refuse_as};
use crate::fault::Fault;
use crate::host::{Host, SCRAM_PLUS};
use crate::opening::{Opening, minor_of, opening_of};
use crate::outbox::Outbox;
use crate::pause::Pause;
use crate::rejection::rejection;
use crate::session::Session;
use pgp_auth::authentication::sasl::SCRAM_SHA_256;
use pgp_base::Error;
use pgp_client::Request;
use pgp_frontend_read::{
    ClientError, ClientFrame, ClientMessage, ClientParser, Limits, ParserError,
};
use pgp_session::monitor::Monitor;
use pgp_session::serving::{Method, Serving, ServingEvent, ServingPhase};
use std::alloc::{AllocError, Global};

/// How long messages may be.
const LIMITS: Limits = Limits {
    opening: 10_000,
    tagged: 1 << 26,
};

/// A client's connection.
#[derive(Drop)]
pub(crate) struct Connection<'h> {
    alloc: Global,
    pub(crate) host: &'h Host<'h>,
    serving: Serving,
    session: Session<'h>,
    /// What stands between what is answered and the client.
    pub(crate) monitor: Monitor,
    /// Where what is to be sent waits.
    pub(crate) pauses: Vec<Pause>,
}

impl<'h> Connection<'h> {
    pub(crate) fn new(host: &'h Host<'h>, out: &mut Outbox) -> Connection<'h> {
        let alloc = out.alloc;
        Connection {
            alloc,
            host,
            serving: Serving::new(),
            session: Session::new(host.script, out),
            monitor: Monitor::new(alloc),
            pauses: Vec::new(alloc),
        }
    }

    /// Whether the session is over, once all bytes are sent.
    pub(crate) fn is_over(&self) -> bool {
        self.serving.phase == ServingPhase::Over
    }

    /// Says the client why the session ends, in the place of what was answered.
    fn reject(&mut self, refusal: Refusal<'_>, out: &mut Outbox) {
        out.clear();
        refuse_as("FATAL", refusal, out);
        self.serving.phase = ServingPhase::Over;
    }

    /// The same of a message that has no place there, by its tag.
    fn reject_tag(&mut self, phase: ServingPhase, tag: u8, out: &mut Outbox) {
        let front = match phase {
            ServingPhase::AwaitsPassword => "expected password response, got message type ",
            ServingPhase::AwaitsFirst | ServingPhase::AwaitsFinal => {
                "expected SASL response, got message type "
            }
            _ => "invalid frontend message type ",
        };
        match format!(in out.alloc; "{tag}") {
            Ok(number) => {
                let refusal = Refusal::of("08P01", front, number.as_bytes(), "");
                self.reject(refusal, out);
            }
            Err(_) => out.lack(),
        }
    }

    /// Says the client why its message of this tag isn't taken in this phase.
    fn explain(
        &mut self,
        phase: ServingPhase,
        message: &ClientMessage<'_>,
        tag: u8,
        out: &mut Outbox,
    ) {
        if tag != b'p' || phase == ServingPhase::Open {
            return self.reject_tag(phase, tag, out);
        }
        let user = match self.session.settings.find(b"session_authorization") {
            Some(user) => out.copy(&user.value),
            None => return,
        };
        let is_bound = self.host.is_bound(&user);
        let refusal = rejection(message, &user, self.host.nonce, is_bound);
        self.reject(refusal, out);
    }

    /// Says the client that what it sent is no message here, where it isn't known where the next begins, and ends the session.
    fn stop(&mut self, why: ParserError, out: &mut Outbox) -> Result<(), Fault> {
        let message = match why {
            ParserError::OutOfMemory => return Err(Fault::Memory),
            ParserError::Refused(ClientError::UnknownPacket(code)) => {
                self.reject_version(code.to_be_bytes(), out);
                return self.let_through(out);
            }
            ParserError::Refused(ClientError::Reading(Error::InvalidLength)) => {
                "invalid message length"
            }
            ParserError::Refused(_) => {
                "invalid startup packet layout: expected terminator as last byte"
            }
            ParserError::TooLong(_) => "invalid message length",
        };
        self.reject(Refusal::new("08P01", message), out);
        self.let_through(out)
    }

    /// Says the client that no such version of the protocol is spoken.
    fn reject_version(&mut self, code: [u8; 4], out: &mut Outbox) {
        let [a, b, c, d] = code;
        let (major, minor) = (u16::from_be_bytes([a, b]), u16::from_be_bytes([c, d]));
        match format!(in out.alloc; "{major}.{minor}") {
            Ok(version) => {
                let (front, version) = ("unsupported frontend protocol ", version.as_bytes());
                let behind = ": server supports 3.0 to 3.2";
                self.reject(Refusal::of("0A000", front, version, behind), out);
            }
            Err(_) => out.lack(),
        }
    }

    /// Takes what the startup packet asks for, and asks the user for the proof.
    fn ask(&mut self, message: &mut ClientMessage<'_>, minor: u16, out: &mut Outbox) {
        let opening = opening_of(message, out);
        match opening.user {
            Some(user) if !user.is_empty() => self.begin(user, &opening, minor, out),
            _ => {
                let message = "no PostgreSQL user name specified in startup packet";
                self.reject(Refusal::new("28000", message), out);
            }
        }
    }

    /// The same for this user.
    fn begin(&mut self, user: &[u8], opening: &Opening<'_>, minor: u16, out: &mut Outbox) {
        self.session.has_long_key = opening.negotiate(minor, out);
        self.set(user, opening, out);
        if self.session.rejects_login(true, out) {
            return;
        }
        let host = self.host;
        host.ask(user, &mut self.serving, out);
        if self.serving.phase == ServingPhase::Open {
            self.session.welcome(out);
        }
    }

    /// Takes from the first message of an exchange whether the client is bound to the certificate, where that is offered.
    fn choose_by(&mut self, message: &mut ClientMessage<'_>, out: &mut Outbox) {
        if self.serving.phase != ServingPhase::AwaitsFirst {
            return;
        }
        if let ClientMessage::SaslInitialResponse { mechanism, .. } = message {
            match self.choose(mechanism) {
                Ok(chosen) => *mechanism = chosen,
                Err(fault) => out.fail(fault),
            }
        }
    }

    /// Begins the exchange by this mechanism, where the user has the choice; the mechanism without its binding.
    fn choose<'m>(&mut self, mechanism: &'m [u8]) -> Result<&'m [u8], Fault> {
        let is_bound = mechanism == SCRAM_PLUS;
        match self.method(is_bound) {
            Ok(Some(method)) => self.serving.method = method,
            Ok(None) => return Ok(mechanism),
            Err(fault) => return Err(fault),
        }
        Ok(if is_bound {
            SCRAM_SHA_256.as_bytes()
        } else {
            mechanism
        })
    }

    /// The method of a user who has the choice, bound to the certificate or not.
    fn method(&self, is_bound: bool) -> Result<Option<Method>, Fault> {
        match self.session.settings.find(b"session_authorization") {
            Some(user) => self.host.method(self.alloc, &user.value, is_bound),
            None => Ok(None),
        }
    }

    /// The settings that the startup packet says.
    fn set(&mut self, user: &[u8], opening: &Opening<'_>, out: &mut Outbox) {
        let settings = &mut self.session.settings;
        settings.begin(b"session_authorization", user, out);
        for (name, value) in &opening.settings {
            settings.begin(name, value, out);
        }
    }

    /// Takes note of what a message asks, and appends what is answered.
    fn take(&mut self, message: &mut ClientMessage<'_>, tag: u8, out: &mut Outbox) {
        self.note(Request::of(message), out);
        let phase = self.serving.phase;
        let minor = minor_of(message);
        self.choose_by(message, out);
        match self.serving.step(message, &mut out.bytes) {
            Ok(ServingEvent::Refused) => self.explain(phase, message, tag, out),
            Ok(event) => self.follow(event, message, minor, out),
            Err(why) => out.fail(Fault::from(why)),
        }
    }

    /// Does what a message leads to.
    fn follow(
        &mut self,
        event: ServingEvent,
        message: &mut ClientMessage<'_>,
        minor: u16,
        out: &mut Outbox,
    ) {
        match event {
            ServingEvent::Named => self.ask(message, minor, out),
            ServingEvent::Requested => self.session.answer(message, out),
            ServingEvent::LoggedIn => self.session.welcome(out),
            ServingEvent::Unencrypted => {
                out.clear();
                if let Err(why) = self.monitor.decline_encryption() {
                    out.fail(Fault::from(why));
                }
            }
            _ => {}
        }
    }

    /// Takes the bytes of a message, and lets through what is answered.
    fn take_frame(&mut self, frame: ClientFrame<'_>, out: &mut Outbox) -> Result<(), Fault>
        requires { IsWhole frame.opened frame.bytes.now }
    {
        let start = self.monitor.to_send().len();
        out.clear();
        self.answer_frame(frame, out);
        self.let_through(out)?;
        self.take_pauses(start)?;
        if let Some(end) = self.session.end_at {
            self.monitor.end(start.saturating_add(end));
            self.serving.phase = ServingPhase::Over;
        }
        Ok(())
    }

    /// Takes over the pauses of an answer that begins at this place among what is to be sent.
    fn take_pauses(&mut self, start: usize) -> Result<(), AllocError> {
        for pause in &self.session.pauses {
            self.pauses.push(pause.shifted(start))?;
        }
        self.session.pauses.clear();
        Ok(())
    }

    /// Takes note of what the bytes of a message ask, and appends what is answered.
    fn answer_frame(&mut self, frame: ClientFrame<'_>, out: &mut Outbox)
        requires { IsWhole frame.opened frame.bytes.now }
    {
        let tag = first_of(frame.bytes());
        match frame.message(self.serving.kind()) {
            Ok(message) => {
                let mut message = message;
                self.take(&mut message, tag, out);
                drop(message);
            }
            Err(e) => self.take_malformed(frame.bytes(), e, out),
        }
    }

    /// Takes note of a request, if it is one.
    fn note(&mut self, request: Option<Request>, out: &mut Outbox) {
        if let Some(request) = request {
            if self.monitor.note(request).is_err() {
                out.lack();
            }
        }
    }

    /// Lets through what is answered, a message after another.
    fn let_through(&mut self, out: &Outbox) -> Result<(), Fault> {
        let answer = out.end()?;
        let mut rest = answer;
        for _ in 0..answer.len() {
            if rest.is_empty() {
                return Ok(());
            }
            let passed = self.monitor.pass(rest)?;
            rest = rest.get(passed.len..).unwrap_or(&[]);
        }
        Ok(())
    }

    /// What a message asks whose bytes aren't those of its type, by its tag and the first byte after its length. A malformed Flush is noted as a
    /// Close: a server answers it with an error, as a part of an extended query, and no Flush has an answer.
    fn malformed_request(&self, bytes: &[u8]) -> Option<Request> {
        match first_of(bytes) {
            b'H' if self.session.copying.is_none() => Some(Request::Close),
            tag => Request::of_tag(tag, bytes.get(5).copied().unwrap_or(0)),
        }
    }

    /// Takes a message whose bytes aren't those of its type, as `take` does.
    fn take_malformed(&mut self, bytes: &[u8], why: ClientError, out: &mut Outbox) {
        self.note(self.malformed_request(bytes), out);
        let (phase, tag) = (self.serving.phase, first_of(bytes));
        let is_unknown = matches!(why, ClientError::Reading(Error::UnknownTag(_)));
        match phase {
            ServingPhase::Open if !is_unknown => self.answer_malformed(tag, out),
            ServingPhase::AwaitsPassword if tag == b'p' => {
                self.reject(Refusal::new("08P01", "invalid password packet size"), out);
            }
            ServingPhase::AwaitsFirst | ServingPhase::AwaitsFinal if tag == b'p' => {
                self.reject(malformed(), out);
            }
            _ => self.reject_tag(phase, tag, out),
        }
    }

    /// In an open session such a message gets an error. A Terminate ends it all the same.
    fn answer_malformed(&mut self, tag: u8, out: &mut Outbox) {
        match tag {
            b'p' => self.reject_tag(ServingPhase::Open, tag, out),
            b'X' => self.serving.phase = ServingPhase::Over,
            _ => self.session.answer_malformed(tag, out),
        }
    }
}

/// The first byte; 0 where there is none.
fn first_of(bytes: &[u8]) -> u8 {
    bytes.first().copied().unwrap_or(0)
}

/// Takes the messages that are whole with this piece, and appends what is answered to them.
pub(crate) fn take_piece(
    parser: &mut ClientParser<Global>,
    connection: &mut Connection<'_>,
    piece: &[u8],
    out: &mut Outbox,
) -> Result<(), Fault> {
    let mut rest = piece;
    // Each message takes a byte of the piece at least.
    for _ in 0..=piece.len() {
        if connection.is_over() {
            return Ok(());
        }
        match parser.next(&mut rest) {
            Ok(Some(frame)) => connection.take_frame(frame, out)?,
            Ok(None) => return Ok(()),
            Err(why) => connection.stop(why, out)?,
        }
    }
    Ok(())
}

/// A parser of a connection on which nothing came.
pub(crate) fn parser(alloc: Global) -> ClientParser<Global> {
    ClientParser::new(alloc, LIMITS)
}
