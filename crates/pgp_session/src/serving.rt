//! A server's core from the first packet on: it is handed a client's messages, logs the client in, and says what each message
//! comes to. It reads and writes nothing itself: the answers are appended to the caller's buffer.
//!
//! Once the startup packet came, the caller appends the answer about versions (`answer_versions`) and asks for the password. It
//! answers the requests after the log-in itself, first with its settings and the ReadyForQuery.

ghost use Rattle.std.specs.Prelude.{◌≡◌, ◌++◌, ◌∷◌, [], List, OnOk, OnErr};
ghost use Rattle.pgp_message.specs.BackendMessage.{Authentication, AuthenticationCleartextPassword, AuthenticationMd5Password};
ghost use Rattle.pgp_frontend.specs.ClientMessage.{ClientMessage as Received};
ghost use Rattle.pgp_frontend_read.specs.Views.{kind_view, view};
ghost use Rattle.pgp_session.specs.Serving.{HasShown, IsAsked, Knows, Replies, Steps, StepsAll, admission, error_of, kind_in, scram_offer};

use crate::serving_due::due_in;
use crate::serving_outcome::{decide, event_of, phase_after};
use crate::serving_reply::{offer_scram, put_answer, put_denial};
pub use crate::serving_versions::{answer_versions, startup_options};
pub use crate::startup_names::{StartupNames, startup_names};
use pgp_auth::authentication::sasl::{ScramServer, StoredVerifier};
use pgp_base::{Buffer, Error, Memory};
use pgp_frontend_read::{ClientMessage, PasswordKind};
use pgp_message_write as reply;
use std::alloc::{Allocator, Global};

/// How far a session is.
#[derive(Debug, Clone, Copy, PartialEq, Eq)]
pub enum ServingPhase {
    /// The client's first packets are awaited.
    Opening,
    /// The startup packet came: the caller is to decide how the client logs in.
    Named,
    /// A password message is awaited.
    AwaitsPassword,
    /// The first text of a SCRAM exchange is awaited.
    AwaitsFirst,
    /// Its final text is awaited.
    AwaitsFinal,
    /// The client is logged in.
    Open,
    /// The session is over, once all bytes are sent.
    Over,
}

/// What a message of the client comes to.
#[derive(Debug, Clone, Copy, PartialEq, Eq)]
pub enum ServingEvent {
    /// Nothing: the session was over.
    Ignored,
    /// Encryption was asked for, and rejected.
    Unencrypted,
    /// It is a request to cancel another session's query. It gets no answer, and this session is over.
    Cancelled,
    /// It is the startup packet, with the user's name.
    Named,
    /// The first text of the exchange was answered.
    Challenged,
    /// The client is logged in.
    LoggedIn,
    /// The client was rejected, and informed.
    Refused,
    /// It is a request, which the caller is to answer.
    Requested,
    /// The client ends the session.
    Ended,
}

/// Why a client is rejected.
#[derive(Debug, Clone, Copy, PartialEq, Eq)]
pub enum Denial {
    /// `28P01`: what it showed isn't what was asked for.
    WrongPassword,
    /// `08P01`: the message has no place there.
    Violation,
    /// `28000`: by its names, as the caller decides.
    NotAllowed,
}

/// What a client has to show. A user that isn't known is asked as one that is, with `StoredVerifier::mock` or a stored text that is
/// no MD5 text, and rejected in the end.
#[derive(Drop)]
pub enum Method<A: Allocator = Global> {
    Nothing,
    /// The password in clear text, of which this is stored.
    Password(StoredVerifier<A>),
    /// The answer to this salt, by the stored MD5 text.
    Md5 { salt: [u8; 4], stored: Vec<u8, A> },
    /// The proof of SCRAM-SHA-256.
    Exchange(ScramServer<A>),
}

/// A session of a server.
#[derive(Drop)]
pub struct Serving<A: Allocator = Global> {
    /// How far it is.
    pub phase: ServingPhase,
    /// What the client has to show.
    pub method: Method<A>,
}

impl<A: Memory> Serving<A> {
    /// A session in which nothing came.
    pub fn new() -> Serving<A>
        ensures { result ≡ record { phase = ServingPhase.Opening; method = Method.Nothing } }
    {
        Serving {
            phase: ServingPhase::Opening,
            method: Method::Nothing,
        }
    }

    /// Which message of tag `p` is expected, as the reader of the client's messages asks.
    pub fn kind(&self) -> PasswordKind
        ensures { kind_view result ≡ kind_in self.now.phase }
    {
        match self.phase {
            ServingPhase::AwaitsFirst => PasswordKind::Initial,
            ServingPhase::AwaitsFinal => PasswordKind::Response,
            _ => PasswordKind::Password,
        }
    }

    /// Takes the client's next message, and appends what is answered: `N` to a question for encryption, the texts of an exchange, the
    /// admission, or an error. A request is left to the caller, and so are the names of a startup packet. Whatever came before, where
    /// the session is then `Open`, the client has shown what it was asked for.
    ///
    /// A startup packet may ask for any minor version of protocol 3: `answer_versions` says which is spoken. The first message of an
    /// exchange without a text has no place.
    ///
    /// # Errors
    ///
    /// Returns `OutOfMemory`, and `TooLarge` if a text of the exchange is too long for a message. Nothing is appended, and the session is
    /// over.
    pub fn step<B: Buffer>(
        &mut self,
        message: &ClientMessage<'_>,
        out: &mut B,
    ) -> Result<ServingEvent, Error>
        ensures stepped { Steps A.Lacks B.Lacks (view message.now) self.old self.new (B.held out.old) (B.held out.new) result }
        ensures known { (start : Method A) (received : List Received) → Knows start received self.old.phase self.old.method
            → Knows start (received ++ (view message.now ∷ [])) self.new.phase self.new.method }
    {
        self.hear(message, out)
    }

    /// The step, by what the message is.
    fn hear<B: Buffer>(
        &mut self,
        message: &ClientMessage<'_>,
        out: &mut B,
    ) -> Result<ServingEvent, Error>
        ensures { Steps A.Lacks B.Lacks (view message.now) self.old self.new (B.held out.old) (B.held out.new) result }
    {
        let phase = self.phase;
        self.phase = ServingPhase::Over;
        let outcome = decide(due_in(phase, message), &mut self.method)?;
        put_answer(&outcome, out)?;
        self.phase = phase_after(&outcome);
        Ok(event_of(&outcome))
    }

    /// Goes on in this phase, with what the client has to show there.
    fn go_on(&mut self, phase: ServingPhase, method: Method<A>)
        ensures { self.new ≡ record { phase = phase; method = method } }
    {
        self.method = method;
        self.phase = phase;
    }

    /// Lets the client in, of whom nothing is asked.
    ///
    /// # Errors
    ///
    /// Returns `OutOfMemory`. On error nothing changes.
    pub fn trust<B: Buffer>(&mut self, out: &mut B) -> Result<(), Error>
        requires { self.old.phase ≡ ServingPhase.Named }
        ensures sent { Replies admission B.Lacks (B.held out.old) (B.held out.new) result }
        ensures asked { OnOk result (self.new ≡ record { phase = ServingPhase.Open; method = Method.Nothing }) }
        ensures kept { OnErr result (self.new ≡ self.old) }
    {
        reply::authentication_ok(out)?;
        self.go_on(ServingPhase::Open, Method::Nothing);
        Ok(())
    }

    /// Asks for the password in clear text. It is used as it is, which is right where it is ASCII.
    ///
    /// # Errors
    ///
    /// Returns `OutOfMemory`. On error nothing changes.
    pub fn ask_password<B: Buffer>(
        &mut self,
        stored: StoredVerifier<A>,
        out: &mut B,
    ) -> Result<(), Error>
        requires { self.old.phase ≡ ServingPhase.Named }
        ensures sent { Replies (Authentication AuthenticationCleartextPassword) B.Lacks (B.held out.old) (B.held out.new) result }
        ensures asked { OnOk result (self.new ≡ record { phase = ServingPhase.AwaitsPassword; method = Method.Password stored }) }
        ensures kept { OnErr result (self.new ≡ self.old) }
    {
        reply::authentication_cleartext_password(out)?;
        self.go_on(ServingPhase::AwaitsPassword, Method::Password(stored));
        Ok(())
    }

    /// Asks for the MD5 answer to this salt, which has to be a new one each time.
    ///
    /// # Errors
    ///
    /// Returns `OutOfMemory`. On error nothing changes.
    pub fn ask_md5<B: Buffer>(
        &mut self,
        salt: [u8; 4],
        stored: Vec<u8, A>,
        out: &mut B,
    ) -> Result<(), Error>
        requires { self.old.phase ≡ ServingPhase.Named }
        ensures sent { Replies (Authentication (AuthenticationMd5Password salt)) B.Lacks (B.held out.old) (B.held out.new) result }
        ensures asked { OnOk result (self.new ≡ record { phase = ServingPhase.AwaitsPassword; method = Method.Md5 salt stored }) }
        ensures kept { OnErr result (self.new ≡ self.old) }
    {
        reply::authentication_md5_password(salt, out)?;
        self.go_on(ServingPhase::AwaitsPassword, Method::Md5 { salt, stored });
        Ok(())
    }

    /// Offers SCRAM-SHA-256, without channel binding, with an exchange that has the user's verifier.
    ///
    /// # Errors
    ///
    /// Returns `OutOfMemory`. On error nothing changes.
    pub fn ask_scram<B: Buffer>(
        &mut self,
        exchange: ScramServer<A>,
        out: &mut B,
    ) -> Result<(), Error>
        requires { self.old.phase ≡ ServingPhase.Named }
        ensures sent { Replies scram_offer B.Lacks (B.held out.old) (B.held out.new) result }
        ensures asked { OnOk result (self.new ≡ record { phase = ServingPhase.AwaitsFirst; method = Method.Exchange exchange }) }
        ensures kept { OnErr result (self.new ≡ self.old) }
    {
        offer_scram(out)?;
        self.go_on(ServingPhase::AwaitsFirst, Method::Exchange(exchange));
        Ok(())
    }

    /// Rejects the client with an error that ends the session, as one that may not have the database that it names.
    ///
    /// # Errors
    ///
    /// Returns `OutOfMemory`. Nothing is appended; the session is over all the same.
    pub fn deny<B: Buffer>(&mut self, why: Denial, out: &mut B) -> Result<(), Error>
        ensures sent { Replies (error_of why) B.Lacks (B.held out.old) (B.held out.new) result }
        ensures over { self.new.phase ≡ ServingPhase.Over }
        ensures kept { self.new.method ≡ self.old.method }
    {
        self.phase = ServingPhase::Over;
        put_denial(why, out)
    }
}

/// Whatever a client sends once it was asked, it is let in only where it has shown among these messages what was asked for.
pub fn no_other_is_let_in<A: Memory, B: Buffer>()
    ensures { (start : Method A) (sent : List Received) (asked now : Serving A) → IsAsked start asked
        → StepsAll A.Lacks B.Lacks sent asked now → now.phase ≡ ServingPhase.Open → HasShown start sent }
{}
