//! What a server decides on a client's message, and what follows from it.

ghost use Rattle.std.specs.Prelude.{◌≡◌, IfOk, IfErr, option_map};
ghost use Rattle.std.specs.Bool.{Decides};
ghost use Rattle.pgp_base.specs.Cause.{WantsMemory};
ghost use Rattle.pgp_session.specs.Serving.{Comes, First, Final, GoesOn, Proves, Text, event_of, phase_after, seen, shown};

use crate::serving::{Denial, Method, ServingEvent, ServingPhase};
use crate::serving_due::Due;
use pgp_auth::authentication::sasl::{NoPrep, SCRAM_SHA_256, ServerError};
use pgp_auth::password::check;
use pgp_base::{Error, Memory};
use std::alloc::Allocator;

/// What is decided, and with it what is answered.
#[derive(Drop)]
pub(crate) enum Outcome<A: Allocator> {
    Ignored,
    Unencrypted,
    Cancelled,
    Begun,
    Requested,
    Ended,
    Denied(Denial),
    /// The text that was asked for came.
    Welcome,
    /// The server's first text of an exchange.
    Challenge(Vec<u8, A>),
    /// The proof came; the server's final text.
    Signed([u8; 46]),
}

/// What is decided on what is due.
pub(crate) fn decide<A: Memory>(due: Due<'_>, method: &mut Method<A>) -> Result<Outcome<A>, Error>
    ensures ok { IfOk result (λ outcome. Comes (seen due.entry) method.old (shown outcome) method.new) }
    ensures memory { IfErr result (WantsMemory A.Lacks) }
{
    match due {
        Due::Idle => Ok(Outcome::Ignored),
        Due::Encrypts => Ok(Outcome::Unencrypted),
        Due::Cancels => Ok(Outcome::Cancelled),
        Due::Starts => Ok(Outcome::Begun),
        Due::Asks => Ok(Outcome::Requested),
        Due::Ends => Ok(Outcome::Ended),
        Due::Misplaced => Ok(Outcome::Denied(Denial::Violation)),
        Due::Text(text) => take_text(method, text),
        Due::First(mechanism, text) => take_first(method, mechanism, text),
        Due::Final(text) => take_final(method, text),
    }
}

/// A password message came.
fn take_text<A: Memory>(method: &Method<A>, text: &[u8]) -> Result<Outcome<A>, Error>
    ensures ok { IfOk result (λ outcome. Comes (Text text.now) method.now (shown outcome) method.now) }
    ensures memory { IfErr result (WantsMemory A.Lacks) }
{
    match proves(method, text) {
        Ok(true) => Ok(Outcome::Welcome),
        Ok(false) => Ok(Outcome::Denied(Denial::WrongPassword)),
        Err(e) => Err(e),
    }
}

/// Whether the text is what was asked for.
fn proves<A: Memory>(method: &Method<A>, text: &[u8]) -> Result<bool, Error>
    ensures ok { IfOk result (λ yes. Decides yes (Proves method.now text.now)) }
    ensures memory { IfErr result (WantsMemory A.Lacks) }
{
    match method {
        Method::Password(stored) => {
            check::scram_sha_256(*stored.salt.allocator(), text, stored, &NoPrep)
        }
        Method::Md5 { salt, stored } => Ok(check::md5_answer(text, *salt, stored)),
        Method::Nothing => Ok(false),
        Method::Exchange(_) => Ok(false),
    }
}

/// The first message of an exchange came.
fn take_first<A: Memory>(
    method: &mut Method<A>,
    mechanism: &[u8],
    text: &[u8],
) -> Result<Outcome<A>, Error>
    ensures ok { IfOk result (λ outcome. Comes (First mechanism.now text.now) method.old (shown outcome) method.new) }
    ensures memory { IfErr result (WantsMemory A.Lacks) }
{
    if mechanism != SCRAM_SHA_256.as_bytes() {
        return Ok(Outcome::Denied(Denial::Violation));
    }
    match answer_first(method, text) {
        Ok(Some(answer)) => Ok(Outcome::Challenge(answer)),
        Ok(None) => Ok(Outcome::Denied(Denial::Violation)),
        Err(e) => Err(e),
    }
}

/// The answer to the client's first text; `None` where the exchange rejects it.
fn answer_first<A: Memory>(method: &mut Method<A>, text: &[u8]) -> Result<Option<Vec<u8, A>>, Error>
    ensures ok { IfOk result (λ answer. GoesOn method.old text.now (option_map (λ text. text.items) answer) method.new) }
    ensures memory { IfErr result (WantsMemory A.Lacks) }
{
    let Method::Exchange(exchange) = method else {
        return Ok(None);
    };
    match exchange.first(text) {
        Ok(answer) => Ok(Some(answer)),
        Err(ServerError::OutOfMemory) => Err(Error::OutOfMemory),
        Err(_) => Ok(None),
    }
}

/// The final message of an exchange came.
fn take_final<A: Memory>(method: &mut Method<A>, text: &[u8]) -> Result<Outcome<A>, Error>
    ensures ok { IfOk result (λ outcome. Comes (Final text.now) method.old (shown outcome) method.new) }
    ensures memory { IfErr result (WantsMemory A.Lacks) }
{
    let Method::Exchange(exchange) = method else {
        return Ok(Outcome::Denied(Denial::WrongPassword));
    };
    match exchange.finish(text) {
        Ok(answer) => Ok(Outcome::Signed(answer)),
        Err(_) => Ok(Outcome::Denied(Denial::WrongPassword)),
    }
}

pub(crate) fn phase_after<A: Allocator>(outcome: &Outcome<A>) -> ServingPhase
    ensures { result ≡ phase_after (shown outcome.now) }
{
    match outcome {
        Outcome::Unencrypted => ServingPhase::Opening,
        Outcome::Begun => ServingPhase::Named,
        Outcome::Challenge(_) => ServingPhase::AwaitsFinal,
        Outcome::Requested => ServingPhase::Open,
        Outcome::Welcome => ServingPhase::Open,
        Outcome::Signed(_) => ServingPhase::Open,
        Outcome::Ignored => ServingPhase::Over,
        Outcome::Cancelled => ServingPhase::Over,
        Outcome::Ended => ServingPhase::Over,
        Outcome::Denied(_) => ServingPhase::Over,
    }
}

pub(crate) fn event_of<A: Allocator>(outcome: &Outcome<A>) -> ServingEvent
    ensures { result ≡ event_of (shown outcome.now) }
{
    match outcome {
        Outcome::Ignored => ServingEvent::Ignored,
        Outcome::Unencrypted => ServingEvent::Unencrypted,
        Outcome::Cancelled => ServingEvent::Cancelled,
        Outcome::Begun => ServingEvent::Named,
        Outcome::Requested => ServingEvent::Requested,
        Outcome::Ended => ServingEvent::Ended,
        Outcome::Denied(_) => ServingEvent::Refused,
        Outcome::Welcome => ServingEvent::LoggedIn,
        Outcome::Challenge(_) => ServingEvent::Challenged,
        Outcome::Signed(_) => ServingEvent::LoggedIn,
    }
}
