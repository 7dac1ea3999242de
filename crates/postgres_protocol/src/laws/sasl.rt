//! A whole exchange of SCRAM-SHA-256, by the calls of three crates.

ghost use Rattle.std.specs.Prelude.{◌≡◌, None, Ok, IfSome, IfOk, IfErr, OnOk, OnErr};
ghost use Rattle.pgp_base.specs.Held.{IsFrontOf};
ghost use Rattle.pgp_auth.specs.ScramClient.{Begun, AwaitsFirst};
ghost use Rattle.pgp_message.specs.BackendMessage.{Authentication, AuthenticationSaslContinue, AuthenticationSaslFinal};
ghost use Rattle.pgp_message.specs.Stream.{TakesFrame};
ghost use Rattle.pgp_message.specs.Views.{view};
ghost use Rattle.postgres_protocol.specs.SaslExchange.{Exchanged, GivesNone, IsNoContinue, IsNoFinal, Stopped};

use bytes::{Bytes, BytesMut};
use pgp_auth::authentication::sasl::{ScramError, ScramSha256};
use pgp_base::{Buffer, Error, Memory};
use pgp_frontend as frontend;
use pgp_message::{AuthenticationSaslContinueBody, AuthenticationSaslFinalBody, Message};
use std::alloc::{Allocator, Global};

/// Why an exchange went no further.
#[derive(Debug, Drop)]
pub enum SaslRefusal<A: Allocator = Global> {
    /// A message couldn't be written or read.
    Message(Error),
    /// No complete message came, or another one.
    Unexpected,
    /// The exchange rejected a text.
    Scram(ScramError<A>),
}

/// Passes the texts between the messages and the exchange: the client's first text to `out`, the server's
/// first text from the front of `server_first`, the client's final text to `out`, and the server's final
/// text from the front of `server_final`.
///
/// # Errors
///
/// Returns `Message` if a writer rejects a text or `Message::parse` the front of a buffer, `Unexpected` if no
/// complete message stands there or another one than is due, and `Scram` if `update` or `finish` rejects a text.
/// What was written and taken off before stays so, and `out` keeps what it held in front of it.
#[tactic(auto, using(pgp_base::proofs::Parts::held_steps))]
pub fn sasl_exchange<A: Memory, B: Buffer>(
    client: &mut ScramSha256<A>,
    mechanism: &str,
    server_first: &mut BytesMut<A>,
    server_final: &mut BytesMut<A>,
    out: &mut B,
) -> Result<(), SaslRefusal<A>>
    requires { (begun : Begun) × (client.old.state ≡ AwaitsFirst begun) }
    ensures done { OnOk result (Exchanged mechanism.now client.old client.new
        server_first.old.items server_first.new.items server_final.old.items server_final.new.items
        (B.held out.old) (B.held out.new)) }
    ensures front { OnErr result (IsFrontOf (B.held out.old) (B.held out.new)) }
    ensures refused { IfErr result (λ e. Stopped A.Lacks B.Lacks mechanism.now client.old client.new
        server_first.old.items server_first.new.items server_final.old.items server_final.new.items
        (B.held out.old) (B.held out.new) e) }
{
    let Some(first) = client.message() else {
        return Err(SaslRefusal::Unexpected);
    };
    if let Err(e) = frontend::sasl_initial_response(mechanism, first, out) {
        return Err(SaslRefusal::Message(e));
    }
    let challenge = challenge_of(server_first)?;
    if let Err(e) = client.update(challenge.data()) {
        return Err(SaslRefusal::Scram(e));
    }
    let Some(answer) = client.message() else {
        return Err(SaslRefusal::Unexpected);
    };
    if let Err(e) = frontend::sasl_response(answer, out) {
        return Err(SaslRefusal::Message(e));
    }
    let outcome = outcome_of(server_final)?;
    if let Err(e) = client.finish(outcome.data()) {
        return Err(SaslRefusal::Scram(e));
    }
    Ok(())
}

/// The server's first text, whose message is taken off the buffer.
fn challenge_of<A: Memory>(
    buf: &mut BytesMut<A>,
) -> Result<AuthenticationSaslContinueBody<Bytes<A>>, SaslRefusal<A>>
    ensures taken { IfOk result (λ text. TakesFrame buf.old.items (Ok (Authentication (AuthenticationSaslContinue text))) buf.new.items) }
    ensures refused { IfErr result (λ e. GivesNone A.Lacks IsNoContinue buf.old.items buf.new.items e) }
{
    match Message::parse(buf) {
        Ok(Some(message)) => match challenge_in(message) {
            Some(body) => Ok(body),
            None => Err(SaslRefusal::Unexpected),
        },
        Ok(None) => Err(SaslRefusal::Unexpected),
        Err(e) => Err(SaslRefusal::Message(e)),
    }
}

/// The server's first text, where the message has one.
fn challenge_in<A: Allocator + Copy>(
    message: Message<Bytes<A>>,
) -> Option<AuthenticationSaslContinueBody<Bytes<A>>>
    ensures taken { IfSome result (λ text. view message ≡ Authentication (AuthenticationSaslContinue text)) }
    ensures other { result ≡ None → IsNoContinue (view message) }
{
    match message {
        Message::AuthenticationSaslContinue(body) => Some(body),
        other => {
            drop(other);
            None
        }
    }
}

/// The server's final text, whose message is taken off the buffer.
fn outcome_of<A: Memory>(
    buf: &mut BytesMut<A>,
) -> Result<AuthenticationSaslFinalBody<Bytes<A>>, SaslRefusal<A>>
    ensures taken { IfOk result (λ text. TakesFrame buf.old.items (Ok (Authentication (AuthenticationSaslFinal text))) buf.new.items) }
    ensures refused { IfErr result (λ e. GivesNone A.Lacks IsNoFinal buf.old.items buf.new.items e) }
{
    match Message::parse(buf) {
        Ok(Some(message)) => match outcome_in(message) {
            Some(body) => Ok(body),
            None => Err(SaslRefusal::Unexpected),
        },
        Ok(None) => Err(SaslRefusal::Unexpected),
        Err(e) => Err(SaslRefusal::Message(e)),
    }
}

/// The server's final text, where the message has one.
fn outcome_in<A: Allocator + Copy>(
    message: Message<Bytes<A>>,
) -> Option<AuthenticationSaslFinalBody<Bytes<A>>>
    ensures taken { IfSome result (λ text. view message ≡ Authentication (AuthenticationSaslFinal text)) }
    ensures other { result ≡ None → IsNoFinal (view message) }
{
    match message {
        Message::AuthenticationSaslFinal(body) => Some(body),
        other => {
            drop(other);
            None
        }
    }
}
