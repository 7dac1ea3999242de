//! The log-in of a client: by which ways it lets itself be asked, and what each message of the server comes to.

ghost use Rattle.std.specs.Prelude.{◌≡◌, IfErr, OnErr, OnOk};
ghost use Rattle.pgp_auth.specs.Md5Text.{md5_answer};
ghost use Rattle.pgp_frontend.specs.ClientMessage.{PasswordMessage};
ghost use Rattle.pgp_message.specs.Views.{view};
ghost use Rattle.pgp_login.specs.Fault.{fault};
ghost use Rattle.pgp_login.specs.Login.{AnswersFirst, AsksCleartext, AsksMd5, AsksSasl, CountsFirst, DeclinesSo, Hears, Puts, Simulates, VerifiesFinal, WelcomesAt, kept};
ghost use Rattle.pgp_login.specs.Machine.{asking};

use crate::asked::{Asked, asked_by, is_due, is_stripped, lists};
use crate::exchange::{Exchange, mechanism, put};
use crate::fault::LoginError;
use crate::storage::LoginStorage;
use bytes::BytesMut;
use pgp_auth::authentication::md5_hash;
use pgp_auth::authentication::sasl::asks_fewer;
use pgp_base::{Error, Memory};
use pgp_frontend_read::ClientMessage;
use pgp_message::{AuthenticationSaslBody, Message};

/// The ways of logging in that are admitted, each with what it needs. A server that asks for another gets nothing.
#[derive(Drop)]
pub struct Ways<'a, E> {
    /// SCRAM-SHA-256 by this exchange, or SCRAM-SHA-256-PLUS where that is bound to the channel. One that may not begin admits nothing.
    pub scram: Option<E>,
    /// MD5, by a user and a password.
    pub md5: Option<(&'a [u8], &'a [u8])>,
    /// This password in clear text.
    pub cleartext: Option<&'a [u8]>,
    /// Whether the server may let the client in without a password.
    pub none: bool,
    /// The least rounds of an exchange (RFC 7677 wants 4096; libpq takes any). 0 is taken for 1: RFC 8018 has no key of no rounds, so a server
    /// that asks for 0 is rejected.
    pub least_rounds: u32,
    /// Whether the connection is encrypted, as by TLS from its first byte; a `Connection` adds what the server answers to `request_encryption`. On one that isn't, a server
    /// that offers to bind the exchange to the channel ends it, unless the exchange is bound: encryption may have been taken away on the way.
    pub encrypted: bool,
}

/// How far a log-in is.
#[derive(Clone, Copy, PartialEq, Eq)]
pub enum LoginPhase {
    /// A way is to be asked for.
    AwaitsOffer,
    /// The exchange has begun.
    AwaitsFirst,
    /// The server's first text is answered.
    AwaitsFinal,
    /// All that was asked for is answered, and the server's signature was shown if an exchange was begun.
    AwaitsOk,
    Done,
    /// Nothing is due any more.
    Failed,
}

/// A log-in.
#[derive(Drop)]
pub struct Login<'a, E> {
    pub phase: LoginPhase,
    pub ways: Ways<'a, E>,
}

/// Takes a message of the server, and appends the reply if there is one. On error nothing is appended, and the log-in has failed.
pub fn hear<A: Memory, E: Exchange<A>, S: LoginStorage>(
    alloc: A,
    login: &mut Login<'_, E>,
    message: &Message<S>,
    out: &mut BytesMut<A>,
) -> Result<(), LoginError<A>>
    ensures follows { OnOk result (Simulates (asking (view message.now)) (kept E.shown login.old) (kept E.shown login.new) out.old.items out.new.items) }
    ensures declines { IfErr result (λ e. DeclinesSo A.Lacks (asking (view message.now)) (kept E.shown login.old) (fault e)) }
    ensures kept { OnErr result (out.new.items ≡ out.old.items) }
    ensures phase { OnErr result (login.new.phase ≡ login.old.phase) }
{
    heard(alloc, login, message, out)
}

fn heard<A: Memory, E: Exchange<A>, S: LoginStorage>(
    alloc: A,
    login: &mut Login<'_, E>,
    message: &Message<S>,
    out: &mut BytesMut<A>,
) -> Result<(), LoginError<A>>
    ensures observed { Hears A.Lacks (asking (view message.now)) (kept E.shown login.old) (kept E.shown login.new) out.old.items out.new.items result }
    ensures kept { OnErr result (out.new.items ≡ out.old.items) }
    ensures phase { OnErr result (login.new.phase ≡ login.old.phase) }
{
    let asked = asked_by(message);
    if !is_due(login.phase, &asked) {
        return Err(LoginError::Undue);
    }
    match asked {
        Asked::Nothing => Ok(()),
        Asked::Cleartext => cleartext(login, out),
        Asked::Md5(salt) => md5(alloc, login, salt, out),
        Asked::Sasl(body) => begin(alloc, login, body, out),
        Asked::First(text) => first(alloc, login, text, out),
        Asked::Final(text) => verify(alloc, login, text),
        Asked::Welcome => welcome(login),
        Asked::Other => Err(LoginError::NotAdmitted),
    }
}

/// The password is asked for in clear text.
fn cleartext<A: Memory, E: Exchange<A>>(
    login: &mut Login<'_, E>,
    out: &mut BytesMut<A>,
) -> Result<(), LoginError<A>>
    ensures observed { AsksCleartext A.Lacks (kept E.shown login.old).cleartext (kept E.shown login.old) (kept E.shown login.new) out.old.items out.new.items result }
    ensures kept { OnErr result (out.new.items ≡ out.old.items) }
    ensures phase { OnErr result (login.new.phase ≡ login.old.phase) }
{
    let Some(password) = login.ways.cleartext else {
        return Err(LoginError::NotAdmitted);
    };
    if let Err(e) = put(&ClientMessage::PasswordMessage(password), out) {
        return Err(LoginError::Unwritten(e));
    }
    login.phase = LoginPhase::AwaitsOk;
    Ok(())
}

/// The password is asked for by MD5.
fn md5<A: Memory, E: Exchange<A>>(
    alloc: A,
    login: &mut Login<'_, E>,
    salt: [u8; 4],
    out: &mut BytesMut<A>,
) -> Result<(), LoginError<A>>
    ensures observed { AsksMd5 A.Lacks (kept E.shown login.old).md5 salt (kept E.shown login.old) (kept E.shown login.new) out.old.items out.new.items result }
    ensures kept { OnErr result (out.new.items ≡ out.old.items) }
    ensures phase { OnErr result (login.new.phase ≡ login.old.phase) }
{
    let Some((user, password)) = login.ways.md5 else {
        return Err(LoginError::NotAdmitted);
    };
    if let Err(e) = put_md5(alloc, user, password, salt, out) {
        return Err(LoginError::Unwritten(e));
    }
    login.phase = LoginPhase::AwaitsOk;
    Ok(())
}

/// The server's mechanisms came: the exchange's first text is sent.
fn begin<A: Memory, E: Exchange<A>, S: LoginStorage>(
    alloc: A,
    login: &mut Login<'_, E>,
    body: &AuthenticationSaslBody<S>,
    out: &mut BytesMut<A>,
) -> Result<(), LoginError<A>>
    ensures observed { AsksSasl A.Lacks (kept E.shown login.old).scram body.now (kept E.shown login.old) (kept E.shown login.new) out.old.items out.new.items result }
    ensures kept { OnErr result (out.new.items ≡ out.old.items) }
    ensures phase { OnErr result (login.new.phase ≡ login.old.phase) }
{
    let Some(exchange) = &login.ways.scram else {
        return Err(LoginError::NotAdmitted);
    };
    let Some(bound) = exchange.is_bound() else {
        return Err(LoginError::NotAdmitted);
    };
    if !lists(body, mechanism(bound)) {
        return Err(LoginError::NotOffered);
    }
    if is_stripped(login.ways.encrypted, bound, body) {
        return Err(LoginError::NotAdmitted);
    }
    match exchange.begin(alloc, out) {
        Ok(()) => {
            login.phase = LoginPhase::AwaitsFirst;
            Ok(())
        }
        Err(e) => Err(e),
    }
}

/// The server's first text came: the exchange's final text is sent, unless it asks for too few rounds.
fn first<A: Memory, E: Exchange<A>>(
    alloc: A,
    login: &mut Login<'_, E>,
    text: &[u8],
    out: &mut BytesMut<A>,
) -> Result<(), LoginError<A>>
    ensures observed { CountsFirst A.Lacks text.now (kept E.shown login.old) (kept E.shown login.new) out.old.items out.new.items result }
    ensures kept { OnErr result (out.new.items ≡ out.old.items) }
    ensures phase { OnErr result (login.new.phase ≡ login.old.phase) }
{
    if asks_fewer(text, login.ways.least_rounds) {
        return Err(LoginError::TooFewRounds);
    }
    reply(alloc, login, text, out)
}

/// The exchange takes the server's first text, and its final text is sent.
fn reply<A: Memory, E: Exchange<A>>(
    alloc: A,
    login: &mut Login<'_, E>,
    text: &[u8],
    out: &mut BytesMut<A>,
) -> Result<(), LoginError<A>>
    ensures observed { AnswersFirst A.Lacks (kept E.shown login.old).scram text.now (kept E.shown login.old) (kept E.shown login.new) out.old.items out.new.items result }
    ensures kept { OnErr result (out.new.items ≡ out.old.items) }
    ensures phase { OnErr result (login.new.phase ≡ login.old.phase) }
{
    let Some(mut exchange) = login.ways.scram.take() else {
        return Err(LoginError::NotAdmitted);
    };
    match exchange.answer(alloc, text, out) {
        Ok(()) => {
            login.ways.scram = Some(exchange);
            login.phase = LoginPhase::AwaitsFinal;
            Ok(())
        }
        Err(e) => Err(e),
    }
}

/// The server's final text came, which has to show its signature.
fn verify<A: Memory, E: Exchange<A>>(
    alloc: A,
    login: &mut Login<'_, E>,
    text: &[u8],
) -> Result<(), LoginError<A>>
    ensures observed { VerifiesFinal A.Lacks (kept E.shown login.old).scram text.now (kept E.shown login.old) (kept E.shown login.new) result }
    ensures phase { OnErr result (login.new.phase ≡ login.old.phase) }
{
    let Some(mut exchange) = login.ways.scram.take() else {
        return Err(LoginError::NotAdmitted);
    };
    match exchange.verify(alloc, text) {
        Ok(()) => {
            login.ways.scram = Some(exchange);
            login.phase = LoginPhase::AwaitsOk;
            Ok(())
        }
        Err(e) => Err(e),
    }
}

/// The server lets the client in.
fn welcome<A: Memory, E: Exchange<A>>(login: &mut Login<'_, E>) -> Result<(), LoginError<A>>
    ensures observed { WelcomesAt (kept E.shown login.old).phase (kept E.shown login.old).none (kept E.shown login.old) (kept E.shown login.new) result }
    ensures phase { OnErr result (login.new.phase ≡ login.old.phase) }
{
    if login.phase == LoginPhase::AwaitsOffer && !login.ways.none {
        return Err(LoginError::NotAdmitted);
    }
    login.phase = LoginPhase::Done;
    Ok(())
}

/// Appends the answer to a request for a password by MD5.
fn put_md5<A: Memory>(
    alloc: A,
    user: &[u8],
    password: &[u8],
    salt: [u8; 4],
    out: &mut BytesMut<A>,
) -> Result<(), Error>
    ensures observed { Puts A.Lacks (PasswordMessage (md5_answer user.now password.now salt)) out.old.items out.new.items result }
    ensures kept { OnErr result (out.new.items ≡ out.old.items) }
{
    match md5_hash(alloc, user, password, salt) {
        Ok(answer) => put(&ClientMessage::PasswordMessage(answer.as_bytes()), out),
        Err(e) => Err(e),
    }
}
