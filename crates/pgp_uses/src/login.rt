//! A log-in with SCRAM-SHA-256, a verifier, and texts in an SQL command.

ghost use Rattle.std.specs.Prelude.{◌≡◌, ◌⊎◌, string_bytes, IfOk, IfErr, OnOk, OnErr};
ghost use Rattle.rand_core.specs.Stream.{fill_bytes};
ghost use Rattle.pgp_base.specs.Cause.{WantsMemory};
ghost use Rattle.pgp_base.specs.Held.{Leaves};
ghost use Rattle.pgp_auth.specs.Nonce.{drawn_chars};
ghost use Rattle.pgp_auth.specs.Prepared.{MappingLacks, prepared};
ghost use Rattle.pgp_auth.specs.ScramClient.{Answers, fresh};
ghost use Rattle.pgp_auth.specs.ScramText.{Unsupported, client_first};
ghost use Rattle.pgp_auth.specs.Verifier.{verifier, verifier_text};
ghost use Rattle.pgp_frontend.specs.ClientMessage.{SaslResponse};
ghost use Rattle.pgp_saslprep.specs.SaslPrep.{prepared_bytes};
ghost use Rattle.pgp_uses.specs.Login.{Sends, BeginRefused, RespondRefused, IsSetPassword, IsComparison};
ghost use Rattle.pgp_session.specs.Serving.{first_message, unmapped};

use pgp_base::{Buffer, Memory};
use pgp_saslprep::SaslPrepRfc4013;
use postgres_protocol::authentication::sasl::{
    ChannelBinding, NoPrep, SCRAM_SHA_256, SaslPrep, ScramError, ScramSha256,
};
use postgres_protocol::escape::{escape_identifier, escape_literal};
use postgres_protocol::message::frontend;
use postgres_protocol::{Error, password};
use rand_core::Rng;
use std::alloc::{Allocator, Global};

/// Why a step of a log-in was rejected.
#[derive(Debug, Drop)]
pub enum LoginError<A: Allocator = Global> {
    /// The message couldn't be written.
    Message(Error),
    /// The exchange rejected the server's text, or lacked memory for its own.
    Scram(ScramError<A>),
    /// The exchange has nothing to send: it is over.
    Over,
}

// Begins a log-in with a password that is mapped so.
fn begin_with<A: Memory, P: SaslPrep, R: Rng, B: Buffer>(
    alloc: A,
    password: &[u8],
    prep: &P,
    rng: &mut R,
    out: &mut B,
) -> Result<ScramSha256<A>, LoginError<A>>
    ensures client { let nonce = (drawn_chars 24 (R.stream rng.old)).0 in
        IfOk result (λ client. client ≡ fresh (prepared (P.mapping prep.now) password.now) Unsupported nonce) }
    ensures sent { IfOk result (λ client. Sends first_message client (B.held out.old) (B.held out.new)) }
    ensures kept { OnErr result (Leaves (B.held out.old) (B.held out.new)) }
    ensures refused { let nonce = (drawn_chars 24 (R.stream rng.old)).0 in
        IfErr result (BeginRefused (first_message (client_first Unsupported nonce)) (A.Lacks ⊎ MappingLacks P.Lacks password.now) B.Lacks (B.held out.old)) }
    ensures drawn { R.stream rng.new ≡ (drawn_chars 24 (R.stream rng.old)).1 }
{
    let binding = ChannelBinding::unsupported();
    let client = match ScramSha256::new(alloc, password, binding, prep, rng) {
        Ok(client) => client,
        Err(e) => return Err(LoginError::Scram(e)),
    };
    let Some(first) = client.message() else {
        return Err(LoginError::Over);
    };
    match frontend::sasl_initial_response(SCRAM_SHA_256, first, out) {
        Ok(()) => Ok(client),
        Err(e) => Err(LoginError::Message(e)),
    }
}

/// Begins a log-in, where a server offers SCRAM-SHA-256: the client's first text is sent, with a nonce that the
/// generator draws. The password is used as it is, which is right where it is ASCII.
///
/// # Errors
///
/// Returns `Scram` of `OutOfMemory` if memory for the exchange can't be allocated, and `Message` if the buffer's
/// growth is.
pub fn begin<A: Memory, R: Rng, B: Buffer>(
    alloc: A,
    password: &[u8],
    rng: &mut R,
    out: &mut B,
) -> Result<ScramSha256<A>, LoginError<A>>
    ensures client { let nonce = (drawn_chars 24 (R.stream rng.old)).0 in
        IfOk result (λ client. client ≡ fresh (unmapped password.now) Unsupported nonce) }
    ensures sent { IfOk result (λ client. Sends first_message client (B.held out.old) (B.held out.new)) }
    ensures kept { OnErr result (Leaves (B.held out.old) (B.held out.new)) }
    ensures refused { let nonce = (drawn_chars 24 (R.stream rng.old)).0 in
        IfErr result (BeginRefused (first_message (client_first Unsupported nonce)) A.Lacks B.Lacks (B.held out.old)) }
    ensures drawn { R.stream rng.new ≡ (drawn_chars 24 (R.stream rng.old)).1 }
{
    begin_with(alloc, password, &NoPrep, rng, out)
}

/// Begins a log-in as `begin` does, of any password: SASLprep prepares it, as the server did when the password was set.
///
/// # Errors
///
/// Returns `Scram` of `OutOfMemory` if memory for the exchange, or for the normal form, can't be allocated, and
/// `Message` if the buffer's growth is.
pub fn begin_prepared<A: Memory, R: Rng, B: Buffer>(
    alloc: A,
    password: &[u8],
    prep: &SaslPrepRfc4013,
    rng: &mut R,
    out: &mut B,
) -> Result<ScramSha256<A>, LoginError<A>>
    ensures client { let nonce = (drawn_chars 24 (R.stream rng.old)).0 in
        IfOk result (λ client. client ≡ fresh (prepared prepared_bytes password.now) Unsupported nonce) }
    ensures sent { IfOk result (λ client. Sends first_message client (B.held out.old) (B.held out.new)) }
    ensures kept { OnErr result (Leaves (B.held out.old) (B.held out.new)) }
    ensures refused { let nonce = (drawn_chars 24 (R.stream rng.old)).0 in
        IfErr result (BeginRefused (first_message (client_first Unsupported nonce)) (A.Lacks ⊎ Unit {0}) B.Lacks (B.held out.old)) }
    ensures drawn { R.stream rng.new ≡ (drawn_chars 24 (R.stream rng.old)).1 }
{
    begin_with(alloc, password, prep, rng, out)
}

/// Answers the server's first text (`AuthenticationSaslContinue`): the client's final text is sent. A server that
/// holds the password's verifier accepts it. What the server then says, `AuthenticationSaslFinal`, goes to
/// `ScramSha256::finish`.
///
/// # Errors
///
/// Returns `Scram` if the text is rejected, and `Message` if the buffer can't grow.
pub fn respond<A: Memory, B: Buffer>(
    challenge: &[u8],
    client: &mut ScramSha256<A>,
    out: &mut B,
) -> Result<(), LoginError<A>>
    ensures answers { OnOk result (Answers client.old challenge.now client.new) }
    ensures sent { OnOk result (Sends SaslResponse client.new (B.held out.old) (B.held out.new)) }
    ensures kept { OnErr result (Leaves (B.held out.old) (B.held out.new)) }
    ensures refused { IfErr result (RespondRefused client.old challenge.now client.new A.Lacks B.Lacks (B.held out.old)) }
{
    if let Err(e) = client.update(challenge) {
        return Err(LoginError::Scram(e));
    }
    let Some(answer) = client.message() else {
        return Err(LoginError::Over);
    };
    match frontend::sasl_response(answer, out) {
        Ok(()) => Ok(()),
        Err(e) => Err(LoginError::Message(e)),
    }
}

/// The command that gives a user a new password, which it has as a verifier alone. The salt is the generator's.
///
/// # Errors
///
/// Returns `OutOfMemory`.
pub fn set_password<A: Memory, R: Rng>(
    alloc: A,
    user: &str,
    password: &[u8],
    rng: &mut R,
) -> Result<String<A>, Error>
    ensures command { let salt = (fill_bytes 16 (R.stream rng.old)).0 in
        IfOk result (λ t. IsSetPassword user.now (verifier_text (verifier (unmapped password.now) salt 4096)) (string_bytes t)) }
    ensures drawn { R.stream rng.new ≡ (fill_bytes 16 (R.stream rng.old)).1 }
    ensures err { IfErr result (WantsMemory A.Lacks) }
{
    let verifier = password::scram_sha_256(alloc, password, &NoPrep, rng)?;
    let mut text = A::text_of(alloc, "ALTER USER ")?;
    A::push_str(&mut text, &escape_identifier(alloc, user)?)?;
    A::push_str(&mut text, " PASSWORD ")?;
    A::push_str(&mut text, &escape_literal(alloc, &verifier)?)?;
    Ok(text)
}

/// A comparison of a column with a text, as a part of a command.
///
/// # Errors
///
/// Returns `OutOfMemory`.
pub fn equals<A: Memory>(alloc: A, column: &str, value: &str) -> Result<String<A>, Error>
    ensures text { IfOk result (λ t. IsComparison column.now value.now (string_bytes t)) }
    ensures err { IfErr result (WantsMemory A.Lacks) }
{
    let mut text = escape_identifier(alloc, column)?;
    A::push_str(&mut text, " = ")?;
    A::push_str(&mut text, &escape_literal(alloc, value)?)?;
    Ok(text)
}
