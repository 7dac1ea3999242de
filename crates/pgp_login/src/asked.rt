//! What a server's message asks of a client that logs in, and which mechanisms it offers.

ghost use Rattle.std.specs.Prelude.{◌≡◌, true, false};
ghost use Rattle.pgp_message.specs.Views.{view};
ghost use Rattle.pgp_login.specs.Login.{IsUnbound, is_asked, reported};
ghost use Rattle.pgp_login.specs.Machine.{Lists, asking, is_due};

use crate::login::LoginPhase;
use crate::storage::LoginStorage;
use pgp_message::{AuthenticationSaslBody, Message};

/// What a message asks of a client that logs in.
#[derive(Drop)]
pub(crate) enum Asked<'m, S: LoginStorage> {
    /// It is none of the log-in's.
    Nothing,
    Cleartext,
    Md5([u8; 4]),
    Sasl(&'m AuthenticationSaslBody<S>),
    First(&'m [u8]),
    Final(&'m [u8]),
    Welcome,
    /// A way that no client here has.
    Other,
}

/// What the message asks.
pub(crate) fn asked_by<'m, S: LoginStorage>(message: &'m Message<S>) -> Asked<'m, S>
    ensures { reported result ≡ asking (view message.now) }
{
    match message {
        Message::AuthenticationOk => Asked::Welcome,
        Message::AuthenticationCleartextPassword => Asked::Cleartext,
        Message::AuthenticationMd5Password(body) => Asked::Md5(body.salt()),
        Message::AuthenticationSasl(body) => Asked::Sasl(body),
        Message::AuthenticationSaslContinue(body) => Asked::First(S::challenge(body)),
        Message::AuthenticationSaslFinal(body) => Asked::Final(S::outcome(body)),
        Message::AuthenticationKerberosV5
        | Message::AuthenticationScmCredential
        | Message::AuthenticationGss
        | Message::AuthenticationGssContinue(_)
        | Message::AuthenticationSspi => Asked::Other,
        _ => Asked::Nothing,
    }
}

/// Whether the message asks anything of a client that logs in.
pub(crate) fn is_asked<S: LoginStorage>(message: &Message<S>) -> bool
    ensures { result ≡ is_asked (asking (view message.now)) }
{
    match asked_by(message) {
        Asked::Nothing => false,
        _ => true,
    }
}

/// Whether it is due in the phase.
pub(crate) fn is_due<S: LoginStorage>(phase: LoginPhase, asked: &Asked<'_, S>) -> bool
    ensures { result ≡ is_due phase (reported asked.now) }
{
    match asked {
        Asked::Nothing => true,
        Asked::Cleartext | Asked::Md5(_) | Asked::Sasl(_) | Asked::Other => {
            phase == LoginPhase::AwaitsOffer
        }
        Asked::First(_) => phase == LoginPhase::AwaitsFirst,
        Asked::Final(_) => phase == LoginPhase::AwaitsFinal,
        Asked::Welcome => phase == LoginPhase::AwaitsOffer || phase == LoginPhase::AwaitsOk,
    }
}

/// Whether the server offers to bind an exchange to the channel, where the connection isn't encrypted and this exchange isn't bound.
pub(crate) fn is_stripped<S: LoginStorage>(
    encrypted: bool,
    bound: bool,
    body: &AuthenticationSaslBody<S>,
) -> bool
    ensures yes { result ≡ true → IsUnbound encrypted bound body.now }
    ensures no { result ≡ false → IsUnbound encrypted bound body.now → ⊥ }
{
    if encrypted || bound {
        return false;
    }
    lists(body, "SCRAM-SHA-256-PLUS")
}

/// Whether this is one of the mechanisms, whose list ends well.
pub(crate) fn lists<S: LoginStorage>(body: &AuthenticationSaslBody<S>, sought: &str) -> bool
    ensures yes { result ≡ true → Lists sought.now body.now }
    ensures no { result ≡ false → Lists sought.now body.now → ⊥ }
{
    pgp_message::laws::one_list_of_mechanisms();
    S::mechanisms(body).offer(sought)
}
