//! What a client's message is in each phase of a server's session.

ghost use Rattle.std.specs.Prelude.{◌≡◌};
ghost use Rattle.pgp_frontend_read.specs.Views.{view};
ghost use Rattle.pgp_session.specs.Serving.{at_final, at_first, at_open, at_opening, at_password, due, seen};

use crate::serving::ServingPhase;
use pgp_frontend_read::ClientMessage;

/// What a message is in a phase.
#[derive(Clone, Copy)]
pub(crate) enum Due<'m> {
    /// The session is over.
    Idle,
    Encrypts,
    Cancels,
    Starts,
    Text(&'m [u8]),
    First(&'m [u8], &'m [u8]),
    Final(&'m [u8]),
    Asks,
    Ends,
    Misplaced,
}

/// What the message is in the phase.
pub(crate) fn due_in<'m>(phase: ServingPhase, message: &ClientMessage<'m>) -> Due<'m>
    ensures { seen result ≡ due phase (view message.now) }
{
    match phase {
        ServingPhase::Opening => at_opening(message),
        ServingPhase::Named => Due::Misplaced,
        ServingPhase::AwaitsPassword => at_password(message),
        ServingPhase::AwaitsFirst => at_first(message),
        ServingPhase::AwaitsFinal => at_final(message),
        ServingPhase::Open => at_open(message),
        ServingPhase::Over => Due::Idle,
    }
}

fn at_opening<'m>(message: &ClientMessage<'m>) -> Due<'m>
    ensures { seen result ≡ at_opening (view message.now) }
{
    match message {
        ClientMessage::SslRequest | ClientMessage::GssEncRequest => Due::Encrypts,
        ClientMessage::CancelRequest { .. } => Due::Cancels,
        ClientMessage::Startup { .. } => Due::Starts,
        _ => Due::Misplaced,
    }
}

fn at_password<'m>(message: &ClientMessage<'m>) -> Due<'m>
    ensures { seen result ≡ at_password (view message.now) }
{
    match message {
        ClientMessage::PasswordMessage(text) => Due::Text(text),
        _ => Due::Misplaced,
    }
}

fn at_first<'m>(message: &ClientMessage<'m>) -> Due<'m>
    ensures { seen result ≡ at_first (view message.now) }
{
    match message {
        ClientMessage::SaslInitialResponse {
            mechanism,
            response: Some(text),
        } => Due::First(mechanism, text),
        _ => Due::Misplaced,
    }
}

fn at_final<'m>(message: &ClientMessage<'m>) -> Due<'m>
    ensures { seen result ≡ at_final (view message.now) }
{
    match message {
        ClientMessage::SaslResponse(text) => Due::Final(text),
        _ => Due::Misplaced,
    }
}

fn at_open<'m>(message: &ClientMessage<'m>) -> Due<'m>
    ensures { seen result ≡ at_open (view message.now) }
{
    match message {
        ClientMessage::Terminate => Due::Ends,
        ClientMessage::PasswordMessage(_)
        | ClientMessage::SaslInitialResponse { .. }
        | ClientMessage::SaslResponse(_)
        | ClientMessage::Startup { .. }
        | ClientMessage::CancelRequest { .. }
        | ClientMessage::SslRequest
        | ClientMessage::GssEncRequest => Due::Misplaced,
        _ => Due::Asks,
    }
}
