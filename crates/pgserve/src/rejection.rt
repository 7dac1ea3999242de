//! Why a client isn't let in, in PostgreSQL's words: those of its auth.c and auth-scram.c.

use crate::asked::{Refusal, malformed, violation};
use pgp_auth::authentication::sasl::SCRAM_SHA_256;
use pgp_frontend_read::ClientMessage;

/// The characters of a proof, which is base64 of 32 bytes.
const PROOF: usize = 44;

/// The text of these bytes; empty where they are none.
fn text_of(bytes: &[u8]) -> &str {
    str::from_utf8(bytes).unwrap_or("")
}

/// Why the first text of an exchange isn't taken.
fn of_first<'a>(mechanism: &[u8], text: Option<&[u8]>, is_bound: bool) -> Refusal<'a> {
    let text = text_of(text.unwrap_or(&[]));
    if mechanism != SCRAM_SHA_256.as_bytes() {
        return violation("client selected an invalid SASL authentication mechanism");
    }
    if is_bound && text.starts_with('y') {
        return Refusal::new("28000", "SCRAM channel binding negotiation error");
    }
    let unbound = text.strip_prefix('n').or(text.strip_prefix('y'));
    let bare = unbound.unwrap_or("");
    match bare.split_once(",r=") {
        _ if bare.starts_with(",a=") => {
            let message = "client uses authorization identity, but it is not supported";
            Refusal::new("0A000", message)
        }
        _ if bare.starts_with(",,m=") => {
            Refusal::new("0A000", "client requires an unsupported SCRAM extension")
        }
        Some((_, nonce)) if nonce.contains(' ') => violation(
            "non-printable characters in SCRAM nonce",
        ),
        _ => violation("malformed SCRAM message"),
    }
}

/// The channel's data, the nonce and the proof of the final text of an exchange.
fn split_final(text: &str) -> Option<(&str, &str, &str)> {
    let (binding, rest) = text.strip_prefix("c=")?.split_once(",r=")?;
    let (nonce, proof) = rest.split_once(",p=")?;
    Some((binding, nonce, proof))
}

/// Why the final text isn't taken.
fn of_final<'a>(text: &[u8], user: &'a [u8], nonce: &str, is_bound: bool) -> Refusal<'a> {
    let Some((binding, both, proof)) = split_final(text_of(text)) else {
        return violation("malformed SCRAM message");
    };
    if !is_bound && binding != "biws" && binding != "eSws" {
        return violation("unexpected SCRAM channel-binding attribute in client-final-message");
    }
    if proof.len() != PROOF {
        return violation("malformed SCRAM message");
    }
    if both.ends_with(nonce) {
        return wrong_password(user);
    }
    violation("invalid SCRAM response")
}

fn wrong_password(user: &[u8]) -> Refusal<'_> {
    Refusal::of(
        "28P01",
        "password authentication failed for user \"",
        user,
        "\"",
    )
}

/// Why this message of a user isn't taken, of whom the server's part of the nonce is this, and to whom a binding is offered or not.
pub(crate) fn rejection<'a>(
    message: &ClientMessage<'_>,
    user: &'a [u8],
    nonce: &str,
    is_bound: bool,
) -> Refusal<'a> {
    match message {
        ClientMessage::PasswordMessage(b"") => {
            return Refusal::new("28P01", "empty password returned by client");
        }
        ClientMessage::PasswordMessage(_) => return wrong_password(user),
        ClientMessage::SaslInitialResponse {
            mechanism,
            response,
        } => return of_first(mechanism, *response, is_bound),
        ClientMessage::SaslResponse(text) => return of_final(text, user, nonce, is_bound),
        _ => {}
    }
    malformed()
}
