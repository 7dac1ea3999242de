//! Which message of tag `p` a row's server expects.

use pgp_frontend_read::{ClientMessage, PasswordKind};

/// Whether a server is given the message's kind.
fn is_reported(message: &ClientMessage<'_>) -> bool {
    match message {
        ClientMessage::PasswordMessage(_) => true,
        ClientMessage::SaslInitialResponse { .. } => true,
        ClientMessage::SaslResponse(_) => true,
        _ => false,
    }
}

/// The kinds of messages of tag `p` that are still expected, in order; after the last of them passwords are.
#[derive(Drop)]
pub struct Kinds<'k> {
    rest: &'k [PasswordKind],
}

impl<'k> Kinds<'k> {
    pub fn new(kinds: &'k [PasswordKind]) -> Kinds<'k> {
        Kinds { rest: kinds }
    }

    /// The kind that is expected next.
    pub fn first(&self) -> PasswordKind {
        self.rest.first().copied().unwrap_or(PasswordKind::Password)
    }

    /// Goes on after a message of tag `p`.
    pub fn pass(&mut self, message: &ClientMessage<'_>) {
        if is_reported(message) {
            self.rest = self.rest.get(1..).unwrap_or(&[]);
        }
    }
}
