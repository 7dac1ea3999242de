//! What a client sends, read where it stands.

ghost use Rattle.std.specs.Prelude.{option_map};
ghost use Rattle.pgp_uses.specs.Reading.{FrontQuery};

use postgres_protocol::message::client::{ClientMessage, ClientMessages, PasswordKind};

/// The text of the query at the front of what a client sends after its startup packet, read where it stands, and the
/// bytes after it; `None` where no whole query stands there.
pub fn front_query(bytes: &[u8]) -> Option<(&[u8], &[u8])>
    ensures { FrontQuery bytes.now (option_map (λ front. (front.0.now, front.1.now)) result) }
{
    let mut messages = ClientMessages::resume(bytes, true);
    match messages.next(PasswordKind::Password) {
        Ok(Some(ClientMessage::Query(text))) => Some((text, messages.rest())),
        _ => None,
    }
}
