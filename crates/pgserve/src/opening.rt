//! What a startup packet asks for.
//!
//! PostgreSQL manual, "Message Flow", "Start-up"; NegotiateProtocolVersion of "Message Formats".

use crate::fault::Fault;
use crate::outbox::{Outbox, push};
use pgp_frontend_read::ClientMessage;
use pgp_session::ProtocolVersion;
use pgp_session::serving::answer_versions;

/// What a startup packet asks for.
#[derive(Drop)]
pub(crate) struct Opening<'m> {
    pub(crate) user: Option<&'m [u8]>,
    pub(crate) settings: Vec<(&'m [u8], &'m [u8])>,
    /// Options of the protocol, of which this server knows none.
    unknown: Vec<&'m [u8]>,
}

/// The minor version that a startup packet asks for; 0 of another message.
pub(crate) fn minor_of(message: &ClientMessage<'_>) -> u16 {
    match message {
        ClientMessage::Startup { minor, .. } => *minor,
        _ => 0,
    }
}

impl<'m> Opening<'m> {
    /// Adds what a name and its value say.
    fn add(&mut self, name: &'m [u8], value: &'m [u8], out: &mut Outbox) {
        if name.starts_with(b"_pq_.") {
            out.add(&mut self.unknown, name);
        } else if name == b"user".as_slice() {
            self.user = Some(value);
        } else if !IS_NO_SETTING.contains(&name) {
            out.keep(push(&mut self.settings, (name, value)));
        }
    }

    /// Appends which version of the protocol is spoken, and which options aren't known, unless the client has what it asks for. Returns whether that is 3.2.
    pub(crate) fn negotiate(&self, minor: u16, out: &mut Outbox) -> bool {
        match answer_versions(minor, &self.unknown, &mut out.bytes) {
            Ok(version) => version == ProtocolVersion::V3_2,
            Err(why) => {
                out.fail(Fault::from(why));
                false
            }
        }
    }
}

/// Names in a startup packet that are no settings, beside the user's.
static IS_NO_SETTING: [&[u8]; 3] = [b"database", b"options", b"replication"];

/// What the startup packet asks for; nothing of another message.
pub(crate) fn opening_of<'m>(message: &mut ClientMessage<'m>, out: &mut Outbox) -> Opening<'m> {
    let mut opening = Opening {
        user: None,
        settings: Vec::new(out.alloc),
        unknown: Vec::new(out.alloc),
    };
    if let ClientMessage::Startup { parameters, .. } = message {
        let pairs = out.listed(parameters);
        for (name, value) in &pairs {
            opening.add(name, value, out);
        }
    }
    opening
}
