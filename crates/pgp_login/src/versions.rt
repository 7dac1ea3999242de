//! Which versions of the protocol a client asks for, and which one is spoken.

ghost use Rattle.std.specs.Prelude.{◌≡◌};
ghost use Rattle.pgp_message.specs.Views.{view};
ghost use Rattle.pgp_login.specs.Versions.{answered, is_admitted, newer, newest, spoken, version_of};

use crate::storage::LoginStorage;
use pgp_frontend::ProtocolVersion;
use pgp_message::{Message, NegotiateProtocolVersionBody};

/// The versions of the protocol that a client asks for.
#[derive(Debug, Clone, Copy, PartialEq, Eq)]
pub enum Versions {
    /// 3.0.
    Only3_0,
    /// 3.2, or 3.0 where the server speaks no other.
    UpTo3_2,
    /// 3.2, and none before it.
    Only3_2,
}

impl Versions {
    /// The version of the startup packet: the newest of them.
    pub fn newest(self) -> ProtocolVersion
        ensures { result ≡ newest self }
    {
        match self {
            Versions::Only3_0 => ProtocolVersion::V3_0,
            Versions::UpTo3_2 | Versions::Only3_2 => ProtocolVersion::V3_2,
        }
    }

    /// Whether this one may be spoken.
    pub(crate) fn admit(self, version: ProtocolVersion) -> bool
        ensures { result ≡ is_admitted self version }
    {
        match self {
            Versions::Only3_0 => version == ProtocolVersion::V3_0,
            Versions::UpTo3_2 => true,
            Versions::Only3_2 => version == ProtocolVersion::V3_2,
        }
    }

    /// The version that is spoken, where the server has answered this, if anything.
    pub fn spoken(self, answered: Option<ProtocolVersion>) -> ProtocolVersion
        ensures { result ≡ spoken self answered }
    {
        match answered {
            Some(version) => version,
            None => self.newest(),
        }
    }
}

/// What the server has answered about versions, with this message.
pub fn version_after<S: LoginStorage>(
    before: Option<ProtocolVersion>,
    message: &Message<S>,
) -> Option<ProtocolVersion>
    ensures { result ≡ newer before (answered (view message.now)) }
{
    match answered(message) {
        Some(version) => Some(version),
        None => before,
    }
}

/// The version that a message answers: that of a NegotiateProtocolVersion.
fn answered<S: LoginStorage>(message: &Message<S>) -> Option<ProtocolVersion>
    ensures { result ≡ answered (view message.now) }
{
    match message {
        Message::NegotiateProtocolVersion(answer) => version_in(answer),
        _ => None,
    }
}

/// The version of this answer.
pub(crate) fn version_in<S: LoginStorage>(
    answer: &NegotiateProtocolVersionBody<S>,
) -> Option<ProtocolVersion>
    ensures { result ≡ version_of answer.now.version }
{
    version_of(answer.version())
}

/// The version of this number.
fn version_of(number: i32) -> Option<ProtocolVersion>
    ensures { result ≡ version_of number }
{
    if number == 196_608 {
        return Some(ProtocolVersion::V3_0);
    }
    if number == 196_610 {
        return Some(ProtocolVersion::V3_2);
    }
    None
}
