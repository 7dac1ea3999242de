//! Which messages may come, and how long they may be, before a log-in is done and after it.

ghost use Rattle.std.specs.Prelude.{◌≡◌, ◌≢◌, ◌⊎◌, ℕ, List, [], length, true, false, None};
ghost use Rattle.std.specs.Bool.{Decides};
ghost use Rattle.std.specs.List.{list_all};
ghost use Rattle.pgp_message.specs.Views.{view};
ghost use Rattle.pgp_login.specs.Versions.{newest};
ghost use Rattle.pgp_login.specs.Timely.{HasKey, IsAnswered, IsTimely, Offered, is_among, limit_of};

use crate::storage::LoginStorage;
use crate::versions::{Versions, version_in};
use pgp_base::FallibleIterator;
use pgp_frontend::ProtocolVersion;
use pgp_message::{Message, NegotiateProtocolVersionBody, RawOptions};

/// How long a message may be of a server that has proved nothing yet, as libpq has it.
const EARLY_LIMIT: u32 = 30_000;

/// What a startup packet asks for, however it is kept.
pub trait Sent {
    ghost offered: { Self → Offered };

    /// The versions that it asks for.
    fn versions(&self) -> Versions
        ensures { result ≡ (offered self.now).versions };

    /// Whether it has a protocol option of this name.
    fn has(&self, name: &[u8]) -> bool
        ensures { result ≡ is_among (offered self.now).options name.now };
}

/// How long a message may be now.
pub fn limit(done: bool, limit: u32) -> u32
    ensures { result ≡ limit_of done limit }
{
    if done {
        return limit;
    }
    limit.min(EARLY_LIMIT)
}

/// Whether the message may come now. `before` is what the server answered about versions.
pub fn is_timely<N: Sent, S: LoginStorage>(
    done: bool,
    before: Option<ProtocolVersion>,
    sent: &N,
    message: &Message<S>,
) -> bool
    ensures { Decides result (IsTimely done before (N.offered sent.now) (view message.now)) }
{
    match message {
        Message::ParameterStatus(_) => done,
        Message::NoticeResponse(_) | Message::NotificationResponse(_) => done,
        Message::NegotiateProtocolVersion(answer) => is_answered(before, sent, answer),
        Message::BackendKeyData(key) => {
            has_key(sent.versions().spoken(before), S::secret_key(key).len())
        }
        _ => true,
    }
}

/// Whether a key may have so many bytes, where this version is spoken.
fn has_key(version: ProtocolVersion, count: usize) -> bool
    ensures { (key : List ℕ) → count ≡ length key → Decides result (HasKey version key) }
{
    match version {
        ProtocolVersion::V3_0 => count == 4,
        ProtocolVersion::V3_2 => 4 <= count && count <= 256,
    }
}

/// Whether the answer about versions is due, and what it says could be said.
fn is_answered<N: Sent, S: LoginStorage>(
    before: Option<ProtocolVersion>,
    sent: &N,
    answer: &NegotiateProtocolVersionBody<S>,
) -> bool
    ensures { Decides result (IsAnswered before (N.offered sent.now) answer.now) }
{
    pgp_message::laws::one_list_of_options();
    let Some(version) = version_in(answer) else {
        return false;
    };
    if before.is_some() || !sent.versions().admit(version) {
        return false;
    }
    if !is_change(version, sent.versions(), S::options(answer)) {
        return false;
    }
    all_among(S::options(answer), sent)
}

/// Whether the answer names another version than the packet, or an option.
fn is_change(version: ProtocolVersion, asked: Versions, mut names: RawOptions<'_>) -> bool
    ensures yes { result ≡ true → names.entry.end ≡ None → (version ≢ newest asked) ⊎ (names.entry.items ≢ []) }
    ensures no { result ≡ false → (version ≡ newest asked) × (names.entry.items ≡ []) }
{
    if version != asked.newest() {
        return true;
    }
    match names.next() {
        Ok(None) => false,
        Ok(Some(_)) => true,
        Err(_) => true,
    }
}

/// Whether the names are listed to the end, and were all sent.
fn all_among<N: Sent>(mut names: RawOptions<'_>, sent: &N) -> bool
    ensures { Decides result ((names.entry.end ≡ None) × (list_all (is_among (N.offered sent.now).options) names.entry.items ≡ true)) }
{
    'names: loop {
        match names.next() {
            Ok(Some(name)) => {
                if !sent.has(name) {
                    return false;
                }
            }
            Ok(None) => return true,
            Err(_) => return false,
        }
    }
}
