//! The log-in for C: nothing but a phase and a signature, in memory of the caller's, stands between the calls.

ghost use Rattle.std.specs.Prelude.{◌≡◌, ◌≢◌, List, ℕ, Bool, Some, option_map};
ghost use Rattle.pgp_message.specs.Views.{view};
ghost use Rattle.pgp_login.specs.Exchange.{seen_caller};
ghost use Rattle.pgp_login.specs.Face.{admits, answer_code, answered_at, cleartext_in, md5_in, offered_in, phase_code, state_at, state_of, versions_at, ways_of};
ghost use Rattle.pgp_login.specs.Fault.{Fault, number_of};
ghost use Rattle.pgp_login.specs.Login.{HasExchange, Stands, awaited_in, kept, user_of};
ghost use Rattle.pgp_login.specs.Machine.{Declines, LoggedOn, State, Ways as Admitting, asking, phase_of};

use crate::asked::is_asked;
use crate::caller::Caller;
use crate::fault::number;
use crate::login::{Login, LoginPhase, Ways, hear};
use crate::timely::Sent;
use crate::versions::Versions;
use bytes::BytesMut;
use pgp_base::Memory;
use pgp_frontend::ProtocolVersion;
use pgp_message::Message;

/// By which ways a client lets itself be asked, and what each needs.
#[repr(C)]
#[derive(Clone, Copy)]
pub struct PgpWays<'a> {
    pub user: &'a [u8],
    pub password: &'a [u8],
    pub certificate: &'a [u8],
    pub nonce: &'a [u8],
    /// The least rounds of an exchange; 0 is taken for 1.
    pub least_rounds: u32,
    /// How long a message may be, without its tag.
    pub limit: u32,
    /// The ways, each a bit.
    pub ways: u8,
    /// The kind of the channel binding.
    pub kind: u8,
    pub is_encrypted: bool,
    /// The versions that the startup packet asks for: 0 for 3.0, 1 for 3.2 or else 3.0, 2 for 3.2 alone.
    pub versions: u8,
}

/// How far a log-in is, by its number, and the signature that the server's final text has to show. All 0 at first.
#[repr(C)]
#[derive(Clone, Copy)]
pub struct PgpLogin {
    pub phase: u8,
    pub signature: [u8; 32],
}

impl<'a> Sent for PgpWays<'a> {
    ghost offered = { offered_in };

    fn versions(&self) -> Versions {
        versions_at(self.versions)
    }

    fn has(&self, _name: &[u8]) -> bool {
        false
    }
}

/// The versions of this number.
fn versions_at(n: u8) -> Versions
    ensures { result ≡ versions_at n }
{
    if n == 0 {
        return Versions::Only3_0;
    }
    if n == 1 {
        return Versions::UpTo3_2;
    }
    Versions::Only3_2
}

/// What the server answered about versions, by its number: 0 where it didn't.
pub fn answered_at(n: u8) -> Option<ProtocolVersion>
    ensures { result ≡ answered_at n }
{
    if n == 0 {
        return None;
    }
    if n == 1 {
        return Some(ProtocolVersion::V3_0);
    }
    Some(ProtocolVersion::V3_2)
}

/// The number of what it answered.
pub fn answered_code(answered: Option<ProtocolVersion>) -> u8
    ensures read { answered_at result ≡ answered }
    ensures number { result ≡ answer_code answered }
{
    match answered {
        None => 0,
        Some(ProtocolVersion::V3_0) => 1,
        Some(ProtocolVersion::V3_2) => 2,
    }
}

/// The log-in takes a message: 0 where it does, and the reply, if there is one, is appended.
pub fn answer<A: Memory>(
    alloc: A,
    login: &mut PgpLogin,
    ways: &PgpWays<'_>,
    message: &Message<&[u8]>,
    out: &mut BytesMut<A>,
) -> u32
    ensures answered { result ≡ 0 → LoggedOn (ways_of ways.now) ways.now.is_encrypted (asking (view message.now)) (state_of login.old) (state_of login.new) out.old.items out.new.items }
    ensures why { result ≢ 0 → (f : Fault) × (result ≡ number_of f) × Declines A.Lacks (ways_of ways.now) ways.now.is_encrypted (state_of login.old) (asking (view message.now)) f }
    ensures kept { result ≢ 0 → login.new ≡ login.old }
    ensures out { result ≢ 0 → out.new.items ≡ out.old.items }
{
    // Most messages are none of the log-in's: nothing is made of it for them.
    if !is_asked(message) {
        return 0;
    }
    let mut resumed = resumed(login, ways);
    match hear(alloc, &mut resumed, message, out) {
        Ok(()) => {
            *login = put_back(&resumed, login.signature);
            0
        }
        Err(e) => number(&e),
    }
}

/// The log-in that the caller keeps.
fn resumed<'a>(login: &PgpLogin, ways: &PgpWays<'a>) -> Login<'a, Caller<'a>>
    ensures { Stands (ways_of ways.now) ways.now.is_encrypted (state_of login.now) (kept seen_caller result) }
{
    Login {
        phase: phase_at(login.phase),
        ways: Ways {
            scram: exchange_of(login, ways),
            md5: md5_of(ways),
            cleartext: cleartext_of(ways),
            none: admits(ways.ways, 1),
            least_rounds: ways.least_rounds,
            encrypted: ways.is_encrypted,
        },
    }
}

/// What the caller keeps of it.
fn put_back(login: &Login<'_, Caller<'_>>, before: [u8; 32]) -> PgpLogin
    ensures stands { (w : Admitting) (encrypted : Bool) (s : State) → Stands w encrypted s (kept seen_caller login.now) → state_of result ≡ s }
    ensures number { result.phase ≡ phase_code login.now.phase }
{
    PgpLogin {
        phase: phase_code(login.phase),
        signature: signature_of(&login.ways.scram, before),
    }
}

/// Whether a way is among those that are admitted.
fn admits(ways: u8, way: u8) -> bool
    ensures { result ≡ admits ways way }
{
    ways & way != 0
}

/// The phase of this number.
fn phase_at(n: u8) -> LoginPhase
    ensures { (signature : List ℕ) → result ≡ phase_of (state_at n signature) }
{
    if n == 0 {
        return LoginPhase::AwaitsOffer;
    }
    if n == 1 {
        return LoginPhase::AwaitsFirst;
    }
    if n == 2 {
        return LoginPhase::AwaitsFinal;
    }
    if n == 3 {
        return LoginPhase::AwaitsOk;
    }
    if n == 4 {
        return LoginPhase::Done;
    }
    LoginPhase::Failed
}

/// The number of a phase.
fn phase_code(phase: LoginPhase) -> u8
    ensures read { (signature : List ℕ) → phase_of (state_at result signature) ≡ phase }
    ensures number { result ≡ phase_code phase }
{
    match phase {
        LoginPhase::AwaitsOffer => 0,
        LoginPhase::AwaitsFirst => 1,
        LoginPhase::AwaitsFinal => 2,
        LoginPhase::AwaitsOk => 3,
        LoginPhase::Done => 4,
        LoginPhase::Failed => 5,
    }
}

/// The exchange, where it is admitted or under way.
fn exchange_of<'a>(login: &PgpLogin, ways: &PgpWays<'a>) -> Option<Caller<'a>>
    ensures { HasExchange (state_of login.now) (ways_of ways.now).scram (option_map seen_caller result) }
{
    if login.phase == 2 || admits(ways.ways, 8) {
        return Some(Caller {
            password: ways.password,
            certificate: ways.certificate,
            nonce: ways.nonce,
            kind: ways.kind,
            signature: login.signature,
        });
    }
    None
}

/// The user and the password, where MD5 is admitted.
fn md5_of<'a>(ways: &PgpWays<'a>) -> Option<(&'a [u8], &'a [u8])>
    ensures { option_map user_of result ≡ md5_in ways.now }
{
    if admits(ways.ways, 4) {
        return Some((ways.user, ways.password));
    }
    None
}

/// The password, where it is admitted in clear text.
fn cleartext_of<'a>(ways: &PgpWays<'a>) -> Option<&'a [u8]>
    ensures { option_map (λ p. p.now) result ≡ cleartext_in ways.now }
{
    if admits(ways.ways, 2) {
        return Some(ways.password);
    }
    None
}

/// The signature that is awaited, or else that of before.
fn signature_of(exchange: &Option<Caller<'_>>, before: [u8; 32]) -> [u8; 32]
    ensures { (signature : List ℕ) → awaited_in (option_map seen_caller exchange.now) ≡ Some signature → result ≡ signature }
{
    match exchange {
        Some(exchange) => exchange.signature,
        None => before,
    }
}
