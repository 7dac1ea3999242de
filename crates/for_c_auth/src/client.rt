//! A client of SCRAM-SHA-256 up to a step of the exchange, made anew of what the caller holds.

ghost use Rattle.std.specs.Prelude.{◌≡◌, ◌≢◌, ◌⊎◌, ◌<◌, List, ℕ, length, Some, IfOk, IfErr, OnOk};
ghost use Rattle.pgp_auth.specs.ScramClient.{message_of};
ghost use Rattle.pgp_auth.specs.ScramErrorView.{refusal};
ghost use Rattle.for_c_auth.specs.Delivering.{Delivers, NotDelivered};
ghost use Rattle.for_c_auth.specs.Scram.{code_of, place_of, start, Names, NamesNone, Begins, BeginRefused, HasAnswered, NotAnswered};

use crate::deliver::{deliver, refused};
use pgp_auth::authentication::sasl::{ChannelBinding, NoPrep, ScramError, ScramSha256, is_nonce};
use pgp_base::{Error, Memory};

/// The number before an exchange's first error.
const SCRAM: u32 = 64;

/// The answer where the caller's nonce is none: no character, or one that is a comma or isn't printable ASCII.
const BAD_NONCE: u32 = 80;

/// The answer where a number names no channel binding.
const BAD_BINDING: u32 = 81;

/// The answer where there is no memory or no room.
const NO_ROOM: u32 = 1;

/// The status of a step that failed: lack of memory as everywhere, the others after 64.
fn number<A: Memory>(e: &ScramError<A>) -> u32
    ensures code { result ≡ code_of (refusal e.now) }
    ensures some { result ≢ 0 }
{
    match e {
        ScramError::OutOfMemory => NO_ROOM,
        ScramError::WrongState => SCRAM + 2,
        ScramError::NotUtf8 => SCRAM + 3,
        ScramError::UnexpectedEnd => SCRAM + 4,
        ScramError::UnexpectedCharacter(_) => SCRAM + 5,
        ScramError::Trailing(_) => SCRAM + 6,
        ScramError::InvalidNumber => SCRAM + 7,
        ScramError::InvalidNonce => SCRAM + 8,
        ScramError::TooManyIterations => SCRAM + 9,
        ScramError::InvalidBase64 => SCRAM + 10,
        ScramError::Server(_) => SCRAM + 11,
        ScramError::Verification => SCRAM + 12,
    }
}

/// The place in the server's text that an error says; 0 where it says none.
fn place<A: Memory>(e: &ScramError<A>) -> usize
    ensures { result ≡ place_of (refusal e.now) }
{
    match e {
        ScramError::UnexpectedCharacter(at) => *at,
        ScramError::Trailing(at) => *at,
        ScramError::OutOfMemory
        | ScramError::WrongState
        | ScramError::NotUtf8
        | ScramError::UnexpectedEnd
        | ScramError::InvalidNumber
        | ScramError::InvalidNonce
        | ScramError::TooManyIterations
        | ScramError::InvalidBase64
        | ScramError::Server(_)
        | ScramError::Verification => 0,
    }
}

/// Says a rejected step: its number is answered.
pub fn stopped<A: Memory>(e: ScramError<A>, at: &mut usize) -> u32
    ensures code { result ≡ code_of (refusal e) }
    ensures some { result ≢ 0 }
    ensures reported { at.new ≡ place_of (refusal e) }
{
    *at = place(&e);
    number(&e)
}

/// Hands over the text that the client sends.
pub fn hand_over<A: Memory>(client: &ScramSha256<A>, out: &mut [u8], written: &mut usize) -> u32
    ensures sent { result ≡ 0 → Delivers (λ text. message_of client.now.state ≡ Some text) out.old out.new written.new }
    ensures refused { result ≢ 0 → (result ≡ 1) × NotDelivered out.old out.new written.new }
    ensures longer { result ≢ 0 → (text : List ℕ) → message_of client.now.state ≡ Some text → length out.old < length text }
{
    match client.message() {
        Some(text) => deliver(text, out, written),
        None => refused(Error::OutOfMemory, written),
    }
}

/// The channel binding of this number: 0 none, 1 none that was asked for, 2 `tls-server-end-point` with these bytes.
fn binding<A: Memory>(alloc: A, kind: u8, certificate: &[u8]) -> Result<ChannelBinding<A>, u32>
    ensures ok { IfOk result (λ b. Names kind certificate.now b) }
    ensures err { IfErr result (λ code. (code ≢ 0) × (((code ≡ 81) × NamesNone kind) ⊎ ((code ≡ 1) × A.Lacks))) }
{
    if kind == 0 {
        return Ok(ChannelBinding::unsupported());
    }
    if kind == 1 {
        return Ok(ChannelBinding::unrequested());
    }
    if kind != 2 {
        return Err(BAD_BINDING);
    }
    match A::list_of(alloc, certificate) {
        Ok(data) => Ok(ChannelBinding::tls_server_end_point(data)),
        Err(_) => Err(NO_ROOM),
    }
}

/// A client that has begun with this nonce.
pub fn begun<A: Memory>(
    alloc: A,
    password: &[u8],
    kind: u8,
    certificate: &[u8],
    nonce: &[u8],
) -> Result<ScramSha256<A>, u32>
    ensures ok { IfOk result (λ client. Begins (start password.now kind certificate.now nonce.now) client) }
    ensures err { IfErr result (λ code. (code ≢ 0) × BeginRefused A.Lacks (start password.now kind certificate.now nonce.now) code) }
{
    let Ok(text) = pgp_base::text(nonce) else {
        return Err(BAD_NONCE);
    };
    if !is_nonce(text) {
        return Err(BAD_NONCE);
    }
    let Ok(text) = A::text_of(alloc, text) else {
        return Err(NO_ROOM);
    };
    match binding(alloc, kind, certificate) {
        Ok(binding) => match ScramSha256::with_nonce(alloc, password, binding, text, &NoPrep) {
            Ok(client) => Ok(client),
            Err(_) => Err(NO_ROOM),
        },
        Err(code) => Err(code),
    }
}

/// A client that has begun with this nonce, and answered the server's first text.
pub fn answered<A: Memory>(
    alloc: A,
    password: &[u8],
    kind: u8,
    certificate: &[u8],
    nonce: &[u8],
    server_first: &[u8],
    at: &mut usize,
) -> Result<ScramSha256<A>, u32>
    ensures ok { IfOk result (λ client. HasAnswered (start password.now kind certificate.now nonce.now) server_first.now client) }
    ensures no_place { OnOk result (at.new ≡ 0) }
    ensures err { IfErr result (λ code. (code ≢ 0) × NotAnswered A.Lacks (start password.now kind certificate.now nonce.now) server_first.now code at.new) }
{
    *at = 0;
    match begun(alloc, password, kind, certificate, nonce) {
        Ok(mut client) => match client.update(server_first) {
            Ok(()) => Ok(client),
            Err(e) => Err(stopped(e, at)),
        },
        Err(code) => Err(code),
    }
}
