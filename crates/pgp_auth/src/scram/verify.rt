//! The server's final text.

ghost use Rattle.std.specs.Prelude.{◌≡◌, ◌≢◌, ◌↔◌, ◌+◌, ◌<◌, ◌≤◌, ◌^◌, ◌⊎◌, true, false, length, string_bytes, Ok, IfOk, IfErr, OnOk, OnErr};
ghost use Rattle.std.specs.Result.{IsErr};
ghost use Rattle.std.specs.Str.{is_utf8};
ghost use Rattle.base64.specs.Engines.{standard};
ghost use Rattle.base64.specs.GeneralPurpose.{decode_of};
ghost use Rattle.pgp_auth.specs.declared.scram.error.ScramError.TheVariants.{InvalidBase64, Verification};
ghost use Rattle.pgp_auth.specs.ScramClient.{signature_of, TakesMemory, NotShown, NotVerified};
ghost use Rattle.pgp_auth.specs.ScramText.{ServerFinal};
ghost use Rattle.pgp_auth.specs.ScramErrorView.{refusal};
ghost use Rattle.pgp_auth.specs.ScramReading.{begins_with_e};
ghost use Rattle.pgp_auth.specs.ScramRefusal.{OutOfMemory, IsServerError, RefusesFinal, Verifies};
ghost use Rattle.pgp_auth.specs.ScramShown.{shown_bytes};
ghost use Rattle.pgp_auth.specs.ScramStateView.{answered_of};

use crate::authentication::sasl::counted_code;
use crate::hmac::MacKey;
use crate::scram::admit::shown;
use crate::scram::error::ScramError;
use crate::scram::reading::{Alphabet, is_error, is_text, run_behind};
use crate::scram::state::Signed;
use base64::engine::general_purpose::STANDARD;
use pgp_base::Memory;
use std::alloc::Allocator;
use std::str;

const SHORT_LEN: usize = 64;

const SHORT_ROOM: usize = 48;

// The error that a server reports.
#[tactic(auto, using(crate::proofs::FinalTexts::error_refused, crate::proofs::FinalTexts::error_is, crate::proofs::FinalTexts::error_text))]
fn server_error<A: Memory>(alloc: A, message: &[u8]) -> Result<String<A>, ScramError<A>>
    requires text { is_utf8 message.now ≡ true }
    requires error { begins_with_e message.now ≡ true }
    ensures ok { IfOk result (λ t. IsServerError message.now (string_bytes t)) }
    ensures err { IfErr result (λ e. RefusesFinal message.now (refusal e) ⊎ ((refusal e ≡ OutOfMemory) × A.Lacks × TakesMemory message.now)) }
{
    let reason = run_behind(b"e=", Alphabet::Value, message)?;
    match str::from_utf8(reason) {
        Ok(text) => Ok(A::text_of(alloc, text)?),
        Err(_) => Err(ScramError::NotUtf8),
    }
}

// The bytes that a text of at most 64 characters shows, in `room`.
pub(crate) fn decode_short<'a, A: Allocator>(
    text: &[u8],
    room: &'a mut [u8],
) -> Result<&'a [u8], ScramError<A>>
    requires few { length text.now ≤ SHORT_LEN }
    requires room { length room.old ≡ SHORT_ROOM }
    ensures ok { IfOk result (λ b. decode_of standard text.now ≡ Ok b.now) }
    ensures err { IfErr result (λ e. (e ≡ InvalidBase64) × IsErr (decode_of standard text.now)) }
{
    match STANDARD.decode_slice_unchecked(text, room) {
        Ok(len) => Ok(&room[..len]),
        Err(_) => Err(ScramError::InvalidBase64),
    }
}

// The server's signature, by two HMACs.
pub(crate) fn server_signature<A: Allocator>(signed: &Signed<A>, made: &mut u64) -> [u8; 32]
    requires { made.old < 2 ^ 62 }
    ensures value { result ≡ signature_of (answered_of signed.now) }
    ensures count { made.new ≡ made.old + 2 }
{
    let server_key = counted_code(&MacKey::new(&signed.key), b"Server Key", &[], made);
    counted_code(&MacKey::new(&server_key), &signed.auth, &[], made)
}

// How far two lists of 32 bytes are apart, 0 where they are the same. Each byte is looked at.
pub(crate) fn difference(left: &[u8; 32], right: &[u8]) -> u32
    requires { length right.now ≡ 32 }
    ensures { (result ≡ 0) ↔ (right.now ≡ left.now) }
{
    let mut sum = 0;
    for (i, byte) in right.iter().enumerate() {
        sum += u32::from(left[i] ^ *byte);
    }
    sum
}

// Compares the bytes that were shown with the signature.
fn compared<A: Allocator>(expected: &[u8; 32], bytes: &[u8]) -> Result<(), ScramError<A>>
    ensures ok { OnOk result (bytes.now ≡ expected.now) }
    ensures err { IfErr result (λ e. (e ≡ Verification) × (bytes.now ≢ expected.now)) }
{
    if bytes.len() == expected.len() && difference(expected, bytes) == 0 {
        return Ok(());
    }
    Err(ScramError::Verification)
}

// The base64 text that a server shows.
#[tactic(auto, using(crate::proofs::FinalTexts::final_refused, crate::proofs::FinalTexts::final_is))]
fn shown_text<A: Allocator>(message: &[u8]) -> Result<&[u8], ScramError<A>>
    requires text { is_utf8 message.now ≡ true }
    requires not_error { begins_with_e message.now ≡ false }
    ensures ok { IfOk result (λ t. ServerFinal message.now t.now) }
    ensures err { IfErr result (λ e. RefusesFinal message.now (refusal e)) }
{
    Ok(run_behind(b"v=", Alphabet::Base64, message)?)
}

// The bytes that a text shows: in the caller's room where they are few.
#[derive(Drop)]
enum Shown<'a, A: Allocator> {
    Few(&'a [u8]),
    Many(Vec<u8, A>),
}

impl<'a, A: Allocator> Shown<'a, A> {
    fn bytes(&self) -> &[u8]
        ensures { result.now ≡ shown_bytes self.now }
    {
        match self {
            Shown::Few(bytes) => bytes,
            Shown::Many(bytes) => bytes.as_slice(),
        }
    }
}

// The bytes that a text shows that is no error.
#[tactic(auto, using(crate::proofs::FinalTexts::final_no_base64))]
fn shown_there<'a, A: Memory>(
    alloc: A,
    message: &[u8],
    room: &'a mut [u8; SHORT_ROOM],
) -> Result<Shown<'a, A>, ScramError<A>>
    requires text { is_utf8 message.now ≡ true }
    requires not_error { begins_with_e message.now ≡ false }
    ensures ok { IfOk result (λ s. Verifies (shown_bytes s) message.now) }
    ensures err { IfErr result (λ e. RefusesFinal message.now (refusal e) ⊎ ((refusal e ≡ OutOfMemory) × A.Lacks × TakesMemory message.now)) }
{
    let text = shown_text(message)?;
    if text.len() <= SHORT_LEN {
        return Ok(Shown::Few(decode_short(text, room)?));
    }
    Ok(Shown::Many(shown(alloc, text)?))
}

// The bytes that a server's final text shows.
fn read_final<'a, A: Memory>(
    alloc: A,
    message: &[u8],
    room: &'a mut [u8; SHORT_ROOM],
) -> Result<Shown<'a, A>, ScramError<A>>
    ensures ok { IfOk result (λ s. Verifies (shown_bytes s) message.now) }
    ensures err { IfErr result (λ e. RefusesFinal message.now (refusal e) ⊎ ((refusal e ≡ OutOfMemory) × A.Lacks × TakesMemory message.now)) }
{
    if !is_text(message) {
        return Err(ScramError::NotUtf8);
    }
    if is_error(message) {
        let reason = server_error(alloc, message)?;
        return Err(ScramError::Server(reason));
    }
    shown_there(alloc, message, room)
}

// Verifies a server's final text.
pub(crate) fn verify<A: Memory>(
    alloc: A,
    signed: &Signed<A>,
    message: &[u8],
    made: &mut u64,
) -> Result<(), ScramError<A>>
    requires { made.old < 2 ^ 62 }
    ensures ok { OnOk result (Verifies (signature_of (answered_of signed.now)) message.now) }
    ensures err { IfErr result (λ e. NotVerified A.Lacks (signature_of (answered_of signed.now)) message.now (refusal e) made.old made.new) }
    ensures count { OnOk result (made.new ≡ made.old + 2) }
    ensures few { made.new ≤ made.old + 2 }
{
    let mut room = [0; SHORT_ROOM];
    let shown = read_final(alloc, message, &mut room)?;
    let signature = server_signature(signed, made);
    compared(&signature, shown.bytes())
}

/// Verifies a server's final text by the signature that it has to show, as `ScramSha256::signature` reported it: what `finish`
/// does, for callers that keep no client. All bytes are compared.
///
/// # Errors
///
/// As `finish`, but `WrongState`.
pub fn verify_signature<A: Memory>(
    alloc: A,
    signature: &[u8; 32],
    message: &[u8],
) -> Result<(), ScramError<A>>
    ensures ok { OnOk result (Verifies signature.now message.now) }
    ensures err { IfErr result (λ e. NotShown A.Lacks signature.now message.now (refusal e)) }
{
    let mut room = [0; SHORT_ROOM];
    let shown = read_final(alloc, message, &mut room)?;
    compared(signature, shown.bytes())
}
