//! What a server's first text grants.

ghost use Rattle.std.specs.Prelude.{◌≡◌, ◌⊎◌, Ok, Err, IfOk, IfErr};
ghost use Rattle.std.specs.Result.{IsErr};
ghost use Rattle.base64.specs.Engines.{standard};
ghost use Rattle.base64.specs.GeneralPurpose.{decode_of};
ghost use Rattle.pgp_auth.specs.declared.scram.error.ScramError.TheVariants.{OutOfMemory, InvalidBase64};
ghost use Rattle.pgp_auth.specs.ScramReading.{AdmitsParts, grant_parts, grant, refusal_of};
ghost use Rattle.pgp_auth.specs.ScramPartView.{parts_of, granted_of};
ghost use Rattle.pgp_auth.specs.ScramErrorView.{refusal};
ghost use Rattle.pgp_auth.specs.ScramRefusal.{Admitted};

use crate::scram::error::ScramError;
use crate::scram::reading::{Fault, ServerFirst, is_text, server_first};
use base64::DecodeAllocError;
use pgp_base::Memory;
use std::alloc::Allocator;

const MAX_ITERATIONS: u32 = 100_000;

impl<A: Allocator> From<Fault> for ScramError<A> {
    ghost from_gives = { λ f e. refusal e ≡ refusal_of f };

    fn from(fault: Fault) -> ScramError<A> {
        match fault {
            Fault::UnexpectedEnd => ScramError::UnexpectedEnd,
            Fault::UnexpectedCharacter(at) => ScramError::UnexpectedCharacter(at),
            Fault::Trailing(at) => ScramError::Trailing(at),
            Fault::InvalidNumber => ScramError::InvalidNumber,
        }
    }
}

// What a server's first text grants.
#[derive(Drop)]
pub(crate) struct Granted<'a, A: Allocator> {
    pub nonce: &'a [u8],
    pub salt: Vec<u8, A>,
    pub count: u32,
}

// The bytes that a text shows.
pub(crate) fn shown<A: Memory>(alloc: A, text: &[u8]) -> Result<Vec<u8, A>, ScramError<A>>
    ensures ok { IfOk result (λ v. decode_of standard text.now ≡ Ok v.items) }
    ensures err { IfErr result (λ e. ((e ≡ OutOfMemory) × A.Lacks) ⊎ ((e ≡ InvalidBase64) × IsErr (decode_of standard text.now))) }
{
    match A::base64_shown(alloc, text) {
        Ok(bytes) => Ok(bytes),
        Err(DecodeAllocError::OutOfMemory) => Err(ScramError::OutOfMemory),
        Err(DecodeAllocError::DecodeError(_)) => Err(ScramError::InvalidBase64),
    }
}

// The parts of the text, where they extend the client's nonce and ask for few rounds.
#[tactic(auto, unfolding(crate::specs::ScramReading::grant_parts))]
fn grant<'a, A: Memory>(
    alloc: A,
    client_nonce: &[u8],
    parts: ServerFirst<'a>,
) -> Result<Granted<'a, A>, ScramError<A>>
    ensures ok { IfOk result (λ g. grant_parts client_nonce.now (parts_of parts.entry) ≡ Ok (granted_of g)) }
    ensures err { IfErr result (λ e. ((e ≡ OutOfMemory) × A.Lacks × AdmitsParts client_nonce.now (parts_of parts.entry)) ⊎ (grant_parts client_nonce.now (parts_of parts.entry) ≡ Err (refusal e))) }
{
    let ServerFirst { nonce, salt, count } = parts;
    if !nonce.starts_with(client_nonce) {
        return Err(ScramError::InvalidNonce);
    }
    if MAX_ITERATIONS < count {
        return Err(ScramError::TooManyIterations);
    }
    let salt = shown(alloc, salt)?;
    Ok(Granted { nonce, salt, count })
}

// What a server's first text grants a client with this nonce.
#[tactic(auto, using(crate::proofs::Grants::parts_admitted), unfolding(crate::specs::ScramReading::grant))]
pub(crate) fn admit<'a, A: Memory>(
    alloc: A,
    client_nonce: &[u8],
    message: &'a [u8],
) -> Result<Granted<'a, A>, ScramError<A>>
    ensures ok { IfOk result (λ g. grant client_nonce.now message.now ≡ Ok (granted_of g)) }
    ensures err { IfErr result (λ e. ((e ≡ OutOfMemory) × A.Lacks × Admitted client_nonce.now message.now) ⊎ (grant client_nonce.now message.now ≡ Err (refusal e))) }
{
    if !is_text(message) {
        return Err(ScramError::NotUtf8);
    }
    let parts = server_first(message)?;
    grant(alloc, client_nonce, parts)
}
