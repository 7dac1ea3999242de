//! The server's side of SCRAM-SHA-256, in two calls that keep nothing between them.

ghost use Rattle.std.specs.Prelude.{◌≡◌, ◌≢◌, ◌⊎◌, IfOk, IfErr};
ghost use Rattle.pgp_auth.specs.ScramServerView.{offer_of};
ghost use Rattle.for_c_auth.specs.Delivering.{Delivers, IsLonger, NotDelivered};
ghost use Rattle.for_c_auth.specs.Serving.{AdmitsWith, AnswersFirst, HasChallenged, NotChallenged, Offers, ProofRefused, ServeRefused, Serves, serve, step_code, stored_code};

use crate::deliver::deliver;
use pgp_auth::authentication::sasl::{
    ChannelOffer, ScramServer, ServerError, StoredVerifier, VerifierError, is_nonce,
};
use pgp_base::Memory;
use std::alloc::Global;

/// The result where the server's nonce is none.
const BAD_NONCE: u32 = 80;

/// The result where a number names no offer.
const BAD_OFFER: u32 = 81;

/// The result where there is no memory.
const NO_MEMORY: u32 = 1;

/// The number of a rejected step.
fn step_code(e: ServerError) -> u32
    ensures code { result ≡ step_code e }
    ensures some { result ≢ 0 }
{
    match e {
        ServerError::OutOfMemory => NO_MEMORY,
        ServerError::WrongState => 66,
        ServerError::UnsupportedBinding => 84,
        ServerError::InvalidFirst => 85,
        ServerError::OtherExchange => 86,
        ServerError::InvalidEncoding => 87,
        ServerError::InvalidProof => 88,
    }
}

/// The number of a rejected stored text.
pub fn stored_code(e: VerifierError) -> u32
    ensures code { result ≡ stored_code e }
    ensures some { result ≢ 0 }
{
    match e {
        VerifierError::OutOfMemory => NO_MEMORY,
        VerifierError::NotAVerifier => 82,
    }
}

/// The offer of this number: 0 no channel binding, 1 one that the client declined, 2 one with this hash of the server's certificate.
fn offer<A: Memory>(alloc: A, kind: u8, certificate: &[u8]) -> Result<ChannelOffer<A>, u32>
    ensures ok { IfOk result (λ o. Offers kind certificate.now (offer_of o)) }
    ensures err { IfErr result (λ code. (code ≢ 0) × (((code ≡ 81) × (kind ≢ 0) × (kind ≢ 1) × (kind ≢ 2)) ⊎ ((code ≡ 1) × A.Lacks))) }
{
    if kind == 0 {
        return Ok(ChannelOffer::NotOffered);
    }
    if kind == 1 {
        return Ok(ChannelOffer::Declined);
    }
    if kind != 2 {
        return Err(BAD_OFFER);
    }
    match A::list_of(alloc, certificate) {
        Ok(hash) => Ok(ChannelOffer::Chosen(hash)),
        Err(_) => Err(NO_MEMORY),
    }
}

/// A server that awaits the client's first text.
fn serving<A: Memory>(
    alloc: A,
    stored: &[u8],
    kind: u8,
    certificate: &[u8],
    nonce: &[u8],
) -> Result<ScramServer<A>, u32>
    ensures ok { IfOk result (λ server. Serves (serve stored.now kind certificate.now nonce.now) server) }
    ensures err { IfErr result (λ code. (code ≢ 0) × ServeRefused A.Lacks (serve stored.now kind certificate.now nonce.now) code) }
{
    let Ok(text) = pgp_base::text(nonce) else {
        return Err(BAD_NONCE);
    };
    if !is_nonce(text) {
        return Err(BAD_NONCE);
    }
    let Ok(text) = A::text_of(alloc, text) else {
        return Err(NO_MEMORY);
    };
    match offer(alloc, kind, certificate) {
        Ok(offer) => match StoredVerifier::parse(alloc, stored) {
            Ok(verifier) => Ok(ScramServer::with_nonce(verifier, offer, text)),
            Err(e) => Err(stored_code(e)),
        },
        Err(code) => Err(code),
    }
}

/// A server that has answered the client's first text, and the answer.
fn challenged<A: Memory>(
    alloc: A,
    stored: &[u8],
    kind: u8,
    certificate: &[u8],
    nonce: &[u8],
    client_first: &[u8],
) -> Result<(ScramServer<A>, Vec<u8, A>), u32>
    ensures ok { IfOk result (λ x. HasChallenged (serve stored.now kind certificate.now nonce.now) client_first.now x.1.items x.0) }
    ensures err { IfErr result (λ code. (code ≢ 0) × NotChallenged A.Lacks (serve stored.now kind certificate.now nonce.now) client_first.now code) }
{
    match serving(alloc, stored, kind, certificate, nonce) {
        Ok(mut server) => match server.first(client_first) {
            Ok(answer) => Ok((server, answer)),
            Err(e) => Err(step_code(e)),
        },
        Err(code) => Err(code),
    }
}

/// The server's first text, for the client's first text.
#[unsafe(no_mangle)]
pub extern "C" fn pgp_scram_server_first(
    alloc: Global,
    stored: &[u8],
    kind: u8,
    certificate: &[u8],
    nonce: &[u8],
    client_first: &[u8],
    out: &mut [u8],
    written: &mut usize,
) -> u32
    ensures sent { result ≡ 0 → Delivers (AnswersFirst (serve stored.now kind certificate.now nonce.now) client_first.now) out.old out.new written.new }
    ensures refused { result ≢ 0 → NotDelivered out.old out.new written.new }
    ensures why { result ≢ 0 → NotChallenged (Unit {0}) (serve stored.now kind certificate.now nonce.now) client_first.now result
        ⊎ ((result ≡ 1) × IsLonger (AnswersFirst (serve stored.now kind certificate.now nonce.now) client_first.now) out.old) }
{
    server_first(
        alloc,
        stored,
        kind,
        certificate,
        nonce,
        client_first,
        out,
        written,
    )
}

/// `pgp_scram_server_first` with any allocator.
pub fn server_first<A: Memory>(
    alloc: A,
    stored: &[u8],
    kind: u8,
    certificate: &[u8],
    nonce: &[u8],
    client_first: &[u8],
    out: &mut [u8],
    written: &mut usize,
) -> u32
    ensures sent { result ≡ 0 → Delivers (AnswersFirst (serve stored.now kind certificate.now nonce.now) client_first.now) out.old out.new written.new }
    ensures refused { result ≢ 0 → NotDelivered out.old out.new written.new }
    ensures why { result ≢ 0 → NotChallenged A.Lacks (serve stored.now kind certificate.now nonce.now) client_first.now result
        ⊎ ((result ≡ 1) × IsLonger (AnswersFirst (serve stored.now kind certificate.now nonce.now) client_first.now) out.old) }
{
    *written = 0;
    match challenged(alloc, stored, kind, certificate, nonce, client_first) {
        Ok((_, answer)) => deliver(&answer, out, written),
        Err(code) => code,
    }
}

/// The server's final text, where the client's final text shows that it knows the password's key.
#[unsafe(no_mangle)]
pub extern "C" fn pgp_scram_server_final(
    alloc: Global,
    stored: &[u8],
    kind: u8,
    certificate: &[u8],
    nonce: &[u8],
    client_first: &[u8],
    client_final: &[u8],
    out: &mut [u8],
    written: &mut usize,
) -> u32
    ensures sent { result ≡ 0 → Delivers (AdmitsWith (serve stored.now kind certificate.now nonce.now) client_first.now client_final.now) out.old out.new written.new }
    ensures refused { result ≢ 0 → NotDelivered out.old out.new written.new }
    ensures why { result ≢ 0 → NotChallenged (Unit {0}) (serve stored.now kind certificate.now nonce.now) client_first.now result
        ⊎ (ProofRefused (serve stored.now kind certificate.now nonce.now) client_first.now client_final.now result
        ⊎ ((result ≡ 1) × IsLonger (AdmitsWith (serve stored.now kind certificate.now nonce.now) client_first.now client_final.now) out.old)) }
{
    server_final(
        alloc,
        stored,
        kind,
        certificate,
        nonce,
        client_first,
        client_final,
        out,
        written,
    )
}

/// `pgp_scram_server_final` with any allocator.
pub fn server_final<A: Memory>(
    alloc: A,
    stored: &[u8],
    kind: u8,
    certificate: &[u8],
    nonce: &[u8],
    client_first: &[u8],
    client_final: &[u8],
    out: &mut [u8],
    written: &mut usize,
) -> u32
    ensures sent { result ≡ 0 → Delivers (AdmitsWith (serve stored.now kind certificate.now nonce.now) client_first.now client_final.now) out.old out.new written.new }
    ensures refused { result ≢ 0 → NotDelivered out.old out.new written.new }
    ensures why { result ≢ 0 → NotChallenged A.Lacks (serve stored.now kind certificate.now nonce.now) client_first.now result
        ⊎ (ProofRefused (serve stored.now kind certificate.now nonce.now) client_first.now client_final.now result
        ⊎ ((result ≡ 1) × IsLonger (AdmitsWith (serve stored.now kind certificate.now nonce.now) client_first.now client_final.now) out.old)) }
{
    *written = 0;
    match challenged(alloc, stored, kind, certificate, nonce, client_first) {
        Ok((mut server, _)) => match server.finish(client_final) {
            Ok(text) => deliver(&text, out, written),
            Err(e) => step_code(e),
        },
        Err(code) => code,
    }
}
