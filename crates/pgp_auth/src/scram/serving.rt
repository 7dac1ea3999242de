//! What a server makes of a client's texts.

ghost use Rattle.std.specs.Prelude.{◌≡◌, ◌≢◌, ◌<◌, ◌^◌, false, ℕ, List, ◌++◌, length, codes, IfOk, IfErr, OnErr, MatchOption};
ghost use Rattle.pgp_base.specs.Wire.{IsBytes};
ghost use Rattle.pgp_auth.specs.Base64.{base64, Shows};
ghost use Rattle.pgp_auth.specs.ScramText.{Binding, gs2_header};
ghost use Rattle.pgp_auth.specs.ScramServing.{IsTaken, Opens, NotOpened, answer_of, server_first, AcceptsFinal, Shown, NotAdmitted};
ghost use Rattle.pgp_auth.specs.ScramServerView.{offer_of, serving_of, challenge_of};
ghost use Rattle.pgp_auth.specs.Hmac.{mac};
ghost use Rattle.pgp_auth.specs.IteratedKey.{xor_bytes};

use crate::hmac::hmac_sha256;
use crate::lanes::xor_into;
use crate::scram::answer::{final_front, text_to_sign};
use crate::scram::binding::ChannelBinding;
use crate::scram::held::{Challenged, ChannelOffer, Waiting};
use crate::scram::named::named_in;
use crate::scram::server_error::ServerError;
use crate::scram::verify::{decode_short, difference};
use base64::engine::general_purpose::STANDARD;
use pgp_base::Memory;
use sha2::{Digest, Sha256};
use std::alloc::{AllocError, Allocator, Global};

const SHOWN_LEN: usize = 44;

const ROOM: usize = 48;

const FINAL_LEN: usize = 46;

// What follows `want` in `text`.
pub(crate) fn behind<'a>(want: &[u8], text: &'a [u8]) -> Option<&'a [u8]>
    ensures { MatchOption result ((rest : List ℕ) → text.now ≢ want.now ++ rest) (λ x. text.now ≡ want.now ++ x.now) }
{
    text.strip_prefix(want)
}

// The binding that the client claims, where it is taken, and what follows the header.
fn taken<'a, A: Allocator>(
    offer: ChannelOffer<A>,
    text: &'a [u8],
) -> Option<(ChannelBinding<A>, &'a [u8])>
    ensures { MatchOption result
        ((b : Binding) (rest : List ℕ) → IsTaken (offer_of offer) b → text.now ≢ gs2_header b ++ rest)
        (λ x. IsTaken (offer_of offer) x.0 × (text.now ≡ gs2_header x.0 ++ x.1.now)) }
{
    match offer {
        ChannelOffer::NotOffered => match behind(b"n,,", text) {
            Some(bare) => Some((ChannelBinding::unsupported(), bare)),
            None => match behind(b"y,,", text) {
                Some(bare) => Some((ChannelBinding::unrequested(), bare)),
                None => None,
            },
        },
        ChannelOffer::Declined => match behind(b"n,,", text) {
            Some(bare) => Some((ChannelBinding::unsupported(), bare)),
            None => None,
        },
        ChannelOffer::Chosen(hash) => match behind(b"p=tls-server-end-point,,", text) {
            Some(bare) => Some((ChannelBinding::tls_server_end_point(hash), bare)),
            None => None,
        },
    }
}

// The server's first text.
fn first_answer<A: Memory>(
    alloc: A,
    nonce: &[u8],
    salt: &[u8],
    count: u32,
) -> Result<Vec<u8, A>, AllocError>
    ensures ok { IfOk result (λ v. v.items ≡ server_first nonce.now salt.now count) }
    ensures lacks { OnErr result A.Lacks }
    ensures bytes { IsBytes salt.now }
    ensures fits { count < 2 ^ 32 }
{
    let mut tail = A::text_of(alloc, ",s=")?;
    A::push_base64(&mut tail, salt)?;
    A::push_str(&mut tail, ",i=")?;
    A::push_shown(&mut tail, count)?;
    let mut text = A::list_of(alloc, b"r=")?;
    A::extend(&mut text, nonce)?;
    A::extend(&mut text, tail.as_bytes())?;
    Ok(text)
}

// Both parts of a nonce.
fn joined<A: Memory>(alloc: A, nonce: &[u8], own: &[u8]) -> Result<Vec<u8, A>, AllocError>
    ensures ok { IfOk result (λ v. v.items ≡ nonce.now ++ own.now) }
    ensures lacks { OnErr result A.Lacks }
{
    let mut whole = A::list_of(alloc, nonce)?;
    A::extend(&mut whole, own)?;
    Ok(whole)
}

// The challenge to a client's first text, and the text that is answered.
pub(crate) fn challenge<A: Memory>(
    waiting: Waiting<A>,
    text: &[u8],
) -> Result<(Challenged<A>, Vec<u8, A>), ServerError>
    ensures ok { IfOk result (λ x. Opens (serving_of waiting) text.now (challenge_of x.0) × (x.1.items ≡ answer_of (challenge_of x.0))) }
    ensures err { IfErr result (λ e. NotOpened A.Lacks (serving_of waiting) text.now e) }
{
    let Waiting {
        verifier,
        offer,
        own,
    } = waiting;
    let Some((binding, bare)) = taken(offer, text) else {
        return Err(ServerError::UnsupportedBinding);
    };
    let Some(named) = named_in(bare) else {
        return Err(ServerError::InvalidFirst);
    };
    let alloc = *own.allocator();
    let whole = joined(alloc, named.nonce, &own)?;
    let answer = first_answer(alloc, &whole, &verifier.salt, verifier.count)?;
    let front = final_front(alloc, &binding, &whole)?;
    let auth = text_to_sign(alloc, bare, &answer, &front)?;
    let user = A::list_of(alloc, named.user)?;
    let nonce = A::list_of(alloc, named.nonce)?;
    Ok((
        Challenged {
            verifier,
            binding,
            user,
            nonce,
            own,
            front,
            auth,
        },
        answer,
    ))
}

// The base64 text of 32 bytes.
fn shown_32(bytes: &[u8; 32]) -> [u8; SHOWN_LEN]
    ensures { result ≡ base64 bytes.now }
{
    let mut shown = [0; SHOWN_LEN];
    STANDARD.encode_slice(bytes, &mut shown).unwrap();
    shown
}

// The server's final text.
fn final_text(signature: &[u8; 32]) -> [u8; FINAL_LEN]
    ensures { result ≡ codes "v=" ++ base64 signature.now }
{
    let mut text = [b'v'; FINAL_LEN];
    text[1] = b'=';
    text[2..].copy_from_slice(&shown_32(signature));
    text
}

// The proof that a text shows, 32 bytes, in `room`.
pub(crate) fn proof_in<'a>(shown: &[u8], room: &'a mut [u8]) -> Option<&'a [u8]>
    requires { length room.old ≡ ROOM }
    ensures { MatchOption result
        ((proof : List ℕ) → length proof ≡ 32 → ¬ Shows shown.now proof)
        (λ x. (length x.now ≡ 32) × Shows shown.now x.now × (shown.now ≡ base64 x.now)) }
{
    if shown.len() != SHOWN_LEN {
        return None;
    }
    let Ok(bytes) = decode_short::<Global>(shown, room) else {
        return None;
    };
    if bytes.len() != 32 {
        return None;
    }
    Some(bytes)
}

// The key that a proof of 32 bytes shows.
fn key_in(proof: &[u8], stored_key: &[u8; 32], auth: &[u8]) -> [u8; 32]
    requires { length proof.now ≡ 32 }
    ensures value { result ≡ xor_bytes proof.now (mac stored_key.now auth.now) }
    ensures bytes { IsBytes proof.now }
{
    let mut key = [0; 32];
    key.copy_from_slice(proof);
    xor_into(&mut key, &hmac_sha256(stored_key, auth, b""));
    key
}

// Answers a final text that shows a proof of the key.
pub(crate) fn admit<A: Allocator>(
    challenged: &Challenged<A>,
    text: &[u8],
) -> Result<[u8; FINAL_LEN], ServerError>
    ensures ok { IfOk result (λ t. (challenged.now.verifier.is_mock ≡ false) × AcceptsFinal (challenge_of challenged.now) text.now × Shown (challenge_of challenged.now) t) }
    ensures err { IfErr result (λ e. NotAdmitted (challenge_of challenged.now) text.now e) }
{
    let Some(rest) = behind(&challenged.front, text) else {
        return Err(ServerError::OtherExchange);
    };
    let Some(shown) = behind(b",p=", rest) else {
        return Err(ServerError::OtherExchange);
    };
    let mut room = [0; ROOM];
    let Some(proof) = proof_in(shown, &mut room) else {
        return Err(ServerError::InvalidEncoding);
    };
    let verifier = &challenged.verifier;
    let key = key_in(proof, &verifier.stored_key, &challenged.auth);
    if difference(&Sha256::digest(key), &verifier.stored_key) != 0 {
        return Err(ServerError::InvalidProof);
    }
    if verifier.is_mock {
        return Err(ServerError::InvalidProof);
    }
    Ok(final_text(&hmac_sha256(&verifier.server_key, &challenged.auth, b"")))
}
