//! The client's final text.

ghost use Rattle.std.specs.Prelude.{◌≡◌, ◌+◌, ◌<◌, ◌≤◌, ◌^◌, ◌++◌, max, IfOk, IfErr, OnErr};
ghost use Rattle.pgp_auth.specs.Base64.{base64};
ghost use Rattle.pgp_auth.specs.ScramText.{gs2_header, binding_data, client_first, first_bare, without_proof, with_proof, auth_message};
ghost use Rattle.pgp_auth.specs.ScramAnswer.{client_proof, AnswersGranted, AnswersText, RefusesText};
ghost use Rattle.pgp_auth.specs.ScramStateView.{begun_of, answered_of};
ghost use Rattle.pgp_auth.specs.ScramErrorView.{refusal};
ghost use Rattle.pgp_auth.specs.ScramPartView.{granted_of};

use crate::authentication::sasl::{counted_code, counted_hi};
use crate::hmac::MacKey;
use crate::lanes::xor_into;
use crate::scram::admit::{Granted, admit};
use crate::scram::binding::ChannelBinding;
use crate::scram::error::ScramError;
use crate::scram::state::{Signed, Start};
use base64::engine::general_purpose::STANDARD;
use pgp_base::Memory;
use sha2::{Digest, Sha256};
use std::alloc::AllocError;

// The characters of the base64 text of a proof.
const PROOF_LEN: usize = 44;

// At least the characters of a final text that are the same in each, and those of the proof.
const FIXED_LEN: usize = 56;

// The proof of a salted key for the text that is signed, by two HMACs.
pub(crate) fn proof_of(key: &[u8; 32], auth: &[u8], made: &mut u64) -> [u8; 32]
    requires { made.old < 2 ^ 62 }
    ensures value { result ≡ client_proof key.now auth.now }
    ensures count { made.new ≡ made.old + 2 }
{
    let mut proof = counted_code(&MacKey::new(key), b"Client Key", &[], made);
    let stored_key = Sha256::digest(proof);
    let signature = counted_code(&MacKey::new(&stored_key), auth, &[], made);
    xor_into(&mut proof, &signature);
    proof
}

// The client's first text.
pub(crate) fn client_first_text<A: Memory>(
    alloc: A,
    binding: &ChannelBinding<A>,
    nonce: &[u8],
) -> Result<Vec<u8, A>, AllocError>
    ensures ok { IfOk result (λ v. v.items ≡ client_first binding.now nonce.now) }
    ensures lacks { OnErr result A.Lacks }
{
    let header = binding.gs2_header().as_bytes();
    let room = header.len().saturating_add(nonce.len()).saturating_add(5);
    let mut text = A::list_with_capacity(alloc, room)?;
    A::extend(&mut text, header)?;
    A::extend(&mut text, b"n=,r=")?;
    A::extend(&mut text, nonce)?;
    Ok(text)
}

// The final text without its proof.
#[tactic(auto, using(crate::proofs::HeaderText::encoded_apart))]
pub(crate) fn final_front<A: Memory>(
    alloc: A,
    binding: &ChannelBinding<A>,
    nonce: &[u8],
) -> Result<Vec<u8, A>, AllocError>
    ensures ok { IfOk result (λ v. v.items ≡ without_proof (gs2_header binding.now) (binding_data binding.now) nonce.now) }
    ensures lacks { OnErr result A.Lacks }
{
    let header = binding.gs2_header().as_bytes();
    let data = binding.data();
    let room = header.len().saturating_add(data.len()).saturating_mul(2);
    let room = room.saturating_add(nonce.len()).saturating_add(FIXED_LEN);
    let mut text = A::text_with_capacity(alloc, room)?;
    A::push_str(&mut text, "c=")?;
    // A header is a whole number of groups of three bytes, so that the two texts stand side by side.
    A::push_base64(&mut text, header)?;
    A::push_base64(&mut text, data)?;
    let mut text = text.into_bytes();
    A::extend(&mut text, b",r=")?;
    A::extend(&mut text, nonce)?;
    Ok(text)
}

// The text that both sides sign.
pub(crate) fn signed_text<A: Memory>(
    alloc: A,
    client_nonce: &[u8],
    server_first: &[u8],
    front: &[u8],
) -> Result<Vec<u8, A>, AllocError>
    ensures ok { IfOk result (λ v. v.items ≡ auth_message (first_bare client_nonce.now) server_first.now front.now) }
    ensures lacks { OnErr result A.Lacks }
{
    let room = client_nonce.len().saturating_add(server_first.len());
    let room = room.saturating_add(front.len()).saturating_add(7);
    let mut text = A::list_with_capacity(alloc, room)?;
    A::extend(&mut text, b"n=,r=")?;
    A::extend(&mut text, client_nonce)?;
    A::extend(&mut text, b",")?;
    A::extend(&mut text, server_first)?;
    A::extend(&mut text, b",")?;
    A::extend(&mut text, front)?;
    Ok(text)
}

// The text that both sides sign, with the client's first text without its header as it came.
pub(crate) fn text_to_sign<A: Memory>(
    alloc: A,
    bare: &[u8],
    server_first: &[u8],
    front: &[u8],
) -> Result<Vec<u8, A>, AllocError>
    ensures ok { IfOk result (λ v. v.items ≡ auth_message bare.now server_first.now front.now) }
    ensures lacks { OnErr result A.Lacks }
{
    let room = bare.len().saturating_add(server_first.len());
    let room = room.saturating_add(front.len()).saturating_add(2);
    let mut text = A::list_with_capacity(alloc, room)?;
    A::extend(&mut text, bare)?;
    A::extend(&mut text, b",")?;
    A::extend(&mut text, server_first)?;
    A::extend(&mut text, b",")?;
    A::extend(&mut text, front)?;
    Ok(text)
}

// `front`, with the proof added.
fn proved_text<A: Memory>(front: Vec<u8, A>, proof: &[u8; 32]) -> Result<Vec<u8, A>, AllocError>
    ensures ok { IfOk result (λ v. v.items ≡ with_proof front.items (base64 proof.now)) }
    ensures lacks { OnErr result A.Lacks }
{
    let mut text = front;
    let mut shown = [0; PROOF_LEN];
    STANDARD.encode_slice(proof, &mut shown).unwrap();
    A::extend(&mut text, b",p=")?;
    A::extend(&mut text, &shown)?;
    Ok(text)
}

// The answer to what a server granted.
fn answer_granted<A: Memory>(
    alloc: A,
    start: &Start<A>,
    message: &[u8],
    granted: &Granted<A>,
    made: &mut u64,
) -> Result<Signed<A>, AllocError>
    requires few { made.old < 2 ^ 61 }
    ensures ok { IfOk result (λ s. AnswersGranted (begun_of start.now) message.now (granted_of granted.now) (answered_of s) made.old made.new) }
    ensures lacks { OnErr result A.Lacks }
    ensures grows { made.old ≤ made.new }
    ensures count { made.new ≤ made.old + (max granted.now.count 1 + 2) }
{
    let front = final_front(alloc, &start.binding, granted.nonce)?;
    let auth = signed_text(alloc, &start.nonce, message, &front)?;
    let key = counted_hi(&start.password, &granted.salt, granted.count, made);
    let proof = proof_of(&key, &auth, made);
    let final_text = proved_text(front, &proof)?;
    Ok(Signed {
        key,
        auth,
        final_text,
    })
}

// The answer to a server's first text.
#[tactic(auto, using(crate::proofs::Grants::granted_few, crate::proofs::Grants::granted_admitted))]
pub(crate) fn respond<A: Memory>(
    alloc: A,
    start: &Start<A>,
    message: &[u8],
    made: &mut u64,
) -> Result<Signed<A>, ScramError<A>>
    requires few { made.old < 2 ^ 61 }
    ensures ok { IfOk result (λ s. AnswersText (begun_of start.now) message.now (answered_of s) made.old made.new) }
    ensures err { IfErr result (λ e. RefusesText A.Lacks start.now.nonce.items message.now (refusal e) made.old made.new) }
    ensures few { made.new ≤ made.old + 100002 }
{
    let granted = admit(alloc, &start.nonce, message)?;
    Ok(answer_granted(alloc, start, message, &granted, made)?)
}
