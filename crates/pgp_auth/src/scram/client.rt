//! The client's side of an exchange.

ghost use Rattle.std.specs.Prelude.{◌≡◌, ◌+◌, ◌≤◌, ◌⊎◌, List, string_bytes, IfOk, IfErr, OnOk};
ghost use Rattle.std.specs.Option.{option_copied};
ghost use Rattle.pgp_auth.specs.Nonce.{drawn_chars};
ghost use Rattle.pgp_auth.specs.Prepared.{MappingLacks, prepared};
ghost use Rattle.pgp_auth.specs.ScramText.{IsNonce};
ghost use Rattle.pgp_auth.specs.ScramClient.{awaited_of, fresh, message_of, Answers, UpdateRefused, Finished, FinishRefused};
ghost use Rattle.pgp_auth.specs.ScramErrorView.{refusal};
ghost use Rattle.pgp_auth.specs.declared.scram.error.ScramError.TheVariants.{OutOfMemory};

use crate::authentication::sasl::{SaslPrep, mapped};
use crate::scram::answer::{client_first_text, respond};
use crate::scram::binding::ChannelBinding;
use crate::scram::error::ScramError;
use crate::scram::nonce::draw_nonce;
use crate::scram::state::{Start, State};
use crate::scram::verify::{server_signature, verify};
use pgp_base::Memory;
use rand_core::Rng;
use std::alloc::{Allocator, Global};
use std::marker::Model;
use std::mem;

/// The client's side of an exchange of SCRAM-SHA-256.
///
/// `message` is sent, the server's first text is handed to `update`, `message` is sent again, and the
/// server's final text is handed to `finish`. Where that is Ok, the server has shown that it holds the
/// password's verifier.
#[derive(Drop)]
pub struct ScramSha256<A: Allocator = Global> {
    state: State<A>,
    made: u64,
}

impl<A: Allocator> Model for ScramSha256<A> {
    ghost use Rattle.std.specs.Prelude.{◌+◌, ◌≤◌};
    ghost use Rattle.pgp_auth.specs.ScramClient.{Client};
    ghost use Rattle.pgp_auth.specs.ScramStateView.{state_of, reserve};

    ghost Value = { Client };

    ghost view = { λ client. record { state = state_of client.state; hmacs = client.made } };

    ghost invariant = { λ client. client.made + reserve client.state ≤ 100004 };
}

impl<A: Memory> ScramSha256<A> {
    /// Begins an exchange with a nonce of 24 characters that the generator draws. `message` is then the
    /// client-first text of RFC 5802, section 7, without a user's name: PostgreSQL takes the one of the
    /// start-up message.
    ///
    /// # Errors
    ///
    /// Returns `OutOfMemory` if memory for the exchange, or the mapping's own, can't be allocated. The
    /// generator has moved on by the nonce then too.
    pub fn new<P: SaslPrep, R: Rng>(
        alloc: A,
        password: &[u8],
        channel_binding: ChannelBinding<A>,
        prep: &P,
        rng: &mut R,
    ) -> Result<ScramSha256<A>, ScramError<A>>
        ensures ok { let nonce = (drawn_chars 24 (R.stream rng.old)).0 in
            IfOk result (λ client. client ≡ fresh (prepared (P.mapping prep.now) password.now) channel_binding nonce) }
        ensures nonce { IsNonce (drawn_chars 24 (R.stream rng.old)).0 }
        ensures drawn { R.stream rng.new ≡ (drawn_chars 24 (R.stream rng.old)).1 }
        ensures memory { IfErr result (λ e. (e ≡ OutOfMemory) × (A.Lacks ⊎ MappingLacks P.Lacks password.now)) }
    {
        let drawn = draw_nonce(rng);
        let nonce = A::list_of(alloc, &drawn)?;
        begin(alloc, password, channel_binding, nonce, prep)
    }

    /// Begins an exchange with a given nonce, which has to be a new one each time.
    ///
    /// # Errors
    ///
    /// Returns `OutOfMemory` if memory for the exchange, or the mapping's own, can't be allocated.
    pub fn with_nonce<P: SaslPrep>(
        alloc: A,
        password: &[u8],
        channel_binding: ChannelBinding<A>,
        nonce: String<A>,
        prep: &P,
    ) -> Result<ScramSha256<A>, ScramError<A>>
        requires { IsNonce (string_bytes nonce) }
        ensures ok { IfOk result (λ client. client ≡ fresh (prepared (P.mapping prep.now) password.now) channel_binding (string_bytes nonce)) }
        ensures memory { IfErr result (λ e. (e ≡ OutOfMemory) × (A.Lacks ⊎ MappingLacks P.Lacks password.now)) }
    {
        begin(alloc, password, channel_binding, nonce.into_bytes(), prep)
    }

    /// Takes the server's first text, `r=` nonce `,s=` salt `,i=` count, and makes the client-final text, which
    /// `message` then is. An error ends the exchange.
    ///
    /// # Errors
    ///
    /// The first of these. Places are byte places in the server's text.
    ///
    /// - `WrongState`: the server's first text was taken before, or the exchange is over.
    /// - `NotUtf8`.
    /// - `UnexpectedEnd`, `UnexpectedCharacter`: the text ends, or has another character, where one has to
    ///   stand.
    /// - `InvalidNumber`: the count has no digits, or is no number of 32 bits.
    /// - `Trailing`: something follows the count, as an extension.
    /// - `InvalidNonce`: the server's nonce doesn't begin with the client's.
    /// - `TooManyIterations`: the count is over 100,000.
    /// - `InvalidBase64`: the salt isn't base64 with padding.
    /// - `OutOfMemory`: the salt, or the texts after it, can't be allocated.
    pub fn update(&mut self, message: &[u8]) -> Result<(), ScramError<A>>
        ensures ok { OnOk result (Answers self.old message.now self.new) }
        ensures err { IfErr result (λ e. UpdateRefused A.Lacks self.old message.now (refusal e) self.new) }
    {
        let start = match mem::replace(&mut self.state, State::Over) {
            State::AwaitsFirst(start) => start,
            State::AwaitsFinal(_) | State::Over => return Err(ScramError::WrongState),
        };
        let mut made = self.made;
        let answer = respond(*start.nonce.allocator(), &start, message, &mut made);
        self.made = made;
        self.state = State::AwaitsFinal(answer?);
        Ok(())
    }

    /// Takes the server's final text, `v=` and the signature or `e=` and an error, and ends the exchange.
    ///
    /// All bytes of the signature have to agree.
    ///
    /// # Errors
    ///
    /// The first of these. Places are byte places in the server's text.
    ///
    /// - `WrongState`: no `update` was Ok before, or the exchange is over.
    /// - `NotUtf8`.
    /// - `UnexpectedEnd`, `UnexpectedCharacter`: the text ends, or has another character, where one has to
    ///   stand.
    /// - `Trailing`: something follows the error or the base64 text.
    /// - `Server`: the server's own error, as it stands after `e=`.
    /// - `InvalidBase64`: the text after `v=` isn't base64 with padding.
    /// - `Verification`: it shows other bytes than the signature.
    /// - `OutOfMemory`: the server's error, or base64 of more than 64 characters, can't be allocated.
    pub fn finish(&mut self, message: &[u8]) -> Result<(), ScramError<A>>
        ensures ok { OnOk result (Finished self.old message.now self.new) }
        ensures err { IfErr result (λ e. FinishRefused A.Lacks self.old message.now (refusal e) self.new) }
    {
        let signed = match mem::replace(&mut self.state, State::Over) {
            State::AwaitsFinal(signed) => signed,
            State::AwaitsFirst(_) | State::Over => return Err(ScramError::WrongState),
        };
        let mut made = self.made;
        let outcome = verify(*signed.auth.allocator(), &signed, message, &mut made);
        self.made = made;
        outcome
    }
}

impl<A: Allocator> ScramSha256<A> {
    /// The text to send, or `None` once the exchange is over.
    pub fn message(&self) -> Option<&[u8]>
        ensures { option_copied result ≡ message_of self.now.state }
    {
        match &self.state {
            State::AwaitsFirst(start) => Some(&start.first_text),
            State::AwaitsFinal(signed) => Some(&signed.final_text),
            State::Over => None,
        }
    }

    /// The signature that the server's final text has to show, once `update` was Ok; for callers that keep no client until then, and
    /// hands it to `verify_signature`. It is made by 2 HMACs, which `hmacs` doesn't count.
    pub fn signature(&self) -> Option<[u8; 32]>
        ensures { result ≡ awaited_of self.now.state }
    {
        match &self.state {
            State::AwaitsFinal(signed) => Some(server_signature(signed, &mut 0)),
            State::AwaitsFirst(_) | State::Over => None,
        }
    }

    /// The HMACs that `update` and `finish` have made: the rounds (at least one) and 2 for an `update` that is
    /// Ok, 2 for a `finish` that compares.
    pub fn hmacs(&self) -> u64
        ensures value { result ≡ self.now.hmacs }
        ensures few { result ≤ 100004 }
    {
        self.made
    }
}

// The prepared password, owned.
fn owned_password<A: Memory, P: SaslPrep>(
    alloc: A,
    password: &[u8],
    prep: &P,
) -> Result<Vec<u8, A>, ScramError<A>>
    ensures ok { IfOk result (λ v. v.items ≡ prepared (P.mapping prep.now) password.now) }
    ensures memory { IfErr result (λ e. (e ≡ OutOfMemory) × (A.Lacks ⊎ MappingLacks P.Lacks password.now)) }
{
    match mapped(alloc, password, prep) {
        Ok(Some(text)) => Ok(text.into_bytes()),
        Ok(None) => Ok(A::list_of(alloc, password)?),
        Err(_) => Err(ScramError::OutOfMemory),
    }
}

// An exchange that has begun.
fn begin<A: Memory, P: SaslPrep>(
    alloc: A,
    password: &[u8],
    binding: ChannelBinding<A>,
    nonce: Vec<u8, A>,
    prep: &P,
) -> Result<ScramSha256<A>, ScramError<A>>
    ensures ok { IfOk result (λ client. client ≡ fresh (prepared (P.mapping prep.now) password.now) binding nonce.items) }
    ensures memory { IfErr result (λ e. (e ≡ OutOfMemory) × (A.Lacks ⊎ MappingLacks P.Lacks password.now)) }
{
    let password = owned_password(alloc, password, prep)?;
    let first_text = client_first_text(alloc, &binding, &nonce)?;
    Ok(ScramSha256 {
        state: State::AwaitsFirst(Start {
            password,
            binding,
            nonce,
            first_text,
        }),
        made: 0,
    })
}
