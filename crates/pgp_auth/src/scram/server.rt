//! The server's side of an exchange.

ghost use Rattle.std.specs.Prelude.{◌≡◌, string_bytes, IfOk, IfErr};
ghost use Rattle.pgp_auth.specs.Nonce.{drawn_chars};
ghost use Rattle.pgp_auth.specs.declared.scram.server_error.ServerError.TheVariants.{OutOfMemory};
ghost use Rattle.pgp_auth.specs.ScramText.{IsNonce};
ghost use Rattle.pgp_auth.specs.ScramServing.{AwaitsFirst, Challenges, FirstRefused, Admits, FinalRefused};
ghost use Rattle.pgp_auth.specs.ScramServerView.{verifier_of, offer_of};

use crate::scram::held::{ChannelOffer, ServerState, StoredVerifier, Waiting};
use crate::scram::nonce::draw_nonce;
use crate::scram::server_error::ServerError;
use crate::scram::serving::{admit, challenge};
use pgp_base::Memory;
use rand_core::Rng;
use std::alloc::{Allocator, Global};
use std::marker::Model;
use std::mem;

/// The server's side of an exchange of SCRAM-SHA-256.
///
/// The client's first text is handed to `first`, which gives the text to answer, and its final text to `finish`.
/// Where that is Ok, the client has shown that it knows the password's key.
#[derive(Drop)]
pub struct ScramServer<A: Allocator = Global> {
    state: ServerState<A>,
}

impl<A: Allocator> Model for ScramServer<A> {
    ghost use Rattle.pgp_auth.specs.ScramServing.{Server};
    ghost use Rattle.pgp_auth.specs.ScramServerView.{server_of};

    ghost Value = { Server };

    ghost view = { λ server. server_of server.state };
}

impl<A: Memory> ScramServer<A> {
    /// A server that holds the verifier of the user's password. Its own part of the nonce is 24 characters that the generator
    /// draws.
    ///
    /// # Errors
    ///
    /// Returns `OutOfMemory` if memory for the nonce can't be allocated. The generator has moved on by the nonce then too.
    pub fn new<R: Rng>(
        alloc: A,
        verifier: StoredVerifier<A>,
        offer: ChannelOffer<A>,
        rng: &mut R,
    ) -> Result<ScramServer<A>, ServerError>
        ensures ok { let nonce = (drawn_chars 24 (R.stream rng.old)).0 in
            IfOk result (λ server. server ≡ AwaitsFirst (record { verifier = verifier_of verifier; is_mock = verifier.is_mock; offer = offer_of offer; own = nonce })) }
        ensures nonce { IsNonce (drawn_chars 24 (R.stream rng.old)).0 }
        ensures drawn { R.stream rng.new ≡ (drawn_chars 24 (R.stream rng.old)).1 }
        ensures memory { IfErr result (λ e. (e ≡ OutOfMemory) × A.Lacks) }
    {
        let drawn = draw_nonce(rng);
        let own = A::list_of(alloc, &drawn)?;
        Ok(ScramServer {
            state: ServerState::AwaitsFirst(Waiting {
                verifier,
                offer,
                own,
            }),
        })
    }

    /// A server that holds the verifier of the user's password, with its own part of the nonce, which has to be a new
    /// one each time.
    pub fn with_nonce(
        verifier: StoredVerifier<A>,
        offer: ChannelOffer<A>,
        nonce: String<A>,
    ) -> ScramServer<A>
        requires { IsNonce (string_bytes nonce) }
        ensures { result ≡ AwaitsFirst (record { verifier = verifier_of verifier; is_mock = verifier.is_mock; offer = offer_of offer; own = string_bytes nonce }) }
    {
        ScramServer {
            state: ServerState::AwaitsFirst(Waiting {
                verifier,
                offer,
                own: nonce.into_bytes(),
            }),
        }
    }

    /// Takes the client's first text, and gives the server's. An error ends the exchange.
    ///
    /// # Errors
    ///
    /// The first of these.
    ///
    /// - `WrongState`: the text was taken before, or the exchange is over.
    /// - `UnsupportedBinding`: no header that claims a binding which is taken stands at its front.
    /// - `InvalidFirst`: another text than `n=`, a user's name, `,r=` and a nonce follows it. The name may be empty, and nothing is
    ///   made of it: the user is the one of the startup packet.
    /// - `OutOfMemory`: memory for the texts can't be allocated.
    pub fn first(&mut self, client_first: &[u8]) -> Result<Vec<u8, A>, ServerError>
        ensures ok { IfOk result (λ text. Challenges self.old client_first.now self.new text.items) }
        ensures err { IfErr result (λ e. FirstRefused A.Lacks self.old client_first.now e self.new) }
    {
        let waiting = match mem::replace(&mut self.state, ServerState::Over) {
            ServerState::AwaitsFirst(waiting) => waiting,
            ServerState::AwaitsFinal(_) | ServerState::Over => return Err(ServerError::WrongState),
        };
        let (challenged, answer) = challenge(waiting, client_first)?;
        self.state = ServerState::AwaitsFinal(challenged);
        Ok(answer)
    }

    /// Takes the client's final text, and gives the server's, where the server accepts it. The exchange is over.
    ///
    /// All 32 bytes of the key's digest are compared, whichever differ. It takes no memory.
    ///
    /// # Errors
    ///
    /// The first of these.
    ///
    /// - `WrongState`: no `first` was Ok before, or the exchange is over.
    /// - `OtherExchange`: the text doesn't begin with this exchange's header, data and nonce.
    /// - `InvalidEncoding`: no base64 of 32 bytes stands after `,p=`.
    /// - `InvalidProof`: the proof is of another key, or the verifier is made up (`StoredVerifier::mock`).
    pub fn finish(&mut self, client_final: &[u8]) -> Result<[u8; 46], ServerError>
        ensures ok { IfOk result (λ text. Admits self.old client_final.now self.new text) }
        ensures err { IfErr result (λ e. FinalRefused self.old client_final.now e self.new) }
    {
        match mem::replace(&mut self.state, ServerState::Over) {
            ServerState::AwaitsFinal(challenged) => admit(&challenged, client_final),
            ServerState::AwaitsFirst(_) | ServerState::Over => Err(ServerError::WrongState),
        }
    }
}
