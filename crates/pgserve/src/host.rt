//! What is the same for each client: the users, the nonce, the certificate and the script.

ghost use Rattle.std.specs.Prelude.{◌≡◌, ◌≢◌, ◌⊎◌, IfNone, IfOk, IfSome, None, OnOk};
ghost use Rattle.std.specs.List.{All};
ghost use Rattle.pgp_auth.specs.ScramServerView.{verifier_of};
ghost use Rattle.pgp_session.specs.Serving.{Replies};
ghost use Rattle.pgserve.specs.First.{IsFirst};
ghost use Rattle.pgserve.specs.LogIn.{AsksBy, AsksUser, HasExchange, IsAccount, OpensFor, OpensForUser, StandsFor, StandsForMd5};
ghost use Rattle.pgserve.specs.LogIn.{asked_after, asked_by, awaits, mechanisms, question, seen};

use crate::fault::Fault;
use crate::outbox::Outbox;
use crate::script::Script;
use crate::user::{Auth, User, verifier_of};
use crate::words::Words;
use pgp_auth::authentication::sasl::{
    ChannelOffer, SCRAM_SHA_256, ScramServer, StoredVerifier, is_nonce,
};
use pgp_base::{Buffer, Error};
use pgp_message_write as reply;
use pgp_session::serving::{Method, Serving, ServingPhase};
use std::alloc::{AllocError, Global};

/// The salt of MD5, the same each time, as the nonce is.
const SALT: [u8; 4] = [1, 2, 3, 4];

/// The mechanism that is bound to the certificate.
pub(crate) const SCRAM_PLUS: &[u8] = b"SCRAM-SHA-256-PLUS";

/// A server, before a client is connected.
#[derive(Clone, Copy)]
pub(crate) struct Host<'h> {
    /// The user whom the words name, and what another one is asked for.
    user: &'h str,
    account: Account<'h>,
    pub(crate) nonce: &'h str,
    certificate: &'h str,
    /// Whether the connection is recorded on standard error.
    pub(crate) is_recorded: bool,
    pub(crate) script: &'h Script,
}

/// What a user has to show.
#[derive(Clone, Copy)]
struct Account<'h> {
    auth: Auth,
    verifier: &'h str,
    /// Whether there is such a user.
    is_known: bool,
}

impl Account<'_> {
    /// The verifier of the user of this name, or one that stands for the verifier of a user who isn't there.
    fn stored(self, alloc: Global, user: &[u8]) -> Result<StoredVerifier, Fault>
        ensures { IfOk result (λ held. StandsFor (seen self.entry) (verifier_of held) held.is_mock) }
    {
        if self.is_known {
            return verifier_of(alloc, self.verifier);
        }
        Ok(StoredVerifier::mock(alloc, self.verifier.as_bytes(), user)?)
    }

    /// What a server stores for MD5; nothing of a user who isn't there.
    fn md5(self, alloc: Global) -> Result<Vec<u8>, AllocError>
        ensures { IfOk result (λ held. StandsForMd5 (seen self.entry) held.items) }
    {
        if self.is_known {
            return Vec::from_slice(alloc, self.verifier.as_bytes());
        }
        Ok(Vec::new(alloc))
    }

    /// An exchange with a user of this name. One who isn't there is asked like the one who is, and rejected in the end.
    fn exchange(
        self,
        alloc: Global,
        user: &[u8],
        nonce: &str,
        offer: ChannelOffer,
    ) -> Result<ScramServer, Fault>
        ensures { IfOk result (OpensFor (seen self.entry)) }
    {
        let verifier = self.stored(alloc, user)?;
        let nonce = String::from_str(alloc, nonce)?;
        if !is_nonce(&nonce) {
            return Err(Fault::Nonce);
        }
        Ok(ScramServer::with_nonce(verifier, offer, nonce))
    }

    /// What is asked of a user of this name; `None` where the client has to choose a mechanism first.
    fn asks(self, alloc: Global, user: &[u8], nonce: &str) -> Result<Option<Method>, Fault>
        ensures { IfOk result (AsksBy self.entry.auth (seen self.entry)) }
    {
        match self.auth {
            Auth::Trust => Ok(Some(Method::Nothing)),
            Auth::Password => match self.stored(alloc, user) {
                Ok(stored) => Ok(Some(Method::Password(stored))),
                Err(fault) => Err(fault),
            },
            Auth::Md5 => match self.md5(alloc) {
                Ok(stored) => Ok(Some(Method::Md5 { salt: SALT, stored })),
                Err(fault) => Err(Fault::from(fault)),
            },
            Auth::Scram => match self.exchange(alloc, user, nonce, ChannelOffer::NotOffered) {
                Ok(exchange) => Ok(Some(Method::Exchange(exchange))),
                Err(fault) => Err(fault),
            },
            Auth::ScramPlus => Ok(None),
        }
    }
}

/// The first of these users of this name.
fn first_named<'u>(users: &'u [User], name: &[u8]) -> Option<&'u User>
    ensures some { IfSome result (λ known. IsFirst (λ other. other.name.items ≡ name.now) users.now known.now) }
    ensures none { IfNone result (All (λ other. other.name.items ≢ name.now) users.now) }
{
    users.iter().find(|known| known.name.as_slice() == name)
}

/// Asks for what the client has to show by this method.
fn ask_by<B: Buffer>(method: Method, serving: &mut Serving, out: &mut B) -> Result<(), Error>
    requires { serving.old.phase ≡ ServingPhase.Named }
    ensures sent { Replies (asked_by method) B.Lacks (B.held out.old) (B.held out.new) result }
    ensures asked { OnOk result (serving.new ≡ record { phase = awaits method; method = method }) }
{
    match method {
        Method::Nothing => serving.trust(out),
        Method::Password(stored) => serving.ask_password(stored, out),
        Method::Md5 { salt, stored } => serving.ask_md5(salt, stored, out),
        Method::Exchange(exchange) => serving.ask_scram(exchange, out),
    }
}

/// Offers the mechanisms, bound to the certificate and not.
fn offer_mechanisms<B: Buffer>(out: &mut B) -> Result<(), Error>
    ensures { Replies mechanisms B.Lacks (B.held out.old) (B.held out.new) result }
{
    reply::authentication_sasl(&[SCRAM_PLUS, SCRAM_SHA_256.as_bytes()], out)
}

/// Asks by the method, or offers the mechanisms where there is none yet.
fn put_question<B: Buffer>(
    asked: Option<Method>,
    serving: &mut Serving,
    out: &mut B,
) -> Result<(), Error>
    requires { serving.old.phase ≡ ServingPhase.Named }
    ensures sent { Replies (question asked) B.Lacks (B.held out.old) (B.held out.new) result }
    ensures asked { OnOk result (serving.new ≡ asked_after asked serving.old.method) }
{
    match asked {
        Some(method) => ask_by(method, serving, out),
        None => {
            serving.phase = ServingPhase::AwaitsFirst;
            offer_mechanisms(out)
        }
    }
}

impl<'h> Host<'h> {
    /// The server that the words say.
    ///
    /// # Errors
    ///
    /// Returns `Auth` if there is no such method.
    pub(crate) fn new(words: &Words<'h>, script: &'h Script) -> Result<Host<'h>, Fault> {
        let Some(auth) = Auth::of(words.auth) else {
            return Err(Fault::Auth);
        };
        let account = Account {
            auth,
            verifier: words.verifier,
            is_known: true,
        };
        Ok(Host {
            user: words.user,
            account,
            nonce: words.nonce,
            certificate: words.certificate,
            is_recorded: words.is_recorded,
            script,
        })
    }

    /// Tests the verifier, the nonce and the certificate's hash, where they are needed.
    ///
    /// # Errors
    ///
    /// Returns `Verifier`, `Nonce` and `Certificate` if they have another form, and `NoNonce` if there is none.
    pub(crate) fn test(&self, alloc: Global) -> Result<(), Fault> {
        if self.account.auth != Auth::Trust {
            self.account.auth.test(alloc, self.account.verifier)?;
        }
        let is_bound = self.asks_for(Auth::ScramPlus);
        if is_bound || self.asks_for(Auth::Scram) {
            self.test_nonce()?;
        }
        if is_bound && self.hash(alloc)?.is_none() {
            return Err(Fault::Certificate);
        }
        Ok(())
    }

    /// Tests the nonce.
    fn test_nonce(&self) -> Result<(), Fault> {
        if self.nonce.is_empty() {
            return Err(Fault::NoNonce);
        }
        if is_nonce(self.nonce) {
            Ok(())
        } else {
            Err(Fault::Nonce)
        }
    }

    /// Whether a user is asked for this.
    fn asks_for(&self, auth: Auth) -> bool {
        for user in &self.script.users {
            if user.auth == auth {
                return true;
            }
        }
        self.account.auth == auth
    }

    /// The script's first user of this name.
    fn named(&self, user: &[u8]) -> Option<&'h User>
        ensures some { IfSome result (λ known. IsFirst (λ other. other.name.items ≡ user.now) self.now.script.now.users.items known.now) }
        ensures none { IfNone result (All (λ known. known.name.items ≢ user.now) self.now.script.now.users.items) }
    {
        first_named(&self.script.users, user)
    }

    /// What a user of this name has to show.
    fn account(&self, user: &[u8]) -> Account<'h>
        ensures { IsAccount self.now.script.now.users.items self.now.user.now (seen self.now.account) user.now (seen result) }
    {
        match self.named(user) {
            Some(known) => Account {
                auth: known.auth,
                verifier: known.verifier.as_str(),
                is_known: true,
            },
            None => Account {
                auth: self.account.auth,
                verifier: self.account.verifier,
                is_known: user == self.user.as_bytes(),
            },
        }
    }

    /// Asks a user of this name for what has to be shown.
    pub(crate) fn ask(&self, user: &[u8], serving: &mut Serving, out: &mut Outbox)
        ensures asked { serving.old.phase ≡ ServingPhase.Named → AsksUser self.now.script.now.users.items self.now.user.now (seen self.now.account) user.now
            serving.old serving.new out.old.bytes.items out.new.bytes.items ⊎ (out.new.fault ≢ None) }
        ensures kept { serving.old.phase ≢ ServingPhase.Named → serving.new ≡ serving.old }
    {
        if serving.phase != ServingPhase::Named {
            return;
        }
        if let Err(fault) = self.demand(user, serving, out) {
            out.fail(fault);
        }
    }

    /// The same; a fault is returned.
    #[tactic(auto, unfolding(pgp_base::specs::Held::lengthened))]
    fn demand(&self, user: &[u8], serving: &mut Serving, out: &mut Outbox) -> Result<(), Fault>
        requires { serving.old.phase ≡ ServingPhase.Named }
        ensures { IfOk result (λ done. AsksUser self.now.script.now.users.items self.now.user.now (seen self.now.account) user.now
            serving.old serving.new out.old.bytes.items out.new.bytes.items) }
    {
        let (account, alloc) = (self.account(user), out.alloc);
        match account.asks(alloc, user, self.nonce) {
            Ok(asked) => match put_question(asked, serving, &mut out.bytes) {
                Ok(()) => Ok(()),
                Err(why) => Err(Fault::from(why)),
            },
            Err(fault) => Err(fault),
        }
    }

    /// An exchange of a server that offers a binding, which the client chose, or didn't.
    fn exchange(&self, alloc: Global, user: &[u8], is_bound: bool) -> Result<ScramServer, Fault>
        ensures { IfOk result (λ exchange. OpensForUser self.now.script.now.users.items self.now.user.now (seen self.now.account) user.now exchange) }
    {
        if !is_bound {
            return self.with_offer(alloc, user, ChannelOffer::Declined);
        }
        let Some(hash) = self.hash(alloc)? else {
            return Err(Fault::Certificate);
        };
        self.with_offer(alloc, user, ChannelOffer::Chosen(hash))
    }

    /// The method by which a user is logged in who has the choice and chose the binding, or didn't; `None` of another.
    pub(crate) fn method(
        &self,
        alloc: Global,
        user: &[u8],
        is_bound: bool,
    ) -> Result<Option<Method>, Fault>
        ensures { IfOk result (λ method. IfSome method (HasExchange self.now.script.now.users.items self.now.user.now (seen self.now.account) user.now)) }
    {
        if !self.is_bound(user) {
            return Ok(None);
        }
        match self.exchange(alloc, user, is_bound) {
            Ok(exchange) => Ok(Some(Method::Exchange(exchange))),
            Err(fault) => Err(fault),
        }
    }

    /// Whether a user of this name may bind the log-in to the certificate.
    pub(crate) fn is_bound(&self, user: &[u8]) -> bool {
        self.account(user).auth == Auth::ScramPlus
    }

    /// The certificate's hash; `None` where the words have another form.
    fn hash(&self, alloc: Global) -> Result<Option<Vec<u8>>, AllocError> {
        match hex::decode(alloc, self.certificate) {
            Ok(hash) if hash.is_empty() => Ok(None),
            Ok(hash) => Ok(Some(hash)),
            Err(hex::FromHexError::OutOfMemory) => Err(AllocError),
            Err(_) => Ok(None),
        }
    }

    /// The exchange with a user of this name. One who isn't there is asked like the one who is, and rejected in the
    /// end.
    fn with_offer(
        &self,
        alloc: Global,
        user: &[u8],
        offer: ChannelOffer,
    ) -> Result<ScramServer, Fault>
        ensures { IfOk result (λ exchange. OpensForUser self.now.script.now.users.items self.now.user.now (seen self.now.account) user.now exchange) }
    {
        self.account(user).exchange(alloc, user, self.nonce, offer)
    }
}
