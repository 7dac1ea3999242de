//! Requests for authentication that carry something.

ghost use Rattle.std.specs.Prelude.{◌≡◌, ◌≤◌, length, None};
ghost use Rattle.pgp_base.specs.Items.{MarkedItems};
ghost use Rattle.pgp_message.specs.Items.{StringSpelled, StringRefused, TextSpelled, TextRefused};
ghost use Rattle.pgp_message.specs.Reading.{salt_of};

use crate::storage::Storage;
use crate::walk::{RawMechanisms, SaslMechanisms};
use bytes::Bytes;
use pgp_base::Error;
use std::alloc::Allocator;
use std::marker::Model;

/// A request for an MD5 answer.
#[derive(Drop)]
pub struct AuthenticationMd5PasswordBody {
    salt: [u8; 4],
    // No bytes: it keeps the salt away from the byte that reports the kind of a message, which is else stored as one byte
    // and read back with the salt. It carries the speed of tiny messages.
    place: [u64; 0],
}

impl Model for AuthenticationMd5PasswordBody {
    ghost use Rattle.std.specs.Prelude.{ℕ, List};

    ghost Value = { List ℕ };

    ghost view = { λ body. body.salt };
}

impl AuthenticationMd5PasswordBody {
    #[tactic(auto, unfolding(crate::specs::Reading::salt_of))]
    pub(crate) fn read(bytes: &[u8]) -> Result<Self, Error>
        ensures { result ≡ salt_of bytes.now }
    {
        if bytes.len() < 4 {
            return Err(Error::UnexpectedEof);
        }
        let salt = [bytes[0], bytes[1], bytes[2], bytes[3]];
        if bytes.len() > 4 {
            return Err(Error::NotDrained);
        }
        Ok(AuthenticationMd5PasswordBody { salt, place: [] })
    }

    /// The four bytes that the answer is salted with.
    pub fn salt(&self) -> [u8; 4]
        ensures { result ≡ self.now }
    {
        self.salt
    }
}

/// More of a GSSAPI or SSPI exchange.
#[derive(Drop)]
pub struct AuthenticationGssContinueBody<S: Storage = Bytes> {
    token: S,
}

impl<S: Storage> Model for AuthenticationGssContinueBody<S> {
    ghost use Rattle.std.specs.Prelude.{ℕ, List};

    ghost Value = { List ℕ };

    ghost view = { λ body. S.bytes body.token };
}

impl<S: Storage> AuthenticationGssContinueBody<S> {
    pub(crate) fn new(token: S) -> AuthenticationGssContinueBody<S>
        ensures { result ≡ S.bytes token }
    {
        AuthenticationGssContinueBody { token }
    }
}

impl<A: Allocator> AuthenticationGssContinueBody<Bytes<A>> {
    /// The bytes after the code.
    pub fn data(&self) -> &[u8]
        ensures { result.now ≡ self.now }
    {
        self.token.as_slice()
    }
}

impl<'a> AuthenticationGssContinueBody<&'a [u8]> {
    /// The bytes after the code.
    pub fn data(&self) -> &'a [u8]
        ensures { result.now ≡ self.now }
    {
        self.token
    }
}

/// The SASL mechanisms that a server offers.
#[derive(Drop)]
pub struct AuthenticationSaslBody<S: Storage = Bytes> {
    mechanisms: S,
}

impl<S: Storage> Model for AuthenticationSaslBody<S> {
    ghost use Rattle.std.specs.Prelude.{ℕ, List};

    ghost Value = { List ℕ };

    ghost view = { λ body. S.bytes body.mechanisms };
}

impl<S: Storage> AuthenticationSaslBody<S> {
    pub(crate) fn new(mechanisms: S) -> AuthenticationSaslBody<S>
        ensures { result ≡ S.bytes mechanisms }
    {
        AuthenticationSaslBody { mechanisms }
    }
}

impl<A: Allocator> AuthenticationSaslBody<Bytes<A>> {
    /// The mechanisms, by name.
    pub fn mechanisms(&self) -> SaslMechanisms<'_>
        ensures items { MarkedItems TextSpelled TextRefused self.now result.items result.end }
        ensures announced { result.announced ≡ None }
        ensures few { length result.items ≤ length self.now }
    {
        SaslMechanisms::over(self.mechanisms.as_slice())
    }

    /// The mechanisms, whose names need not be text.
    pub fn raw_mechanisms(&self) -> RawMechanisms<'_>
        ensures items { MarkedItems StringSpelled StringRefused self.now result.items result.end }
        ensures announced { result.announced ≡ None }
        ensures few { length result.items ≤ length self.now }
    {
        RawMechanisms::over(self.mechanisms.as_slice())
    }
}

impl<'a> AuthenticationSaslBody<&'a [u8]> {
    /// The mechanisms, by name.
    pub fn mechanisms(&self) -> SaslMechanisms<'a>
        ensures items { MarkedItems TextSpelled TextRefused self.now result.items result.end }
        ensures announced { result.announced ≡ None }
        ensures few { length result.items ≤ length self.now }
    {
        SaslMechanisms::over(self.mechanisms)
    }

    /// The mechanisms, whose names need not be text.
    pub fn raw_mechanisms(&self) -> RawMechanisms<'a>
        ensures items { MarkedItems StringSpelled StringRefused self.now result.items result.end }
        ensures announced { result.announced ≡ None }
        ensures few { length result.items ≤ length self.now }
    {
        RawMechanisms::over(self.mechanisms)
    }
}

/// A server's challenge in a SASL exchange.
#[derive(Drop)]
pub struct AuthenticationSaslContinueBody<S: Storage = Bytes> {
    challenge: S,
}

impl<S: Storage> Model for AuthenticationSaslContinueBody<S> {
    ghost use Rattle.std.specs.Prelude.{ℕ, List};

    ghost Value = { List ℕ };

    ghost view = { λ body. S.bytes body.challenge };
}

impl<S: Storage> AuthenticationSaslContinueBody<S> {
    pub(crate) fn new(challenge: S) -> AuthenticationSaslContinueBody<S>
        ensures { result ≡ S.bytes challenge }
    {
        AuthenticationSaslContinueBody { challenge }
    }
}

impl<A: Allocator> AuthenticationSaslContinueBody<Bytes<A>> {
    /// The bytes after the code.
    pub fn data(&self) -> &[u8]
        ensures { result.now ≡ self.now }
    {
        self.challenge.as_slice()
    }
}

impl<'a> AuthenticationSaslContinueBody<&'a [u8]> {
    /// The bytes after the code.
    pub fn data(&self) -> &'a [u8]
        ensures { result.now ≡ self.now }
    {
        self.challenge
    }
}

/// A server's last word in a SASL exchange.
#[derive(Drop)]
pub struct AuthenticationSaslFinalBody<S: Storage = Bytes> {
    outcome: S,
}

impl<S: Storage> Model for AuthenticationSaslFinalBody<S> {
    ghost use Rattle.std.specs.Prelude.{ℕ, List};

    ghost Value = { List ℕ };

    ghost view = { λ body. S.bytes body.outcome };
}

impl<S: Storage> AuthenticationSaslFinalBody<S> {
    pub(crate) fn new(outcome: S) -> AuthenticationSaslFinalBody<S>
        ensures { result ≡ S.bytes outcome }
    {
        AuthenticationSaslFinalBody { outcome }
    }
}

impl<A: Allocator> AuthenticationSaslFinalBody<Bytes<A>> {
    /// The bytes after the code.
    pub fn data(&self) -> &[u8]
        ensures { result.now ≡ self.now }
    {
        self.outcome.as_slice()
    }
}

impl<'a> AuthenticationSaslFinalBody<&'a [u8]> {
    /// The bytes after the code.
    pub fn data(&self) -> &'a [u8]
        ensures { result.now ≡ self.now }
    {
        self.outcome
    }
}
