//! An exchange of which a caller keeps what it is made of: a client is made anew at each call.

ghost use Rattle.std.specs.Prelude.{◌≡◌, OnErr, IfOk, IfErr, Some, None};
ghost use Rattle.pgp_auth.specs.Prepared.{prepared};
ghost use Rattle.pgp_auth.specs.ScramClient.{fresh};
ghost use Rattle.pgp_login.specs.Exchange.{Answers, Begins, NoBinding, Unbegun, Unmade, Verified, binding_at, bound_of, seen_caller, seen_client};
ghost use Rattle.pgp_login.specs.Fault.{fault};

use crate::exchange::Exchange;
use crate::fault::LoginError;
use crate::held;
use bytes::BytesMut;
use pgp_auth::authentication::sasl::{
    ChannelBinding, NoPrep, ScramError, ScramSha256, is_nonce, verify_signature,
};
use pgp_base::Memory;

/// What an exchange is made of, and the signature that is awaited, once the server's first text was answered.
#[derive(Clone, Copy)]
pub struct Caller<'a> {
    pub password: &'a [u8],
    pub certificate: &'a [u8],
    pub nonce: &'a [u8],
    /// The kind of the channel binding: 0 none, 1 none that was asked for, 2 `tls-server-end-point` with the certificate's hash.
    pub kind: u8,
    pub signature: [u8; 32],
}

impl<'a, A: Memory> Exchange<A> for Caller<'a> {
    ghost shown = { seen_caller };

    fn is_bound(&self) -> Option<bool> {
        is_bound(self)
    }

    fn begin(&self, alloc: A, out: &mut BytesMut<A>) -> Result<(), LoginError<A>> {
        begin(alloc, self, out)
    }

    fn answer(
        &mut self,
        alloc: A,
        text: &[u8],
        out: &mut BytesMut<A>,
    ) -> Result<(), LoginError<A>> {
        answer(alloc, self, text, out)
    }

    fn verify(&mut self, alloc: A, text: &[u8]) -> Result<(), LoginError<A>> {
        verify(alloc, self, text)
    }
}

fn is_bound(exchange: &Caller<'_>) -> Option<bool>
    ensures { result ≡ bound_of (seen_caller exchange.now) }
{
    if exchange.kind == 0 {
        return Some(false);
    }
    if exchange.kind == 1 {
        return Some(false);
    }
    if exchange.kind == 2 {
        return Some(true);
    }
    None
}

fn begin<A: Memory>(
    alloc: A,
    exchange: &Caller<'_>,
    out: &mut BytesMut<A>,
) -> Result<(), LoginError<A>>
    ensures said { Begins A.Lacks (seen_caller exchange.now) out.old.items out.new.items result }
    ensures kept { OnErr result (out.new.items ≡ out.old.items) }
{
    match made(alloc, exchange) {
        Ok(client) => held::begin(&client, out),
        Err(e) => Err(e),
    }
}

fn answer<A: Memory>(
    alloc: A,
    exchange: &mut Caller<'_>,
    text: &[u8],
    out: &mut BytesMut<A>,
) -> Result<(), LoginError<A>>
    ensures said { Answers A.Lacks text.now (seen_caller exchange.old) (seen_caller exchange.new) out.old.items out.new.items result }
    ensures kept { OnErr result (out.new.items ≡ out.old.items) }
{
    let mut client = match made(alloc, exchange) {
        Ok(client) => client,
        Err(e) => return Err(e),
    };
    match held::answer(&mut client, text, out) {
        Ok(()) => {}
        Err(e) => return Err(e),
    }
    let Some(signature) = client.signature() else {
        unreachable!()
    };
    exchange.signature = signature;
    Ok(())
}

fn verify<A: Memory>(alloc: A, exchange: &Caller<'_>, text: &[u8]) -> Result<(), LoginError<A>>
    ensures { Verified A.Lacks text.now (seen_caller exchange.now) result }
{
    match verify_signature(alloc, &exchange.signature, text) {
        Ok(()) => Ok(()),
        Err(e) => Err(LoginError::Scram(e)),
    }
}

/// A client that begins so.
fn made<A: Memory>(alloc: A, exchange: &Caller<'_>) -> Result<ScramSha256<A>, LoginError<A>>
    ensures ok { IfOk result (λ client. (seen_client client).begun ≡ (seen_caller exchange.now).begun) }
    ensures err { IfErr result (λ e. Unbegun A.Lacks (seen_caller exchange.now) (fault e)) }
{
    match binding(alloc, exchange.kind, exchange.certificate) {
        Ok(binding) => made_with(alloc, exchange.password, binding, exchange.nonce),
        Err(e) => Err(e),
    }
}

/// A client that begins with this channel binding.
fn made_with<A: Memory>(
    alloc: A,
    password: &[u8],
    binding: ChannelBinding<A>,
    nonce: &[u8],
) -> Result<ScramSha256<A>, LoginError<A>>
    ensures ok { IfOk result (λ client. client ≡ fresh (prepared (λ _. None) password.now) binding nonce.now) }
    ensures err { IfErr result (λ e. Unmade A.Lacks nonce.now (fault e)) }
{
    let Ok(text) = pgp_base::text(nonce) else {
        return Err(LoginError::BadNonce);
    };
    if !is_nonce(text) {
        return Err(LoginError::BadNonce);
    }
    let Ok(text) = A::text_of(alloc, text) else {
        return Err(LoginError::Scram(ScramError::OutOfMemory));
    };
    match ScramSha256::with_nonce(alloc, password, binding, text, &NoPrep) {
        Ok(client) => Ok(client),
        Err(_) => Err(LoginError::Scram(ScramError::OutOfMemory)),
    }
}

/// The channel binding of this number: 0 none, 1 none that was asked for, 2 `tls-server-end-point` with these bytes.
fn binding<A: Memory>(
    alloc: A,
    kind: u8,
    certificate: &[u8],
) -> Result<ChannelBinding<A>, LoginError<A>>
    ensures ok { IfOk result (λ b. binding_at kind certificate.now ≡ Some b) }
    ensures err { IfErr result (λ e. NoBinding A.Lacks kind certificate.now (fault e)) }
{
    if kind == 0 {
        return Ok(ChannelBinding::unsupported());
    }
    if kind == 1 {
        return Ok(ChannelBinding::unrequested());
    }
    if kind != 2 {
        return Err(LoginError::Scram(ScramError::WrongState));
    }
    match A::list_of(alloc, certificate) {
        Ok(data) => Ok(ChannelBinding::tls_server_end_point(data)),
        Err(_) => Err(LoginError::Scram(ScramError::OutOfMemory)),
    }
}
