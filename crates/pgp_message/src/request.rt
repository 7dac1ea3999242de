//! Authentication requests, which their codes distinguish. PostgreSQL manual, "Message Formats":
//! "AuthenticationOk" and those after it.

ghost use Rattle.std.specs.Prelude.{◌≡◌, true, false};
ghost use Rattle.pgp_message.specs.BackendMessage.{Authentication};
ghost use Rattle.pgp_message.specs.Reading.{made, bare_request, bare_request_of, request_of};
ghost use Rattle.pgp_message.specs.Stream.{KeepsBytes};
ghost use Rattle.pgp_message.specs.Views.{seen};

use crate::body::{
    AuthenticationGssContinueBody, AuthenticationMd5PasswordBody, AuthenticationSaslBody,
    AuthenticationSaslContinueBody, AuthenticationSaslFinalBody,
};
use crate::dispatch::ended;
use crate::message::Message;
use crate::storage::Storage;
use pgp_base::Error;
use pgp_base::reading::oid_at;

/// Authentication is done.
const OK: u32 = 0;
/// Kerberos V5 is asked for.
const KERBEROS_V5: u32 = 2;
/// The password is asked for in clear text.
const CLEARTEXT_PASSWORD: u32 = 3;
/// An MD5 answer is asked for; its salt follows.
const MD5_PASSWORD: u32 = 5;
/// SCM credentials are asked for.
const SCM_CREDENTIAL: u32 = 6;
/// A GSSAPI exchange is asked for.
const GSS: u32 = 7;
/// More of a GSSAPI or SSPI exchange follows.
const GSS_CONTINUE: u32 = 8;
/// An SSPI exchange is asked for.
const SSPI: u32 = 9;
/// SASL mechanisms are offered.
const SASL: u32 = 10;
/// The challenge of a SASL exchange follows.
const SASL_CONTINUE: u32 = 11;
/// The last word of a SASL exchange follows.
const SASL_FINAL: u32 = 12;

/// Whether an authentication request keeps bytes of its frame.
#[tactic(auto, unfolding(crate::specs::Reading::request_of, crate::specs::Reading::bare_request_of, crate::specs::Reading::by_code))]
pub fn request_keeps_bytes(payload: &[u8]) -> bool
    ensures bare { result ≡ false → request_of payload.now ≡ bare_request_of payload.now }
    ensures keeps { result ≡ true → KeepsBytes 82 payload.now }
{
    match oid_at(payload) {
        Ok((GSS_CONTINUE | SASL | SASL_CONTINUE | SASL_FINAL, _)) => true,
        _ => false,
    }
}

/// The message of an authentication request, which its code says.
#[tactic(auto, unfolding(crate::specs::Reading::request_of, crate::specs::Reading::by_code))]
pub fn authentication<S: Storage>(mut payload: S) -> Result<Message<S>, Error>
    ensures { seen result ≡ made Authentication (request_of (S.bytes payload)) }
{
    let (code, _) = oid_at(payload.as_slice())?;
    payload.skip(4);
    match code {
        GSS_CONTINUE => Ok(Message::AuthenticationGssContinue(AuthenticationGssContinueBody::new(
            payload,
        ))),
        SASL => Ok(Message::AuthenticationSasl(AuthenticationSaslBody::new(payload))),
        SASL_CONTINUE => Ok(Message::AuthenticationSaslContinue(AuthenticationSaslContinueBody::new(
            payload,
        ))),
        SASL_FINAL => Ok(Message::AuthenticationSaslFinal(AuthenticationSaslFinalBody::new(
            payload,
        ))),
        code => bare_request(code, payload.as_slice()),
    }
}

/// The authentication request of a frame of which nothing is kept.
#[tactic(auto, unfolding(crate::specs::Reading::bare_request_of))]
pub fn bare_authentication<S: Storage>(payload: &[u8]) -> Result<Message<S>, Error>
    ensures { seen result ≡ made Authentication (bare_request_of payload.now) }
{
    let (code, rest) = oid_at(payload)?;
    bare_request(code, rest)
}

/// The authentication request of a code, where nothing of the rest is kept.
#[tactic(auto, unfolding(crate::specs::Reading::bare_request))]
fn bare_request<S: Storage>(code: u32, rest: &[u8]) -> Result<Message<S>, Error>
    ensures { seen result ≡ made Authentication (bare_request code rest.now) }
{
    match code {
        OK => ended(rest, Message::AuthenticationOk),
        KERBEROS_V5 => ended(rest, Message::AuthenticationKerberosV5),
        CLEARTEXT_PASSWORD => ended(rest, Message::AuthenticationCleartextPassword),
        MD5_PASSWORD => Ok(Message::AuthenticationMd5Password(AuthenticationMd5PasswordBody::read(
            rest,
        )?)),
        SCM_CREDENTIAL => ended(rest, Message::AuthenticationScmCredential),
        GSS => ended(rest, Message::AuthenticationGss),
        SSPI => ended(rest, Message::AuthenticationSspi),
        code => Err(Error::UnknownAuthentication(code.cast_signed())),
    }
}
