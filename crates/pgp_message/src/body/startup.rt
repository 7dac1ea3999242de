//! What an answer to a startup packet brings: the key of a cancel request, and the version that the server speaks. Longer keys and
//! versions belong to this project's profile of protocol 3.2; nothing is claimed of a server's 3.2.

ghost use Rattle.std.specs.Prelude.{◌≡◌, ◌≢◌, ◌≤◌, length, Some, IfSome, IfNone};
ghost use Rattle.pgp_base.specs.Items.{CountedItems};
ghost use Rattle.pgp_base.specs.Wire.{int32};
ghost use Rattle.pgp_message.specs.Items.{StringSpelled, StringRefused, TextSpelled, TextRefused};
ghost use Rattle.pgp_message.specs.Reading.{count_at, key_data_of, negotiation_of};

use crate::storage::Storage;
use crate::walk::{ProtocolOptions, RawOptions};
use bytes::Bytes;
use pgp_base::reading::int32_at;
use pgp_base::{Error, MAX_KEY_LEN, MIN_KEY_LEN};
use std::alloc::Allocator;
use std::marker::Model;

/// What a later request to cancel has to show.
#[derive(Drop)]
pub struct BackendKeyDataBody<S: Storage = Bytes> {
    process_id: i32,
    secret_key: S,
}

impl<S: Storage> Model for BackendKeyDataBody<S> {
    ghost use Rattle.pgp_message.specs.Parts.{KeyData};

    ghost Value = { KeyData };

    ghost view = { λ body. record { process_id = body.process_id; secret_key = S.bytes body.secret_key } };
}

impl<S: Storage> BackendKeyDataBody<S> {
    #[tactic(auto, unfolding(crate::specs::Reading::key_data_of))]
    pub(crate) fn read(mut payload: S) -> Result<BackendKeyDataBody<S>, Error>
        ensures { result ≡ key_data_of (S.bytes payload) }
    {
        let (process_id, key) = int32_at(payload.as_slice())?;
        if key.len() < MIN_KEY_LEN {
            return Err(Error::UnexpectedEof);
        }
        if key.len() > MAX_KEY_LEN {
            return Err(Error::NotDrained);
        }
        payload.skip(4);
        Ok(BackendKeyDataBody {
            process_id,
            secret_key: payload,
        })
    }

    /// The process that serves the session.
    pub fn process_id(&self) -> i32
        ensures { result ≡ self.now.process_id }
    {
        self.process_id
    }

    /// The secret that a request to cancel shows, as a number: none where it hasn't four bytes.
    pub fn secret_key(&self) -> Option<i32>
        ensures number { IfSome result (λ n. self.now.secret_key ≡ int32 n) }
        ensures none { IfNone result (length self.now.secret_key ≢ 4) }
    {
        number(self.secret_key.as_slice())
    }
}

impl<A: Allocator> BackendKeyDataBody<Bytes<A>> {
    /// The secret that a request to cancel shows: 4 to 256 bytes.
    pub fn secret_key_bytes(&self) -> &[u8]
        ensures { result.now ≡ self.now.secret_key }
    {
        self.secret_key.as_slice()
    }
}

impl<'a> BackendKeyDataBody<&'a [u8]> {
    /// The secret that a request to cancel shows: 4 to 256 bytes.
    pub fn secret_key_bytes(&self) -> &'a [u8]
        ensures { result.now ≡ self.now.secret_key }
    {
        self.secret_key
    }
}

/// The number that four bytes are.
fn number(bytes: &[u8]) -> Option<i32>
    ensures number { IfSome result (λ n. bytes.now ≡ int32 n) }
    ensures none { IfNone result (length bytes.now ≢ 4) }
{
    let Ok((n, rest)) = int32_at(bytes) else {
        return None;
    };
    if !rest.is_empty() {
        return None;
    }
    Some(n)
}

/// The version that a server speaks, and the options of a startup packet that it doesn't know. Tag, layout and meaning are
/// this project's profile of protocol 3.2; nothing is claimed of a server's 3.2.
#[derive(Drop)]
pub struct NegotiateProtocolVersionBody<S: Storage = Bytes> {
    version: i32,
    len: usize,
    options: S,
}

impl<S: Storage> Model for NegotiateProtocolVersionBody<S> {
    ghost use Rattle.pgp_message.specs.Parts.{Negotiation};

    ghost Value = { Negotiation };

    ghost view = { λ body. record { version = body.version; count = body.len; options = S.bytes body.options } };
}

impl<S: Storage> NegotiateProtocolVersionBody<S> {
    #[tactic(auto, unfolding(crate::specs::Reading::negotiation_of))]
    pub(crate) fn read(mut payload: S) -> Result<NegotiateProtocolVersionBody<S>, Error>
        ensures { result ≡ negotiation_of (S.bytes payload) }
    {
        let (version, _) = int32_at(payload.as_slice())?;
        payload.skip(4);
        let len = count_at(payload.as_slice())?;
        payload.skip(4);
        Ok(NegotiateProtocolVersionBody {
            version,
            len,
            options: payload,
        })
    }

    /// The version's number, as it stands there: 196608 is 3.0, and 196610 3.2.
    pub fn version(&self) -> i32
        ensures { result ≡ self.now.version }
    {
        self.version
    }
}

/// A count, rejected where it is negative.
#[tactic(auto, unfolding(crate::specs::Reading::count_at))]
fn count_at(bytes: &[u8]) -> Result<usize, Error>
    ensures { result ≡ count_at bytes.now }
{
    let (count, _) = int32_at(bytes)?;
    match usize::try_from(count) {
        Ok(n) => Ok(n),
        Err(_) => Err(Error::InvalidCount),
    }
}

impl<A: Allocator> NegotiateProtocolVersionBody<Bytes<A>> {
    /// The options that the server doesn't know.
    pub fn options(&self) -> ProtocolOptions<'_>
        ensures items { CountedItems TextSpelled TextRefused self.now.count self.now.options result.items result.end }
        ensures announced { result.announced ≡ Some self.now.count }
        ensures few { length result.items ≤ length self.now.options }
    {
        ProtocolOptions::over(self.options.as_slice(), self.len)
    }

    /// The options, whose names need not be text.
    pub fn raw_options(&self) -> RawOptions<'_>
        ensures items { CountedItems StringSpelled StringRefused self.now.count self.now.options result.items result.end }
        ensures announced { result.announced ≡ Some self.now.count }
        ensures few { length result.items ≤ length self.now.options }
    {
        RawOptions::over(self.options.as_slice(), self.len)
    }
}

impl<'a> NegotiateProtocolVersionBody<&'a [u8]> {
    /// The options that the server doesn't know.
    pub fn options(&self) -> ProtocolOptions<'a>
        ensures items { CountedItems TextSpelled TextRefused self.now.count self.now.options result.items result.end }
        ensures announced { result.announced ≡ Some self.now.count }
        ensures few { length result.items ≤ length self.now.options }
    {
        ProtocolOptions::over(self.options, self.len)
    }

    /// The options, whose names need not be text.
    pub fn raw_options(&self) -> RawOptions<'a>
        ensures items { CountedItems StringSpelled StringRefused self.now.count self.now.options result.items result.end }
        ensures announced { result.announced ≡ Some self.now.count }
        ensures few { length result.items ≤ length self.now.options }
    {
        RawOptions::over(self.options, self.len)
    }
}
