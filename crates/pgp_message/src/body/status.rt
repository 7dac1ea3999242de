//! The state of a session.

ghost use Rattle.std.specs.Prelude.{◌≡◌, MatchResult};
ghost use Rattle.std.specs.Str.{IsUtf8};
ghost use Rattle.pgp_message.specs.Reading.{byte_of, setting_of};

use crate::storage::Storage;
use bytes::Bytes;
use pgp_base::reading::{byte_at, string_at};
use pgp_base::{Error, text};
use std::alloc::Allocator;
use std::marker::Model;

/// The server is ready for the next query.
#[derive(Drop)]
pub struct ReadyForQueryBody {
    status: u8,
}

impl Model for ReadyForQueryBody {
    ghost use Rattle.std.specs.Prelude.{ℕ};

    ghost Value = { ℕ };

    ghost view = { λ body. body.status };
}

impl ReadyForQueryBody {
    #[tactic(auto, unfolding(crate::specs::Reading::byte_of))]
    pub(crate) fn read(payload: &[u8]) -> Result<Self, Error>
        ensures { result ≡ byte_of payload.now }
    {
        let (status, rest) = byte_at(payload)?;
        if !rest.is_empty() {
            return Err(Error::NotDrained);
        }
        Ok(ReadyForQueryBody { status })
    }

    /// The state of the transaction: `I` idle, `T` in a transaction, `E` in a failed one.
    pub fn status(&self) -> u8
        ensures { result ≡ self.now }
    {
        self.status
    }
}

/// A parameter of the session, as the server reports it. The texts stand in one run of bytes, which
/// is cut when they are asked for.
#[derive(Drop)]
pub struct ParameterStatusBody<S: Storage = Bytes> {
    // without the zero after the value
    texts: S,
    name_len: usize,
}

impl<S: Storage> Model for ParameterStatusBody<S> {
    ghost use Rattle.std.specs.Prelude.{◌+◌, ◌≤◌, length, take, drop};
    ghost use Rattle.pgp_message.specs.Parts.{Setting};

    ghost Value = { Setting };

    ghost view = { λ body. record {
      name = take body.name_len (S.bytes body.texts);
      value = drop (body.name_len + 1) (S.bytes body.texts);
    } };

    ghost invariant = { λ body. body.name_len + 1 ≤ length (S.bytes body.texts) };
}

impl<S: Storage> ParameterStatusBody<S> {
    // The hint keeps its answer out of memory, which the loop around it would clear for each message of any kind.
    #[inline(always)]
    #[tactic(auto, unfolding(crate::specs::Reading::setting_of))]
    pub(crate) fn read(mut payload: S) -> Result<ParameterStatusBody<S>, Error>
        ensures { result ≡ setting_of (S.bytes payload) }
    {
        let (name, rest) = string_at(payload.as_slice())?;
        let (value, rest) = string_at(rest)?;
        if !rest.is_empty() {
            return Err(Error::NotDrained);
        }
        let name_len = name.len();
        let len = name_len + 1 + value.len();
        payload.cut(len);
        Ok(ParameterStatusBody {
            texts: payload,
            name_len,
        })
    }
}

impl<A: Allocator> ParameterStatusBody<Bytes<A>> {
    /// The parameter's name, whether it is text or not.
    pub fn name_bytes(&self) -> &[u8]
        ensures { result.now ≡ self.now.name }
    {
        &self.texts.as_slice()[..self.name_len]
    }

    /// The parameter's value, whether it is text or not.
    pub fn value_bytes(&self) -> &[u8]
        ensures { result.now ≡ self.now.value }
    {
        let texts = self.texts.as_slice();
        let start = self.name_len + 1;
        &texts[start..]
    }

    /// The parameter's name.
    ///
    /// # Errors
    ///
    /// Returns `NotUtf8` if it isn't text.
    pub fn name(&self) -> Result<&str, Error>
        ensures { MatchResult result (λ text. text.now ≡ self.now.name) (λ e. (e ≡ Error.NotUtf8) × ¬ IsUtf8 self.now.name) }
    {
        text(self.name_bytes())
    }

    /// The parameter's value.
    ///
    /// # Errors
    ///
    /// Returns `NotUtf8` if it isn't text.
    pub fn value(&self) -> Result<&str, Error>
        ensures { MatchResult result (λ text. text.now ≡ self.now.value) (λ e. (e ≡ Error.NotUtf8) × ¬ IsUtf8 self.now.value) }
    {
        text(self.value_bytes())
    }
}

impl<'a> ParameterStatusBody<&'a [u8]> {
    /// The parameter's name, whether it is text or not.
    pub fn name_bytes(&self) -> &'a [u8]
        ensures { result.now ≡ self.now.name }
    {
        &self.texts[..self.name_len]
    }

    /// The parameter's value, whether it is text or not.
    pub fn value_bytes(&self) -> &'a [u8]
        ensures { result.now ≡ self.now.value }
    {
        let from = self.name_len + 1;
        &self.texts[from..]
    }

    /// The parameter's name.
    ///
    /// # Errors
    ///
    /// Returns `NotUtf8` if it isn't text.
    pub fn name(&self) -> Result<&'a str, Error>
        ensures { MatchResult result (λ text. text.now ≡ self.now.name) (λ e. (e ≡ Error.NotUtf8) × ¬ IsUtf8 self.now.name) }
    {
        text(self.name_bytes())
    }

    /// The parameter's value.
    ///
    /// # Errors
    ///
    /// Returns `NotUtf8` if it isn't text.
    pub fn value(&self) -> Result<&'a str, Error>
        ensures { MatchResult result (λ text. text.now ≡ self.now.value) (λ e. (e ≡ Error.NotUtf8) × ¬ IsUtf8 self.now.value) }
    {
        text(self.value_bytes())
    }
}
