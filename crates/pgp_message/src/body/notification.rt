//! Notifications.

ghost use Rattle.std.specs.Prelude.{◌≡◌, MatchResult};
ghost use Rattle.std.specs.Str.{IsUtf8};
ghost use Rattle.pgp_message.specs.Reading.{notification_of};

use crate::storage::Storage;
use bytes::Bytes;
use pgp_base::big_endian::u32_of;
use pgp_base::reading::{int32_at, string_at};
use pgp_base::{Error, text};
use std::alloc::Allocator;
use std::marker::Model;

/// A notification from another session. The texts stand in one run of bytes, which is cut when they
/// are asked for.
#[derive(Drop)]
pub struct NotificationResponseBody<S: Storage = Bytes> {
    // without the zero after the message
    payload: S,
    channel_len: usize,
}

impl<S: Storage> Model for NotificationResponseBody<S> {
    ghost use Rattle.std.specs.Prelude.{◌+◌, ◌≤◌, length, take, drop};
    ghost use Rattle.std.specs.Int.{w32, from_be_bytes, cast_signed};
    ghost use Rattle.pgp_message.specs.Parts.{Notification};

    ghost Value = { Notification };

    ghost view = { λ body. record {
      process_id = cast_signed w32 (from_be_bytes w32 (take 4 (S.bytes body.payload)));
      channel = take body.channel_len (drop 4 (S.bytes body.payload));
      message = drop (body.channel_len + 5) (S.bytes body.payload);
    } };

    ghost invariant = { λ body. body.channel_len + 5 ≤ length (S.bytes body.payload) };
}

impl<S: Storage> NotificationResponseBody<S> {
    // The hint keeps its answer out of memory, which the loop around it would clear for each message of any kind.
    #[inline(always)]
    #[tactic(auto, unfolding(crate::specs::Reading::notification_of))]
    pub(crate) fn read(mut payload: S) -> Result<NotificationResponseBody<S>, Error>
        ensures { result ≡ notification_of (S.bytes payload) }
    {
        let (_, rest) = int32_at(payload.as_slice())?;
        let (channel, rest) = string_at(rest)?;
        let (_, rest) = string_at(rest)?;
        if !rest.is_empty() {
            return Err(Error::NotDrained);
        }
        let channel_len = channel.len();
        let len = payload.as_slice().len();
        payload.cut(len - 1);
        Ok(NotificationResponseBody {
            payload,
            channel_len,
        })
    }

    /// The process that sent the notification.
    pub fn process_id(&self) -> i32
        ensures { result ≡ self.now.process_id }
    {
        let bytes = self.payload.as_slice();
        u32_of([bytes[0], bytes[1], bytes[2], bytes[3]]).cast_signed()
    }
}

impl<A: Allocator> NotificationResponseBody<Bytes<A>> {
    /// The channel's name, whether it is text or not.
    pub fn channel_bytes(&self) -> &[u8]
        ensures { result.now ≡ self.now.channel }
    {
        let payload = self.payload.as_slice();
        &payload[4..4 + self.channel_len]
    }

    /// What was said, whether it is text or not.
    pub fn message_bytes(&self) -> &[u8]
        ensures { result.now ≡ self.now.message }
    {
        let payload = self.payload.as_slice();
        let start = self.channel_len + 5;
        &payload[start..]
    }

    /// The channel's name.
    ///
    /// # Errors
    ///
    /// Returns `NotUtf8` if it isn't text.
    pub fn channel(&self) -> Result<&str, Error>
        ensures { MatchResult result (λ text. text.now ≡ self.now.channel) (λ e. (e ≡ Error.NotUtf8) × ¬ IsUtf8 self.now.channel) }
    {
        text(self.channel_bytes())
    }

    /// What was said.
    ///
    /// # Errors
    ///
    /// Returns `NotUtf8` if it isn't text.
    pub fn message(&self) -> Result<&str, Error>
        ensures { MatchResult result (λ text. text.now ≡ self.now.message) (λ e. (e ≡ Error.NotUtf8) × ¬ IsUtf8 self.now.message) }
    {
        text(self.message_bytes())
    }
}

impl<'a> NotificationResponseBody<&'a [u8]> {
    /// The channel's name, whether it is text or not.
    pub fn channel_bytes(&self) -> &'a [u8]
        ensures { result.now ≡ self.now.channel }
    {
        &self.payload[4..4 + self.channel_len]
    }

    /// What was said, whether it is text or not.
    pub fn message_bytes(&self) -> &'a [u8]
        ensures { result.now ≡ self.now.message }
    {
        let from = self.channel_len + 5;
        &self.payload[from..]
    }

    /// The channel's name.
    ///
    /// # Errors
    ///
    /// Returns `NotUtf8` if it isn't text.
    pub fn channel(&self) -> Result<&'a str, Error>
        ensures { MatchResult result (λ text. text.now ≡ self.now.channel) (λ e. (e ≡ Error.NotUtf8) × ¬ IsUtf8 self.now.channel) }
    {
        text(self.channel_bytes())
    }

    /// What was said.
    ///
    /// # Errors
    ///
    /// Returns `NotUtf8` if it isn't text.
    pub fn message(&self) -> Result<&'a str, Error>
        ensures { MatchResult result (λ text. text.now ≡ self.now.message) (λ e. (e ≡ Error.NotUtf8) × ¬ IsUtf8 self.now.message) }
    {
        text(self.message_bytes())
    }
}
