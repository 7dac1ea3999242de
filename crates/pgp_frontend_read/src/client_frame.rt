//! The bytes of one message of a client.

ghost use Rattle.std.specs.Prelude.{◌≡◌};
ghost use Rattle.pgp_frontend_read.specs.Pieces.{IsWhole, ReadsFrame};
ghost use Rattle.pgp_frontend_read.specs.Views.{kind_view, reported};

use crate::error::ClientError;
use crate::message::{ClientMessage, PasswordKind};
use crate::messages::ClientMessages;

/// The bytes of one message, as a `ClientParser` found them by their length. Who passes a message on unchanged writes these.
#[derive(Drop)]
pub struct ClientFrame<'a> {
    pub(crate) bytes: &'a [u8],
    pub(crate) opened: bool,
}

impl<'a> ClientFrame<'a> {
    /// The message's bytes: its tag, where it has one, its length, and its payload.
    pub fn bytes(&self) -> &'a [u8]
        ensures { result.now ≡ self.now.bytes.now }
    {
        self.bytes
    }

    /// The message. `kind` reports which message of tag `p` is expected; for all others it says nothing.
    ///
    /// # Errors
    ///
    /// Returns `UnknownTag`, or the fault of what follows the tag, as `ClientMessages::next` reports it. The parser has passed the
    /// message. An opening packet isn't rejected here: the parser has read it.
    pub fn message(&self, kind: PasswordKind) -> Result<ClientMessage<'a>, ClientError>
        requires { IsWhole self.now.opened self.now.bytes.now }
        ensures { ReadsFrame (kind_view kind) self.now (reported result) }
    {
        let mut messages = ClientMessages::resume(self.bytes, self.opened);
        match messages.next(kind) {
            Ok(Some(message)) => Ok(message),
            Ok(None) => unreachable!(),
            Err(e) => Err(e),
        }
    }
}
