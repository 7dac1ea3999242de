//! Messages that are read in place.

ghost use Rattle.std.specs.Prelude.{◌≡◌, ◌≢◌, Ok, Err, None, IfSome};
ghost use Rattle.pgp_message.specs.BackendMessage.{DataRow};
ghost use Rattle.pgp_message.specs.Parts.{CountedBytes};
ghost use Rattle.pgp_message.specs.Reading.{body_of};
ghost use Rattle.pgp_message.specs.Rows.{TakesRow};
ghost use Rattle.pgp_message.specs.Stream.{Step, IsPartial, IsLengthFault};
ghost use Rattle.pgp_message.specs.Views.{parsed};

use crate::body::DataRowBody;
use crate::dispatch::body;
use crate::frame::{Front, header_of};
use crate::message::Message;
use crate::tag::DATA_ROW_TAG;
use pgp_base::Error;
use std::marker::Model;

/// Reads the messages of a slice in place: nothing is copied, and no memory is asked for.
#[derive(Drop)]
pub struct Messages<'a> {
    rest: &'a [u8],
}

impl<'a> Model for Messages<'a> {
    ghost use Rattle.std.specs.Prelude.{ℕ, List};

    ghost Value = { List ℕ };

    ghost view = { λ m. m.rest.now };
}

impl<'a> Messages<'a> {
    pub fn new(bytes: &'a [u8]) -> Messages<'a>
        ensures { result ≡ bytes.now }
    {
        Messages { rest: bytes }
    }

    /// The bytes that weren't read yet.
    pub fn rest(&self) -> &'a [u8]
        ensures { result.now ≡ self.now }
    {
        self.rest
    }

    /// Takes the message at the front, as `Message::parse` does; `None` where the rest begins with none that is whole. A
    /// frame whose body is rejected is passed too.
    ///
    /// # Errors
    ///
    /// Returns `InvalidLength` if a length below 4 is announced, with nothing passed. For the body of a frame
    /// `UnknownTag`, `UnknownAuthentication`, `UnexpectedEof` if a part is cut short, and `NotDrained` if bytes are left
    /// after the last part. Never `OutOfMemory`.
    // The hint carries the speed of messages without parts: else the answer goes through memory.
    #[inline(always)]
    pub fn next(&mut self) -> Result<Option<Message<&'a [u8]>>, Error>
        ensures step { Step ⊥ self.old (parsed result) self.new }
        ensures waits { IsPartial self.old → result ≡ Ok None }
        ensures fault { IsLengthFault self.old → result ≡ Err Error.InvalidLength }
    {
        let header = header_of(self.rest);
        let Some(front) = Front::find(header, self.rest)? else {
            return Ok(None);
        };
        let payload = &self.rest[5..front.total];
        let (_, rest) = self.rest.split_at(front.total);
        self.rest = rest;
        body(front.tag, payload).map(Some)
    }

    /// Takes the row at the front. Where no whole row stands there, nothing is passed, and `next` says what does.
    // The hint carries the speed of rows: else the row goes through memory.
    #[inline(always)]
    pub fn next_row(&mut self) -> Option<DataRowBody<&'a [u8]>>
        ensures { TakesRow self.old result self.new }
    {
        let front = match Front::find(header_of(self.rest), self.rest) {
            Ok(Some(front)) => front,
            Ok(None) => return None,
            Err(_) => return None,
        };
        match row_of(front.tag, &self.rest[5..front.total]) {
            Some(row) => {
                let (_, behind) = self.rest.split_at(front.total);
                self.rest = behind;
                Some(row)
            }
            None => None,
        }
    }
}

/// The row of a frame, where its tag is that of rows and its body is whole.
// The hint carries the speed of rows, as above.
#[inline(always)]
#[tactic(auto, unfolding(crate::specs::Reading::body_of))]
fn row_of(tag: u8, payload: &[u8]) -> Option<DataRowBody<&[u8]>>
    ensures some { IfSome result (λ row. body_of tag payload.now ≡ Ok (DataRow row)) }
    ensures none { result ≡ None → (row : CountedBytes) → body_of tag payload.now ≢ Ok (DataRow row) }
{
    if tag != DATA_ROW_TAG {
        return None;
    }
    match DataRowBody::read(payload) {
        Ok(row) => Some(row),
        Err(_) => None,
    }
}
