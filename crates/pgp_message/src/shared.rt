//! Messages off the front of shared bytes.

ghost use Rattle.std.specs.Prelude.{◌≡◌, Ok, Err, None};
ghost use Rattle.pgp_message.specs.Stream.{Step, IsPartial, IsLengthFault};
ghost use Rattle.pgp_message.specs.Views.{parsed};

use crate::dispatch::{bare, body, keeps_bytes};
use crate::frame::{Front, header_of};
use crate::message::Message;
use bytes::{Buf, Bytes};
use pgp_base::{Error, Memory};

impl<A: Memory> Message<Bytes<A>> {
    /// Takes the message at the front of shared bytes, as `parse` does of a buffer: it shares the bytes of its frame with them.
    /// No memory is asked for but one more owner.
    ///
    /// # Errors
    ///
    /// Those of `parse`, with the same effect on the bytes.
    // The hint carries the speed of rows: else the message goes through memory once more.
    #[inline(always)]
    pub fn parse_shared(bytes: &mut Bytes<A>) -> Result<Option<Message<Bytes<A>>>, Error>
        ensures step { Step A.Lacks bytes.old (parsed result) bytes.new }
        ensures waits { IsPartial bytes.old → result ≡ Ok None }
        ensures fault { IsLengthFault bytes.old → result ≡ Err Error.InvalidLength }
    {
        let header = header_of(bytes.as_slice());
        let Some(front) = Front::find(header, bytes.as_slice())? else {
            return Ok(None);
        };
        let payload = &bytes.as_slice()[5..front.total];
        if !keeps_bytes(front.tag, payload) {
            let answer = bare(front.tag, payload);
            bytes.advance(front.total);
            return answer.map(Some);
        }
        let Ok(payload) = A::slice_shared(bytes, 5, front.total) else {
            return Err(Error::OutOfMemory);
        };
        bytes.advance(front.total);
        body(front.tag, payload).map(Some)
    }
}
