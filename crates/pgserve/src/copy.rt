//! Copies: their data from the server, and to it.
//!
//! PostgreSQL manual, "Message Flow", "COPY Operations".

use crate::answer::{Went, put_tag};
use crate::asked::{Refusal, malformed, refuse, refuse_as};
use crate::outbox::Outbox;
use crate::script::{Copy, Statement};
use crate::session::Session;
use pgp_frontend_read::ClientMessage;
use pgp_message_write as reply;

/// A copy to the server that is under way.
#[derive(Clone, Copy)]
pub(crate) struct CopyIn<'h> {
    pub(crate) statement: &'h Statement,
    /// Whether a simple query asked for it.
    pub(crate) is_simple: bool,
}

/// The formats of the columns, which are that of the whole.
fn formats_of(copy: &Copy, out: &mut Outbox) -> Vec<u16> {
    let mut formats = Vec::new(out.alloc);
    for _ in 0..copy.columns {
        out.add(&mut formats, u16::from(copy.is_binary));
    }
    formats
}

/// Appends that a copy begins.
fn put_begin(copy: &Copy, out: &mut Outbox) {
    let formats = formats_of(copy, out);
    let format = u8::from(copy.is_binary);
    let put = if copy.is_in {
        reply::copy_in_response(format, &formats, &mut out.bytes)
    } else {
        reply::copy_out_response(format, &formats, &mut out.bytes)
    };
    out.put(put);
}

/// Appends all data of a copy from the server.
pub(crate) fn put_copy_out(copy: &Copy, out: &mut Outbox) {
    put_begin(copy, out);
    for chunk in &copy.chunks {
        let put = reply::copy_data(chunk, &mut out.bytes);
        out.put(put);
    }
    let put = reply::copy_done(&mut out.bytes);
    out.put(put);
}

impl<'h> Session<'h> {
    /// Asks for the data of a copy to the server.
    pub(crate) fn begin_copy(
        &mut self,
        statement: &'h Statement,
        copy: &Copy,
        is_simple: bool,
        out: &mut Outbox,
    ) {
        self.copying = Some(CopyIn {
            statement,
            is_simple,
        });
        put_begin(copy, out);
    }

    /// Ends a copy to the server with an error.
    fn fail_copy(&mut self, copy: CopyIn<'h>, refusal: Refusal<'_>, out: &mut Outbox) {
        self.copying = None;
        if copy.is_simple {
            self.stop_alone(refusal, out);
        } else {
            self.fail(refusal, out);
        }
    }

    /// Ends the session after a message that has no place in a copy.
    fn lose_sync(&mut self, out: &mut Outbox) {
        refuse(
            Refusal::new("08P01", "unexpected message type during COPY from stdin"),
            out,
        );
        let message = "terminating connection because protocol synchronization was lost";
        refuse_as("FATAL", Refusal::new("08P01", message), out);
        self.end_at = Some(out.len());
    }

    /// Ends a copy to the server, whose data are complete.
    fn end_copy(&mut self, copy: CopyIn<'h>, out: &mut Outbox) {
        self.copying = None;
        let start = out.len();
        let went = put_tag(copy.statement, out);
        self.leave(copy.statement, went, start, out);
        self.is_skipping = !copy.is_simple && went == Went::Wrong;
        if copy.is_simple {
            self.end_query(out);
        }
    }

    /// Answers a message whose bytes aren't those of its type, while the data of a copy are awaited: a server looks at the text of a
    /// CopyFail alone.
    pub(crate) fn malformed_in_copy(&mut self, copy: CopyIn<'h>, tag: u8, out: &mut Outbox) {
        match tag {
            b'd' | b'H' | b'S' => {}
            b'c' => self.end_copy(copy, out),
            b'f' => self.fail_copy(copy, malformed(), out),
            _ => self.lose_sync(out),
        }
    }

    /// Answers a message while the data of a copy are awaited.
    pub(crate) fn answer_copy(
        &mut self,
        copy: CopyIn<'h>,
        message: &ClientMessage<'_>,
        out: &mut Outbox,
    ) {
        match message {
            ClientMessage::CopyData(_) | ClientMessage::Flush | ClientMessage::Sync => {}
            ClientMessage::CopyDone => self.end_copy(copy, out),
            ClientMessage::CopyFail(why) => {
                let refusal = Refusal::of("57014", "COPY from stdin failed: ", why, "");
                self.fail_copy(copy, refusal, out);
            }
            _ => self.lose_sync(out),
        }
    }
}
