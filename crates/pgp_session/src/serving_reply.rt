//! What a server answers in a log-in.

ghost use Rattle.std.specs.Prelude.{◌≡◌, ◌++◌};
ghost use Rattle.pgp_base.specs.Cause.{Writes};
ghost use Rattle.pgp_message_write.specs.Reply.{bytes_of, cause};
ghost use Rattle.pgp_session.specs.Serving.{Replies, admission, cause_of, error_of, reported, scram_offer, shown, signature, spelled, sqlstate};

use crate::serving::Denial;
use crate::serving_outcome::Outcome;
use pgp_auth::authentication::sasl::SCRAM_SHA_256;
use pgp_base::{Buffer, Error, put_u8};
use pgp_message_write::{self as reply, ErrorField};
use std::alloc::Allocator;

/// Appends all of the answer, or nothing.
#[tactic(auto, using(pgp_base::proofs::Parts::nothing_more))]
pub(crate) fn put_answer<A: Allocator, B: Buffer>(
    outcome: &Outcome<A>,
    out: &mut B,
) -> Result<(), Error>
    ensures { Writes (spelled (shown outcome.now)) (cause_of (shown outcome.now)) B.Lacks (B.held out.old) (B.held out.new) result }
{
    match outcome {
        Outcome::Unencrypted => put_u8(out, b'N'),
        Outcome::Denied(why) => put_denial(*why, out),
        Outcome::Welcome => reply::authentication_ok(out),
        Outcome::Challenge(text) => reply::authentication_sasl_continue(text, out),
        Outcome::Signed(text) => admit(text, out),
        Outcome::Ignored => Ok(()),
        Outcome::Cancelled => Ok(()),
        Outcome::Begun => Ok(()),
        Outcome::Requested => Ok(()),
        Outcome::Ended => Ok(()),
    }
}

/// Appends the server's final text and the admission, or nothing.
fn admit<B: Buffer>(text: &[u8], out: &mut B) -> Result<(), Error>
    ensures { Writes (bytes_of (signature text.now) ++ bytes_of admission) (cause (signature text.now)) B.Lacks (B.held out.old) (B.held out.new) result }
{
    let start = out.len();
    reply::authentication_sasl_final(text, out)?;
    match reply::authentication_ok(out) {
        Ok(()) => Ok(()),
        Err(e) => {
            out.truncate(start);
            Err(e)
        }
    }
}

/// Appends the offer of SCRAM-SHA-256.
pub(crate) fn offer_scram<B: Buffer>(out: &mut B) -> Result<(), Error>
    ensures { Replies scram_offer B.Lacks (B.held out.old) (B.held out.new) result }
{
    reply::authentication_sasl(&[SCRAM_SHA_256.as_bytes()], out)
}

/// Appends the error.
pub(crate) fn put_denial<B: Buffer>(why: Denial, out: &mut B) -> Result<(), Error>
    ensures { Replies (error_of why) B.Lacks (B.held out.old) (B.held out.new) result }
{
    let fields = [
        field(b'S', b"FATAL"),
        field(b'V', b"FATAL"),
        field(b'C', sqlstate(why)),
        field(b'M', reported(why)),
    ];
    reply::error_response(&fields, out)
}

fn field(code: u8, value: &[u8]) -> ErrorField<'_>
    ensures code { result.code ≡ code }
    ensures value { result.value.now ≡ value.now }
{
    ErrorField { code, value }
}

fn sqlstate(why: Denial) -> &'static [u8]
    ensures { result.now ≡ sqlstate why }
{
    match why {
        Denial::WrongPassword => b"28P01",
        Denial::Violation => b"08P01",
        Denial::NotAllowed => b"28000",
    }
}

fn reported(why: Denial) -> &'static [u8]
    ensures { result.now ≡ reported why }
{
    match why {
        Denial::WrongPassword => b"password authentication failed",
        Denial::Violation => b"protocol violation",
        Denial::NotAllowed => b"invalid authorization specification",
    }
}
