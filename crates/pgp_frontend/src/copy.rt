//! Copying data to the server.
#![tactic(auto, using(pgp_base::proofs::Parts::held_steps))]

ghost use Rattle.std.specs.Prelude.{◌≡◌, ◌+◌, ◌<◌, ◌^◌, length, Some, None, Ok, OnOk, OnErr, IfOk, IfErr, ◌∷◌, ◌++◌};
ghost use Rattle.pgp_base.specs.Wire.{uint32};
ghost use Rattle.pgp_base.specs.Cause.{Wants};
ghost use Rattle.pgp_base.specs.Held.{◌⊕◌, Leaves, IsFrontOf};
ghost use Rattle.pgp_frontend.specs.ClientMessage.{CopyData as DataMessage, CopyDone, CopyFail};
ghost use Rattle.pgp_frontend.specs.Payload.{cause, bytes_of, WritesMessage};

use crate::field::message;
use crate::over_bytes;
use bytes::Buf;
use pgp_base::{Buffer, Error, put_u8, put_u32};
use std::marker::Model;

/// A piece of the data, whose size is known to fit a message.
#[derive(Drop)]
pub struct CopyData<T: Buf> {
    buf: T,
    size: u32,
}

// A piece is seen as the buffer that it was made of.
impl<T: Buf> Model for CopyData<T> {
    ghost Value = { T };

    ghost view = { λ c. c.buf };

    ghost invariant = { λ c. (c.size ≡ length (T.unread c.buf) + 4) × (c.size < 2 ^ 31) };
}

impl<T: Buf + Drop> CopyData<T> {
    /// Takes the bytes that are left to read of `buf`. Nothing is copied.
    ///
    /// # Errors
    ///
    /// Returns `TooLarge` if these bytes and four exceed `i32::MAX`.
    pub fn new(buf: T) -> Result<CopyData<T>, Error>
        ensures ok { IfOk result (λ piece. (piece ≡ buf) × (cause (DataMessage (T.unread buf)) ≡ None)) }
        ensures err { IfErr result (λ e. cause (DataMessage (T.unread buf)) ≡ Some e) }
    {
        let bytes = buf.remaining();
        if bytes > 0x7fff_fffb {
            return Err(Error::TooLarge);
        }
        let size = bytes as u32 + 4;
        Ok(CopyData { buf, size })
    }

    /// Appends the message, and then nothing of the piece is left unread.
    ///
    /// # Errors
    ///
    /// Itself, nothing read from it, if the buffer can't grow. On error the buffer is unchanged.
    pub fn write<B: Buffer>(self, out: &mut B) -> Result<(), CopyData<T>>
        ensures ok { OnOk result (WritesMessage (DataMessage (T.unread self)) B.Lacks (B.held out.old) (B.held out.new) (Ok tt)) }
        ensures err { IfErr result (λ piece. (piece ≡ self) × Wants B.Lacks (B.held out.old) (length (bytes_of (DataMessage (T.unread self)))) × Leaves (B.held out.old) (B.held out.new)) }
    {
        let CopyData { mut buf, size } = self;
        let start = out.len();
        match fill(size, &mut buf, out) {
            Ok(()) => Ok(()),
            Err(_) => {
                out.truncate(start);
                Err(CopyData { buf, size })
            }
        }
    }
}

// The frame of what is left of `buf`. An error reads nothing, and leaves what stood there as a front.
fn fill<T: Buf, B: Buffer>(size: u32, buf: &mut T, out: &mut B) -> Result<(), Error>
    requires { size ≡ length (T.unread buf.old) + 4 }
    ensures ok { OnOk result (B.held out.new ≡ B.held out.old ⊕ (100 ∷ uint32 size ++ T.unread buf.old)) }
    ensures kept { OnErr result (buf.new ≡ buf.old) }
    ensures lacks { OnErr result (Wants B.Lacks (B.held out.old) (length (T.unread buf.old) + 5)) }
    ensures err { OnErr result (IsFrontOf (B.held out.old) (B.held out.new)) }
{
    out.reserve(size as usize + 1)?;
    put_u8(out, b'd')?;
    put_u32(out, size)?;
    out.append_from(buf)?;
    Ok(())
}

/// CopyDone: ends the data of a copy.
///
/// # Errors
///
/// Returns `OutOfMemory` if the buffer can't grow. On error the buffer is unchanged.
pub fn copy_done<B: Buffer>(buf: &mut B) -> Result<(), Error>
    ensures { WritesMessage CopyDone B.Lacks (B.held buf.old) (B.held buf.new) result }
{
    message(b'c', &[], buf)
}

/// CopyFail: aborts a copy, with a message for the server's error.
///
/// # Errors
///
/// Returns `EmbeddedNull` if the text has a 0 byte, `TooLarge` if the message exceeds `i32::MAX`, and
/// `OutOfMemory` if the buffer can't grow. On error the buffer is unchanged.
pub fn copy_fail<B: Buffer>(reason: &str, buf: &mut B) -> Result<(), Error>
    ensures { WritesMessage (CopyFail reason.now) B.Lacks (B.held buf.old) (B.held buf.new) result }
{
    over_bytes::copy_fail(reason.as_bytes(), buf)
}
