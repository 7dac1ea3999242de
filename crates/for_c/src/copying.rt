//! The data of a copy: whole, or the head alone, so that the data need not be copied.
#![tactic(auto, using(pgp_base::proofs::Parts::held_steps))]

ghost use Rattle.std.specs.Prelude.{◌≡◌, ◌≢◌, ◌∷◌, OnOk, IfErr};
ghost use Rattle.pgp_base.specs.Cause.{Wants, WantsMemory};
ghost use Rattle.pgp_base.specs.Held.{◌⊕◌};
ghost use Rattle.pgp_base.specs.Wire.{uint32};
ghost use Rattle.pgp_frontend.specs.ClientMessage.{CopyData as DataMessage};
ghost use Rattle.for_c.specs.Copying.{SentHead, NoHead};
ghost use Rattle.for_c.specs.Sending.{Sent, NotSent};

use crate::message::{PlainMessage, send};
use crate::status::{refused, sent};
use pgp_base::{Buffer, Error, Window, put_u8, put_u32};

/// The most data that one message can have.
const MOST: usize = 2_147_483_643;

/// Data of a copy.
#[unsafe(no_mangle)]
pub extern "C" fn pgp_copy_data(bytes: &[u8], out: &mut [u8], written: &mut usize) -> u32
    ensures sent { result ≡ 0 → Sent (DataMessage bytes.now) out.old out.new written.new }
    ensures refused { result ≢ 0 → NotSent (DataMessage bytes.now) out.old written.new result }
{
    send(PlainMessage::CopyData(bytes), out, written)
}

/// The head of a message with so many bytes of data, which stand after it.
#[unsafe(no_mangle)]
pub extern "C" fn pgp_copy_data_head(len: usize, out: &mut [u8], written: &mut usize) -> u32
    ensures sent { result ≡ 0 → SentHead len out.old out.new written.new }
    ensures refused { result ≢ 0 → NoHead len out.old written.new result }
{
    if len > MOST {
        return refused(Error::TooLarge, written);
    }
    let mut window = Window::new(out);
    match put_head(len as u32 + 4, &mut window) {
        Ok(()) => sent(&window, written),
        Err(e) => refused(e, written),
    }
}

/// The tag, and the length.
fn put_head<B: Buffer>(size: u32, buf: &mut B) -> Result<(), Error>
    ensures ok { OnOk result (B.held buf.new ≡ B.held buf.old ⊕ (100 ∷ uint32 size)) }
    ensures cause { IfErr result (WantsMemory (Wants B.Lacks (B.held buf.old) 5)) }
{
    match put_u8(buf, b'd') {
        Ok(()) => put_u32(buf, size),
        Err(e) => Err(e),
    }
}
