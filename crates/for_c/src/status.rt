//! What a call returns, and the number of bytes that it wrote.

ghost use Rattle.std.specs.Prelude.{◌≡◌, ◌≢◌, Ok, Err, length};
ghost use Rattle.pgp_base.specs.Error.{number_of};
ghost use Rattle.pgp_base.specs.declared.error.Error.{Error as Refusal};
ghost use Rattle.pgp_base.specs.Window.{window_held};

use pgp_base::{Buffer, Error, Window};

/// The message stands at the front of the window.
pub fn sent(window: &Window<'_>, written: &mut usize) -> u32
    ensures zero { result ≡ 0 }
    ensures reported { written.new ≡ length (window_held window.now).bytes }
{
    *written = window.len();
    0
}

/// Nothing is to be sent.
pub fn refused(e: Error, written: &mut usize) -> u32
    ensures code { result ≡ number_of e }
    ensures some { result ≢ 0 }
    ensures reported { written.new ≡ 0 }
{
    *written = 0;
    u32::from(e.number())
}

/// Nothing was read.
pub fn failed(e: Error) -> u32
    ensures code { result ≡ number_of e }
    ensures some { result ≢ 0 }
{
    u32::from(e.number())
}

/// What a writer over this window answered: the message stands at the front, or nothing is to be sent.
// The hints carry the speed, here and below.
#[inline(always)]
pub fn ended(answer: Result<(), Error>, window: &Window<'_>, written: &mut usize) -> u32
    ensures sent { result ≡ 0 → (answer ≡ Ok tt) × (written.new ≡ length (window_held window.now).bytes) }
    ensures refused { result ≢ 0 → (e : Refusal) × (answer ≡ Err e) × (result ≡ number_of e) × (written.new ≡ 0) }
{
    match answer {
        Ok(()) => sent(window, written),
        Err(e) => refused(e, written),
    }
}

/// What a reader answered: the value is reported, or nothing was read.
#[inline(always)]
pub fn read<T: Copy>(answer: Result<T, Error>, value: &mut T) -> u32
    ensures read { result ≡ 0 → answer ≡ Ok value.new }
    ensures refused { result ≢ 0 → (e : Refusal) × (answer ≡ Err e) × (result ≡ number_of e) }
    ensures left { result ≢ 0 → value.new ≡ value.old }
{
    match answer {
        Ok(read) => {
            *value = read;
            0
        }
        Err(e) => failed(e),
    }
}

/// This value was read.
#[inline(always)]
pub fn found<T: Copy>(read: T, value: &mut T) -> u32
    ensures zero { result ≡ 0 }
    ensures reported { value.new ≡ read }
{
    *value = read;
    0
}

/// A name is empty, which no server reads.
pub fn nameless(written: &mut usize) -> u32
    ensures code { result ≡ 33 }
    ensures reported { written.new ≡ 0 }
{
    *written = 0;
    33
}

/// A startup packet of another version.
pub fn no_version(written: &mut usize) -> u32
    ensures code { result ≡ 34 }
    ensures reported { written.new ≡ 0 }
{
    *written = 0;
    34
}

/// The kind of a range's side, or of what is described or closed, is none.
pub fn no_kind(written: &mut usize) -> u32
    ensures code { result ≡ 35 }
    ensures reported { written.new ≡ 0 }
{
    *written = 0;
    35
}

/// The formats of a bind are none, or don't suit its values.
pub fn no_formats(written: &mut usize) -> u32
    ensures code { result ≡ 39 }
    ensures reported { written.new ≡ 0 }
{
    *written = 0;
    39
}
