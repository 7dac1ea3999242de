//! A text at the end of a buffer, and what a writer of one says.

ghost use Rattle.std.specs.Prelude.{◌≡◌};
ghost use Rattle.pgp_value_text.specs.ValueText.{Tells};
ghost use Rattle.pgp_value_text.specs.Told.{Told};

use crate::error::TextError;
use bytes::BytesMut;
use pgp_base::Memory;
use std::alloc::AllocError;

/// Adds a text.
pub(crate) fn put<A: Memory>(shown: &str, text: &mut BytesMut<A>) -> Result<bool, AllocError>
    ensures { Tells (λ t. t ≡ shown.now) A.Lacks text.old.items text.new.items result }
{
    match A::append(text, shown.as_bytes()) {
        Ok(()) => Ok(true),
        Err(e) => Err(e),
    }
}

/// Adds bytes.
pub(crate) fn put_raw<A: Memory>(shown: &[u8], text: &mut BytesMut<A>) -> Result<bool, AllocError>
    ensures { Tells (λ t. t ≡ shown.now) A.Lacks text.old.items text.new.items result }
{
    match A::append(text, shown) {
        Ok(()) => Ok(true),
        Err(e) => Err(e),
    }
}

/// What a writer of days and times said: out of range there is no text.
pub(crate) fn told(written: Result<(), TextError>) -> Result<bool, AllocError>
    ensures { Told written result }
{
    match written {
        Ok(()) => Ok(true),
        Err(TextError::OutOfRange) => Ok(false),
        Err(TextError::OutOfMemory) => Err(AllocError),
    }
}
