//! A listing that nobody reads any more, as where `head` has what it wants and ends.

ghost use Rattle.std.specs.Prelude.{◌≡◌, ◌≤◌, length, take, true, false, IfNone, IfOk, IfSome, OnErr, OnOk};
ghost use Rattle.std.specs.Io.KnownBytes.{Appends, Keeps};

use pgtool_line::ports::Output;
use std::cell::Cell;
use std::io::{self, ErrorKind, Read, Write};

/// Whether whoever read the listing is gone.
#[derive(Drop)]
pub struct Pipe {
    /// False at first. No clause knows what a `Cell` holds.
    pub is_closed: Cell<bool>,
}

/// A reader that ends once nobody reads the listing.
#[derive(Drop)]
pub struct Source<'a, R> {
    pipe: &'a Pipe,
    reader: &'a mut R,
}

/// A writer that drops what nobody reads.
#[derive(Drop)]
pub struct Sink<'a, W> {
    pipe: &'a Pipe,
    writer: &'a mut W,
}

impl Pipe {
    /// A reader of what this one reads.
    pub fn source<'a, R>(&'a self, reader: &'a mut R) -> Source<'a, R>
        ensures same_reference { result.reader.ghost_name ≡ reader.entry.ghost_name }
        ensures reader { result.reader.now ≡ reader.old }
    {
        Source { pipe: self, reader }
    }

    /// A writer of what is to be passed on to this one.
    pub fn sink<'a, W>(&'a self, writer: &'a mut W) -> Sink<'a, W>
        ensures same_reference { result.writer.ghost_name ≡ writer.entry.ghost_name }
        ensures writer { result.writer.now ≡ writer.old }
    {
        Sink { pipe: self, writer }
    }
}

/// Writes a front of the bytes, or returns nothing where nobody reads them, which the writer then took none of.
///
/// # Errors
///
/// That of the writer, which took none of the bytes.
pub fn write_some<W: Output>(bytes: &[u8], writer: &mut W) -> io::Result<Option<usize>>
    ensures written { IfOk result (λ r. IfSome r (λ n. Appends (W.contents writer.old) (W.contents writer.new) (take n bytes.now))) }
    ensures bound { IfOk result (λ r. IfSome r (λ n. n ≤ length bytes.now)) }
    ensures closed { IfOk result (λ r. IfNone r (Keeps (W.contents writer.old) (W.contents writer.new))) }
    ensures failed { IfOk result (λ r. IfNone r W.Fails) }
    ensures kept { OnErr result (Keeps (W.contents writer.old) (W.contents writer.new)) }
{
    match writer.write_some(bytes) {
        Ok(n) => Ok(Some(n)),
        Err(e) => {
            if e.kind() == ErrorKind::BrokenPipe {
                return Ok(None);
            }
            Err(e)
        }
    }
}

/// Passes on what was written. Returns whether somebody reads it.
///
/// # Errors
///
/// That of the writer.
pub fn pass_on<W: Output>(writer: &mut W) -> io::Result<bool>
    ensures kept { Keeps (W.contents writer.old) (W.contents writer.new) }
    ensures passed { IfOk result (λ is_read. is_read ≡ true → W.Passed writer.new) }
    ensures failed { IfOk result (λ is_read. is_read ≡ false → W.Fails) }
{
    match writer.pass_on() {
        Ok(()) => Ok(true),
        Err(e) => {
            if e.kind() == ErrorKind::BrokenPipe {
                return Ok(false);
            }
            Err(e)
        }
    }
}

impl<R: Read> Read for Source<'_, R> {
    fn read(&mut self, buf: &mut [u8]) -> io::Result<usize> {
        if self.pipe.is_closed.get() {
            return Ok(0);
        }
        self.reader.read(buf)
    }
}

impl<W: Output> Write for Sink<'_, W> {
    fn write(&mut self, buf: &[u8]) -> io::Result<usize> {
        if self.pipe.is_closed.get() {
            return Ok(buf.len());
        }
        match write_some(buf, self.writer)? {
            Some(n) => Ok(n),
            None => {
                self.pipe.is_closed.set(true);
                Ok(buf.len())
            }
        }
    }

    fn flush(&mut self) -> io::Result<()> {
        if self.pipe.is_closed.get() {
            return Ok(());
        }
        if !pass_on(self.writer)? {
            self.pipe.is_closed.set(true);
        }
        Ok(())
    }
}
