//! What the program reads from.

ghost use Rattle.std.specs.Prelude.{◌≡◌, ◌≢◌, ◌++◌, IfErr, IfSome, OnOk};
ghost use Rattle.std.specs.Io.{ReadsAtMost, StartsWith, appended_bytes};
ghost use Rattle.std.specs.Io.KnownBytes.{Consumes, IsAtEnd, ReadConsumes};
ghost use Rattle.std.specs.IoError.{error_kind};
ghost use Rattle.std.specs.declared.io.ErrorKind.{ErrorKind as Kind};

use std::alloc::Allocator;
use std::io::{self, ErrorKind, Read};

/// A reader, any of std's.
pub trait Input: Read {
    /// A call of such a reader failed with an error of this kind, and not because it was interrupted.
    ghost Fails: { Kind → Type 0 };

    /// Reads what comes at once, as `read` does.
    ///
    /// # Errors
    ///
    /// That of the reader.
    fn read_some(&mut self, piece: &mut [u8]) -> io::Result<usize>
        ensures bound { ReadsAtMost result piece.new }
        ensures bytes { ReadConsumes (Self.remaining self.old) (Self.remaining self.new) result piece.new }
        ensures fails { IfErr result (λ e. error_kind e ≢ ErrorKind.Interrupted → Fails (error_kind e)) };

    /// Reads all that is left, as `read_to_end` does.
    ///
    /// # Errors
    ///
    /// That of the reader.
    fn read_rest<A: Allocator>(&mut self, bytes: &mut Vec<u8, A>) -> io::Result<usize>
        ensures appends { StartsWith bytes.new.items bytes.old.items }
        ensures rest { OnOk result (IfSome (Self.remaining self.old) (λ rest. bytes.new.items ≡ bytes.old.items ++ rest)) }
        ensures end { OnOk result (IsAtEnd (Self.remaining self.new)) }
        ensures consumes { Consumes (Self.remaining self.old) (Self.remaining self.new)
            (appended_bytes bytes.old.items bytes.new.items) }
        ensures fails { IfErr result (λ e. Fails (error_kind e)) };
}

/// Of its failures nothing is said: any call may fail.
impl<R: Read> Input for R {
    ghost Fails = { λ _. Unit {0} };

    fn read_some(&mut self, piece: &mut [u8]) -> io::Result<usize> {
        self.read(piece)
    }

    fn read_rest<A: Allocator>(&mut self, bytes: &mut Vec<u8, A>) -> io::Result<usize> {
        self.read_to_end(bytes)
    }
}
