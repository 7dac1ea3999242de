//! What the program reads from.

ghost use Rattle.std.specs.Prelude.{◌≢◌, ◌+◌, ℕ, IfErr};
ghost use Rattle.std.specs.Io.{ReadsAtMost};
ghost use Rattle.std.specs.Io.KnownBytes.{ReadConsumes};
ghost use Rattle.std.specs.IoError.{error_kind};
ghost use Rattle.std.specs.declared.io.ErrorKind.{ErrorKind as Kind};

use std::io::{self, ErrorKind, Read};

/// A reader, any of std's.
pub trait Input: Read {
    /// A call of such a reader failed with an error of this kind, and not because it was interrupted.
    ghost Fails: { Kind → Type 0 };

    /// So many calls of it came one after another, the last of which left it so.
    ghost Called: { Self → ℕ → Type 0 };

    /// The reader may be read: a call may wait for what comes next, so that all that is to be seen before has to be.
    ghost MayRead: { Self → Type 0 };

    /// Reads what comes at once, as `read` does.
    ///
    /// # Errors
    ///
    /// That of the reader.
    fn read_some(&mut self, piece: &mut [u8]) -> io::Result<usize>
        requires { Self.MayRead self.old }
        ensures bound { ReadsAtMost result piece.new }
        ensures bytes { ReadConsumes (Self.remaining self.old) (Self.remaining self.new) result piece.new }
        ensures fails { IfErr result (λ e. error_kind e ≢ ErrorKind.Interrupted → Fails (error_kind e)) }
        ensures once { Self.Called self.new 1 }
        ensures again { (n : ℕ) → Self.Called self.old n → Self.Called self.new (n + 1) };
}

/// Of its failures nothing is said: any call may fail. It may be read at any time.
impl<R: Read> Input for R {
    ghost Fails = { λ _. Unit {0} };

    ghost Called = { λ _ _. Unit {0} };

    ghost MayRead = { λ _. Unit {0} };

    fn read_some(&mut self, piece: &mut [u8]) -> io::Result<usize> {
        self.read(piece)
    }
}
