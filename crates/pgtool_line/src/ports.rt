//! What a program writes to, and the words that it was started with.

ghost use Rattle.std.specs.Prelude.{◌≡◌, ◌<◌, ℕ, List, length, take, IfErr, IfOk, OnOk};
ghost use Rattle.std.specs.Io.{WritesAtMost};
ghost use Rattle.std.specs.Io.KnownBytes.{Keeps, WriteAppends};
ghost use Rattle.pgtool_line.specs.Interruptions.{Refuses};

use std::env::FillError;
use std::io::{self, Write};
use std::rt::Env;

/// A writer, any of std's.
pub trait Output: Write {
    /// A call of such a writer failed, and not because it was interrupted, or it took none of some bytes.
    ghost Fails: { Type 0 };

    /// So many calls of it were interrupted in a row, the last of which left it so.
    ghost Interrupted: { Self → ℕ → Type 0 };

    /// What was written is passed on.
    ghost Passed: { Self → Type 0 };

    /// Writes a front of the bytes, as `write` does.
    ///
    /// # Errors
    ///
    /// That of the writer.
    fn write_some(&mut self, bytes: &[u8]) -> io::Result<usize>
        ensures bound { WritesAtMost result bytes.now }
        ensures bytes { WriteAppends (Self.contents self.old) (Self.contents self.new) result bytes.now }
        ensures idle { IfOk result (λ n. n ≡ 0 → 0 < length bytes.now → Fails) }
        ensures refuses { IfErr result (Refuses Fails Self.Interrupted self.old self.new) };

    /// Has what was written passed on, as `flush` does.
    ///
    /// # Errors
    ///
    /// That of the writer.
    fn pass_on(&mut self) -> io::Result<()>
        ensures bytes { Keeps (Self.contents self.old) (Self.contents self.new) }
        ensures passed { OnOk result (Self.Passed self.new) }
        ensures refuses { IfErr result (Refuses Fails Self.Interrupted self.old self.new) };
}

/// Of its failures nothing is said: any call may fail.
impl<W: Write> Output for W {
    ghost Fails = { Unit {0} };

    ghost Interrupted = { λ _ _. Unit {0} };

    ghost Passed = { λ _. Unit {0} };

    fn write_some(&mut self, bytes: &[u8]) -> io::Result<usize> {
        self.write(bytes)
    }

    fn pass_on(&mut self) -> io::Result<()> {
        self.flush()
    }
}

/// An environment, any of std's.
pub trait Words: Env {
    /// The word stands at the place; the program's name stands at 0.
    ghost Stands: { Self → ℕ → List ℕ → Type 0 };

    /// No word stands at the place.
    ghost Ends: { Self → ℕ → Type 0 };

    /// The word at the place is longer than so many bytes.
    ghost Longer: { Self → ℕ → ℕ → Type 0 };

    /// Copies the word at the place to the start of the buffer, as `arg` does, and returns its length.
    ///
    /// # Errors
    ///
    /// Returns `NotPresent` if no word stands there, `TooLong` if the buffer is shorter than the word.
    fn word_at(&self, place: usize, buffer: &mut [u8]) -> Result<usize, FillError>
        ensures bound { WritesAtMost result buffer.new }
        ensures word { IfOk result (λ n. Self.Stands self.now place (take n buffer.new)) }
        ensures none { IfErr result (λ e. e ≡ FillError.NotPresent → Self.Ends self.now place) }
        ensures long { IfErr result (λ e. e ≡ FillError.TooLong → Self.Longer self.now place (length buffer.new)) };
}

/// Of its words nothing is said: any may stand anywhere.
impl<V: Env> Words for V {
    ghost Stands = { λ _ _ _. Unit {0} };

    ghost Ends = { λ _ _. Unit {0} };

    ghost Longer = { λ _ _ _. Unit {0} };

    fn word_at(&self, place: usize, buffer: &mut [u8]) -> Result<usize, FillError> {
        self.arg(place, buffer)
    }
}
