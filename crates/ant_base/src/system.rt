// The system's side of a shelf of files.
ghost use Rattle.std.specs.Prelude.{◌<◌, ◌≤◌, ℕ, List, Result, length, ⊤};
ghost use Rattle.std.specs.Io.{ReadsAtMost};
ghost use Rattle.std.specs.Io.KnownBytes.{ReadConsumes};
ghost use Rattle.std.specs.declared.io.Error.{Error};
ghost use Rattle.ant_base.specs.System.{GivesWithin};

use std::fs::{self, File};
use std::io::{self, Read, Stdin};

/// A reader that may be sure of its next bytes.
pub trait SureReader: Read {
    /// The number of bytes, from here on, of which it is sure: a read that requests no more than these doesn't fail. It
    /// is 0 for every file and stream of the system.
    ghost sure: { Self → ℕ };

    /// Holds of a reader that was closed.
    ghost closed: { Self → Type 0 };

    /// Reads once, as `Read::read` does. The clauses say what a reader that is sure returns.
    fn read_some(&mut self, chunk: &mut [u8]) -> io::Result<usize>
        ensures bound { ReadsAtMost result chunk.new }
        ensures bytes { ReadConsumes (Self.remaining self.old) (Self.remaining self.new) result chunk.new }
        ensures sure { 0 < length chunk.old → length chunk.old ≤ sure self.old → GivesWithin (sure self.old) (sure self.new) result };

    /// Ends the reading.
    fn close(self)
        ensures { closed self };
}

/// What a shelf of files needs from the system: files by their names, and standard input.
///
/// Answers come only from these calls. So a caller that has the answer for a name has opened exactly that name.
pub trait System {
    /// A file that was opened.
    type File: SureReader + Drop;

    /// Standard input.
    type Input: SureReader + Drop;

    /// Holds of a system, a name and each answer that opening this name may have.
    ghost opened: { Self → List ℕ → Result Self.File Error → Type 0 };

    /// Holds of a system and its standard input.
    ghost standard: { Self → Self.Input → Type 0 };

    /// Opens the file with this name for reading.
    fn open(&self, name: &str) -> io::Result<Self::File>
        ensures { opened self.now name.now result };

    /// What is left of standard input.
    fn standard_input(&self) -> Self::Input
        ensures { standard self.now result };
}

impl SureReader for File {
    ghost sure = { λ _. 0 };

    ghost closed = { λ _. ⊤ };

    fn read_some(&mut self, chunk: &mut [u8]) -> io::Result<usize> {
        self.read(chunk)
    }

    fn close(self) {}
}

impl SureReader for Stdin {
    ghost sure = { λ _. 0 };

    ghost closed = { λ _. ⊤ };

    fn read_some(&mut self, chunk: &mut [u8]) -> io::Result<usize> {
        self.read(chunk)
    }

    fn close(self) {}
}

impl System for HostRuntime {
    type File = File;

    type Input = Stdin;

    ghost opened = { λ _ _ _. ⊤ };

    ghost standard = { λ _ _. ⊤ };

    fn open(&self, name: &str) -> io::Result<File> {
        fs::open(self, name)
    }

    fn standard_input(&self) -> Stdin {
        self.stdin()
    }
}
