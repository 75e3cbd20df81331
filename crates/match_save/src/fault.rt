// Why a text is not a save.
ghost use Rattle.std.specs.Prelude.{◌≡◌};

use ant_base::{AtLine, Failed, Layout, Sink, layout, show};
use hex_geometry::OutOfMemory;
use std::alloc::{AllocError, AllocFailed};
use std::error::Error;
use std::fmt;

/// Why a text was not read as a save (this project's own).
#[derive(Clone, Copy, Debug, PartialEq, Eq)]
pub enum SaveFault {
    /// The first line that isn't in its form.
    BadLine {
        /// The line's number, from 1. If a line is missing, it is the number of the last line plus one.
        line: u32,
    },
    /// Each line is in its form, but together they describe no state of a game.
    BadState,
    /// Memory ran out.
    OutOfMemory,
}

impl Layout for SaveFault {
    ghost use Rattle.match_save.specs.FaultText.{save_fault_text};

    ghost text = { save_fault_text };

    fn push_to<K: Sink>(&self, sink: &mut K) -> Result<(), Failed> {
        match *self {
            SaveFault::BadLine { line } => AtLine(line, "not a save").push_to(sink),
            SaveFault::BadState => "no valid state".push_to(sink),
            SaveFault::OutOfMemory => OutOfMemory.push_to(sink),
        }
    }
}

impl fmt::Display for SaveFault {
    ghost use Rattle.std.specs.Prelude.{Some};
    ghost use Rattle.match_save.specs.FaultText.{save_fault_text};

    ghost output = { λ fault. Some (save_fault_text fault) };

    fn fmt<W: fmt::Write>(&self, f: &mut fmt::Formatter<W>) -> fmt::Result {
        show(self, f)
    }
}

impl Error for SaveFault {}

/// The save has more rounds done than are requested in total: this number (this project's own). It is not a fault of
/// the text, so the caller that sets the rounds compares them with `Saved::round`.
#[derive(Clone, Copy, Debug, PartialEq, Eq)]
pub struct AlreadyAt(pub u32);

impl Layout for AlreadyAt {
    ghost use Rattle.match_save.specs.FaultText.{already_at_text};

    ghost text = { λ at. already_at_text at.0 };

    fn push_to<K: Sink>(&self, sink: &mut K) -> Result<(), Failed> {
        layout!("already at round ", self.0).push_to(sink)
    }
}

impl fmt::Display for AlreadyAt {
    ghost use Rattle.std.specs.Prelude.{Some};
    ghost use Rattle.match_save.specs.FaultText.{already_at_text};

    ghost output = { λ at. Some (already_at_text at.0) };

    fn fmt<W: fmt::Write>(&self, f: &mut fmt::Formatter<W>) -> fmt::Result {
        show(self, f)
    }
}

impl Error for AlreadyAt {}

// The number of a line that isn't in its form.
#[derive(Clone, Copy)]
pub struct RefusedLine(pub u32);

impl From<RefusedLine> for SaveFault {
    ghost use Rattle.match_save.specs.declared.fault.SaveFault.TheVariants.{BadLine};

    ghost from_gives = { λ line fault. fault ≡ BadLine line.0 };

    fn from(line: RefusedLine) -> Self {
        SaveFault::BadLine { line: line.0 }
    }
}

impl From<AllocError> for SaveFault {
    ghost use Rattle.match_save.specs.declared.fault.SaveFault.TheVariants.{OutOfMemory};

    ghost from_gives = { λ _ fault. fault ≡ OutOfMemory };

    fn from(_: AllocError) -> Self {
        SaveFault::OutOfMemory
    }
}

impl<T: Drop> From<AllocFailed<T>> for SaveFault {
    ghost use Rattle.match_save.specs.declared.fault.SaveFault.TheVariants.{OutOfMemory};

    ghost from_gives = { λ _ fault. fault ≡ OutOfMemory };

    fn from(_: AllocFailed<T>) -> Self {
        SaveFault::OutOfMemory
    }
}

impl From<OutOfMemory> for SaveFault {
    ghost use Rattle.match_save.specs.declared.fault.SaveFault.TheVariants.{OutOfMemory};

    ghost from_gives = { λ _ fault. fault ≡ OutOfMemory };

    fn from(_: OutOfMemory) -> Self {
        SaveFault::OutOfMemory
    }
}
