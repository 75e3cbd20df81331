// What can be wrong with a text of breaks.
ghost use Rattle.std.specs.Prelude.{◌≡◌};
ghost use Rattle.break_view.specs.Inner.Verdict.{fault_at};

use ant_base::{AtLine, Failed, Layout, OutOfMemory, Sink, show};
use line_tokens::LineFault;
use std::alloc::{AllocError, AllocFailed};
use std::error::Error;
use std::fmt;

/// The fault of a text that is not a list of breaks: the first line at fault, with its first position at fault. Lines
/// are counted from 1, including lines without a token.
#[derive(Clone, Copy, Debug, PartialEq, Eq)]
pub enum BreakFault {
    /// The position needs a word, and its token is none that it accepts.
    UnknownWord { line: u32 },
    /// The line's form needs one more token.
    MissingToken { line: u32 },
    /// The position needs a number, and its token is not a number from 0 to 4,294,967,295.
    BadNumber { line: u32 },
    /// A token follows the end of the line's form.
    ExtraToken { line: u32 },
    /// The line has a token, but 256 breaks were read before it.
    TooMany { line: u32 },
    /// Memory ran out; this says nothing about the text.
    OutOfMemory,
}

impl Layout for BreakFault {
    ghost use Rattle.break_view.specs.FaultText.{break_fault_text};

    ghost text = { break_fault_text };

    fn push_to<K: Sink>(&self, sink: &mut K) -> Result<(), Failed> {
        match *self {
            BreakFault::UnknownWord { line } => AtLine(line, LineFault::UnknownWord).push_to(sink),
            BreakFault::MissingToken { line } => AtLine(line, LineFault::MissingToken).push_to(
                sink,
            ),
            BreakFault::BadNumber { line } => AtLine(line, LineFault::BadNumber).push_to(sink),
            BreakFault::ExtraToken { line } => AtLine(line, LineFault::ExtraToken).push_to(sink),
            BreakFault::TooMany { line } => AtLine(line, "too many breaks").push_to(sink),
            BreakFault::OutOfMemory => OutOfMemory.push_to(sink),
        }
    }
}

impl fmt::Display for BreakFault {
    ghost use Rattle.std.specs.Prelude.{Some};
    ghost use Rattle.break_view.specs.FaultText.{break_fault_text};

    ghost output = { λ fault. Some (break_fault_text fault) };

    fn fmt<W: fmt::Write>(&self, f: &mut fmt::Formatter<W>) -> fmt::Result {
        show(self, f)
    }
}

impl Error for BreakFault {}

impl From<AllocError> for BreakFault {
    ghost use Rattle.std.specs.Prelude.{◌≡◌};
    ghost use Rattle.break_view.specs.declared.fault.BreakFault.TheVariants.{OutOfMemory};

    ghost from_gives = { λ _ fault. fault ≡ OutOfMemory };

    fn from(_: AllocError) -> Self {
        BreakFault::OutOfMemory
    }
}

impl<T: Drop> From<AllocFailed<T>> for BreakFault {
    ghost use Rattle.std.specs.Prelude.{◌≡◌};
    ghost use Rattle.break_view.specs.declared.fault.BreakFault.TheVariants.{OutOfMemory};

    ghost from_gives = { λ _ fault. fault ≡ OutOfMemory };

    fn from(_: AllocFailed<T>) -> Self {
        BreakFault::OutOfMemory
    }
}

// The fault of the line with this number, from 1, if its first position at fault has this fault.
pub(crate) fn fault_at(line: u32, fault: LineFault) -> BreakFault
    ensures { result ≡ fault_at line fault }
{
    match fault {
        LineFault::UnknownWord => BreakFault::UnknownWord { line },
        LineFault::MissingToken => BreakFault::MissingToken { line },
        LineFault::BadNumber => BreakFault::BadNumber { line },
        LineFault::ExtraToken => BreakFault::ExtraToken { line },
    }
}
