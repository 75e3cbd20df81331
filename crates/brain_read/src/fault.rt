// What can be wrong with a text.
use ant_base::{AtLine, Failed, Layout, OutOfMemory, Sink, layout, show};
use line_tokens::{BAD_BYTE, LineFault, Refusal};
use std::alloc::{AllocError, AllocFailed};
use std::error::Error;
use std::fmt;

/// The fault of a text that is not a brain: the first line at fault, with its first position at fault. If no line is at
/// fault, it is `Empty` or `NoSuchState`. Lines are counted from 1, including those without a token.
#[derive(Clone, Copy, Debug, PartialEq, Eq)]
pub enum BrainFault {
    /// A token has a bad byte: any byte except tab, LF, CR and 32 to 126.
    BadByte { line: u32 },
    /// The position needs a word, and its token is none of its words.
    UnknownWord { line: u32 },
    /// The form needs this position, and it has no token.
    MissingToken { line: u32 },
    /// The position needs a number, and its token is none that it accepts.
    BadNumber { line: u32 },
    /// There is a token after the end of the form.
    ExtraToken { line: u32 },
    /// The line has a token, and 10,000 instructions were read before it.
    TooMany { line: u32 },
    /// No line has a token, so there is no instruction.
    Empty,
    /// No line is at fault, and a state is not below the number of instructions: the first such line, and its first
    /// such state, from 0.
    NoSuchState { line: u32, state: u64 },
    /// Memory ran out. This says nothing of the text.
    OutOfMemory,
}

impl Layout for BrainFault {
    ghost use Rattle.brain_read.specs.FaultText.{brain_fault_text};

    ghost text = { brain_fault_text };

    fn push_to<K: Sink>(&self, sink: &mut K) -> Result<(), Failed> {
        match *self {
            BrainFault::BadByte { line } => AtLine(line, BAD_BYTE).push_to(sink),
            BrainFault::UnknownWord { line } => AtLine(line, LineFault::UnknownWord).push_to(sink),
            BrainFault::MissingToken { line } => AtLine(line, LineFault::MissingToken).push_to(
                sink,
            ),
            BrainFault::BadNumber { line } => AtLine(line, LineFault::BadNumber).push_to(sink),
            BrainFault::ExtraToken { line } => AtLine(line, LineFault::ExtraToken).push_to(sink),
            BrainFault::TooMany { line } => AtLine(line, "too many instructions").push_to(sink),
            BrainFault::Empty => "no instruction".push_to(sink),
            BrainFault::NoSuchState { line, state } => AtLine(
                line,
                layout!("no such state ", state),
            ).push_to(sink),
            BrainFault::OutOfMemory => OutOfMemory.push_to(sink),
        }
    }
}

impl fmt::Display for BrainFault {
    ghost use Rattle.std.specs.Prelude.{Some};
    ghost use Rattle.brain_read.specs.FaultText.{brain_fault_text};

    ghost output = { λ fault. Some (brain_fault_text fault) };

    fn fmt<W: fmt::Write>(&self, f: &mut fmt::Formatter<W>) -> fmt::Result {
        show(self, f)
    }
}

impl Error for BrainFault {}

impl From<AllocError> for BrainFault {
    ghost use Rattle.std.specs.Prelude.{◌≡◌};
    ghost use Rattle.brain_read.specs.declared.fault.BrainFault.TheVariants.{OutOfMemory};

    ghost from_gives = { λ _ fault. fault ≡ OutOfMemory };

    fn from(_: AllocError) -> Self {
        BrainFault::OutOfMemory
    }
}

impl<T: Drop> From<AllocFailed<T>> for BrainFault {
    ghost use Rattle.std.specs.Prelude.{◌≡◌};
    ghost use Rattle.brain_read.specs.declared.fault.BrainFault.TheVariants.{OutOfMemory};

    ghost from_gives = { λ _ fault. fault ≡ OutOfMemory };

    fn from(_: AllocFailed<T>) -> Self {
        BrainFault::OutOfMemory
    }
}

impl BrainFault {
    ghost use Rattle.std.specs.Prelude.{◌≡◌};
    ghost use Rattle.brain_read.specs.Refusals.{refusal_at};

    /// The fault of the line with this number, from 1, for this refusal: `BadByte` if the token has a bad byte,
    /// otherwise the fault of the position.
    pub fn of_line(line: u32, refusal: Refusal) -> BrainFault
        ensures { result ≡ refusal_at line refusal }
    {
        if refusal.bad_byte {
            return BrainFault::BadByte { line };
        }
        match refusal.fault {
            LineFault::UnknownWord => BrainFault::UnknownWord { line },
            LineFault::MissingToken => BrainFault::MissingToken { line },
            LineFault::BadNumber => BrainFault::BadNumber { line },
            LineFault::ExtraToken => BrainFault::ExtraToken { line },
        }
    }
}
