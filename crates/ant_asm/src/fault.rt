// What can be wrong with a text.
use ant_base::{AtLine, Failed, Layout, Sink, show};
use brain_read::BrainFault;
use hex_geometry::OutOfMemory;
use line_tokens::{BAD_BYTE, LineFault};
use std::alloc::{AllocError, AllocFailed};
use std::error::Error;
use std::fmt;

/// The fault of a text that is not a labelled program: that of its first line at fault. If no line is at fault, the
/// text has a block without an end, no item in main, or a label that its body doesn't have. Lines are counted from 1,
/// including those without a token.
#[derive(Clone, Copy, Debug, PartialEq, Eq)]
pub enum AsmFault {
    /// A token has a bad byte: any byte except tab, LF, CR and 32 to 126.
    BadByte { line: u32 },
    /// The position needs one of certain words, and its token is none of them.
    UnknownWord { line: u32 },
    /// The line needs a token at this position, and has none.
    MissingToken { line: u32 },
    /// The position needs a number, and doesn't accept its token as one.
    BadNumber { line: u32 },
    /// There is a token after the end of the line's form.
    ExtraToken { line: u32 },
    /// The position needs a name or a label, and its token is neither.
    BadName { line: u32 },
    /// `block` is inside a block, or `end` is outside one, or a block has no end.
    Misplaced { line: u32 },
    /// A name is taken: its body already has it as a label or a parameter, a parameter is repeated, or a block has it.
    Twice { line: u32 },
    /// No block with this name has ended above.
    NoBlock { line: u32 },
    /// A block is used with a different number of labels than it has parameters.
    WrongCount { line: u32 },
    /// With this item its body expands to more than 10,000 instructions, or the line begins block 257.
    TooMany { line: u32 },
    /// A block without an item ends.
    EmptyBlock { line: u32 },
    /// Main has no item.
    Empty,
    /// A line names a label that its body doesn't have. This is the first such line.
    NoLabel { line: u32 },
    /// Memory ran out. This says nothing of the text.
    OutOfMemory,
}

impl Layout for AsmFault {
    ghost use Rattle.ant_asm.specs.FaultText.{asm_fault_text};

    ghost text = { asm_fault_text };

    fn push_to<K: Sink>(&self, sink: &mut K) -> Result<(), Failed> {
        match *self {
            AsmFault::BadByte { line } => AtLine(line, BAD_BYTE).push_to(sink),
            AsmFault::UnknownWord { line } => AtLine(line, LineFault::UnknownWord).push_to(sink),
            AsmFault::MissingToken { line } => AtLine(line, LineFault::MissingToken).push_to(sink),
            AsmFault::BadNumber { line } => AtLine(line, LineFault::BadNumber).push_to(sink),
            AsmFault::ExtraToken { line } => AtLine(line, LineFault::ExtraToken).push_to(sink),
            AsmFault::BadName { line } => AtLine(line, "bad name").push_to(sink),
            AsmFault::Misplaced { line } => AtLine(line, "misplaced").push_to(sink),
            AsmFault::Twice { line } => AtLine(line, "name taken").push_to(sink),
            AsmFault::NoBlock { line } => AtLine(line, "no such block").push_to(sink),
            AsmFault::WrongCount { line } => AtLine(line, "wrong number of labels").push_to(sink),
            AsmFault::TooMany { line } => AtLine(line, "too many").push_to(sink),
            AsmFault::EmptyBlock { line } => AtLine(line, "empty block").push_to(sink),
            AsmFault::Empty => BrainFault::Empty.push_to(sink),
            AsmFault::NoLabel { line } => AtLine(line, "no such label").push_to(sink),
            AsmFault::OutOfMemory => OutOfMemory.push_to(sink),
        }
    }
}

impl fmt::Display for AsmFault {
    ghost use Rattle.std.specs.Prelude.{Some};
    ghost use Rattle.ant_asm.specs.FaultText.{asm_fault_text};

    ghost output = { λ fault. Some (asm_fault_text fault) };

    fn fmt<W: fmt::Write>(&self, f: &mut fmt::Formatter<W>) -> fmt::Result {
        show(self, f)
    }
}

impl Error for AsmFault {}

impl From<AllocError> for AsmFault {
    ghost use Rattle.std.specs.Prelude.{◌≡◌};
    ghost use Rattle.ant_asm.specs.declared.fault.AsmFault.TheVariants.{OutOfMemory};

    ghost from_gives = { λ _ fault. fault ≡ OutOfMemory };

    fn from(_: AllocError) -> Self {
        AsmFault::OutOfMemory
    }
}

impl<T: Drop> From<AllocFailed<T>> for AsmFault {
    ghost use Rattle.std.specs.Prelude.{◌≡◌};
    ghost use Rattle.ant_asm.specs.declared.fault.AsmFault.TheVariants.{OutOfMemory};

    ghost from_gives = { λ _ fault. fault ≡ OutOfMemory };

    fn from(_: AllocFailed<T>) -> Self {
        AsmFault::OutOfMemory
    }
}

impl From<OutOfMemory> for AsmFault {
    ghost use Rattle.std.specs.Prelude.{◌≡◌};
    ghost use Rattle.ant_asm.specs.declared.fault.AsmFault.TheVariants as asm_fault;

    ghost from_gives = { λ _ fault. fault ≡ asm_fault.OutOfMemory };

    fn from(_: OutOfMemory) -> Self {
        AsmFault::OutOfMemory
    }
}
