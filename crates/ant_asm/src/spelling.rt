// Faults in the spelling of a line, and how labels are spelled.
use crate::fault::AsmFault;
use line_tokens::{LineFault, Refusal};
use std::alloc::AllocFailed;

/// How a label is spelled: as the word `next`, or as a name.
#[derive(Clone, Copy)]
pub enum Source<'t> {
    Next,
    Named(&'t [u8]),
}

/// What is wrong with the first position at fault of a line, or out of memory.
#[derive(Clone, Copy)]
pub enum SpellingFault {
    BadByte,
    UnknownWord,
    MissingToken,
    BadNumber,
    ExtraToken,
    BadName,
    OutOfMemory,
}

impl SpellingFault {
    ghost use Rattle.std.specs.Prelude.{◌≡◌};
    ghost use Rattle.ant_asm.specs.Inner.Reading.{fault_at};

    // The fault of the line with this number.
    pub(crate) fn at(self, line: u32) -> AsmFault
        ensures { result ≡ fault_at line self }
    {
        match self {
            SpellingFault::BadByte => AsmFault::BadByte { line },
            SpellingFault::UnknownWord => AsmFault::UnknownWord { line },
            SpellingFault::MissingToken => AsmFault::MissingToken { line },
            SpellingFault::BadNumber => AsmFault::BadNumber { line },
            SpellingFault::ExtraToken => AsmFault::ExtraToken { line },
            SpellingFault::BadName => AsmFault::BadName { line },
            SpellingFault::OutOfMemory => AsmFault::OutOfMemory,
        }
    }
}

impl From<Refusal> for SpellingFault {
    ghost use Rattle.std.specs.Prelude.{◌≡◌};
    ghost use Rattle.ant_asm.specs.Inner.Reading.{spelling_of};

    ghost from_gives = { λ refusal fault. fault ≡ spelling_of refusal };

    fn from(refusal: Refusal) -> Self {
        if refusal.bad_byte {
            return SpellingFault::BadByte;
        }
        match refusal.fault {
            LineFault::UnknownWord => SpellingFault::UnknownWord,
            LineFault::MissingToken => SpellingFault::MissingToken,
            LineFault::BadNumber => SpellingFault::BadNumber,
            LineFault::ExtraToken => SpellingFault::ExtraToken,
        }
    }
}

impl<T: Drop> From<AllocFailed<T>> for SpellingFault {
    ghost use Rattle.std.specs.Prelude.{◌≡◌};
    ghost use Rattle.ant_asm.specs.declared.spelling.SpellingFault.TheVariants.{OutOfMemory};

    ghost from_gives = { λ _ fault. fault ≡ OutOfMemory };

    fn from(_: AllocFailed<T>) -> Self {
        SpellingFault::OutOfMemory
    }
}
