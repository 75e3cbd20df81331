// Why a text that is built while it is pushed stops.
ghost use Rattle.std.specs.Prelude.{◌≡◌};

use crate::{Failed, Layout, OutOfMemory, Sink, show};
use std::error::Error;
use std::fmt;

/// Why a text that is built while it is pushed, such as that of a game, wasn't pushed whole.
#[derive(Clone, Copy, Debug, PartialEq, Eq)]
pub enum PushFault {
    /// The sink failed.
    WriteFault,
    /// Memory ran out.
    OutOfMemory,
}

impl Layout for PushFault {
    ghost use Rattle.ant_base.specs.FaultText.{push_fault_text};

    ghost text = { push_fault_text };

    fn push_to<K: Sink>(&self, sink: &mut K) -> Result<(), Failed> {
        match self {
            PushFault::WriteFault => Failed.push_to(sink),
            PushFault::OutOfMemory => OutOfMemory.push_to(sink),
        }
    }
}

impl fmt::Display for PushFault {
    ghost use Rattle.std.specs.Prelude.{Some};
    ghost use Rattle.ant_base.specs.FaultText.{push_fault_text};

    ghost output = { λ fault. Some (push_fault_text fault) };

    fn fmt<W: fmt::Write>(&self, f: &mut fmt::Formatter<W>) -> fmt::Result {
        show(self, f)
    }
}

impl Error for PushFault {}

impl From<Failed> for PushFault {
    ghost use Rattle.ant_base.specs.declared.push_fault.PushFault.TheVariants.{WriteFault};

    ghost from_gives = { λ _ fault. fault ≡ WriteFault };

    fn from(_: Failed) -> Self {
        PushFault::WriteFault
    }
}

impl From<OutOfMemory> for PushFault {
    ghost use Rattle.ant_base.specs.declared.push_fault.PushFault.TheVariants as fault;

    ghost from_gives = { λ _ result. result ≡ fault.OutOfMemory };

    fn from(_: OutOfMemory) -> Self {
        PushFault::OutOfMemory
    }
}
