// Out of memory, as every crate of the simulator returns it.
use crate::{Failed, Layout, Sink, show};
use std::alloc::{AllocError, AllocFailed};
use std::error::Error;
use std::fmt;

/// Memory ran out. What was passed to the refused call is unchanged, unless the call's comment says otherwise.
#[derive(Clone, Copy, Debug, PartialEq, Eq)]
pub struct OutOfMemory;

impl Layout for OutOfMemory {
    ghost use Rattle.ant_base.specs.FaultText.{memory_text};

    ghost text = { λ _. memory_text };

    fn push_to<K: Sink>(&self, sink: &mut K) -> Result<(), Failed> {
        "out of memory".push_to(sink)
    }
}

impl fmt::Display for OutOfMemory {
    ghost use Rattle.std.specs.Prelude.{Some};
    ghost use Rattle.ant_base.specs.FaultText.{memory_text};

    ghost output = { λ _. Some memory_text };

    fn fmt<W: fmt::Write>(&self, f: &mut fmt::Formatter<W>) -> fmt::Result {
        show(self, f)
    }
}

impl Error for OutOfMemory {}

impl From<AllocError> for OutOfMemory {
    fn from(_: AllocError) -> Self {
        OutOfMemory
    }
}

impl<T: Drop> From<AllocFailed<T>> for OutOfMemory {
    fn from(_: AllocFailed<T>) -> Self {
        OutOfMemory
    }
}
