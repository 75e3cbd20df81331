// Where input comes from.
ghost use Rattle.std.specs.Prelude.{◌≡◌};
ghost use Rattle.ant_base.specs.Shelf.{ShelfState, Fetches};

use crate::{Failed, Layout, OutOfMemory, Sink, show};
use std::alloc::{AllocError, AllocFailed, Global};
use std::error::Error;
use std::fmt;

/// The length of the longest content that a shelf returns, in bytes. A longer text is refused.
pub const LONGEST: usize = 4_194_304;

/// Why the content of a name wasn't fetched. The contents of the shelf are unchanged.
#[derive(Clone, Copy, Debug, PartialEq, Eq)]
pub enum FetchFault {
    /// The content could not be read, and the shelf's count of faults rose.
    Failed,
    /// The content is longer than 4,194,304 bytes.
    TooLong,
    /// Memory ran out.
    OutOfMemory,
}

impl Layout for FetchFault {
    ghost use Rattle.ant_base.specs.FaultText.{fetch_fault_text};

    ghost text = { fetch_fault_text };

    fn push_to<K: Sink>(&self, sink: &mut K) -> Result<(), Failed> {
        match self {
            FetchFault::Failed => "not read".push_to(sink),
            FetchFault::TooLong => "too long".push_to(sink),
            FetchFault::OutOfMemory => OutOfMemory.push_to(sink),
        }
    }
}

impl fmt::Display for FetchFault {
    ghost use Rattle.std.specs.Prelude.{Some};
    ghost use Rattle.ant_base.specs.FaultText.{fetch_fault_text};

    ghost output = { λ fault. Some (fetch_fault_text fault) };

    fn fmt<W: fmt::Write>(&self, f: &mut fmt::Formatter<W>) -> fmt::Result {
        show(self, f)
    }
}

impl Error for FetchFault {}

impl From<AllocError> for FetchFault {
    ghost use Rattle.ant_base.specs.declared.shelf.FetchFault.TheVariants.{OutOfMemory};

    ghost from_gives = { λ _ fault. fault ≡ OutOfMemory };

    fn from(_: AllocError) -> Self {
        FetchFault::OutOfMemory
    }
}

/// Where input comes from.
pub trait Shelf {
    /// The content under each name, if the shelf reports it; the names of which it is sure; the count of faults; and
    /// the log of all fetches with their answers.
    ghost state: { Self → ShelfState };

    /// The content under the name, at most 4,194,304 bytes; `TooLong` if it has more.
    ///
    /// If it returns `Failed`, the count of faults rose, and the shelf wasn't sure of the name. No fetch changes the
    /// contents, makes the shelf less sure, or lowers the count.
    fn fetch(&mut self, alloc: Global, name: &str) -> Result<Vec<u8>, FetchFault>
        ensures { Fetches (state self.old) (state self.new) name.now result };
}
