// A shelf in memory.
ghost use Rattle.std.specs.Prelude.{◌≡◌, ◌≤◌, ◌&&◌, ◌++◌, [], ◌∷◌, not, if◌then◌else◌};
ghost use Rattle.ant_base.specs.Faults.{one_more};
ghost use Rattle.ant_base.specs.Fetched.{fetched};
ghost use Rattle.ant_base.specs.Inner.Noted.{noted};
ghost use Rattle.ant_base.specs.Shelf.{Fetches, is_failed, is_too_long};
ghost use Rattle.ant_base.specs.MemShelf.{shelf_of, fails, is_long, IsCopyOf};

use crate::shelf::LONGEST;
use crate::system_log::SystemLog;
use crate::{Calls, FetchFault, Files, Shelf};
use std::alloc::Global;
use std::marker::Model;

/// A shelf in memory, with calls that fail by their number.
///
/// Contracts see its contents. If no call is to fail, it is sure of each name that it has; otherwise of none. The
/// counts of calls and of faults stay at the largest `u64`.
#[derive(Drop)]
pub struct MemShelf {
    files: Files,
    failing: Calls,
    calls: u64,
    faults: u64,
    system_log: SystemLog,
}

impl Model for MemShelf {
    ghost use Rattle.ant_base.specs.MemShelf.{MemShelfState};

    ghost Value = { MemShelfState };

    ghost view = { λ s. record { files = s.files.files; failing = s.failing.numbers; calls = s.calls; faults = s.faults; log = s.system_log.fetches } };
}

impl MemShelf {
    /// A shelf with these files. The fetches with the given numbers fail; the first fetch has the number 1.
    pub fn new(files: Files, failing: Calls) -> Self
        ensures { result ≡ record { files = files.files; failing = failing.numbers; calls = 0; faults = 0; log = [] } }
    {
        MemShelf {
            files,
            failing,
            calls: 0,
            faults: 0,
            system_log: SystemLog::new(),
        }
    }

    // Counts a fault.
    fn fault(&mut self) -> FetchFault
        ensures fault { result ≡ FetchFault.Failed }
        ensures counted { self.new ≡ record self.old { faults = one_more self.old.faults } }
        ensures later { self.old.faults ≤ self.new.faults }
    {
        self.faults = self.faults.saturating_add(1);
        FetchFault::Failed
    }

    // The answer to the next fetch of this name.
    fn answer(&mut self, alloc: Global, name: &str) -> Result<Vec<u8>, FetchFault>
        ensures shelf { Fetches (shelf_of self.old) (shelf_of (noted self.new (fetched name.now result))) name.now result }
        ensures failed { is_failed result ≡ fails self.old name.now }
        ensures too_long { is_too_long result ≡ (not (fails self.old name.now) && is_long self.old name.now) }
        ensures after { self.new ≡ record self.old {
          calls = one_more self.old.calls;
          faults = if fails self.old name.now then one_more self.old.faults else self.old.faults;
        } }
    {
        self.calls = self.calls.saturating_add(1);
        if self.failing.has(self.calls) {
            return Err(self.fault());
        }
        let Some(content) = self.files.content(name) else {
            return Err(self.fault());
        };
        copied(alloc, content)
    }
}

impl Shelf for MemShelf {
    ghost state = { shelf_of };

    fn fetch(&mut self, alloc: Global, name: &str) -> Result<Vec<u8>, FetchFault>
        ensures shelf { Fetches (shelf_of self.old) (shelf_of self.new) name.now result }
        // It fails exactly if its number is one of the failing ones or the shelf doesn't have the name.
        ensures failed { is_failed result ≡ fails self.old name.now }
        ensures too_long { is_too_long result ≡ (not (fails self.old name.now) && is_long self.old name.now) }
        ensures after { self.new ≡ record self.old {
          calls = one_more self.old.calls;
          faults = if fails self.old name.now then one_more self.old.faults else self.old.faults;
          log = self.old.log ++ fetched name.now result ∷ [];
        } }
    {
        let answer = self.answer(alloc, name);
        self.system_log.note_fetch(name, &answer);
        answer
    }
}

// A copy of a content that isn't too long.
fn copied(alloc: Global, content: &[u8]) -> Result<Vec<u8>, FetchFault>
    ensures { IsCopyOf content.now result }
{
    if content.len() > LONGEST {
        return Err(FetchFault::TooLong);
    }
    Ok(content.to_vec(alloc)?)
}
