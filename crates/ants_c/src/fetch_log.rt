// What was fetched from a shelf, with the answers. It exists only in clauses.
ghost use Rattle.std.specs.Prelude.{◌≡◌, ◌++◌, List, [], ◌∷◌};
ghost use Rattle.std.specs.Borrow.{ftrue};
ghost use Rattle.ant_base.specs.Fetched.{Fetched, fetched};
ghost use Rattle.ants_c.specs.Inner.Fetches.{noted_fetch};

use ant_base::FetchFault;
use std::marker::Model;

// All fetches with their answers, in order. It takes no memory.
#[derive(Drop)]
pub(crate) struct FetchLog {
    pub ghost fetches: { List Fetched },
}

impl Model for FetchLog {
    ghost also_owns = { λ _. ftrue };
}

// A fetch that is added to a log: the name and the answer.
#[derive(Clone, Copy, Drop)]
enum Note<'n> {
    Content(&'n str, &'n [u8]),
    Fault(&'n str, FetchFault),
}

impl FetchLog {
    pub(crate) fn new() -> FetchLog
        ensures { result.fetches ≡ [] }
    {
        FetchLog {}
    }

    // The log with one more fetch. Its body does nothing: ghost data is set by a proof.
    fn with(&self, _note: &Note<'_>) -> FetchLog
        ensures { result.fetches ≡ self.now.fetches ++ noted_fetch _note.now ∷ [] }
    {
        FetchLog {}
    }

    // Notes the answer to a fetch of this name.
    pub(crate) fn note(&mut self, name: &str, answer: &Result<Vec<u8>, FetchFault>)
        ensures { self.new.fetches ≡ self.old.fetches ++ fetched name.now answer.now ∷ [] }
    {
        let note = match answer {
            Ok(content) => Note::Content(name, content),
            Err(fault) => Note::Fault(name, *fault),
        };
        *self = self.with(&note);
    }
}
