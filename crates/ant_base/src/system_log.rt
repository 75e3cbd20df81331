// What the system answered to an adapter, and what it took. It exists only in clauses.
ghost use Rattle.std.specs.Prelude.{◌≡◌, ◌++◌, ℕ, List, [], ◌∷◌};
ghost use Rattle.std.specs.Borrow.{ftrue};
ghost use Rattle.ant_base.specs.Fetched.{Fetched, fetched};
ghost use Rattle.ant_base.specs.Inner.SystemLog.{noted_fetches, noted_bytes};

use crate::FetchFault;
use std::marker::Model;

// What was fetched and which bytes were taken, in order. It takes no memory.
#[derive(Drop)]
pub(crate) struct SystemLog {
    pub ghost fetches: { List Fetched },
    pub ghost bytes: { List ℕ },
}

impl Model for SystemLog {
    ghost also_owns = { λ _. ftrue };
}

// What is added to a log.
#[derive(Clone, Copy, Drop)]
enum Note<'n> {
    Bytes(&'n [u8]),
    Content(&'n str, &'n [u8]),
    Fault(&'n str, FetchFault),
}

impl SystemLog {
    pub(crate) fn new() -> SystemLog
        ensures { (result.fetches ≡ []) × (result.bytes ≡ []) }
    {
        SystemLog {}
    }

    // The log with one more note. Its body does nothing: ghost data is set by a proof.
    fn with(&self, _note: &Note<'_>) -> SystemLog
        ensures { (result.fetches ≡ self.now.fetches ++ noted_fetches _note.now) × (result.bytes ≡ self.now.bytes ++ noted_bytes _note.now) }
    {
        SystemLog {}
    }

    // Notes the answer to a fetch of this name.
    pub(crate) fn note_fetch(&mut self, name: &str, answer: &Result<Vec<u8>, FetchFault>)
        ensures { self.new.fetches ≡ self.old.fetches ++ fetched name.now answer.now ∷ [] }
    {
        let note = match answer {
            Ok(content) => Note::Content(name, content),
            Err(fault) => Note::Fault(name, *fault),
        };
        *self = self.with(&note);
    }

    // Notes that these bytes were taken.
    pub(crate) fn note_bytes(&mut self, piece: &[u8])
        ensures { self.new.bytes ≡ self.old.bytes ++ piece.now }
    {
        *self = self.with(&Note::Bytes(piece));
    }
}
