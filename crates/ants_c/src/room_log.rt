// What a room held before a call, and what was pushed. It exists only in clauses.
ghost use Rattle.std.specs.Prelude.{◌≡◌, ◌++◌, ℕ, List, []};
ghost use Rattle.std.specs.Borrow.{ftrue};

use std::marker::Model;

// What a room held, followed by all that was pushed over it. It takes no memory.
#[derive(Drop)]
pub(crate) struct RoomLog {
    pub ghost bytes: { List ℕ },
}

impl Model for RoomLog {
    ghost also_owns = { λ _. ftrue };
}

// Bytes that are added to a log.
#[derive(Clone, Copy, Drop)]
struct Piece<'p>(&'p [u8]);

impl RoomLog {
    fn new() -> RoomLog
        ensures { result.bytes ≡ [] }
    {
        RoomLog {}
    }

    // The log with one more piece. Its body does nothing: ghost data is set by a proof.
    fn with(&self, _piece: &Piece<'_>) -> RoomLog
        ensures { result.bytes ≡ self.now.bytes ++ _piece.now.0.now }
    {
        RoomLog {}
    }

    // The log of a room that holds these bytes, over which nothing was pushed.
    pub(crate) fn begun(held: &[u8]) -> RoomLog
        ensures { result.bytes ≡ held.now }
    {
        RoomLog::new().with(&Piece(held))
    }

    // Notes that a piece was pushed.
    pub(crate) fn note(&mut self, piece: &[u8])
        ensures { self.new.bytes ≡ self.old.bytes ++ piece.now }
    {
        *self = self.with(&Piece(piece));
    }

    // The same log.
    pub(crate) fn copy(&self) -> RoomLog
        ensures { result.bytes ≡ self.now.bytes }
    {
        self.with(&Piece(&[]))
    }
}
