// The threads of a crew of pieces.
ghost use Rattle.std.specs.Prelude.{◌≡◌, ℕ, ◌<◌, All, length, slice_index_or};
ghost use Rattle.round_workers.specs.declared.piece.Piece.{Piece};
ghost use Rattle.round_workers.specs.Inner.Pieces.{IsPieceDone, IsPieceReady};

use crate::piece::Piece;
use crate::team::Team;
use ant_base::Gate;
use round_book::Field;
use std::thread;
use std::thread::Threads;

// Makes the looks of each piece, each piece in its own thread; a single piece in the caller's thread.
pub fn look_at_pieces<R: Threads + Sync, G: Gate>(
    team: &Team<'_, R, G>,
    field: &Field<'_>,
    from: u32,
    pieces: &mut [Piece],
)
    requires workers { 0 < team.now.workers }
    requires ready { All (IsPieceReady field.now from) pieces.old }
    ensures done { (i : ℕ) (d : Piece) → i < length pieces.old → IsPieceDone field.now from (slice_index_or pieces.old i d) (slice_index_or pieces.new i d) }
    ensures len { length pieces.new ≡ length pieces.old }
{
    let gate = team.gate;
    thread::for_each_mut(
        team.rt,
        pieces,
        team.workers as usize,
        &|_: usize, piece: &mut Piece|
            requires { IsPieceReady field.now from piece.now }
            ensures { IsPieceDone field.entry.now from piece.entry.now piece.exit.now }
        { piece.look_at_turns(field, gate, from) },
    );
}
