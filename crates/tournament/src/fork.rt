// The one place where threads are started.
ghost use Rattle.std.specs.Prelude.{◌≡◌, ℕ, ◌<◌, All, IfOk, length, map, slice_index_or};
ghost use Rattle.tournament.specs.declared.pieces.Piece.{Piece};
ghost use Rattle.tournament.specs.Games.{played_by};
ghost use Rattle.tournament.specs.Inner.Pieces.{IsPieceReady, IsPieceDone, dealt_games};

use crate::games::Played;
use crate::pieces::{Piece, gather};
use crate::referee::Referee;
use hex_geometry::OutOfMemory;
use std::alloc::Global;
use std::thread;
use std::thread::Threads;

// The games of all pieces with their scores, each piece played in a thread; it fails if a game did.
pub fn play_together<R: Threads + Sync, F: Referee>(
    rt: &R,
    alloc: Global,
    referee: &F,
    pieces: &mut [Piece],
    workers: usize,
) -> Result<Vec<Played>, OutOfMemory>
    requires workers { 0 < workers }
    requires ready { All (IsPieceReady (F.knows referee.now)) pieces.old }
    ensures { IfOk result (λ played. played.items ≡ map (played_by (F.score referee.now)) (dealt_games pieces.old)) }
{
    play_pieces(rt, alloc, referee, pieces, workers);
    gather(alloc, pieces)
}

// Plays each piece, in at most this many threads.
fn play_pieces<R: Threads + Sync, F: Referee>(
    rt: &R,
    alloc: Global,
    referee: &F,
    pieces: &mut [Piece],
    workers: usize,
)
    requires workers { 0 < workers }
    requires ready { All (IsPieceReady (F.knows referee.now)) pieces.old }
    ensures done { (i : ℕ) (d : Piece) → i < length pieces.old → IsPieceDone (F.score referee.now) (slice_index_or pieces.old i d) (slice_index_or pieces.new i d) }
    ensures len { length pieces.new ≡ length pieces.old }
{
    thread::for_each_mut(
        rt,
        pieces,
        workers,
        &|_: usize, piece: &mut Piece|
            requires { IsPieceReady (F.knows referee.now) piece.now }
            ensures { IsPieceDone (F.score referee.entry.now) piece.entry.now piece.exit.now }
        { piece.play(alloc, referee) },
    );
}
