// The list of games in contiguous pieces, one for each worker.
ghost use Rattle.std.specs.Prelude.{◌≡◌, ◌+◌, ◌*◌, ◌<◌, ◌≤◌, ◌++◌, ◌^◌, false, [], All, length, map, IfOk, OnOk};
ghost use Rattle.tournament.specs.Games.{played_by};
ghost use Rattle.tournament.specs.Plays.{AreKnown};
ghost use Rattle.tournament.specs.Inner.Pieces.{IsPieceReady, IsPieceDone, dealt_games, played_games};

use crate::games::{Pairing, Played};
use crate::referee::Referee;
use hex_geometry::OutOfMemory;
use std::alloc::Global;
use work_share::border;

// A worker's games, room for their scores, and whether a game failed.
#[derive(Drop)]
pub struct Piece {
    pub games: Vec<Pairing>,
    pub played: Vec<Played>,
    pub refused: bool,
}

impl Piece {
    // The piece of these games, with room for each score.
    fn of_games(alloc: Global, games: &[Pairing]) -> Result<Piece, OutOfMemory>
        ensures games { IfOk result (λ piece. piece.games.items ≡ games.now) }
        ensures fresh { IfOk result (λ piece. piece.played.items ≡ []) }
    {
        Ok(Piece {
            games: Vec::from_slice(alloc, games)?,
            played: Vec::with_capacity(alloc, games.len())?,
            refused: false,
        })
    }

    // Plays the games in their order, up to the first that fails.
    pub fn play<F: Referee>(&mut self, alloc: Global, referee: &F)
        requires { IsPieceReady (F.knows referee.now) self.old }
        ensures { IsPieceDone (F.score referee.now) self.old self.new }
    {
        self.refused = add_played(alloc, referee, &self.games, &mut self.played).is_err();
    }
}

// Adds these games with their scores, up to the first that fails.
#[tactic(auto, using(crate::proofs::PiecesLemmas::played_push))]
pub fn add_played<F: Referee>(
    alloc: Global,
    referee: &F,
    games: &[Pairing],
    played: &mut Vec<Played>,
) -> Result<(), OutOfMemory>
    requires { AreKnown (F.knows referee.now) games.now }
    ensures { IfOk result (λ _. played.new.items ≡ played.old.items ++ map (played_by (F.score referee.now)) games.now) }
{
    for game in games {
        let score = referee.game(alloc, game.world, game.red, game.black)?;
        played.push(Played { game: *game, score })?;
    }
    Ok(())
}

// The games in as many pieces as there are workers: piece k begins with game k * n / workers, where n is the number of
// games. Pieces without a game are left out.
pub fn deal(alloc: Global, games: &[Pairing], workers: usize) -> Result<Vec<Piece>, OutOfMemory>
    requires workers { (0 < workers) × (workers ≤ 16) }
    requires few { length games.now < 2 ^ 30 }
    ensures games { IfOk result (λ pieces. dealt_games pieces.items ≡ games.now) }
    ensures fresh { IfOk result (λ pieces. All (λ piece. piece.played.items ≡ []) pieces.items) }
{
    let count = games.len();
    let mut pieces = Vec::with_capacity(alloc, workers)?;
    for k in 0..workers {
        let from = border(workers, count, k);
        let to = border(workers, count, k + 1);
        add_piece(&mut pieces, alloc, &games[from..to])?;
    }
    Ok(pieces)
}

// Adds the piece of these games, if there are any.
#[tactic(auto, using(crate::proofs::PiecesLemmas::dealt_push, crate::proofs::PiecesLemmas::nothing_more))]
fn add_piece(pieces: &mut Vec<Piece>, alloc: Global, games: &[Pairing]) -> Result<(), OutOfMemory>
    ensures games { IfOk result (λ _. dealt_games pieces.new.items ≡ dealt_games pieces.old.items ++ games.now) }
    ensures fresh { OnOk result (All (λ piece. piece.played.items ≡ []) pieces.old.items → All (λ piece. piece.played.items ≡ []) pieces.new.items) }
{
    if games.is_empty() {
        return Ok(());
    }
    let piece = Piece::of_games(alloc, games)?;
    pieces.push(piece)?;
    Ok(())
}

// The played games of all pieces, in their order; it fails if a game of a piece did.
pub fn gather(alloc: Global, pieces: &[Piece]) -> Result<Vec<Played>, OutOfMemory>
    ensures played { IfOk result (λ played. played.items ≡ played_games pieces.now) }
    ensures whole { OnOk result (All (λ piece. piece.refused ≡ false) pieces.now) }
{
    let mut played = Vec::new(alloc);
    for piece in pieces {
        if piece.refused {
            return Err(OutOfMemory);
        }
        played.extend_from_slice(&piece.played)?;
    }
    Ok(played)
}
