// A whole cup, and its games on one world.
ghost use Rattle.std.specs.Prelude.{◌≡◌, ◌≢◌, ℕ, ◌+◌, ◌<◌, ◌≤◌, false, IfOk};
ghost use Rattle.tournament.specs.Games.{worlds_played};
ghost use Rattle.tournament.specs.Plays.{AreKnown, ArePlayed, CanBePlayedBy, PlaysGames};
ghost use Rattle.tournament.specs.Standing.{IsStandingOf};

use crate::fork::play_together;
use crate::games::{Pairing, Played, games_between};
use crate::pieces::{add_played, deal};
use crate::referee::Referee;
use crate::standing::Standing;
use crate::tally::Tally;
use hex_geometry::OutOfMemory;
use std::alloc::Global;
use std::thread::Threads;

/// Plays all games of a cup of 2 to 16 players on 1 to 16,000 worlds by 1 to 16 workers, and returns the standing by
/// the referee's scores. On each world each pair of players plays twice, with the colours swapped (the task's game
/// play). The standing is the same for each number of workers, which play as in [`play_games`]. The referee can score
/// each of these games: any two different players, as red and as black, on each world. The call fails only if memory
/// runs out, its own or the referee's.
///
/// Suppose that there are 2 players and one world, that player 1 wins the game in which it is red, and that the other
/// game is drawn. Then the standing has two lines: player 1 with 3 points, 1 won, 1 drawn, 0 lost; and then player 0
/// with 1 point, 0 won, 1 drawn, 1 lost.
pub fn play_all<R: Threads + Sync, F: Referee>(
    rt: &R,
    alloc: Global,
    referee: &F,
    players: u32,
    worlds: u32,
    workers: u32,
) -> Result<Standing, OutOfMemory>
    requires players { (2 ≤ players) × (players ≤ 16) }
    requires worlds { (1 ≤ worlds) × (worlds ≤ 16000) }
    requires workers { (1 ≤ workers) × (workers ≤ 16) }
    requires known { (world red black : ℕ) → world < worlds → red < players → black < players → red ≢ black → F.knows referee.now world red black }
    ensures { IfOk result (λ standing. IsStandingOf false players worlds (F.score referee.now) standing) }
{
    let play = |referee: &F, games: &[Pairing], workers: u32| -> Result<Vec<Played>, OutOfMemory>
        requires { CanBePlayedBy workers (F.knows referee.now) games.now }
        ensures { ArePlayed (F.score referee.entry.now) games.entry.now result }
    { play_games(rt, alloc, referee, games, workers) };
    play_all_by(alloc, referee, false, players, worlds, workers, &play)
}

/// Does what [`play_all`] does; in a gauntlet only the games of player 0 are played. `play` plays the games, by 1 to 16
/// workers or on the caller's thread, as [`play_games`] and [`play_games_alone`] do: the standing is the same. It gets
/// fewer than 4096 games at a time, and only their counts and sums are kept, so memory doesn't grow with the number of
/// worlds. The call fails only if memory runs out, its own or that of `play`.
pub fn play_all_by<F: Referee, P: Fn(&F, &[Pairing], u32) -> Result<Vec<Played>, OutOfMemory>>(
    alloc: Global,
    referee: &F,
    gauntlet: bool,
    players: u32,
    worlds: u32,
    workers: u32,
    play: &P,
) -> Result<Standing, OutOfMemory>
    requires players { (2 ≤ players) × (players ≤ 16) }
    requires worlds { (1 ≤ worlds) × (worlds ≤ 16000) }
    requires workers { (1 ≤ workers) × (workers ≤ 16) }
    requires known { (world red black : ℕ) → world < worlds → red < players → black < players → red ≢ black → F.knows referee.now world red black }
    requires plays { PlaysGames P.Fn F.knows F.score play.now }
    ensures { IfOk result (λ standing. IsStandingOf gauntlet players worlds (F.score referee.now) standing) }
{
    let most = most_at_once(players);
    let mut tally = Tally::new(alloc, players)?;
    let mut world = 0;
    while world < worlds {
        let count = most.min(worlds - world);
        let played = play_worlds(
            alloc, referee, gauntlet, players, world, count, workers, play,
        )?;
        tally.add(alloc, &played)?;
        world += count;
    }
    Ok(tally.standing())
}

// The number of worlds whose games are passed to `play` at once, such that they have fewer than 4096 games.
fn most_at_once(players: u32) -> u32
    requires { (2 ≤ players) × (players ≤ 16) }
    ensures { (1 ≤ result) × (result ≤ 1024) }
{
    4096 / (players * players)
}

/// Plays the games of a cup, or of a gauntlet, of 2 to 16 players on 1 to 1024 consecutive worlds, from this number on,
/// and returns them with the referee's scores, in the order of the cup. `play` plays them, as in [`play_all_by`]. The
/// referee can score each of these games: any two different players, as red and as black. The call fails only if
/// memory runs out, its own or that of `play`.
pub fn play_worlds<F: Referee, P: Fn(&F, &[Pairing], u32) -> Result<Vec<Played>, OutOfMemory>>(
    alloc: Global,
    referee: &F,
    gauntlet: bool,
    players: u32,
    first: u32,
    count: u32,
    workers: u32,
    play: &P,
) -> Result<Vec<Played>, OutOfMemory>
    requires players { (2 ≤ players) × (players ≤ 16) }
    requires worlds { (count ≤ 1024) × (first + count ≤ 16000) }
    requires workers { (1 ≤ workers) × (workers ≤ 16) }
    requires known { (world red black : ℕ) → first ≤ world → world < first + count → red < players → black < players → red ≢ black → F.knows referee.now world red black }
    requires plays { PlaysGames P.Fn F.knows F.score play.now }
    ensures { IfOk result (λ played. played.items ≡ worlds_played gauntlet players first count (F.score referee.now)) }
{
    let games = games_between(alloc, gauntlet, players, first, count)?;
    play(referee, &games, workers)
}

/// Plays fewer than 2^30 games that the referee can score, and returns them in their order with the referee's scores.
/// Each of 1 to 16 workers plays a contiguous piece of them in a thread of its own. A worker that has no game starts no
/// thread. The call fails only if memory runs out, its own or the referee's.
pub fn play_games<R: Threads + Sync, F: Referee>(
    rt: &R,
    alloc: Global,
    referee: &F,
    games: &[Pairing],
    workers: u32,
) -> Result<Vec<Played>, OutOfMemory>
    requires { CanBePlayedBy workers (F.knows referee.now) games.now }
    ensures { ArePlayed (F.score referee.now) games.now result }
{
    let mut pieces = deal(alloc, games, workers as usize)?;
    play_together(rt, alloc, referee, &mut pieces, workers as usize)
}

/// Plays games that the referee can score, one after another on the caller's thread, and returns them with the
/// referee's scores. The call fails only if memory runs out, its own or the referee's.
pub fn play_games_alone<F: Referee>(
    alloc: Global,
    referee: &F,
    games: &[Pairing],
) -> Result<Vec<Played>, OutOfMemory>
    requires { AreKnown (F.knows referee.now) games.now }
    ensures { ArePlayed (F.score referee.now) games.now result }
{
    let mut played = Vec::new(alloc);
    add_played(alloc, referee, games, &mut played)?;
    Ok(played)
}
