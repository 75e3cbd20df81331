// The games of a cup, in their order.
ghost use Rattle.std.specs.Prelude.{◌≡◌, ◌+◌, ◌<◌, ◌≤◌, ◌^◌, ◌++◌, IfOk};
ghost use Rattle.tournament.specs.Games.{both_ways, each_pair_on, games_between, games_on, games_with};

use cell_world::Score;
use hex_geometry::OutOfMemory;
use std::alloc::Global;

/// A game of a cup.
#[derive(Clone, Copy, Debug, PartialEq, Eq)]
pub struct Pairing {
    /// The number of its world, from 0.
    pub world: u32,
    /// The number of its red player, from 0.
    pub red: u32,
    /// The number of its black player, from 0.
    pub black: u32,
}

/// A game with its score.
#[derive(Clone, Copy, Debug, PartialEq, Eq)]
pub struct Played {
    /// The game.
    pub game: Pairing,
    /// Its score.
    pub score: Score,
}

// The games on this many worlds from this one on; in a gauntlet only those of player 0.
#[tactic(auto, using(crate::proofs::GamesLemmas::between_more))]
pub fn games_between(
    alloc: Global,
    gauntlet: bool,
    players: u32,
    first: u32,
    count: u32,
) -> Result<Vec<Pairing>, OutOfMemory>
    requires players { 1 ≤ players }
    requires worlds { first + count < 2 ^ 32 }
    ensures { IfOk result (λ games. games.items ≡ games_between gauntlet players first count) }
{
    let mut games = Vec::new(alloc);
    for k in 0..count {
        add_world(&mut games, gauntlet, players, first + k)?;
    }
    Ok(games)
}

// Adds the games on one world. In a gauntlet only player 0 plays, against all others.
#[tactic(auto, using(crate::proofs::GamesLemmas::gauntlet_all, crate::proofs::GamesLemmas::each_all))]
fn add_world(
    games: &mut Vec<Pairing>,
    gauntlet: bool,
    players: u32,
    world: u32,
) -> Result<(), OutOfMemory>
    requires { 1 ≤ players }
    ensures { IfOk result (λ _. games.new.items ≡ games.old.items ++ games_on gauntlet players world) }
{
    if gauntlet {
        return add_pairs(games, players, world, 0);
    }
    add_each_pair(games, players, world)
}

// Adds the games on one world of each pair of players.
#[tactic(auto, using(crate::proofs::GamesLemmas::all_more, crate::proofs::GamesLemmas::players_all))]
fn add_each_pair(games: &mut Vec<Pairing>, players: u32, world: u32) -> Result<(), OutOfMemory>
    ensures { IfOk result (λ _. games.new.items ≡ games.old.items ++ each_pair_on players world) }
{
    for first in 0..players {
        add_pairs(games, players, world, first)?;
    }
    Ok(())
}

// Adds the games on one world of a player against those with a higher number.
#[tactic(auto, using(crate::proofs::GamesLemmas::pairs_none, crate::proofs::GamesLemmas::pairs_more, crate::proofs::GamesLemmas::pairs_all))]
fn add_pairs(
    games: &mut Vec<Pairing>,
    players: u32,
    world: u32,
    first: u32,
) -> Result<(), OutOfMemory>
    requires { first < players }
    ensures { IfOk result (λ _. games.new.items ≡ games.old.items ++ games_with players world first) }
{
    for second in first + 1..players {
        add_pair(games, world, first, second)?;
    }
    Ok(())
}

// Adds the two games of a pair on one world.
fn add_pair(
    games: &mut Vec<Pairing>,
    world: u32,
    first: u32,
    second: u32,
) -> Result<(), OutOfMemory>
    ensures { IfOk result (λ _. games.new.items ≡ games.old.items ++ both_ways world first second) }
{
    let there = Pairing {
        world,
        red: first,
        black: second,
    };
    let back = Pairing {
        world,
        red: second,
        black: first,
    };
    games.extend_from_slice(&[there, back])?;
    Ok(())
}
