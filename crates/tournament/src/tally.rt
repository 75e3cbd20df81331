// From the scores of all games to the lines in their order.
ghost use Rattle.std.specs.Prelude.{◌≡◌, ℕ, ◌+◌, ◌*◌, ◌<◌, ◌≤◌, ◌^◌, ◌++◌, List, [], All, length, map, sum_by, IfOk, OnOk, IsPermutation};
ghost use Rattle.std.specs.List.{AllAdjacentBelow};
ghost use Rattle.tournament.specs.declared.games.Played.{Played};
ghost use Rattle.tournament.specs.Inner.Tallies.{IsSmall, IsTally, with_games};
ghost use Rattle.tournament.specs.Standing.{is_won, is_lost, is_drawn, food_against, food_for, line_of, Ranks, StandsAbove};

use crate::games::Played;
use crate::standing::{Line, Standing};
use hex_geometry::OutOfMemory;
use std::alloc::Global;
use std::cmp::Reverse;

/// The standing of the players with numbers below `players` after these games, in any order and fewer than 2^30: a line
/// for each player, in order of falling points, and for equal points in order of rising player numbers (the task's game
/// play). After all games of a cup it is the cup's standing. It fails only if memory runs out.
pub fn standing_of(alloc: Global, players: u32, games: &[Played]) -> Result<Standing, OutOfMemory>
    requires few { length games.now < 2 ^ 30 }
    ensures { IfOk result (λ standing. Ranks players games.now standing) }
{
    let mut tally = Tally::new(alloc, players)?;
    tally.add(alloc, games)?;
    Ok(tally.standing())
}

// The lines of all players after the games so far, by player number, and the number of these games.
#[derive(Drop)]
pub struct Tally {
    pub lines: Vec<Line>,
    pub games: u32,
}

impl Tally {
    // The lines before the first game.
    #[tactic(auto, using(crate::proofs::TallyLemmas::lines_more, crate::proofs::TallyLemmas::small_more))]
    pub fn new(alloc: Global, players: u32) -> Result<Tally, OutOfMemory>
        ensures { IfOk result (λ tally. IsTally players [] tally) }
    {
        let mut lines = Vec::with_capacity(alloc, players as usize)?;
        for player in 0..players {
            lines.push(line_of(player, &[]))?;
        }
        Ok(Tally { lines, games: 0 })
    }

    // Adds games that were played after the others.
    pub fn add(&mut self, alloc: Global, games: &[Played]) -> Result<(), OutOfMemory>
        requires few { self.old.games + length games.now < 2 ^ 30 }
        requires small { All (IsSmall self.old.games) self.old.lines.items }
        ensures { OnOk result ((players : ℕ) (before : List Played) → IsTally players before self.old → IsTally players (before ++ games.now) self.new) }
    {
        self.lines = lines_with(alloc, &self.lines, self.games, games)?;
        self.games += games.len() as u32;
        Ok(())
    }

    // The lines in their order.
    pub fn standing(self) -> Standing
        ensures { (players : ℕ) (games : List Played) → IsTally players games self → Ranks players games result }
    {
        let mut lines = self.lines;
        rank(&mut lines);
        Standing::from_list(lines)
    }
}

// The lines with some more games, given the lines after this many.
#[tactic(auto, using(crate::proofs::TallyLemmas::with_more, crate::proofs::TallyLemmas::small_more))]
fn lines_with(
    alloc: Global,
    lines: &[Line],
    before: u32,
    games: &[Played],
) -> Result<Vec<Line>, OutOfMemory>
    requires few { before + length games.now < 2 ^ 30 }
    requires small { All (IsSmall before) lines.now }
    ensures lines { IfOk result (λ more. more.items ≡ map (with_games games.now) lines.now) }
    ensures small { IfOk result (λ more. All (IsSmall (before + length games.now)) more.items) }
{
    let mut more = Vec::with_capacity(alloc, lines.len())?;
    for line in lines {
        more.push(line_with(*line, before, games))?;
    }
    Ok(more)
}

// A line with some more games, given the line after this many.
fn line_with(line: Line, before: u32, games: &[Played]) -> Line
    requires few { before + length games.now < 2 ^ 30 }
    requires small { IsSmall before line }
    ensures is { result ≡ with_games games.now line }
    ensures small { IsSmall (before + length games.now) result }
{
    let more = line_of(line.player, games);
    Line {
        player: line.player,
        points: line.points + more.points,
        won: line.won + more.won,
        drawn: line.drawn + more.drawn,
        lost: line.lost + more.lost,
        food_for: line.food_for + more.food_for,
        food_against: line.food_against + more.food_against,
    }
}

// Puts the lines in their order.
fn rank(lines: &mut [Line])
    ensures each { IsPermutation lines.old lines.new }
    ensures order { AllAdjacentBelow StandsAbove lines.new (length lines.new) }
{
    lines.sort_unstable_by_key(|line| (Reverse(line.points), line.player));
}

// A player's line after these games.
fn line_of(player: u32, games: &[Played]) -> Line
    requires few { length games.now < 2 ^ 30 }
    ensures is { result ≡ line_of games.now player }
    ensures small { IsSmall (length games.now) result }
{
    let mut won = 0;
    let mut drawn = 0;
    let mut lost = 0;
    for game in games {
        won += u32::from(is_won(player, game));
        drawn += u32::from(is_drawn(player, game));
        lost += u32::from(is_lost(player, game));
    }
    Line {
        player,
        points: 2 * won + drawn,
        won,
        drawn,
        lost,
        food_for: all_food_for(player, games),
        food_against: all_food_against(player, games),
    }
}

fn is_won(player: u32, it: &Played) -> bool
    ensures { result ≡ is_won player it.now }
{
    let red = it.score.red;
    let black = it.score.black;
    (it.game.red == player && red > black) || (it.game.black == player && black > red)
}

fn is_lost(player: u32, it: &Played) -> bool
    ensures { result ≡ is_lost player it.now }
{
    let red = it.score.red;
    let black = it.score.black;
    (it.game.red == player && red < black) || (it.game.black == player && black < red)
}

fn is_drawn(player: u32, it: &Played) -> bool
    ensures { result ≡ is_drawn player it.now }
{
    (it.game.red == player || it.game.black == player) && it.score.red == it.score.black
}

// The player's own food over these games.
#[tactic(auto, using(crate::proofs::StandingLemmas::food_more, crate::proofs::StandingLemmas::food_all))]
fn all_food_for(player: u32, games: &[Played]) -> u64
    requires few { length games.now < 2 ^ 30 }
    ensures is { result ≡ sum_by (food_for player) games.now }
    ensures small { result ≤ length games.now * 2 ^ 32 }
{
    let mut food = 0;
    for game in games {
        food += food_for(player, game);
    }
    food
}

// Its opponents' food over these games.
#[tactic(auto, using(crate::proofs::StandingLemmas::food_more, crate::proofs::StandingLemmas::food_all))]
fn all_food_against(player: u32, games: &[Played]) -> u64
    requires few { length games.now < 2 ^ 30 }
    ensures is { result ≡ sum_by (food_against player) games.now }
    ensures small { result ≤ length games.now * 2 ^ 32 }
{
    let mut food = 0;
    for game in games {
        food += food_against(player, game);
    }
    food
}

// The player's food in a game.
fn food_for(player: u32, it: &Played) -> u64
    ensures is { result ≡ food_for player it.now }
    ensures small { result < 2 ^ 32 }
{
    if it.game.red == player {
        u64::from(it.score.red)
    } else if it.game.black == player {
        u64::from(it.score.black)
    } else {
        0
    }
}

// Its opponent's food in a game.
fn food_against(player: u32, it: &Played) -> u64
    ensures is { result ≡ food_against player it.now }
    ensures small { result < 2 ^ 32 }
{
    if it.game.red == player {
        u64::from(it.score.black)
    } else if it.game.black == player {
        u64::from(it.score.red)
    } else {
        0
    }
}
