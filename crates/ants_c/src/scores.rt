// The scores of many games of one world and two brains.
ghost use Rattle.std.specs.Prelude.{◌≡◌, ◌≤◌, IfOk, length, map};
ghost use Rattle.ant_turn.specs.Minds.{Fits, minds_of};
ghost use Rattle.cell_world.specs.Grid.{world_of};
ghost use Rattle.cell_world.specs.Score.{score_of};
ghost use Rattle.match_run.specs.Run.{most_rounds, world_after};
ghost use Rattle.world_read.specs.Opened.{IsOpeningWorld};
ghost use Rattle.ants_c.specs.Played.{game_score, seen_score};

use crate::read::Setting;
use crate::score::AntsScore;
use ant_base::OutOfMemory;
use ant_turn::{Brains, Sheet};
use cell_world::World;
use match_run::play_score;
use std::alloc::Global;

/// The score of a game: the game of these brains on this world, after this many rounds, with this seed.
pub fn score_of_game(world: World, brains: Brains<'_>, rounds: u32, seed: u32) -> AntsScore
    requires fit { Fits (world_of world) (minds_of brains) }
    requires few_rounds { rounds ≤ most_rounds }
    ensures { result ≡ seen_score (score_of (world_after (minds_of brains.entry) seed (world_of world) rounds)) }
{
    let end = play_score(world, brains, seed, rounds);
    AntsScore {
        red: end.red,
        black: end.black,
    }
}

// The score of the game with this seed, from a copy of its world.
fn score_of_setting(
    alloc: Global,
    setting: &Setting,
    rounds: u32,
    seed: u32,
) -> Result<AntsScore, OutOfMemory>
    requires opening { IsOpeningWorld setting.now.world }
    requires red { 1 ≤ length setting.now.red }
    requires black { 1 ≤ length setting.now.black }
    requires few_rounds { rounds ≤ most_rounds }
    ensures { IfOk result (λ score. score ≡ game_score setting.now.world setting.now.red setting.now.black rounds seed) }
{
    let world = setting.world.copy(alloc)?;
    let brains = Brains {
        red: &setting.red,
        black: &setting.black,
        sheet: Sheet::contest(),
    };
    Ok(score_of_game(world, brains, rounds, seed))
}

/// The scores of the games with these seeds, in order.
pub fn scores_of_setting(
    alloc: Global,
    setting: &Setting,
    rounds: u32,
    seeds: &[u32],
) -> Result<Vec<AntsScore>, OutOfMemory>
    requires opening { IsOpeningWorld setting.now.world }
    requires red { 1 ≤ length setting.now.red }
    requires black { 1 ≤ length setting.now.black }
    requires few_rounds { rounds ≤ most_rounds }
    ensures { IfOk result (λ scores. scores.items ≡ map (game_score setting.now.world setting.now.red setting.now.black rounds) seeds.now) }
{
    let mut scores = Vec::with_capacity(alloc, seeds.len())?;
    for seed in seeds {
        let score = score_of_setting(alloc, setting, rounds, *seed)?;
        scores.push(score)?;
    }
    Ok(scores)
}
