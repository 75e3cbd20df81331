// A game that is played round by round, and what its world shows after each.
ghost use Rattle.std.specs.Prelude.{◌≡◌, ◌+◌, ◌≤◌, IfOk};
ghost use Rattle.ant_turn.specs.Minds.{minds_of};
ghost use Rattle.cell_world.specs.Grid.{world_of};
ghost use Rattle.match_run.specs.Run.{most_rounds, world_after};
ghost use Rattle.sample_caller.specs.Played.{sample_seed};
ghost use Rattle.sample_caller.specs.Watched.{IsFirstRound, is_laden};
ghost use Rattle.world_read.specs.Opened.{IsOpeningWorld};

use crate::played::SEED;
use ant_turn::Brains;
use cell_world::World;
use match_run::{Game, OutOfMemory};
use round_book::{Field, SoloCrew, lemma_valid};
use std::alloc::Global;

// How many turns are looked at ahead. The result doesn't depend on this number.
const WINDOW: u32 = 64;

// Whether the ant with this id is alive and carries food.
fn is_laden(world: &World, id: u32) -> bool
    ensures { result ≡ is_laden id (world_of world.now) }
{
    let Some(place) = world.ant_place(id) else {
        return false;
    };
    match world.cell(place).ant {
        Some(ant) => ant.laden,
        None => false,
    }
}

/// The first of the given number of rounds, at most 1,000,000, after which the ant with this id, counted from 0,
/// carries food; `None` if it carries none after any of them, or never existed. Rounds are counted from 1. The game is
/// that of seed 12345, and the world is an opening world. It fails only if memory runs out.
pub fn first_laden(
    alloc: Global,
    world: World,
    brains: Brains<'_>,
    id: u32,
    rounds: u32,
) -> Result<Option<u32>, OutOfMemory>
    requires opening { IsOpeningWorld world }
    requires few { rounds ≤ most_rounds }
    ensures { IfOk result (λ found.
        IsFirstRound (λ round. is_laden id (world_after (minds_of brains.entry) sample_seed (world_of world) round)) rounds found) }
{
    lemma_valid(brains, &world);
    let field = Field::new(alloc, world, brains, SEED, 0)?;
    let mut game = Game::begin(field, WINDOW);
    let mut crew = SoloCrew::new();
    for done in 0..rounds {
        game.round(alloc, &mut crew)?;
        if is_laden(game.world(), id) {
            return Ok(Some(done + 1));
        }
    }
    Ok(None)
}
