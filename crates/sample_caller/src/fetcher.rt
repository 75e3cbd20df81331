// A brain that is built from instructions, without a text, and then minimised.
ghost use Rattle.std.specs.Prelude.{◌≡◌, ◌≤◌, IfOk};
ghost use Rattle.ant_turn.specs.Minds.{contest_minds};
ghost use Rattle.brain_minimise.specs.Minimised.{IsMinimised};
ghost use Rattle.cell_world.specs.Grid.{world_of};
ghost use Rattle.cell_world.specs.Score.{score_of};
ghost use Rattle.match_run.specs.Run.{most_rounds, world_after};
ghost use Rattle.sample_caller.specs.Fetcher.{fetcher};
ghost use Rattle.sample_caller.specs.Played.{sample_seed};
ghost use Rattle.world_read.specs.Opened.{IsOpeningWorld};

use crate::played::SEED;
use ant_turn::{Brains, Sheet};
use brain_minimise::{Minimised, OutOfMemory, minimise};
use brain_read::{Brain, Cond, Instr};
use cell_world::{Score, World};
use hex_geometry::{Side, Sight};
use match_run::play_score;
use std::alloc::Global;

// Its instructions, by state. States 3 and 5 are equivalent.
const FETCHER: [Instr; 6] = [
    Instr::Sense {
        sight: Sight::Here,
        yes: 1,
        no: 2,
        cond: Cond::Home,
    },
    Instr::Drop { next: 3 },
    Instr::PickUp { yes: 5, no: 3 },
    Instr::Move { yes: 0, no: 4 },
    Instr::Turn {
        side: Side::Left,
        next: 3,
    },
    Instr::Move { yes: 0, no: 4 },
];

/// A brain of six states, which takes food and brings it home if the way is a corridor. It fails only if memory runs
/// out.
pub fn fetcher(alloc: Global) -> Result<Brain, OutOfMemory>
    ensures { IfOk result (λ brain. brain ≡ fetcher) }
{
    let list = Vec::from_slice(alloc, &FETCHER)?;
    Ok(Brain::from_list(list))
}

/// The minimised fetcher, which has five states, and the new numbers of the six. It fails only if memory runs out.
pub fn small_fetcher(alloc: Global) -> Result<Minimised, OutOfMemory>
    ensures { IfOk result (λ small. IsMinimised fetcher small.brain small.map) }
{
    let brain = fetcher(alloc)?;
    minimise(alloc, &brain)
}

/// The score after the given number of rounds, at most 1,000,000, by the contest's rules and with seed 12345, if both
/// sides play with this minimised fetcher. The score is the same if both play with the fetcher itself. The world is an
/// opening world. It takes no memory.
pub fn play_fetchers(small: &Minimised, world: World, rounds: u32) -> Score
    requires minimised { IsMinimised fetcher small.now.brain small.now.map }
    requires opening { IsOpeningWorld world }
    requires few { rounds ≤ most_rounds }
    ensures { result ≡ score_of (world_after (contest_minds fetcher fetcher) sample_seed (world_of world) rounds) }
{
    let brains = Brains {
        red: &small.brain,
        black: &small.brain,
        sheet: Sheet::contest(),
    };
    play_score(world, brains, SEED, rounds)
}
