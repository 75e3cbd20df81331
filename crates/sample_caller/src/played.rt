// A game of three files.
ghost use Rattle.std.specs.Prelude.{◌≤◌};
ghost use Rattle.ant_base.specs.Sink.{Pushed};
ghost use Rattle.match_run.specs.Run.{most_rounds};
ghost use Rattle.sample_caller.specs.Played.{PlaysFiles, outcome_text};

use crate::files::{brain_in, world_in};
use crate::refusal::Refusal;
use ant_base::{Failed, Layout, Shelf, Sink, layout};
use ant_turn::{Brains, Sheet};
use cell_world::Score;
use dump_print::push_score;
use match_run::play_score;
use std::alloc::Global;

/// The seed of each game.
pub const SEED: u32 = 12345;

/// The score after the given number of rounds, at most 1,000,000, of the game of two files' brains on the world of a
/// third, by the contest's rules and with seed 12345.
///
/// It is refused at the first file that wasn't fetched, or whose bytes aren't those of a world or a brain; the refusal
/// has that file's name and its fault. The files are fetched once each, in the order of the parameters: those before
/// the refused one were opened, and none after it is fetched. Out of memory may be the fault of any file.
pub fn play<'n, S: Shelf>(
    alloc: Global,
    shelf: &mut S,
    world: &'n str,
    red: &'n str,
    black: &'n str,
    rounds: u32,
) -> Result<Score, Refusal<'n>>
    requires { rounds ≤ most_rounds }
    ensures { PlaysFiles (S.state shelf.old).log (S.state shelf.new).log world.now red.now black.now rounds result }
{
    let world = world_in(alloc, shelf, world)?;
    let red = brain_in(alloc, shelf, red)?;
    let black = brain_in(alloc, shelf, black)?;
    let brains = Brains {
        red: &red,
        black: &black,
        sheet: Sheet::contest(),
    };
    Ok(play_score(world, brains, SEED, rounds))
}

/// Pushes the result of a game: its score, or the line of the file that was refused, such as `step.brain: line 1: bad
/// number`. At `Failed` a prefix of it was appended.
pub fn push_outcome<K: Sink>(
    outcome: Result<Score, Refusal<'_>>,
    sink: &mut K,
) -> Result<(), Failed>
    ensures { Pushed (K.state sink.old) (K.state sink.new) (outcome_text outcome.entry) result }
{
    match outcome {
        Ok(score) => push_score(score, sink),
        Err(refusal) => layout!(refusal, "\n").push_to(sink),
    }
}
