// A game played to its first stop.
ghost use Rattle.std.specs.Prelude.{◌≡◌, ◌+◌, ◌≤◌, length};
ghost use Rattle.std.specs.List.{All};
ghost use Rattle.ant_turn.specs.Minds.{Fits, minds_of};
ghost use Rattle.cell_world.specs.Grid.{world_of};
ghost use Rattle.cell_world.specs.Limits.{most_ants};
ghost use Rattle.cell_world.specs.Score.{score_of};
ghost use Rattle.match_run.specs.Inner.Alone.{LastsARound, moment_from};
ghost use Rattle.match_run.specs.Run.{most_rounds};
ghost use Rattle.break_view.specs.Grammar.{most_breaks};
ghost use Rattle.break_view.specs.Stops.{EndsAt};
ghost use Rattle.break_view.specs.Inner.Rounds.{RoundEnds};
ghost use Rattle.break_view.specs.Inner.Changes.{IsNamed};

use crate::breaks::Breaks;
use crate::met::met_now;
use crate::passed_rounds::pass_rounds;
use crate::states::{Watch, name_states};
use crate::watched_turn::take_watched;
use ant_random::Stream;
use ant_turn::Brains;
use brain_read::MOST_STATES;
use cell_world::{Score, World};

/// A stop of a game: the turn after which a break held, and which break.
#[derive(Clone, Copy, Debug, PartialEq, Eq)]
pub struct Stop {
    /// The round of the turn, counted from 1.
    pub round: u32,
    /// The id whose turn it was, counted from 0.
    pub id: u32,
    /// The number of the first break that held then, counted from 1 in the order of the list.
    pub which: u32,
}

/// Plays a game until a break holds after a turn, and returns the first such stop; `None` exactly if no break holds
/// after any turn. Breaks are checked from the first turn of round 1 on. Everything else is as with [`find_stop_from`].
pub fn find_stop(
    world: &mut World,
    brains: Brains<'_>,
    seed: u32,
    rounds: u32,
    breaks: &Breaks,
) -> Option<Stop>
    requires fit { Fits (world_of world.old) (minds_of brains) }
    requires few_rounds { rounds ≤ most_rounds }
    ensures { EndsAt (minds_of brains.entry) seed rounds 0 (world_of world.old) breaks.now result (world_of world.new) }
{
    find_stop_from(world, brains, seed, rounds, 0, breaks)
}

/// Plays a game until a break holds after a turn of a round from `from` on, and returns the first such stop; `None`
/// exactly if no break holds after any turn of these rounds.
///
/// Each ant's state is below the length of its colour's brain, as in every opening world. The seed is any, and there
/// are at most 1,000,000 rounds. The first round, `from`, is any: with 0 or 1 breaks are checked from the first turn
/// on, and if it is above the rounds, never. In each round the ids take their turns in rising order, from 0, with the
/// random numbers of the seed from place 0 on. The turn of a dead ant counts as a turn. The world is left as it is
/// after the stop's turn, or after all rounds. A break that holds before the first turn of round `from` counts only if
/// it also holds after that turn.
///
/// It takes no memory. The rounds before `from` are played with nobody watching. In the others, all breaks are checked
/// after the first turn of a round, and after a turn in which an ant moved, was killed or changed the food of its cell.
/// After any other turn they are checked only if a break names the ant's new state, which a table for each colour says;
/// otherwise no break can hold. Each break costs at most one look-up: of a cell, of an ant's position, or of the food
/// on the hills, which is kept from turn to turn. All cells are read once at the start, and again after each turn that
/// killed.
pub fn find_stop_from(
    world: &mut World,
    brains: Brains<'_>,
    seed: u32,
    rounds: u32,
    from: u32,
    breaks: &Breaks,
) -> Option<Stop>
    requires fit { Fits (world_of world.old) (minds_of brains) }
    requires few_rounds { rounds ≤ most_rounds }
    ensures { EndsAt (minds_of brains.entry) seed rounds from (world_of world.old) breaks.now result (world_of world.new) }
{
    let items = breaks.items();
    let mut stream = Stream::from_seed(seed);
    let passed = rounds.min(from.saturating_sub(1));
    pass_rounds(world, brains, &mut stream, passed);
    let mut score = world.score();
    let (mut red, mut black) = ([false; MOST_STATES], [false; MOST_STATES]);
    name_states(items, &mut red, &mut black);
    let watch = Watch {
        items,
        red: &red,
        black: &black,
    };
    for round in passed..rounds {
        let stop = stop_in_round(world, brains, &mut stream, &mut score, round + 1, watch);
        if stop.is_some() {
            return stop;
        }
    }
    None
}

// Plays the round with this number, to its end or to the first stop.
fn stop_in_round(
    world: &mut World,
    brains: Brains<'_>,
    stream: &mut Stream,
    score: &mut Score,
    round: u32,
    watch: Watch<'_>,
) -> Option<Stop>
    requires fit { Fits (world_of world.old) (minds_of brains) }
    requires place { LastsARound stream.old }
    requires few { length watch.items.now ≤ most_breaks }
    requires named { All (IsNamed watch.red.now watch.black.now) watch.items.now }
    requires score { score.old ≡ score_of (world_of world.old) }
    ensures end { RoundEnds (minds_of brains.entry) stream.old.seed (moment_from world.old stream.old) watch.entry.items.now round result (moment_from world.new stream.new) }
    ensures seed { stream.new.seed ≡ stream.old.seed }
    ensures place { stream.new.place ≤ stream.old.place + most_ants }
    ensures fit { Fits (world_of world.new) (minds_of brains.entry) }
    ensures score { score.new ≡ score_of (world_of world.new) }
{
    for id in 0..world.ant_count() {
        let same = take_watched(world, brains, stream, score, id);
        if let Some(which) = met_now(watch, world, *score, round, id, same) {
            return Some(Stop { round, id, which });
        }
    }
    None
}
