// Games played alone, and the text of their runs.
ghost use Rattle.std.specs.Prelude.{◌≡◌, ◌-◌, ◌≤◌, IfOk, OnErr, OnOk};
ghost use Rattle.ant_base.specs.Sink.{Pushed};
ghost use Rattle.ant_turn.specs.Minds.{Fits, minds_of};
ghost use Rattle.ant_turn.specs.Rounds.{after_rounds};
ghost use Rattle.cell_world.specs.Grid.{world_of};
ghost use Rattle.cell_world.specs.Score.{score_of};
ghost use Rattle.match_run.specs.Dumps.{chooses};
ghost use Rattle.match_run.specs.Later.{later_dumps, plain_later_text};
ghost use Rattle.match_run.specs.Run.{most_rounds, ended, run_text, world_after};
ghost use Rattle.match_run.specs.Alone.{IsPlayedOn, standing};
ghost use Rattle.match_run.specs.Stopped.{LosesDump, LosesText};

use crate::dumps::{Dumps, push_chosen};
use crate::game_alone::GameAlone;
use crate::plan::Plan;
use ant_base::{Failed, Sink};
use ant_turn::Brains;
use cell_world::{Score, World};
use dump_print::{push_score, push_seed};

/// Plays a game and pushes the text of its run: the line of the seed, the dump after each round that the plan selects,
/// in order from round 0, which is the start, and the score (the task's game play).
///
/// Each ant's state is below the length of its colour's brain, as in every opening world, and the plan has at most
/// 1,000,000 rounds. The turns are those of the ids in rising order, from 0, round after round, with the random numbers
/// of the seed from place 0 on. It returns the score after the last round: the food on each colour's hill. It fails
/// only if the sink failed and its count of faults rose; then a prefix of the text was pushed. It takes no memory. It
/// makes no looks and counts none: its text is that of a plan without counts, whatever the plan says about windows and
/// counts.
pub fn play_alone<K: Sink>(
    world: World,
    brains: Brains<'_>,
    plan: &Plan,
    sink: &mut K,
) -> Result<Score, Failed>
    requires fit { Fits (world_of world) (minds_of brains) }
    requires few_rounds { plan.now.rounds ≤ most_rounds }
    ensures text { Pushed (K.state sink.old) (K.state sink.new)
        (run_text (minds_of brains.entry) plan.now.seed plan.now.rounds (chooses plan.now.dumps) (world_of world)) (ended result) }
    ensures score { IfOk result (λ s. s ≡ score_of (world_after (minds_of brains.entry) plan.now.seed (world_of world) plan.now.rounds)) }
{
    push_seed(plan.seed, sink)?;
    push_chosen(&world, &plan.dumps, 0, sink)?;
    let mut game = GameAlone::begin(world, brains, plan.seed);
    play_on_alone(&mut game, plan.rounds, &plan.dumps, sink)
}

/// Continues a game until this number of rounds is done in total, and pushes the rest of its text, without counts: the
/// dump after each later round that is selected, in order, and the score (the task's game play).
///
/// The number of rounds is at most 1,000,000, and at least the number of those that are done. It returns the score at
/// the end. It fails only if the sink failed and its count of faults rose; then a prefix of the text was pushed. The
/// game is at the end of the round at whose dump the sink failed, otherwise at the end of the last one. It takes no
/// memory.
pub fn play_on_alone<K: Sink>(
    game: &mut GameAlone<'_>,
    rounds: u32,
    dumps: &Dumps,
    sink: &mut K,
) -> Result<Score, Failed>
    requires left { game.old.done ≤ rounds }
    requires few_rounds { rounds ≤ most_rounds }
    ensures text { Pushed (K.state sink.old) (K.state sink.new)
        (plain_later_text game.old.minds game.old.seed (standing game.old) game.old.done rounds (chooses dumps.now)) (ended result) }
    ensures score { IfOk result (λ s. s ≡ score_of (after_rounds game.old.minds game.old.seed (standing game.old) (rounds - game.old.done)).world) }
    ensures played { OnOk result (IsPlayedOn game.old game.new (rounds - game.old.done)) }
    ensures stopped { OnErr result (LosesText game.old game.new (rounds - game.old.done) (chooses dumps.now) (K.state sink.old) (K.state sink.new)) }
{
    play_rounds(game, rounds, dumps, sink)?;
    let score = game.world().score();
    push_score(score, sink)?;
    Ok(score)
}

// Plays the later rounds of a game, and pushes the dumps that are chosen.
fn play_rounds<K: Sink>(
    game: &mut GameAlone<'_>,
    rounds: u32,
    dumps: &Dumps,
    sink: &mut K,
) -> Result<(), Failed>
    requires left { game.old.done ≤ rounds }
    requires few_rounds { rounds ≤ most_rounds }
    ensures text { Pushed (K.state sink.old) (K.state sink.new)
        (later_dumps game.old.minds game.old.seed (chooses dumps.now) (standing game.old) game.old.done (rounds - game.old.done)) result }
    ensures played { OnOk result (IsPlayedOn game.old game.new (rounds - game.old.done)) }
    ensures stopped { OnErr result (LosesDump game.old game.new (rounds - game.old.done) (chooses dumps.now) (K.state sink.old) (K.state sink.new)) }
{
    let done = game.done();
    for more in 0..rounds - done {
        game.round();
        push_chosen(game.world(), dumps, done + more + 1, sink)?;
    }
    Ok(())
}

/// The score after the last round of a game, as `play_alone` returns it, without a text: the food on each colour's hill
/// (the task's game play). Each ant's state is below the length of its colour's brain, as in every opening world. Any
/// seed is allowed, and there are at most 1,000,000 rounds. It takes no memory and never fails.
///
/// For the world of `examples/ambush.world`, `Flip 2 0 0` for red and `Move 0 0` for black, and one round it returns
/// red 3 and black 0, whatever the seed: black ant 1 steps beside red ant 2 and is its fifth foe, and the killed ant
/// leaves 3 particles on its hill.
pub fn play_score(world: World, brains: Brains<'_>, seed: u32, rounds: u32) -> Score
    requires fit { Fits (world_of world) (minds_of brains) }
    requires few_rounds { rounds ≤ most_rounds }
    ensures { result ≡ score_of (world_after (minds_of brains.entry) seed (world_of world) rounds) }
{
    let mut game = GameAlone::begin(world, brains, seed);
    game.play_on(rounds);
    game.world().score()
}
