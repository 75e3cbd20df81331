// A whole run, played by a crew.
ghost use Rattle.std.specs.Prelude.{◌≡◌, ◌+◌, ◌-◌, ◌*◌, ◌<◌, ◌≤◌, true, None, IfErr, IfOk, OnOk};
ghost use Rattle.ant_base.specs.Layout.{◌+++◌};
ghost use Rattle.ant_base.specs.Sink.{Pushed};
ghost use Rattle.ant_turn.specs.Minds.{Fits, minds_of};
ghost use Rattle.ant_turn.specs.Rounds.{after_rounds};
ghost use Rattle.cell_world.specs.Grid.{world_of};
ghost use Rattle.cell_world.specs.Score.{score_of};
ghost use Rattle.dump_print.specs.Texts.{score_text};
ghost use Rattle.match_run.specs.Counts.{counts_text, whole_text};
ghost use Rattle.match_run.specs.Dumps.{chooses};
ghost use Rattle.match_run.specs.Game.{GoesOnFor, RisesUpTo, beginning, counted_on, now_of};
ghost use Rattle.match_run.specs.Inner.Rounds.{RoundShown, RoundsPushed, RoundsStop};
ghost use Rattle.match_run.specs.Play.{PushedBy};
ghost use Rattle.match_run.specs.Later.{later_dumps, later_text};
ghost use Rattle.match_run.specs.Run.{ended, most_rounds, world_after};
ghost use Rattle.match_run.specs.Stopped.{StopsBy};

use crate::PlayFault;
use crate::dumps::{Dumps, push_chosen};
use crate::game::Game;
use crate::plan::Plan;
use ant_base::{Failed, Sink};
use ant_turn::Brains;
use cell_world::{Score, World};
use dump_print::{Totals, push_score, push_seed, push_stats};
use hex_geometry::OutOfMemory;
use round_book::{Crew, Field};
use std::alloc::Global;

/// Plays a run by a crew, window by window, and pushes its text: the line of the seed, the dump after each round that
/// the plan selects, in order from round 0, which is the start, the score, and, if the plan requests them, the counts
/// (the task's game play).
///
/// Each ant's state is below the length of its colour's brain, as in every opening world; the plan has at most
/// 1,000,000 rounds, and at least one turn per window. The turns are those of the ids in rising order, from 0, round
/// after round, with the random numbers of the seed from place 0 on. It returns the score after the last round: the
/// food on each colour's hill. Then the crew's count of turns has risen by the number of ids times the rounds, or is
/// the largest `u64`.
///
/// It fails if the sink failed and its count of faults rose; then a prefix of the text was pushed. It also fails if
/// memory ran out; then a proper prefix was pushed. In both cases the crew's count has risen by at most that of a whole
/// run.
pub fn play<C: Crew, K: Sink>(
    alloc: Global,
    crew: &mut C,
    world: World,
    brains: Brains<'_>,
    plan: &Plan,
    sink: &mut K,
) -> Result<Score, PlayFault>
    requires ready { C.ready crew.old }
    requires fit { Fits (world_of world) (minds_of brains) }
    requires few_rounds { plan.now.rounds ≤ most_rounds }
    requires sized { 1 ≤ plan.now.window }
    ensures ready { C.ready crew.new }
    ensures text { PushedBy (K.state sink.old) (K.state sink.new)
        (whole_text (minds_of brains.entry) plan.now.seed plan.now.rounds (chooses plan.now.dumps) plan.now.window plan.now.stats (world_of world)) result }
    ensures score { IfOk result (λ s. s ≡ score_of (world_after (minds_of brains.entry) plan.now.seed (world_of world) plan.now.rounds)) }
    ensures turns { OnOk result (C.played crew.new ≡ counted_on (C.played crew.old) (world.ids * plan.now.rounds)) }
    ensures rises { RisesUpTo (C.played crew.old) (C.played crew.new) (world.ids * plan.now.rounds) }
{
    let mut game = game_of(alloc, world, brains, plan)?;
    push_seed(plan.seed, sink)?;
    push_chosen(game.world(), &plan.dumps, 0, sink)?;
    play_on(
        alloc,
        crew,
        &mut game,
        plan.rounds,
        &plan.dumps,
        plan.stats,
        sink,
    )
}

// The game of a plan, at its start.
fn game_of<'b>(
    alloc: Global,
    world: World,
    brains: Brains<'b>,
    plan: &Plan,
) -> Result<Game<'b>, OutOfMemory>
    requires fit { Fits (world_of world) (minds_of brains) }
    requires sized { 1 ≤ plan.now.window }
    ensures { IfOk result (λ game. game ≡ beginning (record {
      world = world;
      minds = minds_of brains.entry;
      seed = plan.now.seed;
      place = 0;
      whole = true;
      lent = None;
    }) plan.now.window) }
{
    let field = Field::new(alloc, world, brains, plan.seed, 0)?;
    Ok(Game::begin(field, plan.window))
}

/// Continues a game that is at the end of a round, until this number of rounds is done in total, and pushes the rest of
/// its text: the dump after each later round that is selected, in order, the score, and, if requested, the counts of
/// all rounds (the task's game play).
///
/// The number of rounds is at most 1,000,000, and at least the number of those that are done. It returns the score at
/// the end. Then the game is at that round, and the crew's count of turns has risen by the number of ids times the
/// later rounds, or is the largest `u64`.
///
/// It fails if the sink failed and its count of faults rose; then a prefix of the text was pushed. It also fails if
/// memory ran out; then a proper prefix was pushed. If the sink failed at a dump, the game is at the end of that round;
/// if it failed at the score or the counts, at the end of the last round. If memory ran out, the game is at the window
/// that was refused, exactly the dumps of the rounds before it were pushed, and the game can be resumed. The crew has
/// counted the turns that the game has, even after a failure.
pub fn play_on<C: Crew, K: Sink>(
    alloc: Global,
    crew: &mut C,
    game: &mut Game<'_>,
    rounds: u32,
    dumps: &Dumps,
    stats: bool,
    sink: &mut K,
) -> Result<Score, PlayFault>
    requires ready { C.ready crew.old }
    requires ends { game.old.next ≡ 0 }
    requires left { game.old.done ≤ rounds }
    requires few_rounds { rounds ≤ most_rounds }
    ensures ready { C.ready crew.new }
    ensures text { PushedBy (K.state sink.old) (K.state sink.new)
        (later_text game.old.field.minds game.old.field.seed game.old.window (now_of game.old) game.old.done game.old.totals rounds (chooses dumps.now) stats) result }
    ensures score { IfOk result (λ s. s ≡ score_of (after_rounds game.old.field.minds game.old.field.seed (now_of game.old) (rounds - game.old.done)).world) }
    ensures played { OnOk result (GoesOnFor game.old game.new (rounds - game.old.done)) }
    ensures stopped { IfErr result (λ fault. StopsBy game.old game.new (rounds - game.old.done) (chooses dumps.now) stats (K.state sink.old) (K.state sink.new) fault) }
    ensures turns { OnOk result (C.played crew.new ≡ counted_on (C.played crew.old) (game.old.field.world.ids * (rounds - game.old.done))) }
    ensures counted { C.played crew.new ≡ counted_on (C.played crew.old) (game.new.totals.turns - game.old.totals.turns) }
    ensures rises { RisesUpTo (C.played crew.old) (C.played crew.new) (game.old.field.world.ids * (rounds - game.old.done)) }
{
    play_rounds(alloc, crew, game, rounds, dumps, sink)?;
    Ok(push_end(game.world(), game.totals(), stats, sink)?)
}

// Plays the later rounds of a game, and pushes the dumps that are chosen.
fn play_rounds<C: Crew, K: Sink>(
    alloc: Global,
    crew: &mut C,
    game: &mut Game<'_>,
    rounds: u32,
    dumps: &Dumps,
    sink: &mut K,
) -> Result<(), PlayFault>
    requires ready { C.ready crew.old }
    requires ends { game.old.next ≡ 0 }
    requires left { game.old.done ≤ rounds }
    requires few_rounds { rounds ≤ most_rounds }
    ensures ready { C.ready crew.new }
    ensures text { RoundsPushed (K.state sink.old) (K.state sink.new)
        (later_dumps game.old.field.minds game.old.field.seed (chooses dumps.now) (now_of game.old) game.old.done (rounds - game.old.done)) result }
    ensures played { OnOk result (GoesOnFor game.old game.new (rounds - game.old.done)) }
    ensures stopped { IfErr result (λ fault. RoundsStop game.old game.new (rounds - game.old.done) (chooses dumps.now) (K.state sink.old) (K.state sink.new) fault) }
    ensures turns { OnOk result (C.played crew.new ≡ counted_on (C.played crew.old) (game.old.field.world.ids * (rounds - game.old.done))) }
    ensures counted { C.played crew.new ≡ counted_on (C.played crew.old) (game.new.totals.turns - game.old.totals.turns) }
    ensures rises { RisesUpTo (C.played crew.old) (C.played crew.new) (game.old.field.world.ids * (rounds - game.old.done)) }
{
    // A crew's count is a u64, so it doesn't change if there is no round.
    let _count = crew.turns();
    let _window = game.window();
    let done = game.done();
    for more in 0..rounds - done {
        play_round(alloc, crew, game, dumps, done + more + 1, sink)?;
    }
    Ok(())
}

// Plays one round of a game, and pushes its dump if that round is chosen.
fn play_round<C: Crew, K: Sink>(
    alloc: Global,
    crew: &mut C,
    game: &mut Game<'_>,
    dumps: &Dumps,
    round: u32,
    sink: &mut K,
) -> Result<(), PlayFault>
    requires ready { C.ready crew.old }
    requires few { game.old.done < most_rounds }
    ensures ready { C.ready crew.new }
    ensures shown { RoundShown game.old game.new (chooses dumps.now) round (K.state sink.old) (K.state sink.new) result }
    ensures turns { C.played crew.new ≡ counted_on (C.played crew.old) (game.new.totals.turns - game.old.totals.turns) }
{
    game.round(alloc, crew)?;
    push_chosen(game.world(), dumps, round, sink)?;
    Ok(())
}

// Pushes the score of a world, and the counts if they are requested.
fn push_end<K: Sink>(
    world: &World,
    totals: Totals,
    stats: bool,
    sink: &mut K,
) -> Result<Score, Failed>
    ensures text { Pushed (K.state sink.old) (K.state sink.new) (score_text (score_of (world_of world.now)) +++ counts_text stats totals) (ended result) }
    ensures score { IfOk result (λ s. s ≡ score_of (world_of world.now)) }
{
    let score = world.score();
    push_score(score, sink)?;
    push_counts(totals, stats, sink)?;
    Ok(score)
}

// Pushes the counts if they are requested.
fn push_counts<K: Sink>(totals: Totals, stats: bool, sink: &mut K) -> Result<(), Failed>
    ensures { Pushed (K.state sink.old) (K.state sink.new) (counts_text stats totals) result }
{
    if stats {
        push_stats(totals, sink)
    } else {
        Ok(())
    }
}
