// Saved games that are continued.
ghost use Rattle.std.specs.Prelude.{◌≡◌, ◌+◌, ◌-◌, ◌*◌, ◌≤◌, IfOk, OnOk, false};
ghost use Rattle.cell_world.specs.Score.{score_of};
ghost use Rattle.match_run.specs.Dumps.{chooses};
ghost use Rattle.match_run.specs.Game.{GoesOnFor, RisesUpTo, counted_on, game_at_round};
ghost use Rattle.match_run.specs.Play.{PushedBy};
ghost use Rattle.match_run.specs.Run.{most_rounds};
ghost use Rattle.match_save.specs.Advanced.{advanced};
ghost use Rattle.match_save.specs.Resumed.{UnwrittenByMemory, field_of, later_world, resumed_text};
ghost use Rattle.match_save.specs.Inner.Alone.{game_alone_of};

use crate::saved::Saved;
use crate::saves::save_of;
use ant_base::Sink;
use cell_world::Score;
use hex_geometry::OutOfMemory;
use match_run::{Dumps, Game, GameAlone, PlayFault, play_on, play_on_alone};
use round_book::{Crew, Field, lemma_valid};
use std::alloc::Global;

/// Continues a saved game by any crew until this number of rounds is done in total, and pushes the rest of its text:
/// the dump after each later round that is selected, in order, the score, and, if requested, the counts of all rounds
/// (this project's own). What was pushed before the save and this rest are together the text of the run without an
/// interruption: the law `saves_go_on`.
///
/// The number of rounds is at most 1,000,000, and at least the number of those that are done. It returns the score at
/// the end; then the crew's count of turns has risen by the number of ids times the later rounds, or is the largest
/// `u64`. It fails if the sink failed and its count of faults rose; then a prefix of the text was pushed. It also fails
/// if memory ran out; then a proper prefix was pushed. In both cases the crew's count has risen by at most that of the
/// later rounds. The save is unchanged.
///
/// For the save of `examples/one_ant.save`, which is at round 1, with 1 round and no counts it pushes an empty line and
/// `score: red 0 black 0`. With 2 rounds, all dumps and counts it pushes the dump after round 2, that score, and `turns
/// 2 taken 2 redone 0`.
pub fn resume<C: Crew, K: Sink>(
    alloc: Global,
    crew: &mut C,
    saved: &Saved,
    rounds: u32,
    dumps: &Dumps,
    stats: bool,
    sink: &mut K,
) -> Result<Score, PlayFault>
    requires ready { C.ready crew.old }
    requires left { saved.now.round ≤ rounds }
    requires few_rounds { rounds ≤ most_rounds }
    ensures ready { C.ready crew.new }
    ensures text { PushedBy (K.state sink.old) (K.state sink.new) (resumed_text saved.now rounds (chooses dumps.now) stats) result }
    ensures score { IfOk result (λ s. s ≡ score_of (later_world saved.now (rounds - saved.now.round))) }
    ensures turns { OnOk result (C.played crew.new ≡ counted_on (C.played crew.old) (saved.now.world.ids * (rounds - saved.now.round))) }
    ensures rises { RisesUpTo (C.played crew.old) (C.played crew.new) (saved.now.world.ids * (rounds - saved.now.round)) }
{
    let mut game = game_of(alloc, saved)?;
    play_on(alloc, crew, &mut game, rounds, dumps, stats, sink)
}

// The game of a save.
fn game_of<'s>(alloc: Global, saved: &'s Saved) -> Result<Game<'s>, OutOfMemory>
    ensures { IfOk result (λ game. game ≡ game_at_round (field_of saved.now) saved.now.window saved.now.round saved.now.totals) }
{
    let world = saved.world().copy(alloc)?;
    let field = Field::new(alloc, world, saved.brains(), saved.seed(), saved.place())?;
    Ok(Game::at_round(field, saved.window(), saved.round(), saved.totals()))
}

/// Continues a saved game by any crew until this number of rounds is done in total, and returns the save of it there
/// (this project's own). However many saves are made on the way, the last is the same: the laws `games_are_advanced`
/// and `saves_are_advanced`.
///
/// The number of rounds is at most 1,000,000, and at least the number of those that are done. The seed, the window and
/// both brains are those of the save, whatever game made it. Then the crew's count of turns has risen by the number of
/// ids times the later rounds, or is the largest `u64`. It fails only if memory runs out; the crew's count has then
/// risen by at most that. The save is unchanged.
///
/// For the save of `examples/one_ant.save`, which is at round 1, and 3 rounds it returns one at round 3, with `taken 3
/// redone 0`, whose ant faces direction 3.
pub fn advance<C: Crew>(
    alloc: Global,
    crew: &mut C,
    saved: &Saved,
    rounds: u32,
) -> Result<Saved, OutOfMemory>
    requires ready { C.ready crew.old }
    requires left { saved.now.round ≤ rounds }
    requires few_rounds { rounds ≤ most_rounds }
    ensures ready { C.ready crew.new }
    ensures saved { IfOk result (λ later. later ≡ advanced saved.now rounds) }
    ensures turns { OnOk result (C.played crew.new ≡ counted_on (C.played crew.old) (saved.now.world.ids * (rounds - saved.now.round))) }
    ensures rises { RisesUpTo (C.played crew.old) (C.played crew.new) (saved.now.world.ids * (rounds - saved.now.round)) }
{
    let mut game = game_of(alloc, saved)?;
    play_rounds(alloc, crew, &mut game, rounds - saved.round())?;
    lemma_valid(game.field().brains(), game.world());
    save_of(alloc, &game)
}

// Plays this many more rounds of a game that is at the end of a round.
fn play_rounds<C: Crew>(
    alloc: Global,
    crew: &mut C,
    game: &mut Game<'_>,
    rounds: u32,
) -> Result<(), OutOfMemory>
    requires ready { C.ready crew.old }
    requires ends { game.old.next ≡ 0 }
    requires few_rounds { game.old.done + rounds ≤ most_rounds }
    ensures ready { C.ready crew.new }
    ensures played { OnOk result (GoesOnFor game.old game.new rounds) }
    ensures turns { OnOk result (C.played crew.new ≡ counted_on (C.played crew.old) (game.old.field.world.ids * rounds)) }
    ensures rises { RisesUpTo (C.played crew.old) (C.played crew.new) (game.old.field.world.ids * rounds) }
{
    // A crew's count is a u64, so it doesn't change if there is no round.
    let _count = crew.turns();
    let _window = game.window();
    for _ in 0..rounds {
        game.round(alloc, crew)?;
    }
    Ok(())
}

/// Continues a saved game, as `resume` does if no counts are requested: it is played turn after turn, without looks
/// (this project's own). Its text is the same, and it takes no more memory than a copy of the saved world.
///
/// The number of rounds is at most 1,000,000, and at least the number of those that are done. It returns the score at
/// the end. It fails if the sink failed and its count of faults rose; then a prefix of the text was pushed. It also
/// fails if memory ran out; then nothing was pushed. The save is unchanged.
pub fn resume_alone<K: Sink>(
    alloc: Global,
    saved: &Saved,
    rounds: u32,
    dumps: &Dumps,
    sink: &mut K,
) -> Result<Score, PlayFault>
    requires left { saved.now.round ≤ rounds }
    requires few_rounds { rounds ≤ most_rounds }
    ensures text { PushedBy (K.state sink.old) (K.state sink.new) (resumed_text saved.now rounds (chooses dumps.now) false) result }
    ensures unwritten { UnwrittenByMemory (K.state sink.old) (K.state sink.new) result }
    ensures score { IfOk result (λ s. s ≡ score_of (later_world saved.now (rounds - saved.now.round))) }
{
    let mut game = game_alone_of(alloc, saved)?;
    Ok(play_on_alone(&mut game, rounds, dumps, sink)?)
}

// The game of a save, to be played alone.
fn game_alone_of<'s>(alloc: Global, saved: &'s Saved) -> Result<GameAlone<'s>, OutOfMemory>
    ensures { IfOk result (λ game. game ≡ game_alone_of saved.now) }
{
    let world = saved.world().copy(alloc)?;
    Ok(GameAlone::at_round(
        world,
        saved.brains(),
        saved.seed(),
        saved.place(),
        saved.round(),
    ))
}
