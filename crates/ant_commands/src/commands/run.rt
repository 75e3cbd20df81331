// The command `run`.
ghost use Rattle.std.specs.Prelude.{◌≡◌, IfOk, false};
ghost use Rattle.ant_turn.specs.Minds.{Fits};
ghost use Rattle.cell_world.specs.Grid.{world_of};
ghost use Rattle.ant_commands.specs.Jobs.{run_job};
ghost use Rattle.ant_commands.specs.Setups.{RunSetup, SetupWithin, plain_setup};
ghost use Rattle.command_words.specs.Words.{plain_dumps};
ghost use Rattle.match_run.specs.Dumps.{chooses};
ghost use Rattle.match_run.specs.Play.{PushedBy};
ghost use Rattle.ant_commands.specs.Inner.Plans.{CanPlay, IsPlanned, Plans, minds_in, text_in};
ghost use Rattle.ant_commands.specs.Inner.Reading.{CarriesOut, ending_of};
ghost use Rattle.ant_commands.specs.Outputs.{chosen_rounds};

use crate::commands::game::{FileNames, Setting, setting_of};
use crate::commands::setups::RunWords;
use crate::stop::CommandStop;
use ant_base::{Shelf, Sink};
use ant_turn::{Brains, Sheet};
use command_words::{DumpRounds, Numbers};
use match_run::{Dumps, OutOfMemory, Plan, PlayFault, Rounds, play, play_alone};
use round_book::Crew;
use std::alloc::Global;

// What a game has to do, according to the words.
#[derive(Drop)]
pub struct PlannedGame {
    pub sheet: Sheet,
    pub plan: Plan,
    // whether it is played on one thread, without workers that stay ready
    pub single: bool,
}

// The rounds of a list.
fn rounds_of(alloc: Global, numbers: Numbers<'_>) -> Result<Rounds, OutOfMemory>
    ensures { IfOk result (λ rounds. rounds.numbers ≡ numbers.entry) }
{
    let mut rounds = Rounds::new(alloc);
    for number in numbers {
        rounds.add(number)?;
    }
    Ok(rounds)
}

/// The choice of dumps that the words make.
pub fn dumps_of(alloc: Global, word: DumpRounds<'_>) -> Result<Dumps, OutOfMemory>
    ensures { IfOk result (λ dumps. chooses dumps ≡ chosen_rounds (plain_dumps word.entry)) }
{
    match word {
        DumpRounds::Nothing => Ok(Dumps::Nothing),
        DumpRounds::All => Ok(Dumps::All),
        DumpRounds::Chosen(numbers) => {
            let mut rounds = rounds_of(alloc, numbers)?;
            rounds.sort();
            Ok(Dumps::Chosen(rounds))
        }
    }
}

/// What a game has to do, and by which sheet. The selected rounds become a list before any file is fetched. The list
/// takes memory: if memory runs out there, nothing was touched.
pub fn planned_game<'w>(alloc: Global, words: RunWords<'_>) -> Result<PlannedGame, CommandStop<'w>>
    ensures { IsPlanned (plain_setup words.entry) result }
{
    let game = words.game;
    let single = words.workers == 1 && !words.far;
    let dumps = dumps_of(alloc, words.dumps)?;
    let plan = Plan {
        seed: game.seed,
        rounds: game.rounds,
        dumps,
        window: words.window,
        stats: words.stats,
    };
    Ok(PlannedGame {
        sheet: game.sheet,
        plan,
        single,
    })
}

// Plays a game, and pushes its text: turn by turn if one worker is to play and no counts are requested, otherwise by a
// crew.
fn play_setting<C: Crew, K: Sink>(
    alloc: Global,
    crew: &mut C,
    setting: Setting,
    game: &PlannedGame,
    out: &mut K,
) -> Result<(), PlayFault>
    requires ready { C.ready crew.old }
    requires fit { Fits (world_of setting.world) (minds_in setting game.now) }
    requires planned { CanPlay game.now.plan }
    ensures { PushedBy (K.state out.old) (K.state out.new) (text_in setting game.now) result }
{
    if game.single && !game.plan.stats {
        return play_setting_alone(setting, game, out);
    }
    let Setting { world, red, black } = setting;
    let brains = Brains {
        red: &red,
        black: &black,
        sheet: game.sheet,
    };
    match play(alloc, crew, world, brains, &game.plan, out) {
        Ok(_) => Ok(()),
        Err(fault) => Err(fault),
    }
}

// Plays a game turn by turn, and pushes its text. No counts are requested, so it makes no looks and takes no memory for
// a second world.
fn play_setting_alone<K: Sink>(
    setting: Setting,
    game: &PlannedGame,
    out: &mut K,
) -> Result<(), PlayFault>
    requires fit { Fits (world_of setting.world) (minds_in setting game.now) }
    requires planned { CanPlay game.now.plan }
    requires uncounted { game.now.plan.stats ≡ false }
    ensures { PushedBy (K.state out.old) (K.state out.new) (text_in setting game.now) result }
{
    let Setting { world, red, black } = setting;
    let brains = Brains {
        red: &red,
        black: &black,
        sheet: game.sheet,
    };
    play_alone(world, brains, &game.plan, out)?;
    Ok(())
}

/// Plays a game, and writes its text.
pub fn run_by<'w, C: Crew, S: Shelf, K: Sink>(
    alloc: Global,
    crew: &mut C,
    names: FileNames<'w>,
    game: &PlannedGame,
    shelf: &mut S,
    out: &mut K,
) -> Result<(), CommandStop<'w>>
    requires ready { C.ready crew.old }
    requires planned { CanPlay game.now.plan }
    ensures { (setup : RunSetup) → Plans setup game.now
        → CarriesOut (run_job names.entry.world.now names.entry.red.now names.entry.black.now setup) (S.state shelf.old) (S.state shelf.new)
        (K.state out.old) (K.state out.new) (ending_of result) }
{
    let setting = setting_of(alloc, names, shelf)?;
    play_setting(alloc, crew, setting, game, out)?;
    Ok(())
}

/// Plays the game that the words request, and writes its text.
#[tactic(auto, using(crate::proofs::Readings::carries_wanting))]
pub fn run<'w, C: Crew, S: Shelf, K: Sink>(
    alloc: Global,
    crew: &mut C,
    words: RunWords<'w>,
    shelf: &mut S,
    out: &mut K,
) -> Result<(), CommandStop<'w>>
    requires ready { C.ready crew.old }
    requires within { SetupWithin (plain_setup words) }
    ensures { CarriesOut (run_job words.entry.game.names.world.now words.entry.game.names.red.now words.entry.game.names.black.now (plain_setup words.entry))
        (S.state shelf.old) (S.state shelf.new) (K.state out.old) (K.state out.new) (ending_of result) }
{
    let names = words.game.names;
    let game = planned_game(alloc, words)?;
    run_by(alloc, crew, names, &game, shelf, out)
}
