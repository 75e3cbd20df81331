// The command `save`.
ghost use Rattle.std.specs.Prelude.{◌≡◌, ◌≤◌, IfOk};
ghost use Rattle.ant_turn.specs.Minds.{Fits, minds_of};
ghost use Rattle.cell_world.specs.Grid.{world_of};
ghost use Rattle.ant_commands.specs.Jobs.{save_job};
ghost use Rattle.ant_commands.specs.Setups.{RunSetup, SetupWithin, plain_setup};
ghost use Rattle.match_save.specs.Saves.{saved_after};
ghost use Rattle.world_read.specs.Opened.{IsOpeningWorld};
ghost use Rattle.ant_commands.specs.Inner.Plans.{CanPlay, Plans, minds_in};
ghost use Rattle.ant_commands.specs.Inner.Reading.{CarriesOut, ending_of};

use crate::commands::game::{FileNames, Setting, setting_of};
use crate::commands::played::play_game;
use crate::commands::run::{PlannedGame, planned_game};
use crate::commands::setups::RunWords;
use crate::stop::{CommandStop, after_push};
use ant_base::{Shelf, Sink};
use ant_turn::Brains;
use cell_world::World;
use match_run::{OutOfMemory, Plan};
use match_save::{Saved, save_of, write_saved};
use round_book::{Crew, Field, lemma_valid};
use std::alloc::Global;

// The save of a game between these brains after the rounds of its plan.
fn saved_game<C: Crew>(
    alloc: Global,
    crew: &mut C,
    world: World,
    brains: Brains<'_>,
    plan: &Plan,
) -> Result<Saved, OutOfMemory>
    requires ready { C.ready crew.old }
    requires opened { IsOpeningWorld world }
    requires fit { Fits (world_of world) (minds_of brains) }
    requires planned { CanPlay plan.now }
    requires narrow { plan.now.window ≤ 16384 }
    ensures { IfOk result (λ saved. saved ≡ saved_after (minds_of brains.entry) plan.now.seed plan.now.window (world_of world) plan.now.rounds) }
{
    let field = Field::new(alloc, world, brains, plan.seed, 0)?;
    let game = play_game(alloc, crew, field, plan.window, plan.rounds)?;
    lemma_valid(game.field().brains(), game.world());
    save_of(alloc, &game)
}

// The save of the game whose files were read.
fn saved_setting<C: Crew>(
    alloc: Global,
    crew: &mut C,
    setting: Setting,
    game: &PlannedGame,
) -> Result<Saved, OutOfMemory>
    requires ready { C.ready crew.old }
    requires opened { IsOpeningWorld setting.world }
    requires fit { Fits (world_of setting.world) (minds_in setting game.now) }
    requires planned { CanPlay game.now.plan }
    requires narrow { game.now.plan.window ≤ 16384 }
    ensures { IfOk result (λ saved. saved ≡ saved_after (minds_in setting game.now) game.now.plan.seed game.now.plan.window (world_of setting.world)
        game.now.plan.rounds) }
{
    let Setting { world, red, black } = setting;
    let brains = Brains {
        red: &red,
        black: &black,
        sheet: game.sheet,
    };
    saved_game(alloc, crew, world, brains, &game.plan)
}

// Plays a game by a crew, and writes its save.
fn save_by<'w, C: Crew, S: Shelf, K: Sink>(
    alloc: Global,
    crew: &mut C,
    names: FileNames<'w>,
    game: &PlannedGame,
    shelf: &mut S,
    out: &mut K,
) -> Result<(), CommandStop<'w>>
    requires ready { C.ready crew.old }
    requires planned { CanPlay game.now.plan }
    requires narrow { game.now.plan.window ≤ 16384 }
    ensures { (setup : RunSetup) → Plans setup game.now
        → CarriesOut (save_job names.entry.world.now names.entry.red.now names.entry.black.now setup) (S.state shelf.old) (S.state shelf.new)
        (K.state out.old) (K.state out.new) (ending_of result) }
{
    let setting = setting_of(alloc, names, shelf)?;
    let saved = saved_setting(alloc, crew, setting, game)?;
    after_push(write_saved(&saved, out))
}

/// Plays the game that the words request by a crew, and writes its save. Nothing is written before the last round is
/// played.
#[tactic(auto, using(crate::proofs::Readings::carries_wanting))]
pub fn save<'w, C: Crew, S: Shelf, K: Sink>(
    alloc: Global,
    crew: &mut C,
    words: RunWords<'w>,
    shelf: &mut S,
    out: &mut K,
) -> Result<(), CommandStop<'w>>
    requires ready { C.ready crew.old }
    requires within { SetupWithin (plain_setup words) }
    ensures { CarriesOut (save_job words.entry.game.names.world.now words.entry.game.names.red.now words.entry.game.names.black.now (plain_setup words.entry))
        (S.state shelf.old) (S.state shelf.new) (K.state out.old) (K.state out.new) (ending_of result) }
{
    let names = words.game.names;
    let game = planned_game(alloc, words)?;
    save_by(alloc, crew, names, &game, shelf, out)
}
