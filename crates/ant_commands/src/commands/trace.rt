// The command `trace`.
ghost use Rattle.std.specs.Prelude.{◌≤◌};
ghost use Rattle.ant_base.specs.Sink.{Pushed};
ghost use Rattle.game_reports.specs.Trace.{trace_text};
ghost use Rattle.ant_turn.specs.Minds.{Fits};
ghost use Rattle.cell_world.specs.Grid.{world_of};
ghost use Rattle.ant_commands.specs.Jobs.{trace_job};
ghost use Rattle.ant_commands.specs.Setups.{plain_told};
ghost use Rattle.match_run.specs.Run.{most_rounds};
ghost use Rattle.ant_commands.specs.Inner.Plans.{minds_by};
ghost use Rattle.ant_commands.specs.Inner.Reading.{CarriesOut, ending_of};

use crate::commands::game::{GameWords, Setting, setting_of};
use crate::stop::{CommandStop, after_push};
use ant_base::{Failed, Shelf, Sink};
use ant_turn::{Brains, Sheet};
use game_reports::TracePlan;
use std::alloc::Global;

// Plays a game, and pushes an ant's way through it.
fn push_way<K: Sink>(
    setting: Setting,
    sheet: Sheet,
    plan: &TracePlan,
    out: &mut K,
) -> Result<(), Failed>
    requires fit { Fits (world_of setting.world) (minds_by setting sheet) }
    requires few_rounds { plan.now.rounds ≤ most_rounds }
    ensures { Pushed (K.state out.old) (K.state out.new)
        (trace_text (minds_by setting sheet) plan.now.seed (world_of setting.world) plan.now.rounds plan.now.id plan.now.from) result }
{
    let Setting { world, red, black } = setting;
    let brains = Brains {
        red: &red,
        black: &black,
        sheet,
    };
    game_reports::trace(world, brains, plan, out)
}

/// Plays a game turn by turn, and writes one ant's way through it.
pub fn trace<'w, S: Shelf, K: Sink>(
    alloc: Global,
    game: GameWords<'w>,
    id: u32,
    from: u32,
    shelf: &mut S,
    out: &mut K,
) -> Result<(), CommandStop<'w>>
    requires { game.rounds ≤ most_rounds }
    ensures { CarriesOut (trace_job game.entry.names.world.now game.entry.names.red.now game.entry.names.black.now id
        (record { told = plain_told game.entry; from = from }))
        (S.state shelf.old) (S.state shelf.new) (K.state out.old) (K.state out.new) (ending_of result) }
{
    let plan = TracePlan {
        id,
        seed: game.seed,
        rounds: game.rounds,
        from,
    };
    let setting = setting_of(alloc, game.names, shelf)?;
    after_push(push_way(setting, game.sheet, &plan, out))
}
