// The command `acts`.
ghost use Rattle.std.specs.Prelude.{◌≤◌};
ghost use Rattle.ant_base.specs.Sink.{Pushed};
ghost use Rattle.ant_turn.specs.Minds.{Fits};
ghost use Rattle.cell_world.specs.Grid.{world_of};
ghost use Rattle.ant_commands.specs.Jobs.{acts_job};
ghost use Rattle.ant_commands.specs.Setups.{plain_told};
ghost use Rattle.game_reports.specs.Acts.{acts_text};
ghost use Rattle.match_run.specs.Run.{most_rounds};
ghost use Rattle.ant_commands.specs.Inner.Plans.{minds_by};
ghost use Rattle.ant_commands.specs.Inner.Reading.{CarriesOut, ending_of};

use crate::commands::game::{GameWords, Setting, setting_of};
use crate::stop::{CommandStop, after_push};
use ant_base::{Failed, Shelf, Sink};
use ant_turn::{Brains, Sheet};
use game_reports::ReportPlan;
use std::alloc::Global;

// Plays a game, and pushes what its ants executed: all of them, or only one.
fn push_acts<K: Sink>(
    setting: Setting,
    sheet: Sheet,
    plan: ReportPlan,
    one: Option<u32>,
    out: &mut K,
) -> Result<(), Failed>
    requires fit { Fits (world_of setting.world) (minds_by setting sheet) }
    requires few_rounds { plan.rounds ≤ most_rounds }
    ensures { Pushed (K.state out.old) (K.state out.new)
        (acts_text (minds_by setting sheet) plan.seed (world_of setting.world) plan.rounds one plan.from) result }
{
    let Setting { world, red, black } = setting;
    let brains = Brains {
        red: &red,
        black: &black,
        sheet,
    };
    game_reports::acts(world, brains, plan, one, out)
}

/// Plays a game turn by turn, and writes what its ants executed from a round on: all of them, or only one.
pub fn acts<'w, S: Shelf, K: Sink>(
    alloc: Global,
    game: GameWords<'w>,
    from: u32,
    one: Option<u32>,
    shelf: &mut S,
    out: &mut K,
) -> Result<(), CommandStop<'w>>
    requires { game.rounds ≤ most_rounds }
    ensures { CarriesOut (acts_job game.entry.names.world.now game.entry.names.red.now game.entry.names.black.now one
        (record { told = plain_told game.entry; from = from }))
        (S.state shelf.old) (S.state shelf.new) (K.state out.old) (K.state out.new) (ending_of result) }
{
    let plan = ReportPlan {
        seed: game.seed,
        rounds: game.rounds,
        from,
    };
    let setting = setting_of(alloc, game.names, shelf)?;
    after_push(push_acts(setting, game.sheet, plan, one, out))
}
