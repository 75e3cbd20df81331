// The command `profile`.
ghost use Rattle.std.specs.Prelude.{◌≤◌};
ghost use Rattle.ant_turn.specs.Minds.{Fits};
ghost use Rattle.cell_world.specs.Grid.{world_of};
ghost use Rattle.ant_commands.specs.Jobs.{profile_job};
ghost use Rattle.ant_commands.specs.Setups.{plain_told};
ghost use Rattle.game_reports.specs.Profile.{profile_text};
ghost use Rattle.game_reports.specs.Pushes.{PushedBefore};
ghost use Rattle.match_run.specs.Run.{most_rounds};
ghost use Rattle.ant_commands.specs.Inner.Plans.{minds_by};
ghost use Rattle.ant_commands.specs.Inner.Reading.{CarriesOut, ending_of};

use crate::commands::game::{GameWords, Setting, setting_of};
use crate::stop::CommandStop;
use ant_base::{PushFault, Shelf, Sink};
use ant_turn::{Brains, Sheet};
use game_reports::ReportPlan;
use std::alloc::Global;

// Plays a game, and pushes how often each state was executed in it.
fn push_profile<K: Sink>(
    alloc: Global,
    setting: Setting,
    sheet: Sheet,
    plan: ReportPlan,
    out: &mut K,
) -> Result<(), PushFault>
    requires fit { Fits (world_of setting.world) (minds_by setting sheet) }
    requires few_rounds { plan.rounds ≤ most_rounds }
    ensures { PushedBefore (K.state out.old) (K.state out.new)
        (profile_text (minds_by setting sheet) plan.seed (world_of setting.world) plan.rounds plan.from) result }
{
    let Setting { world, red, black } = setting;
    let brains = Brains {
        red: &red,
        black: &black,
        sheet,
    };
    game_reports::profile(alloc, world, brains, plan, out)
}

/// Plays a game turn by turn, and writes how often each state was executed from a round on. Nothing is written before
/// the last round is played.
pub fn profile<'w, S: Shelf, K: Sink>(
    alloc: Global,
    game: GameWords<'w>,
    from: u32,
    shelf: &mut S,
    out: &mut K,
) -> Result<(), CommandStop<'w>>
    requires { game.rounds ≤ most_rounds }
    ensures { CarriesOut (profile_job game.entry.names.world.now game.entry.names.red.now game.entry.names.black.now
        (record { told = plain_told game.entry; from = from }))
        (S.state shelf.old) (S.state shelf.new) (K.state out.old) (K.state out.new) (ending_of result) }
{
    let plan = ReportPlan {
        seed: game.seed,
        rounds: game.rounds,
        from,
    };
    let setting = setting_of(alloc, game.names, shelf)?;
    push_profile(alloc, setting, game.sheet, plan, out)?;
    Ok(())
}
