// The command `view`.
ghost use Rattle.std.specs.Prelude.{◌≡◌, ◌≤◌};
ghost use Rattle.ant_base.specs.Sink.{Pushed};
ghost use Rattle.ant_turn.specs.Minds.{Fits, contest_minds};
ghost use Rattle.ant_turn.specs.Sheet.{contest, sheet_of};
ghost use Rattle.break_view.specs.Texts.{view_of};
ghost use Rattle.cell_world.specs.Grid.{world_of};
ghost use Rattle.ant_commands.specs.Jobs.{view_job};
ghost use Rattle.match_run.specs.Run.{most_rounds};
ghost use Rattle.ant_commands.specs.Inner.Reading.{CarriesOut, ending_of};

use crate::commands::game::{GameWords, Setting, setting_of};
use crate::files::read_file;
use crate::stop::{CommandStop, after_push};
use ant_base::{Failed, Shelf, Sink};
use ant_turn::{Brains, Sheet};
use break_view::{Breaks, find_stop_from, push_view};
use std::alloc::Global;

// Plays a game to its first stop in a round from `from` on, and pushes its view.
#[tactic(auto, using(crate::proofs::Viewed::view_text_end))]
fn push_stop<K: Sink>(
    setting: Setting,
    sheet: Sheet,
    breaks: &Breaks,
    seed: u32,
    rounds: u32,
    from: u32,
    out: &mut K,
) -> Result<(), Failed>
    requires fit { Fits (world_of setting.world) (contest_minds setting.red setting.black) }
    requires sheet { sheet_of sheet ≡ contest }
    requires few_rounds { rounds ≤ most_rounds }
    ensures { Pushed (K.state out.old) (K.state out.new) (view_of (contest_minds setting.red setting.black) seed rounds from (world_of setting.world) breaks.now) result }
{
    let Setting {
        mut world,
        red,
        black,
    } = setting;
    let brains = Brains {
        red: &red,
        black: &black,
        sheet,
    };
    let stop = find_stop_from(&mut world, brains, seed, rounds, from, breaks);
    push_view(&world, seed, rounds, stop, out)
}

/// Plays a game, by the contest's rules, up to its first stop in a round from `from` on, and writes its view.
pub fn view<'w, S: Shelf, K: Sink>(
    alloc: Global,
    game: GameWords<'w>,
    from: u32,
    breaks: &'w str,
    shelf: &mut S,
    out: &mut K,
) -> Result<(), CommandStop<'w>>
    requires few_rounds { game.rounds ≤ most_rounds }
    requires sheet { sheet_of game.sheet ≡ contest }
    ensures { CarriesOut (view_job game.entry.names.world.now game.entry.names.red.now game.entry.names.black.now breaks.now game.entry.seed game.entry.rounds from)
        (S.state shelf.old) (S.state shelf.new) (K.state out.old) (K.state out.new) (ending_of result) }
{
    let setting = setting_of(alloc, game.names, shelf)?;
    let breaks: Breaks = read_file(alloc, shelf, breaks)?;
    after_push(push_stop(
        setting,
        game.sheet,
        &breaks,
        game.seed,
        game.rounds,
        from,
        out,
    ))
}
