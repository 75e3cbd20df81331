// The command `advance`.
ghost use Rattle.std.specs.Prelude.{ℕ, ◌≤◌};
ghost use Rattle.ant_commands.specs.Jobs.{advance_job};
ghost use Rattle.ant_commands.specs.Inner.Reading.{CarriesOut, ending_of};
ghost use Rattle.match_run.specs.Run.{most_rounds};

use crate::commands::resume::saved_in;
use crate::stop::{CommandStop, after_push};
use ant_base::{Shelf, Sink};
use match_save::write_saved;
use round_book::Crew;
use std::alloc::Global;

/// Continues the game of a save by a crew until this number of rounds is done in total, and writes the save of the game
/// after them. A save with more rounds done is refused. Nothing is written before the last round is played. The crew
/// may have any number of workers.
pub fn advance<'w, C: Crew, S: Shelf, K: Sink>(
    alloc: Global,
    crew: &mut C,
    name: &'w str,
    rounds: u32,
    shelf: &mut S,
    out: &mut K,
) -> Result<(), CommandStop<'w>>
    requires ready { C.ready crew.old }
    requires few_rounds { rounds ≤ most_rounds }
    ensures { (workers : ℕ) → CarriesOut (advance_job name.now rounds workers)
        (S.state shelf.old) (S.state shelf.new) (K.state out.old) (K.state out.new) (ending_of result) }
{
    let saved = saved_in(alloc, shelf, name, rounds)?;
    let later = match_save::advance(alloc, crew, &saved, rounds)?;
    after_push(write_saved(&later, out))
}
