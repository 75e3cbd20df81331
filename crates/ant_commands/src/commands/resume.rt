// The command `resume`.
ghost use Rattle.std.specs.Prelude.{◌≤◌, ◌∷◌, [], length};
ghost use Rattle.ant_base.specs.Shelf.{longest};
ghost use Rattle.ant_commands.specs.Jobs.{resume_job};
ghost use Rattle.ant_commands.specs.Setups.{ResumeWithin, plain_resume};
ghost use Rattle.ant_commands.specs.Files.FileContent.{SaveContent};
ghost use Rattle.ant_commands.specs.Files.FileKind.{SaveFile};
ghost use Rattle.ant_commands.specs.Inner.Reading.{CarriesOut, ReadsFiles, ReadsText, ending_of, outcome_of};
ghost use Rattle.ant_commands.specs.Outputs.{save_file};

use crate::commands::run::dumps_of;
use crate::commands::setups::ResumeOptions;
use crate::files::{fetch_file, named};
use crate::stop::{CommandStop, after_play};
use ant_base::{Shelf, Sink};
use match_save::{Saved, resume as go_on, resume_alone};
use round_book::Crew;
use std::alloc::Global;
use text_fault::open_save;

// Reads the bytes of the file with this name as a save with at most this many rounds done.
#[tactic(auto, using(crate::proofs::Texts::text_read))]
fn read_save<'w>(
    alloc: Global,
    name: &'w str,
    rounds: u32,
    bytes: &[u8],
) -> Result<Saved, CommandStop<'w>>
    requires { length bytes.now ≤ longest }
    ensures { ReadsText SaveContent (SaveFile rounds) bytes.now name.now result }
{
    named(name, open_save(alloc, bytes, rounds))
}

/// The save of a file, with at most this number of rounds done.
pub fn saved_in<'w, S: Shelf>(
    alloc: Global,
    shelf: &mut S,
    name: &'w str,
    rounds: u32,
) -> Result<Saved, CommandStop<'w>>
    ensures { ReadsFiles (S.state shelf.old) (S.state shelf.new) (save_file name.now rounds ∷ []) (outcome_of (λ saved. SaveContent saved ∷ []) result) }
{
    let bytes = fetch_file(alloc, shelf, name)?;
    read_save(alloc, name, rounds, &bytes)
}

/// Continues the game of a save until this number of rounds is done in total, and writes the rest of its text: turn by
/// turn if one worker plays and no counts are requested, otherwise by a crew. A save with more rounds done is refused.
pub fn resume<'w, C: Crew, S: Shelf, K: Sink>(
    alloc: Global,
    crew: &mut C,
    name: &'w str,
    options: ResumeOptions<'w>,
    shelf: &mut S,
    out: &mut K,
) -> Result<(), CommandStop<'w>>
    requires ready { C.ready crew.old }
    requires within { ResumeWithin (plain_resume options) }
    ensures { CarriesOut (resume_job name.now (plain_resume options.entry)) (S.state shelf.old) (S.state shelf.new) (K.state out.old) (K.state out.new)
        (ending_of result) }
{
    let rounds = options.rounds;
    let stats = options.stats;
    let single = options.workers == 1;
    let dumps = dumps_of(alloc, options.dumps)?;
    let saved = saved_in(alloc, shelf, name, rounds)?;
    if single && !stats {
        return after_play(resume_alone(alloc, &saved, rounds, &dumps, out));
    }
    after_play(go_on(alloc, crew, &saved, rounds, &dumps, stats, out))
}
