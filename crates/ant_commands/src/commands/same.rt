// The command `same`.
ghost use Rattle.std.specs.Prelude.{[], ◌∷◌};
ghost use Rattle.ant_commands.specs.Jobs.{same_job};
ghost use Rattle.ant_commands.specs.Inner.Plans.{pair_read};
ghost use Rattle.ant_commands.specs.Inner.Reading.{CarriesOut, ReadsFiles, ending_of, outcome_of};
ghost use Rattle.ant_commands.specs.Outputs.{brain_file, pair_contents};

use crate::files::read_file;
use crate::stop::{CommandStop, after_push};
use ant_base::{Layout, Shelf, Sink};
use brain_read::Brain;
use brain_same::{compare, compare_way};
use std::alloc::Global;

// The content of the files of two brains.
#[derive(Drop)]
pub struct Pair {
    pub first: Brain,
    pub second: Brain,
}

// Two brains, in the order of their words; the second is fetched even if it has the name of the first.
fn pair_of<'w, S: Shelf>(
    alloc: Global,
    first: &'w str,
    second: &'w str,
    shelf: &mut S,
) -> Result<Pair, CommandStop<'w>>
    ensures { ReadsFiles (S.state shelf.old) (S.state shelf.new) (brain_file first.now ∷ brain_file second.now ∷ [])
        (outcome_of (λ pair. pair_contents (pair_read pair)) result) }
{
    let first = read_file(alloc, shelf, first)?;
    let second = read_file(alloc, shelf, second)?;
    Ok(Pair { first, second })
}

/// Writes whether two brains are the same except for the numbers of their states, or their first difference. If the way
/// is requested, it writes a line for each answer that leads to the difference too.
pub fn same<'w, S: Shelf, K: Sink>(
    alloc: Global,
    first: &'w str,
    second: &'w str,
    way: bool,
    shelf: &mut S,
    out: &mut K,
) -> Result<(), CommandStop<'w>>
    ensures { CarriesOut (same_job first.now second.now way) (S.state shelf.old) (S.state shelf.new) (K.state out.old) (K.state out.new) (ending_of result) }
{
    let pair = pair_of(alloc, first, second, shelf)?;
    if way {
        let found = compare_way(alloc, &pair.first, &pair.second)?;
        return after_push(found.push_to(out));
    }
    let comparison = compare(alloc, &pair.first, &pair.second)?;
    after_push(comparison.push_to(out))
}
