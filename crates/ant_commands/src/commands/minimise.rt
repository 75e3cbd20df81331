// The command `minimise`.
ghost use Rattle.ant_base.specs.Sink.{Pushed};
ghost use Rattle.ant_commands.specs.Jobs.{minimise_job};
ghost use Rattle.ant_commands.specs.Inner.Reading.{CarriesOut, ending_of};
ghost use Rattle.ant_commands.specs.Outputs.{minimise_output};

use crate::files::read_file;
use crate::stop::{CommandStop, after_push};
use ant_base::{Failed, Layout, Shelf, Sink};
use brain_minimise::{Minimised, push_minimised};
use brain_read::Brain;
use std::alloc::Global;

/// Writes the text of a minimised brain. If the states are requested, it writes a line for each of the old brain's
/// states instead.
pub fn minimise<'w, S: Shelf, K: Sink>(
    alloc: Global,
    name: &'w str,
    states: bool,
    shelf: &mut S,
    out: &mut K,
) -> Result<(), CommandStop<'w>>
    ensures { CarriesOut (minimise_job name.now states) (S.state shelf.old) (S.state shelf.new) (K.state out.old) (K.state out.new) (ending_of result) }
{
    let brain: Brain = read_file(alloc, shelf, name)?;
    let minimised = brain_minimise::minimise(alloc, &brain)?;
    after_push(push_told(&brain, &minimised, states, out))
}

// Pushes the minimised brain. If the states are requested, it pushes the new number of each old state instead.
fn push_told<K: Sink>(
    brain: &Brain,
    minimised: &Minimised,
    states: bool,
    out: &mut K,
) -> Result<(), Failed>
    ensures { Pushed (K.state out.old) (K.state out.new) (minimise_output states brain.now minimised.now.brain minimised.now.map) result }
{
    if states {
        return minimised.map.push_to(out);
    }
    push_minimised(brain, minimised, out)
}
