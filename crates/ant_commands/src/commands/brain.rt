// The command `brain`.
ghost use Rattle.ant_commands.specs.Jobs.{brain_job};
ghost use Rattle.ant_commands.specs.Inner.Reading.{CarriesOut, ending_of};

use crate::files::read_file;
use crate::stop::{CommandStop, after_push};
use ant_base::{Shelf, Sink};
use brain_read::{Brain, write_brain};
use std::alloc::Global;

/// Writes the canonical text of a brain.
pub fn brain<'w, S: Shelf, K: Sink>(
    alloc: Global,
    name: &'w str,
    shelf: &mut S,
    out: &mut K,
) -> Result<(), CommandStop<'w>>
    ensures { CarriesOut (brain_job name.now) (S.state shelf.old) (S.state shelf.new) (K.state out.old) (K.state out.new) (ending_of result) }
{
    let brain: Brain = read_file(alloc, shelf, name)?;
    after_push(write_brain(&brain, out))
}
