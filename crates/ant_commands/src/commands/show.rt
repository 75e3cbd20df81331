// The command `show`.
ghost use Rattle.ant_base.specs.Sink.{Pushed};
ghost use Rattle.ant_commands.specs.Jobs.{show_job};
ghost use Rattle.ant_commands.specs.Inner.Reading.{CarriesOut, ending_of};
ghost use Rattle.ant_commands.specs.Outputs.{show_output};

use crate::files::read_file;
use crate::stop::CommandStop;
use ant_base::{Failed, Shelf, Sink};
use cell_world::World;
use dump_print::{push_dump, push_seed};
use std::alloc::Global;

// Pushes the line of the seed and the dump after round 0.
#[tactic(auto, unfolding(crate::specs::Outputs::show_output))]
fn push_show<K: Sink>(world: &World, seed: u32, out: &mut K) -> Result<(), Failed>
    ensures { Pushed (K.state out.old) (K.state out.new) (show_output seed world.now) result }
{
    push_seed(seed, out)?;
    push_dump(world, 0, out)
}

/// Shows a world at the start of a game.
pub fn show<'w, S: Shelf, K: Sink>(
    alloc: Global,
    name: &'w str,
    seed: u32,
    shelf: &mut S,
    out: &mut K,
) -> Result<(), CommandStop<'w>>
    ensures { CarriesOut (show_job name.now seed) (S.state shelf.old) (S.state shelf.new) (K.state out.old) (K.state out.new) (ending_of result) }
{
    let world: World = read_file(alloc, shelf, name)?;
    push_show(&world, seed, out)?;
    Ok(())
}
