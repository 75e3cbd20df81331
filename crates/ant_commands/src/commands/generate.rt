// The command `gen`.
ghost use Rattle.ant_commands.specs.Jobs.{gen_job};
ghost use Rattle.ant_commands.specs.Setups.{ShapeWithin};
ghost use Rattle.world_gen.specs.Generated.{IsShape};
ghost use Rattle.ant_commands.specs.Inner.Reading.{CarriesOut, ending_of};
ghost use Rattle.ant_commands.specs.Inner.Plans.{IsGenerating};
ghost use Rattle.ant_commands.specs.Outputs.{shape_named};

use crate::commands::setups::GenShape;
use crate::stop::{CommandStop, after_push};
use ant_base::{Shelf, Sink};
use cell_world::World;
use std::alloc::Global;
use world_gen::{GenFault, Shape, generate};
use world_read::write_world;

/// The world of a seed and a shape, or why there is none: an element has no room, or memory ran out.
pub fn generated<'w>(alloc: Global, seed: u32, shape: Shape) -> Result<World, CommandStop<'w>>
    requires { IsShape shape }
    ensures { IsGenerating seed shape result }
{
    match generate(alloc, seed, shape) {
        Ok(world) => Ok(world),
        Err(GenFault::NoRoom { element }) => Err(CommandStop::NoRoom(element)),
        Err(GenFault::OutOfMemory) => Err(CommandStop::Memory),
    }
}

// The world of a seed and the shape that the words name.
fn named_world<'w>(alloc: Global, seed: u32, named: GenShape) -> Result<World, CommandStop<'w>>
    requires { ShapeWithin named }
    ensures { IsGenerating seed (shape_named named) result }
{
    let GenShape {
        width,
        height,
        rocks,
        blobs,
    } = named;
    let shape = Shape {
        width,
        height,
        rocks,
        blobs,
    };
    generated(alloc, seed, shape)
}

/// Writes the canonical text of the world of a seed and a shape.
pub fn gen_world<'w, S: Shelf, K: Sink>(
    alloc: Global,
    seed: u32,
    shape: GenShape,
    shelf: &mut S,
    out: &mut K,
) -> Result<(), CommandStop<'w>>
    requires { ShapeWithin shape }
    ensures { CarriesOut (gen_job seed shape) (S.state shelf.old) (S.state shelf.new) (K.state out.old) (K.state out.new) (ending_of result) }
{
    let world = named_world(alloc, seed, shape)?;
    after_push(write_world(&world, out))
}
