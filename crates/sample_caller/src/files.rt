// Files, each fetched and read, or refused by its name.
ghost use Rattle.sample_caller.specs.Files.{FetchesFile, IsNamed, ReadsBrain, ReadsWorld};

use crate::refusal::{FileFault, Refusal};
use ant_base::Shelf;
use brain_read::Brain;
use cell_world::World;
use std::alloc::Global;
use text_fault::{TextStop, open_brain, open_world};

// The bytes of a file.
fn fetch<'n, S: Shelf>(alloc: Global, shelf: &mut S, name: &'n str) -> Result<Vec<u8>, Refusal<'n>>
    ensures { FetchesFile (S.state shelf.old).log (S.state shelf.new).log name.now result }
{
    match shelf.fetch(alloc, name) {
        Ok(bytes) => Ok(bytes),
        Err(fault) => Err(Refusal {
            name,
            fault: FileFault::Fetch(fault),
        }),
    }
}

// The value as which the bytes of a file were opened, or what is wrong with the file.
fn named<'n, T>(name: &'n str, opened: Result<T, TextStop>) -> Result<T, Refusal<'n>>
    ensures { IsNamed name.now opened result }
{
    opened.map_err(|stop| Refusal {
        name,
        fault: FileFault::Text(stop),
    })
}

/// The world of a file, which is fetched once. It is refused if the file wasn't fetched, or if its bytes aren't those
/// of a world.
pub fn world_in<'n, S: Shelf>(
    alloc: Global,
    shelf: &mut S,
    name: &'n str,
) -> Result<World, Refusal<'n>>
    ensures { ReadsWorld (S.state shelf.old).log (S.state shelf.new).log name.now result }
{
    let bytes = fetch(alloc, shelf, name)?;
    named(name, open_world(alloc, &bytes))
}

/// The brain of a file, which is fetched once. It is refused if the file wasn't fetched, or if its bytes aren't those
/// of a brain.
pub fn brain_in<'n, S: Shelf>(
    alloc: Global,
    shelf: &mut S,
    name: &'n str,
) -> Result<Brain, Refusal<'n>>
    ensures { ReadsBrain (S.state shelf.old).log (S.state shelf.new).log name.now result }
{
    let bytes = fetch(alloc, shelf, name)?;
    named(name, open_brain(alloc, &bytes))
}
