//! Makes the looks at a whole round of a game's first world, the requested number of times, and drops them.
//!
//! The words are the files of a world, a red and a black brain, and the number of times, at least 1. It prints how many
//! looks a round has, and how many of them draw a random number. The cost of a look is the difference between a run of
//! many times and one of few, divided by the number of looks. It is this project's own.
#![tactic(auto)]

ghost use Rattle.std.specs.Prelude.{◌≡◌, ◌≤◌, length, IfSome};
ghost use Rattle.ant_base.specs.Shelf.{longest};
ghost use Rattle.cell_world.specs.Grid.{world_of};
ghost use Rattle.ant_turn.specs.Minds.{Fits, minds_of};
ghost use Rattle.spec_record.specs.Guess.{guess};
ghost use Rattle.world_read.specs.Opened.{IsOpeningWorld};

use ant_base::{FileShelf, Shelf, read_number_within};
use ant_random::Stream;
use ant_turn::{Brains, Sheet};
use anyhow::{Context, Result};
use brain_read::{Brain, read_brain};
use cell_world::World;
use spec_record::look_by;
use std::alloc::{AllocError, Global};
use std::env;
use world_read::read_world;

const SEED: u32 = 12345;

// The most times that may be requested.
const MOST_TIMES: u64 = 9_999_999_999;

// The bytes of a file, if it could be fetched.
fn bytes_of<S: Shelf>(alloc: Global, shelf: &mut S, name: &str) -> Option<Vec<u8>>
    ensures { IfSome result (λ bytes. length bytes.items ≤ longest) }
{
    match shelf.fetch(alloc, name) {
        Ok(bytes) => Some(bytes),
        Err(_) => None,
    }
}

fn world_in<S: Shelf>(alloc: Global, shelf: &mut S, name: &str) -> Option<World>
    ensures { IfSome result IsOpeningWorld }
{
    let bytes = bytes_of(alloc, shelf, name)?;
    read_world(alloc, &bytes).ok()
}

fn brain_in<S: Shelf>(alloc: Global, shelf: &mut S, name: &str) -> Option<Brain> {
    let bytes = bytes_of(alloc, shelf, name)?;
    read_brain(alloc, &bytes).ok()
}

// Makes the look at each turn of a round, one after another in one room; returns how many of them draw.
fn look_at_all(world: &World, brains: Brains<'_>) -> u64
    requires { Fits (world_of world.now) (minds_of brains) }
    ensures { result ≡ guess (minds_of brains.entry) (world_of world.now) 0 0 world.now.ids }
{
    let ids = world.ant_count();
    let mut stream = Stream::from_seed(SEED);
    if ids == 0 {
        return 0;
    }
    let mut look = look_by(world, brains, &mut stream, 0);
    for id in 1..ids {
        look.renew(world, brains, &mut stream, id);
    }
    stream.place()
}

// The same on an opening world, this many times; returns how many looks of the last time draw.
fn look_often(world: &World, brains: Brains<'_>, times: u64) -> u64
    requires { IsOpeningWorld world.now }
{
    let _red_states = brains.red.len();
    let _black_states = brains.black.len();
    let mut drawn = 0;
    for _ in 0..times {
        drawn = look_at_all(world, brains);
    }
    drawn
}

// Makes the looks at the world and the brains of these files, this many times; returns how many looks there are, and
// how many of them draw.
fn look_at_files<S: Shelf>(
    alloc: Global,
    shelf: &mut S,
    names: [&str; 3],
    times: u64,
) -> Option<(u32, u64)> {
    let world = world_in(alloc, shelf, names[0])?;
    let red = brain_in(alloc, shelf, names[1])?;
    let black = brain_in(alloc, shelf, names[2])?;
    let brains = Brains {
        red: &red,
        black: &black,
        sheet: Sheet::contest(),
    };
    let drawn = look_often(&world, brains, times);
    Some((world.ant_count(), drawn))
}

fn main(rt: HostRuntime) -> Result<()> {
    let alloc = rt.alloc();
    let args = env::args(&rt)?;
    let words: Result<Vec<String>, AllocError> = args.skip(1).collect(alloc);
    let words = words?;
    let world = words.first().context("no world")?;
    let red = words.get(1).context("no red brain")?;
    let black = words.get(2).context("no black brain")?;
    let count = words.get(3).context("no number of times")?;
    let times = read_number_within(count.as_bytes(), 1, MOST_TIMES).context("no number of times")?;
    let mut shelf = FileShelf::new(&rt);
    let names = [world.as_str(), red.as_str(), black.as_str()];
    let (looks, drawn) = look_at_files(alloc, &mut shelf, names, times).context(
        "a file is missing or at fault",
    )?;
    println!(rt; "{looks} looks, of which {drawn} draw, made {times} times")?;
    Ok(())
}
