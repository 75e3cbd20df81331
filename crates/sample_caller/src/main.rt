//! Callers of the library, one page each: a game of three files, a brain that is built from instructions, and a look at
//! the world after each round.
//!
//! The words are those of some games, `WORLD RED BLACK ROUNDS` for each. The program prints the score of each game, or
//! which file was refused and why; and then the results of the two other callers, which need no file. Their promises
//! are the clauses of [`play`], [`play_fetchers`] and [`first_laden`], in the words of the crates on which they depend.
//! It is this project's own.
#![tactic(auto)]

mod fetcher;
mod files;
mod played;
mod refusal;
mod watched;

ghost use Rattle.world_read.specs.Opened.{IsOpeningWorld};

use crate::fetcher::{fetcher, play_fetchers, small_fetcher};
use crate::played::{play, push_outcome};
use crate::watched::first_laden;
use ant_base::{FileShelf, Layout, OutSink, Shelf, Sink, layout, read_u32_within};
use ant_turn::{Brains, Sheet};
use anyhow::{Context, Result, bail};
use cell_world::World;
use dump_print::push_score;
use match_run::MOST_ROUNDS;
use std::alloc::Global;
use std::env;
use std::io::BufWriter;
use world_read::read_world;

// One red ant, and two particles of food on the cell after the next.
const CORRIDOR: &str = "6\n3\n######\n#+.2.#\n######\n";

// The number of rounds that are played there.
const ROUNDS: u32 = 110;

// Plays the game of four words, and prints its result.
fn play_words<S: Shelf, K: Sink>(
    alloc: Global,
    words: &[String],
    shelf: &mut S,
    out: &mut K,
) -> Result<()> {
    let [world, red, black, rounds] = words else {
        bail!("a game is WORLD RED BLACK ROUNDS");
    };
    let rounds = read_u32_within(rounds.as_bytes(), 0, MOST_ROUNDS).context(
        "a game has 0 to 1,000,000 rounds",
    )?;
    let outcome = play(alloc, shelf, world, red, black, rounds);
    push_outcome(outcome, out)?;
    Ok(())
}

// Prints after which round of a game by fetchers ant 0 carries food.
fn show_first_laden<K: Sink>(alloc: Global, world: World, out: &mut K) -> Result<()>
    requires { IsOpeningWorld world }
{
    let brain = fetcher(alloc)?;
    let brains = Brains {
        red: &brain,
        black: &brain,
        sheet: Sheet::contest(),
    };
    match first_laden(alloc, world, brains, 0, ROUNDS)? {
        Some(round) => layout!("ant 0 carries food after round ", round, "\n").push_to(out)?,
        None => "ant 0 carries no food\n".push_to(out)?,
    }
    Ok(())
}

// Prints the score of fetchers in the corridor, and after which round its ant carries food.
fn show_fetchers<K: Sink>(alloc: Global, out: &mut K) -> Result<()> {
    let small = small_fetcher(alloc)?;
    let world = read_world(alloc, CORRIDOR.as_bytes())?;
    push_score(play_fetchers(&small, world, ROUNDS), out)?;
    show_first_laden(alloc, read_world(alloc, CORRIDOR.as_bytes())?, out)
}

fn main(rt: HostRuntime) -> Result<()> {
    let alloc = rt.alloc();
    let words: Vec<String> = env::args(&rt)?.skip(1).collect(alloc)?;
    let mut out = OutSink::new(BufWriter::new(alloc, rt.stdout())?);
    let mut shelf = FileShelf::new(&rt);
    for game in words.chunks(4) {
        play_words(alloc, game, &mut shelf, &mut out)?;
    }
    show_fetchers(alloc, &mut out)
}
