// How often each state was executed.
ghost use Rattle.std.specs.Prelude.{◌≡◌, ◌+◌, ◌<◌, ◌^◌, [], length, slice_index_or, IfOk};
ghost use Rattle.ant_turn.specs.Minds.{minds_of};
ghost use Rattle.cell_world.specs.Colour.{foe_of};
ghost use Rattle.game_reports.specs.Inner.Tallies.{AreTallied, IsTallied, counted_on, no_tally, tallies_of};

use crate::executed::Executed;
use ant_turn::Brains;
use cell_world::Colour;
use hex_geometry::OutOfMemory;
use std::alloc::Global;

// In how many turns a state was executed, and in how many of these its answer was the first.
#[derive(Clone, Copy)]
pub(crate) struct Tally {
    pub times: u64,
    pub met: u64,
}

// A tally for each state of each brain.
#[derive(Drop)]
pub(crate) struct Tallies {
    pub red: Vec<Tally>,
    pub black: Vec<Tally>,
}

impl Tallies {
    // The tallies of both brains, with nothing executed yet.
    pub(crate) fn new(alloc: Global, brains: Brains<'_>) -> Result<Tallies, OutOfMemory>
        ensures { IfOk result (λ tallies. AreTallied (minds_of brains.entry) [] tallies) }
    {
        let red = none_counted(alloc, brains.red.len())?;
        let black = none_counted(alloc, brains.black.len())?;
        Ok(Tallies { red, black })
    }

    // The tallies of this colour.
    pub(crate) fn of(&self, colour: Colour) -> &[Tally]
        ensures { result.now ≡ tallies_of self.now colour }
    {
        match colour {
            Colour::Red => &self.red,
            Colour::Black => &self.black,
        }
    }

    // Counts one more. Its state is one of its colour's brain, and no count is the largest `u64`.
    #[inline]
    pub(crate) fn count(&mut self, executed: Executed)
        requires state { executed.state < length (tallies_of self.old executed.colour) }
        requires few { (slice_index_or (tallies_of self.old executed.colour) executed.state no_tally).times + 1 < 2 ^ 64 }
        requires few_met { (slice_index_or (tallies_of self.old executed.colour) executed.state no_tally).met + 1 < 2 ^ 64 }
        ensures counted { tallies_of self.new executed.colour ≡ counted_on (tallies_of self.old executed.colour) executed }
        ensures other { tallies_of self.new (foe_of executed.colour) ≡ tallies_of self.old (foe_of executed.colour) }
    {
        match executed.colour {
            Colour::Red => count(&mut self.red, executed),
            Colour::Black => count(&mut self.black, executed),
        }
    }
}

// A tally for each of this many states, with nothing executed.
fn none_counted(alloc: Global, states: u32) -> Result<Vec<Tally>, OutOfMemory>
    ensures { IfOk result (λ tallies. (colour : Colour) → IsTallied colour states [] tallies.items) }
{
    let mut tallies = Vec::with_capacity(alloc, states as usize)?;
    for _ in 0..states {
        tallies.push(Tally { times: 0, met: 0 })?;
    }
    Ok(tallies)
}

// Counts one more for one colour.
#[inline]
fn count(tallies: &mut [Tally], executed: Executed)
    requires state { executed.state < length tallies.old }
    requires few { (slice_index_or tallies.old executed.state no_tally).times + 1 < 2 ^ 64 }
    requires few_met { (slice_index_or tallies.old executed.state no_tally).met + 1 < 2 ^ 64 }
    ensures { tallies.new ≡ counted_on tallies.old executed }
{
    let tally = tallies[executed.state as usize];
    tallies[executed.state as usize] = Tally {
        times: tally.times + 1,
        met: tally.met + u64::from(executed.met),
    };
}
