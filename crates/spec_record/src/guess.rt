// The guess for each turn of a window: the place of its random number.
ghost use Rattle.std.specs.Prelude.{◌≡◌, ◌+◌, ◌-◌, ◌≤◌, ◌<◌, ◌^◌, ℕ, IfOk, length, nat_eq};
ghost use Rattle.cell_world.specs.Grid.{world_of};
ghost use Rattle.brain_read.specs.Soundness.{IsSound};
ghost use Rattle.ant_turn.specs.Minds.{Fits, minds_of, mind_of};
ghost use Rattle.ant_turn.specs.Turn.{instruction_at};
ghost use Rattle.spec_record.specs.Guess.{flips, guess, guesses_of, is_flip};

use ant_turn::Brains;
use brain_read::Instr;
use cell_world::{Ant, OutOfMemory, World};
use std::alloc::Global;

/// Whether the ant with this id is alive, doesn't rest and is at a Flip, so that its turn draws a random number.
///
/// Each ant's state is below the length of its colour's brain.
#[inline]
pub fn at_flip(base: &World, brains: Brains<'_>, id: u32) -> bool
    requires { Fits (world_of base.now) (minds_of brains) }
    ensures { result ≡ flips (minds_of brains.entry) (world_of base.now) id }
{
    let Some(p) = base.ant_place(id) else {
        return false;
    };
    let cell = base.cell(p);
    let Some(ant) = cell.ant else {
        return false;
    };
    acts(&ant) && is_flip(instruction(brains, &ant))
}

/// The guess for each turn from `from` to `to - 1`, in order: the place of the turn's random number if each turn before
/// it draws as it would in the base.
///
/// Each ant's state is below the length of its colour's brain, `from` is at most `to`, `to` is at most the number of
/// ids, and place + to - from is below 2^63. The only error is out of memory.
pub fn guesses(
    alloc: Global,
    base: &World,
    brains: Brains<'_>,
    place: u64,
    from: u32,
    to: u32,
) -> Result<Vec<u64>, OutOfMemory>
    requires fit { Fits (world_of base.now) (minds_of brains) }
    requires order { from ≤ to }
    requires ids { to ≤ base.now.ids }
    requires room { place + (to - from) < 2 ^ 63 }
    ensures { IfOk result (λ all. all.items ≡ guesses_of (minds_of brains.entry) (world_of base.now) place from from (to - from)) }
{
    let mut all = Vec::with_capacity(alloc, (to - from) as usize)?;
    let mut next = place;
    for id in from..to {
        all.push(next)?;
        next += u64::from(at_flip(base, brains, id));
    }
    Ok(all)
}

/// The guess for turn `t`: the place of its random number if each turn from `from` on before it draws as it would in
/// the base. To look at the turns from `t` on, begin with this guess. It takes no memory.
///
/// Each ant's state is below the length of its colour's brain, `from` is at most `t`, `t` is at most the number of ids,
/// and place + t - from is below 2^63.
pub fn guess_at(base: &World, brains: Brains<'_>, place: u64, from: u32, t: u32) -> u64
    requires fit { Fits (world_of base.now) (minds_of brains) }
    requires order { from ≤ t }
    requires ids { t ≤ base.now.ids }
    requires room { place + (t - from) < 2 ^ 63 }
    ensures guess { result ≡ guess (minds_of brains.entry) (world_of base.now) place from t }
    ensures small { result ≤ place + (t - from) }
{
    let mut next = place;
    for id in from..t {
        next += u64::from(at_flip(base, brains, id));
    }
    next
}

// Whether an ant doesn't rest.
#[inline]
fn acts(ant: &Ant) -> bool
    ensures { result ≡ nat_eq ant.now.resting 0 }
{
    ant.resting == 0
}

// The instruction of an ant's state.
#[inline]
pub(crate) fn instruction(brains: Brains<'_>, ant: &Ant) -> Instr
    requires { ant.now.state < length (mind_of (minds_of brains) ant.now.colour) }
    ensures instruction { result ≡ instruction_at (mind_of (minds_of brains.entry) ant.now.colour) ant.now.state }
    ensures sound { (states : ℕ) × IsSound states result }
{
    brains.of(ant.colour).at(ant.state)
}

// Whether it is a Flip.
#[inline]
fn is_flip(instruction: Instr) -> bool
    ensures { result ≡ is_flip instruction }
{
    matches!(instruction, Instr::Flip { .. })
}
