// What an ant executes in its turn, and whether its answer is the first.
ghost use Rattle.std.specs.Prelude.{◌≡◌, ◌+◌, ◌<◌, ◌≤◌, ◌^◌, ◌==◌, ℕ, [], ◌∷◌, length, Some};
ghost use Rattle.ant_random.specs.Stream.{drawn};
ghost use Rattle.ant_turn.specs.Inner.Stands.{StandsAt};
ghost use Rattle.ant_turn.specs.Minds.{Fits, mind_of, minds_of};
ghost use Rattle.brain_read.specs.Soundness.{IsSound};
ghost use Rattle.cell_world.specs.Grid.{world_of};
ghost use Rattle.game_reports.specs.Profile as profile;
ghost use Rattle.match_run.specs.Seen as seen;
ghost use Rattle.cell_world.specs.Valid.{Valid};
ghost use Rattle.cell_world.specs.World.{place_in};
ghost use Rattle.match_run.specs.Watch.{moment_of};

use ant_random::Stream;
use ant_turn::{Brains, is_blocked, matches};
use brain_read::Instr;
use cell_world::{Colour, Ground, PlacedAnt, World};
use hex_geometry::{adjacent, sensed};

// A state that an ant of a colour executes, and whether its answer is the first.
#[derive(Clone, Copy)]
pub(crate) struct Executed {
    pub colour: Colour,
    pub state: u16,
    pub met: bool,
}

// What this ant, which doesn't rest, executes in its turn. `ahead` may be any stream: it only saves looking numbers up.
#[inline(always)]
pub(crate) fn executed_by(
    world: &mut World,
    brains: &Brains<'_>,
    stream: &Stream,
    ahead: &mut Stream,
    standing: PlacedAnt,
) -> Executed
    requires valid { Valid (world_of world.old) }
    requires fit { Fits (world_of world.old) (minds_of brains.now) }
    requires found { place_in (world_of world.old) standing.ant.id ≡ Some standing.place }
    requires here { ((world_of world.old).cells standing.place).ant ≡ Some standing.ant }
    requires up { standing.ant.resting ≡ 0 }
    requires place { stream.now.place + 1 < 2 ^ 63 }
    ensures executed { profile.executed_in (minds_of brains.now) stream.now.seed (moment_of (world_of world.old) stream.now) standing.ant.id ≡ result ∷ [] }
    ensures state { result.state < length (mind_of (minds_of brains.now) result.colour) }
    ensures world { world_of world.new ≡ world_of world.old }
{
    let ant = standing.ant;
    let instruction = brains.of(ant.colour).at(ant.state);
    Executed {
        colour: ant.colour,
        state: ant.state,
        met: is_met(world, stream, ahead, standing, instruction),
    }
}

// Whether the answer of the ant's instruction is the first.
#[inline(always)]
pub(crate) fn is_met(
    world: &mut World,
    stream: &Stream,
    ahead: &mut Stream,
    standing: PlacedAnt,
    instruction: Instr,
) -> bool
    requires stands { StandsAt (world_of world.old) standing.place ((world_of world.old).cells standing.place) standing.ant }
    requires sound { (states : ℕ) × IsSound states instruction }
    requires place { stream.now.place + 1 < 2 ^ 63 }
    ensures met { result ≡ seen.is_met stream.now.seed (world_of world.old).cells stream.now.place standing.place standing.ant instruction }
    ensures world { world_of world.new ≡ world_of world.old }
{
    let (p, ant) = (standing.place, standing.ant);
    match instruction {
        Instr::Sense { sight, cond, .. } => {
            matches(world, sensed(p, ant.facing, sight), cond, ant.colour)
        }
        Instr::PickUp { .. } => !(ant.laden || world.cell_at(p).food == 0),
        Instr::Move { .. } => !is_blocked(&world.cell_at(adjacent(p, ant.facing))),
        Instr::Flip { bound, .. } => is_zero_next(stream, ahead, bound),
        _ => true,
    }
}

// Whether the next number below this bound is 0. The stream is unchanged; the other one draws, so that it is at the
// same place at the next Flip.
#[inline(always)]
fn is_zero_next(stream: &Stream, ahead: &mut Stream, bound: u32) -> bool
    requires some { 1 ≤ bound }
    requires place { stream.now.place + 1 < 2 ^ 63 }
    ensures { result ≡ (drawn stream.now.seed stream.now.place bound == 0) }
{
    catch_up(ahead, stream);
    ahead.draw(bound) == 0
}

// Moves a stream to the place of the other one, if it isn't there.
#[inline(always)]
fn catch_up(ahead: &mut Stream, stream: &Stream)
    requires place { stream.now.place < 2 ^ 63 }
    ensures seed { ahead.new.seed ≡ stream.now.seed }
    ensures place { ahead.new.place ≡ stream.now.place }
{
    if ahead.place() == stream.place() && ahead.seed() == stream.seed() {
        return;
    }
    *ahead = Stream::at_place_uncounted(stream.seed(), stream.place());
}
