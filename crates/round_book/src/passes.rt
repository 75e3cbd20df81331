// The writes of a look, set in a world.
ghost use Rattle.std.specs.Prelude.{◌≡◌, true, [], ◌∷◌};
ghost use Rattle.cell_world.specs.Cell.{ant_weight, cell_weight};
ghost use Rattle.cell_world.specs.Grid.{world_of};
ghost use Rattle.cell_world.specs.Parts.{only, patched};
ghost use Rattle.cell_world.specs.World.{put, with_cells};
ghost use Rattle.spec_record.specs.Patches.{patched_cells};
ghost use Rattle.round_book.specs.Book.{CanPatchIn, CanTake};
ghost use Rattle.round_book.specs.Inner.Passes.{CanSetInPass, CanSetPass, after_pass, is_in_pass, with_pass};
ghost use Rattle.spec_record.specs.Claims.{EachOnce, seen_positions};
ghost use Rattle.std.specs.List.{AllByRecursion};

use cell_world::{Ant, Cell, Ground, Part, Parts, World};
use hex_geometry::Pos;
use spec_record::Sighting;

// Sets the named parts of each write. A single write is set at once. Of several, first those are set that don't raise
// the weight of the cell, then the others, so that the world is light enough at every step.
#[inline(always)]
pub(crate) fn set_writes(world: &mut World, writes: &[Sighting])
    requires once { EachOnce (seen_positions writes.now) }
    requires may { CanTake (world_of world.old) writes.now }
    ensures { world_of world.new ≡ with_cells (world_of world.old) (patched_cells (world_of world.old).cells writes.now) }
{
    if writes.len() == 1 {
        set_one(world, &writes[0]);
        return;
    }
    set_pass(world, writes, false);
    set_pass(world, writes, true);
}

// Sets the named parts of the only write. Most turns write only their ant's state, rest and direction.
#[inline(always)]
fn set_one(world: &mut World, write: &Sighting)
    requires { CanTake (world_of world.old) (write.now ∷ []) }
    ensures { world_of world.new ≡ with_cells (world_of world.old) (patched_cells (world_of world.old).cells (write.now ∷ [])) }
{
    let (at, parts, source) = write;
    if is_mind_alone(*parts) {
        set_posture(world, *at, source);
    } else {
        set_parts(world, write);
    }
}

// Whether these parts are exactly an ant's state, rest and direction.
#[inline]
fn is_mind_alone(parts: Parts) -> bool
    ensures { result ≡ true → parts ≡ only Part.Mind }
{
    parts == Parts::none().with(Part::Mind)
}

// Gives the ant at `p` the state, rest and direction of the ant of another cell.
#[inline(always)]
fn set_posture(world: &mut World, p: Pos, source: &Cell)
    requires { CanPatchIn (world_of world.old) (p, only Part.Mind, source.now) }
    ensures { world_of world.new ≡ put (world_of world.old) p (patched ((world_of world.old).cells p) source.now (only Part.Mind)) }
{
    let cell = world.cell(p);
    let (Some(ant), Some(other)) = (cell.ant, source.ant) else {
        unreachable!()
    };
    world.set_mind(
        p,
        Ant {
            state: other.state,
            resting: other.resting,
            facing: other.facing,
            ..ant
        },
    );
}

// Sets the named parts of the only write, whichever they are.
#[inline(never)]
fn set_parts(world: &mut World, write: &Sighting)
    requires { CanTake (world_of world.old) (write.now ∷ []) }
    ensures { world_of world.new ≡ with_cells (world_of world.old) (patched_cells (world_of world.old).cells (write.now ∷ [])) }
{
    let (at, parts, source) = write;
    let cell = world.cell(*at);
    world.set(*at, cell.patched(*source, *parts));
}

// Sets those writes that raise the weight of their cell, or those that don't.
fn set_pass(world: &mut World, writes: &[Sighting], heavier: bool)
    requires once { EachOnce (seen_positions writes.now) }
    requires each { AllByRecursion (CanPatchIn (world_of world.old)) writes.now }
    requires set { CanSetPass heavier (world_of world.old) writes.now }
    ensures { world_of world.new ≡ after_pass heavier (world_of world.old) writes.now }
{
    for write in writes {
        set_in_pass(world, write, heavier);
    }
}

// Sets a write, if it is one of the pass.
#[inline]
fn set_in_pass(world: &mut World, write: &Sighting, heavier: bool)
    requires patch { CanPatchIn (world_of world.old) write.now }
    requires set { CanSetInPass heavier (world_of world.old) write.now }
    ensures { world_of world.new ≡ with_pass heavier (world_of world.old) write.now }
{
    let (at, parts, source) = write;
    let cell = world.cell(*at);
    let patched = cell.patched(*source, *parts);
    if is_in_pass(heavier, weight(&patched) > weight(&cell)) {
        world.set(*at, patched);
    }
}

// Whether a write that raises the weight of its cell, or doesn't, is one of the pass.
#[inline]
fn is_in_pass(heavier: bool, raises: bool) -> bool
    ensures { result ≡ is_in_pass heavier raises }
{
    if heavier { raises } else { !raises }
}

// The weight of a cell.
#[inline]
#[tactic(auto, unfolding(cell_world::specs::Cell::cell_weight))]
fn weight(cell: &Cell) -> u64
    ensures { result ≡ cell_weight cell.now }
{
    u64::from(cell.food) + ant_weight(&cell.ant)
}

// The weight of an ant, if there is one.
#[inline]
fn ant_weight(ant: &Option<Ant>) -> u64
    ensures { result ≡ ant_weight ant.now }
{
    match ant {
        Some(ant) => 9 + u64::from(ant.laden),
        None => 0,
    }
}
