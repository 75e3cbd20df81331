// What a Move that succeeds reads and writes, as its look finds it.
ghost use Rattle.std.specs.Prelude.{◌≡◌, ◌≤◌, ◌<◌, ◌||◌, true, [], ◌∷◌, length};
ghost use Rattle.hex_geometry.specs.Neighbourhood.{neighbours_of};
ghost use Rattle.hex_geometry.specs.Position.{HasNeighbours, IsInner, IsInside, same_pos};
ghost use Rattle.cell_world.specs.Grid.{world_of};
ghost use Rattle.cell_world.specs.Parts.{only};
ghost use Rattle.cell_world.specs.Valid.{Valid};
ghost use Rattle.ant_turn.specs.Turn.{has_ant};
ghost use Rattle.spec_record.specs.Inner.Moves as going;
ghost use Rattle.spec_record.specs.Inner.Near.{AreNoneOf, AreSeen, IsWithin, number_near};
ghost use Rattle.spec_record.specs.Inner.Sightings.{all_sighted, sighted, sightings_of};
ghost use Rattle.spec_record.specs.Reads.{ant_and_food, load_and_food, whole_ant};
ghost use Rattle.spec_record.specs.Trail.{trail_world};

use crate::record::Sighting;
use crate::sightings::{is_same, note};
use crate::trail::Trail;
use arrayvec::ArrayVec;
use brain_read::Instr;
use cell_world::{Cell, Colour, Part, Parts, World};
use hex_geometry::{Pos, neighbours};

// The step of an ant: from its cell onto the one ahead.
#[derive(Clone, Copy)]
pub(crate) struct Step {
    pub(crate) from: Pos,
    pub(crate) to: Pos,
}

// Notes the reads of those ants that decide the checks around `q`, after the ant at `p`, the only one noted so far,
// went there. Each cell near `q` has a mark that says whether it was noted, so that nothing is searched.
#[inline]
pub(crate) fn note_checks(list: &mut ArrayVec<Sighting, 19>, base: &World, p: Pos, q: Pos)
    requires inner { IsInner base.now.width base.now.height q }
    requires near { HasNeighbours q }
    requires beside { IsWithin 1 q p }
    requires alone { list.old.items ≡ (p, whole_ant, (world_of base.now).cells p) ∷ [] }
    requires room { length (all_sighted list.old.items (sightings_of (world_of base.now).cells (only Part.Who) (going.seen_from (world_of base.now).cells p q))) ≤ 19 }
    ensures { list.new.items ≡ all_sighted list.old.items (sightings_of (world_of base.now).cells (only Part.Who) (going.seen_from (world_of base.now).cells p q)) }
{
    let mut seen = [false; 25];
    seen[number_near(q, p)] = true;
    note_who(list, &mut seen, base, q, q);
    note_neighbours(list, &mut seen, base, q, q);
    let around = neighbours(q);
    for r in around {
        note_beyond(list, &mut seen, base, p, q, r);
    }
}

// If an ant other than that at `p` is on `r`, which is beside `q`, notes that the ants on the neighbours are read.
#[inline]
fn note_beyond(
    list: &mut ArrayVec<Sighting, 19>,
    seen: &mut [bool],
    base: &World,
    p: Pos,
    q: Pos,
    r: Pos,
)
    requires inside { IsInside base.now.width base.now.height r }
    requires beside { IsWithin 1 q r }
    requires seen { AreSeen q seen.old list.old.items }
    requires room { length (all_sighted list.old.items (sightings_of (world_of base.now).cells (only Part.Who) (going.beyond (world_of base.now).cells p r))) ≤ 19 }
    ensures noted { list.new.items ≡ all_sighted list.old.items (sightings_of (world_of base.now).cells (only Part.Who) (going.beyond (world_of base.now).cells p r)) }
    ensures seen { AreSeen q seen.new list.new.items }
{
    if is_manned(base, p, r) {
        note_neighbours(list, seen, base, q, r);
    }
}

// Notes that the ants on the neighbours of `r` are read; `r` is `q` or beside it.
fn note_neighbours(
    list: &mut ArrayVec<Sighting, 19>,
    seen: &mut [bool],
    base: &World,
    q: Pos,
    r: Pos,
)
    requires inner { IsInner base.now.width base.now.height r }
    requires near { HasNeighbours r }
    requires beside { IsWithin 1 q r }
    requires seen { AreSeen q seen.old list.old.items }
    requires room { length (all_sighted list.old.items (sightings_of (world_of base.now).cells (only Part.Who) (neighbours_of r))) ≤ 19 }
    ensures noted { list.new.items ≡ all_sighted list.old.items (sightings_of (world_of base.now).cells (only Part.Who) (neighbours_of r)) }
    ensures seen { AreSeen q seen.new list.new.items }
{
    let around = neighbours(r);
    for s in around {
        note_who(list, seen, base, q, s);
    }
}

// Notes that the ant on `r`, which is near `q`, is read.
#[inline]
fn note_who(list: &mut ArrayVec<Sighting, 19>, seen: &mut [bool], base: &World, q: Pos, r: Pos)
    requires near { IsWithin 2 q r }
    requires inside { IsInside base.now.width base.now.height r }
    requires seen { AreSeen q seen.old list.old.items }
    requires room { length (sighted list.old.items (r, only Part.Who, (world_of base.now).cells r)) ≤ 19 }
    ensures noted { list.new.items ≡ sighted list.old.items (r, only Part.Who, (world_of base.now).cells r) }
    ensures seen { AreSeen q seen.new list.new.items }
{
    let number = number_near(q, r);
    if !seen[number] {
        seen[number] = true;
        list.push((r, who(), base.cell(r)));
    }
}

// The number of the cell at `r` among the 25 near `q`, row by row.
#[inline]
fn number_near(q: Pos, r: Pos) -> usize
    requires { IsWithin 2 q r }
    ensures number { result ≡ number_near q r }
    ensures below { result < 25 }
{
    (r.y as usize + 2 - q.y as usize) * 5 + (r.x as usize + 2 - q.x as usize)
}

// Whether no ant of this colour is on the cells that were read.
#[inline]
pub(crate) fn are_none_of(colour: Colour, list: &[Sighting]) -> bool
    ensures { result ≡ true → AreNoneOf colour list.now }
{
    for (_, _, cell) in list {
        if cell.has_ant_of(colour) {
            return false;
        }
    }
    true
}

// The state of an ant after a Move that succeeds; 0 for any other instruction.
#[inline]
pub(crate) fn state_gone(instruction: Instr) -> u16
    ensures { result ≡ going.state_gone instruction }
{
    match instruction {
        Instr::Move { yes, .. } => yes,
        _ => 0,
    }
}

// Which ant is there.
#[inline]
pub(crate) fn who() -> Parts
    ensures { result ≡ only Part.Who }
{
    Parts::none().with(Part::Who)
}

// Whether an ant other than that at `p` is on `r`.
#[inline]
fn is_manned(base: &World, p: Pos, r: Pos) -> bool
    requires { IsInside base.now.width base.now.height r }
    ensures manned { result ≡ going.is_manned (world_of base.now).cells p r }
    ensures valid { Valid (world_of base.now) }
{
    let cell = base.cell(r);
    !is_same(r, p) && has_ant(&cell)
}

// Whether an ant is on the cell.
#[inline]
fn has_ant(cell: &Cell) -> bool
    ensures { result ≡ has_ant cell.now.ant }
{
    cell.ant.is_some()
}

// Notes what is read and written of the killed ants around the cell that an ant entered, after its turn was executed on
// the trail.
pub(crate) fn note_fallen(
    reads: &mut ArrayVec<Sighting, 19>,
    writes: &mut ArrayVec<Sighting, 7>,
    base: &World,
    trail: &Trail<'_>,
    step: Step,
)
    requires inner { IsInner base.now.width base.now.height step.to }
    requires near { HasNeighbours step.to }
    requires wide { (trail_world trail.now).width ≡ base.now.width }
    requires high { (trail_world trail.now).height ≡ base.now.height }
    requires reads { length (all_sighted reads.old.items
        (sightings_of (world_of base.now).cells load_and_food (going.fallen (world_of base.now).cells (trail_world trail.now).cells step.from step.to))) ≤ 19 }
    requires writes { length (all_sighted writes.old.items
        (sightings_of (trail_world trail.now).cells ant_and_food (going.fallen (world_of base.now).cells (trail_world trail.now).cells step.from step.to))) ≤ 7 }
    ensures reads { reads.new.items ≡ all_sighted reads.old.items
        (sightings_of (world_of base.now).cells load_and_food (going.fallen (world_of base.now).cells (trail_world trail.now).cells step.from step.to)) }
    ensures writes { writes.new.items ≡ all_sighted writes.old.items
        (sightings_of (trail_world trail.now).cells ant_and_food (going.fallen (world_of base.now).cells (trail_world trail.now).cells step.from step.to)) }
{
    note_if_fallen(reads, writes, base, trail, step, step.to);
    let around = neighbours(step.to);
    for r in around {
        note_if_fallen(reads, writes, base, trail, step, r);
    }
}

// The same for one cell.
#[inline]
fn note_if_fallen(
    reads: &mut ArrayVec<Sighting, 19>,
    writes: &mut ArrayVec<Sighting, 7>,
    base: &World,
    trail: &Trail<'_>,
    step: Step,
    r: Pos,
)
    requires inside { IsInside base.now.width base.now.height r }
    requires wide { (trail_world trail.now).width ≡ base.now.width }
    requires high { (trail_world trail.now).height ≡ base.now.height }
    requires reads { length (all_sighted reads.old.items
        (sightings_of (world_of base.now).cells load_and_food (going.fallen_at (world_of base.now).cells (trail_world trail.now).cells step.from step.to r))) ≤ 19 }
    requires writes { length (all_sighted writes.old.items
        (sightings_of (trail_world trail.now).cells ant_and_food (going.fallen_at (world_of base.now).cells (trail_world trail.now).cells step.from step.to r))) ≤ 7 }
    ensures reads { reads.new.items ≡ all_sighted reads.old.items
        (sightings_of (world_of base.now).cells load_and_food (going.fallen_at (world_of base.now).cells (trail_world trail.now).cells step.from step.to r)) }
    ensures writes { writes.new.items ≡ all_sighted writes.old.items
        (sightings_of (trail_world trail.now).cells ant_and_food (going.fallen_at (world_of base.now).cells (trail_world trail.now).cells step.from step.to r)) }
{
    if has_fallen(base, trail, step, r) {
        note(reads, r, load_and_food(), base.cell(r));
        note(writes, r, ant_and_food(), trail.cell(r));
    }
}

// Whether an ant was on `r` when the step was made, and none is there at the end.
#[inline]
fn has_fallen(base: &World, trail: &Trail<'_>, step: Step, r: Pos) -> bool
    requires inside { IsInside base.now.width base.now.height r }
    requires wide { (trail_world trail.now).width ≡ base.now.width }
    requires high { (trail_world trail.now).height ≡ base.now.height }
    ensures { result ≡ going.has_fallen (world_of base.now).cells (trail_world trail.now).cells step.from step.to r }
{
    was_manned(base, step, r) && !has_ant(&trail.cell(r))
}

// Whether an ant was on `r` when the step was made.
#[inline]
fn was_manned(base: &World, step: Step, r: Pos) -> bool
    requires { IsInside base.now.width base.now.height r }
    ensures { result ≡ (same_pos r step.to || going.is_manned (world_of base.now).cells step.from r) }
{
    is_same(r, step.to) || is_manned(base, step.from, r)
}

// What an ant carries, and the food on its cell.
#[inline]
pub(crate) fn load_and_food() -> Parts
    ensures { result ≡ load_and_food }
{
    Parts::none().with(Part::Load).with(Part::Food)
}

// All of an ant.
#[inline]
pub(crate) fn whole_ant() -> Parts
    ensures { result ≡ whole_ant }
{
    Parts::none()
        .with(Part::Who)
        .with(Part::Mind)
        .with(Part::Load)
}

// All of an ant, and the food on its cell.
#[inline]
fn ant_and_food() -> Parts
    ensures { result ≡ ant_and_food }
{
    whole_ant().with(Part::Food)
}
