// Cells compared whole.
ghost use Rattle.std.specs.Prelude.{◌≡◌, ◌↔◌, true};
ghost use Rattle.std.specs.List.{AllByRecursion};
ghost use Rattle.cell_world.specs.Cell.{rock};
ghost use Rattle.cell_world.specs.Grid.{world_of};
ghost use Rattle.spec_record.specs.Claims.{seen_cell, seen_place};
ghost use Rattle.far_crew.specs.Inner.Cells.{all_parts};

use cell_world::{Cell, Colour, Marks, Part, Parts, World};
use hex_geometry::Pos;
use spec_record::Sighting;

// Whether a world has, at each position, the cell that was read there.
pub(crate) fn are_cells_same(world: &World, reads: &[Sighting]) -> bool
    ensures { (result ≡ true) ↔ AllByRecursion (λ read. (world_of world.now).cells (seen_place read) ≡ seen_cell read) reads.now }
{
    let mut rest = reads;
    while let Some((read, more)) = rest.split_first() {
        let (at, _, cell) = read;
        if !is_same_cell(&cell_at(world, *at), cell) {
            return false;
        }
        rest = more;
    }
    true
}

// The cell at a position; outside there is rock.
#[inline]
#[tactic(auto, using(crate::proofs::CellLemmas::cell_right, crate::proofs::CellLemmas::cell_below))]
fn cell_at(world: &World, p: Pos) -> Cell
    ensures { result ≡ (world_of world.now).cells p }
{
    if p.x >= world.width() {
        return rock();
    }
    if p.y >= world.height() {
        return rock();
    }
    world.cell(p)
}

#[tactic(auto, unfolding(cell_world::specs::Cell::rock))]
fn rock() -> Cell
    ensures { result ≡ rock }
{
    Cell {
        rocky: true,
        hill: None,
        food: 0,
        red: Marks::none(),
        black: Marks::none(),
        ant: None,
    }
}

// Whether two cells are equal.
#[tactic(auto, using(crate::proofs::CellLemmas::ground_differs, crate::proofs::CellLemmas::difference_test))]
fn is_same_cell(one: &Cell, other: &Cell) -> bool
    ensures { (result ≡ true) ↔ (one.now ≡ other.now) }
{
    if !is_same_ground(one, other) {
        return false;
    }
    one.difference(other, all_parts()).is_none()
}

// Whether two cells have the same ground and hill, which are not parts.
fn is_same_ground(one: &Cell, other: &Cell) -> bool
    ensures { (result ≡ true) ↔ ((one.now.rocky ≡ other.now.rocky) × (one.now.hill ≡ other.now.hill)) }
{
    one.rocky == other.rocky && is_same_hill(one.hill, other.hill)
}

fn is_same_hill(one: Option<Colour>, other: Option<Colour>) -> bool
    ensures { (result ≡ true) ↔ (one ≡ other) }
{
    match (one, other) {
        (None, None) => true,
        (Some(own), Some(hill)) => own == hill,
        _ => false,
    }
}

fn all_parts() -> Parts
    ensures { result ≡ all_parts }
{
    Parts::none()
        .with(Part::Who)
        .with(Part::Mind)
        .with(Part::Load)
        .with(Part::Food)
        .with(Part::RedMarks)
        .with(Part::BlackMarks)
}
