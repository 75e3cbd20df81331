// A borrowed world, with cells that were set over it.
ghost use Rattle.std.specs.Prelude.{◌≡◌, if◌then◌else◌};
ghost use Rattle.hex_geometry.specs.Position.{IsInside, same_pos};
ghost use Rattle.cell_world.specs.Cell.{holds_id};
ghost use Rattle.cell_world.specs.Grid.{world_of};
ghost use Rattle.cell_world.specs.Valid.{Valid};
ghost use Rattle.spec_record.specs.Trail.{trail_room, trail_world};
ghost use Rattle.spec_record.specs.Inner.Laid.{first_held, found_holds, newest};

use arrayvec::ArrayVec;
use cell_world::{Cell, Ground, World};
use hex_geometry::Pos;
use std::marker::Model;

/// A world on which a turn is tried. It starts as a borrowed world, which is unchanged, and keeps the cells that are
/// set, at most 9, in a list.
#[derive(Drop)]
pub struct Trail<'w> {
    base: &'w World,
    // the cells that were set, the oldest first
    sets: ArrayVec<(Pos, Cell), 9>,
}

impl<'w> Model for Trail<'w> {
    ghost use Rattle.cell_world.specs.Valid.{Valid};
    ghost use Rattle.spec_record.specs.Trail.{TrailValue, trail_world};

    ghost Value = { TrailValue };

    ghost view = { λ trail. record { base = trail.base.now; sets = trail.sets.items } };

    ghost invariant = { λ trail. Valid (trail_world (record { base = trail.base.now; sets = trail.sets.items })) };
}

impl<'w> Trail<'w> {
    /// The trail that starts as this world, with room for 9 cells. It takes no memory.
    #[inline]
    pub fn over(base: &'w World) -> Trail<'w>
        ensures world { trail_world result ≡ world_of base.now }
        ensures room { trail_room result ≡ 9 }
    {
        // reading the base makes its invariant known here
        let _width = base.width();
        Trail {
            base,
            sets: ArrayVec::new(),
        }
    }

    // The cell at `p`, which is inside.
    #[inline]
    pub(crate) fn cell(&self, p: Pos) -> Cell
        requires { IsInside (trail_world self.now).width (trail_world self.now).height p }
        ensures content { result ≡ (trail_world self.now).cells p }
        ensures valid { Valid (trail_world self.now) }
    {
        match newest(self.sets.as_slice(), p) {
            Some(cell) => cell,
            None => self.base.cell(p),
        }
    }
}

/// A trail's room is 9, less one for each cell that was set.
impl<'w> Ground for Trail<'w> {
    ghost world = { trail_world };

    ghost room = { trail_room };

    #[inline]
    fn cell_at(&mut self, p: Pos) -> Cell {
        self.cell(p)
    }

    #[inline]
    fn place_of(&mut self, id: u32) -> Option<Pos> {
        if let Some(p) = set_place(self.sets.as_slice(), id) {
            return Some(p);
        }
        let Some(p) = self.base.ant_place(id) else {
            return None;
        };
        if holds(&self.cell(p), id) {
            return Some(p);
        }
        None
    }

    #[inline]
    fn set(&mut self, p: Pos, cell: Cell) {
        self.sets.push((p, cell));
    }
}

// Whether the cell holds the ant with this id.
#[inline]
fn holds(cell: &Cell, id: u32) -> bool
    ensures { result ≡ holds_id id cell.now }
{
    match cell.ant {
        Some(ant) => ant.id == id,
        None => false,
    }
}

// The last of these cells that was set at `p`.
#[inline]
fn newest(sets: &[(Pos, Cell)], p: Pos) -> Option<Cell>
    ensures { result ≡ newest None p sets.now }
{
    let mut found = None;
    for (q, cell) in sets {
        found = newer(found, *q, cell, p);
    }
    found
}

// The cell that was set at `q` if that is `p`, and otherwise what was found before.
#[inline]
#[tactic(auto, unfolding(hex_geometry::specs::Position::same_pos))]
fn newer(found: Option<Cell>, q: Pos, cell: &Cell, p: Pos) -> Option<Cell>
    ensures { result ≡ (if same_pos q p then Some cell.now else found) }
{
    if q == p { Some(*cell) } else { found }
}

// The first of these positions whose last cell holds the ant with this id.
fn set_place(sets: &[(Pos, Cell)], id: u32) -> Option<Pos>
    ensures { result ≡ first_held sets.now id sets.now }
{
    for (p, _) in sets {
        if found_holds(newest(sets, *p), id) {
            return Some(*p);
        }
    }
    None
}

// Whether the cell that was found, if any, holds the ant with this id.
#[inline]
fn found_holds(found: Option<Cell>, id: u32) -> bool
    ensures { result ≡ found_holds id found }
{
    match found {
        Some(cell) => holds(&cell, id),
        None => false,
    }
}
