// A world as a ground: its tiles in row order, changed together with the bodies of its ants.
ghost use Rattle.std.specs.Prelude.{length};
ghost use Rattle.cell_world.specs.Grid.{world_of};
ghost use Rattle.cell_world.specs.Inner.Bodies.{IsKnown, IsMadeBody, Moved};

use crate::ant::{Ant, PlacedAnt};
use crate::body::Body;
use crate::cell::Cell;
use crate::ground::Ground;
use crate::occupant::Occupant;
use crate::world::World;
use hex_geometry::{Pos, index_of};

/// A world can take any number of changes: its room is always 9, the most that a turn needs.
impl Ground for World {
    ghost world = { world_of };

    ghost room = { λ _. 9 };

    #[inline]
    fn cell_at(&mut self, p: Pos) -> Cell {
        self.cell(p)
    }

    #[inline]
    fn place_of(&mut self, id: u32) -> Option<Pos> {
        self.ant_place(id)
    }

    #[inline]
    fn set(&mut self, p: Pos, cell: Cell) {
        let here = &mut self.tiles[index_of(self.width, p)];
        let before = here.ant.id();
        here.food = cell.food;
        here.red = cell.red;
        here.black = cell.black;
        here.ant = Occupant::of(cell.ant);
        note_change(&mut self.bodies, p, before, cell.ant);
    }

    #[inline]
    fn ant_of(&mut self, id: u32) -> Option<PlacedAnt> {
        let body = self.bodies[id as usize];
        let place = body.place?;
        Some(PlacedAnt {
            place,
            ant: body.ant(id),
        })
    }

    #[inline]
    fn set_mind(&mut self, p: Pos, ant: Ant) {
        let body = &mut self.bodies[ant.id as usize];
        body.state = ant.state;
        body.resting = ant.resting;
        body.facing = ant.facing;
    }
}

// Notes in the bodies that the ant with this id is no longer at `p`, and that the other ant is.
#[inline]
fn note_change(bodies: &mut [Body], p: Pos, before: Option<u16>, after: Option<Ant>)
    requires before { IsMadeBody (length bodies.old) before }
    requires after { IsKnown (length bodies.old) after }
    ensures { Moved bodies.old bodies.new p before after }
{
    if let Some(id) = before {
        bodies[id as usize].place = None;
    }
    if let Some(ant) = after {
        bodies[ant.id as usize] = Body::at(p, ant);
    }
}
