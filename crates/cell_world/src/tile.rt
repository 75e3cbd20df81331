// What a world keeps of a cell.
ghost use Rattle.std.specs.Prelude.{◌≡◌, ◌<◌, length};
ghost use Rattle.cell_world.specs.Inner.Bodies.{IsKnown, IsMadeBody};
ghost use Rattle.cell_world.specs.Inner.Stored.{ant_named, tile_food, tile_of};

use crate::ant::{Ant, Colour};
use crate::body::Body;
use crate::cell::Cell;
use crate::marks::Marks;
use crate::occupant::Occupant;

// What a world keeps of a cell: everything, but of its ant only the id.
#[derive(Clone, Copy)]
pub struct Tile {
    pub food: u32,
    pub ant: Occupant,
    pub rocky: bool,
    pub hill: Option<Colour>,
    pub red: Marks,
    pub black: Marks,
}

impl Tile {
    // What is kept of this cell.
    pub fn of(cell: &Cell) -> Tile
        requires { IsKnown 65535 cell.now.ant }
        ensures { result ≡ tile_of cell.now }
    {
        Tile {
            food: cell.food,
            ant: Occupant::of(cell.ant),
            rocky: cell.rocky,
            hill: cell.hill,
            red: cell.red,
            black: cell.black,
        }
    }

    // The food on it, if it belongs to this colour's hill.
    pub fn food_of(&self, colour: Colour) -> u32
        ensures { result ≡ tile_food colour self.now }
    {
        if self.hill == Some(colour) {
            self.food
        } else {
            0
        }
    }
}

// The ant with this id, from its body, if there is an id.
#[inline]
#[tactic(auto, unfolding(crate::specs::Inner::Stored::ant_named))]
pub fn ant_named(bodies: &[Body], id: Option<u16>) -> Option<Ant>
    requires { IsMadeBody (length bodies.now) id }
    ensures { result ≡ ant_named bodies.now id }
{
    match id {
        Some(id) => Some(bodies[id as usize].ant(id as u32)),
        None => None,
    }
}
