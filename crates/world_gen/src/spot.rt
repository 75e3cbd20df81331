// Elements at their places.
ghost use Rattle.std.specs.Prelude.{◌≡◌};
ghost use Rattle.world_gen.specs.Generated.{paint_of};

use cell_world::{Colour, Kind};
use hex_geometry::{Dir, Pos};

pub const HILL_RADIUS: u16 = 6;

// An element with everything that is drawn for it except its place.
#[derive(Clone, Copy, Debug, PartialEq, Eq)]
pub enum Figure {
    // The hill of a colour.
    Hill(Colour),
    // A rock of a radius, from 1 to 4.
    Rock(u8),
    // A blob: one side goes in this direction, and the other in the next direction clockwise.
    Blob(Dir),
}

// An element at a place: the centre of a hill or a rock, or a blob's corner.
#[derive(Clone, Copy, Debug, PartialEq, Eq)]
pub struct Spot {
    pub figure: Figure,
    pub place: Pos,
}

impl Figure {
    // The kind of its cells.
    pub fn kind(self) -> Kind
        ensures { result ≡ paint_of self }
    {
        match self {
            Figure::Hill(Colour::Red) => Kind::RedHill,
            Figure::Hill(Colour::Black) => Kind::BlackHill,
            Figure::Rock(_) => Kind::Rock,
            Figure::Blob(_) => Kind::Food(5),
        }
    }
}
