// An ant, its colour and its place.
ghost use Rattle.std.specs.Prelude.{◌≡◌};
ghost use Rattle.cell_world.specs.Colour.{foe_of};

use hex_geometry::{Dir, Pos};

/// The two colours of ants and hills; each is the other's foe (the task's biology).
#[derive(Clone, Copy, Debug, PartialEq, Eq)]
pub enum Colour {
    /// The red ants and their hill.
    Red,
    /// The black ants and their hill.
    Black,
}

impl Colour {
    /// The other colour (the task's biology).
    #[inline]
    pub fn foe(self) -> Colour
        ensures { result ≡ foe_of self }
    {
        match self {
            Colour::Red => Colour::Black,
            Colour::Black => Colour::Red,
        }
    }
}

/// An ant (the task's biology).
#[derive(Clone, Copy, Debug, PartialEq, Eq)]
pub struct Ant {
    /// Its number: from 0, in the row order of the hill cells on which the ants begin. It stays the same for a whole
    /// game.
    pub id: u32,
    /// Its colour, which is that of its hill.
    pub colour: Colour,
    /// The state of its brain, from 0 to 9,999; in a game it is below the length of its colour's brain (the task's
    /// neurology).
    pub state: u16,
    /// For how many more turns it rests; it acts if this is 0. A Move sets it to the number `rest` of the rules, 14 in
    /// the contest (the task's kinetics).
    pub resting: u8,
    /// The direction in which it faces (the task's geometry).
    pub facing: Dir,
    /// Whether it carries a food particle. It carries at most one.
    pub laden: bool,
}

/// A living ant and its place (the task's biology).
#[derive(Clone, Copy, Debug, PartialEq, Eq)]
pub struct PlacedAnt {
    /// The position of its cell.
    pub place: Pos,
    /// The ant.
    pub ant: Ant,
}
