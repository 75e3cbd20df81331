// A cell of the world.
ghost use Rattle.std.specs.Prelude.{◌≡◌};
ghost use Rattle.cell_world.specs.Cell.{is_ant_of, is_hill_of, marks_of};

use crate::ant::{Ant, Colour};
use crate::marks::Marks;

/// A cell of the world, rocky or clear (the task's geography, chemistry and biology). In a world, a rocky cell has no
/// food, markers, ant or hill, and an ant is on only one cell.
#[derive(Clone, Copy, Debug, Default, PartialEq, Eq)]
pub struct Cell {
    /// Whether it is rock. No ant enters a rocky cell.
    pub rocky: bool,
    /// The colour of the hill to which it belongs, if any.
    pub hill: Option<Colour>,
    /// How many food particles are on it, from 0, without the one that its ant carries. In a world at most 2,340,900.
    pub food: u32,
    /// The markers of the red ants on it.
    pub red: Marks,
    /// The markers of the black ants on it.
    pub black: Marks,
    /// The ant on it, if any.
    pub ant: Option<Ant>,
}

impl Cell {
    /// Whether an ant of this colour is on it (the task's biology).
    #[inline]
    pub fn has_ant_of(&self, colour: Colour) -> bool
        ensures { result ≡ is_ant_of colour self.now.ant }
    {
        match self.ant {
            Some(ant) => colour == ant.colour,
            None => false,
        }
    }

    /// Whether it belongs to this colour's hill (the task's geography).
    #[inline]
    pub fn is_hill_of(&self, colour: Colour) -> bool
        ensures { result ≡ is_hill_of colour self.now.hill }
    {
        match self.hill {
            Some(hill) => colour == hill,
            None => false,
        }
    }

    /// The markers of this colour's ants on it (the task's chemistry).
    #[inline]
    pub fn marks_of(&self, colour: Colour) -> Marks
        ensures { result ≡ marks_of colour self.now }
    {
        match colour {
            Colour::Red => self.red,
            Colour::Black => self.black,
        }
    }
}
