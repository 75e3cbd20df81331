// Breaks, and lists of them.
ghost use Rattle.std.specs.Prelude.{◌≡◌, ◌<◌, ◌≤◌, length, slice_get, Some};
ghost use Rattle.break_view.specs.Grammar.{most_breaks};

use cell_world::Colour;
use std::marker::Model;

/// A break: a condition that is checked after each turn of a game. Every number is from 0 to 4,294,967,295.
#[derive(Clone, Copy, Debug, PartialEq, Eq)]
pub enum Break {
    /// Holds after each turn of the round with this number, counted from 1.
    Round(u32),
    /// Holds after the turn of an ant of this colour, if it is then alive and in this state.
    State { colour: Colour, state: u32 },
    /// Holds if an ant of this colour is on the cell in column `x` of row `y`, both counted from 0.
    Stand { colour: Colour, x: u32, y: u32 },
    /// Holds if the cell in column `x` of row `y` is clear and has at least this number of food particles.
    Food { x: u32, y: u32, least: u32 },
    /// Holds if there was an ant with this id, counted from 0, and it is dead.
    Killed { id: u32 },
    /// Holds if the cells of this colour's hill have at least this number of food particles in total.
    Score { colour: Colour, least: u32 },
}

/// A list of at most 256 breaks, in the order of their text. Contracts see it as the list of its breaks.
#[derive(Drop)]
pub struct Breaks {
    list: Vec<Break>,
}

impl Model for Breaks {
    ghost use Rattle.std.specs.Prelude.{List, ◌≤◌, length};
    ghost use Rattle.break_view.specs.declared.breaks.Break.{Break};
    ghost use Rattle.break_view.specs.Grammar.{most_breaks};

    ghost Value = { List Break };

    ghost view = { λ b. b.list.items };

    ghost invariant = { λ b. length b.list.items ≤ most_breaks };
}

impl Breaks {
    pub(crate) fn from_list(list: Vec<Break>) -> Breaks
        requires { length list.items ≤ most_breaks }
        ensures { result ≡ list.items }
    {
        Breaks { list }
    }

    /// How many breaks there are, from 0 to 256. It takes no memory.
    pub fn len(&self) -> usize
        ensures length { result ≡ length self.now }
        ensures few { length self.now ≤ most_breaks }
    {
        self.list.len()
    }

    /// The break at place `i`, counted from 0 and below the length. Its number is `i + 1`. It takes no memory.
    pub fn item(&self, i: usize) -> Break
        requires { i < length self.now }
        ensures { slice_get self.now i ≡ Some result }
    {
        self.list[i]
    }

    // The breaks, in order.
    pub(crate) fn items(&self) -> &[Break]
        ensures list { result.now ≡ self.now }
        ensures few { length self.now ≤ most_breaks }
    {
        self.list.as_slice()
    }
}
