// Instructions and conditions.
use hex_geometry::{Side, Sight};

/// What a Sense tests in the sensed cell (the task's phenomenology).
#[derive(Clone, Copy, Debug, PartialEq, Eq)]
pub enum Cond {
    /// An ant of the acting ant's own colour.
    Friend,
    /// An ant of the other colour.
    Foe,
    /// An ant of the acting ant's own colour that carries food.
    FriendWithFood,
    /// An ant of the other colour that carries food.
    FoeWithFood,
    /// At least one food particle on the cell.
    Food,
    /// A rocky cell.
    Rock,
    /// The own colour's marker with this number, from 0 to 5.
    Marker(u8),
    /// Any marker of the other colour.
    FoeMarker,
    /// A cell of the own hill.
    Home,
    /// A cell of the other colour's hill.
    FoeHome,
}

/// One instruction of a brain (the task's neurology). States are from 0 to 9,999, markers are from 0 to 5, and the
/// bound of a Flip is at least 1.
#[derive(Clone, Copy, Debug, PartialEq, Eq)]
pub enum Instr {
    /// Goes to `yes` if the sensed cell meets the condition, otherwise to `no`.
    Sense {
        sight: Sight,
        yes: u16,
        no: u16,
        cond: Cond,
    },
    /// Sets the own colour's marker with this number on the own cell, and goes to `next`.
    Mark {
        mark: u8,
        next: u16,
    },
    /// Clears the own colour's marker with this number on the own cell, and goes to `next`.
    Unmark {
        mark: u8,
        next: u16,
    },
    /// Takes a food particle from the cell and goes to `yes`. If the ant already carries one or the cell has none, it
    /// goes to `no`.
    PickUp {
        yes: u16,
        no: u16,
    },
    /// Puts down the food particle, if the ant carries one, and goes to `next` in any case.
    Drop {
        next: u16,
    },
    /// Turns by one direction, and goes to `next`.
    Turn {
        side: Side,
        next: u16,
    },
    /// Steps ahead and goes to `yes`. If the cell ahead is rocky or holds an ant, it goes to `no`.
    Move {
        yes: u16,
        no: u16,
    },
    /// Draws a number below the bound, and goes to `yes` if it is 0, otherwise to `no`.
    Flip {
        bound: u32,
        yes: u16,
        no: u16,
    },
}
