// An ant as C sees it.

/// An ant: 16 bytes. For a dead ant all numbers are 0.
#[repr(C)]
#[derive(Clone, Copy)]
pub struct AntsAnt {
    /// The state of its colour's brain that it executes next.
    pub state: u32,
    /// How many turns it still rests.
    pub resting: u32,
    /// Its column, from 0.
    pub column: u16,
    /// Its row, from 0.
    pub row: u16,
    /// 1 if it is alive, otherwise 0.
    pub alive: u8,
    /// 0 for red, 1 for black.
    pub colour: u8,
    /// Its direction: 0 is east, 1 southeast, and so on clockwise to 5.
    pub direction: u8,
    /// 1 if it carries food, otherwise 0.
    pub laden: u8,
}
