// A position of the world.

/// A position: the column `x`, growing to the right, and the row `y`, growing downwards, both counted from 0 (the
/// task's geometry).
#[derive(Clone, Copy, Debug, Default, PartialEq, Eq)]
pub struct Pos {
    /// The column, from 0 at the left.
    pub x: u16,
    /// The row, from 0 at the top.
    pub y: u16,
}
