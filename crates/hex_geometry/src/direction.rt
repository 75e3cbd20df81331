// The six directions, and turning.
ghost use Rattle.std.specs.Prelude.{◌≡◌, ◌<◌};
ghost use Rattle.hex_geometry.specs.Direction.{number_of, turned_by};

/// One of the six directions in which an ant may face, numbered clockwise from 0, which is to the right (the task's
/// geometry).
#[derive(Clone, Copy, Debug, PartialEq, Eq)]
pub enum Dir {
    /// 0: the next cell of the row, to the right.
    East,
    /// 1: the row below, half a cell to the right.
    SouthEast,
    /// 2: the row below, half a cell to the left.
    SouthWest,
    /// 3: the cell before it in the row, to the left.
    West,
    /// 4: the row above, half a cell to the left.
    NorthWest,
    /// 5: the row above, half a cell to the right.
    NorthEast,
}

/// The side to which an ant turns (the task's geometry).
#[derive(Clone, Copy, Debug, PartialEq, Eq)]
pub enum Side {
    /// Anticlockwise.
    Left,
    /// Clockwise.
    Right,
}

impl Dir {
    /// The direction with this number, which is below 6 (the task's geometry).
    #[inline]
    pub fn new(number: u8) -> Dir
        requires { number < 6 }
        ensures { number_of result ≡ number }
    {
        match number {
            0 => Dir::East,
            1 => Dir::SouthEast,
            2 => Dir::SouthWest,
            3 => Dir::West,
            4 => Dir::NorthWest,
            _ => Dir::NorthEast,
        }
    }

    /// Its number, from 0 to 5 (the task's geometry).
    #[inline]
    pub fn number(&self) -> u8
        ensures { result ≡ number_of self.now }
    {
        match self {
            Dir::East => 0,
            Dir::SouthEast => 1,
            Dir::SouthWest => 2,
            Dir::West => 3,
            Dir::NorthWest => 4,
            Dir::NorthEast => 5,
        }
    }
}

/// The direction after a turn to this side: its number falls by one for a left turn and rises by one for a right turn,
/// modulo 6 (the task's geometry).
#[inline]
pub fn turned(d: Dir, side: Side) -> Dir
    ensures { result ≡ turned_by d side }
{
    match side {
        Side::Left => turn_left(d),
        Side::Right => turned_right(d),
    }
}

// Anticlockwise.
#[inline]
#[tactic(auto, unfolding(crate::specs::Direction::turned_by))]
fn turn_left(d: Dir) -> Dir
    ensures { result ≡ turned_by d Side.Left }
{
    match d {
        Dir::East => Dir::NorthEast,
        Dir::SouthEast => Dir::East,
        Dir::SouthWest => Dir::SouthEast,
        Dir::West => Dir::SouthWest,
        Dir::NorthWest => Dir::West,
        Dir::NorthEast => Dir::NorthWest,
    }
}

// Clockwise.
#[inline]
#[tactic(auto, unfolding(crate::specs::Direction::turned_by))]
fn turned_right(d: Dir) -> Dir
    ensures { result ≡ turned_by d Side.Right }
{
    match d {
        Dir::East => Dir::SouthEast,
        Dir::SouthEast => Dir::SouthWest,
        Dir::SouthWest => Dir::West,
        Dir::West => Dir::NorthWest,
        Dir::NorthWest => Dir::NorthEast,
        Dir::NorthEast => Dir::East,
    }
}
