// Which positions are adjacent, and what an ant senses.
ghost use Rattle.std.specs.Prelude.{◌≡◌};
ghost use Rattle.hex_geometry.specs.Neighbourhood.{adjacent_point, adjacent_pos, neighbours_of, sensed_pos};
ghost use Rattle.hex_geometry.specs.Position.{HasNeighbours, point_of};

use crate::direction::{Dir, Side, turned};
use crate::position::Pos;

/// Which cell an ant senses: its own, the one ahead, or the one ahead after a turn to the left or to the right (the
/// task's geometry).
#[derive(Clone, Copy, Debug, PartialEq, Eq)]
pub enum Sight {
    /// The ant's own cell.
    Here,
    /// The neighbour in the direction that it faces.
    Ahead,
    /// The neighbour in the direction after a turn to the left.
    LeftAhead,
    /// The neighbour in the direction after a turn to the right.
    RightAhead,
}

/// The neighbour of `p` in direction `d`. Both coordinates of `p` are from 1 to 65,534 (the task's geometry).
#[inline]
#[tactic(auto, unfolding(crate::specs::Neighbourhood::adjacent_pos))]
pub fn adjacent(p: Pos, d: Dir) -> Pos
    requires { HasNeighbours p }
    ensures table { point_of result ≡ adjacent_point (point_of p) d }
    ensures neighbour { result ≡ adjacent_pos p d }
{
    let right = p.x + p.y % 2;
    let left = right - 1;
    let up = p.y - 1;
    let down = p.y + 1;
    match d {
        Dir::East => Pos { x: p.x + 1, y: p.y },
        Dir::SouthEast => Pos { x: right, y: down },
        Dir::SouthWest => Pos { x: left, y: down },
        Dir::West => Pos { x: p.x - 1, y: p.y },
        Dir::NorthWest => Pos { x: left, y: up },
        Dir::NorthEast => Pos { x: right, y: up },
    }
}

/// The position that an ant at `p` with direction `d` senses. Both coordinates of `p` are from 1 to 65,534 (the task's
/// geometry).
#[inline(always)]
#[tactic(auto, unfolding(crate::specs::Neighbourhood::sensed_pos))]
pub fn sensed(p: Pos, d: Dir, sight: Sight) -> Pos
    requires { HasNeighbours p }
    ensures { result ≡ sensed_pos p d sight }
{
    match sight {
        Sight::Here => p,
        Sight::Ahead => adjacent(p, d),
        Sight::LeftAhead => adjacent(p, turned(d, Side::Left)),
        Sight::RightAhead => adjacent(p, turned(d, Side::Right)),
    }
}

/// The six neighbours of `p`, in the order of directions. Both coordinates of `p` are from 1 to 65,534 (the task's
/// geometry).
#[inline]
#[tactic(auto, unfolding(crate::specs::Neighbourhood::neighbours_of, crate::specs::Direction::directions))]
pub fn neighbours(p: Pos) -> [Pos; 6]
    requires { HasNeighbours p }
    ensures { result ≡ neighbours_of p }
{
    [
        adjacent(p, Dir::East),
        adjacent(p, Dir::SouthEast),
        adjacent(p, Dir::SouthWest),
        adjacent(p, Dir::West),
        adjacent(p, Dir::NorthWest),
        adjacent(p, Dir::NorthEast),
    ]
}
