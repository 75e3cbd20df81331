// Positions of a world of a width and a height: their numbers in row order, and its rim.
ghost use Rattle.std.specs.Prelude.{◌≡◌, ◌*◌, ◌<◌, ◌≤◌};
ghost use Rattle.hex_geometry.specs.Position.{IsInside, is_on_rim};
ghost use Rattle.hex_geometry.specs.RowOrder.{index_of, pos_at};

use crate::position::Pos;

/// The number of `p` in row order in a world of this width, counted from 0: row by row from the top, each row from the
/// left. If the column of `p` is outside the world, the result is the number of a position further down.
#[inline]
pub fn index_of(width: u16, p: Pos) -> usize
    ensures { result ≡ index_of width p }
{
    p.y as usize * width as usize + p.x as usize
}

/// The position with this number in row order, counted from 0, in a world of this width, which is at least 1. Its row
/// is at most 65,535.
#[inline]
pub fn pos_at(width: u16, number: usize) -> Pos
    requires wide { 1 ≤ width }
    requires low { number < width * 65536 }
    ensures { result ≡ pos_at width number }
{
    let columns = width as usize;
    Pos {
        x: (number % columns) as u16,
        y: (number / columns) as u16,
    }
}

/// Whether `p`, which is inside a world of this width and height, is on its rim: in the first or last column or row
/// (the task's geography).
#[inline]
pub fn is_on_rim(width: u16, height: u16, p: Pos) -> bool
    requires { IsInside width height p }
    ensures { result ≡ is_on_rim width height p }
{
    p.x == 0 || p.y == 0 || p.x + 1 == width || p.y + 1 == height
}
