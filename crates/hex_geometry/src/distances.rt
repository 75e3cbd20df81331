// How far apart two positions are.
ghost use Rattle.hex_geometry.specs.Distance.{IsDistance};
ghost use Rattle.hex_geometry.specs.Inner.Slant.{slant_of};
ghost use Rattle.hex_geometry.specs.Position.{point_of};
ghost use Rattle.std.specs.Prelude.{◌≡◌, ◌≤◌};

use crate::position::Pos;

/// The distance of `p` and `q`: the least number of steps from one to the other. Each step goes to a neighbour, which
/// may be outside the grid (the task's geometry). It is at most 98,303.
pub fn distance(p: Pos, q: Pos) -> u32
    ensures distance { IsDistance (point_of p) (point_of q) result }
    ensures below { result ≤ 98303 }
{
    let across = slant(p).abs_diff(slant(q));
    let down = (p.y as u32).abs_diff(q.y as u32);
    let under = (slant(p) + p.y as u32).abs_diff(slant(q) + q.y as u32);
    across.max(down).max(under)
}

// The column counted along a line that slants to the left going down. For one direction, it changes by the same amount
// in all rows.
#[inline]
fn slant(p: Pos) -> u32
    ensures is { result ≡ slant_of p }
    ensures below { result ≤ 98303 }
{
    p.x as u32 + 32768 - p.y as u32 / 2
}
