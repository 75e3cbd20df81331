// All positions up to a distance.
ghost use Rattle.hex_geometry.specs.Distance.{HasBall, ListsBall};
ghost use Rattle.hex_geometry.specs.Inner.BallRows.{IsBallRow, column_count, first_column, line};
ghost use Rattle.std.specs.Prelude.{◌≡◌, ◌+◌, ◌*◌, ◌++◌, IfOk, OnOk, vec_len};

use crate::position::Pos;
use ant_base::OutOfMemory;
use std::alloc::Global;

/// The positions at distance at most `radius` from `centre`, each once, in row order: row by row from the top, each row
/// from the left (the task's geometry). There are `3 * radius * (radius + 1) + 1` of them. The radius is at most each
/// coordinate of the centre, and its sum with each is at most 65,535, so that all of them are positions. The only error
/// is out of memory.
pub fn ball(alloc: Global, centre: Pos, radius: u16) -> Result<Vec<Pos>, OutOfMemory>
    requires { HasBall centre radius }
    ensures ball { IfOk result (λ found. ListsBall centre radius found.items) }
    ensures size { IfOk result (λ found. vec_len found ≡ 3 * radius * (radius + 1) + 1) }
{
    let reach = radius as usize;
    let mut found = Vec::with_capacity(alloc, 3 * reach * (reach + 1) + 1)?;
    for row in 0..2 * radius as u32 + 1 {
        let y = (centre.y - radius) as u32 + row;
        push_row(&mut found, centre, radius, y as u16)?;
    }
    Ok(found)
}

fn push_row(found: &mut Vec<Pos>, centre: Pos, radius: u16, y: u16) -> Result<(), OutOfMemory>
    requires ball { HasBall centre radius }
    requires row { IsBallRow centre radius y }
    ensures { OnOk result (found.new.items ≡ found.old.items ++ line (first_column centre radius y) y (column_count centre radius y)) }
{
    let first = first_column(centre, radius, y);
    for column in 0..column_count(centre, radius, y) {
        let position = Pos {
            x: (first + column) as u16,
            y,
        };
        found.push(position)?;
    }
    Ok(())
}

fn first_column(centre: Pos, radius: u16, y: u16) -> u32
    requires ball { HasBall centre radius }
    requires row { IsBallRow centre radius y }
    ensures { result ≡ first_column centre radius y }
{
    let above = centre.y.saturating_sub(y);
    (centre.x as u32 + y as u32 / 2 + above as u32) - (centre.y as u32 / 2 + radius as u32)
}

fn column_count(centre: Pos, radius: u16, y: u16) -> u32
    requires ball { HasBall centre radius }
    requires row { IsBallRow centre radius y }
    ensures { result ≡ column_count centre radius y }
{
    2 * radius as u32 + 1 - centre.y.abs_diff(y) as u32
}
