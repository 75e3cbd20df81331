// The cells of an element at its place, as a list.
ghost use Rattle.std.specs.Prelude.{◌≡◌, ◌+◌, ◌*◌, ◌++◌, ◌≤◌, IfOk, OnOk, length};
ghost use Rattle.cell_world.specs.Cell.{one_if};
ghost use Rattle.cell_world.specs.Opening.{is_hill};
ghost use Rattle.world_gen.specs.Inner.Open.{AllHaveNeighbours, BlobHasNeighbours, LineHasNeighbours, ListsCells, line_from, lines_from};
ghost use Rattle.world_gen.specs.Generated.{paint_of};

use crate::spot::{Figure, HILL_RADIUS, Spot};
use hex_geometry::{Dir, OutOfMemory, Pos, Side, adjacent, ball, turned};
use std::alloc::Global;

// The cells of a spot, none of which is at the edge of all positions.
pub fn cells_of(alloc: Global, spot: Spot) -> Result<Vec<Pos>, OutOfMemory>
    requires { AllHaveNeighbours spot }
    ensures cells { IfOk result (λ cells. ListsCells spot cells.items) }
    ensures few { IfOk result (λ cells. one_if (is_hill (paint_of spot.figure)) * length cells.items ≤ 127) }
{
    match spot.figure {
        Figure::Hill(_) => ball(alloc, spot.place, HILL_RADIUS),
        Figure::Rock(radius) => ball(alloc, spot.place, radius as u16),
        Figure::Blob(first) => blob(alloc, spot.place, first),
    }
}

// The cells of a blob, line by line.
fn blob(alloc: Global, corner: Pos, first: Dir) -> Result<Vec<Pos>, OutOfMemory>
    requires { BlobHasNeighbours corner first }
    ensures { IfOk result (λ cells. cells.items ≡ lines_from 5 first corner) }
{
    let second = turned(first, Side::Right);
    let mut cells = Vec::with_capacity(alloc, 25)?;
    let mut start = corner;
    for along in 0..5u32 {
        push_line(&mut cells, start, second)?;
        start = adjacent(start, first);
    }
    Ok(cells)
}

// Adds a position and the next four in a direction.
fn push_line(cells: &mut Vec<Pos>, start: Pos, way: Dir) -> Result<(), OutOfMemory>
    requires { LineHasNeighbours start way }
    ensures { OnOk result (cells.new.items ≡ cells.old.items ++ line_from 5 way start) }
{
    let mut p = start;
    for beside in 0..5u32 {
        cells.push(p)?;
        p = adjacent(p, way);
    }
    Ok(())
}
