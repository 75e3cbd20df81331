// The cells of a world, one after another.
ghost use Rattle.std.specs.Prelude.{◌≡◌};
ghost use Rattle.std.specs.Iterator.{YieldsFirst, item_count};
ghost use Rattle.cell_world.specs.Grid.{IsWorld, world_of};
ghost use Rattle.cell_world.specs.World.{placed_cells};

use crate::cell::Cell;
use crate::world::World;
use hex_geometry::{Pos, pos_at};
use std::marker::Model;

/// The remaining cells of a world, each with its position, in row order: row by row from the top, each row from the
/// left (the task's geography). It takes no memory. Contracts see the list of them.
#[derive(Drop)]
pub struct Cells<'w> {
    world: &'w World,
    number: usize,
    left: usize,
}

impl<'w> Model for Cells<'w> {
    ghost use Rattle.std.specs.Prelude.{◌≡◌, ◌+◌, ◌*◌, List};
    ghost use Rattle.hex_geometry.specs.declared.position.Pos.{Pos};
    ghost use Rattle.cell_world.specs.declared.cell.Cell.{Cell};
    ghost use Rattle.cell_world.specs.Grid.{world_of};
    ghost use Rattle.cell_world.specs.World.{cells_from};

    ghost Value = { List (Pos × Cell) };

    ghost view = { λ cells. cells_from (world_of cells.world.now) cells.number cells.left };

    ghost invariant = { λ cells. cells.number + cells.left ≡ cells.world.now.width * cells.world.now.height };
}

impl World {
    /// All its cells, each with its position, in row order: row by row from the top, each row from the left (the task's
    /// geography).
    #[tactic(auto, unfolding(crate::specs::World::placed_cells))]
    pub fn cells(&self) -> Cells<'_>
        ensures cells { result ≡ placed_cells (world_of self.now) }
        ensures world { IsWorld self.now }
    {
        Cells {
            world: self,
            number: 0,
            left: self.width as usize * self.height as usize,
        }
    }
}

impl Iterator for Cells<'_> {
    type Item = (Pos, Cell);

    ghost next_gives = { YieldsFirst (λ cells. cells) };

    ghost remaining = { item_count (λ cells. cells) };

    fn next(&mut self) -> Option<(Pos, Cell)> {
        if self.left == 0 {
            return None;
        }
        let p = pos_at(self.world.width(), self.number);
        let cell = self.world.cell(p);
        self.number += 1;
        self.left -= 1;
        Some((p, cell))
    }
}

impl<'w> IntoIterator for &'w World {
    type Item = (Pos, Cell);

    type IntoIter = Cells<'w>;

    ghost into_iter_gives = { λ world cells. cells ≡ placed_cells (world_of world.now) };

    fn into_iter(self) -> Self::IntoIter {
        self.cells()
    }
}
