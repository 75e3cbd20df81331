// The world: what it keeps of its cells, in row order, and of its ants, by id.
ghost use Rattle.std.specs.Prelude.{◌≡◌, IfOk};
ghost use Rattle.cell_world.specs.Grid.{IsGround, IsWorld, world_of};
ghost use Rattle.cell_world.specs.Opening.{IsPlan, opening};
ghost use Rattle.hex_geometry.specs.Position.{IsInside};
ghost use Rattle.cell_world.specs.World.{place_in};

use crate::body::Body;
use crate::build::{WorldParts, dead_bodies, ground_tiles};
use crate::cell::Cell;
use crate::kind::Kind;
use crate::tile::{Tile, ant_named};
use hex_geometry::{OutOfMemory, Pos, index_of};
use std::alloc::Global;
use std::marker::Model;

mod catch_up;
mod cells;
mod counts;
mod ground;
mod resting;

pub use cells::Cells;

/// A world (the task's geography, chemistry and biology).
///
/// Width and height are from 3 to 512. The rim is rocky, and a rocky cell has no food, marks, ant or hill. Each set of
/// markers has only markers 0 to 5. At most 16,384 ids were ever assigned; each ant's id is one of them and is on at
/// most one cell. The weight is at most 2,340,900: one for each food particle, lying or carried, and nine for each ant.
#[derive(Drop)]
pub struct World {
    width: u16,
    height: u16,
    tiles: Vec<Tile>,
    bodies: Vec<Body>,
}

impl Model for World {
    ghost use Rattle.cell_world.specs.Grid.{Grid};

    ghost Value = { Grid };

    ghost use Rattle.cell_world.specs.Inner.Inside.{grid_of, IsWellStored};

    ghost view = { grid_of };

    ghost invariant = { IsWellStored };
}

impl World {
    /// The world of these kinds at the start of a game (the task's geography and biology). The kinds are in row order:
    /// row by row from the top, each row from the left. Width and height are from 3 to 512, there are width times
    /// height kinds, the rim is rock, at most 16,384 kinds are hills, and food is from 1 to 9. It fails only if memory
    /// runs out.
    pub fn build(
        alloc: Global,
        width: u16,
        height: u16,
        kinds: &[Kind],
    ) -> Result<World, OutOfMemory>
        requires { IsPlan width height kinds.now }
        ensures { IfOk result (λ w. w ≡ opening width height kinds.now) }
    {
        let parts = WorldParts::of_kinds(alloc, width, kinds)?;
        Ok(World {
            width,
            height,
            tiles: parts.tiles,
            bodies: parts.bodies,
        })
    }

    /// The world of these cells, none of which holds an ant: `ids` ids existed, and all their ants are dead. The cells
    /// are in row order: row by row from the top, each row from the left. They are those of a world of this width and
    /// height, each from 3 to 512, with this number of ids, at most 16,384. It fails only if memory runs out.
    pub fn of_ground(
        alloc: Global,
        width: u16,
        height: u16,
        ids: u32,
        cells: &[Cell],
    ) -> Result<World, OutOfMemory>
        requires { IsGround (record { width = width; height = height; ids = ids; cells = cells.now }) }
        ensures { IfOk result (λ w. w ≡ record { width = width; height = height; ids = ids; cells = cells.now }) }
    {
        let tiles = ground_tiles(alloc, cells)?;
        let bodies = dead_bodies(alloc, ids)?;
        Ok(World {
            width,
            height,
            tiles,
            bodies,
        })
    }

    /// An equal world of its own. The only error is out of memory.
    pub fn copy(&self, alloc: Global) -> Result<World, OutOfMemory>
        ensures { IfOk result (λ w. w ≡ self.now) }
    {
        let tiles = Vec::from_slice(alloc, &self.tiles)?;
        let bodies = Vec::from_slice(alloc, &self.bodies)?;
        Ok(World {
            width: self.width,
            height: self.height,
            tiles,
            bodies,
        })
    }

    /// How many columns there are, from 3 to 512 (the task's geography).
    #[inline]
    pub fn width(&self) -> u16
        ensures width { result ≡ self.now.width }
        ensures world { IsWorld self.now }
    {
        self.width
    }

    /// How many rows there are, from 3 to 512 (the task's geography).
    #[inline]
    pub fn height(&self) -> u16
        ensures height { result ≡ self.now.height }
        ensures world { IsWorld self.now }
    {
        self.height
    }

    /// How many ids were ever assigned, at most 16,384. The ids are the numbers below it, including those of dead ants
    /// (the task's biology).
    #[inline]
    pub fn ant_count(&self) -> u32
        ensures ids { result ≡ self.now.ids }
        ensures world { IsWorld self.now }
    {
        self.bodies.len() as u32
    }

    /// The cell at `p`, which is inside: its column is below the width and its row below the height (the task's
    /// geography).
    #[inline]
    pub fn cell(&self, p: Pos) -> Cell
        requires { IsInside self.now.width self.now.height p }
        ensures content { result ≡ (world_of self.now).cells p }
        ensures world { IsWorld self.now }
    {
        let tile = self.tiles[index_of(self.width, p)];
        Cell {
            rocky: tile.rocky,
            hill: tile.hill,
            food: tile.food,
            red: tile.red,
            black: tile.black,
            ant: ant_named(&self.bodies, tile.ant.id()),
        }
    }

    /// The position of the cell with the ant of this id, counted from 0; `None` if no cell has it because it is dead or
    /// never existed (the task's biology).
    #[inline]
    pub fn ant_place(&self, id: u32) -> Option<Pos>
        ensures place { result ≡ place_in (world_of self.now) id }
        ensures world { IsWorld self.now }
    {
        if (id as usize) < self.bodies.len() {
            self.bodies[id as usize].place
        } else {
            None
        }
    }
}
