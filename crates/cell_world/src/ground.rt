// A world that can be read and changed cell by cell.
ghost use Rattle.std.specs.Prelude.{◌≡◌, ℕ, ◌+◌, ◌<◌, ◌≤◌, Some, option_map, IfSome};
ghost use Rattle.hex_geometry.specs.Position.{IsInside};
ghost use Rattle.cell_world.specs.World.{World, place_in, put};
ghost use Rattle.cell_world.specs.Valid.{Valid, CanSet, CanThink};

use crate::ant::{Ant, PlacedAnt};
use crate::cell::Cell;
use hex_geometry::Pos;

/// A world that can be read and changed cell by cell. The rules of a turn are written once, over any ground.
///
/// Contracts see a world, which keeps what every world keeps, and the ground's room, the number of calls of `set` that
/// it can still take. No call fails, and reading changes neither of the two. Reading borrows the ground mutably, so
/// that a ground may note what was read. A ground has to give `cell_at`, `place_of` and `set`. The other two calls
/// follow from these, and a ground may have faster ways for them.
pub trait Ground {
    /// The world that it represents.
    ghost world: { Self → World };

    /// How many more calls of `set` it can take.
    ghost room: { Self → ℕ };

    /// The content of the cell at `p`, which is inside the world (the task's geography).
    fn cell_at(&mut self, p: Pos) -> Cell
        requires { IsInside (world self.old).width (world self.old).height p }
        ensures content { result ≡ (world self.old).cells p }
        ensures world { world self.new ≡ world self.old }
        ensures room { room self.new ≡ room self.old }
        ensures valid { Valid (world self.new) };

    /// The position of the cell with the ant of this id, counted from 0; `None` if no cell has it because it is dead or
    /// never existed (the task's biology).
    fn place_of(&mut self, id: u32) -> Option<Pos>
        ensures place { result ≡ place_in (world self.old) id }
        ensures world { world self.new ≡ world self.old }
        ensures room { room self.new ≡ room self.old }
        ensures valid { Valid (world self.new) };

    /// Puts this cell at `p`, and leaves every other cell unchanged. The old cell and the new one are both clear and
    /// belong to the same hill or to none. The new cell has only markers 0 to 5, its ant has a known id and is on no
    /// other cell, and the world stays light enough. It uses one of the ground's room.
    fn set(&mut self, p: Pos, cell: Cell)
        requires { CanSet (world self.old) (room self.old) p cell }
        ensures set { world self.new ≡ put (world self.old) p cell }
        ensures room { room self.old ≤ room self.new + 1 }
        ensures valid { Valid (world self.new) };

    /// The ant with this id, which existed, and its position; `None` if no cell has it (the task's biology).
    fn ant_of(&mut self, id: u32) -> Option<PlacedAnt>
        requires { id < (world self.old).ids }
        ensures place { option_map (λ it. it.place) result ≡ place_in (world self.old) id }
        ensures ant { IfSome result (λ it. ((world self.old).cells it.place).ant ≡ Some it.ant) }
        ensures world { world self.new ≡ world self.old }
        ensures room { room self.new ≡ room self.old }
        ensures valid { Valid (world self.new) }
    {
        let place = self.place_of(id)?;
        let ant = self.cell_at(place).ant?;
        Some(PlacedAnt { place, ant })
    }

    /// Replaces the state, the rest and the direction of the ant at `p` with those of this ant, and leaves everything
    /// else unchanged. Both have the same id, colour and load. It uses one of the ground's room (the task's neurology
    /// and kinetics).
    fn set_mind(&mut self, p: Pos, ant: Ant)
        requires { CanThink (world self.old) (room self.old) p ant }
        ensures set { world self.new ≡ put (world self.old) p (record ((world self.old).cells p) { ant = Some ant }) }
        ensures room { room self.old ≤ room self.new + 1 }
        ensures valid { Valid (world self.new) }
    {
        let cell = self.cell_at(p);
        self.set(
            p,
            Cell {
                ant: Some(ant),
                ..cell
            },
        );
    }
}
