// A world with its score.
ghost use Rattle.std.specs.Prelude.{◌≡◌, ◌+◌, ◌-◌, ◌≤◌};
ghost use Rattle.std.proofs.Common.{rules};
ghost use Rattle.cell_world.specs.declared.ant.Colour.TheVariants.{Red, Black};
ghost use Rattle.cell_world.specs.Grid.{world_of};
ghost use Rattle.cell_world.specs.Limits.{most_weight};
ghost use Rattle.cell_world.specs.Score.{hill_food_in, score_of};

use crate::board::Board;
use cell_world::{Ant, Cell, Colour, Ground, PlacedAnt, Score, World};
use hex_geometry::Pos;
use std::marker::Model;

/// A world with its score: the food on each colour's hill (the task's game play). The score is updated with each cell
/// that is set, so no cell is counted twice. A contract sees only the world.
#[derive(Drop)]
pub struct ScoredWorld {
    world: World,
    score: Score,
}

impl Model for ScoredWorld {
    ghost use Rattle.std.specs.Prelude.{◌≡◌};
    ghost use Rattle.cell_world.specs.Grid.{Grid, world_of};
    ghost use Rattle.cell_world.specs.Score.{score_of};

    ghost Value = { Grid };

    ghost view = { λ scored. scored.world };

    ghost invariant = { λ scored. scored.score ≡ score_of (world_of scored.world) };
}

impl ScoredWorld {
    /// The given world. Its score is counted over all cells, once.
    pub fn of(world: World) -> ScoredWorld
        ensures { result ≡ world }
    {
        let score = world.score();
        ScoredWorld { world, score }
    }

    /// The current score: the food on each colour's hill, from 0 to 2,340,900 particles. It is kept, not counted.
    #[inline]
    pub fn score(&self) -> Score
        ensures { result ≡ score_of (world_of self.now) }
    {
        self.score
    }
}

impl Board for ScoredWorld {
    #[inline(always)]
    fn ids(&self) -> u32 {
        self.world.ant_count()
    }

    #[inline(always)]
    fn count_down_rests(&mut self, from: u32, to: u32, acting: &mut [u16; 64]) -> usize {
        self.world.count_down_rests(from, to, acting)
    }

    ghost roomy = { Prim.search rules };
}

// A world can take any number of changes: its room is always 9, the most that a turn needs.
impl Ground for ScoredWorld {
    ghost world = { world_of };

    ghost room = { λ _. 9 };

    #[inline(always)]
    fn cell_at(&mut self, p: Pos) -> Cell {
        self.world.cell_at(p)
    }

    #[inline(always)]
    fn place_of(&mut self, id: u32) -> Option<Pos> {
        self.world.place_of(id)
    }

    #[inline]
    fn set(&mut self, p: Pos, cell: Cell) {
        let before = self.world.cell(p);
        self.score = if before.food == cell.food {
            self.score
        } else {
            Score {
                red: food_after(self.score.red, &before, &cell, Colour::Red),
                black: food_after(self.score.black, &before, &cell, Colour::Black),
            }
        };
        self.world.set(p, cell);
    }

    #[inline(always)]
    fn ant_of(&mut self, id: u32) -> Option<PlacedAnt> {
        self.world.ant_of(id)
    }

    #[inline(always)]
    fn set_mind(&mut self, p: Pos, ant: Ant) {
        self.world.set_mind(p, ant);
    }
}

// The food on a colour's hill after one cell of the world is replaced by another.
#[inline]
fn food_after(food: u32, before: &Cell, after: &Cell, colour: Colour) -> u32
    requires part { hill_food_in colour before.now ≤ food }
    requires light { food ≤ most_weight }
    requires light_after { hill_food_in colour after.now ≤ most_weight }
    ensures { result ≡ food - hill_food_in colour before.now + hill_food_in colour after.now }
{
    food - hill_food(before, colour) + hill_food(after, colour)
}

// The food on a cell, if it belongs to this colour's hill.
#[inline]
fn hill_food(cell: &Cell, colour: Colour) -> u32
    ensures { result ≡ hill_food_in colour cell.now }
{
    if cell.is_hill_of(colour) {
        cell.food
    } else {
        0
    }
}
