// What is counted in a world: the living ants, and the food on the hills.
ghost use Rattle.std.specs.Prelude.{◌≡◌, ◌<◌, ◌^◌};
ghost use Rattle.std.specs.List.{count_by, sum_by};
ghost use Rattle.cell_world.specs.Grid.{IsWorld, world_of};
ghost use Rattle.cell_world.specs.Score.{alive_of, hill_food_of, score_of};
ghost use Rattle.cell_world.specs.Inner.Stored.{is_living, tile_food};

use crate::ant::Colour;
use crate::body::Body;
use crate::score::Score;
use crate::tile::Tile;
use crate::world::World;

impl World {
    /// How many ants of this colour are alive, at most 16,384 (the task's biology).
    pub fn alive(&self, colour: Colour) -> u32
        ensures alive { result ≡ alive_of (world_of self.now) colour }
        ensures world { IsWorld self.now }
    {
        living_in(&self.bodies, colour) as u32
    }

    /// The food particles on the cells of this colour's hill, at most 2,340,900; carried food isn't counted (the task's
    /// game play).
    pub fn hill_food(&self, colour: Colour) -> u32
        ensures food { result ≡ hill_food_of (world_of self.now) colour }
        ensures world { IsWorld self.now }
    {
        food_in(&self.tiles, colour)
    }

    /// The food on the red hill and on the black hill (the task's game play).
    #[tactic(auto, unfolding(crate::specs::Score::score_of))]
    pub fn score(&self) -> Score
        ensures score { result ≡ score_of (world_of self.now) }
        ensures world { IsWorld self.now }
    {
        Score {
            red: self.hill_food(Colour::Red),
            black: self.hill_food(Colour::Black),
        }
    }
}

// How many of these bodies are of living ants of this colour.
fn living_in(bodies: &[Body], colour: Colour) -> usize
    ensures { result ≡ count_by (is_living colour) bodies.now }
{
    bodies.iter().filter(|body| body.is_living(colour)).count()
}

// The food on those tiles that belong to this colour's hill.
fn food_in(tiles: &[Tile], colour: Colour) -> u32
    requires { sum_by (tile_food colour) tiles.now < 2 ^ 32 }
    ensures { result ≡ sum_by (tile_food colour) tiles.now }
{
    tiles.iter().map(|tile| tile.food_of(colour)).sum()
}
