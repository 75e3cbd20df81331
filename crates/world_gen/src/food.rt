// How much food there is.
ghost use Rattle.std.specs.Prelude.{◌≡◌};
ghost use Rattle.cell_world.specs.Grid.{world_of};
ghost use Rattle.world_gen.specs.Food.{food_on};

use cell_world::World;
use hex_geometry::Pos;

/// The food particles on all cells of a world, at most 2,340,900; carried food isn't counted (the task's geography). At
/// the start of a game this is all food.
pub fn food_on_cells(world: &World) -> u32
    ensures { result ≡ food_on (world_of world.now) }
{
    let width = world.width() as u32;
    let mut food = 0u32;
    for number in 0..width * world.height() as u32 {
        let place = Pos {
            x: (number % width) as u16,
            y: (number / width) as u16,
        };
        food += world.cell(place).food;
    }
    food
}
