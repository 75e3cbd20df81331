// The ants of a save, put into its world.
ghost use Rattle.std.specs.Prelude.{◌≡◌, ◌+◌, ◌*◌, ◌<◌, ◌≤◌, length, None, Some};
ghost use Rattle.std.specs.List.{AllByRecursion};
ghost use Rattle.hex_geometry.specs.Position.{IsInside};
ghost use Rattle.cell_world.specs.Cell.{ant_weight};
ghost use Rattle.cell_world.specs.Grid.{cell_in, world_of};
ghost use Rattle.cell_world.specs.Limits.{most_weight};
ghost use Rattle.cell_world.specs.World.{weight};
ghost use Rattle.match_save.specs.Draft.{IdsRise};
ghost use Rattle.match_save.specs.Inner.AntPuts.{PutsAll, PutsOne, is_free, weight_of_ants};

use cell_world::{Cell, Ground, PlacedAnt, World};

// The weight of an ant; one that carries food weighs one more.
const ANT_WEIGHT: u64 = 9;

// The total weight of ants.
pub fn weight_of_ants(ants: &[PlacedAnt]) -> u64
    requires { length ants.now ≤ 16384 }
    ensures { result ≡ weight_of_ants ants.now }
{
    let mut weight = 0;
    for it in ants {
        weight += ANT_WEIGHT + u64::from(it.ant.laden);
    }
    weight
}

// Whether a cell is clear and holds no ant.
fn is_free(cell: &Cell) -> bool
    ensures { result ≡ is_free cell.now }
{
    !cell.rocky && cell.ant.is_none()
}

// Puts an ant on its cell, if it can be there.
fn put_ant(world: &mut World, it: PlacedAnt) -> bool
    requires inside { IsInside world.old.width world.old.height it.place }
    requires light { weight (world_of world.old) + ant_weight (Some it.ant) ≤ most_weight }
    requires late { (p : _) → (ant : _) → (cell_in world.old p).ant ≡ Some ant → ant.id < it.ant.id }
    ensures { PutsOne world.old world.new it result }
{
    if it.ant.id >= world.ant_count() {
        return false;
    }
    let cell = world.cell(it.place);
    if !is_free(&cell) {
        return false;
    }
    world.set(
        it.place,
        Cell {
            ant: Some(it.ant),
            ..cell
        },
    );
    // Called for its clause: what is set leaves a world.
    let _width = world.width();
    true
}

// Puts ants, whose ids rise, on their cells in a world without ants, until one can't be on its own.
pub fn put_ants(world: &mut World, ants: &[PlacedAnt]) -> bool
    requires inside { AllByRecursion (λ it. IsInside world.old.width world.old.height it.place) ants.now }
    requires rise { IdsRise 0 ants.now }
    requires empty { (p : _) → (cell_in world.old p).ant ≡ None }
    requires light { weight (world_of world.old) + weight_of_ants ants.now ≤ most_weight }
    ensures { PutsAll world.old world.new ants.now result }
{
    // Called for its clause: what holds of every world.
    let _width = world.width();
    for it in ants {
        if !put_ant(world, *it) {
            return false;
        }
    }
    true
}
