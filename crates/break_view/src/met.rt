// Whether breaks hold.
ghost use Rattle.std.specs.Prelude.{◌≡◌, ℕ, ◌+◌, ◌<◌, ◌≤◌, ◌&&◌, IsTrue, false, nat_lt, not, length};
ghost use Rattle.std.specs.List.{All};
ghost use Rattle.std.specs.Option.{is_some};
ghost use Rattle.cell_world.specs.Grid.{world_of};
ghost use Rattle.cell_world.specs.Score.{hill_food_of, score_of};
ghost use Rattle.cell_world.specs.World.{place_in};
ghost use Rattle.cell_world.specs.World as worlds;
ghost use Rattle.break_view.specs.Grammar.{most_breaks};
ghost use Rattle.break_view.specs.Inner.Changes.{IsNamed, IsQuietButStates};
ghost use Rattle.break_view.specs.Met as met;

use crate::breaks::Break;
use crate::states::{Watch, names_ant};
use cell_world::{Ant, Cell, Colour, Score, World};
use hex_geometry::Pos;

// The number, counted from 1, of the first of these breaks that holds in a world after the turn of an id in a round.
pub(crate) fn first_met(
    items: &[Break],
    world: &World,
    score: Score,
    round: u32,
    id: u32,
) -> Option<u32>
    requires few { length items.now ≤ most_breaks }
    requires score { score ≡ score_of (world_of world.now) }
    ensures { result ≡ met.first_met 1 items.now (world_of world.now) round id }
{
    let ant = ant_of(world, id);
    let mut number = 1;
    for item in items {
        if meets(*item, world, score, ant, round) {
            return Some(number);
        }
        number += 1;
    }
    None
}

// The same. `same` says that the turn can only have changed breaks of states; then the others aren't checked, except
// after the first turn of a round, since the round is a new one.
pub(crate) fn met_now(
    watch: Watch<'_>,
    world: &World,
    score: Score,
    round: u32,
    id: u32,
    same: bool,
) -> Option<u32>
    requires few { length watch.items.now ≤ most_breaks }
    requires score { score ≡ score_of (world_of world.now) }
    requires named { All (IsNamed watch.red.now watch.black.now) watch.items.now }
    requires quiet { IsTrue same → 0 < id → IsQuietButStates watch.items.now (world_of world.now) round id }
    ensures { result ≡ met.first_met 1 watch.entry.items.now (world_of world.now) round id }
{
    if watch.items.is_empty() {
        return None;
    }
    let named = names_ant(watch.red, watch.black, ant_of(world, id));
    if is_skipped(named, id, same) {
        return None;
    }
    first_met(watch.items, world, score, round, id)
}

// Whether no break has to be checked.
#[inline]
fn is_skipped(named: bool, id: u32, same: bool) -> bool
    ensures { IsTrue result → (named ≡ false) × (0 < id) × IsTrue same }
{
    !named && id > 0 && same
}

// The ant of an id, if it is alive.
fn ant_of(world: &World, id: u32) -> Option<Ant>
    ensures { result ≡ met.ant_at (world_of world.now) (place_in (world_of world.now) id) }
{
    let Some(place) = world.ant_place(id) else {
        return None;
    };
    world.cell(place).ant
}

// Whether a break holds in a world with this score after the turn of an id in a round. The id's ant is this one, or
// dead if there is none.
fn meets(item: Break, world: &World, score: Score, ant: Option<Ant>, round: u32) -> bool
    requires { score ≡ score_of (world_of world.now) }
    ensures { (t : ℕ) → ant ≡ met.ant_at (world_of world.now) (place_in (world_of world.now) t)
        → result ≡ met.is_met item (world_of world.now) round t }
{
    match item {
        Break::Round(wanted) => wanted == round,
        Break::State { colour, state } => is_in_state(colour, state, ant),
        Break::Stand { colour, x, y } => is_manned(world, colour, x, y),
        Break::Food { x, y, least } => is_fed(world, x, y, least),
        Break::Killed { id: wanted } => is_dead(world, wanted),
        Break::Score { colour, least } => least <= food_of(score, colour),
    }
}

// The food on a colour's hill, by a score.
#[tactic(auto, unfolding(cell_world::specs::Score::score_of))]
fn food_of(score: Score, colour: Colour) -> u32
    ensures { (w : worlds.World) → score ≡ score_of w → result ≡ hill_food_of w colour }
{
    match colour {
        Colour::Red => score.red,
        Colour::Black => score.black,
    }
}

// Whether there is an ant, and it has this colour and this state.
fn is_in_state(colour: Colour, state: u32, ant: Option<Ant>) -> bool
    ensures { result ≡ met.is_in_state colour state ant }
{
    match ant {
        Some(ant) => colour == ant.colour && u32::from(ant.state) == state,
        None => false,
    }
}

// Whether an ant of this colour is on the cell in column `x` of row `y`.
fn is_manned(world: &World, colour: Colour, x: u32, y: u32) -> bool
    ensures { result ≡ met.has_ant_of colour (met.clear_cell (world_of world.now) x y) }
{
    match clear_cell(world, x, y) {
        Some(cell) => cell.has_ant_of(colour),
        None => false,
    }
}

// Whether the cell in column `x` of row `y` is clear and has at least this number of food particles.
fn is_fed(world: &World, x: u32, y: u32, least: u32) -> bool
    ensures { result ≡ met.is_fed least (met.clear_cell (world_of world.now) x y) }
{
    match clear_cell(world, x, y) {
        Some(cell) => least <= cell.food,
        None => false,
    }
}

// Whether an id was assigned and no cell holds its ant.
fn is_dead(world: &World, id: u32) -> bool
    ensures { result ≡ (nat_lt id world.now.ids && not (is_some (place_in (world_of world.now) id))) }
{
    id < world.ant_count() && world.ant_place(id).is_none()
}

// The cell in column `x` of row `y`, if it is inside and clear.
fn clear_cell(world: &World, x: u32, y: u32) -> Option<Cell>
    ensures { result ≡ met.clear_cell (world_of world.now) x y }
{
    if x >= u32::from(world.width()) || y >= u32::from(world.height()) {
        return None;
    }
    if_clear(world.cell(Pos {
        x: x as u16,
        y: y as u16,
    }))
}

fn if_clear(cell: Cell) -> Option<Cell>
    ensures { result ≡ met.if_clear cell }
{
    if cell.rocky { None } else { Some(cell) }
}
