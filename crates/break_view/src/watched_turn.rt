// Turns that are watched: after which of them a break has to be checked.
ghost use Rattle.std.specs.Prelude.{◌≡◌, ◌+◌, ◌<◌, ◌^◌, ◌==◌, ◌&&◌, IsTrue, Some};
ghost use Rattle.ant_turn.specs.Minds.{Fits, minds_of};
ghost use Rattle.ant_turn.specs.Turn.{has_ant};
ghost use Rattle.cell_world.specs.Grid.{world_of};
ghost use Rattle.cell_world.specs.Score.{score_of};
ghost use Rattle.hex_geometry.specs.Position.{IsInside};
ghost use Rattle.hex_geometry.specs.declared.position.Pos.{Pos};
ghost use Rattle.break_view.specs.Inner.CellScores as cell_scores;
ghost use Rattle.break_view.specs.Inner.Changes as changes;
ghost use Rattle.break_view.specs.Inner.Watched as watched;

use crate::cell_scores::{count_again, score_in_any};
use ant_random::Stream;
use ant_turn::{Brains, take_turn};
use cell_world::{Cell, Ground, Score, World};
use hex_geometry::Pos;

// Takes the turn of an id, and keeps the score up to date. Returns true if the turn can only have changed breaks of
// states: the ant was dead or resting, or no ant was killed and the ant is where it was, on the same amount of food.
pub(crate) fn take_watched(
    world: &mut World,
    brains: Brains<'_>,
    stream: &mut Stream,
    score: &mut Score,
    id: u32,
) -> bool
    requires fit { Fits (world_of world.old) (minds_of brains) }
    requires id { id < world.old.ids }
    requires place { stream.old.place + 1 < 2 ^ 63 }
    requires score { score.old ≡ score_of (world_of world.old) }
    ensures { watched.TurnWatched (minds_of brains.entry) id (world_of world.old) (world_of world.new) stream.old stream.new score.new result }
{
    if is_idle(world, id) {
        let _deed = take_turn(world, brains, stream, id);
        return true;
    }
    take_acting(world, brains, stream, score, id)
}

// Whether an id's ant is dead or rests.
#[inline(always)]
fn is_idle(world: &mut World, id: u32) -> bool
    requires id { id < world.old.ids }
    ensures world { world_of world.new ≡ world_of world.old }
    ensures idle { IsTrue result → watched.IsIdle (world_of world.old) id }
{
    match world.ant_of(id) {
        Some(standing) => standing.ant.resting > 0,
        None => true,
    }
}

// The same for any ant, by what its turn did: if no ant was killed, food changed at most on the ant's own cell.
#[inline(always)]
fn take_acting(
    world: &mut World,
    brains: Brains<'_>,
    stream: &mut Stream,
    score: &mut Score,
    id: u32,
) -> bool
    requires fit { Fits (world_of world.old) (minds_of brains) }
    requires id { id < world.old.ids }
    requires place { stream.old.place + 1 < 2 ^ 63 }
    requires score { score.old ≡ score_of (world_of world.old) }
    ensures { watched.TurnWatched (minds_of brains.entry) id (world_of world.old) (world_of world.new) stream.old stream.new score.new result }
{
    let place = world.ant_place(id);
    let before = cell_at(world, place);
    let deed = take_turn(world, brains, stream, id);
    if deed.killed.is_empty() {
        let after = cell_at(world, place);
        *score = count_again(*score, score_in_any(before), score_in_any(after));
        is_left(after, food_in(before))
    } else {
        *score = world.score();
        false
    }
}

// The cell at a position, if there is one.
#[inline]
fn cell_at(world: &World, place: Option<Pos>) -> Option<Cell>
    requires { (p : Pos) → place ≡ Some p → IsInside world.now.width world.now.height p }
    ensures { result ≡ cell_scores.cell_at (world_of world.now) place }
{
    match place {
        Some(place) => Some(world.cell(place)),
        None => None,
    }
}

// The food on a cell: none if there is no cell.
#[inline]
fn food_in(cell: Option<Cell>) -> u32
    ensures { result ≡ changes.food_in cell }
{
    match cell {
        Some(cell) => cell.food,
        None => 0,
    }
}

// Whether the cell has an ant and this amount of food, or there is no cell.
#[inline]
fn is_left(cell: Option<Cell>, food: u32) -> bool
    ensures { result ≡ changes.is_left cell food }
{
    match cell {
        Some(cell) => has_ant_on(cell, food),
        None => true,
    }
}

// Whether a cell has an ant and this amount of food.
#[inline]
fn has_ant_on(cell: Cell, food: u32) -> bool
    ensures { result ≡ (has_ant cell.ant && (cell.food == food)) }
{
    cell.ant.is_some() && cell.food == food
}
