// Saves of games.
ghost use Rattle.std.specs.Prelude.{◌≡◌, ◌<◌, ◌≤◌, IfOk};
ghost use Rattle.std.specs.List.{AllByRecursion};
ghost use Rattle.brain_read.specs.Forms.{HasBound};
ghost use Rattle.cell_world.specs.Grid.{IsWorld, world_of};
ghost use Rattle.cell_world.specs.World.{place_in};
ghost use Rattle.match_run.specs.Game.{IsGame};
ghost use Rattle.match_save.specs.Draft.{IsHead};
ghost use Rattle.match_save.specs.Saved.{head_of, living, living_at};
ghost use Rattle.match_save.specs.Saves.{CanBeSaved, save_of};

use crate::head::Head;
use crate::saved::Saved;
use brain_read::{Brain, Instr};
use cell_world::World;
use hex_geometry::OutOfMemory;
use match_run::Game;
use std::alloc::Global;

/// The save of a game at its current round (this project's own). The game is at the end of a round, it began at place
/// 0, its window has at most 16,384 turns, and its world has one hill cell per id, as every opening world has. The game
/// is unchanged. It fails only if memory runs out.
pub fn save_of(alloc: Global, game: &Game<'_>) -> Result<Saved, OutOfMemory>
    requires { CanBeSaved game.now }
    ensures { IfOk result (λ saved. saved ≡ save_of game.now) }
{
    let head = head_of(game);
    let field = game.field();
    let brains = field.brains();
    bounds_are_short(brains.red);
    bounds_are_short(brains.black);
    rests_are_short(field.world());
    let red = brains.red.copy(alloc)?;
    let black = brains.black.copy(alloc)?;
    let world = field.world().copy(alloc)?;
    Ok(Saved::of(head, red, black, world))
}

// The numbers of the first eight lines.
fn head_of(game: &Game<'_>) -> Head
    requires { CanBeSaved game.now }
    ensures head { result ≡ head_of (save_of game.now) }
    ensures form { IsHead result }
    ensures game { IsGame game.now }
{
    let sheet = game.field().brains().sheet;
    let totals = game.totals();
    let world = game.world();
    Head {
        seed: game.field().seed(),
        surround: sheet.surround(),
        corpse: sheet.corpse(),
        rest: sheet.rest(),
        window: game.window(),
        round: game.done(),
        place: game.place(),
        taken: totals.taken,
        redone: totals.redone,
        width: world.width(),
        height: world.height(),
    }
}

// The bound of each Flip fits 32 bits.
fn bounds_are_short(brain: &Brain)
    ensures { AllByRecursion HasBound brain.now }
{
    for state in 0..brain.len() {
        bound_is_short(brain.at(state as u16));
    }
}

// The bound of a Flip fits 32 bits.
fn bound_is_short(_instruction: Instr)
    ensures { HasBound _instruction }
{}

// Each living ant rests for at most 255 turns.
fn rests_are_short(world: &World)
    ensures rests { AllByRecursion (λ it. it.ant.resting ≤ 255) (living world.now world.now.ids) }
    ensures world { IsWorld world.now }
{
    for id in 0..world.ant_count() {
        rest_is_short(world, id);
    }
}

// The ant with an id, if it is alive, rests for at most 255 turns.
fn rest_is_short(world: &World, id: u32)
    ensures { AllByRecursion (λ it. it.ant.resting ≤ 255) (living_at world.now (place_in (world_of world.now) id)) }
{
    let Some(place) = world.ant_place(id) else {
        return;
    };
    let Some(ant) = world.cell(place).ant else {
        return;
    };
    let rest = ant.resting;
    prove!(rest <= 255);
}
