// Whether the lines of a save describe a state of a game.
ghost use Rattle.std.specs.Prelude.{◌≡◌, ◌+◌, ◌*◌, ◌<◌, ◌≤◌, length, map};
ghost use Rattle.brain_read.specs.Drafts.{drafted};
ghost use Rattle.match_save.specs.Draft.{IsHead, IsInForm, IsProgram};
ghost use Rattle.match_save.specs.State.{hill_count};
ghost use Rattle.match_save.specs.Inner.Fit.{are_fit, has_turns, length_of};
ghost use Rattle.match_save.specs.Inner.Judged.{Judges, JudgesWorld, SettlesAs};
ghost use Rattle.match_save.specs.Inner.Said.{said};

use crate::ant_puts::{put_ants, weight_of_ants};
use crate::draft::SaveDraft;
use crate::fault::SaveFault;
use crate::floor::{are_sound_cells, food_sum, ground_cells, hill_count};
use crate::head::Head;
use crate::saved::Saved;
use brain_read::{Brain, Draft, Instr};
use cell_world::{Colour, MOST_ANTS, MOST_WEIGHT, PlacedAnt, World};
use std::alloc::Global;

// Whether this many ids had these turns in the rounds that are done, and drew no more random numbers than turns.
fn has_turns(head: &Head, ids: u32) -> bool
    requires within { IsHead head.now }
    requires few { ids ≤ 16384 }
    ensures { result ≡ has_turns head.now ids }
{
    let turns = u64::from(ids) * u64::from(head.round);
    head.place <= turns && head.taken + head.redone == turns
}

// The instructions of these drafts, if every state that they name is below their number.
fn settle(alloc: Global, drafts: &[Draft]) -> Result<Vec<Instr>, SaveFault>
    requires { length drafts.now ≤ 10000 }
    ensures { SettlesAs (λ list. list.items) (map drafted drafts.now) result }
{
    let states = drafts.len() as u64;
    let mut list = Vec::with_capacity(alloc, drafts.len())?;
    for draft in drafts {
        let Ok(instruction) = draft.settle(states) else {
            return Err(SaveFault::BadState);
        };
        list.push(instruction)?;
    }
    Ok(list)
}

// The brain of these drafts, if every state that they name is below their number.
fn brain_of(alloc: Global, drafts: &[Draft]) -> Result<Brain, SaveFault>
    requires { IsProgram (map drafted drafts.now) }
    ensures { SettlesAs (λ brain. brain) (map drafted drafts.now) result }
{
    let list = settle(alloc, drafts)?;
    Ok(Brain::from_list(list))
}

// How many states the brain of a colour has.
fn length_of(red: u32, black: u32, colour: Colour) -> u32
    ensures { result ≡ length_of red black colour }
{
    match colour {
        Colour::Red => red,
        Colour::Black => black,
    }
}

// Whether the state of each ant is one of its colour's brain, which has this many.
fn are_fit(ants: &[PlacedAnt], red: u32, black: u32) -> bool
    ensures { result ≡ are_fit red black ants.now }
{
    for it in ants {
        if u32::from(it.ant.state) >= length_of(red, black, it.ant.colour) {
            return false;
        }
    }
    true
}

// The world that the lines describe, with this many ids.
fn world_of(alloc: Global, draft: &SaveDraft, ids: u32) -> Result<World, SaveFault>
    requires form { IsInForm (said draft.now) }
    requires ids { ids ≡ hill_count draft.now.soils.items }
    requires few { ids ≤ 16384 }
    ensures { JudgesWorld (said draft.now) result }
{
    let head = draft.head;
    let cells = ground_cells(
        alloc,
        &draft.soils,
        &draft.red_marks,
        &draft.black_marks,
        &draft.foods,
    )?;
    if !are_sound_cells(head.width, head.height, &cells) {
        return Err(SaveFault::BadState);
    }
    if food_sum(&draft.foods) + weight_of_ants(&draft.ants) > u64::from(MOST_WEIGHT) {
        return Err(SaveFault::BadState);
    }
    let mut world = World::of_ground(alloc, head.width, head.height, ids, &cells)?;
    if !put_ants(&mut world, &draft.ants) {
        return Err(SaveFault::BadState);
    }
    Ok(world)
}

// The save that the lines describe, if it is one.
pub fn judge(alloc: Global, draft: &SaveDraft) -> Result<Saved, SaveFault>
    requires { IsInForm (said draft.now) }
    ensures { Judges (said draft.now) result }
{
    let ids = hill_count(&draft.soils);
    if ids > MOST_ANTS {
        return Err(SaveFault::BadState);
    }
    if !has_turns(&draft.head, ids) {
        return Err(SaveFault::BadState);
    }
    let red = brain_of(alloc, &draft.red)?;
    let black = brain_of(alloc, &draft.black)?;
    if !are_fit(&draft.ants, red.len(), black.len()) {
        return Err(SaveFault::BadState);
    }
    let world = world_of(alloc, draft, ids)?;
    Ok(Saved::of(draft.head, red, black, world))
}
