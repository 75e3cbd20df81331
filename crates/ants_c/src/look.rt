// A game that is looked at between its rounds.
ghost use Rattle.std.specs.Prelude.{◌≡◌, ◌↔◌, ◌+◌, ◌*◌, ◌≤◌, ◌++◌, true, drop, length, map};
ghost use Rattle.cell_world.specs.Grid.{world_of};
ghost use Rattle.world_read.specs.Opened.{IsOpeningWorld};
ghost use Rattle.ants_c.specs.Looked.{AreRising, ants_after, colour_number, seen_ant, seen_ants};
ghost use Rattle.ants_c.specs.Played.{game_score};

use crate::ant::AntsAnt;
use crate::read::Setting;
use crate::score::AntsScore;
use ant_turn::{Brains, Sheet};
use cell_world::{Colour, World};
use match_run::{GameAlone, MOST_ROUNDS};

/// Whether each round is above the one before it, and none is above 1,000,000.
pub fn are_rising(rounds: &[u32]) -> bool
    ensures { (result ≡ true) ↔ AreRising 0 rounds.now }
{
    let mut least = 0;
    for round in rounds {
        if *round < least || *round > MOST_ROUNDS {
            return false;
        }
        least = *round + 1;
    }
    true
}

fn colour_number(colour: Colour) -> u8
    ensures { result ≡ colour_number colour }
{
    match colour {
        Colour::Red => 0,
        Colour::Black => 1,
    }
}

// An ant that is dead.
fn dead() -> AntsAnt
    ensures { result ≡ record { state = 0; resting = 0; column = 0; row = 0; alive = 0; colour = 0; direction = 0; laden = 0 } }
{
    AntsAnt {
        state: 0,
        resting: 0,
        column: 0,
        row: 0,
        alive: 0,
        colour: 0,
        direction: 0,
        laden: 0,
    }
}

// The ant with an id.
fn seen_ant(world: &World, id: u32) -> AntsAnt
    ensures { result ≡ seen_ant (world_of world.now) id }
{
    let Some(place) = world.ant_place(id) else {
        return dead();
    };
    let Some(ant) = world.cell(place).ant else {
        return dead();
    };
    AntsAnt {
        state: u32::from(ant.state),
        resting: u32::from(ant.resting),
        column: place.x,
        row: place.y,
        alive: 1,
        colour: colour_number(ant.colour),
        direction: ant.facing.number(),
        laden: u8::from(ant.laden),
    }
}

// Writes the ants of all ids into a room that has one place for each.
fn put_ants(world: &World, room: &mut [AntsAnt])
    requires fits { length room.old ≡ world.now.ids }
    ensures { room.new ≡ seen_ants (world_of world.now) }
{
    for id in 0..world.ant_count() {
        room[id as usize] = seen_ant(world, id);
    }
}

/// Plays a game. After each of the rounds it writes the score and the ants into rooms that have places for them.
pub fn put_looks(
    setting: Setting,
    seed: u32,
    rounds: &[u32],
    scores: &mut [AntsScore],
    ants: &mut [AntsAnt],
)
    requires opening { IsOpeningWorld setting.world }
    requires red { 1 ≤ length setting.red }
    requires black { 1 ≤ length setting.black }
    requires rising { AreRising 0 rounds.now }
    requires scores { length rounds.now ≤ length scores.old }
    requires ants { length rounds.now * setting.world.ids ≤ length ants.old }
    ensures scores { scores.new ≡ map (λ round. game_score setting.world setting.red setting.black round seed) rounds.now ++ drop (length rounds.now) scores.old }
    ensures ants { ants.new ≡ ants_after setting.world setting.red setting.black seed rounds.now
        ++ drop (length rounds.now * setting.world.ids) ants.old }
{
    let Setting { world, red, black } = setting;
    let brains = Brains {
        red: &red,
        black: &black,
        sheet: Sheet::contest(),
    };
    let ids = world.ant_count() as usize;
    let mut game = GameAlone::begin(world, brains, seed);
    for index in 0..rounds.len() {
        game.play_on(rounds[index] - game.done());
        let score = game.world().score();
        scores[index] = AntsScore {
            red: score.red,
            black: score.black,
        };
        put_ants(game.world(), &mut ants[index * ids..(index + 1) * ids]);
    }
}
