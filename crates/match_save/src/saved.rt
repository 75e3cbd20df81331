// A save: a game between two rounds, with everything that is needed to continue it.
ghost use Rattle.std.specs.Prelude.{◌≡◌, ◌*◌, ◌<◌, ◌≤◌};
ghost use Rattle.ant_turn.specs.Minds.{minds_of};
ghost use Rattle.match_save.specs.Inner.Made.{made_saved};
ghost use Rattle.match_save.specs.Saved.{IsSaved, head_of};

use crate::head::Head;
use ant_turn::{Brains, Sheet};
use brain_read::Brain;
use cell_world::World;
use dump_print::Totals;
use std::marker::Model;

/// A save (this project's own): a game at the end of a round, which began at place 0 of its stream, with everything
/// that is needed to continue it: its seed, its window, the round, the place, the counts of the turns, both brains with
/// their sheet, and the world.
///
/// At most 1,000,000 rounds are done; a window has from 1 to 16,384 turns; the world has as many ids as hill cells;
/// every ant fits its brain; the number of turns is that of the ids times the rounds, and no more random numbers were
/// drawn.
#[derive(Drop)]
pub struct Saved {
    seed: u32,
    window: u32,
    round: u32,
    place: u64,
    totals: Totals,
    sheet: Sheet,
    red: Brain,
    black: Brain,
    world: World,
}

impl Model for Saved {
    ghost use Rattle.ant_turn.specs.Sheet.{sheet_of};
    ghost use Rattle.match_save.specs.Saved.{IsSaved, SavedValue};

    ghost Value = { SavedValue };

    ghost view = { λ it. record {
      seed = it.seed;
      window = it.window;
      round = it.round;
      place = it.place;
      totals = it.totals;
      minds = record { red = it.red; black = it.black; sheet = sheet_of it.sheet };
      world = it.world;
    } };

    ghost invariant = { λ it. IsSaved (record {
      seed = it.seed;
      window = it.window;
      round = it.round;
      place = it.place;
      totals = it.totals;
      minds = record { red = it.red; black = it.black; sheet = sheet_of it.sheet };
      world = it.world;
    }) };
}

impl Saved {
    // The save of these numbers, brains and world.
    pub(crate) fn of(head: Head, red: Brain, black: Brain, world: World) -> Saved
        requires enough { 4 ≤ head.surround }
        requires at_most_all { head.surround ≤ 6 }
        requires light { head.corpse ≤ 9 }
        requires few { head.round ≤ 1000000 }
        requires saved { IsSaved (made_saved head red black world) }
        ensures { result ≡ made_saved head red black world }
    {
        let turns = u64::from(world.ant_count()) * u64::from(head.round);
        Saved {
            seed: head.seed,
            window: head.window,
            round: head.round,
            place: head.place,
            totals: Totals {
                turns,
                taken: head.taken,
                redone: head.redone,
            },
            sheet: Sheet::new(head.surround, head.corpse, head.rest),
            red,
            black,
            world,
        }
    }

    /// How many rounds are done, at most 1,000,000 (this project's own).
    pub fn round(&self) -> u32
        ensures round { result ≡ self.now.round }
        ensures saved { IsSaved self.now }
    {
        self.round
    }

    // The numbers of the first eight lines.
    pub(crate) fn head(&self) -> Head
        ensures { result ≡ head_of self.now }
    {
        Head {
            seed: self.seed,
            surround: self.sheet.surround(),
            corpse: self.sheet.corpse(),
            rest: self.sheet.rest(),
            window: self.window,
            round: self.round,
            place: self.place,
            taken: self.totals.taken,
            redone: self.totals.redone,
            width: self.world.width(),
            height: self.world.height(),
        }
    }

    // The world.
    pub(crate) fn world(&self) -> &World
        ensures world { result.now ≡ self.now.world }
        ensures saved { IsSaved self.now }
    {
        &self.world
    }

    // Both brains, with their sheet.
    pub(crate) fn brains(&self) -> Brains<'_>
        ensures { minds_of result ≡ self.now.minds }
    {
        Brains {
            red: &self.red,
            black: &self.black,
            sheet: self.sheet,
        }
    }

    // The seed of the random numbers.
    pub(crate) fn seed(&self) -> u32
        ensures { result ≡ self.now.seed }
    {
        self.seed
    }

    // How many random numbers were drawn.
    pub(crate) fn place(&self) -> u64
        ensures { result ≡ self.now.place }
    {
        self.place
    }

    // How many turns a window has.
    pub(crate) fn window(&self) -> u32
        ensures { result ≡ self.now.window }
    {
        self.window
    }

    // The counts of the turns.
    pub(crate) fn totals(&self) -> Totals
        ensures { result ≡ self.now.totals }
    {
        self.totals
    }
}
