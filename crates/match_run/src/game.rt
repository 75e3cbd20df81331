// A game that is played window by window.
ghost use Rattle.std.specs.Prelude.{◌≡◌, ◌-◌, ◌<◌, ◌≤◌, ◌^◌, ◌↔◌, IsTrue, OnOk, OnErr, true};
ghost use Rattle.match_run.specs.Game.{CanGoOn, IsGame, IsRoundPlayed, IsRoundRefused, beginning, counted_on, game_at_round};
ghost use Rattle.match_run.specs.Run.{most_rounds};

use crate::windows::play_windows;
use cell_world::World;
use dump_print::Totals;
use hex_geometry::OutOfMemory;
use round_book::{Crew, Field};
use std::alloc::Global;
use std::marker::Model;

/// A game that is played round by round, each round window by window, by any crew (the task's game play; windows are
/// this project's own). It has its field, which is whole, the number of turns in a window, the number of rounds done,
/// the next turn of the current round, and the counts of the turns so far.
#[derive(Drop)]
pub struct Game<'b> {
    field: Field<'b>,
    window: u32,
    first_place: u64,
    done: u32,
    next: u32,
    totals: Totals,
}

impl<'b> Model for Game<'b> {
    ghost use Rattle.match_run.specs.Game.{GameValue, IsGame};

    ghost Value = { GameValue };

    ghost view = { λ game. record {
      field = game.field;
      window = game.window;
      first_place = game.first_place;
      done = game.done;
      next = game.next;
      totals = game.totals;
    } };

    ghost invariant = { λ game. IsGame (record {
      field = game.field;
      window = game.window;
      first_place = game.first_place;
      done = game.done;
      next = game.next;
      totals = game.totals;
    }) };
}

impl<'b> Game<'b> {
    /// A game that begins on this field: no round is done, the next turn is that of id 0, and no turn is counted (the
    /// task's game play). The field is whole, its place is below 2^62, and a window has at least one turn. It takes no
    /// memory.
    pub fn begin(field: Field<'b>, window: u32) -> Game<'b>
        requires whole { field.whole ≡ true }
        requires place { field.place < 2 ^ 62 }
        requires sized { 1 ≤ window }
        ensures { result ≡ beginning field.entry window }
    {
        let first_place = field.place();
        Game {
            field,
            window,
            first_place,
            done: 0,
            next: 0,
            totals: Totals {
                turns: 0,
                taken: 0,
                redone: 0,
            },
        }
    }

    /// A game that began at place 0 and is at the end of a round. It continues from this field, and this number of
    /// rounds is done, with these turns. The field is whole; at most 1,000,000 rounds are done; they have one turn for
    /// each id and round, each taken or redone; and there were at least as many turns as random numbers drawn. It takes
    /// no memory.
    pub fn at_round(field: Field<'b>, window: u32, done: u32, totals: Totals) -> Game<'b>
        requires { CanGoOn field window done totals }
        ensures { result ≡ game_at_round field.entry window done totals }
    {
        Game {
            field,
            window,
            first_place: 0,
            done,
            next: 0,
            totals,
        }
    }

    /// Plays the current round to its end, window by window (the task's kinetics): the turns from the next one to that
    /// of the last id, in order. Fewer than 1,000,000 rounds are done. After Ok one more round is done, and the next
    /// turn is that of id 0.
    ///
    /// It fails only if memory runs out and the crew refuses a window. Then the turns before that window are played and
    /// counted, and no further round is done. The window's first turn is the next one, with which the next call
    /// continues. In both cases the crew's count of turns has risen as much as that of the totals, or is the largest
    /// `u64`.
    ///
    /// For a game of `Turn Left 0` that begins on the world of `3\n3\n###\n#+#\n###\n`, whose one ant faces direction
    /// 0, that ant faces direction 5 after a call that returns Ok, and direction 4 after the next one.
    pub fn round<C: Crew>(&mut self, alloc: Global, crew: &mut C) -> Result<(), OutOfMemory>
        requires ready { C.ready crew.old }
        requires few { self.old.done < most_rounds }
        ensures ready { C.ready crew.new }
        ensures played { OnOk result (IsRoundPlayed self.old self.new) }
        ensures refused { OnErr result (IsRoundRefused self.old self.new) }
        ensures turns { C.played crew.new ≡ counted_on (C.played crew.old) (self.new.totals.turns - self.old.totals.turns) }
    {
        let ids = self.field.world().ant_count();
        let progress = play_windows(
            alloc,
            crew,
            &mut self.field,
            self.window,
            self.next,
            self.totals,
        );
        self.totals = progress.totals;
        if progress.next < ids {
            self.next = progress.next;
            return Err(OutOfMemory);
        }
        self.next = 0;
        self.done += 1;
        Ok(())
    }

    /// The current world (the task's geography).
    pub fn world(&self) -> &World
        ensures { result.now ≡ self.now.field.world }
    {
        self.field.world()
    }

    /// The field, which is whole.
    pub fn field(&self) -> &Field<'b>
        ensures field { result.now ≡ self.now.field }
        ensures whole { self.now.field.whole ≡ true }
    {
        &self.field
    }

    /// How many rounds are done, at most 1,000,000 (the task's kinetics).
    pub fn done(&self) -> u32
        ensures done { result ≡ self.now.done }
        ensures few { self.now.done ≤ most_rounds }
    {
        self.done
    }

    /// How many turns a window has, at least one.
    pub fn window(&self) -> u32
        ensures window { result ≡ self.now.window }
        ensures sized { 1 ≤ self.now.window }
    {
        self.window
    }

    /// The counts of the turns so far: those of the rounds that are done and of the windows since, each taken or redone
    /// (this project's own).
    pub fn totals(&self) -> Totals
        ensures totals { result ≡ self.now.totals }
        ensures game { IsGame self.now }
    {
        self.totals
    }

    /// How many random numbers were drawn since the start of the stream (the task's random numbers).
    pub fn place(&self) -> u64
        ensures { result ≡ self.now.field.place }
    {
        self.field.place()
    }

    /// Whether no turn of the current round was played.
    pub fn at_round_end(&self) -> bool
        ensures { IsTrue result ↔ (self.now.next ≡ 0) }
    {
        self.next == 0
    }
}
