// A game played alone.
ghost use Rattle.std.specs.Prelude.{◌≡◌, ◌+◌, ◌*◌, ◌<◌, ◌≤◌};
ghost use Rattle.ant_turn.specs.Minds.{Fits, minds_of};
ghost use Rattle.cell_world.specs.Grid.{world_of};
ghost use Rattle.cell_world.specs.Limits.{most_ants};
ghost use Rattle.match_run.specs.Run.{most_rounds};
ghost use Rattle.match_run.specs.Alone.{IsPlayedOn, IsGameAlone};

use crate::watch::Nobody;
use crate::watched::watch_round;
use ant_random::Stream;
use ant_turn::Brains;
use cell_world::World;
use std::marker::Model;
use std::mem;

/// A game played alone, round after round and turn after turn (the task's game play): no look is made ahead, nothing is
/// counted, and it takes no memory. It has its world, its brains, its stream of random numbers, and the number of
/// rounds done.
#[derive(Drop)]
pub struct GameAlone<'b> {
    world: World,
    brains: Brains<'b>,
    stream: Stream,
    done: u32,
}

impl<'b> Model for GameAlone<'b> {
    ghost use Rattle.ant_turn.specs.Minds.{minds_of};
    ghost use Rattle.match_run.specs.Alone.{IsGameAlone, GameAloneValue};

    ghost Value = { GameAloneValue };

    ghost view = { λ game. record {
      world = game.world;
      minds = minds_of game.brains;
      seed = game.stream.seed;
      place = game.stream.place;
      done = game.done;
    } };

    ghost invariant = { λ game. IsGameAlone (record {
      world = game.world;
      minds = minds_of game.brains;
      seed = game.stream.seed;
      place = game.stream.place;
      done = game.done;
    }) };
}

impl<'b> GameAlone<'b> {
    /// A game that begins on a world, with the random numbers of a seed from place 0 on (the task's game play). Each
    /// ant's state is below the length of its colour's brain, as in every opening world.
    pub fn begin(world: World, brains: Brains<'b>, seed: u32) -> GameAlone<'b>
        requires fit { Fits (world_of world) (minds_of brains) }
        ensures { result ≡ record { world = world; minds = minds_of brains.entry; seed = seed; place = 0; done = 0 } }
    {
        GameAlone::at_round(world, brains, seed, 0, 0)
    }

    /// A game at the end of a round, with this world, this number of random numbers drawn from its seed, and this
    /// number of rounds done. Each ant's state is below the length of its colour's brain. At most 1,000,000 rounds are
    /// done, and in each of them each of 16,384 ids drew at most one number.
    pub fn at_round(
        world: World,
        brains: Brains<'b>,
        seed: u32,
        place: u64,
        done: u32,
    ) -> GameAlone<'b>
        requires fit { Fits (world_of world) (minds_of brains) }
        requires few { done ≤ most_rounds }
        requires place { place ≤ done * most_ants }
        ensures { result ≡ record { world = world; minds = minds_of brains.entry; seed = seed; place = place; done = done } }
    {
        GameAlone {
            world,
            brains,
            stream: Stream::at_place_uncounted(seed, place),
            done,
        }
    }

    /// Plays one round: a turn of each id in rising order (the task's kinetics). Fewer than 1,000,000 rounds are done.
    /// It takes no memory.
    #[inline(always)]
    pub fn round(&mut self)
        requires few { self.old.done < most_rounds }
        ensures { IsPlayedOn self.old self.new 1 }
    {
        // meanwhile the stream is in a place of its own, which no write to the world can reach, so that a turn keeps it
        // in registers
        let mut stream = mem::replace(&mut self.stream, Stream::from_seed(0));
        let _watched = watch_round(
            &Nobody,
            &mut self.world,
            &self.brains,
            &mut stream,
            self.done + 1,
            &mut (),
        );
        self.stream = stream;
        self.done += 1;
    }

    /// Plays this number of further rounds (the task's kinetics); with those that are done there are at most 1,000,000.
    /// It takes no memory.
    pub fn play_on(&mut self, rounds: u32)
        requires few { self.old.done + rounds ≤ most_rounds }
        ensures { IsPlayedOn self.old self.new rounds }
    {
        for _ in 0..rounds {
            self.round();
        }
    }

    /// The current world (the task's geography).
    #[inline]
    pub fn world(&self) -> &World
        ensures { result.now ≡ self.now.world }
    {
        &self.world
    }

    /// How many rounds are done, at most 1,000,000 (the task's kinetics).
    #[inline]
    pub fn done(&self) -> u32
        ensures done { result ≡ self.now.done }
        ensures game { IsGameAlone self.now }
    {
        self.done
    }
}
