// The jobs of workers that stay ready.
ghost use Rattle.std.specs.Prelude.{◌≡◌, ◌+◌, ◌-◌, ◌<◌, ◌≤◌, ◌^◌, ◌∷◌, [], ◌++◌, length, take, IfOk, OnOk};
ghost use Rattle.std.specs.Arc.{arc_value};
ghost use Rattle.std.specs.Vec.{vec_capacity, vec_len};
ghost use Rattle.std.specs.List.{AllByRecursion};
ghost use Rattle.ant_turn.specs.Minds.{Fits, minds_of};
ghost use Rattle.cell_world.specs.Grid.{world_of};
ghost use Rattle.spec_record.specs.Look.{look_of};
ghost use Rattle.far_crew.specs.Inner.Copies.{AreCopiesOf};
ghost use Rattle.far_crew.specs.Inner.Turns.{CanLookAt, job_on};
ghost use Rattle.far_crew.specs.Jobs.{IsLookOf, looks_of};

use crate::caller::Caller;
use crate::found::Found;
use crate::guesses::GuessedTurns;
use crate::kept::Copies;
use crate::own_brains::OwnBrains;
use ant_base::Gate;
use ant_random::Stream;
use ant_turn::Brains;
use cell_world::World;
use hex_geometry::OutOfMemory;
use round_book::Field;
use spec_record::{Look, look_into};
use std::alloc::Global;
use std::marker::Model;
use std::sync::Arc;

/// The turns at which a worker is to look, and all that it needs for that: the brains, the seed and the world of the
/// game, a guess for each turn, and room for the looks. Its brains fit its world, its turns are ids of the world, and a
/// number can be drawn at each guess.
#[derive(Drop)]
pub struct Job {
    minds: Arc<OwnBrains>,
    seed: u32,
    base: Arc<World>,
    from: u32,
    to: u32,
    guesses: Vec<u64>,
    room: Vec<Look>,
}

impl Model for Job {
    ghost use Rattle.std.specs.Prelude.{◌-◌, ◌≤◌, vec_capacity};
    ghost use Rattle.std.specs.Arc.{arc_value};
    ghost use Rattle.far_crew.specs.Jobs.{IsJob, JobValue};

    ghost Value = { JobValue };

    ghost view = { λ job. record {
      minds = arc_value job.minds;
      seed = job.seed;
      base = arc_value job.base;
      from = job.from;
      to = job.to;
      guesses = job.guesses.items;
    } };

    ghost invariant = { λ job. IsJob (record {
      minds = arc_value job.minds;
      seed = job.seed;
      base = arc_value job.base;
      from = job.from;
      to = job.to;
      guesses = job.guesses.items;
    }) × (job.to - job.from ≤ vec_capacity job.room) };
}

impl Job {
    /// The job of the turns of the ids from `from` up to, but not including, `to`, each at its guess, with shared
    /// brains and a shared world. The brains and the world are the field's, `from` is at most `to`, `to` is at most the
    /// number of ids, there are as many guesses as turns, and each is below 2^63 - 1. It fails only if memory runs out.
    pub fn of(
        alloc: Global,
        field: &Field<'_>,
        minds: Arc<OwnBrains>,
        base: Arc<World>,
        from: u32,
        to: u32,
        guesses: &[u64],
    ) -> Result<Job, OutOfMemory>
        requires minds { arc_value minds ≡ field.now.minds }
        requires base { arc_value base ≡ field.now.world }
        requires forwards { from ≤ to }
        requires ids { to ≤ field.now.world.ids }
        requires count { length guesses.now ≡ to - from }
        requires small { AllByRecursion (λ guess. guess + 1 < 2 ^ 63) guesses.now }
        ensures { IfOk result (λ job. job ≡ record {
          minds = field.now.minds;
          seed = field.now.seed;
          base = field.now.world;
          from = from;
          to = to;
          guesses = guesses.now;
        }) }
    {
        let copies = Copies { minds, base };
        let turns = GuessedTurns { from, to, guesses };
        Job::in_room(alloc, field, copies, &turns, Vec::new(alloc))
    }

    // The same job in the room of older looks.
    pub(crate) fn in_room(
        alloc: Global,
        field: &Field<'_>,
        copies: Copies,
        turns: &GuessedTurns<'_>,
        mut room: Vec<Look>,
    ) -> Result<Job, OutOfMemory>
        requires copies { AreCopiesOf field.now copies }
        requires turns { CanLookAt field.now.world turns.now }
        ensures { IfOk result (λ job. job ≡ job_on field.now.minds field.now.seed field.now.world turns.now) }
    {
        let GuessedTurns { from, to, guesses } = *turns;
        let Copies { minds, base } = copies;
        // Called for its clause: what holds of the field's world, so that a job can be made of it.
        let _fit = field.world();
        let guesses = Vec::from_slice(alloc, guesses)?;
        reserve(&mut room, (to - from) as usize)?;
        Ok(Job {
            minds,
            seed: field.seed(),
            base,
            from,
            to,
            guesses,
            room,
        })
    }

    /// The looks at all its turns, in order, on its own world, with its own brains and seed, each at its guess. The
    /// worker calls the gate with its number and the id before each. It takes no memory.
    pub fn work<G: Gate>(self, gate: &G, worker: u32) -> Found
        ensures minds { result.minds ≡ self.minds }
        ensures seed { result.seed ≡ self.seed }
        ensures base { result.base ≡ self.base }
        ensures looks { result.looks ≡ looks_of self (self.to - self.from) }
    {
        let Job {
            minds,
            seed,
            base,
            from,
            to,
            guesses,
            mut room,
        } = self;
        let turns = GuessedTurns {
            from,
            to,
            guesses: &guesses,
        };
        let caller = Caller { gate, worker };
        make_looks(&base, minds.lend(), seed, &turns, &mut room, &caller);
        room.truncate((to - from) as usize);
        Found::of(minds, seed, base, room)
    }
}

// Reserves room for this many looks.
fn reserve(room: &mut Vec<Look>, turns: usize) -> Result<(), OutOfMemory>
    ensures { OnOk result (turns ≤ vec_capacity room.new) }
{
    let more = turns.saturating_sub(room.len());
    room.reserve(more)?;
    Ok(())
}

// Makes the look at each of these turns at its guess, at the front of a list that has room for them.
fn make_looks<G: Gate>(
    base: &World,
    brains: Brains<'_>,
    seed: u32,
    turns: &GuessedTurns<'_>,
    looks: &mut Vec<Look>,
    caller: &Caller<'_, G>,
)
    requires fits { Fits (world_of base.now) (minds_of brains) }
    requires turns { CanLookAt base.now turns.now }
    requires room { turns.now.to - turns.now.from ≤ vec_capacity looks.old }
    ensures looks { take (turns.now.to - turns.now.from) looks.new.items ≡ looks_of (job_on (minds_of brains.entry) seed base.now turns.now) (turns.now.to - turns.now.from) }
    ensures each { AllByRecursion (IsLookOf (minds_of brains.entry) seed base.now) (take (turns.now.to - turns.now.from) looks.new.items) }
{
    let GuessedTurns { from, to, guesses } = *turns;
    let mut stream = Stream::from_seed(seed);
    for id in from..to {
        caller.before_look(id);
        let guess = guesses[(id - from) as usize];
        stream = stream_at(stream, guess);
        make_look(looks, (id - from) as usize, base, brains, &mut stream, id);
    }
}

// Makes the look at a turn by a stream at its guess, in the room with this number: that of an older look, or the first
// free one.
#[inline]
fn make_look(
    looks: &mut Vec<Look>,
    at: usize,
    base: &World,
    brains: Brains<'_>,
    stream: &mut Stream,
    id: u32,
)
    requires fits { Fits (world_of base.now) (minds_of brains) }
    requires id { id < base.now.ids }
    requires place { stream.old.place + 1 < 2 ^ 63 }
    requires next { at ≤ vec_len looks.old }
    requires room { at < vec_capacity looks.old }
    ensures made { take (at + 1) looks.new.items ≡ take at looks.old.items ++ look_of (minds_of brains.entry) stream.old.seed
        (world_of base.now) stream.old.place id ∷ [] }
    ensures seed { stream.new.seed ≡ stream.old.seed }
    ensures len { at + 1 ≤ vec_len looks.new }
    ensures capacity { vec_capacity looks.new ≡ vec_capacity looks.old }
{
    look_into(looks, at, base, brains, stream, id);
}

// A stream at a place: this one if it is there, and otherwise a new one of its seed, since moving it is slow.
#[inline]
fn stream_at(stream: Stream, place: u64) -> Stream
    requires { place < 2 ^ 63 }
    ensures place { result.place ≡ place }
    ensures seed { result.seed ≡ stream.seed }
{
    if stream.place() == place {
        return stream;
    }
    Stream::at_place_uncounted(stream.seed(), place)
}
