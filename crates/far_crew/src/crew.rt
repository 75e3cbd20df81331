// The crew of workers that stay ready.
ghost use Rattle.std.specs.Prelude.{◌≡◌, ◌+◌, ◌-◌, ◌≤◌, ◌^◌, min, IfOk, OnOk, OnErr};
ghost use Rattle.round_book.specs.Book.{CanBegin, IsPlayed, window_of};
ghost use Rattle.round_book.specs.Counts.{counts_of};
ghost use Rattle.far_crew.specs.Crews.{IsUnstarted, turns_of};
ghost use Rattle.far_crew.specs.Inner.Turns.{AreTurnsOf, window_on};

use crate::caller::Caller;
use crate::channels::WorkerChannels;
use crate::deal::prepare_all;
use crate::guesses::{GuessedTurns, guesses_in};
use crate::kept::{Copies, brains_in, world_in};
use crate::own_brains::OwnBrains;
use crate::pick::{Pick, choose, take_room};
use crate::settle::settle;
use ant_base::Gate;
use cell_world::World;
use hex_geometry::OutOfMemory;
use round_book::{Counts, Field};
use spec_record::Look;
use std::alloc::Global;
use std::sync::{Arc, Wait};

/// A crew whose workers stay ready over all windows of a game. Each gets jobs and sends answers by two channels of its
/// own. Nothing is assumed about what a channel delivers, since each look of an answer is checked against the field
/// before it is used. The crew keeps its copies of the world and the brains, and the rooms of looks, from one window to
/// the next.
#[derive(Drop)]
pub struct FarCrew<'c, R: Wait, G: Gate> {
    rt: &'c R,
    caller: Caller<'c, G>,
    lines: Vec<WorkerChannels>,
    base: Option<Arc<World>>,
    minds: Option<Arc<OwnBrains>>,
    picks: Vec<Option<Pick>>,
    own: Vec<Look>,
    turns: u64,
}

impl<'c, R: Wait, G: Gate> FarCrew<'c, R, G> {
    // A crew of the workers of these lines, out of the requested number, which has played no turn yet.
    pub(crate) fn of(
        rt: &'c R,
        alloc: Global,
        gate: &'c G,
        workers: u32,
        lines: Vec<WorkerChannels>,
    ) -> FarCrew<'c, R, G>
        ensures lines { result.lines ≡ lines }
        ensures caller { result.caller.worker ≡ workers }
        ensures turns { turns_of result ≡ 0 }
    {
        FarCrew {
            rt,
            caller: Caller {
                gate,
                worker: workers,
            },
            lines,
            base: None,
            minds: None,
            picks: Vec::new(alloc),
            own: Vec::new(alloc),
            turns: 0,
        }
    }

    /// A crew of this number of workers, 1 to 16, none of which was started, as if the system refused each start. No
    /// worker gets a job, and the caller's thread looks at each turn. It has played no turn yet.
    pub fn unstarted(rt: &'c R, alloc: Global, gate: &'c G, workers: u32) -> FarCrew<'c, R, G>
        requires workers { (1 ≤ workers) × (workers ≤ 16) }
        ensures { IsUnstarted workers result }
    {
        FarCrew::of(rt, alloc, gate, workers, Vec::new(alloc))
    }

    /// How many turns the crew has played, from 0; it stays at the largest `u64`, 2^64 - 1.
    #[inline]
    pub fn turns(&self) -> u64
        ensures { result ≡ turns_of self.now }
    {
        self.turns
    }

    /// Plays the turns of the ids from `from` up to, but not including, `to`. The field is whole, `from` is at most
    /// `to`, `to` is at most the number of ids, and the place plus the number of turns is below 2^63. Afterwards the
    /// field is whole, and its world and place are those after the turns in order. The result counts the looks that
    /// were used and the turns that were executed again. It fails only if memory runs out; the field and the count of
    /// turns are then unchanged. All memory except the book's is taken before the first job is sent.
    ///
    /// Each worker that was started and whose channels are open gets a job, and the call waits for one answer from it.
    /// If no look at a turn agrees with the field, the caller's thread looks at it, and calls the gate with the number
    /// of workers as its own.
    pub fn window(
        &mut self,
        alloc: Global,
        field: &mut Field<'_>,
        from: u32,
        to: u32,
    ) -> Result<Counts, OutOfMemory>
        requires window { CanBegin field.old from to }
        ensures played { OnOk result (IsPlayed field.old from to field.new) }
        ensures counts { IfOk result (λ counts. counts ≡ counts_of (window_of field.old from to)) }
        ensures turns { OnOk result (turns_of self.new ≡ min (turns_of self.old + (to - from)) (2 ^ 64 - 1)) }
        ensures unchanged { OnErr result (field.new ≡ field.old) }
        ensures as_before { OnErr result (turns_of self.new ≡ turns_of self.old) }
    {
        let guesses = guesses_in(alloc, field, from, to)?;
        let turns = GuessedTurns {
            from,
            to,
            guesses: &guesses,
        };
        let counts = self.play(alloc, field, &turns)?;
        self.turns = self.turns.saturating_add(u64::from(to - from));
        Ok(counts)
    }

    // Plays the turns of a window. It doesn't count them.
    fn play(
        &mut self,
        alloc: Global,
        field: &mut Field<'_>,
        turns: &GuessedTurns<'_>,
    ) -> Result<Counts, OutOfMemory>
        requires { AreTurnsOf field.old turns.now }
        ensures played { OnOk result (IsPlayed field.old turns.now.from turns.now.to field.new) }
        ensures counts { IfOk result (λ counts. counts ≡ counts_of (window_on field.old turns.now)) }
        ensures unchanged { OnErr result (field.new ≡ field.old) }
        ensures turns { turns_of self.new ≡ turns_of self.old }
    {
        self.prepare(alloc, field, turns)?;
        take_room(
            &mut self.picks,
            &mut self.own,
            (turns.to - turns.from) as usize,
        )?;
        ask_all(self.rt, &mut self.lines);
        take_in_all(self.rt, &mut self.lines);
        choose(
            &self.caller,
            field,
            &self.lines,
            turns,
            &mut self.picks,
            &mut self.own,
        );
        let mut book = field.begin(alloc, turns.from, turns.to)?;
        settle(&mut book, field, &self.lines, &self.own, &self.picks, turns);
        Ok(field.finish(book))
    }

    // Makes a job ready for each worker.
    fn prepare(
        &mut self,
        alloc: Global,
        field: &Field<'_>,
        turns: &GuessedTurns<'_>,
    ) -> Result<(), OutOfMemory>
        requires { AreTurnsOf field.now turns.now }
        ensures { turns_of self.new ≡ turns_of self.old }
    {
        clear_all(&mut self.lines);
        let base = world_in(alloc, self.base.take(), field.world())?;
        let minds = brains_in(alloc, self.minds.take(), field.brains())?;
        let copies = Copies { minds, base };
        let prepared = prepare_all(alloc, &mut self.lines, field, &copies, turns);
        let Copies { minds, base } = copies;
        self.base = Some(base);
        self.minds = Some(minds);
        prepared
    }
}

// Gives back what the last window shared with each line.
fn clear_all(lines: &mut [WorkerChannels]) {
    for line in lines {
        line.clear();
    }
}

// Sends each line its job.
fn ask_all<R: Wait>(rt: &R, lines: &mut [WorkerChannels]) {
    for line in lines {
        line.ask(rt);
    }
}

// Receives an answer from each line that was sent a job.
fn take_in_all<R: Wait>(rt: &R, lines: &mut [WorkerChannels]) {
    for line in lines {
        line.take_in(rt);
    }
}
