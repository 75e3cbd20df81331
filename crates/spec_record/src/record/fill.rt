// How a look is computed, in the room of another.
ghost use Rattle.std.specs.Prelude.{◌≡◌, ◌+◌, ◌-◌, ◌<◌, ◌≤◌, ◌^◌, ℕ, [], Some, None, length};
ghost use Rattle.hex_geometry.specs.Position.{HasNeighbours, IsInner, IsInside};
ghost use Rattle.cell_world.specs.Cell.{one_if};
ghost use Rattle.cell_world.specs.Grid.{world_of};
ghost use Rattle.cell_world.specs.Parts.{only};
ghost use Rattle.cell_world.specs.Valid.{Valid};
ghost use Rattle.cell_world.specs.World.{place_in, with_cells};
ghost use Rattle.brain_read.specs.Soundness.{IsSound};
ghost use Rattle.ant_turn.specs.Minds.{Fits, minds_of};
ghost use Rattle.ant_turn.specs.Sheet.{Sheet};
ghost use Rattle.ant_turn.specs.Turn as turn;
ghost use Rattle.spec_record.specs.Inner.Moves.{GoesTo, calm_reads, destination, fallen, going_reads, going_writes};
ghost use Rattle.spec_record.specs.Inner.Stays.{blank_look, rested_look, staying_reads, staying_writes};
ghost use Rattle.spec_record.specs.Claims.{EachOnce, seen_positions};
ghost use Rattle.spec_record.specs.Look.{look_of, look_with};
ghost use Rattle.spec_record.specs.Reads.{who_and_mind};
ghost use Rattle.spec_record.specs.Trail.{trail_world};

use crate::guess::instruction;
use crate::moves::{Step, are_none_of, note_checks, note_fallen, state_gone, whole_ant};
use crate::record::Look;
use crate::sightings::{Seen, note_alone, note_two, union};
use crate::stays::{destination, read_at, read_parts, written_besides};
use crate::trail::Trail;
use ant_random::Stream;
use ant_turn::{Brains, Deed, take_turn, turn_in_place};
use arrayvec::ArrayVec;
use brain_read::Instr;
use cell_world::{Ant, Cell, Part, Parts, World};
use hex_geometry::Pos;

// An ant that acts, and its cell.
#[derive(Clone, Copy)]
struct Actor<'c> {
    place: Pos,
    cell: &'c Cell,
    ant: &'c Ant,
}

impl Look {
    // A look in which nothing is recorded yet.
    #[inline]
    pub(crate) fn blank(turn: u32, guess: u64) -> Look
        ensures { result ≡ blank_look turn guess }
    {
        Look {
            turn,
            guess,
            drew: false,
            reads: ArrayVec::new(),
            writes: ArrayVec::new(),
            killed: ArrayVec::new(),
        }
    }

    /// Replaces this look by the one at the turn of the ant with this id in `base`; its random number is guessed to be
    /// at the place of the stream. It takes no memory, and uses the room of the old look.
    ///
    /// Each ant's state is below the length of its colour's brain, the id is below the number of ids, and the stream is
    /// below 2^63 - 1. The stream advances by one number if the turn draws one, so that looks at consecutive turns are
    /// made at their guesses.
    #[inline]
    pub fn renew(&mut self, base: &World, brains: Brains<'_>, stream: &mut Stream, id: u32)
        requires fit { Fits (world_of base.now) (minds_of brains) }
        requires id { id < base.now.ids }
        requires place { stream.old.place + 1 < 2 ^ 63 }
        ensures look { self.new ≡ look_of (minds_of brains.entry) stream.old.seed (world_of base.now) stream.old.place id }
        ensures stream { stream.new ≡ record stream.old { place = stream.old.place + one_if self.new.drew } }
    {
        let guess = stream.place();
        let Some(p) = base.ant_place(id) else {
            self.begin(id, guess);
            return;
        };
        let cell = base.cell(p);
        let Some(ant) = cell.ant else {
            self.begin(id, guess);
            return;
        };
        if ant.resting > 0 {
            self.record_rest(id, guess, p, &cell, ant);
        } else {
            let actor = Actor {
                place: p,
                cell: &cell,
                ant: &ant,
            };
            self.act(base, brains, stream, id, actor);
        }
    }

    // The same look, at this guess.
    #[inline]
    pub(crate) fn set_guess(&mut self, guess: u64)
        ensures { self.new ≡ record self.old { guess = guess } }
    {
        self.guess = guess;
    }

    // Forgets everything, and begins the look at this turn and guess.
    #[inline]
    fn begin(&mut self, turn: u32, guess: u64)
        ensures { self.new ≡ blank_look turn guess }
    {
        self.turn = turn;
        self.guess = guess;
        self.drew = false;
        self.reads.clear();
        self.writes.clear();
        self.killed.clear();
    }

    // Records the resting ant at `p`.
    #[inline]
    fn record_rest(&mut self, turn: u32, guess: u64, p: Pos, cell: &Cell, ant: Ant)
        requires rests { 1 ≤ ant.resting }
        ensures { self.new ≡ rested_look turn guess p cell.now (record ant { resting = ant.resting - 1 }) }
    {
        self.turn = turn;
        self.guess = guess;
        self.drew = false;
        self.killed.clear();
        let ant_after = Ant {
            resting: ant.resting - 1,
            ..ant
        };
        let cell_after = Cell {
            ant: Some(ant_after),
            ..*cell
        };
        note_alone(&mut self.reads, p, who_and_mind(), *cell);
        note_alone(&mut self.writes, p, mind(), cell_after);
    }

    // Records the acting ant, which executes its instruction.
    #[inline]
    fn act(
        &mut self,
        base: &World,
        brains: Brains<'_>,
        stream: &mut Stream,
        id: u32,
        actor: Actor<'_>,
    )
        requires fit { Fits (world_of base.now) (minds_of brains) }
        requires id { id < base.now.ids }
        requires place { stream.old.place + 1 < 2 ^ 63 }
        requires valid { Valid (world_of base.now) }

        // the actor is the ant with this id, at its place, and acts
        requires found { place_in (world_of base.now) id ≡ Some actor.place }
        requires own { actor.cell.now ≡ (world_of base.now).cells actor.place }
        requires holds { ((world_of base.now).cells actor.place).ant ≡ Some actor.ant.now }
        requires ready { actor.ant.now.resting ≡ 0 }

        // what was recorded before doesn't matter
        ensures look { self.new ≡ look_of (minds_of brains.entry) stream.old.seed (world_of base.now) stream.old.place id }
        ensures stream { stream.new ≡ record stream.old { place = stream.old.place + one_if self.new.drew } }
    {
        let instruction = instruction(brains, actor.ant);
        match destination(base, actor.place, actor.ant, instruction) {
            Some(to) => {
                let from = actor.place;
                self.go(base, brains, stream, id, Step { from, to });
            }
            None => self.stay(base, stream, id, actor, instruction),
        }
    }

    // Records the acting ant, which stays there and executes its instruction on its own cell.
    #[inline]
    fn stay(
        &mut self,
        base: &World,
        stream: &mut Stream,
        id: u32,
        actor: Actor<'_>,
        instruction: Instr,
    )
        requires place { stream.old.place + 1 < 2 ^ 63 }
        requires valid { Valid (world_of base.now) }

        // its cell isn't on the rim, so there is a cell on each side to sense
        requires inner { IsInner base.now.width base.now.height actor.place }
        requires near { HasNeighbours actor.place }
        requires own { actor.cell.now ≡ (world_of base.now).cells actor.place }

        // its instruction keeps it there
        requires sound { (states : ℕ) × IsSound states instruction }
        requires stays { destination (world_of base.now).cells actor.place actor.ant.now instruction ≡ None }
        requires reads_once { EachOnce (seen_positions (staying_reads (world_of base.now).cells actor.place actor.ant.now instruction)) }

        // it is the same for any sheet, since no ant dies if none moves
        ensures look { (sheet : Sheet) →
            let outcome = turn.execute sheet stream.old.seed (world_of base.now).cells stream.old.place actor.entry.place actor.entry.ant.now instruction in
            self.new ≡ look_with id stream.old.place outcome
            (staying_reads (world_of base.now).cells actor.entry.place actor.entry.ant.now instruction) (staying_writes outcome.cells actor.entry.place actor.entry.ant.now instruction) }
        ensures stream { stream.new ≡ record stream.old { place = stream.old.place + one_if self.new.drew } }
    {
        let guess = stream.place();
        let at = read_at(actor.place, actor.ant, instruction);
        let there = base.cell(at);
        let after = turn_in_place(actor.cell, &there, *actor.ant, instruction, stream);
        self.turn = id;
        self.guess = guess;
        self.drew = after.drew;
        self.killed.clear();
        let own = Seen {
            at: actor.place,
            parts: who_and_mind(),
            cell: actor.cell,
        };
        let other = Seen {
            at,
            parts: read_parts(actor.ant.colour, instruction),
            cell: &there,
        };
        note_two(&mut self.reads, own, other);
        let written = union(mind(), written_besides(actor.ant.colour, instruction));
        note_alone(&mut self.writes, actor.place, written, after.cell);
    }

    // Records the ant that makes this step. Few turns move, so this is a call. It reads the cell again, so that the
    // caller needn't pass its own.
    #[inline(never)]
    fn go(&mut self, base: &World, brains: Brains<'_>, stream: &mut Stream, id: u32, step: Step)
        requires fit { Fits (world_of base.now) (minds_of brains) }
        requires id { id < base.now.ids }
        requires place { stream.old.place + 1 < 2 ^ 63 }
        requires valid { Valid (world_of base.now) }
        requires goes { GoesTo (minds_of brains) (world_of base.now) id step.from step.to }
        ensures look { self.new ≡ look_of (minds_of brains.entry) stream.old.seed (world_of base.now) stream.old.place id }
        ensures stream { stream.new ≡ record stream.old { place = stream.old.place + one_if self.new.drew } }
    {
        self.begin(id, stream.place());
        let cell = base.cell(step.from);
        let Some(ant) = cell.ant else { unreachable!() };
        self.reads.push((step.from, whole_ant(), cell));
        note_checks(&mut self.reads, base, step.from, step.to);
        if !are_none_of(ant.colour.foe(), self.reads.as_slice()) {
            self.fight(base, brains, stream, id, step);
            return;
        }
        // no ant is near that the moving ant could help to kill, or that could kill an ant of its own colour
        let state = state_gone(instruction(brains, &ant));
        let resting = brains.sheet.rest();
        let there = base.cell(step.to);
        self.writes
            .push((step.from, whole_ant(), Cell { ant: None, ..cell }));
        self.writes.push((
            step.to,
            whole_ant(),
            Cell {
                ant: Some(Ant {
                    state,
                    resting,
                    ..ant
                }),
                ..there
            },
        ));
    }

    // The same if foes are near, which may be killed or kill: the ant takes its turn on a trail, and what it reads is
    // recorded, except of the killed. A trail is large, so this is a call.
    #[inline(never)]
    fn fight(&mut self, base: &World, brains: Brains<'_>, stream: &mut Stream, id: u32, step: Step)
        requires fit { Fits (world_of base.now) (minds_of brains) }
        requires id { id < base.now.ids }
        requires place { stream.old.place + 1 < 2 ^ 63 }
        requires valid { Valid (world_of base.now) }
        requires goes { GoesTo (minds_of brains) (world_of base.now) id step.from step.to }
        requires begun { self.old ≡ record (blank_look id stream.old.place) { reads = calm_reads (world_of base.now).cells step.from step.to } }
        ensures look { self.new ≡ look_of (minds_of brains.entry) stream.old.seed (world_of base.now) stream.old.place id }
        ensures stream { stream.new ≡ record stream.old { place = stream.old.place + one_if self.new.drew } }
    {
        let trail = self.execute(base, brains, stream, id);
        self.record_fight(base, &trail, step);
    }

    // Executes the turn of this id on a trail, and records whether it draws and which ants it kills.
    #[inline]
    fn execute<'w>(
        &mut self,
        base: &'w World,
        brains: Brains<'_>,
        stream: &mut Stream,
        id: u32,
    ) -> Trail<'w>
        requires fit { Fits (world_of base.now) (minds_of brains) }
        requires id { id < base.now.ids }
        requires place { stream.old.place + 1 < 2 ^ 63 }
        ensures look { self.new ≡ record self.old {
          drew = (turn.turn (minds_of brains.entry) stream.old.seed (world_of base.now) stream.old.place id).drew;
          killed = (turn.turn (minds_of brains.entry) stream.old.seed (world_of base.now) stream.old.place id).killed;
        } }
        ensures world { trail_world result ≡ with_cells (world_of base.now)
            (turn.turn (minds_of brains.entry) stream.old.seed (world_of base.now) stream.old.place id).cells }
        ensures stream { stream.new ≡ record stream.old {
          place = stream.old.place + one_if (turn.turn (minds_of brains.entry) stream.old.seed (world_of base.now) stream.old.place id).drew;
        } }
    {
        let mut trail = Trail::over(base);
        let Deed { drew, killed } = take_turn(&mut trail, brains, stream, id);
        self.drew = drew;
        self.killed = killed;
        trail
    }

    // Records what the ant that makes this step writes, and what it reads of the killed, from a trail on which its turn
    // was executed.
    #[inline]
    fn record_fight(&mut self, base: &World, trail: &Trail<'_>, step: Step)
        requires reads { self.old.reads ≡ calm_reads (world_of base.now).cells step.from step.to }
        requires writes { self.old.writes ≡ [] }

        // both cells are in both worlds
        requires inside { IsInside base.now.width base.now.height step.from }
        requires inner { IsInner base.now.width base.now.height step.to }
        requires near { HasNeighbours step.to }
        requires wide { (trail_world trail.now).width ≡ base.now.width }
        requires high { (trail_world trail.now).height ≡ base.now.height }

        // there is room for all that is noted, each position once
        requires reads_room { length (going_reads (world_of base.now).cells (trail_world trail.now).cells step.from step.to) ≤ 19 }
        requires reads_once { EachOnce (seen_positions (going_reads (world_of base.now).cells (trail_world trail.now).cells step.from step.to)) }
        requires writes_once { EachOnce (seen_positions (going_writes (world_of base.now).cells (trail_world trail.now).cells step.from step.to)) }
        requires writes_room { length (going_writes (world_of base.now).cells (trail_world trail.now).cells step.from step.to) ≤ 7 }

        // if no ant is killed, none is searched for
        requires spared { self.old.killed ≡ [] → fallen (world_of base.now).cells (trail_world trail.now).cells step.from step.to ≡ [] }

        // the turn, its draw and the killed were recorded before
        ensures { self.new ≡ record self.old {
          reads = going_reads (world_of base.now).cells (trail_world trail.now).cells step.from step.to;
          writes = going_writes (world_of base.now).cells (trail_world trail.now).cells step.from step.to;
        } }
    {
        self.writes
            .push((step.from, whole_ant(), trail.cell(step.from)));
        self.writes
            .push((step.to, whole_ant(), trail.cell(step.to)));
        if !self.killed.is_empty() {
            note_fallen(&mut self.reads, &mut self.writes, base, trail, step);
        }
    }
}

// Which ant is there, and its state, rest and direction.
#[inline]
fn who_and_mind() -> Parts
    ensures { result ≡ who_and_mind }
{
    Parts::none().with(Part::Who).with(Part::Mind)
}

// An ant's state, rest and direction.
#[inline]
fn mind() -> Parts
    ensures { result ≡ only Part.Mind }
{
    Parts::none().with(Part::Mind)
}
