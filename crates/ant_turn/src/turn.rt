// One turn of an ant.
ghost use Rattle.std.specs.Prelude.{◌≡◌, ◌+◌, ◌<◌, ◌≤◌, ◌^◌, ℕ, [], false, Some};
ghost use Rattle.cell_world.specs.Cell.{HasMarksOfSix, one_if};
ghost use Rattle.cell_world.specs.Valid.{Valid, CanThink};
ghost use Rattle.cell_world.specs.Inner.Replaces.{Replaces};
ghost use Rattle.cell_world.specs.World.{put, with_cells};
ghost use Rattle.brain_read.specs.Soundness.{IsSound};
ghost use Rattle.ant_turn.specs.Deaths.{dead_around, dead_by, dead_in, with_noted};
ghost use Rattle.ant_turn.specs.Minds.{Fits, minds_of};
ghost use Rattle.ant_turn.specs.Sheet.{sheet_of};
ghost use Rattle.ant_turn.specs.Inner.Stands.{StandsAt};
ghost use Rattle.ant_turn.specs.TakesTurn.{TakesTurn};
ghost use Rattle.ant_turn.specs.Turn as turn;

use crate::brains::Brains;
use crate::conditions::meets;
use crate::kill_log::{KillLog, NoKillLog};
use crate::kills::kill_around;
use crate::own_cell::{
    ant_after_branch, ant_after_rest, ant_after_turn, cell_after_arrival, cell_after_drop,
    cell_after_mark, cell_after_pick_up, cell_after_unmark, cell_without_ant, in_state, is_blocked,
};
use crate::sheet::Sheet;
use ant_random::Stream;
use arrayvec::ArrayVec;
use brain_read::Instr;
use cell_world::{Ant, Cell, Ground, PlacedAnt};
use hex_geometry::{Pos, adjacent, sensed};

/// What a turn did besides changing the ground (this project's own; the draw and the kills are those of the task's
/// number generation and martial arts).
#[derive(Drop)]
pub struct Deed {
    /// Whether a random number was drawn: true for each Flip, and for nothing else.
    pub drew: bool,
    /// The ids of the killed ants, counted from 0, in the order of the checks: at most 7, each once.
    pub killed: ArrayVec<u32, 7>,
}

// Nothing is drawn, and no ant is killed.
#[inline]
fn idle() -> Deed
    ensures drew { result.drew ≡ false }
    ensures killed { result.killed.items ≡ [] }
{
    Deed {
        drew: false,
        killed: ArrayVec::new(),
    }
}

// Replaces the own cell of an ant that stays.
#[inline]
fn stay<G: Ground>(ground: &mut G, p: Pos, cell: Cell) -> Deed
    requires valid { Valid (G.world ground.old) }
    requires clear { ((G.world ground.old).cells p).rocky ≡ false }
    requires replaces { Replaces ((G.world ground.old).cells p) cell }
    requires six { HasMarksOfSix cell }
    requires room { 1 ≤ G.room ground.old }
    ensures world { G.world ground.new ≡ put (G.world ground.old) p cell }
    ensures drew { result.drew ≡ false }
    ensures killed { result.killed.items ≡ [] }
    ensures room { G.room ground.old ≤ G.room ground.new + 1 }
    ensures valid { Valid (G.world ground.new) }
{
    ground.set(p, cell);
    idle()
}

// Gives the ant at `p` the state, the rest and the direction of this ant.
#[inline]
fn think<G: Ground>(ground: &mut G, p: Pos, ant: Ant) -> Deed
    requires { CanThink (G.world ground.old) (G.room ground.old) p ant }
    ensures world { G.world ground.new ≡ put (G.world ground.old) p (turn.with_ant ((G.world ground.old).cells p) ant) }
    ensures drew { result.drew ≡ false }
    ensures killed { result.killed.items ≡ [] }
    ensures room { G.room ground.old ≤ G.room ground.new + 1 }
    ensures valid { Valid (G.world ground.new) }
{
    ground.set_mind(p, ant);
    idle()
}

// Moves the ant from its place onto `q`, and checks for surrounded ants around `q`.
#[inline(always)]
fn step<G: Ground, N: KillLog>(
    ground: &mut G,
    sheet: Sheet,
    standing: PlacedAnt,
    q: Pos,
    there: &Cell,
    next: u16,
    notes: &mut N,
) -> Deed
    requires stands { StandsAt (G.world ground.old) standing.place ((G.world ground.old).cells standing.place) standing.ant }
    requires there { there.now ≡ (G.world ground.old).cells q }
    requires free { turn.is_blocked there.now ≡ false }
    requires room { 9 ≤ G.room ground.old }
    requires notes { 7 ≤ N.room notes.old }
    ensures world { G.world ground.new ≡ with_cells (G.world ground.old)
        (turn.checked (sheet_of sheet) (turn.stepped (sheet_of sheet) (G.world ground.old).cells standing.place standing.ant q next) q).cells }
    ensures drew { result.drew ≡ false }
    ensures killed { result.killed.items ≡ (turn.checked (sheet_of sheet) (turn.stepped (sheet_of sheet) (G.world ground.old).cells standing.place standing.ant q next) q).killed }
    ensures noted { N.noted notes.new ≡ with_noted (dead_around (sheet_of sheet) (turn.stepped (sheet_of sheet) (G.world ground.old).cells standing.place standing.ant q next) q) (N.noted notes.old) }
    ensures room { G.room ground.old ≤ G.room ground.new + 9 }
    ensures valid { Valid (G.world ground.new) }
{
    let (p, ant) = (standing.place, standing.ant);
    let cell = ground.cell_at(p);
    ground.set(p, cell_without_ant(&cell));
    ground.set(q, cell_after_arrival(sheet, there, ant, next));
    Deed {
        drew: false,
        killed: kill_around(ground, sheet, q, notes),
    }
}

// A Move of the ant.
#[inline(always)]
fn go<G: Ground, N: KillLog>(
    ground: &mut G,
    sheet: Sheet,
    standing: PlacedAnt,
    met: u16,
    unmet: u16,
    notes: &mut N,
) -> Deed
    requires stands { StandsAt (G.world ground.old) standing.place ((G.world ground.old).cells standing.place) standing.ant }
    requires room { 9 ≤ G.room ground.old }
    requires notes { 7 ≤ N.room notes.old }
    ensures world { (seed place : ℕ) → G.world ground.new ≡ with_cells (G.world ground.old)
        (turn.execute (sheet_of sheet) seed (G.world ground.old).cells place standing.place standing.ant (Instr.Move met unmet)).cells }
    ensures drew { result.drew ≡ false }
    ensures killed { (seed place : ℕ) → result.killed.items ≡ (turn.execute (sheet_of sheet) seed (G.world ground.old).cells place standing.place standing.ant (Instr.Move met unmet)).killed }
    ensures noted { N.noted notes.new ≡ with_noted (dead_by (sheet_of sheet) (G.world ground.old).cells standing.place standing.ant (Instr.Move met unmet)) (N.noted notes.old) }
    ensures room { G.room ground.old ≤ G.room ground.new + 9 }
    ensures valid { Valid (G.world ground.new) }
{
    let (p, ant) = (standing.place, standing.ant);
    let ahead = adjacent(p, ant.facing);
    let there = ground.cell_at(ahead);
    if is_blocked(&there) {
        return think(ground, p, in_state(ant, unmet));
    }
    step(ground, sheet, standing, ahead, &there, met, notes)
}

// Executes the instruction of the ant.
#[inline(always)]
fn execute<G: Ground>(
    ground: &mut G,
    sheet: Sheet,
    stream: &mut Stream,
    standing: PlacedAnt,
    instruction: &Instr,
) -> Deed
    requires stands { StandsAt (G.world ground.old) standing.place ((G.world ground.old).cells standing.place) standing.ant }
    requires sound { (states : ℕ) × IsSound states instruction.now }
    requires place { stream.old.place + 1 < 2 ^ 63 }
    requires room { 9 ≤ G.room ground.old }
    ensures world { G.world ground.new ≡ with_cells (G.world ground.old)
        (turn.execute (sheet_of sheet) stream.old.seed (G.world ground.old).cells stream.old.place standing.place standing.ant instruction.now).cells }
    ensures stream { stream.new ≡ record stream.old {
      place = stream.old.place + one_if (turn.execute (sheet_of sheet) stream.old.seed (G.world ground.old).cells stream.old.place standing.place standing.ant instruction.now).drew;
    } }
    ensures drew { result.drew ≡ (turn.execute (sheet_of sheet) stream.old.seed (G.world ground.old).cells stream.old.place standing.place standing.ant instruction.now).drew }
    ensures killed { result.killed.items ≡ (turn.execute (sheet_of sheet) stream.old.seed (G.world ground.old).cells stream.old.place standing.place standing.ant instruction.now).killed }
    ensures room { G.room ground.old ≤ G.room ground.new + 9 }
    ensures valid { Valid (G.world ground.new) }
{
    let (p, ant) = (standing.place, standing.ant);
    match *instruction {
        Instr::Sense {
            sight,
            yes,
            no,
            cond,
        } => {
            let sensed_cell = ground.cell_at(sensed(p, ant.facing, sight));
            let saw = meets(&sensed_cell, cond, ant.colour);
            think(ground, p, ant_after_branch(ant, saw, yes, no))
        }
        Instr::Mark { mark, next } => {
            let cell = ground.cell_at(p);
            stay(ground, p, cell_after_mark(&cell, ant, mark, next))
        }
        Instr::Unmark { mark, next } => {
            let cell = ground.cell_at(p);
            stay(ground, p, cell_after_unmark(&cell, ant, mark, next))
        }
        Instr::PickUp { yes, no } => {
            let cell = ground.cell_at(p);
            stay(ground, p, cell_after_pick_up(&cell, ant, yes, no))
        }
        Instr::Drop { next } => {
            let cell = ground.cell_at(p);
            stay(ground, p, cell_after_drop(&cell, ant, next))
        }
        Instr::Turn { side, next } => think(ground, p, ant_after_turn(ant, side, next)),
        Instr::Move { yes, no } => go(ground, sheet, standing, yes, no, &mut NoKillLog),
        Instr::Flip { bound, yes, no } => {
            let number = stream.draw(bound);
            Deed {
                drew: true,
                ..think(ground, p, ant_after_branch(ant, number == 0, yes, no))
            }
        }
    }
}

/// Takes the turn of an ant that was found at its place and doesn't rest: executes the instruction of its state (the
/// task's kinetics). `take_turn` does the same for an id.
#[inline(always)]
pub fn act<G: Ground>(
    ground: &mut G,
    brains: Brains<'_>,
    stream: &mut Stream,
    standing: PlacedAnt,
) -> Deed
    requires valid { Valid (G.world ground.old) }
    requires fit { Fits (G.world ground.old) (minds_of brains) }
    requires here { ((G.world ground.old).cells standing.place).ant ≡ Some standing.ant }
    requires up { standing.ant.resting ≡ 0 }
    requires place { stream.old.place + 1 < 2 ^ 63 }
    requires room { 9 ≤ G.room ground.old }
    ensures { TakesTurn (minds_of brains.entry) standing.ant.id (G.world ground.old) (G.world ground.new) (G.room ground.old) (G.room ground.new) stream.old stream.new result }
{
    let ant = standing.ant;
    let instruction = brains.of(ant.colour).instruction(ant.state);
    execute(ground, brains.sheet, stream, standing, instruction)
}

/// The same, and notes each killed ant in the order of the checks, with its position and as it was when it was killed.
/// The acting ant has moved to the cell ahead by then (the task's martial arts). `notes` has room for 7.
#[inline(always)]
pub fn take_turn_noting_kills<G: Ground, N: KillLog>(
    ground: &mut G,
    brains: Brains<'_>,
    stream: &mut Stream,
    standing: PlacedAnt,
    notes: &mut N,
) -> Deed
    requires valid { Valid (G.world ground.old) }
    requires fit { Fits (G.world ground.old) (minds_of brains) }
    requires here { ((G.world ground.old).cells standing.place).ant ≡ Some standing.ant }
    requires up { standing.ant.resting ≡ 0 }
    requires place { stream.old.place + 1 < 2 ^ 63 }
    requires room { 9 ≤ G.room ground.old }
    requires notes { 7 ≤ N.room notes.old }
    ensures taken { TakesTurn (minds_of brains.entry) standing.ant.id (G.world ground.old) (G.world ground.new) (G.room ground.old) (G.room ground.new) stream.old stream.new result }
    ensures noted { N.noted notes.new ≡ with_noted (dead_in (minds_of brains.entry) (G.world ground.old) standing.ant.id) (N.noted notes.old) }
{
    let ant = standing.ant;
    let instruction = brains.of(ant.colour).instruction(ant.state);
    match *instruction {
        Instr::Move { yes, no } => go(ground, brains.sheet, standing, yes, no, notes),
        _ => act(ground, brains, stream, standing),
    }
}

/// Takes the turn of the ant with this id (the task's kinetics). A dead ant does nothing. A resting ant rests one turn
/// less. Any other ant executes the instruction at its state in its colour's brain, by the rules with the numbers of
/// the brains' sheet.
///
/// The id is below the number of ids. Each ant's state is below the length of its colour's brain, and stays so. The
/// stream is below 2^63 - 1; it advances by one number if a Flip was executed, and not otherwise. The ground has room
/// for 9 cells. The result says what else was done.
#[inline(always)]
pub fn take_turn<G: Ground>(
    ground: &mut G,
    brains: Brains<'_>,
    stream: &mut Stream,
    id: u32,
) -> Deed
    requires fit { Fits (G.world ground.old) (minds_of brains) }
    requires id { id < (G.world ground.old).ids }
    requires place { stream.old.place + 1 < 2 ^ 63 }
    requires room { 9 ≤ G.room ground.old }
    ensures { TakesTurn (minds_of brains.entry) id (G.world ground.old) (G.world ground.new) (G.room ground.old) (G.room ground.new) stream.old stream.new result }
{
    let Some(standing) = ground.ant_of(id) else {
        return idle();
    };
    if standing.ant.resting > 0 {
        return think(ground, standing.place, ant_after_rest(standing.ant));
    }
    act(ground, brains, stream, standing)
}
