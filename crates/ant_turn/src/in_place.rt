// The turn of an ant that stays where it is.
ghost use Rattle.std.specs.Prelude.{◌≡◌, ℕ, ◌+◌, ◌<◌, ◌≤◌, ◌^◌, [], false};
ghost use Rattle.hex_geometry.specs.declared.position.Pos.{Pos};
ghost use Rattle.cell_world.specs.Cell.{one_if};
ghost use Rattle.cell_world.specs.Limits.{most_weight};
ghost use Rattle.cell_world.specs.World.{Cells, put_cell};
ghost use Rattle.brain_read.specs.Soundness.{IsSound};
ghost use Rattle.ant_turn.specs.InPlace.{StaysSeeing};
ghost use Rattle.ant_turn.specs.Sheet.{Sheet};
ghost use Rattle.ant_turn.specs.Turn as turn;

use crate::conditions::meets;
use crate::own_cell::{
    ant_after_branch, ant_after_turn, cell_after_drop, cell_after_mark, cell_after_pick_up,
    cell_after_unmark, in_state, with_ant,
};
use ant_random::Stream;
use brain_read::Instr;
use cell_world::{Ant, Cell};

/// How the turn of an ant that doesn't move changes its own cell (the task's kinetics; the struct is this project's
/// own).
#[derive(Clone, Copy)]
pub struct InPlace {
    /// The cell after the turn, with the ant.
    pub cell: Cell,
    /// Whether a random number was drawn: true for each Flip, and for nothing else.
    pub drew: bool,
}

// A cell after a turn that drew nothing.
#[inline]
fn undrawn(cell: Cell) -> InPlace
    ensures cell { result.cell ≡ cell }
    ensures drew { result.drew ≡ false }
{
    InPlace { cell, drew: false }
}

/// Executes the instruction of an ant that doesn't move, on its own cell (the task's kinetics). For a Move onto a
/// blocked cell, that only changes the state; for any other instruction it is the whole effect. Wherever the ant is and
/// whatever the other cells are, the instruction replaces its cell by the returned one. Nothing else changes, and no
/// ant is killed.
///
/// `own` is the ant's cell, with food as on a cell of a world. `seen` is the cell that the ant senses, if the
/// instruction is a Sense; otherwise it may be any cell. The instruction is sound. The stream is below 2^63 - 1; it
/// advances by one number if the instruction is a Flip, and not otherwise.
#[inline]
pub fn turn_in_place(
    own: &Cell,
    seen: &Cell,
    ant: Ant,
    instruction: Instr,
    stream: &mut Stream,
) -> InPlace
    requires light { own.now.food ≤ most_weight }
    requires sound { (states : ℕ) × IsSound states instruction }
    requires place { stream.old.place + 1 < 2 ^ 63 }
    ensures outcome { (sheet : Sheet) (cells : Cells) (p : Pos) → own.now ≡ cells p → StaysSeeing cells p ant seen.now instruction →
        turn.execute sheet stream.old.seed cells stream.old.place p ant instruction ≡ record { cells = put_cell cells p result.cell; drew = result.drew; killed = [] } }
    ensures stream { stream.new ≡ record stream.old { place = stream.old.place + one_if result.drew } }
{
    match instruction {
        Instr::Sense { yes, no, cond, .. } => {
            let saw = meets(seen, cond, ant.colour);
            undrawn(with_ant(own, ant_after_branch(ant, saw, yes, no)))
        }
        Instr::Mark { mark, next } => undrawn(cell_after_mark(own, ant, mark, next)),
        Instr::Unmark { mark, next } => undrawn(cell_after_unmark(own, ant, mark, next)),
        Instr::PickUp { yes, no } => undrawn(cell_after_pick_up(own, ant, yes, no)),
        Instr::Drop { next } => undrawn(cell_after_drop(own, ant, next)),
        Instr::Turn { side, next } => undrawn(with_ant(own, ant_after_turn(ant, side, next))),
        Instr::Move { no, .. } => undrawn(with_ant(own, in_state(ant, no))),
        Instr::Flip { bound, yes, no } => {
            let number = stream.draw(bound);
            InPlace {
                cell: with_ant(own, ant_after_branch(ant, number == 0, yes, no)),
                drew: true,
            }
        }
    }
}
