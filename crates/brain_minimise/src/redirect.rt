// Instructions with other successors.
ghost use Rattle.std.specs.Prelude.{◌≡◌, length, slice_index};
ghost use Rattle.brain_read.specs.Soundness.{IsSound};
ghost use Rattle.ant_turn.specs.Renumber as renumber;
ghost use Rattle.brain_minimise.specs.Inner.Successors.{first_next, last_next};

use brain_read::Instr;

// The instruction with each state that it names replaced by the table's entry for it. Its kind and its parameters are
// unchanged.
#[inline]
pub(crate) fn redirect(instruction: Instr, table: &[u16]) -> Instr
    requires { IsSound (length table.now) instruction }
    ensures { result ≡ renumber.redirected (slice_index table.now) instruction }
{
    match instruction {
        Instr::Sense {
            sight,
            yes,
            no,
            cond,
        } => Instr::Sense {
            sight,
            yes: table[yes as usize],
            no: table[no as usize],
            cond,
        },
        Instr::Mark { mark, next } => Instr::Mark {
            mark,
            next: table[next as usize],
        },
        Instr::Unmark { mark, next } => Instr::Unmark {
            mark,
            next: table[next as usize],
        },
        Instr::PickUp { yes, no } => Instr::PickUp {
            yes: table[yes as usize],
            no: table[no as usize],
        },
        Instr::Drop { next } => Instr::Drop {
            next: table[next as usize],
        },
        Instr::Turn { side, next } => Instr::Turn {
            side,
            next: table[next as usize],
        },
        Instr::Move { yes, no } => Instr::Move {
            yes: table[yes as usize],
            no: table[no as usize],
        },
        Instr::Flip { bound, yes, no } => Instr::Flip {
            bound,
            yes: table[yes as usize],
            no: table[no as usize],
        },
    }
}

// The first and the last state that it names; the same state twice if it names only one.
#[inline]
pub(crate) fn successors(instruction: Instr) -> (u16, u16)
    ensures { result ≡ (first_next instruction, last_next instruction) }
{
    match instruction {
        Instr::Sense { yes, no, .. } => (yes, no),
        Instr::Mark { next, .. } => (next, next),
        Instr::Unmark { next, .. } => (next, next),
        Instr::PickUp { yes, no } => (yes, no),
        Instr::Drop { next } => (next, next),
        Instr::Turn { next, .. } => (next, next),
        Instr::Move { yes, no } => (yes, no),
        Instr::Flip { yes, no, .. } => (yes, no),
    }
}
