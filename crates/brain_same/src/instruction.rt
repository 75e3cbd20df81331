// An instruction without the states that it names, and the state to which an answer leads.
ghost use Rattle.std.specs.Prelude.{◌≡◌, Some, false, true};
ghost use Rattle.brain_minimise.specs.Equivalence.{shape_of};
ghost use Rattle.brain_same.specs.Answers.{next_by};

use brain_read::Instr;

// The instruction with state 0 instead of each state that it names.
#[inline]
pub(crate) fn shape(instruction: Instr) -> Instr
    ensures { result ≡ shape_of instruction }
{
    match instruction {
        Instr::Sense { sight, cond, .. } => Instr::Sense {
            sight,
            yes: 0,
            no: 0,
            cond,
        },
        Instr::Mark { mark, .. } => Instr::Mark { mark, next: 0 },
        Instr::Unmark { mark, .. } => Instr::Unmark { mark, next: 0 },
        Instr::PickUp { .. } => Instr::PickUp { yes: 0, no: 0 },
        Instr::Drop { .. } => Instr::Drop { next: 0 },
        Instr::Turn { side, .. } => Instr::Turn { side, next: 0 },
        Instr::Move { .. } => Instr::Move { yes: 0, no: 0 },
        Instr::Flip { bound, .. } => Instr::Flip {
            bound,
            yes: 0,
            no: 0,
        },
    }
}

// The state to which an answer leads: met leads to the first state that the instruction names, and unmet to the second,
// if it names two.
#[inline]
pub(crate) fn next(instruction: Instr, met: bool) -> Option<u16>
    ensures { result ≡ next_by instruction met }
{
    if met {
        Some(first_next(instruction))
    } else {
        second_next(instruction)
    }
}

fn first_next(instruction: Instr) -> u16
    ensures { next_by instruction true ≡ Some result }
{
    match instruction {
        Instr::Sense { yes, .. } => yes,
        Instr::Mark { next, .. } => next,
        Instr::Unmark { next, .. } => next,
        Instr::PickUp { yes, .. } => yes,
        Instr::Drop { next } => next,
        Instr::Turn { next, .. } => next,
        Instr::Move { yes, .. } => yes,
        Instr::Flip { yes, .. } => yes,
    }
}

fn second_next(instruction: Instr) -> Option<u16>
    ensures { result ≡ next_by instruction false }
{
    match instruction {
        Instr::Sense { no, .. } => Some(no),
        Instr::Mark { .. } => None,
        Instr::Unmark { .. } => None,
        Instr::PickUp { no, .. } => Some(no),
        Instr::Drop { .. } => None,
        Instr::Turn { .. } => None,
        Instr::Move { no, .. } => Some(no),
        Instr::Flip { no, .. } => Some(no),
    }
}
