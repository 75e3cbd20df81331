// Instructions as they are read, before their states are checked.
ghost use Rattle.std.specs.Prelude.{◌≡◌, ◌≤◌, nat_lt, if◌then◌else◌};

use crate::instr::{Cond, Instr};
use hex_geometry::{Side, Sight};

/// An instruction before its states are checked against the number of instructions. States may be of any size. If it
/// was read from a text, markers are from 0 to 5 and bounds are at least 1 (the task's neurology).
#[derive(Clone, Copy, Debug, PartialEq, Eq)]
pub enum Draft {
    /// As [`Instr::Sense`].
    Sense {
        sight: Sight,
        yes: u64,
        no: u64,
        cond: Cond,
    },
    /// As [`Instr::Mark`].
    Mark {
        mark: u8,
        next: u64,
    },
    /// As [`Instr::Unmark`].
    Unmark {
        mark: u8,
        next: u64,
    },
    /// As [`Instr::PickUp`].
    PickUp {
        yes: u64,
        no: u64,
    },
    /// As [`Instr::Drop`].
    Drop {
        next: u64,
    },
    /// As [`Instr::Turn`].
    Turn {
        side: Side,
        next: u64,
    },
    /// As [`Instr::Move`].
    Move {
        yes: u64,
        no: u64,
    },
    /// As [`Instr::Flip`].
    Flip {
        bound: u32,
        yes: u64,
        no: u64,
    },
}

impl Draft {
    ghost use Rattle.brain_read.specs.Drafts.{drafted, draft_settled};

    /// An instruction as a draft (the task's neurology).
    pub fn of(instruction: Instr) -> Draft
        ensures { drafted result ≡ instruction }
    {
        match instruction {
            Instr::Sense {
                sight,
                yes,
                no,
                cond,
            } => Draft::Sense {
                sight,
                yes: u64::from(yes),
                no: u64::from(no),
                cond,
            },
            Instr::Mark { mark, next } => Draft::Mark {
                mark,
                next: u64::from(next),
            },
            Instr::Unmark { mark, next } => Draft::Unmark {
                mark,
                next: u64::from(next),
            },
            Instr::PickUp { yes, no } => Draft::PickUp {
                yes: u64::from(yes),
                no: u64::from(no),
            },
            Instr::Drop { next } => Draft::Drop {
                next: u64::from(next),
            },
            Instr::Turn { side, next } => Draft::Turn {
                side,
                next: u64::from(next),
            },
            Instr::Move { yes, no } => Draft::Move {
                yes: u64::from(yes),
                no: u64::from(no),
            },
            Instr::Flip { bound, yes, no } => Draft::Flip {
                bound,
                yes: u64::from(yes),
                no: u64::from(no),
            },
        }
    }

    /// The instruction of a brain with this number of states, at most 65,536. If it names a state that isn't below that
    /// number, the error is the first such state in the order of its line (the task's neurology).
    pub fn settle(self, states: u64) -> Result<Instr, u64>
        requires { states ≤ 65536 }
        ensures { result ≡ draft_settled states (drafted self) }
    {
        match self {
            Draft::Sense {
                sight,
                yes,
                no,
                cond,
            } => {
                let yes = state_below(yes, states)?;
                let no = state_below(no, states)?;
                Ok(Instr::Sense {
                    sight,
                    yes,
                    no,
                    cond,
                })
            }
            Draft::Mark { mark, next } => {
                let next = state_below(next, states)?;
                Ok(Instr::Mark { mark, next })
            }
            Draft::Unmark { mark, next } => {
                let next = state_below(next, states)?;
                Ok(Instr::Unmark { mark, next })
            }
            Draft::PickUp { yes, no } => {
                let yes = state_below(yes, states)?;
                let no = state_below(no, states)?;
                Ok(Instr::PickUp { yes, no })
            }
            Draft::Drop { next } => {
                let next = state_below(next, states)?;
                Ok(Instr::Drop { next })
            }
            Draft::Turn { side, next } => {
                let next = state_below(next, states)?;
                Ok(Instr::Turn { side, next })
            }
            Draft::Move { yes, no } => {
                let yes = state_below(yes, states)?;
                let no = state_below(no, states)?;
                Ok(Instr::Move { yes, no })
            }
            Draft::Flip { bound, yes, no } => {
                let yes = state_below(yes, states)?;
                let no = state_below(no, states)?;
                Ok(Instr::Flip { bound, yes, no })
            }
        }
    }
}

// A state, if it is below the number of states; otherwise the state as the error.
fn state_below(state: u64, states: u64) -> Result<u16, u64>
    requires { states ≤ 65536 }
    ensures { result ≡ (if nat_lt state states then Ok state else Err state) }
{
    if state < states {
        Ok(state as u16)
    } else {
        Err(state)
    }
}
