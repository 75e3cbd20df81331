// Whether two instructions are equal.
ghost use Rattle.std.specs.Prelude.{◌≡◌, ◌↔◌, IsTrue};

use crate::instr::{Cond, Instr};
use hex_geometry::{Side, Sight};

/// Whether two instructions are one: of one kind, with the same parameters and the same states (the task's neurology).
#[inline]
pub fn are_same(instruction: Instr, other: Instr) -> bool
    ensures { IsTrue result ↔ (instruction ≡ other) }
{
    match other {
        Instr::Sense {
            sight,
            yes,
            no,
            cond,
        } => is_sense(instruction, sight, yes, no, cond),
        Instr::Mark { mark, next } => is_mark(instruction, mark, next),
        Instr::Unmark { mark, next } => is_unmark(instruction, mark, next),
        Instr::PickUp { yes, no } => is_pick_up(instruction, yes, no),
        Instr::Drop { next } => is_drop(instruction, next),
        Instr::Turn { side, next } => is_turn(instruction, side, next),
        Instr::Move { yes, no } => is_move(instruction, yes, no),
        Instr::Flip { bound, yes, no } => is_flip(instruction, bound, yes, no),
    }
}

#[inline]
fn is_sense(instruction: Instr, sight: Sight, yes: u16, no: u16, cond: Cond) -> bool
    ensures { IsTrue result ↔ (instruction ≡ Instr.Sense sight yes no cond) }
{
    match instruction {
        Instr::Sense {
            sight: own_sight,
            yes: own_yes,
            no: own_no,
            cond: own_cond,
        } => own_yes == yes && own_no == no && own_sight == sight && own_cond == cond,
        _ => false,
    }
}

#[inline]
fn is_mark(instruction: Instr, mark: u8, next: u16) -> bool
    ensures { IsTrue result ↔ (instruction ≡ Instr.Mark mark next) }
{
    match instruction {
        Instr::Mark {
            mark: own_mark,
            next: own_next,
        } => own_mark == mark && own_next == next,
        _ => false,
    }
}

#[inline]
fn is_unmark(instruction: Instr, mark: u8, next: u16) -> bool
    ensures { IsTrue result ↔ (instruction ≡ Instr.Unmark mark next) }
{
    match instruction {
        Instr::Unmark {
            mark: own_mark,
            next: own_next,
        } => own_mark == mark && own_next == next,
        _ => false,
    }
}

#[inline]
fn is_pick_up(instruction: Instr, yes: u16, no: u16) -> bool
    ensures { IsTrue result ↔ (instruction ≡ Instr.PickUp yes no) }
{
    match instruction {
        Instr::PickUp {
            yes: own_yes,
            no: own_no,
        } => own_yes == yes && own_no == no,
        _ => false,
    }
}

#[inline]
fn is_drop(instruction: Instr, next: u16) -> bool
    ensures { IsTrue result ↔ (instruction ≡ Instr.Drop next) }
{
    match instruction {
        Instr::Drop { next: own_next } => own_next == next,
        _ => false,
    }
}

#[inline]
fn is_turn(instruction: Instr, side: Side, next: u16) -> bool
    ensures { IsTrue result ↔ (instruction ≡ Instr.Turn side next) }
{
    match instruction {
        Instr::Turn {
            side: own_side,
            next: own_next,
        } => own_side == side && own_next == next,
        _ => false,
    }
}

#[inline]
fn is_move(instruction: Instr, yes: u16, no: u16) -> bool
    ensures { IsTrue result ↔ (instruction ≡ Instr.Move yes no) }
{
    match instruction {
        Instr::Move {
            yes: own_yes,
            no: own_no,
        } => own_yes == yes && own_no == no,
        _ => false,
    }
}

#[inline]
fn is_flip(instruction: Instr, bound: u32, yes: u16, no: u16) -> bool
    ensures { IsTrue result ↔ (instruction ≡ Instr.Flip bound yes no) }
{
    match instruction {
        Instr::Flip {
            bound: own_bound,
            yes: own_yes,
            no: own_no,
        } => own_bound == bound && own_yes == yes && own_no == no,
        _ => false,
    }
}
