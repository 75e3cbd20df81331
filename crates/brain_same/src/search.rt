// Two brains compared: pairs of states to which the same answers lead, visited in the order of the answers.
ghost use Rattle.std.specs.Prelude.{◌≡◌, ◌<◌, ◌≤◌, ◌↔◌, ◌+◌, ◌++◌, IsTrue, length, option_to_list, IfOk, OnOk};
ghost use Rattle.ant_turn.specs.Turn.{instruction_at};
ghost use Rattle.brain_read.specs.Soundness.{IsBrain};
ghost use Rattle.brain_minimise.specs.Equivalence.{shape_of};
ghost use Rattle.brain_same.specs.Difference.{IsComparison, found_of};
ghost use Rattle.brain_same.specs.Inner.Classes.{AreApart};
ghost use Rattle.brain_same.specs.Inner.Pairs.{IsInside, IsFollowed, pair_after};

use crate::classes::{classes_apart, join};
use crate::comparison::{Comparison, Found};
use crate::instruction::{next, shape};
use brain_read::{Brain, Instr, are_same};
use hex_geometry::OutOfMemory;
use std::alloc::Global;
use std::collections::VecDeque;

// A state of each brain, to which the same answers lead, and the number of these answers.
#[derive(Clone, Copy)]
pub(crate) struct Pair {
    pub first: u16,
    pub second: u16,
    pub answers: u32,
}

/// Compares two brains (over the task's neurology). It returns `Same` if some bisimulation relates their states 0.
/// Otherwise it returns the least number of answers after which their instructions differ in more than the states that
/// they name, with the states at that point. Among several lists of that length it takes the first, with met before
/// unmet from the first answer on. States that state 0 doesn't lead to are ignored. It fails only if memory runs out.
///
/// It visits pairs of states in the order of the answers that lead to them. Both states of a pair are put into one
/// class, and a pair whose states are in one class is skipped: a difference that it could show is longer than one that
/// an earlier pair shows. So there are fewer joins than states, at most 19,999, and each goes over the classes once.
pub fn compare(alloc: Global, first: &Brain, second: &Brain) -> Result<Comparison, OutOfMemory>
    ensures { IfOk result (λ comparison. IsComparison first.now second.now comparison) }
{
    let mut classes = classes_apart(alloc, first.len() as u16 + second.len() as u16)?;
    search(alloc, first, second, &mut classes)
}

// The same, if each state of both brains has a class of its own, those of the second after those of the first.
fn search(
    alloc: Global,
    first: &Brain,
    second: &Brain,
    classes: &mut [u16],
) -> Result<Comparison, OutOfMemory>
    requires first { IsBrain first.now }
    requires second { IsBrain second.now }
    requires apart { AreApart (length first.now + length second.now) classes.old }
    ensures { IfOk result (λ comparison. IsComparison first.now second.now comparison) }
{
    let mut waiting = VecDeque::new(alloc);
    waiting.push_back(start())?;
    while let Some(pair) = waiting.pop_front() {
        if !are_alike(first, second, pair) {
            return Ok(difference(first, second, pair));
        }
        follow(first, second, pair, classes, &mut waiting)?;
    }
    Ok(Comparison::Same)
}

// The states 0, to which no answers lead.
pub(crate) fn start() -> Pair
    ensures { result ≡ record { first = 0; second = 0; answers = 0 } }
{
    Pair {
        first: 0,
        second: 0,
        answers: 0,
    }
}

// Whether the instructions of a pair are the same except for the states that they name.
pub(crate) fn are_alike(first: &Brain, second: &Brain, pair: Pair) -> bool
    requires { IsInside first.now second.now pair }
    ensures { IsTrue result ↔ (shape_of (instruction_at first.now pair.first) ≡ shape_of (instruction_at second.now pair.second)) }
{
    are_same(
        shape(instruction(first, pair.first)),
        shape(instruction(second, pair.second)),
    )
}

// What is reported of a pair.
pub(crate) fn difference(first: &Brain, second: &Brain, pair: Pair) -> Comparison
    requires { IsInside first.now second.now pair }
    ensures { result ≡ Comparison.Different pair.answers (found_of first.now pair.first) (found_of second.now pair.second) }
{
    Comparison::Different {
        answers: pair.answers,
        first: found(first, pair.first),
        second: found(second, pair.second),
    }
}

pub(crate) fn found(brain: &Brain, state: u16) -> Found
    requires { state < length brain.now }
    ensures { result ≡ found_of brain.now state }
{
    Found {
        state,
        instruction: instruction(brain, state),
    }
}

// Joins the classes of a pair's states. If they were two, appends the pairs that follow it.
fn follow(
    first: &Brain,
    second: &Brain,
    pair: Pair,
    classes: &mut [u16],
    waiting: &mut VecDeque<Pair>,
) -> Result<(), OutOfMemory>
    requires inside { IsInside first.now second.now pair }
    requires each { length classes.old ≡ length first.now + length second.now }
    requires few { pair.answers ≤ 400000000 }
    ensures { OnOk result (IsFollowed first.now second.now pair classes.old classes.new waiting.old.items waiting.new.items) }
{
    if join(
        classes,
        pair.first as usize,
        first.len() as usize + pair.second as usize,
    ) {
        push_after(first, second, pair, true, waiting)?;
        push_after(first, second, pair, false, waiting)?;
    }
    Ok(())
}

// Appends the pair to which an answer leads, if there is one.
fn push_after(
    first: &Brain,
    second: &Brain,
    pair: Pair,
    met: bool,
    waiting: &mut VecDeque<Pair>,
) -> Result<(), OutOfMemory>
    requires inside { IsInside first.now second.now pair }
    requires few { pair.answers ≤ 400000000 }
    ensures { OnOk result (waiting.new.items ≡ waiting.old.items ++ option_to_list (pair_after first.now second.now pair met)) }
{
    if let Some(after) = next_pair(first, second, pair, met) {
        waiting.push_back(after)?;
    }
    Ok(())
}

// The pair to which an answer leads, if there is one.
pub(crate) fn next_pair(first: &Brain, second: &Brain, pair: Pair, met: bool) -> Option<Pair>
    requires inside { IsInside first.now second.now pair }
    requires few { pair.answers ≤ 400000000 }
    ensures { result ≡ pair_after first.now second.now pair met }
{
    let Some(one) = next(instruction(first, pair.first), met) else {
        return None;
    };
    let Some(other) = next(instruction(second, pair.second), met) else {
        return None;
    };
    Some(Pair {
        first: one,
        second: other,
        answers: pair.answers + 1,
    })
}

// The instruction of a state.
#[inline]
fn instruction(brain: &Brain, state: u16) -> Instr
    requires { state < length brain.now }
    ensures { result ≡ instruction_at brain.now state }
{
    brain.at(state)
}
