// Two brains compared with the way: the search that keeps how it reached each pair.
ghost use Rattle.std.specs.Prelude.{◌≡◌, ◌<◌, ◌≤◌, ◌+◌, ◌++◌, [], length, slice_get, Some, IfOk, OnOk, option_to_list};
ghost use Rattle.brain_read.specs.Soundness.{IsBrain};
ghost use Rattle.brain_same.specs.Inner.Classes.{AreApart};
ghost use Rattle.brain_same.specs.Inner.Pairs.{IsInside};
ghost use Rattle.brain_same.specs.Inner.Reached.{AreStepsTo, EndsAt, HaveWays, IsKept, reached_after, start_kept};
ghost use Rattle.brain_same.specs.Way.{IsWayComparison, step_of};

use crate::classes::{classes_apart, join};
use crate::comparison::Comparison;
use crate::search::{Pair, are_alike, difference, found, next_pair, start};
use crate::way::{Step, Way};
use brain_read::Brain;
use hex_geometry::OutOfMemory;
use std::alloc::Global;

// A pair that the search reached: from which pair, by its place among them, and by which answer. The first was reached
// from none.
#[derive(Clone, Copy)]
pub(crate) struct Reached {
    pub pair: Pair,
    pub from: u32,
    pub met: bool,
}

/// As [`compare`](crate::compare), with the way to the difference: a step for each answer, from the states 0 on. Each
/// step has the states before its answer. The answer leads both brains to the states of the next step, and the last
/// answer to the states that are reported. Among the ways of the least length it is the first, with met before unmet
/// from the first answer on (over the task's neurology). It fails only if memory runs out.
///
/// It visits the same pairs as `compare`, and keeps all that it found: at most 39,999, in 16 bytes each.
pub fn compare_way(alloc: Global, first: &Brain, second: &Brain) -> Result<Way, OutOfMemory>
    ensures { IfOk result (λ way. IsWayComparison first.now second.now way.comparison way.steps.items) }
{
    let mut classes = classes_apart(alloc, first.len() as u16 + second.len() as u16)?;
    let mut reached = Vec::new(alloc);
    match first_apart(first, second, &mut classes, &mut reached)? {
        Some(place) => way_to(alloc, first, second, &reached, place),
        None => Ok(Way {
            comparison: Comparison::Same,
            steps: Vec::new(alloc),
        }),
    }
}

// The place of the first pair whose instructions differ, if there is one, among the pairs that are found. No pair was
// found yet, and each state of both brains has a class of its own, those of the second after those of the first.
fn first_apart(
    first: &Brain,
    second: &Brain,
    classes: &mut [u16],
    reached: &mut Vec<Reached>,
) -> Result<Option<u32>, OutOfMemory>
    requires first { IsBrain first.now }
    requires second { IsBrain second.now }
    requires apart { AreApart (length first.now + length second.now) classes.old }
    requires none { reached.old.items ≡ [] }
    ensures { IfOk result (λ place. EndsAt first.now second.now reached.new.items place) }
{
    reached.push(at_start())?;
    let mut place = 0;
    while (place as usize) < reached.len() {
        let pair = reached_at(reached, place).pair;
        if !are_alike(first, second, pair) {
            return Ok(Some(place));
        }
        keep_next(first, second, place, pair, classes, reached)?;
        place += 1;
    }
    Ok(None)
}

// The states 0, which were reached from none.
fn at_start() -> Reached
    ensures { result ≡ start_kept }
{
    Reached {
        pair: start(),
        from: 0,
        met: true,
    }
}

// The pair at a place.
#[inline]
fn reached_at(reached: &[Reached], place: u32) -> Reached
    requires { place < length reached.now }
    ensures { slice_get reached.now place ≡ Some result }
{
    reached[place as usize]
}

// Joins the classes of a pair's states. If they were two, keeps the pairs that follow it.
fn keep_next(
    first: &Brain,
    second: &Brain,
    place: u32,
    pair: Pair,
    classes: &mut [u16],
    reached: &mut Vec<Reached>,
) -> Result<(), OutOfMemory>
    requires inside { IsInside first.now second.now pair }
    requires each { length classes.old ≡ length first.now + length second.now }
    requires few { pair.answers ≤ 400000000 }
    ensures { OnOk result (IsKept first.now second.now place pair classes.old classes.new reached.old.items reached.new.items) }
{
    if join(
        classes,
        pair.first as usize,
        first.len() as usize + pair.second as usize,
    ) {
        keep_after(first, second, place, pair, true, reached)?;
        keep_after(first, second, place, pair, false, reached)?;
    }
    Ok(())
}

// Keeps the pair to which an answer leads, if there is one.
fn keep_after(
    first: &Brain,
    second: &Brain,
    place: u32,
    pair: Pair,
    met: bool,
    reached: &mut Vec<Reached>,
) -> Result<(), OutOfMemory>
    requires inside { IsInside first.now second.now pair }
    requires few { pair.answers ≤ 400000000 }
    ensures { OnOk result (reached.new.items ≡ reached.old.items ++ option_to_list (reached_after first.now second.now place pair met)) }
{
    if let Some(next) = next_pair(first, second, pair, met) {
        reached.push(Reached {
            pair: next,
            from: place,
            met,
        })?;
    }
    Ok(())
}

// The comparison by the pair at a place, and the way there.
#[tactic(auto, using(crate::proofs::ReachedLemmas::IsWayComparison_ends, crate::proofs::ReachedLemmas::inside_ends))]
fn way_to(
    alloc: Global,
    first: &Brain,
    second: &Brain,
    reached: &[Reached],
    place: u32,
) -> Result<Way, OutOfMemory>
    requires first { IsBrain first.now }
    requires second { IsBrain second.now }
    requires ends { EndsAt first.now second.now reached.now (Some place) }
    ensures { IfOk result (λ way. IsWayComparison first.now second.now way.comparison way.steps.items) }
{
    let pair = reached_at(reached, place).pair;
    let steps = steps_to(alloc, first, second, reached, place)?;
    Ok(Way {
        comparison: difference(first, second, pair),
        steps,
    })
}

// The steps to the pair at a place, collected from the last to the first.
fn steps_to(
    alloc: Global,
    first: &Brain,
    second: &Brain,
    reached: &[Reached],
    place: u32,
) -> Result<Vec<Step>, OutOfMemory>
    requires first { IsBrain first.now }
    requires second { IsBrain second.now }
    requires kept { HaveWays first.now second.now reached.now }
    requires inside { place < length reached.now }
    ensures { IfOk result (λ steps. AreStepsTo first.now second.now reached.now place steps.items) }
{
    let mut steps = Vec::new(alloc);
    let mut at = place;
    while at > 0 {
        let it = reached_at(reached, at);
        let before = reached_at(reached, it.from).pair;
        steps.push(step(first, second, before, it.met))?;
        at = it.from;
    }
    steps.reverse();
    Ok(steps)
}

// An answer of a pair.
fn step(first: &Brain, second: &Brain, pair: Pair, met: bool) -> Step
    requires { IsInside first.now second.now pair }
    ensures { result ≡ step_of first.now second.now pair.first pair.second met }
{
    Step {
        first: found(first, pair.first),
        second: found(second, pair.second),
        met,
    }
}
