// New numbers of the states, and the instructions with these numbers.
ghost use Rattle.std.specs.Prelude.{◌≡◌, ◌<◌, ◌≤◌, ◌↔◌, IsTrue, Some, length, IfOk};
ghost use Rattle.brain_read.specs.Soundness.{most_states};
ghost use Rattle.brain_minimise.specs.Inner.Kept.{AreKept};
ghost use Rattle.brain_minimise.specs.Inner.Numbering.{AreNumbers, IsRising, IsTable};
ghost use Rattle.brain_minimise.specs.Minimised.{new_number};

use crate::redirect::redirect;
use brain_read::{Brain, Instr};
use hex_geometry::OutOfMemory;
use indexmap::IndexSet;
use std::alloc::Global;

// The number of each seen state's class, in the order in which the classes first occur.
pub(crate) fn number_states(
    alloc: Global,
    classes: &[u16],
    seen: &[bool],
) -> Result<Vec<Option<u16>>, OutOfMemory>
    requires each { length classes.now ≡ length seen.now }
    requires few { length seen.now ≤ most_states }
    ensures { IfOk result (λ numbers. AreNumbers classes.now seen.now numbers.items) }
{
    let mut order = IndexSet::new(alloc);
    let mut numbers = Vec::with_capacity(alloc, seen.len())?;
    for state in 0..seen.len() {
        let number = if seen[state] {
            let (number, _) = order.insert_full(classes[state])?;
            Some(number as u16)
        } else {
            None
        };
        numbers.push(number)?;
    }
    Ok(numbers)
}

// The number of each state that has one; otherwise the state itself.
pub(crate) fn table_of(alloc: Global, numbers: &[Option<u16>]) -> Result<Vec<u16>, OutOfMemory>
    requires { length numbers.now ≤ most_states }
    ensures { IfOk result (λ table. IsTable numbers.now table.items) }
{
    let mut table = Vec::with_capacity(alloc, numbers.len())?;
    for state in 0..numbers.len() as u16 {
        table.push(numbers[state as usize].unwrap_or(state))?;
    }
    Ok(table)
}

// The instruction with each number: that of the first state with this number, with its successors renumbered.
pub(crate) fn kept_instructions(
    alloc: Global,
    brain: &Brain,
    numbers: &[Option<u16>],
    table: &[u16],
) -> Result<Vec<Instr>, OutOfMemory>
    requires each { length numbers.now ≡ length brain.now }
    requires rising { IsRising numbers.now }
    requires table { IsTable numbers.now table.now }
    ensures { IfOk result (λ list. AreKept brain.now numbers.now list.items) }
{
    let mut list = Vec::new(alloc);
    for state in 0..brain.len() as u16 {
        if has_number(numbers, state, list.len() as u16) {
            list.push(redirect(brain.at(state), table))?;
        }
    }
    Ok(list)
}

// Whether a state has this number.
#[inline]
fn has_number(numbers: &[Option<u16>], state: u16, number: u16) -> bool
    requires { state < length numbers.now }
    ensures { IsTrue result ↔ (new_number numbers.now state ≡ Some number) }
{
    match numbers[state as usize] {
        Some(own) => own == number,
        None => false,
    }
}
