// A brain with its equivalent states merged.
ghost use Rattle.std.specs.Prelude.{IfOk};
ghost use Rattle.brain_minimise.specs.Minimised.{IsMinimised};

use crate::classes::equivalence_classes;
use crate::numbering::{kept_instructions, number_states, table_of};
use crate::reach::reachable;
use crate::state_map::StateMap;
use brain_read::Brain;
use hex_geometry::OutOfMemory;
use std::alloc::Global;

/// A brain with its equivalent states merged, and the new number of each state.
#[derive(Drop)]
pub struct Minimised {
    /// The minimised brain.
    pub brain: Brain,
    /// The new number of each old state, by its old number.
    pub map: StateMap,
}

/// Merges the equivalent states of a brain among those that state 0 leads to, and drops all others (over the task's
/// neurology).
///
/// States are equivalent by the greatest relation in which related states have equal kinds and parameters and related
/// successors. The kept states are numbered from 0 in rising order of their least reachable member. Each has its
/// members' instruction with the successors renumbered, and no two of them are equivalent. The map is `None` exactly at
/// the states that state 0 doesn't lead to. It fails only if memory runs out.
///
/// Each round divides every class into the states that behave as its least member and the others, in one pass. There
/// are at most as many rounds as classes at the end. So the worst case is quadratic: 10,000 states in a chain, or of
/// 10,000 kinds, take 10,000 rounds of 10,000 short steps.
///
/// For the brain `Turn Left 1`, `Turn Left 0`, `Drop 2` it returns the brain `Turn Left 0`, and the map 0, 0 and
/// `None`: states 0 and 1 lead to each other and do the same, and nothing leads to state 2.
pub fn minimise(alloc: Global, brain: &Brain) -> Result<Minimised, OutOfMemory>
    ensures { IfOk result (λ minimised. IsMinimised brain.now minimised.brain minimised.map) }
{
    let seen = reachable(alloc, brain)?;
    let classes = equivalence_classes(alloc, brain)?;
    let numbers = number_states(alloc, &classes, &seen)?;
    let table = table_of(alloc, &numbers)?;
    let list = kept_instructions(alloc, brain, &numbers, &table)?;
    Ok(Minimised {
        brain: Brain::from_list(list),
        map: StateMap::from_list(numbers),
    })
}
