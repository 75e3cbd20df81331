// The states that can be reached.
ghost use Rattle.std.specs.Prelude.{◌≡◌, ◌<◌, true, false, length, slice_set, IfOk, OnOk};
ghost use Rattle.brain_read.specs.Soundness.{IsBrain};
ghost use Rattle.brain_minimise.specs.Inner.Seen.{AreSeen, is_seen, with_waiting};

use crate::redirect::successors;
use brain_read::Brain;
use hex_geometry::OutOfMemory;
use std::alloc::Global;

// For each state, whether state 0 leads to it.
pub(crate) fn reachable(alloc: Global, brain: &Brain) -> Result<Vec<bool>, OutOfMemory>
    ensures seen { IfOk result (λ seen. AreSeen brain.now seen.items) }
    ensures brain { IsBrain brain.now }
{
    let mut seen = vec![in alloc; false; brain.len() as usize]?;
    let mut waiting = Vec::new(alloc);
    visit(&mut seen, &mut waiting, 0)?;
    while let Some(state) = waiting.pop() {
        let (first, last) = successors(brain.at(state));
        visit(&mut seen, &mut waiting, first)?;
        visit(&mut seen, &mut waiting, last)?;
    }
    Ok(seen)
}

// Notes that a state can be reached; if it is new, its successors are visited later.
fn visit(seen: &mut Vec<bool>, waiting: &mut Vec<u16>, state: u16) -> Result<(), OutOfMemory>
    requires { state < length seen.old.items }
    ensures seen { seen.new.items ≡ slice_set seen.old.items state true }
    ensures waiting { OnOk result (waiting.new.items ≡ with_waiting waiting.old.items (is_seen seen.old.items state) state) }
{
    let before = seen[state as usize];
    seen[state as usize] = true;
    if !before {
        waiting.push(state)?;
    }
    Ok(())
}
