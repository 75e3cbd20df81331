// Classes of states, refined until each state behaves as its class's least member.
ghost use Rattle.std.specs.Prelude.{◌≡◌, ◌<◌, ◌↔◌, IsTrue, Some, None, length, slice_index_or, slice_set, unwrap_or, IfOk, IfSome, IfNone};
ghost use Rattle.brain_minimise.specs.Inner.Classes.{AreClasses, AreStable, DoAlike, slack};

use crate::redirect::redirect;
use brain_read::{Brain, are_same};
use hex_geometry::OutOfMemory;
use std::alloc::Global;

// The class of each state, named by its least member: two states are in one class exactly if they are equivalent.
pub(crate) fn equivalence_classes(alloc: Global, brain: &Brain) -> Result<Vec<u16>, OutOfMemory>
    ensures classes { IfOk result (λ classes. AreClasses brain.now classes.items) }
    ensures stable { IfOk result (λ classes. AreStable brain.now classes.items) }
{
    let mut classes = vec![in alloc; 0; brain.len() as usize]?;
    while let Some(finer) = refine(alloc, brain, &classes)? {
        classes = finer;
    }
    Ok(classes)
}

// Each class, divided into the states that behave as its least member and the others; `None` if there are no others.
fn refine(alloc: Global, brain: &Brain, classes: &[u16]) -> Result<Option<Vec<u16>>, OutOfMemory>
    requires { AreClasses brain.now classes.now }
    ensures classes { IfOk result (λ finer. IfSome finer (λ new. AreClasses brain.now new.items)) }
    ensures finer { IfOk result (λ finer. IfSome finer (λ new. slack 0 new.items < slack 0 classes.now)) }
    ensures stable { IfOk result (λ finer. IfNone finer (AreStable brain.now classes.now)) }
{
    let mut heirs = vec![in alloc; None; classes.len()]?;
    let mut finer = Vec::with_capacity(alloc, classes.len())?;
    let mut parted = false;
    for state in 0..brain.len() as u16 {
        let least = classes[state as usize];
        let class = if do_alike(brain, classes, state, least) {
            least
        } else {
            parted = true;
            heir(&mut heirs, least, state)
        };
        finer.push(class)?;
    }
    if parted { Ok(Some(finer)) } else { Ok(None) }
}

// Whether two states behave alike: they have one shape, and their successors are in the same classes.
#[inline]
fn do_alike(brain: &Brain, classes: &[u16], state: u16, other: u16) -> bool
    requires each { length classes.now ≡ length brain.now }
    requires state { state < length brain.now }
    requires other { other < length brain.now }
    ensures { IsTrue result ↔ DoAlike brain.now classes.now state other }
{
    state == other
        || are_same(
            redirect(brain.at(state), classes),
            redirect(brain.at(other), classes),
        )
}

// The first state of a class that doesn't behave as its least member: this one, if there was none before.
#[inline]
fn heir(heirs: &mut Vec<Option<u16>>, least: u16, state: u16) -> u16
    requires { least < length heirs.old.items }
    ensures first { result ≡ unwrap_or (slice_index_or heirs.old.items least None) state }
    ensures noted { heirs.new.items ≡ slice_set heirs.old.items least (Some result) }
{
    let first = heirs[least as usize].unwrap_or(state);
    heirs[least as usize] = Some(first);
    first
}
