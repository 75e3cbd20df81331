// Classes of states that are assumed to be the same, joined two at a time.
ghost use Rattle.std.specs.Prelude.{◌≡◌, ◌<◌, length, map, IfOk};
ghost use Rattle.brain_same.specs.Inner.Classes.{AreApart, IsJoined, renamed};

use hex_geometry::OutOfMemory;
use std::alloc::Global;

// A class for each of this many states, named by the state.
pub(crate) fn classes_apart(alloc: Global, count: u16) -> Result<Vec<u16>, OutOfMemory>
    ensures { IfOk result (λ classes. AreApart count classes.items) }
{
    let mut classes = Vec::with_capacity(alloc, count as usize)?;
    for state in 0..count {
        classes.push(state)?;
    }
    Ok(classes)
}

// Joins the classes of two states, and returns whether they were two.
pub(crate) fn join(classes: &mut [u16], a: usize, b: usize) -> bool
    requires a { a < length classes.old }
    requires b { b < length classes.old }
    ensures { IsJoined classes.old classes.new a b result }
{
    let (one, other) = (classes[a], classes[b]);
    if one < other {
        rename(classes, other, one);
        true
    } else if other < one {
        rename(classes, one, other);
        true
    } else {
        false
    }
}

// Gives one class the name of another.
fn rename(classes: &mut [u16], from: u16, to: u16)
    ensures { classes.new ≡ map (renamed from to) classes.old }
{
    for state in 0..classes.len() {
        classes[state] = new_name(from, to, classes[state]);
    }
}

// The name of a class after one was renamed.
#[inline]
fn new_name(from: u16, to: u16, class: u16) -> u16
    ensures { result ≡ renamed from to class }
{
    if class == from { to } else { class }
}
