// Instructions with labels for states.
use brain_read::{Cond, Side, Sight};
use std::alloc::AllocError;

/// A label of an item in its body: the place after the item, a place of the body, from 0 to its length, or the
/// parameter with this number.
#[derive(Clone, Copy)]
pub enum Label {
    Next,
    Place(u32),
    Parameter(u32),
}

/// An instruction with a label `L` for each state (the task's neurology; labels are this project's own).
#[derive(Copy)]
pub enum Action<L> {
    Sense {
        sight: Sight,
        met: L,
        unmet: L,
        cond: Cond,
    },
    Mark {
        mark: u8,
        on: L,
    },
    Unmark {
        mark: u8,
        on: L,
    },
    PickUp {
        met: L,
        unmet: L,
    },
    Drop {
        on: L,
    },
    Turn {
        side: Side,
        on: L,
    },
    Move {
        met: L,
        unmet: L,
    },
    Flip {
        bound: u32,
        met: L,
        unmet: L,
    },
}

// By hand, since this copy can't fail. A derived clone copies part by part, and each part might run out of memory.
impl<L: Copy> Clone for Action<L> {
    fn clone(&self) -> Result<Self, AllocError> {
        Ok(*self)
    }
}
