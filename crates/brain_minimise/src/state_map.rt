// The map from the old states to the new ones.
ghost use Rattle.std.specs.Prelude.{◌≡◌, ◌<◌, length, slice_get, Some};

use std::marker::Model;

/// The new number of each state of a minimised brain, by its old number from 0; `None` if state 0 doesn't lead to it.
/// Contracts see the list of the entries.
#[derive(Drop)]
pub struct StateMap {
    entries: Vec<Option<u16>>,
}

impl Model for StateMap {
    ghost use Rattle.std.specs.Prelude.{List, Option, ℕ};

    ghost Value = { List (Option ℕ) };

    ghost view = { λ map. map.entries.items };
}

impl StateMap {
    // The map of these entries.
    pub(crate) fn from_list(entries: Vec<Option<u16>>) -> StateMap
        ensures { result ≡ entries.items }
    {
        StateMap { entries }
    }

    /// How many old states there were. It takes no memory.
    #[inline]
    pub fn len(&self) -> usize
        ensures { result ≡ length self.now }
    {
        self.entries.len()
    }

    /// The new number of the old state `i`, counted from 0 and below the length; `None` if state 0 doesn't lead to it.
    /// It takes no memory.
    #[inline]
    pub fn item(&self, i: usize) -> Option<u16>
        requires { i < length self.now }
        ensures { slice_get self.now i ≡ Some result }
    {
        self.entries[i]
    }
}
