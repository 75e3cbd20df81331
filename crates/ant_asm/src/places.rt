// The places of a program's instructions.
ghost use Rattle.std.specs.Prelude.{◌≡◌, ◌<◌, length, slice_get, Some};

use std::marker::Model;

/// The address of an instruction in a program: a place in main, then a place in the block that is used there, and so
/// on. All places are counted from 0. Contracts see the address as its list of numbers.
#[derive(Drop)]
pub struct Address {
    steps: Vec<u32>,
}

impl Model for Address {
    ghost use Rattle.std.specs.Prelude.{List, ℕ};

    ghost Value = { List ℕ };

    ghost view = { λ address. address.steps.items };
}

impl Address {
    // The address with these numbers.
    pub(crate) fn of(steps: Vec<u32>) -> Address
        ensures { result ≡ steps.items }
    {
        Address { steps }
    }

    /// How many numbers it has. It takes no memory.
    pub fn len(&self) -> usize
        ensures { result ≡ length self.now }
    {
        self.steps.len()
    }

    /// Its number at `i`. `i` is counted from 0, and below the length. It takes no memory.
    pub fn item(&self, i: usize) -> u32
        requires { i < length self.now }
        ensures { slice_get self.now i ≡ Some result }
    {
        self.steps[i]
    }
}

/// The places of an assembled brain's instructions in its program: an address for each state. Contracts see the list of
/// the addresses.
#[derive(Drop)]
pub struct Places {
    list: Vec<Address>,
}

impl Model for Places {
    ghost use Rattle.std.specs.Prelude.{List, ℕ};

    ghost Value = { List (List ℕ) };

    ghost view = { λ places. places.list.items };
}

impl Places {
    // These addresses.
    pub(crate) fn of(list: Vec<Address>) -> Places
        ensures { result ≡ list.items }
    {
        Places { list }
    }

    /// How many addresses there are: one for each state of the brain. It takes no memory.
    pub fn len(&self) -> usize
        ensures { result ≡ length self.now }
    {
        self.list.len()
    }

    /// The address of state `i`. `i` is counted from 0, and below the length. It takes no memory.
    pub fn item(&self, i: usize) -> &Address
        requires { i < length self.now }
        ensures { slice_get self.now i ≡ Some result.now }
    {
        &self.list[i]
    }
}
