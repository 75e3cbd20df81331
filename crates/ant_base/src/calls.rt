// Numbers of calls.
ghost use Rattle.std.specs.Prelude.{◌≡◌, ◌+◌, ◌≤◌, ◌++◌, [], ◌∷◌, OnOk, OnErr};
ghost use Rattle.ant_base.specs.Calls.{is_failing};

use crate::OutOfMemory;
use std::alloc::Global;
use std::marker::Model;

/// A list of call numbers, counted from 1. Contracts see its numbers, and how many more can be added before it is full.
#[derive(Drop)]
pub struct Calls {
    numbers: Vec<u64>,
}

impl Model for Calls {
    ghost use Rattle.std.specs.Prelude.{◌-◌, vec_len, vec_capacity};
    ghost use Rattle.ant_base.specs.NumberList.{NumberList};

    ghost Value = { NumberList };

    ghost view = { λ calls. record { numbers = calls.numbers.items; spare = vec_capacity calls.numbers - vec_len calls.numbers } };
}

impl Calls {
    /// An empty list. It takes no memory.
    pub fn new(alloc: Global) -> Self
        ensures { result ≡ record { numbers = []; spare = 0 } }
    {
        Calls {
            numbers: Vec::new(alloc),
        }
    }

    /// Adds a call number, counted from 1, at the end. It fails only if the list is full and there is no memory for
    /// more; then it changes nothing. Each add uses at most one free place.
    pub fn add(&mut self, number: u64) -> Result<(), OutOfMemory>
        ensures added { OnOk result (self.new.numbers ≡ self.old.numbers ++ number ∷ []) }
        ensures refused { OnErr result (self.new ≡ self.old) }
        ensures full { OnErr result (self.old.spare ≡ 0) }
        ensures spare { self.old.spare ≤ self.new.spare + 1 }
    {
        self.numbers.reserve(1)?;
        self.numbers.push(number)?;
        Ok(())
    }

    // Whether the number is in the list.
    pub(crate) fn has(&self, number: u64) -> bool
        ensures { result ≡ is_failing self.now.numbers number }
    {
        self.numbers.contains(&number)
    }
}
