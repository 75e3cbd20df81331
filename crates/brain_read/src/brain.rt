// A brain: a list of sound instructions.
ghost use Rattle.std.specs.Prelude.{◌≡◌, ◌<◌, length, slice_get, Some, IfOk};
ghost use Rattle.std.specs.Slice.Iter.{iter_rest};
ghost use Rattle.brain_read.specs.Soundness.{IsSound, IsBrain};

use crate::instr::Instr;
use hex_geometry::OutOfMemory;
use std::alloc::Global;
use std::marker::Model;
use std::slice;

/// The largest number of instructions, and so of states, of a brain (the task's neurology).
pub const MOST_STATES: usize = 10_000;

/// A brain: 1 to 10,000 instructions, by state from 0. Every state that an instruction names is below their number,
/// every marker is below 6 and every bound is at least 1 (the task's neurology). Contracts see the list of the
/// instructions.
#[derive(Drop)]
pub struct Brain {
    list: Vec<Instr>,
}

impl Model for Brain {
    ghost use Rattle.std.specs.Prelude.{List};
    ghost use Rattle.brain_read.specs.declared.instr.Instr.{Instr};
    ghost use Rattle.brain_read.specs.Soundness.{IsBrain};

    ghost Value = { List Instr };

    ghost view = { λ b. b.list.items };

    ghost invariant = { λ b. IsBrain b.list.items };
}

impl Brain {
    /// The brain of this list: the instruction at place i, from 0, is that of state i. It takes no memory and never
    /// fails; its contract requires the list to be a brain's (the task's neurology).
    pub fn from_list(list: Vec<Instr>) -> Brain
        requires { IsBrain list.items }
        ensures { result ≡ list.items }
    {
        Brain { list }
    }

    /// An equal brain of its own. The only error is out of memory.
    pub fn copy(&self, alloc: Global) -> Result<Brain, OutOfMemory>
        ensures { IfOk result (λ brain. brain ≡ self.now) }
    {
        let list = Vec::from_slice(alloc, &self.list)?;
        Ok(Brain { list })
    }

    /// How many states it has, from 1 to 10,000 (the task's neurology).
    #[inline]
    pub fn len(&self) -> u32
        ensures length { result ≡ length self.now }
        ensures brain { IsBrain self.now }
    {
        self.list.len() as u32
    }

    /// The instruction of this state, which is below the length (the task's neurology).
    #[inline]
    pub fn at(&self, state: u16) -> Instr
        requires { state < length self.now }
        ensures instruction { slice_get self.now state ≡ Some result }
        ensures sound { IsSound (length self.now) result }
    {
        self.list[state as usize]
    }

    /// The same instruction as a reference, so that a caller reads only the fields that it needs (the task's
    /// neurology).
    #[inline]
    pub fn instruction(&self, state: u16) -> &Instr
        requires { state < length self.now }
        ensures instruction { slice_get self.now state ≡ Some result.now }
        ensures sound { IsSound (length self.now) result.now }
    {
        &self.list[state as usize]
    }

    /// Its instructions in order, from state 0 (the task's neurology).
    pub fn iter(&self) -> slice::Iter<'_, Instr>
        ensures instructions { iter_rest result ≡ self.now }
        ensures brain { IsBrain self.now }
    {
        self.list.iter()
    }

    // The instructions, by state.
    pub(crate) fn instructions(&self) -> &[Instr]
        ensures list { result.now ≡ self.now }
        ensures brain { IsBrain self.now }
    {
        self.list.as_slice()
    }
}

impl<'b> IntoIterator for &'b Brain {
    type Item = &'b Instr;

    type IntoIter = slice::Iter<'b, Instr>;

    ghost into_iter_gives = { λ brain it. iter_rest it ≡ brain.now };

    fn into_iter(self) -> Self::IntoIter {
        self.iter()
    }
}
