// Steps through the stream: one place on, uncounted; and jumps, each use of which is counted.
ghost use Rattle.std.specs.Prelude.{◌≡◌, ℕ, ◌+◌};
ghost use Rattle.ant_random.specs.Inner.Jump.{next_state};

use crate::steps::Steps;
use std::sync::ledger::Ledger;

const MULTIPLIER: u32 = 22_695_477;

const INCREMENT: u32 = 1;

/// The state one place later.
#[inline]
pub(crate) fn next_state(state: u32) -> u32
    ensures { result ≡ next_state state }
{
    state.wrapping_mul(MULTIPLIER).wrapping_add(INCREMENT)
}

/// An affine step, which moves the state several places at once. Only counted calls make, double and use it.
#[derive(Drop)]
pub(crate) struct Jump {
    times: u32,
    plus: u32,
}

impl Jump {
    ghost use Rattle.ant_random.specs.Inner.Jump.{landed};

    /// The jump of one place.
    pub(crate) fn of_one<L: Ledger>(steps: &mut Steps<L>) -> Jump
        ensures one { (state : ℕ) → landed result state ≡ next_state state }
        ensures counted { steps.new ≡ steps.old + 1 }
    {
        steps.tick();
        Jump {
            times: MULTIPLIER,
            plus: INCREMENT,
        }
    }

    /// The jump of twice as many places.
    pub(crate) fn twice<L: Ledger>(&self, steps: &mut Steps<L>) -> Jump
        ensures twice { (state : ℕ) → landed result state ≡ landed self.now (landed self.now state) }
        ensures counted { steps.new ≡ steps.old + 1 }
    {
        steps.tick();
        Jump {
            times: self.times.wrapping_mul(self.times),
            plus: self.plus.wrapping_mul(self.times).wrapping_add(self.plus),
        }
    }

    /// The state after the jump from this one.
    pub(crate) fn land<L: Ledger>(&self, state: u32, steps: &mut Steps<L>) -> u32
        ensures state { result ≡ landed self.now state }
        ensures counted { steps.new ≡ steps.old + 1 }
    {
        steps.tick();
        state.wrapping_mul(self.times).wrapping_add(self.plus)
    }
}
