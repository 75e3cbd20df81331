// What a game is played on.
ghost use Rattle.std.specs.Prelude.{◌≡◌, ◌+◌, ◌-◌, ◌≤◌, take};
ghost use Rattle.std.proofs.Common.{rules};
ghost use Rattle.cell_world.specs.Resting.{ActsListed, rested};
ghost use Rattle.cell_world.specs.Valid.{Valid};

use cell_world::{Ground, World};

/// What a game is played on: a world, perhaps with more data.
pub trait Board: Ground {
    /// How many ids were ever assigned (the task's biology).
    fn ids(&self) -> u32
        ensures ids { result ≡ (Self.world self.now).ids }
        ensures valid { Valid (Self.world self.now) };

    /// Lets those of at most 64 ids that rest rest one turn less, and lists the others, as a world does.
    fn count_down_rests(&mut self, from: u32, to: u32, acting: &mut [u16; 64]) -> usize
        requires order { from ≤ to }
        requires made { to ≤ (Self.world self.old).ids }
        requires few { to ≤ from + 64 }
        ensures world { Self.world self.new ≡ rested from to (Self.world self.old) }
        ensures listed { ActsListed (Self.world self.old) from (to - from) (take result acting.new) }
        ensures count { result ≤ to - from };

    /// It has room for a turn at any time.
    ghost roomy: { (board : Self) → 9 ≤ Self.room board };
}

impl Board for World {
    #[inline(always)]
    fn ids(&self) -> u32 {
        self.ant_count()
    }

    #[inline(always)]
    fn count_down_rests(&mut self, from: u32, to: u32, acting: &mut [u16; 64]) -> usize {
        World::count_down_rests(self, from, to, acting)
    }

    ghost roomy = { Prim.search rules };
}
