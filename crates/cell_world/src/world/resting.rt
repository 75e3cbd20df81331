// Resting ants, distinguished from the others.
ghost use Rattle.std.specs.Prelude.{◌≡◌, ◌+◌, ◌-◌, ◌≤◌, length, nat_eq, take};
ghost use Rattle.cell_world.specs.Grid.{IsWorld, world_of};
ghost use Rattle.cell_world.specs.Limits.{most_ants};
ghost use Rattle.cell_world.specs.Resting.{ActsListed, rested};
ghost use Rattle.cell_world.specs.Inner.ToldApart.{ToldApart, with_resting};

use crate::body::Body;
use crate::world::World;

impl World {
    /// Lets each resting ant with an id from `from` to below `to` rest one turn less, and writes the ids of the others
    /// in rising order to the front of `acting` (the task's kinetics). It returns how many ids were written; the
    /// elements after them have no meaning. Dead ants may be among them. The ids existed, and there are at most 64.
    #[inline(never)]
    pub fn count_down_rests(&mut self, from: u32, to: u32, acting: &mut [u16; 64]) -> usize
        requires order { from ≤ to }
        requires made { to ≤ self.old.ids }
        requires few { to ≤ from + 64 }
        ensures world { world_of self.new ≡ rested from to (world_of self.old) }
        ensures listed { ActsListed (world_of self.old) from (to - from) (take result acting.new) }
        ensures count { result ≤ to - from }
        ensures kept { IsWorld self.new }
    {
        rest_bodies(&mut self.bodies, from, to, acting)
    }
}

// The same for the bodies of these ids.
#[inline]
fn rest_bodies(bodies: &mut [Body], from: u32, to: u32, acting: &mut [u16; 64]) -> usize
    requires order { from ≤ to }
    requires made { to ≤ length bodies.old }
    requires few { to ≤ from + 64 }
    requires small { to ≤ most_ants }
    ensures told { ToldApart bodies.old bodies.new from to (take result acting.new) }
    ensures count { result ≤ to - from }
{
    let mut count = 0;
    for id in from..to {
        let acts = rest_one(&mut bodies[id as usize]);
        acting[count] = id as u16;
        count += usize::from(acts);
    }
    count
}

// One turn less to rest for the ant of a body, if it rests; returns whether it doesn't rest.
#[inline]
fn rest_one(body: &mut Body) -> bool
    ensures body { body.new ≡ with_resting body.old (body.old.resting - 1) }
    ensures acts { result ≡ nat_eq body.old.resting 0 }
{
    let resting = body.resting;
    body.resting = resting.saturating_sub(1);
    resting == 0
}
