// What workers find.
ghost use Rattle.std.specs.Prelude.{◌≡◌, ◌<◌, length, slice_get, Some};
ghost use Rattle.std.specs.Arc.{arc_value};
ghost use Rattle.std.specs.Option.{option_copied};
ghost use Rattle.ant_turn.specs.Minds.{Fits, minds_of};
ghost use Rattle.cell_world.specs.Grid.{world_of};
ghost use Rattle.far_crew.specs.Jobs.{IsFound, IsLookOf};

use crate::own_brains::OwnBrains;
use ant_turn::Brains;
use cell_world::World;
use spec_record::Look;
use std::marker::Model;
use std::sync::Arc;

/// What a worker found: looks, with the brains, the seed and the world on which they were made. The brains fit the
/// world, and each look is the one of these brains, this seed and this world at its own guess and turn.
#[derive(Drop)]
pub struct Found {
    minds: Arc<OwnBrains>,
    seed: u32,
    base: Arc<World>,
    looks: Vec<Look>,
}

impl Model for Found {
    ghost use Rattle.std.specs.Arc.{arc_value};
    ghost use Rattle.far_crew.specs.Jobs.{FoundValue, IsFound};

    ghost Value = { FoundValue };

    ghost view = { λ found. record {
      minds = arc_value found.minds;
      seed = found.seed;
      base = arc_value found.base;
      looks = found.looks.items;
    } };

    ghost invariant = { λ found. IsFound (arc_value found.minds) found.seed (arc_value found.base) found.looks.items };
}

impl Found {
    // These looks, with these brains, this seed and this world.
    pub(crate) fn of(minds: Arc<OwnBrains>, seed: u32, base: Arc<World>, looks: Vec<Look>) -> Found
        requires { IsFound (arc_value minds) seed (arc_value base) looks.items }
        ensures { result ≡ record { minds = arc_value minds; seed = seed; base = arc_value base; looks = looks.items } }
    {
        Found {
            minds,
            seed,
            base,
            looks,
        }
    }

    /// How many looks there are. A clause says what holds of every answer, so that it is known of one that a channel
    /// delivered.
    #[inline]
    pub fn len(&self) -> usize
        ensures len { result ≡ length self.now.looks }
        ensures kept { IsFound self.now.minds self.now.seed self.now.base self.now.looks }
    {
        self.looks.len()
    }

    // A look.
    #[inline]
    #[tactic(auto, using(crate::proofs::JobLemmas::all_at))]
    pub(crate) fn look(&self, i: usize) -> &Look
        requires { i < length self.now.looks }
        ensures item { slice_get self.now.looks i ≡ Some result.now }
        ensures is { IsLookOf self.now.minds self.now.seed self.now.base result.now }
    {
        &self.looks[i]
    }

    // The look with this number, if there is one.
    pub(crate) fn look_if(&self, i: usize) -> Option<&Look>
        ensures { option_copied result ≡ slice_get self.now.looks i }
    {
        self.looks.get(i)
    }

    // The brains with which the looks were made.
    pub(crate) fn brains(&self) -> Brains<'_>
        ensures { minds_of result ≡ self.now.minds }
    {
        self.minds.lend()
    }

    // The seed with which the looks were made.
    pub(crate) fn seed(&self) -> u32
        ensures { result ≡ self.now.seed }
    {
        self.seed
    }

    // The world on which the looks were made.
    pub(crate) fn base(&self) -> &World
        ensures world { result.now ≡ self.now.base }
        ensures fits { Fits (world_of self.now.base) self.now.minds }
    {
        &self.base
    }

    // The memory of its looks, for others; the shared brains and the shared world are given back.
    pub(crate) fn into_room(self) -> Vec<Look> {
        self.looks
    }
}
