// Rounds that are played before breaks are checked.
ghost use Rattle.std.specs.Prelude.{◌≡◌, ◌+◌, ◌*◌, ◌<◌, ◌≤◌, ◌^◌};
ghost use Rattle.ant_turn.specs.Minds.{Fits, minds_of};
ghost use Rattle.ant_turn.specs.Rounds.{after_rounds};
ghost use Rattle.cell_world.specs.Grid.{world_of};
ghost use Rattle.cell_world.specs.Limits.{most_ants};
ghost use Rattle.match_run.specs.Inner.Alone.{moment_from};

use ant_random::Stream;
use ant_turn::Brains;
use cell_world::World;
use match_run::{Nobody, watch_rounds};

// Plays this number of rounds, and checks no break after their turns.
pub(crate) fn pass_rounds(world: &mut World, brains: Brains<'_>, stream: &mut Stream, rounds: u32)
    requires fit { Fits (world_of world.old) (minds_of brains) }
    requires place { stream.old.place + rounds * most_ants < 2 ^ 63 }
    ensures moment { moment_from world.new stream.new ≡ after_rounds (minds_of brains.entry) stream.old.seed (moment_from world.old stream.old) rounds }
    ensures seed { stream.new.seed ≡ stream.old.seed }
    ensures place { stream.new.place ≤ stream.old.place + rounds * most_ants }
    ensures fit { Fits (world_of world.new) (minds_of brains.entry) }
{
    let _watched = watch_rounds(&Nobody, world, &brains, stream, rounds, &mut ());
}
