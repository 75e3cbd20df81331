// Who watches a game.
ghost use Rattle.std.specs.Prelude.{◌≡◌, ◌+◌, ◌<◌, ◌^◌, ⊤, ℕ, List, [], Some, Result, OnOk};
ghost use Rattle.ant_turn.specs.Minds.{Fits, Minds, minds_of};
ghost use Rattle.ant_turn.specs.Rounds.{Moment};
ghost use Rattle.ant_turn.specs.Turn.{turn};
ghost use Rattle.cell_world.specs.Cell.{one_if};
ghost use Rattle.cell_world.specs.Valid.{Valid};
ghost use Rattle.cell_world.specs.World.{place_in, with_cells};
ghost use Rattle.match_run.specs.Watch.{moment_of};

use crate::board::Board;
use ant_random::Stream;
use ant_turn::{Brains, act};
use cell_world::{PlacedAnt, World};

/// A watch of a game: it takes each turn of an ant that is alive and doesn't rest, and writes what it reports of that
/// turn to a log. It may end the game.
pub trait Watch {
    /// What the game is played on.
    type On: Board;

    /// What it writes to.
    type Log;

    /// Why it ends a game.
    type Stop;

    /// A piece of the report.
    ghost Told: { Type 0 };

    /// What is reported of the turn of an id in a round with this seed, from the moment before it.
    ghost telling: { Self → Minds → ℕ → ℕ → Moment → ℕ → List Told };

    /// How the pieces of a report turn one log into another; or the game was ended in them.
    ghost logs: { Self → Self.Log → Self.Log → List Told → Result (Unit {0}) Self.Stop → Type 0 };

    /// A log has room for what is reported of this number of turns.
    ghost ready: { Self → Minds → Self.Log → ℕ → Type 0 } = { λ _ _ _ _. ⊤ };

    /// Takes the turn of this ant, which is alive and doesn't rest, and reports it.
    fn turn(
        &self,
        board: &mut Self::On,
        brains: &Brains<'_>,
        stream: &mut Stream,
        standing: PlacedAnt,
        round: u32,
        log: &mut Self::Log,
    ) -> Result<(), Self::Stop>
        requires valid { Valid (Self.On.world board.old) }
        requires fit { Fits (Self.On.world board.old) (minds_of brains.now) }
        requires found { place_in (Self.On.world board.old) standing.ant.id ≡ Some standing.place }
        requires here { ((Self.On.world board.old).cells standing.place).ant ≡ Some standing.ant }
        requires up { standing.ant.resting ≡ 0 }
        requires place { stream.old.place + 1 < 2 ^ 63 }
        requires ready { ready self.now (minds_of brains.now) log.old 1 }
        ensures world { Self.On.world board.new ≡ with_cells (Self.On.world board.old)
            (turn (minds_of brains.now) stream.old.seed (Self.On.world board.old) stream.old.place standing.ant.id).cells }
        ensures stream { stream.new ≡ record stream.old {
          place = stream.old.place + one_if (turn (minds_of brains.now) stream.old.seed (Self.On.world board.old) stream.old.place standing.ant.id).drew;
        } }
        ensures fit { Fits (Self.On.world board.new) (minds_of brains.now) }
        ensures logged { logs self.now log.old log.new
            (telling self.now (minds_of brains.now) stream.old.seed round (moment_of (Self.On.world board.old) stream.old) standing.ant.id) result }
        ensures ready { OnOk result ((left : ℕ) → ready self.now (minds_of brains.now) log.old (left + 1) → ready self.now (minds_of brains.now) log.new left) };
}

/// Nobody watches: each turn is taken, nothing is reported of it, and the game isn't ended.
pub struct Nobody;

impl Watch for Nobody {
    ghost use Rattle.std.specs.Prelude.{IsTrue};
    ghost use Rattle.std.specs.Result.{is_ok};

    type On = World;

    type Log = ();

    type Stop = ();

    ghost Told = { ⊤ };

    ghost telling = { λ _ _ _ _ _ _. [] };

    ghost logs = { λ _ _ _ _ result. IsTrue (is_ok result) };

    #[inline(always)]
    fn turn(
        &self,
        board: &mut World,
        brains: &Brains<'_>,
        stream: &mut Stream,
        standing: PlacedAnt,
        _round: u32,
        _log: &mut (),
    ) -> Result<(), ()> {
        let _deed = act(board, *brains, stream, standing);
        Ok(())
    }
}
