// The referee, who returns the score of a game.
ghost use Rattle.std.specs.Prelude.{◌≡◌, ℕ, IfOk, ⊤};
ghost use Rattle.cell_world.specs.declared.score.Score.{Score};

use cell_world::Score;
use hex_geometry::OutOfMemory;
use std::alloc::Global;

/// Plays single games of a cup. Several threads may call it at the same time.
pub trait Referee: Sync {
    /// The score of the game on this world between these players, red first.
    ghost score: { Self → ℕ → ℕ → ℕ → Score };

    /// Which games it can score: world, red player, black player. An implementation may restrict this; by default it is
    /// all games.
    ghost knows: { Self → ℕ → ℕ → ℕ → Type 0 } = { λ _ _ _ _. ⊤ };

    /// Plays the game on the world with this number, with these players as red and as black, all counted from 0, and
    /// returns its score. It fails only if memory runs out.
    fn game(&self, alloc: Global, world: u32, red: u32, black: u32) -> Result<Score, OutOfMemory>
        requires { knows self.now world red black }
        ensures { IfOk result (λ made. made ≡ score self.now world red black) };
}
