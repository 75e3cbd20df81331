// Rounds of a game, played one after another.
ghost use Rattle.std.specs.Prelude.{◌≡◌, ◌≤◌, true, IfOk};
ghost use Rattle.match_run.specs.GameLaws.{IsAtRound};
ghost use Rattle.match_run.specs.Run.{most_rounds};

use match_run::{Game, OutOfMemory};
use round_book::{Crew, Field};
use std::alloc::Global;

/// The game on a field after this number of rounds, played in windows of this number of turns. The field is whole and
/// at place 0.
pub fn play_game<'b, C: Crew>(
    alloc: Global,
    crew: &mut C,
    field: Field<'b>,
    window: u32,
    rounds: u32,
) -> Result<Game<'b>, OutOfMemory>
    requires ready { C.ready crew.old }
    requires whole { field.whole ≡ true }
    requires first { field.place ≡ 0 }
    requires sized { 1 ≤ window }
    requires few_rounds { rounds ≤ most_rounds }
    ensures { IfOk result (λ game. IsAtRound field.entry window rounds game) }
{
    let mut game = Game::begin(field, window);
    for _ in 0..rounds {
        game.round(alloc, crew)?;
    }
    Ok(game)
}
