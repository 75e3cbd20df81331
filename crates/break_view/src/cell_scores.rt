// The score of a world, kept up to date from turn to turn.
ghost use Rattle.std.specs.Prelude.{◌≡◌, ◌+◌, ◌-◌};
ghost use Rattle.break_view.specs.Inner.CellScores as cell_scores;

use cell_world::{Cell, Colour, Score};

// The food that a cell adds to the hills: none if there is no cell.
#[inline]
pub(crate) fn score_in_any(cell: Option<Cell>) -> Score
    ensures { result ≡ cell_scores.score_in_any cell }
{
    match cell {
        Some(cell) => score_in(cell),
        None => Score { red: 0, black: 0 },
    }
}

// The food that a cell adds to the hills: all that lies on it, for the hill to which it belongs.
#[inline]
fn score_in(cell: Cell) -> Score
    ensures { result ≡ cell_scores.score_in cell }
{
    match cell.hill {
        Some(Colour::Red) => Score {
            red: cell.food,
            black: 0,
        },
        Some(Colour::Black) => Score {
            red: 0,
            black: cell.food,
        },
        None => Score { red: 0, black: 0 },
    }
}

// The score after a cell adds this, instead of what it added before.
#[inline]
pub(crate) fn count_again(score: Score, before: Score, now: Score) -> Score
    requires { cell_scores.CanCount score before now }
    ensures red { result.red ≡ score.red + now.red - before.red }
    ensures black { result.black ≡ score.black + now.black - before.black }
{
    Score {
        red: score.red + now.red - before.red,
        black: score.black + now.black - before.black,
    }
}
