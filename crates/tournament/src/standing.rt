// The standing of a cup.
ghost use Rattle.std.specs.Prelude.{◌≡◌, ◌<◌, length, slice_get, Some};

use std::marker::Model;

/// A player's line of a standing.
#[derive(Clone, Copy, Debug, PartialEq, Eq)]
pub struct Line {
    /// The player's number, from 0.
    pub player: u32,
    /// 2 for each win and 1 for each draw (the task's game play).
    pub points: u32,
    /// How many games it won.
    pub won: u32,
    /// How many games it drew.
    pub drawn: u32,
    /// How many games it lost.
    pub lost: u32,
    /// The player's food, over all its games.
    pub food_for: u64,
    /// Its opponents' food, over the same games.
    pub food_against: u64,
}

/// The lines of a cup's players, best first. Contracts see the list of the lines.
#[derive(Drop)]
pub struct Standing {
    lines: Vec<Line>,
}

impl Model for Standing {
    ghost use Rattle.std.specs.Prelude.{List};
    ghost use Rattle.tournament.specs.declared.standing.Line.{Line};

    ghost Value = { List Line };

    ghost view = { λ standing. standing.lines.items };
}

impl Standing {
    pub(crate) fn from_list(lines: Vec<Line>) -> Standing
        ensures { result ≡ lines.items }
    {
        Standing { lines }
    }

    /// The number of lines, one for each player. It takes no memory.
    #[inline]
    pub fn len(&self) -> usize
        ensures { result ≡ length self.now }
    {
        self.lines.len()
    }

    /// The line at this place, counted from 0 and below the length. It takes no memory.
    #[inline]
    pub fn item(&self, i: usize) -> Line
        requires { i < length self.now }
        ensures { slice_get self.now i ≡ Some result }
    {
        self.lines[i]
    }
}
