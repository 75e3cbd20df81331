// The guesses of a window's turns.
ghost use Rattle.std.specs.Prelude.{◌≡◌, ◌+◌, ◌<◌, ◌≤◌, ◌^◌, IfOk};
ghost use Rattle.round_book.specs.Book.{CanBegin, window_of};
ghost use Rattle.round_book.specs.Window.{guess_for, guesses_for};
ghost use Rattle.far_crew.specs.Inner.Turns.{AreTurnsOf, window_on};

use hex_geometry::OutOfMemory;
use round_book::Field;
use spec_record::guesses;
use std::alloc::Global;

// Turns, those of the ids from `from` up to, but not including, `to`, with the guess for each.
#[derive(Clone, Copy)]
pub struct GuessedTurns<'g> {
    pub from: u32,
    pub to: u32,
    pub guesses: &'g [u64],
}

// The guess for each turn of a window.
pub fn guesses_in(
    alloc: Global,
    field: &Field<'_>,
    from: u32,
    to: u32,
) -> Result<Vec<u64>, OutOfMemory>
    requires { CanBegin field.now from to }
    ensures { IfOk result (λ all. all.items ≡ guesses_for (window_of field.now from to)) }
{
    guesses(
        alloc,
        field.world(),
        field.brains(),
        field.place(),
        from,
        to,
    )
}

// The guess for a turn.
#[inline]
pub fn guess_of(field: &Field<'_>, turns: &GuessedTurns<'_>, id: u32) -> u64
    requires turns { AreTurnsOf field.now turns.now }
    requires first { turns.now.from ≤ id }
    requires last { id < turns.now.to }
    ensures guess { result ≡ guess_for (window_on field.now turns.now) id }
    ensures small { result + 1 < 2 ^ 63 }
{
    turns.guesses[(id - turns.from) as usize]
}
