// The guesses for the turns of a window: the places of their random numbers.
ghost use Rattle.std.specs.Prelude.{◌≡◌, ◌+◌, ◌-◌, ◌<◌, ◌≤◌, OnOk};
ghost use Rattle.round_book.specs.Book.{CanBegin, window_of};
ghost use Rattle.round_book.specs.Window.{guess_for, guesses_for};

use crate::share::Turns;
use hex_geometry::OutOfMemory;
use round_book::Field;
use spec_record::guess_at;

// The guess for a turn of a window, or for the one after its last turn, from that for an earlier one.
#[inline]
pub fn guess_on(field: &Field<'_>, turns: Turns, guess: u64, at: u32, id: u32) -> u64
    requires window { CanBegin field.now turns.from turns.to }
    requires first { turns.from ≤ at }
    requires forwards { at ≤ id }
    requires last { id ≤ turns.to }
    requires guess { guess ≡ guess_for (window_of field.now turns.from turns.to) at }
    ensures { result ≡ guess_for (window_of field.now turns.from turns.to) id }
{
    guess_at(field.world(), field.brains(), guess, at, id)
}

// Lists the guess for each turn of a window, in order, and drops what was in the list.
pub fn list_guesses(
    guesses: &mut Vec<u64>,
    field: &Field<'_>,
    turns: Turns,
) -> Result<(), OutOfMemory>
    requires { CanBegin field.now turns.from turns.to }
    ensures { OnOk result (guesses.new.items ≡ guesses_for (window_of field.now turns.from turns.to)) }
{
    guesses.clear();
    guesses.reserve((turns.to - turns.from) as usize)?;
    let mut guess = field.place();
    for id in turns.from..turns.to {
        guesses.push_reserved(guess);
        guess = guess_on(field, turns, guess, id, id + 1);
    }
    Ok(())
}
