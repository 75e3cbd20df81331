// Looks at the turns of a window, at their guesses.
ghost use Rattle.std.specs.Prelude.{◌≡◌, ◌+◌, ◌-◌, ◌<◌, ◌≤◌, ◌^◌};
ghost use Rattle.round_book.specs.Book.{window_of};
ghost use Rattle.round_book.specs.Window.{guesses_for, look_for};

use crate::share::Turns;
use ant_random::Stream;
use round_book::Field;
use spec_record::{Look, look};

// The look of a ticket in the window of these turns.
#[inline]
pub(crate) fn look_at(field: &Field<'_>, guesses: &[u64], turns: Turns, ticket: u32) -> Look
    requires ticket { ticket < turns.to - turns.from }
    requires ids { turns.to ≤ field.now.world.ids }
    requires lasting { field.now.place + (turns.to - turns.from) < 2 ^ 63 }
    requires guesses { guesses.now ≡ guesses_for (window_of field.now turns.from turns.to) }
    ensures { result ≡ look_for (window_of field.now turns.from turns.to) (turns.from + ticket) }
{
    look(
        field.world(),
        field.brains(),
        field.seed(),
        guesses[ticket as usize],
        turns.from + ticket,
    )
}

// The most places that a stream is moved by single steps; a longer way is a jump.
const WALK: u64 = 64;

// Moves a stream to a place.
#[inline]
pub(crate) fn reach(stream: &mut Stream, place: u64)
    requires { place < 2 ^ 63 }
    ensures place { stream.new.place ≡ place }
    ensures seed { stream.new.seed ≡ stream.old.seed }
{
    let at = stream.place();
    if place < at || place - at > WALK {
        *stream = Stream::at_place_uncounted(stream.seed(), place);
        return;
    }
    while stream.place() < place {
        stream.draw(1);
    }
}
