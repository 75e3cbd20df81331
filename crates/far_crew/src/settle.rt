// Settles the turns of a window by the looks that are picked.
ghost use Rattle.std.specs.Prelude.{◌≡◌, ◌+◌, ◌-◌, ◌<◌, length};
ghost use Rattle.round_book.specs.Book.{IsSameWindow, StandsOn, window_of};
ghost use Rattle.far_crew.specs.Inner.Picks.{AreFilled, ArePicked, ArePicksOf};

use crate::channels::WorkerChannels;
use crate::guesses::GuessedTurns;
use crate::pick::{Pick, look_named};
use round_book::{Book, Field, advance};
use spec_record::Look;

// Settles the turns of a window, each by the look that is picked for it.
pub fn settle(
    book: &mut Book,
    field: &Field<'_>,
    lines: &[WorkerChannels],
    own: &[Look],
    picks: &[Option<Pick>],
    turns: &GuessedTurns<'_>,
)
    requires stands { StandsOn field.now book.old }
    requires from { book.old.from ≡ turns.now.from }
    requires next { book.old.next ≡ turns.now.from }
    requires to { book.old.to ≡ turns.now.to }
    requires picks { ArePicksOf field.now turns.now lines.now own.now picks.now }
    requires filled { AreFilled picks.now (turns.now.to - turns.now.from) }
    ensures stands { StandsOn field.now book.new }
    ensures next { book.new.next ≡ turns.now.to }
    ensures same { IsSameWindow book.old book.new }
{
    for id in turns.from..turns.to {
        settle_next(book, field, lines, own, picks, (id - turns.from) as usize);
    }
}

// Settles the next turn, which has this number in the window, from 0.
fn settle_next(
    book: &mut Book,
    field: &Field<'_>,
    lines: &[WorkerChannels],
    own: &[Look],
    picks: &[Option<Pick>],
    turn: usize,
)
    requires stands { StandsOn field.now book.old }
    requires next { book.old.next ≡ book.old.from + turn }
    requires left { book.old.next < book.old.to }
    requires count { length picks.now ≡ book.old.to - book.old.from }
    requires picked { ArePicked lines.now own.now picks.now (window_of field.now book.old.from book.old.to) }
    requires filled { AreFilled picks.now (book.old.to - book.old.from) }
    ensures stands { StandsOn field.now book.new }
    ensures next { book.new.next ≡ book.old.next + 1 }
    ensures same { IsSameWindow book.old book.new }
{
    let Some(pick) = picks[turn] else {
        unreachable!()
    };
    let Some(look) = look_named(lines, own, pick) else {
        unreachable!()
    };
    advance(book, field, look);
}
