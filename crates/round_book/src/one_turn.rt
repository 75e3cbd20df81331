// One turn of a window.
ghost use Rattle.std.specs.Prelude.{◌≡◌, ◌+◌, ◌<◌, MatchOption};
ghost use Rattle.round_book.specs.Book.{HoldsInBook, IsCause, IsSameWindow, StandsOn, moment_of, window_of};
ghost use Rattle.round_book.specs.BookLaws.{IsSettled};
ghost use Rattle.round_book.specs.Window.{look_for};

use crate::book::Book;
use crate::field::Field;
use crate::verdict::Cause;
use spec_record::Look;

/// Settles the next turn of a window by the look at it: uses the look if it is valid, and otherwise executes the turn
/// again and returns why. The book stands on the field, the next turn is one of the window, and the look is the one at
/// that turn on the field's world at its guess. The turn is settled as the law `books_are_reached` requires, and the
/// book stands on the field again, one turn further. So a book that stands meets the conditions of `settle`.
#[inline(always)]
pub fn advance(book: &mut Book, field: &Field<'_>, look: &Look) -> Option<Cause>
    requires stands { StandsOn field.now book.old }
    requires left { book.old.next < book.old.to }
    requires look { look.now ≡ look_for (window_of field.now book.old.from book.old.to) book.old.next }
    ensures answer { MatchOption result (HoldsInBook book.old look.now) (λ cause. IsCause look.now (moment_of book.old) cause) }
    ensures settled { IsSettled field.now.minds look.now result book.old book.new }
    ensures stands { StandsOn field.now book.new }
    ensures next { book.new.next ≡ book.old.next + 1 }
    ensures same { IsSameWindow book.old book.new }
{
    match book.settle_by(look) {
        None => None,
        Some(cause) => {
            book.redo(field.brains(), cause);
            Some(cause)
        }
    }
}
