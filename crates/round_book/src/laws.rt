// Laws of windows.
ghost use Rattle.round_book.specs.BookLaws.{BooksAreReached, StandingBooksSettle};
ghost use Rattle.round_book.specs.CountLaws.{CausesRefute, CountsAddUp, SingleTurnsAreTaken, TakenWhereItHolds};
ghost use Rattle.round_book.specs.MachineLaws.{EveryInterleaving, PutTurnsSettle};

/// A law: whatever workers do in whatever order, the settled turns did what the turns of the window do one after
/// another, with their verdicts in order. Each drawn ticket is in one hand, and each look was put by the hand that drew
/// its ticket. The call does nothing: its clause is the law.
pub fn every_interleaving()
    ensures { EveryInterleaving }
{}

/// A law: once the look at the next turn of a window is put, there is a verdict by which workers may settle the turn,
/// in every state. So the workers never stop because a verdict is missing. The call does nothing: its clause is the
/// law.
pub fn put_turns_settle()
    ensures { PutTurnsSettle }
{}

/// A law: if a book stands for a window, and its next turn is one of the window's, then the look at that turn on the
/// window's base at its guess meets the conditions of `settle`. The book still stands for the window after a `settle`
/// that returns nothing, and after a `settle` that returns a cause followed by the `redo` for that cause by the
/// window's brains. The call does nothing: its clause is the law.
pub fn standing_books_settle()
    ensures { StandingBooksSettle }
{}

/// A law: a book at the start of a window matches the first state of the workers on that window; lawful events lead
/// from there to every book that stands; and settling its next turn, whose look was put, is one event. The call does
/// nothing: its clause is the law.
pub fn books_are_reached()
    ensures { BooksAreReached }
{}

/// A law: the number of looks that are used and the number of turns that are executed again add up to the number of
/// turns of the window. The call does nothing: its clause is the law.
pub fn counts_add_up()
    ensures { CountsAddUp }
{}

/// A law: in a window of one turn the look is used. The call does nothing: its clause is the law.
pub fn single_turns_are_taken()
    ensures { SingleTurnsAreTaken }
{}

/// A law: a turn counts as settled by its look exactly if the look is valid at that turn. Workers, tickets and the
/// order of events play no part. The call does nothing: its clause is the law.
pub fn taken_where_it_holds()
    ensures { TakenWhereItHolds }
{}

/// A law: if a cause may be named for executing a turn again, its look isn't valid. The call does nothing: its clause
/// is the law.
pub fn causes_refute()
    ensures { CausesRefute }
{}
