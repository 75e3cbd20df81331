// Laws of boards.
ghost use Rattle.round_workers.specs.BoardLaws.{BoardStepsAreEvents, BoardsAreReached, BoardsSay};

/// A law: what holds of a board between any two steps of its seats: which tickets were drawn, that the book is home and
/// stands or is with one seat, and what the word of each look says. The call does nothing: its clause is the law.
pub fn boards_say()
    ensures { BoardsSay }
{}

/// A law: the step by which a ticket is drawn, and the one by which a look is home again after it was put, are events
/// of the workers on the board's window, and lawful when they happen. The call does nothing: its clause is the law.
pub fn board_steps_are_events()
    ensures { BoardStepsAreEvents }
{}

/// A law: whatever the state of a board, lawful events of the workers on its window lead to a state with the same
/// number of tickets drawn and the looks of the same turns put. If the looks of all turns that a book of the window has
/// settled were put, they lead to such a state that also matches the book. The call does nothing: its clause is the
/// law.
pub fn boards_are_reached()
    ensures { BoardsAreReached }
{}
