// The book of a board: opening, taking and giving it.
ghost use Rattle.std.specs.Prelude.{◌≡◌, ◌+◌, ◌≤◌, ◌∷◌, true, false, Some, IfSome, IfNone, IsSomeAnd, OnSome};
ghost use Rattle.atomic_table.specs.Table.{rest};
ghost use Rattle.round_book.specs.Book.{IsLentFor, StandsFor};
ghost use Rattle.round_workers.specs.declared.board.view.BoardSlot.TheVariants.{Nothing};
ghost use Rattle.round_workers.specs.declared.board.view.Try.TheVariants.{OfBook};
ghost use Rattle.round_workers.specs.BoardPlays.{after_try, has_seen, with_book, without_book};
ghost use Rattle.round_workers.specs.BoardSeats.{IsHandOf, IsSeatOf, known, board_window};
ghost use Rattle.round_workers.specs.BoardView.{book_out};
ghost use Rattle.round_workers.specs.BoardWorker.{IsSameButTook};

use crate::board::places::book_room;
use crate::board::room::Room;
use crate::board::seat::{Board, HOME, Hand, Seat};
use crate::board::view::BoardSlot;
use round_book::{Book, Field};

// The slot of the book.
const SLOT: usize = 0;

impl Board {
    /// Puts the book into its slot, once. The seat is the first one and hasn't opened the book yet. The book stands for
    /// the board's window, with no turn settled.
    pub fn open_book(&self, seat: &mut Seat, book: Book)
        requires board { IsSeatOf self.now seat.old }
        requires first { (known seat.old).number ≡ 0 }
        requires unopened { (known seat.old).opened ≡ false }
        requires stands { StandsFor (board_window self.now) book }
        requires begins { book.next ≡ book.from }
        ensures board { IsSeatOf self.now seat.new }
        ensures opened { known seat.new ≡ has_seen (known seat.old) }
    {
        self.open_step(&mut seat.hand);
        let place = self.exchange(&mut seat.hand, SLOT, BoardSlot::Nothing);
        let mut room = book_room(place);
        room.put(book);
        self.exchange(&mut seat.hand, SLOT, BoardSlot::TheBook(room));
        self.opened_step(&mut seat.hand);
    }

    /// Tries once to take the book, without waiting. The seat has seen the book opened, and doesn't hold it. A book
    /// that it gets stands for the board's window. It gets none only if another seat held the book at that moment.
    /// Either way the seat's tries rise by one, and the outcome of the try is recorded.
    pub fn take_book(&self, seat: &mut Seat) -> Option<Book>
        requires board { IsSeatOf self.now seat.old }
        requires opened { (known seat.old).opened ≡ true }
        requires free { (known seat.old).holds ≡ false }
        ensures board { IsSeatOf self.now seat.new }
        ensures stands { IfSome result (StandsFor (board_window self.now)) }
        ensures taken { OnSome result (known seat.new ≡ with_book (known seat.old)) }
        ensures held_by_another { IfNone result (known seat.new ≡ after_try (known seat.old) (OfBook book_out)) }
    {
        let Some(mut room) = self.begin_book(&mut seat.hand) else {
            return None;
        };
        let book = room.take();
        self.exchange(&mut seat.hand, SLOT, BoardSlot::TheBook(room));
        book
    }

    /// Gives the book back. The seat holds it, and the book stands for the board's window.
    pub fn give_book(&self, seat: &mut Seat, book: Book)
        requires board { IsSeatOf self.now seat.old }
        requires holds { (known seat.old).holds ≡ true }
        requires stands { StandsFor (board_window self.now) book }
        ensures board { IsSeatOf self.now seat.new }
        ensures given { known seat.new ≡ without_book (known seat.old) }
    {
        let place = self.exchange(&mut seat.hand, SLOT, BoardSlot::Nothing);
        let mut room = book_room(place);
        room.put(book);
        self.end_book(&mut seat.hand, room);
    }

    // Tries once for the book, without waiting, and with it settles turns until the next turn's look isn't there. The
    // book stays in its room meanwhile.
    #[inline]
    pub(crate) fn settle_with_book(&self, seat: &mut Seat, field: &Field<'_>)
        requires board { IsSeatOf self.now seat.old }
        requires opened { (known seat.old).opened ≡ true }
        requires free { (known seat.old).holds ≡ false }
        requires field { IsLentFor field.now (board_window self.now) }
        ensures board { IsSeatOf self.now seat.new }
        ensures same { IsSameButTook (known seat.old) (known seat.new) }
        ensures tried { (known seat.old).tries + 1 ≤ (known seat.new).tries }
    {
        let Some(mut room) = self.begin_book(&mut seat.hand) else {
            return;
        };
        room.settle(self, &mut seat.hand, field);
        self.end_book(&mut seat.hand, room);
    }

    // Tries to get the room of the book, with the book.
    #[inline]
    fn begin_book(&self, hand: &mut Hand) -> Option<Room<Book>>
        requires hand { IsHandOf self.now hand.old }
        requires opened { hand.old.me.0.opened ≡ true }
        requires free { hand.old.me.0.holds ≡ false }
        ensures table { hand.new.table_id ≡ hand.old.table_id }
        ensures stands { IfSome result (λ room. IsSomeAnd room (StandsFor (board_window self.now))) }
        ensures takes { OnSome result (hand.new.me ≡ (with_book hand.old.me.0, (0, Nothing) ∷ hand.old.me.1)) }
        ensures held_by_another { IfNone result (hand.new.me ≡ (after_try hand.old.me.0 (OfBook book_out), hand.old.me.1)) }
    {
        let found = self.take_book_step(hand);
        if found != HOME {
            return None;
        }
        Some(book_room(self.exchange(hand, SLOT, BoardSlot::Nothing)))
    }

    // Gives the room back, with the book.
    #[inline]
    fn end_book(&self, hand: &mut Hand, room: Room<Book>)
        requires hand { IsHandOf self.now hand.old }
        requires holds { hand.old.me.0.holds ≡ true }
        requires out { hand.old.me.1 ≡ (0, Nothing) ∷ rest hand.old.me.1 }
        requires stands { IsSomeAnd room (StandsFor (board_window self.now)) }
        ensures table { hand.new.table_id ≡ hand.old.table_id }
        ensures gives { hand.new.me ≡ (without_book hand.old.me.0, rest hand.old.me.1) }
    {
        self.exchange(hand, SLOT, BoardSlot::TheBook(room));
        self.give_book_step(hand);
    }
}
