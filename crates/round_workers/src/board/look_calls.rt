// The looks of a board: putting and taking them.
//
// Each of the two is a step on the look's word, by which the seat gets the room of the look, and a second one, by which
// it gives the room back.
ghost use Rattle.std.specs.Prelude.{◌≡◌, ◌+◌, ◌-◌, ◌<◌, ◌≤◌, ◌∷◌, true, false, Some, IfSome, IfNone, OnSome};
ghost use Rattle.atomic_table.specs.Table.{rest};
ghost use Rattle.round_book.specs.Book as books;
ghost use Rattle.round_book.specs.Book.{IsLentFor, IsSameWindow, StandsFor, StandsOn};
ghost use Rattle.round_book.specs.Machine.{times};
ghost use Rattle.round_book.specs.Window.{guess_for, look_for};
ghost use Rattle.round_workers.specs.declared.board.view.Phase.TheVariants.{Resting, Putting, Taking};
ghost use Rattle.round_workers.specs.declared.board.view.BoardSlot.TheVariants.{Nothing};
ghost use Rattle.round_workers.specs.BoardPlays.{has_put, has_taken, puts_now, takes_now, took_look};
ghost use Rattle.round_workers.specs.BoardRule.{turns_of};
ghost use Rattle.round_workers.specs.Inner.BookInHand.{CanSettle};
ghost use Rattle.round_workers.specs.BoardSeats.{IsHandOf, IsMiss, IsSeatOf, basis_of, known, board_window};

use crate::board::places::look_room;
use crate::board::room::Room;
use crate::board::seat::{Board, FULL, Hand, Seat};
use crate::board::view::BoardSlot;
use ant_random::Stream;
use round_book::{Book, Field, advance};
use spec_record::Look;

// The slot of the look of ticket 0.
const FIRST_SLOT: usize = 1;

impl Board {
    /// Puts the look at a turn. The turn is one of the window, the seat drew its ticket and hasn't put it, and the look
    /// is that at the turn on the window's base at its guess.
    pub fn put(&self, seat: &mut Seat, look: Look)
        requires board { IsSeatOf self.now seat.old }
        requires after_from { (basis_of self.now).from ≤ look.turn }
        requires before_to { look.turn < (basis_of self.now).to }
        requires drew { 1 ≤ times (look.turn - (basis_of self.now).from) (known seat.old).drawn }
        requires unput { times (look.turn - (basis_of self.now).from) (known seat.old).put ≡ 0 }
        requires look { look ≡ look_for (board_window self.now) look.turn }
        ensures board { IsSeatOf self.now seat.new }
        ensures put { known seat.new ≡ has_put (known seat.old) (look.turn - (basis_of self.now).from) }
    {
        let ticket = (look.turn() - self.from) as usize;
        self.put_at(seat, ticket, look);
    }

    // Puts the look of a ticket.
    #[inline]
    fn put_at(&self, seat: &mut Seat, ticket: usize, look: Look)
        requires board { IsSeatOf self.now seat.old }
        requires ticket { ticket < turns_of (basis_of self.now) }
        requires drew { 1 ≤ times ticket (known seat.old).drawn }
        requires unput { times ticket (known seat.old).put ≡ 0 }
        requires look { look ≡ look_for (board_window self.now) ((basis_of self.now).from + ticket) }
        ensures board { IsSeatOf self.now seat.new }
        ensures put { known seat.new ≡ has_put (known seat.old) ticket }
    {
        let mut room = self.begin_put(&mut seat.hand, ticket);
        room.put(look);
        self.end_put(&mut seat.hand, ticket, room);
    }

    // Makes the look of a ticket in its room, by a stream at its guess.
    #[inline]
    pub(crate) fn look_and_put(
        &self,
        seat: &mut Seat,
        field: &Field<'_>,
        stream: &mut Stream,
        ticket: u32,
    )
        requires board { IsSeatOf self.now seat.old }
        requires field { IsLentFor field.now (board_window self.now) }

        // the seat drew the ticket, and didn't put its look
        requires ticket { ticket < turns_of (basis_of self.now) }
        requires drew { 1 ≤ times ticket (known seat.old).drawn }
        requires unput { times ticket (known seat.old).put ≡ 0 }

        // the stream is at the guess of its turn
        requires seed { stream.old.seed ≡ (board_window self.now).seed }
        requires guess { stream.old.place ≡ guess_for (board_window self.now) ((basis_of self.now).from + ticket) }

        // the look is put
        ensures board { IsSeatOf self.now seat.new }
        ensures put { known seat.new ≡ has_put (known seat.old) ticket }
        ensures seed { stream.new.seed ≡ stream.old.seed }
    {
        let turn = self.turn_of(ticket);
        let mut room = self.begin_put(&mut seat.hand, ticket as usize);
        room.look_at(field, stream, turn);
        self.end_put(&mut seat.hand, ticket as usize, room);
    }

    // Gets the room of the look of a ticket, which has no look.
    #[inline]
    fn begin_put(&self, hand: &mut Hand, ticket: usize) -> Room<Look>
        requires hand { IsHandOf self.now hand.old }
        requires ticket { ticket < turns_of (basis_of self.now) }
        requires rests { hand.old.me.0.phase ≡ Resting }
        requires drew { 1 ≤ times ticket hand.old.me.0.drawn }
        requires unput { times ticket hand.old.me.0.put ≡ 0 }
        ensures table { hand.new.table_id ≡ hand.old.table_id }
        ensures puts { hand.new.me ≡ (puts_now hand.old.me.0 ticket, (ticket + 1, Nothing) ∷ hand.old.me.1) }
    {
        self.put_step(hand, ticket);
        look_room(self.exchange(hand, ticket + FIRST_SLOT, BoardSlot::Nothing))
    }

    // Gives the room back, with the look of the ticket.
    #[inline]
    fn end_put(&self, hand: &mut Hand, ticket: usize, room: Room<Look>)
        requires hand { IsHandOf self.now hand.old }
        requires ticket { ticket < turns_of (basis_of self.now) }
        requires putting { hand.old.me.0.phase ≡ Putting ticket }
        requires out { hand.old.me.1 ≡ (ticket + 1, Nothing) ∷ rest hand.old.me.1 }
        requires look { room ≡ Some (look_for (board_window self.now) ((basis_of self.now).from + ticket)) }
        ensures table { hand.new.table_id ≡ hand.old.table_id }
        ensures has_put { hand.new.me ≡ (has_put hand.old.me.0 ticket, rest hand.old.me.1) }
    {
        self.exchange(hand, ticket + FIRST_SLOT, BoardSlot::OneLook(room));
        self.has_put_step(hand, ticket);
    }

    /// Tries once to take the look at a turn, without waiting. The seat holds the book, and the turn is one of the
    /// window. A look that it gets is the one at that turn on the window's base at its guess. It gets none exactly if
    /// the look wasn't there at that moment. Either way the seat's tries rise by one, and the outcome of the try is
    /// recorded.
    pub fn take_look(&self, seat: &mut Seat, turn: u32) -> Option<Look>
        requires board { IsSeatOf self.now seat.old }
        requires holds { (known seat.old).holds ≡ true }
        requires after_from { (basis_of self.now).from ≤ turn }
        requires before_to { turn < (basis_of self.now).to }
        ensures board { IsSeatOf self.now seat.new }
        ensures look { IfSome result (λ look. look ≡ look_for (board_window self.now) turn) }
        ensures taken { OnSome result (known seat.new ≡ took_look (known seat.old) (turn - (basis_of self.now).from)) }
        ensures not_full { IfNone result (IsMiss (turn - (basis_of self.now).from) (known seat.old) (known seat.new)) }
    {
        self.take_at(seat, (turn - self.from) as usize)
    }

    // Tries to take the look of a ticket.
    #[inline]
    fn take_at(&self, seat: &mut Seat, ticket: usize) -> Option<Look>
        requires board { IsSeatOf self.now seat.old }
        requires ticket { ticket < turns_of (basis_of self.now) }
        ensures board { IsSeatOf self.now seat.new }
        ensures look { IfSome result (λ look. look ≡ look_for (board_window self.now) ((basis_of self.now).from + ticket)) }
        ensures taken { OnSome result (known seat.new ≡ took_look (known seat.old) ticket) }
        ensures not_full { IfNone result (IsMiss ticket (known seat.old) (known seat.new)) }
    {
        let Some(mut room) = self.begin_take(&mut seat.hand, ticket) else {
            return None;
        };
        let look = room.take();
        self.end_take(&mut seat.hand, ticket, room);
        look
    }

    // Tries once to settle the book's next turn by its look, without waiting. The look stays in its place meanwhile.
    #[inline]
    pub(crate) fn settle_look(&self, hand: &mut Hand, field: &Field<'_>, book: &mut Book) -> bool
        requires can { CanSettle self.now field.now hand.old }
        requires stands { StandsFor (board_window self.now) book.old }
        requires left { book.old.next < (basis_of self.now).to }
        ensures table { hand.new.table_id ≡ hand.old.table_id }
        ensures out { hand.new.me.1 ≡ hand.old.me.1 }
        ensures stands { StandsFor (board_window self.now) book.new }
        ensures taken { result ≡ true → hand.new.me.0 ≡ took_look hand.old.me.0 (book.old.next - (basis_of self.now).from) }
        ensures next { result ≡ true → book.new.next ≡ book.old.next + 1 }
        ensures not_full { result ≡ false → IsMiss (book.old.next - (basis_of self.now).from) hand.old.me.0 hand.new.me.0 }
    {
        let ticket = (book.next() - self.from) as usize;
        let Some(room) = self.begin_take(hand, ticket) else {
            return false;
        };
        settle_by(book, field, &room);
        self.end_take(hand, ticket, room);
        true
    }

    // Tries to get the room of the look of a ticket, with the look.
    #[inline]
    fn begin_take(&self, hand: &mut Hand, ticket: usize) -> Option<Room<Look>>
        requires hand { IsHandOf self.now hand.old }
        requires ticket { ticket < turns_of (basis_of self.now) }
        requires rests { hand.old.me.0.phase ≡ Resting }
        ensures table { hand.new.table_id ≡ hand.old.table_id }
        ensures look { IfSome result (λ room. room ≡ Some (look_for (board_window self.now) ((basis_of self.now).from + ticket))) }
        ensures takes { OnSome result (hand.new.me ≡ (takes_now hand.old.me.0 ticket, (ticket + 1, Nothing) ∷ hand.old.me.1)) }
        ensures not_full { IfNone result (IsMiss ticket hand.old.me.0 hand.new.me.0) }
        ensures nothing { IfNone result (hand.new.me.1 ≡ hand.old.me.1) }
    {
        let found = self.take_look_step(hand, ticket);
        if found != FULL {
            return None;
        }
        Some(look_room(self.exchange(hand, ticket + FIRST_SLOT, BoardSlot::Nothing)))
    }

    // Gives the room back; no look waits in it any more.
    #[inline]
    fn end_take(&self, hand: &mut Hand, ticket: usize, room: Room<Look>)
        requires hand { IsHandOf self.now hand.old }
        requires ticket { ticket < turns_of (basis_of self.now) }
        requires taking { hand.old.me.0.phase ≡ Taking ticket }
        requires out { hand.old.me.1 ≡ (ticket + 1, Nothing) ∷ rest hand.old.me.1 }
        ensures table { hand.new.table_id ≡ hand.old.table_id }
        ensures has_taken { hand.new.me ≡ (has_taken hand.old.me.0 ticket, rest hand.old.me.1) }
    {
        self.exchange(hand, ticket + FIRST_SLOT, BoardSlot::Spare(room));
        self.has_taken_step(hand, ticket);
    }
}

// Settles the next turn by the look in a room, which is the one at that turn.
#[inline]
fn settle_by(book: &mut Book, field: &Field<'_>, room: &Room<Look>)
    requires stands { StandsOn field.now book.old }
    requires left { book.old.next < book.old.to }
    requires look { room.now ≡ Some (look_for (books.window_of field.now book.old.from book.old.to) book.old.next) }
    ensures stands { StandsOn field.now book.new }
    ensures next { book.new.next ≡ book.old.next + 1 }
    ensures same { IsSameWindow book.old book.new }
{
    match room.content() {
        Some(look) => advance(book, field, look),
        None => unreachable!(),
    };
}
