// Workers, which make the looks of a window.
ghost use Rattle.std.specs.Prelude.{◌≡◌, ◌+◌, ◌-◌, ◌<◌, ◌≤◌, ℕ, true, false, length, IsSomeAnd};
ghost use Rattle.std.specs.List.{AllByRecursion};
ghost use Rattle.std.specs.Vec.{vec_capacity};
ghost use Rattle.round_book.specs.Book.{IsLentFor, StandsFor};
ghost use Rattle.round_book.specs.Machine.{times};
ghost use Rattle.round_book.specs.Window.{guesses_for};
ghost use Rattle.round_workers.specs.Inner.BookInHand.{CanSettle, HasSettled};
ghost use Rattle.round_workers.specs.BoardSeats.{IsSeatOf, known, board_window};
ghost use Rattle.round_workers.specs.BoardTotals.{late_among};
ghost use Rattle.round_workers.specs.BoardWorker.{HasServed, IsWorker, turns_in};

use crate::board::looks::reach;
use crate::board::room::Room;
use crate::board::seat::{Board, Hand, Seat};
use ant_base::Gate;
use ant_random::Stream;
use round_book::{Book, Field};

/// A worker that makes looks on a board: its number, its seat, and the turns whose looks it made, in order. Its seat
/// isn't the first one, doesn't hold the book, and has only its own number as a part. It put the look of each turn of
/// the window that it drew, and `made` lists these turns.
#[derive(Drop)]
pub struct Worker {
    /// The number under which it announces its looks.
    pub number: u32,
    /// Its seat.
    pub seat: Seat,
    /// The turns whose looks it made, in order.
    pub made: Vec<u32>,
    pub ghost works: { IsWorker seat.hand.me.0 made.items },
}

impl Worker {
    /// Draws tickets until one is after the window, makes the look of each turn and puts it, and after each tries once
    /// for the book. With the book it settles the next turns until a look isn't there.
    ///
    /// The seat is one of this board, which was opened, and has drawn no ticket after the window yet. The field is lent
    /// for the board's window, and the guesses are those for it; `made` has room for all of its turns. Afterwards the
    /// worker's number and its seat's are unchanged, and the board is open to the seat. A ticket after the window was
    /// drawn, each turn that the seat drew was put as often, and each put was followed by a try for the book. `made`
    /// has the same room. It takes no memory.
    pub fn work<G: Gate>(&mut self, board: &Board, field: &Field<'_>, guesses: &[u64], gate: &G)
        requires board { IsSeatOf board.now self.old.seat }
        requires opened { (known self.old.seat).opened ≡ true }
        requires early { AllByRecursion (λ k. k < turns_in (board_window board.now)) (known self.old.seat).drawn }

        // what it works with
        requires field { IsLentFor field.now (board_window board.now) }
        requires guesses { guesses.now ≡ guesses_for (board_window board.now) }
        requires room { turns_in (board_window board.now) ≤ vec_capacity self.old.made }

        // it is still the same worker
        ensures number { self.new.number ≡ self.old.number }
        ensures board { IsSeatOf board.now self.new.seat }
        ensures seat_number { (known self.new.seat).number ≡ (known self.old.seat).number }
        ensures opened { (known self.new.seat).opened ≡ true }

        // its work is done: no turn is left to be drawn, and each that it drew was put and tried
        ensures late { 1 ≤ late_among (turns_in (board_window board.now)) (known self.new.seat).drawn }
        ensures put { (k : ℕ) → k < turns_in (board_window board.now) → times k (known self.new.seat).put ≡ times k (known self.new.seat).drawn }
        ensures room { vec_capacity self.new.made ≡ vec_capacity self.old.made }
        ensures tries { (known self.old.seat).tries + length (known self.new.seat).put ≤ (known self.new.seat).tries + length (known self.old.seat).put }
    {
        let number = self.number;
        let mut stream = Stream::from_seed(field.seed());
        'stream: while serve(
            &Task {
                board,
                field,
                guesses,
                gate,
                number,
            },
            &mut self.seat,
            &mut self.made,
            &mut stream,
        ) {}
    }
}

// What a worker works with: the board, the field and its guesses, and the gate, which it calls with its number.
#[derive(Drop)]
struct Task<'t, 'b, G: Gate> {
    board: &'t Board,
    field: &'t Field<'b>,
    guesses: &'t [u64],
    gate: &'t G,
    number: u32,
}

// Draws a ticket. If it is that of a turn, makes the look, puts it and tries for the book. Returns whether it was that
// of a turn.
#[inline]
fn serve<G: Gate>(
    task: &Task<'_, '_, G>,
    seat: &mut Seat,
    made: &mut Vec<u32>,
    stream: &mut Stream,
) -> bool
    requires board { IsSeatOf task.now.board.now seat.old }
    requires worker { IsWorker (known seat.old) made.old.items }
    requires opened { (known seat.old).opened ≡ true }
    requires early { AllByRecursion (λ k. k < turns_in (board_window task.now.board.now)) (known seat.old).drawn }

    // what it works with
    requires seed { stream.old.seed ≡ (board_window task.now.board.now).seed }
    requires field { IsLentFor task.now.field.now (board_window task.now.board.now) }
    requires guesses { task.now.guesses.now ≡ guesses_for (board_window task.now.board.now) }
    requires room { turns_in (board_window task.now.board.now) ≤ vec_capacity made.old }

    // all that the next draw needs holds again
    ensures board { IsSeatOf task.now.board.now seat.new }
    ensures worker { IsWorker (known seat.new) made.new.items }
    ensures served { HasServed (turns_in (board_window task.now.board.now)) (known seat.old) (known seat.new) result }
    ensures seed { stream.new.seed ≡ stream.old.seed }
    ensures room { vec_capacity made.new ≡ vec_capacity made.old }
{
    let board = task.board;
    let ticket = board.draw(seat);
    if ticket >= board.turns() {
        return false;
    }
    let turn = board.turn_of(ticket);
    task.gate.before_look(task.number, turn);
    reach(stream, task.guesses[ticket as usize]);
    board.look_and_put(seat, task.field, stream, ticket);
    made.push_reserved(turn);
    board.settle_with_book(seat, task.field);
    true
}

impl Room<Book> {
    // Settles the next turns of the book in the room until a look isn't there. The seat has the room in hand.
    #[inline]
    pub(crate) fn settle(&mut self, board: &Board, hand: &mut Hand, field: &Field<'_>)
        requires can { CanSettle board.now field.now hand.old }
        requires stands { IsSomeAnd self.old (StandsFor (board_window board.now)) }
        ensures settled { HasSettled hand.old hand.new }
        ensures stands { IsSomeAnd self.new (StandsFor (board_window board.now)) }
    {
        settle_in(&mut self.content, board, hand, field);
    }
}

// The same for the book itself.
#[inline]
fn settle_in(content: &mut Option<Book>, board: &Board, hand: &mut Hand, field: &Field<'_>)
    requires can { CanSettle board.now field.now hand.old }
    requires stands { IsSomeAnd content.old (StandsFor (board_window board.now)) }
    ensures settled { HasSettled hand.old hand.new }
    ensures stands { IsSomeAnd content.new (StandsFor (board_window board.now)) }
{
    match content {
        Some(book) => settle_looks(board, hand, field, book),
        None => unreachable!(),
    }
}

// Settles the next turns of the book until a look isn't there.
#[inline]
fn settle_looks(board: &Board, hand: &mut Hand, field: &Field<'_>, book: &mut Book)
    requires can { CanSettle board.now field.now hand.old }
    requires stands { StandsFor (board_window board.now) book.old }
    ensures settled { HasSettled hand.old hand.new }
    ensures stands { StandsFor (board_window board.now) book.new }
{
    while book.next() < board.end() {
        if !board.settle_look(hand, field, book) {
            return;
        }
    }
}
