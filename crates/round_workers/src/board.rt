// A board: the tickets, the book and the looks of a window, passed between threads.
ghost use Rattle.std.specs.Prelude.{◌≡◌, ◌≢◌, ℕ, false, ◌+◌, ◌-◌, ◌<◌, ◌≤◌, IfOk};
ghost use Rattle.std.specs.List.{AllByRecursion};
ghost use Rattle.round_book.specs.Book.{CanBegin, window_of};
ghost use Rattle.round_book.specs.Machine.{times};
ghost use Rattle.round_workers.specs.BoardPlays.{drew, views_joined, made_one, newcomer};
ghost use Rattle.round_workers.specs.BoardRule.{turns_of};
ghost use Rattle.round_workers.specs.BoardSeats.{IsSeatOf, basis_of, known};
ghost use Rattle.round_workers.specs.BoardView.{first_seat, window_for};
ghost use Rattle.round_workers.specs.Crews.{most_workers};

mod book_calls;
mod crew;
mod end;
mod law;
mod look_calls;
mod looks;
mod places;
mod room;
mod seat;
mod stock;
mod view;
mod worker;

use crate::board::stock::Stock;
use crate::share::Turns;
pub use crew::BoardCrew;
pub use end::Closed;
use hex_geometry::OutOfMemory;
pub use room::Room;
use round_book::Field;
pub use seat::{Board, Seat};
use spec_record::Look;
use std::alloc::Global;
pub use view::{Basis, BoardSlot, Phase, Try, View};
pub use worker::Worker;

impl Board {
    /// A board for the window of the turns of the ids from `from` up to, but not including, `to`, of a field, and its
    /// first seat. The seat knows the window. No ticket is drawn, no look is put, and the book isn't there yet. The
    /// field is whole, `from` is at most `to`, `to` is at most the number of ids, and the place plus the number of
    /// turns is below 2^63. It fails only if memory runs out. It takes the memory for all looks, and for the list of
    /// those that are left at the end.
    pub fn new(
        alloc: Global,
        field: &Field<'_>,
        from: u32,
        to: u32,
    ) -> Result<(Board, Seat), OutOfMemory>
        requires { CanBegin field.now from to }
        ensures window { IfOk result (λ made. window_for (basis_of made.0) ≡ window_of field.now from to) }
        ensures board { IfOk result (λ made. IsSeatOf made.0 made.1) }
        ensures first { IfOk result (λ made. known made.1 ≡ first_seat (basis_of made.0)) }
    {
        Board::over(alloc, field, Turns { from, to }, &mut Stock::new(alloc))
    }

    // How many turns the window has.
    #[inline]
    pub(crate) fn turns(&self) -> u32
        ensures { result ≡ turns_of (basis_of self.now) }
    {
        self.to - self.from
    }

    // The end of the window.
    #[inline]
    pub(crate) fn end(&self) -> u32
        ensures { result ≡ (basis_of self.now).to }
    {
        self.to
    }

    // The turn of a ticket.
    #[inline]
    pub(crate) fn turn_of(&self, ticket: u32) -> u32
        requires { ticket < turns_of (basis_of self.now) }
        ensures { result ≡ (basis_of self.now).from + ticket }
    {
        self.from + ticket
    }

    /// Draws the next ticket. The tickets of a board are the numbers from 0, and each is drawn once, by one of the
    /// seats. Ticket k is for turn number k of the window; a ticket after the last turn means that all turns are drawn.
    /// The seat has drawn no such ticket yet. The ticket is higher than all that the seat drew before.
    #[inline]
    pub fn draw(&self, seat: &mut Seat) -> u32
        requires board { IsSeatOf self.now seat.old }
        requires early { AllByRecursion (λ k. k < turns_of (basis_of self.now)) (known seat.old).drawn }
        ensures board { IsSeatOf self.now seat.new }
        ensures drew { known seat.new ≡ drew (known seat.old) result }
        ensures greater { AllByRecursion (λ k. k < result) (known seat.old).drawn }
    {
        let ticket = self.draw_step(&mut seat.hand);
        ticket as u32
    }

    /// Makes another seat of this board. It knows the same window, and has seen the book opened if the first seat has.
    /// Its number, which is its only part, is the count of the seats that were made, from 1. The given seat is the
    /// first one, and has made fewer than 16.
    pub fn split(&self, seat: &mut Seat) -> Seat
        requires board { IsSeatOf self.now seat.old }
        requires first { (known seat.old).number ≡ 0 }
        requires few { (known seat.old).made < most_workers }
        ensures board { IsSeatOf self.now seat.new }
        ensures made { known seat.new ≡ made_one (known seat.old) }
        ensures new_board { IsSeatOf self.now result }
        ensures newcomer { known result ≡ newcomer (known seat.old) }
    {
        let hand = self.split_step(&mut seat.hand);
        Seat { hand }
    }

    /// Joins another seat of this board into one: its parts, and the tickets that it drew, put and took, are added
    /// after the seat's own; no ticket is in both lists. The other one isn't the first seat, and doesn't hold the book.
    pub fn join(&self, seat: &mut Seat, other: Seat)
        requires board { IsSeatOf self.now seat.old }
        requires other_board { IsSeatOf self.now other }
        requires other_first { (known other).number ≢ 0 }
        requires free { (known other).holds ≡ false }
        ensures board { IsSeatOf self.now seat.new }
        ensures joined { known seat.new ≡ views_joined (known seat.old) (known other) }
        ensures apart { (k : ℕ) → times k (known seat.old).drawn + times k (known other).drawn ≤ 1 }
    {
        let Seat { hand } = other;
        self.join_step(&mut seat.hand, hand);
        self.see_each_once_step(&mut seat.hand);
    }
}
