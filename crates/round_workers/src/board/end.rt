// The end of a board.
ghost use Rattle.std.specs.Prelude.{◌≡◌, ◌+◌, ◌-◌, ◌<◌, ◌≤◌, ℕ, true, false, [], length, map, slice_index_or, None};
ghost use Rattle.std.specs.Mem.Slots.{slots_filled, slots_items, slots_len};
ghost use Rattle.std.specs.Vec.{vec_capacity, vec_len};
ghost use Rattle.round_book.specs.Book.{StandsFor};
ghost use mathlib.Core.Option.{some};
ghost use lib.ListN.{get_elem?};
ghost use Rattle.round_book.specs.Machine.{times};
ghost use Rattle.round_workers.specs.Inner.BoardPlaces.{AreTaken, look_in};
ghost use Rattle.round_workers.specs.BoardLaws.{IsWhereClosed, Way};
ghost use Rattle.round_workers.specs.BoardTotals.{once_below};
ghost use Rattle.round_workers.specs.BoardSeats.{IsSeatOf, basis_of, known, left_look, board_window};

use crate::board::places::look_out_of;
use crate::board::room::Room;
use crate::board::seat::{Board, Seat};
use crate::board::view::BoardSlot;
use round_book::Book;
use spec_record::Look;
use std::alloc::Global;

/// What is left of a board: its book, the looks that were put and not taken, by ticket, and how many tickets were
/// drawn.
#[derive(Drop)]
pub struct Closed {
    /// The book.
    pub book: Book,
    /// For each turn of the window, in order, its look if it was put and not taken.
    pub looks: Vec<Option<Look>>,
    /// How many tickets were drawn.
    pub drawn: u32,
}

impl Board {
    /// Ends a board. The seat is the first one, every seat that it made was joined into it, and it has opened the book
    /// and doesn't hold it. The book stands for the board's window. A look is left for each turn that the seat, with
    /// all seats joined into it, put and didn't take. The tickets that they drew are the numbers below the count, each
    /// once. Lawful events lead from the window to the board's end. It takes no memory.
    pub fn close(self, seat: Seat) -> Closed
        requires board { IsSeatOf self seat }
        requires first { (known seat).number ≡ 0 }

        // all were joined into it, so that it knows each event
        requires whole { (k : ℕ) → k ≤ (known seat).made → 1 ≤ times k (known seat).parts }
        requires opened { (known seat).opened ≡ true }
        requires free { (known seat).holds ≡ false }

        // the workers together played the window so far
        ensures book { StandsFor (board_window self) result.book }
        ensures drawn { (k : ℕ) → times k (known seat).drawn ≡ once_below k result.drawn }
        ensures reached { Way (board_window self) (IsWhereClosed (board_window self) result.drawn (known seat).put) }

        // the looks that no seat took
        ensures turns { length result.looks.items ≡ (basis_of self).to - (basis_of self).from }
        ensures looks { (k : ℕ) → k < (basis_of self).to - (basis_of self).from
            → slice_index_or result.looks.items k None ≡ left_look (board_window self) (known seat) k }
    {
        let Ended {
            book,
            home: _,
            places,
            room,
            drawn,
        } = self.take_apart(seat);
        Closed {
            book,
            looks: looks_out_of(places, room),
            drawn,
        }
    }
}

// What is left of a board: its book and the book's room, the places of its looks, by ticket, room for as many looks,
// and how many tickets were drawn.
#[derive(Drop)]
pub(crate) struct Ended {
    pub(crate) book: Book,
    pub(crate) home: Room<Book>,
    pub(crate) places: Vec<BoardSlot>,
    pub(crate) room: Vec<Option<Look>>,
    pub(crate) drawn: u32,
}

// The looks in these places, in order, in a room for them.
fn looks_out_of(places: Vec<BoardSlot>, mut room: Vec<Option<Look>>) -> Vec<Option<Look>>
    requires bare { room.items ≡ [] }
    requires roomy { vec_len places ≤ vec_capacity room }
    ensures { result.items ≡ map look_in places.items }
{
    let mut rest = places.into_iter();
    while let Some(place) = rest.next() {
        room.push_reserved(look_out_of(place));
    }
    room
}

// Takes what is in a slot, after the slots before it were taken.
pub(crate) fn take_slot(closed: &mut atomic_table::Closed<BoardSlot, Global>, i: usize) -> BoardSlot
    requires inside { i < slots_len closed.old.slots }
    requires taken { AreTaken i (slots_len closed.old.slots) (slots_filled closed.old.slots) }
    ensures value { get_elem? (slots_items closed.old.slots) i ≡ some result }
    ensures items { slots_items closed.new.slots ≡ slots_items closed.old.slots }
    ensures len { slots_len closed.new.slots ≡ slots_len closed.old.slots }
    ensures taken { AreTaken (i + 1) (slots_len closed.new.slots) (slots_filled closed.new.slots) }
{
    closed.take(i)
}
