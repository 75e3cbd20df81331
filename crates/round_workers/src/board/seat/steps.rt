// The table of a board: building it, stepping on it, and taking it apart.
//
// A step is one of the functions below. Each is one call of `atomic_table` on one word, with these numbers. Callers
// elsewhere know of the table only what the clauses of these functions say.
ghost use Rattle.std.specs.Prelude.{◌≡◌, ◌≢◌, [], ◌∷◌, ◌+◌, ◌-◌, ◌<◌, ◌≤◌, ◌^◌, ℕ, true, false, length, slice_index_or, Some, None, Option, replicate, IfErr, IfOk, OnOk, IsSomeAnd};
ghost use Rattle.std.specs.List.{AllByRecursion};
ghost use Rattle.std.specs.Vec.{vec_capacity, vec_len};
ghost use Rattle.atomic_table.specs.Table.{rest};
ghost use Rattle.spec_record.specs.Look.{LookValue};
ghost use Rattle.round_book.specs.Book.{BookValue, CanBegin, StandsFor, window_of};
ghost use Rattle.round_book.specs.Machine.{times};
ghost use Rattle.round_book.specs.Window.{IsPlayable, look_for};
ghost use Rattle.round_workers.specs.declared.board.view.BoardSlot.{BoardSlot};
ghost use Rattle.round_workers.specs.declared.board.view.BoardSlot.TheVariants.{Nothing, OneLook, Spare, TheBook};
ghost use Rattle.round_workers.specs.declared.board.view.Phase.TheVariants.{Resting, Opening, Putting, Taking};
ghost use Rattle.round_workers.specs.Inner.BoardPlaces.{AreBare, IsTableFor, look_in};
ghost use Rattle.round_workers.specs.BoardLaws.{IsWhereClosed, Way};
ghost use Rattle.round_workers.specs.BoardPlays.{TellsTake, TellsTakeLook, drew, has_put, has_seen, has_taken, made_one, newcomer, opens_now, puts_now, views_joined, without_book};
ghost use Rattle.round_workers.specs.BoardRule.{turns_of};
ghost use Rattle.round_workers.specs.BoardSeats.{IsHandOf, IsSeatOf, basis_of, board_window, known, left_look};
ghost use Rattle.round_workers.specs.BoardTotals.{once_below};
ghost use Rattle.round_workers.specs.BoardView.{first_seat, window_for};
ghost use Rattle.round_workers.specs.Crews.{most_workers};

use crate::board::end::{Ended, take_slot};
use crate::board::law::{
    Draws, GivesBook, HasPut, HasTaken, Joins, Opened, Opens, Puts, SeesEachOnce, Splits,
    TakesBook, TakesLook,
};
use crate::board::places::{book_room, keep};
use crate::board::room::Room;
use crate::board::seat::{Board, BoardTable, Hand, Seat};
use crate::board::stock::Stock;
use crate::board::view::{Basis, BoardSlot, View};
use crate::share::Turns;
use atomic_table::{Refused, Table};
use hex_geometry::OutOfMemory;
use round_book::{Book, Field};
use spec_record::Look;
use std::alloc::Global;
use std::snapshot::Snapshot;

// The word of the tickets: how many are drawn.
const TICKETS: usize = 0;

// The word of the book, and what it says (`book_home` and `book_out` of `BoardView`).
const BOOK: usize = 1;

pub(crate) const HOME: u64 = 0;

const OUT: u64 = 1;

// The word of the look of ticket 0, and what the word of a look says (`look_empty` to `look_emptied` of `BoardView`).
const FIRST_LOOK: usize = 2;

const EMPTY: u64 = 0;

const IN_HAND: u64 = 1;

pub(crate) const FULL: u64 = 2;

const EMPTIED: u64 = 3;

impl Board {
    // What `new` does, from a stock, which is extended if it is too small. If it fails, the stock still has the rooms
    // of looks; otherwise their list has room for those of the window.
    pub(crate) fn over(
        alloc: Global,
        field: &Field<'_>,
        turns: Turns,
        stock: &mut Stock,
    ) -> Result<(Board, Seat), OutOfMemory>
        requires { CanBegin field.now turns.from turns.to }
        ensures window { IfOk result (λ made. window_for (basis_of made.0) ≡ window_of field.now turns.from turns.to) }
        ensures board { IfOk result (λ made. IsSeatOf made.0 made.1) }
        ensures first { IfOk result (λ made. known made.1 ≡ first_seat (basis_of made.0)) }
        ensures room { OnOk result (vec_len stock.new.rooms + (turns.to - turns.from) ≤ vec_capacity stock.new.rooms) }
    {
        stock.fill((turns.to - turns.from) as usize)?;
        let (table, hand) = lay(
            alloc,
            field,
            turns,
            &stock.words,
            &mut stock.rooms,
            &mut stock.home,
        )?;
        let (places, room) = stock.lend_room(alloc);
        let board = Board {
            table,
            places,
            room,
            from: turns.from,
            to: turns.to,
        };
        Ok((board, Seat { hand }))
    }

    // What `close` does, with the looks still in their places.
    pub(crate) fn take_apart(self, seat: Seat) -> Ended
        requires board { IsSeatOf self seat }
        requires first { (known seat).number ≡ 0 }

        // all were joined into it, so that it knows each event
        requires whole { (k : ℕ) → k ≤ (known seat).made → 1 ≤ times k (known seat).parts }
        requires opened { (known seat).opened ≡ true }
        requires free { (known seat).holds ≡ false }

        // the workers together played the window so far
        ensures book { StandsFor (board_window self) result.book }
        ensures drawn { (k : ℕ) → times k (known seat).drawn ≡ once_below k result.drawn }
        ensures reached { Way (board_window self) (IsWhereClosed (board_window self) result.drawn (known seat).put) }

        // the places of its looks, and room for as many
        ensures turns { length result.places.items ≡ (basis_of self).to - (basis_of self).from }
        ensures looks { (k : ℕ) → k < (basis_of self).to - (basis_of self).from
            → look_in (slice_index_or result.places.items k Nothing) ≡ left_look (board_window self) (known seat) k }
        ensures bare { result.room.items ≡ [] }
        ensures roomy { (basis_of self).to - (basis_of self).from ≤ vec_capacity result.room }
    {
        let Board {
            table,
            mut places,
            room,
            from,
            to,
        } = self;
        let Seat { hand } = seat;
        let mut closed = table.close_with(hand);
        let drawn = closed.word(0) as u32;
        let mut home = book_room(take_slot(&mut closed, 0));
        let Some(book) = home.take() else {
            unreachable!()
        };
        for ticket in 0..(to - from) as usize {
            places.push_reserved(take_slot(&mut closed, ticket + 1));
        }
        closed.free();
        Ended {
            book,
            home,
            places,
            room,
            drawn,
        }
    }

    // Draws the next ticket.
    #[inline]
    pub(crate) fn draw_step(&self, hand: &mut Hand) -> u64
        requires hand { IsHandOf self.now hand.old }
        requires early { AllByRecursion (λ k. k < turns_of (basis_of self.now)) hand.old.me.0.drawn }
        ensures table { hand.new.table_id ≡ hand.old.table_id }
        ensures drew { hand.new.me ≡ (drew hand.old.me.0 result, hand.old.me.1) }
        ensures greater { AllByRecursion (λ k. k < result) hand.old.me.0.drawn }
        ensures small { result < 2 ^ 32 }
    {
        self.table.shared.fetch_add::<Draws>(hand, TICKETS, 1)
    }

    // Makes another seat.
    pub(crate) fn split_step(&self, hand: &mut Hand) -> Hand
        requires hand { IsHandOf self.now hand.old }
        requires first { hand.old.me.0.number ≡ 0 }
        requires few { hand.old.me.0.made < most_workers }
        ensures table { hand.new.table_id ≡ hand.old.table_id }
        ensures made { hand.new.me ≡ (made_one hand.old.me.0, hand.old.me.1) }
        ensures new_table { result.table_id ≡ hand.old.table_id }
        ensures newcomer { result.me ≡ (newcomer hand.old.me.0, []) }
    {
        self.table.shared.split_seat::<Splits>(hand)
    }

    // Joins another seat into one.
    pub(crate) fn join_step(&self, hand: &mut Hand, other: Hand)
        requires hand { IsHandOf self.now hand.old }
        requires other { IsHandOf self.now other }
        requires other_first { other.me.0.number ≢ 0 }
        requires free { other.me.0.holds ≡ false }
        requires other_rests { other.me.0.phase ≡ Resting }
        requires bare { other.me.1 ≡ [] }
        ensures table { hand.new.table_id ≡ hand.old.table_id }
        ensures joined { hand.new.me ≡ (views_joined hand.old.me.0 other.me.0, hand.old.me.1) }
    {
        self.table.shared.join_seat::<Joins>(hand, other);
    }

    // Notes that no ticket was drawn twice.
    pub(crate) fn see_each_once_step(&self, hand: &mut Hand)
        requires table { hand.old.table_id ≡ self.now.table.shared.table_id }
        ensures table { hand.new.table_id ≡ hand.old.table_id }
        ensures same { hand.new.me ≡ hand.old.me }
        ensures once { (k : ℕ) → times k hand.old.me.0.drawn ≤ 1 }
    {
        self.table.shared.load::<SeesEachOnce>(hand, TICKETS);
    }

    // Begins to open the book: its slot is the seat's from now on.
    pub(crate) fn open_step(&self, hand: &mut Hand)
        requires hand { IsHandOf self.now hand.old }
        requires first { hand.old.me.0.number ≡ 0 }
        requires unopened { hand.old.me.0.opened ≡ false }
        requires rests { hand.old.me.0.phase ≡ Resting }
        ensures table { hand.new.table_id ≡ hand.old.table_id }
        ensures opens { hand.new.me ≡ (opens_now hand.old.me.0, (0, TheBook None) ∷ hand.old.me.1) }
    {
        self.table
            .shared
            .compare_exchange::<Opens>(hand, BOOK, HOME, OUT);
    }

    // Ends the opening of the book: its slot goes back, with the book.
    pub(crate) fn opened_step(&self, hand: &mut Hand)
        requires hand { IsHandOf self.now hand.old }
        requires first { hand.old.me.0.number ≡ 0 }
        requires opening { hand.old.me.0.phase ≡ Opening }
        requires book { (content : Option BookValue) × (hand.old.me.1 ≡ (0, TheBook content) ∷ rest hand.old.me.1) × IsSomeAnd content (StandsFor (board_window self.now)) }
        ensures table { hand.new.table_id ≡ hand.old.table_id }
        ensures opened { hand.new.me ≡ (has_seen hand.old.me.0, rest hand.old.me.1) }
    {
        self.table.shared.swap::<Opened>(hand, BOOK, HOME);
    }

    // Tries once for the book; returns what the try found.
    #[inline]
    pub(crate) fn take_book_step(&self, hand: &mut Hand) -> u64
        requires hand { IsHandOf self.now hand.old }
        requires opened { hand.old.me.0.opened ≡ true }
        requires free { hand.old.me.0.holds ≡ false }
        ensures table { hand.new.table_id ≡ hand.old.table_id }
        ensures tells { TellsTake hand.old.me result hand.new.me }
    {
        self.table
            .shared
            .compare_exchange::<TakesBook>(hand, BOOK, HOME, OUT)
    }

    // Gives the book back, with its slot.
    #[inline]
    pub(crate) fn give_book_step(&self, hand: &mut Hand)
        requires hand { IsHandOf self.now hand.old }
        requires holds { hand.old.me.0.holds ≡ true }
        requires book { (content : Option BookValue) × (hand.old.me.1 ≡ (0, TheBook content) ∷ rest hand.old.me.1) × IsSomeAnd content (StandsFor (board_window self.now)) }
        ensures table { hand.new.table_id ≡ hand.old.table_id }
        ensures given { hand.new.me ≡ (without_book hand.old.me.0, rest hand.old.me.1) }
    {
        self.table.shared.swap::<GivesBook>(hand, BOOK, HOME);
    }

    // Begins to put the look of a ticket: its slot is the seat's from now on.
    #[inline]
    pub(crate) fn put_step(&self, hand: &mut Hand, ticket: usize)
        requires hand { IsHandOf self.now hand.old }
        requires ticket { ticket < turns_of (basis_of self.now) }
        requires rests { hand.old.me.0.phase ≡ Resting }
        requires drew { 1 ≤ times ticket hand.old.me.0.drawn }
        requires unput { times ticket hand.old.me.0.put ≡ 0 }
        ensures table { hand.new.table_id ≡ hand.old.table_id }
        ensures puts { (old : Option LookValue) × (hand.new.me ≡ (puts_now hand.old.me.0 ticket, (ticket + 1, Spare old) ∷ hand.old.me.1)) }
    {
        self.table
            .shared
            .compare_exchange::<Puts>(hand, ticket + FIRST_LOOK, EMPTY, IN_HAND);
    }

    // Ends the put of a look: its slot goes back, with the look.
    #[inline]
    pub(crate) fn has_put_step(&self, hand: &mut Hand, ticket: usize)
        requires hand { IsHandOf self.now hand.old }
        requires ticket { ticket < turns_of (basis_of self.now) }
        requires putting { hand.old.me.0.phase ≡ Putting ticket }
        requires look { hand.old.me.1 ≡ (ticket + 1, OneLook (Some (look_for (board_window self.now) ((basis_of self.now).from + ticket)))) ∷ rest hand.old.me.1 }
        ensures table { hand.new.table_id ≡ hand.old.table_id }
        ensures has_put { hand.new.me ≡ (has_put hand.old.me.0 ticket, rest hand.old.me.1) }
    {
        self.table
            .shared
            .swap::<HasPut>(hand, ticket + FIRST_LOOK, FULL);
    }

    // Tries once for the look of a ticket; returns what the try found.
    #[inline]
    pub(crate) fn take_look_step(&self, hand: &mut Hand, ticket: usize) -> u64
        requires hand { IsHandOf self.now hand.old }
        requires ticket { ticket < turns_of (basis_of self.now) }
        requires rests { hand.old.me.0.phase ≡ Resting }
        ensures table { hand.new.table_id ≡ hand.old.table_id }
        ensures tells { TellsTakeLook ticket hand.old.me result hand.new.me }
    {
        self.table
            .shared
            .compare_exchange::<TakesLook>(hand, ticket + FIRST_LOOK, FULL, IN_HAND)
    }

    // Ends the taking of a look: its slot goes back, and no look waits in it.
    #[inline]
    pub(crate) fn has_taken_step(&self, hand: &mut Hand, ticket: usize)
        requires hand { IsHandOf self.now hand.old }
        requires ticket { ticket < turns_of (basis_of self.now) }
        requires taking { hand.old.me.0.phase ≡ Taking ticket }
        requires spare { (old : Option LookValue) × (hand.old.me.1 ≡ (ticket + 1, Spare old) ∷ rest hand.old.me.1) }
        ensures table { hand.new.table_id ≡ hand.old.table_id }
        ensures has_taken { hand.new.me ≡ (has_taken hand.old.me.0 ticket, rest hand.old.me.1) }
    {
        self.table
            .shared
            .swap::<HasTaken>(hand, ticket + FIRST_LOOK, EMPTIED);
    }

    // Puts something into the slot that the seat got last, and returns what was there. No word is stepped on.
    #[inline]
    pub(crate) fn exchange(&self, hand: &mut Hand, slot: usize, place: BoardSlot) -> BoardSlot
        requires table { hand.old.table_id ≡ self.now.table.shared.table_id }
        requires out { (old : BoardSlot) × (hand.old.me.1 ≡ (slot, old) ∷ rest hand.old.me.1) }
        ensures table { hand.new.table_id ≡ hand.old.table_id }
        ensures lay { hand.old.me.1 ≡ (slot, result) ∷ rest hand.old.me.1 }
        ensures lies { hand.new.me ≡ (hand.old.me.0, (slot, place) ∷ rest hand.old.me.1) }
    {
        self.table.shared.exchange(hand, slot, place)
    }
}

// The table of a board for these turns of a field, with words and rooms that were kept and new ones if needed, and the
// hand of its first seat. If memory runs out, the rooms of looks that exist by then are kept.
fn lay(
    alloc: Global,
    field: &Field<'_>,
    turns: Turns,
    words: &[u64],
    kept: &mut Vec<Room<Look>>,
    home: &mut Option<Room<Book>>,
) -> Result<(BoardTable, Hand), OutOfMemory>
    requires window { CanBegin field.now turns.from turns.to }
    requires words { words.now ≡ replicate (turns.to - turns.from + 2) 0 }
    requires room { vec_len kept.old + (turns.to - turns.from) + 1 ≤ vec_capacity kept.old }
    ensures laid { IfOk result (λ laid. IsTableFor field.now turns laid.0.shared.key laid.0.shared.table_id laid.1) }
    ensures room { OnOk result (vec_len kept.new + (turns.to - turns.from) + 1 ≤ vec_capacity kept.new) }
{
    let slots = bare(alloc, (turns.to - turns.from) as usize, kept, home)?;
    match table_of(alloc, field, turns, words, slots) {
        Ok(laid) => Ok(laid),
        Err(mut refused) => {
            keep(kept, &mut refused.slots);
            Err(OutOfMemory)
        }
    }
}

// The table with these words and slots, and the hand of its first seat; or the slots, if memory runs out.
fn table_of(
    alloc: Global,
    field: &Field<'_>,
    turns: Turns,
    words: &[u64],
    slots: Vec<BoardSlot>,
) -> Result<(BoardTable, Hand), Refused<BoardSlot, Global>>
    requires window { CanBegin field.now turns.from turns.to }
    requires words { words.now ≡ replicate (turns.to - turns.from + 2) 0 }
    requires bare { AreBare (turns.to - turns.from) slots.items }
    ensures laid { IfOk result (λ laid. IsTableFor field.now turns laid.0.shared.key laid.0.shared.table_id laid.1) }
    ensures slots { IfErr result (λ refused. refused.slots.items ≡ slots.items) }
{
    Table::new(alloc, words, slots, &basis(field, turns.from, turns.to))
}

// The window of these turns of a field, as a board knows it.
fn basis(field: &Field<'_>, from: u32, to: u32) -> Basis
    requires { CanBegin field.now from to }
    ensures window { window_for result ≡ window_of field.now from to }
    ensures playable { IsPlayable (window_for result) }
    ensures from { result.from ≡ from }
    ensures to { result.to ≡ to }
    ensures ids { to ≤ result.world.value.ids }
    ensures lasting { result.place + (to - from) < 2 ^ 63 }
{
    let world = field.world();
    let brains = field.brains();
    // Called for its clause: what holds of every world.
    let _width = world.width();
    Basis {
        red: Snapshot::of(brains.red),
        black: Snapshot::of(brains.black),
        sheet: brains.sheet,
        seed: field.seed(),
        world: Snapshot::of(world),
        place: field.place(),
        from,
        to,
    }
}

// The slots with which a board of this many turns begins, with the rooms that were kept and new ones if needed. If
// memory runs out, those of looks that exist by then are kept.
fn bare(
    alloc: Global,
    turns: usize,
    kept: &mut Vec<Room<Look>>,
    home: &mut Option<Room<Book>>,
) -> Result<Vec<BoardSlot>, OutOfMemory>
    requires turns { turns < 2 ^ 32 }
    requires room { vec_len kept.old + turns + 1 ≤ vec_capacity kept.old }
    ensures bare { IfOk result (λ slots. AreBare turns slots.items) }
    ensures room { OnOk result (vec_len kept.new + turns + 1 ≤ vec_capacity kept.new) }
{
    let mut slots = Vec::with_capacity(alloc, turns + 1)?;
    let book = book_spare(alloc, home)?;
    slots.push_reserved(BoardSlot::TheBook(book));
    for _ in 0..turns {
        let Ok(room) = spare(alloc, kept) else {
            keep(kept, &mut slots);
            return Err(OutOfMemory);
        };
        slots.push_reserved(BoardSlot::Spare(room));
    }
    Ok(slots)
}

// A room for the book, without one: the one that was kept, or a new one.
#[inline]
fn book_spare(alloc: Global, kept: &mut Option<Room<Book>>) -> Result<Room<Book>, OutOfMemory>
    ensures { IfOk result (λ room. room ≡ None) }
{
    let Some(mut room) = kept.take() else {
        return Room::new(alloc);
    };
    room.take();
    Ok(room)
}

// A room for a look: one that was kept, or a new one.
#[inline]
fn spare(alloc: Global, kept: &mut Vec<Room<Look>>) -> Result<Room<Look>, OutOfMemory>
    ensures fewer { vec_len kept.new ≤ vec_len kept.old }
    ensures capacity { vec_capacity kept.new ≡ vec_capacity kept.old }
{
    match kept.pop() {
        Some(room) => Ok(room),
        None => Room::new(alloc),
    }
}
