// The steps of a board for the seven turns of a round, on one thread: which seat finds the book and which look, and
// what is left of a closed board. A worker alone also brings the book to the window's end.
ghost use Rattle.std.specs.Prelude.{◌≡◌, ◌+◌, ◌<◌, ◌≤◌, ◌^◌, true, IfOk};
ghost use Rattle.round_book.specs.Book.{CanBegin, IsLentFor, StandsFor, window_of};
ghost use Rattle.round_book.specs.Machine.{times};
ghost use Rattle.round_book.specs.Window.{look_for};
ghost use Rattle.round_workers.specs.BoardPlays.{has_put, took_look};
ghost use Rattle.round_workers.specs.BoardSeats.{IsSeatOf, basis_of, board_window, known};

use super::standing_workers::{Players, field_of, make_players};
use ant_base::NoGate;
use round_book::{Book, Field, standing_books_settle};
use round_workers::{Board, Seat, Worker};
use spec_record::{Look, guess_at, guesses, look};
use std::alloc::Global;
use std::process::Abort;
use std::test::Fail;

// How many turns the round has.
const TURNS: u32 = 7;

// A whole field before the round.
fn first_field<'b, R: Abort>(rt: &R, alloc: Global, players: &'b Players) -> Result<Field<'b>, Fail>
    ensures { IfOk result (λ field. CanBegin field 0 7) }
{
    let field = field_of(rt, alloc, players)?;
    assert!(rt; TURNS <= field.world().ant_count());
    Ok(field)
}

// The look at a turn of the field's world, at its guess.
fn look_at(field: &Field<'_>, turn: u32) -> Look
    requires turn { turn < 7 }
    requires ids { 7 ≤ field.now.world.ids }
    requires lasting { field.now.place + 7 < 2 ^ 63 }
    ensures { result ≡ look_for (window_of field.now 0 7) turn }
{
    let guess = guess_at(field.world(), field.brains(), field.place(), 0, turn);
    look(field.world(), field.brains(), field.seed(), guess, turn)
}

// Puts the look at a turn.
fn put(board: &Board, field: &Field<'_>, seat: &mut Seat, turn: u32)
    requires board { IsSeatOf board.now seat.old }
    requires field { IsLentFor field.now (board_window board.now) }
    requires from { (basis_of board.now).from ≡ 0 }
    requires to { (basis_of board.now).to ≡ 7 }
    requires ids { 7 ≤ field.now.world.ids }
    requires lasting { field.now.place + 7 < 2 ^ 63 }
    requires turn { turn < 7 }
    requires drew { 1 ≤ times turn (known seat.old).drawn }
    requires unput { times turn (known seat.old).put ≡ 0 }
    ensures board { IsSeatOf board.now seat.new }
    ensures put { known seat.new ≡ has_put (known seat.old) turn }
{
    let look = look_at(field, turn);
    board.put(seat, look);
}

// Takes the look at the next turn, which is this one, and settles it: the look is valid.
fn settle<R: Abort>(rt: &R, board: &Board, seat: &mut Seat, book: &mut Book, turn: u32)
    requires board { IsSeatOf board.now seat.old }
    requires from { (basis_of board.now).from ≡ 0 }
    requires to { (basis_of board.now).to ≡ 7 }
    requires holds { (known seat.old).holds ≡ true }
    requires stands { StandsFor (board_window board.now) book.old }
    requires turn { turn < 7 }
    ensures board { IsSeatOf board.now seat.new }
    ensures took { known seat.new ≡ took_look (known seat.old) turn }
    ensures stands { StandsFor (board_window board.now) book.new }
{
    // called for its clause: the conditions of `settle` are met
    standing_books_settle();
    assert_eq!(rt; book.next(), turn);
    let Some(look) = board.take_look(seat, turn) else {
        panic!(rt; "the look is there");
    };
    let None = book.settle(look) else {
        panic!(rt; "the look holds");
    };
}

// Asserts which looks are left of a closed board.
fn check_left<R: Abort>(rt: &R, looks: &[Option<Look>], wanted: &[bool]) {
    assert_eq!(rt; looks.len(), wanted.len());
    for (look, there) in looks.iter().zip(wanted) {
        assert_eq!(rt; look.is_some(), *there);
    }
}

// The second seat puts the look of turn 1. The first one has the book, finds no look of turn 0, and puts it. The second
// one settles both.
fn settle_two<R: Abort>(rt: &R, alloc: Global, field: &mut Field<'_>) -> Result<(), Fail>
    requires { CanBegin field.old 0 7 }
{
    let (board, mut first) = Board::new(alloc, field, 0, TURNS)?;
    let book = field.begin(alloc, 0, TURNS)?;
    board.open_book(&mut first, book);
    let mut second = board.split(&mut first);
    assert_eq!(rt; board.draw(&mut first), 0);
    assert_eq!(rt; board.draw(&mut second), 1);
    put(&board, field, &mut second, 1);
    let Some(book) = board.take_book(&mut first) else {
        panic!(rt; "the book is home");
    };
    assert_eq!(rt; book.next(), 0);
    let None = board.take_book(&mut second) else {
        panic!(rt; "the first seat has the book");
    };
    let None = board.take_look(&mut first, 0) else {
        panic!(rt; "no look of turn 0 was put");
    };
    board.give_book(&mut first, book);
    put(&board, field, &mut first, 0);
    let Some(mut book) = board.take_book(&mut second) else {
        panic!(rt; "the book is home");
    };
    settle(rt, &board, &mut second, &mut book, 0);
    settle(rt, &board, &mut second, &mut book, 1);
    let None = board.take_look(&mut second, 2) else {
        panic!(rt; "no look of turn 2 was put");
    };
    board.give_book(&mut second, book);
    board.join(&mut first, second);
    let closed = board.close(first);
    assert_eq!(rt; (closed.book.next(), closed.drawn), (2, 2));
    check_left(rt, &closed.looks, &[false; 7]);
    Ok(())
}

// Two tickets are drawn, and the look of turn 1 is put and left.
fn leave_one<R: Abort>(rt: &R, alloc: Global, field: &mut Field<'_>) -> Result<(), Fail>
    requires { CanBegin field.old 0 7 }
{
    let (board, mut first) = Board::new(alloc, field, 0, TURNS)?;
    let book = field.begin(alloc, 0, TURNS)?;
    board.open_book(&mut first, book);
    let mut second = board.split(&mut first);
    assert_eq!(rt; board.draw(&mut first), 0);
    assert_eq!(rt; board.draw(&mut second), 1);
    put(&board, field, &mut second, 1);
    board.join(&mut first, second);
    let closed = board.close(first);
    assert_eq!(rt; (closed.book.next(), closed.drawn), (0, 2));
    check_left(
        rt,
        &closed.looks,
        &[false, true, false, false, false, false, false],
    );
    Ok(())
}

// A worker with the second seat works alone.
fn work_alone<R: Abort>(rt: &R, alloc: Global, field: &mut Field<'_>) -> Result<(), Fail>
    requires { CanBegin field.old 0 7 }
{
    let made = Vec::with_capacity(alloc, 7)?;
    let guesses = guesses(
        alloc,
        field.world(),
        field.brains(),
        field.place(),
        0,
        TURNS,
    )?;
    let (board, mut first) = Board::new(alloc, field, 0, TURNS)?;
    let book = field.begin(alloc, 0, TURNS)?;
    board.open_book(&mut first, book);
    let seat = board.split(&mut first);
    let mut worker = Worker {
        number: 0,
        seat,
        made,
    };
    worker.work(&board, field, &guesses, &NoGate);
    board.join(&mut first, worker.seat);
    assert_eq!(rt; board.close(first).book.next(), 7);
    Ok(())
}

#[test]
fn the_seat_with_the_book_settles_the_looks_that_are_there(rt: HostRuntime) -> Result<(), Fail> {
    let players = make_players(&rt, rt.alloc())?;
    let mut field = first_field(&rt, rt.alloc(), &players)?;
    settle_two(&rt, rt.alloc(), &mut field)
}

#[test]
fn a_look_that_no_seat_takes_is_left(rt: HostRuntime) -> Result<(), Fail> {
    let players = make_players(&rt, rt.alloc())?;
    let mut field = first_field(&rt, rt.alloc(), &players)?;
    leave_one(&rt, rt.alloc(), &mut field)
}

#[test]
fn a_worker_alone_settles_the_whole_window(rt: HostRuntime) -> Result<(), Fail> {
    let players = make_players(&rt, rt.alloc())?;
    let mut field = first_field(&rt, rt.alloc(), &players)?;
    work_alone(&rt, rt.alloc(), &mut field)
}
