// A crew whose workers make the looks, and settle them by passing a book.
ghost use Rattle.std.specs.Prelude.{◌≡◌, ◌≢◌, ◌+◌, ◌-◌, ◌<◌, ◌≤◌, ◌^◌, ℕ, false, [], ◌∷◌, ◌++◌, All, length, min, slice_index_or, IfOk, OnOk, OnErr};
ghost use Rattle.std.specs.Vec.{vec_capacity, vec_len};
ghost use Rattle.round_book.specs.Book.{IsLentFor};
ghost use Rattle.round_book.specs.Book as books;
ghost use Rattle.round_book.specs.Counts.{counts_of};
ghost use Rattle.round_book.specs.Window.{guesses_for};
ghost use Rattle.round_workers.specs.declared.board.worker.Worker.{Worker};
ghost use Rattle.round_workers.specs.Inner.BoardCrew.{AreLooks, HasWorked, IsBookOf, IsCrewStocked, IsHired, IsLaid, IsManned, IsRoom};
ghost use Rattle.round_workers.specs.BoardSeats.{IsSeatOf, known, board_window};
ghost use Rattle.round_workers.specs.BoardWorker.{turns_in};
ghost use Rattle.round_workers.specs.Crews.{IsCrewSize, most_workers};

use crate::board::end::Ended;
use crate::board::looks::look_at;
use crate::board::places::look_in;
use crate::board::seat::{Board, Seat};
use crate::board::stock::Stock;
use crate::board::view::BoardSlot;
use crate::board::worker::Worker;
use crate::guesses::list_guesses;
use crate::share::Turns;
use crate::team::Team;
use ant_base::Gate;
use hex_geometry::OutOfMemory;
use round_book::{Book, Counts, Field, advance, play_window};
use std::alloc::Global;
use std::marker::Model;
use std::thread;
use std::thread::Threads;

// The most workers in a crew.
const MOST_WORKERS: usize = 16;

/// A crew of workers that draw the turns of a window, put the looks at them on a board, and pass its book from one to
/// another to settle them.
#[derive(Drop)]
pub struct BoardCrew<'c, R: Threads + Sync, G: Gate> {
    team: Team<'c, R, G>,
    turns: u64,
    stock: Option<CrewStock>,
}

impl<'c, R: Threads + Sync, G: Gate> Model for BoardCrew<'c, R, G> {
    ghost use Rattle.round_workers.specs.Crews.{CrewValue, IsCrewSize};

    ghost Value = { CrewValue };

    ghost view = { λ crew. record { workers = crew.team.workers; turns = crew.turns } };

    ghost invariant = { λ crew. IsCrewSize crew.team.workers };
}

impl<'c, R: Threads + Sync, G: Gate> BoardCrew<'c, R, G> {
    /// A crew of 1 to 16 workers, which has played no turn yet. Each worker, from 0, calls the gate before each look
    /// that it makes. It takes no memory.
    pub fn new(rt: &'c R, workers: u32, gate: &'c G) -> BoardCrew<'c, R, G>
        requires workers { IsCrewSize workers }
        ensures { result ≡ record { workers = workers; turns = 0 } }
    {
        BoardCrew {
            team: Team { rt, gate, workers },
            turns: 0,
            stock: None,
        }
    }

    /// How many turns the crew has played, from 0; it stays at the largest `u64`, 2^64 - 1.
    #[inline]
    pub fn turns(&self) -> u64
        ensures { result ≡ self.now.turns }
    {
        self.turns
    }

    /// Plays the turns of the ids from `from` up to, but not including, `to`. The field is whole, `from` is at most
    /// `to`, `to` is at most the number of ids, and the place plus the number of turns is below 2^63. Afterwards the
    /// field is whole, and its world and place are those after the turns in order. The result counts the looks that
    /// were used and the turns that were executed again. It fails only if memory runs out, before the field is lent;
    /// the field and the count of turns are then unchanged.
    ///
    /// The number of workers is the smaller of the crew's and the number of turns. A worker that draws a turn calls the
    /// gate with its number and the id, makes the look, puts it on the board and tries once for the book. With the book
    /// it settles the next turns until a look isn't there. No worker waits for another. A single worker needs no board:
    /// it settles each look as soon as it has made it.
    pub fn window(
        &mut self,
        alloc: Global,
        field: &mut Field<'_>,
        from: u32,
        to: u32,
    ) -> Result<Counts, OutOfMemory>
        requires window { books.CanBegin field.old from to }
        ensures played { OnOk result (books.IsPlayed field.old from to field.new) }
        ensures counts { IfOk result (λ counts. counts ≡ counts_of (books.window_of field.old from to)) }
        ensures turns { OnOk result (self.new ≡ record self.old { turns = min (self.old.turns + (to - from)) (2 ^ 64 - 1) }) }
        ensures unchanged { OnErr result (field.new ≡ field.old) }
        ensures as_before { OnErr result (self.new ≡ self.old) }
    {
        let turns = Turns { from, to };
        let counts = play(&self.team, alloc, &mut self.stock, field, turns)?;
        self.turns = self.turns.saturating_add(u64::from(to - from));
        Ok(counts)
    }
}

// What a crew keeps from one window to the next. So a window takes memory only for its table, and if it has more turns
// than those before. Nothing is known of its content between two windows.
#[derive(Drop)]
struct CrewStock {
    board: Stock,
    guesses: Vec<u64>,
    // The lists of the workers of the window, one each, and those that no worker has.
    lists: Vec<Vec<u32>>,
    idle: Vec<Vec<u32>>,
    workers: Vec<Worker>,
}

impl CrewStock {
    // An empty stock.
    fn new(alloc: Global) -> CrewStock {
        CrewStock {
            board: Stock::new(alloc),
            guesses: Vec::new(alloc),
            lists: Vec::new(alloc),
            idle: Vec::new(alloc),
            workers: Vec::new(alloc),
        }
    }
}

// Plays a window by the workers of a team; or by one alone if no second worker would have a turn, since then there is
// no other to pass a book to.
fn play<R: Threads + Sync, G: Gate>(
    team: &Team<'_, R, G>,
    alloc: Global,
    stock: &mut Option<CrewStock>,
    field: &mut Field<'_>,
    turns: Turns,
) -> Result<Counts, OutOfMemory>
    requires workers { IsCrewSize team.now.workers }
    requires window { books.CanBegin field.old turns.from turns.to }
    ensures played { OnOk result (books.IsPlayed field.old turns.from turns.to field.new) }
    ensures counts { IfOk result (λ counts. counts ≡ counts_of (books.window_of field.old turns.from turns.to)) }
    ensures unchanged { OnErr result (field.new ≡ field.old) }
{
    // A window of one worker doesn't take memory for a stock that it doesn't use.
    if team.workers.min(turns.to - turns.from) <= 1 {
        return play_window(team.gate, alloc, field, turns.from, turns.to);
    }
    let kept = stock.get_or_insert_with(|| CrewStock::new(alloc));
    play_on_board(team, alloc, kept, field, turns)
}

// Plays a window on its own board.
fn play_on_board<R: Threads + Sync, G: Gate>(
    team: &Team<'_, R, G>,
    alloc: Global,
    stock: &mut CrewStock,
    field: &mut Field<'_>,
    turns: Turns,
) -> Result<Counts, OutOfMemory>
    requires workers { IsCrewSize team.now.workers }
    requires window { books.CanBegin field.old turns.from turns.to }
    ensures played { OnOk result (books.IsPlayed field.old turns.from turns.to field.new) }
    ensures counts { IfOk result (λ counts. counts ≡ counts_of (books.window_of field.old turns.from turns.to)) }
    ensures unchanged { OnErr result (field.new ≡ field.old) }
{
    let hired = team.workers.min(turns.to - turns.from) as usize;
    let laid = lay(alloc, stock, field, hired, turns)?;
    let book = field.begin(alloc, turns.from, turns.to)?;
    let book = settle(team, stock, laid, book, field, turns);
    Ok(field.finish(book))
}

// A board of a window, and its first seat.
#[derive(Drop)]
struct Laid {
    board: Board,
    first: Seat,
}

// A board of the window and its first seat, and everything else that the window takes memory for, except its book: its
// guesses, and room for this many workers, for their lists, and for the rooms of all looks in the list of those that
// are kept.
fn lay(
    alloc: Global,
    stock: &mut CrewStock,
    field: &Field<'_>,
    hired: usize,
    turns: Turns,
) -> Result<Laid, OutOfMemory>
    requires window { books.CanBegin field.now turns.from turns.to }
    requires few { hired ≤ most_workers }
    ensures laid { IfOk result (IsLaid (books.window_of field.now turns.from turns.to)) }
    ensures stocked { OnOk result (IsCrewStocked (books.window_of field.now turns.from turns.to) stock.new) }
{
    list_guesses(&mut stock.guesses, field, turns)?;
    let count = (turns.to - turns.from) as usize;
    lay_lists(alloc, &mut stock.lists, &mut stock.idle, hired, count)?;
    lay_workers(&mut stock.workers, hired)?;
    let (board, first) = Board::over(alloc, field, turns, &mut stock.board)?;
    Ok(Laid { board, first })
}

// Prepares this many empty lists, each with room for this many turns, and room to take as many workers' lists back.
fn lay_lists(
    alloc: Global,
    lists: &mut Vec<Vec<u32>>,
    idle: &mut Vec<Vec<u32>>,
    count: usize,
    turns: usize,
) -> Result<(), OutOfMemory>
    ensures lists { OnOk result (All (IsRoom turns) lists.new.items) }
    ensures count { OnOk result (vec_len lists.new ≡ count) }
    ensures room { OnOk result (vec_len idle.new + most_workers ≤ vec_capacity idle.new) }
{
    idle.reserve(MOST_WORKERS)?;
    lists.clear();
    lists.reserve(count)?;
    for _ in 0..count {
        let made = list(alloc, idle, turns)?;
        lists.push_reserved(made);
    }
    Ok(())
}

// An empty list with room for this many turns: one that no worker has, or a new one.
fn list(alloc: Global, idle: &mut Vec<Vec<u32>>, turns: usize) -> Result<Vec<u32>, OutOfMemory>
    ensures list { IfOk result (IsRoom turns) }
    ensures fewer { vec_len idle.new ≤ vec_len idle.old }
    ensures capacity { vec_capacity idle.new ≡ vec_capacity idle.old }
{
    let mut made = match idle.pop() {
        Some(kept) => kept,
        None => Vec::new(alloc),
    };
    made.clear();
    made.reserve(turns)?;
    Ok(made)
}

// Reserves room for this many workers, of which there is none yet.
fn lay_workers(workers: &mut Vec<Worker>, count: usize) -> Result<(), OutOfMemory>
    ensures bare { OnOk result (workers.new.items ≡ []) }
    ensures wide { OnOk result (count ≤ vec_capacity workers.new) }
{
    workers.clear();
    workers.reserve(count)?;
    Ok(())
}

// Settles a window by workers over a board, and what they leave on this thread.
fn settle<R: Threads + Sync, G: Gate>(
    team: &Team<'_, R, G>,
    stock: &mut CrewStock,
    laid: Laid,
    book: Book,
    field: &Field<'_>,
    turns: Turns,
) -> Book
    requires workers { 0 < team.now.workers }
    requires stocked { IsCrewStocked (books.window_of field.now turns.from turns.to) stock.old }
    requires laid { IsLaid (books.window_of field.now turns.from turns.to) laid }
    requires book { IsBookOf field.now turns book }
    requires next { book.next ≡ turns.from }
    ensures book { IsBookOf field.now turns result }
    ensures next { result.next ≡ turns.to }
{
    let Laid { board, mut first } = laid;
    board.open_book(&mut first, book);
    hire(&board, &mut first, &mut stock.workers, &mut stock.lists);
    work_all(team, &board, field, &stock.guesses, &mut stock.workers);
    gather(&board, &mut first, &mut stock.workers, &mut stock.idle);
    let ended = board.take_apart(first);
    settle_left(ended, &mut stock.board, field, &stock.guesses, turns)
}

// Gives each list to a worker with its own seat.
fn hire(board: &Board, first: &mut Seat, workers: &mut Vec<Worker>, lists: &mut Vec<Vec<u32>>)
    requires manned { IsManned board.now first.old workers.old.items }
    requires hired { All (IsHired board.now) workers.old.items }
    requires lists { All (IsRoom (turns_in (board_window board.now))) lists.old.items }
    requires few { (known first.old).made + vec_len lists.old ≤ most_workers }
    requires counted { vec_len workers.old ≤ (known first.old).made }
    requires wide { vec_len workers.old + vec_len lists.old ≤ vec_capacity workers.old }
    ensures manned { IsManned board.now first.new workers.new.items }
    ensures hired { All (IsHired board.now) workers.new.items }
    ensures few { vec_len workers.new ≤ most_workers }
{
    while let Some(made) = lists.pop() {
        let seat = board.split(first);
        workers.push_reserved(worker(workers.len() as u32, seat, made));
    }
}

// A worker with a new seat and an empty list.
fn worker(number: u32, seat: Seat, made: Vec<u32>) -> Worker
    requires other { (known seat).number ≢ 0 }
    requires alone { (known seat).parts ≡ (known seat).number ∷ [] }
    requires free { (known seat).holds ≡ false }
    requires drew_none { (known seat).drawn ≡ [] }
    requires put_none { (known seat).put ≡ [] }
    requires bare { made.items ≡ [] }
    ensures seat { known result.seat ≡ known seat }
    ensures board { result.seat.hand.table_id ≡ seat.hand.table_id }
    ensures made { result.made ≡ made }
{
    Worker { number, seat, made }
}

// Each worker works, in its own thread.
fn work_all<R: Threads + Sync, G: Gate>(
    team: &Team<'_, R, G>,
    board: &Board,
    field: &Field<'_>,
    guesses: &[u64],
    workers: &mut [Worker],
)
    requires workers { 0 < team.now.workers }
    requires hired { All (IsHired board.now) workers.old }
    requires field { IsLentFor field.now (board_window board.now) }
    requires guesses { guesses.now ≡ guesses_for (board_window board.now) }
    ensures worked { (i : ℕ) (d : Worker) → i < length workers.old → HasWorked board.now (slice_index_or workers.old i d) (slice_index_or workers.new i d) }
    ensures len { length workers.new ≡ length workers.old }
{
    let gate = team.gate;
    thread::for_each_mut(
        team.rt,
        workers,
        team.workers as usize,
        &|_: usize, worker: &mut Worker|
            requires hired { IsHired board.now worker.now }
            requires field { IsLentFor field.now (board_window board.now) }
            requires guesses { guesses.now ≡ guesses_for (board_window board.now) }
            ensures { HasWorked board.entry.now worker.entry.now worker.exit.now }
        { worker.work(board, field, guesses, gate) },
    );
}

// Joins the seats of the workers into the first one, and takes their lists back.
fn gather(board: &Board, first: &mut Seat, workers: &mut Vec<Worker>, idle: &mut Vec<Vec<u32>>)
    requires manned { IsManned board.now first.old workers.old.items }
    requires seats { All (λ worker. IsSeatOf board.now worker.seat) workers.old.items }
    requires room { vec_len idle.old + vec_len workers.old ≤ vec_capacity idle.old }
    ensures { IsManned board.now first.new [] }
{
    while let Some(worker) = workers.pop() {
        let made = join(board, first, worker);
        idle.push_reserved(made);
    }
}

// Joins the seat of a worker into the first one, and gives the worker's list.
fn join(board: &Board, first: &mut Seat, worker: Worker) -> Vec<u32>
    requires board { IsSeatOf board.now first.old }
    requires seat { IsSeatOf board.now worker.seat }
    ensures board { IsSeatOf board.now first.new }
    ensures number { (known first.new).number ≡ (known first.old).number }
    ensures made { (known first.new).made ≡ (known first.old).made }
    ensures opened { (known first.new).opened ≡ (known first.old).opened }
    ensures holds { (known first.new).holds ≡ (known first.old).holds }
    ensures parts { (known first.new).parts ≡ (known first.old).parts ++ (known worker.seat).number ∷ [] }
{
    let Worker {
        number: _,
        seat,
        made,
    } = worker;
    board.join(first, seat);
    made
}

// Settles what the workers left, by the looks that they left; if a look is missing, it is made here.
fn settle_left(
    ended: Ended,
    stock: &mut Stock,
    field: &Field<'_>,
    guesses: &[u64],
    turns: Turns,
) -> Book
    requires book { IsBookOf field.now turns ended.book }
    requires looks { AreLooks (books.window_of field.now turns.from turns.to) ended.places.items }
    requires all { vec_len ended.places ≡ turns.to - turns.from }
    requires room { vec_len stock.old.rooms + (turns.to - turns.from) ≤ vec_capacity stock.old.rooms }
    requires guesses { guesses.now ≡ guesses_for (books.window_of field.now turns.from turns.to) }
    ensures book { IsBookOf field.now turns result }
    ensures next { result.next ≡ turns.to }
{
    let Ended {
        mut book,
        home,
        places,
        room,
        drawn: _,
    } = ended;
    while book.next() < turns.to {
        settle_next(&mut book, field, guesses, &places, turns);
    }
    stock.take_back(home, places, room);
    book
}

// Settles the next turn.
fn settle_next(
    book: &mut Book,
    field: &Field<'_>,
    guesses: &[u64],
    places: &[BoardSlot],
    turns: Turns,
)
    requires book { IsBookOf field.now turns book.old }
    requires left { book.old.next < turns.to }
    requires looks { AreLooks (books.window_of field.now turns.from turns.to) places.now }
    requires all { turns.to - turns.from ≤ length places.now }
    requires guesses { guesses.now ≡ guesses_for (books.window_of field.now turns.from turns.to) }
    ensures book { IsBookOf field.now turns book.new }
    ensures next { book.new.next ≡ book.old.next + 1 }
{
    let ticket = book.next() - turns.from;
    match look_in(&places[ticket as usize]) {
        Some(look) => advance(book, field, look),
        None => advance(book, field, &look_at(field, guesses, turns, ticket)),
    };
}
