// What is in a board's slots, and what a seat of a board knows.
use crate::board::room::Room;
use ant_turn::Sheet;
use brain_read::Brain;
use cell_world::World;
use round_book::Book;
use spec_record::Look;
use std::collections::LinkedList;
use std::snapshot::Snapshot;

/// What is in a slot of a board: the room of the book of the board's window, or the room of the look at one turn.
#[derive(Drop)]
pub enum BoardSlot {
    /// Nothing, because a seat has the room in hand.
    Nothing,
    /// The room of the book, with the book or without it.
    TheBook(Room<Book>),
    /// The room of a look in which no look waits: it is empty, or has an old look.
    Spare(Room<Look>),
    /// The room of a look, with the look.
    OneLook(Room<Look>),
}

/// The window of a board: its brains and the numbers of its rules, its seed, the world and the place at its start, and
/// its turns. Only clauses see the brains and the world.
#[derive(Drop)]
pub struct Basis {
    /// The brain of the red ants.
    pub red: Snapshot<Brain>,
    /// The brain of the black ants.
    pub black: Snapshot<Brain>,
    /// The numbers of the rules.
    pub sheet: Sheet,
    /// The seed of the game.
    pub seed: u32,
    /// The world at the start of the window.
    pub world: Snapshot<World>,
    /// The place in the stream at the start of the window.
    pub place: u64,
    /// The first turn.
    pub from: u32,
    /// The turn after the last one.
    pub to: u32,
}

/// The last try of a seat for the book or for a look, and what it found in the word. No value of it is made.
pub enum Try {
    /// It has tried nothing yet.
    Never,
    /// It tried for the book, and found this in the book's word.
    OfBook(u64),
    /// It tried for the look of this ticket's turn, and found this in the look's word.
    OfLook(u64, u64),
}

/// The state of a seat: between two calls, or between the two steps of one. No value of it is made.
pub enum Phase {
    /// Between two calls.
    Resting,
    /// It opens the book.
    Opening,
    /// It puts the look of this ticket's turn.
    Putting(u64),
    /// It takes the look of this ticket's turn.
    Taking(u64),
}

/// What a seat of a board knows. No value of it is made: only clauses use it.
pub struct View {
    /// The window of its board. A seat that was joined into another knows nothing more.
    pub about: Option<Basis>,
    /// Its number. The first seat has number 0.
    pub number: u64,
    /// How many other seats it made.
    pub made: u64,
    /// The numbers of the seats that were joined into it, and its own.
    pub parts: LinkedList<u64>,
    /// The tickets that it drew. Ticket k is for turn number k of the window, counted from 0.
    pub drawn: LinkedList<u64>,
    /// The tickets whose looks it put.
    pub put: LinkedList<u64>,
    /// The tickets whose looks it took.
    pub took: LinkedList<u64>,
    /// Whether it holds the book.
    pub holds: bool,
    /// Whether it has seen the book opened.
    pub opened: bool,
    /// How often it tried for the book or for a look.
    pub tries: u64,
    /// Its last try.
    pub last: Try,
    /// Its state.
    pub phase: Phase,
}
