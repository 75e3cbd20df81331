//! Crews of workers: the looks of a window are made at the same time, and settled in order.
//!
//! A [`PieceCrew`] divides the turns of a window into contiguous pieces, one for each worker, and settles the looks on
//! the caller's thread once all are made. The workers of a [`BoardCrew`] draw the turns of a window one by one, put the
//! looks at them on a [`Board`], and pass the window's book from one to another: the worker that has it settles the
//! next turns until a look isn't there. Whichever worker makes which look, and when, the result of a window is that of
//! its turns one after another, with the same counts. The clauses of `window` say so. They follow from `round_book`,
//! which settles a window, and from `spec_record`, which makes looks. A worker calls a [`ant_base::Gate`] before each
//! look that it makes. No clause says that two looks were made at the same time. This is this project's own.
//!
//! `specs/BoardRule.antt` defines what holds of a board between any two steps of its seats.
#![tactic(auto)]

mod board;
mod fork;
mod guesses;
mod laws;
mod piece;
mod piece_crew;
mod settle;
mod share;
mod team;

pub use board::{Basis, Board, BoardCrew, BoardSlot, Closed, Phase, Room, Seat, Try, View, Worker};
pub use hex_geometry::OutOfMemory;
pub use laws::{board_steps_are_events, boards_are_reached, boards_say};
pub use piece_crew::PieceCrew;
