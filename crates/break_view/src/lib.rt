//! Breakpoints: the first turn of a game after which a condition holds, and the world after that turn.
//!
//! All of it is this project's own, except that turns and rounds are the task's kinetics. A [`Break`] is a condition
//! that is checked after each turn: that a round has begun, that the ant whose turn it was is in a state, that an ant
//! is on a cell, that food lies there, that an ant was killed, or that a hill has an amount of food. [`read_breaks`]
//! returns exactly the list of a text of breaks, or exactly its fault. [`find_stop`] plays a game to the first turn
//! after which a break holds, and leaves the world as it is then; the first turn is the one of the least round, and in
//! that round of the least id. [`find_stop_from`] does so for the turns from a given round on. [`push_view`] pushes the
//! text of a view. This crate depends on `match_run`, `ant_turn`, `dump_print`, the tokens of `line_tokens` and the
//! tables of `word_table`.
#![tactic(auto)]

mod breaks;
mod cell_scores;
mod fault;
mod laws;
mod line;
mod met;
mod passed_rounds;
mod read;
mod states;
mod stop;
mod view;
mod watched_turn;
mod words;

pub use breaks::{Break, Breaks};
pub use fault::BreakFault;
pub use laws::{
    ends_are_found, fewer_stop_later, later_rounds_add_nothing, one_first_stop,
    one_list_or_one_fault, quiet_rounds_are_passed, stops_follow_turns,
};
pub use read::read_breaks;
pub use stop::{Stop, find_stop, find_stop_from};
pub use view::push_view;
