//! An assembler for brains: texts with labels and blocks, and the brains that they become.
//!
//! A labelled program has labels instead of state numbers, and blocks that are used with labels for their parameters.
//! The crate promises that [`assemble`] returns exactly the brain of a text's program, with the address of each of its
//! instructions, or exactly the text's fault. It also promises that a game with that brain is the labelled game, with a
//! number for each address. The labelled game has no state numbers: its ants are at addresses of the program. The crate
//! depends on the tokens of `line_tokens`, the positions and brains of `brain_read`, the rules of `ant_turn`, the
//! worlds of `cell_world`, the tables of `word_table` and the lines of `ant_base`.
//!
//! The language is this project's own.
#![tactic(auto)]

mod action;
mod assembly;
mod body;
mod expand;
mod fault;
mod labels;
mod laws;
mod level;
mod line;
mod named;
mod names;
mod open;
mod outline;
mod places;
mod program;
mod scope;
mod source;
mod spelling;
mod state_lines;
mod walk;
mod way;

pub use assembly::{Assembled, assemble};
pub use fault::AsmFault;
pub use labels::Labels;
pub use laws::{
    line_for_each_state, one_brain, one_program_or_one_fault, plays_labelled, scores_labelled,
};
pub use places::{Address, Places};
pub use source::{Source, read_source};
pub use state_lines::StateLines;
