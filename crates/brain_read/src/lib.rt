//! Brains: their instructions, and their text read and written.
//!
//! The task's neurology. A [`Brain`] is a list of 1 to 10,000 instructions in which every named state is below the
//! length, every marker is below 6 and every bound is at least 1. It promises that [`read_brain`] returns exactly the
//! brain of a text or exactly its fault, and that [`write_brain`] pushes the one canonical text, which is read as the
//! same brain again. The parts that other texts of instructions share are public here: one instruction
//! [read](read_instruction) and printed as a [`Draft`], the [`positions`] of its line, and the tables of words. The
//! crate depends on the sinks, lines and numbers of `ant_base`, the tokens of `line_tokens`, the tables of
//! `word_table`, and the sides and sights of `hex_geometry`.
//!
//! Whatever names no section of the contest's task is this project's own.
#![tactic(auto)]

mod brain;
mod draft;
mod fault;
mod form;
mod instr;
mod laws;
mod line;
pub mod positions;
mod read;
mod same;
mod write;

pub use brain::{Brain, MOST_STATES};
pub use draft::Draft;
pub use fault::BrainFault;
pub use form::{
    ConditionWord, Form, condition_table, form_at, form_table, side_table, sight_table,
};
pub use hex_geometry::{OutOfMemory, Side, Sight};
pub use instr::{Cond, Instr};
pub use laws::{
    canonical_text_is_read, no_text_wants_memory, one_brain_or_one_fault, texts_make_brains,
};
pub use line::read_instruction;
pub use read::read_brain;
pub use same::are_same;
pub use write::{InstructionWords, write_brain};
