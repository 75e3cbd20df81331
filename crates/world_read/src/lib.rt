//! World texts, read and written.
//!
//! A world file as the contest's tools write it is accepted, whether its rows are indented or not. Every other text has
//! exactly one fault, the first in a fixed order. The grammar and the faults are stated as relations, separately from
//! the function that reads. Each text is that of exactly one world or has exactly one fault, and the canonical text of
//! an opening world is read as that world.
//!
//! The grammar and the faults are this project's own statement of the task's world files. This crate depends on
//! `ant_base` and `cell_world`.
#![tactic(auto)]

mod fault;
mod laws;
mod limits;
mod read;
mod row;
mod rows;
mod size;
mod write;

pub use fault::WorldFault;
pub use laws::{
    canonical_text_is_read_back, every_text_has_one_verdict, written_worlds_are_read_back,
};
pub use read::read_world;
pub use write::write_world;
