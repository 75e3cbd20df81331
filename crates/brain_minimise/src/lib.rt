//! Brains with equivalent states merged.
//!
//! Two states of a brain are equivalent if no ant can distinguish them: they have the same kind of instruction, the
//! same sight, condition, marker, side or bound, and their successors are equivalent again. [`minimise`] merges
//! equivalent states among those that state 0 leads to, drops all others, and reports the new number of each state.
//! Merging drops no instruction that does something: a Flip whose branches are equal still draws, and a Sense still
//! takes its turn. So the minimised brain plays every game as the brain does, except for the numbers of its states;
//! that is a law of this crate. Whatever names no section of the contest's task is this project's own. It depends on
//! `brain_read` and on the definitions of `ant_turn`, and numbers the classes by the kit's `indexmap`.
#![tactic(auto)]

mod classes;
mod existence;
mod laws;
mod merge;
mod numbering;
mod reach;
mod redirect;
mod state_map;
mod text;

pub use existence::has_minimised;
pub use hex_geometry::OutOfMemory;
pub use laws::{
    different_stay, dumps_alike, fewest_states, one_minimised, plays_alike, scores_alike,
    twice_is_once,
};
pub use merge::{Minimised, minimise};
pub use state_map::StateMap;
pub use text::push_minimised;
