//! Tables of words that are read in any ASCII case.
//!
//! The words of a table differ in more than ASCII case, which is proved where the table is built. `find` and `word` are
//! inverse, and `word_arms!` maps a word's place to its meaning. The crate depends on no other.
//!
//! Whatever names no section of the contest's task is this project's own.
#![tactic(auto)]

mod arms;
mod words;

pub use words::{WordTable, Words, word_is_found};
