//! Texts that are read line by line and token by token: brains, breaks and programs.
//!
//! A `;` begins a comment. What precedes it is cut into tokens by spaces, tabs and CR bytes, as in the task's
//! neurology. [`Tokens`] gives the tokens of a line one after another, as words of a table or as numbers, and refuses
//! the first position at fault. It promises that each call takes one token and returns exactly its meaning or why it is
//! refused, and which token has a [bad byte](has_bad_byte). For crates that read whole texts, this crate also defines,
//! once, what a line with a token is and when a line is the first at fault. It proves that a reader which stops at a
//! refused line returns that fault. It depends on the lines and numbers of `ant_base` and the tables of `word_table`.
//!
//! Whatever names no section of the contest's task is this project's own.
#![tactic(auto)]

mod bytes;
mod refusal;
mod tokens;

pub use bytes::has_bad_byte;
pub use refusal::{BAD_BYTE, LineFault, Refusal};
pub use tokens::Tokens;
