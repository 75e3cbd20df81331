//! The stream of random numbers of a game: the task's number generation.
//!
//! A stream is seen as its seed and its place, which counts the numbers that were drawn from it. The crates above draw
//! from it in order, and can start at any place. The promise: a draw below n at place i returns `x(i) mod n` and moves
//! the place to i + 1, and `at_place` reaches a place in at most two counted steps for each of its binary digits, plus
//! two. The crate depends on no other, and no call takes memory.
//!
//! Whatever names no section of the contest's task is this project's own.
#![tactic(auto)]

mod jump;
mod steps;
mod stream;

pub use steps::Steps;
pub use stream::Stream;
