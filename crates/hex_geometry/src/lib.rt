//! Positions and directions of the ant world.
//!
//! The task's geometry: rows of six-sided cells, every odd row shifted half a cell to the right.
//!
//! It promises to the crates above:
//!
//! - A neighbour is the one of the task's table, for all pairs of whole numbers. A turn is a sum modulo six. A sensed
//!   position and the list of neighbours follow from these two.
//! - A distance is the least number of steps of a walk over all pairs of whole numbers. A ball lists each position
//!   within its radius once, in row order.
//! - The positions of a world and their numbers in row order determine each other. Its rim is every position that isn't
//!   an inner one.
//!
//! Only the list of a ball takes memory. The crate depends on `OutOfMemory` of `ant_base`, and on lemmas.
//!
//! Whatever names no section of the contest's task is this project's own.
#![tactic(auto)]

mod balls;
mod direction;
mod distance_laws;
mod distances;
mod grid;
mod grid_laws;
mod laws;
mod neighbourhood;
mod position;

pub use ant_base::OutOfMemory;
pub use balls::ball;
pub use direction::{Dir, Side, turned};
pub use distance_laws::{balls_are_counted, distance_is_metric, steps_change_by_one};
pub use distances::distance;
pub use grid::{index_of, is_on_rim, pos_at};
pub use grid_laws::{rim_is_outermost, rows_are_numbered};
pub use laws::{neighbours_are_mutual, neighbours_are_the_tables, turns_go_round};
pub use neighbourhood::{Sight, adjacent, neighbours, sensed};
pub use position::Pos;
