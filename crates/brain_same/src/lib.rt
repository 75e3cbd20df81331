//! Whether two brains are the same except for the numbers of their states.
//!
//! Two brains are the same if a bisimulation relates state 0 of one to state 0 of the other. Then no ant can
//! distinguish them, and each game is the same except for states; that is a law of this crate. Otherwise [`compare`]
//! reports the least number of answers that shows the difference, and the two states, and [`compare_way`] reports the
//! way there too. Whatever names no section of the contest's task is this project's own. It depends on `brain_read`,
//! and on the definitions of `brain_minimise` and of `ant_turn`.
#![tactic(auto)]

mod classes;
mod comparison;
mod instruction;
mod laws;
mod search;
mod way;
mod way_search;

pub use comparison::{Comparison, Found};
pub use hex_geometry::OutOfMemory;
pub use laws::{
    both_play_same, has_comparison, has_way, minimised_is_same, one_comparison, one_way,
    plays_same, same_is_equivalence, same_is_not_apart, way_is_comparison, way_leads,
};
pub use search::compare;
pub use way::{Step, Way};
pub use way_search::compare_way;
