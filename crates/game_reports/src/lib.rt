//! Reports of a game, each a text of lines: its events, its profile, what its ants execute, and one ant's trace.
//!
//! All of it is this project's own; deaths are the task's martial arts, the score its game play, states its neurology,
//! ids its biology, and turns and rounds its kinetics. Each report begins with the line of the seed.
//!
//! [`events`] plays a game and pushes a line for each ant that is killed and for each turn that changes the score; on
//! request also one for each particle that an ant takes or drops. [`profile`] plays a game, and then pushes a line for
//! each state of both brains: in how many turns an ant executed it, and in how many of these its answer was the first.
//! [`acts`] plays a game and pushes a line for each turn in which an ant executes an instruction, or only for those of
//! one ant. [`trace`] plays a game and pushes a line for each round: the line of the ant's cell in a dump of that
//! round, or that the ant is dead, which is the last line. This crate depends on `match_run`, `ant_turn` and
//! `dump_print`.
#![tactic(auto)]

mod executed;
mod laws;
mod report;
mod reports;
mod tally;
mod words;

pub use ant_base::PushFault;
pub use laws::{
    acts_are_counted, all_events_by_id, counts_add_up, deaths_are_the_dead, last_score_is_the_ends,
    lines_are_of_dumps, profiles_add_up,
};
pub use report::ReportPlan;
pub use reports::acts::acts;
pub use reports::events::events;
pub use reports::profile::profile;
pub use reports::trace::{TracePlan, trace};
