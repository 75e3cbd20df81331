//! Games of the ant world, and the text of a run.
//!
//! The task's game play: rounds are played one after another. Each is one turn of each id in rising order, with one
//! stream of random numbers from place 0.
//!
//! - A `Game` is played round by round by any crew, in windows of turns. Its state is always that after its turns one
//!   after another. It counts how many turns were taken from looks, which depends only on the turns and on the size of
//!   a window. `play` pushes the text of a run with its counts, by any crew.
//! - A `GameAlone` is played turn after turn, in memory that doesn't grow with the rounds, by the one loop of
//!   `watch_rounds`, which shows a game to a `Watch`. `play_alone` pushes the text without counts in this way, and
//!   `play_score` returns only a game's score.
//!
//! The laws say which parts the text has, which rounds a list adds to it, what the counts add up to, and that a game
//! can be interrupted and resumed. Whatever names no section of the contest's task is this project's own. This crate
//! depends on `round_book`, `ant_turn` and `dump_print`.
#![tactic(auto)]

mod alone;
mod board;
mod dumps;
mod game;
mod game_alone;
mod laws;
mod plan;
mod scored_world;
mod watch;
mod watched;
mod whole_run;
mod windows;

pub use alone::{play_alone, play_on_alone, play_score};
pub use ant_base::PushFault as PlayFault;
pub use board::Board;
pub use dump_print::Totals;
pub use dumps::{Dumps, Rounds};
pub use game::Game;
pub use game_alone::GameAlone;
pub use hex_geometry::OutOfMemory;
pub use laws::{
    all_dumps, broken_rounds_go_on, counts_come_last, games_follow_the_rules,
    games_go_on_by_rounds, games_keep_their_hills, goes_on, later_adds_nothing, no_dumps,
    repeat_adds_nothing, rounds_go_on, runs_go_on, same_rounds, single_turn_windows_are_taken,
    totals_add_up, whole_rounds,
};
pub use plan::{MOST_ROUNDS, Plan};
pub use scored_world::ScoredWorld;
pub use watch::{Nobody, Watch};
pub use watched::{watch_round, watch_rounds};
pub use whole_run::{play, play_on};
