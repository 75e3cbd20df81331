//! All commands of the program `ants`, over any shelf of files and any two sinks: a simulator of the ant world of the
//! ICFP Programming Contest 2004.
//!
//! `run_ants` does all that the program does, and returns its status. `run_to_exit` returns that as an exit code, and
//! `main` passes it the real shelf and sinks. `run_here` does all of it except `run --far`, which has to wait for
//! workers. `run_alone` does the same as `run_here`, on the caller's thread. Each command's files, its text, its faults
//! and their lines are definitions in specs/, and the clause of `run_ants` says how every run ends.
//!
//! Definitions that name no section of the contest's task are this project's own: the commands and what they print, the
//! faults, and the statuses.
#![tactic(auto)]

mod commands;
mod files;
mod laws;
mod program;
mod status;
mod stop;

pub use laws::{
    assembled_and_minimised, contents_judge_once, cup_games_are_runs, has_output, headline,
    one_text, refused_words, run_promise, run_shelf, saves_are_resumed, texts_end_in_lf,
    windows_change_counts_alone, workers_change_nothing,
};
pub use program::{exit_without_memory, run_alone, run_ants, run_here, run_to_exit};
pub use status::Status;
pub use stop::{CommandStop, Ended, FileFault};
