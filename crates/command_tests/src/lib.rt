//! Tests of the program's commands over files and sinks in memory. They test what no clause says: that a command
//! succeeds if there is memory, and the exact bytes that it writes.
//!
//! A crate with tests is proved twice. So these tests are here, above the commands that they run.
#![tactic(auto)]

#[cfg(test)]
mod commands;
