// What a run has to do.
use crate::dumps::Dumps;

/// The most rounds that a game has (this project's own).
pub const MOST_ROUNDS: u32 = 1_000_000;

/// What a run has to do (seed and rounds are the task's game play).
#[derive(Drop)]
pub struct Plan {
    /// The seed of the random numbers, from 0 to 4,294,967,295.
    pub seed: u32,
    /// How many rounds are played, from 0 to 1,000,000. Rounds are counted from 1; round 0 is the start.
    pub rounds: u32,
    /// After which rounds the world is dumped.
    pub dumps: Dumps,
    /// How many turns a window of looks has, from 1 to 16,384.
    pub window: u32,
    /// Whether the line of the counts is printed.
    pub stats: bool,
}
