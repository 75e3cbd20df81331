// Counts of the turns of a game.

/// How the turns of a game were made: their number, how many used looks that were made ahead, and how many were
/// executed again.
#[derive(Clone, Copy, Debug, PartialEq, Eq)]
pub struct Totals {
    /// How many turns were played, including those of dead and resting ants.
    pub turns: u64,
    /// How many looks were valid and used.
    pub taken: u64,
    /// How many turns were executed again because their look wasn't valid.
    pub redone: u64,
}
