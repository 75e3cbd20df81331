// Turns and rounds keep the hills.
ghost use Rattle.ant_turn.specs.HillLaws.{GamesKeepHills, RoundsKeepHills, TurnsKeepHills};

/// A law: any number of turns keeps the hill of each cell, and so the number of hill cells (the task's geography).
pub fn turns_keep_hills()
    ensures { TurnsKeepHills }
{}

/// A law: any number of rounds keeps them too (the task's geography).
pub fn rounds_keep_hills()
    ensures { RoundsKeepHills }
{}

/// A law: in every round a game's world has as many ids as hill cells, as at the start, where each hill cell had an ant
/// (the task's geography and biology).
pub fn games_keep_hills()
    ensures { GamesKeepHills }
{}
