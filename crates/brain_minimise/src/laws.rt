// Laws of minimised brains.
ghost use Rattle.brain_minimise.specs.Laws.{DifferentStay, FewestStates, OneMinimised, TwiceIsOnce};
ghost use Rattle.brain_minimise.specs.Match.{DumpsAlike, PlaysAlike, ScoresAlike};

/// A law: a brain has one minimised brain and one map to it: what `minimise` promises leaves nothing open.
pub fn one_minimised()
    ensures { OneMinimised }
{}

/// A law: minimising twice is minimising once. A minimised brain is unchanged, and each of its states keeps its number.
pub fn twice_is_once()
    ensures { TwiceIsOnce }
{}

/// A law: no brain with fewer states than the minimised one can be made from a brain by only merging equivalent
/// reachable states.
#[tactic(auto, using(crate::proofs::Ranks::fewest))]
pub fn fewest_states()
    ensures { FewestStates }
{}

/// A law: if no two reachable states of a brain are equivalent, it keeps its instructions in their order, except the
/// unreachable states. If all states can be reached as well, nothing changes.
pub fn different_stay()
    ensures { DifferentStay }
{}

/// A law: for any opening world, other brain, numbers of the rules, seed, side and number of rounds, the game with the
/// minimised brain is the game with the brain, except for the numbers of that side's states, and it is at the same
/// place of the stream (the task's kinetics and number generation).
#[tactic(auto, using(crate::proofs::MinimisedGames::game_minimised))]
pub fn plays_alike()
    ensures { PlaysAlike }
{}

/// A law: so the scores of the two games are equal after each round (the task's game play).
#[tactic(auto, using(crate::proofs::MinimisedGames::score_minimised))]
pub fn scores_alike()
    ensures { ScoresAlike }
{}

/// A law: so dumps of the two games differ only in that side's state numbers. Each cell has the same ground, hill, food
/// and markers, and an ant with the same id, colour, direction, load and rest. An ant of the other side has the same
/// state too (the task's game play).
#[tactic(auto, using(crate::proofs::MinimisedGames::dump_minimised))]
pub fn dumps_alike()
    ensures { DumpsAlike }
{}
