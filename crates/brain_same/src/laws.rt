// Laws of brains that are the same.
ghost use Rattle.brain_same.specs.Games.{BothPlaySame, PlaysSame};
ghost use Rattle.brain_same.specs.Laws.{HasComparison, HasWay, MinimisedIsSame, OneComparison, OneWay, SameIsEquivalence, SameIsNotApart, WayIsComparison, WayLeads};

/// A law: being the same is an equivalence: each brain is the same as itself, the order of the two doesn't matter, and
/// it holds through a third brain.
#[tactic(auto, using(crate::proofs::SameLaws::same_is_equivalence))]
pub fn same_is_equivalence()
    ensures { SameIsEquivalence }
{}

/// A law: a brain is the same as its minimised one.
#[tactic(auto, using(crate::proofs::SameLaws::minimised_is_same))]
pub fn minimised_is_same()
    ensures { MinimisedIsSame }
{}

/// A law: if brains are the same, no list of answers distinguishes them.
pub fn same_is_not_apart()
    ensures { SameIsNotApart }
{}

/// A law: two brains have one comparison: what `compare` promises leaves nothing open.
#[tactic(auto, using(crate::proofs::SameLaws::one_comparison))]
pub fn one_comparison()
    ensures { OneComparison }
{}

/// A law: two brains have a comparison.
#[tactic(auto, using(crate::proofs::HasComparison::has_comparison))]
pub fn has_comparison()
    ensures { HasComparison }
{}

/// A law: two brains have the same comparison with the way as without it.
#[tactic(auto, using(crate::proofs::WayLemmas::way_is_comparison))]
pub fn way_is_comparison()
    ensures { WayIsComparison }
{}

/// A law: two brains have one comparison by one way: what `compare_way` promises leaves nothing open.
#[tactic(auto, using(crate::proofs::WayLemmas::one_way))]
pub fn one_way()
    ensures { OneWay }
{}

/// A law: two brains have a comparison by a way.
#[tactic(auto, using(crate::proofs::WayLemmas::has_way))]
pub fn has_way()
    ensures { HasWay }
{}

/// A law: the way to a difference has a step for each answer. The first is at the states 0, each follows from the
/// previous one by its answer in both brains, and the last leads to the two states that are reported.
pub fn way_leads()
    ensures { WayLeads }
{}

/// A law: for any opening world, other brain, numbers of the rules, seed, side and number of rounds, the game with a
/// brain that is the same differs only in the states of that side's ants. It has the same cells, ants, food and
/// markers, used the same number of random numbers, and has an equal score (the task's kinetics, number generation and
/// game play).
#[tactic(auto, using(crate::proofs::SameGames::plays_same))]
pub fn plays_same()
    ensures { PlaysSame }
{}

/// A law: the same holds for the game with other brains on both sides, each the same as the one that it replaces,
/// except for the states of all ants.
#[tactic(auto, using(crate::proofs::SameGames::both_play_same))]
pub fn both_play_same()
    ensures { BothPlaySame }
{}
