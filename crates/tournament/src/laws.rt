// Laws of all cups.
ghost use Rattle.tournament.specs.Laws.{GamesAddUp, OneStanding, PointsAddUp, WinsAreLosses, WorldsInOrder};

/// A law: the points of a cup's players add up to twice its games.
pub fn points_add_up()
    ensures { PointsAddUp }
{}

/// A law: over all players of a cup there are as many wins as losses.
pub fn wins_are_losses()
    ensures { WinsAreLosses }
{}

/// A law: a cup has one standing, which its scores determine.
pub fn one_standing()
    ensures { OneStanding }
{}

/// Two laws: the games of a cup are those on its worlds, one world after another; and a player's line after some games
/// and then more is the sum of the line after the first and the line after the rest. So the standing is the sum of the
/// games.
#[tactic(auto, using(crate::proofs::PrintedLemmas::games_added_up, crate::proofs::PrintedLemmas::worlds_in_order))]
pub fn games_add_up()
    ensures worlds { WorldsInOrder }
    ensures lines { GamesAddUp }
{}
