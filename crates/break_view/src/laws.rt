// Laws of all texts of breaks and of all games with breaks.
ghost use Rattle.break_view.specs.Laws.{EndsAreFound, FewerStopLater, LaterRoundsAddNothing, OneFirstStop, OneListOrOneFault, QuietRoundsArePassed, StopsFollowTurns};

/// A law: every text has exactly one list of breaks or exactly one fault, and never both.
pub fn one_list_or_one_fault()
    ensures { OneListOrOneFault }
{}

/// A law: a game has at most one first stop, exactly one end, and one text of its view.
#[tactic(auto, using(crate::proofs::ViewLaws::one_first_stop))]
pub fn one_first_stop()
    ensures { OneFirstStop }
{}

/// A law: with fewer breaks a game doesn't stop earlier, and if it doesn't stop with more, it doesn't with fewer.
#[tactic(auto, using(crate::proofs::ViewLaws::fewer_stop_later))]
pub fn fewer_stop_later()
    ensures { FewerStopLater }
{}

/// A law: a break counts only after a turn. So a stop is in round 1 or later, and not before the round from which on
/// breaks are checked. There is no stop without rounds, without ants or without breaks, or if that round is after the
/// last one.
#[tactic(auto, using(crate::proofs::ViewLaws::stops_follow_turns))]
pub fn stops_follow_turns()
    ensures { StopsFollowTurns }
{}

/// A law: rounds after a stop change nothing: it is the first stop of the longer game too.
#[tactic(auto, using(crate::proofs::ViewLaws::later_rounds_add_nothing))]
pub fn later_rounds_add_nothing()
    ensures { LaterRoundsAddNothing }
{}

/// A law: every game has an end, which a search of its turns in order finds. So the text of its view is a function of
/// the world, the brains, the seed, the rounds and the breaks.
#[tactic(auto, using(crate::proofs::FirstStops::ends_are_found))]
pub fn ends_are_found()
    ensures { EndsAreFound }
{}

/// A law: rounds in which no turn would stop the game can be skipped. The view from a round on equals the view from any
/// later round, if no turn between them would stop the game. So a view from round 0 on equals one from round 1 on.
#[tactic(auto, using(crate::proofs::QuietRounds::quiet_rounds_are_passed))]
pub fn quiet_rounds_are_passed()
    ensures { QuietRoundsArePassed }
{}
