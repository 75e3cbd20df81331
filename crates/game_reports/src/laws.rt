// Laws of all reports.
ghost use Rattle.game_reports.specs.Laws.{ActsAreCounted, AllEventsById, CountsAddUp, DeathsAreTheDead, LastScoreIsTheEnds, LinesAreOfDumps, ProfilesAddUp};

/// A law: the ants that are killed in a game, according to its events, are those that live at the start and not at the
/// end, each once (the task's martial arts and biology). The call does nothing, like all of these: its clause is the
/// law.
pub fn deaths_are_the_dead()
    ensures { DeathsAreTheDead }
{}

/// A law: the last score that the events of a game report, or 0 to 0 if there is none, is the one after the last round,
/// which a run prints (the task's game play).
pub fn last_score_is_the_ends()
    ensures { LastScoreIsTheEnds }
{}

/// A law: the counts of all states of both brains add up to the number of turns of living ants that don't rest (the
/// task's kinetics).
pub fn counts_add_up()
    ensures { CountsAddUp }
{}

/// A law: the line of a trace for a living ant is `round R: ` and a line of the dump of that round (this project's
/// own). The call does nothing: its clause is the law.
pub fn lines_are_of_dumps()
    ensures { LinesAreOfDumps }
{}

/// A law: take a profile of the rounds before one, and a profile from this round on. For each state their counts add up
/// to those of the profile of all rounds (this project's own). The call does nothing: its clause is the law.
pub fn profiles_add_up()
    ensures { ProfilesAddUp }
{}

/// A law: the lines of what every ant executes, counted by colour, state and answer, are the counts of the profile of
/// the same rounds (this project's own). The call does nothing: its clause is the law.
pub fn acts_are_counted()
    ensures { ActsAreCounted }
{}

/// A law: the events of all rounds without food are the deaths and the scores of all turns, as they are defined by the
/// ids of the ants (this project's own). The call does nothing: its clause is the law.
pub fn all_events_by_id()
    ensures { AllEventsById }
{}
