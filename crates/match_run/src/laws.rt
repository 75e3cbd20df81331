// Laws of all games and runs.
ghost use Rattle.match_run.specs.CountLaws.{BrokenRoundsGoOn, CountsComeLast, SingleTurnWindowsAreTaken, RoundsGoOn, TotalsAddUp, WholeRounds};
ghost use Rattle.match_run.specs.GameLaws.{GamesFollowTheRules, GamesGoOnByRounds, GamesKeepTheirHills};
ghost use Rattle.match_run.specs.Later.{RunsGoOn};
ghost use Rattle.match_run.specs.RunLaws.{AllDumps, NoDumps, SameRounds, RepeatAddsNothing, LaterAddsNothing, GamesGoOn};

/// A law: the text of a run with `Dumps::All` is the line of the seed, the dump after each round from 0 to the number
/// of rounds in order, and the score (the task's game play). The call does nothing: its clause is the law.
pub fn all_dumps()
    ensures { AllDumps }
{}

/// A law: the text of a run with `Dumps::Nothing` is the line of the seed and the score (the task's game play). The
/// call does nothing: its clause is the law.
pub fn no_dumps()
    ensures { NoDumps }
{}

/// A law: two lists with the same rounds, up to the number of rounds, give the same text: order, repeats and later
/// rounds make no difference. The call does nothing: its clause is the law.
pub fn same_rounds()
    ensures { SameRounds }
{}

/// A law: a round that the list already has adds nothing to the text. The call does nothing: its clause is the law.
pub fn repeat_adds_nothing()
    ensures { RepeatAddsNothing }
{}

/// A law: a round above the number of rounds adds nothing to the text. The call does nothing: its clause is the law.
pub fn later_adds_nothing()
    ensures { LaterAddsNothing }
{}

/// A law: the score after r + q rounds of a game is the score after q rounds from the moment after the first r, if the
/// random numbers continue from there (the task's game play and kinetics). The call does nothing: its clause is the
/// law.
pub fn goes_on()
    ensures { GamesGoOn }
{}

/// A law: some rounds and those after them lead to the same moment as all of them, and their turns are the turns of all
/// (the task's kinetics). The call does nothing: its clause is the law.
pub fn rounds_go_on()
    ensures { RoundsGoOn }
{}

/// A law: a game's rounds have a turn for each id, and each turn is taken from a look or executed again, however many
/// turns a window has. The call does nothing: its clause is the law.
pub fn totals_add_up()
    ensures { TotalsAddUp }
{}

/// A law: if a window has one turn, every turn of a game's rounds is taken. The call does nothing: its clause is the
/// law.
pub fn single_turn_windows_are_taken()
    ensures { SingleTurnWindowsAreTaken }
{}

/// A law: the counts affect only the last line: without that line the text of a run is the same, however many turns a
/// window has (this project's own). The call does nothing: its clause is the law.
pub fn counts_come_last()
    ensures { CountsComeLast }
{}

/// A law: a `round` of a game that begins with the turn of id 0 leads to the moment after a round of the rules, and has
/// its turns (the task's kinetics). The call does nothing: its clause is the law.
pub fn whole_rounds()
    ensures { WholeRounds }
{}

/// A law: a `round` that was refused and then continued leads to the same moment as one without a refusal, with the
/// same counts. The call does nothing: its clause is the law.
pub fn broken_rounds_go_on()
    ensures { BrokenRoundsGoOn }
{}

/// A law: the text of a run is the line of the seed, the chosen dumps up to any round, and then the rest of its text
/// from that round on. So what `play_on` pushes for a game at that round, with the counts of the rounds before it, is
/// what is missing of the run's text (this project's own). The call does nothing: its clause is the law.
pub fn runs_go_on()
    ensures { RunsGoOn }
{}

/// A law: take a game at the end of a round, and play r more rounds of it, each to its end however often it failed
/// before. Then the game is at the moment after r rounds of the rules, and has their counts (the task's game play). The
/// call does nothing: its clause is the law.
pub fn games_go_on_by_rounds()
    ensures { GamesGoOnByRounds }
{}

/// A law: a game that begins at place 0 has, after r whole rounds by any crews, the world, the place and the counts
/// that the definitions give for r rounds of a game of its first world (the task's game play). The call does nothing:
/// its clause is the law.
pub fn games_follow_the_rules()
    ensures { GamesFollowTheRules }
{}

/// A law: a game that begins at place 0 on the opening world of some kinds has in every round as many hill cells as
/// ids, since each hill cell had an ant at the start and no turn changes a hill (the task's geography and biology). The
/// call does nothing: its clause is the law.
pub fn games_keep_their_hills()
    ensures { GamesKeepTheirHills }
{}
