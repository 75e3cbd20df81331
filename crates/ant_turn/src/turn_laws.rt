// What turns and rounds keep and change, and how many random numbers they use.
ghost use Rattle.ant_turn.specs.FoodLaws.{RoundsKeepFood, TurnsKeepAnts, TurnsKeepFood, TurnsKeepWeight};
ghost use Rattle.ant_turn.specs.KillLaws.{TurnsKillAlone};
ghost use Rattle.ant_turn.specs.QuietLaws.{IdleTurns, TurnsAreNear, TurnsFollow};
ghost use Rattle.ant_turn.specs.TurnLaws.{OpeningsFit, RoundsKeep, TurnsDraw, TurnsKeep};

/// A law: at the start of a game each ant's state, which is 0, is below the length of its colour's brain (the task's
/// biology).
pub fn openings_fit()
    ensures { OpeningsFit }
{}

/// A law: a turn keeps the sizes of a world, its number of ids, its rocks and hills, and what every world keeps. It
/// makes no ant and no weight, and each ant's state stays below the length of its colour's brain (the task's kinetics).
pub fn turns_keep()
    ensures { TurnsKeep }
{}

/// A law: any number of rounds keeps what a turn keeps (the task's kinetics).
pub fn rounds_keep()
    ensures { RoundsKeep }
{}

/// A law: any number of turns advances the place in the stream by at most that number, and never moves it back (the
/// task's kinetics).
pub fn turns_draw()
    ensures { TurnsDraw }
{}

/// A law: a turn neither makes nor loses food, lying and carried, except that each killed ant leaves the sheet's corpse
/// (the task's martial arts).
pub fn turns_keep_food()
    ensures { TurnsKeepFood }
{}

/// A law: a turn changes a world's weight only by its kills. A killed ant weighed 9, besides the particle that it
/// carried; it leaves that particle and the sheet's corpse, at most 9. So each kill removes the difference, which is 6
/// with the contest's sheet (the task's martial arts; the weight is this project's own).
pub fn turns_keep_weight()
    ensures { TurnsKeepWeight }
{}

/// A law: a turn lowers the number of living ants by the number of those that it killed (the task's martial arts).
pub fn turns_keep_ants()
    ensures { TurnsKeepAnts }
{}

/// A law: any number of rounds keeps the sum of the food of a world and a corpse of the sheet for each living ant (the
/// task's martial arts).
pub fn rounds_keep_food()
    ensures { RoundsKeepFood }
{}

/// A law: the killed ants were alive, are gone and are pairwise different. Every other ant stays where it is, except
/// that the ant whose turn it is may move. The dead stay dead (the task's martial arts and biology).
pub fn turns_kill_alone()
    ensures { TurnsKillAlone }
{}

/// A law: the turn of a dead ant changes nothing, and that of a resting ant only its resting count; neither uses a
/// random number (the task's kinetics).
pub fn idle_turns()
    ensures { IdleTurns }
{}

/// A law: some turns and then the next ones are the same as all of them, and so for rounds (the task's kinetics).
pub fn turns_follow()
    ensures { TurnsFollow }
{}

/// A law: the turn of an ant changes no cell except its own, the one ahead of it and the six around that one. If it
/// doesn't move, only its own changes. If it moves, only its own changes, the one onto which it steps, and those on
/// which an ant was killed. An ant that survives is where it was or on the cell ahead. No marker changes except the own
/// colour's on the own cell (the task's kinetics and chemistry).
pub fn turns_are_near()
    ensures { TurnsAreNear }
{}
