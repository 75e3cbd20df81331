// Laws of saves.
ghost use Rattle.match_save.specs.Advanced.{AdvancedSavesGoOn, GamesAreAdvanced, SavesAreAdvanced};
ghost use Rattle.match_save.specs.Resumed.{SavesGoOn};
ghost use Rattle.match_save.specs.Saves.{GamesAreSaved, SavesAreShort};
ghost use Rattle.match_save.specs.Laws.{EveryTextHasOneVerdict};

/// A law: every text is that of exactly one save or has exactly one fault, and never both (this project's own). The
/// call does nothing: its clause is the law.
pub fn every_text_has_one_verdict()
    ensures { EveryTextHasOneVerdict }
{}

/// A law: if a save is one of a game, the text of the game's uninterrupted run is the line of the seed, the chosen
/// dumps up to the saved round, and the rest of the save (this project's own). The call does nothing: its clause is the
/// law.
pub fn saves_go_on()
    ensures { SavesGoOn }
{}

/// A law: the save of a game by the rules, after any number of rounds from an opening world, is a save, and one of this
/// game: no rest exceeds 255 turns, the place doesn't exceed the number of turns, and there are as many hill cells as
/// ids (this project's own). The call does nothing: its clause is the law.
pub fn games_are_saved()
    ensures { GamesAreSaved }
{}

/// A law: the text of every save has at most 4,194,304 bytes, the most that a file may have (this project's own). So
/// the written text of a save can be fetched. The call does nothing: its clause is the law.
pub fn saves_are_short()
    ensures { SavesAreShort }
{}

/// A law: if the save of a game is advanced to a later round, it is the save of the same game after that number of
/// rounds; and this holds for each save of a game, however it was made (this project's own). So however many saves are
/// made on the way, the last of them is the same. The call does nothing: its clause is the law.
pub fn games_are_advanced()
    ensures { GamesAreAdvanced }
{}

/// A law: what a save is advanced to is a save, even if no game made the one or the other. Advanced to its own round it
/// is unchanged; advanced to one round and then to another, it is the same as advanced at once (this project's own).
/// The call does nothing: its clause is the law.
pub fn saves_are_advanced()
    ensures { SavesAreAdvanced }
{}

/// A law: what `resume` pushes for a save is the chosen dumps up to a later round, and then what it pushes for the save
/// that is advanced to this round. If the save is one of a game, so is the advanced one, so that `saves_go_on` holds
/// for it (this project's own). The call does nothing: its clause is the law.
pub fn advanced_saves_go_on()
    ensures { AdvancedSavesGoOn }
{}
