// Laws of what a command does. Each is proved by a function that does nothing.
ghost use Rattle.ant_commands.specs.Headline.{Headline};
ghost use Rattle.ant_commands.specs.RunPromise.{RefusedWords, RunPromise, RunShelf};
ghost use Rattle.ant_commands.specs.Verdict.{JudgesOnce};
ghost use Rattle.ant_commands.specs.Laws.{AssembledAndMinimised, CupGamesAreRuns, HasOutput, OneText, SavesAreResumed, TextsEndInLf, WindowsChangeCountsAlone, WorkersChangeNothing};

/// A law: the promise on one page. Each run of the program ends with the status 0, 2, 3, 4, 5 or 6, and each status
/// says what was fetched, accepted and written. It follows from the one clause of `run_to_exit`.
pub fn headline()
    ensures { Headline }
{}

/// A law: the promise of one `run` without `--stats`, in definitions of its own: what each status says about its three
/// files, the text of its game and the errors. The words of a `run` name one game. Words that begin with `run`, have no
/// `--stats` and are not refused are the words of such a `run`.
pub fn run_promise()
    ensures { RunPromise }
{}

/// A law: what such a run does to its shelf. Its fetches agree with the contents that the shelf reports, and with a
/// file's greatest length. If a file was not read, the shelf was not sure of it, and its count of faults rose.
pub fn run_shelf()
    ensures { RunShelf }
{}

/// A law: words that are not a command end with status 2 at the first word that is refused. Each `run` without
/// `--stats` that is a command by the table of commands is a run by `run_promise`.
pub fn refused_words()
    ensures { RefusedWords }
{}

/// A law: the contents of a command's files give exactly one verdict. Either all files are accepted, always as the same
/// contents; or the first refused file is always the same, with the same fault.
#[tactic(auto, using(crate::proofs::Judgements::judges_once))]
pub fn contents_judge_once()
    ensures { JudgesOnce }
{}

/// A law: each output of a command ends in LF, if the command's numbers and names are within the limits and its files
/// were accepted. The only exception is an output without bytes, of `asm` with `--labels` and without `--lines` for a
/// program without labels. So if the output reports what waits, nothing of the text waits to be flushed after all of it
/// was written.
#[tactic(auto, using(crate::proofs::JobTexts::texts_end_in_lf))]
pub fn texts_end_in_lf()
    ensures { TextsEndInLf }
{}

/// A law: a command has at most one output for the same contents of its files.
#[tactic(auto, using(crate::proofs::JobTexts::one_text))]
pub fn one_text()
    ensures { OneText }
{}

/// A law: two command lines that differ only in the number of workers, or in `--far`, read the same files and have the
/// same output.
#[tactic(auto, using(crate::proofs::WorkerLaws::workers_change_nothing))]
pub fn workers_change_nothing()
    ensures { WorkersChangeNothing }
{}

/// A law: without its counts, the output of a `run` is the same for every number of turns in a window.
#[tactic(auto, using(crate::proofs::JobTexts::windows_change_counts_alone))]
pub fn windows_change_counts_alone()
    ensures { WindowsChangeCountsAlone }
{}

/// A law: the score of each game of a cup is the one that `run` prints for the same world, brains, seed and rounds by
/// the contest's rules. So if you believe a `run`, you believe a game of a cup.
#[tactic(auto, using(crate::proofs::CupGames::cup_games_are_runs))]
pub fn cup_games_are_runs()
    ensures { CupGamesAreRuns }
{}

/// A law: a command has an output, if it is within the limits, its files were accepted, and its elements have room.
#[tactic(auto, using(crate::proofs::JobTexts::has_output))]
pub fn has_output()
    ensures { HasOutput }
{}

/// A law: the minimised brain of what `asm` writes still plays the labelled game of the program, with a state for each
/// address and the same score.
#[tactic(auto, using(crate::proofs::LabelledGames::assembled_and_minimised))]
pub fn assembled_and_minimised()
    ensures { AssembledAndMinimised }
{}

/// A law: suppose that `run` prints a text. If `save` saves the same game after at most that many rounds, the save fits
/// into a file, and `resume` accepts it. `resume` then prints the rest of the text: everything after the line of the
/// seed and the selected dumps up to the saved round. The seed, the window, the sheet, the dumps and the counts are
/// those of `run`; each of the three commands may have any number of workers. It doesn't matter after which round the
/// game is saved. What `advance` prints from such a save is what `save` prints of the game after the later round, byte
/// for byte, so all of this holds for it too.
#[tactic(auto, using(crate::proofs::ResumedGames::saves_are_resumed))]
pub fn saves_are_resumed()
    ensures { SavesAreResumed }
{}
