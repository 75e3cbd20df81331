// The commands, their options and their lists of names, a row each.
ghost use Rattle.std.specs.Prelude.{◌≡◌, [], true, false};
ghost use Rattle.command_words.specs.Table.{about_of, choices_of, default_of, fewest_names, help_row, is_needed, keyword_of, kinds, list_name, means_all, must_differ, option_of, options, places_of, values_of, word_of};

use crate::{NumberKind, Place, Slot};

/// A command, named by its first word, which is spelled exactly as here.
#[derive(Clone, Copy, Debug, PartialEq, Eq)]
pub enum CommandKind {
    /// `show WORLD SEED`: the dump of a world at the start of a game
    Show,
    /// `brain FILE`: the canonical text of a brain
    Brain,
    /// `minimise FILE`, and its option: an equivalent brain with the fewest states, or its states' new numbers
    Minimise,
    /// `run WORLD RED BLACK`, and its options: a game and its score
    Run,
    /// `gen SEED`, and its options: a world generated from a number
    Gen,
    /// `cup --worlds NAMES --brains NAMES`, and its options: all games between some brains
    Cup,
    /// `view WORLD RED BLACK BREAKS`, and its options: the first moment of a game at which a break holds
    View,
    /// `workload SEED ROUNDS WORKERS`: a game of a world generated from a number
    Workload,
    /// `--help`: the commands
    Help,
    /// `help`: the same command
    HelpWord,
    /// `--version`: which program this is
    Version,
    /// `asm FILE`, and its options: the brain of a labelled program, or the states of its labels, or the lines of its
    /// states
    Asm,
    /// `save WORLD RED BLACK`, and its options: a game after some rounds, to be continued
    Save,
    /// `resume SAVE`, and its options: the rest of a game that was saved
    Resume,
    /// `trace WORLD RED BLACK ID`, and its options: an ant's way, round by round
    Trace,
    /// `same FILE FILE`, and its option: whether two brains are the same, or their first difference
    Same,
    /// `events WORLD RED BLACK`, and its options: the deaths and the scores of a game, turn by turn
    Events,
    /// `acts WORLD RED BLACK`, and its options: what every ant executes in a game, turn by turn
    Acts,
    /// `profile WORLD RED BLACK`, and its options: how often each state of both brains is executed in a game
    Profile,
    /// `advance SAVE`, and its options: a saved game after more rounds, saved again
    Advance,
}

/// An option that may follow the words of a command's places, in any order and at most once. A number's default is used
/// if its option is not given.
#[derive(Clone, Copy, Debug, PartialEq, Eq)]
pub enum Choice {
    /// `--seed N`, needed
    Seed,
    /// `--seeds N`, how many consecutive seeds, beginning with that of `--seed`; default 1
    Seeds,
    /// `--rounds N`, needed
    Rounds,
    /// `--dump D`, the rounds that are dumped; default none
    Dump,
    /// `--workers N`; default 1
    Workers,
    /// `--window N`, the turns of a window; default 16,384
    Window,
    /// `--surround N`, the foes that surround an ant; default 5
    Surround,
    /// `--corpse N`, the food that a killed ant leaves; default 3
    Corpse,
    /// `--rest N`, the rounds of rest after a step; default 14
    Rest,
    /// `--stats`, whether the counts of turns are printed
    Stats,
    /// `--food`, whether each food particle taken or dropped is reported
    Food,
    /// `--far`, whether the workers are kept for the whole game
    Far,
    /// `--width N`, the cells of a row; default 150
    Width,
    /// `--height N`, the rows; default 150
    Height,
    /// `--rocks N`; default 14
    Rocks,
    /// `--blobs N`; default 11
    Blobs,
    /// `--from N`, the first round that is reported; default 0
    From,
    /// `--ant N`, the one ant that is reported; default all
    Ant,
    /// `--labels`, whether to print the state of each label instead of the brain
    Labels,
    /// `--states`, whether to print the new number of each state instead of the brain
    States,
    /// `--games`, whether the line of each game is printed before the standing
    Games,
    /// `--leads`, whether each line of the standing ends with the brain's lead
    Leads,
    /// `--gauntlet`, whether only the games of the first brain are played
    Gauntlet,
    /// `--lines`, whether to print the line of each state instead of the brain
    Lines,
    /// `--way`, whether each answer on the way to the difference is printed
    Way,
}

/// A list of file names, after its own word.
#[derive(Clone, Copy, Debug, PartialEq, Eq)]
pub enum NameList {
    /// `--worlds`, then 1 to 16 names
    Worlds,
    /// `--brains`, then 2 to 16 different names
    Brains,
}

pub(crate) const MOST_NAMES: usize = 16;

/// How many turns a window has without an option: 16,384, which is a whole round.
pub const DEFAULT_WINDOW: u32 = 16_384;

pub(crate) fn kinds() -> &'static [CommandKind]
    ensures { result.now ≡ kinds }
{
    &[
        CommandKind::Run,
        CommandKind::Save,
        CommandKind::Resume,
        CommandKind::Advance,
        CommandKind::View,
        CommandKind::Trace,
        CommandKind::Events,
        CommandKind::Acts,
        CommandKind::Profile,
        CommandKind::Cup,
        CommandKind::Workload,
        CommandKind::Show,
        CommandKind::Gen,
        CommandKind::Brain,
        CommandKind::Minimise,
        CommandKind::Same,
        CommandKind::Asm,
        CommandKind::HelpWord,
        CommandKind::Help,
        CommandKind::Version,
    ]
}

// A command: its first word, what follows it, and the options that may follow; and for the page of `--help` its places
// by name, each after a space, and a sentence.
#[derive(Clone, Copy)]
struct CommandRow {
    word: &'static str,
    places: &'static [Place],
    choices: &'static [Choice],
    names: &'static str,
    says: &'static str,
}

const FILE: Place = Place::Word(Slot::FileName);

const SEED: Place = Place::Word(Slot::Number(NumberKind::SeedNumber));

impl CommandKind {
    fn row(self) -> CommandRow
        ensures word { result.word.now ≡ word_of self }
        ensures places { result.places.now ≡ places_of self }
        ensures choices { result.choices.now ≡ choices_of self }
        ensures names { result.names.now ≡ (help_row self).names }
        ensures says { result.says.now ≡ (help_row self).says }
    {
        match self {
            CommandKind::Show => CommandRow {
                word: "show",
                places: &[FILE, SEED],
                choices: &[],
                names: " WORLD SEED",
                says: "prints a world as it is at the start of a game",
            },
            CommandKind::Brain => CommandRow {
                word: "brain",
                places: &[FILE],
                choices: &[],
                names: " FILE",
                says: "checks a brain, and prints it with one instruction a line",
            },
            CommandKind::Minimise => CommandRow {
                word: "minimise",
                places: &[FILE],
                choices: &[Choice::States],
                names: " FILE",
                says: "merges equivalent states of a brain, and keeps what state 0 leads to",
            },
            CommandKind::Run => CommandRow {
                word: "run",
                places: &[FILE, FILE, FILE],
                choices: &[
                    Choice::Seed,
                    Choice::Rounds,
                    Choice::Dump,
                    Choice::Workers,
                    Choice::Window,
                    Choice::Surround,
                    Choice::Corpse,
                    Choice::Rest,
                    Choice::Stats,
                    Choice::Far,
                ],
                names: " WORLD RED BLACK",
                says: "plays a game between two brains, and prints its score",
            },
            CommandKind::Gen => CommandRow {
                word: "gen",
                places: &[SEED],
                choices: &[Choice::Width, Choice::Height, Choice::Rocks, Choice::Blobs],
                names: " SEED",
                says: "prints a world like the contest's, generated from a number",
            },
            CommandKind::Cup => CommandRow {
                word: "cup",
                places: &[
                    Place::Word(Slot::Keyword(NameList::Worlds)),
                    Place::Names(NameList::Worlds),
                    Place::Word(Slot::Keyword(NameList::Brains)),
                    Place::Names(NameList::Brains),
                ],
                choices: &[
                    Choice::Seed,
                    Choice::Seeds,
                    Choice::Rounds,
                    Choice::Workers,
                    Choice::Games,
                    Choice::Leads,
                    Choice::Gauntlet,
                ],
                names: " --worlds WORLD.. --brains BRAIN..",
                says: "plays all games between brains on worlds, and prints their standing",
            },
            CommandKind::View => CommandRow {
                word: "view",
                places: &[FILE, FILE, FILE, FILE],
                choices: &[Choice::Seed, Choice::Rounds, Choice::From],
                names: " WORLD RED BLACK BREAKS",
                says: "plays a game until a given condition holds, and prints the world there",
            },
            CommandKind::Workload => CommandRow {
                word: "workload",
                places: &[
                    SEED,
                    Place::Word(Slot::Number(NumberKind::RoundCount)),
                    Place::Word(Slot::Number(NumberKind::WorkerCount)),
                ],
                choices: &[],
                names: " SEED ROUNDS WORKERS",
                says: "plays the sample brain against itself on a world that gen makes",
            },
            CommandKind::Help => CommandRow {
                word: "--help",
                places: &[],
                choices: &[],
                names: "",
                says: "prints this page",
            },
            CommandKind::HelpWord => CommandRow {
                word: "help",
                places: &[],
                choices: &[],
                names: "",
                says: "prints this page",
            },
            CommandKind::Version => CommandRow {
                word: "--version",
                places: &[],
                choices: &[],
                names: "",
                says: "prints the version of this program",
            },
            CommandKind::Asm => CommandRow {
                word: "asm",
                places: &[FILE],
                choices: &[Choice::Labels, Choice::Lines],
                names: " FILE",
                says: "prints the brain of a program with labels and blocks",
            },
            CommandKind::Save => CommandRow {
                word: "save",
                places: &[FILE, FILE, FILE],
                choices: &[
                    Choice::Seed,
                    Choice::Rounds,
                    Choice::Workers,
                    Choice::Window,
                    Choice::Surround,
                    Choice::Corpse,
                    Choice::Rest,
                ],
                names: " WORLD RED BLACK",
                says: "plays a game up to a round, and prints a save of it",
            },
            CommandKind::Resume => CommandRow {
                word: "resume",
                places: &[FILE],
                choices: &[Choice::Rounds, Choice::Dump, Choice::Workers, Choice::Stats],
                names: " SAVE",
                says: "goes on with a saved game, and prints the rest of what run prints",
            },
            CommandKind::Trace => CommandRow {
                word: "trace",
                places: &[
                    FILE,
                    FILE,
                    FILE,
                    Place::Word(Slot::Number(NumberKind::AntId)),
                ],
                choices: &[
                    Choice::Seed,
                    Choice::Rounds,
                    Choice::From,
                    Choice::Surround,
                    Choice::Corpse,
                    Choice::Rest,
                ],
                names: " WORLD RED BLACK ID",
                says: "plays a game, and prints where one ant is after each round",
            },
            CommandKind::Same => CommandRow {
                word: "same",
                places: &[FILE, FILE],
                choices: &[Choice::Way],
                names: " FILE FILE",
                says: "says whether two brains are the same except for state numbers",
            },
            CommandKind::Events => CommandRow {
                word: "events",
                places: &[FILE, FILE, FILE],
                choices: &[
                    Choice::Seed,
                    Choice::Rounds,
                    Choice::From,
                    Choice::Surround,
                    Choice::Corpse,
                    Choice::Rest,
                    Choice::Food,
                ],
                names: " WORLD RED BLACK",
                says: "plays a game, and prints who died, and how the score went",
            },
            CommandKind::Acts => CommandRow {
                word: "acts",
                places: &[FILE, FILE, FILE],
                choices: &[
                    Choice::Seed,
                    Choice::Rounds,
                    Choice::From,
                    Choice::Ant,
                    Choice::Surround,
                    Choice::Corpse,
                    Choice::Rest,
                ],
                names: " WORLD RED BLACK",
                says: "plays a game, and prints what every ant executed",
            },
            CommandKind::Profile => CommandRow {
                word: "profile",
                places: &[FILE, FILE, FILE],
                choices: &[
                    Choice::Seed,
                    Choice::Rounds,
                    Choice::From,
                    Choice::Surround,
                    Choice::Corpse,
                    Choice::Rest,
                ],
                names: " WORLD RED BLACK",
                says: "plays a game, and prints how often each state was executed",
            },
            CommandKind::Advance => CommandRow {
                word: "advance",
                places: &[FILE],
                choices: &[Choice::Rounds, Choice::Workers],
                names: " SAVE",
                says: "goes on with a saved game up to a round, and prints a save of it there",
            },
        }
    }

    pub(crate) fn word(self) -> &'static str
        ensures { result.now ≡ word_of self }
    {
        self.row().word
    }

    // What follows its first word.
    pub(crate) fn places(self) -> &'static [Place]
        ensures { result.now ≡ places_of self }
    {
        self.row().places
    }

    // Its places by name, each after a space.
    pub(crate) fn names(self) -> &'static str
        ensures { result.now ≡ (help_row self).names }
    {
        self.row().names
    }

    // The sentence about it on the page of `--help`.
    pub(crate) fn says(self) -> &'static str
        ensures { result.now ≡ (help_row self).says }
    {
        self.row().says
    }

    // The options that are known, and may follow.
    pub(crate) fn choices(self) -> &'static [Choice]
        ensures { result.now ≡ choices_of self }
    {
        self.row().choices
    }
}

pub(crate) fn options() -> &'static [Choice]
    ensures { result.now ≡ options }
{
    &[
        Choice::Seed,
        Choice::Seeds,
        Choice::Rounds,
        Choice::Dump,
        Choice::Workers,
        Choice::Window,
        Choice::Surround,
        Choice::Corpse,
        Choice::Rest,
        Choice::From,
        Choice::Ant,
        Choice::Stats,
        Choice::Food,
        Choice::Far,
        Choice::Width,
        Choice::Height,
        Choice::Rocks,
        Choice::Blobs,
        Choice::Games,
        Choice::Leads,
        Choice::Gauntlet,
        Choice::States,
        Choice::Way,
        Choice::Labels,
        Choice::Lines,
    ]
}

// An option: its word, what follows it, whether a command that has the option needs it, its default, which is a number
// or all, and the sentence about it on the page of `--help`.
#[derive(Clone, Copy)]
struct OptionRow {
    word: &'static str,
    values: &'static [Place],
    needed: bool,
    default: u32,
    all: bool,
    about: &'static str,
}

fn needed(word: &'static str, values: &'static [Place], about: &'static str) -> OptionRow
    ensures { (result.word.now ≡ word.now) × (result.values.now ≡ values.now) × (result.needed ≡ true) × (result.default ≡ 0) × (result.all ≡ false) × (result.about.now ≡ about.now) }
{
    OptionRow {
        word,
        values,
        needed: true,
        default: 0,
        all: false,
        about,
    }
}

fn free(
    word: &'static str,
    values: &'static [Place],
    default: u32,
    about: &'static str,
) -> OptionRow
    ensures { (result.word.now ≡ word.now) × (result.values.now ≡ values.now) × (result.needed ≡ false) × (result.default ≡ default) × (result.all ≡ false) × (result.about.now ≡ about.now) }
{
    OptionRow {
        word,
        values,
        needed: false,
        default,
        all: false,
        about,
    }
}

fn one_of_all(word: &'static str, values: &'static [Place], about: &'static str) -> OptionRow
    ensures { (result.word.now ≡ word.now) × (result.values.now ≡ values.now) × (result.needed ≡ false) × (result.default ≡ 0) × (result.all ≡ true) × (result.about.now ≡ about.now) }
{
    OptionRow {
        word,
        values,
        needed: false,
        default: 0,
        all: true,
        about,
    }
}

fn flag(word: &'static str, about: &'static str) -> OptionRow
    ensures { (result.word.now ≡ word.now) × (result.values.now ≡ []) × (result.needed ≡ false) × (result.default ≡ 0) × (result.all ≡ false) × (result.about.now ≡ about.now) }
{
    free(word, &[], 0, about)
}

const SEEDS: Place = Place::Word(Slot::Number(NumberKind::SeedCount));

const ROUNDS: Place = Place::Word(Slot::Number(NumberKind::RoundCount));

const ANT: Place = Place::Word(Slot::Number(NumberKind::AntId));

const SIDE: Place = Place::Word(Slot::Number(NumberKind::SideLength));

const ELEMENTS: Place = Place::Word(Slot::Number(NumberKind::ElementCount));

const WORKERS: Place = Place::Word(Slot::Number(NumberKind::WorkerCount));

const WINDOW: Place = Place::Word(Slot::Number(NumberKind::WindowSize));

const FOES: Place = Place::Word(Slot::Number(NumberKind::FoeCount));

const CORPSE: Place = Place::Word(Slot::Number(NumberKind::CorpseFood));

const REST: Place = Place::Word(Slot::Number(NumberKind::RestRounds));

impl Choice {
    fn row(self) -> OptionRow
        ensures word { result.word.now ≡ option_of self }
        ensures values { result.values.now ≡ values_of self }
        ensures needed { result.needed ≡ is_needed self }
        ensures default { result.default ≡ default_of self }
        ensures all { result.all ≡ means_all self }
        ensures about { result.about.now ≡ about_of self }
    {
        match self {
            Choice::Seed => needed("--seed", &[SEED], "the seed of the random numbers"),
            Choice::Seeds => free(
                "--seeds",
                &[SEEDS],
                1,
                "how many seeds each game is played with",
            ),
            Choice::Rounds => needed("--rounds", &[ROUNDS], "how many rounds are played"),
            Choice::Dump => free(
                "--dump",
                &[Place::Word(Slot::Dumps)],
                0,
                "dumps after rounds: none, all, or as 0,10,100; none",
            ),
            Choice::Workers => free("--workers", &[WORKERS], 1, "threads"),
            Choice::Window => free(
                "--window",
                &[WINDOW],
                DEFAULT_WINDOW,
                "turns that are looked at ahead",
            ),
            Choice::Surround => free("--surround", &[FOES], 5, "foes around an ant that kill it"),
            Choice::Corpse => free("--corpse", &[CORPSE], 3, "food that a dead ant leaves"),
            Choice::Rest => free(
                "--rest",
                &[REST],
                14,
                "turns that an ant rests after a step",
            ),
            Choice::Stats => flag("--stats", "adds the counts of turns and looks"),
            Choice::Food => flag("--food", "adds who takes and who drops food"),
            Choice::Far => flag(
                "--far",
                "keeps the workers for the whole game, and sends them their jobs",
            ),
            Choice::Width => free("--width", &[SIDE], 150, "cells of a row"),
            Choice::Height => free("--height", &[SIDE], 150, "rows"),
            Choice::Rocks => free("--rocks", &[ELEMENTS], 14, "rocks that are placed"),
            Choice::Blobs => free("--blobs", &[ELEMENTS], 11, "heaps of food that are placed"),
            Choice::From => free("--from", &[ROUNDS], 0, "the first round that is looked at"),
            Choice::Ant => one_of_all("--ant", &[ANT], "the one ant that is reported"),
            Choice::Labels => flag(
                "--labels",
                "prints which state each label leads to, not the brain",
            ),
            Choice::States => flag(
                "--states",
                "prints the new number of each state, not the brain",
            ),
            Choice::Games => flag(
                "--games",
                "prints the line of each game before the standing",
            ),
            Choice::Leads => flag(
                "--leads",
                "adds the food by which a brain leads, over all its games",
            ),
            Choice::Gauntlet => flag("--gauntlet", "plays only the games of the first brain"),
            Choice::Lines => flag(
                "--lines",
                "prints which line each state comes from, not the brain",
            ),
            Choice::Way => flag(
                "--way",
                "prints each answer on the way to the states that differ",
            ),
        }
    }

    // The default of a number.
    pub(crate) fn default(self) -> u32
        ensures { result ≡ default_of self }
    {
        self.row().default
    }

    // Whether the default is all.
    pub(crate) fn means_all(self) -> bool
        ensures { result ≡ means_all self }
    {
        self.row().all
    }

    // The sentence about it on the page of `--help`.
    pub(crate) fn about(self) -> &'static str
        ensures { result.now ≡ about_of self }
    {
        self.row().about
    }

    pub(crate) fn word(self) -> &'static str
        ensures { result.now ≡ option_of self }
    {
        self.row().word
    }

    // What follows its word.
    pub(crate) fn values(self) -> &'static [Place]
        ensures { result.now ≡ values_of self }
    {
        self.row().values
    }

    // Whether a command that has this option needs it.
    pub(crate) fn is_needed(self) -> bool
        ensures { result ≡ is_needed self }
    {
        self.row().needed
    }
}

impl NameList {
    // The name that the page of `--help` has for its names.
    pub(crate) fn name(self) -> &'static str
        ensures { result.now ≡ list_name self }
    {
        match self {
            NameList::Worlds => "WORLD..",
            NameList::Brains => "BRAIN..",
        }
    }

    pub(crate) fn keyword(self) -> &'static str
        ensures { result.now ≡ keyword_of self }
    {
        match self {
            NameList::Worlds => "--worlds",
            NameList::Brains => "--brains",
        }
    }

    pub(crate) fn fewest(self) -> usize
        ensures { result ≡ fewest_names self }
    {
        match self {
            NameList::Worlds => 1,
            NameList::Brains => 2,
        }
    }

    pub(crate) fn must_differ(self) -> bool
        ensures { result ≡ must_differ self }
    {
        match self {
            NameList::Worlds => false,
            NameList::Brains => true,
        }
    }
}
