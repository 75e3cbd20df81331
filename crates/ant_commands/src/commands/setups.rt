// The settings that a command line gives to each command, as its own struct.
ghost use Rattle.std.specs.Prelude.{◌≡◌};
ghost use Rattle.command_words.specs.Command.{AskedWithin, plain};
ghost use Rattle.command_words.specs.declared.table.CommandKind.TheVariants.{Acts, Cup, Gen, Resume, Run, Save};
ghost use Rattle.command_words.specs.Words.{texts};
ghost use Rattle.command_words.specs.declared.table.Choice.TheVariants.{Rounds, Workers, Games};
ghost use Rattle.command_words.specs.declared.table.NameList.TheVariants.{Worlds, Brains};
ghost use Rattle.ant_commands.specs.Setups.{CupWithin, SetupWithin, ant_of, format_of, plain_resume, plain_setup, resume_of, save_setup_of, setup_of, shape_of};

use crate::commands::game::GameWords;
use command_words::{Asked, Choice, DumpRounds, NameList};
use tournament::{Format, Seeds};

/// The settings of `run`, given by its words or by default.
#[derive(Drop)]
pub struct RunWords<'w> {
    /// the game
    pub game: GameWords<'w>,
    /// the rounds after which the world is dumped; the last of them may be above the number of rounds
    pub dumps: DumpRounds<'w>,
    /// how many workers play, from 1 to 16
    pub workers: u32,
    /// how many turns a window has, from 1 to 16,384
    pub window: u32,
    /// whether the counts of turns are printed
    pub stats: bool,
    /// whether the workers stay ready for the whole game and get their jobs as messages
    pub far: bool,
}

/// The settings of a cup: its players, its worlds and its games.
#[derive(Clone, Copy)]
pub struct CupEntry<'w> {
    /// the names of the worlds' files, 1 to 16
    pub worlds: &'w [String],
    /// the names of the brains' files, 2 to 16, no two the same
    pub brains: &'w [String],
    /// which games there are, with which seeds, and what is printed about them
    pub format: Format,
    /// how many rounds each game has, from 0 to 1,000,000
    pub rounds: u32,
    /// how many workers play, from 1 to 16
    pub workers: u32,
    /// whether the line of each game is printed before the standing
    pub games: bool,
}

/// The settings of `resume`, given by its options or by default.
#[derive(Drop)]
pub struct ResumeOptions<'w> {
    /// how many rounds are played in total, including those that are done, from 0 to 1,000,000
    pub rounds: u32,
    /// the rounds after which the world is dumped; those that are done are skipped
    pub dumps: DumpRounds<'w>,
    /// how many workers play, from 1 to 16
    pub workers: u32,
    /// whether the counts of turns are printed
    pub stats: bool,
}

/// The settings of `gen`, given by its options or by default.
#[derive(Clone, Copy, Debug, PartialEq, Eq)]
pub struct GenShape {
    /// the cells of a row, from 3 to 512
    pub width: u16,
    /// the rows, from 3 to 512
    pub height: u16,
    /// how many rocks, from 0 to 255
    pub rocks: u8,
    /// how many blobs of food, from 0 to 255
    pub blobs: u8,
}

impl<'w> RunWords<'w> {
    /// The words of `run`.
    pub fn of(asked: Asked<'w>) -> Self
        requires kind { asked.kind ≡ Run }
        requires within { AskedWithin (plain asked) }
        ensures within { SetupWithin (plain_setup result) }
        ensures world { result.game.names.world.now ≡ (plain asked.entry).file 0 }
        ensures red { result.game.names.red.now ≡ (plain asked.entry).file 1 }
        ensures black { result.game.names.black.now ≡ (plain asked.entry).file 2 }
        ensures options { plain_setup result ≡ setup_of (plain asked.entry) }
    {
        RunWords {
            game: GameWords::of(asked),
            dumps: asked.dumps(),
            workers: asked.option(Choice::Workers),
            window: asked.option(Choice::Window),
            stats: asked.has(Choice::Stats),
            far: asked.has(Choice::Far),
        }
    }

    /// The words of `save`: those of a run without dumps, counts and workers that stay ready.
    pub fn of_save(asked: Asked<'w>) -> Self
        requires kind { asked.kind ≡ Save }
        requires within { AskedWithin (plain asked) }
        ensures within { SetupWithin (plain_setup result) }
        ensures world { result.game.names.world.now ≡ (plain asked.entry).file 0 }
        ensures red { result.game.names.red.now ≡ (plain asked.entry).file 1 }
        ensures black { result.game.names.black.now ≡ (plain asked.entry).file 2 }
        ensures options { plain_setup result ≡ save_setup_of (plain asked.entry) }
    {
        RunWords {
            game: GameWords::of(asked),
            dumps: DumpRounds::Nothing,
            workers: asked.option(Choice::Workers),
            window: asked.option(Choice::Window),
            stats: false,
            far: false,
        }
    }
}

impl<'w> CupEntry<'w> {
    /// The requested cup.
    pub fn of(asked: Asked<'w>) -> Self
        requires kind { asked.kind ≡ Cup }
        requires within { AskedWithin (plain asked) }
        ensures within { CupWithin (texts result.worlds.now) (texts result.brains.now) result.format result.rounds result.workers }
        ensures worlds { texts result.worlds.now ≡ (plain asked.entry).names Worlds }
        ensures brains { texts result.brains.now ≡ (plain asked.entry).names Brains }
        ensures format { result.format ≡ format_of (plain asked.entry) }
        ensures rounds { result.rounds ≡ (plain asked.entry).option Rounds }
        ensures workers { result.workers ≡ (plain asked.entry).option Workers }
        ensures games { result.games ≡ (plain asked.entry).has Games }
    {
        CupEntry {
            worlds: asked.names(NameList::Worlds),
            brains: asked.names(NameList::Brains),
            format: format_of(asked),
            rounds: asked.option(Choice::Rounds),
            workers: asked.option(Choice::Workers),
            games: asked.has(Choice::Games),
        }
    }
}

// The format of a cup.
fn format_of(asked: Asked<'_>) -> Format
    requires { asked.kind ≡ Cup }
    ensures { result ≡ format_of (plain asked.entry) }
{
    Format {
        gauntlet: asked.has(Choice::Gauntlet),
        leads: asked.has(Choice::Leads),
        seeds: Seeds {
            first: asked.option(Choice::Seed),
            count: asked.option(Choice::Seeds),
        },
        shows_seeds: asked.has(Choice::Seeds),
    }
}

impl<'w> ResumeOptions<'w> {
    /// The settings of `resume`.
    pub fn of(asked: Asked<'w>) -> Self
        requires { asked.kind ≡ Resume }
        ensures { plain_resume result ≡ resume_of (plain asked.entry) }
    {
        ResumeOptions {
            rounds: asked.option(Choice::Rounds),
            dumps: asked.dumps(),
            workers: asked.option(Choice::Workers),
            stats: asked.has(Choice::Stats),
        }
    }
}

impl GenShape {
    /// The shape that `gen` requests.
    pub fn of(asked: Asked<'_>) -> Self
        requires { asked.kind ≡ Gen }
        ensures { result ≡ shape_of (plain asked.entry) }
    {
        GenShape {
            width: asked.option(Choice::Width) as u16,
            height: asked.option(Choice::Height) as u16,
            rocks: asked.option(Choice::Rocks) as u8,
            blobs: asked.option(Choice::Blobs) as u8,
        }
    }
}

/// The one ant that `acts` reports, if its words name one: an id from 0 to 16,383.
pub fn ant_of(asked: Asked<'_>) -> Option<u32>
    requires { asked.kind ≡ Acts }
    ensures { result ≡ ant_of (plain asked.entry) }
{
    if asked.has(Choice::Ant) {
        return Some(asked.option(Choice::Ant));
    }
    None
}
