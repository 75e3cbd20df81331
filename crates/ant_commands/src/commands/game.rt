// The words of a game, and its files as they were read.
ghost use Rattle.std.specs.Prelude.{◌≡◌, ◌≤◌};
ghost use Rattle.ant_turn.specs.Sheet.{contest, sheet_of};
ghost use Rattle.command_words.specs.Command.{AskedWithin, plain};
ghost use Rattle.command_words.specs.Table.{HasFile};
ghost use Rattle.command_words.specs.declared.table.CommandKind.TheVariants.{View};
ghost use Rattle.command_words.specs.declared.table.Choice.TheVariants.{Seed, Rounds};
ghost use Rattle.match_run.specs.Run.{most_rounds};
ghost use Rattle.ant_commands.specs.Inner.Plans.{setting_contents};
ghost use Rattle.ant_commands.specs.Inner.Reading.{ReadsFiles, outcome_of};
ghost use Rattle.ant_commands.specs.Outputs.{game_files};
ghost use Rattle.ant_commands.specs.Setups.{PlaysGame, plain_told, told_of};

use crate::files::read_file;
use crate::stop::CommandStop;
use ant_base::Shelf;
use ant_turn::Sheet;
use brain_read::Brain;
use cell_world::World;
use command_words::{Asked, Choice};
use std::alloc::Global;

/// The names of the files of a game.
#[derive(Clone, Copy)]
pub struct FileNames<'w> {
    /// the name of the world's file
    pub world: &'w str,
    /// the name of the red brain's file
    pub red: &'w str,
    /// the name of the black brain's file
    pub black: &'w str,
}

/// What the words of every command that plays a game say.
#[derive(Clone, Copy)]
pub struct GameWords<'w> {
    /// the names of its files
    pub names: FileNames<'w>,
    /// the seed of the random numbers, from 0 to 4,294,967,295
    pub seed: u32,
    /// how many rounds are played, from 0 to 1,000,000
    pub rounds: u32,
    /// the numbers of the rules
    pub sheet: Sheet,
}

impl<'w> FileNames<'w> {
    /// The first three files of a command line.
    pub fn of(asked: Asked<'w>) -> Self
        requires first { HasFile asked.kind 0 }
        requires second { HasFile asked.kind 1 }
        requires third { HasFile asked.kind 2 }
        ensures world { result.world.now ≡ (plain asked.entry).file 0 }
        ensures red { result.red.now ≡ (plain asked.entry).file 1 }
        ensures black { result.black.now ≡ (plain asked.entry).file 2 }
    {
        FileNames {
            world: asked.file(0),
            red: asked.file(1),
            black: asked.file(2),
        }
    }
}

impl<'w> GameWords<'w> {
    /// The game of a command that has options for the numbers of the rules.
    pub fn of(asked: Asked<'w>) -> Self
        requires kind { PlaysGame asked.kind }
        requires within { AskedWithin (plain asked) }
        ensures world { result.names.world.now ≡ (plain asked.entry).file 0 }
        ensures red { result.names.red.now ≡ (plain asked.entry).file 1 }
        ensures black { result.names.black.now ≡ (plain asked.entry).file 2 }
        ensures options { plain_told result ≡ told_of (plain asked.entry) }
        ensures few_rounds { result.rounds ≤ most_rounds }
    {
        let surround = asked.option(Choice::Surround) as u8;
        let corpse = asked.option(Choice::Corpse) as u8;
        let rest = asked.option(Choice::Rest) as u8;
        GameWords {
            names: FileNames::of(asked),
            seed: asked.option(Choice::Seed),
            rounds: asked.option(Choice::Rounds),
            sheet: Sheet::new(surround, corpse, rest),
        }
    }

    /// The game of `view`, which plays by the contest's rules.
    pub fn of_view(asked: Asked<'w>) -> Self
        requires kind { asked.kind ≡ View }
        requires within { AskedWithin (plain asked) }
        ensures world { result.names.world.now ≡ (plain asked.entry).file 0 }
        ensures red { result.names.red.now ≡ (plain asked.entry).file 1 }
        ensures black { result.names.black.now ≡ (plain asked.entry).file 2 }
        ensures seed { result.seed ≡ (plain asked.entry).option Seed }
        ensures rounds { result.rounds ≡ (plain asked.entry).option Rounds }
        ensures sheet { sheet_of result.sheet ≡ contest }
        ensures few_rounds { result.rounds ≤ most_rounds }
    {
        GameWords {
            names: FileNames::of(asked),
            seed: asked.option(Choice::Seed),
            rounds: asked.option(Choice::Rounds),
            sheet: Sheet::contest(),
        }
    }
}

// The content of a game's files.
#[derive(Drop)]
pub struct Setting {
    pub world: World,
    pub red: Brain,
    pub black: Brain,
}

// The files of a game, in the order in which its words name them. Each is read before the next one is fetched. Both
// brains are fetched even if they have the same name.
pub fn setting_of<'w, S: Shelf>(
    alloc: Global,
    names: FileNames<'w>,
    shelf: &mut S,
) -> Result<Setting, CommandStop<'w>>
    ensures { ReadsFiles (S.state shelf.old) (S.state shelf.new) (game_files names.entry.world.now names.entry.red.now names.entry.black.now)
        (outcome_of setting_contents result) }
{
    let world = read_file(alloc, shelf, names.world)?;
    let red = read_file(alloc, shelf, names.red)?;
    let black = read_file(alloc, shelf, names.black)?;
    Ok(Setting { world, red, black })
}
