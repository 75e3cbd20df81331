// The command `cup`.
ghost use Rattle.std.specs.Prelude.{◌≡◌, ◌*◌, ◌≤◌, length, IfOk};
ghost use Rattle.ant_commands.specs.Jobs.{cup_job};
ghost use Rattle.ant_commands.specs.Setups.{CupWithin};
ghost use Rattle.command_words.specs.Limits.{IsWithin};
ghost use Rattle.command_words.specs.Words.{texts};
ghost use Rattle.command_words.specs.declared.limits.NumberKind.TheVariants.{SeedCount, WorkerCount};
ghost use Rattle.command_words.specs.Slots.{AllDiffer};
ghost use Rattle.match_run.specs.Run.{most_rounds};
ghost use Rattle.tournament.specs.Standing.{IsStandingOf};
ghost use Rattle.tournament.specs.Printed.{Printed};
ghost use Rattle.ant_commands.specs.Inner.Cups.{AreReady, CanBePlayed, PlaysCup};
ghost use Rattle.ant_commands.specs.Inner.Reading.{CarriesOut, ReadsFiles, ending_of, outcome_of};
ghost use Rattle.ant_commands.specs.Outputs.{cup_contents, cup_files, score_in_cup};

use crate::commands::setups::CupEntry;
use crate::files::read_files;
use crate::stop::{CommandStop, after_cup, after_push};
use ant_base::{Shelf, Sink};
use ant_turn::{Brains, Sheet};
use brain_read::Brain;
use cell_world::{Score, World};
use match_run::{OutOfMemory, play_score};
use std::alloc::Global;
use tournament::{
    Format, Names, Pairing, Played, PushFault, Referee, Seeds, Standing, play_all_by,
    play_and_print, push_standing_with,
};

// The content of a cup's files.
#[derive(Drop)]
struct Roster {
    worlds: Vec<World>,
    players: Vec<Brain>,
}

/// Plays the games of a cup, each on a copy of its world.
#[derive(Clone, Copy)]
pub struct Games<'c> {
    pub worlds: &'c [World],
    pub players: &'c [Brain],
    pub seeds: Seeds,
    pub rounds: u32,
}

impl Referee for Games<'_> {
    ghost use Rattle.ant_commands.specs.Inner.Cups.{CanBePlayed};
    ghost use Rattle.ant_commands.specs.Outputs.{score_in_cup};

    ghost score = { λ games. score_in_cup games.worlds.now games.players.now games.seeds games.rounds };

    ghost knows = { λ games. CanBePlayed games.worlds.now games.players.now games.seeds games.rounds };

    #[tactic(auto, using(crate::proofs::Cups::score_in_cup_copy))]
    fn game(&self, alloc: Global, world: u32, red: u32, black: u32) -> Result<Score, OutOfMemory> {
        let field = self.worlds[self.seeds.world_at(world) as usize].copy(alloc)?;
        let brains = Brains {
            red: &self.players[red as usize],
            black: &self.players[black as usize],
            sheet: Sheet::contest(),
        };
        let seed = self.seeds.seed_at(world);
        Ok(play_score(field, brains, seed, self.rounds))
    }
}

// The files of a cup, in the order in which its words name them.
fn roster_of<'w, S: Shelf>(
    alloc: Global,
    entry: CupEntry<'w>,
    shelf: &mut S,
) -> Result<Roster, CommandStop<'w>>
    ensures { ReadsFiles (S.state shelf.old) (S.state shelf.new) (cup_files (texts entry.entry.worlds.now) (texts entry.entry.brains.now))
        (outcome_of (λ roster. cup_contents roster.worlds.items roster.players.items) result) }
{
    let worlds = read_files(alloc, shelf, entry.worlds)?;
    let players = read_files(alloc, shelf, entry.brains)?;
    Ok(Roster { worlds, players })
}

// The standing after all games.
fn standing_of<P: Fn(&Games<'_>, &[Pairing], u32) -> Result<Vec<Played>, OutOfMemory>>(
    alloc: Global,
    roster: &Roster,
    format: Format,
    rounds: u32,
    workers: u32,
    play: &P,
) -> Result<Standing, OutOfMemory>
    requires ready { AreReady roster.now.worlds.items roster.now.players.items }
    requires seeds { IsWithin SeedCount format.seeds.count }
    requires few_rounds { rounds ≤ most_rounds }
    requires workers { IsWithin WorkerCount workers }
    requires plays { PlaysCup P.Fn play.now }
    ensures { IfOk result (λ standing. IsStandingOf format.gauntlet (length roster.now.players.items) (length roster.now.worlds.items * format.seeds.count)
        (score_in_cup roster.now.worlds.items roster.now.players.items format.seeds rounds) standing) }
{
    let games = Games {
        worlds: &roster.worlds,
        players: &roster.players,
        seeds: format.seeds,
        rounds,
    };
    let players = games.players.len() as u32;
    let worlds = games.worlds.len() as u32 * format.seeds.count;
    play_all_by(
        alloc,
        &games,
        format.gauntlet,
        players,
        worlds,
        workers,
        play,
    )
}

// Plays the games world by world, and pushes their lines after each world; the standing comes last.
fn print_games<K: Sink, P: Fn(&Games<'_>, &[Pairing], u32) -> Result<Vec<Played>, OutOfMemory>>(
    alloc: Global,
    roster: &Roster,
    entry: CupEntry<'_>,
    names: &Names,
    play: &P,
    out: &mut K,
) -> Result<(), PushFault>
    requires within { CupWithin (texts entry.worlds.now) (texts entry.brains.now) entry.format entry.rounds entry.workers }
    requires ready { AreReady roster.now.worlds.items roster.now.players.items }
    requires worlds { length roster.now.worlds.items ≡ length (texts entry.worlds.now) }
    requires players { length roster.now.players.items ≡ length (texts entry.brains.now) }
    requires names { names.now ≡ texts entry.brains.now }
    requires plays { PlaysCup P.Fn play.now }
    ensures { Printed (K.state out.old) (K.state out.new) entry.entry.format (texts entry.entry.worlds.now) (texts entry.entry.brains.now)
        (score_in_cup roster.now.worlds.items roster.now.players.items entry.entry.format.seeds entry.entry.rounds) result }
{
    let games = Games {
        worlds: &roster.worlds,
        players: &roster.players,
        seeds: entry.format.seeds,
        rounds: entry.rounds,
    };
    play_and_print(
        alloc,
        &games,
        entry.format,
        entry.worlds,
        names,
        entry.workers,
        play,
        out,
    )
}

// The names of the players, all different.
fn names_of(alloc: Global, words: &[String]) -> Result<Names, OutOfMemory>
    requires { AllDiffer (texts words.now) }
    ensures { IfOk result (λ names. names ≡ texts words.now) }
{
    let mut names = Names::new(alloc);
    for word in words {
        names.add(word.as_str())?;
    }
    Ok(names)
}

/// Plays all games of a cup by the contest's rules, and writes its standing. If the games are requested, their lines
/// precede it. All files are read before the first game.
pub fn cup<
    'w,
    S: Shelf,
    K: Sink,
    P: Fn(&Games<'_>, &[Pairing], u32) -> Result<Vec<Played>, OutOfMemory>,
>(
    alloc: Global,
    entry: CupEntry<'w>,
    play: &P,
    shelf: &mut S,
    out: &mut K,
) -> Result<(), CommandStop<'w>>
    requires within { CupWithin (texts entry.worlds.now) (texts entry.brains.now) entry.format entry.rounds entry.workers }
    requires plays { PlaysCup P.Fn play.now }
    ensures { CarriesOut
        (cup_job (texts entry.entry.worlds.now) (texts entry.entry.brains.now) entry.entry.format entry.entry.rounds entry.entry.workers entry.entry.games)
        (S.state shelf.old) (S.state shelf.new) (K.state out.old) (K.state out.new) (ending_of result) }
{
    let roster = roster_of(alloc, entry, shelf)?;
    let names = names_of(alloc, entry.brains)?;
    if entry.games {
        return after_cup(print_games(alloc, &roster, entry, &names, play, out));
    }
    let standing = standing_of(
        alloc,
        &roster,
        entry.format,
        entry.rounds,
        entry.workers,
        play,
    )?;
    after_push(push_standing_with(&standing, entry.format.leads, &names, out))
}
