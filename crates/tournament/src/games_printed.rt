// Cups whose games are printed.
ghost use Rattle.std.specs.Prelude.{◌≢◌, ℕ, ◌+◌, ◌*◌, ◌<◌, ◌≤◌, ◌^◌, All, length, OnOk};
ghost use Rattle.ant_base.specs.Sink.{Pushed};
ghost use Rattle.tournament.specs.Games.{IsGame, worlds_played};
ghost use Rattle.tournament.specs.Names.{texts_of};
ghost use Rattle.tournament.specs.Plays.{PlaysGames};
ghost use Rattle.tournament.specs.Seeds.{world_at};
ghost use Rattle.tournament.specs.Inner.Tallies.{IsTally};
ghost use Rattle.tournament.specs.Inner.Worlds.{CanBePrinted, WorldPrinted};
ghost use Rattle.tournament.specs.Printed.{HasPrinted, Printed, first_played, game_line_text, games_text};

use crate::format::{Format, Seeds};
use crate::games::{Pairing, Played};
use crate::names::Names;
use crate::play::play_worlds;
use crate::referee::Referee;
use crate::tally::Tally;
use crate::text::push_standing_with;
use ant_base::{Failed, Layout, PushFault, Sink, layout};
use hex_geometry::OutOfMemory;
use std::alloc::Global;

/// Pushes the line of each of these games, in their order; the first game has this number. A line such as `game 17: red
/// 3 black 0, w, a, b` has the score, and the names of the world, of the red player and of the black player. If the
/// format shows seeds, it is `game 17: red 3 black 0, seed 5, w, a, b`. Each world and player has a name, and the
/// numbers are below 2^32. A game's world is a world with a seed, as in [`Seeds`]. At `Failed` a prefix of the lines
/// was pushed, and the sink's count of faults rose. It takes no memory.
pub fn push_games<K: Sink>(
    games: &[Played],
    first: u32,
    format: Format,
    worlds: &[String],
    players: &Names,
    sink: &mut K,
) -> Result<(), Failed>
    requires seeds { 1 ≤ format.seeds.count }
    requires named { All (λ it. IsGame (length players.now) (length worlds.now * format.seeds.count) it.game) games.now }
    requires few { first + length games.now < 2 ^ 32 }
    ensures { Pushed (K.state sink.old) (K.state sink.new) (games_text format (texts_of worlds.now) players.now games.now first) result }
{
    let mut number = first;
    for game in games {
        push_game(game, number, format, worlds, players, sink)?;
        number += 1;
    }
    Ok(())
}

// Pushes the line of a game.
#[tactic(auto, unfolding(crate::specs::Printed::game_line_text))]
fn push_game<K: Sink>(
    it: &Played,
    number: u32,
    format: Format,
    worlds: &[String],
    players: &Names,
    sink: &mut K,
) -> Result<(), Failed>
    requires seeds { 1 ≤ format.seeds.count }
    requires named { IsGame (length players.now) (length worlds.now * format.seeds.count) it.now.game }
    ensures { Pushed (K.state sink.old) (K.state sink.new) (game_line_text format (texts_of worlds.now) players.now number it.now) result }
{
    let world = worlds[format.seeds.world_at(it.game.world) as usize].as_str();
    let red = players.of_player(it.game.red);
    let black = players.of_player(it.game.black);
    let seed = SeedPart {
        shown: format.shows_seeds,
        seeds: format.seeds,
        world: it.game.world,
    };
    layout!(
        "game ",
        number,
        ": red ",
        it.score.red,
        " black ",
        it.score.black,
        ", ",
        seed,
        world,
        ", ",
        red,
        ", ",
        black,
        "\n"
    )
    .push_to(sink)
}

// The part of a game's line that has its seed, if seeds are shown.
#[derive(Clone, Copy)]
struct SeedPart {
    shown: bool,
    seeds: Seeds,
    world: u32,
    ghost some: { 1 ≤ seeds.count },
}

impl Layout for SeedPart {
    ghost use Rattle.tournament.specs.Printed.{seed_part};

    ghost text = { λ part. seed_part part.shown part.seeds part.world };

    fn push_to<K: Sink>(&self, sink: &mut K) -> Result<(), Failed> {
        if !self.shown {
            return Ok(());
        }
        layout!("seed ", self.seeds.seed_at(self.world), ", ").push_to(sink)
    }
}

/// Plays all games of a cup between the players with these names, 2 to 16, on the worlds with these names, 1 to 16,
/// with each of 1 to 1000 seeds, and pushes its text: the line of each game in the order of the cup, numbered from 1,
/// and then the standing. In a gauntlet only the games of the first player are played. `play` plays the games on a
/// world, as in [`play_all_by`](crate::play_all_by): the text is the same. The lines of a world are pushed after all
/// its games were played, and before the first game on the next world. So the referee has to score a game only if some
/// sink has the lines of all games on the worlds before it, and nothing else. Only the games on one world are kept at a
/// time. The referee gets a world with a seed as its world, as in [`Seeds`].
///
/// The call fails if the sink fails: then a prefix of the text was pushed, and the sink's count of faults rose. It also
/// fails if memory runs out, its own or that of `play`: then the lines of all games on the first worlds, on none or on
/// all, were pushed, and nothing else.
pub fn play_and_print<
    F: Referee,
    K: Sink,
    P: Fn(&F, &[Pairing], u32) -> Result<Vec<Played>, OutOfMemory>,
>(
    alloc: Global,
    referee: &F,
    format: Format,
    worlds: &[String],
    players: &Names,
    workers: u32,
    play: &P,
    sink: &mut K,
) -> Result<(), PushFault>
    requires seeds { (1 ≤ format.seeds.count) × (format.seeds.count ≤ 1000) }
    requires players { (2 ≤ length players.now) × (length players.now ≤ 16) }
    requires worlds { (1 ≤ length worlds.now) × (length worlds.now ≤ 16) }
    requires workers { (1 ≤ workers) × (workers ≤ 16) }
    requires known { (now : K) (world red black : ℕ) → HasPrinted (K.state sink.old) (K.state now) format (texts_of worlds.now) players.now (F.score referee.now) (world_at format.seeds world)
        → world_at format.seeds world < length worlds.now → red < length players.now → black < length players.now → red ≢ black → F.knows referee.now world red black }
    requires plays { PlaysGames P.Fn F.knows F.score play.now }
    ensures { Printed (K.state sink.old) (K.state sink.new) format (texts_of worlds.now) players.now (F.score referee.now) result }
{
    let cup = Cup {
        referee,
        format,
        worlds,
        players,
        workers,
    };
    let mut tally = Tally::new(alloc, players.len() as u32)?;
    for world in 0..worlds.len() as u32 {
        print_world(alloc, &cup, world, play, &mut tally, sink)?;
    }
    let standing = tally.standing();
    push_standing_with(&standing, format.leads, players, sink)?;
    Ok(())
}

// A cup whose games are printed: its referee, the names of its worlds and players, and the number of workers.
#[derive(Drop)]
struct Cup<'c, F: Referee> {
    referee: &'c F,
    format: Format,
    worlds: &'c [String],
    players: &'c Names,
    workers: u32,
}

// Plays the games on a world with each seed, adds them to the tally of the earlier worlds, and pushes their lines. All
// memory is taken before the first line is pushed.
fn print_world<F: Referee, K: Sink, P: Fn(&F, &[Pairing], u32) -> Result<Vec<Played>, OutOfMemory>>(
    alloc: Global,
    cup: &Cup<'_, F>,
    world: u32,
    play: &P,
    tally: &mut Tally,
    sink: &mut K,
) -> Result<(), PushFault>
    requires can { CanBePrinted (F.knows cup.now.referee.now) (length cup.now.players.now) (length cup.now.worlds.now) cup.now.format.seeds.count cup.now.workers world }
    requires plays { PlaysGames P.Fn F.knows F.score play.now }
    requires before { IsTally (length cup.now.players.now) (first_played cup.now.format cup.now.players.now world (F.score cup.now.referee.now)) tally.old }
    ensures played { OnOk result (IsTally (length cup.now.players.now) (first_played cup.now.format cup.now.players.now (world + 1) (F.score cup.now.referee.now)) tally.new) }
    ensures printed { WorldPrinted (K.state sink.old) (K.state sink.new) (games_text cup.now.format (texts_of cup.now.worlds.now) cup.now.players.now
        (worlds_played cup.now.format.gauntlet (length cup.now.players.now) (world * cup.now.format.seeds.count) cup.now.format.seeds.count (F.score cup.now.referee.now)) (tally.old.games + 1)) result }
{
    let format = cup.format;
    let players = cup.players.len() as u32;
    let seeds = format.seeds.count;
    let games = play_worlds(
        alloc,
        cup.referee,
        format.gauntlet,
        players,
        world * seeds,
        seeds,
        cup.workers,
        play,
    )?;
    let first = tally.games + 1;
    tally.add(alloc, &games)?;
    push_games(&games, first, format, cup.worlds, cup.players, sink)?;
    Ok(())
}
