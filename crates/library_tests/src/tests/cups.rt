// What no clause says: that cups succeed, their exact text, and that games are played side by side.
ghost use Rattle.std.specs.Prelude.{ℕ};
ghost use Rattle.tournament.specs.Plays.{ArePlayed, CanBePlayedBy};

use ant_base::{Calls, MemSink};
use cell_world::Score;
use hex_geometry::OutOfMemory;
use std::alloc::Global;
use std::hint::spin_loop;
use std::process::Abort;
use std::sync::atomic::{AtomicBool, Ordering};
use std::test::Fail;
use std::thread::Threads;
use tournament::{
    Added, Format, Names, Pairing, Played, PushFault, Referee, Seeds, play_all, play_all_by,
    play_and_print, play_games, play_games_alone, push_standing, push_standing_with, standing_of,
};

// A room with more bytes than any text in these tests.
const ROOM: u64 = 2000;

// The number of turns after which a game that waits for another one gives up.
const PATIENCE: u32 = 100000000;

// One seed, no leads, and the games of all players.
const PLAIN: Format = Format {
    gauntlet: false,
    leads: false,
    seeds: Seeds { first: 5, count: 1 },
    shows_seeds: false,
};

// Player 1 as red wins 3 to 0. With player 0 as red, neither side gets food.
struct OneWin;

impl Referee for OneWin {
    ghost use Rattle.std.specs.Prelude.{◌==◌, if◌then◌else◌};

    ghost score = { λ _ _ red _. if red == 1 then record { red = 3; black = 0 } else record { red = 0; black = 0 } };

    fn game(&self, _: Global, _: u32, red: u32, _: u32) -> Result<Score, OutOfMemory> {
        if red == 1 {
            return Ok(Score { red: 3, black: 0 });
        }
        Ok(Score { red: 0, black: 0 })
    }
}

// Every game on world 0 is drawn. No game on any other world may be played.
struct FirstWorldAlone;

impl Referee for FirstWorldAlone {
    ghost score = { λ _ _ _ _. record { red = 5; black = 5 } };

    fn game(&self, _: Global, world: u32, _: u32, _: u32) -> Result<Score, OutOfMemory> {
        if world > 0 {
            return Err(OutOfMemory);
        }
        Ok(Score { red: 5, black: 5 })
    }
}

// Two games that wait for each other, each as long as its patience lasts.
#[derive(Drop)]
struct Meeting {
    first: AtomicBool,
    second: AtomicBool,
    alone: AtomicBool,
}

impl Referee for Meeting {
    ghost score = { λ _ _ _ _. record { red = 0; black = 0 } };

    fn game(&self, _: Global, _: u32, red: u32, _: u32) -> Result<Score, OutOfMemory> {
        let met = if red == 0 {
            meets(&self.first, &self.second)
        } else {
            meets(&self.second, &self.first)
        };
        if !met {
            self.alone.store(true, Ordering::SeqCst);
        }
        Ok(Score { red: 0, black: 0 })
    }
}

// Announces that one game has begun, and returns whether the other one begins within its patience.
fn meets(own: &AtomicBool, other: &AtomicBool) -> bool {
    own.store(true, Ordering::SeqCst);
    for _ in 0..PATIENCE {
        if other.load(Ordering::SeqCst) {
            return true;
        }
        spin_loop();
    }
    false
}

// These names.
fn named(alloc: Global, list: &[&str]) -> Result<Names, Fail> {
    let mut names = Names::new(alloc);
    for name in list {
        names.add(name)?;
    }
    Ok(names)
}

// Plays games on this thread if one worker is requested, otherwise by workers.
fn played<R: Threads + Sync, F: Referee>(
    rt: &R,
    alloc: Global,
    referee: &F,
    games: &[Pairing],
    workers: u32,
) -> Result<Vec<Played>, OutOfMemory>
    requires { CanBePlayedBy workers (F.knows referee.now) games.now }
    ensures { ArePlayed (F.score referee.now) games.now result }
{
    match workers {
        1 => play_games_alone(alloc, referee, games),
        _ => play_games(rt, alloc, referee, games, workers),
    }
}

// Asserts that the cup of the given players has this text with 1, 2 and 16 workers.
fn check<R: Threads + Sync + Abort, F: Referee>(
    rt: &R,
    alloc: Global,
    referee: &F,
    names: &Names,
    worlds: u32,
    text: &str,
) -> Result<(), Fail>
    requires { (world red black : ℕ) → F.knows referee.now world red black }
{
    let players = names.len();
    assert!(rt; 2 <= players && players <= 16);
    assert!(rt; 1 <= worlds && worlds <= 16);
    for workers in [1, 2, 16] {
        let standing = play_all(rt, alloc, referee, players as u32, worlds, workers)?;
        let mut out = MemSink::with_room(alloc, ROOM, Calls::new(alloc))?;
        let pushed = push_standing(&standing, names, &mut out);
        assert!(rt; pushed.is_ok());
        assert_eq!(rt; str::from_utf8(out.held())?, text, "with {workers} workers");
    }
    Ok(())
}

#[test]
fn the_winner_stands_first_with_any_number_of_workers(rt: HostRuntime) -> Result<(), Fail> {
    let names = named(rt.alloc(), &["a", "b"])?;
    check(
        &rt,
        rt.alloc(),
        &OneWin,
        &names,
        1,
        "3 points: b (1 won, 1 drawn, 0 lost)\n1 points: a (0 won, 1 drawn, 1 lost)\n",
    )
}

// Asserts what is printed of a cup, and how the call ends, with 1, 2 and 16 workers. The players are a and b, and the
// worlds have the given names.
fn check_told<R: Threads + Sync + Abort, F: Referee>(
    rt: &R,
    alloc: Global,
    referee: &F,
    format: Format,
    worlds: &[&str],
    text: &str,
    end: Result<(), PushFault>,
) -> Result<(), Fail>
    requires { (world red black : ℕ) → F.knows referee.now world red black }
{
    assert!(rt; 1 <= format.seeds.count && format.seeds.count <= 1000);
    let names = named(alloc, &["a", "b"])?;
    let places = texts_of(alloc, worlds)?;
    let players = names.len();
    assert!(rt; 2 <= players && players <= 16);
    assert!(rt; 1 <= places.len() && places.len() <= 16);
    let play = |referee: &F, games: &[Pairing], workers: u32| -> Result<Vec<Played>, OutOfMemory>
        requires { CanBePlayedBy workers (F.knows referee.now) games.now }
        ensures { ArePlayed (F.score referee.entry.now) games.entry.now result }
    { played(rt, alloc, referee, games, workers) };
    for workers in [1, 2, 16] {
        let mut out = MemSink::with_room(alloc, ROOM, Calls::new(alloc))?;
        let told = play_and_print(
            alloc, referee, format, &places, &names, workers, &play, &mut out,
        );
        assert_eq!(rt; told, end, "with {workers} workers");
        assert_eq!(rt; str::from_utf8(out.held())?, text, "with {workers} workers");
    }
    Ok(())
}

// These texts.
fn texts_of(alloc: Global, list: &[&str]) -> Result<Vec<String>, Fail> {
    let mut texts = Vec::new(alloc);
    for text in list {
        texts.push(String::from_str(alloc, text)?)?;
    }
    Ok(texts)
}

#[test]
fn games_are_told_before_the_standing(rt: HostRuntime) -> Result<(), Fail> {
    check_told(
        &rt,
        rt.alloc(),
        &OneWin,
        PLAIN,
        &["w"],
        "game 1: red 0 black 0, w, a, b\ngame 2: red 3 black 0, w, b, a\n3 points: b (1 won, 1 drawn, 0 lost)\n1 points: a (0 won, 1 drawn, 1 lost)\n",
        Ok(()),
    )
}

#[test]
fn the_games_on_the_worlds_before_are_told_where_one_is_refused(
    rt: HostRuntime,
) -> Result<(), Fail> {
    check_told(
        &rt,
        rt.alloc(),
        &FirstWorldAlone,
        PLAIN,
        &["w", "v"],
        "game 1: red 5 black 5, w, a, b\ngame 2: red 5 black 5, w, b, a\n",
        Err(PushFault::OutOfMemory),
    )
}

// With the last seed and the one that follows it, player 1 wins a game as red with each.
#[test]
fn a_world_is_played_with_each_seed_and_leads_are_told(rt: HostRuntime) -> Result<(), Fail> {
    check_told(
        &rt,
        rt.alloc(),
        &OneWin,
        Format {
            leads: true,
            seeds: Seeds {
                first: 4294967295,
                count: 2,
            },
            shows_seeds: true,
            ..PLAIN
        },
        &["w"],
        "game 1: red 0 black 0, seed 4294967295, w, a, b\ngame 2: red 3 black 0, seed 4294967295, w, b, a\ngame 3: red 0 black 0, seed 0, w, a, b\ngame 4: red 3 black 0, seed 0, w, b, a\n6 points: b (2 won, 2 drawn, 0 lost), lead 6\n2 points: a (0 won, 2 drawn, 2 lost), lead -6\n",
        Ok(()),
    )
}

// The standing of a gauntlet of players a, b and c on one world, by two workers, with leads.
fn check_gauntlet<R: Threads + Sync + Abort, F: Referee>(
    rt: &R,
    alloc: Global,
    referee: &F,
    text: &str,
) -> Result<(), Fail>
    requires { (world red black : ℕ) → F.knows referee.now world red black }
{
    let names = named(alloc, &["a", "b", "c"])?;
    let players = names.len();
    assert!(rt; 2 <= players && players <= 16);
    let play = |referee: &F, games: &[Pairing], workers: u32| -> Result<Vec<Played>, OutOfMemory>
        requires { CanBePlayedBy workers (F.knows referee.now) games.now }
        ensures { ArePlayed (F.score referee.entry.now) games.entry.now result }
    { played(rt, alloc, referee, games, workers) };
    let standing = play_all_by(alloc, referee, true, players as u32, 1, 2, &play)?;
    let mut out = MemSink::with_room(alloc, ROOM, Calls::new(alloc))?;
    let pushed = push_standing_with(&standing, true, &names, &mut out);
    assert!(rt; pushed.is_ok());
    assert_eq!(rt; str::from_utf8(out.held())?, text);
    Ok(())
}

// The first player plays each other one twice, and the others don't play.
#[test]
fn a_gauntlet_has_the_games_of_the_first_player(rt: HostRuntime) -> Result<(), Fail> {
    check_gauntlet(
        &rt,
        rt.alloc(),
        &OneWin,
        "3 points: a (0 won, 3 drawn, 1 lost), lead -3\n3 points: b (1 won, 1 drawn, 0 lost), lead 3\n2 points: c (0 won, 2 drawn, 0 lost), lead 0\n",
    )
}

// How many lines the standing of a cup of 16 players on 40 worlds has. The cup has 9600 games. Fewer than 4096 of them
// are to be played at a time.
fn lines_of_long_cup<R: Threads + Sync, F: Referee>(
    rt: &R,
    alloc: Global,
    referee: &F,
) -> Result<usize, OutOfMemory>
    requires { (world red black : ℕ) → F.knows referee.now world red black }
{
    let play = |referee: &F, games: &[Pairing], workers: u32| -> Result<Vec<Played>, OutOfMemory>
        requires { CanBePlayedBy workers (F.knows referee.now) games.now }
        ensures { ArePlayed (F.score referee.entry.now) games.entry.now result }
    {
        if games.len() >= 4096 {
            return Err(OutOfMemory);
        }
        played(rt, alloc, referee, games, workers)
    };
    let standing = play_all_by(alloc, referee, false, 16, 40, 1, &play)?;
    Ok(standing.len())
}

#[test]
fn a_long_cup_is_played_some_games_at_a_time(rt: HostRuntime) -> Result<(), Fail> {
    assert_eq!(rt; lines_of_long_cup(&rt, rt.alloc(), &OneWin)?, 16);
    Ok(())
}

// One game on world 7, without a cup. Its winner is first, and a player without games is last.
#[test]
fn a_standing_of_one_game_counts_it_alone(rt: HostRuntime) -> Result<(), Fail> {
    let played = Played {
        game: Pairing {
            world: 7,
            red: 2,
            black: 0,
        },
        score: Score { red: 3, black: 1 },
    };
    let standing = standing_of(rt.alloc(), 3, &[played])?;
    assert!(rt; standing.len() == 3);
    let best = standing.item(0);
    assert_eq!(rt; best.player, 2);
    assert_eq!(rt; best.food_for, 3);
    assert_eq!(rt; best.food_against, 1);
    Ok(())
}

#[test]
fn two_workers_play_two_games_at_once(rt: HostRuntime) -> Result<(), Fail> {
    let meeting = Meeting {
        first: AtomicBool::new(false),
        second: AtomicBool::new(false),
        alone: AtomicBool::new(false),
    };
    let standing = play_all(&rt, rt.alloc(), &meeting, 2, 1, 2)?;
    assert_eq!(rt; standing.len(), 2);
    assert!(rt;
        !meeting.alone.load(Ordering::SeqCst),
        "a game waited alone"
    );
    Ok(())
}

#[test]
fn a_known_name_keeps_its_place(rt: HostRuntime) -> Result<(), Fail> {
    let mut names = Names::new(rt.alloc());
    for (name, added, length) in [
        ("a", Added::New, 1),
        ("ab", Added::New, 2),
        ("a", Added::Known, 2),
        ("", Added::New, 3),
        ("ab", Added::Known, 3),
    ] {
        assert_eq!(rt; names.add(name)?, added, "at {name}");
        assert_eq!(rt; names.len(), length, "at {name}");
    }
    Ok(())
}
