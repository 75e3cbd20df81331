// The state of a game whose sink had no room for its text.
use crate::tests::standing_workers::{Players, field_on, make_players, opened_world};
use ant_base::{Calls, Failed, LONGEST, MemSink};
use ant_turn::{Brains, Sheet};
use match_run::{Dumps, Game, GameAlone, PlayFault, play_on, play_on_alone};
use round_book::{Crew, SoloCrew};
use std::alloc::Global;
use std::process::Abort;
use std::test::Fail;

// A red ant between rocks, which draws numbers and stays.
const WORLD: &str = "3\n3\n# # #\n # + #\n# # #\n";

// The text of three rounds has a dump of 236 bytes for each round. Each row has how many bytes of it the sink takes,
// and how many rounds are done then. The sink stops in the first dump or at its last byte, in the second dump, and
// after all three, at the score.
const ROOMS: [(u64, u32); 6] = [(10, 1), (235, 1), (236, 2), (471, 2), (708, 3), (720, 3)];

// Asserts how many rounds are done, and how many turns the crew has played, if the sink takes this many bytes.
fn check_stop<R: Abort>(
    rt: &R,
    alloc: Global,
    players: &Players,
    room: u64,
    done: u32,
) -> Result<(), Fail> {
    let bytes = WORLD.as_bytes();
    assert!(rt; bytes.len() <= LONGEST);
    let brains = Brains {
        red: &players.red,
        black: &players.black,
        sheet: Sheet::contest(),
    };
    let mut game = Game::begin(field_on(alloc, bytes, brains, 12345)?, 16384);
    let mut crew = SoloCrew::new();
    let mut sink = MemSink::with_room(alloc, room, Calls::new(alloc))?;
    let played = play_on(
        alloc,
        &mut crew,
        &mut game,
        3,
        &Dumps::All,
        false,
        &mut sink,
    );
    assert_eq!(rt; played.err(), Some(PlayFault::WriteFault));
    assert_eq!(rt;
        (game.done(), crew.turns()),
        (done, u64::from(done)),
        "with room for {room}"
    );
    Ok(())
}

// Asserts how many rounds are done of a game played alone, if the sink takes this many bytes.
fn check_stop_alone<R: Abort>(
    rt: &R,
    alloc: Global,
    players: &Players,
    room: u64,
    done: u32,
) -> Result<(), Fail> {
    let bytes = WORLD.as_bytes();
    assert!(rt; bytes.len() <= LONGEST);
    let brains = Brains {
        red: &players.red,
        black: &players.black,
        sheet: Sheet::contest(),
    };
    let mut game = GameAlone::begin(opened_world(alloc, bytes, brains)?, brains, 12345);
    let mut sink = MemSink::with_room(alloc, room, Calls::new(alloc))?;
    let played = play_on_alone(&mut game, 3, &Dumps::All, &mut sink);
    assert_eq!(rt;
        (played.err(), game.done()),
        (Some(Failed), done),
        "with room for {room}"
    );
    Ok(())
}

// Asserts both for each row.
fn check_stops<R: Abort>(rt: &R, alloc: Global, rows: &[(u64, u32)]) -> Result<(), Fail> {
    let players = make_players(rt, alloc)?;
    for (room, done) in rows {
        check_stop(rt, alloc, &players, *room, *done)?;
        check_stop_alone(rt, alloc, &players, *room, *done)?;
    }
    Ok(())
}

#[test]
fn a_game_whose_sink_failed_stands_behind_the_round_of_that_dump(
    rt: HostRuntime,
) -> Result<(), Fail> {
    check_stops(&rt, rt.alloc(), &ROOMS)
}
