// The first turn of a game after which a break holds.
use crate::tests::standing_workers::{Players, SEED, WORLD, make_players, opened_world};
use ant_base::LONGEST;
use ant_turn::{Brains, Sheet};
use break_view::{Stop, find_stop, read_breaks};
use std::alloc::Global;
use std::process::Abort;
use std::test::Fail;

// The turn of the black ant in which the red one dies.
const DEATH: Stop = Stop {
    round: 1,
    id: 1,
    which: 1,
};

// Breaks, and the first stop in five rounds. Both breaks of the first text hold after the same turn.
const STOPS: [(&str, Option<Stop>); 3] = [
    ("Score Red 3\nStand Black 2 3\n", Some(DEATH)),
    ("Killed 2\n", Some(DEATH)),
    ("Round 9\n", None),
];

// Asserts where the game of the given players stops, and that the red ant is dead then.
fn check_stop<R: Abort>(
    rt: &R,
    alloc: Global,
    players: &Players,
    text: &str,
    wanted: Option<Stop>,
) -> Result<(), Fail> {
    let bytes = WORLD.as_bytes();
    assert!(rt; bytes.len() <= LONGEST);
    let brains = Brains {
        red: &players.red,
        black: &players.black,
        sheet: Sheet::contest(),
    };
    let mut world = opened_world(alloc, bytes, brains)?;
    let lines = text.as_bytes();
    assert!(rt; lines.len() <= LONGEST);
    let breaks = read_breaks(alloc, lines)?;
    let stop = find_stop(&mut world, brains, SEED, 5, &breaks);
    assert_eq!(rt; (stop, world.ant_place(2)), (wanted, None), "at {text:?}");
    Ok(())
}

#[test]
fn a_game_stops_after_the_first_turn_at_which_a_break_holds(rt: HostRuntime) -> Result<(), Fail> {
    let players = make_players(&rt, rt.alloc())?;
    for (text, wanted) in STOPS {
        check_stop(&rt, rt.alloc(), &players, text, wanted)?;
    }
    Ok(())
}
