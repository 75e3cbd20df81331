// Lines that are written while a game is played. Once the output fails at a line, nothing more is played. If no round
// has a line, nothing is played at all. Each game has about a million rounds of 16,361 turns, which take longer than a
// test may.
use crate::commands::{CLOSED, check, cut, done, game_with};
use std::alloc::Global;
use std::process::Abort;
use std::sync::Wait;
use std::test::Fail;
use std::thread::Threads;

// The first cells of the first rows: a red ant among four black ones, with a fifth about to arrive, between rocks.
const AMBUSH: [&str; 6] = [
    "#######", "#.....#", "#..-#.#", "#-.+-##", "#+.--##", "#######",
];

// How many rows and columns the world has.
const SIDE: usize = 130;

// Appends a row that begins with this text, continues with cells of one kind, and ends in rock.
fn push_row(text: &mut String, front: &str, kind: &str) -> Result<(), Fail> {
    text.push_str(front)?;
    for _ in front.len()..SIDE - 1 {
        text.push_str(kind)?;
    }
    text.push_str("#\n")?;
    Ok(())
}

// Appends the rows of the ambush except the first, each with red hills after it, and then rows of only red hills.
fn push_hills(text: &mut String) -> Result<(), Fail> {
    for front in &AMBUSH[1..] {
        push_row(text, front, "+")?;
    }
    for _ in AMBUSH.len()..SIDE - 1 {
        push_row(text, "#", "+")?;
    }
    Ok(())
}

// A world of 16,361 ants: the ambush, and red ants.
fn crowd(alloc: Global) -> Result<String, Fail> {
    let mut text = String::from_str(alloc, "130\n130\n")?;
    push_row(&mut text, AMBUSH[0], "#")?;
    push_hills(&mut text)?;
    push_row(&mut text, "#", "#")?;
    Ok(text)
}

// Words, and the text up to where the output fails. It fails in the line of the death in round 1, in the line of the
// first turn, and in the line of round 1. For a cup it fails in the line of the second game on the small world, and
// with two seeds in that of the third, both before a game on the other world. Above black ant 245 are 122 red ants in
// row 1, and a black and 122 red ones in row 2.
const EARLY: [(&str, &str); 5] = [
    (
        "events w r b --seed 12345 --rounds 1000000",
        "random seed: 12345\nround 1, black ant 245: red ant 246",
    ),
    (
        "acts w r b --seed 12345 --rounds 1000000",
        "random seed: 12345\nround 1, red ant 0: on (7, 1)",
    ),
    (
        "trace w r b 0 --seed 12345 --rounds 1000000",
        "random seed: 12345\nround 0: cell (7, 1): red hill; red ant of id 0, dir 0, food 0, state 0, resting 0\nround 1: ",
    ),
    (
        "cup --worlds k w --brains r b --games --seed 12345 --rounds 1000000",
        "game 1: red 0 black 0, k, r, b\ngame 2: ",
    ),
    (
        "cup --worlds k w --brains r b --games --seed 12345 --seeds 2 --rounds 1000000",
        "game 1: red 0 black 0, seed 12345, k, r, b\ngame 2: red 0 black 0, seed 12345, k, b, r\ngame 3: ",
    ),
];

// Asserts that the output of a command over these worlds, the small one in k, fails after this text.
fn check_early<'w, R: Threads + Wait + Sync + Abort>(
    rt: &R,
    alloc: Global,
    world: &'w str,
    line: &'w str,
    small: &'w str,
    held: &str,
) -> Result<(), Fail> {
    let mut job = game_with(line, world, "Flip 2 0 0", "Move 0 0", small);
    job.room = held.len() as u64;
    check(rt, alloc, &job, cut(held, "ants: output failed\n"))
}

#[test]
fn no_more_is_played_once_the_output_fails(rt: HostRuntime) -> Result<(), Fail> {
    let world = crowd(rt.alloc())?;
    for (line, held) in EARLY {
        check_early(&rt, rt.alloc(), &world, line, CLOSED, held)?;
    }
    Ok(())
}

// Words, and their whole text. No round has a line: no ant has the id, or no round is left.
const UNPLAYED: [(&str, &str); 3] = [
    (
        "acts w r b --ant 16361 --seed 12345 --rounds 1000000",
        "random seed: 12345\nno ant of id 16361\n",
    ),
    (
        "trace w r b 16361 --seed 12345 --rounds 1000000",
        "random seed: 12345\nno ant of id 16361\n",
    ),
    (
        "trace w r b 0 --seed 12345 --rounds 999999 --from 1000000",
        "random seed: 12345\n",
    ),
];

#[test]
fn nothing_is_played_where_no_round_has_a_line(rt: HostRuntime) -> Result<(), Fail> {
    let world = crowd(rt.alloc())?;
    for (line, text) in UNPLAYED {
        let job = game_with(line, &world, "Flip 2 0 0", "Move 0 0", CLOSED);
        check(&rt, rt.alloc(), &job, done(text))?;
    }
    Ok(())
}
