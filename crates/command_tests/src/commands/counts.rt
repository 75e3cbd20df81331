// The counts of `run`.
use crate::commands::runs::{EMPTY, KILLED, NEIGHBOURS};
use crate::commands::{CLOSING, check, done, game_of};
use std::alloc::Global;
use std::process::Abort;
use std::sync::Wait;
use std::test::Fail;
use std::thread::Threads;

// A red ant, and a black one below it.
const BELOW: &str = "4\n4\n# # # #\n # + . #\n# - . #\n # # # #\n";

// A game whose counts are requested, the text of the same words without them, and the line of the counts.
#[derive(Clone, Copy)]
struct Counted<'t> {
    line: &'t str,
    world: &'t str,
    red: &'t str,
    black: &'t str,
    text: &'t str,
    counts: &'t str,
}

const STEPPED: &str = "random seed: 1\n\nscore: red 0 black 3\n";

const MARKED: &str = "random seed: 7\n\nscore: red 0 black 0\n";

// There is no ant, or a red one dies among four black ones.
const DYING: [Counted<'static>; 4] = [
    Counted {
        line: "run w r b --seed 7 --rounds 5 --stats",
        world: EMPTY,
        red: "Drop 0",
        black: "Drop 0",
        text: MARKED,
        counts: "turns 0 taken 0 redone 0\n",
    },
    Counted {
        line: "run w r b --seed 12345 --rounds 1 --dump 1 --stats",
        world: CLOSING,
        red: "Flip 2 0 0",
        black: "Move 0 0",
        text: KILLED,
        counts: "turns 7 taken 5 redone 2\n",
    },
    Counted {
        line: "run w r b --seed 12345 --rounds 1 --dump 1 --stats --window 1",
        world: CLOSING,
        red: "Flip 2 0 0",
        black: "Move 0 0",
        text: KILLED,
        counts: "turns 7 taken 7 redone 0\n",
    },
    Counted {
        line: "run w r b --seed 12345 --rounds 1 --surround 6 --stats",
        world: CLOSING,
        red: "Flip 2 0 0",
        black: "Move 0 0",
        text: "random seed: 12345\n\nscore: red 0 black 0\n",
        counts: "turns 7 taken 7 redone 0\n",
    },
];

// A red ant steps among others, and one dies.
const STEPPING: [Counted<'static>; 6] = [
    Counted {
        line: "run w r b --seed 1 --rounds 1 --stats",
        world: NEIGHBOURS,
        red: "Move 0 0",
        black: "Drop 0",
        text: STEPPED,
        counts: "turns 10 taken 9 redone 1\n",
    },
    Counted {
        line: "run w r b --seed 1 --window 3 --rounds 1 --stats",
        world: NEIGHBOURS,
        red: "Move 0 0",
        black: "Drop 0",
        text: STEPPED,
        counts: "turns 10 taken 10 redone 0\n",
    },
    Counted {
        line: "run w r b --stats --seed 1 --rounds 1 --window 4",
        world: NEIGHBOURS,
        red: "Move 0 0",
        black: "Drop 0",
        text: STEPPED,
        counts: "turns 10 taken 9 redone 1\n",
    },
    Counted {
        line: "run w r b --seed 1 --rounds 1 --surround 4 --stats",
        world: NEIGHBOURS,
        red: "Move 0 0",
        black: "Drop 0",
        text: "random seed: 1\n\nscore: red 3 black 3\n",
        counts: "turns 10 taken 8 redone 2\n",
    },
    Counted {
        line: "run w r b --seed 1 --rounds 1 --corpse 0 --stats",
        world: NEIGHBOURS,
        red: "Move 0 0",
        black: "Drop 0",
        text: "random seed: 1\n\nscore: red 0 black 0\n",
        counts: "turns 10 taken 9 redone 1\n",
    },
    Counted {
        line: "run w r b --seed 1 --rounds 1 --corpse 9 --stats",
        world: NEIGHBOURS,
        red: "Move 0 0",
        black: "Drop 0",
        text: "random seed: 1\n\nscore: red 0 black 9\n",
        counts: "turns 10 taken 9 redone 1\n",
    },
];

// A red ant marks its cell beside a black one.
const MARKING: [Counted<'static>; 3] = [
    Counted {
        line: "run w r b --seed 7 --rounds 1 --stats",
        world: BELOW,
        red: "Mark 0 0",
        black: "Sense LeftAhead 0 0 Food",
        text: MARKED,
        counts: "turns 2 taken 2 redone 0\n",
    },
    Counted {
        line: "run w r b --seed 7 --rounds 1 --stats",
        world: BELOW,
        red: "Mark 0 0",
        black: "Sense LeftAhead 0 0 FoeMarker",
        text: MARKED,
        counts: "turns 2 taken 1 redone 1\n",
    },
    Counted {
        line: "run w r b --seed 7 --rounds 1 --stats",
        world: BELOW,
        red: "Mark 0 0",
        black: "Sense LeftAhead 0 0 Home",
        text: MARKED,
        counts: "turns 2 taken 2 redone 0\n",
    },
];

// Asserts that a game ends with its counts.
fn check_count<R: Threads + Wait + Sync + Abort>(
    rt: &R,
    alloc: Global,
    game: &Counted<'_>,
) -> Result<(), Fail> {
    let job = game_of(game.line, game.world, game.red, game.black);
    let whole = format!(in alloc; "{}{}", game.text, game.counts)?;
    check(rt, alloc, &job, done(&whole))
}

// Asserts that each game ends with its counts.
fn check_counts<R: Threads + Wait + Sync + Abort>(
    rt: &R,
    alloc: Global,
    games: &[Counted<'_>],
) -> Result<(), Fail> {
    for game in games {
        check_count(rt, alloc, game)?;
    }
    Ok(())
}

#[test]
fn a_run_ends_with_its_counts(rt: HostRuntime) -> Result<(), Fail> {
    check_counts(&rt, rt.alloc(), &DYING)?;
    check_counts(&rt, rt.alloc(), &STEPPING)?;
    check_counts(&rt, rt.alloc(), &MARKING)
}
