// The command `run`.
use crate::commands::{
    CLOSED, CLOSING, Given, Job, NO_JOB, Table, Told, check_rows, check_tables, check_text, game_of,
};
use ant_commands::Status;
use std::alloc::Global;
use std::process::Abort;
use std::sync::Wait;
use std::test::Fail;
use std::thread::Threads;

// A red ant with an open cell before it.
const OPEN: &str = "4\n3\n# # # #\n # + . #\n# # # #\n";

// A red ant before a cell with one food particle.
const FED: &str = "4\n3\n# # # #\n # + 1 #\n# # # #\n";

// Two red ants and a black one in a row.
const ROW: &str = "5\n3\n# # # # #\n # + + - #\n# # # # #\n";

// A red ant among six black ones.
const SURROUNDED: &str = "5\n5\n# # # # #\n # - - . #\n# - + - #\n # - - . #\n# # # # #\n";

// A black ant among four red ones, beside a red ant among five black ones; a red ant is about to step beside both.
pub const NEIGHBOURS: &str =
    "6\n6\n# # # # # #\n # . + + # #\n# + . - + #\n # - + - . #\n# . - - . #\n # # # # # #\n";

// No hill, no ant.
pub const EMPTY: &str = "4\n4\n# # # #\n # . . #\n# . . #\n # # # #\n";

// A red ant dies after a black one's move: one round of `CLOSING` with the seed 12345, red `Flip 2 0 0`, black `Move 0
// 0`.
pub const KILLED: &str = "random seed: 12345\n\
    \n\
    After round 1...\n\
    cell (0, 0): rock\n\
    cell (1, 0): rock\n\
    cell (2, 0): rock\n\
    cell (3, 0): rock\n\
    cell (4, 0): rock\n\
    cell (5, 0): rock\n\
    cell (6, 0): rock\n\
    cell (0, 1): rock\n\
    cell (1, 1): \n\
    cell (2, 1): \n\
    cell (3, 1): \n\
    cell (4, 1): \n\
    cell (5, 1): \n\
    cell (6, 1): rock\n\
    cell (0, 2): rock\n\
    cell (1, 2): \n\
    cell (2, 2): \n\
    cell (3, 2): black hill; black ant of id 0, dir 0, food 0, state 0, resting 0\n\
    cell (4, 2): rock\n\
    cell (5, 2): \n\
    cell (6, 2): rock\n\
    cell (0, 3): rock\n\
    cell (1, 3): black hill; \n\
    cell (2, 3): black ant of id 1, dir 0, food 0, state 0, resting 14\n\
    cell (3, 3): 3 food; red hill; \n\
    cell (4, 3): black hill; black ant of id 3, dir 0, food 0, state 0, resting 0\n\
    cell (5, 3): rock\n\
    cell (6, 3): rock\n\
    cell (0, 4): rock\n\
    cell (1, 4): red hill; red ant of id 4, dir 0, food 0, state 0, resting 0\n\
    cell (2, 4): \n\
    cell (3, 4): black hill; black ant of id 5, dir 0, food 0, state 0, resting 0\n\
    cell (4, 4): black hill; black ant of id 6, dir 0, food 0, state 0, resting 0\n\
    cell (5, 4): rock\n\
    cell (6, 4): rock\n\
    cell (0, 5): rock\n\
    cell (1, 5): rock\n\
    cell (2, 5): rock\n\
    cell (3, 5): rock\n\
    cell (4, 5): rock\n\
    cell (5, 5): rock\n\
    cell (6, 5): rock\n\
    \n\
    score: red 3 black 0\n";

// A red ant turns left: one round of `CLOSED` with the seed 12345.
const TURNED: &str = "random seed: 12345\n\
    \n\
    After round 0...\n\
    cell (0, 0): rock\n\
    cell (1, 0): rock\n\
    cell (2, 0): rock\n\
    cell (0, 1): rock\n\
    cell (1, 1): red hill; red ant of id 0, dir 0, food 0, state 0, resting 0\n\
    cell (2, 1): rock\n\
    cell (0, 2): rock\n\
    cell (1, 2): rock\n\
    cell (2, 2): rock\n\
    \n\
    After round 1...\n\
    cell (0, 0): rock\n\
    cell (1, 0): rock\n\
    cell (2, 0): rock\n\
    cell (0, 1): rock\n\
    cell (1, 1): red hill; red ant of id 0, dir 5, food 0, state 0, resting 0\n\
    cell (2, 1): rock\n\
    cell (0, 2): rock\n\
    cell (1, 2): rock\n\
    cell (2, 2): rock\n\
    \n\
    score: red 0 black 0\n";

// The seed 7, no dump and no food on a hill.
pub const UNPLAYED: &str = "random seed: 7\n\nscore: red 0 black 0\n";

// A round in which the one ant turns left.
const TURNING: Job<'static> = Job {
    world: CLOSED,
    red: "Turn Left 0",
    black: "Turn Left 0",
    ..NO_JOB
};

// Words that request all dumps of it.
const DUMPED: [(&str, &str); 3] = [
    ("run w r b --seed 12345 --rounds 1 --dump 0,1", TURNED),
    ("run w r b --dump all --rounds 1 --seed 12345", TURNED),
    ("run w r b --rounds 1 --dump 9,1,0,1 --seed 12345", TURNED),
];

// Words that request no round, or no dump.
const BARE: [(&str, &str); 3] = [
    ("run w r b --seed 7 --rounds 0", UNPLAYED),
    ("run w r b --seed 7 --rounds 0 --dump none", UNPLAYED),
    ("run w r b --seed 7 --rounds 5", UNPLAYED),
];

// A round in which a surrounded ant dies.
pub const KILLING: Job<'static> = Job {
    line: "run w r b --seed 12345 --rounds 1 --dump 1",
    world: CLOSING,
    red: "Flip 2 0 0",
    black: "Move 0 0",
    ..NO_JOB
};

pub static KILLING_ROUND: Job<'static> = KILLING;

// Its words.
const KILLS: [(&str, &str); 1] = [("run w r b --seed 12345 --rounds 1 --dump 1", KILLED)];

// Games that are printed.
static DUMPED_RUNS: Table<'static> = Table {
    job: TURNING,
    given: Given::Line,
    status: Status::Done,
    rows: &DUMPED,
};

static BARE_RUNS: [Table<'static>; 2] = [
    Table {
        job: TURNING,
        given: Given::Line,
        status: Status::Done,
        rows: &BARE,
    },
    Table {
        job: Job {
            world: EMPTY,
            ..TURNING
        },
        given: Given::Line,
        status: Status::Done,
        rows: &BARE,
    },
];

static KILLING_RUNS: Table<'static> = Table {
    job: KILLING,
    given: Given::Line,
    status: Status::Done,
    rows: &KILLS,
};

#[test]
fn a_run_prints_its_seed_its_dumps_and_its_score(rt: HostRuntime) -> Result<(), Fail> {
    check_rows(&rt, rt.alloc(), &DUMPED_RUNS)?;
    check_tables(&rt, rt.alloc(), &BARE_RUNS)?;
    check_rows(&rt, rt.alloc(), &KILLING_RUNS)
}

// A game, lines of its text in order, perhaps with others between them, and the end of its text.
#[derive(Clone, Copy)]
struct Game<'t> {
    line: &'t str,
    world: &'t str,
    red: &'t str,
    black: &'t str,
    lines: &'t str,
    score: &'t str,
}

// Games by the contest's sheet.
const GAMES: [Game<'static>; 7] = [
    Game {
        line: "run w r b --seed 1 --rounds 16 --dump 1,15,16",
        world: OPEN,
        red: "Move 0 0",
        black: "Move 0 0",
        lines: "After round 1...\n\
                cell (1, 1): red hill; \n\
                cell (2, 1): red ant of id 0, dir 0, food 0, state 0, resting 14\n\
                After round 15...\n\
                cell (1, 1): red hill; \n\
                cell (2, 1): red ant of id 0, dir 0, food 0, state 0, resting 0\n\
                After round 16...\n\
                cell (1, 1): red hill; \n\
                cell (2, 1): red ant of id 0, dir 0, food 0, state 0, resting 0\n",
        score: "\n\nscore: red 0 black 0\n",
    },
    Game {
        line: "run w r b --seed 12345 --rounds 1 --dump 1",
        world: CLOSED,
        red: "Flip 3 1 2\nDrop 1\nDrop 2\n",
        black: "Flip 3 1 2\nDrop 1\nDrop 2\n",
        lines: "After round 1...\n\
                cell (1, 1): red hill; red ant of id 0, dir 0, food 0, state 2, resting 0\n",
        score: "\n\nscore: red 0 black 0\n",
    },
    Game {
        line: "run w r b --seed 12345 --rounds 1 --dump 1",
        world: ROW,
        red: "Flip 1 0 0",
        black: "Flip 3 1 2\nDrop 1\nDrop 2\n",
        lines: "After round 1...\n\
                cell (1, 1): red hill; red ant of id 0, dir 0, food 0, state 0, resting 0\n\
                cell (2, 1): red hill; red ant of id 1, dir 0, food 0, state 0, resting 0\n\
                cell (3, 1): black hill; black ant of id 2, dir 0, food 0, state 1, resting 0\n",
        score: "\n\nscore: red 0 black 0\n",
    },
    Game {
        line: "run w r b --seed 1 --rounds 5 --dump 5",
        world: SURROUNDED,
        red: "Drop 0",
        black: "Drop 0",
        lines: "After round 5...\n\
                cell (2, 2): red hill; red ant of id 3, dir 0, food 0, state 0, resting 0\n",
        score: "\n\nscore: red 0 black 0\n",
    },
    Game {
        line: "run w r b --seed 1 --rounds 19 --dump 16,17,18,19",
        world: FED,
        red: "Move 1 0\nPickUp 2 3\nPickUp 0 3\nDrop 4\nDrop 4\n",
        black: "Drop 0",
        lines: "After round 16...\n\
                cell (2, 1): red ant of id 0, dir 0, food 1, state 2, resting 0\n\
                After round 17...\n\
                cell (2, 1): red ant of id 0, dir 0, food 1, state 3, resting 0\n\
                After round 18...\n\
                cell (2, 1): 1 food; red ant of id 0, dir 0, food 0, state 4, resting 0\n\
                After round 19...\n\
                cell (2, 1): 1 food; red ant of id 0, dir 0, food 0, state 4, resting 0\n",
        score: "\n\nscore: red 0 black 0\n",
    },
    Game {
        line: "run w r b --seed 1 --rounds 1 --dump 1",
        world: NEIGHBOURS,
        red: "Move 0 0",
        black: "Drop 0",
        lines: "After round 1...\n\
                cell (1, 2): red hill; \n\
                cell (2, 2): red ant of id 2, dir 0, food 0, state 0, resting 14\n\
                cell (3, 2): 3 food; black hill; \n\
                cell (2, 3): red hill; red ant of id 6, dir 0, food 0, state 0, resting 0\n",
        score: "\n\nscore: red 0 black 3\n",
    },
    Game {
        line: "run w r b --seed 1 --rounds 3 --dump 2,3",
        world: CLOSED,
        red: "Mark 3 1\nMark 0 2\nUnmark 3 2\n",
        black: "Mark 3 1\nMark 0 2\nUnmark 3 2\n",
        lines: "After round 2...\n\
                cell (1, 1): red hill; red marks: 03; red ant of id 0, dir 0, food 0, state 2, resting 0\n\
                After round 3...\n\
                cell (1, 1): red hill; red marks: 0; red ant of id 0, dir 0, food 0, state 2, resting 0\n",
        score: "\n\nscore: red 0 black 0\n",
    },
];

// Asserts for each game that it is played, and that its text fits.
fn check_games<R: Threads + Wait + Sync + Abort>(
    rt: &R,
    alloc: Global,
    games: &[Game<'_>],
) -> Result<(), Fail> {
    for game in games {
        let job = game_of(game.line, game.world, game.red, game.black);
        let told = Told {
            start: "",
            lines: game.lines,
            end: game.score,
        };
        check_text(rt, alloc, &job, &told)?;
    }
    Ok(())
}

#[test]
fn a_run_follows_the_rules_of_the_world(rt: HostRuntime) -> Result<(), Fail> {
    check_games(&rt, rt.alloc(), &GAMES)
}
