// The command `view`.
use crate::commands::runs::NEIGHBOURS;
use crate::commands::{
    CLOSED, CLOSING, Given, Job, NO_JOB, Table, Told, check_rows, check_tables, check_text,
};
use ant_commands::Status;
use std::alloc::Global;
use std::process::Abort;
use std::sync::Wait;
use std::test::Fail;
use std::thread::Threads;

// The game in which the black ant 1 surrounds the red ant 2 in round 1, for five rounds. The red ants draw numbers, and
// the other black ants don't move.
const VIEW: Job<'static> = Job {
    line: "view w r b k --seed 12345 --rounds 5",
    world: CLOSING,
    red: "Flip 2 0 0",
    black: "Move 0 0",
    ..NO_JOB
};

static VIEWING: Job<'static> = VIEW;

// Breaks, each alone, and the second line of the view. It has the turn after which the break first holds.
const ALONE: [(&str, &str); 18] = [
    ("Round 1", "stop: round 1, ant 0, break 1"),
    ("Round 2", "stop: round 2, ant 0, break 1"),
    ("Round 9", "no stop in 5 rounds"),
    ("State Black 0", "stop: round 1, ant 0, break 1"),
    ("State Red 0", "stop: round 1, ant 4, break 1"),
    ("State Red 1", "no stop in 5 rounds"),
    ("Stand Black 2 3", "stop: round 1, ant 1, break 1"),
    ("Stand Red 2 3", "no stop in 5 rounds"),
    ("Stand Black 7 6", "no stop in 5 rounds"),
    ("Food 3 3 3", "stop: round 1, ant 1, break 1"),
    ("Food 3 3 4", "no stop in 5 rounds"),
    ("Food 1 1 0", "stop: round 1, ant 0, break 1"),
    ("Food 4 2 0", "no stop in 5 rounds"),
    ("Food 7 0 0", "no stop in 5 rounds"),
    ("Killed 2", "stop: round 1, ant 1, break 1"),
    ("Killed 7", "no stop in 5 rounds"),
    ("Score Red 3", "stop: round 1, ant 1, break 1"),
    ("Score Red 4", "no stop in 5 rounds"),
];

// Texts of several breaks or of none, and the second line of the view.
const TOGETHER: [(&str, &str); 8] = [
    (
        "Score Red 3\nStand Black 2 3\n",
        "stop: round 1, ant 1, break 1",
    ),
    (
        "Stand Black 2 3\nScore Red 3\n",
        "stop: round 1, ant 1, break 1",
    ),
    (
        "Round 9\nKilled 2\nRound 1\n",
        "stop: round 1, ant 0, break 3",
    ),
    (
        "Round 9\nScore Black 1\nKilled 2\n",
        "stop: round 1, ant 1, break 3",
    ),
    (
        "; why did it die?\n\n\tKILLED 002 ; the red one\n",
        "stop: round 1, ant 1, break 1",
    ),
    ("sTAND bLACK 2 3", "stop: round 1, ant 1, break 1"),
    ("; nothing\n", "no stop in 5 rounds"),
    ("", "no stop in 5 rounds"),
];

// Lines of the view of the red ant's death in round 1, and the second line of the view.
const LATER: [(&str, &str); 7] = [
    (
        "view w r b k --seed 12345 --rounds 5",
        "stop: round 1, ant 1, break 1",
    ),
    (
        "view w r b k --seed 12345 --rounds 5 --from 0",
        "stop: round 1, ant 1, break 1",
    ),
    (
        "view w r b k --seed 12345 --rounds 5 --from 1",
        "stop: round 1, ant 1, break 1",
    ),
    (
        "view w r b k --seed 12345 --rounds 5 --from 2",
        "stop: round 2, ant 0, break 1",
    ),
    (
        "view w r b k --seed 12345 --rounds 5 --from 5",
        "stop: round 5, ant 0, break 1",
    ),
    (
        "view w r b k --seed 12345 --rounds 5 --from 6",
        "no stop in 5 rounds",
    ),
    (
        "view w r b k --seed 12345 --rounds 5 --from 1000000",
        "no stop in 5 rounds",
    ),
];

// Texts that are not lists of breaks, and the line that names the first fault of each.
const REFUSED: [(&str, &str); 14] = [
    ("K", "ants: k: line 1: unknown word\n"),
    ("Ki", "ants: k: line 1: unknown word\n"),
    ("Kil", "ants: k: line 1: unknown word\n"),
    ("Kill", "ants: k: line 1: unknown word\n"),
    ("Kille", "ants: k: line 1: unknown word\n"),
    ("Killed", "ants: k: line 1: missing token\n"),
    ("Jump 1", "ants: k: line 1: unknown word\n"),
    ("Food 1 2", "ants: k: line 1: missing token\n"),
    ("Round x", "ants: k: line 1: bad number\n"),
    ("Round 4294967296", "ants: k: line 1: bad number\n"),
    ("Round 1 2", "ants: k: line 1: extra token\n"),
    (
        "Round 1\n;\nStand Green 1 1\nJump",
        "ants: k: line 3: unknown word\n",
    ),
    ("Score 3", "ants: k: line 1: unknown word\n"),
    ("Round \u{7f}", "ants: k: line 1: bad number\n"),
];

// Worlds and brains at fault, before a file of breaks that is at fault too, and the line that names the first of the
// two.
const WORLDS: [(&str, &str); 2] = [
    ("7\n6\n# # # # # # #\n # . .", "ants: w: row 1: short\n"),
    ("7\n", "ants: w: bad height\n"),
];

const REDS: [(&str, &str); 2] = [
    ("Flip 2 0", "ants: r: line 1: missing token\n"),
    ("", "ants: r: no instruction\n"),
];

const BLACKS: [(&str, &str); 2] = [
    ("Mov", "ants: b: line 1: unknown word\n"),
    ("Move 0 1", "ants: b: line 1: no such state 1\n"),
];

// The view, whose breaks are at fault.
const NO_BREAKS: Job<'static> = Job {
    breaks: "Killed",
    ..VIEW
};

// Files of a view that are at fault.
static FAULTS: [Table<'static>; 4] = [
    Table {
        job: NO_BREAKS,
        given: Given::World,
        status: Status::Input,
        rows: &WORLDS,
    },
    Table {
        job: NO_BREAKS,
        given: Given::Red,
        status: Status::Input,
        rows: &REDS,
    },
    Table {
        job: NO_BREAKS,
        given: Given::Black,
        status: Status::Input,
        rows: &BLACKS,
    },
    Table {
        job: VIEW,
        given: Given::Breaks,
        status: Status::Input,
        rows: &REFUSED,
    },
];

#[test]
fn a_file_of_a_view_at_fault_is_named_before_its_breaks(rt: HostRuntime) -> Result<(), Fail> {
    check_tables(&rt, rt.alloc(), &FAULTS)
}

// The text of the view that doesn't stop.
const NO_STOP: &str = "random seed: 12345\nno stop in 5 rounds\n";

// Views that don't stop: of the game, and of a world without ants, in which no break holds.
const NO_STOPS: [(&str, &str); 1] = [("Round 9", NO_STOP)];

const NO_ANTS: [(&str, &str); 1] = [("Round 1\nFood 1 1 0\n", NO_STOP)];

static UNSTOPPED: [Table<'static>; 2] = [
    Table {
        job: VIEW,
        given: Given::Breaks,
        status: Status::Done,
        rows: &NO_STOPS,
    },
    Table {
        job: Job {
            world: "4\n4\n# # # #\n # . . #\n# . . #\n # # # #\n",
            ..VIEW
        },
        given: Given::Breaks,
        status: Status::Done,
        rows: &NO_ANTS,
    },
];

#[test]
fn a_view_without_a_turn_at_which_a_break_holds_says_so(rt: HostRuntime) -> Result<(), Fail> {
    check_tables(&rt, rt.alloc(), &UNSTOPPED)
}

// One red ant. It goes to state 3 if its first number is a multiple of 7193 and the second is a multiple of 2932, and
// otherwise to state 2.
const DRAWING: Job<'static> = Job {
    world: CLOSED,
    red: "Flip 7193 1 2\nFlip 2932 3 2\nDrop 2\nDrop 3",
    black: "Drop 0",
    breaks: "State Red 3\nState Red 2\n",
    ..NO_JOB
};

// The numbers of seed 12345 begin 7193, 2932, so the ant is in state 1 after round 1, and in state 3 after round 2. The
// other seed is the state that follows 12345, in its lowest 30 bits, so its numbers begin 2932, and the ant is in state
// 2 after round 1. The ant draws its numbers in rounds that are skipped too: from round 3 on it is in state 3 after the
// first turn.
const DRAWN: [(&str, &str); 5] = [
    (
        "view w r b k --seed 12345 --rounds 5",
        "random seed: 12345\nstop: round 2, ant 0, break 1\ncell (0, 0): rock\ncell (1, 0): rock\ncell (2, 0): rock\ncell (0, 1): rock\ncell (1, 1): red hill; red ant of id 0, dir 0, food 0, state 3, resting 0\ncell (2, 1): rock\ncell (0, 2): rock\ncell (1, 2): rock\ncell (2, 2): rock\n",
    ),
    (
        "view w r b k --seed 1002789326 --rounds 5",
        "random seed: 1002789326\nstop: round 1, ant 0, break 2\ncell (0, 0): rock\ncell (1, 0): rock\ncell (2, 0): rock\ncell (0, 1): rock\ncell (1, 1): red hill; red ant of id 0, dir 0, food 0, state 2, resting 0\ncell (2, 1): rock\ncell (0, 2): rock\ncell (1, 2): rock\ncell (2, 2): rock\n",
    ),
    (
        "view w r b k --from 2 --seed 12345 --rounds 5",
        "random seed: 12345\nstop: round 2, ant 0, break 1\ncell (0, 0): rock\ncell (1, 0): rock\ncell (2, 0): rock\ncell (0, 1): rock\ncell (1, 1): red hill; red ant of id 0, dir 0, food 0, state 3, resting 0\ncell (2, 1): rock\ncell (0, 2): rock\ncell (1, 2): rock\ncell (2, 2): rock\n",
    ),
    (
        "view w r b k --seed 12345 --from 3 --rounds 5",
        "random seed: 12345\nstop: round 3, ant 0, break 1\ncell (0, 0): rock\ncell (1, 0): rock\ncell (2, 0): rock\ncell (0, 1): rock\ncell (1, 1): red hill; red ant of id 0, dir 0, food 0, state 3, resting 0\ncell (2, 1): rock\ncell (0, 2): rock\ncell (1, 2): rock\ncell (2, 2): rock\n",
    ),
    (
        "view w r b k --seed 12345 --rounds 5 --from 6",
        "random seed: 12345\nno stop in 5 rounds\n",
    ),
];

static DRAWN_VIEWS: Table<'static> = Table {
    job: DRAWING,
    given: Given::Line,
    status: Status::Done,
    rows: &DRAWN,
};

// Red ant 2 steps beside black ant 3, which then has five foes, and red ant 6, which has four once that one is dead.
const CONTEST: [(&str, &str); 1] = [("Killed 6", "random seed: 1\nno stop in 1 rounds\n")];

static CONTEST_VIEW: Table<'static> = Table {
    job: Job {
        line: "view w r b k --seed 1 --rounds 1",
        world: NEIGHBOURS,
        red: "Move 0 0",
        black: "Drop 0",
        ..NO_JOB
    },
    given: Given::Breaks,
    status: Status::Done,
    rows: &CONTEST,
};

#[test]
fn a_view_is_of_the_game_of_its_seed_by_the_contests_numbers(rt: HostRuntime) -> Result<(), Fail> {
    check_rows(&rt, rt.alloc(), &DRAWN_VIEWS)?;
    check_rows(&rt, rt.alloc(), &CONTEST_VIEW)
}

// Asserts the second line of the view of this job.
fn check_stop<R: Threads + Wait + Sync + Abort>(
    rt: &R,
    alloc: Global,
    job: &Job<'_>,
    wanted: &str,
) -> Result<(), Fail> {
    let start = format!(in alloc; "random seed: 12345\n{wanted}\n")?;
    let told = Told {
        start: &start,
        lines: "",
        end: "",
    };
    check_text(rt, alloc, job, &told)
}

// For each of these texts: asserts the second line of the view of the job with that text.
fn check_stops<'t, R: Threads + Wait + Sync + Abort>(
    rt: &R,
    alloc: Global,
    job: &Job<'t>,
    given: Given,
    rows: &[(&'t str, &'t str)],
) -> Result<(), Fail> {
    for (text, wanted) in rows {
        check_stop(rt, alloc, &job.with(given, text), wanted)?;
    }
    Ok(())
}

#[test]
fn each_kind_of_break_holds_when_it_says(rt: HostRuntime) -> Result<(), Fail> {
    let alloc = rt.alloc();
    check_stops(&rt, alloc, &VIEWING, Given::Breaks, &ALONE)?;
    check_stops(&rt, alloc, &VIEWING, Given::Breaks, &TOGETHER)
}

// The view of the red ant's death.
static DYING: Job<'static> = Job {
    breaks: "Killed 2",
    ..VIEW
};

// Its cells: the black ant has gone to (2, 3), and the red one on (3, 3) is dead.
const DEATH: Told<'static> = Told {
    start: "random seed: 12345\nstop: round 1, ant 1, break 1\ncell (0, 0): rock\n",
    lines: "cell (1, 3): black hill; \n\
            cell (2, 3): black ant of id 1, dir 0, food 0, state 0, resting 14\n\
            cell (3, 3): 3 food; red hill; \n",
    end: "cell (6, 5): rock\n",
};

#[test]
fn a_view_shows_the_cells_at_its_stop(rt: HostRuntime) -> Result<(), Fail> {
    check_text(&rt, rt.alloc(), &DYING, &DEATH)
}

#[test]
fn a_view_from_a_later_round_stops_where_the_break_still_holds(
    rt: HostRuntime,
) -> Result<(), Fail> {
    check_stops(&rt, rt.alloc(), &DYING, Given::Line, &LATER)
}
