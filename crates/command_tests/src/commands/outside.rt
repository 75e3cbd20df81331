// Files that can't be read, and output that fails.
use crate::commands::runs::{KILLED, KILLING_ROUND, UNPLAYED};
use crate::commands::shown::SHOWN;
use crate::commands::workloads::UNTOUCHED;
use crate::commands::{
    CLOSED, CutRun, Ending, Given, Job, NO_JOB, Table, answer, check, check_cuts, check_tables,
    cut, done, ending_of, stopped,
};
use ant_commands::Status;
use std::alloc::Global;
use std::process::Abort;
use std::sync::Wait;
use std::test::Fail;
use std::thread::Threads;

// A game without a round, of the files w, r and b.
const UNPLAYED_GAME: Job<'static> = Job {
    line: "run w r b --seed 7 --rounds 0",
    world: CLOSED,
    red: "Drop 0",
    black: "Drop 0",
    ..NO_JOB
};

static UNPLAYED_ROUND: Job<'static> = UNPLAYED_GAME;

// Words; the line for each file if its fetch fails, in the order in which the files are fetched; and the text if no
// fetch fails.
type Fetching<'t> = (&'t str, &'t [&'t str], &'t str);

const FETCHED: [Fetching<'static>; 6] = [
    (
        "run w r b --seed 7 --rounds 0",
        &[
            "ants: w: not read\n",
            "ants: r: not read\n",
            "ants: b: not read\n",
        ],
        UNPLAYED,
    ),
    (
        "run w b b --seed 7 --rounds 0",
        &[
            "ants: w: not read\n",
            "ants: b: not read\n",
            "ants: b: not read\n",
        ],
        UNPLAYED,
    ),
    ("brain b", &["ants: b: not read\n"], "Drop 0\n"),
    (
        "minimise b",
        &["ants: b: not read\n"],
        "; 1 states, 1 kept\nDrop 0\n",
    ),
    (
        "view w r b k --seed 7 --rounds 0",
        &[
            "ants: w: not read\n",
            "ants: r: not read\n",
            "ants: b: not read\n",
            "ants: k: not read\n",
        ],
        "random seed: 7\nno stop in 0 rounds\n",
    ),
    (
        "cup --worlds w - w --brains b r --seed 7 --rounds 0",
        &[
            "ants: w: not read\n",
            "ants: -: not read\n",
            "ants: w: not read\n",
            "ants: b: not read\n",
            "ants: r: not read\n",
        ],
        "6 points: b (0 won, 6 drawn, 0 lost)\n6 points: r (0 won, 6 drawn, 0 lost)\n",
    ),
];

// Asserts the result of a command whose fetch with this number fails.
fn check_fetch<R: Threads + Wait + Sync + Abort>(
    rt: &R,
    alloc: Global,
    job: &Job<'_>,
    failing_fetch: u64,
    wanted: Ending<'_>,
) -> Result<(), Fail> {
    let mut failing = *job;
    failing.failing_fetch = failing_fetch;
    check(rt, alloc, &failing, wanted)
}

// Asserts that the command fetches its files in this order and nothing more. For each file there is the line that is
// reported if its fetch fails.
fn check_fetches<R: Threads + Wait + Sync + Abort>(
    rt: &R,
    alloc: Global,
    job: &Job<'_>,
    lines: &[&str],
    text: &str,
) -> Result<(), Fail> {
    let mut next = 1;
    for line in lines {
        check_fetch(rt, alloc, job, next, stopped(Status::Read, line))?;
        next = next.saturating_add(1);
    }
    check_fetch(rt, alloc, job, next, done(text))
}

// Asserts for each row which files are fetched, and in which order.
fn check_fetchings<R: Threads + Wait + Sync + Abort>(
    rt: &R,
    alloc: Global,
    rows: &[Fetching<'_>],
) -> Result<(), Fail> {
    for (line, lines, text) in rows {
        let job = UNPLAYED_ROUND.with(Given::Line, line);
        check_fetches(rt, alloc, &job, lines, text)?;
    }
    Ok(())
}

#[test]
fn each_file_is_fetched_once_in_the_order_of_its_word(rt: HostRuntime) -> Result<(), Fail> {
    check_fetchings(&rt, rt.alloc(), &FETCHED)
}

// Words that name a file that isn't there, and the line that names it.
const MISSING: [(&str, &str); 2] = [
    ("show none 1", "ants: none: not read\n"),
    ("run none r b --seed 7 --rounds 0", "ants: none: not read\n"),
];

// Words that name a missing file after one that is not a world, and the line that names the latter.
const FAULTY: [(&str, &str); 1] = [("run k none b --seed 7 --rounds 0", "ants: k: bad width\n")];

static STOPPED_RUNS: [Table<'static>; 2] = [
    Table {
        job: UNPLAYED_GAME,
        given: Given::Line,
        status: Status::Read,
        rows: &MISSING,
    },
    Table {
        job: UNPLAYED_GAME,
        given: Given::Line,
        status: Status::Input,
        rows: &FAULTY,
    },
];

#[test]
fn the_first_file_that_is_missing_or_at_fault_is_named(rt: HostRuntime) -> Result<(), Fail> {
    check_tables(&rt, rt.alloc(), &STOPPED_RUNS)
}

// Asserts the result of a command whose output has room for this many bytes.
fn check_in<R: Threads + Wait + Sync + Abort>(
    rt: &R,
    alloc: Global,
    job: &Job<'_>,
    room: usize,
    wanted: Ending<'_>,
) -> Result<(), Fail> {
    let mut full = *job;
    full.room = room as u64;
    check(rt, alloc, &full, wanted)
}

// Asserts that an output with room for this many bytes of the command's text gets these, and fails.
fn check_room<R: Threads + Wait + Sync + Abort>(
    rt: &R,
    alloc: Global,
    job: &Job<'_>,
    text: &str,
    room: usize,
) -> Result<(), Fail> {
    let front = text.get(..room).ok_or("the text is shorter")?;
    let wanted = cut(front, "ants: output failed\n");
    check_in(rt, alloc, job, room, wanted)
}

// Asserts the same for each room that is smaller than the text, and that the command is done if the room is as large as
// the text.
fn check_rooms<R: Threads + Wait + Sync + Abort>(
    rt: &R,
    alloc: Global,
    job: &Job<'_>,
    text: &str,
) -> Result<(), Fail> {
    for room in 0..text.len() {
        check_room(rt, alloc, job, text, room)?;
    }
    check_in(rt, alloc, job, text.len(), done(text))
}

#[test]
fn output_that_is_full_holds_a_prefix_of_the_text(rt: HostRuntime) -> Result<(), Fail> {
    check_rooms(&rt, rt.alloc(), &UNPLAYED_ROUND, UNPLAYED)
}

// Output with room for five bytes, and errors with room for a line, for none or for eight bytes.
static FULL: [CutRun<'static>; 3] = [
    CutRun {
        job: Job {
            line: "show w 7",
            room: 5,
            ..UNPLAYED_GAME
        },
        held: "rando",
        line: "ants: output failed\n",
    },
    CutRun {
        job: Job {
            room: 5,
            err_room: 0,
            ..UNPLAYED_GAME
        },
        held: "rando",
        line: "",
    },
    CutRun {
        job: Job {
            room: 5,
            err_room: 8,
            ..UNPLAYED_GAME
        },
        held: "rando",
        line: "ants: ou",
    },
];

#[test]
fn errors_that_are_full_hold_a_prefix_of_their_line(rt: HostRuntime) -> Result<(), Fail> {
    check_cuts(&rt, rt.alloc(), &FULL)
}

// Asserts that the text of a command whose output failed is a prefix of it.
fn check_front<R: Abort>(rt: &R, ending: Ending<'_>, text: &str, failing_push: u64) {
    assert_eq!(rt; ending.status, Status::Write);
    assert!(rt;
        text.starts_with(ending.out),
        "at {failing_push}: {ending:?}"
    );
}

// Asserts for each push that if it fails, the output gets a prefix of the command's text. A command has fewer than
// 10,000 pushes.
fn check_pushes<R: Threads + Wait + Sync + Abort>(
    rt: &R,
    alloc: Global,
    job: &Job<'_>,
    text: &str,
) -> Result<(), Fail> {
    for failing_push in 1..10000 {
        if check_push(rt, alloc, job, text, failing_push)? {
            return Ok(());
        }
    }
    Err(Fail::new("the text has 10,000 pushes or more"))
}

// Asserts the result of a command whose push with this number fails: a prefix of its text. If there is no such push, it
// is the whole text. Returns whether it is whole.
fn check_push<R: Threads + Wait + Sync + Abort>(
    rt: &R,
    alloc: Global,
    job: &Job<'_>,
    text: &str,
    failing_push: u64,
) -> Result<bool, Fail> {
    let mut failing = *job;
    failing.failing_push = failing_push;
    let outcome = answer(rt, alloc, &failing)?;
    Ok(is_whole(rt, ending_of(&outcome), text, failing_push))
}

// Whether a command is done. Asserts that a command that is done wrote its whole text, and that any other wrote a
// prefix of it before its output failed.
fn is_whole<R: Abort>(rt: &R, ending: Ending<'_>, text: &str, failing_push: u64) -> bool {
    if ending.status == Status::Done {
        assert_eq!(rt; ending, done(text));
        return true;
    }
    check_front(rt, ending, text, failing_push);
    false
}

// A line of each command, and its text.
const WRITTEN: [(&str, &str); 6] = [
    ("show w 12345", SHOWN),
    ("brain b", "Drop 0\n"),
    ("minimise b", "; 1 states, 1 kept\nDrop 0\n"),
    (
        "cup --worlds w --brains r b --seed 7 --rounds 0",
        "2 points: r (0 won, 2 drawn, 0 lost)\n2 points: b (0 won, 2 drawn, 0 lost)\n",
    ),
    (
        "view w r b k --seed 7 --rounds 0",
        "random seed: 7\nno stop in 0 rounds\n",
    ),
    ("workload 12345 0 4", UNTOUCHED),
];

// Asserts for each command what its output gets if a push fails, and if its room is 0, one byte, or one byte too small.
fn check_written<R: Threads + Wait + Sync + Abort>(
    rt: &R,
    alloc: Global,
    rows: &[(&str, &str)],
) -> Result<(), Fail> {
    for (line, text) in rows {
        check_failures(rt, alloc, &UNPLAYED_ROUND.with(Given::Line, line), text)?;
    }
    Ok(())
}

// Asserts the same for one command.
fn check_failures<R: Threads + Wait + Sync + Abort>(
    rt: &R,
    alloc: Global,
    job: &Job<'_>,
    text: &str,
) -> Result<(), Fail> {
    check_pushes(rt, alloc, job, text)?;
    check_room(rt, alloc, job, text, 0)?;
    check_room(rt, alloc, job, text, 1)?;
    check_room(rt, alloc, job, text, text.len().saturating_sub(1))
}

#[test]
fn a_push_that_fails_ends_the_text(rt: HostRuntime) -> Result<(), Fail> {
    check_written(&rt, rt.alloc(), &WRITTEN)
}

// Asserts the same for the pushes of the game in which an ant dies, with its counts.
fn check_killing_pushes<R: Threads + Wait + Sync + Abort>(
    rt: &R,
    alloc: Global,
) -> Result<(), Fail> {
    let line = "run w r b --seed 12345 --rounds 1 --dump 1 --stats";
    let text = format!(in alloc; "{KILLED}turns 7 taken 5 redone 2\n")?;
    let job = KILLING_ROUND.with(Given::Line, line);
    check_pushes(rt, alloc, &job, &text)
}

#[test]
fn a_push_that_fails_ends_the_text_of_a_game(rt: HostRuntime) -> Result<(), Fail> {
    check_killing_pushes(&rt, rt.alloc())
}
