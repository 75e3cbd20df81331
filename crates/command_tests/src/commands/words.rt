// Words that are not a command.
use crate::commands::{
    CLOSED, Ending, Given, Job, NO_JOB, Outcome, ROOM, Table, check_rows, ending_of, outcome_of,
    split, stopped,
};
use ant_base::{Calls, Files, MemShelf, MemSink, NoGate};
use ant_commands::{Status, run_here};
use std::alloc::Global;
use std::process::Abort;
use std::test::Fail;
use std::thread::Threads;

// Words, and the line that names the first refused one: the first word that makes it impossible to complete the line to
// a command.
const REFUSED: [(&str, &str); 20] = [
    ("", "ants: word 1 refused\n"),
    ("jump", "ants: word 1 refused\n"),
    ("-h", "ants: word 1 refused\n"),
    ("--help x", "ants: word 2 refused\n"),
    ("--version 1", "ants: word 2 refused\n"),
    ("run --help", "ants: word 2 refused\n"),
    ("Show w 1", "ants: word 1 refused\n"),
    ("shows w 1", "ants: word 1 refused\n"),
    ("show", "ants: word 2 refused\n"),
    ("show  1", "ants: word 2 refused\n"),
    ("show --w 1", "ants: word 2 refused\n"),
    ("show w", "ants: word 3 refused\n"),
    ("show w 4294967296", "ants: word 3 refused\n"),
    ("show w 00000000001", "ants: word 3 refused\n"),
    ("show w -1", "ants: word 3 refused\n"),
    ("show w +1", "ants: word 3 refused\n"),
    ("show w 1 2", "ants: word 4 refused\n"),
    ("brain", "ants: word 2 refused\n"),
    ("brain --", "ants: word 2 refused\n"),
    ("brain b b", "ants: word 3 refused\n"),
];

// The same for the command `run`.
const REFUSED_RUNS: [(&str, &str); 24] = [
    ("run", "ants: word 2 refused\n"),
    ("run w r --seed 1 --rounds 2", "ants: word 4 refused\n"),
    ("run w r b", "ants: word 5 refused\n"),
    ("run w r b x", "ants: word 5 refused\n"),
    ("run w r b --SEED 1", "ants: word 5 refused\n"),
    ("run w r b --seed", "ants: word 6 refused\n"),
    ("run w r b --seed 1", "ants: word 7 refused\n"),
    ("run w r b --seed 1 --seed 2", "ants: word 7 refused\n"),
    ("run w r b --seed --rounds 1", "ants: word 6 refused\n"),
    ("run w r b --rounds 1000001", "ants: word 6 refused\n"),
    ("run w r b --dump 1,,2", "ants: word 6 refused\n"),
    ("run w r b --dump 1,", "ants: word 6 refused\n"),
    ("run w r b --dump ,", "ants: word 6 refused\n"),
    ("run w r b --dump All", "ants: word 6 refused\n"),
    ("run w r b --dump 0,1000001", "ants: word 6 refused\n"),
    ("run w r b --dump none,1", "ants: word 6 refused\n"),
    ("run w r b --seed 1 --rounds", "ants: word 8 refused\n"),
    ("run w r b --Dump all", "ants: word 5 refused\n"),
    ("run w r b --seed 1 --rounds 1 1", "ants: word 9 refused\n"),
    (
        "run w r b --seed 1 --rounds 2 --rounds 2",
        "ants: word 9 refused\n",
    ),
    (
        "run w r b --seed 1 --rounds 2 --dump",
        "ants: word 10 refused\n",
    ),
    (
        "run w r b --seed 1 --rounds 1 --surround 7",
        "ants: word 10 refused\n",
    ),
    (
        "run w r b --seed 1 --rounds 1 --corpse 10",
        "ants: word 10 refused\n",
    ),
    (
        "run w r b --seed 1 --rounds 1 --rest 256",
        "ants: word 10 refused\n",
    ),
];

// The same for the command `cup`.
const REFUSED_CUPS: [(&str, &str); 12] = [
    ("cup", "ants: word 2 refused\n"),
    ("cup w --brains r b", "ants: word 2 refused\n"),
    ("cup --brains r b --worlds w", "ants: word 2 refused\n"),
    ("cup --worlds --brains r b", "ants: word 3 refused\n"),
    ("cup --worlds w", "ants: word 4 refused\n"),
    ("cup --worlds w --brains r", "ants: word 6 refused\n"),
    ("cup --worlds w --brains r r", "ants: word 6 refused\n"),
    ("cup --worlds w --brains r b r", "ants: word 7 refused\n"),
    (
        "cup --worlds w --brains r b --window 1",
        "ants: word 7 refused\n",
    ),
    (
        "cup --worlds w --brains r b --workers 17",
        "ants: word 8 refused\n",
    ),
    (
        "cup --worlds a b c d e f g h i j k l m n o p q --brains r b",
        "ants: word 19 refused\n",
    ),
    (
        "cup --worlds w --brains a b c d e f g h i j k l m n o p q",
        "ants: word 21 refused\n",
    ),
];

// The same for other commands.
const REFUSED_OTHERS: [(&str, &str); 41] = [
    ("gen 1 --width 2", "ants: word 4 refused\n"),
    ("gen 1 --height 513", "ants: word 4 refused\n"),
    ("gen 1 --rocks 256", "ants: word 4 refused\n"),
    ("gen", "ants: word 2 refused\n"),
    ("minimise", "ants: word 2 refused\n"),
    ("minimise b b", "ants: word 3 refused\n"),
    ("asm", "ants: word 2 refused\n"),
    ("asm r r", "ants: word 3 refused\n"),
    ("view w r b --seed 1", "ants: word 5 refused\n"),
    ("view w r b k --rounds 1", "ants: word 8 refused\n"),
    ("view w r b k --surround 5", "ants: word 6 refused\n"),
    ("view w r b k --from 1000001", "ants: word 7 refused\n"),
    ("view w r b k --from 1 --from 1", "ants: word 8 refused\n"),
    ("trace w r b", "ants: word 5 refused\n"),
    ("trace w r b 16384", "ants: word 5 refused\n"),
    ("trace w r b 1 --from 1000001", "ants: word 7 refused\n"),
    ("trace w r b 1 --workers 2", "ants: word 6 refused\n"),
    ("events w r b --food 1", "ants: word 6 refused\n"),
    ("events w r b --ant 1", "ants: word 5 refused\n"),
    ("profile w r b --from 1000001", "ants: word 6 refused\n"),
    ("profile w r b --food", "ants: word 5 refused\n"),
    ("acts w r b 1", "ants: word 5 refused\n"),
    ("acts w r b --ant 16384", "ants: word 6 refused\n"),
    ("acts w r b --from 00000000001", "ants: word 6 refused\n"),
    ("acts w r b --gauntlet", "ants: word 5 refused\n"),
    ("acts w r b --from 2 --from 2", "ants: word 7 refused\n"),
    ("events w r b --from 2 --from 2", "ants: word 7 refused\n"),
    ("profile w r b --from 2 --from 2", "ants: word 7 refused\n"),
    ("same r", "ants: word 3 refused\n"),
    ("same r b w", "ants: word 4 refused\n"),
    ("workload", "ants: word 2 refused\n"),
    ("workload 1 1000001 1", "ants: word 3 refused\n"),
    ("workload 1 2", "ants: word 4 refused\n"),
    ("workload 1 2 17", "ants: word 4 refused\n"),
    ("workload 1 2 3 --stats", "ants: word 5 refused\n"),
    ("run --far", "ants: word 2 refused\n"),
    ("run w r b --far", "ants: word 6 refused\n"),
    ("run w r b --far 1", "ants: word 6 refused\n"),
    ("run w r b --far --far", "ants: word 6 refused\n"),
    ("show w 1 --far", "ants: word 4 refused\n"),
    (
        "cup --worlds w --brains r b --far",
        "ants: word 7 refused\n",
    ),
];

// The same for the options that choose what is printed.
const REFUSED_FLAGS: [(&str, &str); 6] = [
    ("asm --labels r", "ants: word 2 refused\n"),
    ("asm r --labels --labels", "ants: word 4 refused\n"),
    ("minimise b --labels", "ants: word 3 refused\n"),
    ("minimise b --states 1", "ants: word 4 refused\n"),
    ("run w r b --games", "ants: word 5 refused\n"),
    (
        "cup --worlds w --brains r b --games --games",
        "ants: word 8 refused\n",
    ),
];

// Words that are not commands, beside a world.
static NO_COMMANDS: Table<'static> = Table {
    job: Job {
        world: CLOSED,
        ..NO_JOB
    },
    given: Given::Line,
    status: Status::Words,
    rows: &REFUSED,
};

static NO_RUNS: Table<'static> = Table {
    job: Job {
        world: CLOSED,
        ..NO_JOB
    },
    given: Given::Line,
    status: Status::Words,
    rows: &REFUSED_RUNS,
};

static NO_CUPS: Table<'static> = Table {
    job: Job {
        world: CLOSED,
        ..NO_JOB
    },
    given: Given::Line,
    status: Status::Words,
    rows: &REFUSED_CUPS,
};

static NO_OTHERS: Table<'static> = Table {
    job: Job {
        world: CLOSED,
        ..NO_JOB
    },
    given: Given::Line,
    status: Status::Words,
    rows: &REFUSED_OTHERS,
};

static NO_FLAGS: Table<'static> = Table {
    job: Job {
        world: CLOSED,
        ..NO_JOB
    },
    given: Given::Line,
    status: Status::Words,
    rows: &REFUSED_FLAGS,
};

#[test]
fn the_first_word_with_which_no_command_begins_is_refused(rt: HostRuntime) -> Result<(), Fail> {
    check_rows(&rt, rt.alloc(), &NO_COMMANDS)?;
    check_rows(&rt, rt.alloc(), &NO_RUNS)?;
    check_rows(&rt, rt.alloc(), &NO_CUPS)?;
    check_rows(&rt, rt.alloc(), &NO_OTHERS)?;
    check_rows(&rt, rt.alloc(), &NO_FLAGS)
}

// Words with `--far`, and the line that names the refused one if the program may not wait for workers.
const REFUSED_HERE: [(&str, &str); 4] = [
    (
        "run w r b --seed 1 --rounds 1 --far",
        "ants: word 9 refused\n",
    ),
    (
        "run w r b --far --seed 1 --rounds 1 --far",
        "ants: word 5 refused\n",
    ),
    (
        "run w r b --seed x --rounds 1 --far",
        "ants: word 6 refused\n",
    ),
    ("brain b --far", "ants: word 3 refused\n"),
];

// Carries out these words, without any file, in a program that may not wait for workers.
fn answer_here<R: Threads + Sync>(
    rt: &R,
    alloc: Global,
    words: &[String],
) -> Result<Outcome, Fail> {
    let mut out = MemSink::with_room(alloc, ROOM, Calls::new(alloc))?;
    let mut err = MemSink::with_room(alloc, ROOM, Calls::new(alloc))?;
    let mut shelf = MemShelf::new(Files::new(alloc), Calls::new(alloc));
    let status = run_here(rt, alloc, words, &mut shelf, &mut out, &mut err, &NoGate);
    outcome_of(alloc, status, &out, &err)
}

// Carries out the words of a line there.
fn answer_line<R: Threads + Sync>(rt: &R, alloc: Global, line: &str) -> Result<Outcome, Fail> {
    let words = split(alloc, line)?;
    answer_here(rt, alloc, &words)
}

// Asserts the result of words in a program that may not wait for workers.
fn check_here<R: Threads + Sync + Abort>(
    rt: &R,
    alloc: Global,
    line: &str,
    wanted: Ending<'_>,
) -> Result<(), Fail> {
    let outcome = answer_line(rt, alloc, line)?;
    check_line(rt, line, ending_of(&outcome), wanted);
    Ok(())
}

// Asserts how the words of a line ended.
fn check_line<R: Abort>(rt: &R, line: &str, ending: Ending<'_>, wanted: Ending<'_>) {
    assert_eq!(rt; ending, wanted, "at {line:?}");
}

// Asserts which word of each row is refused in a program that may not wait for workers.
fn check_rows_here<R: Threads + Sync + Abort>(
    rt: &R,
    alloc: Global,
    rows: &[(&str, &str)],
) -> Result<(), Fail> {
    for (line, wanted) in rows {
        check_here(rt, alloc, line, stopped(Status::Words, wanted))?;
    }
    Ok(())
}

#[test]
fn far_is_no_option_where_nobody_may_wait(rt: HostRuntime) -> Result<(), Fail> {
    check_rows_here(&rt, rt.alloc(), &REFUSED_HERE)
}
