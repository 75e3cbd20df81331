// The command `same`.
use crate::commands::{CutRun, Given, Job, NO_JOB, Table, check_cuts, check_rows, check_tables};
use ant_commands::Status;
use std::test::Fail;

// A brain of one state beside another.
const COMPARE: Job<'static> = Job {
    line: "same r b",
    black: "Drop 0",
    ..NO_JOB
};

// First brains, and the result of the comparison.
const COMPARED: [(&str, &str); 4] = [
    ("Drop 0", "same\n"),
    ("Drop 1\nDrop 0", "same\n"),
    (
        "Move 0 0",
        "different after 0 answers\nfirst 0: Move 0 0\nsecond 0: Drop 0\n",
    ),
    (
        "drop 2\nDrop 0\nTurn Left 0",
        "different after 1 answers\nfirst 2: Turn Left 0\nsecond 0: Drop 0\n",
    ),
];

// First texts that are not brains; the second file isn't fetched then.
const REFUSED: [(&str, &str); 2] = [
    ("", "ants: r: no instruction\n"),
    ("Jump 0", "ants: r: line 1: unknown word\n"),
];

static COMPARED_BRAINS: Table<'static> = Table {
    job: COMPARE,
    given: Given::Red,
    status: Status::Done,
    rows: &COMPARED,
};

static REFUSED_BRAINS: Table<'static> = Table {
    job: COMPARE,
    given: Given::Red,
    status: Status::Input,
    rows: &REFUSED,
};

// Second texts that are not brains, after a first that is one.
const LATER: [(&str, &str); 1] = [("Drop 1", "ants: b: line 1: no such state 1\n")];

static REFUSED_SECONDS: Table<'static> = Table {
    job: Job {
        red: "Drop 0",
        ..COMPARE
    },
    given: Given::Black,
    status: Status::Input,
    rows: &LATER,
};

#[test]
fn two_brains_are_compared(rt: HostRuntime) -> Result<(), Fail> {
    check_rows(&rt, rt.alloc(), &COMPARED_BRAINS)?;
    check_rows(&rt, rt.alloc(), &REFUSED_BRAINS)?;
    check_rows(&rt, rt.alloc(), &REFUSED_SECONDS)
}

// The way to a difference.
const WAY: Job<'static> = Job {
    line: "same r b --way",
    ..COMPARE
};

const WAYS: [(&str, &str); 3] = [
    ("Drop 1\nDrop 0", "same\n"),
    (
        "Move 0 0",
        "different after 0 answers\nfirst 0: Move 0 0\nsecond 0: Drop 0\n",
    ),
    (
        "drop 2\nDrop 0\nTurn Left 0",
        "different after 1 answers\nfirst 0: Drop 2, second 0: Drop 0: met\nfirst 2: Turn Left 0\nsecond 0: Drop 0\n",
    ),
];

// First brains beside one that moves. If the answer is `met`, both move again, until both get `unmet`.
const LONGER_WAYS: [(&str, &str); 1] = [(
    "Move 0 1\nTurn Left 2\nDrop 0",
    "different after 2 answers\nfirst 0: Move 0 1, second 0: Move 0 2: unmet\nfirst 1: Turn Left 2, second 2: Turn Left 1: met\nfirst 2: Drop 0\nsecond 1: Move 0 0\n",
)];

static WAYS_TO_DIFFERENCES: [Table<'static>; 3] = [
    Table {
        job: WAY,
        given: Given::Red,
        status: Status::Done,
        rows: &WAYS,
    },
    Table {
        job: Job {
            black: "Move 0 2\nMove 0 0\nTurn Left 1",
            ..WAY
        },
        given: Given::Red,
        status: Status::Done,
        rows: &LONGER_WAYS,
    },
    Table {
        job: WAY,
        given: Given::Red,
        status: Status::Input,
        rows: &REFUSED,
    },
];

#[test]
fn the_way_to_a_difference_is_told(rt: HostRuntime) -> Result<(), Fail> {
    check_tables(&rt, rt.alloc(), &WAYS_TO_DIFFERENCES)
}

// A comparison for which the output has room for only 17 bytes.
static NO_ROOM: [CutRun<'static>; 1] = [CutRun {
    job: Job {
        red: "Move 0 0",
        room: 17,
        ..COMPARE
    },
    held: "different after 0",
    line: "ants: output failed\n",
}];

#[test]
fn a_comparison_that_is_cut_is_a_failed_output(rt: HostRuntime) -> Result<(), Fail> {
    check_cuts(&rt, rt.alloc(), &NO_ROOM)
}
