// The command `acts`.
use crate::commands::{CLOSING, CutRun, Given, Job, NO_JOB, Table, check_cuts, check_rows};
use ant_commands::Status;
use std::test::Fail;

// A game in whose first round ant 1 steps beside ant 2, which then has five foes around it.
const AMBUSH: Job<'static> = Job {
    line: "",
    world: CLOSING,
    red: "Flip 2 0 0",
    black: "Move 0 0",
    ..NO_JOB
};

// Words, and what the ants execute: in no round; in the first round, where red ant 2 is dead before its turn and only
// black ant 1 can move; one ant from a round on; an ant that is dead; an ant that doesn't rest; an ant that survives
// because six foes must surround it; and ants that never existed, even if the first round is above the last. The first
// two numbers of this seed are odd and even.
const ACTS: [(&str, &str); 8] = [
    ("acts w r b --seed 12345 --rounds 0", "random seed: 12345\n"),
    (
        "acts w r b --rounds 1 --seed 12345",
        "random seed: 12345\nround 1, black ant 0: on (3, 2), dir 0, food 0, state 0: Move 0 0: unmet\nround 1, black ant 1: on (1, 3), dir 0, food 0, state 0: Move 0 0: met\nround 1, black ant 3: on (4, 3), dir 0, food 0, state 0: Move 0 0: unmet\nround 1, red ant 4: on (1, 4), dir 0, food 0, state 0: Flip 2 0 0: unmet\nround 1, black ant 5: on (3, 4), dir 0, food 0, state 0: Move 0 0: unmet\nround 1, black ant 6: on (4, 4), dir 0, food 0, state 0: Move 0 0: unmet\n",
    ),
    (
        "acts w r b --ant 4 --rounds 2 --from 2 --seed 12345",
        "random seed: 12345\nround 2, red ant 4: on (1, 4), dir 0, food 0, state 0: Flip 2 0 0: met\n",
    ),
    (
        "acts w r b --ant 2 --rounds 9 --seed 12345",
        "random seed: 12345\n",
    ),
    (
        "acts - r b --rest 0 --corpse 0 --from 2 --ant 1 --rounds 2 --seed 7",
        "random seed: 7\nround 2, black ant 1: on (2, 3), dir 0, food 0, state 0: Move 0 0: met\n",
    ),
    (
        "acts w r b --surround 6 --ant 2 --rounds 1 --seed 12345",
        "random seed: 12345\nround 1, red ant 2: on (3, 3), dir 0, food 0, state 0: Flip 2 0 0: unmet\n",
    ),
    (
        "acts w r b --ant 7 --rounds 9 --from 10 --seed 12345",
        "random seed: 12345\nno ant of id 7\n",
    ),
    (
        "acts w r b --ant 16383 --rounds 0 --seed 0",
        "random seed: 0\nno ant of id 16383\n",
    ),
];

// Texts that are not worlds.
const REFUSED: [(&str, &str); 1] = [("2", "ants: w: bad width\n")];

static TOLD_ACTS: Table<'static> = Table {
    job: AMBUSH,
    given: Given::Line,
    status: Status::Done,
    rows: &ACTS,
};

static NO_ACTS: Table<'static> = Table {
    job: Job {
        line: "acts w r b --seed 12345 --rounds 5",
        ..AMBUSH
    },
    given: Given::World,
    status: Status::Input,
    rows: &REFUSED,
};

#[test]
fn what_ants_execute_is_told_by_the_words(rt: HostRuntime) -> Result<(), Fail> {
    check_rows(&rt, rt.alloc(), &TOLD_ACTS)?;
    check_rows(&rt, rt.alloc(), &NO_ACTS)
}

// The output has room only up to the words of the first line.
static NO_ROOM: [CutRun<'static>; 1] = [CutRun {
    job: Job {
        line: "acts w r b --ant 1 --seed 12345 --rounds 5",
        room: 89,
        ..AMBUSH
    },
    held: "random seed: 12345\nround 1, black ant 1: on (1, 3), dir 0, food 0, state 0: Move 0 0: met",
    line: "ants: output failed\n",
}];

#[test]
fn what_ants_execute_may_be_cut(rt: HostRuntime) -> Result<(), Fail> {
    check_cuts(&rt, rt.alloc(), &NO_ROOM)
}
