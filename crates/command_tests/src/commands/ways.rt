// The command `trace`.
use crate::commands::{CLOSING, CutRun, Given, Job, NO_JOB, Table, check_cuts, check_rows};
use ant_commands::Status;
use std::test::Fail;

// A game in whose first round ant 1 steps beside ant 2, which then has five foes around it.
const AMBUSH: Job<'static> = Job {
    line: "",
    world: CLOSING,
    red: "Flip 2 0 0",
    black: "Move 0 0",
    ..NO_JOB
};

// Words, and what is printed of an ant: up to its death; from a round on; by other numbers of the rules; on a corpse,
// which it reaches as soon as it has rested; in no round; and of an id that never existed.
const WAYS: [(&str, &str); 10] = [
    (
        "trace w r b 2 --seed 12345 --rounds 5",
        "random seed: 12345\nround 0: cell (3, 3): red hill; red ant of id 2, dir 0, food 0, state 0, resting 0\nround 1: dead\n",
    ),
    (
        "trace w r b 1 --rounds 2 --from 1 --seed 12345",
        "random seed: 12345\nround 1: cell (2, 3): black ant of id 1, dir 0, food 0, state 0, resting 14\nround 2: cell (2, 3): black ant of id 1, dir 0, food 0, state 0, resting 13\n",
    ),
    (
        "trace w r b 01 --rest 3 --rounds 1 --from 1 --seed 12345",
        "random seed: 12345\nround 1: cell (2, 3): black ant of id 1, dir 0, food 0, state 0, resting 3\n",
    ),
    (
        "trace w r b 2 --surround 6 --corpse 0 --rounds 1 --from 1 --seed 12345",
        "random seed: 12345\nround 1: cell (3, 3): red hill; red ant of id 2, dir 0, food 0, state 0, resting 0\n",
    ),
    (
        "trace w r b 1 --rounds 16 --from 16 --seed 12345",
        "random seed: 12345\nround 16: cell (3, 3): 3 food; red hill; black ant of id 1, dir 0, food 0, state 0, resting 14\n",
    ),
    (
        "trace w r b 1 --corpse 9 --rest 3 --rounds 5 --from 4 --seed 12345",
        "random seed: 12345\nround 4: cell (2, 3): black ant of id 1, dir 0, food 0, state 0, resting 0\nround 5: cell (3, 3): 9 food; red hill; black ant of id 1, dir 0, food 0, state 0, resting 3\n",
    ),
    (
        "trace w r b 1 --corpse 0 --rest 0 --rounds 2 --from 2 --seed 12345",
        "random seed: 12345\nround 2: cell (3, 3): red hill; black ant of id 1, dir 0, food 0, state 0, resting 0\n",
    ),
    (
        "trace w r b 1 --rounds 1 --from 2 --seed 12345",
        "random seed: 12345\n",
    ),
    (
        "trace w r b 7 --rounds 9 --from 10 --seed 12345",
        "random seed: 12345\nno ant of id 7\n",
    ),
    (
        "trace w r b 16383 --rounds 0 --seed 0",
        "random seed: 0\nno ant of id 16383\n",
    ),
];

// Texts that are not worlds.
const REFUSED: [(&str, &str); 1] = [("2", "ants: w: bad width\n")];

static TOLD_WAYS: Table<'static> = Table {
    job: AMBUSH,
    given: Given::Line,
    status: Status::Done,
    rows: &WAYS,
};

static REFUSED_WORLDS: Table<'static> = Table {
    job: Job {
        line: "trace w r b 2 --seed 12345 --rounds 5",
        ..AMBUSH
    },
    given: Given::World,
    status: Status::Input,
    rows: &REFUSED,
};

#[test]
fn an_ants_way_is_told_by_its_words(rt: HostRuntime) -> Result<(), Fail> {
    check_rows(&rt, rt.alloc(), &TOLD_WAYS)?;
    check_rows(&rt, rt.alloc(), &REFUSED_WORLDS)
}

// A trace for which the output has only room for the words of the seed.
static NO_ROOM: [CutRun<'static>; 1] = [CutRun {
    job: Job {
        line: "trace w r b 7 --seed 12345 --rounds 5",
        room: 18,
        ..AMBUSH
    },
    held: "random seed: 12345",
    line: "ants: output failed\n",
}];

#[test]
fn a_way_that_is_cut_is_a_failed_output(rt: HostRuntime) -> Result<(), Fail> {
    check_cuts(&rt, rt.alloc(), &NO_ROOM)
}
