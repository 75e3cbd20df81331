// The commands `events` and `profile`.
use crate::commands::{CLOSING, CutRun, Given, Job, NO_JOB, Table, check_cuts, check_rows};
use ant_commands::Status;
use std::test::Fail;

// A game in whose first round ant 1 steps beside ant 2, which then has five foes around it.
const AMBUSH: Job<'static> = Job {
    line: "",
    world: CLOSING,
    red: "Flip 2 0 0",
    black: "Move 0 0",
    ..NO_JOB
};

// A red ant beside a particle: it takes the particle home, drops it there in round 7 and takes it away again in round
// 8.
const FETCH: Job<'static> = Job {
    line: "",
    world: "4\n3\n# # # #\n # + 1 #\n# # # #\n",
    red: "Move 1 1\nPickUp 2 2\nTurn Left 3\nTurn Left 4\nTurn Left 5\nMove 6 6\nDrop 7\nPickUp 8 8\nDrop 8",
    black: "Drop 0",
    ..NO_JOB
};

// Words, and what is printed of their game: deaths and scores; with food too; and from a round on.
const FETCHED: [(&str, &str); 6] = [
    (
        "events w r b --rest 0 --seed 12345 --rounds 8",
        "random seed: 12345\nround 7, red ant 0: score: red 1 black 0\nround 8, red ant 0: score: red 0 black 0\n",
    ),
    (
        "events w r b --food --rest 0 --seed 12345 --rounds 8",
        "random seed: 12345\nround 2, red ant 0: state 1 takes food on (2, 1)\nround 7, red ant 0: state 6 drops food on (1, 1), red hill\nround 7, red ant 0: score: red 1 black 0\nround 8, red ant 0: state 7 takes food on (1, 1), red hill\nround 8, red ant 0: score: red 0 black 0\n",
    ),
    (
        "events w r b --from 0 --food --rest 0 --seed 12345 --rounds 2",
        "random seed: 12345\nround 2, red ant 0: state 1 takes food on (2, 1)\n",
    ),
    (
        "events w r b --food --rest 0 --seed 12345 --from 3 --rounds 7",
        "random seed: 12345\nround 7, red ant 0: state 6 drops food on (1, 1), red hill\nround 7, red ant 0: score: red 1 black 0\n",
    ),
    (
        "events w r b --from 8 --rest 0 --food --seed 12345 --rounds 8",
        "random seed: 12345\nround 8, red ant 0: state 7 takes food on (1, 1), red hill\nround 8, red ant 0: score: red 0 black 0\n",
    ),
    (
        "events w r b --rest 0 --food --seed 12345 --rounds 8 --from 9",
        "random seed: 12345\n",
    ),
];

// Words, and what is printed: no round; a death and the score after it; a death that leaves no food; a death that
// leaves more food; six foes, which no ant has; and the game from its first and from its second round on.
const EVENTS: [(&str, &str); 7] = [
    (
        "events w r b --seed 12345 --rounds 0",
        "random seed: 12345\n",
    ),
    (
        "events w r b --rounds 9 --seed 12345",
        "random seed: 12345\nround 1, black ant 1: red ant 2 dies on (3, 3)\nround 1, black ant 1: score: red 3 black 0\n",
    ),
    (
        "events w r b --corpse 0 --rounds 9 --seed 12345",
        "random seed: 12345\nround 1, black ant 1: red ant 2 dies on (3, 3)\n",
    ),
    (
        "events - r b --corpse 9 --rest 3 --rounds 1 --seed 7",
        "random seed: 7\nround 1, black ant 1: red ant 2 dies on (3, 3)\nround 1, black ant 1: score: red 9 black 0\n",
    ),
    (
        "events w r b --surround 6 --rounds 9 --seed 12345",
        "random seed: 12345\n",
    ),
    (
        "events w r b --from 1 --rounds 9 --seed 12345",
        "random seed: 12345\nround 1, black ant 1: red ant 2 dies on (3, 3)\nround 1, black ant 1: score: red 3 black 0\n",
    ),
    (
        "events w r b --rounds 9 --seed 12345 --from 2",
        "random seed: 12345\n",
    ),
];

// The first two numbers of this seed are odd and even. Red ant 2 dies before its turn. Black ant 1 rests after its
// step, or continues at once. The other black ants are blocked. Turns before the first reported round aren't counted.
const PROFILES: [(&str, &str); 7] = [
    (
        "profile w r b --seed 12345 --rounds 0",
        "random seed: 12345\nred 0: 0 times, 0 met: Flip 2 0 0\nblack 0: 0 times, 0 met: Move 0 0\n",
    ),
    (
        "profile w r b --rounds 1 --seed 12345",
        "random seed: 12345\nred 0: 1 times, 0 met: Flip 2 0 0\nblack 0: 5 times, 1 met: Move 0 0\n",
    ),
    (
        "profile w r b --rounds 2 --seed 12345",
        "random seed: 12345\nred 0: 2 times, 1 met: Flip 2 0 0\nblack 0: 9 times, 1 met: Move 0 0\n",
    ),
    (
        "profile w r b --rest 0 --rounds 2 --seed 12345",
        "random seed: 12345\nred 0: 2 times, 1 met: Flip 2 0 0\nblack 0: 10 times, 2 met: Move 0 0\n",
    ),
    (
        "profile w r b --surround 6 --corpse 0 --rounds 1 --seed 12345",
        "random seed: 12345\nred 0: 2 times, 1 met: Flip 2 0 0\nblack 0: 5 times, 1 met: Move 0 0\n",
    ),
    (
        "profile w r b --from 2 --rounds 2 --seed 12345",
        "random seed: 12345\nred 0: 1 times, 1 met: Flip 2 0 0\nblack 0: 4 times, 0 met: Move 0 0\n",
    ),
    (
        "profile w r b --rounds 2 --seed 12345 --from 3",
        "random seed: 12345\nred 0: 0 times, 0 met: Flip 2 0 0\nblack 0: 0 times, 0 met: Move 0 0\n",
    ),
];

// Texts that are not worlds.
const REFUSED: [(&str, &str); 1] = [("2", "ants: w: bad width\n")];

static TOLD_EVENTS: Table<'static> = Table {
    job: AMBUSH,
    given: Given::Line,
    status: Status::Done,
    rows: &EVENTS,
};

static TOLD_FOOD: Table<'static> = Table {
    job: FETCH,
    given: Given::Line,
    status: Status::Done,
    rows: &FETCHED,
};

static TOLD_PROFILES: Table<'static> = Table {
    job: AMBUSH,
    given: Given::Line,
    status: Status::Done,
    rows: &PROFILES,
};

static NO_EVENTS: Table<'static> = Table {
    job: Job {
        line: "events w r b --seed 12345 --rounds 5",
        ..AMBUSH
    },
    given: Given::World,
    status: Status::Input,
    rows: &REFUSED,
};

static NO_PROFILE: Table<'static> = Table {
    job: Job {
        line: "profile w r b --seed 12345 --rounds 5",
        ..AMBUSH
    },
    given: Given::World,
    status: Status::Input,
    rows: &REFUSED,
};

#[test]
fn events_are_told_by_their_words(rt: HostRuntime) -> Result<(), Fail> {
    check_rows(&rt, rt.alloc(), &TOLD_EVENTS)?;
    check_rows(&rt, rt.alloc(), &TOLD_FOOD)?;
    check_rows(&rt, rt.alloc(), &NO_EVENTS)
}

#[test]
fn a_profile_is_told_by_its_words(rt: HostRuntime) -> Result<(), Fail> {
    check_rows(&rt, rt.alloc(), &TOLD_PROFILES)?;
    check_rows(&rt, rt.alloc(), &NO_PROFILE)
}

// Events for which the output has room up to the end of the first line's words, and a profile with room for its red
// brain.
static NO_ROOM: [CutRun<'static>; 2] = [
    CutRun {
        job: Job {
            line: "events w r b --seed 12345 --rounds 5",
            room: 65,
            ..AMBUSH
        },
        held: "random seed: 12345\nround 1, black ant 1: red ant 2 dies on (3, 3)",
        line: "ants: output failed\n",
    },
    CutRun {
        job: Job {
            line: "profile w r b --seed 12345 --rounds 1",
            room: 53,
            ..AMBUSH
        },
        held: "random seed: 12345\nred 0: 1 times, 0 met: Flip 2 0 0\n",
        line: "ants: output failed\n",
    },
];

#[test]
fn what_is_told_may_be_cut(rt: HostRuntime) -> Result<(), Fail> {
    check_cuts(&rt, rt.alloc(), &NO_ROOM)
}
