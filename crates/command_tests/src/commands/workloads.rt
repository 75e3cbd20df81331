// The command `workload`.
use crate::commands::{Given, NO_JOB, Table, check_rows};
use ant_commands::Status;
use std::test::Fail;

// The world of the seed 12345 before a round: two hills of 127 cells, and eleven blobs of 25 cells with 5 particles
// each.
pub const UNTOUCHED: &str = "workload seed 12345 rounds 0\n\
    ants 254\n\
    food 1375\n\
    alive red 127 black 127\n\
    score: red 0 black 0\n\
    turns 0 taken 0 redone 0\n";

// The world of the seed 55 after 100 rounds, as another program plays them too: two black ants died, and there is food
// on the red hill.
const PLAYED: &str = "workload seed 55 rounds 100\n\
    ants 254\n\
    food 1375\n\
    alive red 127 black 125\n\
    score: red 6 black 0\n\
    turns 25400 taken 25377 redone 23\n";

// The world of the seed 12345 after a thousand rounds, as another program plays them too: no ant died, and there is no
// food on a hill.
const THOUSAND: &str = "workload seed 12345 rounds 1000\n\
    ants 254\n\
    food 1375\n\
    alive red 127 black 127\n\
    score: red 0 black 0\n\
    turns 254000 taken 253622 redone 378\n";

// Workloads, and what is printed of them.
const PLAYED_OUT: [(&str, &str); 4] = [
    ("workload 12345 0 4", UNTOUCHED),
    ("workload 0000012345 00 16", UNTOUCHED),
    ("workload 55 100 1", PLAYED),
    ("workload 55 100 3", PLAYED),
];

// A thousand rounds by one worker, by four and by sixteen.
const THOUSANDS: [(&str, &str); 3] = [
    ("workload 12345 1000 1", THOUSAND),
    ("workload 12345 1000 4", THOUSAND),
    ("workload 12345 1000 16", THOUSAND),
];

static WORKLOADS: Table<'static> = Table {
    job: NO_JOB,
    given: Given::Line,
    status: Status::Done,
    rows: &PLAYED_OUT,
};

static LONG_WORKLOADS: Table<'static> = Table {
    job: NO_JOB,
    given: Given::Line,
    status: Status::Done,
    rows: &THOUSANDS,
};

#[test]
fn a_workload_tells_of_its_world_and_its_game(rt: HostRuntime) -> Result<(), Fail> {
    check_rows(&rt, rt.alloc(), &WORKLOADS)
}

#[test]
fn a_long_workload_is_the_same_by_any_number_of_workers(rt: HostRuntime) -> Result<(), Fail> {
    check_rows(&rt, rt.alloc(), &LONG_WORKLOADS)
}
