// The options of `cup`: several seeds, leads, and the games of the first brain alone.
use crate::commands::{CLOSED, CLOSING, Given, Job, NO_JOB, Table, check_rows, check_tables};
use ant_commands::Status;
use std::test::Fail;

// On w, c and d as red win 3 to 0 against a, since a red ant dies on its hill. No other game on w and no game on x
// brings food. The random numbers don't matter.
const STEPPING: Job<'static> = Job {
    world: CLOSING,
    red: "Flip 2 0 0",
    black: "Move 0 0",
    more: &[
        ("x", CLOSED),
        ("a", "Move 0 0"),
        ("c", "Flip 2 0 0"),
        ("d", "Flip 2 0 0"),
        ("half", "Move 0"),
        ("cut", "4\n4\n# # # #\n"),
    ],
    ..NO_JOB
};

// The last seed and the one after it; one seed that was given; and two seeds for the first brain's games on two worlds.
const WITH_GAMES: [(&str, &str); 5] = [
    (
        "cup --worlds w --brains a c --games --seed 4294967295 --seeds 2 --rounds 1",
        "game 1: red 0 black 0, seed 4294967295, w, a, c\ngame 2: red 3 black 0, seed 4294967295, w, c, a\n\
        game 3: red 0 black 0, seed 0, w, a, c\ngame 4: red 3 black 0, seed 0, w, c, a\n\
        6 points: c (2 won, 2 drawn, 0 lost)\n2 points: a (0 won, 2 drawn, 2 lost)\n",
    ),
    (
        "cup --worlds w --brains a c --workers 2 --games --seed 4294967295 --seeds 2 --rounds 1 --leads",
        "game 1: red 0 black 0, seed 4294967295, w, a, c\ngame 2: red 3 black 0, seed 4294967295, w, c, a\n\
        game 3: red 0 black 0, seed 0, w, a, c\ngame 4: red 3 black 0, seed 0, w, c, a\n\
        6 points: c (2 won, 2 drawn, 0 lost), lead 6\n2 points: a (0 won, 2 drawn, 2 lost), lead -6\n",
    ),
    (
        "cup --worlds w --brains a c --seeds 1 --games --seed 007 --rounds 1",
        "game 1: red 0 black 0, seed 7, w, a, c\ngame 2: red 3 black 0, seed 7, w, c, a\n\
        3 points: c (1 won, 1 drawn, 0 lost)\n1 points: a (0 won, 1 drawn, 1 lost)\n",
    ),
    (
        "cup --worlds w x --brains a c d --gauntlet --games --seed 7 --seeds 2 --rounds 1 --leads --workers 16",
        "game 1: red 0 black 0, seed 7, w, a, c\ngame 2: red 3 black 0, seed 7, w, c, a\n\
        game 3: red 0 black 0, seed 7, w, a, d\ngame 4: red 3 black 0, seed 7, w, d, a\n\
        game 5: red 0 black 0, seed 8, w, a, c\ngame 6: red 3 black 0, seed 8, w, c, a\n\
        game 7: red 0 black 0, seed 8, w, a, d\ngame 8: red 3 black 0, seed 8, w, d, a\n\
        game 9: red 0 black 0, seed 7, x, a, c\ngame 10: red 0 black 0, seed 7, x, c, a\n\
        game 11: red 0 black 0, seed 7, x, a, d\ngame 12: red 0 black 0, seed 7, x, d, a\n\
        game 13: red 0 black 0, seed 8, x, a, c\ngame 14: red 0 black 0, seed 8, x, c, a\n\
        game 15: red 0 black 0, seed 8, x, a, d\ngame 16: red 0 black 0, seed 8, x, d, a\n\
        12 points: a (0 won, 12 drawn, 4 lost), lead -12\n10 points: c (2 won, 6 drawn, 0 lost), lead 6\n10 points: d (2 won, 6 drawn, 0 lost), lead 6\n",
    ),
    (
        "cup --worlds w --brains a c d --rounds 1 --seed 3 --games --gauntlet",
        "game 1: red 0 black 0, w, a, c\ngame 2: red 3 black 0, w, c, a\n\
        game 3: red 0 black 0, w, a, d\ngame 4: red 3 black 0, w, d, a\n\
        3 points: c (1 won, 1 drawn, 0 lost)\n3 points: d (1 won, 1 drawn, 0 lost)\n2 points: a (0 won, 2 drawn, 2 lost)\n",
    ),
];

// All options: three brains on two worlds, with the last seed and the one after it. The games are listed world by
// world, then seed by seed, and for each seed in the usual order. A world that is named twice is played twice, each
// time with each seed.
const IN_ORDER: [(&str, &str); 2] = [
    (
        "cup --worlds w x --brains a c d --games --seed 4294967295 --seeds 2 --rounds 1 --leads --workers 2",
        "game 1: red 0 black 0, seed 4294967295, w, a, c\ngame 2: red 3 black 0, seed 4294967295, w, c, a\n\
        game 3: red 0 black 0, seed 4294967295, w, a, d\ngame 4: red 3 black 0, seed 4294967295, w, d, a\n\
        game 5: red 0 black 0, seed 4294967295, w, c, d\ngame 6: red 0 black 0, seed 4294967295, w, d, c\n\
        game 7: red 0 black 0, seed 0, w, a, c\ngame 8: red 3 black 0, seed 0, w, c, a\n\
        game 9: red 0 black 0, seed 0, w, a, d\ngame 10: red 3 black 0, seed 0, w, d, a\n\
        game 11: red 0 black 0, seed 0, w, c, d\ngame 12: red 0 black 0, seed 0, w, d, c\n\
        game 13: red 0 black 0, seed 4294967295, x, a, c\ngame 14: red 0 black 0, seed 4294967295, x, c, a\n\
        game 15: red 0 black 0, seed 4294967295, x, a, d\ngame 16: red 0 black 0, seed 4294967295, x, d, a\n\
        game 17: red 0 black 0, seed 4294967295, x, c, d\ngame 18: red 0 black 0, seed 4294967295, x, d, c\n\
        game 19: red 0 black 0, seed 0, x, a, c\ngame 20: red 0 black 0, seed 0, x, c, a\n\
        game 21: red 0 black 0, seed 0, x, a, d\ngame 22: red 0 black 0, seed 0, x, d, a\n\
        game 23: red 0 black 0, seed 0, x, c, d\ngame 24: red 0 black 0, seed 0, x, d, c\n\
        18 points: c (2 won, 14 drawn, 0 lost), lead 6\n18 points: d (2 won, 14 drawn, 0 lost), lead 6\n12 points: a (0 won, 12 drawn, 4 lost), lead -12\n",
    ),
    (
        "cup --worlds w w --brains a c --rounds 1 --seed 9 --seeds 2 --games",
        "game 1: red 0 black 0, seed 9, w, a, c\ngame 2: red 3 black 0, seed 9, w, c, a\n\
        game 3: red 0 black 0, seed 10, w, a, c\ngame 4: red 3 black 0, seed 10, w, c, a\n\
        game 5: red 0 black 0, seed 9, w, a, c\ngame 6: red 3 black 0, seed 9, w, c, a\n\
        game 7: red 0 black 0, seed 10, w, a, c\ngame 8: red 3 black 0, seed 10, w, c, a\n\
        12 points: c (4 won, 4 drawn, 0 lost)\n4 points: a (0 won, 4 drawn, 4 lost)\n",
    ),
];

// Only standings: the games of three seeds on each of two worlds by 1, 2 and 16 workers; a world that is named twice; a
// gauntlet of two; a lead of 0; and the largest number of seeds.
const STANDINGS: [(&str, &str); 7] = [
    (
        "cup --worlds w x --brains a c d --seed 1 --seeds 3 --rounds 1 --leads",
        "27 points: c (3 won, 21 drawn, 0 lost), lead 9\n27 points: d (3 won, 21 drawn, 0 lost), lead 9\n18 points: a (0 won, 18 drawn, 6 lost), lead -18\n",
    ),
    (
        "cup --worlds w x --brains a c d --seed 1 --workers 2 --seeds 3 --rounds 1 --leads",
        "27 points: c (3 won, 21 drawn, 0 lost), lead 9\n27 points: d (3 won, 21 drawn, 0 lost), lead 9\n18 points: a (0 won, 18 drawn, 6 lost), lead -18\n",
    ),
    (
        "cup --worlds w x --brains a c d --leads --seeds 3 --seed 1 --workers 16 --rounds 1",
        "27 points: c (3 won, 21 drawn, 0 lost), lead 9\n27 points: d (3 won, 21 drawn, 0 lost), lead 9\n18 points: a (0 won, 18 drawn, 6 lost), lead -18\n",
    ),
    (
        "cup --worlds w w --brains a c --seed 1 --seeds 2 --rounds 1",
        "12 points: c (4 won, 4 drawn, 0 lost)\n4 points: a (0 won, 4 drawn, 4 lost)\n",
    ),
    (
        "cup --worlds w --brains a c --gauntlet --seed 1 --rounds 1",
        "3 points: c (1 won, 1 drawn, 0 lost)\n1 points: a (0 won, 1 drawn, 1 lost)\n",
    ),
    (
        "cup --worlds x --brains a c --leads --seed 1 --rounds 1",
        "2 points: a (0 won, 2 drawn, 0 lost), lead 0\n2 points: c (0 won, 2 drawn, 0 lost), lead 0\n",
    ),
    (
        "cup --worlds x --brains c a --seed 4294967000 --seeds 1000 --rounds 0 --workers 16",
        "2000 points: c (0 won, 2000 drawn, 0 lost)\n2000 points: a (0 won, 2000 drawn, 0 lost)\n",
    ),
];

// In round 2, player r moves each ant ahead that draws a multiple of 2932. Player b doesn't move.
const DRAWING: Job<'static> = Job {
    world: CLOSING,
    red: "Flip 2932 1 2\nMove 1 1\nDrop 2",
    black: "Drop 0",
    ..NO_JOB
};

// If r is black, its ants 0, 1, 3, 5 and 6 draw the first five numbers. For seed 12345 they are 7193, 2932, 10386, 5575
// and 100, so only ant 1 steps ahead, and the red ant 2 dies on its hill. For 12344 they are 701, 8750, 14925, 11481
// and 11280, and for 12346 they are 13685, 13498, 5847, 16053 and 5304: no ant steps. If r is red, an ant that steps
// kills none.
const DRAWN: [(&str, &str); 3] = [
    (
        "cup --worlds w --brains r b --seed 12345 --seeds 2 --rounds 2 --games",
        "game 1: red 0 black 0, seed 12345, w, r, b\ngame 2: red 3 black 0, seed 12345, w, b, r\n\
        game 3: red 0 black 0, seed 12346, w, r, b\ngame 4: red 0 black 0, seed 12346, w, b, r\n\
        5 points: b (1 won, 3 drawn, 0 lost)\n3 points: r (0 won, 3 drawn, 1 lost)\n",
    ),
    (
        "cup --worlds w --brains r b --seed 12344 --rounds 2 --seeds 2 --games --workers 16",
        "game 1: red 0 black 0, seed 12344, w, r, b\ngame 2: red 0 black 0, seed 12344, w, b, r\n\
        game 3: red 0 black 0, seed 12345, w, r, b\ngame 4: red 3 black 0, seed 12345, w, b, r\n\
        5 points: b (1 won, 3 drawn, 0 lost)\n3 points: r (0 won, 3 drawn, 1 lost)\n",
    ),
    (
        "cup --worlds w --brains r b --seed 12344 --rounds 2 --seeds 3 --leads --workers 2",
        "7 points: b (1 won, 5 drawn, 0 lost), lead 3\n5 points: r (0 won, 5 drawn, 1 lost), lead -3\n",
    ),
];

// Numbers of seeds that are refused, and options that are given twice or to another command.
const REFUSED: [(&str, &str); 10] = [
    (
        "cup --worlds w --brains a c --seeds 0 --seed 1 --rounds 1",
        "ants: word 8 refused\n",
    ),
    (
        "cup --worlds w --brains a c --seeds 1001 --seed 1 --rounds 1",
        "ants: word 8 refused\n",
    ),
    (
        "cup --worlds w --brains a c --seed 1 --rounds 1 --seeds 00000000002",
        "ants: word 12 refused\n",
    ),
    (
        "cup --worlds w --brains a c --seeds 2 --rounds 1",
        "ants: word 11 refused\n",
    ),
    (
        "cup --worlds w --brains a c --seeds 2 --seeds 2",
        "ants: word 9 refused\n",
    ),
    (
        "cup --worlds w --brains a c --gauntlet --gauntlet",
        "ants: word 8 refused\n",
    ),
    (
        "cup --worlds w --brains a c --leads 1",
        "ants: word 8 refused\n",
    ),
    (
        "cup --worlds w --brains a c --gauntlet 1",
        "ants: word 8 refused\n",
    ),
    (
        "cup --worlds w --brains a c --leads --leads",
        "ants: word 8 refused\n",
    ),
    ("run w r b --seeds 2", "ants: word 5 refused\n"),
];

// With each option, the file at fault is named, and no game is printed. In a gauntlet too, each brain is read.
const AT_FAULT: [(&str, &str); 3] = [
    (
        "cup --worlds w cut --brains a c --seed 1 --rounds 1 --seeds 2 --games --leads",
        "ants: cut: row 1: missing\n",
    ),
    (
        "cup --worlds w --brains a c half --gauntlet --seed 1 --rounds 1 --seeds 1000 --games",
        "ants: half: line 1: missing token\n",
    ),
    (
        "cup --worlds w w --brains half c --leads --seeds 2 --seed 1 --rounds 0",
        "ants: half: line 1: missing token\n",
    ),
];

// Three files are read, each once, whatever the number of seeds. A fourth read would fail, but none is made.
const READ_ONCE: [(&str, &str); 1] = [(
    "cup --worlds w --brains a c --seed 1 --seeds 3 --rounds 1 --workers 2",
    "9 points: c (3 won, 3 drawn, 0 lost)\n3 points: a (0 won, 3 drawn, 3 lost)\n",
)];

// The third read fails.
const UNREAD: [(&str, &str); 1] = [(
    "cup --worlds w --brains a c --seed 1 --seeds 3 --rounds 1 --games",
    "ants: c: not read\n",
)];

static WITH_GAMES_CUPS: Table<'static> = Table {
    job: STEPPING,
    given: Given::Line,
    status: Status::Done,
    rows: &WITH_GAMES,
};

static ORDERED_CUPS: Table<'static> = Table {
    job: STEPPING,
    given: Given::Line,
    status: Status::Done,
    rows: &IN_ORDER,
};

static STANDING_CUPS: Table<'static> = Table {
    job: STEPPING,
    given: Given::Line,
    status: Status::Done,
    rows: &STANDINGS,
};

static OTHER_CUPS: [Table<'static>; 2] = [
    Table {
        job: DRAWING,
        given: Given::Line,
        status: Status::Done,
        rows: &DRAWN,
    },
    Table {
        job: STEPPING,
        given: Given::Line,
        status: Status::Words,
        rows: &REFUSED,
    },
];

static READ_CUPS: [Table<'static>; 3] = [
    Table {
        job: STEPPING,
        given: Given::Line,
        status: Status::Input,
        rows: &AT_FAULT,
    },
    Table {
        job: Job {
            failing_fetch: 4,
            ..STEPPING
        },
        given: Given::Line,
        status: Status::Done,
        rows: &READ_ONCE,
    },
    Table {
        job: Job {
            failing_fetch: 3,
            ..STEPPING
        },
        given: Given::Line,
        status: Status::Read,
        rows: &UNREAD,
    },
];

#[test]
fn a_cup_is_played_with_each_seed_and_tells_it(rt: HostRuntime) -> Result<(), Fail> {
    check_rows(&rt, rt.alloc(), &WITH_GAMES_CUPS)
}

#[test]
fn games_go_world_by_world_and_seed_by_seed(rt: HostRuntime) -> Result<(), Fail> {
    check_rows(&rt, rt.alloc(), &ORDERED_CUPS)
}

#[test]
fn the_files_of_a_cup_are_read_once_for_all_seeds(rt: HostRuntime) -> Result<(), Fail> {
    check_tables(&rt, rt.alloc(), &READ_CUPS)
}

#[test]
fn a_standing_counts_all_seeds_and_tells_leads(rt: HostRuntime) -> Result<(), Fail> {
    check_rows(&rt, rt.alloc(), &STANDING_CUPS)
}

#[test]
fn a_seed_makes_its_own_game_and_a_wrong_number_of_seeds_is_refused(
    rt: HostRuntime,
) -> Result<(), Fail> {
    check_tables(&rt, rt.alloc(), &OTHER_CUPS)
}
