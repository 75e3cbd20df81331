// The command `cup`.
use crate::commands::{
    CLOSED, CLOSING, CutRun, Given, Job, NO_JOB, Table, check_cuts, check_rows, check_tables,
};
use ant_commands::Status;
use std::test::Fail;

// A world on which the player that draws numbers wins as red and draws as black against one that steps ahead: the
// worlds w and -. On the world x no game brings food. Players a and b step ahead; c, d, -c and r draw numbers.
const CUP: Job<'static> = Job {
    world: CLOSING,
    red: "Flip 2 0 0",
    black: "Move 0 0",
    more: &[
        ("x", CLOSED),
        ("a", "Move 0 0"),
        ("c", "Flip 2 0 0"),
        ("d", "Flip 2 0 0"),
        ("-c", "Flip 2 0 0"),
        ("none", ""),
        ("half", "Move 0"),
        ("cut", "4\n4\n# # # #\n"),
    ],
    ..NO_JOB
};

// Words of cups, and their standings.
const PLAYED: [(&str, &str); 9] = [
    (
        "cup --worlds w --brains a c --seed 12345 --rounds 1",
        "3 points: c (1 won, 1 drawn, 0 lost)\n1 points: a (0 won, 1 drawn, 1 lost)\n",
    ),
    (
        "cup --worlds w --brains a c --workers 2 --rounds 1 --seed 12345",
        "3 points: c (1 won, 1 drawn, 0 lost)\n1 points: a (0 won, 1 drawn, 1 lost)\n",
    ),
    (
        "cup --worlds w --brains c a --seed 12345 --workers 16 --rounds 1",
        "3 points: c (1 won, 1 drawn, 0 lost)\n1 points: a (0 won, 1 drawn, 1 lost)\n",
    ),
    (
        "cup --worlds w --brains a d c --seed 12345 --rounds 1",
        "5 points: d (1 won, 3 drawn, 0 lost)\n5 points: c (1 won, 3 drawn, 0 lost)\n2 points: a (0 won, 2 drawn, 2 lost)\n",
    ),
    (
        "cup --worlds w - w --brains a c --seed 12345 --rounds 1 --workers 3",
        "9 points: c (3 won, 3 drawn, 0 lost)\n3 points: a (0 won, 3 drawn, 3 lost)\n",
    ),
    (
        "cup --worlds x w --brains a -c --seed 12345 --rounds 1 --workers 4",
        "5 points: -c (1 won, 3 drawn, 0 lost)\n3 points: a (0 won, 3 drawn, 1 lost)\n",
    ),
    (
        "cup --worlds w x --brains -c a --seed 12345 --rounds 1",
        "5 points: -c (1 won, 3 drawn, 0 lost)\n3 points: a (0 won, 3 drawn, 1 lost)\n",
    ),
    (
        "cup --worlds w x --brains d a c --seed 12345 --rounds 0 --workers 16",
        "8 points: d (0 won, 8 drawn, 0 lost)\n8 points: a (0 won, 8 drawn, 0 lost)\n8 points: c (0 won, 8 drawn, 0 lost)\n",
    ),
    (
        "cup --worlds w --brains r b --seed 12345 --rounds 1",
        "3 points: r (1 won, 1 drawn, 0 lost)\n1 points: b (0 won, 1 drawn, 1 lost)\n",
    ),
];

// Words that name files that are missing or have the wrong content, and the line that names the first of them.
const REFUSED: [(&str, &str); 10] = [
    (
        "cup --worlds w a --brains x c --seed 1 --rounds 1",
        "ants: a: bad width\n",
    ),
    (
        "cup --worlds w --brains a none y --seed 1 --rounds 1",
        "ants: none: no instruction\n",
    ),
    (
        "cup --worlds w --brains a - --seed 1 --rounds 1",
        "ants: -: line 1: unknown word\n",
    ),
    (
        "cup --worlds a y --brains a c --seed 1 --rounds 1",
        "ants: a: bad width\n",
    ),
    (
        "cup --worlds w x - w cut --brains half none --seed 1 --rounds 1",
        "ants: cut: row 1: missing\n",
    ),
    (
        "cup --worlds cut cut --brains a c --seed 1 --rounds 1",
        "ants: cut: row 1: missing\n",
    ),
    (
        "cup --worlds w w --brains a c d r half none --seed 1 --rounds 1",
        "ants: half: line 1: missing token\n",
    ),
    (
        "cup --worlds w x --brains none half --seed 1 --rounds 0",
        "ants: none: no instruction\n",
    ),
    (
        "cup --worlds none w --brains a c --seed 1 --rounds 1",
        "ants: none: bad width\n",
    ),
    (
        "cup --worlds w --brains half - --seed 1 --rounds 1 --workers 16",
        "ants: half: line 1: missing token\n",
    ),
];

// A cup with the file - as a player.
const DASH: Job<'static> = Job {
    world: "Flip 2 0 0",
    red: "Flip 2 0 0",
    black: "Move 0 0",
    more: &[("f", CLOSING)],
    ..NO_JOB
};

const DASHED: [(&str, &str); 1] = [(
    "cup --worlds f --brains b - --seed 12345 --rounds 1",
    "3 points: - (1 won, 1 drawn, 0 lost)\n1 points: b (0 won, 1 drawn, 1 lost)\n",
)];

// Words that name a missing file before one that is at fault.
const UNREAD: [(&str, &str); 1] = [(
    "cup --worlds w y --brains none c --seed 1 --rounds 1",
    "ants: y: not read\n",
)];

// Cups that are played, and cups that are refused.
static PLAYED_CUPS: Table<'static> = Table {
    job: CUP,
    given: Given::Line,
    status: Status::Done,
    rows: &PLAYED,
};

static DASHED_CUPS: Table<'static> = Table {
    job: DASH,
    given: Given::Line,
    status: Status::Done,
    rows: &DASHED,
};

static REFUSED_CUPS: Table<'static> = Table {
    job: CUP,
    given: Given::Line,
    status: Status::Input,
    rows: &REFUSED,
};

static UNREAD_CUPS: Table<'static> = Table {
    job: CUP,
    given: Given::Line,
    status: Status::Read,
    rows: &UNREAD,
};

#[test]
fn a_cup_prints_its_standing_or_names_its_first_file_at_fault(rt: HostRuntime) -> Result<(), Fail> {
    check_rows(&rt, rt.alloc(), &PLAYED_CUPS)?;
    check_rows(&rt, rt.alloc(), &DASHED_CUPS)?;
    check_rows(&rt, rt.alloc(), &REFUSED_CUPS)?;
    check_rows(&rt, rt.alloc(), &UNREAD_CUPS)
}

// Words of cups whose games are printed, and their lines before the standing: on w, -c, c and d as red win 3 to 0
// against a, since a red ant dies on its hill, and no other game brings food.
const TOLD: [(&str, &str); 3] = [
    (
        "cup --worlds w --brains a c --games --seed 12345 --rounds 1",
        "game 1: red 0 black 0, w, a, c\ngame 2: red 3 black 0, w, c, a\n\
        3 points: c (1 won, 1 drawn, 0 lost)\n1 points: a (0 won, 1 drawn, 1 lost)\n",
    ),
    (
        "cup --worlds x w --brains a -c --seed 12345 --rounds 1 --workers 4 --games",
        "game 1: red 0 black 0, x, a, -c\ngame 2: red 0 black 0, x, -c, a\n\
        game 3: red 0 black 0, w, a, -c\ngame 4: red 3 black 0, w, -c, a\n\
        5 points: -c (1 won, 3 drawn, 0 lost)\n3 points: a (0 won, 3 drawn, 1 lost)\n",
    ),
    (
        "cup --worlds w --brains a d c --seed 12345 --rounds 1 --games",
        "game 1: red 0 black 0, w, a, d\ngame 2: red 3 black 0, w, d, a\n\
        game 3: red 0 black 0, w, a, c\ngame 4: red 3 black 0, w, c, a\n\
        game 5: red 0 black 0, w, d, c\ngame 6: red 0 black 0, w, c, d\n\
        5 points: d (1 won, 3 drawn, 0 lost)\n5 points: c (1 won, 3 drawn, 0 lost)\n2 points: a (0 won, 2 drawn, 2 lost)\n",
    ),
];

// Such a cup with a file at fault: none of its games is printed.
const UNTOLD: [(&str, &str); 1] = [(
    "cup --worlds w --brains a none --seed 12345 --rounds 1 --games",
    "ants: none: no instruction\n",
)];

static TOLD_CUPS: [Table<'static>; 2] = [
    Table {
        job: CUP,
        given: Given::Line,
        status: Status::Done,
        rows: &TOLD,
    },
    Table {
        job: CUP,
        given: Given::Line,
        status: Status::Input,
        rows: &UNTOLD,
    },
];

// A cup; the output has no room for its second game.
static CUT_CUPS: [CutRun<'static>; 1] = [CutRun {
    job: Job {
        line: "cup --worlds w --brains a c --games --seed 12345 --rounds 1",
        room: 31,
        ..CUP
    },
    held: "game 1: red 0 black 0, w, a, c\n",
    line: "ants: output failed\n",
}];

#[test]
fn the_games_of_a_cup_are_told_before_its_standing(rt: HostRuntime) -> Result<(), Fail> {
    check_tables(&rt, rt.alloc(), &TOLD_CUPS)?;
    check_cuts(&rt, rt.alloc(), &CUT_CUPS)
}

// In round 2, player r moves each ant ahead that draws a multiple of 2932. Player b doesn't move.
const DRAWING: Job<'static> = Job {
    world: CLOSING,
    red: "Flip 2932 1 2\nMove 1 1\nDrop 2",
    black: "Drop 0",
    ..NO_JOB
};

// If r is black, its ants 0, 1, 3, 5 and 6 draw the first five numbers. For seed 12345 they are 7193, 2932, 10386, 5575
// and 100, so only ant 1 steps ahead, and the red ant 2 dies on its hill. If r is red, only its ant 4 steps, and no ant
// dies. The other seed is the state that follows 12345, in its lowest 30 bits, so its numbers begin 2932, 10386, 5575,
// 100, 15976. The ant that draws the first should step but can't: black ant 0 has rock ahead, and red ant 2 a foe.
const DRAWN: [(&str, &str); 2] = [
    (
        "cup --worlds w --brains r b --seed 12345 --rounds 2",
        "3 points: b (1 won, 1 drawn, 0 lost)\n1 points: r (0 won, 1 drawn, 1 lost)\n",
    ),
    (
        "cup --worlds w --brains r b --seed 1002789326 --rounds 2",
        "2 points: r (0 won, 2 drawn, 0 lost)\n2 points: b (0 won, 2 drawn, 0 lost)\n",
    ),
];

// Of twelve ants, the black ones 1, 10 and 11 have a particle ahead, and black ant 5 a cell beside both red ones: a
// step onto it raises the number of foes from three to four for red ant 3, and from four to five for red ant 6. Player
// r fetches food from the cell ahead, and b doesn't move.
const FETCHING: Job<'static> = Job {
    world: "7\n7\n# # # # # # #\n # - # # - 1 #\n# - + - # # #\n # - . + - # #\n# # # - - # #\n # - 1 # - 1 #\n# # # # # # #\n",
    red: "Move 1 7\nPickUp 2 7\nTurn Left 3\nTurn Left 4\nTurn Left 5\nMove 6 7\nDrop 7\nDrop 7",
    black: "Drop 0",
    ..NO_JOB
};

// If r is red, no ant can step. If it is black, only red ant 6 dies in round 1, and leaves 3 particles on its hill.
// Ants 1, 10 and 11 step in round 1, rest in rounds 2 to 15, take a particle in 16, turn in 17 to 19, step back in 20,
// rest in 21 to 34, and drop it on their hill in 35.
const FETCHED: [(&str, &str); 2] = [
    (
        "cup --worlds w --brains r b --seed 1 --rounds 34",
        "3 points: b (1 won, 1 drawn, 0 lost)\n1 points: r (0 won, 1 drawn, 1 lost)\n",
    ),
    (
        "cup --worlds w --brains r b --seed 1 --rounds 35",
        "2 points: r (0 won, 2 drawn, 0 lost)\n2 points: b (0 won, 2 drawn, 0 lost)\n",
    ),
];

static CONTEST_CUPS: [Table<'static>; 2] = [
    Table {
        job: DRAWING,
        given: Given::Line,
        status: Status::Done,
        rows: &DRAWN,
    },
    Table {
        job: FETCHING,
        given: Given::Line,
        status: Status::Done,
        rows: &FETCHED,
    },
];

#[test]
fn a_cup_is_played_with_its_seed_and_by_the_contests_numbers(rt: HostRuntime) -> Result<(), Fail> {
    check_tables(&rt, rt.alloc(), &CONTEST_CUPS)
}
