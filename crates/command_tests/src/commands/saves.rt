// The commands `save`, `resume` and `advance`.
use crate::commands::{CLOSED, Given, Job, NO_JOB, Table, check_rows, check_tables};
use ant_commands::Status;
use std::test::Fail;

// A game of one red ant, which turns.
const TURNING: Job<'static> = Job {
    line: "",
    world: CLOSED,
    red: "Turn Left 0",
    black: "Turn Left 0",
    ..NO_JOB
};

// The game after one round.
const SAVED: &str =
    "ants save 1\nseed 12345\nsheet 5 3 14\nwindow 16384\nround 1\nplace 0\ntaken 1 redone 0\nsize 3 3\nred 1\nTurn Left 0\nblack 1\nTurn Left 0\n###\n#+#\n###\n000\n000\n000\n000\n000\n000\n000\n000\n000\nant 0 red 1 1 5 0 0 0\nend\n";

// The same, but two turns are counted.
const TWO_TURNS: &str =
    "ants save 1\nseed 12345\nsheet 5 3 14\nwindow 16384\nround 1\nplace 0\ntaken 2 redone 0\nsize 3 3\nred 1\nTurn Left 0\nblack 1\nTurn Left 0\n###\n#+#\n###\n000\n000\n000\n000\n000\n000\n000\n000\n000\nant 0 red 1 1 5 0 0 0\nend\n";

// The rest of its text up to round 2, with the counts.
const REST: &str =
    "\nAfter round 2...\ncell (0, 0): rock\ncell (1, 0): rock\ncell (2, 0): rock\ncell (0, 1): rock\ncell (1, 1): red hill; red ant of id 0, dir 4, food 0, state 0, resting 0\ncell (2, 1): rock\ncell (0, 2): rock\ncell (1, 2): rock\ncell (2, 2): rock\n\nscore: red 0 black 0\nturns 2 taken 2 redone 0\n";

// The game at the start, with another sheet and other windows.
const BEGUN: &str =
    "ants save 1\nseed 7\nsheet 4 2 9\nwindow 50\nround 0\nplace 0\ntaken 0 redone 0\nsize 3 3\nred 1\nTurn Left 0\nblack 1\nTurn Left 0\n###\n#+#\n###\n000\n000\n000\n000\n000\n000\n000\n000\n000\nant 0 red 1 1 0 0 0 0\nend\n";

// Words that save the game.
const SAVES: [(&str, &str); 3] = [
    ("save w r b --seed 12345 --rounds 1", SAVED),
    ("save w r b --rounds 1 --workers 3 --seed 12345", SAVED),
    (
        "save w r b --rest 9 --corpse 2 --surround 4 --window 50 --rounds 0 --seed 7",
        BEGUN,
    ),
];

// Red brains, and the game of each after one round.
const FIRST_ROUNDS: [(&str, &str); 2] = [
    (
        "Mark 3 0",
        "ants save 1\nseed 12345\nsheet 5 3 14\nwindow 16384\nround 1\nplace 0\ntaken 1 redone 0\nsize 3 3\nred 1\nMark 3 0\nblack 1\nTurn Left 0\n###\n#+#\n###\n000\n080\n000\n000\n000\n000\n000\n000\n000\nant 0 red 1 1 0 0 0 0\nend\n",
    ),
    (
        "Flip 1 1 0\nTurn Right 0",
        "ants save 1\nseed 12345\nsheet 5 3 14\nwindow 16384\nround 1\nplace 1\ntaken 1 redone 0\nsize 3 3\nred 2\nFlip 1 1 0\nTurn Right 0\nblack 1\nTurn Left 0\n###\n#+#\n###\n000\n000\n000\n000\n000\n000\n000\n000\n000\nant 0 red 1 1 0 0 1 0\nend\n",
    ),
];

// A game of two ants after its second round, with every part of a save, and the rest of its text up to round 3.
pub const STANDING: &str =
    "ants save 1\nseed 7\nsheet 4 2 9\nwindow 50\nround 2\nplace 1\ntaken 3 redone 1\nsize 4 3\nred 1\nTurn Left 0\nblack 2\nDrop 1\nTurn Right 0\n####\n#+-#\n####\n0000\n0800\n0000\n0000\n00Q0\n0000\n0000\n0no0\n0000\nfood 2 1 63\nant 0 red 1 1 0 0 0 0\nant 1 black 2 1 3 1 1 2\nend\n";

const STOOD: [(&str, &str); 1] = [(
    "resume k --rounds 3 --dump 2,3 --stats",
    "\nAfter round 3...\ncell (0, 0): rock\ncell (1, 0): rock\ncell (2, 0): rock\ncell (3, 0): rock\ncell (0, 1): rock\ncell (1, 1): 62 food; red hill; red marks: 3; red ant of id 0, dir 5, food 0, state 0, resting 0\ncell (2, 1): 63 food; black hill; black marks: 05; black ant of id 1, dir 3, food 1, state 1, resting 1\ncell (3, 1): rock\ncell (0, 2): rock\ncell (1, 2): rock\ncell (2, 2): rock\ncell (3, 2): rock\n\nscore: red 62 black 63\nturns 6 taken 5 redone 1\n",
)];

// Saves, and the rest of each up to round 3. In the first an ant flips by the second number of its stream, 2932, and
// then moves, to rest for 9 turns; with the first number, 7193, it would do neither. In the second two ants sense the
// marker that the first ant sets in round 2: in windows of two turns one of their looks is made before it, in windows
// of one turn none, in longer ones both. In the third the rows are listed from the top, and the amounts of food in row
// order.
const LATER: [(&str, &str); 3] = [
    (
        "ants save 1\nseed 12345\nsheet 4 2 9\nwindow 50\nround 1\nplace 1\ntaken 2 redone 0\nsize 4 3\nred 3\nFlip 2 1 2\nMove 0 0\nDrop 2\nblack 1\nTurn Left 0\n####\n#++#\n####\n0000\n0000\n0000\n0000\n0000\n0000\n0000\n0000\n0000\nant 0 red 1 1 0 0 0 0\nend\n",
        "\nAfter round 3...\ncell (0, 0): rock\ncell (1, 0): rock\ncell (2, 0): rock\ncell (3, 0): rock\ncell (0, 1): rock\ncell (1, 1): red hill; \ncell (2, 1): red hill; red ant of id 0, dir 0, food 0, state 0, resting 9\ncell (3, 1): rock\ncell (0, 2): rock\ncell (1, 2): rock\ncell (2, 2): rock\ncell (3, 2): rock\n\nscore: red 0 black 0\nturns 6 taken 6 redone 0\n",
    ),
    (
        "ants save 1\nseed 7\nsheet 5 3 14\nwindow 2\nround 1\nplace 0\ntaken 3 redone 0\nsize 5 3\nred 2\nMark 0 0\nSense Ahead 1 1 Marker 0\nblack 1\nTurn Left 0\n#####\n#+++#\n#####\n00000\n00000\n00000\n00000\n00000\n00000\n00000\n00000\n00000\nant 0 red 2 1 0 0 0 0\nant 1 red 1 1 0 0 1 0\nant 2 red 3 1 3 0 1 0\nend\n",
        "\nAfter round 3...\ncell (0, 0): rock\ncell (1, 0): rock\ncell (2, 0): rock\ncell (3, 0): rock\ncell (4, 0): rock\ncell (0, 1): rock\ncell (1, 1): red hill; red ant of id 1, dir 0, food 0, state 1, resting 0\ncell (2, 1): red hill; red marks: 0; red ant of id 0, dir 0, food 0, state 0, resting 0\ncell (3, 1): red hill; red ant of id 2, dir 3, food 0, state 1, resting 0\ncell (4, 1): rock\ncell (0, 2): rock\ncell (1, 2): rock\ncell (2, 2): rock\ncell (3, 2): rock\ncell (4, 2): rock\n\nscore: red 0 black 0\nturns 9 taken 8 redone 1\n",
    ),
    (
        "ants save 1\nseed 7\nsheet 5 3 14\nwindow 1\nround 0\nplace 0\ntaken 0 redone 0\nsize 4 4\nred 1\nTurn Left 0\nblack 1\nDrop 0\n####\n#.+#\n#..#\n####\n0000\n0000\n0100\n0000\n0000\n0000\n0000\n0000\n0000\n00o0\n0o00\n0000\nfood 2 1 63\nfood 1 2 64\nant 0 red 2 1 0 0 0 0\nend\n",
        "\nAfter round 3...\ncell (0, 0): rock\ncell (1, 0): rock\ncell (2, 0): rock\ncell (3, 0): rock\ncell (0, 1): rock\ncell (1, 1): \ncell (2, 1): 63 food; red hill; red ant of id 0, dir 3, food 0, state 0, resting 0\ncell (3, 1): rock\ncell (0, 2): rock\ncell (1, 2): 64 food; red marks: 0; \ncell (2, 2): \ncell (3, 2): rock\ncell (0, 3): rock\ncell (1, 3): rock\ncell (2, 3): rock\ncell (3, 3): rock\n\nscore: red 63 black 0\nturns 3 taken 3 redone 0\n",
    ),
];

// Words that continue it.
const RESUMES: [(&str, &str); 3] = [
    ("resume k --rounds 2 --dump 1,2 --stats", REST),
    ("resume k --stats --workers 2 --dump all --rounds 2", REST),
    ("resume k --rounds 1 --dump all", "\nscore: red 0 black 0\n"),
];

// Words that don't.
const TOO_FEW: [(&str, &str); 1] = [("resume k --rounds 0", "ants: k: already at round 1\n")];

// Texts that are not saves to be continued. The last has the longest line of a brain that is in form.
const REFUSED: [(&str, &str); 4] = [
    ("", "ants: k: line 1: not a save\n"),
    (
        "ants save 1\nseed 1\nsheet 5 3",
        "ants: k: line 3: not a save\n",
    ),
    (TWO_TURNS, "ants: k: no valid state\n"),
    (
        "ants save 1\nseed 12345\nsheet 5 3 14\nwindow 16384\nround 1\nplace 0\ntaken 1 redone 0\nsize 3 3\nred 1\nTurn Left 0\nblack 1\nSense RightAhead 9999999999 9999999999 FriendWithFood\n###\n#+#\n###\n000\n000\n000\n000\n000\n000\n000\n000\n000\nant 0 red 1 1 5 0 0 0\nend\n",
        "ants: k: no valid state\n",
    ),
];

// Words that continue it and save it again.
const ADVANCES: [(&str, &str); 3] = [
    (
        "advance k --rounds 2",
        "ants save 1\nseed 12345\nsheet 5 3 14\nwindow 16384\nround 2\nplace 0\ntaken 2 redone 0\nsize 3 3\nred 1\nTurn Left 0\nblack 1\nTurn Left 0\n###\n#+#\n###\n000\n000\n000\n000\n000\n000\n000\n000\n000\nant 0 red 1 1 4 0 0 0\nend\n",
    ),
    ("advance k --rounds 1", SAVED),
    ("advance k --workers 3 --rounds 1", SAVED),
];

// Saves, and each after round 3: what was marked in between is in it, and its rounds, draws and turns are added to the
// earlier ones.
const ADVANCED: [(&str, &str); 4] = [
    (
        STANDING,
        "ants save 1\nseed 7\nsheet 4 2 9\nwindow 50\nround 3\nplace 1\ntaken 5 redone 1\nsize 4 3\nred 1\nTurn Left 0\nblack 2\nDrop 1\nTurn Right 0\n####\n#+-#\n####\n0000\n0800\n0000\n0000\n00Q0\n0000\n0000\n0no0\n0000\nfood 2 1 63\nant 0 red 1 1 5 0 0 0\nant 1 black 2 1 3 1 1 1\nend\n",
    ),
    (
        "ants save 1\nseed 12345\nsheet 4 2 9\nwindow 50\nround 1\nplace 1\ntaken 2 redone 0\nsize 4 3\nred 3\nFlip 2 1 2\nMove 0 0\nDrop 2\nblack 1\nTurn Left 0\n####\n#++#\n####\n0000\n0000\n0000\n0000\n0000\n0000\n0000\n0000\n0000\nant 0 red 1 1 0 0 0 0\nend\n",
        "ants save 1\nseed 12345\nsheet 4 2 9\nwindow 50\nround 3\nplace 2\ntaken 6 redone 0\nsize 4 3\nred 3\nFlip 2 1 2\nMove 0 0\nDrop 2\nblack 1\nTurn Left 0\n####\n#++#\n####\n0000\n0000\n0000\n0000\n0000\n0000\n0000\n0000\n0000\nant 0 red 2 1 0 0 0 9\nend\n",
    ),
    (
        "ants save 1\nseed 7\nsheet 5 3 14\nwindow 2\nround 1\nplace 0\ntaken 3 redone 0\nsize 5 3\nred 2\nMark 0 0\nSense Ahead 1 1 Marker 0\nblack 1\nTurn Left 0\n#####\n#+++#\n#####\n00000\n00000\n00000\n00000\n00000\n00000\n00000\n00000\n00000\nant 0 red 2 1 0 0 0 0\nant 1 red 1 1 0 0 1 0\nant 2 red 3 1 3 0 1 0\nend\n",
        "ants save 1\nseed 7\nsheet 5 3 14\nwindow 2\nround 3\nplace 0\ntaken 8 redone 1\nsize 5 3\nred 2\nMark 0 0\nSense Ahead 1 1 Marker 0\nblack 1\nTurn Left 0\n#####\n#+++#\n#####\n00000\n00100\n00000\n00000\n00000\n00000\n00000\n00000\n00000\nant 0 red 2 1 0 0 0 0\nant 1 red 1 1 0 0 1 0\nant 2 red 3 1 3 0 1 0\nend\n",
    ),
    (
        "ants save 1\nseed 7\nsheet 5 3 14\nwindow 1\nround 0\nplace 0\ntaken 0 redone 0\nsize 4 4\nred 1\nTurn Left 0\nblack 1\nDrop 0\n####\n#.+#\n#..#\n####\n0000\n0000\n0100\n0000\n0000\n0000\n0000\n0000\n0000\n00o0\n0o00\n0000\nfood 2 1 63\nfood 1 2 64\nant 0 red 2 1 0 0 0 0\nend\n",
        "ants save 1\nseed 7\nsheet 5 3 14\nwindow 1\nround 3\nplace 0\ntaken 3 redone 0\nsize 4 4\nred 1\nTurn Left 0\nblack 1\nDrop 0\n####\n#.+#\n#..#\n####\n0000\n0000\n0100\n0000\n0000\n0000\n0000\n0000\n0000\n00o0\n0o00\n0000\nfood 2 1 63\nfood 1 2 64\nant 0 red 2 1 3 0 0 0\nend\n",
    ),
];

// Saves that can't be advanced to round 0: the fault of a text comes before its round.
const NOT_ADVANCED: [(&str, &str); 3] = [
    (SAVED, "ants: k: already at round 1\n"),
    (TWO_TURNS, "ants: k: no valid state\n"),
    ("ants save 1\nseed 1\n", "ants: k: line 3: not a save\n"),
];

// The game, with its save to be continued.
const GOING_ON: Job<'static> = Job {
    breaks: SAVED,
    ..TURNING
};

// The words that continue a save of the game.
const RESUMED: Job<'static> = Job {
    line: "resume k --rounds 2",
    ..TURNING
};

// Games that are saved or continued, and saves that are refused.
static SAVED_GAMES: [Table<'static>; 2] = [
    Table {
        job: TURNING,
        given: Given::Line,
        status: Status::Done,
        rows: &SAVES,
    },
    Table {
        job: Job {
            line: "save w r b --seed 12345 --rounds 1",
            ..TURNING
        },
        given: Given::Red,
        status: Status::Done,
        rows: &FIRST_ROUNDS,
    },
];

static RESUMED_GAMES: [Table<'static>; 2] = [
    Table {
        job: GOING_ON,
        given: Given::Line,
        status: Status::Done,
        rows: &RESUMES,
    },
    Table {
        job: Job {
            breaks: STANDING,
            ..TURNING
        },
        given: Given::Line,
        status: Status::Done,
        rows: &STOOD,
    },
];

static LATER_GAMES: Table<'static> = Table {
    job: Job {
        line: "resume k --rounds 3 --dump 3 --stats",
        ..TURNING
    },
    given: Given::Breaks,
    status: Status::Done,
    rows: &LATER,
};

static REFUSED_SAVES: [Table<'static>; 2] = [
    Table {
        job: GOING_ON,
        given: Given::Line,
        status: Status::Input,
        rows: &TOO_FEW,
    },
    Table {
        job: RESUMED,
        given: Given::Breaks,
        status: Status::Input,
        rows: &REFUSED,
    },
];

static ADVANCED_GAMES: [Table<'static>; 3] = [
    Table {
        job: GOING_ON,
        given: Given::Line,
        status: Status::Done,
        rows: &ADVANCES,
    },
    Table {
        job: Job {
            line: "advance k --rounds 3",
            ..TURNING
        },
        given: Given::Breaks,
        status: Status::Done,
        rows: &ADVANCED,
    },
    Table {
        job: Job {
            line: "advance k --rounds 0",
            ..TURNING
        },
        given: Given::Breaks,
        status: Status::Input,
        rows: &NOT_ADVANCED,
    },
];

#[test]
fn a_save_goes_on_and_is_saved_again(rt: HostRuntime) -> Result<(), Fail> {
    check_tables(&rt, rt.alloc(), &ADVANCED_GAMES)
}

#[test]
fn a_game_is_saved_and_gone_on_with_or_its_save_refused(rt: HostRuntime) -> Result<(), Fail> {
    check_tables(&rt, rt.alloc(), &SAVED_GAMES)?;
    check_tables(&rt, rt.alloc(), &RESUMED_GAMES)?;
    check_rows(&rt, rt.alloc(), &LATER_GAMES)?;
    check_tables(&rt, rt.alloc(), &REFUSED_SAVES)
}
