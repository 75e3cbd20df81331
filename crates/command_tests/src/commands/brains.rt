// The command `brain`.
use crate::commands::{Given, Job, NO_JOB, Table, check_rows, check_tables};
use ant_commands::Status;
use std::test::Fail;

// The sample brain of the contest's task.
const SAMPLE: &str = "Sense Ahead 1 3 Food\n\
    Move 2 0\n\
    PickUp 8 0\n\
    Flip 3 4 5\n\
    Turn Left 0\n\
    Flip 2 6 7\n\
    Turn Right 0\n\
    Move 0 3\n\
    Sense Ahead 9 11 Home\n\
    Move 10 8\n\
    Drop 0\n\
    Flip 3 12 13\n\
    Turn Left 8\n\
    Flip 2 14 15\n\
    Turn Right 8\n\
    Move 8 11\n";

// Brains, and how each is printed.
const PRINTED: [(&str, &str); 12] = [
    (SAMPLE, SAMPLE),
    (
        "sense ahead 001 1 FOOD ; look\r\n\n; none\n\tdRoP 0",
        "Sense Ahead 1 1 Food\nDrop 0\n",
    ),
    (
        "sense HERE 0 0 marker 5\nmark 0 0\nUNMARK 1 0\nflip 4294967295 0 0",
        "Sense Here 0 0 Marker 5\nMark 0 0\nUnmark 1 0\nFlip 4294967295 0 0\n",
    ),
    (
        "SENSE leftahead 0 0 friendwithfood\nsense RightAhead 0 0 FOEMARKER",
        "Sense LeftAhead 0 0 FriendWithFood\nSense RightAhead 0 0 FoeMarker\n",
    ),
    ("Drop 0;x", "Drop 0\n"),
    ("drop 0000000000\n\n\n", "Drop 0\n"),
    ("; \u{e4} and \0 are no matter here\nDrop\t0\r", "Drop 0\n"),
    ("flip 1 0 0\r\n", "Flip 1 0 0\n"),
    ("mark 5 0\nUNMARK 0 1", "Mark 5 0\nUnmark 0 1\n"),
    ("pickup 0 1\nmove 1 0", "PickUp 0 1\nMove 1 0\n"),
    ("turn left 0\nturn RIGHT 1", "Turn Left 0\nTurn Right 1\n"),
    (
        "sense here 0 0 friend\nsense ahead 0 0 foe\nsense leftahead 0 0 friendwithfood\nsense rightahead 0 0 foewithfood\n\
        sense here 0 0 food\nsense here 0 0 rock\nsense here 0 0 marker 5\nsense here 0 0 foemarker\nsense here 0 0 home\nsense here 0 0 foehome",
        "Sense Here 0 0 Friend\nSense Ahead 0 0 Foe\nSense LeftAhead 0 0 FriendWithFood\nSense RightAhead 0 0 FoeWithFood\n\
        Sense Here 0 0 Food\nSense Here 0 0 Rock\nSense Here 0 0 Marker 5\nSense Here 0 0 FoeMarker\nSense Here 0 0 Home\nSense Here 0 0 FoeHome\n",
    ),
];

// Texts that are not brains, and the line that names the first fault of each.
const REFUSED: [(&str, &str); 21] = [
    (
        "Drop 0\nDrop 5\nDrop 0\nDrop 0\nDrop 0\n",
        "ants: b: line 2: no such state 5\n",
    ),
    ("Flip 0 0 0", "ants: b: line 1: bad number\n"),
    ("Drop 0 0", "ants: b: line 1: extra token\n"),
    ("Move 0", "ants: b: line 1: missing token\n"),
    ("Jump 0", "ants: b: line 1: unknown word\n"),
    ("", "ants: b: no instruction\n"),
    ("; none\n \t\r\n", "ants: b: no instruction\n"),
    ("M", "ants: b: line 1: unknown word\n"),
    ("Mo", "ants: b: line 1: unknown word\n"),
    ("Mov", "ants: b: line 1: unknown word\n"),
    ("Move", "ants: b: line 1: missing token\n"),
    ("Drop 99999999999", "ants: b: line 1: bad number\n"),
    (
        "Drop 9999999999",
        "ants: b: line 1: no such state 9999999999\n",
    ),
    ("Flip 4294967296 0 0", "ants: b: line 1: bad number\n"),
    ("Mark 6 0", "ants: b: line 1: bad number\n"),
    ("Sense Here 0 0 Marker 6", "ants: b: line 1: bad number\n"),
    ("Sense Here 0 0 Marker", "ants: b: line 1: missing token\n"),
    ("Drop \u{e4}", "ants: b: line 1: bad byte\n"),
    ("Drop 0 0\u{e4}", "ants: b: line 1: bad byte\n"),
    ("Drop x \u{e4}", "ants: b: line 1: bad number\n"),
    (
        "\nDrop 0\n\nMove 7 9\nDrop 8",
        "ants: b: line 4: no such state 7\n",
    ),
];

// More of them.
const MORE_REFUSED: [(&str, &str); 21] = [
    ("Flip 9 1 2", "ants: b: line 1: no such state 1\n"),
    ("Sense Here 0 1 Rock", "ants: b: line 1: no such state 1\n"),
    ("Drop 1\nDrop x", "ants: b: line 2: bad number\n"),
    ("Drop", "ants: b: line 1: missing token\n"),
    ("Drop 0 0 \u{e4}", "ants: b: line 1: extra token\n"),
    ("Drop\u{b}0", "ants: b: line 1: bad byte\n"),
    ("Drop 0\u{7f}", "ants: b: line 1: bad byte\n"),
    ("\0", "ants: b: line 1: bad byte\n"),
    ("Drop 0\n\n \u{ff}", "ants: b: line 3: bad byte\n"),
    ("Drop 00000000000", "ants: b: line 1: bad number\n"),
    ("Drop -1", "ants: b: line 1: bad number\n"),
    ("Drop 1.", "ants: b: line 1: bad number\n"),
    ("Unmark 6 0", "ants: b: line 1: bad number\n"),
    ("Sense Here 0 0 Rock 1", "ants: b: line 1: extra token\n"),
    ("Sense There 0 0 Rock", "ants: b: line 1: unknown word\n"),
    ("Sense Here 0 0 Rocky", "ants: b: line 1: unknown word\n"),
    ("Turn Ahead 0", "ants: b: line 1: unknown word\n"),
    ("Turn 0", "ants: b: line 1: unknown word\n"),
    ("Flip x", "ants: b: line 1: bad number\n"),
    ("Drop 0\nJump\nDrop", "ants: b: line 2: unknown word\n"),
    ("Drop 5\n0", "ants: b: line 2: unknown word\n"),
];

// The command, over any brain.
const PRINT: Job<'static> = Job {
    line: "brain b",
    ..NO_JOB
};

// Brains, and what is printed of them minimised.
const MINIMISED: [(&str, &str); 2] = [
    (
        "Sense Ahead 1 5 Food\nPickUp 3 7\nMove 0 4\nTurn Left 2\nFlip 2 6 8\nMark 0 2\nTurn Right 2\nTurn Left 2\nDrop 0\nMove 0 0\n",
        "; 10 states, 8 kept\nSense Ahead 1 5 Food\nPickUp 3 3\nMove 0 4\nTurn Left 2\nFlip 2 6 7\nMark 0 2\nTurn Right 2\nDrop 0\n",
    ),
    (
        "Flip 2 1 2\nMove 0 0\nMove 0 0\n",
        "; 3 states, 2 kept\nFlip 2 1 1\nMove 0 0\n",
    ),
];

// Texts that are not brains to be minimised, and the line that names the first fault of each.
const UNMINIMISED: [(&str, &str); 8] = [
    ("", "ants: b: no instruction\n"),
    ("M", "ants: b: line 1: unknown word\n"),
    ("Move 0", "ants: b: line 1: missing token\n"),
    ("Drop 0 0", "ants: b: line 1: extra token\n"),
    ("Flip 0 0 0", "ants: b: line 1: bad number\n"),
    ("Drop \u{e4}", "ants: b: line 1: bad byte\n"),
    ("Drop 1\n", "ants: b: line 1: no such state 1\n"),
    ("Drop 0\nMove 0 2\n", "ants: b: line 2: no such state 2\n"),
];

// The command, over any brain.
const MINIMISE: Job<'static> = Job {
    line: "minimise b",
    ..NO_JOB
};

// Brains that are printed or minimised, and texts that are refused.
static PRINTED_BRAINS: Table<'static> = Table {
    job: PRINT,
    given: Given::Black,
    status: Status::Done,
    rows: &PRINTED,
};

static REFUSED_BRAINS: Table<'static> = Table {
    job: PRINT,
    given: Given::Black,
    status: Status::Input,
    rows: &REFUSED,
};

static MORE_REFUSED_BRAINS: Table<'static> = Table {
    job: PRINT,
    given: Given::Black,
    status: Status::Input,
    rows: &MORE_REFUSED,
};

// The command that prints the new numbers instead of the brain.
const RENUMBER: Job<'static> = Job {
    line: "minimise b --states",
    ..NO_JOB
};

// Brains, and the new number of each of their states. In the first, states 3 and 7 are merged, and no state leads to 9;
// in the second, 1 and 2 are merged; in the last, no state leads to 1, and 2 and 3 are merged.
const RENUMBERED: [(&str, &str); 3] = [
    (
        "Sense Ahead 1 5 Food\nPickUp 3 7\nMove 0 4\nTurn Left 2\nFlip 2 6 8\nMark 0 2\nTurn Right 2\nTurn Left 2\nDrop 0\nMove 0 0\n",
        "0 0\n1 1\n2 2\n3 3\n4 4\n5 5\n6 6\n7 3\n8 7\n9 dropped\n",
    ),
    ("Flip 2 1 2\nMove 0 0\nMove 0 0\n", "0 0\n1 1\n2 1\n"),
    (
        "Move 2 3\nDrop 1\nDrop 0\nDrop 0\n",
        "0 0\n1 dropped\n2 1\n3 1\n",
    ),
];

// A text that is not a brain: no state is printed.
const UNNUMBERED: [(&str, &str); 1] = [("Drop 1\n", "ants: b: line 1: no such state 1\n")];

static MINIMISED_BRAINS: [Table<'static>; 4] = [
    Table {
        job: MINIMISE,
        given: Given::Black,
        status: Status::Done,
        rows: &MINIMISED,
    },
    Table {
        job: RENUMBER,
        given: Given::Black,
        status: Status::Done,
        rows: &RENUMBERED,
    },
    Table {
        job: RENUMBER,
        given: Given::Black,
        status: Status::Input,
        rows: &UNNUMBERED,
    },
    Table {
        job: MINIMISE,
        given: Given::Black,
        status: Status::Input,
        rows: &UNMINIMISED,
    },
];

#[test]
fn a_brain_is_told_in_one_spelling_or_named_with_its_first_fault(
    rt: HostRuntime,
) -> Result<(), Fail> {
    check_rows(&rt, rt.alloc(), &PRINTED_BRAINS)?;
    check_rows(&rt, rt.alloc(), &REFUSED_BRAINS)?;
    check_rows(&rt, rt.alloc(), &MORE_REFUSED_BRAINS)?;
    check_tables(&rt, rt.alloc(), &MINIMISED_BRAINS)
}
