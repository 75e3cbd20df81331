// The command `asm`.
use crate::commands::{CutRun, Given, Job, NO_JOB, Table, check_cuts, check_rows, check_tables};
use ant_commands::Status;
use std::test::Fail;

// A block that turns back, used when an ant is stuck.
const BACK: &str = "block back done ; half a turn\n\
    Turn Left next\n\
    Turn Left next\n\
    Turn Left done\n\
    end\n\
    go:\n\
    Move go stuck\n\
    stuck:\n\
    use back go\n";

// Labelled programs, and the brain of each.
const ASSEMBLED: [(&str, &str); 6] = [
    (BACK, "Move 0 1\nTurn Left 2\nTurn Left 3\nTurn Left 0\n"),
    ("Drop next", "Drop 0\n"),
    ("Move done done\ndone:", "Move 0 0\n"),
    (
        "here: ; names the item below\r\nsEnSe Ahead here NEXT fOOd\nfLiP 2 here Here\nHere:",
        "Sense Ahead 0 1 Food\nFlip 2 0 0\n",
    ),
    (
        "block drop after\nDrop after\nend\nblock two first second\nuse drop first\nuse drop second\nend\nup:\nuse two next up\nMark 0 up",
        "Drop 2\nDrop 0\nMark 0 0\n",
    ),
    ("END:\nUnmark 5 END", "Unmark 5 0\n"),
];

// Texts that are not labelled programs, and the line that names the fault of each.
const REFUSED: [(&str, &str); 21] = [
    (
        "block a\nDrop next\nDrop next\nDrop next\nDrop next\nDrop next\nDrop next\nDrop next\nDrop next\nDrop next\nDrop next\nend\n\
        block b\nuse a\nuse a\nuse a\nuse a\nuse a\nuse a\nuse a\nuse a\nuse a\nuse a\nend\n\
        block c\nuse b\nuse b\nuse b\nuse b\nuse b\nuse b\nuse b\nuse b\nuse b\nuse b\nend\n\
        block d\nuse c\nuse c\nuse c\nuse c\nuse c\nuse c\nuse c\nuse c\nuse c\nuse c\nDrop next\nend\n\
        use d",
        "ants: r: line 48: too many\n",
    ),
    ("use a", "ants: r: line 1: no such block\n"),
    ("block a\nuse a", "ants: r: line 2: no such block\n"),
    ("Move go 1", "ants: r: line 1: bad name\n"),
    ("Move go go", "ants: r: line 1: no such label\n"),
    ("block a\nend", "ants: r: line 2: empty block\n"),
    ("", "ants: r: no instruction\n"),
    ("; none\n\nhere:\n", "ants: r: no instruction\n"),
    ("block a\nDrop next", "ants: r: line 1: misplaced\n"),
    ("Drop next\nend", "ants: r: line 2: misplaced\n"),
    ("Drop next\nDrop\u{7f}next", "ants: r: line 2: bad byte\n"),
    ("Jump next", "ants: r: line 1: unknown word\n"),
    ("next: Drop next", "ants: r: line 1: unknown word\n"),
    ("Move next", "ants: r: line 1: missing token\n"),
    ("Mark 6 next", "ants: r: line 1: bad number\n"),
    ("Drop next next", "ants: r: line 1: extra token\n"),
    ("a:\n\na:\nDrop next", "ants: r: line 3: name taken\n"),
    (
        "block a b\nDrop b\nend\nuse a",
        "ants: r: line 4: wrong number of labels\n",
    ),
    (
        "block a\nDrop next\nDrop next\nDrop next\nDrop next\nDrop next\nDrop next\nDrop next\nDrop next\nDrop next\nDrop next\nend\n\
        block b\nuse a\nuse a\nuse a\nuse a\nuse a\nuse a\nuse a\nuse a\nuse a\nuse a\nend\n\
        block c\nuse b\nuse b\nuse b\nuse b\nuse b\nuse b\nuse b\nuse b\nuse b\nuse b\nend\n\
        block d\nuse c\nuse c\nuse c\nuse c\nuse c\nuse c\nuse c\nuse c\nuse c\nuse c\nend\n\
        use d\nDrop next",
        "ants: r: line 50: too many\n",
    ),
    (
        "block a\nDrop here\nend\nhere:\nDrop here",
        "ants: r: line 2: no such label\n",
    ),
    ("Drop there\nMove next", "ants: r: line 2: missing token\n"),
];

// The command, over any labelled program.
const ASSEMBLE: Job<'static> = Job {
    line: "asm r",
    ..NO_JOB
};

// Labelled programs that are assembled, and texts that are refused.
static ASSEMBLED_PROGRAMS: Table<'static> = Table {
    job: ASSEMBLE,
    given: Given::Red,
    status: Status::Done,
    rows: &ASSEMBLED,
};

static REFUSED_PROGRAMS: Table<'static> = Table {
    job: ASSEMBLE,
    given: Given::Red,
    status: Status::Input,
    rows: &REFUSED,
};

#[test]
fn a_labelled_program_becomes_a_brain_or_its_fault_is_told(rt: HostRuntime) -> Result<(), Fail> {
    check_rows(&rt, rt.alloc(), &ASSEMBLED_PROGRAMS)?;
    check_rows(&rt, rt.alloc(), &REFUSED_PROGRAMS)
}

// The command that prints the labels instead of the brain.
const LABELS: Job<'static> = Job {
    line: "asm r --labels",
    ..NO_JOB
};

// Labelled programs, and the state to which each of their labels leads. In the first, block half has two states, and is
// used at the states 0 and 2. Its second label is at its end, and so leads to what follows the use: state 2, and, after
// the last item of main, state 0. In the third, the used blocks have no labels.
const TOLD: [(&str, &str); 4] = [
    (
        "block left on\nturn:\nTurn Left on\nend\nblock half on\nuse left next\nmid:\nuse left on\nlast:\nend\n\
        start:\nuse half next\nuse half start\nstop:\n",
        "0 start\n0 stop\n1 half@12/mid\n2 half@12/last\n0 half@12/left@6/turn\n1 half@12/left@8/turn\n\
        3 half@13/mid\n0 half@13/last\n2 half@13/left@6/turn\n3 half@13/left@8/turn\n",
    ),
    (BACK, "0 go\n1 stuck\n"),
    ("block idle\nhere:\nDrop here\nend\nDrop next\n", ""),
    ("Drop next", ""),
];

// Texts that are not labelled programs: no labels are printed.
const UNTOLD: [(&str, &str); 2] = [
    ("Move go go", "ants: r: line 1: no such label\n"),
    ("here:\n", "ants: r: no instruction\n"),
];

static TOLD_LABELS: [Table<'static>; 2] = [
    Table {
        job: LABELS,
        given: Given::Red,
        status: Status::Done,
        rows: &TOLD,
    },
    Table {
        job: LABELS,
        given: Given::Red,
        status: Status::Input,
        rows: &UNTOLD,
    },
];

#[test]
fn the_labels_are_told_in_place_of_the_brain(rt: HostRuntime) -> Result<(), Fail> {
    check_tables(&rt, rt.alloc(), &TOLD_LABELS)
}

// The command that prints the line of each state instead of the brain, and the one that prints the labels first.
const LINES: Job<'static> = Job {
    line: "asm r --lines",
    ..NO_JOB
};

const BOTH: Job<'static> = Job {
    line: "asm r --lines --labels",
    ..NO_JOB
};

// Labelled programs, and the line of each state, with the uses on the way to its body, from main on.
const STANDING: [(&str, &str); 4] = [
    (
        "block left on\nturn:\nTurn Left on\nend\nblock half on\nuse left next\nmid:\nuse left on\nlast:\nend\n\
        start:\nuse half next\nuse half start\nstop:\n",
        "0 3 half@12/left@6\n1 3 half@12/left@8\n2 3 half@13/left@6\n3 3 half@13/left@8\n",
    ),
    (BACK, "0 7\n1 2 back@9\n2 3 back@9\n3 4 back@9\n"),
    ("block idle\nhere:\nDrop here\nend\nDrop next\n", "0 5\n"),
    ("Drop next", "0 1\n"),
];

// Labelled programs, with their labels and the lines of their states. The second has no label.
const TOLD_TWICE: [(&str, &str); 2] = [
    (
        BACK,
        "0 go\n1 stuck\n0 7\n1 2 back@9\n2 3 back@9\n3 4 back@9\n",
    ),
    ("Drop next", "0 1\n"),
];

static TOLD_LINES: [Table<'static>; 4] = [
    Table {
        job: LINES,
        given: Given::Red,
        status: Status::Done,
        rows: &STANDING,
    },
    Table {
        job: BOTH,
        given: Given::Red,
        status: Status::Done,
        rows: &TOLD_TWICE,
    },
    Table {
        job: LINES,
        given: Given::Red,
        status: Status::Input,
        rows: &UNTOLD,
    },
    Table {
        job: BOTH,
        given: Given::Red,
        status: Status::Input,
        rows: &UNTOLD,
    },
];

#[test]
fn the_lines_of_states_are_told_behind_the_labels(rt: HostRuntime) -> Result<(), Fail> {
    check_tables(&rt, rt.alloc(), &TOLD_LINES)
}

// The labels and the lines of a program. The output has no room for the line of the first state.
static NO_ROOM_FOR_LINES: [CutRun<'static>; 1] = [CutRun {
    job: Job {
        red: BACK,
        room: 13,
        ..BOTH
    },
    held: "0 go\n1 stuck\n",
    line: "ants: output failed\n",
}];

#[test]
fn lines_of_states_that_are_cut_are_a_failed_output(rt: HostRuntime) -> Result<(), Fail> {
    check_cuts(&rt, rt.alloc(), &NO_ROOM_FOR_LINES)
}

// An assembled brain; the output has no room for its second line.
static NO_ROOM: [CutRun<'static>; 1] = [CutRun {
    job: Job {
        red: BACK,
        room: 9,
        ..ASSEMBLE
    },
    held: "Move 0 1\n",
    line: "ants: output failed\n",
}];

#[test]
fn an_assembled_brain_that_is_cut_is_a_failed_output(rt: HostRuntime) -> Result<(), Fail> {
    check_cuts(&rt, rt.alloc(), &NO_ROOM)
}
