// The command `show`.
use crate::commands::{CLOSED, Given, Job, NO_JOB, Table, check_tables};
use ant_commands::Status;
use std::test::Fail;

// The seed 12345, and the world of one red ant between rocks.
pub const SHOWN: &str = "random seed: 12345\n\
    \n\
    After round 0...\n\
    cell (0, 0): rock\n\
    cell (1, 0): rock\n\
    cell (2, 0): rock\n\
    cell (0, 1): rock\n\
    cell (1, 1): red hill; red ant of id 0, dir 0, food 0, state 0, resting 0\n\
    cell (2, 1): rock\n\
    cell (0, 2): rock\n\
    cell (1, 2): rock\n\
    cell (2, 2): rock\n";

// Words that show one world.
const CALLED: [(&str, &str); 3] = [
    ("show w 12345", SHOWN),
    ("show - 12345", SHOWN),
    ("show w 0000012345", SHOWN),
];

// Texts of one world.
const SPELLED: [(&str, &str); 3] = [
    ("3\n3\n# # #\n# + #\n# # #\n", SHOWN),
    ("0003\n03\n###\n#+#\n###", SHOWN),
    ("3\r\n3\r\n# # #\r\n # + #\r\n# # #\r\n\r\n", SHOWN),
];

// Texts that are not worlds, and the line that names the first fault of each.
const REFUSED: [(&str, &str); 11] = [
    ("", "ants: w: bad width\n"),
    ("2\n3\n", "ants: w: bad width\n"),
    ("513\n3\n", "ants: w: bad width\n"),
    ("3\n2\n", "ants: w: bad height\n"),
    ("4\n4\n# # # #\n", "ants: w: row 1: missing\n"),
    ("4\n4\n# # # #\n # . . #\n# .", "ants: w: row 2: short\n"),
    ("3\n3\n###x\n#+#\n###\n", "ants: w: row 0: long\n"),
    (
        "3\n3\n##x#\n#+#\n###\n",
        "ants: w: row 0: bad cell at column 2\n",
    ),
    ("3\n3\n# # #\n # + #\n# # #\n#\n", "ants: w: extra row\n"),
    (
        "4\n3\n. # # #\n # + . #\n# # # #\n",
        "ants: w: rim open at (0, 0)\n",
    ),
    (
        "4\n3\n# # . #\n # + . #\n# # # #\n",
        "ants: w: rim open at (2, 0)\n",
    ),
];

// The command, over the world of one red ant.
const SHOW: Job<'static> = Job {
    line: "show w 12345",
    world: CLOSED,
    ..NO_JOB
};

// Worlds that are shown, and texts that are refused.
static WORLDS: [Table<'static>; 3] = [
    Table {
        job: SHOW,
        given: Given::Line,
        status: Status::Done,
        rows: &CALLED,
    },
    Table {
        job: SHOW,
        given: Given::World,
        status: Status::Done,
        rows: &SPELLED,
    },
    Table {
        job: SHOW,
        given: Given::World,
        status: Status::Input,
        rows: &REFUSED,
    },
];

#[test]
fn show_prints_the_seed_and_the_world_or_names_its_first_fault(
    rt: HostRuntime,
) -> Result<(), Fail> {
    check_tables(&rt, rt.alloc(), &WORLDS)
}
