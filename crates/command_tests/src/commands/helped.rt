// What the program prints about itself.
use crate::commands::{
    CutRun, Given, Job, NO_JOB, Table, Told, check_cuts, check_rows, check_text,
};
use ant_commands::Status;
use std::test::Fail;

// The line of the version.
const VERSION: [(&str, &str); 1] = [("--version", "ants 1.2.0-dev\n")];

// The words that request it.
static ASKED: Table<'static> = Table {
    job: NO_JOB,
    given: Given::Line,
    status: Status::Done,
    rows: &VERSION,
};

// How the page of all commands begins, some of its lines, and how it ends.
static PAGE: Told<'static> = Told {
    start: "ants 1.2.0-dev plays the ant world of the ICFP Programming Contest 2004.\n\nusage: ants COMMAND WORD.. [OPTION]..\n",
    lines: "  run WORLD RED BLACK --seed N --rounds N [OPTION]..\n  view WORLD RED BLACK BREAKS --seed N --rounds N [OPTION]..\n  cup --worlds WORLD.. --brains BRAIN.. --seed N --rounds N [OPTION]..\n  workload SEED ROUNDS WORKERS\n  show WORLD SEED\n  --help\nOptions:\n  --dump D      dumps after rounds: none, all, or as 0,10,100; none\n  --corpse N    food that a dead ant leaves, 0 to 9; 3\n  --labels      prints which state each label leads to, not the brain\nWorkers of run, save, resume and advance look ahead, which is slower; those of\ncup play games at the same time, which is faster. None changes what is printed.\n  0  all of the output was written\n  1  a word isn't UTF-8; nothing is written\n  2  the words are not a command\n  3  a file could not be read\n  4  the output failed\n  5  a file was refused, or an element of a world has no room\n  6  out of memory\n",
    end: "docs/RULES.md has the rules and the files, docs/COMMANDS.md the commands.\n",
};

// The words that request the page.
const HELP: Job<'static> = Job {
    line: "--help",
    ..NO_JOB
};

static HELPED: Job<'static> = HELP;

#[test]
fn the_page_and_the_version_are_printed(rt: HostRuntime) -> Result<(), Fail> {
    check_text(&rt, rt.alloc(), &HELPED, &PAGE)?;
    check_rows(&rt, rt.alloc(), &ASKED)
}

// The page, whose second push fails.
static CUTS: [CutRun<'static>; 1] = [CutRun {
    job: Job {
        failing_push: 2,
        ..HELP
    },
    held: "ants 1.2.0-dev plays the ant world of the ICFP Programming Contest 2004.\n\nusage: ants COMMAND WORD.. [OPTION]..\n\nGive a file for each word in capitals, or a number if its line says so; - is\nstandard input. Options come last, in any order.\n\n",
    line: "ants: output failed\n",
}];

#[test]
fn a_page_that_is_cut_is_a_failed_output(rt: HostRuntime) -> Result<(), Fail> {
    check_cuts(&rt, rt.alloc(), &CUTS)
}
