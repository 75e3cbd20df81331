// The command `gen`.
use crate::commands::{CutRun, Job, NO_JOB, check_cuts};
use std::test::Fail;

// Words of `gen`.
const GEN: &str = "gen 12345 --width 64 --height 64 --rocks 0 --blobs 1";

// The command, with these words.
const GENERATE: Job<'static> = Job {
    line: GEN,
    ..NO_JOB
};

// Outputs with room for some bytes, and what each holds of the world when it is full.
static CUTS: [CutRun<'static>; 4] = [
    CutRun {
        job: Job {
            room: 0,
            ..GENERATE
        },
        held: "",
        line: "ants: output failed\n",
    },
    CutRun {
        job: Job {
            room: 1,
            ..GENERATE
        },
        held: "6",
        line: "ants: output failed\n",
    },
    CutRun {
        job: Job {
            room: 6,
            ..GENERATE
        },
        held: "64\n64\n",
        line: "ants: output failed\n",
    },
    CutRun {
        job: Job {
            room: 9,
            ..GENERATE
        },
        held: "64\n64\n# #",
        line: "ants: output failed\n",
    },
];

#[test]
fn output_that_is_full_holds_a_prefix_of_a_world(rt: HostRuntime) -> Result<(), Fail> {
    check_cuts(&rt, rt.alloc(), &CUTS)
}
