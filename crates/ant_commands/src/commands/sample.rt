// The task's sample brain.
ghost use Rattle.std.specs.Prelude.{◌≡◌, IfOk};
ghost use Rattle.ant_commands.specs.Sample.{sample_brain};

use brain_read::{Brain, Cond, Instr};
use hex_geometry::{Side, Sight};
use match_run::OutOfMemory;
use std::alloc::Global;

// Its instructions, by state.
const SAMPLE: [Instr; 16] = [
    Instr::Sense {
        sight: Sight::Ahead,
        yes: 1,
        no: 3,
        cond: Cond::Food,
    },
    Instr::Move { yes: 2, no: 0 },
    Instr::PickUp { yes: 8, no: 0 },
    Instr::Flip {
        bound: 3,
        yes: 4,
        no: 5,
    },
    Instr::Turn {
        side: Side::Left,
        next: 0,
    },
    Instr::Flip {
        bound: 2,
        yes: 6,
        no: 7,
    },
    Instr::Turn {
        side: Side::Right,
        next: 0,
    },
    Instr::Move { yes: 0, no: 3 },
    Instr::Sense {
        sight: Sight::Ahead,
        yes: 9,
        no: 11,
        cond: Cond::Home,
    },
    Instr::Move { yes: 10, no: 8 },
    Instr::Drop { next: 0 },
    Instr::Flip {
        bound: 3,
        yes: 12,
        no: 13,
    },
    Instr::Turn {
        side: Side::Left,
        next: 8,
    },
    Instr::Flip {
        bound: 2,
        yes: 14,
        no: 15,
    },
    Instr::Turn {
        side: Side::Right,
        next: 8,
    },
    Instr::Move { yes: 8, no: 11 },
];

/// The task's sample brain (the task's neurology). It fails only if memory runs out.
pub fn sample_brain(alloc: Global) -> Result<Brain, OutOfMemory>
    ensures { IfOk result (λ brain. brain ≡ sample_brain) }
{
    let list = Vec::from_slice(alloc, &SAMPLE)?;
    Ok(Brain::from_list(list))
}
